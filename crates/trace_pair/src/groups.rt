//! A sorted set of members for each key, in an ordered map.
ghost use Rattle.std.specs.Prelude.{◌≡◌, false, None, IfSome, IfNone, OnOk, OnErr, IsTrue};
ghost use Rattle.std.specs.BTreeMap.{IsOrdered, get};
ghost use Rattle.trace_pair.specs.Groups.{ClearsAt, HasMember, HasNoneAt, HasSame, IsFirstAt, PutsAt, TakesAt, has};

use crate::one_or_many::Members;
use std::alloc::{AllocError, Global};
use std::collections::BTreeMap;

/// The first member at a key.
pub(crate) fn first_at<K: Ord, T: Ord + Copy>(sets: &BTreeMap<K, Members<T>>, key: &K) -> Option<T>
    ensures some { IfSome result (IsFirstAt K.cmp T.cmp sets.now key.now) }
    ensures none { IfNone result ((d : T) → has K.cmp T.cmp sets.now key.now d ≡ false) }
{
    match sets.get(key) {
        Some(members) => members.first(),
        None => None,
    }
}

/// Puts a member at a key where none stands.
fn put_first<K: Ord + Drop, T: Ord + Drop>(
    sets: &mut BTreeMap<K, Members<T>>,
    key: K,
    x: T,
) -> Result<(), AllocError>
    requires { get K.cmp sets.old key ≡ None }
    ensures ok { OnOk result (PutsAt K.cmp T.cmp key x sets.old sets.new) }
    ensures err { OnErr result (HasSame K.cmp T.cmp sets.old sets.new) }
    ensures ordered { IsOrdered K.cmp sets.new }
{
    sets.insert(key, Members::one(x))?;
    Ok(())
}

/// Adds a member at a key.
pub(crate) fn add<K: Ord + Drop, T: Ord + Copy + Drop>(
    alloc: Global,
    sets: &mut BTreeMap<K, Members<T>>,
    key: K,
    x: T,
) -> Result<(), AllocError>
    ensures ok { OnOk result (PutsAt K.cmp T.cmp key x sets.old sets.new) }
    ensures err { OnErr result (HasSame K.cmp T.cmp sets.old sets.new) }
    ensures ordered { IsOrdered K.cmp sets.new }
{
    if let Some(members) = sets.get_mut(&key) {
        members.insert(alloc, x)?;
        return Ok(());
    }
    put_first(sets, key, x)
}

/// Takes a member from a key, and tells whether it left none there.
fn take_from<K: Ord, T: Ord + Copy + Drop>(
    alloc: Global,
    sets: &mut BTreeMap<K, Members<T>>,
    key: &K,
    x: &T,
) -> bool
    ensures dropped { TakesAt K.cmp T.cmp key.now x.now sets.old sets.new }
    ensures none { IsTrue result → HasNoneAt K.cmp T.cmp sets.new key.now }
    ensures some { result ≡ false → IfSome (get K.cmp sets.new key.now) (HasMember T.cmp) }
    ensures ordered { IsOrdered K.cmp sets.new }
{
    match sets.get_mut(key) {
        Some(members) => {
            members.remove(alloc, x);
            members.is_empty()
        }
        None => false,
    }
}

/// Takes out a key, and what stands there.
fn forget<K: Ord + Drop, T: Ord + Drop>(sets: &mut BTreeMap<K, Members<T>>, key: &K)
    ensures gone { ClearsAt K.cmp T.cmp key.now sets.old sets.new }
    ensures none { get K.cmp sets.new key.now ≡ None }
    ensures ordered { IsOrdered K.cmp sets.new }
{
    sets.remove(key);
}

/// Takes a member from a key. A key whose last member goes, goes with it: tags that never come back
/// would all stay.
pub(crate) fn drop_at<K: Ord + Drop, T: Ord + Copy + Drop>(
    alloc: Global,
    sets: &mut BTreeMap<K, Members<T>>,
    key: &K,
    x: &T,
)
    ensures dropped { TakesAt K.cmp T.cmp key.now x.now sets.old sets.new }
    ensures used { IfSome (get K.cmp sets.new key.now) (HasMember T.cmp) }
    ensures ordered { IsOrdered K.cmp sets.new }
{
    if !take_from(alloc, sets, key, x) {
        return;
    }
    forget(sets, key);
}
