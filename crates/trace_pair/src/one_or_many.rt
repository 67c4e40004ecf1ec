//! A sorted set that has no tree of its own while it has one member.
ghost use Rattle.std.specs.Prelude.{◌≡◌, false, IfSome, IfNone, OnOk, OnErr, IfOk, IsTrue, ◌||◌, if◌then◌else◌};
ghost use Rattle.std.specs.BTreeSet.{contains};
ghost use Rattle.std.specs.Ordering.{is_eq};
ghost use Rattle.trace_pair.specs.Groups.{HasMember, IsFirstMember};

use std::alloc::{AllocError, Global};
use std::collections::BTreeSet;
use std::marker::Model;

/// One member, or a set: the first element of a set takes a whole tree node, with room for eleven.
#[derive(Drop)]
enum OneOrMany<T: Ord> {
    One(T),
    Many(BTreeSet<T>),
}

/// A sorted set, of which nearly each has one member.
#[derive(Drop)]
pub(crate) struct Members<T: Ord> {
    kept: OneOrMany<T>,
}

impl<T: Ord> Model for Members<T> {
    ghost use Rattle.std.specs.BTreeSet.{BTreeSet};

    ghost Value = { BTreeSet T };

    ghost use Rattle.trace_pair.specs.OneOrMany.{set_of};

    ghost view = { λ m. set_of m.kept };
}

/// Puts the key into the set.
fn put<T: Ord + Drop>(set: &mut BTreeSet<T>, x: T) -> Result<(), AllocError>
    ensures ok { OnOk result ((d : T) → contains T.cmp set.new d ≡ (is_eq (T.cmp x d) || contains T.cmp set.old d)) }
    ensures err { OnErr result ((d : T) → contains T.cmp set.new d ≡ contains T.cmp set.old d) }
{
    set.insert(x)?;
    Ok(())
}

/// The set of both: of one, if they are equal.
fn set_of_both<T: Ord + Drop>(alloc: Global, x: T, y: T) -> Result<BTreeSet<T>, AllocError>
    ensures { IfOk result (λ s. (d : T) → contains T.cmp s d ≡ (is_eq (T.cmp y d) || is_eq (T.cmp x d))) }
{
    let mut set = BTreeSet::new(alloc);
    put(&mut set, x)?;
    put(&mut set, y)?;
    Ok(set)
}

impl<T: Ord> Members<T> {
    /// The set of one member, without a tree.
    pub(crate) fn one(x: T) -> Members<T>
        ensures { (d : T) → contains T.cmp result d ≡ is_eq (T.cmp x d) }
    {
        Members {
            kept: OneOrMany::One(x),
        }
    }

    /// The first member in the set's order; `None` if it has none.
    pub(crate) fn first(&self) -> Option<T>
    where
        T: Copy,
        ensures some { IfSome result (IsFirstMember T.cmp self.now) }
        ensures none { IfNone result ((d : T) → contains T.cmp self.now d ≡ false) }
    {
        match &self.kept {
            OneOrMany::One(x) => Some(*x),
            OneOrMany::Many(set) => set.first().copied(),
        }
    }

    /// Whether a set has no member.
    pub(crate) fn is_empty(&self) -> bool
    where
        T: Copy,
        ensures none { IsTrue result → (d : T) → contains T.cmp self.now d ≡ false }
        ensures some { result ≡ false → HasMember T.cmp self.now }
    {
        self.first().is_none()
    }

    /// Puts a member in, for which a set of one gets its tree. If memory runs out, nothing changes.
    pub(crate) fn insert(&mut self, alloc: Global, x: T) -> Result<(), AllocError>
    where
        T: Copy + Drop,
        ensures ok { OnOk result ((d : T) → contains T.cmp self.new d ≡ (is_eq (T.cmp x d) || contains T.cmp self.old d)) }
        ensures err { OnErr result ((d : T) → contains T.cmp self.new d ≡ contains T.cmp self.old d) }
    {
        let only = match &mut self.kept {
            OneOrMany::One(only) => *only,
            OneOrMany::Many(set) => return put(set, x),
        };
        self.kept = OneOrMany::Many(set_of_both(alloc, only, x)?);
        Ok(())
    }

    /// Takes a member out. What is left is an empty set where it was the only one, which takes no
    /// memory; and a set that shrinks to one member stays a set, since its node may be needed again.
    pub(crate) fn remove(&mut self, alloc: Global, x: &T)
    where
        T: Copy + Drop,
        ensures { (d : T) → contains T.cmp self.new d ≡ (if is_eq (T.cmp x.now d) then false else contains T.cmp self.old d) }
    {
        let only = match &mut self.kept {
            OneOrMany::One(only) => *only,
            OneOrMany::Many(set) => {
                set.remove(x);
                return;
            }
        };
        if x.cmp(&only).is_eq() {
            self.kept = OneOrMany::Many(BTreeSet::new(alloc));
        }
    }
}
