//! The open receives of an index, in a lane for each key: a message asks each of the lanes that fit it for one end, and
//! then the Barriers once.

ghost use Rattle.std.specs.Prelude.{◌≡◌, true, false, None, filter, [], IfSome, IsTrue, OnOk, OnErr};
ghost use Rattle.std.specs.BTreeMap.{IsOrdered, get};
ghost use Rattle.std.specs.BTreeSet.{contains};
ghost use Rattle.std.specs.Ordering.{is_eq};
ghost use Rattle.mpi_model.specs.declared.message.Receive.{Receive};
ghost use Rattle.mpi_model.specs.Fit.{admits};
ghost use Rattle.trace_pair.specs.After.{comes_after};
ghost use Rattle.trace_pair.specs.Ends.{IsLastAmong, IsLastFor, NoneHides, NoneHidesUpTo, SomeHides, SomeHidesUpTo};
ghost use Rattle.trace_pair.specs.Groups.{ClearsAt, HasMember, HasNoneAt, HasSame, PutsAt, TakesAt};
ghost use Rattle.trace_pair.specs.KeyOrders.{receive_cmp, receive_key_cmp, receive_key_of};
ghost use Rattle.trace_pair.specs.Lanes.{is_within};
ghost use Rattle.trace_pair.specs.Queues.{of_kind};
ghost use Rattle.trace_pair.specs.Sets.{AddsTo, DropsFrom};

use crate::lanes::Lane;
use crate::later::later_of;
use crate::queues::{Kinds, NO_KINDS};
use crate::reach::Reaches;
use mpi_model::{Message, Receive};
use std::alloc::{AllocError, Global};
use std::collections::BTreeMap;
use std::marker::Model;

/// What receives name: the receiver, the tag, the source and the communicator.
type Key = (u32, Option<u32>, Option<u32>, u32);

/// Puts a lane of one receive at its key, where none stands.
fn put_first(lanes: &mut BTreeMap<Key, Lane>, q: &Receive, lane: Lane) -> Result<(), AllocError>
    requires free { get receive_key_cmp lanes.old (receive_key_of q.now) ≡ None }
    requires alone { (d : Receive) → contains receive_cmp lane d ≡ is_eq (receive_cmp q.now d) }
    ensures ok { OnOk result (PutsAt receive_key_cmp receive_cmp (receive_key_of q.now) q.now lanes.old lanes.new) }
    ensures err { OnErr result (HasSame receive_key_cmp receive_cmp lanes.old lanes.new) }
    ensures ordered { IsOrdered receive_key_cmp lanes.new }
{
    lanes.insert((q.at, q.tag, q.source, q.comm), lane)?;
    Ok(())
}

/// Adds a receive at its key.
fn add(alloc: Global, lanes: &mut BTreeMap<Key, Lane>, q: Receive) -> Result<(), AllocError>
    ensures ok { OnOk result (PutsAt receive_key_cmp receive_cmp (receive_key_of q) q lanes.old lanes.new) }
    ensures err { OnErr result (HasSame receive_key_cmp receive_cmp lanes.old lanes.new) }
    ensures ordered { IsOrdered receive_key_cmp lanes.new }
{
    if let Some(lane) = lanes.get_mut(&(q.at, q.tag, q.source, q.comm)) {
        lane.insert(q)?;
        return Ok(());
    }
    let lane = Lane::one(alloc, q)?;
    put_first(lanes, &q, lane)
}

/// Takes a receive from its key, and tells whether it left none there.
fn take_from(lanes: &mut BTreeMap<Key, Lane>, q: &Receive) -> bool
    ensures dropped { TakesAt receive_key_cmp receive_cmp (receive_key_of q.now) q.now lanes.old lanes.new }
    ensures none { IsTrue result → HasNoneAt receive_key_cmp receive_cmp lanes.new (receive_key_of q.now) }
    ensures some { result ≡ false → IfSome (get receive_key_cmp lanes.new (receive_key_of q.now)) (HasMember receive_cmp) }
    ensures ordered { IsOrdered receive_key_cmp lanes.new }
{
    match lanes.get_mut(&(q.at, q.tag, q.source, q.comm)) {
        Some(lane) => {
            lane.remove(q);
            lane.is_empty()
        }
        None => false,
    }
}

/// Takes out a key, and what stands there.
fn forget(lanes: &mut BTreeMap<Key, Lane>, key: &Key)
    ensures gone { ClearsAt receive_key_cmp receive_cmp key.now lanes.old lanes.new }
    ensures none { get receive_key_cmp lanes.new key.now ≡ None }
    ensures ordered { IsOrdered receive_key_cmp lanes.new }
{
    lanes.remove(key);
}

/// Takes a receive from its key. A key whose last receive goes, goes with it: tags that never come back would all stay.
fn drop_from(lanes: &mut BTreeMap<Key, Lane>, q: &Receive)
    ensures dropped { TakesAt receive_key_cmp receive_cmp (receive_key_of q.now) q.now lanes.old lanes.new }
    ensures used { IfSome (get receive_key_cmp lanes.new (receive_key_of q.now)) (HasMember receive_cmp) }
    ensures ordered { IsOrdered receive_key_cmp lanes.new }
{
    if !take_from(lanes, q) {
        return;
    }
    forget(lanes, &(q.at, q.tag, q.source, q.comm));
}

/// A set of open receives.
#[derive(Drop)]
pub(crate) struct Opened {
    alloc: Global,
    kinds: Kinds,
    lanes: BTreeMap<Key, Lane>,
}

impl Model for Opened {
    ghost use Rattle.std.specs.Prelude.{List};
    ghost use Rattle.mpi_model.specs.declared.message.Receive.{Receive};
    ghost use Rattle.trace_pair.specs.Groups.{members};
    ghost use Rattle.trace_pair.specs.Queues.{AreGrouped};

    ghost Value = { List Receive };

    ghost view = { λ s. members s.lanes };

    ghost invariant = { λ s. AreGrouped s.kinds s.lanes };
}

impl Opened {
    /// An empty set of open receives. It takes no memory.
    pub(crate) fn empty(alloc: Global) -> Opened
        ensures { result ≡ [] }
    {
        Opened {
            alloc,
            kinds: NO_KINDS,
            lanes: BTreeMap::new(alloc),
        }
    }

    /// Puts an open receive in, and marks its kind.
    pub(crate) fn insert(&mut self, q: Receive) -> Result<(), AllocError>
        ensures { OnOk result (AddsTo self.old self.new q) }
    {
        self.kinds = self.kinds.marked(q.source, q.tag);
        add(self.alloc, &mut self.lanes, q)?;
        Ok(())
    }

    /// Takes a receive out. Its kind stays marked: the set had it.
    pub(crate) fn remove(&mut self, q: &Receive)
        ensures { DropsFrom self.old self.new q.now }
    {
        drop_from(&mut self.lanes, q);
    }

    /// The end of the last to end of the receives with this source and tag that are called no later than the limit,
    /// where there is one, and whose envelopes fit the message's.
    fn last_with(
        &self,
        m: &Message,
        source: Option<u32>,
        tag: Option<u32>,
        limit: Option<u64>,
    ) -> Option<Option<u64>>
        requires source { admits source m.now.from ≡ true }
        requires tag { admits tag m.now.tag ≡ true }
        ensures { IsLastAmong (filter (is_within limit) self.now) m.now (of_kind source tag) result }
    {
        if !self.kinds.has(source, tag) {
            return None;
        }
        match self.lanes.get(&(m.to, tag, source, m.comm)) {
            Some(lane) => lane.latest(limit),
            None => None,
        }
    }

    /// The end of the last to end of all of them.
    fn last_for(&self, m: &Message, limit: Option<u64>) -> Option<Option<u64>>
        ensures { IsLastFor (filter (is_within limit) self.now) m.now result }
    {
        let source = Some(m.from);
        let tag = Some(m.tag);
        let told = later_of(
            self.last_with(m, source, tag, limit),
            self.last_with(m, source, None, limit),
        );
        let untold = later_of(
            self.last_with(m, None, tag, limit),
            self.last_with(m, None, None, limit),
        );
        later_of(told, untold)
    }

    /// Whether some that are called no later than the limit, where there is one, may have taken the message: where it
    /// comes after the last to end, it comes after all.
    fn hides_within(&self, reaches: &Reaches, m: &Message, limit: Option<u64>) -> bool
        ensures yes { result ≡ true → SomeHides (comes_after reaches.now) (filter (is_within limit) self.now) m.now }
        ensures no { result ≡ false → NoneHides (comes_after reaches.now) (filter (is_within limit) self.now) m.now }
    {
        match self.last_for(m, limit) {
            None => false,
            Some(end) => !reaches.is_after(m, m.to, end),
        }
    }

    /// Whether some of them may have taken the message.
    pub(crate) fn hides(&self, reaches: &Reaches, m: &Message) -> bool
        ensures yes { result ≡ true → SomeHides (comes_after reaches.now) self.now m.now }
        ensures no { result ≡ false → NoneHides (comes_after reaches.now) self.now m.now }
    {
        self.hides_within(reaches, m, None)
    }

    /// Whether some that are called no later than the receive may have taken the message.
    pub(crate) fn hides_up_to(&self, reaches: &Reaches, m: &Message, q: &Receive) -> bool
        ensures yes { result ≡ true → SomeHidesUpTo (comes_after reaches.now) self.now m.now q.now }
        ensures no { result ≡ false → NoneHidesUpTo (comes_after reaches.now) self.now m.now q.now }
    {
        m.to == q.at && self.hides_within(reaches, m, Some(q.name.call))
    }
}
