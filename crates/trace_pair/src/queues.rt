//! The sets of an index: messages and receives, found by a few probes of an ordered map.
ghost use Rattle.std.specs.Prelude.{◌≡◌, ◌||◌, ℕ, true, false, None, OnOk, IfSome, IfNone, is_some, List, Option, []};
ghost use Rattle.mpi_model.specs.Fit.{admits};
ghost use Rattle.trace_ops.specs.Order.{Has};
ghost use Rattle.trace_pair.specs.Sets.{AddsTo, DropsFrom};
ghost use Rattle.trace_pair.specs.Indexed.{IsFirstMessage, IsFirstReceive, name_lt};
ghost use Rattle.trace_pair.specs.Queues.{IsBestAmong, NoneFits, SomeFits, of_kind, had, kinds_with, IsEarlierOf, NoneFitsReceive};

use crate::groups::{add, drop_at, first_at};
use crate::one_or_many::Members;
use mpi_model::{Message, OpName, Receive};
use std::alloc::{AllocError, Global};
use std::collections::BTreeMap;
use std::marker::Model;

/// A set of messages, by receiver, sender, tag and communicator; and the same ones without the tag, for a receive of
/// any.
#[derive(Drop)]
pub(crate) struct Messages {
    alloc: Global,
    tagged: BTreeMap<(u32, u32, u32, u32), Members<Message>>,
    lanes: BTreeMap<(u32, u32, u32), Members<Message>>,
}

impl Model for Messages {
    ghost use Rattle.std.specs.Prelude.{List};
    ghost use Rattle.mpi_model.specs.declared.message.Message.{Message};
    ghost use Rattle.trace_pair.specs.Groups.{members};
    ghost use Rattle.trace_pair.specs.Queues.{AreQueued};

    ghost Value = { List Message };

    ghost view = { λ s. members s.tagged };

    ghost invariant = { λ s. AreQueued s.tagged s.lanes };
}

impl Messages {
    /// An empty set of messages. It takes no memory.
    pub(crate) fn empty(alloc: Global) -> Messages
        ensures { result ≡ [] }
    {
        Messages {
            alloc,
            tagged: BTreeMap::new(alloc),
            lanes: BTreeMap::new(alloc),
        }
    }

    /// Puts a message into both maps: where the second lacks memory, it is taken out of the first again.
    pub(crate) fn insert(&mut self, m: Message) -> Result<(), AllocError>
        ensures { OnOk result (AddsTo self.old self.new m) }
    {
        add(
            self.alloc,
            &mut self.tagged,
            (m.to, m.from, m.tag, m.comm),
            m,
        )?;
        match add(self.alloc, &mut self.lanes, (m.to, m.from, m.comm), m) {
            Ok(()) => Ok(()),
            Err(error) => {
                drop_at(
                    self.alloc,
                    &mut self.tagged,
                    &(m.to, m.from, m.tag, m.comm),
                    &m,
                );
                drop_at(self.alloc, &mut self.lanes, &(m.to, m.from, m.comm), &m);
                Err(error)
            }
        }
    }

    /// Takes a message out of both maps.
    pub(crate) fn remove(&mut self, m: &Message)
        ensures { DropsFrom self.old self.new m.now }
    {
        drop_at(
            self.alloc,
            &mut self.tagged,
            &(m.to, m.from, m.tag, m.comm),
            m,
        );
        drop_at(self.alloc, &mut self.lanes, &(m.to, m.from, m.comm), m);
    }

    /// The first message whose envelope fits that of a receive whose source is told.
    pub(crate) fn first_for(&self, q: &Receive) -> Option<Message>
        ensures some { IfSome result (IsFirstMessage self.now q.now) }
        ensures none { IfNone result (is_some q.now.source ≡ true → NoneFitsReceive self.now q.now) }
    {
        match q.source {
            None => None,
            Some(source) => match q.tag {
                Some(tag) => first_at(&self.tagged, &(q.at, source, tag, q.comm)),
                None => first_at(&self.lanes, &(q.at, source, q.comm)),
            },
        }
    }
}

/// The kinds of receives that a set ever had: by whether the source is told, and a tag. A kind that it didn't have
/// needs no probe.
#[derive(Clone, Copy)]
pub(crate) struct Kinds {
    pub(crate) told: bool,
    pub(crate) told_any_tag: bool,
    pub(crate) untold: bool,
    pub(crate) untold_any_tag: bool,
}

/// The kinds of a set that never had a receive.
pub(crate) const NO_KINDS: Kinds = Kinds {
    told: false,
    told_any_tag: false,
    untold: false,
    untold_any_tag: false,
};

impl Kinds {
    /// Whether receives with such a source and tag were among them.
    pub(crate) fn has(self, source: Option<u32>, tag: Option<u32>) -> bool
        ensures { result ≡ had self source tag }
    {
        match source {
            Some(_) => match tag {
                Some(_) => self.told,
                None => self.told_any_tag,
            },
            None => match tag {
                Some(_) => self.untold,
                None => self.untold_any_tag,
            },
        }
    }

    /// Adds the kind of this source and tag.
    pub(crate) fn marked(self, source: Option<u32>, tag: Option<u32>) -> Kinds
        ensures { result ≡ kinds_with self source tag }
    {
        Kinds {
            told: self.told || (source.is_some() && tag.is_some()),
            told_any_tag: self.told_any_tag || (source.is_some() && tag.is_none()),
            untold: self.untold || (source.is_none() && tag.is_some()),
            untold_any_tag: self.untold_any_tag || (source.is_none() && tag.is_none()),
        }
    }
}

/// A set of receives, by receiver, tag, source and communicator.
#[derive(Drop)]
pub(crate) struct Receives {
    alloc: Global,
    kinds: Kinds,
    groups: BTreeMap<(u32, Option<u32>, Option<u32>, u32), Members<Receive>>,
}

impl Model for Receives {
    ghost use Rattle.std.specs.Prelude.{List};
    ghost use Rattle.mpi_model.specs.declared.message.Receive.{Receive};
    ghost use Rattle.trace_pair.specs.Groups.{members};
    ghost use Rattle.trace_pair.specs.Queues.{AreGrouped};

    ghost Value = { List Receive };

    ghost view = { λ s. members s.groups };

    ghost invariant = { λ s. AreGrouped s.kinds s.groups };
}

impl Receives {
    /// An empty set of receives. It takes no memory.
    pub(crate) fn empty(alloc: Global) -> Receives
        ensures { result ≡ [] }
    {
        Receives {
            alloc,
            kinds: NO_KINDS,
            groups: BTreeMap::new(alloc),
        }
    }

    /// Puts a receive in, and marks its kind.
    pub(crate) fn insert(&mut self, q: Receive) -> Result<(), AllocError>
        ensures { OnOk result (AddsTo self.old self.new q) }
    {
        self.kinds = self.kinds.marked(q.source, q.tag);
        add(
            self.alloc,
            &mut self.groups,
            (q.at, q.tag, q.source, q.comm),
            q,
        )?;
        Ok(())
    }

    /// Takes a receive out. Its kind stays marked: the set had it.
    pub(crate) fn remove(&mut self, q: &Receive)
        ensures { DropsFrom self.old self.new q.now }
    {
        drop_at(
            self.alloc,
            &mut self.groups,
            &(q.at, q.tag, q.source, q.comm),
            q,
        );
    }

    /// The first of the receives with this source and tag whose envelope fits the message's.
    fn first_with(&self, m: &Message, source: Option<u32>, tag: Option<u32>) -> Option<Receive>
        requires source { admits source m.now.from ≡ true }
        requires tag { admits tag m.now.tag ≡ true }
        ensures { IsBestAmong self.now m.now (of_kind source tag) result }
    {
        if !self.kinds.has(source, tag) {
            return None;
        }
        first_at(&self.groups, &(m.to, tag, source, m.comm))
    }

    /// Whether one of the receives with this source and tag has an envelope that fits the message's.
    fn fits_with(&self, m: &Message, source: Option<u32>, tag: Option<u32>) -> bool
        requires source { admits source m.now.from ≡ true }
        requires tag { admits tag m.now.tag ≡ true }
        ensures yes { result ≡ true → SomeFits self.now m.now }
        ensures no { result ≡ false → IsBestAmong self.now m.now (of_kind source tag) None }
    {
        if !self.kinds.has(source, tag) {
            return false;
        }
        first_at(&self.groups, &(m.to, tag, source, m.comm)).is_some()
    }

    /// Whether the envelope of one of the receives fits the message's: as `first_for`, but no receive is copied.
    pub(crate) fn fits_some(&self, m: &Message) -> bool
        ensures yes { result ≡ true → SomeFits self.now m.now }
        ensures no { result ≡ false → NoneFits self.now m.now }
    {
        let source = Some(m.from);
        let tag = Some(m.tag);
        if self.fits_with(m, source, tag) {
            return true;
        }
        if self.fits_with(m, source, None) {
            return true;
        }
        if self.fits_with(m, None, tag) {
            return true;
        }
        self.fits_with(m, None, None)
    }

    /// The first receive whose envelope fits the message's.
    pub(crate) fn first_for(&self, m: &Message) -> Option<Receive>
        ensures some { IfSome result (IsFirstReceive self.now m.now) }
        ensures none { IfNone result (NoneFits self.now m.now) }
    {
        let source = Some(m.from);
        let tag = Some(m.tag);
        let told = earlier_of(
            self.first_with(m, source, tag),
            self.first_with(m, source, None),
        );
        let untold = earlier_of(
            self.first_with(m, None, tag),
            self.first_with(m, None, None),
        );
        earlier_of(told, untold)
    }
}

/// Whether the one comes before the other: by rank, then by call, and then by part.
fn is_named_before(a: &OpName, b: &OpName) -> bool
    ensures { result ≡ name_lt a.now b.now }
{
    a.rank < b.rank
        || (a.rank == b.rank && (a.call < b.call || (a.call == b.call && a.part < b.part)))
}

/// The earlier of two receives.
fn earlier_of(a: Option<Receive>, b: Option<Receive>) -> Option<Receive>
    ensures { IsEarlierOf a b result }
{
    match a {
        None => b,
        Some(q) => match b {
            None => Some(q),
            Some(r) => if is_named_before(&r.name, &q.name) {
                Some(r)
            } else {
                Some(q)
            },
        },
    }
}
