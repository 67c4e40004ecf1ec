//! The ends of receives: at each key the end of the one that ends last, which is all that a message asks of them.

ghost use Rattle.std.specs.Prelude.{◌≡◌, ◌∷◌, true, [], OnErr, OnOk, List};
ghost use Rattle.mpi_model.specs.declared.message.Receive.{Receive};
ghost use Rattle.mpi_model.specs.declared.message.Message.{Message};
ghost use Rattle.mpi_model.specs.Fit.{admits};
ghost use Rattle.trace_pair.specs.After.{comes_after};
ghost use Rattle.trace_pair.specs.Ends.{AreLast, IsLastAmong, IsLastFor, may_take};
ghost use Rattle.trace_pair.specs.Queues.{of_kind};

use crate::later::{later_of, with_end};
use crate::queues::{Kinds, NO_KINDS};
use crate::reach::Reaches;
use mpi_model::{Message, Receive};
use std::alloc::{AllocError, Global};
use std::collections::BTreeMap;

/// For some receives, by receiver, tag, source and communicator, the last call that ends one of them. `None` says that
/// one of them doesn't end.
#[derive(Drop)]
pub struct Ends {
    kinds: Kinds,
    last: BTreeMap<(u32, Option<u32>, Option<u32>, u32), Option<u64>>,
}

impl Ends {
    /// The ends of no receives. It takes no memory.
    pub fn empty(alloc: Global) -> Ends
        ensures { AreLast [] result }
    {
        Ends {
            kinds: NO_KINDS,
            last: BTreeMap::new(alloc),
        }
    }

    /// Adds the end of this receive. On `AllocError`, when memory is refused, they are the ends of the same receives as
    /// before.
    pub fn insert(&mut self, q: &Receive) -> Result<(), AllocError>
        ensures more { OnOk result ((opened : List Receive) → AreLast opened self.old → AreLast (q.now ∷ opened) self.new) }
        ensures same { OnErr result ((opened : List Receive) → AreLast opened self.old → AreLast opened self.new) }
    {
        let key = (q.at, q.tag, q.source, q.comm);
        let end = with_end(self.last.get(&key).copied(), q.ended);
        self.last.insert(key, end)?;
        self.kinds = self.kinds.marked(q.source, q.tag);
        Ok(())
    }

    /// The end of the last of the receives with this source and tag whose envelopes fit the message's.
    fn last_with(&self, m: &Message, source: Option<u32>, tag: Option<u32>) -> Option<Option<u64>>
        requires source { admits source m.now.from ≡ true }
        requires tag { admits tag m.now.tag ≡ true }
        ensures { (opened : List Receive) → AreLast opened self.now → IsLastAmong opened m.now (of_kind source tag) result }
    {
        if !self.kinds.has(source, tag) {
            return None;
        }
        self.last.get(&(m.to, tag, source, m.comm)).copied()
    }

    /// The end of the last of the receives whose envelopes fit the message's.
    pub(crate) fn last_for(&self, m: &Message) -> Option<Option<u64>>
        ensures { (opened : List Receive) → AreLast opened self.now → IsLastFor opened m.now result }
    {
        let source = Some(m.from);
        let tag = Some(m.tag);
        let told = later_of(
            self.last_with(m, source, tag),
            self.last_with(m, source, None),
        );
        let untold = later_of(self.last_with(m, None, tag), self.last_with(m, None, None));
        later_of(told, untold)
    }

    /// Whether some of the receives may take the message: their envelopes fit, and the message doesn't come after the
    /// receive. A few questions of a map, and one of the Barriers.
    pub fn may_take(&self, reaches: &Reaches, m: &Message) -> bool
        ensures { (xs : List Receive) → AreLast xs self.now → result ≡ may_take (comes_after reaches.now) xs m.now }
    {
        match self.last_for(m) {
            None => false,
            Some(end) => !reaches.is_after(m, m.to, end),
        }
    }
}
