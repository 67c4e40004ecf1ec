//! The ends of open receives, as the ranks come one after another: what is for a rank behind those that posted some
//! needs no search.

ghost use Rattle.std.specs.Prelude.{◌≡◌, ◌∷◌, false, [], OnOk, List};
ghost use Rattle.mpi_model.specs.declared.message.Receive.{Receive};
ghost use Rattle.trace_pair.specs.After.{comes_after};
ghost use Rattle.trace_pair.specs.Ends.{AreRanked, IsOfNoneAt, may_take};

use crate::ends::Ends;
use crate::reach::Reaches;
use mpi_model::{Message, Receive};
use std::alloc::{AllocError, Global};

/// The ends of some receives, and a bound that the ranks which posted them are below.
#[derive(Drop)]
pub(crate) struct RankedEnds {
    ends: Ends,
    below: u64,
}

impl RankedEnds {
    /// The ends of no receives. It takes no memory.
    pub(crate) fn empty(alloc: Global) -> RankedEnds
        ensures { AreRanked [] result }
    {
        RankedEnds {
            ends: Ends::empty(alloc),
            below: 0,
        }
    }

    /// Whether the rank may have posted one of them.
    pub(crate) fn may_be_of(&self, rank: u32) -> bool
        ensures { result ≡ false → IsOfNoneAt self.now rank }
    {
        (rank as u64) < self.below
    }

    /// Adds the end of this receive.
    pub(crate) fn insert(&mut self, q: &Receive) -> Result<(), AllocError>
        ensures { OnOk result ((opened : List Receive) → AreRanked opened self.old → AreRanked (q.now ∷ opened) self.new) }
    {
        self.ends.insert(q)?;
        self.below = self.below.max(q.at as u64 + 1);
        Ok(())
    }

    /// Whether some of the receives may take the message.
    pub(crate) fn may_take(&self, reaches: &Reaches, m: &Message) -> bool
        ensures { (xs : List Receive) → AreRanked xs self.now → result ≡ may_take (comes_after reaches.now) xs m.now }
    {
        self.ends.may_take(reaches, m)
    }
}
