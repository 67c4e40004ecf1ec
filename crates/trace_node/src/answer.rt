//! What a node tells of all that it knows.

ghost use Rattle.std.specs.Prelude.{◌≡◌, ◌↔◌, IsTrue, IfOk, map};
ghost use Rattle.trace_node.specs.Stopped.{stopped};

use crate::answer::parts::{Matching, Waiting};
use crate::answer::same::{has_same_calls, has_same_places, has_same_ranks};
use crate::stuck::Stuck;
use mpi_model::{OpName, Sends};
use std::alloc::AllocError;
use std::marker::Model;
use trace_ops::State;
use trace_pair::Pair;
use trace_wait::Round;

mod gather;
mod parts;
mod same;

pub(crate) use gather::{answer_of, reading_of, waiting_call, wall_of, walls_of};
pub(crate) use parts::{RankReading, Reading};

/// The answer to what is known of the run of a layout: all that the report prints.
#[derive(Drop)]
pub struct Answer {
    ranks: u32,
    sends: Sends,
    reading: Reading,
    matching: Matching,
    waiting: Waiting,
    foreign: u64,
}

impl Model for Answer {
    ghost use Rattle.std.specs.Prelude.{map};
    ghost use Rattle.trace_node.specs.Answer.{Answered};
    ghost use Rattle.trace_node.specs.Codes.{coded_answered};

    ghost Value = { Answered };

    ghost coded = { coded_answered };

    ghost use Rattle.trace_node.specs.Stopped.{stopped};

    ghost view = { λ a. record {
      ranks = a.ranks;
      sends = a.sends;
      prefixes = a.reading.prefixes.items;
      beyond = a.reading.beyond.items;
      unread = a.reading.unread.items;
      conflicts = a.reading.conflicts.items;
      pairs = a.matching.pairs.items;
      postponed = a.matching.postponed.items;
      rounds = a.waiting.rounds.items;
      states = a.waiting.states.items;
      stuck = map stopped a.waiting.stuck.items;
      foreign = a.foreign;
    } };
}

impl Answer {
    /// The number of ranks.
    pub fn ranks(&self) -> u32
        ensures { result ≡ self.now.ranks }
    {
        self.ranks
    }

    /// How sends of standard mode complete.
    pub fn sends(&self) -> Sends
        ensures { result ≡ self.now.sends }
    {
        self.sends
    }

    /// The readable prefix of each rank: how many of its events, from the first on, are known without a gap, a
    /// contradiction or an unread call.
    pub fn prefixes(&self) -> &[u64]
        ensures { result.now ≡ self.now.prefixes }
    {
        &self.reading.prefixes
    }

    /// For each rank, whether something is known at or past its readable prefix.
    pub fn beyond(&self) -> &[bool]
        ensures { result.now ≡ self.now.beyond }
    {
        &self.reading.beyond
    }

    /// For each rank, whether its readable prefix ends at the Enter of an unread call. Such a rank is also
    /// [`beyond`](Self::beyond).
    pub fn unread(&self) -> &[bool]
        ensures { result.now ≡ self.now.unread }
    {
        &self.reading.unread
    }

    /// The rank and place of each contradiction, in rising order.
    pub fn conflicts(&self) -> &[(u32, u64)]
        ensures { result.now ≡ self.now.conflicts }
    {
        &self.reading.conflicts
    }

    /// The certain pairs: messages with the receives that take them, in order of the message (MPI 4.0, 3.5).
    pub fn pairs(&self) -> &[Pair]
        ensures { result.now ≡ self.now.pairs }
    {
        &self.matching.pairs
    }

    /// The postponed messages: those in no pair that a receive without a told source fits, in their order.
    pub fn postponed(&self) -> &[OpName]
        ensures { result.now ≡ self.now.postponed }
    {
        &self.matching.postponed
    }

    /// The rounds of collective calls (MPI 4.0, 6.1), by communicator and number.
    pub fn rounds(&self) -> &[Round]
        ensures { result.now ≡ self.now.rounds }
    {
        &self.waiting.rounds
    }

    /// How each rank stands: free, waiting or ended.
    pub fn states(&self) -> &[State]
        ensures { result.now ≡ self.now.states }
    {
        &self.waiting.states
    }

    /// The stuck ranks, in rising order.
    pub fn stuck(&self) -> &[Stuck]
        ensures { map stopped result.now ≡ self.now.stuck }
    {
        &self.waiting.stuck
    }

    /// How many foreign calls were entered: the layout doesn't have their object, peer or root. The count saturates at
    /// `u64::MAX`.
    pub fn foreign(&self) -> u64
        ensures { result ≡ self.now.foreign }
    {
        self.foreign
    }

    /// The same answer in memory of its own. Fails with `AllocError` when memory is refused.
    pub fn try_clone(&self) -> Result<Answer, AllocError>
        ensures { IfOk result (λ copy. copy ≡ self.now) }
    {
        Ok(Answer {
            ranks: self.ranks,
            sends: self.sends,
            reading: self.reading.try_clone()?,
            matching: self.matching.try_clone()?,
            waiting: self.waiting.try_clone()?,
            foreign: self.foreign,
        })
    }

    /// Whether the two answers are equal.
    pub fn same(&self, other: &Answer) -> bool
        ensures { IsTrue result ↔ (self.now ≡ other.now) }
    {
        has_same_ranks(self, other) && has_same_places(self, other) && has_same_calls(self, other)
    }
}
