//! The parts of an answer.
//!
//! At each of its ways out, a function that makes or copies an answer drops all that it has made so far, and is proved
//! over that. So an answer is made, copied and kept in parts.

ghost use Rattle.std.specs.Prelude.{◌≡◌, IfOk, map};
ghost use Rattle.std.specs.FinMap.{empty};
ghost use Rattle.trace_node.specs.ByRank.{IsReading, IsReadingOf, TakesReading};
ghost use Rattle.trace_node.specs.Stopped.{stopped};

use crate::stuck::Stuck;
use mpi_model::OpName;
use std::alloc::{AllocError, Global};
use trace_know::{Knowledge, listing_laws};
use trace_ops::State;
use trace_pair::Pair;
use trace_wait::Round;

/// How far one rank can be read, and where it is contradicted.
#[derive(Debug, Drop)]
pub(crate) struct RankReading {
    pub prefix: u64,
    pub beyond: bool,
    pub unread: bool,
    pub conflicts: Vec<(u32, u64)>,
}

impl RankReading {
    /// The reading of a rank, by what is known of it alone.
    pub(crate) fn of(alloc: Global, rank: u32, know: &Knowledge) -> Result<RankReading, AllocError>
        ensures { IfOk result (IsReadingOf rank know.now) }
    {
        let conflicts = know.conflict_places(alloc)?;
        Ok(RankReading {
            prefix: know.prefix(rank),
            beyond: know.beyond(rank),
            unread: know.is_unread(rank),
            conflicts,
        })
    }
}

/// How far the ranks can be read, and where they are contradicted.
#[derive(Drop)]
pub(crate) struct Reading {
    pub prefixes: Vec<u64>,
    pub beyond: Vec<bool>,
    pub unread: Vec<bool>,
    pub conflicts: Vec<(u32, u64)>,
}

impl Reading {
    /// The reading before the first rank. Takes no memory.
    pub(crate) fn none(alloc: Global) -> Reading
        ensures { IsReading 0 empty result }
    {
        listing_laws();
        Reading {
            prefixes: Vec::new(alloc),
            beyond: Vec::new(alloc),
            unread: Vec::new(alloc),
            conflicts: Vec::new(alloc),
        }
    }

    /// Adds the reading of the next rank.
    pub(crate) fn taking(self, one: RankReading) -> Result<Reading, AllocError>
        ensures { IfOk result (TakesReading one self) }
    {
        let mut more = self;
        more.prefixes.push(one.prefix)?;
        more.beyond.push(one.beyond)?;
        more.unread.push(one.unread)?;
        more.conflicts.extend_from_slice(&one.conflicts)?;
        Ok(more)
    }

    /// The same in memory of its own. Fails with `AllocError` when memory is refused.
    pub(crate) fn try_clone(&self) -> Result<Reading, AllocError>
        ensures prefixes { IfOk result (λ copy. copy.prefixes.items ≡ self.now.prefixes.items) }
        ensures beyond { IfOk result (λ copy. copy.beyond.items ≡ self.now.beyond.items) }
        ensures unread { IfOk result (λ copy. copy.unread.items ≡ self.now.unread.items) }
        ensures conflicts { IfOk result (λ copy. copy.conflicts.items ≡ self.now.conflicts.items) }
    {
        Ok(Reading {
            prefixes: self.prefixes.clone()?,
            beyond: self.beyond.clone()?,
            unread: self.unread.clone()?,
            conflicts: self.conflicts.clone()?,
        })
    }
}

/// Which messages were received, and which may still be.
#[derive(Drop)]
pub(crate) struct Matching {
    pub pairs: Vec<Pair>,
    pub postponed: Vec<OpName>,
}

impl Matching {
    /// The same in memory of its own. Fails with `AllocError` when memory is refused.
    pub(crate) fn try_clone(&self) -> Result<Matching, AllocError>
        ensures pairs { IfOk result (λ copy. copy.pairs.items ≡ self.now.pairs.items) }
        ensures postponed { IfOk result (λ copy. copy.postponed.items ≡ self.now.postponed.items) }
    {
        Ok(Matching {
            pairs: self.pairs.clone()?,
            postponed: self.postponed.clone()?,
        })
    }
}

/// The rounds of collective calls, how each rank stands, and which ranks wait for ever.
#[derive(Drop)]
pub(crate) struct Waiting {
    pub rounds: Vec<Round>,
    pub states: Vec<State>,
    pub stuck: Vec<Stuck>,
}

impl Waiting {
    /// The same in memory of its own, the conditions of stuck ranks among it. Fails with `AllocError` when memory is
    /// refused.
    pub(crate) fn try_clone(&self) -> Result<Waiting, AllocError>
        ensures rounds { IfOk result (λ copy. copy.rounds.items ≡ self.now.rounds.items) }
        ensures states { IfOk result (λ copy. copy.states.items ≡ self.now.states.items) }
        ensures stuck { IfOk result (λ copy. map stopped copy.stuck.items ≡ map stopped self.now.stuck.items) }
    {
        Ok(Waiting {
            rounds: self.rounds.clone()?,
            states: self.states.clone()?,
            stuck: copies_of(*self.stuck.allocator(), &self.stuck)?,
        })
    }
}

fn copies_of(alloc: Global, stuck: &[Stuck]) -> Result<Vec<Stuck>, AllocError>
    ensures { IfOk result (λ copies. map stopped copies.items ≡ map stopped stuck.now) }
{
    let mut copies = Vec::with_capacity(alloc, stuck.len())?;
    for s in stuck {
        copies.push(s.try_clone(alloc)?)?;
    }
    Ok(copies)
}
