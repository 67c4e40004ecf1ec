//! An answer by what is known of one rank after another.

ghost use Rattle.std.specs.Prelude.{◌≡◌, IfOk};
ghost use Rattle.std.specs.FinMap.{empty};
ghost use Rattle.mpi_model.specs.Layouts.{Parts};
ghost use Rattle.trace_know.specs.View.{View};
ghost use Rattle.trace_ops.specs.RankOps.{all_ops};
ghost use Rattle.trace_node.specs.Answer.{IsAnswer};
ghost use Rattle.trace_node.specs.ByRank.{AnswersWithOps, AreTold, IsToldOf, TakesNext};
ghost use Rattle.trace_node.specs.Node.{IsWithin};

use crate::answer::{
    Answer, RankReading, Reading, answer_of, reading_of, waiting_call, wall_of, walls_of,
};
use mpi_model::Layout;
use std::alloc::{AllocError, Global};
use trace_know::{Knowledge, join_laws, listing_laws, prefix_laws};
use trace_ops::{RankOps, all_ops, ops_laws, ops_of};
use trace_pair::PairIndex;

/// What an answer needs of one rank: how far it can be read, where it is contradicted, what it did, and when it entered
/// the call in which it waits. It has no events, so those of the rank can be dropped once it is made.
#[derive(Drop)]
pub struct RankTold {
    reading: RankReading,
    ops: RankOps,
    /// In nanoseconds.
    wall: u64,
}

impl RankTold {
    /// What an answer needs of a rank, by what is known of it. Fails with `AllocError` when memory is refused.
    pub fn of(
        alloc: Global,
        layout: &Layout,
        rank: u32,
        know: &Knowledge,
    ) -> Result<RankTold, AllocError>
        ensures { IfOk result (IsToldOf layout.now rank know.now) }
    {
        let reading = RankReading::of(alloc, rank, know)?;
        let ops = ops_of(alloc, layout, know, rank)?;
        let wall = wall_of(know, rank, waiting_call(&ops));
        Ok(RankTold { reading, ops, wall })
    }
}

/// The answer in the making, rank by rank. An answer needs what each rank did and not its events. So a caller that
/// knows all of one rank can drop its events before the next rank, whereas a [`Node`](crate::Node) keeps all that is
/// known.
#[derive(Drop)]
pub struct RankByRank {
    reading: Reading,
    ops: Vec<RankOps>,
    /// When each rank entered the call in which it waits, in nanoseconds.
    walls: Vec<u64>,
}

impl RankByRank {
    /// The answer in the making before the first rank. Takes no memory.
    pub fn new(alloc: Global) -> RankByRank
        ensures { (layout : Parts) → AreTold layout empty 0 result }
    {
        RankByRank {
            reading: Reading::none(alloc),
            ops: Vec::new(alloc),
            walls: Vec::new(alloc),
        }
    }

    /// All ranks at once, by what is known of them. Fails with `AllocError` when memory is refused.
    pub fn of_all(
        alloc: Global,
        layout: &Layout,
        know: &Knowledge,
    ) -> Result<RankByRank, AllocError>
        requires { IsWithin layout.now know.now }
        ensures { IfOk result (AreTold layout.now know.now layout.now.ranks) }
    {
        let reading = reading_of(alloc, layout, know)?;
        let ops = all_ops(alloc, layout, know)?;
        let walls = walls_of(alloc, layout, know, &ops)?;
        Ok(RankByRank {
            reading,
            ops,
            walls,
        })
    }

    /// Adds what was told of the next rank. On an error the answer in the making is lost. Fails with `AllocError` when
    /// memory is refused.
    pub fn taking(self, told: RankTold) -> Result<RankByRank, AllocError>
        ensures { IfOk result (TakesNext told self) }
    {
        join_laws();
        prefix_laws();
        listing_laws();
        let RankByRank {
            reading,
            ops,
            walls,
        } = self;
        let RankTold {
            reading: one,
            ops: own,
            wall,
        } = told;
        let reading = reading.taking(one)?;
        let mut ops = ops;
        let mut walls = walls;
        walls.push(wall)?;
        ops.push(own)?;
        Ok(RankByRank {
            reading,
            ops,
            walls,
        })
    }

    /// The answer, once all ranks of the layout were added. Fails with `AllocError` when memory is refused.
    pub fn into_answer(self, alloc: Global, layout: &Layout) -> Result<Answer, AllocError>
        requires { (view : View) × AreTold layout.now view layout.now.ranks self }
        ensures { IfOk result (λ a. (view : View) → AreTold layout.now view layout.now.ranks self → IsAnswer layout.now view a) }
    {
        let told = self.into_answer_with_ops(alloc, layout)?;
        let AnswerWithOps { answer, .. } = told;
        Ok(answer)
    }

    /// The same answer, with what each rank did. Fails with `AllocError` when memory is refused.
    pub fn into_answer_with_ops(
        self,
        alloc: Global,
        layout: &Layout,
    ) -> Result<AnswerWithOps, AllocError>
        requires { (view : View) × AreTold layout.now view layout.now.ranks self }
        ensures { IfOk result (λ told. (view : View) → AreTold layout.now view layout.now.ranks self → AnswersWithOps layout.now view told) }
    {
        layout.known();
        ops_laws();
        let RankByRank {
            reading,
            ops,
            walls,
        } = self;
        let index = PairIndex::of_all(alloc, ops)?;
        let own = index.ops();
        let answer = answer_of(alloc, layout, reading, &walls, own, index.pairs()?)?;
        Ok(AnswerWithOps { answer, index })
    }
}

/// An answer, and what each rank did by all that it answers.
#[derive(Drop)]
pub struct AnswerWithOps {
    pub answer: Answer,
    index: PairIndex,
}

impl AnswerWithOps {
    /// What each rank did, by rank.
    pub fn ops(&self) -> &[RankOps]
        ensures { (layout : Parts) (view : View) → AnswersWithOps layout view self.now → result.now ≡ all_ops layout view }
    {
        self.index.ops()
    }
}
