//! What is checked of a run: from its pieces to the two lines.

ghost use Rattle.std.specs.Prelude.{◌≡◌, ◌<◌, ◌^◌, ℕ, true, IfOk, length, map, string_bytes};
ghost use Rattle.std.specs.FinMap.{empty};
ghost use Rattle.trace_know.specs.Trace.{facts_of, view_of};
ghost use Rattle.trace_know.specs.View.{join};
ghost use Rattle.trace_node.specs.Answer.{states_of};
ghost use Rattle.trace_ops.specs.Ops.{AreOwn};
ghost use Rattle.trace_pair.specs.Table.{table_of};
ghost use Rattle.trace_check.specs.Checker.{IsCheckBy, IsCheckOf, held};

use crate::lines::check_lines;
use mpi_model::Layout;
use std::alloc::{AllocError, Global};
use std::marker::Model;
use trace_know::{Knowledge, ReadyPiece, join_laws, prefix_laws, view_laws};
use trace_ops::{RankOps, State, all_ops, ops_laws, ops_of};
use trace_pair::{PairIndex, PairTable, pair_all};
use trace_stuck::stuck;
use trace_wait::{conditions, rounds};

/// All that is known of the run of a layout, and an index of its pairs that follows it piece by piece.
#[derive(Drop)]
pub struct Checker<'a> {
    alloc: Global,
    layout: &'a Layout,
    know: Knowledge,
    index: PairIndex,
}

impl<'a> Model for Checker<'a> {
    ghost use Rattle.std.specs.Prelude.{◌≡◌};
    ghost use Rattle.trace_ops.specs.RankOps.{all_ops};
    ghost use Rattle.trace_check.specs.Checker.{Held};
    ghost use Rattle.trace_check.specs.Codes.{coded_held};

    ghost Value = { Held };

    ghost coded = { coded_held };

    ghost view = { λ c. record { layout = c.layout.now; know = c.know } };

    ghost invariant = { λ c. c.index ≡ all_ops c.layout.now c.know };
}

impl<'a> Checker<'a> {
    /// A checker that has read nothing. Fails with `AllocError` when memory is refused.
    pub fn new(alloc: Global, layout: &'a Layout) -> Result<Checker<'a>, AllocError>
        ensures { IfOk result (λ c. c ≡ held layout.now empty) }
    {
        ops_laws();
        let know = Knowledge::new(alloc);
        let index = PairIndex::of_all(alloc, all_ops(alloc, layout, &know)?)?;
        Ok(Checker {
            alloc,
            layout,
            know,
            index,
        })
    }

    /// Reads a piece: its facts are joined, and the index follows its rank, if the layout has that rank. Fails with
    /// `AllocError` when memory is refused, and then the checker is lost.
    pub fn reading(self, piece: ReadyPiece) -> Result<Checker<'a>, AllocError>
        ensures { IfOk result (λ c. c ≡ held self.entry.layout (join self.entry.know (view_of (facts_of piece)))) }
    {
        ops_laws();
        join_laws();
        view_laws();
        prefix_laws();
        let (alloc, layout, rank) = (self.alloc, self.layout, piece.rank());
        let mut know = self.know;
        know.take_piece(piece)?;
        let mut index = self.index;
        if rank < layout.ranks() {
            index.set(rank, ops_of(alloc, layout, &know, rank)?)?;
        }
        Ok(Checker {
            alloc,
            layout,
            know,
            index,
        })
    }

    /// Joins what was read elsewhere, and makes the index once more. Fails with `AllocError` when memory is refused,
    /// and then the checker is lost.
    pub fn joining(self, other: &Knowledge) -> Result<Checker<'a>, AllocError>
        ensures { IfOk result (λ c. c ≡ held self.entry.layout (join self.entry.know other.now)) }
    {
        ops_laws();
        let (alloc, layout) = (self.alloc, self.layout);
        let mut know = self.know;
        know.join(other)?;
        let ops = all_ops(alloc, layout, &know)?;
        let index = PairIndex::of_all(alloc, ops)?;
        Ok(Checker {
            alloc,
            layout,
            know,
            index,
        })
    }

    /// How many messages and receives were read so far.
    pub fn size(&self) -> usize {
        let mut size = 0usize;
        for own in self.index.ops() {
            size = size.saturating_add(own.sends().len());
            size = size.saturating_add(own.receives().len());
        }
        size
    }

    /// The two lines of the check, and whether both say that it held. The contract says that they do: the index gives
    /// the pairs of the rules, and the verdict is right. Fails with `AllocError` when memory is refused.
    pub fn lines(&self) -> Result<(String, bool), AllocError>
        ensures text { IfOk result (λ told. IsCheckOf self.now.layout self.now.know (string_bytes told.0)) }
        ensures held { IfOk result (λ told. told.1 ≡ true) }
    {
        ops_laws();
        self.layout.known();
        let ops = all_ops(self.alloc, self.layout, &self.know)?;
        let first = self.index.pairs()?;
        let second = pair_all(self.alloc, &ops)?;
        lines_of(self.alloc, self.layout, &ops, &first, &second)
    }
}

/// The two lines of what the ranks did, by the two tables of their pairs, and whether both say so.
fn lines_of(
    alloc: Global,
    layout: &Layout,
    ops: &[RankOps],
    first: &PairTable,
    second: &PairTable,
) -> Result<(String, bool), AllocError>
    requires few { length ops.now < 2 ^ 32 }
    requires own { AreOwn 0 ops.now }
    requires first { first.now ≡ table_of ops.now }
    requires second { second.now ≡ table_of ops.now }
    ensures text { IfOk result (λ told. IsCheckBy layout.now ops.now (string_bytes told.0)) }
    ensures held { IfOk result (λ told. told.1 ≡ true) }
{
    let rounds = rounds(alloc, layout, ops)?;
    let conditions = conditions(alloc, layout, ops, first, &rounds)?;
    let states = states_of(alloc, ops)?;
    let verdict = stuck(alloc, &states, &conditions)?;
    check_lines(alloc, first, second, &states, &conditions, &verdict)
}

/// How each rank stands.
fn states_of(alloc: Global, ops: &[RankOps]) -> Result<Vec<State>, AllocError>
    ensures { IfOk result (λ v. v.items ≡ states_of ops.now) }
{
    let mut states = Vec::new(alloc);
    for own in ops {
        states.push(own.state())?;
    }
    Ok(states)
}
