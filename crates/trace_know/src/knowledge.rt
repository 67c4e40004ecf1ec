//! Knowledge: the join of the segments that were taken.

ghost use Rattle.std.specs.Prelude.{◌≡◌, ◌↔◌, ◌+◌, ◌++◌, ◌∷◌, [], ◌^◌, ◌<◌, ◌≤◌, IsTrue, OnOk, OnErr, IfOk, IfErr, IfSome, IsSome, length, map, slice_get};
ghost use Rattle.std.specs.FinMap.{empty, insert, entries, len};
ghost use Rattle.std.specs.Option.{option_map, option_copied};
ghost use Rattle.trace_know.specs.declared.segment.TheConstants.{PLACES};
ghost use Rattle.trace_know.specs.Cell.{shown, put_known};
ghost use Rattle.trace_know.specs.Placed.{ArePlaced, IsPast, IsPlaced, IsKnowledge};
ghost use Rattle.trace_know.specs.Listing.{cells_of, conflicts_of};
ghost use Rattle.trace_know.specs.Prefix.{events_of, prefix_of, is_beyond, is_unread};
ghost use Rattle.trace_know.specs.Runs.{of_run, placed_cells, IsAlike, IsFilled};
ghost use Rattle.trace_know.specs.Segment.{IsSegment, placed_events};
ghost use Rattle.trace_know.specs.Trace.{facts_of, view_of};
ghost use Rattle.trace_know.specs.View.{IsBelow, cell, join};

use crate::boxed::BoxedRun;
use crate::cell::{Cell, Known, cell_of, known_of};
use crate::compare::{holds_all, same_cells};
use crate::copies::{boxed_copy, copies_of};
use crate::patches::join_runs;
use crate::readable::Readable;
use crate::readers::{
    any_from, cell_in, conflict_in, conflict_places_in, count_cells, count_conflicts, is_unread_in,
    known_in, prefix_in, readable_in,
};
use crate::ready::{ReadySegment, piece_of};
use crate::ready_piece::ReadyPiece;
use crate::run::{run_of, run_of_cells};
use crate::run_list::RunList;
use crate::runs::{take_cell, take_or_return};
use crate::segment::Segment;
use crate::walk::Walk;
use mpi_model::Event;
use std::alloc::{AllocError, AllocFailed, Global};
use std::marker::Model;

/// The run, where there is one alone.
fn only_run(runs: &RunList) -> Option<&BoxedRun>
    ensures { IfSome result (λ run. runs.now.items ≡ run.now ∷ []) }
{
    if runs.len() != 1 {
        return None;
    }
    Some(runs.at(0))
}

/// What is known of each place of each rank. Empty knowledge takes no memory; a copy takes its own.
#[derive(Drop)]
pub struct Knowledge {
    alloc: Global,
    runs: RunList,
    /// An upper bound on the number of cells.
    most: usize,
}

impl Model for Knowledge {
    ghost use Rattle.std.specs.Coded.{coded_ℕ, coded×};
    ghost use Rattle.std.specs.FinMap as map;
    ghost use Rattle.trace_know.specs.Runs.{of_runs, Above};
    ghost use Rattle.trace_know.specs.View.{View};
    ghost use Rattle.trace_know.specs.contracts.cell.Known as known;

    ghost Value = { View };

    ghost coded = { map.code (coded× coded_ℕ coded_ℕ) known.the_row.coded };

    ghost use Rattle.trace_know.specs.Runs.{IsHeld};

    ghost view = { λ k. of_runs k.runs.items };

    ghost invariant = { λ k. IsHeld k.most k.runs.items };
}

impl Knowledge {
    /// Knowledge of nothing. Takes no memory.
    pub fn new(alloc: Global) -> Knowledge
        ensures { result ≡ empty }
    {
        Knowledge {
            alloc,
            runs: RunList::new(alloc),
            most: 0,
        }
    }

    /// Joins the facts of the segment. If memory runs out, nothing changes.
    pub fn take(&mut self, segment: &Segment) -> Result<(), AllocError>
        ensures ok { OnOk result (self.new ≡ join self.old (view_of (facts_of segment.now))) }
        ensures err { OnErr result (self.new ≡ self.old) }
    {
        segment.known();
        let copy = run_of(
            self.alloc,
            segment.rank(),
            segment.first_place(),
            segment.events(),
        )?;
        let piece = BoxedRun::new(self.alloc, copy)?;
        let Ok(()) = self.join_piece(piece) else {
            return Err(AllocError);
        };
        Ok(())
    }

    /// Joins the facts of a segment that is not needed any more: its events are moved, where [`take`](Self::take)
    /// copies them. If memory runs out, nothing changes and the segment comes back.
    pub fn take_owned(&mut self, segment: Segment) -> Result<(), AllocFailed<Segment>>
        ensures ok { OnOk result (self.new ≡ join self.old (view_of (facts_of segment))) }
        ensures err { OnErr result (self.new ≡ self.old) }
        ensures back { IfErr result (λ refused. refused.value ≡ segment) }
    {
        segment.known();
        let (rank, first_place, mut events) = segment.into_parts();
        match self.take_events(rank, first_place, &mut events) {
            Ok(()) => Ok(()),
            Err(_) => Err(AllocFailed {
                value: Segment::of_parts(rank, first_place, events),
            }),
        }
    }

    /// Joins the facts of a segment that stands ready, by [`ReadySegment::new`]: it takes no memory for the events
    /// themselves. If memory runs out, nothing changes and the segment comes back.
    pub fn take_ready(&mut self, segment: ReadySegment) -> Result<(), AllocFailed<ReadySegment>>
        ensures ok { OnOk result (self.new ≡ join self.old (view_of (facts_of segment))) }
        ensures err { OnErr result (self.new ≡ self.old) }
        ensures back { IfErr result (λ refused. refused.value ≡ segment) }
    {
        match self.join_piece(segment.into_piece()) {
            Ok(()) => Ok(()),
            Err(piece) => Err(AllocFailed {
                value: ReadySegment::of_piece(piece),
            }),
        }
    }

    /// Joins the facts of a piece that stands ready, as [`take_ready`](Self::take_ready) does those of a segment. If
    /// memory runs out, nothing changes and the piece comes back.
    pub fn take_piece(&mut self, piece: ReadyPiece) -> Result<(), AllocFailed<ReadyPiece>>
        ensures ok { OnOk result (self.new ≡ join self.old (view_of (facts_of piece))) }
        ensures err { OnErr result (self.new ≡ self.old) }
        ensures back { IfErr result (λ refused. refused.value ≡ piece) }
    {
        match self.join_piece(piece.into_run()) {
            Ok(()) => Ok(()),
            Err(run) => Err(AllocFailed {
                value: ReadyPiece::of_run(run),
            }),
        }
    }

    /// Joins the events of a segment, and moves them. At `Err` nothing changes, and the events stay in the list.
    fn take_events(
        &mut self,
        rank: u32,
        first_place: u64,
        events: &mut Vec<Event>,
    ) -> Result<(), AllocError>
        requires { IsSegment (placed_events rank first_place events.old.items) }
        ensures ok { OnOk result (self.new ≡ join self.old
            (view_of (facts_of (placed_events rank first_place events.old.items)))) }
        ensures err { OnErr result (self.new ≡ self.old) }
        ensures back { OnErr result (events.new.items ≡ events.old.items) }
    {
        let piece = piece_of(self.alloc, rank, first_place, events)?;
        match self.join_piece(piece) {
            Ok(()) => Ok(()),
            Err(piece) => {
                piece.give_back(events);
                Err(AllocError)
            }
        }
    }

    /// Joins all that the other knows. If memory runs out, nothing changes. A single run that continues ours costs its
    /// own cells. Several runs cost their cells and those of our runs that touch one with something new; for every
    /// other run of ours a pointer is moved.
    pub fn join(&mut self, other: &Knowledge) -> Result<(), AllocError>
        ensures ok { OnOk result (self.new ≡ join self.old other.now) }
        ensures err { OnErr result (self.new ≡ self.old) }
    {
        match only_run(&other.runs) {
            Some(run) => self.join_run(run),
            None => self.join_patch(other),
        }
    }

    /// Joins the cells of a run that another keeps.
    fn join_run(&mut self, run: &BoxedRun) -> Result<(), AllocError>
        requires filled { IsFilled run.now }
        requires placed { IsKnowledge (of_run run.now) }
        ensures ok { OnOk result (self.new ≡ join self.old (of_run run.now)) }
        ensures err { OnErr result (self.new ≡ self.old) }
    {
        let piece = boxed_copy(self.alloc, run)?;
        let Ok(()) = self.join_piece(piece) else {
            return Err(AllocError);
        };
        Ok(())
    }

    /// Joins all that the other knows, by a patch of its runs with something new.
    fn join_patch(&mut self, other: &Knowledge) -> Result<(), AllocError>
        ensures ok { OnOk result (self.new ≡ join self.old other.now) }
        ensures err { OnErr result (self.new ≡ self.old) }
    {
        let most = self.most_with(other.count())?;
        join_runs(self.alloc, &mut self.runs, &other.runs)?;
        self.most = most;
        Ok(())
    }

    /// Sets the cell of a place past all known places: to an event, or to a contradiction (`None`). If memory runs out,
    /// nothing changes.
    pub fn put_last(
        &mut self,
        rank: u32,
        place: u64,
        event: Option<Event>,
    ) -> Result<(), AllocError>
        requires placed { IsPlaced rank place (put_known event) }
        requires last { IsPast self.old rank place }
        ensures ok { OnOk result (self.new ≡ insert self.old (rank, place) (put_known event)) }
        ensures err { OnErr result (self.new ≡ self.old) }
    {
        let most = self.most_with(1)?;
        take_cell(self.alloc, &mut self.runs, rank, place, known_of(event))?;
        self.most = most;
        Ok(())
    }

    /// Sets the cells of a rank from a place on, one place after another, all past what is known. The list becomes the
    /// cells, without a move unless a known place touches them. If memory runs out, nothing changes.
    pub fn put_run(&mut self, rank: u32, first: u64, cells: Vec<Known>) -> Result<(), AllocError>
        requires some { 0 < length cells.items }
        requires places { first + length cells.items ≤ PLACES }
        requires placed { ArePlaced rank first cells.items }
        requires last { IsPast self.old rank first }
        ensures ok { OnOk result (entries self.new ≡ entries self.old ++ placed_cells rank first cells.items) }
        ensures err { OnErr result (self.new ≡ self.old) }
    {
        let run = run_of_cells(rank, first, cells);
        let piece = BoxedRun::new(self.alloc, run)?;
        let Ok(()) = self.join_piece(piece) else {
            return Err(AllocError);
        };
        Ok(())
    }

    /// All places of which something is known, in rising order of rank and place: the rank, the place, and what is
    /// known of it. A walk is cheaper than looking each place up with [`cell_at`](Self::cell_at).
    pub fn cells(&self) -> Walk<'_>
        ensures { result ≡ entries self.now }
    {
        Walk::new(&self.runs)
    }

    /// Whether each place is known here at least as well as in the other: nothing is below one event, and each event is
    /// below a contradiction.
    pub fn contains(&self, other: &Knowledge) -> bool
        ensures { IsTrue result ↔ IsBelow other.now self.now }
    {
        holds_all(&self.runs, Walk::new(&other.runs))
    }

    /// What is known of a place.
    pub fn cell(&self, rank: u32, place: u64) -> Cell<'_>
        ensures { shown result ≡ cell self.now rank place }
    {
        cell_of(self.known_at(rank, place))
    }

    /// How many places are known.
    pub fn count(&self) -> usize
        ensures { result ≡ len self.now }
    {
        count_cells(&self.runs)
    }

    /// The `i`-th known place, from 0, in rising order of rank and place: the rank, the place, and what is known of it.
    pub fn cell_at(&self, i: usize) -> Option<(u32, u64, Cell<'_>)>
        ensures { option_map (λ at. ((at.0, at.1), shown at.2)) result ≡ slice_get (cells_of self.now) i }
    {
        let (rank, place, known) = cell_in(&self.runs, i)?;
        Some((rank, place, cell_of(Some(known))))
    }

    /// How many places have a contradiction.
    pub fn conflicts(&self) -> usize
        ensures { result ≡ length (conflicts_of self.now) }
    {
        count_conflicts(&self.runs)
    }

    /// The rank and the place of the `i`-th contradiction, in rising order of rank and place.
    pub fn conflict(&self, i: usize) -> Option<(u32, u64)>
        ensures { result ≡ slice_get (conflicts_of self.now) i }
    {
        conflict_in(&self.runs, i)
    }

    /// The ranks and the places of all contradictions, in rising order of rank and place, found in one walk. Fails with
    /// `AllocError` when memory is refused.
    pub fn conflict_places(&self, alloc: Global) -> Result<Vec<(u32, u64)>, AllocError>
        ensures { IfOk result (λ places. places.items ≡ conflicts_of self.now) }
    {
        conflict_places_in(alloc, &self.runs)
    }

    /// The readable prefix of a rank: one event is known of each place below it, and none of them is
    /// the Enter of an unread call.
    pub fn prefix(&self, rank: u32) -> u64
        ensures { result ≡ prefix_of self.now rank }
    {
        prefix_in(&self.runs, rank)
    }

    /// Whether something is known at or past the readable prefix of a rank.
    pub fn beyond(&self, rank: u32) -> bool
        ensures { result ≡ is_beyond self.now rank }
    {
        any_from(&self.runs, rank, self.prefix(rank))
    }

    /// Whether the readable prefix of a rank ends at the Enter of an unread call. Such a rank is
    /// [`beyond`](Self::beyond) its prefix.
    pub fn is_unread(&self, rank: u32) -> bool
        ensures { result ≡ is_unread self.now rank }
    {
        is_unread_in(&self.runs, rank)
    }

    /// The events below the readable prefix of a rank, in order. It takes no memory: the events are borrowed.
    pub fn readable(&self, rank: u32) -> Readable<'_>
        ensures { result ≡ events_of self.now rank }
    {
        readable_in(&self.runs, rank)
    }

    /// Whether both know the same of each place, times included.
    pub fn same(&self, other: &Knowledge) -> bool
        ensures { IsTrue result ↔ (self.now ≡ other.now) }
    {
        same_cells(self.cells(), other.cells())
    }

    /// A copy of all that is known. Fails with `AllocError` when memory is refused. Time and memory are linear in the
    /// number of cells.
    pub fn try_clone(&self) -> Result<Knowledge, AllocError>
        ensures { IfOk result (λ copy. copy ≡ self.now) }
    {
        Ok(Knowledge {
            alloc: self.alloc,
            runs: copies_of(self.alloc, &self.runs)?,
            most: self.most,
        })
    }

    /// Tells what holds of all that is known. It does nothing: it is for proofs.
    pub fn known(&self)
        ensures { IsKnowledge self.now }
    {
        let _ = &self.runs;
    }

    /// What is known of a place, where something is.
    fn known_at(&self, rank: u32, place: u64) -> Option<&Known>
        ensures { option_copied result ≡ cell self.now rank place }
    {
        known_in(&self.runs, rank, place)
    }

    /// Joins the cells of a run. If memory runs out, nothing changes and the run comes back.
    fn join_piece(&mut self, piece: BoxedRun) -> Result<(), BoxedRun>
        requires filled { IsFilled piece }
        requires placed { IsKnowledge (of_run piece) }
        ensures ok { OnOk result (self.new ≡ join self.old (of_run piece)) }
        ensures err { OnErr result (self.new ≡ self.old) }
        ensures back { IfErr result (λ b. IsAlike b piece) }
    {
        let Ok(most) = self.most_with(piece.len()) else {
            return Err(piece);
        };
        match take_or_return(&mut self.runs, piece) {
            Ok(()) => {
                self.most = most;
                Ok(())
            }
            Err(piece) => Err(piece),
        }
    }

    /// No fewer than there are cells after so many more, if that fits: else there is no memory for
    /// them either. The cells are counted anew only where the bound would pass all numbers.
    fn most_with(&self, more: usize) -> Result<usize, AllocError>
        ensures { IfOk result (λ most. (len self.now + more ≤ most) × (most < 2 ^ 64)) }
    {
        if let Some(most) = self.most.checked_add(more) {
            return Ok(most);
        }
        self.count().checked_add(more).ok_or(AllocError)
    }
}
