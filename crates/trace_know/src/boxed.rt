//! A run as it stands in a list: in memory of its own, so that moving it moves only a pointer.
//!
//! In a contract a boxed run is the run. So `absorb`, `extend`, `fill` and `give_back` have the clauses of those of the
//! same name in `run`: they open the box, which a list of pointers asks for, and hand on.

ghost use Rattle.std.specs.Prelude.{◌≡◌, ◌+◌, ◌<◌, ◌≤◌, length, slice_index_or, map, [], IfOk, IfErr, OnOk, OnErr, vec_len, vec_capacity};
ghost use Rattle.std.specs.VecDeque.{deque_capacity};
ghost use Rattle.trace_know.specs.declared.segment.TheConstants.{PLACES};
ghost use Rattle.trace_know.specs.View.{join};
ghost use Rattle.trace_know.specs.Rows.{single};
ghost use Rattle.trace_know.specs.Runs.{of_run, end_place, IsAlike, IsCounted, conflicts_among};
ghost use Rattle.trace_know.specs.Touching.{CanTakeIn, FitTogether, IsNoLonger, TakesIn};
ghost use Rattle.trace_know.specs.declared.cell.Known.TheVariants.{One};

use crate::cell::Known;
use crate::run::{self, Run};
use mpi_model::Event;
use std::alloc::{AllocError, Global};
use std::marker::Model;

/// A run in memory of its own. In a contract it is the run.
#[derive(Drop)]
pub(crate) struct BoxedRun {
    run: Box<Run>,
}

impl Model for BoxedRun {
    ghost use Rattle.trace_know.specs.declared.run.Run.{Run};
    ghost use Rattle.trace_know.specs.contracts.run.Run as flat;

    ghost Value = { Run };

    ghost coded = { flat.the_row.coded };

    ghost view = { λ b. b.run.value };
}

impl BoxedRun {
    /// The run, moved into memory of its own. Fails with `AllocError` when memory is refused, and the run is dropped.
    pub(crate) fn new(alloc: Global, run: Run) -> Result<BoxedRun, AllocError>
        ensures { IfOk result (λ boxed. boxed ≡ run) }
    {
        let run = Box::new(alloc, run)?;
        Ok(BoxedRun { run })
    }

    /// A reference to the run.
    pub(crate) fn get(&self) -> &Run
        ensures { result.now ≡ self.now }
    {
        &self.run
    }

    /// The run, moved out of its memory.
    fn into_run(self) -> Run
        ensures { result ≡ self }
    {
        Box::into_inner(self.run)
    }

    /// The allocator of its memory.
    pub(crate) fn allocator(&self) -> Global {
        *Box::allocator(&self.run)
    }

    /// The rank of all its cells.
    pub(crate) fn rank(&self) -> u32
        ensures { result ≡ self.now.rank }
    {
        self.run.rank
    }

    /// The place of its first cell.
    pub(crate) fn first(&self) -> u64
        ensures { result ≡ self.now.first }
    {
        self.run.first
    }

    /// How many cells the run has.
    pub(crate) fn len(&self) -> usize
        ensures { result ≡ length self.now.cells.items }
    {
        self.run.cells.len()
    }

    /// How many cells stand before the first contradiction.
    pub(crate) fn sound(&self) -> usize
        ensures { result ≡ self.now.sound }
    {
        self.run.sound
    }

    /// How many cells are contradictions.
    pub(crate) fn conflicts(&self) -> usize
        ensures { result ≡ self.now.conflicts }
    {
        self.run.conflicts
    }

    /// The cell at an index.
    pub(crate) fn cell(&self, i: usize) -> &Known
        requires { i < length self.now.cells.items }
        ensures { result.now ≡ slice_index_or self.now.cells.items i result.now }
    {
        &self.run.cells[i]
    }

    /// Gives the run room for so many more cells.
    pub(crate) fn reserve(&mut self, more: usize) -> Result<(), AllocError>
        ensures same { IsAlike self.new self.old }
        ensures room { OnOk result (length self.old.cells.items + more ≤ deque_capacity self.new.cells) }
    {
        self.run.cells.reserve(more)
    }

    /// Moves the events to the run, which has no cell yet, and room for them. The list keeps its memory.
    pub(crate) fn fill(&mut self, events: &mut Vec<Event>)
        requires none { self.old.cells.items ≡ [] }
        requires room { vec_len events.old ≤ deque_capacity self.old.cells }
        ensures same { (self.new.rank ≡ self.old.rank) × (self.new.first ≡ self.old.first) }
        ensures cells { self.new.cells.items ≡ map (λ e. One e) events.old.items }
        ensures counted { IsCounted self.new }
        ensures events { events.new.items ≡ [] }
        ensures capacity { vec_capacity events.new ≡ vec_capacity events.old }
        ensures fits { length events.old.items ≤ vec_capacity events.new }
    {
        run::fill(&mut self.run, events)
    }

    /// Moves the events of the run, which has no contradiction, back to a list that has room for them, and no event.
    pub(crate) fn give_back(self, events: &mut Vec<Event>)
        requires none { events.old.items ≡ [] }
        requires room { length self.cells.items ≤ vec_capacity events.old }
        requires sound { conflicts_among self.cells.items ≡ 0 }
        ensures { map (λ e. One e) events.new.items ≡ self.cells.items }
    {
        run::give_back(self.into_run(), events)
    }
}

/// Takes all that another piece of the same rank has. The piece is no longer than the run, and
/// touches or overlaps it.
pub(crate) fn absorb(run: &mut BoxedRun, piece: BoxedRun)
    requires piece { CanTakeIn piece run.old }
    requires shorter { IsNoLonger piece run.old }
    requires room { FitTogether (deque_capacity run.old.cells) piece run.old }
    ensures taken { TakesIn piece run.old run.new }
    ensures capacity { deque_capacity run.new.cells ≡ deque_capacity run.old.cells }
{
    run::absorb(&mut run.run, piece.into_run())
}

/// Gives the run room for a piece that it touches, and takes all that the piece has. At `Err` the
/// run has what it had, and the piece comes back.
pub(crate) fn grow_by(run: &mut BoxedRun, piece: BoxedRun) -> Result<(), BoxedRun>
    requires piece { CanTakeIn piece run.old }
    requires shorter { IsNoLonger piece run.old }
    requires end { end_place run.old ≤ PLACES }
    ensures ok { OnOk result (TakesIn piece run.old run.new) }
    ensures err { OnErr result (IsAlike run.new run.old) }
    ensures back { IfErr result (λ b. b ≡ piece) }
{
    if run::make_room(&mut run.run, &piece.run).is_err() {
        return Err(piece);
    }
    absorb(run, piece);
    Ok(())
}

/// Gives the run room for one cell more, and adds what is known of the place after the last. At `Err` the run has what
/// it had.
pub(crate) fn extend(run: &mut BoxedRun, known: Known) -> Result<(), AllocError>
    requires counted { IsCounted run.old }
    ensures ok { OnOk result (of_run run.new ≡ join (of_run run.old) (single run.old.rank (end_place run.old) known)) }
    ensures len { OnOk result (length run.new.cells.items ≡ length run.old.cells.items + 1) }
    ensures same { (run.new.rank ≡ run.old.rank) × (run.new.first ≡ run.old.first) }
    ensures counted { IsCounted run.new }
    ensures err { OnErr result (IsAlike run.new run.old) }
{
    run::extend(&mut run.run, known)
}
