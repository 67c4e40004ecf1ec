//! A run: cells of one rank without a gap, and how it takes in another.

ghost use Rattle.std.specs.Prelude.{◌≡◌, ◌+◌, ◌-◌, ◌<◌, ◌≤◌, ◌++◌, length, max, true, false, IfOk, OnOk, OnErr, IsTrue, IsFalse, slice_set, slice_index_or, map, [], ◌∷◌, vec_len, vec_capacity};
ghost use Rattle.std.specs.VecDeque.{deque_len, deque_capacity};
ghost use Rattle.trace_know.specs.declared.cell.Known.{Known as KnownValue};
ghost use Rattle.trace_know.specs.declared.cell.Known.TheVariants.{Contradiction, One};
ghost use Rattle.trace_know.specs.declared.segment.TheConstants.{PLACES};
ghost use Rattle.trace_know.specs.Cell.{join_known, is_contradiction};
ghost use Rattle.trace_know.specs.View.{join};
ghost use Rattle.trace_know.specs.Rows.{single};
ghost use Rattle.trace_know.specs.Runs.{of_run, end_place, IsAlike, IsCounted, conflicts_among, ends_prefix, sound_among};
ghost use Rattle.trace_know.specs.Touching.{CanTakeIn, FitTogether, IsNoLonger, TakesIn, Touches};

use crate::cell::{Known, enters_unread};
use mpi_model::Event;
use std::alloc::{AllocError, Global};
use std::collections::VecDeque;

/// Cells of a rank from a place on, how many of them stand before the first at which a readable
/// prefix ends, and how many are contradictions.
#[derive(Drop)]
pub(crate) struct Run {
    pub(crate) rank: u32,
    pub(crate) first: u64,
    pub(crate) cells: VecDeque<Known>,
    pub(crate) sound: usize,
    pub(crate) conflicts: usize,
}

/// Whether a cell stays as it is where the other is joined to it. Else it turns into a contradiction.
fn stays(cell: &Known, known: &Known) -> bool
    ensures stays { IsTrue result → join_known cell.now known.now ≡ cell.now }
    ensures turns { IsFalse result → (join_known cell.now known.now ≡ Contradiction) × (is_contradiction cell.now ≡ false) }
{
    match (cell, known) {
        (Known::One(a), Known::One(b)) => a.same(b),
        (Known::One(_), Known::Contradiction) => false,
        (Known::Contradiction, _) => true,
    }
}

/// Turns the cell at an index into a contradiction.
fn turn(run: &mut Run, at: usize)
    requires at { at < length run.old.cells.items }
    requires one { (d : KnownValue) → is_contradiction (slice_index_or run.old.cells.items at d) ≡ false }
    requires counted { IsCounted run.old }
    ensures cells { run.new.cells.items ≡ slice_set run.old.cells.items at Contradiction }
    ensures same { (run.new.rank ≡ run.old.rank) × (run.new.first ≡ run.old.first) }
    ensures len { deque_len run.new.cells ≡ deque_len run.old.cells }
    ensures capacity { deque_capacity run.new.cells ≡ deque_capacity run.old.cells }
    ensures counted { IsCounted run.new }
{
    run.cells[at] = Known::Contradiction;
    run.sound = run.sound.min(at);
    run.conflicts += 1;
}

/// Joins what is known to the cell at an index.
fn meet(run: &mut Run, at: usize, known: Known)
    requires at { at < length run.old.cells.items }
    requires counted { IsCounted run.old }
    ensures view { of_run run.new ≡ join (of_run run.old) (single run.old.rank (run.old.first + at) known) }
    ensures same { (run.new.rank ≡ run.old.rank) × (run.new.first ≡ run.old.first) }
    ensures len { deque_len run.new.cells ≡ deque_len run.old.cells }
    ensures capacity { deque_capacity run.new.cells ≡ deque_capacity run.old.cells }
    ensures counted { IsCounted run.new }
{
    if stays(&run.cells[at], &known) {
        return;
    }
    turn(run, at);
}

/// How many cells stand before the first at which a readable prefix ends, with one more at the end.
fn sound_with(run: &Run, last: &Known) -> usize
    requires room { deque_len run.now.cells < deque_capacity run.now.cells }
    requires counted { IsCounted run.now }
    ensures { result ≡ sound_among (run.now.cells.items ++ last.now ∷ []) }
{
    if run.sound < run.cells.len() {
        return run.sound;
    }
    if last.ends_prefix() {
        return run.sound;
    }
    run.sound + 1
}

/// How many contradictions there are with one more cell.
fn conflicts_with(run: &Run, known: &Known) -> usize
    requires room { deque_len run.now.cells < deque_capacity run.now.cells }
    requires counted { IsCounted run.now }
    ensures { result ≡ conflicts_among (known.now ∷ run.now.cells.items) }
{
    if known.is_contradiction() {
        return run.conflicts + 1;
    }
    run.conflicts
}

/// How many cells stand before the first at which a readable prefix ends, with one more at the front.
fn sound_from(run: &Run, first: &Known) -> usize
    requires room { deque_len run.now.cells < deque_capacity run.now.cells }
    requires counted { IsCounted run.now }
    ensures { result ≡ sound_among (first.now ∷ run.now.cells.items) }
{
    if first.ends_prefix() {
        return 0;
    }
    run.sound + 1
}

/// Adds what is known of the place after the last.
fn add_back(run: &mut Run, known: Known)
    requires room { deque_len run.old.cells < deque_capacity run.old.cells }
    requires counted { IsCounted run.old }
    ensures cells { run.new.cells.items ≡ run.old.cells.items ++ known ∷ [] }
    ensures same { (run.new.rank ≡ run.old.rank) × (run.new.first ≡ run.old.first) }
    ensures len { deque_len run.new.cells ≡ deque_len run.old.cells + 1 }
    ensures capacity { deque_capacity run.new.cells ≡ deque_capacity run.old.cells }
    ensures counted { IsCounted run.new }
{
    let sound = sound_with(run, &known);
    run.conflicts = conflicts_with(run, &known);
    run.sound = sound;
    run.cells.push_back_reserved(known);
}

/// Gives the run room for one cell more, and adds what is known of the place after the last. At `Err` the run has what
/// it had.
pub(crate) fn extend(run: &mut Run, known: Known) -> Result<(), AllocError>
    requires counted { IsCounted run.old }
    ensures ok { OnOk result (of_run run.new ≡ join (of_run run.old) (single run.old.rank (end_place run.old) known)) }
    ensures len { OnOk result (length run.new.cells.items ≡ length run.old.cells.items + 1) }
    ensures same { (run.new.rank ≡ run.old.rank) × (run.new.first ≡ run.old.first) }
    ensures counted { IsCounted run.new }
    ensures err { OnErr result (IsAlike run.new run.old) }
{
    run.cells.reserve(1)?;
    add_back(run, known);
    Ok(())
}

/// Adds what is known of the place before the first.
fn add_front(run: &mut Run, known: Known)
    requires room { deque_len run.old.cells < deque_capacity run.old.cells }
    requires before { 0 < run.old.first }
    requires counted { IsCounted run.old }
    ensures cells { run.new.cells.items ≡ known ∷ run.old.cells.items }
    ensures same { (run.new.rank ≡ run.old.rank) × (run.new.first + 1 ≡ run.old.first) }
    ensures len { deque_len run.new.cells ≡ deque_len run.old.cells + 1 }
    ensures capacity { deque_capacity run.new.cells ≡ deque_capacity run.old.cells }
    ensures counted { IsCounted run.new }
{
    let sound = sound_from(run, &known);
    run.conflicts = conflicts_with(run, &known);
    run.sound = sound;
    run.cells.push_front_reserved(known);
    run.first -= 1;
}

/// Joins what is known to the cell at an index, or adds it as the last.
fn meet_back(run: &mut Run, at: usize, known: Known)
    requires at { at ≤ length run.old.cells.items }
    requires room { at < deque_capacity run.old.cells }
    requires counted { IsCounted run.old }
    ensures view { of_run run.new ≡ join (of_run run.old) (single run.old.rank (run.old.first + at) known) }
    ensures same { (run.new.rank ≡ run.old.rank) × (run.new.first ≡ run.old.first) }
    ensures len { deque_len run.new.cells ≡ max (deque_len run.old.cells) (at + 1) }
    ensures capacity { deque_capacity run.new.cells ≡ deque_capacity run.old.cells }
    ensures counted { IsCounted run.new }
{
    if at < run.cells.len() {
        meet(run, at, known);
    } else {
        add_back(run, known);
    }
}

/// Takes all that another piece of the same rank has. The piece is no longer than the run, and
/// touches or overlaps it.
pub(crate) fn absorb(run: &mut Run, piece: Run)
    requires piece { CanTakeIn piece run.old }
    requires shorter { IsNoLonger piece run.old }
    requires room { FitTogether (deque_capacity run.old.cells) piece run.old }
    ensures taken { TakesIn piece run.old run.new }
    ensures capacity { deque_capacity run.new.cells ≡ deque_capacity run.old.cells }
{
    if piece.first >= run.first {
        absorb_back(run, piece);
    } else {
        absorb_front(run, piece);
    }
}

/// Gives the run room for a piece that it touches. It has what it had.
pub(crate) fn make_room(run: &mut Run, piece: &Run) -> Result<(), AllocError>
    requires touches { Touches piece.now run.old }
    requires ends { (end_place run.old ≤ PLACES) × (end_place piece.now ≤ PLACES) }
    ensures same { IsAlike run.new run.old }
    ensures room { OnOk result (FitTogether (deque_capacity run.new.cells) piece.now run.old) }
{
    let from = run.first.min(piece.first);
    let held = run.cells.len();
    let end = run.first + held as u64;
    let to = end.max(piece.first + piece.cells.len() as u64);
    run.cells.reserve((to - from) as usize - held)
}

/// Joins a piece that begins within the run, or right behind it, and for which there is room.
fn absorb_back(run: &mut Run, piece: Run)
    requires piece { CanTakeIn piece run.old }
    requires begins { run.old.first ≤ piece.first }
    requires room { end_place piece ≤ run.old.first + deque_capacity run.old.cells }
    ensures taken { TakesIn piece run.old run.new }
    ensures capacity { deque_capacity run.new.cells ≡ deque_capacity run.old.cells }
{
    let mut cells = piece.cells;
    let mut at = (piece.first - run.first) as usize;
    while let Some(known) = cells.pop_front() {
        meet_back(run, at, known);
        at += 1;
    }
}

/// Joins a piece that begins no later than the run and ends within it, or right before it.
fn absorb_front(run: &mut Run, piece: Run)
    requires piece { CanTakeIn piece run.old }
    requires begins { piece.first ≤ run.old.first }
    requires ends { end_place piece ≤ end_place run.old }
    requires room { end_place run.old ≤ piece.first + deque_capacity run.old.cells }
    ensures taken { TakesIn piece run.old run.new }
    ensures capacity { deque_capacity run.new.cells ≡ deque_capacity run.old.cells }
{
    let mut cells = piece.cells;
    let mut place = piece.first + cells.len() as u64;
    while let Some(known) = cells.pop_back() {
        place -= 1;
        if place < run.first {
            add_front(run, known);
        } else {
            meet(run, (place - run.first) as usize, known);
        }
    }
}

/// The events of a rank, each copied once, as a run of their own.
pub(crate) fn run_of(
    alloc: Global,
    rank: u32,
    first: u64,
    events: &[Event],
) -> Result<Run, AllocError>
    ensures rank { IfOk result (λ r. r.rank ≡ rank) }
    ensures first { IfOk result (λ r. r.first ≡ first) }
    ensures cells { IfOk result (λ r. r.cells.items ≡ map (λ e. One e) events.now) }
    ensures counted { IfOk result (λ r. IsCounted r) }
{
    let mut run = run_with_room(alloc, rank, first, events.len())?;
    for event in events {
        add_back(&mut run, Known::One(event.try_clone()?));
    }
    Ok(run)
}

/// A run of a rank from a place on that has no cell yet, and room for so many.
pub(crate) fn run_with_room(
    alloc: Global,
    rank: u32,
    first: u64,
    count: usize,
) -> Result<Run, AllocError>
    ensures place { IfOk result (λ r. (r.rank ≡ rank) × (r.first ≡ first)) }
    ensures none { IfOk result (λ r. r.cells.items ≡ []) }
    ensures counted { IfOk result (λ r. IsCounted r) }
    ensures room { IfOk result (λ r. count ≤ deque_capacity r.cells) }
{
    Ok(Run {
        rank,
        first,
        cells: VecDeque::with_capacity(alloc, count)?,
        sound: 0,
        conflicts: 0,
    })
}

/// Moves the events to cells that have room for them, of which there are none yet: the last event first, so that the
/// list keeps its memory. Tells how many stand before the first at which a readable prefix ends.
#[tactic(auto, using(crate::proofs::Counts::event_moved))]
fn move_in(cells: &mut VecDeque<Known>, events: &mut Vec<Event>) -> usize
    requires none { cells.old.items ≡ [] }
    requires room { vec_len events.old ≤ deque_capacity cells.old }
    ensures cells { cells.new.items ≡ map (λ e. One e) events.old.items }
    ensures sound { result ≡ sound_among cells.new.items }
    ensures events { events.new.items ≡ [] }
    ensures capacity { vec_capacity events.new ≡ vec_capacity events.old }
    ensures fits { length events.old.items ≤ vec_capacity events.new }
{
    let mut sound = 0;
    while let Some(event) = events.pop() {
        sound = if enters_unread(&event) { 0 } else { sound + 1 };
        cells.push_front_reserved(Known::One(event));
    }
    sound
}

/// Moves the events to a run that has no cell yet, and room for them. The list keeps its memory.
pub(crate) fn fill(run: &mut Run, events: &mut Vec<Event>)
    requires none { run.old.cells.items ≡ [] }
    requires room { vec_len events.old ≤ deque_capacity run.old.cells }
    ensures same { (run.new.rank ≡ run.old.rank) × (run.new.first ≡ run.old.first) }
    ensures cells { run.new.cells.items ≡ map (λ e. One e) events.old.items }
    ensures counted { IsCounted run.new }
    ensures events { events.new.items ≡ [] }
    ensures capacity { vec_capacity events.new ≡ vec_capacity events.old }
    ensures fits { length events.old.items ≤ vec_capacity events.new }
{
    run.sound = move_in(&mut run.cells, events);
    run.conflicts = 0;
}

/// Moves the events of a run back to a list that has room for them, of which there are none yet. The run has no
/// contradiction.
#[tactic(auto, using(crate::proofs::Counts::event_moved))]
pub(crate) fn give_back(run: Run, events: &mut Vec<Event>)
    requires none { events.old.items ≡ [] }
    requires room { length run.cells.items ≤ vec_capacity events.old }
    requires sound { conflicts_among run.cells.items ≡ 0 }
    ensures { map (λ e. One e) events.new.items ≡ run.cells.items }
{
    let mut cells = run.cells;
    while let Some(known) = cells.pop_front() {
        if let Known::One(event) = known {
            let Ok(()) = events.push(event) else {
                unreachable!();
            };
        }
    }
}

/// How many cells stand before the first at which a readable prefix ends.
fn sound_among(cells: &[Known]) -> usize
    ensures { result ≡ sound_among cells.now }
{
    let mut sound = 0;
    for known in cells {
        if known.ends_prefix() {
            return sound;
        }
        sound += 1;
    }
    sound
}

/// How many contradictions there are, where a readable prefix passes so many cells.
fn conflicts_behind(cells: &[Known], sound: usize) -> usize
    requires { sound ≡ sound_among cells.now }
    ensures { result ≡ conflicts_among cells.now }
{
    if sound == cells.len() {
        return 0;
    }
    let mut conflicts = 0;
    for known in cells {
        if known.is_contradiction() {
            conflicts += 1;
        }
    }
    conflicts
}

/// The cells as a run: the list becomes it, and none is moved.
pub(crate) fn run_of_cells(rank: u32, first: u64, cells: Vec<Known>) -> Run
    ensures place { (result.rank ≡ rank) × (result.first ≡ first) }
    ensures cells { result.cells.items ≡ cells.items }
    ensures counted { IsCounted result }
{
    let sound = sound_among(&cells);
    let conflicts = conflicts_behind(&cells, sound);
    Run {
        rank,
        first,
        cells: VecDeque::from(cells),
        sound,
        conflicts,
    }
}

/// The cells of events as a run, of which so many stand before the first at which a readable prefix ends: the list
/// becomes it, and none is moved.
pub(crate) fn run_of_events(rank: u32, first: u64, cells: Vec<Known>, sound: usize) -> Run
    requires sound { sound ≡ sound_among cells.items }
    requires conflicts { conflicts_among cells.items ≡ 0 }
    ensures place { (result.rank ≡ rank) × (result.first ≡ first) }
    ensures cells { result.cells.items ≡ cells.items }
    ensures counted { IsCounted result }
{
    Run {
        rank,
        first,
        cells: VecDeque::from(cells),
        sound,
        conflicts: 0,
    }
}

/// A run of one cell.
pub(crate) fn run_of_one(
    alloc: Global,
    rank: u32,
    first: u64,
    known: Known,
) -> Result<Run, AllocError>
    ensures rank { IfOk result (λ r. r.rank ≡ rank) }
    ensures first { IfOk result (λ r. r.first ≡ first) }
    ensures cells { IfOk result (λ r. r.cells.items ≡ known ∷ []) }
    ensures counted { IfOk result (λ r. IsCounted r) }
{
    let mut run = Run {
        rank,
        first,
        cells: VecDeque::with_capacity(alloc, 1)?,
        sound: 0,
        conflicts: 0,
    };
    add_back(&mut run, known);
    Ok(run)
}
