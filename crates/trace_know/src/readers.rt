//! What runs tell: their cells in order, their counts, and what is readable of a rank.

ghost use Rattle.std.specs.Prelude.{◌≡◌, ◌↔◌, ◌+◌, ◌++◌, ◌^◌, ◌<◌, IsTrue, IfOk, OnOk, IsSome, length, slice_get, map, MatchOption, None};
ghost use Rattle.std.specs.Option.{option_map};
ghost use Rattle.std.specs.VecDeque.{deque_len};
ghost use Rattle.std.specs.Option.{option_copied};
ghost use Rattle.std.specs.FinMap.{get};
ghost use Rattle.trace_know.specs.Listing.{as_entry, conflicts_in};
ghost use Rattle.trace_know.specs.Prefix.{IsBeyond, event_of, events_of, is_unread, is_unread_enter, prefix_of, readable_of};
ghost use Rattle.trace_know.specs.Runs.{Above, IsFilled, IsFront, cells_of_run, listed, of_runs};

use crate::boxed::BoxedRun;
use crate::cell::{Known, enters_unread};
use crate::readable::Readable;
use crate::run::Run;
use crate::run_list::RunList;
use crate::runs::{first_at, known_at};
use crate::segment::PLACES;
use std::alloc::{AllocError, Global};

/// How many cells there are.
pub(crate) fn count_cells(runs: &RunList) -> usize
    requires { length (listed runs.now.items) < 2 ^ 64 }
    ensures { result ≡ length (listed runs.now.items) }
{
    let mut count = 0;
    for index in 0..runs.len() {
        let run = runs.at(index);
        count += run.len();
    }
    count
}

/// The `i`-th cell, with its rank and place.
pub(crate) fn cell_in(runs: &RunList, i: usize) -> Option<(u32, u64, &Known)>
    requires { Above 0 runs.now.items }
    ensures { option_map as_entry result ≡ slice_get (listed runs.now.items) i }
{
    let mut left = i;
    for index in 0..runs.len() {
        let run = runs.at(index);
        if left < run.len() {
            return Some((run.rank(), run.first() + left as u64, run.cell(left)));
        }
        left -= run.len();
    }
    None
}

/// What is known of a place, its run found by binary search.
pub(crate) fn known_in(runs: &RunList, rank: u32, place: u64) -> Option<&Known>
    requires { Above 0 runs.now.items }
    ensures { option_copied result ≡ get (of_runs runs.now.items) (rank, place) }
{
    if place >= PLACES {
        return None;
    }
    known_at(runs, rank, place)
}

/// The run of a rank that begins at place 0.
fn front_run(runs: &RunList, rank: u32) -> Option<&BoxedRun>
    requires { Above 0 runs.now.items }
    ensures { MatchOption result (get (of_runs runs.now.items) (rank, 0) ≡ None) (λ run. IsFront runs.now.items rank run.now) }
{
    let at = first_at(runs, rank, 1);
    if at >= runs.len() {
        return None;
    }
    let run = runs.at(at);
    if run.rank() != rank {
        return None;
    }
    if run.first() != 0 {
        return None;
    }
    Some(run)
}

/// The readable prefix of a rank.
pub(crate) fn prefix_in(runs: &RunList, rank: u32) -> u64
    requires { Above 0 runs.now.items }
    ensures { result ≡ prefix_of (of_runs runs.now.items) rank }
{
    match front_run(runs, rank) {
        Some(run) => run.sound() as u64,
        None => 0,
    }
}

/// Whether the cell at an index has one event, the Enter of an unread call.
fn is_unread_at(run: &BoxedRun, i: usize) -> bool
    ensures { result ≡ is_unread_enter (event_of (slice_get run.now.cells.items i)) }
{
    match run.get().cells.get(i) {
        Some(Known::One(event)) => enters_unread(event),
        _ => false,
    }
}

/// The events below the readable prefix of a rank.
pub(crate) fn readable_in(runs: &RunList, rank: u32) -> Readable<'_>
    requires { Above 0 runs.now.items }
    ensures { result ≡ events_of (of_runs runs.now.items) rank }
{
    match front_run(runs, rank) {
        Some(run) => Readable::of_run(run.get()),
        None => Readable::nothing(),
    }
}

/// Whether the readable prefix of a rank ends at the Enter of an unread call.
pub(crate) fn is_unread_in(runs: &RunList, rank: u32) -> bool
    requires { Above 0 runs.now.items }
    ensures { result ≡ is_unread (of_runs runs.now.items) rank }
{
    match front_run(runs, rank) {
        Some(run) => is_unread_at(run, run.sound()),
        None => false,
    }
}

/// Whether something is known of the rank at the place or past it.
pub(crate) fn any_from(runs: &RunList, rank: u32, place: u64) -> bool
    requires { Above 0 runs.now.items }
    ensures { IsTrue result ↔ IsBeyond (of_runs runs.now.items) rank place }
{
    if place >= PLACES {
        return false;
    }
    let at = first_at(runs, rank, place + 1);
    if at >= runs.len() {
        return false;
    }
    let run = runs.at(at);
    if run.rank() != rank {
        return false;
    }
    true
}

/// How many cells are contradictions.
pub(crate) fn count_conflicts(runs: &RunList) -> usize
    requires above { Above 0 runs.now.items }
    requires few { length (listed runs.now.items) < 2 ^ 64 }
    ensures { result ≡ length (conflicts_in (listed runs.now.items)) }
{
    let mut count = 0;
    for index in 0..runs.len() {
        let run = runs.at(index);
        count += run.conflicts();
    }
    count
}

/// The place of the `i`-th contradiction of a run.
fn conflict_of(run: &Run, i: usize) -> Option<(u32, u64)>
    requires { IsFilled run.now }
    ensures { result ≡ slice_get (conflicts_in (cells_of_run run.now)) i }
{
    let mut left = i;
    for at in 0..run.cells.len() {
        if run.cells[at].is_contradiction() {
            if left == 0 {
                return Some((run.rank, run.first + at as u64));
            }
            left -= 1;
        }
    }
    None
}

/// The place of the `i`-th contradiction of a run in a list.
fn conflict_in_run(run: &BoxedRun, i: usize) -> Option<(u32, u64)>
    requires { IsFilled run.now }
    ensures { result ≡ slice_get (conflicts_in (cells_of_run run.now)) i }
{
    conflict_of(run.get(), i)
}

/// The place of the `i`-th contradiction.
pub(crate) fn conflict_in(runs: &RunList, i: usize) -> Option<(u32, u64)>
    requires { Above 0 runs.now.items }
    ensures { result ≡ slice_get (conflicts_in (listed runs.now.items)) i }
{
    let mut left = i;
    for index in 0..runs.len() {
        let run = runs.at(index);
        if left < run.conflicts() {
            return conflict_in_run(run, left);
        }
        left -= run.conflicts();
    }
    None
}

/// Adds the places of a run's contradictions to a list.
fn add_conflicts(places: &mut Vec<(u32, u64)>, run: &BoxedRun) -> Result<(), AllocError>
    requires { IsFilled run.now }
    ensures { OnOk result (places.new.items ≡ places.old.items ++ conflicts_in (cells_of_run run.now)) }
{
    for at in 0..run.len() {
        if run.cell(at).is_contradiction() {
            places.push((run.rank(), run.first() + at as u64))?;
        }
    }
    Ok(())
}

/// The places of all contradictions.
pub(crate) fn conflict_places_in(
    alloc: Global,
    runs: &RunList,
) -> Result<Vec<(u32, u64)>, AllocError>
    requires { Above 0 runs.now.items }
    ensures { IfOk result (λ places. places.items ≡ conflicts_in (listed runs.now.items)) }
{
    let mut places = Vec::new(alloc);
    for index in 0..runs.len() {
        let run = runs.at(index);
        if run.conflicts() == 0 {
            continue;
        }
        add_conflicts(&mut places, run)?;
    }
    Ok(places)
}
