//! Comparing what is known, cell by cell, by walks.

ghost use Rattle.std.specs.Prelude.{◌≡◌, ◌↔◌, Some, IsTrue};
ghost use Rattle.std.specs.Option.{option_map, option_copied};
ghost use Rattle.trace_know.specs.Cell.{IsAtMost};
ghost use Rattle.trace_know.specs.Listing.{as_entry};
ghost use Rattle.trace_know.specs.Runs.{Above, AllHeld, IsFilled, of_run, of_runs};
ghost use Rattle.trace_know.specs.View.{join};

use crate::boxed::BoxedRun;
use crate::cell::Known;
use crate::readers::known_in;
use crate::run_list::RunList;
use crate::walk::Walk;

/// Whether both walks have the same cells.
pub(crate) fn same_cells(ones: Walk<'_>, others: Walk<'_>) -> bool
    ensures { IsTrue result ↔ (ones.entry ≡ others.entry) }
{
    let mut ones = ones;
    let mut others = others;
    while let Some(one) = ones.next() {
        if !is_cell(others.next(), one) {
            return false;
        }
    }
    others.next().is_none()
}

/// Whether there is a cell, and it is the other.
fn is_cell(found: Option<(u32, u64, &Known)>, cell: (u32, u64, &Known)) -> bool
    ensures { IsTrue result ↔ (option_map as_entry found.entry ≡ Some (as_entry cell.entry)) }
{
    match found {
        Some((rank, place, known)) => { rank == cell.0 && place == cell.1 && known.same(cell.2) }
        None => false,
    }
}

/// Whether what is held of a place is no less than what is known of it elsewhere.
fn is_held(held: Option<&Known>, known: &Known) -> bool
    ensures { IsTrue result ↔ IsAtMost (Some known.now) (option_copied held.entry) }
{
    match (held, known) {
        (None, _) => false,
        (Some(Known::Contradiction), _) => true,
        (Some(Known::One(_)), Known::Contradiction) => false,
        (Some(Known::One(event)), Known::One(other)) => event.same(other),
    }
}

/// Whether runs hold all cells of a walk.
pub(crate) fn holds_all(runs: &RunList, others: Walk<'_>) -> bool
    requires { Above 0 runs.now.items }
    ensures { IsTrue result ↔ AllHeld others.entry (of_runs runs.now.items) }
{
    let mut others = others;
    while let Some((rank, place, known)) = others.next() {
        if !is_held(known_in(runs, rank, place), known) {
            return false;
        }
    }
    true
}

/// Whether runs hold all cells of another.
pub(crate) fn holds_run(runs: &RunList, other: &BoxedRun) -> bool
    requires above { Above 0 runs.now.items }
    requires filled { IsFilled other.now }
    ensures { IsTrue result → join (of_runs runs.now.items) (of_run other.now) ≡ of_runs runs.now.items }
{
    for i in 0..other.len() {
        let place = other.first() + i as u64;
        if !is_held(known_in(runs, other.rank(), place), other.cell(i)) {
            return false;
        }
    }
    true
}
