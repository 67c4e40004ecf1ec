//! Runs, read through a window.

ghost use Rattle.std.specs.Prelude.{◌≡◌, ◌+◌, ◌≤◌, ◌^◌, ℕ, IfErr, IfOk, OnOk, true};
ghost use Rattle.mpi_model.specs.Side.{LeavesSide};
ghost use Rattle.trace_know.specs.Placed.{IsPast};
ghost use Rattle.trace_wire.specs.declared.version.Version.TheVariants.{Two};
ghost use Rattle.trace_wire.specs.Cells.{is_past};
ghost use Rattle.trace_wire.specs.FirstFault.{parts_of};
ghost use Rattle.trace_wire.specs.Parts.{is_run, next_knowns, run_at};
ghost use Rattle.trace_wire.specs.Readers.{Finds, FindsCells, Misses, run_in};
ghost use Rattle.trace_wire.specs.Reading.{TakesAtMost};
ghost use Rattle.trace_wire.specs.Runs.{AddsRun, PlacedRun};

use crate::fault::WireFault;
use crate::read::cells::{are_bytes, is_past};
use crate::read::front::{next_known, next_place, next_u32};
use crate::read::unread::Unread;
use crate::read::window::Window;
use mpi_model::Read;
use std::alloc::Global;
use trace_know::{Knowledge, Known, PLACES};

/// A run as it was read.
#[derive(Drop)]
struct Run {
    rank: u32,
    first: u64,
    cells: Vec<Known>,
}

/// Whether a run from a place on can have so many cells.
fn is_run(first: u64, count: u32) -> bool
    ensures { result ≡ is_run first count }
{
    count > 0 && first < PLACES && count as u64 <= PLACES - first
}

/// An event has no fewer bytes than its codes and its times.
const LEAST_EVENT: usize = 18;

/// How many times the cells that came may come at once more.
const MORE_CELLS: usize = 8;

/// Room for further cells of a run, where there is none: for some times as many as came, but for no more than are left
/// or than the payload can hold. So a list is seldom moved, and memory follows the bytes that came. Without memory for
/// so many there is room for none, and the list grows by itself.
#[inline(always)]
fn make_room(cells: &mut Vec<Known>, left: u32, window: &Window)
    ensures { cells.new.items ≡ cells.old.items }
{
    if cells.len() == cells.capacity() {
        let held = window.held().len();
        let came = (cells.len().saturating_mul(MORE_CELLS)).max(held / LEAST_EVENT);
        let coming = held.saturating_add(window.coming()) / LEAST_EVENT;
        let _ = cells.reserve(came.min(coming).min(left as usize));
    }
}

/// What stands at so many places from one on. Memory grows with the cells that are there, whatever the count says.
fn knowns_of<R: Read>(
    alloc: Global,
    reader: &mut R,
    window: &mut Window,
    first: u64,
    count: u32,
) -> Result<Vec<Known>, Unread>
    requires { first + count ≤ 2 ^ 40 }
    ensures ok { IfOk result (λ ks. Finds R.left reader.old reader.new window.old window.new (next_knowns first count) ks.items) }
    ensures no_failure { OnOk result (R.failures reader.new ≡ R.failures reader.old) }
    ensures err { IfErr result (Misses R.left R.failures reader.old reader.new window.old window.new (next_knowns first count)) }
    ensures taken { TakesAtMost window.old.coming (R.left reader.old) (R.left reader.new) }
    ensures beside { LeavesSide (R.write_side reader.old) (R.write_side reader.new) }
{
    let mut cells = Vec::new(alloc);
    for at in 0..count {
        let known = field!(next_known(alloc, reader, window, first + at as u64));
        make_room(&mut cells, count - at, window);
        match cells.push(known) {
            Ok(()) => {}
            Err(_) => return Err(Unread::Payload(WireFault::Memory)),
        }
    }
    Ok(cells)
}

/// A run that begins past a place.
fn run_of<R: Read>(
    alloc: Global,
    reader: &mut R,
    window: &mut Window,
    before: Option<(u32, u64)>,
) -> Result<Run, Unread>
    ensures ok { IfOk result (λ r. Finds R.left reader.old reader.new window.old window.new (run_at before) (run_in r)) }
    ensures no_failure { OnOk result (R.failures reader.new ≡ R.failures reader.old) }
    ensures err { IfErr result (Misses R.left R.failures reader.old reader.new window.old window.new (run_at before)) }
    ensures taken { TakesAtMost window.old.coming (R.left reader.old) (R.left reader.new) }
    ensures beside { LeavesSide (R.write_side reader.old) (R.write_side reader.new) }
{
    let here = field!(next_place(reader, window));
    if !is_past(before, here) {
        return Err(Unread::Payload(WireFault::Order));
    }
    let count = field!(next_u32(reader, window));
    if !is_run(here.1, count) {
        return Err(Unread::Payload(WireFault::Content));
    }
    let (rank, first) = here;
    let cells = field!(knowns_of(alloc, reader, window, first, count));
    Ok(Run { rank, first, cells })
}

/// Reads a run that begins past a place, and puts it into the knowledge, which knows nothing past that place. It gives
/// the place right behind the run.
fn put_run<R: Read>(
    alloc: Global,
    reader: &mut R,
    window: &mut Window,
    knowledge: &mut Knowledge,
    before: Option<(u32, u64)>,
) -> Result<(u32, u64), Unread>
    requires { (rank place : ℕ) → is_past before (rank, place) ≡ true → IsPast knowledge.old rank place }
    ensures ok { IfOk result (λ end. (r : PlacedRun) × Finds R.left reader.old reader.new window.old window.new (run_at before) r
        × AddsRun before r knowledge.old knowledge.new end) }
    ensures no_failure { OnOk result (R.failures reader.new ≡ R.failures reader.old) }
    ensures err { IfErr result (Misses R.left R.failures reader.old reader.new window.old window.new (run_at before)) }
    ensures taken { TakesAtMost window.old.coming (R.left reader.old) (R.left reader.new) }
    ensures beside { LeavesSide (R.write_side reader.old) (R.write_side reader.new) }
{
    are_bytes(window.held());
    let run = field!(run_of(alloc, reader, window, before));
    let Run { rank, first, cells } = run;
    let end = first + cells.len() as u64;
    match knowledge.put_run(rank, first, cells) {
        Ok(()) => Ok((rank, end)),
        Err(_) => Err(Unread::Payload(WireFault::Memory)),
    }
}

/// Reads this many runs into knowledge.
pub(crate) fn runs_of<R: Read>(
    alloc: Global,
    reader: &mut R,
    window: &mut Window,
    count: u32,
) -> Result<Knowledge, Unread>
    ensures ok { IfOk result (FindsCells R.left reader.old reader.new window.old window.new (parts_of Two count)) }
    ensures no_failure { OnOk result (R.failures reader.new ≡ R.failures reader.old) }
    ensures err { IfErr result (Misses R.left R.failures reader.old reader.new window.old window.new (parts_of Two count)) }
    ensures taken { TakesAtMost window.old.coming (R.left reader.old) (R.left reader.new) }
    ensures beside { LeavesSide (R.write_side reader.old) (R.write_side reader.new) }
{
    let mut knowledge = Knowledge::new(alloc);
    let mut last = None;
    for _ in 0..count {
        let here = field!(put_run(alloc, reader, window, &mut knowledge, last));
        last = Some(here);
    }
    Ok(knowledge)
}
