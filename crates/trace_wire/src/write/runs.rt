//! Runs, put into a sink.

ghost use Rattle.std.specs.Prelude.{◌≡◌, ◌<◌, ◌≤◌, ◌^◌, drop, length, take};
ghost use Rattle.trace_know.specs.Listing.{run_len};
ghost use Rattle.trace_wire.specs.Cells.{knowns_bytes, knowns_of};
ghost use Rattle.trace_wire.specs.Runs.{runs_bytes, runs_of};
ghost use Rattle.trace_wire.specs.Sending.{Sends, SendsRun};

use crate::write::cells::{put_known, put_place};
use crate::write::field::put_u32;
use crate::write::sink::Sink;
use trace_know::Walk;

/// What is known at so many cells of a walk, without their places.
pub(crate) fn put_knowns<S: Sink>(out: &mut S, count: usize, cells: &mut Walk<'_>)
    requires there { count ≤ length cells.old }
    requires short { length (knowns_bytes (knowns_of (take count cells.old))) < 2 ^ 32 }
    ensures sends { Sends (S.page out.old) (S.page out.new) (knowns_bytes (knowns_of (take count cells.old))) }
    ensures rest { cells.new ≡ drop count cells.old }
{
    for _ in 0..count {
        let Some((_, _, known)) = cells.next() else {
            return;
        };
        put_known(out, known);
    }
}

/// The run that a walk stands before.
fn put_run<S: Sink>(out: &mut S, cells: &mut Walk<'_>)
    requires some { 0 < run_len cells.old }
    requires short { length (runs_bytes (runs_of cells.old)) < 2 ^ 32 }
    ensures { SendsRun (S.page out.old) (S.page out.new) cells.old cells.new }
{
    let count = cells.run_len();
    let Some((rank, first, known)) = cells.next() else {
        unreachable!();
    };
    put_place(out, rank, first);
    put_u32(out, count as u32);
    put_known(out, known);
    put_knowns(out, count - 1, cells);
}

/// The runs that a walk has left.
pub(crate) fn put_runs<S: Sink>(out: &mut S, cells: Walk<'_>)
    requires { length (runs_bytes (runs_of cells)) < 2 ^ 32 }
    ensures { Sends (S.page out.old) (S.page out.new) (runs_bytes (runs_of cells.entry)) }
{
    let mut cells = cells;
    while cells.run_len() > 0 {
        put_run(out, &mut cells);
    }
}
