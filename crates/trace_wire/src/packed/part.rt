//! The frame of a part, put into a sink.

ghost use Rattle.std.specs.Prelude.{◌≡◌, ◌-◌, ◌<◌, ◌≤◌, ◌^◌, drop, length, take};
ghost use Rattle.trace_wire.specs.Frames.{frame};
ghost use Rattle.trace_wire.specs.Planning.{size_of};
ghost use Rattle.trace_wire.specs.Runs.{runs_bytes, runs_of};
ghost use Rattle.trace_wire.specs.Sending.{Sends, SendsRun};

use crate::packed::plan::PartSize;
use crate::version::Version;
use crate::write::cells::{put_known, put_place};
use crate::write::field::put_u32;
use crate::write::parts::put_head;
use crate::write::runs::put_knowns;
use crate::write::sink::Sink;
use trace_know::Walk;

/// The run that a walk stands before, or a front of it of so many cells. It gives how many there are.
fn put_front<S: Sink>(out: &mut S, most: usize, cells: &mut Walk<'_>) -> usize
    requires some { 0 < most }
    requires there { most ≤ length cells.old }
    requires short { length (runs_bytes (runs_of (take most cells.old))) < 2 ^ 32 }
    ensures sends { SendsRun (S.page out.old) (S.page out.new) (take most cells.old) (take (most - result) cells.new) }
    ensures count { (0 < result) × (result ≤ most) }
    ensures rest { cells.new ≡ drop result cells.old }
{
    let count = cells.run_len().min(most);
    let Some((rank, first, known)) = cells.next() else {
        unreachable!();
    };
    put_place(out, rank, first);
    put_u32(out, count as u32);
    put_known(out, known);
    put_knowns(out, count - 1, cells);
    count
}

/// The runs of so many cells of a walk.
fn put_fronts<S: Sink>(out: &mut S, count: usize, cells: &mut Walk<'_>)
    requires there { count ≤ length cells.old }
    requires short { length (runs_bytes (runs_of (take count cells.old))) < 2 ^ 32 }
    ensures sends { Sends (S.page out.old) (S.page out.new) (runs_bytes (runs_of (take count cells.old))) }
    ensures rest { cells.new ≡ drop count cells.old }
{
    let mut left = count;
    while left > 0 {
        left -= put_front(out, left, cells);
    }
}

/// The frame of the next cells of a walk, which are a part of this size.
pub(crate) fn put_part<S: Sink>(out: &mut S, part: PartSize, cells: &mut Walk<'_>)
    requires there { part.cells ≤ length cells.old }
    requires size { part ≡ size_of (take part.cells cells.old) }
    ensures sends { Sends (S.page out.old) (S.page out.new) (frame (take part.cells cells.old)) }
    ensures rest { cells.new ≡ drop part.cells cells.old }
{
    put_head(out, Version::Two, part.len);
    put_u32(out, part.runs);
    put_fronts(out, part.cells, cells);
}
