//! Writing knowledge of any size to a device.

ghost use Rattle.std.specs.Prelude.{◌≡◌, ◌≤◌, drop, length, take, IfErr, OnOk};
ghost use Rattle.mpi_model.specs.Side.{LeavesSide};
ghost use Rattle.trace_wire.specs.Frames.{frame};
ghost use Rattle.trace_wire.specs.Packed.{AppendsPacked, IsToldPacked};
ghost use Rattle.trace_wire.specs.Planning.{size_of};
ghost use Rattle.trace_wire.specs.Writers.{SendsAll, StaysUnpacked};

use crate::fault::WireFault;
use crate::packed::part::put_part;
use crate::packed::plan::{PartSize, plan_of};
use crate::write::direct::Direct;
use crate::write::paged::Paged;
use crate::write::sink::Sink;
use arrayvec::ArrayVec;
use mpi_model::Write;
use std::alloc::Global;
use trace_know::{Knowledge, Walk, join_laws};

/// Writes the frame of the next cells of a walk, and answers whether a write failed.
fn send_part<W: Write>(part: PartSize, cells: &mut Walk<'_>, writer: &mut W) -> bool
    requires there { part.cells ≤ length cells.old }
    requires size { part ≡ size_of (take part.cells cells.old) }
    ensures sends { SendsAll W.written W.failures W.read_side writer.old writer.new result (frame (take part.cells cells.old)) }
    ensures rest { cells.new ≡ drop part.cells cells.old }
{
    let direct = Direct {
        writer,
        failed: false,
    };
    let mut out = Paged {
        direct,
        page: ArrayVec::new(),
    };
    put_part(&mut out, part, cells);
    out.flush();
    out.direct.failed
}

/// Writes all that is known as frames of version 2, one after another, at least one. Each frame holds as much of what
/// is left as fits into a frame. [`read_frames`](crate::read_frames) gives it back.
///
/// If one place alone doesn't fit into a frame, the fault is `W4 Length`. That and `Memory` come before any byte is
/// written. If the device fails, a front of the frames was written, and nothing more is tried.
pub fn write_frames<W: Write>(
    alloc: Global,
    knowledge: &Knowledge,
    writer: &mut W,
) -> Result<(), WireFault>
    // What was written tells all that is known.
    ensures ok { OnOk result (AppendsPacked (W.written writer.old) (W.written writer.new) knowledge.now) }
    ensures again { OnOk result (IsToldPacked knowledge.now) }
    ensures no_failure { OnOk result (W.failures writer.new ≡ W.failures writer.old) }
    ensures err { IfErr result (StaysUnpacked W.written W.failures writer.old writer.new knowledge.now) }
    ensures later { W.failures writer.old ≤ W.failures writer.new }
    ensures beside { LeavesSide (W.read_side writer.old) (W.read_side writer.new) }
{
    join_laws();
    let plan = match plan_of(alloc, knowledge) {
        Ok(plan) => plan,
        Err(fault) => return Err(fault),
    };
    let mut cells = knowledge.cells();
    for part in &plan {
        if send_part(*part, &mut cells, writer) {
            return Err(WireFault::Write);
        }
    }
    Ok(())
}
