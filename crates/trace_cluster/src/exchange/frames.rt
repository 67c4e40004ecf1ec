//! Frames by themselves, with no node: one read, and one each way.

ghost use Rattle.std.specs.Prelude.{IfOk, IfErr};
ghost use Rattle.std.specs.FinMap.{entries};
ghost use Rattle.mpi_model.specs.Side.{LeavesSide};
ghost use Rattle.trace_wire.specs.Frames.{HasFrame};
ghost use Rattle.trace_cluster.specs.Exchange.{ExchangesFrames, GetsFrame, HaveFrames, IsOfFrame};
ghost use Rattle.trace_cluster.specs.Stream.{OverStream, half};

use crate::exchange::fault::ExchangeFault;
use mpi_model::{Read, Write};
use std::alloc::Global;
use trace_know::Knowledge;
use trace_wire::{read_frame, write_frame};

/// Reads one frame and returns what it says.
pub(crate) fn heard_frame<R: Read>(
    alloc: Global,
    reader: &mut R,
) -> Result<Knowledge, ExchangeFault>
    ensures value { GetsFrame (half R.left R.failures reader.old) (half R.left R.failures reader.new) result }
    ensures framed { IfOk result (λ heard. HasFrame (entries heard)) }
    ensures beside { LeavesSide (R.write_side reader.old) (R.write_side reader.new) }
{
    match read_frame(alloc, reader) {
        Ok(heard) => Ok(heard),
        Err(fault) => Err(ExchangeFault::Read(fault)),
    }
}

/// Writes the frame of all that is known, then reads one frame: what [`lead`](crate::lead) does before it merges. If
/// the write fails, nothing is read; if the read fails, the frame has been sent.
pub fn exchange_frames<S: Read + Write>(
    alloc: Global,
    stream: &mut S,
    know: &Knowledge,
) -> Result<Knowledge, ExchangeFault>
    // over a stream whose halves tell of each other
    ensures told { OverStream (half S.left S.Read.failures) S.read_side (half S.written S.Write.failures) S.write_side
        (λ at. ExchangesFrames (at stream.old) (at stream.new) know.now result) }

    // over any stream
    ensures framed { IfOk result (λ heard. HaveFrames know.now heard) }
    ensures unmerged { IfErr result (λ fault. IsOfFrame fault) }
{
    match write_frame(know, stream) {
        Ok(()) => heard_frame(alloc, stream),
        Err(fault) => Err(ExchangeFault::Write(fault)),
    }
}
