//! Reading a frame from a device.

ghost use Rattle.std.specs.Prelude.{◌≡◌, OnOk, IfOk, IfErr};
ghost use Rattle.std.specs.FinMap.{entries};
ghost use Rattle.mpi_model.specs.Side.{LeavesSide};
ghost use Rattle.trace_wire.specs.Frames.{HasFrame};
ghost use Rattle.trace_wire.specs.Reading.{ReadsFrame, IsUnread, StaysWithin};

pub(crate) mod cells;
pub(crate) mod event;
pub(crate) mod field;
pub(crate) mod filling;
pub(crate) mod front;
pub(crate) mod input;
pub(crate) mod list;
pub(crate) mod payload;
pub(crate) mod runs;
pub(crate) mod unread;
pub(crate) mod window;

use crate::fault::WireFault;
use crate::read::cells::are_bytes;
use crate::read::input::{fill, payload_len};
use crate::read::payload::read_payload;
use mpi_model::Read;
use std::alloc::Global;
use trace_know::Knowledge;

/// Reads one frame of either version, and leaves what follows it unread.
///
/// Bytes that are no frame are refused for their first cause, in the order of [`WireFault`]: the ten bytes of the head
/// are read and checked first, then the payload is read to its end, and its cells or runs are checked one by one as
/// they come. If one of them is at fault, the rest of the payload is read before the fault is returned. Memory is
/// requested for a window of the payload, and for what came in it, whatever the length and the counts say. What was
/// read before a refusal is lost.
pub fn read_frame<R: Read>(alloc: Global, reader: &mut R) -> Result<Knowledge, WireFault>
    ensures ok { IfOk result (λ k. ReadsFrame (R.left reader.old) (R.left reader.new) (entries k)) }
    ensures fits { IfOk result (λ k. HasFrame (entries k)) }
    ensures no_failure { OnOk result (R.failures reader.new ≡ R.failures reader.old) }
    ensures err { IfErr result (λ fault. IsUnread (R.left reader.old) (R.failures reader.old) (R.failures reader.new) fault) }
    ensures taken { StaysWithin (R.left reader.old) (R.left reader.new) }
    ensures beside { LeavesSide (R.write_side reader.old) (R.write_side reader.new) }
{
    let mut head = [0_u8; 10];
    field!(fill(reader, &mut head));
    are_bytes(&head);
    let (version, len) = field!(payload_len(&head));
    let knowledge = field!(read_payload(alloc, reader, version, len));
    Ok(knowledge)
}
