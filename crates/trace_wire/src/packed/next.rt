//! The next of the frames of a device.

ghost use Rattle.std.specs.Prelude.{◌≡◌, ◌<◌, None, Ok, Err, length, true, false, IfErr, IfOk, IfSome, OnOk};
ghost use Rattle.std.specs.FinMap.{entries};
ghost use Rattle.std.specs.Io.KnownBytes.{Consumes, IsAtEnd};
ghost use Rattle.mpi_model.specs.Side.{LeavesSide};
ghost use Rattle.trace_wire.specs.Packed.{BreaksOff};
ghost use Rattle.trace_wire.specs.Readers.{StaysUnfilled};
ghost use Rattle.trace_wire.specs.Reading.{EndsFrame, IsUnreadBehind, ReadsFrame};

use crate::fault::WireFault;
use crate::read::cells::are_bytes;
use crate::read::input::payload_len;
use crate::read::payload::read_payload;
use mpi_model::{Read, ReadFault, read_exactly};
use std::alloc::Global;
use trace_know::Knowledge;

/// Fills a head, or answers that no byte is left.
fn begin<R: Read>(reader: &mut R, head: &mut [u8]) -> Result<bool, WireFault>
    ensures filled { result ≡ Ok true → Consumes (R.left reader.old) (R.left reader.new) head.new }
    ensures end { result ≡ Ok false → IsAtEnd (R.left reader.old) }
    ensures no_failure { OnOk result (R.failures reader.new ≡ R.failures reader.old) }
    ensures err { IfErr result (StaysUnfilled R.left R.failures reader.old reader.new (length head.new)) }
    ensures some { result ≡ Err WireFault.Short → IfSome (R.left reader.old) (λ bytes. 0 < length bytes) }
    ensures beside { LeavesSide (R.write_side reader.old) (R.write_side reader.new) }
{
    match read_exactly(reader, head) {
        Ok(()) => Ok(true),
        Err(ReadFault::Short { taken: 0 }) => Ok(false),
        Err(ReadFault::Short { .. }) => Err(WireFault::Short),
        Err(ReadFault::Failed { .. }) => Err(WireFault::Read),
    }
}

/// The frame whose head was read.
fn behind_head<R: Read>(alloc: Global, reader: &mut R, head: &[u8]) -> Result<Knowledge, WireFault>
    requires len { length head.now ≡ 10 }
    ensures ok { IfOk result (EndsFrame head.now (R.left reader.old) (R.left reader.new)) }
    ensures no_failure { OnOk result (R.failures reader.new ≡ R.failures reader.old) }
    ensures err { IfErr result (IsUnreadBehind head.now (R.left reader.old) (R.failures reader.old) (R.failures reader.new)) }
    ensures beside { LeavesSide (R.write_side reader.old) (R.write_side reader.new) }
{
    are_bytes(head);
    let (version, len) = field!(payload_len(head));
    let knowledge = field!(read_payload(alloc, reader, version, len));
    Ok(knowledge)
}

/// Reads one more frame, or says that no byte is left.
pub(crate) fn next_frame<R: Read>(
    alloc: Global,
    reader: &mut R,
) -> Result<Option<Knowledge>, WireFault>
    ensures ok { IfOk result (λ o. IfSome o (λ k. ReadsFrame (R.left reader.old) (R.left reader.new) (entries k))) }
    ensures end { result ≡ Ok None → IsAtEnd (R.left reader.old) }
    ensures no_failure { OnOk result (R.failures reader.new ≡ R.failures reader.old) }
    ensures err { IfErr result (BreaksOff (R.left reader.old) (R.failures reader.old) (R.failures reader.new)) }
    ensures beside { LeavesSide (R.write_side reader.old) (R.write_side reader.new) }
{
    let mut head = [0_u8; 10];
    match begin(reader, &mut head) {
        Ok(true) => {}
        Ok(false) => return Ok(None),
        Err(fault) => return Err(fault),
    }
    match behind_head(alloc, reader, &head) {
        Ok(knowledge) => Ok(Some(knowledge)),
        Err(fault) => Err(fault),
    }
}
