//! Writing a frame to a device.

ghost use Rattle.std.specs.Prelude.{◌≡◌, ◌≤◌, length, OnOk, IfErr};
ghost use Rattle.std.specs.FinMap.{entries};
ghost use Rattle.std.specs.Io.KnownBytes.{Appends};
ghost use Rattle.mpi_model.specs.Side.{LeavesSide};
ghost use Rattle.trace_wire.specs.Frames.{HasFrame, HasFrameAs, frame, frame_as, parts_in, payload_as};
ghost use Rattle.trace_wire.specs.Writers.{SendsAll, StaysUnwritten, StaysUnwrittenAs};

pub(crate) mod cells;
pub(crate) mod direct;
pub(crate) mod event;
pub(crate) mod field;
pub(crate) mod paged;
pub(crate) mod parts;
pub(crate) mod runs;
pub(crate) mod sink;

use crate::fault::WireFault;
use crate::size::{Size, payload_size};
use crate::version::Version;
use crate::write::direct::Direct;
use crate::write::paged::Paged;
use crate::write::parts::put_frame;
use crate::write::sink::Sink;
use arrayvec::ArrayVec;
use mpi_model::Write;
use trace_know::Knowledge;

/// Writes the frame, and answers whether a write failed.
fn send<W: Write>(
    version: Version,
    len: u32,
    parts: u32,
    knowledge: &Knowledge,
    writer: &mut W,
) -> bool
    requires len { length (payload_as version (entries knowledge.now)) ≡ len }
    requires parts { parts_in version (entries knowledge.now) ≡ parts }
    ensures { SendsAll W.written W.failures W.read_side writer.old writer.new result (frame_as version (entries knowledge.now)) }
{
    let direct = Direct {
        writer,
        failed: false,
    };
    let mut out = Paged {
        direct,
        page: ArrayVec::new(),
    };
    put_frame(&mut out, version, len, parts, knowledge);
    out.flush();
    out.direct.failed
}

/// Writes the frame of the knowledge in a version, and takes no memory. A frame that is too long for the version is
/// refused before any byte is written. If the device fails, a front of the frame was written, and nothing more is
/// tried.
pub fn write_frame_as<W: Write>(
    version: Version,
    knowledge: &Knowledge,
    writer: &mut W,
) -> Result<(), WireFault>
    ensures ok { OnOk result (Appends (W.written writer.old) (W.written writer.new) (frame_as version (entries knowledge.now))) }
    ensures fits { OnOk result (HasFrameAs version (entries knowledge.now)) }
    ensures no_failure { OnOk result (W.failures writer.new ≡ W.failures writer.old) }
    ensures err { IfErr result (StaysUnwrittenAs W.written W.failures writer.old writer.new version (entries knowledge.now)) }
    ensures later { W.failures writer.old ≤ W.failures writer.new }
    ensures beside { LeavesSide (W.read_side writer.old) (W.read_side writer.new) }
{
    let Size { parts, len } = payload_size(version, knowledge);
    let longest = version.longest();
    if len > longest {
        return Err(WireFault::Length);
    }
    if send(version, len as u32, parts as u32, knowledge, writer) {
        return Err(WireFault::Write);
    }
    Ok(())
}

/// Writes the frame of the knowledge in version 2, as [`write_frame_as`] does, with the same faults.
pub fn write_frame<W: Write>(knowledge: &Knowledge, writer: &mut W) -> Result<(), WireFault>
    ensures ok { OnOk result (Appends (W.written writer.old) (W.written writer.new) (frame (entries knowledge.now))) }
    ensures fits { OnOk result (HasFrame (entries knowledge.now)) }
    ensures no_failure { OnOk result (W.failures writer.new ≡ W.failures writer.old) }
    ensures err { IfErr result (StaysUnwritten W.written W.failures writer.old writer.new (entries knowledge.now)) }
    ensures later { W.failures writer.old ≤ W.failures writer.new }
    ensures beside { LeavesSide (W.read_side writer.old) (W.read_side writer.new) }
{
    write_frame_as(Version::Two, knowledge, writer)
}
