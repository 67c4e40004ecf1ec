//! A frame, put into a sink.

ghost use Rattle.std.specs.Prelude.{◌≡◌, ◌<◌, ◌^◌, length};
ghost use Rattle.std.specs.FinMap.{entries};
ghost use Rattle.trace_wire.specs.Frames.{frame_as, head_of, parts_bytes, parts_in, payload_as};
ghost use Rattle.trace_wire.specs.Sending.{Sends};

use crate::version::Version;
use crate::write::cells::put_cells;
use crate::write::field::{put_byte, put_u32};
use crate::write::runs::put_runs;
use crate::write::sink::Sink;
use trace_know::{Knowledge, Walk};

/// `MPTX`, the version, and the length of the payload.
pub(crate) fn put_head<S: Sink>(out: &mut S, version: Version, len: u32)
    ensures { Sends (S.page out.old) (S.page out.new) (head_of version len) }
{
    out.put(&[b'M', b'P', b'T', b'X', 0]);
    put_byte(out, version.number());
    put_u32(out, len);
}

/// The cells that a walk has left, as parts of a payload.
fn put_parts<S: Sink>(out: &mut S, version: Version, cells: Walk<'_>)
    requires { length (parts_bytes version cells) < 2 ^ 32 }
    ensures { Sends (S.page out.old) (S.page out.new) (parts_bytes version cells.entry) }
{
    match version {
        Version::One => put_cells(out, cells),
        Version::Two => put_runs(out, cells),
    }
}

/// The frame of the knowledge, whose payload has this length and so many parts.
pub(crate) fn put_frame<S: Sink>(
    out: &mut S,
    version: Version,
    len: u32,
    parts: u32,
    knowledge: &Knowledge,
)
    requires len { length (payload_as version (entries knowledge.now)) ≡ len }
    requires parts { parts_in version (entries knowledge.now) ≡ parts }
    ensures { Sends (S.page out.old) (S.page out.new) (frame_as version (entries knowledge.now)) }
{
    put_head(out, version, len);
    put_u32(out, parts);
    put_parts(out, version, knowledge.cells());
}
