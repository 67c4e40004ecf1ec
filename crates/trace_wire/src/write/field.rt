//! The fields of calls and outcomes, put into a sink.

ghost use Rattle.std.specs.Prelude.{◌≡◌};
ghost use Rattle.std.specs.Int.{w32, w64};
ghost use Rattle.trace_wire.specs.Forms.{byte, marked, number, pair, signed};
ghost use Rattle.trace_wire.specs.Fields.{comm, element, envelope, exchange, flag, gathering, index, mode, mode_code, peer, probe, send_envelope, stamp, told};
ghost use Rattle.trace_wire.specs.Events.{icollective_fields};
ghost use Rattle.trace_wire.specs.Sending.{Sends};

use crate::kind::is_barrier;
use crate::write::sink::Sink;
use mpi_model::{
    Collective, CommRef, Element, Envelope, Exchange, Mode, Peer, ProbeEnvelope, SendEnvelope,
    Stamp, Told,
};

/// The mark of nothing: any tag, no root, nothing told.
const NO_NUMBER: u32 = 0xFFFF_FFFF;

/// The mark of the null process.
const NULL_PROCESS: u32 = 0xFFFF_FFFE;

/// The mark of a cancelled operation.
const CANCELLED: u32 = 0xFFFF_FFFE;

/// A byte.
pub(crate) fn put_byte<S: Sink>(out: &mut S, n: u8)
    ensures { Sends (S.page out.old) (S.page out.new) (byte.spell n) }
{
    out.put(&[n]);
}

/// A number of four bytes.
pub(crate) fn put_u32<S: Sink>(out: &mut S, n: u32)
    ensures { Sends (S.page out.old) (S.page out.new) ((number w32).spell n) }
{
    out.put(&n.to_be_bytes());
}

/// A number of eight bytes.
pub(crate) fn put_u64<S: Sink>(out: &mut S, n: u64)
    ensures { Sends (S.page out.old) (S.page out.new) ((number w64).spell n) }
{
    out.put(&n.to_be_bytes());
}

/// A number with a sign.
pub(crate) fn put_i64<S: Sink>(out: &mut S, n: i64)
    ensures { Sends (S.page out.old) (S.page out.new) (signed.spell n) }
{
    out.put(&n.to_be_bytes());
}

/// A number, or the mark of none.
fn put_marked<S: Sink>(out: &mut S, number: Option<u32>)
    ensures { Sends (S.page out.old) (S.page out.new) (marked.spell number) }
{
    let code = match number {
        None => NO_NUMBER,
        Some(n) => n,
    };
    out.put(&code.to_be_bytes());
}

/// What is told.
pub(crate) fn put_told<S: Sink>(out: &mut S, source: Told)
    ensures { Sends (S.page out.old) (S.page out.new) (told.spell source) }
{
    let code = match source {
        Told::Nothing => NO_NUMBER,
        Told::Cancelled => CANCELLED,
        Told::Source(rank) => rank.number(),
    };
    out.put(&code.to_be_bytes());
}

/// Wall and CPU time.
pub(crate) fn put_stamp<S: Sink>(out: &mut S, time: Stamp)
    ensures { Sends (S.page out.old) (S.page out.new) (stamp.spell time) }
{
    put_u64(out, time.wall());
    put_u64(out, time.cpu());
}

/// A peer.
fn put_peer<S: Sink>(out: &mut S, end: Peer)
    ensures { Sends (S.page out.old) (S.page out.new) (peer.spell end) }
{
    let code = match end {
        Peer::Any => NO_NUMBER,
        Peer::Null => NULL_PROCESS,
        Peer::Rank(rank) => rank,
    };
    out.put(&code.to_be_bytes());
}

/// A communicator.
fn put_comm<S: Sink>(out: &mut S, named: CommRef)
    ensures { Sends (S.page out.old) (S.page out.new) (comm.spell named) }
{
    let code = match named {
        CommRef::World => NO_NUMBER,
        CommRef::Id(id) => id,
    };
    out.put(&code.to_be_bytes());
}

/// Peer, tag, communicator, count and datatype.
pub(crate) fn put_envelope<S: Sink>(out: &mut S, e: Envelope)
    ensures { Sends (S.page out.old) (S.page out.new) (envelope.spell e) }
{
    put_peer(out, e.peer);
    put_marked(out, e.tag);
    put_comm(out, e.comm);
    put_u32(out, e.count);
    put_i64(out, e.datatype);
}

/// The code of a mode.
fn byte_of_mode(of: Mode) -> u8
    ensures { result ≡ mode_code of }
{
    match of {
        Mode::Standard => 0,
        Mode::Synchronous => 1,
        Mode::Buffered => 2,
        Mode::Ready => 3,
    }
}

/// The mode and the envelope of a send.
pub(crate) fn put_sent<S: Sink>(out: &mut S, of: Mode, e: SendEnvelope)
    ensures { Sends (S.page out.old) (S.page out.new) ((pair mode send_envelope).spell (of, e)) }
{
    put_byte(out, byte_of_mode(of));
    put_envelope(out, e.envelope());
}

/// The envelopes of a Sendrecv.
pub(crate) fn put_exchange<S: Sink>(out: &mut S, e: &Exchange)
    ensures { Sends (S.page out.old) (S.page out.new) (exchange.spell e.now) }
{
    put_envelope(out, e.send());
    put_envelope(out, e.receive());
}

/// A collective call.
pub(crate) fn put_collective<S: Sink>(out: &mut S, call: Collective)
    ensures { Sends (S.page out.old) (S.page out.new) (gathering.spell call) }
{
    put_byte(out, call.kind().number());
    put_marked(out, call.root());
    put_comm(out, call.comm());
}

/// A nonblocking collective call: `MPI_Ibarrier` by its communicator alone.
pub(crate) fn put_icollective<S: Sink>(out: &mut S, call: Collective)
    ensures { Sends (S.page out.old) (S.page out.new) (icollective_fields call) }
{
    if is_barrier(call.kind()) {
        put_comm(out, call.comm());
    } else {
        put_collective(out, call);
    }
}

/// What a probe looks for: peer, tag and communicator.
pub(crate) fn put_probe<S: Sink>(out: &mut S, e: ProbeEnvelope)
    ensures { Sends (S.page out.old) (S.page out.new) (probe.spell e) }
{
    put_peer(out, e.source());
    put_marked(out, e.tag());
    put_comm(out, e.comm());
}

/// A completed request: its position, and what is told.
pub(crate) fn put_element<S: Sink>(out: &mut S, e: Element)
    ensures { Sends (S.page out.old) (S.page out.new) (element.spell e) }
{
    put_u32(out, e.position);
    put_told(out, e.told);
}

/// A position, where there is one.
fn put_index<S: Sink>(out: &mut S, position: Option<u32>)
    ensures { Sends (S.page out.old) (S.page out.new) (index.spell position) }
{
    match position {
        None => put_byte(out, 0),
        Some(position) => {
            put_byte(out, 1);
            put_u32(out, position);
        }
    }
}

/// A position, where there is one, and what is told.
pub(crate) fn put_indexed<S: Sink>(out: &mut S, position: Option<u32>, source: Told)
    ensures { Sends (S.page out.old) (S.page out.new) ((pair index told).spell (position, source)) }
{
    put_index(out, position);
    put_told(out, source);
}

/// Whether a request was found completed, and what is told.
pub(crate) fn put_flag<S: Sink>(out: &mut S, done: bool, source: Told)
    ensures { Sends (S.page out.old) (S.page out.new) ((pair flag told).spell (done, source)) }
{
    put_byte(out, if done { 1 } else { 0 });
    put_told(out, source);
}
