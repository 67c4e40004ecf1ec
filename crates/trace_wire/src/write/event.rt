//! Calls, outcomes and events, put into a sink.

ghost use Rattle.std.specs.Prelude.{◌≡◌, ◌<◌, ◌^◌, length};
ghost use Rattle.std.specs.List.{flat_map};
ghost use Rattle.trace_wire.specs.Forms.{byte, list, pair};
ghost use Rattle.trace_wire.specs.Fields.{stamp};
ghost use Rattle.trace_wire.specs.Events.{call_code, call_fields, event_bytes, icollective_code, outs_code, outs_fields};
ghost use Rattle.trace_wire.specs.Sending.{Sends};

use crate::item::FrameItem;
use crate::kind::is_barrier;
use crate::write::field::{
    put_byte, put_collective, put_envelope, put_exchange, put_flag, put_i64, put_icollective,
    put_indexed, put_probe, put_sent, put_stamp, put_told, put_u32,
};
use crate::write::sink::Sink;
use mpi_model::{Call, Event, Kind, Outs, Stamp};

/// Items one after another.
fn put_items<T: FrameItem, S: Sink>(out: &mut S, items: &[T])
    ensures { Sends (S.page out.old) (S.page out.new) (flat_map T.form.spell items.now) }
{
    for item in items {
        item.put(out);
    }
}

/// A count and the items.
fn put_list<T: FrameItem, S: Sink>(out: &mut S, items: &[T])
    requires { length items.now < 2 ^ 32 }
    ensures { Sends (S.page out.old) (S.page out.new) ((list T.form).spell items.now) }
{
    put_u32(out, items.len() as u32);
    put_items(out, items);
}

/// What stands behind the code of a call.
#[tactic(auto, using(crate::proofs::Lengths::requests_short))]
fn put_call<S: Sink>(out: &mut S, call: &Call)
    requires { length (call_fields call.now) < 2 ^ 32 }
    ensures { Sends (S.page out.old) (S.page out.new) (call_fields call.now) }
{
    match call {
        Call::Local | Call::Finalize | Call::Imrecv | Call::Unread => out.put(&[]),
        Call::Send(mode, e) | Call::Isend(mode, e) | Call::SendInit(mode, e) => {
            put_sent(out, *mode, *e)
        }
        Call::Recv(e) | Call::Irecv(e) | Call::RecvInit(e) => put_envelope(out, e.envelope()),
        Call::Sendrecv(e) => put_exchange(out, e),
        Call::Wait(request) | Call::Test(request) => put_i64(out, *request),
        Call::Cancel(request) | Call::Free(request) | Call::Start(request) => {
            put_i64(out, *request)
        }
        Call::Waitall(requests)
        | Call::Waitany(requests)
        | Call::Waitsome(requests)
        | Call::Testall(requests)
        | Call::Testany(requests)
        | Call::Testsome(requests)
        | Call::Startall(requests) => put_list(out, requests.as_slice()),
        Call::Collective(call) => put_collective(out, *call),
        Call::Icollective(call) => put_icollective(out, call.call()),
        Call::Probe(e) | Call::Mprobe(e) | Call::Improbe(e) | Call::Iprobe(e) => put_probe(out, *e),
    }
}

/// What stands behind the code of an outcome.
#[tactic(auto, using(crate::proofs::Lengths::sources_short, crate::proofs::Lengths::elements_short))]
fn put_outs<S: Sink>(out: &mut S, outs: &Outs)
    requires { length (outs_fields outs.now) < 2 ^ 32 }
    ensures { Sends (S.page out.old) (S.page out.new) (outs_fields outs.now) }
{
    match outs {
        Outs::Nothing => out.put(&[]),
        Outs::Posted(request) => put_i64(out, *request),
        Outs::Status(source) => put_told(out, *source),
        Outs::Statuses(sources) => put_list(out, sources.as_slice()),
        Outs::Index(position, source) => put_indexed(out, *position, *source),
        Outs::Several(elements) => put_list(out, elements.as_slice()),
        Outs::Flag(done, source) => put_flag(out, *done, *source),
    }
}

/// The code of a nonblocking collective call.
fn byte_of_icollective(kind: Kind) -> u8
    ensures { result ≡ icollective_code kind }
{
    if is_barrier(kind) { 14 } else { 28 }
}

/// The code of a call.
fn byte_of_call(call: &Call) -> u8
    ensures { result ≡ call_code call.now }
{
    match call {
        Call::Local => 0,
        Call::Finalize => 1,
        Call::Send(_, _) => 2,
        Call::Isend(_, _) => 3,
        Call::Recv(_) => 4,
        Call::Irecv(_) => 5,
        Call::Sendrecv(_) => 6,
        Call::Wait(_) => 7,
        Call::Waitall(_) => 8,
        Call::Waitany(_) => 9,
        Call::Waitsome(_) => 10,
        Call::Test(_) => 11,
        Call::Collective(_) => 12,
        Call::Probe(_) => 13,
        Call::Icollective(call) => byte_of_icollective(call.kind()),
        Call::Testall(_) => 15,
        Call::Testany(_) => 16,
        Call::Testsome(_) => 17,
        Call::Cancel(_) => 18,
        Call::Free(_) => 19,
        Call::Unread => 20,
        Call::SendInit(_, _) => 21,
        Call::RecvInit(_) => 22,
        Call::Start(_) => 23,
        Call::Startall(_) => 24,
        Call::Mprobe(_) => 25,
        Call::Improbe(_) => 26,
        Call::Imrecv => 27,
        Call::Iprobe(_) => 29,
    }
}

/// The code of an outcome.
fn byte_of_outs(outs: &Outs) -> u8
    ensures { result ≡ outs_code outs.now }
{
    match outs {
        Outs::Nothing => 0,
        Outs::Posted(_) => 1,
        Outs::Status(_) => 2,
        Outs::Statuses(_) => 3,
        Outs::Index(_, _) => 4,
        Outs::Several(_) => 5,
        Outs::Flag(_, _) => 6,
    }
}

/// The code of an event's kind, and its times.
fn put_head<S: Sink>(out: &mut S, code: u8, time: Stamp)
    ensures { Sends (S.page out.old) (S.page out.new) ((pair byte stamp).spell (code, time)) }
{
    put_byte(out, code);
    put_stamp(out, time);
}

/// An event.
pub(crate) fn put_event<S: Sink>(out: &mut S, event: &Event)
    requires { length (event_bytes event.now) < 2 ^ 32 }
    ensures { Sends (S.page out.old) (S.page out.new) (event_bytes event.now) }
{
    match event {
        Event::Enter(call, time) => {
            put_head(out, byte_of_call(call), *time);
            put_call(out, call);
        }
        Event::Return(outs, time) => {
            put_head(out, byte_of_outs(outs), *time);
            put_outs(out, outs);
        }
    }
}
