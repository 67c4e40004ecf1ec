//! A message of rank 2 to rank 0, which posts a request that any rank's message fits, and waits for it.

use mpi_model::*;
use std::alloc::Global;
use std::process::Abort;
use trace_know::{Knowledge, Segment};

/// How far rank 0 was read.
#[derive(Clone, Copy)]
pub(crate) enum Read {
    /// Its request is posted.
    Posted,
    /// Its Wait told from which rank the request received.
    Told,
}

/// Three ranks and the world.
pub(crate) fn layout<R: Abort>(rt: &R, alloc: Global) -> Layout {
    let mut members = Vec::new(alloc);
    for rank in 0..3 {
        members.push(rank).expect(rt, "memory");
    }
    let mut comms = Vec::new(alloc);
    comms.push((2, members)).expect(rt, "memory");
    Layout::new(alloc, 3, 2, comms, Sends::Wait).expect(rt, "a layout")
}

/// An envelope of four elements on the world.
fn envelope(peer: Peer) -> Envelope {
    Envelope {
        peer,
        tag: Some(7),
        comm: CommRef::Id(2),
        count: 4,
        datatype: 11,
    }
}

/// Adds a call that begins and ends at its second.
fn add_call<R: Abort>(rt: &R, events: &mut Vec<Event>, second: u64, call: Call, outs: Outs) {
    let at = Stamp::new(second.saturating_mul(1_000_000_000), 0).expect(rt, "a time");
    events.push(Event::Enter(call, at)).expect(rt, "memory");
    events.push(Event::Return(outs, at)).expect(rt, "memory");
}

/// The message of rank 2.
fn sent<R: Abort>(rt: &R, alloc: Global) -> Segment {
    let mut events = Vec::new(alloc);
    let to = SendEnvelope::new(envelope(Peer::Rank(0))).expect(rt, "a send");
    add_call(
        rt,
        &mut events,
        0,
        Call::Send(Mode::Standard, to),
        Outs::Nothing,
    );
    Segment::new(2, 0, events).expect(rt, "a segment")
}

/// The request of rank 0.
fn posted<R: Abort>(rt: &R, alloc: Global) -> Segment {
    let mut events = Vec::new(alloc);
    let from = ReceiveEnvelope::new(envelope(Peer::Any)).expect(rt, "a receive");
    add_call(rt, &mut events, 0, Call::Irecv(from), Outs::Posted(4));
    Segment::new(0, 0, events).expect(rt, "a segment")
}

/// The Wait of rank 0, which tells that it received from rank 2.
fn told<R: Abort>(rt: &R, alloc: Global) -> Segment {
    let mut events = Vec::new(alloc);
    let source = Told::from_rank(2).expect(rt, "a source");
    add_call(rt, &mut events, 1, Call::Wait(4), Outs::Status(source));
    Segment::new(0, 1, events).expect(rt, "a segment")
}

/// What is known of the ranks.
pub(crate) fn known<R: Abort>(rt: &R, alloc: Global, read: Read) -> Knowledge {
    let mut know = Knowledge::new(alloc);
    know.take(&sent(rt, alloc)).expect(rt, "memory");
    know.take(&posted(rt, alloc)).expect(rt, "memory");
    if matches!(read, Read::Told) {
        know.take(&told(rt, alloc)).expect(rt, "memory");
    }
    know
}
