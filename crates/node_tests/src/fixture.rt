//! Two ranks, what they do, and nodes that were told of it.
//!
//! Each helper stops the test where a value is missing (`expect`), so that it has one way out.

use mpi_model::*;
use std::alloc::Global;
use std::process::Abort;
use trace_know::{Knowledge, Segment};
use trace_node::Node;
use trace_report::report_text;
use trace_wire::write_frame;
use trace_world::SharedSegment;

/// What a call does: nothing that takes part in a matching; or it sends a message of four elements to
/// the other rank, or receives one from it, or waits for one to receive, with this tag.
#[derive(Clone, Copy)]
pub(crate) enum Does {
    Nothing,
    Send(u32),
    Receive(u32),
    Await(u32),
    /// It posts request 4, to receive from any rank with this tag.
    Post(u32),
    /// It waits for request 4, which received from rank 2, and returns so many nanoseconds after it began.
    Complete(u64),
}

/// How long a call takes, in nanoseconds.
const HALF: u64 = 500_000_000;

/// Calls of a rank, from one of them on.
pub(crate) type Piece = (u32, u64, &'static [Does]);

/// A send of rank 0, which rank 1 receives.
pub(crate) const PIECES: &[Piece] = &[(0, 0, &[Does::Send(7)]), (1, 0, &[Does::Receive(7)])];

/// What is reported of both pieces together.
pub(crate) const PINGPONG: &[u8] = b"mpimatch report 1
ranks 2 sends wait
rank 0 prefix 2 free
rank 1 prefix 2 free
pair 0:0 1:0
stuck none
foreign 0
end
";

/// Two ranks and one communicator that is the world.
pub(crate) fn layout<R: Abort>(rt: &R, alloc: Global) -> Layout {
    layout_of(rt, alloc, 2)
}

/// So many ranks and one communicator that is the world.
pub(crate) fn layout_of<R: Abort>(rt: &R, alloc: Global, ranks: u32) -> Layout {
    let mut members = Vec::new(alloc);
    for rank in 0..ranks {
        members.push(rank).expect(rt, "memory");
    }
    let mut comms = Vec::new(alloc);
    comms.push((2, members)).expect(rt, "memory");
    Layout::new(alloc, ranks, 2, comms, Sends::Wait).expect(rt, "a layout")
}

/// An envelope of four elements on communicator 2, the world.
fn envelope(peer: Peer, tag: u32) -> Envelope {
    Envelope {
        peer,
        tag: Some(tag),
        comm: CommRef::Id(2),
        count: 4,
        datatype: 11,
    }
}

/// The same as a receive's envelope, where a receive can have it.
fn receive(peer: Peer, tag: u32) -> Option<ReceiveEnvelope> {
    ReceiveEnvelope::new(envelope(peer, tag))
}

/// The call, if its peer is this rank.
fn call<R: Abort>(rt: &R, peer: u32, does: Does) -> Call {
    match does {
        Does::Nothing => Call::Local,
        Does::Send(tag) => Call::Send(
            Mode::Standard,
            SendEnvelope::new(envelope(Peer::Rank(peer), tag)).expect(rt, "a send"),
        ),
        Does::Receive(tag) | Does::Await(tag) => {
            Call::Recv(receive(Peer::Rank(peer), tag).expect(rt, "a receive"))
        }
        Does::Post(tag) => Call::Irecv(receive(Peer::Any, tag).expect(rt, "a receive")),
        Does::Complete(_) => Call::Wait(4),
    }
}

/// What the call tells at its end, where it has one: of a receive from which rank it received.
fn outs<R: Abort>(rt: &R, peer: u32, does: Does) -> Option<Outs> {
    match does {
        Does::Nothing | Does::Send(_) => Some(Outs::Nothing),
        Does::Receive(_) => Some(Outs::Status(Told::from_rank(peer).expect(rt, "a source"))),
        Does::Await(_) => None,
        Does::Post(_) => Some(Outs::Posted(4)),
        Does::Complete(_) => Some(Outs::Status(Told::from_rank(2).expect(rt, "a source"))),
    }
}

/// How many nanoseconds the call takes, where it returns.
fn takes(does: Does) -> u64 {
    match does {
        Does::Complete(long) => long,
        _ => HALF,
    }
}

/// Adds a call that begins at as many seconds as its number says.
pub(crate) fn add_call<R: Abort>(
    rt: &R,
    events: &mut Vec<Event>,
    peer: u32,
    number: u64,
    does: Does,
) {
    let start = number.saturating_mul(1_000_000_000);
    let enter = Stamp::new(start, 0).expect(rt, "a time");
    let leave = Stamp::new(start.saturating_add(takes(does)), 0).expect(rt, "a time");
    events
        .push(Event::Enter(call(rt, peer, does), enter))
        .expect(rt, "memory");
    if let Some(outs) = outs(rt, peer, does) {
        events.push(Event::Return(outs, leave)).expect(rt, "memory");
    }
}

/// The segment of a piece.
pub(crate) fn segment<R: Abort>(rt: &R, alloc: Global, piece: &Piece) -> Segment {
    let (rank, first, calls) = *piece;
    let peer = if rank == 0 { 1 } else { 0 };
    let mut events = Vec::new(alloc);
    let mut number = first;
    for does in calls {
        add_call(rt, &mut events, peer, number, *does);
        number = number.saturating_add(1);
    }
    Segment::new(rank, first, events).expect(rt, "a segment")
}

/// A segment, to be posted.
pub(crate) fn shared<R: Abort>(rt: &R, alloc: Global, segment: Segment) -> SharedSegment {
    SharedSegment::new(alloc, segment).expect(rt, "memory")
}

/// A node that took these pieces in their order.
pub(crate) fn node_of<'a, R: Abort>(
    rt: &R,
    alloc: Global,
    layout: &'a Layout,
    pieces: &[Piece],
) -> Node<'a> {
    let mut node = Node::new(alloc, layout).expect(rt, "memory");
    for piece in pieces {
        node.take(&segment(rt, alloc, piece)).expect(rt, "a take");
    }
    node
}

/// The frame of what is known.
pub(crate) fn frame_of<R: Abort>(rt: &R, alloc: Global, know: &Knowledge) -> Vec<u8> {
    let mut writer = MemoryWriter::new(alloc);
    write_frame(know, &mut writer).expect(rt, "a frame");
    writer.bytes().to_vec(alloc).expect(rt, "memory")
}

/// What the node reports.
pub(crate) fn report_of<R: Abort>(rt: &R, alloc: Global, node: &Node) -> Vec<u8> {
    let answer = node.answer().expect(rt, "an answer");
    report_text(alloc, answer).expect(rt, "memory")
}
