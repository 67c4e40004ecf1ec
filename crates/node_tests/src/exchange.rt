//! Both sides of an exchange in memory, each fed with what the other wrote. What a side that is refused
//! leaves is said by the contracts of both (`Leads`, `Follows`), over each stream that tells its bytes.

use crate::fixture::{PIECES, PINGPONG, frame_of, layout, node_of, report_of};
use crate::pipe::{Pipe, is_stream};
use mpi_model::{Layout, MemoryReader, MemoryWriter};
use std::alloc::Global;
use std::process::Abort;
use trace_cluster::{follow, lead};
use trace_node::Node;

/// A stream that gives these bytes, seven at a time, and takes five at a time.
fn giving<'a>(alloc: Global, given: &'a [u8]) -> Pipe<'a> {
    Pipe {
        reader: MemoryReader::new(given).at_most(7),
        writer: MemoryWriter::new(alloc).at_most(5),
    }
}

/// What a node writes that leads, and is given these bytes.
fn led<R: Abort>(rt: &R, alloc: Global, node: &mut Node, given: &[u8]) -> Vec<u8> {
    let mut stream = giving(alloc, given);
    is_stream(&stream);
    lead(alloc, &mut stream, node).expect(rt, "an exchange");
    stream.writer.bytes().to_vec(alloc).expect(rt, "memory")
}

/// What a node writes that follows, and is given these bytes.
fn followed<R: Abort>(rt: &R, alloc: Global, node: &mut Node, given: &[u8]) -> Vec<u8> {
    let mut stream = giving(alloc, given);
    is_stream(&stream);
    follow(alloc, &mut stream, node).expect(rt, "an exchange");
    stream.writer.bytes().to_vec(alloc).expect(rt, "memory")
}

/// Whether the node reports the run, and its frame is this one.
fn knows_all<R: Abort>(rt: &R, alloc: Global, node: &Node, frame: &[u8]) -> bool {
    report_of(rt, alloc, node).as_slice() == PINGPONG
        && frame_of(rt, alloc, node.know()).as_slice() == frame
}

/// Whether both know all, once the one wrote what it had known and the other what both know.
fn meet<R: Abort>(rt: &R, alloc: Global, layout: &Layout) -> bool {
    let mut leader = node_of(rt, alloc, layout, &PIECES[..1]);
    let mut follower = node_of(rt, alloc, layout, &PIECES[1..]);
    let own = frame_of(rt, alloc, leader.know());
    let answered = followed(rt, alloc, &mut follower, &own);
    let asked = led(rt, alloc, &mut leader, &answered);
    let has_led = knows_all(rt, alloc, &leader, &answered);
    let has_followed = knows_all(rt, alloc, &follower, &answered);
    drop(leader);
    drop(follower);
    has_led && has_followed && asked.as_slice() == own.as_slice()
}

#[test]
fn two_nodes_with_a_piece_each(rt: HostRuntime) {
    let layout = layout(&rt, rt.alloc());
    let is_so = meet(&rt, rt.alloc(), &layout);
    assert!(rt; is_so);
}
