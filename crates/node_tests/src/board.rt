//! A board of two ranks: that a publish changes it, that a show reads it, and that one who has seen more
//! is told so, and no one else.

use crate::fixture::{Does, layout, segment};
use mpi_model::Layout;
use std::alloc::Global;
use std::mem::replace;
use std::process::Abort;
use std::sync::Wait;
use std::thread::{Threads, join};
use trace_crew::{Board, ShowFault, Shown};
use trace_node::Node;

/// The readable prefixes of both ranks; nothing where an answer has others.
type Prefixes = Option<(u64, u64)>;

/// Those of what is shown.
fn prefixes(shown: &Shown<'_>) -> Prefixes {
    let know = shown.know();
    let told = (know.prefix(0), know.prefix(1));
    let is_answered = shown.answer().prefixes() == [told.0, told.1].as_slice();
    is_answered.then_some(told)
}

/// What is shown to one who has seen nothing.
fn shown_first<'a, R: Wait + Abort>(rt: &R, board: &Board<'a>) -> Shown<'a> {
    board.show(rt, None).ok().expect(rt, "what is shown")
}

/// The prefixes of what is shown now.
fn shown_now<R: Wait + Abort>(rt: &R, board: &Board<'_>) -> Prefixes {
    prefixes(&shown_first(rt, board))
}

/// What is shown to one who has seen this, and 1 where it doesn't contain that.
fn shown_next<'a, R: Wait + Abort>(
    rt: &R,
    board: &Board<'a>,
    seen: &Shown<'a>,
) -> (Shown<'a>, u64) {
    match board.show(rt, Some(seen)) {
        Ok(found) => (found, 0),
        Err(ShowFault::Older(found)) => (found, 1),
        Err(ShowFault::Memory) => None.expect(rt, "memory"),
    }
}

/// Takes a call of rank 0 that takes part in no matching.
fn take_call<R: Abort>(rt: &R, alloc: Global, node: &mut Node, call: u64) {
    let segment = segment(rt, alloc, &(0, call, &[Does::Nothing]));
    node.take(&segment).expect(rt, "a take");
}

/// Publishes a new node, and again after each of so many calls of rank 0, each in a segment of its own: what
/// was shown once the last was taken and not published yet.
fn publish_calls<'a, R: Wait + Abort>(
    rt: &R,
    alloc: Global,
    layout: &'a Layout,
    board: &Board<'a>,
    calls: u64,
) -> Prefixes {
    let mut node = Node::new(alloc, layout).expect(rt, "memory");
    board.publish(rt, &node).expect(rt, "a publish");
    let mut before = None;
    for call in 0..calls {
        take_call(rt, alloc, &mut node, call);
        before = shown_now(rt, board);
        board.publish(rt, &node).expect(rt, "a publish");
    }
    drop(node);
    before
}

/// The prefixes shown before anything was published; when a node that was published had taken a third call;
/// when that was published; and when a new node was, and then whether the last was older (1) or not.
type InTurn = (Prefixes, Prefixes, Prefixes, Prefixes, u64);

/// What a board shows while one node, and then a new one, is published on it.
fn shown_in_turn<R: Wait + Abort>(rt: &R, alloc: Global) -> InTurn {
    let layout = layout(rt, alloc);
    let board = Board::new(alloc, &layout).expect(rt, "memory");
    let nothing = shown_now(rt, &board);
    let before = publish_calls(rt, alloc, &layout, &board, 3);
    let all = shown_first(rt, &board);
    publish_calls(rt, alloc, &layout, &board, 0);
    let (last, older) = shown_next(rt, &board, &all);
    let found = (nothing, before, prefixes(&all), prefixes(&last), older);
    drop(all);
    drop(last);
    drop(board);
    found
}

#[test]
fn what_is_published_is_shown(rt: HostRuntime) {
    let shown = shown_in_turn(&rt, rt.alloc());
    assert!(rt; shown == (Some((0, 0)), Some((4, 0)), Some((6, 0)), Some((0, 0)), 1));
}

/// Asks twenty times, each time with what was shown last: how often that was not contained in what was
/// shown then.
fn count_older<R: Wait + Abort>(rt: &R, board: &Board<'_>) -> u64 {
    let mut older: u64 = 0;
    let mut seen = shown_first(rt, board);
    for _ in 0..20 {
        let (found, count) = shown_next(rt, board, &seen);
        drop(replace(&mut seen, found));
        older = older.saturating_add(count);
    }
    drop(seen);
    older
}

/// How often each of two threads that ask beside each other is shown something older.
fn two_readers<'a, R: Threads + Wait + Sync + Abort>(rt: &R, board: &Board<'a>) -> (u64, u64) {
    join(rt, || count_older(rt, board), || count_older(rt, board))
}

/// One thread publishes a node again after each of ten calls, beside two that ask: how often each of these
/// was shown something older.
fn older_beside<'a, R: Threads + Wait + Sync + Abort>(
    rt: &R,
    alloc: Global,
    layout: &'a Layout,
    board: &Board<'a>,
) -> (u64, u64) {
    join(
        rt,
        || publish_calls(rt, alloc, layout, board, 10),
        || two_readers(rt, board),
    )
    .1
}

/// How often each reader was shown something older, and the prefixes shown in the end.
fn shown_beside<R: Threads + Wait + Sync + Abort>(rt: &R, alloc: Global) -> ((u64, u64), Prefixes) {
    let layout = layout(rt, alloc);
    let board = Board::new(alloc, &layout).expect(rt, "memory");
    let older = older_beside(rt, alloc, &layout, &board);
    let last = shown_now(rt, &board);
    drop(board);
    (older, last)
}

#[test]
fn nothing_older_is_shown(rt: HostRuntime) {
    let found = shown_beside(&rt, rt.alloc());
    assert!(rt; found == ((0, 0), Some((20, 0))));
}
