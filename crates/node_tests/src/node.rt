//! Nodes that were told of pieces: what they report, and so do their copies, their answers' copies, and they
//! themselves once they are refreshed.

use crate::fixture::{Does, PIECES, PINGPONG, Piece, layout, node_of, report_of};
use std::alloc::Global;
use std::process::Abort;
use trace_node::Node;
use trace_report::report_text;

/// Three sends of rank 0, which rank 1 receives; and the second of them with another tag.
const DISAGREEING: &[Piece] = &[
    (0, 0, &[Does::Send(7), Does::Send(7)]),
    (0, 2, &[Does::Send(7)]),
    (
        1,
        0,
        &[Does::Receive(7), Does::Receive(7), Does::Receive(7)],
    ),
    (0, 1, &[Does::Send(8)]),
];

/// What is reported of them, by `docs/formats/report.md`: rank 0 is readable up to where they disagree.
const DISAGREED: &[u8] = b"mpimatch report 1
ranks 2 sends wait
rank 0 prefix 2 free beyond
rank 1 prefix 6 free
conflict 0 2
pair 0:0 1:0
stuck none
foreign 0
end
";

/// Both ranks wait for a message that never comes.
const WAITING: &[Piece] = &[(0, 0, &[Does::Await(8)]), (1, 0, &[Does::Await(9)])];

const STUCK: &[u8] = b"mpimatch report 1
ranks 2 sends wait
rank 0 prefix 1 waiting
rank 1 prefix 1 waiting
stuck 0 call 0 since 0.000000000 waits 1
stuck 1 call 0 since 0.000000000 waits 0
foreign 0
end
";

/// What was told, and what is reported of it.
static ROWS: [(&str, &[Piece], &[u8]); 3] = [
    ("a message", PIECES, PINGPONG),
    ("stuck ranks", WAITING, STUCK),
    ("a contradiction", DISAGREEING, DISAGREED),
];

/// What a copy of the node reports.
fn copied<R: Abort>(rt: &R, alloc: Global, node: &Node) -> Vec<u8> {
    let copy = node.try_clone().expect(rt, "memory");
    let report = report_of(rt, alloc, &copy);
    drop(copy);
    report
}

/// The report of a copy of the node's answer.
fn answer_copied<R: Abort>(rt: &R, alloc: Global, node: &Node) -> Vec<u8> {
    let answer = node.answer().expect(rt, "an answer");
    let copy = answer.try_clone().expect(rt, "memory");
    report_text(alloc, &copy).expect(rt, "memory")
}

/// What the node reports once it is refreshed.
fn refreshed<R: Abort>(rt: &R, alloc: Global, node: &mut Node) -> Vec<u8> {
    node.refresh().expect(rt, "memory");
    report_of(rt, alloc, node)
}

/// Whose report it is: a node's own, that of its copy or of its answer's copy, or its own once it is
/// refreshed.
#[derive(Clone, Copy)]
enum Whose {
    Own,
    Copy,
    AnswerCopy,
    Refreshed,
}

/// The report that is asked for.
fn report_by<R: Abort>(rt: &R, alloc: Global, node: &mut Node, whose: Whose) -> Vec<u8> {
    match whose {
        Whose::Own => report_of(rt, alloc, node),
        Whose::Copy => copied(rt, alloc, node),
        Whose::AnswerCopy => answer_copied(rt, alloc, node),
        Whose::Refreshed => refreshed(rt, alloc, node),
    }
}

/// What is reported of a node that took these pieces.
fn reported<R: Abort>(rt: &R, alloc: Global, pieces: &[Piece], whose: Whose) -> Vec<u8> {
    let layout = layout(rt, alloc);
    let mut node = node_of(rt, alloc, &layout, pieces);
    let report = report_by(rt, alloc, &mut node, whose);
    drop(node);
    report
}

static WHOSE: [(&str, Whose); 4] = [
    ("its own", Whose::Own),
    ("its copy's", Whose::Copy),
    ("its answer's copy's", Whose::AnswerCopy),
    ("its own, refreshed", Whose::Refreshed),
];

#[test]
fn nodes_that_were_told_of_pieces(rt: HostRuntime) {
    for (name, pieces, wanted) in &ROWS {
        for (whose, by) in &WHOSE {
            let report = reported(&rt, rt.alloc(), pieces, *by);
            assert!(rt; report.as_slice() == *wanted, "{name}: {whose}");
        }
    }
}
