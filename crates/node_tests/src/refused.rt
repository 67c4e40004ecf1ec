//! Nodes, worlds and crews where memory is refused. What is refused leaves what its contract says, and the test goes on
//! with it: so it passes whichever request is refused, and where none is. A request of a helper in `fixture` stops it
//! instead. `tests/run/run_refusals` refuses each request of these tests in turn.

use crate::crew::{CALL, Row, pieces};
use crate::fixture::{Does, Piece, layout, layout_of, report_of, segment, shared};
use mpi_model::Layout;
use std::alloc::Global;
use std::process::Abort;
use std::sync::Wait;
use std::thread::Threads;
use trace_crew::{Board, CrewFault, CrewOut, OpenGate, PieceFault, PutFault, crew};
use trace_know::{Knowledge, Segment};
use trace_node::{Node, NodeFault};
use trace_world::{Step, StepFault, World, WorldFault};

/// How much is known, how many contradictions, and the readable prefixes of two ranks.
type Known = (usize, usize, u64, u64);

/// What a knowledge tells that a refusal has to leave as it was.
fn known(know: &Knowledge) -> Known {
    (
        know.count(),
        know.conflicts(),
        know.prefix(0),
        know.prefix(1),
    )
}

/// A new node, tried twice.
fn new_node<'a, R: Abort>(rt: &R, alloc: Global, layout: &'a Layout) -> Node<'a> {
    match Node::new(alloc, layout) {
        Ok(node) => node,
        Err(_) => Node::new(alloc, layout).expect(rt, "a node"),
    }
}

/// A new board, tried twice.
fn new_board<'a, R: Abort>(rt: &R, alloc: Global, layout: &'a Layout) -> Board<'a> {
    match Board::new(alloc, layout) {
        Ok(board) => board,
        Err(_) => Board::new(alloc, layout).expect(rt, "a board"),
    }
}

/// What the board shows.
fn shown<R: Wait + Abort>(rt: &R, board: &Board<'_>) -> Known {
    match board.show(rt, None) {
        Ok(found) => known(found.know()),
        Err(_) => known(board.show(rt, None).ok().expect(rt, "what is shown").know()),
    }
}

/// Publishes the node, tried twice: a refusal for want of memory leaves the board as it was.
fn publish<'a, R: Wait + Abort>(rt: &R, node: &Node<'a>, board: &Board<'a>) {
    let before = shown(rt, board);
    if let Err(fault) = board.publish(rt, node) {
        assert!(rt; fault == PutFault::Memory, "{fault}");
        assert!(rt; shown(rt, board) == before, "a refused publish");
        board.publish(rt, node).expect(rt, "a publish");
    }
}

/// Whether a copy of the node has no answer either.
fn copy_is_stale<R: Abort>(rt: &R, node: &Node) -> bool {
    let copy = node.try_clone().expect(rt, "a copy");
    let is_stale = copy.answer().is_err();
    drop(copy);
    is_stale
}

/// A stale node has no answer, isn't published and has a stale copy, until it is refreshed.
fn freshen<'a, R: Wait + Abort>(rt: &R, node: &mut Node<'a>, board: &Board<'a>) {
    let before = shown(rt, board);
    assert!(rt; node.answer().is_err(), "a stale node answers");
    assert!(rt;
        board.publish(rt, node) == Err(PutFault::Stale),
        "a stale node is published"
    );
    assert!(rt; shown(rt, board) == before, "what a stale node leaves");
    assert!(rt; copy_is_stale(rt, node), "a stale node's copy answers");
    node.refresh().expect(rt, "a refreshment");
}

/// Takes a segment. A refusal leaves what was known, or, for want of an answer, a stale node.
fn take<'a, R: Wait + Abort>(rt: &R, node: &mut Node<'a>, board: &Board<'a>, segment: &Segment) {
    let before = known(node.know());
    match node.take(segment) {
        Ok(()) => {}
        Err(NodeFault::Stale) => freshen(rt, node, board),
        Err(fault) => {
            assert!(rt; fault == NodeFault::Memory, "{fault}");
            assert!(rt; known(node.know()) == before, "a refused take");
            node.take(segment).expect(rt, "a take");
        }
    }
}

/// What a node of so many ranks reports that took these pieces, and was published after each.
fn reported<R: Wait + Abort>(rt: &R, alloc: Global, ranks: u32, pieces: &[Piece]) -> Vec<u8> {
    let layout = layout_of(rt, alloc, ranks);
    let board = new_board(rt, alloc, &layout);
    let mut node = new_node(rt, alloc, &layout);
    for piece in pieces {
        take(rt, &mut node, &board, &segment(rt, alloc, piece));
        publish(rt, &node, &board);
    }
    let report = report_of(rt, alloc, &node);
    drop(node);
    drop(board);
    report
}

/// A message that rank 1 may receive by its first receive, until that tells that it received from rank 2.
const TOLD: &[Piece] = &[
    (0, 0, &[Does::Send(7)]),
    (1, 0, &[Does::Post(7), Does::Receive(7)]),
    (1, 2, &[Does::Complete(500_000_000)]),
];

/// The same, and the wait once more, with another end.
const TOLD_TWICE: &[Piece] = &[
    (0, 0, &[Does::Send(7)]),
    (1, 0, &[Does::Post(7), Does::Receive(7)]),
    (1, 2, &[Does::Complete(500_000_000)]),
    (1, 2, &[Does::Complete(600_000_000)]),
];

/// Three messages, and then the second of them with another tag.
const DISAGREEING: &[Piece] = &[
    (0, 0, &[Does::Send(7), Does::Send(7), Does::Send(7)]),
    (
        1,
        0,
        &[Does::Receive(7), Does::Receive(7), Does::Receive(7)],
    ),
    (0, 1, &[Does::Send(8)]),
];

/// A name, how many ranks there are, what is told of them, and what is reported then.
static ROWS: [(&str, u32, &[Piece], &[u8]); 3] = [
    (
        "a source that is told later",
        3,
        TOLD,
        b"mpimatch report 1
ranks 3 sends wait
rank 0 prefix 2 free
rank 1 prefix 6 free
rank 2 prefix 0 free
pair 0:0 1:1
stuck none
foreign 0
end
",
    ),
    (
        "a source that is told twice",
        3,
        TOLD_TWICE,
        b"mpimatch report 1
ranks 3 sends wait
rank 0 prefix 2 free
rank 1 prefix 5 free beyond
rank 2 prefix 0 free
conflict 1 5
postponed 0:0
stuck none
foreign 0
end
",
    ),
    (
        "a call that is told twice",
        2,
        DISAGREEING,
        b"mpimatch report 1
ranks 2 sends wait
rank 0 prefix 2 free beyond
rank 1 prefix 6 free
conflict 0 2
pair 0:0 1:0
stuck none
foreign 0
end
",
    ),
];

#[test]
fn nodes_go_on_after_a_refusal(rt: HostRuntime) {
    for (name, ranks, pieces, wanted) in &ROWS {
        let report = reported(&rt, rt.alloc(), *ranks, pieces);
        assert!(rt; report.as_slice() == *wanted, "{name}");
    }
}

/// What a world of two nodes shows: of each node the readable prefixes of both ranks and how many segments lie in its
/// inbox, and how many mails there are.
type Shows = ((u64, u64, usize), (u64, u64, usize), usize);

/// What the world shows at first, and after each step of the schedule.
static SHOWN: [Shows; 9] = [
    ((0, 0, 0), (0, 0, 0), 0),
    ((0, 0, 1), (0, 0, 0), 0),
    ((2, 0, 0), (0, 0, 0), 0),
    ((2, 0, 0), (0, 0, 0), 1),
    ((2, 0, 1), (0, 0, 0), 1),
    ((2, 2, 0), (0, 0, 0), 1),
    ((2, 2, 0), (2, 0, 0), 1),
    ((2, 2, 0), (0, 0, 0), 1),
    ((2, 2, 0), (2, 0, 0), 1),
];

/// The readable prefixes of both ranks at a node, and how many segments lie in its inbox.
fn shows_at(world: &World, node: usize) -> Option<(u64, u64, usize)> {
    let know = world.node(node)?.know();
    let waiting = world.inbox_len(node)?;
    Some((know.prefix(0), know.prefix(1), waiting))
}

/// What both nodes show, and how many mails were shipped.
fn shows(world: &World) -> Option<Shows> {
    let one = shows_at(world, 0)?;
    let other = shows_at(world, 1)?;
    Some((one, other, world.mails()))
}

/// A post of call 0 of a rank to node 0.
fn post<R: Abort>(rt: &R, alloc: Global, rank: u32) -> Step {
    Step::Post {
        worker: 0,
        node: 0,
        segment: shared(rt, alloc, segment(rt, alloc, &(rank, 0, &[Does::Nothing]))),
    }
}

/// Both ranks' calls reach node 0, whose mail brought the first of them to node 1, and once more after that was
/// restarted.
fn schedule<R: Abort>(rt: &R, alloc: Global) -> Vec<Step> {
    let mut steps = Vec::new(alloc);
    steps.push(post(rt, alloc, 0)).expect(rt, "memory");
    steps.push(Step::Take { node: 0 }).expect(rt, "memory");
    steps.push(Step::Ship { node: 0 }).expect(rt, "memory");
    steps.push(post(rt, alloc, 1)).expect(rt, "memory");
    steps.push(Step::Take { node: 0 }).expect(rt, "memory");
    add_deliveries(rt, &mut steps);
    steps
}

/// A delivery of mail 0 to node 1, a restart of that node, and the delivery once more.
fn add_deliveries<R: Abort>(rt: &R, steps: &mut Vec<Step>) {
    let delivery = (0, 1);
    for is_restart in [false, true, false] {
        let (mail, node) = delivery;
        let step = if is_restart {
            Step::Restart { node }
        } else {
            Step::Deliver { mail, node }
        };
        steps.push(step).expect(rt, "memory");
    }
}

/// How many steps were done of a run that was refused at step k: want of memory leaves the world before that step, and
/// want of an answer after it.
fn done<R: Abort>(rt: &R, k: usize, fault: WorldFault) -> usize {
    let is_one = fault == WorldFault::Memory || fault == WorldFault::Stale;
    assert!(rt; is_one, "{fault}");
    if fault == WorldFault::Stale {
        k.saturating_add(1)
    } else {
        k
    }
}

/// Runs the steps. After a refusal the world shows what the steps before it led to; both nodes are refreshed, and the
/// rest is run.
fn run<R: Abort>(rt: &R, world: &mut World, steps: &[Step]) {
    if let Err(StepFault { step, fault }) = world.run(steps) {
        let count = done(rt, step, fault);
        assert!(rt; shows(world) == SHOWN.get(count).copied(), "step {step}");
        world.refresh(0).expect(rt, "a refreshment");
        world.refresh(1).expect(rt, "a refreshment");
        let rest = steps.get(count..).expect(rt, "the rest");
        world.run(rest).expect(rt, "the steps left");
    }
}

/// A world of two nodes, tried twice.
fn new_world<'a, R: Abort>(rt: &R, alloc: Global, layout: &'a Layout) -> World<'a> {
    match World::new(alloc, layout, 2) {
        Ok(world) => world,
        Err(_) => World::new(alloc, layout, 2).expect(rt, "a world"),
    }
}

/// What both nodes report after the schedule.
static REPORTS: [&[u8]; 2] = [
    b"mpimatch report 1
ranks 2 sends wait
rank 0 prefix 2 free
rank 1 prefix 2 free
stuck none
foreign 0
end
",
    b"mpimatch report 1
ranks 2 sends wait
rank 0 prefix 2 free
rank 1 prefix 0 free
stuck none
foreign 0
end
",
];

/// Whether both nodes report what they have to.
fn are_reported<R: Abort>(rt: &R, alloc: Global, world: &World) -> bool {
    let mut are_so = true;
    for (node, wanted) in REPORTS.iter().enumerate() {
        let held = world.node(node).expect(rt, "a node");
        let report = report_of(rt, alloc, held);
        are_so = report.as_slice() == *wanted && are_so;
    }
    are_so
}

/// What the world shows after the schedule, and whether both nodes report it.
fn told_at_last<R: Abort>(rt: &R, alloc: Global) -> (Option<Shows>, bool) {
    let layout = layout(rt, alloc);
    let steps = schedule(rt, alloc);
    let mut world = new_world(rt, alloc, &layout);
    run(rt, &mut world, &steps);
    let told = (shows(&world), are_reported(rt, alloc, &world));
    drop(world);
    told
}

#[test]
fn worlds_go_on_after_a_refusal(rt: HostRuntime) {
    let told = told_at_last(&rt, rt.alloc());
    assert!(rt; told == (SHOWN.last().copied(), true), "after all steps");
}

/// How many texts a crew left joined, refused for want of memory, or without segments for want of memory: each text has
/// two places.
fn counted(out: &CrewOut<'_>) -> usize {
    let joined = out.node.know().count() / 2;
    let mut other: usize = 0;
    for refusal in &out.refused {
        if refusal.fault == NodeFault::Memory {
            other = other.saturating_add(1);
        }
    }
    for faulty in &out.faults {
        if matches!(faulty.fault, PieceFault::Memory) {
            other = other.saturating_add(1);
        }
    }
    joined.saturating_add(other)
}

/// How many texts of two workers a crew accounts for: all of them where it was refused as a whole, by want of memory or
/// of a thread.
fn accounted<R: Threads + Wait + Sync + Abort>(
    rt: &R,
    alloc: Global,
    first: &[Row],
    second: &[Row],
) -> usize {
    let (one, other) = (pieces(rt, alloc, first), pieces(rt, alloc, second));
    let layout = layout(rt, alloc);
    let board = new_board(rt, alloc, &layout);
    let count = match crew(rt, alloc, &layout, &one, &other, &board, &OpenGate) {
        Ok(out) => {
            let count = counted(&out);
            drop(out);
            count
        }
        Err(CrewFault::Memory | CrewFault::Worker) => first.len().saturating_add(second.len()),
    };
    drop(board);
    count
}

#[test]
fn crews_account_for_each_text(rt: HostRuntime) {
    let found = accounted(
        &rt,
        rt.alloc(),
        &[(0, 0, CALL), (0, 1, CALL)],
        &[(1, 0, CALL)],
    );
    assert!(rt; found == 3, "{found} of 3 texts");
}
