//! A storm over four nodes: 2,000 steps of a fixed generator, of segments of eight ranks. Segments are posted, also
//! again, and taken; what a node knows is shipped, and delivered in any order, also again; and nodes are restarted.
//!
//! After each step each node has to know, and to answer, exactly what a new node does that was told of just the
//! segments which reached it, in the order of their making; and its pairs are those of the pass that uses no index.
//! Which segments these are is kept beside the world, as a set of their numbers. A node is made anew once that set has
//! changed.

use crate::fixture::{Does, add_call, layout_of, shared};
use mpi_model::Layout;
use std::alloc::Global;
use std::process::Abort;
use trace_know::{Knowledge, Segment};
use trace_node::{Answer, Node};
use trace_ops::{all_ops, ops_laws};
use trace_pair::{PairTable, pair_all};
use trace_world::{SharedSegment, Step, World};

const RANKS: u32 = 8;

const NODES: usize = 4;

const STEPS: usize = 2_000;

/// How many segments there are: six of each rank, of two calls or of its last.
const SEGMENTS: u32 = 48;

/// The call of each rank that never returns: each waits for another that waits for it.
const LAST: u64 = 9;

/// Numbers that are the same in each run (Knuth's linear congruential generator).
#[derive(Drop)]
struct Chance {
    state: u64,
}

impl Chance {
    /// A number below this many: 0 of none.
    fn below(&mut self, count: u64) -> u64 {
        self.state = self
            .state
            .wrapping_mul(6_364_136_223_846_793_005)
            .wrapping_add(1_442_695_040_888_963_407);
        let number = self.state >> 33;
        if count == 0 { 0 } else { number % count }
    }

    /// The same of a place.
    fn place_below(&mut self, count: usize) -> usize {
        self.below(count as u64) as usize
    }
}

/// What call of this number a rank does, and with which rank. Most calls are a send to the next rank or the receive
/// that takes it there.
fn call_of(chance: &mut Chance, rank: u32, number: u64) -> (u32, Does) {
    let tag = (number / 2 % 3) as u32;
    let next = rank.wrapping_add(1) % RANKS;
    let before = rank.wrapping_add(7) % RANKS;
    if number == LAST {
        return (rank ^ 1, Does::Await(9));
    }
    match chance.below(16) {
        0 => (next, Does::Nothing),
        1 => (before, Does::Post(tag)),
        2 => (before, Does::Complete(1_000)),
        _ if number % 2 == 0 => (next, Does::Send(tag)),
        _ => (before, Does::Receive(tag)),
    }
}

/// The first call of a segment. The last one of a rank tells its last call once more, or of every fourth rank any calls,
/// in another way.
fn first_of(chance: &mut Chance, rank: u32, turn: u64) -> u64 {
    if turn < 5 {
        turn.saturating_mul(2)
    } else if rank % 4 == 0 {
        chance.below(7)
    } else {
        LAST
    }
}

/// The segment of this number.
fn segment_of<R: Abort>(rt: &R, alloc: Global, chance: &mut Chance, number: u32) -> SharedSegment {
    let rank = number % RANKS;
    let first = first_of(chance, rank, u64::from(number / RANKS));
    let mut events = Vec::new(alloc);
    for call in first..first.saturating_add(2).min(LAST + 1) {
        let (peer, does) = call_of(chance, rank, call);
        add_call(rt, &mut events, peer, call, does);
    }
    let segment = Segment::new(rank, first, events).expect(rt, "a segment");
    shared(rt, alloc, segment)
}

/// All segments, in the order of their making.
fn segments_of<R: Abort>(rt: &R, alloc: Global, chance: &mut Chance) -> Vec<SharedSegment> {
    let mut segments = Vec::new(alloc);
    for number in 0..SEGMENTS {
        segments
            .push(segment_of(rt, alloc, chance, number))
            .expect(rt, "memory");
    }
    segments
}

/// The set with this segment alone.
fn only(segment: usize) -> u64 {
    match u32::try_from(segment) {
        Ok(number) => 1u64.checked_shl(number).unwrap_or(0),
        Err(_) => 0,
    }
}

/// What is kept beside the world: sets of segments, by their numbers.
#[derive(Drop)]
struct Kept {
    /// For each node the segments that reached it.
    reached: Vec<u64>,
    /// For each node those in its inbox, in their order, and how many of them it took.
    inboxes: Vec<Vec<usize>>,
    taken: Vec<usize>,
    /// For each mail those that its node knew.
    mails: Vec<u64>,
}

/// Nothing has reached any node.
fn nothing_kept<R: Abort>(rt: &R, alloc: Global) -> Kept {
    let mut kept = Kept {
        reached: Vec::new(alloc),
        inboxes: Vec::new(alloc),
        taken: Vec::new(alloc),
        mails: Vec::new(alloc),
    };
    for _ in 0..NODES {
        kept.reached.push(0).expect(rt, "memory");
        kept.inboxes.push(Vec::new(alloc)).expect(rt, "memory");
        kept.taken.push(0).expect(rt, "memory");
    }
    kept
}

impl Kept {
    /// What reached a node.
    fn reached(&self, node: usize) -> u64 {
        self.reached.get(node).copied().unwrap_or(0)
    }

    /// These segments reach a node.
    fn reach(&mut self, node: usize, more: u64) {
        if let Some(reached) = self.reached.get_mut(node) {
            *reached |= more;
        }
    }

    /// A segment is posted to a node.
    fn post<R: Abort>(&mut self, rt: &R, node: usize, segment: usize) {
        if let Some(inbox) = self.inboxes.get_mut(node) {
            inbox.push(segment).expect(rt, "memory");
        }
    }

    /// The front of a node's inbox.
    fn front(&self, node: usize) -> Option<usize> {
        let taken = *self.taken.get(node)?;
        self.inboxes.get(node)?.get(taken).copied()
    }

    /// A node takes the front of its inbox.
    fn take(&mut self, node: usize) {
        if let Some(segment) = self.front(node) {
            self.reach(node, only(segment));
            if let Some(taken) = self.taken.get_mut(node) {
                *taken = taken.saturating_add(1);
            }
        }
    }

    /// A node forgets all.
    fn restart(&mut self, node: usize) {
        if let (Some(inbox), Some(taken), Some(reached)) = (
            self.inboxes.get_mut(node),
            self.taken.get_mut(node),
            self.reached.get_mut(node),
        ) {
            inbox.clear();
            *taken = 0;
            *reached = 0;
        }
    }
}

/// A shipment of what a node knows.
fn ship<R: Abort>(rt: &R, kept: &mut Kept, node: usize) -> Step {
    let reached = kept.reached(node);
    kept.mails.push(reached).expect(rt, "memory");
    Step::Ship { node }
}

/// A delivery of one of the mails to a node.
fn deliver(kept: &mut Kept, chance: &mut Chance, node: usize) -> Step {
    let mail = chance.place_below(kept.mails.len());
    let more = kept.mails.get(mail).copied().unwrap_or(0);
    kept.reach(node, more);
    Step::Deliver { mail, node }
}

/// A step that can be done, which is noted as done.
fn next_step<R: Abort>(
    rt: &R,
    kept: &mut Kept,
    segments: &[SharedSegment],
    chance: &mut Chance,
) -> Step {
    let node = chance.place_below(NODES);
    let word = chance.below(200);
    if word == 0 {
        kept.restart(node);
        return Step::Restart { node };
    }
    if word < 9 {
        return ship(rt, kept, node);
    }
    if word < 25 && !kept.mails.is_empty() {
        return deliver(kept, chance, node);
    }
    if word < 110 && kept.front(node).is_some() {
        kept.take(node);
        return Step::Take { node };
    }
    let number = chance.place_below(segments.len());
    kept.post(rt, node, number);
    post(rt, segments, node, number)
}

/// A post of the segment of this number.
fn post<R: Abort>(rt: &R, segments: &[SharedSegment], node: usize, number: usize) -> Step {
    let segment = segments.get(number).expect(rt, "a segment");
    Step::Post {
        worker: 0,
        node,
        segment: segment.try_clone().expect(rt, "a segment"),
    }
}

/// A new node that was told of these segments, in the order of their making.
fn node_of<'a, R: Abort>(
    rt: &R,
    alloc: Global,
    layout: &'a Layout,
    segments: &[SharedSegment],
    reached: u64,
) -> Node<'a> {
    let mut node = Node::new(alloc, layout).expect(rt, "memory");
    for (number, segment) in segments.iter().enumerate() {
        if reached & only(number) != 0 {
            node.hold(segment.get()).expect(rt, "a segment");
        }
    }
    node.refresh().expect(rt, "memory");
    node
}

/// The pairs and the postponed messages of all that a node knows, by the pass that uses no index.
fn table_of<R: Abort>(rt: &R, alloc: Global, layout: &Layout, know: &Knowledge) -> PairTable {
    let ops = all_ops(alloc, layout, know).expect(rt, "memory");
    ops_laws();
    pair_all(alloc, &ops).expect(rt, "memory")
}

/// For each node of the world a new one that was told of what reached it, with the pairs of what that knows.
#[derive(Drop)]
struct Fresh<'a> {
    reached: Vec<u64>,
    nodes: Vec<Node<'a>>,
    tables: Vec<PairTable>,
}

/// New nodes, of which none was told of anything.
fn fresh_nodes<'a, R: Abort>(rt: &R, alloc: Global, layout: &'a Layout) -> Fresh<'a> {
    let mut fresh = Fresh {
        reached: Vec::new(alloc),
        nodes: Vec::new(alloc),
        tables: Vec::new(alloc),
    };
    for _ in 0..NODES {
        let node = node_of(rt, alloc, layout, &[], 0);
        let table = table_of(rt, alloc, layout, node.know());
        fresh.reached.push(0).expect(rt, "memory");
        fresh.tables.push(table).expect(rt, "memory");
        fresh.nodes.push(node).expect(rt, "memory");
    }
    fresh
}

/// Puts this in the place of what stands there.
fn put<T: Drop>(list: &mut Vec<T>, at: usize, value: T) {
    match list.get_mut(at) {
        Some(held) => *held = value,
        None => drop(value),
    }
}

impl<'a> Fresh<'a> {
    /// Makes a node anew that was told of these segments, unless the one that stands there was.
    fn renew<R: Abort>(
        &mut self,
        rt: &R,
        alloc: Global,
        layout: &'a Layout,
        segments: &[SharedSegment],
        node: usize,
        reached: u64,
    ) {
        if self.reached.get(node).copied() == Some(reached) {
            return;
        }
        let made = node_of(rt, alloc, layout, segments, reached);
        let table = table_of(rt, alloc, layout, made.know());
        put(&mut self.reached, node, reached);
        put(&mut self.tables, node, table);
        put(&mut self.nodes, node, made);
    }
}

/// Whether the answer's pairs and postponed messages are those of the table.
fn has_its_pairs(answer: &Answer, table: &PairTable) -> bool {
    table.pairs() == answer.pairs() && table.postponed() == answer.postponed()
}

/// Whether a node knows and answers what another does, with these pairs.
fn is_as<R: Abort>(rt: &R, node: &Node<'_>, other: &Node<'_>, table: &PairTable) -> bool {
    let (one, two) = (
        node.answer().expect(rt, "an answer"),
        other.answer().expect(rt, "an answer"),
    );
    node.know().same(other.know()) && one.same(two) && has_its_pairs(one, table)
}

/// How many nodes of the world are as the new ones.
fn count_right<R: Abort>(rt: &R, world: &World<'_>, fresh: &Fresh<'_>) -> usize {
    let mut count: usize = 0;
    for at in 0..NODES {
        let held = world.node(at).expect(rt, "a node");
        let node = fresh.nodes.get(at).expect(rt, "a node");
        let table = fresh.tables.get(at).expect(rt, "a table");
        if is_as(rt, held, node, table) {
            count = count.saturating_add(1);
        }
    }
    count
}

/// How much was met, so that a storm in which little happens doesn't pass: the most pairs and stuck ranks of an answer,
/// and contradictions of what is known.
#[derive(Clone, Copy)]
struct Met {
    pairs: usize,
    stuck: usize,
    conflicts: usize,
}

/// What was met, with what a node of the world shows.
fn met_at<R: Abort>(rt: &R, world: &World<'_>, node: usize, met: Met) -> Met {
    let held = world.node(node).expect(rt, "a node");
    let answer = held.answer().expect(rt, "an answer");
    Met {
        pairs: met.pairs.max(answer.pairs().len()),
        stuck: met.stuck.max(answer.stuck().len()),
        conflicts: met.conflicts.max(answer.conflicts().len()),
    }
}

/// Does all steps. After each all nodes have to be as they should.
fn run<'a, R: Abort>(
    rt: &R,
    alloc: Global,
    world: &mut World<'a>,
    fresh: &mut Fresh<'a>,
    layout: &'a Layout,
    segments: &[SharedSegment],
    kept: &mut Kept,
    chance: &mut Chance,
) -> Met {
    let mut met = Met {
        pairs: 0,
        stuck: 0,
        conflicts: 0,
    };
    for number in 0..STEPS {
        let step = next_step(rt, kept, segments, chance);
        world.step(&step).expect(rt, "a step");
        for node in 0..NODES {
            fresh.renew(rt, alloc, layout, segments, node, kept.reached(node));
        }
        let right = count_right(rt, world, fresh);
        assert!(rt;
            right == NODES,
            "after step {number}: {right} nodes are right"
        );
        met = met_at(rt, world, number % NODES, met);
    }
    met
}

/// A storm from its beginning.
fn storm<R: Abort>(rt: &R, alloc: Global) -> Met {
    let mut chance = Chance { state: 2_026 };
    let layout = layout_of(rt, alloc, RANKS);
    let segments = segments_of(rt, alloc, &mut chance);
    let mut kept = nothing_kept(rt, alloc);
    let mut world = World::new(alloc, &layout, NODES).expect(rt, "a world");
    let mut fresh = fresh_nodes(rt, alloc, &layout);
    let met = run(
        rt,
        alloc,
        &mut world,
        &mut fresh,
        &layout,
        &segments,
        &mut kept,
        &mut chance,
    );
    drop(fresh);
    drop(world);
    met
}

#[test]
fn nodes_in_a_storm(rt: HostRuntime) {
    let met = storm(&rt, rt.alloc());
    assert!(rt; met.pairs >= 12, "at most {} pairs", met.pairs);
    assert!(rt; met.stuck >= 1, "at most {} stuck ranks", met.stuck);
    assert!(rt;
        met.conflicts >= 2,
        "at most {} contradictions",
        met.conflicts
    );
}
