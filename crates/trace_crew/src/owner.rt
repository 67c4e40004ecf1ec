//! What the owner keeps: the node, which it alone holds, and the segments that were refused.

ghost use Rattle.std.specs.Prelude.{◌≡◌, [], false, IfOk, OnErr, OnOk};
ghost use Rattle.trace_crew.specs.Taking.{Handles, IsKept, Sorted, TakesIn, counted, ends_told, is_end, kept_in};

use crate::board::Board;
use crate::hold::{RefusedSegment, hold};
use crate::keeper::Keeper;
use crate::queue::{Post, Worker, WorkerPost};
use mpi_model::Layout;
use std::alloc::{AllocError, Global};
use std::sync::Wait;
use trace_know::{ReadySegment, Segment, view_laws};
use trace_node::{Node, NodeFault};

/// How many events are joined before the node is shown on the way for the first time: the workers read this many in
/// less than a second, so a reader of the board would hardly see an earlier answer.
const FIRST_SHOWN: u64 = 1_000_000;

/// A segment that was not joined, and why.
#[derive(Drop)]
pub struct Refusal {
    /// The worker that posted it.
    pub from: Worker,
    pub segment: Segment,
    pub fault: NodeFault,
}

/// A node, and what was made of the segments that came for it.
#[derive(Drop)]
pub struct Hall<'s, 'a> {
    /// The board on which the node is shown.
    board: &'s Board<'a>,
    /// The join of the segments that were not refused.
    pub node: Node<'a>,
    /// The segments that were refused, in the order in which they were taken.
    pub refused: Vec<Refusal>,
    /// How many segments of the first worker were taken.
    first: u64,
    /// How many segments of the second worker were taken.
    second: u64,
    /// How many events there were in the segments that were joined.
    joined: u64,
    /// How many of them had been joined when the node was last shown.
    shown: u64,
}

impl<'s, 'a> Hall<'s, 'a> {
    /// An owner that has taken nothing. Fails with `AllocError` when memory is refused.
    #[tactic(auto, using(crate::proofs::Sorting::nothing_taken))]
    pub fn new(
        alloc: Global,
        layout: &'a Layout,
        board: &'s Board<'a>,
    ) -> Result<Hall<'s, 'a>, AllocError>
        ensures { IfOk result (λ hall. Sorted layout.now [] hall.node hall.refused.items) }
    {
        Ok(Hall {
            board,
            node: Node::new(alloc, layout)?,
            refused: Vec::new(alloc),
            first: 0,
            second: 0,
            joined: 0,
            shown: 0,
        })
    }

    /// Makes the answer to all that was joined, where it isn't made yet, and shows it. Without memory for
    /// it the node stays stale. A refused publish is passed over.
    pub fn settle<R: Wait>(&mut self, rt: &R) -> Result<(), AllocError>
        ensures kept { IsKept self.old.node self.new.node }
        ensures refused { self.new.refused.items ≡ self.old.refused.items }
        ensures fresh { OnOk result (self.new.node.is_stale ≡ false) }
    {
        self.node.catch_up()?;
        if self.shown < self.joined && self.board.publish(rt, &self.node).is_ok() {
            self.shown = self.joined;
        }
        Ok(())
    }

    /// Whether so much was joined since the node was shown that an answer, and the copy of what is known
    /// that the next segment then takes, are worth their time: three times as much as before, and a million
    /// events to begin with. So these together cost at most a third more than the last of them.
    fn is_due(&self) -> bool {
        self.joined >= FIRST_SHOWN && self.joined / 4 >= self.shown
    }

    /// While nothing waits to be taken: makes the answer to all that was joined, and shows it, where that
    /// is due. A refused publish is passed over: the next one shows all that this would have shown. Nothing
    /// is prepared for the last answer: its pairs are made in one pass, in less time than an index follows.
    pub fn rest<R: Wait>(&mut self, rt: &R)
        ensures kept { IsKept self.old.node self.new.node }
        ensures refused { self.new.refused.items ≡ self.old.refused.items }
    {
        if !self.is_due() {
            return;
        }
        if self.node.catch_up().is_ok() && self.board.publish(rt, &self.node).is_ok() {
            self.shown = self.joined;
        }
    }

    /// Joins a segment, or lists it with why it was not joined.
    fn join(&mut self, from: Worker, segment: ReadySegment) -> Result<(), AllocError>
        ensures { OnOk result (Handles from segment self.old.node self.old.refused.items self.new.node self.new.refused.items) }
    {
        let count = segment.count() as u64;
        match hold(&mut self.node, segment) {
            None => {
                self.joined = self.joined.saturating_add(count);
                Ok(())
            }
            Some(RefusedSegment { segment, fault }) => {
                let segment = segment.into_segment(*self.refused.allocator())?;
                self.refused.push(Refusal {
                    from,
                    segment,
                    fault,
                })?;
                Ok(())
            }
        }
    }

    /// The number of the next segment of a worker, from 0, which counts as taken from now on.
    fn next_of(&mut self, from: Worker) -> u64
        ensures node { self.new.node ≡ self.old.node }
        ensures refused { self.new.refused.items ≡ self.old.refused.items }
    {
        match from {
            Worker::First => {
                let nth = self.first;
                self.first = nth.saturating_add(1);
                nth
            }
            Worker::Second => {
                let nth = self.second;
                self.second = nth.saturating_add(1);
                nth
            }
        }
    }

    /// Handles one item, and answers which segment of which worker it was: None where it ends its
    /// worker's posts.
    #[tactic(auto, using(crate::proofs::Sorting::sorted_end))]
    fn handle(&mut self, item: WorkerPost) -> Result<Option<(Worker, u64)>, AllocError>
        ensures err { OnErr result (is_end item ≡ false) }
        ensures end { IfOk result (λ taken. ends_told taken ≡ counted (is_end item)) }
        ensures sorted { OnOk result (TakesIn item (kept_in self.old) (kept_in self.new)) }
    {
        view_laws();
        let from = item.from;
        match item.post {
            Post::Segment(segment) => {
                self.join(from, segment)?;
                let nth = self.next_of(from);
                Ok(Some((from, nth)))
            }
            Post::End => Ok(None),
        }
    }
}

impl<'s, 'a> Keeper for Hall<'s, 'a> {
    ghost kept = { λ h. kept_in h };

    fn take_in(&mut self, item: WorkerPost) -> Result<Option<(Worker, u64)>, AllocError> {
        self.handle(item)
    }

    fn settle<R: Wait>(&mut self, rt: &R) -> Result<(), AllocError> {
        self.settle(rt)
    }

    fn rest<R: Wait>(&mut self, rt: &R) {
        self.rest(rt)
    }
}
