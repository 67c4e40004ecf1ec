//! The segments that wait for a node.

ghost use Rattle.std.specs.Prelude.{◌≡◌, ◌∷◌, ◌++◌, [], drop, length, OnOk, OnErr, IfOk, IfSome, IfNone};

use crate::shared::SharedSegment;
use std::alloc::{AllocError, Global};
use std::collections::VecDeque;
use std::marker::Model;

/// Segments in the order in which they were posted.
#[derive(Drop)]
pub(crate) struct SegmentQueue {
    alloc: Global,
    queue: VecDeque<SharedSegment>,
}

impl Model for SegmentQueue {
    ghost use Rattle.std.specs.Prelude.{List};
    ghost use Rattle.trace_know.specs.Segment.{PlacedEvents};

    ghost Value = { List PlacedEvents };

    ghost view = { λ i. i.queue.items };
}

impl SegmentQueue {
    /// A queue without segments. It takes no memory.
    pub(crate) fn new(alloc: Global) -> SegmentQueue
        ensures { result ≡ [] }
    {
        SegmentQueue {
            alloc,
            queue: VecDeque::new(alloc),
        }
    }

    /// Adds a segment at the back.
    pub(crate) fn push(&mut self, segment: SharedSegment) -> Result<(), AllocError>
        ensures ok { OnOk result (self.new ≡ self.old ++ segment ∷ []) }
        ensures err { OnErr result (self.new ≡ self.old) }
    {
        self.queue.push_back(segment)?;
        Ok(())
    }

    /// The segment that came first.
    pub(crate) fn front(&self) -> Option<&SharedSegment>
        ensures some { IfSome result (λ s. self.now ≡ s.now ∷ drop 1 self.now) }
        ensures none { IfNone result (self.now ≡ []) }
    {
        self.queue.front()
    }

    /// Removes the segment that came first.
    pub(crate) fn pop(&mut self)
        ensures { self.new ≡ drop 1 self.old }
    {
        let _ = self.queue.pop_front();
    }

    /// Drops all segments of the queue.
    pub(crate) fn clear(&mut self)
        ensures { self.new ≡ [] }
    {
        self.queue.clear();
    }

    /// How many segments wait in the queue.
    pub(crate) fn len(&self) -> usize
        ensures { result ≡ length self.now }
    {
        self.queue.len()
    }

    /// A queue of the same segments, which both share.
    pub(crate) fn try_clone(&self) -> Result<SegmentQueue, AllocError>
        ensures { IfOk result (λ copy. copy ≡ self.now) }
    {
        let mut copy = SegmentQueue::new(self.alloc);
        for segment in self.queue.iter() {
            copy.push(segment.try_clone()?)?;
        }
        Ok(copy)
    }
}
