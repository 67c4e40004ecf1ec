//! What is posted into a queue, and by whom.

use trace_know::ReadySegment;

/// A worker of a crew.
#[derive(Clone, Copy, Debug, PartialEq, Eq)]
pub enum Worker {
    First,
    Second,
}

/// What is posted: a segment, or that its worker posts no more.
#[derive(Drop)]
pub enum Post {
    /// The next segment of the worker's texts.
    Segment(ReadySegment),
    /// The worker posts nothing more.
    End,
}

/// What lies in a queue: a post, and the worker that it is of.
#[derive(Drop)]
pub struct WorkerPost {
    pub from: Worker,
    pub post: Post,
}
