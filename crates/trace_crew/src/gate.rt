//! Where a crew may be held.

use crate::piece::PieceAt;
use crate::queue::Worker;

/// What each thread of a crew calls before or after its steps, so that a test can hold it there.
pub trait Gate: Sync {
    /// A worker is about to walk the text at this place.
    fn before_walk(&self, at: PieceAt);

    /// A worker is about to post its `nth` segment, from 0.
    fn before_post(&self, worker: Worker, nth: u64);

    /// The owner has joined or refused a worker's `nth` segment, from 0.
    fn after_take(&self, worker: Worker, nth: u64);
}

/// A gate at which nothing waits.
#[derive(Clone, Copy)]
pub struct OpenGate;

impl Gate for OpenGate {
    fn before_walk(&self, _at: PieceAt) {}

    fn before_post(&self, _worker: Worker, _nth: u64) {}

    fn after_take(&self, _worker: Worker, _nth: u64) {}
}
