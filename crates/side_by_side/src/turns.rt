//! Whose turn it is.

use std::sync::atomic::{AtomicUsize, Ordering};

/// What threads share that do the jobs of one work. No proof rests on it: a job that is done twice gives the same, and
/// one that is left out is done later.
#[derive(Drop)]
pub(crate) struct Turns {
    /// Whose turn it is in the order of the jobs.
    next: AtomicUsize,
    /// The lowest number of a job by which the work is refused.
    refused: AtomicUsize,
}

impl Turns {
    pub(crate) fn new() -> Turns {
        Turns {
            next: AtomicUsize::new(0),
            refused: AtomicUsize::new(usize::MAX),
        }
    }

    /// The number of the next job of this order that none has taken.
    pub(crate) fn next_of(&self, order: &[usize]) -> Option<usize> {
        let place = self.next.fetch_add(1, Ordering::SeqCst);
        match order.get(place) {
            Some(number) => Some(*number),
            None => None,
        }
    }

    /// Whether the work is refused by a job before this one.
    pub(crate) fn is_refused_before(&self, number: usize) -> bool {
        self.refused.load(Ordering::SeqCst) < number
    }

    /// Notes that the work is refused by a job.
    pub(crate) fn refuse(&self, number: usize) {
        let _ = self.refused.fetch_min(number, Ordering::SeqCst);
    }
}
