//! What is kept of request numbers.

ghost use Rattle.std.specs.Prelude.{◌≡◌, ℤ, None, Some, length, IfOk, OnOk};
ghost use Rattle.std.specs.Ordering.{int_eq};
ghost use Rattle.trace_ops.specs.Tables.{ChangesAt, kept_of, low_place};

use crate::touched::Touch;
use indexmap::IndexMap;
use std::alloc::{AllocError, Global};

/// The most numbers that have a place in the list.
const MOST_LOW: usize = 1024;

/// What later calls do with each request number. Nearly all numbers are small, and have a place of their own in a list.
#[derive(Drop)]
pub(crate) struct Touched {
    /// For each number below its length.
    low: Vec<Option<Touch>>,
    /// Of all other numbers.
    high: IndexMap<i64, Touch>,
}

/// The place of the number in a list of this length, where it has one.
#[inline(always)]
fn low_place(count: usize, x: i64) -> Option<usize>
    ensures { result ≡ low_place count x }
{
    if x < 0 {
        return None;
    }
    let place = x.unsigned_abs() as usize;
    if place < count { Some(place) } else { None }
}

impl Touched {
    /// Nothing is kept for any number. The list is no longer than this number of calls. Fails with `AllocError` when
    /// memory is refused.
    pub fn new(alloc: Global, calls: usize) -> Result<Touched, AllocError>
        ensures { IfOk result (λ touched. (x : ℤ) → kept_of touched x ≡ None) }
    {
        let low = Vec::from_elem(alloc, None, calls.min(MOST_LOW))?;
        let high = IndexMap::new(alloc);
        Ok(Touched { low, high })
    }

    /// What is kept of the number.
    #[inline(always)]
    pub fn get(&self, x: i64) -> Option<Touch>
        ensures { result ≡ kept_of self.now x }
    {
        match low_place(self.low.len(), x) {
            Some(place) => self.low[place],
            None => self.high.get(&x).copied(),
        }
    }

    /// Keeps this for the number, and returns what was kept before. On `AllocError`, when memory is refused, its
    /// contents are unspecified.
    #[inline(always)]
    pub fn insert(&mut self, x: i64, touch: Touch) -> Result<Option<Touch>, AllocError>
        ensures changed { OnOk result (ChangesAt x (λ before. Some touch) (kept_of self.old) (kept_of self.new)) }
        ensures before { IfOk result (λ before. before ≡ kept_of self.old x) }
    {
        match low_place(self.low.len(), x) {
            Some(place) => {
                let before = self.low[place];
                self.low[place] = Some(touch);
                Ok(before)
            }
            None => {
                let before = self.high.insert(x, touch)?;
                Ok(before)
            }
        }
    }
}
