//! Stuck ranks.

ghost use Rattle.std.specs.Prelude.{◌≡◌, ◌↔◌, IsTrue, IfOk};
ghost use Rattle.trace_node.specs.Stopped.{stopped};

use std::alloc::{AllocError, Global};
use trace_stuck::Condition;

/// A stuck rank: whatever the ranks do next, its call can't return.
#[derive(Drop)]
pub struct Stuck {
    pub rank: u32,
    /// The number of the call in which it waits.
    pub call: u64,
    /// The wall time in nanoseconds at which it entered the call.
    pub wall: u64,
    /// What it waits for.
    pub waits: Condition,
}

impl Stuck {
    /// A copy, with equal parts. Fails with `AllocError` when memory is refused.
    pub fn try_clone(&self, alloc: Global) -> Result<Stuck, AllocError>
        ensures { IfOk result (λ copy. stopped copy ≡ stopped self.now) }
    {
        Ok(Stuck {
            rank: self.rank,
            call: self.call,
            wall: self.wall,
            waits: self.waits.try_clone(alloc)?,
        })
    }

    /// Whether the two tell the same.
    pub fn same(&self, other: &Stuck) -> bool
        ensures { IsTrue result ↔ (stopped self.now ≡ stopped other.now) }
    {
        self.rank == other.rank
            && self.call == other.call
            && self.wall == other.wall
            && self.waits.same(&other.waits)
    }
}
