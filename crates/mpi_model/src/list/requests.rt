//! Requests in a call's order.

ghost use Rattle.std.specs.Prelude.{◌≡◌, ◌↔◌, IsTrue, IfOk, All};
ghost use Rattle.mpi_model.specs.Events.{IsSigned};

use std::alloc::AllocError;
use std::marker::Model;

/// The number of `MPI_REQUEST_NULL`, which is never an operation's (MPI 4.0, 3.7.3).
pub const NULL_REQUEST: i64 = i64::MIN;

/// The request numbers that a call names, in its order.
#[derive(Drop)]
pub struct Requests {
    items: Vec<i64>,
}

impl Model for Requests {
    ghost use Rattle.std.specs.Prelude.{List, ℤ};

    ghost Value = { List ℤ };

    ghost view = { λ r. r.items.items };
}

impl Requests {
    /// The list of these numbers. It takes no memory.
    pub fn from_vec(items: Vec<i64>) -> Self
        ensures { result ≡ items.items }
    {
        Requests { items }
    }

    /// The request numbers, in the order of the call; [`NULL_REQUEST`] stands for `MPI_REQUEST_NULL`.
    pub fn as_slice(&self) -> &[i64]
        ensures { result.now ≡ self.now }
    {
        &self.items
    }

    /// An equal list in memory of its own. Fails with `AllocError` when memory is refused.
    pub fn try_clone(&self) -> Result<Self, AllocError>
        ensures { IfOk result (λ r. r ≡ self.now) }
    {
        Ok(Requests {
            items: self.items.clone()?,
        })
    }

    /// Tells the range of the numbers. It does nothing: it is for proofs.
    pub fn known(&self)
        ensures { All IsSigned self.now }
    {
        for number in self.items.iter() {
            let _number = *number;
        }
    }

    /// Whether the two lists hold the same numbers in the same order.
    pub fn same(&self, other: &Requests) -> bool
        ensures { IsTrue result ↔ (self.now ≡ other.now) }
    {
        self.items == other.items
    }
}
