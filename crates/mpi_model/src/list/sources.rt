//! What the statuses of a call tell.

ghost use Rattle.std.specs.Prelude.{◌≡◌, ◌↔◌, IsTrue, IfOk, All};
ghost use Rattle.mpi_model.specs.Ranges.{IsTold};

use crate::told::Told;
use std::alloc::AllocError;
use std::marker::Model;

/// What the statuses of an `MPI_Waitall` or `MPI_Testall` tell, one entry for each request of the call.
#[derive(Drop)]
pub struct Sources {
    items: Vec<Told>,
}

impl Model for Sources {
    ghost use Rattle.std.specs.Prelude.{List};
    ghost use Rattle.mpi_model.specs.declared.told.Told.{Told};

    ghost Value = { List Told };

    ghost view = { λ r. r.items.items };
}

impl Sources {
    /// The list of these entries. It takes no memory.
    pub fn from_vec(items: Vec<Told>) -> Self
        ensures { result ≡ items.items }
    {
        Sources { items }
    }

    /// What the status of each request tells, in the order of the call's requests.
    pub fn as_slice(&self) -> &[Told]
        ensures { result.now ≡ self.now }
    {
        &self.items
    }

    /// An equal list in memory of its own. Fails with `AllocError` when memory is refused.
    pub fn try_clone(&self) -> Result<Self, AllocError>
        ensures { IfOk result (λ r. r ≡ self.now) }
    {
        Ok(Sources {
            items: self.items.clone()?,
        })
    }

    /// Tells the range of what is told. It does nothing: it is for proofs.
    pub fn known(&self)
        ensures { All IsTold self.now }
    {
        for told in self.items.iter() {
            let _rank = told.rank();
        }
    }

    /// Whether the two lists tell the same, entry by entry.
    pub fn same(&self, other: &Sources) -> bool
        ensures { IsTrue result ↔ (self.now ≡ other.now) }
    {
        self.items == other.items
    }
}
