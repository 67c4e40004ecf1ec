//! Requests that were completed, with what their statuses tell.

ghost use Rattle.std.specs.Prelude.{◌≡◌, ◌↔◌, IsTrue, IfOk, All};
ghost use Rattle.mpi_model.specs.Events.{IsElement};

use crate::told::Told;
use std::alloc::AllocError;
use std::marker::Model;

/// A request that an `MPI_Waitsome` or `MPI_Testsome` completed: its position in the call's list,
/// from 0, and what its status tells.
#[derive(Clone, Copy, PartialEq, Eq)]
pub struct Element {
    pub position: u32,
    pub told: Told,
}

impl Element {
    /// Tells the range of the element's values. It does nothing: it is for proofs.
    fn known(self)
        ensures { IsElement self }
    {
        let _rank = self.told.rank();
    }
}

/// The requests that an `MPI_Waitsome` or `MPI_Testsome` completed, in the order of its `indices`.
#[derive(Drop)]
pub struct Elements {
    items: Vec<Element>,
}

impl Model for Elements {
    ghost use Rattle.std.specs.Prelude.{List};
    ghost use Rattle.mpi_model.specs.declared.list.elements.Element.{Element};

    ghost Value = { List Element };

    ghost view = { λ r. r.items.items };
}

impl Elements {
    /// The list of these elements. It takes no memory.
    pub fn from_vec(items: Vec<Element>) -> Self
        ensures { result ≡ items.items }
    {
        Elements { items }
    }

    /// The elements, in the order of the call's `indices`.
    pub fn as_slice(&self) -> &[Element]
        ensures { result.now ≡ self.now }
    {
        &self.items
    }

    /// An equal list in memory of its own. Fails with `AllocError` when memory is refused.
    pub fn try_clone(&self) -> Result<Self, AllocError>
        ensures { IfOk result (λ r. r ≡ self.now) }
    {
        Ok(Elements {
            items: self.items.clone()?,
        })
    }

    /// Tells the range of the elements. It does nothing: it is for proofs.
    pub fn known(&self)
        ensures { All IsElement self.now }
    {
        for element in self.items.iter() {
            element.known();
        }
    }

    /// Whether the two lists hold the same elements in the same order.
    pub fn same(&self, other: &Elements) -> bool
        ensures { IsTrue result ↔ (self.now ≡ other.now) }
    {
        self.items == other.items
    }
}
