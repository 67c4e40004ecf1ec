//! Collective calls that don't block.

ghost use Rattle.std.specs.Prelude.{◌≡◌, ◌↔◌, IsTrue, SomeIff, true};
ghost use Rattle.mpi_model.specs.Kinds.{has_nonblocking};
ghost use Rattle.mpi_model.specs.Ranges.{IsIcollective};

use crate::collective::Collective;
use crate::envelope::CommRef;
use crate::kind::{CollectiveFunction, Kind};
use std::marker::Model;

/// A collective call of a kind that has a nonblocking function.
#[derive(Clone, Copy)]
pub struct NonblockingCollective {
    call: Collective,
}

impl Model for NonblockingCollective {
    ghost use Rattle.std.specs.Prelude.{◌≡◌, true};
    ghost use Rattle.mpi_model.specs.Kinds.{has_nonblocking};
    ghost use Rattle.mpi_model.specs.Ranges.{CollectiveCall};

    ghost Value = { CollectiveCall };

    ghost view = { λ e. e.call };

    ghost invariant = { λ e. has_nonblocking e.call.kind ≡ true };

    ghost inverse = { λ e. record { call = e } };
}

impl NonblockingCollective {
    /// The call as one that doesn't block; `None` where its kind has no nonblocking function.
    pub(crate) fn new(call: Collective) -> Option<NonblockingCollective>
        ensures { SomeIff result (has_nonblocking call.kind ≡ true) call }
    {
        if call.kind().has_nonblocking() {
            Some(NonblockingCollective { call })
        } else {
            None
        }
    }

    /// Tells the range of the call's values. It does nothing: it is for proofs.
    pub fn known(self)
        ensures { IsIcollective self }
    {
        self.call.known();
    }

    /// What is called.
    pub fn call(self) -> Collective
        ensures { result ≡ self }
    {
        self.call
    }

    /// Its kind, which its blocking function shares.
    pub fn kind(self) -> Kind
        ensures { result ≡ self.kind }
    {
        self.call.kind()
    }

    /// The communicator, or the number of the file.
    pub fn comm(self) -> CommRef
        ensures { result ≡ self.comm }
    {
        self.call.comm()
    }

    /// Its function.
    pub fn function(self) -> CollectiveFunction
        ensures { result ≡ record { kind = self.kind; nonblocking = true } }
    {
        CollectiveFunction::new(self.call.kind(), true).unwrap()
    }

    /// Whether the two calls are equal in every field.
    pub fn same(self, other: NonblockingCollective) -> bool
        ensures { IsTrue result ↔ (self ≡ other) }
    {
        self.call.same(other.call)
    }
}
