//! Collective calls (MPI 4.0, chapters 6, 7, 8, 11, 12 and 14).

ghost use Rattle.std.specs.Prelude.{◌≡◌, ◌↔◌, IsTrue, SomeIff, true, false};
ghost use Rattle.mpi_model.specs.Kinds.{has_nonblocking, row};
ghost use Rattle.mpi_model.specs.Ranges.{IsCollective, IsComm, IsNamedAs, IsRootOf};

use crate::envelope::CommRef;
use crate::kind::{CollectiveFunction, Kind};
use crate::object::Object;
use std::marker::Model;

mod nonblocking;

pub use nonblocking::NonblockingCollective;

/// A collective call. Its root is a rank in the group: none where its kind has no root, or where
/// the call names `MPI_ROOT`, `MPI_PROC_NULL` or a number below 0 (MPI 4.0, 6.2.3). Its object is
/// a communicator, or a window or a file, which has a number of its own.
#[derive(Clone, Copy)]
pub struct Collective {
    kind: Kind,
    root: Option<u32>,
    comm: CommRef,
}

impl Model for Collective {
    ghost use Rattle.mpi_model.specs.Ranges.{CollectiveCall, IsCollective};

    ghost Value = { CollectiveCall };

    ghost view = { λ e. record { kind = e.kind; root = e.root; comm = e.comm } };

    ghost invariant = { λ e. IsCollective (record { kind = e.kind; root = e.root; comm = e.comm }) };

    ghost inverse = { λ e. record { kind = e.kind; root = e.root; comm = e.comm } };
}

impl Collective {
    /// The call; `None` if a call of this kind can't have this root or this object.
    pub fn new(kind: Kind, root: Option<u32>, comm: CommRef) -> Option<Collective>
        ensures { SomeIff result (IsRootOf kind root × IsComm comm × IsNamedAs (row kind).object comm) (record { kind = kind; root = root; comm = comm }) }
    {
        if is_root_of(kind, root) && is_comm(comm) && is_named_as(kind.row().object, comm) {
            Some(Collective { kind, root, comm })
        } else {
            None
        }
    }

    /// Tells the range of the call's values. It does nothing: it is for proofs.
    pub fn known(self)
        ensures { IsCollective self }
    {
        let _kind = self.kind;
    }

    /// Its kind, which its blocking and its nonblocking function share.
    pub fn kind(self) -> Kind
        ensures { result ≡ self.kind }
    {
        self.kind
    }

    /// The sort of its object.
    pub fn object(self) -> Object
        ensures { result ≡ (row self.kind).object }
    {
        self.kind.row().object
    }

    /// The root's rank in the group, where the call names one.
    pub fn root(self) -> Option<u32>
        ensures value { result ≡ self.root }
        ensures range { IsRootOf self.kind result }
    {
        self.root
    }

    /// The communicator, or the number of the window or file.
    pub fn comm(self) -> CommRef
        ensures value { result ≡ self.comm }
        ensures range { IsComm result }
        ensures named { IsNamedAs (row self.kind).object result }
    {
        self.comm
    }

    /// Its blocking function.
    pub fn function(self) -> CollectiveFunction
        ensures { result ≡ record { kind = self.kind; nonblocking = false } }
    {
        CollectiveFunction::new(self.kind, false).unwrap()
    }

    /// The same call as a nonblocking one; `None` if its kind has no nonblocking function.
    pub fn nonblocking(self) -> Option<NonblockingCollective>
        ensures { SomeIff result (has_nonblocking self.kind ≡ true) self }
    {
        NonblockingCollective::new(self)
    }

    /// Whether the two calls are equal in every field.
    pub fn same(self, other: Collective) -> bool
        ensures { IsTrue result ↔ (self ≡ other) }
    {
        self.kind.same(other.kind) && self.root == other.root && self.comm == other.comm
    }
}

/// Whether a call of the kind can have this root: none, or a rank to 2^31 - 1 where the kind has one.
fn is_root_of(kind: Kind, root: Option<u32>) -> bool
    ensures { IsTrue result ↔ IsRootOf kind root }
{
    match root {
        None => true,
        Some(rank) => kind.has_root() && rank < 0x8000_0000,
    }
}

/// Whether it is the world, or a number to 2^31 - 1.
fn is_comm(comm: CommRef) -> bool
    ensures { IsTrue result ↔ IsComm comm }
{
    matches!(comm, CommRef::World | CommRef::Id(0..=0x7FFF_FFFF))
}

/// Whether an object of this sort can be named so: only a communicator as the world.
fn is_named_as(object: Object, comm: CommRef) -> bool
    ensures { IsTrue result ↔ IsNamedAs object comm }
{
    match comm {
        CommRef::World => object == Object::Communicator,
        CommRef::Id(_) => true,
    }
}
