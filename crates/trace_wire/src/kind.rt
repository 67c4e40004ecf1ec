//! Which nonblocking collective calls have a spelling of their own.

ghost use Rattle.std.specs.Prelude.{◌≡◌};
ghost use Rattle.trace_wire.specs.Fields.{is_barrier};

use mpi_model::Kind;

/// Whether a nonblocking call of this kind is `MPI_Ibarrier`, which is spelled by its communicator alone.
pub(crate) fn is_barrier(kind: Kind) -> bool
    ensures { result ≡ is_barrier kind }
{
    kind.number() == Kind::Barrier.number()
}
