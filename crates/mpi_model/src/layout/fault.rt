//! Why there is no layout.

ghost use Rattle.std.specs.Prelude.{◌≡◌};

use std::alloc::{AllocError, AllocFailed};
use thiserror::Error;

/// Why there is no layout: the first of these faults in their order, except that `Memory` comes whenever memory is
/// refused.
#[derive(Clone, Copy, Debug, PartialEq, Eq, Error)]
pub enum LayoutFault {
    /// No rank, or more than [`MOST_RANKS`](crate::MOST_RANKS).
    #[error("L1 RankCount")]
    RankCount,
    /// More communicators, windows and files than [`MOST_COMMS`](crate::MOST_COMMS).
    #[error("L2 CommCount")]
    CommCount,
    /// Two of them have one id.
    #[error("L3 DoubleComm")]
    DoubleComm,
    /// One of them has no member, or an intercommunicator has none in its first group.
    #[error("L4 EmptyComm")]
    EmptyComm,
    /// A member is no rank of the run.
    #[error("L5 MemberRange")]
    MemberRange,
    /// A rank stands twice in one of them.
    #[error("L6 DoubleMember")]
    DoubleMember,
    /// The world is absent or no communicator of one group, or its members are not all ranks in their
    /// order (MPI 4.0, 11.2).
    #[error("L7 World")]
    World,
    /// The numbers of one of them are neither absent nor one for each member; or a stretch ends
    /// before its first call; or a rank names two objects of one sort by one number in one call.
    #[error("L8 Numbers")]
    Numbers,
    /// No memory was left.
    #[error("Memory")]
    Memory,
}

impl<T: Drop> From<AllocFailed<T>> for LayoutFault {
    ghost use Rattle.mpi_model.specs.declared.layout.fault.LayoutFault.TheVariants.{Memory};

    ghost from_gives = { λ _ e. e ≡ Memory };

    fn from(_failed: AllocFailed<T>) -> LayoutFault {
        LayoutFault::Memory
    }
}

impl From<AllocError> for LayoutFault {
    ghost use Rattle.mpi_model.specs.declared.layout.fault.LayoutFault.TheVariants.{Memory};

    ghost from_gives = { λ _ e. e ≡ Memory };

    fn from(_failed: AllocError) -> LayoutFault {
        LayoutFault::Memory
    }
}
