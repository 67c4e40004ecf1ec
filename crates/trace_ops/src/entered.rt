//! Entries into collective calls.

ghost use Rattle.std.specs.Prelude.{◌≡◌};
ghost use Rattle.trace_ops.specs.Round.{is_barrier, is_communication};

use mpi_model::{CollectiveFunction, Kind};

/// A collective call that a rank entered, blocking or not (MPI 4.0, 6.1 and 6.12).
#[derive(Clone, Copy)]
pub struct Entered {
    /// The id of its object in the layout: of a communicator, a window or a file.
    pub comm: u32,
    /// Whether that is an intercommunicator.
    pub inter: bool,
    pub function: CollectiveFunction,
    /// The root's rank in the group; `None` if the kind has no root. On an intercommunicator each member names another,
    /// so none is told (MPI 4.0, 6.2.3).
    pub root: Option<u32>,
    /// The number of the call in its rank.
    pub call: u64,
}

impl Entered {
    /// Whether it is a Barrier, which no member leaves before all have entered it. One on an
    /// intercommunicator waits for the other group alone (MPI 4.0, 6.3).
    pub fn is_barrier(&self) -> bool
        ensures { result ≡ is_barrier self.now }
    {
        matches!(self.function.kind(), Kind::Barrier)
            && !self.function.is_nonblocking()
            && !self.inter
    }

    /// Whether it is a collective communication within one group, blocking or not (MPI 4.0, 6). Only these are certain
    /// to stand in each member's trace: other collective calls are read only if their parameters are there.
    pub fn is_communication(&self) -> bool
        ensures { result ≡ is_communication self.now }
    {
        self.function.kind().row().is_communication && !self.inter
    }
}
