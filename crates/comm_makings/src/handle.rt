//! The communicators that a rank names: each by a number, over a stretch of its calls.

use mpi_model::Stretch;

/// A handle: a number by which a rank names a communicator, and the calls in which it does.
pub(crate) type Handle = Stretch;

/// What a call gives.
#[derive(Clone, Copy)]
pub(crate) enum Gives {
    /// The call didn't return.
    Nothing,
    /// MPI_COMM_NULL.
    Null,
    /// A handle of the rank, by its place among them.
    Handle(usize),
    /// A handle that has the number of MPI_COMM_WORLD or MPI_COMM_SELF: no call can be known to mean it.
    Taken(usize),
    /// What it gives can't be read.
    Unknown,
}

/// A group that a call names.
#[derive(Clone, Copy)]
pub(crate) enum GroupAt {
    Empty,
    /// What a call gave, by its place in the rank's list.
    Given(usize),
    Unknown,
}

/// What the numbers in a call mean before it, and what it gives.
#[derive(Clone, Copy)]
pub(crate) struct Meant {
    /// The handle that it names.
    pub comm: Option<usize>,
    pub gives: Gives,
    /// The group that it names, or the first of two.
    pub group: GroupAt,
    pub second: GroupAt,
    /// The handle that it names as that of the communicator of two leaders.
    pub bridge: Option<usize>,
}
