//! What collective calls are made on.

ghost use Rattle.std.specs.Prelude.{◌≡◌};
ghost use Rattle.mpi_model.specs.Kinds.{object_number};

/// A communicator, a window or a file: calls on it are collective over its group. A rank's numbers for objects of one
/// sort are independent of those for another.
#[derive(Clone, Copy, PartialEq, Eq)]
pub enum Object {
    /// A communicator (MPI 4.0, chapter 7).
    Communicator,
    /// A window of one-sided communication (MPI 4.0, chapter 12).
    Window,
    /// An open file (MPI 4.0, chapter 14).
    File,
}

impl Object {
    /// The number of the sort, which no other sort has.
    pub fn number(self) -> u8
        ensures { result ≡ object_number self }
    {
        self as u8
    }
}
