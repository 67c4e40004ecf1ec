//! How a rank stands at the end of its readable events.

/// How a rank stands.
#[derive(Clone, Copy, PartialEq, Eq)]
pub enum State {
    /// It isn't seen to wait, or something is known past its readable events.
    Free,
    /// Its last readable event enters a call in which it may have to wait for others.
    Waiting,
    /// Its last readable event belongs to `MPI_Finalize`.
    Ended,
}
