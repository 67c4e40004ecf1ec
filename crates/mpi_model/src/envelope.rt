//! Envelopes of sends, receives and probes (MPI 4.0, 3.2.3).

ghost use Rattle.std.specs.Prelude.{◌≡◌, ◌↔◌, IsTrue};

mod exchange;
mod packed;
mod probe;
mod receive;
mod send;

pub use exchange::Exchange;
pub use probe::ProbeEnvelope;
pub use receive::ReceiveEnvelope;
pub use send::SendEnvelope;

/// The other end of a message, as a call names it: a rank in the communicator's group.
#[derive(Clone, Copy, Debug, PartialEq, Eq)]
pub enum Peer {
    /// `MPI_ANY_SOURCE`: a receive takes from every rank.
    Any,
    /// `MPI_PROC_NULL`: the call completes at once and moves nothing (MPI 4.0, 3.10).
    Null,
    /// A rank in the communicator's group.
    Rank(u32),
}

/// A communicator, as a call names it.
#[derive(Clone, Copy, Debug, PartialEq, Eq)]
pub enum CommRef {
    /// `MPI_COMM_WORLD`, whatever number the layout gives to it.
    World,
    /// A communicator, a window or a file, by the number that the trace gives to it.
    Id(u32),
}

/// The mode of a send (MPI 4.0, 3.4).
#[derive(Clone, Copy, PartialEq, Eq, PartialOrd, Ord)]
pub enum Mode {
    /// `MPI_Send` and its forms: MPI decides whether the send is buffered.
    Standard,
    /// `MPI_Ssend` and its forms: it completes only once its receive has started.
    Synchronous,
    /// `MPI_Bsend` and its forms: it completes by itself.
    Buffered,
    /// `MPI_Rsend` and its forms: its receive has to be posted already.
    Ready,
}

/// What a message is sent with, or what a receive asks for. A tag of `None` is `MPI_ANY_TAG`.
///
/// Any value can be written down here; [`SendEnvelope`] and [`ReceiveEnvelope`] hold those that a
/// call can have.
#[derive(Clone, Copy, Debug)]
pub struct Envelope {
    pub peer: Peer,
    /// `None` is `MPI_ANY_TAG`.
    pub tag: Option<u32>,
    pub comm: CommRef,
    /// Elements of the datatype.
    pub count: u32,
    /// The trace's number of the datatype.
    pub datatype: i64,
}

impl Envelope {
    /// Whether the two envelopes are equal in every field.
    pub fn same(self, other: Envelope) -> bool
        ensures { IsTrue result ↔ (self ≡ other) }
    {
        if self.peer != other.peer {
            return false;
        }
        if self.tag != other.tag {
            return false;
        }
        if self.comm != other.comm {
            return false;
        }
        self.count == other.count && self.datatype == other.datatype
    }
}
