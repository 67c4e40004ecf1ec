//! Messages and receives as matching sees them, and which of them fit together.

ghost use Rattle.std.specs.Prelude.{◌≡◌};
ghost use Rattle.mpi_model.specs.Fit.{envelopes_fit, fits};
ghost use Rattle.mpi_model.specs.Trusts.{is_sure, is_doubtful, is_void, is_open, is_settled};

use crate::envelope::Mode;
use crate::event::OpName;

/// What a Cancel leaves of a message or a receive (MPI 4.0, 3.8.4).
#[derive(Clone, Copy, PartialEq, Eq, PartialOrd, Ord)]
pub enum Trust {
    /// No Cancel that was read names it, or the trace says that it completed all the same.
    Sure,
    /// A Cancel names it, and the trace doesn't say whether it was cancelled.
    Doubtful,
    /// The trace says that it was cancelled.
    Void,
}

impl Trust {
    /// Whether no Cancel that was read names it, or it completed all the same.
    pub fn is_sure(self) -> bool
        ensures { result ≡ is_sure self }
    {
        matches!(self, Trust::Sure)
    }

    /// Whether a Cancel names it, and the trace doesn't say if it was cancelled.
    pub fn is_doubtful(self) -> bool
        ensures { result ≡ is_doubtful self }
    {
        matches!(self, Trust::Doubtful)
    }

    /// Whether the trace says that it was cancelled: then it moves no message.
    pub fn is_void(self) -> bool
        ensures { result ≡ is_void self }
    {
        matches!(self, Trust::Void)
    }
}

/// A message of a send: ranks are those of the trace, and a communicator is named by its number.
#[derive(Clone, Copy, PartialEq, Eq, PartialOrd, Ord)]
pub struct Message {
    /// The call that sent it.
    pub name: OpName,
    /// The id of its communicator in the layout.
    pub comm: u32,
    /// The rank that sends.
    pub from: u32,
    /// The rank to which it is sent.
    pub to: u32,
    pub tag: u32,
    pub mode: Mode,
    /// Whether it was cancelled.
    pub trust: Trust,
    /// Elements of the datatype.
    pub count: u32,
    /// The trace's number of the datatype.
    pub datatype: i64,
}

/// A receive that was posted: ranks are those of the trace, and a communicator is named by its
/// number.
#[derive(Clone, Copy, PartialEq, Eq, PartialOrd, Ord)]
pub struct Receive {
    /// The call that posted it.
    pub name: OpName,
    /// The id of its communicator in the layout.
    pub comm: u32,
    /// The rank that receives.
    pub at: u32,
    /// The sender, if the call or its outcome says it; `None` if neither does.
    pub source: Option<u32>,
    /// `None` is `MPI_ANY_TAG`.
    pub tag: Option<u32>,
    /// The most elements that it takes.
    pub count: u32,
    /// Whether it was cancelled.
    pub trust: Trust,
    /// The trace's number of the datatype.
    pub datatype: i64,
    /// The number of the call whose outcome completes it; `None` if no outcome that was read does.
    pub ended: Option<u64>,
}

const _: () = prove!(size_of::<Message>() <= 48 && size_of::<Receive>() <= 72);

impl Receive {
    /// Whether it may take a message that the trace doesn't show: its source isn't told, or it is doubtful. A void
    /// receive takes nothing.
    pub fn is_open(&self) -> bool
        ensures { result ≡ is_open self.now }
    {
        !self.trust.is_void() && (self.source.is_none() || self.trust.is_doubtful())
    }

    /// Whether its source is told and it is sure, so that it takes a message of just this source.
    pub fn is_settled(&self) -> bool
        ensures { result ≡ is_settled self.now }
    {
        self.source.is_some() && self.trust.is_sure()
    }
}

/// Whether the receive can take the message: their envelopes fit, and neither was cancelled
/// (MPI 4.0, 3.8.4).
pub fn fits(message: &Message, receive: &Receive) -> bool
    ensures { result ≡ fits message.now receive.now }
{
    envelopes_fit(message, receive) && !message.trust.is_void() && !receive.trust.is_void()
}

/// Whether the communicator, the receiver, the source and the tag agree (MPI 4.0, 3.2.3 and 3.2.4). A receive whose
/// source isn't told can take from any source.
pub fn envelopes_fit(message: &Message, receive: &Receive) -> bool
    ensures { result ≡ envelopes_fit message.now receive.now }
{
    message.comm == receive.comm
        && message.to == receive.at
        && receive.source.is_none_or(|source| source == message.from)
        && receive.tag.is_none_or(|tag| tag == message.tag)
}
