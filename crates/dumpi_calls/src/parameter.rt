//! Parameters of calls, and why a call is refused for one.

ghost use Rattle.std.specs.Prelude.{◌≡◌};
ghost use Rattle.dumpi_calls.specs.Readings.{name_of};

use std::alloc::{AllocError, AllocFailed};
use std::fmt;

/// A parameter that a function of the profile names, as the lines of a trace text do.
#[derive(Clone, Copy, Debug, PartialEq, Eq)]
pub enum Parameter {
    Count,
    Datatype,
    Dest,
    Source,
    Tag,
    Comm,
    OldComm,
    CommOld,
    LocalComm,
    Intercomm,
    Win,
    Fh,
    File,
    SendCount,
    SendType,
    SendTag,
    RecvCount,
    RecvType,
    RecvTag,
    Root,
    Request,
    Requests,
    Index,
    Indices,
    Flag,
    Status,
    Statuses,
}

impl Parameter {
    /// The name, as a trace text spells it.
    #[inline(always)]
    pub fn name(self) -> &'static str
        ensures { result.now ≡ name_of self }
    {
        match self {
            Parameter::Count => "count",
            Parameter::Datatype => "datatype",
            Parameter::Dest => "dest",
            Parameter::Source => "source",
            Parameter::Tag => "tag",
            Parameter::Comm => "comm",
            Parameter::OldComm => "oldcomm",
            Parameter::CommOld => "comm_old",
            Parameter::LocalComm => "local_comm",
            Parameter::Intercomm => "intercomm",
            Parameter::Win => "win",
            Parameter::Fh => "fh",
            Parameter::File => "file",
            Parameter::SendCount => "sendcount",
            Parameter::SendType => "sendtype",
            Parameter::SendTag => "sendtag",
            Parameter::RecvCount => "recvcount",
            Parameter::RecvType => "recvtype",
            Parameter::RecvTag => "recvtag",
            Parameter::Root => "root",
            Parameter::Request => "request",
            Parameter::Requests => "requests",
            Parameter::Index => "index",
            Parameter::Indices => "indices",
            Parameter::Flag => "flag",
            Parameter::Status => "status",
            Parameter::Statuses => "statuses",
        }
    }
}

impl fmt::Display for Parameter {
    fn fmt<W: fmt::Write>(&self, f: &mut fmt::Formatter<W>) -> fmt::Result {
        f.write_str(self.name())
    }
}

/// Why a call is refused.
#[derive(Clone, Copy)]
pub enum CallFault {
    /// No memory was left to read it.
    Memory,
    /// The parameter isn't there.
    Missing(Parameter),
    /// The parameter's value is unreadable, of another kind, or out of its range.
    Wrong(Parameter),
}

impl From<AllocError> for CallFault {
    ghost use Rattle.std.specs.Prelude.{◌≡◌};
    ghost use Rattle.dumpi_calls.specs.declared.parameter.CallFault.TheVariants.{Memory};

    ghost from_gives = { λ _ e. e ≡ Memory };

    fn from(_error: AllocError) -> CallFault {
        CallFault::Memory
    }
}

impl<T: Drop> From<AllocFailed<T>> for CallFault {
    ghost use Rattle.std.specs.Prelude.{◌≡◌};
    ghost use Rattle.dumpi_calls.specs.declared.parameter.CallFault.TheVariants.{Memory};

    ghost from_gives = { λ _ e. e ≡ Memory };

    fn from(_failed: AllocFailed<T>) -> CallFault {
        CallFault::Memory
    }
}
