//! Which parameters a call is read by. No others are kept while a call is read that nothing but its function's row asks
//! for, so a call with many lines takes no more memory than one with few.

ghost use Rattle.std.specs.Prelude.{◌≡◌, ◌∷◌};
ghost use Rattle.dumpi_calls.specs.Readings.{object_parameters};
ghost use Rattle.dumpi_calls.specs.Looked.{is_named_in, looked_parameters};

use crate::function::{Function, function_of, is};
use crate::parameter::Parameter;
use crate::parameter::Parameter::{
    Comm, CommOld, Count, Datatype, Dest, Fh, File, Flag, Index, Indices, Intercomm, LocalComm,
    OldComm, RecvCount, RecvTag, RecvType, Request, Requests, Root, SendCount, SendTag, SendType,
    Source, Status, Statuses, Tag, Win,
};
use dumpi_text::{Keeping, RawCall};
use mpi_model::ObjectParameter;

/// Whether a name is of one of these parameters.
fn is_one_of(name: &[u8], parameters: &[Parameter]) -> bool
    ensures { result ≡ is_named_in parameters.now name.now }
{
    for parameter in parameters {
        if is(name, parameter.name()) {
            return true;
        }
    }
    false
}

/// The parameters that a collective call on an object is read by: those that may name it, and the request of a
/// nonblocking one.
fn looked_on(parameter: ObjectParameter) -> &'static [Parameter]
    ensures { result.now ≡ Parameter.Request ∷ object_parameters parameter }
{
    match parameter {
        ObjectParameter::Comm => &[Request, Comm],
        ObjectParameter::OldComm => &[Request, OldComm, Comm],
        ObjectParameter::CommOld => &[Request, OldComm, CommOld, Comm],
        ObjectParameter::LocalComm => &[Request, LocalComm],
        ObjectParameter::Intercomm => &[Request, Intercomm],
        ObjectParameter::Win => &[Request, Win],
        ObjectParameter::File => &[Request, Fh, File],
    }
}

/// The parameters that a call of a function is read by: those of its row, and those that tell how it returned.
fn looked_parameters(function: Function) -> &'static [Parameter]
    ensures { result.now ≡ looked_parameters function }
{
    match function {
        Function::Send(_) => &[Count, Datatype, Dest, Tag, Comm],
        Function::Isend(_) | Function::SendInit(_) => &[Count, Datatype, Dest, Tag, Comm, Request],
        Function::Recv => &[Count, Datatype, Source, Tag, Comm, Status],
        Function::Irecv | Function::RecvInit => &[Count, Datatype, Source, Tag, Comm, Request],
        Function::Sendrecv => &[
            SendCount, SendType, Dest, SendTag, RecvCount, RecvType, Source, RecvTag, Comm, Status,
        ],
        Function::SendrecvReplace => &[
            Count, Datatype, Dest, SendTag, Source, RecvTag, Comm, Status,
        ],
        Function::Probe | Function::Mprobe => &[Source, Tag, Comm, Status],
        Function::Improbe => &[Source, Tag, Comm, Flag, Status],
        Function::Iprobe => &[Source, Tag, Comm, Flag, Status],
        Function::Wait => &[Request, Status],
        Function::Waitall => &[Requests, Statuses],
        Function::Waitany => &[Requests, Index, Status],
        Function::Waitsome | Function::Testsome => &[Requests, Indices, Statuses],
        Function::Test => &[Request, Flag, Status],
        Function::Testall => &[Requests, Flag, Statuses],
        Function::Testany => &[Requests, Flag, Index, Status],
        Function::Cancel | Function::Free | Function::Start | Function::Imrecv => &[Request],
        Function::Startall => &[Requests],
        Function::Collective(kind) if kind.has_root() => &[Root, Comm],
        Function::Collective(_) => &[Comm],
        Function::Icollective(kind) if kind.has_root() => &[Request, Root, Comm],
        Function::Icollective(_) => &[Request, Comm],
        Function::OnObject(kind, _) => looked_on(kind.row().parameter),
        Function::Unread | Function::Finalize | Function::Other => &[],
    }
}

/// Whether a call of a function is read by the parameter of a name.
fn is_looked_at(function: Function, name: &[u8]) -> bool
    ensures { result ≡ is_named_in (looked_parameters function) name.now }
{
    is_one_of(name, looked_parameters(function))
}

/// Keeps the parameters by which a call of this function is read, the first of each name.
pub(crate) struct Looked;

impl Keeping for Looked {
    ghost use Rattle.dumpi_calls.specs.Looked.{looked_choice};

    ghost choice = { looked_choice };

    fn keeps(call: &RawCall, name: &[u8]) -> bool {
        call.param(name).is_none() && is_looked_at(function_of(call.name()), name)
    }
}
