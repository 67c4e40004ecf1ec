//! Calls that were cut off before their last entry parameter was written.

ghost use Rattle.std.specs.Prelude.{◌≡◌};
ghost use Rattle.dumpi_calls.specs.Lacking.{is_none_there, lacking_line, lacks_entry, lacks_lenient};

use crate::function::{Function, function_in};
use crate::parameter::Parameter;
use crate::reading::{object_parameters, text_in};
use crate::typing::{entry_missing, first_of};
use dumpi_text::RawCall;

/// Whether none of these parameters is there.
fn is_none_there(raw: &RawCall, parameters: &[Parameter]) -> bool
    ensures { result ≡ is_none_there parameters.now raw.now }
{
    for parameter in parameters {
        if text_in(raw, *parameter).is_some() {
            return false;
        }
    }
    true
}

/// Whether a parameter isn't there without which the call is local.
fn lacks_lenient(function: Function, raw: &RawCall) -> bool
    ensures { result ≡ lacks_lenient function raw.now }
{
    match function {
        Function::Iprobe => {
            first_of(raw, &[Parameter::Source, Parameter::Tag, Parameter::Comm]).is_some()
        }
        Function::OnObject(kind, _) => is_none_there(raw, object_parameters(kind.row().parameter)),
        Function::Send(_) | Function::Isend(_) | Function::SendInit(_) => false,
        Function::Recv | Function::Irecv | Function::RecvInit => false,
        Function::Sendrecv | Function::SendrecvReplace => false,
        Function::Probe | Function::Mprobe | Function::Improbe | Function::Imrecv => false,
        Function::Wait | Function::Waitall | Function::Waitany | Function::Waitsome => false,
        Function::Test | Function::Testall | Function::Testany | Function::Testsome => false,
        Function::Cancel | Function::Free | Function::Start | Function::Startall => false,
        Function::Collective(_) | Function::Icollective(_) => false,
        Function::Unread | Function::Finalize | Function::Other => false,
    }
}

/// Whether an entry parameter isn't there; where a line of the call was dropped, those count too without which it would
/// be local.
fn lacks_entry(raw: &RawCall, dropped: bool) -> bool
    ensures { result ≡ lacks_entry dropped raw.now }
{
    let function = function_in(raw);
    entry_missing(function, raw).is_some() || dropped && lacks_lenient(function, raw)
}

/// Where the call begins, if it has not returned and lacks an entry parameter. Where a line of it was dropped, those
/// parameters count too without which it would be local.
pub fn lacking_line(raw: &RawCall, dropped: bool) -> Option<u64>
    ensures { result ≡ lacking_line dropped raw.now }
{
    match raw.exit() {
        Some(_) => None,
        None => {
            if lacks_entry(raw, dropped) {
                Some(raw.line())
            } else {
                None
            }
        }
    }
}
