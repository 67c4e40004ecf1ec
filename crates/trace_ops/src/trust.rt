//! What a Cancel leaves of messages and receives, and which requests a Cancel names.

ghost use Rattle.std.specs.Prelude.{◌≡◌};
ghost use Rattle.trace_ops.specs.Fate.{OfFate};
ghost use Rattle.trace_ops.specs.Trust.{cancelled_with, gives_back, gives_back_with, is_cancelled_post, trust_by, trust_of_post, trust_with};

use crate::fate::{Fate, is_marked, is_void_end};
use crate::touched::end_of;
use mpi_model::{Call, OpName, Trust};

/// The trust by whether a Cancel names the request, its outcome says that it was cancelled, and a source is told.
fn trust_with(cancelled: bool, void: bool, told: bool) -> Trust
    ensures { result ≡ trust_with cancelled void told }
{
    match (cancelled, void, told) {
        (false, _, _) => Trust::Sure,
        (true, true, _) => Trust::Void,
        (true, false, true) => Trust::Sure,
        (true, false, false) => Trust::Doubtful,
    }
}

/// The trust of what a call posted, by the fate of its request and whether a source is told.
pub(crate) fn trust_of_post(fate: Option<Fate<'_>>, told: bool) -> Trust
    ensures { OfFate fate.entry (λ later posted. result ≡ trust_of_post later posted told) }
{
    match fate {
        Some(fate) => {
            let void = is_void_end(end_of(fate.touch));
            trust_with(is_marked(fate.touch), void, told)
        }
        None => Trust::Sure,
    }
}

/// Whether a Cancel names the request that was posted.
fn is_cancelled_post(fate: Option<Fate<'_>>) -> bool
    ensures { OfFate fate.entry (λ later posted. result ≡ is_cancelled_post posted later) }
{
    match fate {
        Some(fate) => is_marked(fate.touch),
        None => false,
    }
}

/// The name of what was posted, where a Cancel names its request.
pub(crate) fn cancelled_with(name: OpName, fate: Option<Fate<'_>>) -> Option<OpName>
    ensures { OfFate fate.entry (λ later posted. result ≡ cancelled_with name later posted) }
{
    if is_cancelled_post(fate) {
        Some(name)
    } else {
        None
    }
}

/// Whether a step or one behind it is an Imrecv whose request a Cancel names, so that it may give its message back.
pub(crate) fn gives_back(call: &Call, fate: Option<Fate<'_>>, behind: bool) -> bool
    ensures { OfFate fate.entry (λ later posted. behind ≡ gives_back later → result ≡ gives_back_with call.now posted later) }
{
    (matches!(call, Call::Imrecv) && is_cancelled_post(fate)) || behind
}

/// The trust of a matched probe, by whether an Imrecv behind it may give a message back.
pub(crate) fn trust_of_probe(given_back: bool) -> Trust
    ensures { result ≡ trust_by given_back }
{
    if given_back {
        Trust::Doubtful
    } else {
        Trust::Sure
    }
}
