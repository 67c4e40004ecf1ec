//! The number that stands beside a name in a call.

ghost use Rattle.std.specs.Prelude.{◌≡◌, IfOk};
ghost use Rattle.comm_calls.specs.Calls.{beside_at, beside_in, or_number};

use crate::number::beside;
use dumpi_calls::Memory;
use dumpi_text::RawCall;
use std::alloc::Global;

/// The number beside a name in the parameter at a place.
fn beside_at(alloc: Global, name: &str, raw: &RawCall, place: usize) -> Result<Option<u32>, Memory>
    ensures { IfOk result (λ n. n ≡ beside_at name.now raw.now.params place) }
{
    match raw.param_at(place) {
        Some((_, text)) => beside(alloc, name, text),
        None => Ok(None),
    }
}

/// The number beside a name in the first of the call's parameters that says one.
#[tactic(auto, using(crate::proofs::ByParameter::one_param))]
fn beside_in(alloc: Global, name: &str, raw: &RawCall) -> Result<Option<u32>, Memory>
    ensures { IfOk result (λ n. n ≡ beside_in name.now raw.now.params) }
{
    for place in 0..raw.params_len() {
        if let Some(number) = beside_at(alloc, name, raw, place)? {
            return Ok(Some(number));
        }
    }
    Ok(None)
}

/// The number that was known, or else the one beside a name.
pub(crate) fn known_or_beside(
    alloc: Global,
    known: Option<u32>,
    name: &str,
    raw: &RawCall,
) -> Result<Option<u32>, Memory>
    ensures { IfOk result (λ n. n ≡ or_number known (beside_in name.now raw.now.params)) }
{
    match known {
        Some(number) => Ok(Some(number)),
        None => beside_in(alloc, name, raw),
    }
}
