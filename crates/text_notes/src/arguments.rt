//! What the collective calls of a text tell of their arguments.

ghost use Rattle.std.specs.Prelude.{◌≡◌, ◌≤◌, ◌++◌, IfOk, OnErr, OnOk, option_to_list, vec_capacity, vec_len};
ghost use Rattle.text_notes.specs.Arguments.{call_told, kind_of, unless_empty};

use call_arguments::{LastTold, SharedTold, Told, told_of};
use dumpi_text::RawCall;
use mpi_model::{Call, Kind};
use std::alloc::{AllocError, Global};
use std::marker::Model;

/// A collective call of which some argument is known.
#[derive(Drop)]
pub struct CallTold {
    number: u64,
    told: SharedTold,
}

impl Model for CallTold {
    ghost use Rattle.text_notes.specs.Arguments.{CallToldParts};

    ghost Value = { CallToldParts };

    ghost view = { λ c. record { number = c.number; told = c.told } };
}

impl CallTold {
    /// The number of the call among the calls of the text, from 0.
    pub fn number(&self) -> u64
        ensures { result ≡ self.now.number }
    {
        self.number
    }

    /// What it tells.
    pub fn told(&self) -> &SharedTold
        ensures { result.now ≡ self.now.told }
    {
        &self.told
    }
}

/// The kind of a collective call, blocking or not.
pub(crate) fn kind_of(call: &Call) -> Option<Kind>
    ensures { result ≡ kind_of call.now }
{
    match call {
        Call::Collective(collective) => Some(collective.kind()),
        Call::Icollective(collective) => Some(collective.kind()),
        _ => None,
    }
}

/// A call of which something is known.
fn unless_empty(
    alloc: Global,
    last: &mut LastTold,
    number: u64,
    told: Told,
) -> Result<Option<CallTold>, AllocError>
    ensures { IfOk result (λ call. call ≡ unless_empty number told) }
{
    if told.is_empty() {
        return Ok(None);
    }
    let told = last.share(alloc, told)?;
    Ok(Some(CallTold { number, told }))
}

/// What a call tells, where it is collective and something is known.
pub(crate) fn call_told(
    alloc: Global,
    last: &mut LastTold,
    number: u64,
    raw: &RawCall,
    call: &Call,
) -> Result<Option<CallTold>, AllocError>
    ensures { IfOk result (λ told. told ≡ call_told number raw.now call.now) }
{
    match kind_of(call) {
        Some(kind) => {
            let told = told_of(alloc, kind, raw)?;
            unless_empty(alloc, last, number, told)
        }
        None => Ok(None),
    }
}

/// Adds what a call tells, where it tells something.
pub(crate) fn push_told(
    arguments: &mut Vec<CallTold>,
    told: Option<CallTold>,
) -> Result<(), AllocError>
    ensures ok { OnOk result (arguments.new.items ≡ arguments.old.items ++ option_to_list told) }
    ensures full { OnErr result (vec_capacity arguments.old ≤ vec_len arguments.old) }
{
    if let Some(told) = told {
        arguments.push(told)?;
    }
    Ok(())
}
