//! Which calls a diagnosis names, and which arguments that don't agree.

use crate::calls_of_rank::MOST_CALLS;
use crate::texts::TextFacts;
use crate::words::front;
use diagnosis_value::Diagnosis;
use std::alloc::{AllocError, Global};

/// The most undecided messages of which the texts are asked: a line names the first ones.
const MOST_UNDECIDED: usize = 10;

/// The last calls of a rank that are told where it is asked for.
fn push_last(
    diagnosis: &Diagnosis,
    rank: u32,
    calls: &mut Vec<(u32, u64)>,
) -> Result<(), AllocError> {
    if let Some(standing) = diagnosis.waiting.standing.as_slice().get(rank as usize) {
        if let Some(last) = &standing.call {
            let count = last.number.saturating_add(1);
            for call in count.saturating_sub(MOST_CALLS)..count {
                calls.push((rank, call))?;
            }
        }
    }
    Ok(())
}

/// The calls that a diagnosis names, by rank and number, in rising order and each once, and the last ones of a rank
/// that is asked for: the texts are read again for them. Fails with `AllocError` when memory is refused.
pub fn named_calls(
    alloc: Global,
    diagnosis: &Diagnosis,
    asked: Option<u32>,
) -> Result<Vec<(u32, u64)>, AllocError> {
    let mut calls = Vec::new(alloc);
    if let Some(rank) = asked {
        push_last(diagnosis, rank, &mut calls)?;
    }
    for standing in diagnosis.waiting.standing.iter() {
        if let Some(last) = &standing.call {
            calls.push((standing.rank, last.number))?;
        }
    }
    for polling in diagnosis.waiting.polls.iter() {
        for polled in polling.calls.iter() {
            calls.push((polling.rank, polled.number))?;
        }
    }
    for message in front(diagnosis.unmatched.undecided.as_slice(), MOST_UNDECIDED) {
        calls.push((message.name.rank, message.name.call))?;
    }
    for operation in diagnosis.operations.iter() {
        let name = operation.name;
        calls.push((name.rank, name.call))?;
        if let Some(init) = &operation.init {
            calls.push((name.rank, init.number))?;
        }
    }
    calls.sort()?;
    once(alloc, calls.as_slice())
}

/// The calls whose arguments don't agree, by rank and number, in rising order and each once.
pub fn argument_calls(alloc: Global, texts: &TextFacts) -> Result<Vec<(u32, u64)>, AllocError> {
    let mut calls = Vec::new(alloc);
    for truncated in texts.truncated.iter() {
        let message = truncated.message.name;
        calls.push((message.rank, message.call))?;
        let receive = truncated.receive.name;
        calls.push((receive.rank, receive.call))?;
    }
    for disagreement in texts.arguments.iter() {
        for group in disagreement.groups.iter() {
            let call = group.call();
            calls.push((call.rank, call.call))?;
        }
    }
    calls.sort()?;
    once(alloc, calls.as_slice())
}

/// Each of the calls once, where equal ones stand side by side.
fn once(alloc: Global, calls: &[(u32, u64)]) -> Result<Vec<(u32, u64)>, AllocError> {
    let mut kept = Vec::new(alloc);
    let mut before = None;
    for call in calls {
        if before != Some(*call) {
            kept.push(*call)?;
        }
        before = Some(*call);
    }
    Ok(kept)
}
