//! The operations that a diagnosis names, each with the call that started it.

use crate::calls::{call_named, named};
use crate::inits::Inits;
use diagnosis_value::{Init, Operation, Rounds, Unmatched, Waiting};
use mpi_model::{Call, OpName};
use std::alloc::{AllocError, Global};
use trace_know::Knowledge;

/// Adds the names of where ranks stand and of what they poll for.
fn push_waiting(waiting: &Waiting, names: &mut Vec<OpName>) -> Result<(), AllocError> {
    for one in &waiting.standing {
        if let Some(call) = &one.call {
            names.push(named(one.rank, call.number))?;
            names.extend_from_slice(&call.open)?;
        }
    }
    for one in &waiting.polls {
        for call in &one.calls {
            names.push(named(one.rank, call.number))?;
            names.extend_from_slice(&call.open)?;
        }
    }
    Ok(())
}

/// Adds the names of the calls of mismatched rounds.
fn push_rounds(rounds: &Rounds, names: &mut Vec<OpName>) -> Result<(), AllocError> {
    for round in &rounds.mismatched {
        for group in &round.groups {
            names.push(group.call)?;
        }
    }
    Ok(())
}

/// Adds the names of messages and receives, and of what they miss by little.
fn push_unmatched(unmatched: &Unmatched, names: &mut Vec<OpName>) -> Result<(), AllocError> {
    for one in &unmatched.left_over {
        names.push(one.message.name)?;
        for near in &one.near {
            names.push(near.receive.name)?;
        }
    }
    for one in &unmatched.starving {
        names.push(one.receive.name)?;
        for near in &one.near {
            names.push(near.message.name)?;
            if let Some(by) = near.by {
                names.push(by)?;
            }
        }
    }
    names.extend_from_slice(&unmatched.unfinished)?;
    Ok(())
}

/// The init of what a call has started.
fn init_of(know: &Knowledge, inits: &Inits, name: OpName) -> Result<Option<Init>, AllocError> {
    let Some(number) = inits.started(know, name) else {
        return Ok(None);
    };
    let Some(call) = call_named(know, named(name.rank, number)) else {
        return Ok(None);
    };
    Ok(Some(Init {
        number,
        call: call.try_clone()?,
    }))
}

/// The operation of that name.
fn operation_of(know: &Knowledge, inits: &Inits, name: OpName) -> Result<Operation, AllocError> {
    let init = init_of(know, inits, name)?;
    let call = match call_named(know, name) {
        Some(call) => call.try_clone()?,
        None => Call::Local,
    };
    Ok(Operation { name, call, init })
}

/// The operations that are named, by name, each once.
pub(crate) fn operations_of(
    alloc: Global,
    know: &Knowledge,
    inits: &Inits,
    waiting: &Waiting,
    rounds: &Rounds,
    unmatched: &Unmatched,
) -> Result<Vec<Operation>, AllocError> {
    let mut names = Vec::new(alloc);
    push_waiting(waiting, &mut names)?;
    push_rounds(rounds, &mut names)?;
    push_unmatched(unmatched, &mut names)?;
    names.sort()?;
    names.dedup();
    let mut operations = Vec::new(alloc);
    for name in &names {
        operations.push(operation_of(know, inits, *name)?)?;
    }
    Ok(operations)
}
