//! Messages that are longer than their receives.

ghost use Rattle.std.specs.Prelude.{◌≡◌, ◌++◌, [], IfOk, OnOk};
ghost use Rattle.std.specs.List.{cons_option};
ghost use Rattle.trace_ops.specs.Ops.{AreOwn};
ghost use Rattle.trace_arguments.specs.Truncated.{couple_of, truncated_by, truncated_of};

use mpi_model::{Message, Receive};
use std::alloc::{AllocError, Global};
use trace_ops::RankOps;
use trace_pair::Pair;
use trace_wait::{message_named, receive_named};

/// A message with the receive that takes it and has room for fewer elements, of one datatype.
#[derive(Clone, Copy)]
pub struct Truncated {
    pub message: Message,
    pub receive: Receive,
}

/// The message and the receive of a pair.
fn couple_of(ops: &[RankOps], pair: &Pair) -> Option<Truncated>
    requires { AreOwn 0 ops.now }
    ensures { result ≡ couple_of ops.now pair.now }
{
    let message = message_named(ops, pair.message)?;
    let receive = receive_named(ops, pair.receive)?;
    Some(Truncated { message, receive })
}

/// Those of a pair that is over.
fn truncated_by(ops: &[RankOps], pair: &Pair) -> Option<Truncated>
    requires { AreOwn 0 ops.now }
    ensures { result ≡ truncated_by ops.now pair.now }
{
    if pair.over {
        couple_of(ops, pair)
    } else {
        None
    }
}

/// Adds one, where there is one.
fn push_truncated(found: &mut Vec<Truncated>, one: Option<Truncated>) -> Result<(), AllocError>
    ensures { OnOk result (found.new.items ≡ found.old.items ++ cons_option one []) }
{
    if let Some(one) = one {
        found.push(one)?;
    }
    Ok(())
}

/// The messages and receives of all pairs that are over, in the order of the pairs.
pub fn truncated_of(
    alloc: Global,
    ops: &[RankOps],
    pairs: &[Pair],
) -> Result<Vec<Truncated>, AllocError>
    requires { AreOwn 0 ops.now }
    ensures { IfOk result (λ found. found.items ≡ truncated_of ops.now pairs.now) }
{
    let mut found = Vec::new(alloc);
    for pair in pairs {
        push_truncated(&mut found, truncated_by(ops, pair))?;
    }
    Ok(found)
}
