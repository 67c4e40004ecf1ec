//! Arguments of calls that don't agree: what a second look at the texts tells of all collective calls, compared.

ghost use Rattle.trace_ops.specs.Ops.{AreOwn};

use crate::facts::Facts;
use mpi_model::Layout;
use std::alloc::{AllocError, Global};
use text_notes::{Look, TextNote};
use trace_arguments::{CallsTold, arguments_of, truncated_of};
use trace_node::Answer;
use trace_ops::RankOps;

/// Adds what a look has found of the arguments of a text's calls.
pub(crate) fn add_arguments(
    calls: &mut CallsTold,
    note: &TextNote,
    look: &Look,
) -> Result<(), AllocError> {
    for call in look.arguments() {
        let number = note.first().saturating_add(call.number());
        calls.add(note.rank(), number, call.told().try_clone()?)?;
    }
    Ok(())
}

/// Tells the messages that are longer than their receives, and the rounds in which arguments don't agree. Where no pair
/// is over and no call tells anything of its arguments, there are none.
pub(crate) fn compare_arguments(
    alloc: Global,
    layout: &Layout,
    answer: &Answer,
    ops: &[RankOps],
    found: &mut Facts,
) -> Result<(), AllocError>
    requires { AreOwn 0 ops.now }
{
    let is_some_over = answer.pairs().iter().any(|pair| pair.over);
    if !is_some_over && !found.is_some_told {
        return Ok(());
    }
    let truncated = truncated_of(alloc, ops, answer.pairs())?;
    let arguments = arguments_of(alloc, layout, ops, &found.calls, answer.rounds())?;
    found.texts.truncated = truncated;
    found.texts.arguments = arguments;
    Ok(())
}
