//! The schedule of a manifest: what its nodes are to do, step by step.

ghost use Rattle.std.specs.Prelude.{◌≡◌, IfOk, map, option_and_then, option_map};
ghost use Rattle.std.specs.List.{list_any};
ghost use Rattle.serde_json.specs.View.{items_view, view};
ghost use Rattle.run_files.specs.Schedules.{one_in, post_from, posts_packed, posts_past, renumbered, number_of, step_from, step_in, steps_in, three_in, two_in};

use crate::manifest::PlannedStep;
use crate::read::fields::{parted, usize_of};
use serde_json::Value;
use std::alloc::{AllocError, Global};

/// The steps of a list, in its order.
pub(crate) fn steps_of(
    alloc: Global,
    values: &[Value],
) -> Result<Option<Vec<PlannedStep>>, AllocError>
    ensures { IfOk result (λ o. option_map (λ v. v.items) o ≡ steps_in (items_view values.now)) }
{
    let mut steps = Vec::new(alloc);
    for value in values {
        let Some(step) = step_of(value) else {
            return Ok(None);
        };
        steps.push(step)?;
    }
    Ok(Some(steps))
}

/// Whether a step posts a piece past the last of so many.
pub(crate) fn posts_past_of(steps: &[PlannedStep], pieces: usize) -> bool
    ensures { result ≡ list_any (posts_past pieces) steps.now }
{
    steps.iter().any(|step| is_past(step, pieces))
}

/// Whether a step posts a piece past the last of so many.
fn is_past(step: &PlannedStep, pieces: usize) -> bool
    ensures { result ≡ posts_past pieces step.now }
{
    match step {
        PlannedStep::Post { piece, .. } => pieces <= *piece,
        _ => false,
    }
}

/// Whether a step posts a packed piece: one that has no number among the texts.
pub(crate) fn posts_packed_of(steps: &[PlannedStep], numbers: &[Option<usize>]) -> bool
    ensures { result ≡ list_any (posts_packed numbers.now) steps.now }
{
    steps.iter().any(|step| is_packed(step, numbers))
}

/// Whether a step posts a packed piece, one without a number.
fn is_packed(step: &PlannedStep, numbers: &[Option<usize>]) -> bool
    ensures { result ≡ posts_packed numbers.now step.now }
{
    let PlannedStep::Post { piece, .. } = step else {
        return false;
    };
    match numbers.get(*piece) {
        Some(number) => number.is_none(),
        None => false,
    }
}

/// The same steps, with each piece by its number among the texts.
pub(crate) fn renumbered_by(
    alloc: Global,
    steps: &[PlannedStep],
    numbers: &[Option<usize>],
) -> Result<Vec<PlannedStep>, AllocError>
    ensures { IfOk result (λ v. v.items ≡ map (renumbered numbers.now) steps.now) }
{
    let mut renumbered = Vec::new(alloc);
    for step in steps {
        renumbered.push(renumbered_step(step, numbers))?;
    }
    Ok(renumbered)
}

/// A step that posts a piece posts the text of its number.
fn renumbered_step(step: &PlannedStep, numbers: &[Option<usize>]) -> PlannedStep
    ensures { result ≡ renumbered numbers.now step.now }
{
    match *step {
        PlannedStep::Post {
            worker,
            node,
            piece,
        } => PlannedStep::Post {
            worker,
            node,
            piece: number_of(numbers, piece),
        },
        other => other,
    }
}

/// The number of a piece among the texts, or its own where it has none.
fn number_of(numbers: &[Option<usize>], piece: usize) -> usize
    ensures { result ≡ number_of numbers.now piece }
{
    match numbers.get(piece) {
        Some(Some(number)) => *number,
        _ => piece,
    }
}

/// A word and its numbers.
fn step_of(value: &Value) -> Option<PlannedStep>
    ensures { result ≡ step_in (view value.now) }
{
    let (word, numbers) = parted(value.as_array()?.as_slice())?;
    step_named(word.as_str()?, numbers)
}

/// A step by its word and its numbers.
fn step_named(word: &str, numbers: &[Value]) -> Option<PlannedStep>
    ensures { result ≡ step_from word.now (items_view numbers.now) }
{
    if word == "post" {
        post_of(numbers)
    } else if word == "take" {
        let node = one_of(numbers)?;
        Some(PlannedStep::Take { node })
    } else if word == "ship" {
        let node = one_of(numbers)?;
        Some(PlannedStep::Ship { node })
    } else if word == "deliver" {
        let (mail, node) = two_of(numbers)?;
        Some(PlannedStep::Deliver { mail, node })
    } else if word == "restart" {
        let node = one_of(numbers)?;
        Some(PlannedStep::Restart { node })
    } else {
        None
    }
}

/// A worker's number, a node's and a piece's; a worker is at most 255.
fn post_of(numbers: &[Value]) -> Option<PlannedStep>
    ensures { result ≡ option_and_then post_from (three_in (items_view numbers.now)) }
{
    let (worker, node, piece) = three_of(numbers)?;
    if worker < 256 {
        Some(PlannedStep::Post {
            worker: worker as u8,
            node,
            piece,
        })
    } else {
        None
    }
}

/// A list of just one number.
fn one_of(values: &[Value]) -> Option<usize>
    ensures { result ≡ one_in (items_view values.now) }
{
    let (value, rest) = parted(values)?;
    match parted(rest) {
        None => usize_of(value),
        Some(_) => None,
    }
}

/// A list of just two numbers.
fn two_of(values: &[Value]) -> Option<(usize, usize)>
    ensures { result ≡ two_in (items_view values.now) }
{
    let (value, rest) = parted(values)?;
    let first = usize_of(value)?;
    let second = one_of(rest)?;
    Some((first, second))
}

/// A list of just three numbers.
fn three_of(values: &[Value]) -> Option<(usize, usize, usize)>
    ensures { option_map (λ t. (t.0, (t.1, t.2))) result ≡ three_in (items_view values.now) }
{
    let (value, rest) = parted(values)?;
    let first = usize_of(value)?;
    let (second, third) = two_of(rest)?;
    Some((first, second, third))
}
