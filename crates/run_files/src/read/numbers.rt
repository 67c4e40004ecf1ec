//! By which numbers the members of a communicator name it, as a layout tells.

ghost use Rattle.std.specs.Prelude.{◌≡◌, IfOk, codes, option_map};
ghost use Rattle.serde_json.specs.Find.{as_array, get};
ghost use Rattle.serde_json.specs.View.{items_view, view};
ghost use Rattle.mpi_model.specs.Names.{always};
ghost use Rattle.run_files.specs.Fields.{u32_in};
ghost use Rattle.run_files.specs.Numbers.{end_in, entries_in, entry_in, number_from, numbers_in, stretch_in};

use crate::read::fields::{parted, u32_of, u64_of};
use mpi_model::Stretch;
use serde_json::Value;
use std::alloc::{AllocError, Global};

/// The number of a call, or null where a stretch has no end.
fn end_of(value: &Value) -> Option<Option<u64>>
    ensures { result ≡ end_in (view value.now) }
{
    if value.is_null() {
        return Some(None);
    }
    Some(Some(u64_of(value)?))
}

/// A number, the first call and the end.
fn stretch_of(values: &[Value]) -> Option<Stretch>
    ensures { result ≡ stretch_in (items_view values.now) }
{
    let (number, values) = parted(values)?;
    let (first, values) = parted(values)?;
    let (end, values) = parted(values)?;
    if parted(values).is_some() {
        return None;
    }
    Some(Stretch {
        number: u32_of(number)?,
        first: u64_of(first)?,
        end: end_of(end)?,
    })
}

/// A number over all calls.
fn always(number: u32) -> Stretch
    ensures { result ≡ always number }
{
    Stretch {
        number,
        first: 0,
        end: None,
    }
}

/// An entry: a list is a number over a stretch of calls, a number one over all calls.
fn number_of(value: &Value) -> Option<Stretch>
    ensures { result ≡ number_from (as_array (view value.now)) (u32_in (view value.now)) }
{
    match value.as_array() {
        Some(values) => stretch_of(values),
        None => Some(always(u32_of(value)?)),
    }
}

/// A member's entry: null, a stretch, or a number over all calls.
fn entry_of(value: &Value) -> Option<Option<Stretch>>
    ensures { result ≡ entry_in (view value.now) }
{
    if value.is_null() {
        return Some(None);
    }
    Some(Some(number_of(value)?))
}

/// The entries of all members.
fn entries_of(alloc: Global, values: &[Value]) -> Result<Option<Vec<Option<Stretch>>>, AllocError>
    ensures { IfOk result (λ o. option_map (λ v. v.items) o ≡ entries_in (items_view values.now)) }
{
    let mut entries = Vec::new(alloc);
    for value in values {
        let Some(entry) = entry_of(value) else {
            return Ok(None);
        };
        entries.push(entry)?;
    }
    Ok(Some(entries))
}

/// The entries of a communicator's `numbers`; none at all where it has no such field.
pub(crate) fn numbers_at(
    alloc: Global,
    value: &Value,
) -> Result<Option<Vec<Option<Stretch>>>, AllocError>
    ensures { IfOk result (λ o. option_map (λ v. v.items) o ≡ numbers_in (get (codes "numbers") (view value.now))) }
{
    let Some(field) = value.get("numbers") else {
        return Ok(Some(Vec::new(alloc)));
    };
    match field.as_array() {
        Some(values) => entries_of(alloc, values),
        None => Ok(None),
    }
}
