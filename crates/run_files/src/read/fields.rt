//! The value of a JSON text, and what its fields hold.
//!
//! An answer `Result<Option<T>, AllocError>` has want of memory on its outside, and inside whether
//! the value has the form.

ghost use Rattle.std.specs.Prelude.{◌≡◌, IfErr, IfOk, IfSome, IsNone, Some, false, option_and_then, option_map};
ghost use Rattle.serde_json.specs.Data.{item, no_items};
ghost use Rattle.serde_json.specs.Find.{as_array, as_bool, as_str, get};
ghost use Rattle.serde_json.specs.View.{items_view, view};
ghost use Rattle.run_files.specs.Fields.{HasNoValue, IsJson, bit_in, or_absent, u32_in, u32s_in, u64_in};

use crate::fault::InputFault;
use serde_json::Value;
use std::alloc::{AllocError, Global};

/// The JSON value of a text. No other function reads JSON.
pub(crate) fn value_of(alloc: Global, text: &[u8]) -> Result<Value, InputFault>
    ensures ok { IfOk result (λ v. IsJson text.now (view v)) }
    ensures err { IfErr result (HasNoValue text.now) }
{
    match Value::from_slice(alloc, text) {
        Ok(value) => Ok(value),
        Err(error) if error.is_memory() => Err(InputFault::Memory),
        Err(error) => Err(InputFault::Json {
            line: error.line() as u64,
            column: error.column() as u64,
        }),
    }
}

/// The whole number from 0 to 2^64 - 1 that a field holds.
pub(crate) fn u64_at(value: &Value, name: &str) -> Option<u64>
    ensures { result ≡ option_and_then u64_in (get name.now (view value.now)) }
{
    value.get(name)?.as_u64()
}

/// The whole number from 0 to 2^32 - 1 that a field holds.
pub(crate) fn u32_at(value: &Value, name: &str) -> Option<u32>
    ensures { result ≡ option_and_then u32_in (get name.now (view value.now)) }
{
    u32_of(value.get(name)?)
}

/// A number of a field that may be absent.
pub(crate) fn usize_or(value: &Value, name: &str, absent: usize) -> Option<usize>
    ensures { result ≡ or_absent absent u64_in (get name.now (view value.now)) }
{
    match value.get(name) {
        Some(found) => usize_of(found),
        None => Some(absent),
    }
}

/// The number 0 or 1 that a field holds; 0 if it is absent.
pub(crate) fn bit_or_0(value: &Value, name: &str) -> Option<u8>
    ensures { result ≡ or_absent 0 bit_in (get name.now (view value.now)) }
{
    match value.get(name) {
        Some(found) => bit_of(found),
        None => Some(0),
    }
}

/// Whether a field is true, and false where it is absent.
pub(crate) fn bool_or_false(value: &Value, name: &str) -> Option<bool>
    ensures { result ≡ or_absent false as_bool (get name.now (view value.now)) }
{
    match value.get(name) {
        Some(found) => found.as_bool(),
        None => Some(false),
    }
}

/// The text that a field holds.
pub(crate) fn str_at<'v>(value: &'v Value, name: &str) -> Option<&'v str>
    ensures { option_map (λ s. s.now) result ≡ option_and_then as_str (get name.now (view value.now)) }
{
    value.get(name)?.as_str()
}

/// The items of the array that a field holds.
pub(crate) fn list_at<'v>(value: &'v Value, name: &str) -> Option<&'v [Value]>
    ensures { option_map (λ s. items_view s.now) result ≡ option_and_then as_array (get name.now (view value.now)) }
{
    Some(value.get(name)?.as_array()?.as_slice())
}

/// The first of some values, and the rest.
pub(crate) fn parted<'v>(values: &'v [Value]) -> Option<(&'v Value, &'v [Value])>
    ensures none { IsNone result → items_view values.now ≡ no_items }
    ensures some { IfSome result (λ p. items_view values.now ≡ item (view p.0.now) (items_view p.1.now)) }
{
    values.split_first()
}

/// The whole numbers from 0 to 2^32 - 1 of a list; `None` inside where one item is no such number.
pub(crate) fn u32s_of(alloc: Global, values: &[Value]) -> Result<Option<Vec<u32>>, AllocError>
    ensures { IfOk result (λ o. option_map (λ v. v.items) o ≡ u32s_in (items_view values.now)) }
{
    let mut numbers = Vec::new(alloc);
    for value in values {
        let Some(number) = u32_of(value) else {
            return Ok(None);
        };
        numbers.push(number)?;
    }
    Ok(Some(numbers))
}

/// A whole number from 0 to 2^32 - 1.
pub(crate) fn u32_of(value: &Value) -> Option<u32>
    ensures { result ≡ u32_in (view value.now) }
{
    match value.as_u64() {
        Some(n) if n <= 4_294_967_295 => Some(n as u32),
        _ => None,
    }
}

/// A whole number from 0 to 2^64 - 1.
pub(crate) fn u64_of(value: &Value) -> Option<u64>
    ensures { result ≡ u64_in (view value.now) }
{
    value.as_u64()
}

/// A whole number from 0 to 2^64 - 1.
pub(crate) fn usize_of(value: &Value) -> Option<usize>
    ensures { result ≡ u64_in (view value.now) }
{
    Some(value.as_u64()? as usize)
}

/// A number that is 0 or 1.
fn bit_of(value: &Value) -> Option<u8>
    ensures { result ≡ bit_in (view value.now) }
{
    match value.as_u64() {
        Some(n) if n < 2 => Some(n as u8),
        _ => None,
    }
}
