//! Values: a number, a list of numbers, or a list of groups.
//!
//! Each part is read from the front of a text, and what follows it is handed on. One number takes no memory.

ghost use Rattle.std.specs.Prelude.{◌≡◌, ◌≢◌, ◌∷◌, [], IfErr, IfOk, None, Option, Some};
ghost use Rattle.std.specs.Option.{option_copied};
ghost use Rattle.dumpi_text.specs.Value.{after_count, bracket_rest, brace_rest, core_front, field_begins, list_begins, list_front, list_rest, one_group, value_of};
ghost use Rattle.dumpi_text.specs.Bytes.{opening_brace};
ghost use Rattle.dumpi_text.specs.Items.{fields_front};
ghost use Rattle.dumpi_text.specs.declared.value.ValueFault.TheVariants.{BadValue};

use crate::group::{Group, Groups};
use crate::items::read_items;
use crate::number::{Num, Nums, read_bracketed, read_number, skip_note};
use crate::tokens::{read_digits, read_word, skip_byte, skip_spaces};
use std::alloc::{AllocError, AllocFailed, Global};
use thiserror::Error;

/// What a value says.
#[derive(Drop)]
pub enum Value {
    /// One number.
    Number(Num),
    /// A list of numbers.
    Numbers(Nums),
    /// A list of groups.
    Groups(Groups),
}

/// Why a text is no value.
#[derive(Clone, Copy, Debug, PartialEq, Eq, Error)]
pub enum ValueFault {
    /// The text has another form, or a number outside -2^63 to 2^63 - 1.
    #[error("X4 BadValue")]
    BadValue,
    /// There was no memory for the value.
    #[error("no memory is left")]
    Memory,
}

impl From<AllocError> for ValueFault {
    ghost use Rattle.std.specs.Prelude.{◌≡◌};
    ghost use Rattle.dumpi_text.specs.declared.value.ValueFault.TheVariants.{Memory};

    ghost from_gives = { λ _ e. e ≡ Memory };

    fn from(_error: AllocError) -> ValueFault {
        ValueFault::Memory
    }
}

impl<T: Drop> From<AllocFailed<T>> for ValueFault {
    ghost use Rattle.std.specs.Prelude.{◌≡◌};
    ghost use Rattle.dumpi_text.specs.declared.value.ValueFault.TheVariants.{Memory};

    ghost from_gives = { λ _ e. e ≡ Memory };

    fn from(_failed: AllocFailed<T>) -> ValueFault {
        ValueFault::Memory
    }
}

/// What follows the opening byte of a list.
fn read_list<'t>(alloc: Global, close: u8, text: &'t [u8]) -> Result<(Value, &'t [u8]), ValueFault>
    requires { close ≢ opening_brace }
    ensures ok { IfOk result (λ x. list_rest close text.now ≡ Some (x.0, x.1.now)) }
    ensures bad { IfErr result (λ fault. fault ≡ BadValue → list_rest close text.now ≡ None) }
{
    match text {
        [byte, rest @ ..] if *byte == close => {
            Ok((Value::Numbers(Nums::from_vec(Vec::new(alloc))), rest))
        }
        [b'{', ..] => {
            let (groups, rest) = read_items(alloc, close, text)?;
            Ok((Value::Groups(Groups::from_vec(groups)), rest))
        }
        [] => Err(ValueFault::BadValue),
        _ => {
            let (numbers, rest) = read_items(alloc, close, text)?;
            Ok((Value::Numbers(Nums::from_vec(numbers)), rest))
        }
    }
}

/// Whether a field begins; what follows its `=`.
#[tactic(auto, unfolding(crate::specs::Value::field_begins))]
fn begins_field(text: &[u8]) -> Option<&[u8]>
    ensures { option_copied result ≡ field_begins text.now }
{
    let (_, rest) = read_word(text)?;
    skip_byte(b'=', rest)
}

/// What follows the `{` of a group that stands alone: a list of one.
fn read_group<'t>(alloc: Global, text: &'t [u8]) -> Result<(Value, &'t [u8]), ValueFault>
    ensures ok { IfOk result (λ x. one_group (fields_front text.now) ≡ Some (x.0, x.1.now)) }
    ensures bad { IfErr result (λ fault. fault ≡ BadValue → one_group (fields_front text.now) ≡ None) }
{
    let (fields, rest) = read_items(alloc, b'}', text)?;
    let mut groups = Vec::new(alloc);
    groups.push(Group::from_vec(fields))?;
    Ok((Value::Groups(Groups::from_vec(groups)), rest))
}

/// What follows a `{`.
fn read_brace<'t>(alloc: Global, text: &'t [u8]) -> Result<(Value, &'t [u8]), ValueFault>
    ensures ok { IfOk result (λ x. brace_rest text.now ≡ Some (x.0, x.1.now)) }
    ensures bad { IfErr result (λ fault. fault ≡ BadValue → brace_rest text.now ≡ None) }
{
    match begins_field(text) {
        Some(_) => read_group(alloc, text),
        None => read_list(alloc, b'}', text),
    }
}

/// A list or a group.
fn read_listed<'t>(alloc: Global, text: &'t [u8]) -> Result<(Value, &'t [u8]), ValueFault>
    ensures ok { IfOk result (λ x. list_front text.now ≡ Some (x.0, x.1.now)) }
    ensures bad { IfErr result (λ fault. fault ≡ BadValue → list_front text.now ≡ None) }
{
    match text {
        [b'[', rest @ ..] => read_list(alloc, b']', skip_spaces(rest)),
        [b'{', rest @ ..] => read_brace(alloc, skip_spaces(rest)),
        _ => Err(ValueFault::BadValue),
    }
}

/// The text, where it begins with a list or a group.
fn begins_list(text: &[u8]) -> Option<&[u8]>
    ensures { option_copied result ≡ list_begins text.now }
{
    match text {
        [b'[', ..] => Some(text),
        [b'{', ..] => Some(text),
        _ => None,
    }
}

/// The list or the group after a count and its `]`.
#[tactic(auto, unfolding(crate::specs::Value::after_count))]
fn skip_count(text: &[u8]) -> Option<&[u8]>
    ensures { option_copied result ≡ after_count text.now }
{
    let (_, rest) = read_digits(text)?;
    let rest = skip_byte(b']', rest)?;
    begins_list(skip_spaces(rest))
}

/// What follows a `[`.
fn read_bracket<'t>(alloc: Global, text: &'t [u8]) -> Result<(Value, &'t [u8]), ValueFault>
    ensures ok { IfOk result (λ x. bracket_rest text.now ≡ Some (x.0, x.1.now)) }
    ensures bad { IfErr result (λ fault. fault ≡ BadValue → bracket_rest text.now ≡ None) }
{
    match skip_count(text) {
        Some(listed) => read_listed(alloc, listed),
        None => match read_bracketed(text) {
            Some((number, rest)) => Ok((Value::Number(number), rest)),
            None => read_list(alloc, b']', text),
        },
    }
}

/// A value without its note.
fn read_core<'t>(alloc: Global, text: &'t [u8]) -> Result<(Value, &'t [u8]), ValueFault>
    ensures ok { IfOk result (λ x. core_front text.now ≡ Some (x.0, x.1.now)) }
    ensures bad { IfErr result (λ fault. fault ≡ BadValue → core_front text.now ≡ None) }
{
    match text {
        [] => Err(ValueFault::BadValue),
        [b'[', rest @ ..] => read_bracket(alloc, skip_spaces(rest)),
        [b'{', rest @ ..] => read_brace(alloc, skip_spaces(rest)),
        _ => match read_number(text) {
            Some((number, rest)) => Ok((Value::Number(number), rest)),
            None => Err(ValueFault::BadValue),
        },
    }
}

/// What a value says. `BadValue` comes where the text has another form, `Memory` where memory is refused.
#[tactic(auto, unfolding(crate::specs::Value::value_of))]
pub fn parse_value(alloc: Global, text: &[u8]) -> Result<Value, ValueFault>
    ensures ok { IfOk result (λ value. value_of text.now ≡ Some value) }
    ensures bad { IfErr result (λ fault. fault ≡ BadValue → value_of text.now ≡ None) }
{
    let (value, rest) = read_core(alloc, skip_spaces(text))?;
    match skip_note(skip_spaces(rest)) {
        Some((_, rest)) if skip_spaces(rest).is_empty() => Ok(value),
        _ => Err(ValueFault::BadValue),
    }
}
