//! What one parameter says: a communicator, a group, a window, a file, a color, a number. What can't be read is
//! unknown.

ghost use Rattle.std.specs.Prelude.{◌≡◌, IfOk, option_and_then, option_map};
ghost use Rattle.std.specs.Option.{option_copied};
ghost use Rattle.comm_calls.specs.Numbers.{beside, color_by, color_in, color_number, comm_in, comm_of, flag_in, given_by, given_in, given_number, group_by, group_in, group_number, int_in, int_of, is_no_object, is_null, is_set, natural_in, natural_of, number_of, object_of, one_number, only};

use crate::parameter::has_note;
use comm_makings::{Color, Given, GroupName};
use dumpi_calls::Memory;
use dumpi_text::{Num, Value, ValueFault, parse_value};
use mpi_model::Object;
use std::alloc::Global;

/// The number, where there is exactly one.
fn only(numbers: &[Num]) -> Option<i64>
    ensures { result ≡ only numbers.now }
{
    match numbers {
        [number] => Some(number.value),
        _ => None,
    }
}

/// One number: a number, or a list of exactly one.
fn one_number(value: Value) -> Option<i64>
    ensures { result ≡ one_number value }
{
    match value {
        Value::Number(number) => Some(number.value),
        Value::Numbers(numbers) => only(numbers.as_slice()),
        Value::Groups(_) => None,
    }
}

/// The number that a text is.
pub(crate) fn number_of(alloc: Global, text: &[u8]) -> Result<Option<i64>, Memory>
    ensures { IfOk result (λ n. n ≡ number_of text.now) }
{
    match parse_value(alloc, text) {
        Ok(value) => Ok(one_number(value)),
        Err(ValueFault::BadValue) => Ok(None),
        Err(ValueFault::Memory) => Err(Memory),
    }
}

/// A value of a C `int`.
pub(crate) fn int_of(value: i64) -> Option<i32>
    ensures { result ≡ int_of value }
{
    if -0x8000_0000 <= value && value < 0x8000_0000 {
        Some(value as i32)
    } else {
        None
    }
}

/// A number from 0 to 2^31 - 1.
pub(crate) fn natural_of(value: i64) -> Option<u32>
    ensures { result ≡ natural_of value }
{
    if 0 <= value && value < 0x8000_0000 {
        Some(value as u32)
    } else {
        None
    }
}

/// Whether a flag is set.
fn is_set(value: i64) -> bool
    ensures { result ≡ is_set value }
{
    value != 0
}

/// The number, where it is one from 0 to 2^31 - 1.
fn natural_by(number: Option<i64>) -> Option<u32>
    ensures { result ≡ option_and_then natural_of number }
{
    natural_of(number?)
}

/// The number, where it is a C `int` (MPI 4.0, 2.6.3).
fn int_by(number: Option<i64>) -> Option<i32>
    ensures { result ≡ option_and_then int_of number }
{
    int_of(number?)
}

/// Whether the flag is set.
fn flag_by(number: Option<i64>) -> Option<bool>
    ensures { result ≡ option_map is_set number }
{
    Some(is_set(number?))
}

/// A rank or a number of a communicator, as a parameter's text says it; `None` where it says none.
pub(crate) fn natural_in(alloc: Global, text: Option<&[u8]>) -> Result<Option<u32>, Memory>
    ensures { IfOk result (λ n. n ≡ natural_in (option_copied text.entry)) }
{
    match text {
        Some(text) => Ok(natural_by(number_of(alloc, text)?)),
        None => Ok(None),
    }
}

/// A C `int`, as a parameter's text says it; `None` where it says none.
pub(crate) fn int_in(alloc: Global, text: Option<&[u8]>) -> Result<Option<i32>, Memory>
    ensures { IfOk result (λ n. n ≡ int_in (option_copied text.entry)) }
{
    match text {
        Some(text) => Ok(int_by(number_of(alloc, text)?)),
        None => Ok(None),
    }
}

/// A flag, as a parameter's text says it; `None` where it says none.
pub(crate) fn flag_in(alloc: Global, text: Option<&[u8]>) -> Result<Option<bool>, Memory>
    ensures { IfOk result (λ b. b ≡ flag_in (option_copied text.entry)) }
{
    match text {
        Some(text) => Ok(flag_by(number_of(alloc, text)?)),
        None => Ok(None),
    }
}

/// Whether a note says that no communicator is meant.
fn is_null(text: &[u8]) -> bool
    ensures { result ≡ is_null text.now }
{
    has_note(text, "MPI_COMM_NULL")
}

/// The communicator of a text, where that is not the null one.
fn comm_of(alloc: Global, text: &[u8]) -> Result<Option<u32>, Memory>
    ensures { IfOk result (λ n. n ≡ comm_of text.now) }
{
    if is_null(text) {
        return Ok(None);
    }
    Ok(natural_by(number_of(alloc, text)?))
}

/// The communicator that a call names, where that is not the null one.
pub(crate) fn comm_in(alloc: Global, text: Option<&[u8]>) -> Result<Option<u32>, Memory>
    ensures { IfOk result (λ n. n ≡ comm_in (option_copied text.entry)) }
{
    match text {
        Some(text) => comm_of(alloc, text),
        None => Ok(None),
    }
}

/// A communicator that is given, by a number that can be read.
fn given_number(number: Option<u32>) -> Given
    ensures { result ≡ given_number number }
{
    match number {
        Some(number) => Given::Number(number),
        None => Given::Unknown,
    }
}

/// A communicator that is given: none under the note of the null one, else its number.
fn given_by(noted: bool, number: Option<i64>) -> Given
    ensures { result ≡ given_by noted number }
{
    match number {
        Some(_) if noted => Given::Null,
        Some(number) => given_number(natural_of(number)),
        None => Given::Unknown,
    }
}

/// The communicator that a call gives.
pub(crate) fn given_in(alloc: Global, text: Option<&[u8]>) -> Result<Given, Memory>
    ensures { IfOk result (λ g. g ≡ given_in (option_copied text.entry)) }
{
    match text {
        Some(text) => Ok(given_by(is_null(text), number_of(alloc, text)?)),
        None => Ok(Given::Unknown),
    }
}

/// Whether a note says that no window, or no file, is meant.
fn is_no_object(object: Object, text: &[u8]) -> bool
    ensures { result ≡ is_no_object object text.now }
{
    match object {
        Object::Communicator => is_null(text),
        Object::Window => has_note(text, "MPI_WIN_NULL"),
        Object::File => has_note(text, "MPI_FILE_NULL"),
    }
}

/// The window or the file of a text, where that is not the null one.
pub(crate) fn object_of(alloc: Global, object: Object, text: &[u8]) -> Result<Option<u32>, Memory>
    ensures { IfOk result (λ n. n ≡ object_of object text.now) }
{
    if is_no_object(object, text) {
        return Ok(None);
    }
    Ok(natural_by(number_of(alloc, text)?))
}

/// A group, by a number that can be read.
fn group_number(number: Option<u32>) -> GroupName
    ensures { result ≡ group_number number }
{
    match number {
        Some(number) => GroupName::Number(number),
        None => GroupName::Unknown,
    }
}

/// A group: the empty one under its note, else its number.
fn group_by(noted: bool, number: Option<i64>) -> GroupName
    ensures { result ≡ group_by noted number }
{
    match number {
        Some(_) if noted => GroupName::Empty,
        Some(number) => group_number(natural_of(number)),
        None => GroupName::Unknown,
    }
}

/// The group that a call names or gives.
pub(crate) fn group_in(alloc: Global, text: Option<&[u8]>) -> Result<GroupName, Memory>
    ensures { IfOk result (λ g. g ≡ group_in (option_copied text.entry)) }
{
    match text {
        Some(text) => Ok(group_by(has_note(text, "MPI_GROUP_EMPTY"), number_of(alloc, text)?)),
        None => Ok(GroupName::Unknown),
    }
}

/// A color, by its number: none where that is negative.
fn color_number(value: i64) -> Option<Color>
    ensures { result ≡ color_number value }
{
    if value < 0 {
        return Some(Color::Undefined);
    }
    Some(Color::Number(natural_of(value)?))
}

/// A color: none under the note of MPI_UNDEFINED, else by its number.
fn color_by(noted: bool, number: Option<i64>) -> Option<Color>
    ensures { result ≡ color_by noted number }
{
    match number {
        Some(_) if noted => Some(Color::Undefined),
        Some(number) => color_number(number),
        None => None,
    }
}

/// The color of a split.
pub(crate) fn color_in(alloc: Global, text: Option<&[u8]>) -> Result<Option<Color>, Memory>
    ensures { IfOk result (λ c. c ≡ color_in (option_copied text.entry)) }
{
    match text {
        Some(text) => Ok(color_by(has_note(text, "MPI_UNDEFINED"), number_of(alloc, text)?)),
        None => Ok(None),
    }
}

/// The number beside a name.
pub(crate) fn beside(alloc: Global, name: &str, text: &[u8]) -> Result<Option<u32>, Memory>
    ensures { IfOk result (λ n. n ≡ beside name.now text.now) }
{
    if !has_note(text, name) {
        return Ok(None);
    }
    Ok(natural_by(number_of(alloc, text)?))
}
