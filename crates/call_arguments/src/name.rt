//! The name that a text gives a datatype or an operation: the note of its number.

ghost use Rattle.std.specs.Prelude.{◌≡◌, ◌<◌, IfOk, IfSome, length, option_and_then, option_map, take};
ghost use Rattle.std.specs.Option.{option_copied};
ghost use Rattle.dumpi_text.specs.Time.{is_digit};
ghost use Rattle.dumpi_text.specs.Value.{value_of};
ghost use Rattle.call_arguments.specs.Names.{digit_behind, ends_number, is_byte, is_one, name_in, note_at, note_front, note_in, standard_name};
ghost use Rattle.call_arguments.specs.Places.{first_where};

use dumpi_text::{Value, ValueFault, parse_value};
use std::alloc::{AllocError, Global};

/// What a text says, where it is a value.
pub(crate) fn parsed(alloc: Global, text: &[u8]) -> Result<Option<Value>, AllocError>
    ensures { IfOk result (λ value. value ≡ value_of text.now) }
{
    match parse_value(alloc, text) {
        Ok(value) => Ok(Some(value)),
        Err(ValueFault::BadValue) => Ok(None),
        Err(ValueFault::Memory) => Err(AllocError),
    }
}

/// Whether a value is one number.
fn is_one(value: Option<Value>) -> bool
    ensures { result ≡ is_one value }
{
    match value {
        Some(Value::Number(_)) => true,
        Some(Value::Numbers(numbers)) => numbers.as_slice().len() == 1,
        Some(Value::Groups(_)) => false,
        None => false,
    }
}

/// Whether a byte is this one.
fn is_byte(wanted: u8, byte: u8) -> bool
    ensures { result ≡ is_byte wanted byte }
{
    byte == wanted
}

/// The first place of a byte.
fn place_of(wanted: u8, text: &[u8]) -> Option<usize>
    ensures place { result ≡ first_where (is_byte wanted) text.now }
    ensures within { IfSome result (λ at. at < length text.now) }
{
    for (at, byte) in text.iter().enumerate() {
        if is_byte(wanted, *byte) {
            return Some(at);
        }
    }
    None
}

/// Whether a byte is a digit.
fn is_digit(byte: u8) -> bool
    ensures { result ≡ is_digit byte }
{
    48 <= byte && byte <= 57
}

/// Whether a digit stands last, spaces aside, with one byte more.
fn digit_behind(digit: bool, byte: u8) -> bool
    ensures { result ≡ digit_behind digit byte }
{
    if byte == b' ' { digit } else { is_digit(byte) }
}

/// Whether the last byte, spaces at the end aside, is a digit.
fn ends_number(text: &[u8]) -> bool
    ensures { result ≡ ends_number text.now }
{
    let mut digit = false;
    for byte in text {
        digit = digit_behind(digit, *byte);
    }
    digit
}

/// What stands before the first `)`.
fn note_front(text: &[u8]) -> Option<&[u8]>
    ensures { option_copied result ≡ note_front text.now }
{
    match place_of(b')', text) {
        Some(end) => Some(&text[..end]),
        None => None,
    }
}

/// The note whose `(` stands at this place, where it stands right behind a number.
fn note_at(text: &[u8], at: usize) -> Option<&[u8]>
    requires { at < length text.now }
    ensures { option_copied result ≡ note_at text.now at }
{
    if ends_number(&text[..at]) {
        note_front(&text[at + 1..])
    } else {
        None
    }
}

/// The first note of a text, where it is that of a number.
fn note_in(text: &[u8]) -> Option<&[u8]>
    ensures { option_copied result ≡ note_in text.now }
{
    match place_of(b'(', text) {
        Some(at) => note_at(text, at),
        None => None,
    }
}

/// A name of the standard's.
fn standard_name(note: &[u8]) -> Option<&[u8]>
    ensures { option_copied result ≡ standard_name note.now }
{
    if note.starts_with(b"MPI_") {
        Some(note)
    } else {
        None
    }
}

/// The same of the first note of a text.
fn standard_note(text: &[u8]) -> Option<&[u8]>
    ensures { option_copied result ≡ option_and_then standard_name (note_in text.now) }
{
    match note_in(text) {
        Some(note) => standard_name(note),
        None => None,
    }
}

/// The name of a datatype or an operation: the value is one number, and its note begins with `MPI_`.
pub(crate) fn name_in(alloc: Global, text: &[u8]) -> Result<Option<Vec<u8>>, AllocError>
    ensures { IfOk result (λ name. option_map (λ n. n.items) name ≡ name_in text.now) }
{
    if !is_one(parsed(alloc, text)?) {
        return Ok(None);
    }
    match standard_note(text) {
        Some(name) => Ok(Some(Vec::from_slice(alloc, name)?)),
        None => Ok(None),
    }
}
