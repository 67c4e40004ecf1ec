//! Numbers of values: a sign, digits, and an optional note.

ghost use Rattle.std.specs.Prelude.{◌≡◌, ◌≤◌, ℕ, ◌<◌, Option, Some, None, true, pos, nat_lt, if◌then◌else◌};
ghost use Rattle.std.specs.List.{list_all, list_any};
ghost use Rattle.std.specs.Option.{option_map};
ghost use Rattle.dumpi_text.specs.Number.{sign_parts, integer_of, integer_front, name_of, is_opening, note_in, note_front, number_front, bracketed_front, number_item};
ghost use Rattle.dumpi_text.specs.Time.{is_digit, number_of};

use crate::content::same;
use crate::tokens::{skip_byte, skip_spaces, split_digits};
use crate::words::split_first;
use std::marker::Model;

/// What the note of a number says.
#[derive(Clone, Copy, Debug, PartialEq, Eq)]
pub enum NumName {
    /// `MPI_ANY_SOURCE`.
    AnySource,
    /// `MPI_ANY_TAG`.
    AnyTag,
    /// `MPI_PROC_NULL`.
    ProcNull,
    /// `MPI_ROOT`.
    Root,
    /// `MPI_COMM_WORLD`.
    CommWorld,
    /// `MPI_REQUEST_NULL`.
    RequestNull,
    /// Another note, or none.
    Other,
}

/// A number, and the name that its note gives it.
#[derive(Clone, Copy, Debug, PartialEq, Eq)]
pub struct Num {
    pub value: i64,
    pub name: NumName,
}

/// The numbers of a list, in its order.
#[derive(Drop)]
pub struct Nums {
    numbers: Vec<Num>,
}

impl Model for Nums {
    ghost use Rattle.std.specs.Prelude.{List};
    ghost use Rattle.dumpi_text.specs.declared.number.Num.{Num};

    ghost Value = { List Num };

    ghost view = { λ n. n.numbers.items };
}

impl Nums {
    /// The list of these numbers. It takes no memory.
    pub fn from_vec(numbers: Vec<Num>) -> Self
        ensures { result ≡ numbers.items }
    {
        Nums { numbers }
    }

    /// The numbers, in the order of the text.
    pub fn as_slice(&self) -> &[Num]
        ensures { result.now ≡ self.now }
    {
        &self.numbers
    }
}

/// The greatest number that a sign and digits may spell, 2^63.
const GREATEST: u64 = 9_223_372_036_854_775_808;

/// Its tenth.
const TENTH: u64 = 922_337_203_685_477_580;

/// Whether a `-` stands in front, and what follows it.
fn split_sign(text: &[u8]) -> (bool, &[u8])
    ensures sign { result.0 ≡ (sign_parts text.now).0 }
    ensures rest { result.1.now ≡ (sign_parts text.now).1 }
{
    match text {
        [b'-', rest @ ..] => (true, rest),
        _ => (false, text),
    }
}

/// The number that digits spell, where it is at most 2^63.
#[tactic(auto, using(crate::proofs::Numbers::number_after_grows, crate::proofs::Numbers::digit_is, crate::proofs::Numbers::number_after_step))]
fn magnitude_of(digits: &[u8]) -> Option<u64>
    requires { list_all is_digit digits.now ≡ true }
    ensures { result ≡ (if nat_lt 9223372036854775808 (number_of digits.now) then None else Some (number_of digits.now)) }
{
    let mut number: u64 = 0;
    for digit in digits {
        if number > TENTH {
            return None;
        }
        number = 10 * number + u64::from(*digit - b'0');
        if number > GREATEST {
            return None;
        }
    }
    Some(number)
}

/// The integer of a sign and digits, where an `i64` holds it.
fn integer_from(negative: bool, digits: &[u8]) -> Option<i64>
    requires { list_all is_digit digits.now ≡ true }
    ensures { result ≡ integer_of negative digits.now }
{
    if digits.is_empty() {
        return None;
    }
    let magnitude = magnitude_of(digits)?;
    if negative {
        if magnitude == 0 {
            Some(0)
        } else {
            Some(-((magnitude - 1) as i64) - 1)
        }
    } else if magnitude < GREATEST {
        Some(magnitude as i64)
    } else {
        None
    }
}

/// The integer in front, and what follows its digits.
#[tactic(auto, unfolding(crate::specs::Number::integer_front))]
fn read_integer(text: &[u8]) -> Option<(i64, &[u8])>
    ensures { option_map (λ x. (x.0, x.1.now)) result ≡ integer_front text.now }
{
    let (negative, text) = split_sign(text);
    let (digits, rest) = split_digits(text);
    let value = integer_from(negative, digits)?;
    Some((value, rest))
}

/// The name that a note gives its number.
#[tactic(auto, unfolding(crate::specs::Number::name_of))]
fn name_by(note: &[u8]) -> NumName
    ensures { result ≡ name_of note.now }
{
    if same(note, b"MPI_ANY_SOURCE") {
        NumName::AnySource
    } else if same(note, b"MPI_ANY_TAG") {
        NumName::AnyTag
    } else if same(note, b"MPI_PROC_NULL") {
        NumName::ProcNull
    } else if same(note, b"MPI_ROOT") {
        NumName::Root
    } else if same(note, b"MPI_COMM_WORLD") {
        NumName::CommWorld
    } else if same(note, b"MPI_REQUEST_NULL") {
        NumName::RequestNull
    } else {
        NumName::Other
    }
}

/// Whether another note opens inside this one.
fn has_opening(note: &[u8]) -> bool
    ensures { result ≡ list_any is_opening note.now }
{
    note.iter().any(|byte| *byte == b'(')
}

/// A note, by what stands before its first `)`, and what follows that.
fn read_note<'t>(note: &[u8], rest: &'t [u8]) -> Option<(NumName, &'t [u8])>
    ensures { option_map (λ x. (x.0, x.1.now)) result ≡ note_in note.now (Some rest.now) }
{
    if has_opening(note) {
        return None;
    }
    Some((name_by(note), rest))
}

/// The note in front, if one stands there, and what follows it.
pub fn skip_note(text: &[u8]) -> Option<(NumName, &[u8])>
    ensures { option_map (λ x. (x.0, x.1.now)) result ≡ note_front text.now }
{
    match text {
        [b'(', rest @ ..] => match split_first(b')', rest) {
            (_, None) => None,
            (note, Some(rest)) => read_note(note, rest),
        },
        _ => Some((NumName::Other, text)),
    }
}

/// The number in front with its note, and what follows them.
#[tactic(auto, unfolding(crate::specs::Number::number_front))]
pub fn read_number(text: &[u8]) -> Option<(Num, &[u8])>
    ensures { option_map (λ x. (x.0, x.1.now)) result ≡ number_front text.now }
{
    let (value, rest) = read_integer(text)?;
    let (name, rest) = skip_note(skip_spaces(rest))?;
    Some((Num { value, name }, rest))
}

/// The number in front with the `]` that closes its bracket, and what follows that.
#[tactic(auto, unfolding(crate::specs::Number::bracketed_front))]
pub fn read_bracketed(text: &[u8]) -> Option<(Num, &[u8])>
    ensures { option_map (λ x. (x.0, x.1.now)) result ≡ bracketed_front text.now }
{
    let (number, rest) = read_number(skip_spaces(text))?;
    let rest = skip_byte(b']', rest)?;
    Some((number, rest))
}

/// A number of a list: alone, or in brackets.
pub fn read_number_item(text: &[u8]) -> Option<(Num, &[u8])>
    ensures { option_map (λ x. (x.0, x.1.now)) result ≡ number_item text.now }
{
    match text {
        [] => None,
        [b'[', rest @ ..] => read_bracketed(rest),
        _ => read_number(text),
    }
}
