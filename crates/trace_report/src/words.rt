//! The words and numbers of which lines are made.

ghost use Rattle.std.specs.Prelude.{◌≡◌, ◌++◌, ◌∷◌, [], decimal, drop, slice_get};
ghost use Rattle.trace_report.specs.Page.{Prints};
ghost use Rattle.trace_report.specs.Words.{begun_small, function_word, part_text, sends_word, small, small_first, state_word, where_so};

use crate::sink::Sink;
use itoa::Buffer;
use mpi_model::{CollectiveFunction, Sends};
use trace_ops::State;

/// A number by its decimal digits.
pub(crate) fn put_number<S: Sink>(out: &mut S, n: u64)
    ensures { Prints (S.page out.old) (S.page out.new) (decimal n) }
{
    let mut buffer = Buffer::new();
    out.put(buffer.format(n).as_bytes());
}

/// The word, where it applies.
pub(crate) fn put_where<S: Sink>(out: &mut S, applies: bool, word: &[u8])
    ensures { Prints (S.page out.old) (S.page out.new) (where_so applies word.now) }
{
    out.put(if applies { word } else { b"" });
}

/// The part of a Startall behind a lead: nothing for the first part, and for every other call.
pub(crate) fn put_part<S: Sink>(out: &mut S, lead: &[u8], part: u32)
    ensures { Prints (S.page out.old) (S.page out.new) (part_text lead.now part) }
{
    if part == 0 {
        out.put(b"");
    } else {
        put_further_part(out, lead, part);
    }
}

/// A part of a Startall behind its first.
fn put_further_part<S: Sink>(out: &mut S, lead: &[u8], part: u32)
    ensures { Prints (S.page out.old) (S.page out.new) (lead.now ++ decimal part) }
{
    out.put(lead);
    put_number(out, part as u64);
}

/// How sends of standard mode complete: `wait` or `buffer`.
pub(crate) fn sends_word(sends: Sends) -> &'static [u8]
    ensures { result.now ≡ sends_word sends }
{
    match sends {
        Sends::Wait => b"wait",
        Sends::Buffer => b"buffer",
    }
}

/// How a rank stands: `free`, `waiting` or `ended`.
pub(crate) fn state_word(state: State) -> &'static [u8]
    ensures { result.now ≡ state_word state }
{
    match state {
        State::Free => b"free",
        State::Waiting => b"waiting",
        State::Ended => b"ended",
    }
}

/// A letter in its small form.
fn small(letter: u8) -> u8
    ensures { result ≡ small letter }
{
    if (65..=90).contains(&letter) {
        letter + 32
    } else {
        letter
    }
}

/// The first letter of a name.
fn first_letter(name: &[u8]) -> Option<u8>
    ensures { result ≡ slice_get name.now 0 }
{
    name.get(0).copied()
}

/// The letters behind the first.
fn behind_first(name: &[u8]) -> &[u8]
    ensures { result.now ≡ drop 1 name.now }
{
    match name.get(1..) {
        Some(letters) => letters,
        None => b"",
    }
}

/// A letter.
fn put_letter<S: Sink>(out: &mut S, letter: u8)
    ensures { Prints (S.page out.old) (S.page out.new) (letter ∷ []) }
{
    out.put(&[letter]);
}

/// A first letter in its small form, where there is one.
fn put_first<S: Sink>(out: &mut S, letter: Option<u8>)
    ensures { Prints (S.page out.old) (S.page out.new) (small_first letter) }
{
    match letter {
        Some(letter) => put_letter(out, small(letter)),
        None => out.put(b""),
    }
}

/// A name with its first letter in its small form.
fn put_small<S: Sink>(out: &mut S, name: &[u8])
    ensures { Prints (S.page out.old) (S.page out.new) (begun_small name.now) }
{
    put_first(out, first_letter(name));
    out.put(behind_first(name));
}

/// The name of a function without `MPI_`, in small letters, of which only the first is none in the name: `bcast`, or
/// `ibcast`.
pub(crate) fn put_function<S: Sink>(out: &mut S, function: CollectiveFunction)
    ensures { Prints (S.page out.old) (S.page out.new) (function_word function) }
{
    put_small(out, function.short_name());
}
