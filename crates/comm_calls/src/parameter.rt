//! The text of a parameter, and the note of its number.

ghost use Rattle.std.specs.Prelude.{◌≡◌};
ghost use Rattle.std.specs.Option.{option_copied};
ghost use Rattle.std.specs.Str.{bytes_eq};
ghost use Rattle.dumpi_text.specs.Words.{split_at};
ghost use Rattle.comm_calls.specs.Parameters.{any_text, either_text, note_of, text_of};

use crate::function::is;
use dumpi_text::RawCall;

/// The text of the first parameter with this name; `None` if there is none.
pub(crate) fn text_of<'a>(raw: &'a RawCall, name: &str) -> Option<&'a [u8]>
    ensures { option_copied result ≡ text_of name.now raw.now }
{
    raw.param(name.as_bytes())
}

/// The text of the first of two parameters that the call has.
pub(crate) fn either_of<'a>(raw: &'a RawCall, name: &str, other: &str) -> Option<&'a [u8]>
    ensures { option_copied result ≡ either_text name.now other.now raw.now }
{
    match text_of(raw, name) {
        Some(text) => Some(text),
        None => text_of(raw, other),
    }
}

/// The text of the first of three parameters that the call has.
pub(crate) fn any_of<'a>(raw: &'a RawCall, name: &str, other: &str, last: &str) -> Option<&'a [u8]>
    ensures { option_copied result ≡ any_text name.now other.now last.now raw.now }
{
    match text_of(raw, name) {
        Some(text) => Some(text),
        None => either_of(raw, other, last),
    }
}

/// What stands before the first such byte.
fn before(stop: u8, text: &[u8]) -> &[u8]
    ensures { result.now ≡ (split_at stop text.now).0 }
{
    for (at, byte) in text.iter().enumerate() {
        if *byte == stop {
            return &text[..at];
        }
    }
    text
}

/// What stands behind the first such byte.
fn behind(stop: u8, text: &[u8]) -> Option<&[u8]>
    ensures { option_copied result ≡ (split_at stop text.now).1 }
{
    for (at, byte) in text.iter().enumerate() {
        if *byte == stop {
            return Some(&text[at + 1..]);
        }
    }
    None
}

/// The note of a number: what stands between its parentheses, and nothing where it has none.
fn note_of(text: &[u8]) -> &[u8]
    ensures { result.now ≡ note_of text.now }
{
    match behind(b'(', text) {
        Some(rest) => before(b')', rest),
        None => b"",
    }
}

/// Whether the note of a number is this one.
pub(crate) fn has_note(text: &[u8], note: &str) -> bool
    ensures { result ≡ bytes_eq (note_of text.now) note.now }
{
    is(note_of(text), note)
}
