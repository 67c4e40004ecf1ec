//! Lines as dumpi2ascii writes them, each read in one pass. A line in another form is left to the functions that read
//! any line.

ghost use Rattle.std.specs.Prelude.{◌≡◌, ◌++◌, ◌∷◌, IfSome, Some, false, true};
ghost use Rattle.std.specs.List.{list_all};
ghost use Rattle.dumpi_text.specs.Bytes.{carriage_return, equals};
ghost use Rattle.dumpi_text.specs.Parameter.{parameter_of};
ghost use Rattle.dumpi_text.specs.Stamps.{Other, kind_of};
ghost use Rattle.dumpi_text.specs.Words.{is_word_byte, trimmed, without_last, word_parts};

use crate::tokens::strip_byte;
use crate::words::{is_bare, split_word, strip};

/// The word in front of a text and what follows it, where it is this word and this byte follows.
#[inline(always)]
#[tactic(auto, using(crate::proofs::QuickParam::known_there, crate::proofs::QuickParam::known_parts))]
fn known_word<'a>(word: &[u8], stop: u8, text: &'a [u8]) -> Option<(&'a [u8], &'a [u8])>
    requires word { list_all is_word_byte word.now ≡ true }
    requires stop { is_word_byte stop ≡ false }
    ensures { IfSome result (λ x. word_parts text.now ≡ (x.0.now, x.1.now)) }
{
    let rest = strip(word, text)?;
    strip_byte(stop, rest)?;
    Some((&text[..word.len()], rest))
}

/// The type in front of a parameter and what follows it, where it is one of those that most parameters have.
#[inline(always)]
fn usual_type(line: &[u8]) -> Option<(&[u8], &[u8])>
    ensures { IfSome result (λ x. word_parts line.now ≡ (x.0.now, x.1.now)) }
{
    match line {
        [b'i', ..] => known_word(b"int", b' ', line),
        [b'M', b'P', b'I', b'_', b'C', ..] => known_word(b"MPI_Comm", b' ', line),
        [b'M', b'P', b'I', b'_', b'D', ..] => known_word(b"MPI_Datatype", b' ', line),
        [b'M', b'P', b'I', b'_', b'R', ..] => known_word(b"MPI_Request", b' ', line),
        _ => None,
    }
}

/// The name of a parameter and what follows it, where it is one of those that most calls have.
#[inline(always)]
fn usual_name(named: &[u8]) -> Option<(&[u8], &[u8])>
    ensures { IfSome result (λ x. word_parts named.now ≡ (x.0.now, x.1.now)) }
{
    match named {
        [b'c', b'o', b'u', ..] => known_word(b"count", b'=', named),
        [b'c', ..] => known_word(b"comm", b'=', named),
        [b'd', b'a', ..] => known_word(b"datatype", b'=', named),
        [b'd', ..] => known_word(b"dest", b'=', named),
        [b'r', ..] => known_word(b"request", b'=', named),
        [b's', ..] => known_word(b"source", b'=', named),
        [b't', ..] => known_word(b"tag", b'=', named),
        _ => None,
    }
}

/// The type in front of a parameter and what follows it.
#[inline(always)]
fn split_type(line: &[u8]) -> (&[u8], &[u8])
    ensures { word_parts line.now ≡ (result.0.now, result.1.now) }
{
    match usual_type(line) {
        Some(parts) => parts,
        None => split_word(line),
    }
}

/// The name of a parameter and what follows it.
#[inline(always)]
fn split_name(named: &[u8]) -> (&[u8], &[u8])
    ensures { word_parts named.now ≡ (result.0.now, result.1.now) }
{
    match usual_name(named) {
        Some(parts) => parts,
        None => split_word(named),
    }
}

/// The name and the value of the parameter on a line `type name=value`, where type and name are words and nothing is to
/// be cut off at the ends of the value, and what stands there: both with the `=` between them.
pub fn quick_param(line: &[u8]) -> Option<(&[u8], &[u8], &[u8])>
    ensures kind { IfSome result (λ x. kind_of (trimmed (without_last carriage_return line.now)) ≡ Other line.now) }
    ensures param { IfSome result (λ x. parameter_of line.now ≡ Some (x.0.now, x.1.now)) }
    ensures pair { IfSome result (λ x. x.2.now ≡ x.0.now ++ equals ∷ x.1.now) }
{
    let (front, rest) = split_type(line);
    let named = strip_byte(b' ', rest)?;
    let (name, rest) = split_name(named);
    let value = strip_byte(b'=', rest)?;
    if front.is_empty() || name.is_empty() {
        return None;
    }
    if is_bare(value) {
        Some((name, value, named))
    } else {
        None
    }
}
