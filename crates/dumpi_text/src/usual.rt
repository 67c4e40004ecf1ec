//! Lines of calls, read where they stand in front of a text, each in one pass and without a copy. A line in another
//! form is left to the functions that read any line.

ghost use Rattle.std.specs.Prelude.{◌≡◌, ◌++◌, ◌∷◌, IfSome, true};
ghost use Rattle.dumpi_text.specs.Bytes.{equals};
ghost use Rattle.dumpi_text.specs.Stamps.{Entering, Returning};
ghost use Rattle.dumpi_text.specs.Usual.{BeginsWith, EndsStamp, HasLine, Tells, is_word};

use crate::quick::quick_param;
use crate::source::{LONGEST_LINE, feed_in};
use crate::time::time_front;
use crate::tokens::strip_byte;
use crate::words::{is_bare, split_word, strip};
use mpi_model::Stamp;

/// The line in front of a text, where its line feed is there, and what follows that.
#[inline(always)]
fn line_front(text: &[u8]) -> Option<(&[u8], &[u8])>
    ensures { IfSome result (λ x. BeginsWith x.0.now text.now x.1.now) }
{
    let count = feed_in(text)?;
    if count > LONGEST_LINE {
        return None;
    }
    Some((&text[..count], &text[count + 1..]))
}

/// The longest name of a function whose stamp lines are read here.
const LONGEST_NAME: usize = 100;

/// The times of a stamp of thread 0, by what follows its `walltime `, and what follows its line.
fn stamp_front(text: &[u8]) -> Option<(Stamp, &[u8])>
    ensures { IfSome result (λ x. EndsStamp x.0 text.now x.1.now) }
{
    let (wall, rest) = time_front(text)?;
    let second = strip(b", cputime ", rest)?;
    let (cpu, rest) = time_front(second)?;
    let rest = strip(b" seconds in thread 0.\n", rest)?;
    let stamp = Stamp::new(wall, cpu)?;
    Some((stamp, rest))
}

/// When the entering line in front of a text enters a call of this name, and what follows the line.
#[inline(always)]
pub fn entering_front<'a>(name: &[u8], text: &'a [u8]) -> Option<(Stamp, &'a [u8])>
    requires { is_word name.now ≡ true }
    ensures { IfSome result (λ x. HasLine (Entering name.now x.0) text.now x.1.now) }
{
    if name.len() > LONGEST_NAME {
        return None;
    }
    let after = strip(name, text)?;
    let stamp = strip(b" entering at walltime ", after)?;
    let Some((at, rest)) = stamp_front(stamp) else {
        return None;
    };
    Some((at, rest))
}

/// When the returning line in front of a text returns from a call of this name, and what follows the line.
#[inline(always)]
pub fn returning_front<'a>(name: &[u8], text: &'a [u8]) -> Option<(Stamp, &'a [u8])>
    requires { is_word name.now ≡ true }
    ensures { IfSome result (λ x. HasLine (Returning name.now x.0) text.now x.1.now) }
{
    if name.len() > LONGEST_NAME {
        return None;
    }
    let after = strip(name, text)?;
    let stamp = strip(b" returning at walltime ", after)?;
    let Some((at, rest)) = stamp_front(stamp) else {
        return None;
    };
    Some((at, rest))
}

/// The value on the line in front of a text, where it is `kind name=value`, and what follows the line.
#[inline(always)]
#[tactic(auto, using(crate::proofs::UsualLines::parameter_line))]
pub fn parameter_front<'a>(kind: &[u8], name: &[u8], text: &'a [u8]) -> Option<(&'a [u8], &'a [u8])>
    requires kind { is_word kind.now ≡ true }
    requires name { is_word name.now ≡ true }
    ensures { IfSome result (λ x. Tells (record { name = name.now; value = x.0.now }) text.now x.1.now) }
{
    let (line, rest) = line_front(text)?;
    let after = strip(kind, line)?;
    let named = strip_byte(b' ', after)?;
    let beyond = strip(name, named)?;
    let value = strip_byte(b'=', beyond)?;
    if is_bare(value) {
        Some((value, rest))
    } else {
        None
    }
}

/// The word in front of a text, where one stands there.
pub fn name_front(text: &[u8]) -> Option<&[u8]>
    ensures { IfSome result (λ name. is_word name.now ≡ true) }
{
    let (name, _) = split_word(text);
    if name.is_empty() { None } else { Some(name) }
}

/// The name and the value of the parameter on the line in front of a text, where it is `type name=value`, what stands
/// there, both with the `=` between them, and what follows the line.
#[inline(always)]
#[tactic(auto, using(crate::proofs::UsualLines::any_told))]
pub fn pair_front(text: &[u8]) -> Option<(&[u8], &[u8], &[u8], &[u8])>
    ensures tells { IfSome result (λ x. Tells (record { name = x.0.now; value = x.1.now }) text.now x.3.now) }
    ensures pair { IfSome result (λ x. x.2.now ≡ x.0.now ++ equals ∷ x.1.now) }
{
    let (line, rest) = line_front(text)?;
    let (name, value, pair) = quick_param(line)?;
    if name.is_empty() {
        return None;
    }
    Some((name, value, pair, rest))
}
