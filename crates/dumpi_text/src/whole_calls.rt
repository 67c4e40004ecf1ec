//! Calls that lie whole in the buffer as dumpi2ascii writes them, read where they stand: no line of them is looked for
//! before it is read. A call in another form is left to the functions that read line by line.

ghost use Rattle.std.specs.Prelude.{◌≡◌, ◌<◌, ◌≤◌, ◌+◌, ◌↔◌, IfOk, IfSome, IsTrue, length, true};
ghost use Rattle.dumpi_text.specs.Usual.{is_word};
ghost use Rattle.dumpi_text.specs.WholeKept.{EndsKept, PutsOne, StandsKept};
ghost use Rattle.dumpi_text.specs.declared.step.TheConstants.{MOST_LINES};
ghost use Rattle.dumpi_text.specs.declared.whole_calls.TheConstants.{MOST_MISSES, MOST_WHOLE_LINES};

use crate::keeping::Keeping;
use crate::raw_call::RawCall;
use crate::step::Position;
use crate::usual::{entering_front, name_front, pair_front, returning_front};
use mpi_model::Stamp;
use std::alloc::AllocError;

/// The most lines of a call that is read so.
pub const MOST_WHOLE_LINES: u64 = 34;

/// How many calls in a row may have another form before no call is tried any more.
const MOST_MISSES: u32 = 64;

/// How many calls in a row were tried and had another form. It changes how calls are read, and not what they say.
#[derive(Clone, Copy)]
pub struct Tries {
    misses: u32,
}

impl Tries {
    /// No call was tried.
    pub fn new() -> Tries
        ensures { result.misses ≡ 0 }
    {
        Tries { misses: 0 }
    }

    /// Whether the next call is tried.
    #[inline(always)]
    pub fn is_left(&self) -> bool
        ensures { IsTrue result ↔ self.now.misses < MOST_MISSES }
    {
        self.misses < MOST_MISSES
    }

    /// A call was read whole.
    #[inline(always)]
    pub fn begin(&mut self)
        ensures { self.new.misses ≡ 0 }
    {
        self.misses = 0;
    }

    /// A call had another form, or didn't lie whole in the buffer.
    #[inline(always)]
    pub fn miss(&mut self)
        ensures { self.old.misses < MOST_MISSES → self.new.misses ≡ self.old.misses + 1 }
    {
        self.misses = self.misses.saturating_add(1);
    }
}

/// Puts the parameter on the line in front of a text into a call, where it is kept, and returns what follows the line;
/// `None` if the line has another form. On `AllocError`, when memory is refused, the call's contents are unspecified.
#[inline(always)]
#[tactic(auto, using(crate::proofs::WholeKept::put_kept, crate::proofs::WholeKept::put_passed))]
fn put_front<'a, K: Keeping>(
    text: &'a [u8],
    call: &mut RawCall,
) -> Result<Option<&'a [u8]>, AllocError>
    ensures { IfOk result (λ found. IfSome found (λ rest. PutsOne K.choice call.old call.new text.now rest.now)) }
{
    let Some((name, value, pair, rest)) = pair_front(text) else {
        return Ok(None);
    };
    if K::keeps(call, name) {
        call.push_pair(name, value, pair)?;
        return Ok(Some(rest));
    }
    Ok(Some(rest))
}

/// Puts the parameters in front of a text into a call of this name, where they are kept, up to the line that returns
/// from it: how many they are, when it returned, and what follows that line. `None` if a line has another form. On
/// `AllocError`, when memory is refused, the call's contents are unspecified.
#[tactic(auto, using(crate::proofs::WholeKept::puts_none, crate::proofs::WholeKept::puts_more, crate::proofs::WholeKept::ends_there))]
fn put_lines<'a, K: Keeping>(
    name: &[u8],
    text: &'a [u8],
    call: &mut RawCall,
) -> Result<Option<(u64, Stamp, &'a [u8])>, AllocError>
    requires { is_word name.now ≡ true }
    ensures ends { IfOk result (λ found. IfSome found (λ x. EndsKept K.choice call.old call.new name.now x.0 x.1 text.now x.2.now)) }
    ensures few { IfOk result (λ found. IfSome found (λ x. x.0 + 2 ≤ MOST_WHOLE_LINES)) }
{
    let mut left = text;
    for count in 0..MOST_WHOLE_LINES - 1 {
        if let Some((exit, rest)) = returning_front(name, left) {
            return Ok(Some((count, exit, rest)));
        }
        match put_front::<K>(left, call)? {
            None => return Ok(None),
            Some(rest) => left = rest,
        }
    }
    Ok(None)
}

/// Reads the call in front of a text, of which a place is reached, with those of its parameters that are kept: how many
/// bytes and lines it has. `None` if it isn't whole or has another form. On `AllocError`, when memory is refused, and
/// with `None`, the call's contents are unspecified.
#[tactic(auto, using(crate::proofs::WholeKept::stands_kept))]
pub fn whole_front<K: Keeping>(
    text: &[u8],
    at: &Position,
    call: &mut RawCall,
) -> Result<Option<(usize, u64)>, AllocError>
    requires { at.now.line + MOST_WHOLE_LINES ≤ MOST_LINES }
    ensures stands { IfOk result (λ found. IfSome found (λ x. StandsKept K.choice at.now text.now x.0 x.1 call.new)) }
    ensures within { IfOk result (λ found. IfSome found (λ x. x.0 ≤ length text.now)) }
    ensures few { IfOk result (λ found. IfSome found (λ x. x.1 ≤ MOST_WHOLE_LINES)) }
    ensures some { IfOk result (λ found. IfSome found (λ x. 2 ≤ x.1)) }
{
    let Some(name) = name_front(text) else {
        return Ok(None);
    };
    let Some((enter, inside)) = entering_front(name, text) else {
        return Ok(None);
    };
    call.open(name, enter, at.line + 1)?;
    match put_lines::<K>(name, inside, call) {
        Err(error) => Err(error),
        Ok(None) => Ok(None),
        Ok(Some((count, exit, rest))) => {
            let lines = count + 2;
            call.close(Some(exit), at.line + lines);
            Ok(Some((text.len().saturating_sub(rest.len()), lines)))
        }
    }
}
