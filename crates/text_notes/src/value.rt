//! A second look at a text: at the value of one parameter of one of its calls.

ghost use Rattle.std.specs.Prelude.{◌≡◌, ◌<◌, ◌≤◌, Err, IfOk, Ok, true};
ghost use Rattle.std.specs.Option.{option_copied, option_map};
ghost use Rattle.dumpi_text.specs.Failing.{Fails};
ghost use Rattle.dumpi_text.specs.Shown.{put_in};
ghost use Rattle.dumpi_text.specs.declared.step.TheConstants.{MOST_LINES};
ghost use Rattle.text_notes.specs.Values.{GoesOn, IsValueAt, OfRead};

use dumpi_calls::Memory;
use dumpi_text::{RawCall, TextCause, TextFault, Texts};
use mpi_model::Read;
use std::alloc::{AllocError, Global};

/// Why a second look at a text failed.
#[derive(Clone, Copy)]
pub enum LookFault {
    /// There was no memory for one of its calls.
    Memory,
    /// Its reader failed.
    Read,
    /// One of its lines or calls is refused, so it has changed since it was first read.
    Refused,
}

impl From<Memory> for LookFault {
    ghost use Rattle.std.specs.Prelude.{◌≡◌};
    ghost use Rattle.text_notes.specs.declared.value.LookFault.TheVariants.{Memory as RefusedMemory};

    ghost from_gives = { λ _ e. e ≡ RefusedMemory };

    fn from(_refused: Memory) -> LookFault {
        LookFault::Memory
    }
}

impl From<AllocError> for LookFault {
    ghost use Rattle.std.specs.Prelude.{◌≡◌};
    ghost use Rattle.text_notes.specs.declared.value.LookFault.TheVariants.{Memory};

    ghost from_gives = { λ _ e. e ≡ Memory };

    fn from(_error: AllocError) -> LookFault {
        LookFault::Memory
    }
}

/// The next call of the text, put in the place of the one before: whether there is one. Behind a line that is refused
/// there is none.
pub(crate) fn next_call<R: Read>(texts: &mut Texts<R>, raw: &mut RawCall) -> Result<bool, LookFault>
    ensures goes_on { OfRead texts.old (λ text calls. IfOk result (λ found. GoesOn text calls (put_in found raw.new) texts.new)) }
    ensures failed { OfRead texts.old (λ text calls. result ≡ Err LookFault.Read → Fails R.failures) }
    ensures progress { result ≡ Ok true → texts.old.at.line < texts.new.at.line }
    ensures lines { texts.new.at.line ≤ MOST_LINES }
{
    match dumpi_calls::next_call(texts, raw) {
        Ok(found) => Ok(found),
        Err(fault) => match fault {
            TextFault::Memory | TextFault::Ended => Err(LookFault::Memory),
            TextFault::At { cause, .. } => match cause {
                TextCause::Read => Err(LookFault::Read),
                TextCause::Line(_) => Ok(false),
            },
        },
    }
}

/// A copy of a value, where there is one.
pub(crate) fn copied(alloc: Global, value: Option<&[u8]>) -> Result<Option<Vec<u8>>, AllocError>
    ensures { IfOk result (λ copy. option_map (λ v. v.items) copy ≡ option_copied value.entry) }
{
    match value {
        Some(value) => Ok(Some(Vec::from_slice(alloc, value)?)),
        None => Ok(None),
    }
}

/// The value that the text has for a parameter of this name in its call that begins at this line, where it has one: the
/// first line of the name counts. The text is read up to that call, and memory is in proportion to one call.
pub fn value_at<R: Read>(
    alloc: Global,
    reader: R,
    line: u64,
    name: &[u8],
) -> Result<Option<Vec<u8>>, LookFault>
    ensures ok { IfOk result (λ value. IsValueAt (R.left reader) line name.now (option_map (λ v. v.items) value)) }
    ensures failed { result ≡ Err LookFault.Read → Fails R.failures }
{
    let mut texts = Texts::new(alloc, reader)?;
    let mut raw = RawCall::new(alloc);
    'each: loop {
        if !next_call(&mut texts, &mut raw)? {
            return Ok(None);
        }
        if raw.line() == line {
            let value = copied(alloc, raw.param(name))?;
            return Ok(value);
        }
    }
}
