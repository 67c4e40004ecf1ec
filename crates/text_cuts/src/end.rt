//! How a text ends.

ghost use Rattle.std.specs.Prelude.{◌≡◌, Err, IfOk};
ghost use Rattle.dumpi_text.specs.Failing.{Fails};
ghost use Rattle.dumpi_calls.specs.Walks.{IsReadFault};
ghost use Rattle.text_cuts.specs.Ends.{EndsAtFault, EndsSo};

use dumpi_calls::{lacking_line, next_call};
use dumpi_text::{LineFault, RawCall, TextCause, TextFault, Texts};
use mpi_model::Read;
use std::alloc::{AllocError, Global};

/// How a text ends.
#[derive(Clone, Copy)]
pub enum TextEnd {
    /// It is read to its end.
    Whole {
        /// Where its last call begins, if that has not returned and lacks an entry parameter.
        lacking: Option<u64>,
        /// Its last line.
        line: u64,
    },
    /// One of its lines is refused.
    Refused {
        fault: LineFault,
        line: u64,
    },
}

/// Why it can't be said how a text ends.
#[derive(Clone, Copy)]
pub enum EndFault {
    Memory,
    /// Its reader failed.
    Failed,
}

impl From<AllocError> for EndFault {
    ghost use Rattle.std.specs.Prelude.{◌≡◌};
    ghost use Rattle.text_cuts.specs.declared.end.EndFault.TheVariants.{Memory};

    ghost from_gives = { λ _ e. e ≡ Memory };

    fn from(_error: AllocError) -> EndFault {
        EndFault::Memory
    }
}

/// How a text ends that has no next call for this fault.
fn end_at(fault: TextFault) -> Result<TextEnd, EndFault>
    ensures ok { IfOk result (EndsAtFault fault) }
    ensures err { result ≡ Err EndFault.Failed → IsReadFault fault }
{
    match fault {
        TextFault::Memory | TextFault::Ended => Err(EndFault::Memory),
        TextFault::At { line, cause } => match cause {
            TextCause::Read => Err(EndFault::Failed),
            TextCause::Line(fault) => Ok(TextEnd::Refused { fault, line }),
        },
    }
}

/// How a text ends. Where a line of its last call was dropped, those parameters count as entry parameters too without
/// which the call would be local. The text is read in one pass, and memory is in proportion to one call.
#[tactic(auto, using(crate::proofs::Ends::lacking_more, crate::proofs::Ends::ends_refused))]
pub fn end_of<R: Read>(alloc: Global, reader: R, dropped: bool) -> Result<TextEnd, EndFault>
    ensures ok { IfOk result (EndsSo dropped (R.left reader)) }
    ensures err { result ≡ Err EndFault.Failed → Fails R.failures }
{
    let mut texts = Texts::new(alloc, reader)?;
    let mut raw = RawCall::new(alloc);
    let mut lacking = None;
    'each: loop {
        match next_call(&mut texts, &mut raw) {
            Ok(true) => lacking = lacking_line(&raw, dropped),
            Ok(false) => {
                return Ok(TextEnd::Whole {
                    lacking,
                    line: texts.line(),
                });
            }
            Err(fault) => return end_at(fault),
        }
    }
}
