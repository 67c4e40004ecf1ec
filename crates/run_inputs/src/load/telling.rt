//! What standard error shows of the texts that a verb runs over.

ghost use Rattle.std.specs.Prelude.{◌≡◌, IfOk};
ghost use Rattle.run_inputs.specs.Telling.{summary_of, told_of};

use crate::load::prepared::Prepared;
use call_words::Text;
use command_line::Verbosity;
use std::alloc::{AllocError, Global};
use std::io::Eprint;
use text_layouts::put_summary;

/// What was found in the texts, on one line.
fn summary_of(alloc: Global, prepared: &Prepared) -> Result<Vec<u8>, AllocError>
    ensures { IfOk result (λ text. text.items ≡ summary_of prepared.now) }
{
    let mut out = Text::new(alloc);
    let manifest = &prepared.made.input.manifest;
    let texts = manifest.pieces().len() as u64;
    let derived = &prepared.made.derived;
    put_summary(&mut out, texts, prepared.calls, &prepared.missing, derived);
    out.into_bytes()
}

/// A copy of what was found in the texts.
fn notes_of(alloc: Global, prepared: &Prepared) -> Result<Vec<u8>, AllocError>
    ensures { IfOk result (λ text. text.items ≡ prepared.now.notes.items) }
{
    let mut notes = Vec::new(alloc);
    notes.extend_from_slice(&prepared.notes)?;
    Ok(notes)
}

/// What is told of the texts: nothing, or what was found on one line, or all of it.
fn told_of(alloc: Global, verbosity: Verbosity, prepared: &Prepared) -> Result<Vec<u8>, AllocError>
    ensures { IfOk result (λ text. text.items ≡ told_of verbosity prepared.now) }
{
    match verbosity {
        Verbosity::Quiet => Ok(Vec::new(alloc)),
        Verbosity::Brief => summary_of(alloc, prepared),
        Verbosity::Verbose => notes_of(alloc, prepared),
    }
}

/// Shows on standard error what is told of the texts. That it can't be shown changes nothing.
pub fn tell<R: Eprint>(
    rt: &R,
    alloc: Global,
    verbosity: Verbosity,
    prepared: &Prepared,
) -> Result<(), AllocError> {
    let told = told_of(alloc, verbosity, prepared)?;
    if let Ok(text) = std::str::from_utf8(&told) {
        let _ = eprint!(rt; "{text}");
    }
    Ok(())
}
