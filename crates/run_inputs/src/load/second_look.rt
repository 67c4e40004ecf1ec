//! A second look at a text that was read: at its first bytes, or at one parameter of a call.

ghost use Rattle.std.specs.Prelude.{◌≡◌, Contains, IfSome, None};
ghost use Rattle.command_line.specs.Program.{texts_of};
ghost use Rattle.run_inputs.specs.Files.{StandsAtFirst};
ghost use Rattle.run_inputs.specs.Starts.{HasValueSo};
ghost use Rattle.text_notes.specs.Starts.{IsStartOf};

use crate::load::opener::Opener;
use std::alloc::Global;
use text_notes::{Start, start_of, value_at};

/// A file is opened a second time only where it has a length: what came through a pipe is gone.
pub fn reopened<O: Opener>(path: &str, files: &O) -> Option<O::R>
    ensures told { IfSome result (λ reader. StandsAtFirst (O.file files.now path.now) (O.R.left reader)) }
{
    if files.length(path).is_none() {
        return None;
    }
    match files.open(path) {
        Ok(reader) => Some(reader),
        Err(_) => None,
    }
}

/// The first of the texts that is a pipe or a device, which can't be read twice.
pub fn piped_of<'a, O: Opener>(texts: &[&'a str], files: &O) -> Option<&'a str>
    ensures among { IfSome result (λ path. Contains (texts_of texts.now) path.now) }
    ensures untold { IfSome result (λ path. O.file files.now path.now ≡ None) }
{
    for path in texts {
        if files.length(path).is_none() && files.reason(path).is_none() {
            return Some(*path);
        }
    }
    None
}

/// What a text is taken for by its first bytes, where they can be looked at.
#[tactic(auto, using(crate::proofs::Notes::start_told))]
pub fn start_at<O: Opener>(path: &str, files: &O) -> Option<Start>
    ensures told { IfSome result (IsStartOf (O.file files.now path.now)) }
{
    let reader = reopened(path, files)?;
    match start_of(reader) {
        Ok(start) => Some(start),
        Err(_) => None,
    }
}

/// The value that a text has for a parameter of this name in its call that begins at this line, where it can be looked
/// at.
#[tactic(auto, using(crate::proofs::Notes::value_told))]
pub(crate) fn value_again<O: Opener>(
    alloc: Global,
    path: &str,
    line: u64,
    name: &str,
    files: &O,
) -> Option<Vec<u8>>
    ensures told { HasValueSo (O.file files.now path.now) line name.now result }
{
    let reader = reopened(path, files)?;
    match value_at(alloc, reader, line, name.as_bytes()) {
        Ok(value) => value,
        Err(_) => None,
    }
}
