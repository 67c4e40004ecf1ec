//! What is found out about a file after it was refused.

ghost use Rattle.std.specs.Prelude.{◌≡◌, None};
ghost use Rattle.run_inputs.specs.Advice.{IsFound};
ghost use Rattle.run_inputs.specs.Starts.{BeginsSo, HasValueSo};
ghost use Rattle.dumpi_calls.specs.Readings.{name_of};

use crate::faults::fault::RunFault;
use crate::load::opener::Opener;
use crate::load::reason::Reason;
use crate::load::second_look::{start_at, value_again};
use dumpi_calls::Parameter;
use dumpi_text::TextCause;
use run_files::LONGEST_FILE;
use std::alloc::Global;
use text_notes::Start;

/// What a look at a refused file tells.
#[derive(Drop)]
pub struct Found {
    /// Why the file can't be read, where the system says it.
    pub reason: Option<Reason>,
    /// What the file is taken for by its first bytes, where it was looked at.
    pub start: Option<Start>,
    /// What the text has for the parameter that is wrong, where it was looked at.
    pub value: Option<Vec<u8>>,
}

/// The result when no file was looked at.
pub const NOTHING: Found = Found {
    reason: None,
    start: None,
    value: None,
};

/// Why a file can't be read that may have so many bytes as a layout.
fn reason_at<O: Opener>(path: &str, files: &O) -> Option<Reason> {
    if let Some(reason) = files.reason(path) {
        return Some(reason);
    }
    match files.length(path) {
        Some(length) if length > LONGEST_FILE as u64 => Some(Reason::Long(length)),
        _ => None,
    }
}

/// Why a file can't be read.
fn unread<O: Opener>(path: &str, files: &O) -> Found
    ensures { result.start ≡ None }
{
    Found {
        reason: reason_at(path, files),
        start: None,
        value: None,
    }
}

/// Why a file can't be read to its end.
fn broken_off<O: Opener>(path: &str, files: &O) -> Found
    ensures { result.start ≡ None }
{
    Found {
        reason: files.reason(path),
        start: None,
        value: None,
    }
}

/// What a file is that was read.
pub fn looked_at<O: Opener>(path: &str, files: &O) -> Found
    ensures told { BeginsSo (O.file files.now path.now) result.start }
    ensures reason { result.reason ≡ None }
{
    Found {
        reason: None,
        start: start_at(path, files),
        value: None,
    }
}

/// What a text was found to have for a parameter of the call that begins at a line.
fn value_found<O: Opener>(
    alloc: Global,
    parameter: Parameter,
    path: &str,
    line: u64,
    files: &O,
) -> Found
    ensures told { HasValueSo (O.file files.now path.now) line (name_of parameter) result.value }
    ensures start { result.start ≡ None }
{
    Found {
        reason: None,
        start: None,
        value: value_again(alloc, path, line, parameter.name(), files),
    }
}

/// What is found out of the file that the fault names. One that can't be read isn't looked at, nor one of another kind
/// than a text, a layout or a manifest.
pub fn found_of<O: Opener>(alloc: Global, fault: &RunFault, files: &O) -> Found
    ensures told { IsFound (O.file files.now) fault.now result }
{
    match fault {
        RunFault::File { path } => unread(path, files),
        RunFault::Text {
            cause: TextCause::Read,
            path,
            ..
        } => broken_off(path, files),
        RunFault::Text {
            cause: TextCause::Line(_),
            path,
            ..
        } => looked_at(path, files),
        RunFault::Json { path, .. } => looked_at(path, files),
        RunFault::Wrong {
            parameter,
            path,
            line,
        } => value_found(alloc, *parameter, path, *line, files),
        _ => NOTHING,
    }
}
