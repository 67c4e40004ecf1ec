//! Where a text was cut off. Each look at it reads it once more, so only one is looked at that couldn't be read whole,
//! or that a manifest says was cut off.

ghost use Rattle.std.specs.Prelude.{◌≡◌, ◌++◌, IfErr, IfOk, IfSome, OnOk, option_to_list, string_bytes};
ghost use Rattle.command_line.specs.Program.{texts_of};
ghost use Rattle.run_inputs.specs.Seen.{AreCutsOf, CutsInLine, CutsInStamp, EndsKnown, KeepsBefore, KeepsLines, RefusesLook, RefusesLooks, TellsCut, TellsKnown, front_of, kept_of_end};
ghost use Rattle.run_inputs.specs.Files.{IsLength};

use crate::faults::fault::RunFault;
use crate::load::cut_files::CutText;
use crate::load::front::Front;
use crate::load::input::opened;
use crate::load::opener::Opener;
use dumpi_text::LineFault;
use std::alloc::{AllocError, Global};
use text_cuts::{EndFault, FirstLines, TextEnd, end_of, lines_of};

/// The fault of a file that can't be read once more.
fn unread(alloc: Global, path: &str) -> Result<RunFault, AllocError>
    ensures { IfOk result (RefusesLook path.now) }
{
    let path = path.to_string(alloc)?;
    Ok(RunFault::File { path })
}

/// How a text ends of which so many bytes are read, or all.
#[tactic(auto, using(crate::proofs::Seen::look_unopened, crate::proofs::Seen::ends_known))]
fn end_at<O: Opener>(
    alloc: Global,
    path: &str,
    limit: Option<u64>,
    dropped: bool,
    files: &O,
) -> Result<TextEnd, RunFault>
    ensures ok { IfOk result (EndsKnown dropped (front_of limit (O.file files.now path.now))) }
    ensures err { IfErr result (RefusesLook path.now) }
{
    let reader = opened(alloc, path, files)?;
    match end_of(alloc, Front::new(reader, limit), dropped) {
        Ok(end) => Ok(end),
        Err(EndFault::Memory) => Err(RunFault::Memory),
        Err(EndFault::Failed) => Err(unread(alloc, path)?),
    }
}

/// The first lines of a text of so many bytes.
#[tactic(auto, using(crate::proofs::Seen::look_unopened, crate::proofs::Seen::lines_known))]
fn lines_at<O: Opener>(
    alloc: Global,
    path: &str,
    count: u64,
    length: u64,
    files: &O,
) -> Result<FirstLines, RunFault>
    requires { IsLength (O.file files.now path.now) length }
    ensures ok { IfOk result (TellsKnown count (O.file files.now path.now)) }
    ensures err { IfErr result (RefusesLook path.now) }
{
    let reader = opened(alloc, path, files)?;
    match lines_of(reader, count, length) {
        Ok(lines) => Ok(lines),
        Err(_) => Err(unread(alloc, path)?),
    }
}

/// That a text of so many bytes was cut off, of which so many lines are kept, and its last line.
#[tactic(auto, using(crate::proofs::Seen::keeps_known))]
fn cut_behind<O: Opener>(
    alloc: Global,
    path: &str,
    kept: u64,
    last: u64,
    length: u64,
    files: &O,
) -> Result<CutText, RunFault>
    requires { IsLength (O.file files.now path.now) length }
    ensures name { IfOk result (λ cut. string_bytes cut.file ≡ path.now) }
    ensures ok { IfOk result (KeepsLines kept last (O.file files.now path.now)) }
    ensures err { IfErr result (RefusesLook path.now) }
{
    let lines = lines_at(alloc, path, kept, length, files)?;
    Ok(CutText {
        file: path.to_string(alloc)?,
        bytes: lines.bytes,
        line: last,
    })
}

/// How many lines are kept of a text whose front ends so, of which so many stand before the line that is dropped.
fn kept_of_end(end: TextEnd, before: u64) -> u64
    ensures { result ≡ kept_of_end end before }
{
    match end {
        TextEnd::Whole {
            lacking: Some(call),
            ..
        } => call.saturating_sub(1),
        TextEnd::Whole { lacking: None, .. } => before,
        TextEnd::Refused { .. } => before,
    }
}

/// How many lines are kept of a text of so many bytes that was cut off in a line.
#[tactic(auto, using(crate::proofs::Seen::before_known))]
fn kept_before<O: Opener>(
    alloc: Global,
    path: &str,
    line: u64,
    length: u64,
    files: &O,
) -> Result<u64, RunFault>
    requires { IsLength (O.file files.now path.now) length }
    ensures ok { IfOk result (KeepsBefore line (O.file files.now path.now)) }
    ensures err { IfErr result (RefusesLook path.now) }
{
    let before = line.saturating_sub(1);
    let lines = lines_at(alloc, path, before, length, files)?;
    let end = end_at(alloc, path, Some(lines.bytes), true, files)?;
    Ok(kept_of_end(end, before))
}

/// A text of so many bytes that was cut off in this line, inside a call or at its beginning.
#[tactic(auto, using(crate::proofs::Seen::line_cut))]
fn cut_in_line<O: Opener>(
    alloc: Global,
    path: &str,
    line: u64,
    length: u64,
    files: &O,
) -> Result<CutText, RunFault>
    requires { IsLength (O.file files.now path.now) length }
    ensures name { IfOk result (λ cut. string_bytes cut.file ≡ path.now) }
    ensures ok { IfOk result (CutsInLine line (O.file files.now path.now)) }
    ensures err { IfErr result (RefusesLook path.now) }
{
    let kept = kept_before(alloc, path, line, length, files)?;
    cut_behind(alloc, path, kept, line, length, files)
}

/// A text of so many bytes with a bad stamp in this line: it was cut off where the line has no line feed.
#[tactic(auto, using(crate::proofs::Seen::no_stamp_cut, crate::proofs::Seen::stamp_cut))]
fn cut_in_stamp<O: Opener>(
    alloc: Global,
    path: &str,
    line: u64,
    length: u64,
    files: &O,
) -> Result<Option<CutText>, RunFault>
    requires { IsLength (O.file files.now path.now) length }
    ensures name { IfOk result (λ cut. IfSome cut (λ c. string_bytes c.file ≡ path.now)) }
    ensures ok { IfOk result (CutsInStamp line (O.file files.now path.now)) }
    ensures err { IfErr result (RefusesLook path.now) }
{
    let lines = lines_at(alloc, path, line, length, files)?;
    if lines.missing == 0 {
        return Ok(None);
    }
    let cut = cut_behind(alloc, path, line.saturating_sub(1), line, length, files)?;
    Ok(Some(cut))
}

/// Where a text was cut off, if it was. A pipe can't be read twice, so nothing is told of it.
#[tactic(auto, using(crate::proofs::Seen::whole_known, crate::proofs::Seen::call_known, crate::proofs::Seen::line_known, crate::proofs::Seen::stamp_known, crate::proofs::Seen::refused_known))]
pub(crate) fn cut_of<O: Opener>(
    alloc: Global,
    path: &str,
    files: &O,
) -> Result<Option<CutText>, RunFault>
    ensures name { IfOk result (λ cut. IfSome cut (λ c. string_bytes c.file ≡ path.now)) }
    ensures ok { IfOk result (TellsCut (O.file files.now path.now)) }
    ensures err { IfErr result (RefusesLook path.now) }
{
    let Some(length) = files.length(path) else {
        return Ok(None);
    };
    match end_at(alloc, path, None, false, files)? {
        TextEnd::Whole { lacking: None, .. } => Ok(None),
        TextEnd::Whole {
            lacking: Some(call),
            line,
        } => {
            let cut = cut_behind(alloc, path, call.saturating_sub(1), line, length, files)?;
            Ok(Some(cut))
        }
        TextEnd::Refused { fault, line } => match fault {
            LineFault::Truncated => {
                let cut = cut_in_line(alloc, path, line, length, files)?;
                Ok(Some(cut))
            }
            LineFault::BadStamp => cut_in_stamp(alloc, path, line, length, files),
            _ => Ok(None),
        },
    }
}

/// Adds a text, if it was cut off.
fn push_cut(cut: Option<CutText>, cuts: &mut Vec<CutText>) -> Result<(), AllocError>
    ensures { OnOk result (cuts.new.items ≡ cuts.old.items ++ option_to_list cut) }
{
    match cut {
        Some(cut) => Ok(cuts.push(cut)?),
        None => Ok(()),
    }
}

/// Those of these files that are texts which were cut off.
#[tactic(auto, using(crate::proofs::Seen::cuts_none))]
pub(crate) fn cuts_of<O: Opener>(
    alloc: Global,
    names: &[&str],
    files: &O,
) -> Result<Vec<CutText>, RunFault>
    ensures ok { IfOk result (λ cuts. AreCutsOf (O.file files.now) (texts_of names.now) cuts.items) }
    ensures err { IfErr result (RefusesLooks (texts_of names.now)) }
{
    let mut cuts = Vec::new(alloc);
    for name in names {
        let cut = cut_of(alloc, name, files)?;
        push_cut(cut, &mut cuts)?;
    }
    Ok(cuts)
}
