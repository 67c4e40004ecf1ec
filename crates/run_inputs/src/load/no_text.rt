//! Why files that were to be texts are none, in words of texts.

ghost use Rattle.std.specs.Prelude.{◌≡◌, IfOk, IfSome, true};
ghost use Rattle.command_line.specs.Program.{texts_of};
ghost use Rattle.run_inputs.specs.NoTexts.{AreNoTexts, HasToBeUnpacked, IsNoText};

use crate::faults::fault::RunFault;
use crate::faults::init_fault::InitFault;
use crate::load::opener::{OpenFault, Opener};
use crate::load::second_look::start_at;
use std::alloc::{AllocError, Global};
use text_notes::Start;

/// What a file begins as, where it has to be unpacked or written anew before it can be read as a text.
fn strange_start<O: Opener>(path: &str, files: &O) -> Option<Start>
    ensures { IfSome result (λ start. HasToBeUnpacked start (O.file files.now path.now)) }
{
    let start = start_at(path, files)?;
    if start.is_to_be_unpacked() {
        Some(start)
    } else {
        None
    }
}

/// The fault of a file that can't be opened.
fn unopened(alloc: Global, path: &str) -> Result<InitFault, AllocError>
    ensures { IfOk result (λ fault. IsNoText path.now None fault) }
{
    let path = path.to_string(alloc)?;
    Ok(InitFault::Text(RunFault::File { path }))
}

/// The fault of a file that has no length: there is none, or it is a folder, or what comes by it comes once.
fn without_length<O: Opener>(alloc: Global, path: &str, files: &O) -> Result<InitFault, AllocError>
    ensures { IfOk result (λ fault. IsNoText path.now None fault) }
{
    if files.reason(path).is_some() {
        return unopened(alloc, path);
    }
    let path = path.to_string(alloc)?;
    Ok(InitFault::Piped { path })
}

/// Why a file is no text: it can't be read, or not twice, or it has to be unpacked or written anew. `None` where it is
/// another file.
#[tactic(auto, using(crate::proofs::Folders::untold_no_text))]
fn no_text_at<O: Opener>(
    alloc: Global,
    path: &str,
    files: &O,
) -> Result<Option<InitFault>, AllocError>
    ensures { IfOk result (λ found. IfSome found (IsNoText path.now (O.file files.now path.now))) }
{
    if files.length(path).is_none() {
        return Ok(Some(without_length(alloc, path, files)?));
    }
    if let Err(OpenFault::File) = files.open(path) {
        return Ok(Some(unopened(alloc, path)?));
    }
    match strange_start(path, files) {
        Some(start) => {
            let path = path.to_string(alloc)?;
            Ok(Some(InitFault::Strange { path, start }))
        }
        None => Ok(None),
    }
}

/// Why the first of these files that isn't empty is no text.
pub fn no_text_of<O: Opener>(
    alloc: Global,
    names: &[&str],
    files: &O,
) -> Result<Option<InitFault>, AllocError>
    ensures { IfOk result (λ found. IfSome found (AreNoTexts (O.file files.now) (texts_of names.now))) }
{
    for name in names {
        if files.length(name) != Some(0) {
            return no_text_at(alloc, name, files);
        }
    }
    Ok(None)
}
