//! Folders among the words: each stands for the texts in it.

ghost use Rattle.std.specs.Prelude.{◌≡◌, ◌++◌, ◌∷◌, [], IfErr, IfOk, None, OnOk, map, string_bytes};
ghost use Rattle.command_line.specs.Program.{texts_of};
ghost use Rattle.run_inputs.specs.Folders.{AreTextsIn, IsNoFolder, NamesNoFolder, StandFor, StandForAll, is_text_name, name_in};

use crate::faults::fault::RunFault;
use crate::faults::init_fault::InitFault;
use crate::load::opener::{OpenFault, Opener};
use crate::load::reason::Reason;
use std::alloc::{AllocError, Global};

/// Whether a file in a folder is a text, by its name.
fn is_text_name(entry: &str) -> bool
    ensures { result ≡ is_text_name entry.now }
{
    entry.as_bytes().ends_with(b".txt")
}

/// The name of a file in a folder.
fn name_in(alloc: Global, folder: &str, entry: &str) -> Result<String, AllocError>
    ensures { IfOk result (λ name. string_bytes name ≡ name_in folder.now entry.now) }
{
    if folder.as_bytes().ends_with(b"/") {
        format!(in alloc; "{folder}{entry}")
    } else {
        format!(in alloc; "{folder}/{entry}")
    }
}

/// The texts among what is in a folder. Folders in it are not looked into.
#[tactic(auto, using(crate::proofs::Folders::one_text_more, crate::proofs::Folders::no_text))]
fn texts_among<O: Opener>(
    alloc: Global,
    folder: &str,
    entries: &[String],
    files: &O,
) -> Result<Vec<String>, AllocError>
    ensures { IfOk result (λ names. AreTextsIn folder.now names.items) }
{
    let mut names = Vec::new(alloc);
    for entry in entries {
        if is_text_name(entry.as_str()) {
            let name = name_in(alloc, folder, entry.as_str())?;
            if files.reason(name.as_str()) != Some(Reason::Folder) {
                names.push(name)?;
            }
        }
    }
    Ok(names)
}

/// The texts in a folder, of which there is one at least.
fn texts_in<O: Opener>(
    alloc: Global,
    folder: &str,
    entries: &[String],
    files: &O,
) -> Result<Vec<String>, InitFault>
    ensures ok { IfOk result (λ names. AreTextsIn folder.now names.items) }
    ensures err { IfErr result (IsNoFolder folder.now None) }
{
    let names = texts_among(alloc, folder, entries, files)?;
    if names.is_empty() {
        let path = folder.to_string(alloc)?;
        return Err(InitFault::NoTexts { path });
    }
    Ok(names)
}

/// A list of one name.
fn alone(alloc: Global, word: &str) -> Result<Vec<String>, AllocError>
    ensures { IfOk result (λ names. map string_bytes names.items ≡ word.now ∷ []) }
{
    let mut names = Vec::new(alloc);
    names.push(word.to_string(alloc)?)?;
    Ok(names)
}

/// The fault of a folder that can't be read.
fn unread(alloc: Global, path: &str) -> Result<InitFault, AllocError>
    ensures { IfOk result (IsNoFolder path.now None) }
{
    let path = path.to_string(alloc)?;
    Ok(InitFault::Text(RunFault::File { path }))
}

/// The names for which a word stands: the texts in a folder of that name, else the word itself.
#[tactic(auto, using(crate::proofs::Folders::stands_alone, crate::proofs::Folders::stands_for_texts, crate::proofs::Folders::no_folder))]
fn stand_for<O: Opener>(alloc: Global, word: &str, files: &O) -> Result<Vec<String>, InitFault>
    ensures ok { IfOk result (λ names. StandFor (O.file files.now word.now) word.now names.items) }
    ensures err { IfErr result (IsNoFolder word.now (O.file files.now word.now)) }
{
    match files.entries(alloc, word) {
        Ok(None) => Ok(alone(alloc, word)?),
        Ok(Some(entries)) => texts_in(alloc, word, &entries, files),
        Err(OpenFault::Memory) => Err(InitFault::Memory),
        Err(OpenFault::File) => Err(unread(alloc, word)?),
    }
}

/// Adds copies of some names.
fn add_all(alloc: Global, names: &mut Vec<String>, more: &[String]) -> Result<(), AllocError>
    ensures { OnOk result (map string_bytes names.new.items ≡ map string_bytes names.old.items ++ map string_bytes more.now) }
{
    for name in more {
        names.push(name.as_str().to_string(alloc)?)?;
    }
    Ok(())
}

/// The names for which the words stand, in their order: of a folder the texts in it, else the word itself.
pub fn with_folders<O: Opener>(
    alloc: Global,
    words: &[&str],
    files: &O,
) -> Result<Vec<String>, InitFault>
    ensures ok { IfOk result (λ names. StandForAll (O.file files.now) (texts_of words.now) (map string_bytes names.items)) }
    ensures err { IfErr result (NamesNoFolder (O.file files.now) (texts_of words.now)) }
{
    let mut names = Vec::new(alloc);
    for word in words {
        let more = stand_for(alloc, word, files)?;
        add_all(alloc, &mut names, &more)?;
    }
    Ok(names)
}

/// The names, as words are passed.
pub fn borrowed<'a>(alloc: Global, names: &'a [String]) -> Result<Vec<&'a str>, AllocError>
    ensures { IfOk result (λ lent. texts_of lent.items ≡ map string_bytes names.now) }
{
    let mut lent = Vec::with_capacity(alloc, names.len())?;
    for name in names {
        lent.push(name.as_str())?;
    }
    Ok(lent)
}
