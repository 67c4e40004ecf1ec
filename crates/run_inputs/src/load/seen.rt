//! The files of a run as it reads them: texts that may have been cut off as far as they are kept.

ghost use Rattle.std.specs.Prelude.{◌≡◌, IfErr, IfOk, map};
ghost use Rattle.command_line.specs.Program.{texts_of};
ghost use Rattle.run_inputs.specs.Prepared.{IsPrepared, form_of};
ghost use Rattle.run_inputs.specs.Seen.{Reads, RefusesLooks, RefusesTexts, Sees, cut_names, ends_a_cut, kept_of, says_cut, seen_by};

use crate::faults::fault::RunFault;
use crate::faults::init_fault::InitFault;
use crate::load::cut::cuts_of;
use crate::load::cut_files::CutFiles;
use crate::load::opener::{Opener, SharedOpener};
use crate::load::prepared::{Prepared, Saying, prepare};
use crate::load::second_look::piped_of;
use dumpi_text::{LineFault, TextCause};
use mpi_model::Sends;
use run_files::Piece;
use std::alloc::{AllocError, Global};

/// The files of these pieces that may have been cut off.
fn cut_names(alloc: Global, pieces: &[Piece]) -> Result<Vec<&str>, AllocError>
    ensures { IfOk result (λ names. texts_of names.items ≡ cut_names pieces.now) }
{
    let mut names = Vec::new(alloc);
    for piece in pieces {
        if piece.is_cut() {
            names.push(piece.file())?;
        }
    }
    Ok(names)
}

/// The files of a run with these pieces: of a piece that may have been cut off what is kept of its text.
#[tactic(auto, using(crate::proofs::Seen::sees_kept, crate::proofs::Seen::looks_same))]
pub fn kept_files<'a, O: Opener>(
    alloc: Global,
    pieces: &[Piece],
    files: &'a O,
) -> Result<CutFiles<'a, O>, RunFault>
    ensures files { IfOk result (λ seen. seen.files.now ≡ files.now) }
    ensures seen { IfOk result (λ seen. Sees (O.file files.now) (cut_names pieces.now) (seen_by (map kept_of seen.cuts.items) (O.file files.now))) }
    ensures err { IfErr result (RefusesLooks (cut_names pieces.now)) }
{
    let names = cut_names(alloc, pieces)?;
    let cuts = cuts_of(alloc, &names, files)?;
    Ok(CutFiles::new(files, cuts))
}

/// Whether a text with a refused line of this kind may have been cut off there.
fn ends_a_cut(fault: LineFault) -> bool
    ensures { result ≡ ends_a_cut fault }
{
    match fault {
        LineFault::BadStamp | LineFault::Truncated => true,
        LineFault::LineTooLong | LineFault::OtherThread | LineFault::ReturnOutside => false,
        LineFault::NotReturned | LineFault::NameDiffers | LineFault::BadParameter => false,
        LineFault::TooManyLines => false,
    }
}

/// Whether a text is refused for a line in which it may have been cut off, or for a call that lacks a parameter: a text
/// that was cut off between two lines may end in such a call.
fn says_cut(fault: &InitFault) -> bool
    ensures { result ≡ says_cut fault.now }
{
    match fault {
        InitFault::Text(
            RunFault::Text {
                cause: TextCause::Line(fault),
                ..
            },
        ) => ends_a_cut(*fault),
        InitFault::Text(RunFault::Missing { .. }) => true,
        _ => false,
    }
}

/// What is made of the texts that these words name, and the files as they were read for it. A text that is cut off ends
/// the first reading, and then each text is looked at for where it was cut off.
#[tactic(auto, using(crate::proofs::SeenTexts::reads_whole, crate::proofs::SeenTexts::prepared_same, crate::proofs::SeenTexts::refused_whole))]
pub fn prepared_of<'a, O: SharedOpener>(
    alloc: Global,
    saying: Saying<'_>,
    sends: Sends,
    words: &[&str],
    files: &'a O,
) -> Result<(Prepared, CutFiles<'a, O>), InitFault>
where
    O::R: Send,
    ensures files { IfOk result (λ p. p.1.files.now ≡ files.now) }
    ensures seen { IfOk result (λ p. Reads (O.file files.now) (texts_of words.now) (seen_by (map kept_of p.1.cuts.items) (O.file files.now))) }
    ensures made { IfOk result (λ p. IsPrepared (seen_by (map kept_of p.1.cuts.items) (O.file files.now)) (form_of saying.entry) sends (texts_of words.now) p.0.made p.0.notes.items) }
    ensures err { IfErr result (RefusesTexts (O.file files.now) (texts_of words.now)) }
{
    let whole = CutFiles::whole(alloc, files);
    match prepare(alloc, saying, sends, words, &whole) {
        Ok(prepared) => Ok((prepared, whole)),
        Err(fault) => {
            if says_cut(&fault) {
                prepared_again(alloc, saying, sends, words, files)
            } else {
                Err(fault)
            }
        }
    }
}

/// What is made of the texts that these words name, of each as far as it is kept, and the files so.
#[tactic(auto, using(crate::proofs::SeenTexts::reads_kept, crate::proofs::SeenTexts::prepared_same, crate::proofs::SeenTexts::refused_memory, crate::proofs::SeenTexts::refused_piped, crate::proofs::SeenTexts::refused_look, crate::proofs::SeenTexts::refused_kept))]
fn prepared_again<'a, O: SharedOpener>(
    alloc: Global,
    saying: Saying<'_>,
    sends: Sends,
    words: &[&str],
    files: &'a O,
) -> Result<(Prepared, CutFiles<'a, O>), InitFault>
where
    O::R: Send,
    ensures files { IfOk result (λ p. p.1.files.now ≡ files.now) }
    ensures seen { IfOk result (λ p. Reads (O.file files.now) (texts_of words.now) (seen_by (map kept_of p.1.cuts.items) (O.file files.now))) }
    ensures made { IfOk result (λ p. IsPrepared (seen_by (map kept_of p.1.cuts.items) (O.file files.now)) (form_of saying.entry) sends (texts_of words.now) p.0.made p.0.notes.items) }
    ensures err { IfErr result (RefusesTexts (O.file files.now) (texts_of words.now)) }
{
    if let Some(path) = piped_of(words, files) {
        let path = path.to_string(alloc)?;
        return Err(InitFault::Piped { path });
    }
    let cuts = match cuts_of(alloc, words, files) {
        Ok(cuts) => cuts,
        Err(RunFault::Memory) => return Err(InitFault::Memory),
        Err(fault) => return Err(InitFault::Text(fault)),
    };
    let seen = CutFiles::new(files, cuts);
    let prepared = prepare(alloc, saying, sends, words, &seen)?;
    Ok((prepared, seen))
}
