//! Pieces that several threads read, before they are gathered in the order of the manifest.

ghost use Rattle.std.specs.Prelude.{◌≡◌, ◌<◌, IfErr, IfOk, length};
ghost use Rattle.dumpi_text.specs.Failing.{Fails};
ghost use Rattle.run_inputs.specs.Files.{NamesFailed};
ghost use Rattle.command_runs.specs.Pieces.{facts_of_piece};
ghost use Rattle.command_runs.specs.Reads.{AreFactsAt, IsWholeAt, RefusesAt};

use crate::pieces::piece::{PieceRead, ready_piece_of};
use dumpi_calls::Walked;
use run_files::Piece;
use run_inputs::{Opener, RunFault, Watcher};
use side_by_side::{Jobs, Results};
use std::alloc::Global;
use trace_know::ReadyPiece;

/// The reading of pieces: a job for each.
#[derive(Drop)]
pub(crate) struct PieceJobs<'r, O: Opener, V: Watcher> {
    pub(crate) alloc: Global,
    pub(crate) pieces: &'r [Piece],
    pub(crate) files: &'r O,
    pub(crate) watcher: &'r V,
}

impl<'r, O: Opener, V: Watcher> Jobs for PieceJobs<'r, O, V> {
    type Output = Result<PieceRead, RunFault>;

    ghost ready = { λ jobs. Unit {0} };

    ghost many = { λ jobs. length jobs.pieces.now };

    ghost gives = { λ jobs place read. IsWholeAt (O.file jobs.files.now) (Fails O.R.failures) jobs.pieces.now place read };

    fn count(&self) -> usize {
        self.pieces.len()
    }

    fn size(&self, place: usize) -> u64 {
        size_at(self.pieces, place, self.files)
    }

    #[tactic(auto, using(crate::proofs::ReadAhead::whole_at))]
    fn job(&self, place: usize, buffer: &mut Vec<u8>) -> Result<PieceRead, RunFault> {
        let piece = &self.pieces[place];
        ready_piece_of(self.alloc, piece, self.files, self.watcher, buffer)
    }

    fn refuses(given: &Result<PieceRead, RunFault>) -> bool {
        given.is_err()
    }
}

/// How many bytes the file of the piece at a place has; one whose length isn't known is taken for the largest.
pub(crate) fn size_at<O: Opener>(pieces: &[Piece], place: usize, files: &O) -> u64 {
    match pieces.get(place) {
        Some(piece) => files.length(piece.file()).unwrap_or(u64::MAX),
        None => 0,
    }
}

/// Tells a watcher how the text of the piece at a place was walked.
pub(crate) fn tell_read<V: Watcher>(pieces: &[Piece], place: usize, walked: &Walked, watcher: &V) {
    if let Some(piece) = pieces.get(place) {
        watcher.has_read(piece.file(), walked);
    }
}

/// The events of the piece at a place, none of a text without calls. How its text was walked is kept for who watches.
pub(crate) fn whole_at<O: Opener, V: Watcher>(
    reads: &mut Results<'_, PieceJobs<'_, O, V>>,
    place: usize,
    buffer: &mut Vec<u8>,
    walked: &mut Vec<Walked>,
) -> Result<Option<ReadyPiece>, RunFault>
    requires { place < length reads.old.pieces.now }
    ensures ok { IfOk result (λ whole. AreFactsAt (O.file reads.old.files.now) reads.old.pieces.now place (facts_of_piece whole)) }
    ensures err { IfErr result (RefusesAt (O.file reads.old.files.now) reads.old.pieces.now place) }
    ensures failed { IfErr result (NamesFailed (Fails O.R.failures)) }
    ensures same { reads.new ≡ reads.old }
{
    let read = reads.take(place, buffer)?;
    walked.push(read.walked)?;
    Ok(read.whole)
}
