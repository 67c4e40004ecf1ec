//! Pieces that several threads read, each with a note of its text.

ghost use Rattle.std.specs.Prelude.{◌≡◌, ◌<◌, IfErr, IfOk, length};
ghost use Rattle.dumpi_text.specs.Failing.{Fails};
ghost use Rattle.run_inputs.specs.Files.{NamesFailed};
ghost use Rattle.command_runs.specs.Pieces.{facts_of_piece};
ghost use Rattle.command_runs.specs.Reads.{AreFactsAt, IsNoteAt, IsNotedAt, RefusesAt};

use crate::pieces::noted::{NotedPiece, noted_piece};
use crate::pieces::reads::{size_at, tell_read};
use run_files::Piece;
use run_inputs::{Opener, RunFault, Watcher};
use side_by_side::{Jobs, Results};
use std::alloc::Global;

/// The reading of pieces with notes: a job for each.
#[derive(Drop)]
pub(crate) struct NotedJobs<'r, O: Opener, V: Watcher> {
    pub(crate) alloc: Global,
    pub(crate) pieces: &'r [Piece],
    pub(crate) files: &'r O,
    pub(crate) watcher: &'r V,
}

impl<'r, O: Opener, V: Watcher> Jobs for NotedJobs<'r, O, V> {
    type Output = Result<NotedPiece, RunFault>;

    ghost ready = { λ jobs. Unit {0} };

    ghost many = { λ jobs. length jobs.pieces.now };

    ghost gives = { λ jobs place read. IsNotedAt (O.file jobs.files.now) (Fails O.R.failures) jobs.pieces.now place read };

    fn count(&self) -> usize {
        self.pieces.len()
    }

    fn size(&self, place: usize) -> u64 {
        size_at(self.pieces, place, self.files)
    }

    #[tactic(auto, using(crate::proofs::ReadAhead::noted_at))]
    fn job(&self, place: usize, buffer: &mut Vec<u8>) -> Result<NotedPiece, RunFault> {
        let piece = &self.pieces[place];
        noted_piece(self.alloc, piece, self.files, self.watcher, buffer)
    }

    fn refuses(given: &Result<NotedPiece, RunFault>) -> bool {
        given.is_err()
    }
}

/// The piece at a place, with a note of its text. A watcher is told how its text was walked.
pub(crate) fn noted_at<O: Opener, V: Watcher>(
    reads: &mut Results<'_, NotedJobs<'_, O, V>>,
    place: usize,
    buffer: &mut Vec<u8>,
) -> Result<NotedPiece, RunFault>
    requires { place < length reads.old.pieces.now }
    ensures ok { IfOk result (λ read. AreFactsAt (O.file reads.old.files.now) reads.old.pieces.now place (facts_of_piece read.whole)) }
    ensures note { IfOk result (λ read. IsNoteAt (O.file reads.old.files.now) reads.old.pieces.now place read.note) }
    ensures err { IfErr result (RefusesAt (O.file reads.old.files.now) reads.old.pieces.now place) }
    ensures failed { IfErr result (NamesFailed (Fails O.R.failures)) }
    ensures same { reads.new ≡ reads.old }
{
    let read = reads.take(place, buffer)?;
    let jobs = reads.jobs();
    tell_read(jobs.pieces, place, &read.walked, jobs.watcher);
    Ok(read)
}
