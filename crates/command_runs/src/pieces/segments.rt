//! The segments of all pieces of a manifest.

ghost use Rattle.std.specs.Prelude.{◌≡◌, ◌<◌, ◌⊎◌, IfErr, IfOk, length};
ghost use Rattle.dumpi_text.specs.Failing.{Fails};
ghost use Rattle.run_inputs.specs.Files.{NamesFailed};
ghost use Rattle.command_runs.specs.Reads.{AreSegmentsAt, IsCutAt, RefusesAt};
ghost use Rattle.command_runs.specs.Refusals.{RefusesFirst};
ghost use Rattle.command_runs.specs.Schedules.{TellSegments, held_lists};

use crate::pieces::piece::{SegmentsRead, segments_of};
use crate::pieces::reads::{size_at, tell_read};
use dumpi_calls::whole_segments;
use run_files::Piece;
use run_inputs::{Opener, RunFault, SharedOpener, Watcher, announce};
use side_by_side::{Jobs, Results, results_of};
use std::alloc::{AllocError, Global};
use trace_know::ReadySegment;
use trace_world::SharedSegment;

/// The reading of pieces as segments: a job for each.
#[derive(Drop)]
struct SegmentJobs<'r, O: Opener, V: Watcher> {
    alloc: Global,
    pieces: &'r [Piece],
    files: &'r O,
    watcher: &'r V,
}

impl<'r, O: Opener, V: Watcher> Jobs for SegmentJobs<'r, O, V> {
    type Output = Result<SegmentsRead, RunFault>;

    ghost ready = { λ jobs. Unit {0} };

    ghost many = { λ jobs. length jobs.pieces.now };

    ghost gives = { λ jobs place read. IsCutAt (O.file jobs.files.now) (Fails O.R.failures) jobs.pieces.now place read };

    fn count(&self) -> usize {
        self.pieces.len()
    }

    fn size(&self, place: usize) -> u64 {
        size_at(self.pieces, place, self.files)
    }

    #[tactic(auto, using(crate::proofs::ReadAhead::cut_at))]
    fn job(&self, place: usize, buffer: &mut Vec<u8>) -> Result<SegmentsRead, RunFault> {
        let piece = &self.pieces[place];
        segments_of(self.alloc, piece, self.files, self.watcher, buffer)
    }

    fn refuses(given: &Result<SegmentsRead, RunFault>) -> bool {
        given.is_err()
    }
}

/// The segments of the piece at a place. A watcher is told how its text was walked.
fn segments_at<O: Opener, V: Watcher>(
    reads: &mut Results<'_, SegmentJobs<'_, O, V>>,
    place: usize,
    buffer: &mut Vec<u8>,
) -> Result<Vec<ReadySegment>, RunFault>
    requires { place < length reads.old.pieces.now }
    ensures ok { IfOk result (λ segments. AreSegmentsAt (O.file reads.old.files.now) reads.old.pieces.now place segments.items) }
    ensures err { IfErr result (RefusesAt (O.file reads.old.files.now) reads.old.pieces.now place) }
    ensures failed { IfErr result (NamesFailed (Fails O.R.failures)) }
    ensures same { reads.new ≡ reads.old }
{
    let read = reads.take(place, buffer)?;
    let jobs = reads.jobs();
    tell_read(jobs.pieces, place, &read.walked, jobs.watcher);
    Ok(read.segments)
}

/// The segments of each piece, in the order of the pieces, for all steps that post them. Several threads read them. [`RunFault`] is that of the
/// first piece that is refused, or want of memory.
pub fn segments_of_all<O: SharedOpener, V: Watcher + Sync>(
    alloc: Global,
    pieces: &[Piece],
    files: &O,
    watcher: &mut V,
) -> Result<Vec<Vec<SharedSegment>>, RunFault>
where
    O::R: Send,
    ensures ok { IfOk result (λ lists. TellSegments (O.file files.now) pieces.now (held_lists lists.items)) }
    ensures err { IfErr result (λ fault. (fault ≡ RunFault.Memory) ⊎ RefusesFirst (O.file files.now) pieces.now fault) }
    ensures failed { IfErr result (NamesFailed (Fails O.R.failures)) }
{
    whole_segments();
    announce(pieces, files, watcher);
    let jobs = SegmentJobs {
        alloc,
        pieces,
        files,
        watcher: &*watcher,
    };
    let mut reads = results_of(files.handle(), alloc, files.threads(), &jobs)?;
    let mut buffer = Vec::new(alloc);
    let mut lists = Vec::new(alloc);
    for place in 0..pieces.len() {
        let segments = segments_at(&mut reads, place, &mut buffer)?;
        lists.push(shared(alloc, segments)?)?;
    }
    Ok(lists)
}

/// The same segments, to be shared: their events are moved to lists.
fn shared(alloc: Global, segments: Vec<ReadySegment>) -> Result<Vec<SharedSegment>, AllocError>
    ensures { IfOk result (λ list. list.items ≡ segments.items) }
{
    let mut list = Vec::new(alloc);
    for segment in segments {
        let plain = segment.into_segment(alloc)?;
        list.push(SharedSegment::new(alloc, plain)?)?;
    }
    Ok(list)
}
