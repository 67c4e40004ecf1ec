//! Ranks that several threads read, each with all its pieces. What they tell is taken in the order of the ranks, and so
//! is the first fault.

ghost use Rattle.std.specs.Prelude.{◌≡◌, ◌⊎◌, ◌<◌, ◌≤◌, IfErr, IfOk, length, slice_range};
ghost use Rattle.std.specs.List.{AllWithin, HoldsAt};
ghost use Rattle.std.specs.List.Sorted.{IsNonDecreasingBy};
ghost use Rattle.dumpi_text.specs.Failing.{Fails};
ghost use Rattle.run_inputs.specs.Files.{NamesFailed};
ghost use Rattle.command_runs.specs.Ranks.{IsRankAmong, IsShare, TellRank};
ghost use Rattle.command_runs.specs.Refusals.{RefusesFirst};

use crate::pieces::by_rank::{end_of_rank, told_of_rank};
use crate::pieces::reads::size_at;
use crate::run::Run;
use dumpi_calls::Walked;
use run_files::Piece;
use run_inputs::{Opener, RunFault, Watcher, tell_walked};
use side_by_side::{Jobs, Results};
use trace_node::RankTold;

/// What an answer needs of a rank, or why its pieces are refused; and how their texts were walked.
#[derive(Drop)]
pub(crate) struct RankRead {
    told: Result<RankTold, RunFault>,
    walked: Vec<Walked>,
}

/// The reading of all ranks of a layout: a job for each.
#[derive(Drop)]
pub(crate) struct RankJobs<'r, 'a, O: Opener, V: Watcher> {
    pub(crate) run: &'r Run<'a, O>,
    /// By rising rank.
    pub(crate) pieces: &'r [Piece],
    pub(crate) watcher: &'r V,
}

impl<'r, 'a, O: Opener, V: Watcher> Jobs for RankJobs<'r, 'a, O, V> {
    type Output = RankRead;

    ghost ready = { λ jobs. IsNonDecreasingBy (λ p. p.rank) jobs.pieces.now };

    ghost many = { λ jobs. jobs.run.now.layout.now.ranks };

    ghost gives = { λ jobs rank read. IsRankAmong (O.file jobs.run.now.files.now) (Fails O.R.failures) jobs.run.now.layout.now jobs.pieces.now rank read };

    fn count(&self) -> usize {
        self.run.layout.ranks() as usize
    }

    fn size(&self, number: usize) -> u64 {
        match u32::try_from(number) {
            Ok(rank) => size_of_rank(self.run.files, self.pieces, rank),
            Err(_) => 0,
        }
    }

    fn job(&self, number: usize, buffer: &mut Vec<u8>) -> RankRead {
        let ranks = self.run.layout.ranks();
        let rank = number as u32;
        prove!(rank < ranks);
        read_rank(self.run, self.pieces, rank, self.watcher, buffer)
    }

    fn refuses(given: &RankRead) -> bool {
        given.told.is_err()
    }
}

/// Where the pieces of a rank begin, or would, found by binary search.
fn start_of_rank(pieces: &[Piece], rank: u32) -> usize
    requires { IsNonDecreasingBy (λ p. p.rank) pieces.now }
    ensures bound { result ≤ length pieces.now }
    ensures lower { AllWithin (λ p. p.rank < rank) pieces.now 0 result }
    ensures next { result < length pieces.now → HoldsAt (λ p. rank ≤ p.rank) pieces.now result }
{
    pieces.partition_point(|piece| piece.rank() < rank)
}

/// Between which places the pieces of a rank stand.
fn share_of_rank(pieces: &[Piece], rank: u32) -> (usize, usize)
    requires { IsNonDecreasingBy (λ p. p.rank) pieces.now }
    ensures { IsShare pieces.now rank result.0 result.1 }
{
    let start = start_of_rank(pieces, rank);
    let end = end_of_rank(pieces, start, rank);
    (start, end)
}

/// Of so many pieces of a rank the files are asked how long they are: the others are taken to be like them.
const MOST_MEASURED: usize = 16;

/// How many bytes the files of a rank's pieces have, or some such number, if the ranks of the pieces rise.
fn size_of_rank<O: Opener>(files: &O, pieces: &[Piece], rank: u32) -> u64 {
    let start = pieces.partition_point(|piece| piece.rank() < rank);
    let end = pieces.partition_point(|piece| piece.rank() <= rank);
    let count = end.saturating_sub(start);
    let mut size: u64 = 0;
    for more in 0..count.min(MOST_MEASURED) {
        size = size.saturating_add(size_at(pieces, start.saturating_add(more), files));
    }
    if count > MOST_MEASURED {
        (size / MOST_MEASURED as u64).saturating_mul(count as u64)
    } else {
        size
    }
}

/// Reads all pieces of a rank.
fn read_rank<O: Opener, V: Watcher>(
    run: &Run<'_, O>,
    pieces: &[Piece],
    rank: u32,
    watcher: &V,
    buffer: &mut Vec<u8>,
) -> RankRead
    requires rises { IsNonDecreasingBy (λ p. p.rank) pieces.now }
    requires rank { rank < run.now.layout.now.ranks }
    ensures { IsRankAmong (O.file run.now.files.now) (Fails O.R.failures) run.now.layout.now pieces.now rank result }
{
    let share = share_of_rank(pieces, rank);
    let (start, end) = share;
    let own = &pieces[start..end];
    let mut walked = Vec::new(run.alloc);
    let told = told_of_rank(run, rank, own, watcher, buffer, &mut walked);
    RankRead { told, walked }
}

/// What an answer needs of a rank, by its pieces, which stand between two places. A watcher is told how their texts were
/// walked.
pub(crate) fn told_at<O: Opener, V: Watcher>(
    ranks: &mut Results<'_, RankJobs<'_, '_, O, V>>,
    rank: u32,
    start: usize,
    end: usize,
    buffer: &mut Vec<u8>,
) -> Result<RankTold, RunFault>
    requires rises { IsNonDecreasingBy (λ p. p.rank) ranks.old.pieces.now }
    requires rank { rank < ranks.old.run.now.layout.now.ranks }
    requires share { IsShare ranks.old.pieces.now rank start end }
    ensures ok { IfOk result (TellRank (O.file ranks.old.run.now.files.now) ranks.old.run.now.layout.now (slice_range ranks.old.pieces.now start end) rank) }
    ensures err { IfErr result (λ fault. (fault ≡ RunFault.Memory) ⊎ RefusesFirst (O.file ranks.old.run.now.files.now) (slice_range ranks.old.pieces.now start end) fault) }
    ensures failed { IfErr result (NamesFailed (Fails O.R.failures)) }
    ensures same { ranks.new ≡ ranks.old }
{
    let read = ranks.take(rank as usize, buffer);
    let jobs = ranks.jobs();
    tell_walked(&jobs.pieces[start..end], &read.walked, jobs.watcher);
    read.told
}
