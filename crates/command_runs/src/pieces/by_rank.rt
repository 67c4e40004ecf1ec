//! The answer to what the texts of a run tell, made rank by rank, so that no rank's events are kept once
//! what it did is known.

ghost use Rattle.std.specs.Prelude.{◌≡◌, ◌≢◌, ◌+◌, ◌<◌, ◌≤◌, ◌⊎◌, ◌↔◌, IfErr, IfOk, IsTrue, OnOk, length, slice_range, take};
ghost use Rattle.std.specs.FinMap.{empty};
ghost use Rattle.std.specs.List.{All, AllWithin, HoldsAt};
ghost use Rattle.std.specs.List.Sorted.{IsNonDecreasingBy};
ghost use Rattle.dumpi_text.specs.Failing.{Fails};
ghost use Rattle.trace_know.specs.View.{View};
ghost use Rattle.trace_node.specs.Answer.{IsAnswer};
ghost use Rattle.trace_node.specs.ByRank.{IsOfRank};
ghost use Rattle.run_inputs.specs.Files.{NamesFailed};
ghost use Rattle.command_runs.specs.Ranks.{IsShare, TellNext, TellRank, TellRanks};
ghost use Rattle.command_runs.specs.Refusals.{RefusesFirst, RefusesPieces};
ghost use Rattle.command_runs.specs.Traces.{IsInside, IsKnown};

use crate::pieces::gatherer::Gathered;
use crate::pieces::knowing::{know_of, know_one_by_one};
use crate::pieces::rank_reads::{RankJobs, told_at};
use crate::pieces::reads::PieceJobs;
use crate::run::Run;
use dumpi_calls::Walked;
use run_files::Piece;
use run_inputs::{Opener, RunFault, SharedOpener, Watcher};
use side_by_side::{Results, results_of};
use std::alloc::Global;
use trace_know::{Knowledge, join_laws, view_laws};
use trace_node::{Answer, RankByRank, RankTold};

/// Whether the ranks of the pieces never fall: then all pieces of one rank stand together.
pub(crate) fn are_by_rank(pieces: &[Piece]) -> bool
    ensures { IsTrue result ↔ IsNonDecreasingBy (λ p. p.rank) pieces.now }
{
    let mut i = 1;
    while i < pieces.len() {
        if pieces[i].rank() < pieces[i - 1].rank() {
            return false;
        }
        i += 1;
    }
    true
}

/// Where the pieces of a rank end that begin at a place, if there are any.
pub(crate) fn end_of_rank(pieces: &[Piece], start: usize, rank: u32) -> usize
    requires { start ≤ length pieces.now }
    ensures bound { (start ≤ result) × (result ≤ length pieces.now) }
    ensures own { AllWithin (λ p. p.rank ≡ rank) pieces.now start result }
    ensures next { result < length pieces.now → HoldsAt (λ p. p.rank ≢ rank) pieces.now result }
{
    let mut end = start;
    while end < pieces.len() && pieces[end].rank() == rank {
        end += 1;
    }
    end
}

/// What the pieces of one rank tell together. One thread reads them.
fn known_of_rank<O: Opener, V: Watcher>(
    run: &Run<'_, O>,
    rank: u32,
    pieces: &[Piece],
    watcher: &V,
    buffer: &mut Vec<u8>,
    walked: &mut Vec<Walked>,
) -> Result<Knowledge, RunFault>
    requires rank { rank < run.now.layout.now.ranks }
    requires own { All (λ p. p.rank ≡ rank) pieces.now }
    ensures ok { IfOk result (IsKnown (O.file run.now.files.now) pieces.now) }
    ensures of { IfOk result (λ know. IsOfRank know rank) }
    ensures err { IfErr result (λ fault. (fault ≡ RunFault.Memory) ⊎ RefusesFirst (O.file run.now.files.now) pieces.now fault) }
    ensures failed { IfErr result (NamesFailed (Fails O.R.failures)) }
{
    view_laws();
    let nothing = Gathered::new(run.alloc, run.layout);
    let jobs = PieceJobs {
        alloc: run.alloc,
        pieces,
        files: run.files,
        watcher,
    };
    let mut reads = Results::one_by_one(run.alloc, &jobs);
    let gathered = know_of(run, pieces, &mut reads, buffer, walked, nothing)?;
    let know = gathered.know.into_knowledge()?;
    Ok(know)
}

/// What an answer needs of one rank, by its pieces. Its events aren't kept.
pub(crate) fn told_of_rank<O: Opener, V: Watcher>(
    run: &Run<'_, O>,
    rank: u32,
    pieces: &[Piece],
    watcher: &V,
    buffer: &mut Vec<u8>,
    walked: &mut Vec<Walked>,
) -> Result<RankTold, RunFault>
    requires rank { rank < run.now.layout.now.ranks }
    requires own { All (λ p. p.rank ≡ rank) pieces.now }
    ensures ok { IfOk result (TellRank (O.file run.now.files.now) run.now.layout.now pieces.now rank) }
    ensures err { IfErr result (λ fault. (fault ≡ RunFault.Memory) ⊎ RefusesFirst (O.file run.now.files.now) pieces.now fault) }
    ensures failed { IfErr result (NamesFailed (Fails O.R.failures)) }
{
    let know = known_of_rank(run, rank, pieces, watcher, buffer, walked)?;
    let told = RankTold::of(run.alloc, run.layout, rank, &know)?;
    Ok(told)
}

/// What was told of the ranks before, and what the pieces of the next rank tell, which stand between two places.
fn with_rank<O: Opener, V: Watcher>(
    ranks: &mut Results<'_, RankJobs<'_, '_, O, V>>,
    rank: u32,
    start: usize,
    end: usize,
    buffer: &mut Vec<u8>,
    told: RankByRank,
) -> Result<RankByRank, RunFault>
    requires rises { IsNonDecreasingBy (λ p. p.rank) ranks.old.pieces.now }
    requires rank { rank < ranks.old.run.now.layout.now.ranks }
    requires share { IsShare ranks.old.pieces.now rank start end }
    ensures ok { IfOk result (TellNext (O.file ranks.old.run.now.files.now) ranks.old.run.now.layout.now (slice_range ranks.old.pieces.now start end) rank told) }
    ensures err { IfErr result (λ fault. (fault ≡ RunFault.Memory) ⊎ RefusesFirst (O.file ranks.old.run.now.files.now) (slice_range ranks.old.pieces.now start end) fault) }
    ensures failed { IfErr result (NamesFailed (Fails O.R.failures)) }
    ensures same { ranks.new ≡ ranks.old }
{
    let one = told_at(ranks, rank, start, end, buffer)?;
    let more = told.taking(one)?;
    Ok(more)
}

/// What the pieces of the layout's ranks tell, and where these pieces end. Several threads read them.
fn told_of<O: SharedOpener, V: Watcher + Sync>(
    run: &Run<'_, O>,
    pieces: &[Piece],
    watcher: &V,
    buffer: &mut Vec<u8>,
) -> Result<(RankByRank, usize), RunFault>
where
    O::R: Send,
    requires { IsNonDecreasingBy (λ p. p.rank) pieces.now }
    ensures bound { IfOk result (λ told. told.1 ≤ length pieces.now) }
    ensures ok { IfOk result (λ told. TellRanks (O.file run.now.files.now) run.now.layout.now (take told.1 pieces.now) run.now.layout.now.ranks told.0) }
    ensures rest { IfOk result (λ told. AllWithin (λ p. run.now.layout.now.ranks ≤ p.rank) pieces.now told.1 (length pieces.now)) }
    ensures err { IfErr result (λ fault. (fault ≡ RunFault.Memory) ⊎ RefusesFirst (O.file run.now.files.now) pieces.now fault) }
    ensures failed { IfErr result (NamesFailed (Fails O.R.failures)) }
{
    view_laws();
    let jobs = RankJobs {
        run,
        pieces,
        watcher,
    };
    let mut ranks = results_of(run.files.handle(), run.alloc, run.files.threads(), &jobs)?;
    let mut told = RankByRank::new(run.alloc);
    let mut start = 0;
    for rank in 0..run.layout.ranks() {
        let end = end_of_rank(pieces, start, rank);
        told = with_rank(&mut ranks, rank, start, end, buffer, told)?;
        start = end;
    }
    Ok((told, start))
}

/// Reads pieces of ranks that the layout doesn't have: they may tell no call.
fn read_strangers<O: Opener, V: Watcher>(
    run: &Run<'_, O>,
    pieces: &[Piece],
    watcher: &V,
    buffer: &mut Vec<u8>,
) -> Result<(), RunFault>
    requires { All (λ p. run.now.layout.now.ranks ≤ p.rank) pieces.now }
    ensures ok { OnOk result (IsKnown (O.file run.now.files.now) pieces.now empty) }
    ensures inside { OnOk result (All (IsInside (O.file run.now.files.now) run.now.layout.now.ranks) pieces.now) }
    ensures err { IfErr result (RefusesPieces (O.file run.now.files.now) run.now.layout.now.ranks pieces.now) }
    ensures failed { IfErr result (NamesFailed (Fails O.R.failures)) }
{
    view_laws();
    join_laws();
    let nothing = Gathered::new(run.alloc, run.layout);
    let _others = know_one_by_one(run, pieces, watcher, buffer, nothing)?;
    Ok(())
}

/// The answer to what the pieces tell, whose ranks never fall.
pub(crate) fn answer_by_rank<O: SharedOpener, V: Watcher + Sync>(
    run: &Run<'_, O>,
    pieces: &[Piece],
    watcher: &V,
) -> Result<Answer, RunFault>
where
    O::R: Send,
    requires { IsNonDecreasingBy (λ p. p.rank) pieces.now }
    ensures ok { IfOk result (λ a. (view : View) × IsKnown (O.file run.now.files.now) pieces.now view × IsAnswer run.now.layout.now view a) }
    ensures inside { IfOk result (λ a. All (IsInside (O.file run.now.files.now) run.now.layout.now.ranks) pieces.now) }
    ensures err { IfErr result (RefusesPieces (O.file run.now.files.now) run.now.layout.now.ranks pieces.now) }
    ensures failed { IfErr result (NamesFailed (Fails O.R.failures)) }
{
    view_laws();
    join_laws();
    let mut buffer = Vec::new(run.alloc);
    let (told, end) = told_of(run, pieces, watcher, &mut buffer)?;
    read_strangers(run, &pieces[end..], watcher, &mut buffer)?;
    let answer = told.into_answer(run.alloc, run.layout)?;
    Ok(answer)
}
