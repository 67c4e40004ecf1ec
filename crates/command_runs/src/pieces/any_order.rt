//! The answer to what texts tell that are listed in any order, made rank by rank too: of copies of their pieces by
//! rising rank. Which fault is reported depends on the manifest's order, so if one is refused some are read once more.

ghost use Rattle.std.specs.Prelude.{◌≡◌, ◌⊎◌, IfErr, IfOk, IsPermutation, IsTrue, OnOk};
ghost use Rattle.std.specs.List.{All};
ghost use Rattle.std.specs.List.Sorted.{IsNonDecreasingBy, IsStableByKey};
ghost use Rattle.std.specs.Ordering.{nat_cmp};
ghost use Rattle.dumpi_text.specs.Failing.{Fails};
ghost use Rattle.trace_know.specs.View.{View};
ghost use Rattle.trace_node.specs.Answer.{IsAnswer};
ghost use Rattle.run_inputs.specs.Files.{NamesFailed};
ghost use Rattle.command_runs.specs.Refusals.{BlamesFile, RefusesFirst, RefusesInSomeOrder, RefusesOneOf, RefusesPieces};
ghost use Rattle.command_runs.specs.Traces.{IsInside, IsKnown};

use crate::pieces::by_rank::{answer_by_rank, are_by_rank};
use crate::pieces::knowing::with_stranger;
use crate::pieces::piece::piece_again;
use crate::run::Run;
use run_files::Piece;
use run_inputs::{Opener, RunFault, SharedOpener, Watcher};
use std::alloc::{AllocError, Global};
use trace_know::view_laws;
use trace_node::Answer;

/// Whether the texts can be read rank by rank: they are listed so, or each is of a file that can be read twice.
pub(crate) fn can_go_by_rank<O: Opener>(pieces: &[Piece], files: &O) -> bool {
    are_by_rank(pieces) || have_lengths(pieces, files)
}

/// Whether each file tells its length. A pipe doesn't, and can't be read twice.
pub(crate) fn have_lengths<O: Opener>(pieces: &[Piece], files: &O) -> bool {
    for piece in pieces {
        if files.length(piece.file()).is_none() {
            return false;
        }
    }
    true
}

/// Copies of the pieces by rising rank, those of one rank in their order.
fn sorted_by_rank(alloc: Global, pieces: &[Piece]) -> Result<Vec<Piece>, AllocError>
    ensures order { IfOk result (λ sorted. IsNonDecreasingBy (λ p. p.rank) sorted.items) }
    ensures same { IfOk result (λ sorted. IsPermutation pieces.now sorted.items) }
    ensures stable { IfOk result (λ sorted. IsStableByKey (λ p. p.rank) nat_cmp pieces.now sorted.items) }
{
    let mut sorted = pieces.to_vec(alloc)?;
    sorted.sort_by_key(|piece| piece.rank())?;
    Ok(sorted)
}

/// Whether the fault blames this file, and no call's place in it: then it refuses each piece of the file.
fn blames_file(fault: &RunFault, file: &str) -> bool
    ensures { IsTrue result → BlamesFile file.now fault.now }
{
    match fault {
        RunFault::File { path } => path.as_str() == file,
        RunFault::Text { path, .. } => path.as_str() == file,
        RunFault::Missing { path, .. } => path.as_str() == file,
        RunFault::Wrong { path, .. } => path.as_str() == file,
        _ => false,
    }
}

/// Whether the pieces before the first that this fault refuses are whole: else the first of those is refused. (Nobody
/// is shown again what is read here.)
fn look_for_refused<O: Opener>(
    alloc: Global,
    pieces: &[Piece],
    files: &O,
    fault: &RunFault,
) -> Result<(), RunFault>
    requires { RefusesOneOf (O.file files.now) pieces.now fault.now }
    ensures ok { OnOk result (RefusesFirst (O.file files.now) pieces.now fault.now) }
    ensures err { IfErr result (λ first. (first ≡ RunFault.Memory) ⊎ RefusesFirst (O.file files.now) pieces.now first) }
    ensures failed { IfErr result (NamesFailed (Fails O.R.failures)) }
{
    view_laws();
    let mut buffer = Vec::new(alloc);
    for piece in pieces {
        if blames_file(fault, piece.file()) {
            return Ok(());
        }
        let whole = piece_again(alloc, piece, files, &mut buffer)?;
        drop(whole);
    }
    Ok(())
}

/// Whether no piece tells a call of a rank that the layout doesn't have: else the first that does is refused.
fn look_for_strangers<O: Opener>(run: &Run<'_, O>, pieces: &[Piece]) -> Result<(), RunFault>
    requires { (view : View) × IsKnown (O.file run.now.files.now) pieces.now view }
    ensures ok { OnOk result (All (IsInside (O.file run.now.files.now) run.now.layout.now.ranks) pieces.now) }
    ensures err { IfErr result (RefusesPieces (O.file run.now.files.now) run.now.layout.now.ranks pieces.now) }
    ensures failed { IfErr result (NamesFailed (Fails O.R.failures)) }
{
    let mut buffer = Vec::new(run.alloc);
    for piece in pieces {
        if piece.rank() < run.layout.ranks() {
            continue;
        }
        let whole = piece_again(run.alloc, piece, run.files, &mut buffer)?;
        if let Some(path) = with_stranger(run.alloc, None, run.layout, piece, &whole)? {
            return Err(RunFault::Rank { path });
        }
    }
    Ok(())
}

/// Why pieces are refused that this fault refuses in another order: the first of their own. Where a device failed once,
/// it is this fault.
fn fault_in_order<O: Opener>(run: &Run<'_, O>, pieces: &[Piece], fault: RunFault) -> RunFault
    requires refused { RefusesInSomeOrder (O.file run.now.files.now) run.now.layout.now.ranks pieces.now fault }
    requires failed { NamesFailed (Fails O.R.failures) fault }
    ensures err { RefusesPieces (O.file run.now.files.now) run.now.layout.now.ranks pieces.now result }
    ensures failed { NamesFailed (Fails O.R.failures) result }
{
    view_laws();
    match fault {
        RunFault::Memory => RunFault::Memory,
        RunFault::Rank { path } => match look_for_strangers(run, pieces) {
            Ok(()) => RunFault::Rank { path },
            Err(first) => first,
        },
        fault => match look_for_refused(run.alloc, pieces, run.files, &fault) {
            Ok(()) => fault,
            Err(first) => first,
        },
    }
}

/// The answer to what the pieces tell.
pub(crate) fn answer_in_any_order<O: SharedOpener, V: Watcher + Sync>(
    run: &Run<'_, O>,
    pieces: &[Piece],
    watcher: &V,
) -> Result<Answer, RunFault>
where
    O::R: Send,
    ensures ok { IfOk result (λ a. (view : View) × IsKnown (O.file run.now.files.now) pieces.now view × IsAnswer run.now.layout.now view a) }
    ensures inside { IfOk result (λ a. All (IsInside (O.file run.now.files.now) run.now.layout.now.ranks) pieces.now) }
    ensures err { IfErr result (RefusesPieces (O.file run.now.files.now) run.now.layout.now.ranks pieces.now) }
    ensures failed { IfErr result (NamesFailed (Fails O.R.failures)) }
{
    view_laws();
    if are_by_rank(pieces) {
        return answer_by_rank(run, pieces, watcher);
    }
    let sorted = sorted_by_rank(run.alloc, pieces)?;
    match answer_by_rank(run, &sorted, watcher) {
        Ok(answer) => Ok(answer),
        Err(fault) => Err(fault_in_order(run, pieces, fault)),
    }
}
