//! What the pieces of a run tell together.

ghost use Rattle.std.specs.Prelude.{◌≡◌, ◌≢◌, [], IfErr, IfOk, false, true};
ghost use Rattle.std.specs.FinMap.{empty};
ghost use Rattle.std.specs.List.{All};
ghost use Rattle.dumpi_text.specs.Failing.{Fails};
ghost use Rattle.run_inputs.specs.Files.{NamesFailed};
ghost use Rattle.command_runs.specs.Pieces.{facts_of_piece};
ghost use Rattle.command_runs.specs.Refusals.{RefusesPieces};
ghost use Rattle.command_runs.specs.Traces.{IsInside, IsKnown, KeepsFirst};
ghost use Rattle.trace_know.specs.Trace.{view_of};
ghost use Rattle.trace_know.specs.View.{join};
ghost use Rattle.trace_node.specs.Node.{IsWithin};

use crate::pieces::gatherer::Gatherer;
use crate::pieces::reads::{PieceJobs, whole_at};
use crate::run::Run;
use dumpi_calls::Walked;
use mpi_model::Layout;
use run_files::Piece;
use run_inputs::{Opener, RunFault, SharedOpener, Watcher, tell_walked};
use side_by_side::{Results, results_of};
use std::alloc::{AllocError, Global};
use trace_know::{ReadyPiece, join_laws, view_laws};

/// What the pieces of a run of this layout say together, collected by `gatherer`. Several threads read them. The watcher is
/// told how their texts were walked.
pub(crate) fn know_side_by_side<G: Gatherer, O: SharedOpener, V: Watcher + Sync>(
    run: &Run<'_, O>,
    pieces: &[Piece],
    watcher: &V,
    gatherer: G,
) -> Result<G, RunFault>
where
    O::R: Send,
    requires { G.known gatherer ≡ empty }
    ensures ok { IfOk result (λ g. IsKnown (O.file run.now.files.now) pieces.now (G.known g)) }
    ensures inside { IfOk result (λ g. All (IsInside (O.file run.now.files.now) run.now.layout.now.ranks) pieces.now) }
    ensures within { IfOk result (λ g. IsWithin run.now.layout.now (G.known g)) }
    ensures layout { IfOk result (λ g. G.layout g ≡ G.layout gatherer) }
    ensures err { IfErr result (RefusesPieces (O.file run.now.files.now) run.now.layout.now.ranks pieces.now) }
    ensures failed { IfErr result (NamesFailed (Fails O.R.failures)) }
{
    let jobs = PieceJobs {
        alloc: run.alloc,
        pieces,
        files: run.files,
        watcher,
    };
    let mut reads = results_of(run.files.handle(), run.alloc, run.files.threads(), &jobs)?;
    let mut buffer = Vec::new(run.alloc);
    let mut walked = Vec::new(run.alloc);
    let know = know_of(run, pieces, &mut reads, &mut buffer, &mut walked, gatherer);
    tell_walked(pieces, &walked, watcher);
    know
}

/// The same where this thread reads them. The buffer is one for all texts.
pub(crate) fn know_one_by_one<G: Gatherer, O: Opener, V: Watcher>(
    run: &Run<'_, O>,
    pieces: &[Piece],
    watcher: &V,
    buffer: &mut Vec<u8>,
    gatherer: G,
) -> Result<G, RunFault>
    requires { G.known gatherer ≡ empty }
    ensures ok { IfOk result (λ g. IsKnown (O.file run.now.files.now) pieces.now (G.known g)) }
    ensures inside { IfOk result (λ g. All (IsInside (O.file run.now.files.now) run.now.layout.now.ranks) pieces.now) }
    ensures within { IfOk result (λ g. IsWithin run.now.layout.now (G.known g)) }
    ensures layout { IfOk result (λ g. G.layout g ≡ G.layout gatherer) }
    ensures err { IfErr result (RefusesPieces (O.file run.now.files.now) run.now.layout.now.ranks pieces.now) }
    ensures failed { IfErr result (NamesFailed (Fails O.R.failures)) }
{
    let jobs = PieceJobs {
        alloc: run.alloc,
        pieces,
        files: run.files,
        watcher,
    };
    let mut reads = Results::one_by_one(run.alloc, &jobs);
    let mut walked = Vec::new(run.alloc);
    let know = know_of(run, pieces, &mut reads, buffer, &mut walked, gatherer);
    tell_walked(pieces, &walked, watcher);
    know
}

/// What the pieces of a run of this layout say together, collected by `gatherer`, by what was read of them. All of them
/// are read before a piece is refused for its rank. The buffer is one for all texts that are read now; how texts were
/// walked is kept for who watches.
pub(crate) fn know_of<G: Gatherer, O: Opener, V: Watcher>(
    run: &Run<'_, O>,
    pieces: &[Piece],
    reads: &mut Results<'_, PieceJobs<'_, O, V>>,
    buffer: &mut Vec<u8>,
    walked: &mut Vec<Walked>,
    gatherer: G,
) -> Result<G, RunFault>
    requires known { G.known gatherer ≡ empty }
    requires listed { reads.old.pieces.now ≡ pieces.now }
    requires files { reads.old.files.now ≡ run.now.files.now }
    ensures ok { IfOk result (λ g. IsKnown (O.file run.now.files.now) pieces.now (G.known g)) }
    ensures inside { IfOk result (λ g. All (IsInside (O.file run.now.files.now) run.now.layout.now.ranks) pieces.now) }
    ensures within { IfOk result (λ g. IsWithin run.now.layout.now (G.known g)) }
    ensures layout { IfOk result (λ g. G.layout g ≡ G.layout gatherer) }
    ensures err { IfErr result (RefusesPieces (O.file run.now.files.now) run.now.layout.now.ranks pieces.now) }
    ensures failed { IfErr result (NamesFailed (Fails O.R.failures)) }
{
    join_laws();
    view_laws();
    let mut know = gatherer;
    let mut stranger = None;
    let mut place = 0;
    for piece in pieces {
        let whole = whole_at(reads, place, buffer, walked)?;
        place += 1;
        stranger = with_stranger(run.alloc, stranger, run.layout, piece, &whole)?;
        know = take_whole(know, whole)?;
    }
    match stranger {
        Some(path) => Err(RunFault::Rank { path }),
        None => Ok(know),
    }
}

/// The file of the first piece that has calls of a rank outside the layout.
pub(crate) fn with_stranger(
    alloc: Global,
    stranger: Option<String>,
    layout: &Layout,
    piece: &Piece,
    whole: &Option<ReadyPiece>,
) -> Result<Option<String>, AllocError>
    ensures { IfOk result (KeepsFirst layout.now.ranks piece.now (facts_of_piece whole.now) stranger) }
{
    if let Some(path) = stranger {
        return Ok(Some(path));
    }
    if piece.rank() < layout.ranks() || !has_calls(whole) {
        return Ok(None);
    }
    Ok(Some(piece.file().to_string(alloc)?))
}

/// Whether a piece tells anything: each that there is has an event.
fn has_calls(whole: &Option<ReadyPiece>) -> bool
    ensures some { result ≡ true → facts_of_piece whole.now ≢ [] }
    ensures none { result ≡ false → facts_of_piece whole.now ≡ [] }
{
    match whole {
        Some(piece) => {
            piece.known();
            true
        }
        None => false,
    }
}

/// Takes a piece that is not needed any more, with its events.
pub(crate) fn take_whole<G: Gatherer>(
    gatherer: G,
    whole: Option<ReadyPiece>,
) -> Result<G, AllocError>
    ensures known { IfOk result (λ g. G.known g ≡ join (G.known gatherer) (view_of (facts_of_piece whole))) }
    ensures layout { IfOk result (λ g. G.layout g ≡ G.layout gatherer) }
{
    join_laws();
    match whole {
        Some(piece) => gatherer.reading(piece),
        None => Ok(gatherer),
    }
}
