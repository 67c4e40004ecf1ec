//! The events of a piece's text: whole, or as segments, cut after each 65,536.

ghost use Rattle.std.specs.Prelude.{IfErr, IfOk, ◌≡◌};
ghost use Rattle.dumpi_calls.specs.Whole.{TellsEvents};
ghost use Rattle.dumpi_text.specs.Failing.{Fails};
ghost use Rattle.run_inputs.specs.Files.{NamesFailed};
ghost use Rattle.command_runs.specs.Pieces.{AreFactsOf, AreSegmentsOf, RefusesPiece, facts_of_piece};
ghost use Rattle.trace_know.specs.Trace.{facts_of_all};

use dumpi_calls::{Collect, Walked, walk_with_buffer, whole_segments, whole_texts};
use run_files::Piece;
use run_inputs::{Opener, RunFault, Unwatched, Watched, Watcher, fault_of_walk, opened};
use std::alloc::Global;
use trace_know::{ReadyPiece, ReadySegment, SegmentFault};

/// A piece that was read whole, and how its text was walked.
#[derive(Drop)]
pub(crate) struct PieceRead {
    /// Its events, ready to be joined; `None` of a text without calls.
    pub(crate) whole: Option<ReadyPiece>,
    pub(crate) walked: Walked,
}

/// A piece that was read as segments, and how its text was walked.
#[derive(Drop)]
pub(crate) struct SegmentsRead {
    /// Its events, cut after each 65,536.
    pub(crate) segments: Vec<ReadySegment>,
    pub(crate) walked: Walked,
}

/// The events of a piece's text, which is read to its end, and how it was walked. The buffer is one for all pieces.
#[tactic(auto, using(crate::proofs::Opening::piece_unopened, crate::proofs::Opening::unopened_untold, crate::proofs::Told::events_told, crate::proofs::Told::walk_told))]
fn events_of<O: Opener, V: Watcher>(
    alloc: Global,
    piece: &Piece,
    files: &O,
    watcher: &V,
    buffer: &mut Vec<u8>,
) -> Result<(Collect, Walked), RunFault>
    ensures ok { IfOk result (λ read. TellsEvents (O.file files.now piece.now.file) read.0) }
    ensures err { IfErr result (RefusesPiece piece.now.file piece.now.first (O.file files.now piece.now.file)) }
    ensures failed { IfErr result (NamesFailed (Fails O.R.failures)) }
{
    whole_texts();
    let path = piece.file();
    let reader = opened(alloc, path, files)?;
    let mut collect = Collect::for_text(alloc, files.length(path).unwrap_or(0));
    let watched = Watched::new(reader, watcher);
    let walked = match walk_with_buffer(alloc, watched, &mut collect, buffer) {
        Ok(walked) => walked,
        Err(fault) => return Err(fault_of_walk(alloc, path, fault)?),
    };
    watcher.has_ended();
    Ok((collect, walked))
}

/// The events of a piece whole, ready to be joined, none of a text without calls. The buffer is one for all pieces.
/// [`RunFault`] comes where the file can't be read, its text is refused or memory is.
#[tactic(auto, using(crate::proofs::Told::piece_told, crate::proofs::Told::places_told))]
pub(crate) fn ready_piece_of<O: Opener, V: Watcher>(
    alloc: Global,
    piece: &Piece,
    files: &O,
    watcher: &V,
    buffer: &mut Vec<u8>,
) -> Result<PieceRead, RunFault>
    ensures ok { IfOk result (λ read. AreFactsOf (O.file files.now) piece.now (facts_of_piece read.whole)) }
    ensures err { IfErr result (RefusesPiece piece.now.file piece.now.first (O.file files.now piece.now.file)) }
    ensures failed { IfErr result (NamesFailed (Fails O.R.failures)) }
{
    let (events, walked) = events_of(alloc, piece, files, watcher, buffer)?;
    match events.into_piece(piece.rank(), piece.first()) {
        Ok(whole) => Ok(PieceRead { whole, walked }),
        Err(SegmentFault::Place) => Err(RunFault::Place {
            path: piece.file().to_string(alloc)?,
        }),
        Err(_) => Err(RunFault::Memory),
    }
}

/// The same of a piece that nobody watches: it was read before.
pub(crate) fn piece_again<O: Opener>(
    alloc: Global,
    piece: &Piece,
    files: &O,
    buffer: &mut Vec<u8>,
) -> Result<Option<ReadyPiece>, RunFault>
    ensures ok { IfOk result (λ whole. AreFactsOf (O.file files.now) piece.now (facts_of_piece whole)) }
    ensures err { IfErr result (RefusesPiece piece.now.file piece.now.first (O.file files.now piece.now.file)) }
    ensures failed { IfErr result (NamesFailed (Fails O.R.failures)) }
{
    let read = ready_piece_of(alloc, piece, files, &Unwatched, buffer)?;
    Ok(read.whole)
}

/// The segments of a piece, ready to be joined, none of a text without calls: its events, cut after each 65,536. The
/// buffer is one for all pieces. [`RunFault`] comes where the file can't be read, its text is refused or memory is.
#[tactic(auto, using(crate::proofs::Told::facts_told, crate::proofs::Told::segments_told, crate::proofs::Told::places_told))]
pub(crate) fn segments_of<O: Opener, V: Watcher>(
    alloc: Global,
    piece: &Piece,
    files: &O,
    watcher: &V,
    buffer: &mut Vec<u8>,
) -> Result<SegmentsRead, RunFault>
    ensures ok { IfOk result (λ read. AreFactsOf (O.file files.now) piece.now (facts_of_all read.segments.items)) }
    ensures segments { IfOk result (λ read. AreSegmentsOf (O.file files.now) piece.now read.segments.items) }
    ensures err { IfErr result (RefusesPiece piece.now.file piece.now.first (O.file files.now piece.now.file)) }
    ensures failed { IfErr result (NamesFailed (Fails O.R.failures)) }
{
    whole_segments();
    let (events, walked) = events_of(alloc, piece, files, watcher, buffer)?;
    match events.into_ready(piece.rank(), piece.first()) {
        Ok(segments) => Ok(SegmentsRead { segments, walked }),
        Err(SegmentFault::Place) => Err(RunFault::Place {
            path: piece.file().to_string(alloc)?,
        }),
        Err(_) => Err(RunFault::Memory),
    }
}
