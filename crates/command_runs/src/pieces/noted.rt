//! The pieces of a run, read with notes of their texts.

ghost use Rattle.std.specs.Prelude.{◌≡◌, IfErr, IfOk};
ghost use Rattle.std.specs.FinMap.{empty};
ghost use Rattle.std.specs.List.{All};
ghost use Rattle.dumpi_text.specs.Failing.{Fails};
ghost use Rattle.trace_node.specs.Node.{IsWithin};
ghost use Rattle.run_inputs.specs.FileNames.{shown_name};
ghost use Rattle.run_inputs.specs.Files.{NamesFailed};
ghost use Rattle.command_runs.specs.Notes.{AreNotesOf, IsNoteOf};
ghost use Rattle.run_inputs.specs.Starts.{BeginsSo};
ghost use Rattle.command_runs.specs.Pieces.{AreFactsOf, RefusesPiece, facts_of_piece};
ghost use Rattle.command_runs.specs.Refusals.{RefusesPieces};
ghost use Rattle.command_runs.specs.Traces.{IsInside, IsKnown};

use crate::pieces::gatherer::Gatherer;
use crate::pieces::knowing::{take_whole, with_stranger};
use crate::pieces::noted_reads::{NotedJobs, noted_at};
use crate::run::Run;
use dumpi_calls::{Walked, walk_with_buffer, whole_texts};
use run_files::Piece;
use run_inputs::{
    FileName, Opener, RunFault, SharedOpener, Watched, Watcher, announce, fault_of_walk, opened,
    start_at,
};
use side_by_side::results_of;
use std::alloc::{AllocError, Global};
use text_notes::{Noting, Start, TextNote, noted_texts};
use trace_know::{ReadyPiece, SegmentFault, join_laws, view_laws};

/// A piece that was read, with a note of its text, and how the text was walked.
#[derive(Drop)]
pub(crate) struct NotedPiece {
    pub(crate) whole: Option<ReadyPiece>,
    pub(crate) note: TextNote,
    pub(crate) walked: Walked,
}

/// A file's name as a line shows it.
fn shown(alloc: Global, path: &str) -> Result<Vec<u8>, AllocError>
    ensures { IfOk result (λ name. name.items ≡ shown_name path.now) }
{
    let text = format!(in alloc; "{}", FileName::new(path))?;
    Vec::from_slice(alloc, text.as_str().as_bytes())
}

/// What a text of so many calls is taken for: one without a call is looked at again.
fn start_where<O: Opener>(calls: u64, path: &str, files: &O) -> Option<Start>
    ensures told { BeginsSo (O.file files.now path.now) result }
{
    if calls > 0 {
        return None;
    }
    start_at(path, files)
}

/// The events of a piece whole, none of a text without calls, and what is noted of its text. The buffer is one for all
/// pieces.
#[tactic(auto, using(crate::proofs::Opening::piece_unopened, crate::proofs::Opening::unopened_untold, crate::proofs::Told::walked_places_told, crate::proofs::Told::walk_told, crate::proofs::Notes::notes_told))]
pub(crate) fn noted_piece<O: Opener, V: Watcher>(
    alloc: Global,
    piece: &Piece,
    files: &O,
    watcher: &V,
    buffer: &mut Vec<u8>,
) -> Result<NotedPiece, RunFault>
    ensures ok { IfOk result (λ read. AreFactsOf (O.file files.now) piece.now (facts_of_piece read.whole)) }
    ensures note { IfOk result (λ read. IsNoteOf (O.file files.now) piece.now read.note) }
    ensures err { IfErr result (RefusesPiece piece.now.file piece.now.first (O.file files.now piece.now.file)) }
    ensures failed { IfErr result (NamesFailed (Fails O.R.failures)) }
{
    whole_texts();
    noted_texts();
    let path = piece.file();
    let reader = opened(alloc, path, files)?;
    let mut noting = Noting::new(alloc);
    let watched = Watched::new(reader, watcher);
    let walked = match walk_with_buffer(alloc, watched, &mut noting, buffer) {
        Ok(walked) => walked,
        Err(fault) => return Err(fault_of_walk(alloc, path, fault)?),
    };
    watcher.has_ended();
    let (collect, unread) = noting.into_parts();
    let whole = match collect.into_piece(piece.rank(), piece.first()) {
        Ok(whole) => whole,
        Err(SegmentFault::Place) => {
            return Err(RunFault::Place {
                path: path.to_string(alloc)?,
            });
        }
        Err(_) => return Err(RunFault::Memory),
    };
    let start = start_where(walked.calls, path, files);
    let note = TextNote::new(
        (piece.rank(), piece.first()),
        path.to_string(alloc)?,
        shown(alloc, path)?,
        walked,
        unread,
        start,
    );
    Ok(NotedPiece {
        whole,
        note,
        walked,
    })
}

/// What the pieces tell together, as [`know_of`](crate::pieces::knowing::know_of) gathers it, and what is noted of
/// their texts, in the order of the pieces. Several threads read them.
pub(crate) fn noted_of<G: Gatherer, O: SharedOpener, V: Watcher + Sync>(
    run: &Run<'_, O>,
    pieces: &[Piece],
    watcher: &mut V,
    gatherer: G,
) -> Result<(G, Vec<TextNote>), RunFault>
where
    O::R: Send,
    requires { G.known gatherer ≡ empty }
    ensures ok { IfOk result (λ read. IsKnown (O.file run.now.files.now) pieces.now (G.known read.0)) }
    ensures notes { IfOk result (λ read. AreNotesOf (O.file run.now.files.now) pieces.now read.1.items) }
    ensures inside { IfOk result (λ read. All (IsInside (O.file run.now.files.now) run.now.layout.now.ranks) pieces.now) }
    ensures within { IfOk result (λ read. IsWithin run.now.layout.now (G.known read.0)) }
    ensures layout { IfOk result (λ read. G.layout read.0 ≡ G.layout gatherer) }
    ensures err { IfErr result (RefusesPieces (O.file run.now.files.now) run.now.layout.now.ranks pieces.now) }
    ensures failed { IfErr result (NamesFailed (Fails O.R.failures)) }
{
    join_laws();
    view_laws();
    announce(pieces, run.files, watcher);
    let jobs = NotedJobs {
        alloc: run.alloc,
        pieces,
        files: run.files,
        watcher: &*watcher,
    };
    let mut reads = results_of(run.files.handle(), run.alloc, run.files.threads(), &jobs)?;
    let mut know = gatherer;
    let mut buffer = Vec::new(run.alloc);
    let mut notes = Vec::new(run.alloc);
    let mut stranger = None;
    let mut place = 0;
    for piece in pieces {
        let read = noted_at(&mut reads, place, &mut buffer)?;
        place += 1;
        let NotedPiece { whole, note, .. } = read;
        stranger = with_stranger(run.alloc, stranger, run.layout, piece, &whole)?;
        know = take_whole(know, whole)?;
        notes.push(note)?;
    }
    match stranger {
        Some(path) => Err(RunFault::Rank { path }),
        None => Ok((know, notes)),
    }
}
