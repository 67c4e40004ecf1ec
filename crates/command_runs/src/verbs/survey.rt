//! What all ranks did, once the answer is made, for the verbs that print every call: the pieces are read a second time,
//! rank by rank, so no more than one rank's events are kept.

ghost use Rattle.std.specs.Prelude.{◌+◌, IfErr, IfOk, OnOk};
ghost use Rattle.dumpi_text.specs.Failing.{Fails};
ghost use Rattle.run_inputs.specs.Files.{NamesFailed};
ghost use Rattle.command_runs.specs.Nodes.{AnswersAll};
ghost use Rattle.command_runs.specs.Refusals.{RefusesNamed};
ghost use Rattle.command_runs.specs.Tables.{HoldsRanks, RefusesAgain};

use crate::pieces::answering::answer_of;
use crate::pieces::any_order::have_lengths;
use crate::pieces::gatherer::Gathered;
use crate::pieces::knowing::take_whole;
use crate::pieces::known::known_of;
use crate::pieces::piece::piece_again;
use crate::run::Run;
use call_table::RankTexts;
use mpi_model::Layout;
use run_files::Piece;
use run_inputs::{Opener, RunFault, SharedOpener, Watcher, reopened};
use std::alloc::{AllocError, Global};
use trace_know::Knowledge;
use trace_node::{Answer, RankByRank};
use trace_ops::{RankOps, ops_laws, ops_of};

/// Where the events of a rank come from once the answer is made.
#[derive(Drop)]
pub(crate) enum Events {
    /// All that is known is kept, since a piece is packed or comes by a pipe, and can't be read for one rank alone.
    Kept(Knowledge),
    /// The pieces of the rank are read once more.
    Pieces,
}

/// The answer to all that the pieces tell, and where the events of each rank come from then.
#[derive(Drop)]
pub(crate) struct Survey {
    pub answer: Answer,
    pub events: Events,
}

/// The answer to all that the pieces tell.
pub(crate) fn answered<O: SharedOpener, V: Watcher + Sync>(
    run: &Run<'_, O>,
    watcher: &mut V,
) -> Result<Survey, RunFault>
where
    O::R: Send,
    ensures ok { IfOk result (λ told. AnswersAll (O.file run.now.files.now) run.now.layout.now run.now.manifest.now told.answer) }
    ensures err { IfErr result (RefusesNamed (O.file run.now.files.now) run.now.layout.now.ranks run.now.manifest.now) }
    ensures failed { IfErr result (NamesFailed (Fails O.R.failures)) }
{
    if run.manifest.packed().is_empty() && have_lengths(run.manifest.pieces(), run.files) {
        let answer = answer_of(run, watcher)?;
        return Ok(Survey {
            answer,
            events: Events::Pieces,
        });
    }
    let know = known_of(run, watcher)?;
    let told = RankByRank::of_all(run.alloc, run.layout, &know)?;
    let answer = told.into_answer(run.alloc, run.layout)?;
    Ok(Survey {
        answer,
        events: Events::Kept(know),
    })
}

/// What these pieces tell of a rank, which were read before.
fn known_of_rank<O: Opener>(
    run: &Run<'_, O>,
    pieces: &[Piece],
    rank: u32,
    buffer: &mut Vec<u8>,
) -> Result<Knowledge, RunFault>
    ensures err { IfErr result (RefusesAgain (O.file run.now.files.now) pieces.now) }
    ensures failed { IfErr result (NamesFailed (Fails O.R.failures)) }
{
    let mut gathered = Gathered::new(run.alloc, run.layout);
    for piece in pieces {
        if piece.rank() != rank {
            continue;
        }
        let whole = piece_again(run.alloc, piece, run.files, buffer)?;
        gathered = take_whole(gathered, whole)?;
    }
    let know = gathered.know.into_knowledge()?;
    Ok(know)
}

/// What the pieces of a rank tell, which are read once more; nothing where all that is known is kept.
pub(crate) fn read_again<O: Opener>(
    run: &Run<'_, O>,
    events: &Events,
    rank: u32,
    buffer: &mut Vec<u8>,
) -> Result<Knowledge, RunFault>
    ensures err { IfErr result (RefusesAgain (O.file run.now.files.now) run.now.manifest.now.pieces) }
    ensures failed { IfErr result (NamesFailed (Fails O.R.failures)) }
{
    match events {
        Events::Kept(_) => Ok(Knowledge::new(run.alloc)),
        Events::Pieces => known_of_rank(run, run.manifest.pieces(), rank, buffer),
    }
}

/// What is known of a rank: all that is kept, or what was read once more.
pub(crate) fn known_in<'a>(events: &'a Events, own: &'a Knowledge) -> &'a Knowledge {
    match events {
        Events::Kept(know) => know,
        Events::Pieces => own,
    }
}

/// With what the texts of a rank say of its calls: nothing where a text can't be looked at.
fn with_texts<O: Opener>(
    run: &Run<'_, O>,
    rank: u32,
    texts: RankTexts,
) -> Result<RankTexts, AllocError> {
    let mut texts = texts;
    for piece in run.manifest.pieces() {
        if piece.rank() == rank {
            if let Some(reader) = reopened(piece.file(), run.files) {
                texts = texts.reading(run.alloc, reader, piece.first())?;
            }
        }
    }
    Ok(texts)
}

/// What the texts of a rank say of so many calls.
pub(crate) fn texts_of_rank<O: Opener>(
    run: &Run<'_, O>,
    rank: u32,
    calls: u64,
) -> Result<RankTexts, AllocError> {
    let texts = RankTexts::new(run.alloc, calls)?;
    with_texts(run, rank, texts)
}

/// What the statuses in the texts of a rank tell of so many calls.
pub(crate) fn statuses_of_rank<O: Opener>(
    run: &Run<'_, O>,
    rank: u32,
    calls: u64,
) -> Result<RankTexts, AllocError> {
    let texts = RankTexts::of_statuses(run.alloc, calls)?;
    with_texts(run, rank, texts)
}

/// What the next rank did, behind what those before it did.
pub(crate) fn push_own(
    alloc: Global,
    layout: &Layout,
    know: &Knowledge,
    rank: u32,
    ops: &mut Vec<RankOps>,
) -> Result<(), AllocError>
    requires { HoldsRanks rank ops.old.items }
    ensures { OnOk result (HoldsRanks (rank + 1) ops.new.items) }
{
    ops_laws();
    let own = ops_of(alloc, layout, know, rank)?;
    ops.push(own)?;
    Ok(())
}
