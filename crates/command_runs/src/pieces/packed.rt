//! What the packed files of a manifest tell together.

ghost use Rattle.std.specs.Prelude.{◌≡◌, IfErr, IfOk};
ghost use Rattle.dumpi_text.specs.Failing.{Fails};
ghost use Rattle.trace_know.specs.View.{join};
ghost use Rattle.trace_node.specs.Node.{IsWithin};
ghost use Rattle.trace_wire.specs.Packed.{IsOfRanks, Unpacks};
ghost use Rattle.run_inputs.specs.Files.{NamesFailed};
ghost use Rattle.command_runs.specs.Packed.{IsFrameFault, RefusesPacked, RefusesPackedFile, TellPacked};

use crate::run::Run;
use mpi_model::Layout;
use run_files::PackedPiece;
use run_inputs::{Opener, RunFault, opened};
use std::alloc::{AllocError, Global};
use trace_know::{Knowledge, join_laws};
use trace_wire::{Joining, PackedCause, PackedFault, WireFault, read_frames};

/// The fault of a run whose packed file has a refused frame.
fn refusal(alloc: Global, path: &str, fault: PackedFault) -> Result<RunFault, AllocError>
    ensures { IfOk result (IsFrameFault path.now fault) }
{
    let PackedFault { frame, cause } = fault;
    match cause {
        PackedCause::Wire(WireFault::Memory) => Ok(RunFault::Memory),
        _ => Ok(RunFault::PackedFrame {
            cause,
            path: path.to_string(alloc)?,
            frame,
        }),
    }
}

/// What the frames of a file tell, all of ranks of the layout.
pub(crate) fn packed_at<O: Opener>(run: &Run<'_, O>, path: &str) -> Result<Knowledge, RunFault>
    ensures ok { IfOk result (λ know. Unpacks run.now.layout.now.ranks (O.file run.now.files.now path.now) know) }
    ensures of { IfOk result (λ know. IsOfRanks run.now.layout.now.ranks know) }
    ensures err { IfErr result (RefusesPackedFile path.now run.now.layout.now.ranks (O.file run.now.files.now path.now)) }
{
    let mut reader = opened(run.alloc, path, run.files)?;
    match read_frames(run.alloc, &mut reader, run.layout.ranks()) {
        Ok(know) => Ok(know),
        Err(fault) => Err(refusal(run.alloc, path, fault)?),
    }
}

/// What the packed files tell together, each read frame by frame and all of ranks of the layout.
pub(crate) fn packed_of<O: Opener>(
    run: &Run<'_, O>,
    packed: &[PackedPiece],
) -> Result<Knowledge, RunFault>
    ensures ok { IfOk result (λ know. TellPacked (O.file run.now.files.now) run.now.layout.now.ranks packed.now know) }
    ensures within { IfOk result (λ know. IsWithin run.now.layout.now know) }
    ensures err { IfErr result (RefusesPacked (O.file run.now.files.now) run.now.layout.now.ranks packed.now) }
    ensures failed { IfErr result (NamesFailed (Fails O.R.failures)) }
{
    join_laws();
    let mut all = Joining::new(run.alloc);
    for piece in packed {
        let know = packed_at(run, piece.file())?;
        all = all.taking(know)?;
    }
    Ok(all.into_knowledge()?)
}

/// The first with what the other tells too.
fn with(more: Knowledge, fewer: Knowledge) -> Result<Knowledge, AllocError>
    ensures { IfOk result (λ know. know ≡ join more fewer) }
{
    let mut all = more;
    all.join(&fewer)?;
    Ok(all)
}

/// What packed files and texts tell, of ranks of the layout. What has fewer places is joined into the other.
pub(crate) fn joined(
    layout: &Layout,
    packed: Knowledge,
    texts: Knowledge,
) -> Result<Knowledge, AllocError>
    requires packed { IsWithin layout.now packed }
    requires texts { IsWithin layout.now texts }
    ensures know { IfOk result (λ know. know ≡ join packed texts) }
    ensures within { IfOk result (λ know. IsWithin layout.now know) }
{
    join_laws();
    let _ = layout;
    let (few, many) = (packed.count(), texts.count());
    if few < many {
        let swapped = with(texts, packed)?;
        return Ok(swapped);
    }
    let all = with(packed, texts)?;
    Ok(all)
}
