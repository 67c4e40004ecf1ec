//! What the pieces of a manifest tell, as frames.

ghost use Rattle.std.specs.Prelude.{IfErr, OnOk};
ghost use Rattle.dumpi_text.specs.Failing.{Fails};
ghost use Rattle.trace_wire.specs.Packed.{IsPacked};
ghost use Rattle.run_inputs.specs.Files.{NamesFailed};
ghost use Rattle.command_runs.specs.Packs.{IsUnwritten};
ghost use Rattle.command_runs.specs.Verbs.{Ran};
ghost use Rattle.run_inputs.specs.Writing.{Writes};

use crate::pieces::known::known_of;
use crate::run::{Outcome, Run};
use command_line::Verb;
use mpi_model::Write;
use run_inputs::{RunFault, SharedOpener, Watcher};
use std::alloc::Global;
use trace_know::Knowledge;
use trace_wire::{WireFault, write_frames};

/// Writes what the pieces tell as frames, which [`read_frames`](trace_wire::read_frames) gives back.
pub fn pack<O: SharedOpener, V: Watcher + Sync, W: Write>(
    run: &Run<'_, O>,
    watcher: &mut V,
    out: &mut W,
) -> Result<Outcome, RunFault>
where
    O::R: Send,
    ensures ran { Ran (O.file run.now.files.now) Verb.Pack run.now.layout.now run.now.manifest.now result W.written W.failures out.old out.new }
    ensures failed { IfErr result (NamesFailed (Fails O.R.failures)) }
{
    let know = known_of(run, watcher)?;
    write_known(run.alloc, &know, out)?;
    Ok(Outcome::Good)
}

/// Writes what is known as frames.
fn write_known<W: Write>(alloc: Global, know: &Knowledge, out: &mut W) -> Result<(), RunFault>
    ensures ok { OnOk result (Writes (IsPacked know.now) (W.written out.old) (W.written out.new)) }
    ensures err { IfErr result (IsUnwritten know.now W.written W.failures out.old out.new) }
{
    match write_frames(alloc, know, out) {
        Ok(()) => Ok(()),
        Err(WireFault::Memory) => Err(RunFault::Memory),
        Err(WireFault::Write) => Err(RunFault::Write),
        Err(WireFault::Length) => Err(RunFault::Frame {
            fault: WireFault::Length,
        }),
        // (a writer has no other fault)
        Err(_) => unreachable!(),
    }
}
