//! All that the pieces of a manifest tell.

ghost use Rattle.std.specs.Prelude.{◌≡◌, IfErr, IfOk};
ghost use Rattle.dumpi_text.specs.Failing.{Fails};
ghost use Rattle.trace_node.specs.Node.{IsWithin};
ghost use Rattle.run_inputs.specs.Files.{NamesFailed};
ghost use Rattle.command_runs.specs.Known.{TellAll};
ghost use Rattle.command_runs.specs.Refusals.{RefusesNamed};

use crate::pieces::gatherer::Gathered;
use crate::pieces::knowing::know_side_by_side;
use crate::pieces::packed::{joined, packed_of};
use crate::run::Run;
use run_inputs::{RunFault, SharedOpener, Watcher, announce};
use std::alloc::Global;
use trace_know::Knowledge;

/// All that the pieces tell that a manifest lists, of ranks of the layout. Packed files are read first; what texts tell
/// is gathered while they are read, and joined to that once.
pub(crate) fn known_of<O: SharedOpener, V: Watcher + Sync>(
    run: &Run<'_, O>,
    watcher: &mut V,
) -> Result<Knowledge, RunFault>
where
    O::R: Send,
    ensures ok { IfOk result (TellAll (O.file run.now.files.now) run.now.layout.now.ranks run.now.manifest.now) }
    ensures within { IfOk result (λ know. IsWithin run.now.layout.now know) }
    ensures err { IfErr result (RefusesNamed (O.file run.now.files.now) run.now.layout.now.ranks run.now.manifest.now) }
    ensures failed { IfErr result (NamesFailed (Fails O.R.failures)) }
{
    let packed = packed_of(run, run.manifest.packed())?;
    let pieces = run.manifest.pieces();
    announce(pieces, run.files, watcher);
    let nothing = Gathered::new(run.alloc, run.layout);
    let gathered = know_side_by_side(run, pieces, &*watcher, nothing)?;
    let texts = gathered.know.into_knowledge()?;
    let all = joined(run.layout, packed, texts)?;
    Ok(all)
}
