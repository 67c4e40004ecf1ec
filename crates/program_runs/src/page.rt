//! What holds up a run, as a page.

ghost use Rattle.std.specs.Prelude.{IfErr, IfOk};
ghost use Rattle.dumpi_text.specs.Failing.{Fails};
ghost use Rattle.run_inputs.specs.Files.{NamesFailed};
ghost use Rattle.command_runs.specs.Pages.{IsPageOf};
ghost use Rattle.command_runs.specs.Refusals.{RefusesNamed};
ghost use Rattle.command_runs.specs.Verbs.{RanSo};

use crate::explain::{Printing, text_with};
use command_runs::{Outcome, Run, write_text};
use mpi_model::Write;
use page_words::page_of;
use run_inputs::{RunFault, SharedOpener, Watcher};
use std::collections::BTreeMap;
use text_layouts::Maker;

/// Writes what holds up the run as a page: the template around what `explain --json` writes, with the last calls of some
/// ranks.
pub(crate) fn page<O: SharedOpener, V: Watcher + Sync, W: Write>(
    run: &Run<'_, O>,
    makers: &BTreeMap<u32, Maker>,
    watcher: &mut V,
    out: &mut W,
) -> Result<Outcome, RunFault>
where
    O::R: Send,
    ensures ran { RanSo (IsPageOf (O.file run.now.files.now) run.now.layout.now run.now.manifest.now) (IsPageOf (O.file run.now.files.now) run.now.layout.now run.now.manifest.now)
        (RefusesNamed (O.file run.now.files.now) run.now.layout.now.ranks run.now.manifest.now) result W.written W.failures out.old out.new }
    ensures failed { IfErr result (NamesFailed (Fails O.R.failures)) }
{
    let text = page_with(run, makers, watcher)?;
    write_text(&text, out)
}

/// The page of what holds up the run.
fn page_with<O: SharedOpener, V: Watcher + Sync>(
    run: &Run<'_, O>,
    makers: &BTreeMap<u32, Maker>,
    watcher: &mut V,
) -> Result<Vec<u8>, RunFault>
where
    O::R: Send,
    ensures ok { IfOk result (λ text. IsPageOf (O.file run.now.files.now) run.now.layout.now run.now.manifest.now text.items) }
    ensures err { IfErr result (RefusesNamed (O.file run.now.files.now) run.now.layout.now.ranks run.now.manifest.now) }
    ensures failed { IfErr result (NamesFailed (Fails O.R.failures)) }
{
    let json = text_with(Printing::Page, run, makers, watcher)?;
    let page = page_of(run.alloc, &json)?;
    Ok(page)
}
