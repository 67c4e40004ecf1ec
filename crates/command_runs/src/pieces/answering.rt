//! The answer to all that the pieces of a manifest tell.

ghost use Rattle.std.specs.Prelude.{◌≡◌, [], IfErr, IfOk};
ghost use Rattle.dumpi_text.specs.Failing.{Fails};
ghost use Rattle.run_inputs.specs.Files.{NamesFailed};
ghost use Rattle.command_runs.specs.Nodes.{AnswersAll};
ghost use Rattle.command_runs.specs.Refusals.{RefusesNamed};

use crate::pieces::any_order::{answer_in_any_order, can_go_by_rank};
use crate::pieces::known::known_of;
use crate::run::Run;
use run_inputs::{RunFault, SharedOpener, Watcher, announce};
use std::alloc::Global;
use trace_know::join_laws;
use trace_node::{Answer, RankByRank};

/// The answer to all that the pieces tell that a manifest lists.
pub(crate) fn answer_of<O: SharedOpener, V: Watcher + Sync>(
    run: &Run<'_, O>,
    watcher: &mut V,
) -> Result<Answer, RunFault>
where
    O::R: Send,
    ensures ok { IfOk result (AnswersAll (O.file run.now.files.now) run.now.layout.now run.now.manifest.now) }
    ensures err { IfErr result (RefusesNamed (O.file run.now.files.now) run.now.layout.now.ranks run.now.manifest.now) }
    ensures failed { IfErr result (NamesFailed (Fails O.R.failures)) }
{
    if run.manifest.packed().is_empty() && can_go_by_rank(run.manifest.pieces(), run.files) {
        return answer_of_texts(run, watcher);
    }
    answer_of_all(run, watcher)
}

/// The answer to what texts tell: of one rank after another, whose events go once what it did is known.
fn answer_of_texts<O: SharedOpener, V: Watcher + Sync>(
    run: &Run<'_, O>,
    watcher: &mut V,
) -> Result<Answer, RunFault>
where
    O::R: Send,
    requires { run.now.manifest.now.packed ≡ [] }
    ensures ok { IfOk result (AnswersAll (O.file run.now.files.now) run.now.layout.now run.now.manifest.now) }
    ensures err { IfErr result (RefusesNamed (O.file run.now.files.now) run.now.layout.now.ranks run.now.manifest.now) }
    ensures failed { IfErr result (NamesFailed (Fails O.R.failures)) }
{
    join_laws();
    announce(run.manifest.pieces(), run.files, watcher);
    answer_in_any_order(run, run.manifest.pieces(), &*watcher)
}

/// The answer to what packed files and texts tell, once all of it is known.
fn answer_of_all<O: SharedOpener, V: Watcher + Sync>(
    run: &Run<'_, O>,
    watcher: &mut V,
) -> Result<Answer, RunFault>
where
    O::R: Send,
    ensures ok { IfOk result (AnswersAll (O.file run.now.files.now) run.now.layout.now run.now.manifest.now) }
    ensures err { IfErr result (RefusesNamed (O.file run.now.files.now) run.now.layout.now.ranks run.now.manifest.now) }
    ensures failed { IfErr result (NamesFailed (Fails O.R.failures)) }
{
    let know = known_of(run, watcher)?;
    let told = RankByRank::of_all(run.alloc, run.layout, &know)?;
    // (the pairs are made where the events were)
    drop(know);
    let answer = told.into_answer(run.alloc, run.layout)?;
    Ok(answer)
}
