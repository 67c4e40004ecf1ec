//! All that the pieces of a run tell, with the answer to it, and what is noted of their texts.

ghost use Rattle.std.specs.Prelude.{IfErr, IfOk};
ghost use Rattle.dumpi_text.specs.Failing.{Fails};
ghost use Rattle.command_runs.specs.Explains.{IsNotedRunOf};
ghost use Rattle.run_inputs.specs.Files.{NamesFailed};
ghost use Rattle.command_runs.specs.Refusals.{RefusesNamed};

use crate::pieces::gatherer::Gathered;
use crate::pieces::noted::noted_of;
use crate::pieces::packed::{joined, packed_of};
use crate::run::Run;
use run_inputs::{RunFault, SharedOpener, Watcher};
use text_notes::TextNote;
use trace_know::Knowledge;
use trace_node::{AnswerWithOps, RankByRank};

/// What is known of a run, the answer to it with what each rank did, and what is noted of the texts.
#[derive(Drop)]
pub struct NotedRun {
    pub know: Knowledge,
    pub told: AnswerWithOps,
    /// In the order of the pieces.
    pub notes: Vec<TextNote>,
}

/// All that the pieces tell, with the answer to it, and what is noted of their texts.
pub fn noted_run<O: SharedOpener, V: Watcher + Sync>(
    run: &Run<'_, O>,
    watcher: &mut V,
) -> Result<NotedRun, RunFault>
where
    O::R: Send,
    ensures ok { IfOk result (IsNotedRunOf (O.file run.now.files.now) run.now.layout.now run.now.manifest.now) }
    ensures err { IfErr result (RefusesNamed (O.file run.now.files.now) run.now.layout.now.ranks run.now.manifest.now) }
    ensures failed { IfErr result (NamesFailed (Fails O.R.failures)) }
{
    let packed = packed_of(run, run.manifest.packed())?;
    let nothing = Gathered::new(run.alloc, run.layout);
    let (gathered, notes) = noted_of(run, run.manifest.pieces(), watcher, nothing)?;
    let texts = gathered.know.into_knowledge()?;
    let know = joined(run.layout, packed, texts)?;
    let by_rank = RankByRank::of_all(run.alloc, run.layout, &know)?;
    let told = by_rank.into_answer_with_ops(run.alloc, run.layout)?;
    Ok(NotedRun { know, told, notes })
}
