//! The report of the answer to all that the pieces tell.

ghost use Rattle.std.specs.Prelude.{IfErr};
ghost use Rattle.dumpi_text.specs.Failing.{Fails};
ghost use Rattle.run_inputs.specs.Files.{NamesFailed};
ghost use Rattle.command_runs.specs.Verbs.{Ran};

use crate::pieces::answering::answer_of;
use crate::run::{Outcome, Run};
use command_line::Verb;
use mpi_model::Write;
use run_inputs::{RunFault, SharedOpener, Watcher};
use trace_report::{write_json, write_report};

/// Writes the report.
pub fn report<O: SharedOpener, V: Watcher + Sync, W: Write>(
    run: &Run<'_, O>,
    watcher: &mut V,
    out: &mut W,
) -> Result<Outcome, RunFault>
where
    O::R: Send,
    ensures ran { Ran (O.file run.now.files.now) Verb.Report run.now.layout.now run.now.manifest.now result W.written W.failures out.old out.new }
    ensures failed { IfErr result (NamesFailed (Fails O.R.failures)) }
{
    let answer = answer_of(run, watcher)?;
    match write_report(&answer, out) {
        Ok(_) => Ok(Outcome::Good),
        Err(_) => Err(RunFault::Write),
    }
}

/// Writes the same report as one JSON object.
pub fn report_as_json<O: SharedOpener, V: Watcher + Sync, W: Write>(
    run: &Run<'_, O>,
    watcher: &mut V,
    out: &mut W,
) -> Result<Outcome, RunFault>
where
    O::R: Send,
    ensures ran { Ran (O.file run.now.files.now) Verb.ReportJson run.now.layout.now run.now.manifest.now result W.written W.failures out.old out.new }
    ensures failed { IfErr result (NamesFailed (Fails O.R.failures)) }
{
    let answer = answer_of(run, watcher)?;
    match write_json(&answer, out) {
        Ok(_) => Ok(Outcome::Good),
        Err(_) => Err(RunFault::Write),
    }
}
