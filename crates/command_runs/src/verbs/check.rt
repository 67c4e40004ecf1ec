//! A check: whether the rules say the same of the pieces as a report does.

ghost use Rattle.std.specs.Prelude.{◌≡◌, true, IfErr, IfOk};
ghost use Rattle.std.specs.FinMap.{empty};
ghost use Rattle.dumpi_text.specs.Failing.{Fails};
ghost use Rattle.run_inputs.specs.Files.{NamesFailed};
ghost use Rattle.command_runs.specs.Nodes.{IsCheckerOf};
ghost use Rattle.command_runs.specs.Refusals.{RefusesNamed};
ghost use Rattle.command_runs.specs.Verbs.{Ran};

use crate::pieces::knowing::know_side_by_side;
use crate::pieces::packed::packed_of;
use crate::run::{Outcome, Run};
use crate::verbs::writing::write_text;
use command_line::Verb;
use mpi_model::Write;
use run_inputs::{RunFault, SharedOpener, Watcher, announce};
use trace_check::Checker;
use trace_know::join_laws;

/// Writes the two lines of a check, and looks whether both say that it held.
pub fn check<O: SharedOpener, V: Watcher + Sync, W: Write>(
    run: &Run<'_, O>,
    watcher: &mut V,
    out: &mut W,
) -> Result<Outcome, RunFault>
where
    O::R: Send,
    ensures ran { Ran (O.file run.now.files.now) Verb.Check run.now.layout.now run.now.manifest.now result W.written W.failures out.old out.new }
    ensures failed { IfErr result (NamesFailed (Fails O.R.failures)) }
{
    let checker = checker_of(run, watcher)?;
    watcher.begin_check(checker.size());
    let (lines, held) = checker.lines()?;
    write_text(lines.as_str().as_bytes(), out)?;
    Ok(outcome_of(held))
}

/// What a check comes to.
pub(crate) fn outcome_of(held: bool) -> Outcome
    ensures { held ≡ true → result ≡ Outcome.Good }
{
    if held {
        Outcome::Good
    } else {
        Outcome::CheckFailed
    }
}

/// The checker of the layout that holds all that the pieces tell. Its index follows the texts, and is made once more
/// where there are packed files too.
pub(crate) fn checker_of<'a, O: SharedOpener, V: Watcher + Sync>(
    run: &Run<'a, O>,
    watcher: &mut V,
) -> Result<Checker<'a>, RunFault>
where
    O::R: Send,
    ensures ok { IfOk result (λ checker. IsCheckerOf (O.file run.now.files.now) run.now.layout.now run.now.manifest.now checker) }
    ensures err { IfErr result (RefusesNamed (O.file run.now.files.now) run.now.layout.now.ranks run.now.manifest.now) }
    ensures failed { IfErr result (NamesFailed (Fails O.R.failures)) }
{
    join_laws();
    let listed = run.manifest.packed();
    let packed = packed_of(run, listed)?;
    let nothing = Checker::new(run.alloc, run.layout)?;
    let pieces = run.manifest.pieces();
    announce(pieces, run.files, watcher);
    let checker = know_side_by_side(run, pieces, &*watcher, nothing)?;
    if listed.is_empty() {
        return Ok(checker);
    }
    let whole = checker.joining(&packed)?;
    Ok(whole)
}
