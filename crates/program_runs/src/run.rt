//! The verbs over a run.

ghost use Rattle.std.specs.Prelude.{IfErr};
ghost use Rattle.dumpi_text.specs.Failing.{Fails};
ghost use Rattle.command_line.specs.Program.{asked_rank};
ghost use Rattle.run_inputs.specs.Files.{NamesFailed};
ghost use Rattle.run_inputs.specs.Inputs.{HasRank};
ghost use Rattle.command_runs.specs.Verbs.{Ran};

use crate::explain::{Printing, explain};
use crate::page::page;
use command_line::Verb;
use command_runs::{
    Outcome, Run, calls, check, check_as_json, pack, replay, report, report_as_json, timeline,
};
use mpi_model::Write;
use run_inputs::{RunFault, SharedOpener, Watcher};
use std::alloc::{AllocError, Global};
use std::collections::BTreeMap;
use text_layouts::Maker;

/// The bytes of the block that is asked for and given back before a run: 31 MB. From a freed block of more than 32 MB
/// glibc learns nothing.
const FIRST_BLOCK: usize = 32_505_856;

/// Requests a block of memory and frees it, unwritten. From that glibc's allocator learns how large the blocks of a run
/// are: it then keeps lists up to that size in its heap, and keeps twice as much of freed memory, so pages aren't
/// fetched anew from the system. If the block is refused, nothing changes.
fn keep_freed_memory(alloc: Global) {
    let block: Result<Vec<u8>, AllocError> = Vec::with_capacity(alloc, FIRST_BLOCK);
    drop(block);
}

/// Runs a verb; `makers` has the functions that made objects of the layout, by the objects' ids, as far as they are known.
/// Nothing is written before all pieces were read and the answer is made; `calls` and `timeline` read them
/// a second time while they write. A cluster, which takes threads, is run by
/// [`cluster`](command_runs::cluster). [`RunFault`] says why a run was refused.
pub fn run_with<O: SharedOpener, V: Watcher + Sync, W: Write>(
    verb: Verb,
    run: &Run<'_, O>,
    makers: &BTreeMap<u32, Maker>,
    watcher: &mut V,
    out: &mut W,
) -> Result<Outcome, RunFault>
where
    O::R: Send,
    requires rank { HasRank (asked_rank verb) run.now.layout.now }
    ensures ran { Ran (O.file run.now.files.now) verb run.now.layout.now run.now.manifest.now result W.written W.failures out.old out.new }
    ensures failed { IfErr result (NamesFailed (Fails O.R.failures)) }
{
    keep_freed_memory(run.alloc);
    match verb {
        Verb::Explain(extent) => explain(Printing::Words(extent), run, makers, watcher, out),
        Verb::ExplainJson => explain(Printing::Json, run, makers, watcher, out),
        Verb::ExplainRank(rank) => explain(Printing::Rank(rank), run, makers, watcher, out),
        Verb::Graph(extent) => explain(Printing::Picture(extent), run, makers, watcher, out),
        Verb::Page => page(run, makers, watcher, out),
        Verb::Report => report(run, watcher, out),
        Verb::ReportJson => report_as_json(run, watcher, out),
        Verb::Calls(form) => calls(form, run, watcher, out),
        Verb::Timeline(window) => timeline(window, run, watcher, out),
        Verb::Replay => replay(run, watcher, out),
        Verb::Check => check(run, watcher, out),
        Verb::CheckJson => check_as_json(run, watcher, out),
        Verb::Pack => pack(run, watcher, out),
    }
}
