//! Every call with its partner, a line for each.

ghost use Rattle.std.specs.Prelude.{◌≡◌, ◌⊎◌, ◌+◌, IfErr, IfOk, OnOk};
ghost use Rattle.dumpi_text.specs.Failing.{Fails};
ghost use Rattle.run_inputs.specs.Files.{NamesFailed};
ghost use Rattle.command_runs.specs.Refusals.{RefusesNamed};
ghost use Rattle.command_runs.specs.Streams.{RanOn, WritesOn};
ghost use Rattle.command_runs.specs.Tables.{HoldsRanks, IsTableOf, RefusesAgain};

use crate::run::{Outcome, Run};
use crate::verbs::streaming::{write_full, write_gathered};
use crate::verbs::survey::{
    Events, answered, known_in, push_own, read_again, statuses_of_rank, texts_of_rank,
};
use call_table::{
    CSV_HEADER, CallTable, Called, Completions, Partners, RankCalls, ReceivedBytes, RowForm,
    put_row, slot_count,
};
use command_line::TableForm;
use mpi_model::Write;
use run_inputs::{Opener, RunFault, SharedOpener, Watcher};
use std::alloc::{AllocError, Global};
use trace_know::Knowledge;
use trace_ops::RankOps;

/// Of what rows are made, beside the calls of a rank, and how they are written.
#[derive(Clone, Copy)]
struct Rows<'a> {
    table: &'a CallTable<'a>,
    form: RowForm,
    received: &'a ReceivedBytes,
}

/// How rows are written.
fn form_of(form: TableForm) -> RowForm {
    match form {
        TableForm::Csv => RowForm::Csv,
        TableForm::Json => RowForm::Json,
    }
}

/// Adds what a rank did, and how many bytes its receives got.
fn add_rank<O: Opener>(
    run: &Run<'_, O>,
    know: &Knowledge,
    rank: u32,
    partners: &Partners<'_>,
    received: &mut ReceivedBytes,
    ops: &mut Vec<RankOps>,
) -> Result<(), RunFault>
    requires { HoldsRanks rank ops.old.items }
    ensures ok { OnOk result (HoldsRanks (rank + 1) ops.new.items) }
    ensures err { IfErr result (λ fault. fault ≡ RunFault.Memory) }
{
    push_own(run.alloc, run.layout, know, rank, ops)?;
    let events = know.readable(rank);
    let completions = Completions::of(run.alloc, &events)?;
    let texts = statuses_of_rank(run, rank, call_table::count_of(&events))?;
    if let Some(own) = ops.as_slice().get(rank as usize) {
        received.add_rank(own, partners, &texts, &completions);
    }
    Ok(())
}

/// What all ranks did, and how many bytes their receives got.
fn all_ranks<O: Opener>(
    run: &Run<'_, O>,
    events: &Events,
    partners: &Partners<'_>,
    received: &mut ReceivedBytes,
) -> Result<Vec<RankOps>, RunFault>
    ensures ok { IfOk result (λ ops. HoldsRanks run.now.layout.now.ranks ops.items) }
    ensures err { IfErr result (RefusesAgain (O.file run.now.files.now) run.now.manifest.now.pieces) }
    ensures failed { IfErr result (NamesFailed (Fails O.R.failures)) }
{
    let mut ops = Vec::new(run.alloc);
    let mut buffer = Vec::new(run.alloc);
    for rank in 0..run.layout.ranks() {
        let own = read_again(run, events, rank, &mut buffer)?;
        let know = known_in(events, &own);
        add_rank(run, know, rank, partners, received, &mut ops)?;
    }
    Ok(ops)
}

/// Adds the rows of a call.
fn put_rows<'a>(
    lines: &mut Vec<u8>,
    rows: &Rows<'_>,
    calls: &RankCalls<'a>,
    number: u64,
    called: &Called<'a>,
) -> Result<(), RunFault>
    ensures { IfErr result (λ fault. fault ≡ RunFault.Memory) }
{
    for at in 0..slot_count(called.call) {
        let Ok(place) = u32::try_from(at) else {
            break;
        };
        let fields = calls.fields(number, called, place, rows.received);
        put_row(lines, rows.form, &fields)?;
    }
    Ok(())
}

/// Writes the rows of the calls of a rank.
fn write_rank<O: Opener, W: Write>(
    run: &Run<'_, O>,
    know: &Knowledge,
    rank: u32,
    rows: &Rows<'_>,
    lines: &mut Vec<u8>,
    out: &mut W,
) -> Result<(), RunFault>
    ensures written { WritesOn result W.written W.failures out.old out.new }
    ensures fault { IfErr result (λ fault. (fault ≡ RunFault.Write) ⊎ (fault ≡ RunFault.Memory)) }
{
    let events = know.readable(rank);
    let completions = Completions::of(run.alloc, &events)?;
    let texts = texts_of_rank(run, rank, call_table::count_of(&events))?;
    let calls = RankCalls {
        layout: run.layout,
        table: rows.table,
        rank,
        events: &events,
        texts: &texts,
        completions: &completions,
    };
    for number in 0..calls.count() {
        let Some(called) = calls.called(number) else {
            continue;
        };
        put_rows(lines, rows, &calls, number, &called)?;
        write_full(lines, out)?;
    }
    Ok(())
}

/// The lines in front of the rows: a header of CSV.
fn first_lines(alloc: Global, form: RowForm) -> Result<Vec<u8>, AllocError> {
    match form {
        RowForm::Csv => Vec::from_slice(alloc, CSV_HEADER),
        RowForm::Json => Ok(Vec::new(alloc)),
    }
}

/// Writes the rows of all ranks, and the header in front of them.
fn write_ranks<O: Opener, W: Write>(
    run: &Run<'_, O>,
    events: &Events,
    rows: &Rows<'_>,
    out: &mut W,
) -> Result<(), RunFault>
    ensures written { WritesOn result W.written W.failures out.old out.new }
    ensures fault { IfErr result (λ fault. (fault ≡ RunFault.Write) ⊎ RefusesAgain (O.file run.now.files.now) run.now.manifest.now.pieces fault) }
    ensures failed { IfErr result (NamesFailed (Fails O.R.failures)) }
{
    let mut lines = first_lines(run.alloc, rows.form)?;
    let mut buffer = Vec::new(run.alloc);
    for rank in 0..run.layout.ranks() {
        let own = read_again(run, events, rank, &mut buffer)?;
        let know = known_in(events, &own);
        write_rank(run, know, rank, rows, &mut lines, out)?;
    }
    write_gathered(&mut lines, out)?;
    Ok(())
}

/// Writes every call with its partner, by rank and number. A piece that was read before and is refused when it is read
/// again ends the output where it stands.
pub fn calls<O: SharedOpener, V: Watcher + Sync, W: Write>(
    form: TableForm,
    run: &Run<'_, O>,
    watcher: &mut V,
    out: &mut W,
) -> Result<Outcome, RunFault>
where
    O::R: Send,
    ensures ran { RanOn (IsTableOf (O.file run.now.files.now) run.now.layout.now run.now.manifest.now) (RefusesNamed (O.file run.now.files.now) run.now.layout.now.ranks run.now.manifest.now)
        (RefusesAgain (O.file run.now.files.now) run.now.manifest.now.pieces) result W.written W.failures out.old out.new }
    ensures failed { IfErr result (NamesFailed (Fails O.R.failures)) }
{
    let told = answered(run, watcher)?;
    let partners = Partners::of_answer(run.alloc, &told.answer)?;
    let mut received = ReceivedBytes::new(run.alloc, partners.pairs().len())?;
    let ops = all_ranks(run, &told.events, &partners, &mut received)?;
    let table = CallTable::new(run.alloc, &ops, partners)?;
    let rows = Rows {
        table: &table,
        form: form_of(form),
        received: &received,
    };
    write_ranks(run, &told.events, &rows, out)?;
    Ok(Outcome::Good)
}
