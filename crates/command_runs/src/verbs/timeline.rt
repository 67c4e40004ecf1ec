//! Every call in time, as trace events.

ghost use Rattle.std.specs.Prelude.{◌≡◌, ◌⊎◌, ◌+◌, IfErr, IfOk, OnOk};
ghost use Rattle.dumpi_text.specs.Failing.{Fails};
ghost use Rattle.run_inputs.specs.Files.{NamesFailed};
ghost use Rattle.command_runs.specs.Refusals.{RefusesNamed};
ghost use Rattle.command_runs.specs.Streams.{RanOn, WritesOn};
ghost use Rattle.command_runs.specs.Tables.{HoldsRanks, IsTableOf, RefusesAgain};

use crate::run::{Outcome, Run};
use crate::verbs::streaming::{write_full, write_gathered};
use crate::verbs::survey::{Events, answered, known_in, push_own, read_again, texts_of_rank};
use call_table::{
    Arrows, CallTable, Completions, Partners, RankCalls, ReceivedBytes, Window, put_arrow,
    put_slice, put_stuck, put_timeline_end, put_timeline_head, put_track, span_of, times_of,
};
use mpi_model::{OpName, Write};
use run_inputs::{Opener, RunFault, SharedOpener, Watcher};
use trace_know::Knowledge;
use trace_node::Answer;
use trace_ops::RankOps;

/// The wall times of the first and of the last readable event of some ranks.
type Times = Option<(u64, u64)>;

/// What is shown of a run.
#[derive(Clone, Copy)]
struct View {
    /// The times of the run: all times are counted from the first one, and what is open is so up to the last one.
    begin: u64,
    end: u64,
    window: Window,
    ranks: Option<(u32, u32)>,
}

impl View {
    /// Whether a rank is shown.
    fn has_rank(self, rank: u32) -> bool {
        match self.ranks {
            Some((first, last)) => first <= rank && rank <= last,
            None => true,
        }
    }

    /// Whether a pair with these ends is shown that was sent and received at these moments: both ends are.
    fn has_arrow(self, ends: (OpName, OpName), moments: (u64, u64)) -> bool {
        let are_ranks = self.has_rank(ends.0.rank) && self.has_rank(ends.1.rank);
        are_ranks && self.window.has(moments.0) && self.window.has(moments.1)
    }
}

/// What is shown of a run with these times.
fn view_of(cut: command_line::Window, times: Times) -> View {
    let (begin, end) = times.unwrap_or((0, 0));
    let from = begin.saturating_add(cut.from.unwrap_or(0));
    let to = match cut.to {
        Some(to) => begin.saturating_add(to),
        None => u64::MAX,
    };
    View {
        begin,
        end,
        window: Window { from, to },
        ranks: cut.ranks,
    }
}

/// The times of some ranks and of one more.
fn both_times(times: Times, own: Times) -> Times {
    match (times, own) {
        (None, own) => own,
        (Some(times), None) => Some(times),
        (Some((begin, end)), Some((first, last))) => Some((begin.min(first), end.max(last))),
    }
}

/// Adds what a rank did, and when it sent and received: its own times come back.
fn add_rank<O: Opener>(
    run: &Run<'_, O>,
    know: &Knowledge,
    rank: u32,
    partners: &Partners<'_>,
    arrows: &mut Arrows,
    ops: &mut Vec<RankOps>,
) -> Result<Times, RunFault>
    requires { HoldsRanks rank ops.old.items }
    ensures ok { OnOk result (HoldsRanks (rank + 1) ops.new.items) }
    ensures err { IfErr result (λ fault. fault ≡ RunFault.Memory) }
{
    push_own(run.alloc, run.layout, know, rank, ops)?;
    let events = know.readable(rank);
    if let Some(own) = ops.as_slice().get(rank as usize) {
        arrows.add_rank(own, partners, &events);
    }
    Ok(times_of(&events))
}

/// What all ranks did, and from when to when; when they sent and received is added.
fn all_ranks<O: Opener>(
    run: &Run<'_, O>,
    events: &Events,
    partners: &Partners<'_>,
    arrows: &mut Arrows,
) -> Result<(Vec<RankOps>, Times), RunFault>
    ensures ok { IfOk result (λ told. HoldsRanks run.now.layout.now.ranks told.0.items) }
    ensures err { IfErr result (RefusesAgain (O.file run.now.files.now) run.now.manifest.now.pieces) }
    ensures failed { IfErr result (NamesFailed (Fails O.R.failures)) }
{
    let mut ops = Vec::new(run.alloc);
    let mut buffer = Vec::new(run.alloc);
    let mut times = None;
    for rank in 0..run.layout.ranks() {
        let own = read_again(run, events, rank, &mut buffer)?;
        let know = known_in(events, &own);
        let more = add_rank(run, know, rank, partners, arrows, &mut ops)?;
        times = both_times(times, more);
    }
    Ok((ops, times))
}

/// Writes the slices of the calls of a rank that are shown.
fn write_slices<W: Write>(
    calls: &RankCalls<'_>,
    view: View,
    received: &ReceivedBytes,
    lines: &mut Vec<u8>,
    out: &mut W,
) -> Result<(), RunFault>
    ensures written { WritesOn result W.written W.failures out.old out.new }
    ensures fault { IfErr result (λ fault. (fault ≡ RunFault.Write) ⊎ (fault ≡ RunFault.Memory)) }
{
    for number in 0..calls.count() {
        let Some(called) = calls.called(number) else {
            continue;
        };
        let span = span_of(called.enter, called.exit, view.end);
        if !view.window.shows(span) {
            continue;
        }
        put_slice(lines, calls, number, &called, span, view.begin, received)?;
        write_full(lines, out)?;
    }
    Ok(())
}

/// Writes the track of a rank.
fn write_rank<O: Opener, W: Write>(
    run: &Run<'_, O>,
    know: &Knowledge,
    table: &CallTable<'_>,
    rank: u32,
    view: View,
    lines: &mut Vec<u8>,
    out: &mut W,
) -> Result<(), RunFault>
    ensures written { WritesOn result W.written W.failures out.old out.new }
    ensures fault { IfErr result (λ fault. (fault ≡ RunFault.Write) ⊎ (fault ≡ RunFault.Memory)) }
{
    let events = know.readable(rank);
    let completions = Completions::of(run.alloc, &events)?;
    let texts = texts_of_rank(run, rank, call_table::count_of(&events))?;
    let received = ReceivedBytes::new(run.alloc, 0)?;
    let calls = RankCalls {
        layout: run.layout,
        table,
        rank,
        events: &events,
        texts: &texts,
        completions: &completions,
    };
    put_track(lines, rank)?;
    write_slices(&calls, view, &received, lines, out)
}

/// Writes the tracks of all ranks that are shown.
fn write_ranks<O: Opener, W: Write>(
    run: &Run<'_, O>,
    events: &Events,
    table: &CallTable<'_>,
    view: View,
    lines: &mut Vec<u8>,
    out: &mut W,
) -> Result<(), RunFault>
    ensures written { WritesOn result W.written W.failures out.old out.new }
    ensures fault { IfErr result (λ fault. (fault ≡ RunFault.Write) ⊎ RefusesAgain (O.file run.now.files.now) run.now.manifest.now.pieces fault) }
    ensures failed { IfErr result (NamesFailed (Fails O.R.failures)) }
{
    let mut buffer = Vec::new(run.alloc);
    for rank in 0..run.layout.ranks() {
        if !view.has_rank(rank) {
            continue;
        }
        let own = read_again(run, events, rank, &mut buffer)?;
        let know = known_in(events, &own);
        write_rank(run, know, table, rank, view, lines, out)?;
    }
    Ok(())
}

/// Adds a mark for each stuck rank that is shown.
fn put_marks(lines: &mut Vec<u8>, answer: &Answer, view: View) -> Result<(), RunFault>
    ensures { IfErr result (λ fault. fault ≡ RunFault.Memory) }
{
    for stuck in answer.stuck() {
        if view.has_rank(stuck.rank) && view.window.has(stuck.wall) {
            put_stuck(lines, stuck.rank, stuck.call, stuck.wall, view.begin)?;
        }
    }
    Ok(())
}

/// Writes an arrow for each pair both of whose ends are shown.
fn write_arrows<W: Write>(
    partners: &Partners<'_>,
    arrows: &Arrows,
    view: View,
    lines: &mut Vec<u8>,
    out: &mut W,
) -> Result<(), RunFault>
    ensures written { WritesOn result W.written W.failures out.old out.new }
    ensures fault { IfErr result (λ fault. (fault ≡ RunFault.Write) ⊎ (fault ≡ RunFault.Memory)) }
{
    for (place, pair) in partners.pairs().iter().enumerate() {
        let Some(moments) = arrows.at(place) else {
            continue;
        };
        let ends = (pair.message, pair.receive);
        if !view.has_arrow(ends, moments) {
            continue;
        }
        put_arrow(lines, ends, moments, view.begin, place as u64)?;
        write_full(lines, out)?;
    }
    Ok(())
}

/// Writes all events: tracks, marks and arrows.
fn write_events<O: Opener, W: Write>(
    run: &Run<'_, O>,
    events: &Events,
    answer: &Answer,
    table: &CallTable<'_>,
    arrows: &Arrows,
    view: View,
    out: &mut W,
) -> Result<(), RunFault>
    ensures written { WritesOn result W.written W.failures out.old out.new }
    ensures fault { IfErr result (λ fault. (fault ≡ RunFault.Write) ⊎ RefusesAgain (O.file run.now.files.now) run.now.manifest.now.pieces fault) }
    ensures failed { IfErr result (NamesFailed (Fails O.R.failures)) }
{
    let mut lines = Vec::new(run.alloc);
    put_timeline_head(&mut lines)?;
    write_ranks(run, events, table, view, &mut lines, out)?;
    put_marks(&mut lines, answer, view)?;
    write_arrows(table.partners(), arrows, view, &mut lines, out)?;
    put_timeline_end(&mut lines)?;
    write_gathered(&mut lines, out)?;
    Ok(())
}

/// Writes the calls of all ranks in time, as far as they are shown. A piece that was read before and is refused when it
/// is read again ends the output where it stands.
pub fn timeline<O: SharedOpener, V: Watcher + Sync, W: Write>(
    cut: command_line::Window,
    run: &Run<'_, O>,
    watcher: &mut V,
    out: &mut W,
) -> Result<Outcome, RunFault>
where
    O::R: Send,
    ensures ran { RanOn (IsTableOf (O.file run.now.files.now) run.now.layout.now run.now.manifest.now) (RefusesNamed (O.file run.now.files.now) run.now.layout.now.ranks run.now.manifest.now)
        (RefusesAgain (O.file run.now.files.now) run.now.manifest.now.pieces) result W.written W.failures out.old out.new }
    ensures failed { IfErr result (NamesFailed (Fails O.R.failures)) }
{
    let told = answered(run, watcher)?;
    let partners = Partners::of_answer(run.alloc, &told.answer)?;
    let mut arrows = Arrows::new(run.alloc, partners.pairs().len())?;
    let (ops, times) = all_ranks(run, &told.events, &partners, &mut arrows)?;
    let table = CallTable::new(run.alloc, &ops, partners)?;
    let view = view_of(cut, times);
    write_events(run, &told.events, &told.answer, &table, &arrows, view, out)?;
    Ok(Outcome::Good)
}
