//! The last moments of a run, for its page: the last calls of some ranks with their partners, as `calls --json` has
//! them.

ghost use Rattle.call_table.specs.Partners.{IsAnswered};
ghost use Rattle.trace_ops.specs.Ops.{AreOwn};

use crate::last_bytes::{chunk_room, last_bytes_of};
use crate::last_calls::{LastCalls, last_calls};
use call_table::{
    CallTable, Completions, Partners, RankCalls, RankTexts, ReceivedBytes, RowForm, count_of,
    put_row, slot_count,
};
use diagnosis_value::Diagnosis;
use diagnosis_words::{TextFacts, first_ranks};
use mpi_model::{Call, Layout, MemoryReader};
use run_inputs::{Opener, reopened};
use std::alloc::{AllocError, Global};
use text_notes::TextNote;
use trace_know::Knowledge;
use trace_node::Answer;
use trace_ops::RankOps;

/// The most ranks whose last calls are shown.
const MOST_RANKS: usize = 64;
/// How many rows are shown: together this many, of one rank at least so few and at most so many.
const OF_ALL: usize = 300;

const FEWEST: usize = 4;

const MOST: usize = 30;
/// The most rows of one call: a Startall has one for each of its requests.
const MOST_ROWS: usize = 4;
/// The most bytes of a row: a name in a text may have 64 KB.
const LONGEST_ROW: usize = 1000;

/// The most calls at the end of a text that are looked at there, and the most bytes in which they are looked for.
const MOST_LAST: u64 = 1024;

const LAST_BYTES: usize = 65_536;

/// Of what the last moments are made.
#[derive(Drop)]
pub(crate) struct Moments<'a, O: Opener> {
    pub alloc: Global,
    pub layout: &'a Layout,
    pub answer: &'a Answer,
    /// What each rank did.
    pub ops: &'a [RankOps],
    pub know: &'a Knowledge,
    pub diagnosis: &'a Diagnosis,
    pub texts: &'a TextFacts,
    pub files: &'a O,
}

/// How many rows are shown of each of so many ranks.
fn rows_of_each(ranks: usize) -> u32 {
    if ranks == 0 {
        return 0;
    }
    (OF_ALL / ranks).max(FEWEST).min(MOST) as u32
}

/// Adds a rank that has a readable call, where there is room for it and it isn't there.
fn add_rank(ranks: &mut Vec<u32>, diagnosis: &Diagnosis, rank: u32) -> Result<(), AllocError> {
    let has_call = match diagnosis.waiting.standing.get(rank as usize) {
        Some(standing) => standing.call.is_some(),
        None => false,
    };
    if has_call && ranks.len() < MOST_RANKS && !ranks.as_slice().contains(&rank) {
        ranks.push(rank)?;
    }
    Ok(())
}

/// Adds such ranks of these.
fn add_ranks(ranks: &mut Vec<u32>, diagnosis: &Diagnosis, added: &[u32]) -> Result<(), AllocError> {
    for rank in added {
        add_rank(ranks, diagnosis, *rank)?;
    }
    Ok(())
}

/// The ranks whose last calls are shown: those of the roots, the first of each group that stand alike, and then others.
fn ranks_of(
    alloc: Global,
    layout: &Layout,
    diagnosis: &Diagnosis,
    texts: &TextFacts,
) -> Result<Vec<u32>, AllocError> {
    let mut ranks = Vec::new(alloc);
    for root in diagnosis.waiting.roots.iter() {
        add_ranks(&mut ranks, diagnosis, &root.ranks)?;
    }
    let firsts = first_ranks(alloc, layout, diagnosis, texts)?;
    add_ranks(&mut ranks, diagnosis, &firsts)?;
    for rank in 0..diagnosis.ranks {
        add_rank(&mut ranks, diagnosis, rank)?;
    }
    Ok(ranks)
}

/// Whether the names of datatypes in other calls of a rank are asked for where a row of this call is made: its own
/// lines have none.
fn asks_other_calls(call: &Call) -> bool {
    matches!(
        call,
        Call::Start(_) | Call::Startall(_) | Call::Mprobe(_) | Call::Improbe(_)
    )
}

/// From which call on the texts of a rank are asked where the rows of its calls from this one on are made.
fn asked_from(calls: &RankCalls<'_>, first: u64) -> u64 {
    for number in first..calls.count() {
        if let Some(called) = calls.called(number) {
            if asks_other_calls(called.call) {
                return 0;
            }
        }
    }
    first
}

/// What a text says of its last calls, where these can be looked at alone: from a call of its rank on.
fn last_text<O: Opener>(
    alloc: Global,
    note: &TextNote,
    from: u64,
    files: &O,
    chunk: &mut Vec<u8>,
) -> Result<Option<LastCalls>, AllocError> {
    let end = note.first().saturating_add(note.calls());
    let count = end.saturating_sub(from.max(note.first()));
    if from <= note.first() || count > MOST_LAST {
        return Ok(None);
    }
    let Some(bytes) = last_bytes_of(alloc, note.path(), LAST_BYTES, files, chunk)? else {
        return Ok(None);
    };
    let Some(last) = last_calls(alloc, note, count, &bytes)? else {
        return Ok(None);
    };
    if note.first().saturating_add(last.first) <= from {
        Ok(Some(last))
    } else {
        Ok(None)
    }
}

/// Adds what a text says of the calls of its rank from one on.
fn with_text<O: Opener>(
    alloc: Global,
    texts: RankTexts,
    note: &TextNote,
    from: u64,
    files: &O,
    chunk: &mut Vec<u8>,
) -> Result<RankTexts, AllocError> {
    if let Some(last) = last_text(alloc, note, from, files, chunk)? {
        let first = note.first().saturating_add(last.first);
        return texts.reading(alloc, MemoryReader::new(&last.bytes), first);
    }
    match reopened(note.path(), files) {
        Some(reader) => texts.reading(alloc, reader, note.first()),
        None => Ok(texts),
    }
}

/// What the texts of a rank say of so many calls from one on: nothing where a text can't be looked at.
fn texts_of<O: Opener>(
    alloc: Global,
    notes: &[TextNote],
    rank: u32,
    calls: u64,
    from: u64,
    files: &O,
) -> Result<RankTexts, AllocError> {
    let mut texts = RankTexts::new(alloc, calls)?;
    let mut chunk = chunk_room(alloc)?;
    for note in notes {
        if note.rank() == rank && note.first().saturating_add(note.calls()) > from {
            texts = with_text(alloc, texts, note, from, files, &mut chunk)?;
        }
    }
    Ok(texts)
}

/// Adds a row to the list that ends these bytes, without the line feed at its end; not one that is too long.
fn put_item(json: &mut Vec<u8>, row: &[u8]) -> Result<(), AllocError> {
    let Some((_, row)) = row.split_last() else {
        return Ok(());
    };
    if row.len() > LONGEST_ROW {
        return Ok(());
    }
    if json.as_slice().last() != Some(&b'[') {
        json.push(b',')?;
    }
    json.extend_from_slice(row)
}

/// How many rows are shown of a call: of many the first ones.
fn rows_of(calls: &RankCalls<'_>, number: u64) -> u32 {
    match calls.called(number) {
        Some(called) => slot_count(called.call).min(MOST_ROWS) as u32,
        None => 0,
    }
}

/// The first of the last calls of a rank that have together at most so many rows.
fn first_of_last(calls: &RankCalls<'_>, most: u32) -> u64 {
    let mut first = calls.count();
    let mut rows: u32 = 0;
    for _ in 0..most {
        let Some(before) = first.checked_sub(1) else {
            break;
        };
        rows = rows.saturating_add(rows_of(calls, before));
        if rows > most {
            break;
        }
        first = before;
    }
    first
}

/// Adds the rows of a call.
fn put_rows(
    alloc: Global,
    json: &mut Vec<u8>,
    calls: &RankCalls<'_>,
    received: &ReceivedBytes,
    number: u64,
) -> Result<(), AllocError> {
    let Some(called) = calls.called(number) else {
        return Ok(());
    };
    for at in 0..rows_of(calls, number) {
        let fields = calls.fields(number, &called, at, received);
        let mut row = Vec::new(alloc);
        put_row(&mut row, RowForm::Json, &fields)?;
        put_item(json, &row)?;
    }
    Ok(())
}

/// Adds the last rows of a rank, at most so many.
fn put_last<O: Opener>(
    moments: &Moments<'_, O>,
    json: &mut Vec<u8>,
    table: &CallTable<'_>,
    rank: u32,
    most: u32,
) -> Result<(), AllocError> {
    let alloc = moments.alloc;
    let events = moments.know.readable(rank);
    let count = count_of(&events);
    let completions = Completions::of(alloc, &events)?;
    let received = ReceivedBytes::new(alloc, 0)?;
    let none = RankTexts::new(alloc, 0)?;
    let untold = RankCalls {
        layout: moments.layout,
        table: &*table,
        rank,
        events: &events,
        texts: &none,
        completions: &completions,
    };
    let first = first_of_last(&untold, most);
    let from = asked_from(&untold, first);
    let texts = texts_of(
        alloc,
        &moments.texts.notes,
        rank,
        count,
        from,
        moments.files,
    )?;
    let calls = RankCalls {
        layout: moments.layout,
        table: &*table,
        rank,
        events: &events,
        texts: &texts,
        completions: &completions,
    };
    for number in first..count {
        put_rows(alloc, json, &calls, &received, number)?;
    }
    Ok(())
}

/// The value of a page: that of `explain --json`, and behind its last key the last calls of some ranks.
pub(crate) fn with_last_calls<O: Opener>(
    moments: &Moments<'_, O>,
    explained: Vec<u8>,
) -> Result<Vec<u8>, AllocError>
    requires answered { IsAnswered moments.now.answer.now }
    requires did { AreOwn 0 moments.now.ops.now }
{
    let alloc = moments.alloc;
    let partners = Partners::of_answer(alloc, moments.answer)?;
    let table = CallTable::new(alloc, moments.ops, partners)?;
    let ranks = ranks_of(alloc, moments.layout, moments.diagnosis, moments.texts)?;
    let most = rows_of_each(ranks.len());
    let mut json = explained;
    // (the value ends with a brace and a line feed)
    json.pop();
    json.pop();
    json.extend_from_slice(b",\"last_calls\":[")?;
    for rank in ranks.iter() {
        put_last(moments, &mut json, &table, *rank, most)?;
    }
    json.extend_from_slice(b"]}\n")?;
    Ok(json)
}
