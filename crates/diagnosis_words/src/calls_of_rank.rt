//! The last calls of one rank, with their times and partners.

use crate::source::Source;
use crate::texts::TextFacts;
use crate::words::clipped;
use crate::writer::Writer;
use diagnosis_value::Diagnosis;
use mpi_model::{Event, Layout, OpName};
use std::alloc::{AllocError, Global};
use trace_know::{Cell, Knowledge};
use trace_node::Answer;
use trace_pair::Pair;

/// How many calls are told.
pub(crate) const MOST_CALLS: u64 = 10;

/// Says in words the last ten calls of a rank that can be read, each with its times and with the calls that its
/// messages went to or came from. It says nothing if no call of the rank can be read. It is printed after
/// [`rank_words`](crate::rank_words). It takes what is known, since a diagnosis has no pairs. Fails with `AllocError`
/// when memory is refused.
pub fn last_calls(
    alloc: Global,
    layout: &Layout,
    diagnosis: &Diagnosis,
    texts: &TextFacts,
    answer: &Answer,
    know: &Knowledge,
    rank: u32,
) -> Result<Vec<u8>, AllocError> {
    let source = Source {
        alloc,
        layout,
        diagnosis,
        texts,
    };
    let prefix = answer.prefixes().get(rank as usize).copied().unwrap_or(0);
    let count = (prefix / 2).saturating_add(prefix % 2);
    let mut writer = Writer::new(source, false);
    if count > 0 {
        writer.put(b"\nIts last calls, of ");
        writer.put_number(count);
        writer.put(b" that can be read:\n");
    }
    for call in count.saturating_sub(MOST_CALLS)..count {
        writer.put_called(know, rank, prefix, call);
        writer.put_partners(answer.pairs(), rank, call);
        writer.put(b"\n");
    }
    let Writer { out, .. } = writer;
    clipped(alloc, &out.into_bytes()?, false)
}

/// The wall time of what is known of a place.
fn wall_at(know: &Knowledge, rank: u32, place: u64) -> Option<u64> {
    match know.cell(rank, place) {
        Cell::One(Event::Enter(_, time)) => Some(time.wall()),
        Cell::One(Event::Return(_, time)) => Some(time.wall()),
        Cell::Nothing | Cell::Contradiction => None,
    }
}

/// Whether an operation is of this call.
fn is_call(name: OpName, rank: u32, call: u64) -> bool {
    name.rank == rank && name.call == call
}

impl<'a> Writer<'a> {
    /// A call: when it was, and what it names.
    fn put_called(&mut self, know: &Knowledge, rank: u32, prefix: u64, call: u64) {
        let place = call.saturating_mul(2);
        self.put(b"  ");
        self.put_call(rank, call);
        if let Some(from) = wall_at(know, rank, place) {
            self.put(b", ");
            self.put_time(from);
        }
        if place.saturating_add(1) < prefix {
            if let Some(until) = wall_at(know, rank, place.saturating_add(1)) {
                self.put(b" to ");
                self.put_time(until);
            }
        } else {
            self.put(b", not returned");
        }
        self.put(b": ");
        if let Cell::One(Event::Enter(entered, _)) = know.cell(rank, place) {
            self.put_whole(rank, call, entered);
            self.put_size(entered);
        }
    }

    /// The other end of a message of a call: of a Startall the part is told.
    fn put_partner(&mut self, part: u32, words: &[u8], other: OpName) {
        self.put(b"; its message ");
        if part > 0 {
            self.put(b"of part ");
            self.put_number(part as u64);
            self.put(b" ");
        }
        self.put(words);
        self.put(b"call ");
        self.put_number(other.call);
        if other.part > 0 {
            self.put(b", part ");
            self.put_number(other.part as u64);
        }
        self.put(b" of rank ");
        self.put_number(other.rank as u64);
    }

    /// Where the messages of a call went and came from.
    fn put_partners(&mut self, pairs: &[Pair], rank: u32, call: u64) {
        for pair in pairs {
            if is_call(pair.message, rank, call) {
                self.put_partner(pair.message.part, b"went to ", pair.receive);
            }
            if is_call(pair.receive, rank, call) {
                self.put_partner(pair.receive.part, b"came from ", pair.message);
            }
        }
    }
}
