//! What makes an answer doubtful, place by place and message by message.

use crate::source::Source;
use crate::texts::TextFacts;
use crate::words::{clipped, front};
use crate::writer::Writer;
use diagnosis_value::Diagnosis;
use mpi_model::{Event, Layout, OpName};
use std::alloc::{AllocError, Global};
use trace_know::{Cell, Knowledge};
use trace_node::Answer;

/// The most lines of a list.
const MOST_SHOWN: usize = 10;

/// The most messages that are named on a line.
const MOST_NAMED: usize = 3;

/// Says in words of which places two pieces say different things, and which messages are in no pair because a receive
/// may have taken them. It is printed after [`diagnosis_words`](crate::diagnosis_words). It takes the answer and what
/// is known, since a diagnosis has neither. Fails with `AllocError` when memory is refused.
pub fn answer_doubts(
    alloc: Global,
    layout: &Layout,
    diagnosis: &Diagnosis,
    texts: &TextFacts,
    answer: &Answer,
    know: &Knowledge,
    all: bool,
) -> Result<Vec<u8>, AllocError> {
    let source = Source {
        alloc,
        layout,
        diagnosis,
        texts,
    };
    let cap = if all { usize::MAX } else { MOST_SHOWN };
    let mut writer = Writer::new(source, all);
    for (rank, place) in front(answer.conflicts(), cap) {
        writer.put_conflict(*rank, *place);
    }
    writer.put_more(answer.conflicts().len(), cap);
    writer.put_postponed(know, answer.postponed());
    let undecided = undecided_of(alloc, diagnosis, answer)?;
    writer.put_undecided(know, undecided.as_slice());
    let Writer { out, .. } = writer;
    clipped(alloc, &out.into_bytes()?, all)
}

/// The messages that are undecided, but for those that are postponed.
fn undecided_of(
    alloc: Global,
    diagnosis: &Diagnosis,
    answer: &Answer,
) -> Result<Vec<OpName>, AllocError> {
    let mut names = Vec::new(alloc);
    for message in diagnosis.unmatched.undecided.iter() {
        if answer.postponed().binary_search(&message.name).is_err() {
            names.push(message.name)?;
        }
    }
    Ok(names)
}

impl<'a> Writer<'a> {
    /// That two pieces tell two things of a place.
    fn put_conflict(&mut self, rank: u32, place: u64) {
        self.put(b"  rank ");
        self.put_number(rank as u64);
        self.put(b": two pieces disagree on how call ");
        self.put_number(place / 2);
        self.put(if place % 2 == 0 {
            b" was entered\n".as_slice()
        } else {
            b" returned\n".as_slice()
        });
    }

    /// The messages in no pair that a receive may have taken whose source no status tells, in one line.
    fn put_postponed(&mut self, know: &Knowledge, names: &[OpName]) {
        if names.is_empty() {
            return;
        }
        self.put(b"  ");
        self.put_counted(names.len(), b" message is", b" messages are");
        self.put(
            b" paired with no receive, since one whose source no status tells may have taken ",
        );
        self.put_either(names.len(), b"it: ", b"them: ");
        self.put_calls_known(know, names);
    }

    /// Other messages in no pair that a receive may have taken, in one line.
    fn put_undecided(&mut self, know: &Knowledge, names: &[OpName]) {
        if names.is_empty() {
            return;
        }
        self.put(b"  ");
        self.put_counted(names.len(), b" message fits", b" messages fit");
        self.put(b" a receive, and it is not certain which one takes ");
        self.put_either(names.len(), b"it: ", b"them: ");
        self.put_calls_known(know, names);
    }

    /// The first calls of a list, and how many more there are; then the line ends.
    fn put_calls_known(&mut self, know: &Knowledge, names: &[OpName]) {
        for (i, name) in names.iter().enumerate() {
            if i == MOST_NAMED && !self.all {
                self.put(b" and ");
                self.put_number(names.len().saturating_sub(i) as u64);
                self.put(b" more");
                break;
            }
            self.put(if i == 0 {
                b"".as_slice()
            } else {
                b"; ".as_slice()
            });
            self.put_known_call(know, *name);
        }
        self.put(b"\n");
    }

    /// A call by what is known of it: `rank 0, MPI_Startall (call 2, r0.txt:17, part 1)`.
    fn put_known_call(&mut self, know: &Knowledge, name: OpName) {
        self.put(b"rank ");
        self.put_number(name.rank as u64);
        self.put(b", ");
        if let Cell::One(Event::Enter(call, _)) = know.cell(
            name.rank,
            name.call.saturating_mul(2),
        ) {
            self.put_function(name.rank, name.call, call);
        }
        self.put(b" (");
        self.put_call(name.rank, name.call);
        if name.part > 0 {
            self.put(b", part ");
            self.put_number(name.part as u64);
        }
        self.put(b")");
    }
}
