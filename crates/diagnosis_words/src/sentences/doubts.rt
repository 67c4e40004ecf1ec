//! What is said of what may make all of it wrong, and of the other kind of sends.

use crate::functions::sort_word;
use crate::writer::Writer;
use diagnosis_value::{Doubts, Foreign};
use mpi_model::Sends;

/// The most functions, texts or objects of a line that are told.
const MOST_NAMED: usize = 10;

impl<'a> Writer<'a> {
    /// Writes which ranks would be stuck under the other kind of sends. The kind also says how early a collective call
    /// may return (MPI 4.0, 3.4 and 6.1).
    pub fn put_other_sends(&mut self, ranks: &[u32]) {
        let diagnosis = self.source.diagnosis;
        let do_wait = matches!(diagnosis.sends, Sends::Wait);
        self.put(if do_wait {
            b"\nIf MPI buffered standard sends, and let collective calls return as early as the standard allows, ".as_slice()
        } else {
            b"\nIf standard sends waited for their receives, and collective calls for all members, ".as_slice()
        });
        if !ranks.is_empty() {
            self.put_ranks(ranks);
            self.put(b" would be stuck.\n");
            return;
        }
        self.put(b"no rank would be stuck");
        if do_wait {
            self.put(
                b": whether the program hangs depends on the sizes of messages and on the MPI library",
            );
        }
        self.put(b".\n");
    }

    /// Ranks of which the same is to be doubted.
    fn put_doubted(&mut self, ranks: &[u32], one: &[u8], more: &[u8]) {
        if !ranks.is_empty() {
            self.put(b"  ");
            self.put_ranks(ranks);
            self.put_either(ranks.len(), one, more);
        }
    }

    /// What stands before an element of a list on one line, by its place: nothing where the list is cut before it, of
    /// which it says how many more there are.
    fn put_next(&mut self, i: usize, count: usize) -> bool {
        if i == MOST_NAMED && !self.all {
            self.put(b" and ");
            self.put_number(count.saturating_sub(i) as u64);
            self.put(b" more");
            return false;
        }
        if i > 0 {
            self.put(b", ");
        }
        true
    }

    /// The objects that the layout doesn't have, each with how many calls name it.
    fn put_all_foreign(&mut self, foreign: &[Foreign]) {
        if foreign.is_empty() {
            return;
        }
        let mut calls: u64 = 0;
        for one in foreign {
            calls = calls.saturating_add(one.calls);
        }
        self.put(b"  ");
        self.put_calls_of(calls, foreign.len(), b" object", b" objects");
        self.put(b" that the layout doesn't have, which count as local: ");
        for (i, one) in foreign.iter().enumerate() {
            if !self.put_next(i, foreign.len()) {
                break;
            }
            self.put(sort_word(one.object));
            self.put(b" ");
            self.put_number(one.number as u64);
            self.put(b" (");
            self.put_number(one.calls);
            self.put(b")");
        }
        self.put(b"\n");
    }

    /// `9 calls of 4 functions`.
    fn put_calls_of(&mut self, calls: u64, count: usize, one: &[u8], more: &[u8]) {
        self.put_number(calls);
        self.put(if calls == 1 {
            b" call of ".as_slice()
        } else {
            b" calls of ".as_slice()
        });
        self.put_counted(count, one, more);
    }

    /// The functions that may wait or move data and that aren't read.
    fn put_local(&mut self) {
        let local = self.source.texts.local.as_slice();
        if local.is_empty() {
            return;
        }
        let mut calls: u64 = 0;
        for one in local {
            calls = calls.saturating_add(one.calls);
        }
        self.put(b"  ");
        self.put_calls_of(calls, local.len(), b" function", b" functions");
        self.put(b" that may wait for others or move data, and that mpimatch does not read: ");
        for (i, one) in local.iter().enumerate() {
            if !self.put_next(i, local.len()) {
                break;
            }
            self.put_name(one.function.as_slice());
            self.put(b" (");
            self.put_number(one.calls);
            self.put(b")");
        }
        self.put(b"\n");
    }

    /// The texts that were cut.
    fn put_cut(&mut self) {
        let texts = self.source.texts;
        let cut = texts.cut.as_slice();
        if cut.is_empty() {
            return;
        }
        self.put(b"  ");
        self.put_counted(
            cut.len(),
            b" text ends inside a line or a call: ",
            b" texts end inside a line or a call: ",
        );
        for (i, one) in cut.iter().enumerate() {
            if !self.put_next(i, cut.len()) {
                break;
            }
            if let Some(note) = texts.notes.as_slice().get(one.note) {
                self.put(note.file());
            }
            self.put(b" at line ");
            self.put_number(one.line);
        }
        self.put(b"\n");
    }

    /// That the run has more ranks than the layout.
    fn put_run_size(&mut self) {
        let ranks = self.source.diagnosis.ranks as u64;
        if let Some(size) = self.source.texts.size.filter(|size| *size > ranks) {
            self.put(b"  MPI_Comm_size tells of ");
            self.put_number(size);
            self.put(b" ranks of MPI_COMM_WORLD, and the layout has ");
            self.put_number(ranks);
            self.put(b"\n");
        }
    }

    /// What may make all of it wrong.
    pub fn put_doubts(&mut self, doubts: &Doubts) {
        self.put_local();
        self.put_all_foreign(doubts.foreign.as_slice());
        self.put_doubted(
            doubts.unread.as_slice(),
            b": what is known ends at a call that mpimatch does not read\n",
            b": what is known of each ends at a call that mpimatch does not read\n",
        );
        self.put_doubted(
            doubts.gaps.as_slice(),
            b": more is known behind a gap, and not used\n",
            b": more is known of each behind a gap, and not used\n",
        );
        self.put_doubted(
            doubts.conflicts.as_slice(),
            b": two pieces tell two things of one place\n",
            b": of each two pieces tell two things of one place\n",
        );
        self.put_doubted(
            doubts.no_calls.as_slice(),
            b": nothing is known\n",
            b": nothing is known of any\n",
        );
        self.put_cut();
        self.put_run_size();
    }
}
