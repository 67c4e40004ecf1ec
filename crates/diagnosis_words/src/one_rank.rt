//! What a diagnosis says of one rank.

use crate::groups::groups_of;
use crate::source::Source;
use crate::texts::TextFacts;
use crate::words::{clipped, front};
use crate::writer::Writer;
use diagnosis_value::{Diagnosis, Held, Need};
use mpi_model::Layout;
use std::alloc::{AllocError, Global};

/// The most lines of a list.
const MOST_SHOWN: usize = 10;

/// Says in words how one rank stands, what it needs, what holds it up, what it holds up, and which of its messages,
/// receives and requests found no end: the same facts as [`diagnosis_words`](crate::diagnosis_words) tells of all
/// ranks. Fails with `AllocError` when memory is refused.
pub fn rank_words(
    alloc: Global,
    layout: &Layout,
    diagnosis: &Diagnosis,
    texts: &TextFacts,
    rank: u32,
    all: bool,
) -> Result<Vec<u8>, AllocError> {
    let source = Source {
        alloc,
        layout,
        diagnosis,
        texts,
    };
    let mut writer = Writer::new(source, all);
    writer.put_rank_head(rank);
    writer.put_rank_verdict(rank);
    if let Some(held) = source.held(rank) {
        writer.put_rank_needs(held)?;
    }
    writer.put_rank_roots(rank);
    writer.put_rank_waiters(rank)?;
    writer.put_rank_rounds(rank);
    writer.put_rank_messages(rank);
    let Writer { out, .. } = writer;
    clipped(alloc, &out.into_bytes()?, all)
}

/// Whether a rank is one of a list in rising order.
fn has(ranks: &[u32], rank: u32) -> bool {
    ranks.binary_search(&rank).is_ok()
}

/// The ranks of a held rank's needs, in rising order.
pub(crate) fn needed_ranks(alloc: Global, held: &Held) -> Result<Vec<u32>, AllocError> {
    let mut ranks = Vec::new(alloc);
    for need in held.needs.iter() {
        if let Need::Rank(rank) = need {
            ranks.push(*rank)?;
        }
    }
    ranks.sort()?;
    Ok(ranks)
}

impl<'a> Writer<'a> {
    /// How a rank stands, in one line.
    fn put_rank_head(&mut self, rank: u32) {
        self.put(b"Rank ");
        self.put_number(rank as u64);
        self.put(b" of ");
        let ranks = self.source.diagnosis.ranks as usize;
        self.put_counted(ranks, b" rank ", b" ranks ");
        self.put_stands(rank, &[]);
        self.put(b".\n");
    }

    /// Whether it is stuck.
    fn put_rank_verdict(&mut self, rank: u32) {
        let diagnosis = self.source.diagnosis;
        if has(diagnosis.stuck.as_slice(), rank) {
            self.put(b"It is stuck: what it waits for can't come.\n");
        } else if self.source.held(rank).is_some() {
            self.put(b"It isn't proved to be stuck, but it waits for what holds up the run.\n");
        }
    }

    /// What it needs, and how the ranks stand that it needs.
    fn put_rank_needs(&mut self, held: &Held) -> Result<(), AllocError> {
        self.put(b"It ");
        self.put_needs(held);
        self.put(b":\n");
        let ranks = needed_ranks(self.source.alloc, held)?;
        let groups = groups_of(self.source, ranks.as_slice())?;
        let cap = self.cap();
        for group in front(groups.as_slice(), cap) {
            self.put_group_line(group);
        }
        self.put_more(groups.len(), cap);
        Ok(())
    }

    /// At how many lines a list is cut.
    fn cap(&self) -> usize {
        if self.all { usize::MAX } else { MOST_SHOWN }
    }

    /// What holds it up, and whether it is part of what holds up the run.
    fn put_rank_roots(&mut self, rank: u32) {
        let roots = &self.source.diagnosis.waiting.roots;
        let mut told: usize = 0;
        for root in roots.iter() {
            if has(root.ranks.as_slice(), rank) {
                self.put_first_of(told, b"\nIt is part of what holds up the run:\n");
                self.put_root(root);
                told = told.saturating_add(1);
            }
        }
        told = 0;
        for root in roots.iter() {
            if has(root.holds_up.as_slice(), rank) {
                self.put_first_of(told, b"\nWhat holds it up:\n");
                self.put_root(root);
                told = told.saturating_add(1);
            }
        }
    }

    /// Who needs it.
    fn put_rank_waiters(&mut self, rank: u32) -> Result<(), AllocError> {
        let mut ranks = Vec::new(self.source.alloc);
        for held in self.source.diagnosis.waiting.held.iter() {
            if held.needs.iter().any(|need| *need == Need::Rank(rank)) {
                ranks.push(held.rank)?;
            }
        }
        if ranks.is_empty() {
            return Ok(());
        }
        self.put(b"\nThese wait for it:\n");
        let groups = groups_of(self.source, ranks.as_slice())?;
        let cap = self.cap();
        for group in front(groups.as_slice(), cap) {
            self.put_group_line(group);
        }
        self.put_more(groups.len(), cap);
        Ok(())
    }

    /// The rounds that don't match or are open, and that it has or hasn't entered.
    fn put_rank_rounds(&mut self, rank: u32) {
        let rounds = &self.source.diagnosis.rounds;
        let cap = self.cap();
        let mut told: usize = 0;
        for round in rounds.mismatched.iter() {
            let is_in = round
                .groups
                .iter()
                .any(|group| has(group.ranks.as_slice(), rank));
            if is_in && !self.source.is_root_round(round.round) && told < cap {
                self.put_first_of(told, b"\nIts rounds of collective calls:\n");
                self.put_mismatched_line(round);
                told = told.saturating_add(1);
            }
        }
        for round in rounds.open.iter() {
            let is_in = has(round.entered.as_slice(), rank) || has(round.missing.as_slice(), rank);
            if is_in && told < cap {
                self.put_first_of(told, b"\nIts rounds of collective calls:\n");
                self.put_open_line(round);
                told = told.saturating_add(1);
            }
        }
    }

    /// A head, in front of the first line of a list.
    fn put_first_of(&mut self, told: usize, head: &[u8]) {
        if told == 0 {
            self.put(head);
        }
    }

    /// Its messages, receives and requests that found no end.
    fn put_rank_messages(&mut self, rank: u32) {
        let unmatched = &self.source.diagnosis.unmatched;
        let cap = self.cap();
        let mut told: usize = 0;
        for left in unmatched.left_over.iter() {
            if (left.message.from == rank || left.message.to == rank) && told < cap {
                self.put_first_of(
                    told,
                    b"\nMessages from it or to it that nobody has received:\n",
                );
                self.put_left_over(left);
                told = told.saturating_add(1);
            }
        }
        told = 0;
        for starving in unmatched.starving.iter() {
            if starving.receive.at == rank && told < cap {
                self.put_first_of(
                    told,
                    b"\nIts receives that wait for a message that nobody has sent:\n",
                );
                self.put_starving(starving);
                told = told.saturating_add(1);
            }
        }
        told = 0;
        for name in unmatched.unfinished.iter() {
            if name.rank == rank && told < cap {
                self.put_first_of(told, b"\nIts requests that were never completed:\n");
                self.put_unfinished(*name);
                told = told.saturating_add(1);
            }
        }
    }
}
