//! What is said of rounds.

use crate::writer::Writer;
use diagnosis_value::{MismatchedRound, OpenRound};

impl<'a> Writer<'a> {
    /// A round whose calls don't match.
    pub fn put_mismatched_line(&mut self, round: &MismatchedRound) {
        self.put(b"  ");
        self.put_mismatched(round);
        self.put(b"\n");
    }

    /// A round that some members haven't entered.
    pub fn put_open_line(&mut self, round: &OpenRound) {
        self.put(b"  ");
        self.put_round(round.round);
        self.put(b", ");
        self.put(round.function.name());
        if let Some(root) = round.root {
            self.put(b" with root ");
            self.put_number(root as u64);
        }
        self.put(b": ");
        self.put_ranks(round.entered.as_slice());
        self.put_either(round.entered.len(), b" has entered, ", b" have entered, ");
        self.put_ranks(round.missing.as_slice());
        self.put_either(round.missing.len(), b" hasn't", b" haven't");
        self.put_missing(round.missing.as_slice());
        self.put(b"\n");
    }

    /// Where the first of the ranks stands that haven't entered.
    fn put_missing(&mut self, missing: &[u32]) {
        let Some(rank) = missing.first().copied() else {
            return;
        };
        let Some(standing) = self.source.standing(rank) else {
            return;
        };
        if missing.len() == 1 {
            self.put(b": it ");
        } else {
            self.put(b": rank ");
            self.put_number(rank as u64);
            self.put(b" ");
        }
        self.put_doing(standing);
    }

    /// What is said in a node of a picture of a round whose calls don't match: a line for each group.
    pub fn put_round_node(&mut self, round: &MismatchedRound) {
        self.put_round(round.round);
        for group in round.groups.iter() {
            self.put(b"\n");
            self.put_call_group(group);
        }
    }
}
