//! What is said of arguments that don't agree.

use crate::disagreements::{Alike, LONGEST_WORDS, most_of, value_text, what_differs};
use crate::writer::Writer;
use mpi_model::OpName;
use trace_arguments::{Disagreement, Line, Truncated, ValueGroup};

/// The most values of a round that are told.
const MOST_VALUES: usize = 4;

impl<'a> Writer<'a> {
    /// The function of a call as its text has it, else a word for it.
    fn put_function_or(&mut self, name: OpName, word: &[u8]) {
        match self.source.place(name.rank, name.call) {
            Some(place) => self.put_name(place.function.unwrap_or(word)),
            None => self.put(word),
        }
    }

    /// A receive that is too short for its message.
    fn put_truncation(&mut self, truncated: &Truncated) {
        let message = &truncated.message;
        let receive = &truncated.receive;
        self.put(b"rank ");
        self.put_number(receive.at as u64);
        self.put(b" has room for ");
        self.put_counted(receive.count as usize, b" element in ", b" elements in ");
        self.put_function_or(receive.name, b"a receive");
        self.put_in_brackets(receive.name);
        self.put(b", and the message of rank ");
        self.put_number(message.from as u64);
        self.put(b", ");
        self.put_message(message);
        self.put(b", by ");
        self.put_function_or(message.name, b"a send");
        self.put_in_brackets(message.name);
        self.put(b" has ");
        self.put_number(message.count as u64);
    }

    /// A value of a round, with the members that have it: `60000 at rank 2 (call 2, main.c:11 in main)`.
    fn put_value_group(&mut self, line: Line, group: &ValueGroup) {
        match value_text(self.source.alloc, line, group.value(), LONGEST_WORDS) {
            Ok(value) => self.put_clean(&value),
            Err(_) => self.out.give_up(),
        }
        self.put(b" at ");
        self.put_ranks(group.ranks());
        self.put_in_brackets(group.call());
    }

    /// The values of a round, that of most members last.
    fn put_values(&mut self, line: Line, groups: &[ValueGroup]) {
        let most = most_of(groups);
        let mut told: usize = 0;
        for (at, group) in groups.iter().enumerate() {
            if Some(at) != most && (told < MOST_VALUES || self.all) {
                self.put(if told == 0 {
                    b"".as_slice()
                } else {
                    b", ".as_slice()
                });
                self.put_value_group(line, group);
                told = told.saturating_add(1);
            }
        }
        let rest = groups
            .len()
            .saturating_sub(told)
            .saturating_sub(usize::from(most.is_some()));
        if rest > 0 {
            self.put(b", ");
            self.put_counted(rest, b" other value", b" other values");
        }
        if let Some(at) = most {
            if let Some(group) = groups.get(at) {
                self.put(b", ");
                self.put_value_group(line, group);
            }
        }
    }

    /// A member whose count isn't that of the root's list, and that.
    fn put_value_pair(&mut self, own: &ValueGroup, root: &ValueGroup) {
        self.put_value_group(Line::Listed, own);
        self.put(b", for which the root has ");
        match value_text(self.source.alloc, Line::Listed, root.value(), LONGEST_WORDS) {
            Ok(value) => self.put_clean(&value),
            Err(_) => self.out.give_up(),
        }
        self.put(b" at rank ");
        self.put_number(root.call().rank as u64);
        self.put_in_brackets(root.call());
    }

    /// The members whose counts aren't those of the root's list.
    fn put_value_pairs(&mut self, groups: &[ValueGroup]) {
        let mut told: usize = 0;
        for (at, own) in groups.iter().enumerate() {
            if at % 2 == 0 && (told < MOST_VALUES || self.all) {
                if let Some(root) = groups.get(at.saturating_add(1)) {
                    self.put(if told == 0 {
                        b"".as_slice()
                    } else {
                        b"; ".as_slice()
                    });
                    self.put_value_pair(own, root);
                    told = told.saturating_add(1);
                }
            }
        }
        let rest = (groups.len() / 2).saturating_sub(told);
        if rest > 0 {
            self.put(b"; and ");
            self.put_counted(rest, b" more member", b" more members");
        }
    }

    /// A round in which arguments don't agree: `round 0 of MPI_COMM_WORLD, MPI_Bcast: count 60000 at rank 2 (call 2, ..), ..`.
    fn put_disagreement(&mut self, one: &Disagreement) {
        self.put_round(one.comparison.round);
        self.put(b", ");
        self.put(one.function.name());
        self.put(b": ");
        self.put(what_differs(one.function, one.comparison.line));
        self.put(b" ");
        if one.comparison.line == Line::Listed {
            self.put_value_pairs(one.groups.as_slice());
        } else {
            self.put_values(one.comparison.line, one.groups.as_slice());
        }
    }

    /// What the first line says of the first of them.
    pub fn put_first_disagreement(&mut self) {
        let texts = self.source.texts;
        self.put(b"Arguments of calls don't agree, which MPI forbids: ");
        if let Some(truncated) = texts.truncated.as_slice().first() {
            self.put_truncation(truncated);
        } else if let Some(one) = texts.arguments.as_slice().first() {
            self.put_disagreement(one);
        }
        self.put(b".\n");
    }

    /// A receive that is too short for its message.
    pub fn put_truncated_line(&mut self, truncated: &Truncated) {
        self.put(b"  ");
        self.put_truncation(truncated);
        self.put(b"\n");
    }

    /// Rounds in which the same ranks differ in the same thing: the first, and how many more there are.
    pub fn put_disagreement_line(&mut self, alike: Alike) {
        let texts = self.source.texts;
        let Some(one) = texts.arguments.as_slice().get(alike.first) else {
            return;
        };
        self.put(b"  ");
        self.put_disagreement(one);
        if alike.more > 0 {
            self.put(b"; and in ");
            self.put_counted(alike.more, b" more round of ", b" more rounds of ");
            self.put_object(one.comparison.round.object);
        }
        self.put(b"\n");
    }
}
