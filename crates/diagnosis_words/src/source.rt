//! What is printed from: a diagnosis, the layout that it is of, and what the texts tell.

use crate::functions::function_name;
use crate::texts::{Place, TextFacts};
use diagnosis_value::{
    Diagnosis, Held, LastCall, Operation, Polling, Root, RootKind, RoundName, Standing,
};
use mpi_model::{Call, Layout, OpName};
use std::alloc::Global;

/// All that the printers print from.
#[derive(Clone, Copy)]
pub(crate) struct Source<'a> {
    pub alloc: Global,
    pub layout: &'a Layout,
    pub diagnosis: &'a Diagnosis,
    pub texts: &'a TextFacts,
}

impl<'a> Source<'a> {
    /// Where a call stands in the texts.
    pub fn place(self, rank: u32, call: u64) -> Option<Place<'a>> {
        self.texts.place(rank, call)
    }

    /// The name of a call's function: as its text has it, else by what the call is.
    pub fn function(self, rank: u32, number: u64, call: &Call) -> &'a [u8] {
        if let Some(place) = self.place(rank, number) {
            if let Some(function) = place.function {
                return function;
            }
        }
        function_name(call)
    }

    /// How a rank stands.
    pub fn standing(self, rank: u32) -> Option<&'a Standing> {
        self.diagnosis
            .waiting
            .standing
            .as_slice()
            .get(rank as usize)
    }

    /// The last call of a rank.
    pub fn last_call(self, rank: u32) -> Option<&'a LastCall> {
        self.standing(rank)?.call.as_ref()
    }

    /// What a rank polls for, where it polls.
    pub fn polling(self, rank: u32) -> Option<&'a Polling> {
        let polls = self.diagnosis.waiting.polls.as_slice();
        match polls.binary_search_by_key(&rank, |polling| polling.rank) {
            Ok(at) => polls.get(at),
            Err(_) => None,
        }
    }

    /// What a rank needs, where it is held.
    pub fn held(self, rank: u32) -> Option<&'a Held> {
        let held = self.diagnosis.waiting.held.as_slice();
        match held.binary_search_by_key(&rank, |one| one.rank) {
            Ok(at) => held.get(at),
            Err(_) => None,
        }
    }

    /// The root of which a rank is one, but for rounds.
    pub fn root_of(self, rank: u32) -> Option<&'a Root> {
        for root in self.diagnosis.waiting.roots.as_slice() {
            let is_round = matches!(root.kind, RootKind::Mismatch(_));
            if !is_round && root.ranks.as_slice().binary_search(&rank).is_ok() {
                return Some(root);
            }
        }
        None
    }

    /// Whether a round holds up the run itself.
    pub fn is_root_round(self, round: RoundName) -> bool {
        let roots = &self.diagnosis.waiting.roots;
        roots
            .iter()
            .any(|root| root.kind == RootKind::Mismatch(round))
    }

    /// An operation that the diagnosis names.
    pub fn operation(self, name: OpName) -> Option<&'a Operation> {
        let operations = self.diagnosis.operations.as_slice();
        match operations.binary_search_by_key(&name, |operation| operation.name) {
            Ok(at) => operations.get(at),
            Err(_) => None,
        }
    }
}
