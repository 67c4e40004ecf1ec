//! Places of messages, in their order: where the first message that waits is found without going through those that
//! were taken again.

ghost use Rattle.std.specs.Prelude.{◌≡◌, ◌++◌, ◌∷◌, [], OnOk, IfOk, drop, slice_get};
ghost use Rattle.trace_pair.specs.Waiting.{from_waiting, is_followed, is_of_call, call_at, sole_or_first};

use crate::sends::Sends;
use crate::taken_by::TakenBy;
use std::alloc::{AllocError, Global};
use std::collections::VecDeque;
use std::marker::Model;

/// Places, the first in front.
#[derive(Drop)]
pub(crate) struct Places {
    kept: VecDeque<usize>,
}

impl Model for Places {
    ghost use Rattle.std.specs.Prelude.{ℕ, List};

    ghost Value = { List ℕ };

    ghost view = { λ s. s.kept.items };
}

impl Places {
    /// A place alone.
    pub(crate) fn one(alloc: Global, place: usize) -> Result<Places, AllocError>
        ensures { IfOk result (λ places. places ≡ place ∷ []) }
    {
        let mut kept = VecDeque::new(alloc);
        kept.push_back(place)?;
        Ok(Places { kept })
    }

    /// A place more, behind the others.
    pub(crate) fn push(&mut self, place: usize) -> Result<(), AllocError>
        ensures { OnOk result (self.new ≡ self.old ++ place ∷ []) }
    {
        self.kept.push_back(place)?;
        Ok(())
    }

    /// The place in front.
    fn front(&self) -> Option<usize>
        ensures { result ≡ slice_get self.now 0 }
    {
        self.kept.get(0).copied()
    }

    /// Takes the place in front away.
    fn pop(&mut self)
        ensures { self.new ≡ drop 1 self.old }
    {
        self.kept.pop_front();
    }

    /// The first place at which a message waits. Those before it go.
    fn first_waiting(&mut self, takers: &TakenBy) -> Option<usize>
        ensures first { result ≡ slice_get (from_waiting takers.now self.old) 0 }
        ensures left { self.new ≡ from_waiting takers.now self.old }
    {
        while let Some(place) = self.front() {
            if takers.waits_at(place) {
                return Some(place);
            }
            self.pop();
        }
        None
    }

    /// Whether a message waits behind the one in front that is of its call.
    fn has_sibling(&self, messages: &Sends, takers: &TakenBy, call: u64) -> bool
        ensures { result ≡ is_followed messages.now takers.now call (drop 1 self.now) }
    {
        let mut next = 1;
        while let Some(place) = self.kept.get(next).copied() {
            if !is_of_call(messages, place, call) {
                return false;
            }
            if takers.waits_at(place) {
                return true;
            }
            next += 1;
        }
        false
    }

    /// The first place at which a message waits; where calls may have several parts, if no other one of
    /// its call does. Those before the first go.
    pub(crate) fn sole_waiting(
        &mut self,
        plain: bool,
        messages: &Sends,
        takers: &TakenBy,
    ) -> Option<usize>
        ensures sole { result ≡ sole_or_first plain messages.now takers.now (from_waiting takers.now self.old) }
        ensures left { self.new ≡ from_waiting takers.now self.old }
    {
        let Some(place) = self.first_waiting(takers) else {
            return None;
        };
        if plain {
            return Some(place);
        }
        let call = call_at(messages, place);
        if self.has_sibling(messages, takers, call) {
            return None;
        }
        Some(place)
    }
}

/// Whether the message at a place is of that call of its rank.
fn is_of_call(messages: &Sends, place: usize, call: u64) -> bool
    ensures { result ≡ is_of_call messages.now place call }
{
    match messages.get(place) {
        Some(m) => m.name.call == call,
        None => false,
    }
}

/// The call of the message at a place.
fn call_at(messages: &Sends, place: usize) -> u64
    ensures { result ≡ call_at messages.now place }
{
    match messages.get(place) {
        Some(m) => m.name.call,
        None => 0,
    }
}
