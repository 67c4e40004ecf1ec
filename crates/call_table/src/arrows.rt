//! When the messages in pairs were sent and received.

use crate::known::called_at;
use crate::partners::Partners;
use mpi_model::{OpName, Receive};
use std::alloc::{AllocError, Global};
use trace_know::Readable;
use trace_ops::RankOps;

/// A moment that isn't known.
const UNKNOWN: u64 = u64::MAX;

/// When each message in a pair was sent and received, in order of the pairs. It takes sixteen bytes a pair.
#[derive(Drop)]
pub struct Arrows {
    sent: Vec<u64>,
    received: Vec<u64>,
}

/// When a message of a call was sent: when the call was entered.
fn sent_at(events: &Readable<'_>, call: u64) -> u64 {
    match called_at(events, call) {
        Some(called) => called.enter,
        None => UNKNOWN,
    }
}

/// When a receive got its message: just before the call that completes it returned, so that the moment lies within that
/// call. A receive that isn't complete gets it where its own call was entered.
fn received_at(events: &Readable<'_>, receive: &Receive) -> u64 {
    let call = receive.ended.unwrap_or(receive.name.call);
    match called_at(events, call) {
        Some(called) => match called.exit {
            Some(exit) => called.enter.max(exit.saturating_sub(1)),
            None => called.enter,
        },
        None => UNKNOWN,
    }
}

/// Sets the moment at a place.
fn set(moments: &mut Vec<u64>, place: usize, moment: u64) {
    if place < moments.len() {
        moments[place] = moment;
    }
}

/// The place of a receive's pair.
fn place_of(partners: &Partners<'_>, receive: OpName) -> Option<usize> {
    partners.place_of(partners.message_of(receive)?)
}

impl Arrows {
    /// Nothing is known of so many pairs. Fails with `AllocError` when memory is refused.
    pub fn new(alloc: Global, pairs: usize) -> Result<Arrows, AllocError> {
        Ok(Arrows {
            sent: Vec::from_elem(alloc, UNKNOWN, pairs)?,
            received: Vec::from_elem(alloc, UNKNOWN, pairs)?,
        })
    }

    /// Adds when the messages of a rank were sent, and when it received those of others.
    pub fn add_rank(&mut self, own: &RankOps, partners: &Partners<'_>, events: &Readable<'_>) {
        for message in own.sends() {
            if let Some(place) = partners.place_of(message.name) {
                set(&mut self.sent, place, sent_at(events, message.name.call));
            }
        }
        for receive in own.receives() {
            if let Some(place) = place_of(partners, receive.name) {
                set(&mut self.received, place, received_at(events, receive));
            }
        }
    }

    /// When the message of the pair at a place was sent and received; `None` if one of both isn't known.
    pub fn at(&self, place: usize) -> Option<(u64, u64)> {
        let sent = *self.sent.get(place)?;
        let received = *self.received.get(place)?;
        if sent == UNKNOWN || received == UNKNOWN {
            None
        } else {
            Some((sent, received))
        }
    }
}
