//! How many bytes each message has, as the status of its receive tells it.

use crate::completion::Completions;
use crate::partners::Partners;
use crate::text::RankTexts;
use mpi_model::{OpName, Receive};
use std::alloc::{AllocError, Global};
use trace_ops::RankOps;

/// The bytes of a message of which no status tells them.
const NOT_TOLD: u64 = u64::MAX;

/// The bytes of the messages in pairs, in order of the pairs. It takes eight bytes a pair.
#[derive(Drop)]
pub struct ReceivedBytes {
    bytes: Vec<u64>,
}

/// The bytes that a receive of a rank got: its own status tells them, or that of the call which completes it.
pub fn bytes_of(receive: &Receive, texts: &RankTexts, completions: &Completions) -> Option<u64> {
    let name = receive.name;
    match completions.of_part(name.call, name.part) {
        Some((by, status)) => texts.bytes(by, status),
        None => texts.bytes(name.call, 0),
    }
}

impl ReceivedBytes {
    /// Nothing is told of so many pairs. Fails with `AllocError` when memory is refused.
    pub fn new(alloc: Global, pairs: usize) -> Result<ReceivedBytes, AllocError> {
        Ok(ReceivedBytes {
            bytes: Vec::from_elem(alloc, NOT_TOLD, pairs)?,
        })
    }

    /// Adds what the statuses of a rank tell of the messages that it received.
    pub fn add_rank(
        &mut self,
        own: &RankOps,
        partners: &Partners<'_>,
        texts: &RankTexts,
        completions: &Completions,
    ) {
        for receive in own.receives() {
            if let Some(bytes) = bytes_of(receive, texts, completions) {
                self.put(receive.name, partners, bytes);
            }
        }
    }

    /// The bytes of the message that a receive takes.
    fn put(&mut self, receive: OpName, partners: &Partners<'_>, bytes: u64) {
        let Some(message) = partners.message_of(receive) else {
            return;
        };
        let Some(place) = partners.place_of(message) else {
            return;
        };
        if place < self.bytes.len() {
            self.bytes[place] = bytes;
        }
    }

    /// The bytes of a message, where the status of its receive tells them.
    pub fn of_message(&self, partners: &Partners<'_>, message: OpName) -> Option<u64> {
        let place = partners.place_of(message)?;
        let bytes = *self.bytes.get(place)?;
        if bytes == NOT_TOLD { None } else { Some(bytes) }
    }
}
