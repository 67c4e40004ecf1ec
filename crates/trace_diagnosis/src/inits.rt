//! The calls that made persistent requests, by their numbers.

use crate::calls::{call_named, called_at, count_of};
use mpi_model::{NULL_REQUEST, OpName, Outs};
use std::alloc::{AllocError, Global};
use trace_know::{Knowledge, Readable};
use trace_ops::{is_init, started_by};

/// A call of a rank that made a persistent request, by the number of the request.
#[derive(Clone, Copy)]
pub(crate) struct Made {
    pub request: i64,
    pub call: u64,
}

/// The calls of each rank that made persistent requests, by request and call.
#[derive(Drop)]
pub(crate) struct Inits {
    ranks: Vec<Vec<Made>>,
}

/// The number that a call brought back.
fn posted(outs: &Outs) -> Option<i64> {
    match outs {
        Outs::Posted(request) => {
            if *request == NULL_REQUEST {
                None
            } else {
                Some(*request)
            }
        }
        _ => None,
    }
}

/// The persistent request that a call made, where it did.
fn made_by(events: &Readable<'_>, number: u64) -> Option<Made> {
    let called = called_at(events, number)?;
    if !is_init(called.call) {
        return None;
    }
    let request = posted(called.outs?)?;
    Some(Made {
        request,
        call: number,
    })
}

/// The calls of a rank that made persistent requests, by request and call.
fn made_of(alloc: Global, events: &Readable<'_>) -> Result<Vec<Made>, AllocError> {
    let mut made = Vec::new(alloc);
    for number in 0..count_of(events) {
        if let Some(one) = made_by(events, number) {
            made.push(one)?;
        }
    }
    made.sort_by_key(|one| (one.request, one.call))?;
    Ok(made)
}

impl Inits {
    /// The table for all ranks. Fails with `AllocError` when memory is refused.
    pub fn of(alloc: Global, know: &Knowledge, ranks: u32) -> Result<Inits, AllocError> {
        let mut all = Vec::new(alloc);
        for rank in 0..ranks {
            all.push(made_of(alloc, &know.readable(rank))?)?;
        }
        Ok(Inits { ranks: all })
    }

    /// The calls of a rank that made persistent requests, by request and call.
    pub fn of_rank(&self, rank: u32) -> &[Made] {
        match self.ranks.get(rank as usize) {
            Some(made) => made,
            None => &[],
        }
    }

    /// The last of the rank's calls before this one that made the request.
    pub fn last(&self, rank: u32, request: i64, before: u64) -> Option<u64> {
        let made = self.of_rank(rank);
        let place = made.partition_point(|one| (one.request, one.call) < (request, before));
        let found = made.get(place.checked_sub(1)?)?;
        if found.request == request {
            Some(found.call)
        } else {
            None
        }
    }

    /// The init of what a Start or Startall has started.
    pub fn started(&self, know: &Knowledge, name: OpName) -> Option<u64> {
        let call = call_named(know, name)?;
        let request = *started_by(call).get(name.part as usize)?;
        self.last(name.rank, request, name.call)
    }
}
