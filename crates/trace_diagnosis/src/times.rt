//! The first and the last time of a run.

use crate::calls::{count_of, wall_at, wall_in};
use diagnosis_value::Times;
use trace_know::{Knowledge, Known, Readable};

/// The lesser of two times, where there may be one.
fn first_of(time: Option<u64>, wall: u64) -> u64 {
    match time {
        Some(first) => first.min(wall),
        None => wall,
    }
}

/// The greater of two times, where there may be one.
fn last_of(time: Option<u64>, wall: u64) -> u64 {
    match time {
        Some(last) => last.max(wall),
        None => wall,
    }
}

/// With the Enters of a rank.
fn begin_with(first: Option<u64>, events: &Readable<'_>) -> Option<u64> {
    let mut first = first;
    for number in 0..count_of(events) {
        let wall = wall_at(events, number.saturating_mul(2));
        first = Some(first_of(first, wall));
    }
    first
}

/// The earliest wall time of a readable Enter.
fn begin_of(know: &Knowledge, ranks: u32) -> Option<u64> {
    let mut first = None;
    for rank in 0..ranks {
        first = begin_with(first, &know.readable(rank));
    }
    first
}

/// The latest wall time of anything that is known.
fn end_of(know: &Knowledge) -> Option<u64> {
    let mut last = None;
    for (_, _, known) in know.cells() {
        if let Known::One(event) = known {
            last = Some(last_of(last, wall_in(event)));
        }
    }
    last
}

/// The times of a run.
pub(crate) fn times_of(know: &Knowledge, ranks: u32) -> Times {
    Times {
        begin: begin_of(know, ranks),
        end: end_of(know),
    }
}
