//! Pieces of local calls, and what they tell together.

use mpi_model::{Call, Event, Outs, Stamp};
use std::alloc::Global;
use std::test::Fail;
use trace_know::{Knowledge, Segment};

/// Local calls: their rank, the number of the first, how many events, and the nanoseconds that
/// their times are late. The time of an event is that of its place, so two pieces with one lateness
/// agree, and two with others contradict each other.
pub type Piece = (u32, u64, u64, u64);

/// The event of a place.
fn event(place: u64, late: u64) -> Result<Event, Fail> {
    let stamp = Stamp::new(place.saturating_add(late), 0).ok_or("a time")?;
    if place % 2 == 0 {
        Ok(Event::Enter(Call::Local, stamp))
    } else {
        Ok(Event::Return(Outs::Nothing, stamp))
    }
}

/// The segment of a piece: `Fail` where its numbers make no segment or memory lacks.
pub fn segment(alloc: Global, piece: Piece) -> Result<Segment, Fail> {
    let (rank, first, count, late) = piece;
    let start = first.saturating_mul(2);
    let mut events = Vec::new(alloc);
    for place in start..start.saturating_add(count) {
        events.push(event(place, late)?)?;
    }
    Ok(Segment::new(rank, first, events)?)
}

/// What these pieces tell together, taken in this order.
pub fn known(alloc: Global, pieces: &[Piece]) -> Result<Knowledge, Fail> {
    let mut know = Knowledge::new(alloc);
    for piece in pieces {
        know.take(&segment(alloc, *piece)?)?;
    }
    Ok(know)
}

/// How many places are known and how many contradict, and of rank 0 how much is readable and
/// whether something lies beyond.
pub type Summary = (usize, usize, usize, bool);

/// The summary of what is known.
pub fn summary(alloc: Global, know: &Knowledge) -> Result<Summary, Fail> {
    let contradictions = know.conflict_places(alloc)?;
    Ok((
        know.count(),
        contradictions.len(),
        know.readable(0).len(),
        know.beyond(0),
    ))
}
