//! The calls of a rank, as its readable events tell them.

use mpi_model::{Call, Event, Outs};
use trace_know::Readable;

/// A call that was entered: what it is, what it brought back where it has returned, and the wall times of both.
#[derive(Clone, Copy)]
pub struct Called<'a> {
    pub call: &'a Call,
    pub outs: Option<&'a Outs>,
    pub enter: u64,
    pub exit: Option<u64>,
}

/// How many calls these events tell: the last may have no Return.
pub fn count_of(events: &Readable<'_>) -> u64 {
    (events.len() / 2 + events.len() % 2) as u64
}

/// The event at a place, where it is readable.
fn event_at<'a>(events: &Readable<'a>, place: u64) -> Option<&'a Event> {
    if place < events.len() as u64 {
        Some(events.at(place as usize))
    } else {
        None
    }
}

/// What the Return at a place brought back.
fn outs_at<'a>(events: &Readable<'a>, place: u64) -> Option<&'a Outs> {
    match event_at(events, place)? {
        Event::Return(outs, _) => Some(outs),
        Event::Enter(_, _) => None,
    }
}

/// The call of a number, where its Enter is readable.
pub fn called_at<'a>(events: &Readable<'a>, number: u64) -> Option<Called<'a>> {
    let place = number.checked_mul(2)?;
    match event_at(events, place)? {
        Event::Enter(call, stamp) => {
            let behind = place.saturating_add(1);
            Some(Called {
                call,
                outs: outs_at(events, behind),
                enter: stamp.wall(),
                exit: wall_at(events, behind),
            })
        }
        Event::Return(_, _) => None,
    }
}

/// The wall times of the first and of the last of these events; `None` where there is none.
pub fn times_of(events: &Readable<'_>) -> Option<(u64, u64)> {
    let last = (events.len() as u64).checked_sub(1)?;
    Some((wall_at(events, 0)?, wall_at(events, last)?))
}

/// The wall time of the event at a place.
fn wall_at(events: &Readable<'_>, place: u64) -> Option<u64> {
    match event_at(events, place)? {
        Event::Enter(_, stamp) => Some(stamp.wall()),
        Event::Return(_, stamp) => Some(stamp.wall()),
    }
}
