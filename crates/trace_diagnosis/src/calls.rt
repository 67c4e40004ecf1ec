//! The calls of a rank, as its readable events tell them.

ghost use Rattle.std.specs.Prelude.{◌≡◌, ◌≤◌, ◌^◌, slice_get};
ghost use Rattle.std.specs.Option.{option_copied, option_map};
ghost use Rattle.trace_diagnosis.specs.Called.{called_in, called_plain, count_of, entered_at, entered_in, returned_at, returned_in};
ghost use Rattle.trace_diagnosis.specs.Starving.{call_name};

use mpi_model::{Call, Event, OpName, Outs};
use trace_know::{Cell, Knowledge, Readable};

/// A call that was entered, with its outcome, where it has returned.
#[derive(Clone, Copy)]
pub(crate) struct Called<'a> {
    pub call: &'a Call,
    pub outs: Option<&'a Outs>,
}

/// The call of an Enter.
fn entered_in(event: &Event) -> Option<&Call>
    ensures { option_copied result ≡ entered_in event.now }
{
    match event {
        Event::Enter(call, _) => Some(call),
        Event::Return(_, _) => None,
    }
}

/// The outcome of a Return.
fn returned_in(event: &Event) -> Option<&Outs>
    ensures { option_copied result ≡ returned_in event.now }
{
    match event {
        Event::Return(outs, _) => Some(outs),
        Event::Enter(_, _) => None,
    }
}

/// The wall time of an event.
pub(crate) fn wall_in(event: &Event) -> u64 {
    match event {
        Event::Enter(_, stamp) => stamp.wall(),
        Event::Return(_, stamp) => stamp.wall(),
    }
}

/// How many calls these events tell: the last may have no Return.
pub(crate) fn count_of(events: &Readable<'_>) -> u64
    ensures count { result ≡ count_of events.now }
    ensures few { result ≤ 2 ^ 63 }
{
    (events.len() / 2 + events.len() % 2) as u64
}

/// The event at a place, where it is readable.
pub(crate) fn event_at<'a>(events: &Readable<'a>, place: u64) -> Option<&'a Event>
    ensures { option_copied result ≡ slice_get events.now place }
{
    if place < events.len() as u64 {
        Some(events.at(place as usize))
    } else {
        None
    }
}

/// The call of the Enter at a place.
fn entered_at<'a>(events: &Readable<'a>, place: u64) -> Option<&'a Call>
    ensures { option_copied result ≡ entered_at events.now place }
{
    match event_at(events, place) {
        Some(event) => entered_in(event),
        None => None,
    }
}

/// The outcome of the Return at a place.
fn returned_at<'a>(events: &Readable<'a>, place: u64) -> Option<&'a Outs>
    ensures { option_copied result ≡ returned_at events.now place }
{
    match event_at(events, place) {
        Some(event) => returned_in(event),
        None => None,
    }
}

/// The call of a number, where its Enter is readable.
pub(crate) fn called_at<'a>(events: &Readable<'a>, number: u64) -> Option<Called<'a>>
    ensures { option_map called_plain result ≡ called_in events.now number }
{
    if number >= count_of(events) {
        return None;
    }
    let place = number * 2;
    match entered_at(events, place) {
        Some(call) => Some(Called {
            call,
            outs: returned_at(events, place + 1),
        }),
        None => None,
    }
}

/// The wall time of the event at a place.
pub(crate) fn wall_at(events: &Readable<'_>, place: u64) -> u64 {
    match event_at(events, place) {
        Some(event) => wall_in(event),
        None => 0,
    }
}

/// The call of that name, as it was entered.
pub(crate) fn call_named<'a>(know: &'a Knowledge, name: OpName) -> Option<&'a Call> {
    match know.cell(name.rank, name.call.saturating_mul(2)) {
        Cell::One(event) => entered_in(event),
        Cell::Nothing | Cell::Contradiction => None,
    }
}

/// The operation of a rank's call, which is no Startall.
pub(crate) fn named(rank: u32, call: u64) -> OpName
    ensures { result ≡ call_name rank call }
{
    OpName {
        rank,
        call,
        part: 0,
    }
}
