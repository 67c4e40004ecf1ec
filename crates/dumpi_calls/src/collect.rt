//! A sink that keeps the events of its calls, for a piece whole or for segments.

ghost use Rattle.std.specs.Prelude.{◌≡◌, ◌<◌, ◌≤◌, ◌^◌, ◌+◌, ◌↔◌, [], IsTrue, ◌≢◌, IfOk, IfErr, OnErr, OnOk, Err, Ok, length, true};
ghost use Rattle.dumpi_calls.specs.Collected.{AreSegments, collected, ends_open, piece_of, placed};
ghost use Rattle.dumpi_calls.specs.Rows.{OnCollective};
ghost use Rattle.dumpi_calls.specs.Seen.{seen};
ghost use Rattle.trace_know.specs.Segment.{alternate, enter_place};
ghost use Rattle.trace_know.specs.declared.segment.TheConstants.{PLACES};

use crate::parts::Parts;
use crate::sink::CallSink;
use dumpi_text::MOST_LINES;
use mpi_model::{Call, Event, Exit, Stamp};
use std::alloc::{AllocError, AllocFailed, Global};
use std::marker::Model;
use thiserror::Error;
use trace_know::{PLACES, ReadyEvents, ReadyPiece, ReadySegment, SegmentFault};

/// A usual text has an event in somewhat more bytes than these.
const BYTES_AN_EVENT: u64 = 128;

/// Memory was refused for a call's events.
#[derive(Clone, Copy, Debug, PartialEq, Eq, Error)]
#[error("no memory is left")]
pub struct Memory;

impl From<AllocError> for Memory {
    fn from(_error: AllocError) -> Memory {
        Memory
    }
}

impl<T: Drop> From<AllocFailed<T>> for Memory {
    fn from(_failed: AllocFailed<T>) -> Memory {
        Memory
    }
}

/// The events of calls, in their order. Enter and Return alternate: a call after one that has not returned is left out.
#[derive(Drop)]
pub struct Collect {
    events: ReadyEvents,
    is_open: bool,
}

impl Model for Collect {
    ghost use Rattle.std.specs.Prelude.{◌≡◌, List, true};
    ghost use Rattle.mpi_model.specs.declared.event.Event.{Event};
    ghost use Rattle.trace_know.specs.Segment.{alternate};
    ghost use Rattle.dumpi_calls.specs.Collected.{ends_open};

    ghost Value = { List Event };

    ghost view = { λ c. c.events };

    ghost invariant = { λ c. (alternate true c.events ≡ true) × (c.is_open ≡ ends_open c.events) };
}

/// Whether so many events, from a call on, have a place past the last.
fn has_places_past(first_call: u64, count: u64) -> bool
    ensures { IsTrue result ↔ (PLACES < enter_place first_call + count) }
{
    first_call.saturating_mul(2).saturating_add(count) > PLACES
}

/// The segments of a rank's events, cut after each 65,536.
fn segments_of(
    events: ReadyEvents,
    rank: u32,
    first_call: u64,
) -> Result<Vec<ReadySegment>, AllocError>
    requires halves { alternate true events ≡ true }
    requires places { enter_place first_call + length events ≤ PLACES }
    ensures { IfOk result (λ segments. AreSegments rank first_call events segments.items) }
{
    let parts = Parts::of_events(events)?;
    parts.into_ready(rank, first_call)
}

impl Collect {
    ghost use Rattle.dumpi_calls.specs.Collected.{AreSegments, HasPlacesPast};
    ghost use Rattle.trace_know.specs.declared.segment.SegmentFault.TheVariants.{Place, Memory as NoMemory};
    ghost use Rattle.dumpi_calls.specs.Collected.{collected, piece_of};
    ghost use Rattle.dumpi_calls.specs.Rows.{OnCollective};
    ghost use Rattle.dumpi_calls.specs.Seen.{seen};

    /// A sink without events.
    pub fn new(alloc: Global) -> Collect
        ensures { result ≡ [] }
    {
        Collect {
            events: ReadyEvents::new(alloc),
            is_open: false,
        }
    }

    /// A sink without events, with room for about as many as a text of this many bytes has, if there is memory for it:
    /// a list of events that grows is moved each time. Unused room costs next to nothing.
    pub fn for_text(alloc: Global, bytes: u64) -> Collect
        ensures { result ≡ [] }
    {
        let room = (bytes / BYTES_AN_EVENT).min(MOST_LINES) as usize;
        let events = match ReadyEvents::with_capacity(alloc, room) {
            Ok(events) => events,
            Err(_) => ReadyEvents::new(alloc),
        };
        Collect {
            events,
            is_open: false,
        }
    }

    /// The events as a piece of a rank that stands ready, from the Enter of its call `first_call` on, however many:
    /// none is moved. No event gives no piece. It answers `Place` where an event would have a place at 2^40 or past it,
    /// and `Memory`.
    pub fn into_piece(self, rank: u32, first_call: u64) -> Result<Option<ReadyPiece>, SegmentFault>
        ensures ok { IfOk result (λ piece. piece ≡ piece_of rank first_call self) }
        ensures place { result ≡ Err Place ↔ HasPlacesPast first_call self }
        ensures err { IfErr result (λ fault. fault ≢ Place → fault ≡ NoMemory) }
    {
        let count = self.events.count();
        if count == 0 {
            return Ok(None);
        }
        if has_places_past(first_call, count as u64) {
            return Err(SegmentFault::Place);
        }
        match self.events.into_piece(rank, first_call) {
            Ok(piece) => Ok(Some(piece)),
            Err(_) => Err(SegmentFault::Memory),
        }
    }

    /// The events as segments of a rank that stand ready, from the Enter of its call `first_call` on, cut after each
    /// 65,536 events: where there are more, each is moved. No event gives no segment. It answers `Place` where an event
    /// would have a place at 2^40 or past it, and `Memory`.
    pub fn into_ready(self, rank: u32, first_call: u64) -> Result<Vec<ReadySegment>, SegmentFault>
        ensures ok { IfOk result (λ segments. AreSegments rank first_call self segments.items) }
        ensures place { result ≡ Err Place ↔ HasPlacesPast first_call self }
        ensures err { IfErr result (λ fault. fault ≢ Place → fault ≡ NoMemory) }
    {
        let count = self.events.count();
        if count == 0 {
            return Ok(Vec::new(self.events.allocator()));
        }
        if has_places_past(first_call, count as u64) {
            return Err(SegmentFault::Place);
        }
        match segments_of(self.events, rank, first_call) {
            Ok(segments) => Ok(segments),
            Err(_) => Err(SegmentFault::Memory),
        }
    }

    /// Keeps the events of one call, unless a call before it has not returned.
    fn push(&mut self, call: Call, enter: Stamp, exit: Option<Exit>) -> Result<(), Memory>
        ensures ok { OnOk result (self.new ≡ collected self.old (seen OnCollective call enter exit)) }
        ensures err { OnErr result (self.new ≡ self.old) }
        ensures open { ends_open self.old ≡ true → result ≡ Ok tt }
    {
        if self.is_open {
            return Ok(());
        }
        match exit {
            None => {
                self.events.push(Event::Enter(call, enter))?;
                self.is_open = true;
            }
            Some(exit) => {
                let Exit { outs, stamp } = exit;
                self.events
                    .push_both(Event::Enter(call, enter), Event::Return(outs, stamp))?;
            }
        }
        Ok(())
    }
}

impl CallSink for Collect {
    ghost use Rattle.dumpi_calls.specs.Collected.{collected};

    type Fault = Memory;

    ghost step = { collected };

    fn on_send(&mut self, call: Call, enter: Stamp, exit: Option<Exit>) -> Result<(), Memory> {
        self.push(call, enter, exit)
    }

    fn on_isend(&mut self, call: Call, enter: Stamp, exit: Option<Exit>) -> Result<(), Memory> {
        self.push(call, enter, exit)
    }

    fn on_recv(&mut self, call: Call, enter: Stamp, exit: Option<Exit>) -> Result<(), Memory> {
        self.push(call, enter, exit)
    }

    fn on_irecv(&mut self, call: Call, enter: Stamp, exit: Option<Exit>) -> Result<(), Memory> {
        self.push(call, enter, exit)
    }

    fn on_sendrecv(&mut self, call: Call, enter: Stamp, exit: Option<Exit>) -> Result<(), Memory> {
        self.push(call, enter, exit)
    }

    fn on_probe(&mut self, call: Call, enter: Stamp, exit: Option<Exit>) -> Result<(), Memory> {
        self.push(call, enter, exit)
    }

    fn on_wait(&mut self, call: Call, enter: Stamp, exit: Option<Exit>) -> Result<(), Memory> {
        self.push(call, enter, exit)
    }

    fn on_waitall(&mut self, call: Call, enter: Stamp, exit: Option<Exit>) -> Result<(), Memory> {
        self.push(call, enter, exit)
    }

    fn on_waitany(&mut self, call: Call, enter: Stamp, exit: Option<Exit>) -> Result<(), Memory> {
        self.push(call, enter, exit)
    }

    fn on_waitsome(&mut self, call: Call, enter: Stamp, exit: Option<Exit>) -> Result<(), Memory> {
        self.push(call, enter, exit)
    }

    fn on_test(&mut self, call: Call, enter: Stamp, exit: Option<Exit>) -> Result<(), Memory> {
        self.push(call, enter, exit)
    }

    fn on_testall(&mut self, call: Call, enter: Stamp, exit: Option<Exit>) -> Result<(), Memory> {
        self.push(call, enter, exit)
    }

    fn on_testany(&mut self, call: Call, enter: Stamp, exit: Option<Exit>) -> Result<(), Memory> {
        self.push(call, enter, exit)
    }

    fn on_testsome(&mut self, call: Call, enter: Stamp, exit: Option<Exit>) -> Result<(), Memory> {
        self.push(call, enter, exit)
    }

    fn on_cancel(&mut self, call: Call, enter: Stamp, exit: Option<Exit>) -> Result<(), Memory> {
        self.push(call, enter, exit)
    }

    fn on_request_free(
        &mut self,
        call: Call,
        enter: Stamp,
        exit: Option<Exit>,
    ) -> Result<(), Memory> {
        self.push(call, enter, exit)
    }

    fn on_collective(
        &mut self,
        call: Call,
        enter: Stamp,
        exit: Option<Exit>,
    ) -> Result<(), Memory> {
        self.push(call, enter, exit)
    }

    fn on_icollective(
        &mut self,
        call: Call,
        enter: Stamp,
        exit: Option<Exit>,
    ) -> Result<(), Memory> {
        self.push(call, enter, exit)
    }

    fn on_send_init(&mut self, call: Call, enter: Stamp, exit: Option<Exit>) -> Result<(), Memory> {
        self.push(call, enter, exit)
    }

    fn on_recv_init(&mut self, call: Call, enter: Stamp, exit: Option<Exit>) -> Result<(), Memory> {
        self.push(call, enter, exit)
    }

    fn on_start(&mut self, call: Call, enter: Stamp, exit: Option<Exit>) -> Result<(), Memory> {
        self.push(call, enter, exit)
    }

    fn on_startall(&mut self, call: Call, enter: Stamp, exit: Option<Exit>) -> Result<(), Memory> {
        self.push(call, enter, exit)
    }

    fn on_mprobe(&mut self, call: Call, enter: Stamp, exit: Option<Exit>) -> Result<(), Memory> {
        self.push(call, enter, exit)
    }

    fn on_improbe(&mut self, call: Call, enter: Stamp, exit: Option<Exit>) -> Result<(), Memory> {
        self.push(call, enter, exit)
    }

    fn on_iprobe(&mut self, call: Call, enter: Stamp, exit: Option<Exit>) -> Result<(), Memory> {
        self.push(call, enter, exit)
    }

    fn on_imrecv(&mut self, call: Call, enter: Stamp, exit: Option<Exit>) -> Result<(), Memory> {
        self.push(call, enter, exit)
    }

    fn on_unread(
        &mut self,
        _name: &[u8],
        call: Call,
        enter: Stamp,
        exit: Option<Exit>,
    ) -> Result<(), Memory> {
        self.push(call, enter, exit)
    }

    fn on_other(
        &mut self,
        _name: &[u8],
        call: Call,
        enter: Stamp,
        exit: Option<Exit>,
    ) -> Result<(), Memory> {
        self.push(call, enter, exit)
    }
}
