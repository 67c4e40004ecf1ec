//! Events in parts of a segment's length, of which segments are made.

ghost use Rattle.std.specs.Prelude.{◌≡◌, ◌+◌, ◌%◌, ◌≤◌, ◌++◌, ◌∷◌, [], IfOk, OnErr, OnOk, length, min, true};
ghost use Rattle.dumpi_calls.specs.Collected.{AreSegments};
ghost use Rattle.dumpi_calls.specs.Parts.{AreParts, events_in};
ghost use Rattle.trace_know.specs.Segment.{alternate, enter_place};
ghost use Rattle.trace_know.specs.declared.segment.TheConstants.{MOST_EVENTS, PLACES};

use mpi_model::Event;
use std::alloc::{AllocError, Global};
use std::mem;
use trace_know::{MOST_EVENTS, ReadyEvents, ReadySegment};

/// The calls of a full part, each with an Enter and a Return: half of [`MOST_EVENTS`].
pub const MOST_CALLS: u64 = 32_768;

/// Events in their order: those of full parts, each of [`MOST_EVENTS`] events, and then those of the part that is being
/// filled.
#[derive(Drop)]
pub struct Parts {
    pub full: Vec<ReadyEvents>,
    pub last: ReadyEvents,
}

impl Parts {
    /// Empty parts, without events.
    pub fn new(alloc: Global) -> Parts
        ensures none { events_in result ≡ [] }
        ensures parts { AreParts result }
    {
        Parts {
            full: Vec::new(alloc),
            last: ReadyEvents::new(alloc),
        }
    }

    /// These events: in one part where they fit into it, so that none is moved. Fails with `AllocError` when memory is
    /// refused.
    pub fn of_events(events: ReadyEvents) -> Result<Parts, AllocError>
        ensures same { IfOk result (λ parts. events_in parts ≡ events) }
        ensures parts { IfOk result (λ parts. AreParts parts) }
    {
        let alloc = events.allocator();
        if events.count() <= MOST_EVENTS {
            return Ok(Parts {
                full: Vec::new(alloc),
                last: events,
            });
        }
        let mut parts = Parts::new(alloc);
        for event in events.into_events()? {
            parts.push(event)?;
        }
        Ok(parts)
    }

    /// Sees that the last part isn't full, so that it can take an event.
    #[inline(always)]
    fn see_room(&mut self) -> Result<(), AllocError>
        requires { AreParts self.old }
        ensures same { events_in self.new ≡ events_in self.old }
        ensures parts { AreParts self.new }
        ensures last { OnOk result (length self.new.last ≡ length self.old.last % MOST_EVENTS) }
    {
        if self.last.count() < MOST_EVENTS {
            return Ok(());
        }
        self.begin_part()?;
        Ok(())
    }

    /// Makes the last part, which is full, one of the full parts. The next has room for all its events from the start:
    /// memory that isn't written costs next to nothing.
    fn begin_part(&mut self) -> Result<(), AllocError>
        requires parts { AreParts self.old }
        requires full { length self.old.last ≡ MOST_EVENTS }
        ensures same { events_in self.new ≡ events_in self.old }
        ensures parts { AreParts self.new }
        ensures none { OnOk result (self.new.last ≡ []) }
    {
        let next = ReadyEvents::with_capacity(self.last.allocator(), MOST_EVENTS)?;
        self.full.reserve(1)?;
        let last = mem::replace(&mut self.last, next);
        self.full.push(last)?;
        Ok(())
    }

    /// Puts an event behind the others. On `AllocError`, when memory is refused, nothing changes.
    pub fn push(&mut self, event: Event) -> Result<(), AllocError>
        requires { AreParts self.old }
        ensures ok { OnOk result (events_in self.new ≡ events_in self.old ++ event ∷ []) }
        ensures parts { AreParts self.new }
        ensures err { OnErr result (events_in self.new ≡ events_in self.old) }
    {
        self.see_room()?;
        self.last.push(event)?;
        Ok(())
    }

    /// The segments of a rank's events from the Enter of a call on, a part each, none of no event. No event is moved.
    /// Fails with `AllocError` when memory is refused.
    pub fn into_ready(self, rank: u32, first: u64) -> Result<Vec<ReadySegment>, AllocError>
        requires parts { AreParts self }
        requires halves { alternate true (events_in self) ≡ true }
        requires places { enter_place first + length (events_in self) ≤ PLACES }
        ensures { IfOk result (λ segments. AreSegments rank first (events_in self) segments.items) }
    {
        let Parts { full, last } = self;
        let mut segments = Vec::new(last.allocator());
        let mut next = first;
        for part in full {
            segments.push(part.into_ready(rank, next)?)?;
            next += MOST_CALLS;
        }
        if last.count() > 0 {
            segments.push(last.into_ready(rank, next)?)?;
        }
        Ok(segments)
    }
}
