//! Segments whose events stand as cells, ready to be joined.

ghost use Rattle.std.specs.Prelude.{◌≡◌, ◌+◌, ◌<◌, ◌≤◌, ◌++◌, ◌∷◌, [], length, true, vec_len, vec_capacity, IfOk, IfErr, OnOk, OnErr};
ghost use Rattle.trace_know.specs.declared.cell.Known.TheVariants.{One};
ghost use Rattle.trace_know.specs.declared.segment.TheConstants.{MOST_EVENTS, PLACES};
ghost use Rattle.trace_know.specs.Ready.{IsReady, segment_in};
ghost use Rattle.trace_know.specs.Runs.{sound_among};
ghost use Rattle.trace_know.specs.Segment.{IsSegment, alternate, enter_place, placed_events};

use crate::boxed::BoxedRun;
use crate::cell::{Known, enters_unread};
use crate::copies::boxed_copy;
use crate::ready_piece::ReadyPiece;
use crate::run::{give_back, run_of_events, run_with_room};
use crate::segment::Segment;
use mpi_model::Event;
use std::alloc::{AllocError, AllocFailed, Global};
use std::marker::Model;

/// A segment whose events already have the form in which knowledge keeps them:
/// [`Knowledge::take_ready`](crate::Knowledge::take_ready) only moves a pointer if no known place touches it. So the
/// reading thread does the work, and the joining thread has less to do.
///
/// In a contract it is the segment.
#[derive(Drop)]
pub struct ReadySegment {
    piece: BoxedRun,
}

impl Model for ReadySegment {
    ghost use Rattle.trace_know.specs.Ready.{IsReady, segment_in};
    ghost use Rattle.trace_know.specs.Segment.{PlacedEvents};

    ghost Value = { PlacedEvents };

    ghost view = { λ r. segment_in r.piece };

    ghost invariant = { λ r. IsReady r.piece };
}

impl ReadySegment {
    /// Makes a segment ready: its events are moved. If memory runs out, the segment comes back.
    pub fn new(alloc: Global, segment: Segment) -> Result<ReadySegment, AllocFailed<Segment>>
        ensures ok { IfOk result (λ ready. ready ≡ segment) }
        ensures back { IfErr result (λ refused. refused.value ≡ segment) }
    {
        segment.known();
        let (rank, first_place, mut events) = segment.into_parts();
        match piece_of(alloc, rank, first_place, &mut events) {
            Ok(piece) => Ok(ReadySegment { piece }),
            Err(_) => Err(AllocFailed {
                value: Segment::of_parts(rank, first_place, events),
            }),
        }
    }

    /// The segment as it was before, with its events in a list. If memory runs out, the ready segment comes back.
    pub fn into_segment(self, alloc: Global) -> Result<Segment, AllocFailed<ReadySegment>>
        ensures ok { IfOk result (λ segment. segment ≡ self) }
        ensures back { IfErr result (λ refused. refused.value ≡ self) }
    {
        let Ok(mut events) = Vec::with_capacity(alloc, self.piece.len()) else {
            return Err(AllocFailed { value: self });
        };
        let rank = self.piece.rank();
        let first_place = self.piece.first();
        self.piece.give_back(&mut events);
        Ok(Segment::of_parts(rank, first_place, events))
    }

    /// The rank whose events these are.
    pub fn rank(&self) -> u32
        ensures { result ≡ self.now.rank }
    {
        self.piece.rank()
    }

    /// The place of the first event, that of an Enter.
    pub fn first_place(&self) -> u64
        ensures { result ≡ self.now.first_place }
    {
        self.piece.first()
    }

    /// How many events there are.
    pub fn count(&self) -> usize
        ensures { result ≡ length self.now.events }
    {
        self.piece.len()
    }

    /// Tells what holds of every segment. It does nothing: it is for proofs.
    pub fn known(&self)
        ensures { IsSegment self.now }
    {
        let _ = &self.piece;
    }

    /// An equal segment, which stands ready too, in memory of its own. Fails with `AllocError` when memory is refused.
    pub fn try_clone(&self) -> Result<ReadySegment, AllocError>
        ensures { IfOk result (λ copy. copy ≡ self.now) }
    {
        Ok(ReadySegment {
            piece: boxed_copy(self.piece.allocator(), &self.piece)?,
        })
    }

    /// The run of its events, of which [`of_piece`](Self::of_piece) makes it again.
    pub(crate) fn into_piece(self) -> BoxedRun
        ensures ready { IsReady result }
        ensures segment { segment_in result ≡ self }
    {
        self.piece
    }

    /// The segment of this run's events.
    pub(crate) fn of_piece(piece: BoxedRun) -> ReadySegment
        requires { IsReady piece }
        ensures { result ≡ segment_in piece }
    {
        ReadySegment { piece }
    }
}

/// Events of a segment or a piece to come, each in the form in which knowledge keeps it: they become a [`ReadySegment`]
/// or a [`ReadyPiece`] without a move.
///
/// In a contract they are their list.
#[derive(Drop)]
pub struct ReadyEvents {
    cells: Vec<Known>,
    /// How many cells stand before the first at which a readable prefix ends.
    sound: usize,
}

impl Model for ReadyEvents {
    ghost use Rattle.std.specs.Prelude.{List};
    ghost use Rattle.mpi_model.specs.declared.event.Event.{Event};
    ghost use Rattle.trace_know.specs.Ready.{AreEvents, events_among};

    ghost Value = { List Event };

    ghost view = { λ r. events_among r.cells.items };

    ghost invariant = { λ r. AreEvents r.cells.items r.sound };
}

impl ReadyEvents {
    /// An empty list of events. Takes no memory.
    pub fn new(alloc: Global) -> ReadyEvents
        ensures { result ≡ [] }
    {
        ReadyEvents {
            cells: Vec::new(alloc),
            sound: 0,
        }
    }

    /// An empty list of events, with room for this many. Fails with `AllocError` when memory is refused.
    pub fn with_capacity(alloc: Global, capacity: usize) -> Result<ReadyEvents, AllocError>
        ensures { IfOk result (λ events. events ≡ []) }
    {
        Ok(ReadyEvents {
            cells: Vec::with_capacity(alloc, capacity)?,
            sound: 0,
        })
    }

    /// The allocator of their memory.
    pub fn allocator(&self) -> Global {
        *self.cells.allocator()
    }

    /// How many events there are.
    pub fn count(&self) -> usize
        ensures { result ≡ length self.now }
    {
        self.cells.len()
    }

    /// Appends an event. On `AllocError`, when memory is refused, nothing changes.
    pub fn push(&mut self, event: Event) -> Result<(), AllocError>
        ensures ok { OnOk result (self.new ≡ self.old ++ event ∷ []) }
        ensures err { OnErr result (self.new ≡ self.old) }
    {
        self.cells.reserve(1)?;
        self.sound = put_behind(&mut self.cells, self.sound, event);
        Ok(())
    }

    /// Appends the two events of a call, or neither. On `AllocError`, when memory is refused, nothing changes.
    pub fn push_both(&mut self, enter: Event, exit: Event) -> Result<(), AllocError>
        ensures ok { OnOk result (self.new ≡ self.old ++ enter ∷ exit ∷ []) }
        ensures err { OnErr result (self.new ≡ self.old) }
    {
        self.cells.reserve(2)?;
        let sound = put_behind(&mut self.cells, self.sound, enter);
        self.sound = put_behind(&mut self.cells, sound, exit);
        Ok(())
    }

    /// The segment of these events, ready, from the Enter of its call `first_call` on. No event is moved. Fails with
    /// `AllocError` when memory is refused.
    pub fn into_ready(self, rank: u32, first_call: u64) -> Result<ReadySegment, AllocError>
        requires some { 0 < length self }
        requires most { length self ≤ MOST_EVENTS }
        requires places { enter_place first_call + length self ≤ PLACES }
        requires halves { alternate true self ≡ true }
        ensures { IfOk result (λ ready. ready ≡ record { rank = rank; first_place = enter_place first_call; events = self }) }
    {
        let alloc = self.allocator();
        let run = run_of_events(rank, 2 * first_call, self.cells, self.sound);
        Ok(ReadySegment {
            piece: BoxedRun::new(alloc, run)?,
        })
    }

    /// The piece of these events, ready, from the Enter of its call `first_call` on, however many there are. No event
    /// is moved. Fails with `AllocError` when memory is refused.
    pub fn into_piece(self, rank: u32, first_call: u64) -> Result<ReadyPiece, AllocError>
        requires some { 0 < length self }
        requires places { enter_place first_call + length self ≤ PLACES }
        requires halves { alternate true self ≡ true }
        ensures { IfOk result (λ ready. ready ≡ record { rank = rank; first_place = enter_place first_call; events = self }) }
    {
        let alloc = self.allocator();
        let whole = run_of_events(rank, 2 * first_call, self.cells, self.sound);
        let run = BoxedRun::new(alloc, whole)?;
        Ok(ReadyPiece::of_run(run))
    }

    /// The events in a list, each of which is moved. Fails with `AllocError` when memory is refused.
    pub fn into_events(self) -> Result<Vec<Event>, AllocError>
        ensures { IfOk result (λ events. events.items ≡ self) }
    {
        let mut events = Vec::with_capacity(self.allocator(), self.cells.len())?;
        let run = run_of_events(0, 0, self.cells, self.sound);
        give_back(run, &mut events);
        Ok(events)
    }
}

/// Puts an event behind the cells, of which so many stand before the first at which a readable prefix ends: how many
/// then do. There is room for it.
#[inline(always)]
fn put_behind(cells: &mut Vec<Known>, sound: usize, event: Event) -> usize
    requires room { vec_len cells.old < vec_capacity cells.old }
    requires sound { sound ≡ sound_among cells.old.items }
    ensures cells { cells.new.items ≡ cells.old.items ++ One event ∷ [] }
    ensures len { vec_len cells.new ≡ vec_len cells.old + 1 }
    ensures capacity { vec_capacity cells.old ≤ vec_capacity cells.new }
    ensures sound { result ≡ sound_among cells.new.items }
{
    let sound = sound_with(cells, sound, &event);
    let Ok(()) = cells.push(Known::One(event)) else {
        unreachable!();
    };
    sound
}

/// How many cells stand before the first at which a readable prefix ends, with one more event behind them: so many do
/// without it.
#[inline(always)]
fn sound_with(cells: &Vec<Known>, sound: usize, event: &Event) -> usize
    requires room { vec_len cells.now < vec_capacity cells.now }
    requires sound { sound ≡ sound_among cells.now.items }
    ensures { result ≡ sound_among (cells.now.items ++ One event.now ∷ []) }
{
    if sound < cells.len() {
        return sound;
    }
    if enters_unread(event) {
        return sound;
    }
    sound + 1
}

/// The events of a segment as a run, moved out of their list, which keeps its memory. Without memory they stay in it.
pub(crate) fn piece_of(
    alloc: Global,
    rank: u32,
    first_place: u64,
    events: &mut Vec<Event>,
) -> Result<BoxedRun, AllocError>
    requires { IsSegment (placed_events rank first_place events.old.items) }
    ensures ready { IfOk result (λ piece. IsReady piece) }
    ensures segment { IfOk result (λ piece. segment_in piece ≡ placed_events rank first_place events.old.items) }
    ensures emptied { OnOk result (events.new.items ≡ []) }
    ensures fits { OnOk result (length events.old.items ≤ vec_capacity events.new) }
    ensures err { OnErr result (events.new.items ≡ events.old.items) }
{
    let room = run_with_room(alloc, rank, first_place, events.len())?;
    let mut piece = BoxedRun::new(alloc, room)?;
    piece.fill(events);
    Ok(piece)
}
