//! The calls of a rank, as its readable events tell them.

ghost use Rattle.std.specs.Prelude.{◌≡◌, ◌<◌, Some, None, if◌then◌else◌, is_some, length, slice_get};
ghost use Rattle.std.specs.Option.{option_and_then, option_copied};
ghost use Rattle.mpi_model.specs.declared.call.Call.TheVariants.{Local};
ghost use Rattle.trace_ops.specs.Calls.{IsCallAt, IsEnteredAt, call_of, calls_of, outs_of};
ghost use Rattle.trace_ops.specs.Called.{places_by, plain_called};
ghost use Rattle.trace_ops.specs.Request.{freed_of, given_in, given_of, is_completing, is_init};
ghost use Rattle.trace_ops.specs.Trust.{cancel_of};

use crate::completed::{Completed, given_of, place_at, place_count};
use crate::held::{is_init, is_start};
use mpi_model::{Call, Event, Outs};
use std::marker::Model;
use trace_know::Readable;

/// A call that was entered, with its outcome, where it has returned.
#[derive(Clone, Copy)]
pub(crate) struct Called<'a> {
    pub call: &'a Call,
    pub outs: Option<&'a Outs>,
}

impl<'a> Called<'a> {
    /// The number that a part of a Start or Startall gives anew: that of its init, once the call has returned, whatever
    /// its outcome.
    pub fn restarts(&self, request: i64) -> Option<i64>
        ensures { result ≡ (if is_some (option_copied self.now.outs) then Some request else None) }
    {
        match self.outs {
            Some(_) => Some(request),
            None => None,
        }
    }

    /// The request number that it gave: to what it started, or as an init.
    #[inline(always)]
    pub fn given(&self) -> Option<i64>
        ensures { result ≡ given_of self.now.call.now (option_copied self.now.outs) }
    {
        given_of(self.call, self.outs)
    }

    /// The request number that it posted: an init posts none.
    #[inline(always)]
    pub fn posted(&self) -> Option<i64>
        ensures { result ≡ (if is_init self.now.call.now then None else given_in (plain_called self.now)) }
    {
        if is_init(self.call) {
            None
        } else {
            self.given()
        }
    }

    /// The request number that it freed.
    pub fn freed(&self) -> Option<i64>
        ensures { result ≡ freed_of self.now.call.now (option_copied self.now.outs) }
    {
        match (self.call, self.outs) {
            (Call::Free(request), Some(_)) => Some(*request),
            _ => None,
        }
    }

    /// The request number that it asks to be cancelled.
    pub fn cancels(&self) -> Option<i64>
        ensures { result ≡ cancel_of self.now.call.now }
    {
        match self.call {
            Call::Cancel(request) => Some(*request),
            _ => None,
        }
    }

    /// Whether its outcome completes the requests that it touches: it gives no number, starts none anew, and frees
    /// none.
    #[inline(always)]
    pub fn is_completing(&self) -> bool
        ensures { result ≡ is_completing (plain_called self.now) }
    {
        self.given().is_none() && !is_start(self.call) && !matches!(self.call, Call::Free(_))
    }

    /// How many entries its outcome has, each of which may complete a request.
    #[inline(always)]
    pub fn places(&self) -> usize
        ensures { result ≡ length (places_by self.now) }
    {
        place_count(self.call, self.outs)
    }

    /// The request that an entry of its outcome completed, if it did.
    #[inline(always)]
    pub fn completed_at(&self, place: usize) -> Option<Completed>
        requires { place < length (places_by self.now) }
        ensures { slice_get (places_by self.now) place ≡ Some result }
    {
        place_at(self.call, self.outs, place)
    }
}

/// The call of an Enter; `local` stands where none was entered.
#[inline(always)]
fn call_of<'a>(event: &'a Event, local: &'a Call) -> &'a Call
    requires { local.now ≡ Local }
    ensures { result.now ≡ call_of event.now }
{
    match event {
        Event::Enter(call, _) => call,
        Event::Return(_, _) => local,
    }
}

/// The outcome of a Return.
#[inline(always)]
fn outs_of(event: &Event) -> Option<&Outs>
    ensures { option_copied result ≡ outs_of event.now }
{
    match event {
        Event::Return(outs, _) => Some(outs),
        Event::Enter(_, _) => None,
    }
}

/// The outcome of the Return at a place, where there is one before the end.
#[inline(always)]
fn outs_at<'a>(events: &Readable<'a>, place: usize, end: usize) -> Option<&'a Outs>
    requires { end ≡ length events.now }
    ensures { option_copied result ≡ option_and_then outs_of (slice_get events.now place) }
{
    if place < end {
        outs_of(events.at(place))
    } else {
        None
    }
}

/// How many calls these events tell: the last may have no Return.
#[inline(always)]
fn count_in(events: &Readable<'_>) -> usize
    ensures { result ≡ length (calls_of events.now) }
{
    events.len() / 2 + events.len() % 2
}

/// The call at a place, without its outcome.
#[inline(always)]
fn call_in<'a>(events: &Readable<'a>, local: &'a Call, n: usize) -> &'a Call
    requires place { n < length (calls_of events.now) }
    requires local { local.now ≡ Local }
    ensures { IsEnteredAt (calls_of events.now) n result.now }
{
    let _end = events.len();
    call_of(events.at(2 * n), local)
}

/// The call at a place.
#[inline(always)]
fn called_in<'a>(events: &Readable<'a>, local: &'a Call, n: usize) -> Called<'a>
    requires place { n < length (calls_of events.now) }
    requires local { local.now ≡ Local }
    ensures { IsCallAt (calls_of events.now) n (plain_called result) }
{
    let end = events.len();
    let place = 2 * n;
    let call = call_of(events.at(place), local);
    let outs = outs_at(events, place + 1, end);
    Called { call, outs }
}

/// The calls of a rank's readable events, which stay where they are: call `n` has its Enter at `2n` and its Return
/// behind it.
#[derive(Drop)]
pub(crate) struct Calls<'a> {
    events: Readable<'a>,
    /// It stands where no call was entered.
    local: &'a Call,
}

impl<'a> Model for Calls<'a> {
    ghost use Rattle.std.specs.Prelude.{◌≡◌, List};
    ghost use Rattle.mpi_model.specs.declared.call.Call.TheVariants.{Local};
    ghost use Rattle.trace_ops.specs.Calls.{Entry, calls_of};

    ghost Value = { List Entry };

    ghost view = { λ c. calls_of c.events };

    ghost invariant = { λ c. c.local.now ≡ Local };
}

impl<'a> Calls<'a> {
    /// The calls of these events. `local` is a local call, which stands wherever no call was entered.
    pub fn new(events: Readable<'a>, local: &'a Call) -> Calls<'a>
        requires { local.now ≡ Local }
        ensures { result ≡ calls_of events.entry }
    {
        Calls { events, local }
    }

    /// How many calls there are: the last may have no Return.
    #[inline(always)]
    pub fn len(&self) -> usize
        ensures { result ≡ length self.now }
    {
        count_in(&self.events)
    }

    /// The call at a place, without its outcome.
    #[inline(always)]
    pub fn call_at(&self, n: usize) -> &'a Call
        requires { n < length self.now }
        ensures { IsEnteredAt self.now n result.now }
    {
        call_in(&self.events, self.local, n)
    }

    /// The call at a place.
    #[inline(always)]
    pub fn at(&self, n: usize) -> Called<'a>
        requires { n < length self.now }
        ensures { IsCallAt self.now n (plain_called result) }
    {
        called_in(&self.events, self.local, n)
    }
}
