//! Which inits hold the request numbers that calls start.

ghost use Rattle.std.specs.Prelude.{◌≡◌, ◌<◌, ◌++◌, ◌^◌, ℕ, ℤ, IsTrue, nat_lt, [], None, Some, map, length, reverse, slice_index_or, if◌then◌else◌, IfOk, OnOk};
ghost use Rattle.std.specs.Ordering.{int_eq};
ghost use Rattle.std.specs.Option.{option_map};
ghost use Rattle.indexmap.specs.IndexMap.{get};
ghost use Rattle.trace_ops.specs.Called.{plain_called};
ghost use Rattle.trace_ops.specs.Calls.{Entry, IsEnteredAt};
ghost use Rattle.trace_ops.specs.Held.{Holds, HoldsNext, HoldsPast, inits_from, plain_init};
ghost use Rattle.trace_ops.specs.Request.{is_init, is_start, started_by};
ghost use Rattle.trace_ops.specs.Steps.{IsPartAt, OfListed, as_started};
ghost use Rattle.trace_ops.specs.Tables.{ChangesAt};

use crate::called::{Called, Calls};
use crate::room::Room;
use indexmap::IndexMap;
use mpi_model::Call;
use std::alloc::{AllocError, Global};

/// An init that has returned: its call, with its number.
#[derive(Clone, Copy)]
pub(crate) struct Init<'a> {
    pub number: u64,
    pub call: &'a Call,
}

/// The init that holds each request number.
pub(crate) type Held<'a> = IndexMap<i64, Init<'a>>;

/// Whether the call describes a send or a receive, and starts nothing (MPI 4.0, 3.9).
pub fn is_init(call: &Call) -> bool
    ensures { result ≡ is_init call.now }
{
    matches!(call, Call::SendInit(_, _) | Call::RecvInit(_))
}

/// Whether the call starts what inits describe.
pub(crate) fn is_start(call: &Call) -> bool
    ensures { result ≡ is_start call.now }
{
    matches!(call, Call::Start(_) | Call::Startall(_))
}

/// The numbers that a Start or Startall lists, in its order (MPI 4.0, 3.9).
pub fn started_by(call: &Call) -> &[i64]
    ensures { result.now ≡ started_by call.now }
{
    match call {
        Call::Start(request) => std::slice::from_ref(request),
        Call::Startall(requests) => requests.as_slice(),
        _ => &[],
    }
}

/// The call as which starts what the init describes.
pub(crate) fn as_started(init: &Call) -> Call
    ensures { result ≡ as_started init.now }
{
    match init {
        Call::SendInit(mode, envelope) => Call::Isend(*mode, *envelope),
        Call::RecvInit(envelope) => Call::Irecv(*envelope),
        _ => Call::Local,
    }
}

/// What holds the number.
pub(crate) fn init_of<'a>(held: &Held<'a>, x: i64) -> Option<Init<'a>>
    ensures { result ≡ get int_eq held.now x }
{
    held.get(&x).copied()
}

/// Notes that an init holds the number.
fn note_init<'a>(held: &mut Held<'a>, x: i64, init: Init<'a>) -> Result<(), AllocError>
    ensures { OnOk result (ChangesAt x (λ before. Some init.entry) (get int_eq held.old) (get int_eq held.new)) }
{
    held.insert(x, init)?;
    Ok(())
}

/// Notes that no init holds the number.
fn note_none(held: &mut Held<'_>, x: i64)
    ensures { ChangesAt x (λ before. None) (get int_eq held.old) (get int_eq held.new) }
{
    let _init = held.swap_remove(&x);
}

/// Whether no init holds a number.
pub(crate) fn holds_none(held: &Held<'_>) -> bool
    ensures { IsTrue result → (x : ℤ) → get int_eq held.now x ≡ None }
{
    held.is_empty()
}

/// Whether no init holds a number, and the call is none: then no init holds a number behind it, whatever its outcome.
fn still_holds_none(held: &Held<'_>, call: &Call) -> bool
    ensures { IsTrue result → (n : ℕ) → (c : Entry) → c.call ≡ call.now → HoldsNext n c (get int_eq held.now) (get int_eq held.now) }
{
    holds_none(held) && !is_init(call)
}

/// Goes one call on. Nearly always no init holds a number, and there is nothing to look up: then its outcome is not
/// read.
fn hold<'a>(held: &mut Held<'a>, calls: &Calls<'a>, n: usize, call: &Call) -> Result<(), AllocError>
    requires { IsEnteredAt calls.now n call.now }
    ensures { OnOk result (HoldsPast calls.now n (get int_eq held.old) (get int_eq held.new)) }
{
    if still_holds_none(held, call) {
        return Ok(());
    }
    change_hold(held, n as u64, &calls.at(n))?;
    Ok(())
}

/// Goes one call on: the init holds its number, and a number that is given or freed otherwise is held no longer.
#[inline(never)]
fn change_hold<'a>(held: &mut Held<'a>, n: u64, called: &Called<'a>) -> Result<(), AllocError>
    ensures { OnOk result (HoldsNext n (plain_called called.now) (get int_eq held.old) (get int_eq held.new)) }
{
    match (called.given(), called.freed()) {
        (Some(request), _) => {
            if is_init(called.call) {
                let init = Init {
                    number: n,
                    call: called.call,
                };
                note_init(held, request, init)?;
            } else {
                note_none(held, request);
            }
        }
        (None, Some(request)) => note_none(held, request),
        (None, None) => {}
    }
    Ok(())
}

/// Adds what holds each of the numbers.
fn push_held<'a>(
    inits: &mut Vec<Option<Init<'a>>>,
    held: &Held<'a>,
    requests: &[i64],
) -> Result<(), AllocError>
    ensures { OnOk result (inits.new.items ≡ inits.old.items ++ map (get int_eq held.now) requests.now) }
{
    for request in requests {
        inits.push(init_of(held, *request))?;
    }
    Ok(())
}

/// A part of a Start or Startall: its place, the number that it starts, and the init that holds it.
#[derive(Clone, Copy)]
pub(crate) struct Part<'a> {
    pub part: u32,
    pub request: i64,
    pub init: Init<'a>,
}

/// The number of the part at a place of a list, which an `int` counts.
fn part_at(place: usize) -> Option<u32>
    ensures { result ≡ (if nat_lt place (2 ^ 31) then Some place else None) }
{
    if place < 1 << 31 {
        Some(place as u32)
    } else {
        None
    }
}

/// The init at a place, where one is there.
fn init_at<'a>(inits: &[Option<Init<'a>>], place: usize) -> Option<Init<'a>>
    ensures { place < length inits.now → result ≡ slice_index_or inits.now place None }
{
    match inits.get(place) {
        Some(init) => *init,
        None => None,
    }
}

/// The part at a place, where an init holds the number there.
pub(crate) fn begun_at<'a>(
    inits: &[Option<Init<'a>>],
    requests: &[i64],
    place: usize,
) -> Option<Part<'a>>
    requires { place < length requests.now }
    ensures { OfListed requests.now inits.now (λ before c. IsPartAt before c requests.now place result) }
{
    let part = part_at(place)?;
    let init = init_at(inits, place)?;
    Some(Part {
        part,
        request: requests[place],
        init,
    })
}

/// What holds the numbers that a rank's Starts and Startalls list, and what holds numbers at the end.
#[derive(Drop)]
pub(crate) struct Holding<'a> {
    /// For each number that a Start or Startall lists, in their order, what held it before the call.
    pub inits: Vec<Option<Init<'a>>>,
    /// What holds a number after all calls.
    pub held: Held<'a>,
    /// Room for the messages and the receives of the calls.
    pub room: Room,
}

/// What holds the numbers that the calls list. They are gone through once, from the first to the last; it takes memory
/// for the numbers that are held and for those that are listed.
pub(crate) fn holding_of<'a>(alloc: Global, calls: &Calls<'a>) -> Result<Holding<'a>, AllocError>
    ensures listed { IfOk result (λ h. map (option_map plain_init) h.inits.items ≡ inits_from [] calls.now) }
    ensures held { IfOk result (λ h. Holds (reverse calls.now) (get int_eq h.held)) }
{
    let mut inits = Vec::new(alloc);
    let mut held = Held::new(alloc);
    let mut room = Room::empty();
    let mut n = 0;
    while n < calls.len() {
        let call = calls.call_at(n);
        room.count(call);
        push_held(&mut inits, &held, started_by(call))?;
        hold(&mut held, calls, n, call)?;
        n += 1;
    }
    Ok(Holding { inits, held, room })
}
