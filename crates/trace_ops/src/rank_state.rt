//! How a rank stands at the end of its readable events.

ghost use Rattle.std.specs.Prelude.{◌≡◌, IfOk};
ghost use Rattle.std.specs.Option.{option_map};
ghost use Rattle.trace_ops.specs.Called.{plain_called};
ghost use Rattle.trace_ops.specs.RankState.{is_finalize, is_waiting_call, last_of, may_block, state_after, state_of, waiting_at, waits_in};

use crate::called::{Called, Calls};
use crate::group::is_foreign;
use crate::state::State;
use mpi_model::{Call, Layout};
use std::alloc::AllocError;

/// Whether the call returns only once something else has happened, or may do so (MPI 4.0, 3.4, 3.7.3, 3.7.5, 3.8.1,
/// 3.8.2 and 6.1).
fn may_block(call: &Call) -> bool
    ensures { result ≡ may_block call.now }
{
    match call {
        Call::Send(_, _)
        | Call::Recv(_)
        | Call::Sendrecv(_)
        | Call::Probe(_)
        | Call::Mprobe(_)
        | Call::Wait(_)
        | Call::Waitall(_)
        | Call::Waitany(_)
        | Call::Waitsome(_)
        | Call::Collective(_) => true,
        Call::Local | Call::Finalize | Call::Unread => false,
        Call::Isend(_, _) | Call::Irecv(_) | Call::Icollective(_) => false,
        Call::Test(_) | Call::Testall(_) | Call::Testany(_) | Call::Testsome(_) => false,
        Call::Cancel(_) | Call::Free(_) => false,
        Call::SendInit(_, _) | Call::RecvInit(_) | Call::Start(_) | Call::Startall(_) => false,
        Call::Improbe(_) | Call::Iprobe(_) | Call::Imrecv => false,
    }
}

/// Whether the call may block, and is not foreign.
fn is_waiting_call(layout: &Layout, rank: u32, n: u64, call: &Call) -> bool
    ensures { result ≡ is_waiting_call layout.now rank n call.now }
{
    may_block(call) && !is_foreign(layout, rank, n, call)
}

/// Whether the call has not returned, and is a waiting call.
fn waits_in(layout: &Layout, rank: u32, n: u64, called: &Called<'_>) -> bool
    ensures { result ≡ waits_in layout.now rank n (plain_called called.now) }
{
    called.outs.is_none() && is_waiting_call(layout, rank, n, called.call)
}

fn is_finalize(call: &Call) -> bool
    ensures { result ≡ is_finalize call.now }
{
    matches!(call, Call::Finalize)
}

/// The state of a rank whose last call is this one.
fn state_after(layout: &Layout, rank: u32, n: u64, called: &Called<'_>) -> State
    ensures { result ≡ state_after layout.now rank n (plain_called called.now) }
{
    if is_finalize(called.call) {
        State::Ended
    } else if waits_in(layout, rank, n, called) {
        State::Waiting
    } else {
        State::Free
    }
}

/// The last call, with its number.
fn last_of<'a>(calls: &Calls<'a>) -> Option<(u64, Called<'a>)>
    ensures { option_map (λ last. (last.0, plain_called last.1)) result ≡ last_of calls.now }
{
    let n = calls.len().checked_sub(1)?;
    Some((n as u64, calls.at(n)))
}

/// The state of a rank with these calls.
pub(crate) fn state_of(layout: &Layout, rank: u32, beyond: bool, calls: &Calls<'_>) -> State
    ensures { result ≡ state_of layout.now rank beyond calls.now }
{
    if beyond {
        return State::Free;
    }
    match last_of(calls) {
        Some((n, called)) => state_after(layout, rank, n, &called),
        None => State::Free,
    }
}

/// A copy of the call in which a rank with this state waits, with its number.
pub(crate) fn waiting_of(state: State, calls: &Calls<'_>) -> Result<Option<(u64, Call)>, AllocError>
    ensures { IfOk result (λ w. w ≡ waiting_at state (last_of calls.now)) }
{
    match (state, last_of(calls)) {
        (State::Waiting, Some((n, called))) => Ok(Some((n, called.call.try_clone()?))),
        _ => Ok(None),
    }
}
