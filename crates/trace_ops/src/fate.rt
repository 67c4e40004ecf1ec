//! What becomes of a request, by the calls behind the one that posted it.

ghost use Rattle.std.specs.Prelude.{◌≡◌, drop, slice_get};
ghost use Rattle.std.specs.Option.{option_map};
ghost use Rattle.trace_ops.specs.Called.{places_by, plain_called};
ghost use Rattle.trace_ops.specs.Ended.{ended_of_post};
ghost use Rattle.trace_ops.specs.Fate.{IsFateOf, OfFate};
ghost use Rattle.trace_ops.specs.Places.{completed_in};
ghost use Rattle.trace_ops.specs.Source.{source_in, told_in, told_of_post};
ghost use Rattle.trace_ops.specs.Touched.{IsKept, OfFollowed, ended_at, is_marked, is_void_end, tellings_of, told_at_place};

use crate::called::{Called, Calls};
use crate::completed::Completed;
use crate::touched::{End, Touch, end_of};

/// What the calls behind a post tell of the request that it posted: what is kept of its number, of these calls. It is
/// read where it is asked for.
#[derive(Clone, Copy)]
pub(crate) struct Fate<'a> {
    pub request: i64,
    pub touch: Option<Touch>,
    pub calls: &'a Calls<'a>,
}

/// What a place of an outcome tells of the request.
fn told_at(members: &[u32], x: i64, completed: Option<Completed>) -> Option<u32>
    ensures { result ≡ told_at_place members.now x completed }
{
    let completed = completed?;
    if completed.request == x {
        source_in(members, completed.told.rank())
    } else {
        None
    }
}

/// What the completions from a place on tell of the number.
#[inline(always)]
fn told_in(members: &[u32], x: i64, called: &Called<'_>, first: usize) -> Option<u32>
    ensures { result ≡ told_in members.now x (completed_in (drop first (places_by called.now))) }
{
    let mut place = first;
    while place < called.places() {
        let told = told_at(members, x, called.completed_at(place));
        if told.is_some() {
            return told;
        }
        place += 1;
    }
    None
}

/// The rank of the trace that has this rank in the group; `None` if the outcome tells no source.
pub(crate) fn source_in(members: &[u32], told: Option<u32>) -> Option<u32>
    ensures { result ≡ source_in members.now told }
{
    members.get(told? as usize).copied()
}

/// Whether a later Cancel names the number.
pub(crate) fn is_marked(touch: Option<Touch>) -> bool
    ensures { result ≡ is_marked touch }
{
    match touch {
        Some(touch) => touch.cancelled,
        None => false,
    }
}

/// Whether a status says that the request was cancelled.
pub(crate) fn is_void_end(end: Option<End>) -> bool
    ensures { result ≡ is_void_end end }
{
    match end {
        Some(end) => end.void,
        None => false,
    }
}

/// The call at a place, where there is one.
#[inline(always)]
fn called_at<'a>(calls: &'a Calls<'_>, n: usize) -> Option<Called<'a>>
    ensures { option_map plain_called result ≡ slice_get calls.now n }
{
    if n < calls.len() {
        Some(calls.at(n))
    } else {
        None
    }
}

/// What the call that ends a number tells of it: the source, by its completions from a place on, and the call itself,
/// where its outcome completes a request.
#[inline(always)]
fn told_by_end(
    members: &[u32],
    x: i64,
    calls: &Calls<'_>,
    end: Option<End>,
) -> (Option<u32>, Option<u64>)
    ensures told { result.0 ≡ told_in members.now x (tellings_of calls.now end) }
    ensures ended { result.1 ≡ ended_at calls.now end }
{
    let Some(end) = end else {
        return (None, None);
    };
    let Some(called) = called_at(calls, end.call) else {
        return (None, None);
    };
    let told = told_in(members, x, &called, end.place);
    let ended = if called.is_completing() {
        Some(end.call as u64)
    } else {
        None
    };
    (told, ended)
}

/// What becomes of the request that the call posts, if it posts one, by what the later steps do with its number.
#[inline(always)]
pub(crate) fn fate_of<'a>(
    touch: Option<Touch>,
    calls: &'a Calls<'_>,
    posted: Option<i64>,
) -> Option<Fate<'a>>
    ensures { OfFollowed calls.now (λ later kept. IsKept posted kept touch → IsFateOf posted later result) }
{
    let request = posted?;
    Some(Fate {
        request,
        touch,
        calls,
    })
}

/// What is told of the source of an Irecv, and the call whose outcome completes it, by the fate of its request.
#[inline(always)]
pub(crate) fn end_of_post(members: &[u32], fate: Option<Fate<'_>>) -> (Option<u32>, Option<u64>)
    ensures told { OfFate fate.entry (λ later posted. result.0 ≡ told_of_post members.now later posted) }
    ensures ended { OfFate fate.entry (λ later posted. result.1 ≡ ended_of_post later posted) }
{
    match fate {
        Some(fate) => told_by_end(members, fate.request, fate.calls, end_of(fate.touch)),
        None => (None, None),
    }
}
