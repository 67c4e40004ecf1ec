//! Which ranks poll, and for what.
//!
//! A poll without success is a returned test or probe that found nothing. A rank polls where it is free with nothing
//! beyond, and its last calls are such polls and returned local calls, two polls at least; at the very end may stand a
//! test or probe that hasn't returned.

ghost use Rattle.std.specs.Prelude.{◌≡◌, ◌+◌, ◌<◌, ◌^◌, if◌then◌else◌};
ghost use Rattle.std.specs.Option.{option_copied};
ghost use Rattle.trace_diagnosis.specs.Polls.{is_poll, is_unsuccessful};
ghost use Rattle.trace_diagnosis.specs.Tails.{is_poll_part, may_stand, part_in, part_of, polls_from, returned_part, stands_in, tail_first};

use crate::calls::{Called, called_at, count_of};
use mpi_model::{Call, CommRef, Outs, Peer, ProbeEnvelope};
use std::alloc::{AllocError, Global};
use std::collections::BTreeSet;
use trace_know::Readable;

/// Whether the call tests or probes, and doesn't wait.
fn is_poll(call: &Call) -> bool
    ensures { result ≡ is_poll call.now }
{
    matches!(
        call,
        Call::Test(_)
            | Call::Testall(_)
            | Call::Testany(_)
            | Call::Testsome(_)
            | Call::Iprobe(_)
            | Call::Improbe(_)
    )
}

/// Whether a test or a probe has returned without success.
fn is_unsuccessful(call: &Call, outs: &Outs) -> bool
    ensures { result ≡ is_unsuccessful call.now outs.now }
{
    match (call, outs) {
        (Call::Test(_), Outs::Flag(done, _)) => !*done,
        (Call::Testall(_), Outs::Flag(done, _)) => !*done,
        (Call::Testany(_), Outs::Index(position, _)) => position.is_none(),
        (Call::Testsome(_), Outs::Several(elements)) => elements.as_slice().is_empty(),
        (Call::Iprobe(_), Outs::Flag(done, _)) => !*done,
        (Call::Improbe(_), Outs::Flag(done, _)) => !*done,
        _ => false,
    }
}

/// What a call is among the last calls of a rank.
#[derive(Clone, Copy)]
enum Part {
    /// A poll without success.
    Poll,
    /// A test or probe that hasn't returned.
    Pending,
    /// A local call that has returned.
    Local,
    /// None that a rank which polls makes.
    Other,
}

/// What a returned call is that is no poll without success.
fn returned_part(call: &Call) -> Part
    ensures { result ≡ returned_part call.now }
{
    match call {
        Call::Local => Part::Local,
        _ => Part::Other,
    }
}

/// What the call is.
fn part_of(called: &Called<'_>) -> Part
    ensures { result ≡ part_of called.now.call.now (option_copied called.now.outs) }
{
    match called.outs {
        Some(outs) => {
            if is_unsuccessful(called.call, outs) {
                Part::Poll
            } else {
                returned_part(called.call)
            }
        }
        None => {
            if is_poll(called.call) {
                Part::Pending
            } else {
                Part::Other
            }
        }
    }
}

/// The last calls of a rank, as far as it polls in them.
#[derive(Clone, Copy)]
pub(crate) struct Tail {
    /// The first of them.
    pub first: u64,
    /// How many polls without success they hold.
    pub count: u64,
}

/// What the call of a number is.
fn part_at(events: &Readable<'_>, number: u64) -> Part
    ensures { result ≡ part_in events.now number }
{
    match called_at(events, number) {
        Some(called) => part_of(&called),
        None => Part::Other,
    }
}

/// Whether it may stand among the last calls of a rank that polls.
fn may_stand(is_last: bool, part: Part) -> bool
    ensures { result ≡ may_stand is_last part }
{
    match part {
        Part::Poll | Part::Local => true,
        Part::Pending => is_last,
        Part::Other => false,
    }
}

/// The same of the call of a number.
fn stands_at(events: &Readable<'_>, number: u64) -> bool
    requires { number + 1 < 2 ^ 64 }
    ensures { result ≡ stands_in events.now number }
{
    may_stand(number + 1 == count_of(events), part_at(events, number))
}

/// Whether the call of a number is a poll without success.
fn is_poll_at(events: &Readable<'_>, number: u64) -> bool
    ensures { result ≡ is_poll_part (part_in events.now number) }
{
    match part_at(events, number) {
        Part::Poll => true,
        Part::Pending | Part::Local | Part::Other => false,
    }
}

/// The longest tail of the calls that a rank which polls may have made.
pub(crate) fn tail_of(events: &Readable<'_>) -> Tail
    ensures first { result.first ≡ tail_first events.now }
    ensures count { result.count ≡ polls_from events.now result.first }
{
    let mut first = count_of(events);
    let mut count = 0;
    'back: while first > 0 && stands_at(events, first - 1) {
        first -= 1;
        count = more_if(count, is_poll_at(events, first));
    }
    Tail { first, count }
}

/// One more, where there is one.
fn more_if(count: u64, is_one: bool) -> u64
    requires { count + 1 < 2 ^ 64 }
    ensures { result ≡ count + (if is_one then 1 else 0) }
{
    if is_one { count + 1 } else { count }
}

/// The numbers that tell a source.
fn push_peer(key: &mut Vec<i64>, peer: Peer) -> Result<(), AllocError> {
    match peer {
        Peer::Null => key.push(-2)?,
        Peer::Any => key.push(-1)?,
        Peer::Rank(rank) => key.push(rank as i64)?,
    }
    Ok(())
}

/// The numbers that tell a communicator.
fn push_comm(key: &mut Vec<i64>, comm: CommRef) -> Result<(), AllocError> {
    match comm {
        CommRef::World => key.push(-1)?,
        CommRef::Id(number) => key.push(number as i64)?,
    }
    Ok(())
}

/// The numbers that tell what a probe looks for.
fn push_envelope(key: &mut Vec<i64>, envelope: ProbeEnvelope) -> Result<(), AllocError> {
    push_peer(key, envelope.source())?;
    match envelope.tag() {
        Some(tag) => key.push(tag as i64)?,
        None => key.push(-1)?,
    }
    push_comm(key, envelope.comm())
}

/// The number of a test's sort, and its requests.
fn key_of_test(alloc: Global, sort: i64, requests: &[i64]) -> Result<Vec<i64>, AllocError> {
    let mut key = Vec::new(alloc);
    key.push(sort)?;
    key.extend_from_slice(requests)?;
    Ok(key)
}

/// The number of a probe's sort, and what it looks for.
fn key_of_probe(alloc: Global, sort: i64, envelope: ProbeEnvelope) -> Result<Vec<i64>, AllocError> {
    let mut key = Vec::new(alloc);
    key.push(sort)?;
    push_envelope(&mut key, envelope)?;
    Ok(key)
}

/// Numbers that tell the content of a test or a probe: two have the same numbers where they have one content.
fn key_of(alloc: Global, call: &Call) -> Result<Vec<i64>, AllocError> {
    match call {
        Call::Test(request) => key_of_test(alloc, 0, &[*request]),
        Call::Testall(requests) => key_of_test(alloc, 1, requests.as_slice()),
        Call::Testany(requests) => key_of_test(alloc, 2, requests.as_slice()),
        Call::Testsome(requests) => key_of_test(alloc, 3, requests.as_slice()),
        Call::Iprobe(envelope) => key_of_probe(alloc, 5, *envelope),
        Call::Improbe(envelope) => key_of_probe(alloc, 4, *envelope),
        _ => Ok(Vec::new(alloc)),
    }
}

/// A poll: its number, and the call as it was entered.
#[derive(Clone, Copy)]
pub(crate) struct Asked<'a> {
    pub number: u64,
    pub call: &'a Call,
}

/// The poll of a number.
fn asked_at<'a>(events: &Readable<'a>, number: u64) -> Option<Asked<'a>> {
    let called = called_at(events, number)?;
    if is_poll(called.call) {
        Some(Asked {
            number,
            call: called.call,
        })
    } else {
        None
    }
}

/// The different polls of a tail, each the last of its content, in their order.
pub(crate) fn asked_of<'a>(
    alloc: Global,
    events: &Readable<'a>,
    tail: Tail,
) -> Result<Vec<Asked<'a>>, AllocError> {
    let mut seen = BTreeSet::new(alloc);
    let mut polls = Vec::new(alloc);
    let calls = count_of(events);
    for behind in 0..calls.saturating_sub(tail.first) {
        let number = calls - 1 - behind;
        if let Some(asked) = asked_at(events, number) {
            if seen.insert(key_of(alloc, asked.call)?)? {
                polls.push(asked)?;
            }
        }
    }
    polls.reverse();
    Ok(polls)
}
