//! Messages that would fit a starving receive, and that earlier receives of its rank have taken or may have taken.

use crate::calls::call_named;
use crate::few::MOST_NEAR;
use crate::inits::Inits;
use crate::patterns::{Pattern, pattern_of, patterns_of};
use mpi_model::{Call, Envelope, Message, OpName, Peer, ProbeEnvelope, Receive};
use std::alloc::{AllocError, Global};
use std::collections::BTreeMap;
use trace_know::Knowledge;
use trace_ops::RankOps;
use trace_pair::{Ends, PairTable, Reaches};

/// A message, with the receive that has or may have taken it.
#[derive(Clone, Copy)]
pub(crate) struct TakenBy {
    pub message: Message,
    pub by: OpName,
}

/// The receives of a pattern by their places, in the order of their calls. From `full` on all have found three
/// messages.
#[derive(Drop)]
struct Askers {
    places: Vec<usize>,
    full: usize,
}

/// What a receive names: whether it leaves its source open, and its tag.
#[derive(Clone, Copy)]
struct Leaves {
    source: bool,
    tag: bool,
}

/// What an envelope leaves open.
fn left_by(e: Envelope) -> Leaves {
    Leaves {
        source: matches!(e.peer, Peer::Any),
        tag: e.tag.is_none(),
    }
}

/// What a probe leaves open.
fn left_by_probe(e: ProbeEnvelope) -> Leaves {
    Leaves {
        source: matches!(e.source(), Peer::Any),
        tag: e.tag().is_none(),
    }
}

/// What a call that receives leaves open.
fn left_by_call(call: &Call) -> Option<Leaves> {
    match call {
        Call::Recv(e) | Call::Irecv(e) | Call::RecvInit(e) => Some(left_by(e.envelope())),
        Call::Sendrecv(both) => Some(left_by(both.receive())),
        Call::Mprobe(e) | Call::Improbe(e) => Some(left_by_probe(*e)),
        _ => None,
    }
}

/// What a receive leaves open: by its call, or by the init that its call has started.
fn left_open(know: &Knowledge, inits: &Inits, name: OpName) -> Option<Leaves> {
    let call = call_named(know, name)?;
    match call {
        Call::Start(_) | Call::Startall(_) => {
            let init = inits.started(know, name)?;
            let name = OpName {
                rank: name.rank,
                call: init,
                part: 0,
            };
            left_by_call(call_named(know, name)?)
        }
        _ => left_by_call(call),
    }
}

/// Whether an earlier receive leaves open what the pattern names.
fn names_less(leaves: Leaves, pattern: Pattern) -> bool {
    (leaves.source && pattern.2.is_some()) || (leaves.tag && pattern.3.is_some())
}

/// The receives by their patterns.
fn askers_of(alloc: Global, receives: &[Receive]) -> Result<BTreeMap<Pattern, Askers>, AllocError> {
    let mut askers: BTreeMap<Pattern, Askers> = BTreeMap::new(alloc);
    for (place, q) in receives.iter().enumerate() {
        let pattern = pattern_of(q);
        if let Some(there) = askers.get_mut(&pattern) {
            there.places.push(place)?;
            there.full = there.places.len();
            continue;
        }
        let mut places = Vec::new(alloc);
        places.push(place)?;
        askers.insert(pattern, Askers { places, full: 1 })?;
    }
    Ok(askers)
}

/// The place at a place: none is so great as where there is none.
fn place_at(places: &[usize], at: usize) -> usize {
    places.get(at).copied().unwrap_or(usize::MAX)
}

/// The call of the receive at a place.
fn call_at(receives: &[Receive], place: usize) -> u64 {
    match receives.get(place) {
        Some(q) => q.name.call,
        None => 0,
    }
}

/// Adds a message to those at a place, and answers whether three are there.
fn push_at(found: &mut [Vec<TakenBy>], place: usize, taken: TakenBy) -> Result<bool, AllocError> {
    if place >= found.len() {
        return Ok(true);
    }
    found[place].push(taken)?;
    Ok(found[place].len() >= MOST_NEAR)
}

/// Gives a taken message to each of the receives with later calls that haven't found three.
fn give(
    askers: &mut Askers,
    receives: &[Receive],
    taken: TakenBy,
    found: &mut [Vec<TakenBy>],
) -> Result<(), AllocError> {
    let full = askers.full;
    for behind in 0..full {
        let at = full - 1 - behind;
        let place = place_at(&askers.places, at);
        if call_at(receives, place) <= taken.by.call {
            return Ok(());
        }
        if push_at(found, place, taken)? {
            askers.full = at;
        }
    }
    Ok(())
}

/// No message for any of the receives.
fn nothing(alloc: Global, count: usize) -> Result<Vec<Vec<TakenBy>>, AllocError> {
    let mut found = Vec::new(alloc);
    for _ in 0..count {
        found.push(Vec::new(alloc))?;
    }
    Ok(found)
}

/// For each of the receives the first three messages that fit it and that an earlier receive has taken which names
/// less.
pub(crate) fn taken_of(
    alloc: Global,
    know: &Knowledge,
    inits: &Inits,
    ops: &[RankOps],
    pairs: &PairTable,
    receives: &[Receive],
) -> Result<Vec<Vec<TakenBy>>, AllocError> {
    let mut found = nothing(alloc, receives.len())?;
    if receives.is_empty() {
        return Ok(found);
    }
    let mut askers = askers_of(alloc, receives)?;
    let mut at = 0;
    for own in ops {
        for m in own.sends() {
            if let Some(by) = pairs.receive_near(m.name, &mut at) {
                let taken = TakenBy { message: *m, by };
                give_all(know, inits, &mut askers, receives, taken, &mut found)?;
            }
        }
    }
    Ok(found)
}

/// Gives a taken message to the receives of each of its patterns that name more than the receive which took it.
fn give_all(
    know: &Knowledge,
    inits: &Inits,
    askers: &mut BTreeMap<Pattern, Askers>,
    receives: &[Receive],
    taken: TakenBy,
    found: &mut [Vec<TakenBy>],
) -> Result<(), AllocError> {
    for pattern in &patterns_of(&taken.message) {
        if let Some(there) = askers.get_mut(pattern) {
            if there.full > 0 && does_name_less(know, inits, taken.by, *pattern) {
                give(there, receives, taken, found)?;
            }
        }
    }
    Ok(())
}

/// Whether the receive of that name leaves open what the pattern names.
fn does_name_less(know: &Knowledge, inits: &Inits, by: OpName, pattern: Pattern) -> bool {
    match left_open(know, inits, by) {
        Some(leaves) => names_less(leaves, pattern),
        None => false,
    }
}

/// Open receives by their patterns, in the order of their calls.
type Opened<'a> = BTreeMap<Pattern, Vec<&'a Receive>>;

/// Adds an open receive.
fn add_open<'a>(alloc: Global, opened: &mut Opened<'a>, q: &'a Receive) -> Result<(), AllocError> {
    if let Some(there) = opened.get_mut(&pattern_of(q)) {
        there.push(q)?;
        return Ok(());
    }
    let mut list = Vec::new(alloc);
    list.push(q)?;
    opened.insert(pattern_of(q), list)?;
    Ok(())
}

/// All open receives.
fn opened_of<'a>(alloc: Global, ops: &'a [RankOps]) -> Result<Opened<'a>, AllocError> {
    let mut opened = Opened::new(alloc);
    for own in ops {
        for q in own.receives() {
            if q.is_open() {
                add_open(alloc, &mut opened, q)?;
            }
        }
    }
    Ok(opened)
}

/// Whether the receive may have taken the message.
fn may_take(
    alloc: Global,
    reaches: &Reaches<'_>,
    q: &Receive,
    m: &Message,
) -> Result<bool, AllocError> {
    let mut ends = Ends::empty(alloc);
    ends.insert(q)?;
    Ok(ends.may_take(reaches, m))
}

/// The first of these receives that may have taken the message.
fn first_of(
    alloc: Global,
    reaches: &Reaches<'_>,
    list: &[&Receive],
    m: &Message,
) -> Result<Option<OpName>, AllocError> {
    for q in list {
        if may_take(alloc, reaches, q, m)? {
            return Ok(Some(q.name));
        }
    }
    Ok(None)
}

/// The lesser of two names, where there are such.
fn lesser(one: Option<OpName>, other: Option<OpName>) -> Option<OpName> {
    match (one, other) {
        (Some(a), Some(b)) => Some(a.min(b)),
        (Some(a), None) => Some(a),
        (None, other) => other,
    }
}

/// The first open receive that may have taken the message.
fn first_taker(
    alloc: Global,
    reaches: &Reaches<'_>,
    opened: &Opened<'_>,
    m: &Message,
) -> Result<Option<OpName>, AllocError> {
    let mut first = None;
    for pattern in &patterns_of(m) {
        if let Some(list) = opened.get(pattern) {
            first = lesser(first, first_of(alloc, reaches, list, m)?);
        }
    }
    Ok(first)
}

/// Open receives, to be asked for the first one that may have taken a message.
#[derive(Drop)]
pub(crate) struct Takers<'a> {
    opened: Opened<'a>,
    reaches: &'a Reaches<'a>,
}

impl<'a> Takers<'a> {
    /// The open receives of these operations. Fails with `AllocError` when memory is refused.
    pub fn of(
        alloc: Global,
        ops: &'a [RankOps],
        reaches: &'a Reaches<'a>,
    ) -> Result<Takers<'a>, AllocError> {
        let opened = opened_of(alloc, ops)?;
        Ok(Takers { opened, reaches })
    }

    /// The message with the first open receive that may have taken it. Fails with `AllocError` when memory is refused.
    pub fn taken(&self, alloc: Global, m: &Message) -> Result<Option<TakenBy>, AllocError> {
        match first_taker(alloc, self.reaches, &self.opened, m)? {
            Some(by) => Ok(Some(TakenBy { message: *m, by })),
            None => Ok(None),
        }
    }
}
