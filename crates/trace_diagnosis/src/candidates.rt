//! The receives and probes that may starve.
//!
//! A receive is pending where its rank waits in it, or its request is active. It may starve where it is sure, not
//! completed, pending, and in no pair. A probe in which a rank waits, or that it polls for, counts as the receive as
//! which it looks for a message.

ghost use Rattle.std.specs.Prelude.{◌≡◌, ◌++◌, ◌||◌, ◌==◌, [], ℕ, IfOk, OnOk, filter, if◌then◌else◌, length, map};
ghost use Rattle.std.specs.List.{flat_map, list_any};
ghost use Rattle.std.specs.BTreeSet.{contains};
ghost use Rattle.mpi_model.specs.declared.event.OpName.{OpName as Name};
ghost use Rattle.trace_pair.specs.KeyOrders.{name_cmp};
ghost use Rattle.trace_pair.specs.Table.{same_name};
ghost use Rattle.trace_diagnosis.specs.Askers.{asker};
ghost use Rattle.trace_diagnosis.specs.Listed.{listed_of};
ghost use Rattle.trace_diagnosis.specs.Starving.{candidates, candidates_by, is_pending, may_starve, polled, polled_by, probe_at, probe_of, waiting_probe, waits_in};

use crate::calls::named;
use crate::conditions::Poller;
use crate::loose::is_unpaired;
use crate::polls::Asked;
use crate::sets::note;
use crate::standing::ops_at;
use mpi_model::{Call, Layout, OpName, ProbeEnvelope, Receive};
use std::alloc::{AllocError, Global};
use std::collections::{BTreeMap, BTreeSet};
use trace_ops::{RankOps, is_foreign, probed};
use trace_pair::PairsByReceive;

/// Notes the call in which a rank waits.
fn note_waiting(rank: u32, own: &RankOps, names: &mut BTreeSet<OpName>) -> Result<(), AllocError>
    ensures { OnOk result ((n : Name) → contains name_cmp names.new n ≡ (waits_in rank own.now.waiting n || contains name_cmp names.old n)) }
{
    let Some((call, _)) = own.waiting() else {
        return Ok(());
    };
    note(names, named(rank, call))?;
    Ok(())
}

/// Notes the operations of active requests.
fn note_posts(active: &[(i64, OpName)], names: &mut BTreeSet<OpName>) -> Result<(), AllocError>
    ensures { OnOk result ((n : Name) → contains name_cmp names.new n ≡ (list_any (λ p. same_name p.1 n) active.now || contains name_cmp names.old n)) }
{
    for post in active {
        note(names, post.1)?;
    }
    Ok(())
}

/// The operations of a rank that are pending: its call, and those of its active requests.
fn pending_of(alloc: Global, rank: u32, own: &RankOps) -> Result<BTreeSet<OpName>, AllocError>
    ensures { IfOk result (λ names. (n : Name) → contains name_cmp names n ≡ is_pending rank own.now n) }
{
    let mut names = BTreeSet::new(alloc);
    note_posts(own.active(), &mut names)?;
    note_waiting(rank, own, &mut names)?;
    Ok(names)
}

/// Whether a receive may starve, where these operations are pending.
fn may_starve(
    pending: &BTreeSet<OpName>,
    pairs: &PairsByReceive<'_>,
    place: &mut usize,
    q: &Receive,
) -> bool
    ensures { result ≡ may_starve (contains name_cmp pending.now) pairs.now q.now }
{
    q.trust.is_sure()
        && q.ended.is_none()
        && pending.contains(&q.name)
        && is_unpaired(pairs, place, q)
}

/// Adds the receives that may starve.
fn push_receives(
    pending: &BTreeSet<OpName>,
    pairs: &PairsByReceive<'_>,
    place: &mut usize,
    receives: &[Receive],
    found: &mut Vec<Receive>,
) -> Result<(), AllocError>
    ensures { OnOk result (found.new.items ≡ found.old.items ++ filter (may_starve (contains name_cmp pending.now) pairs.now) receives.now) }
{
    for q in receives {
        if may_starve(pending, pairs, place, q) {
            found.push(*q)?;
        }
    }
    Ok(())
}

/// What a probe looks for that takes nothing by itself.
fn probe_of(call: &Call) -> Option<ProbeEnvelope>
    ensures { result ≡ probe_of call.now }
{
    match call {
        Call::Probe(envelope) | Call::Iprobe(envelope) | Call::Improbe(envelope) => Some(*envelope),
        _ => None,
    }
}

/// Adds the receive as which a probe looks for a message, where it isn't of the null process, nor foreign.
fn push_probe(
    layout: &Layout,
    rank: u32,
    number: u64,
    call: &Call,
    found: &mut Vec<Receive>,
) -> Result<(), AllocError>
    ensures { OnOk result (found.new.items ≡ found.old.items ++ probe_at layout.now rank (number, call.now)) }
{
    if is_foreign(layout, rank, number, call) {
        return Ok(());
    }
    let Some(envelope) = probe_of(call) else {
        return Ok(());
    };
    let Some(q) = probed(layout, rank, number, envelope) else {
        return Ok(());
    };
    found.push(q)?;
    Ok(())
}

/// Adds the same of the call in which a rank waits.
fn push_waiting(
    layout: &Layout,
    rank: u32,
    own: &RankOps,
    found: &mut Vec<Receive>,
) -> Result<(), AllocError>
    ensures { OnOk result (found.new.items ≡ found.old.items ++ waiting_probe layout.now rank own.now.waiting) }
{
    let Some((number, call)) = own.waiting() else {
        return Ok(());
    };
    push_probe(layout, rank, number, call, found)?;
    Ok(())
}

/// Adds the same of the polls of a rank.
fn push_polled(
    layout: &Layout,
    rank: u32,
    asked: &[Asked<'_>],
    found: &mut Vec<Receive>,
) -> Result<(), AllocError>
    ensures { OnOk result (found.new.items ≡ found.old.items ++ flat_map (λ a. probe_at layout.now rank (a.number, a.call.now)) asked.now) }
{
    for one in asked {
        push_probe(layout, rank, one.number, one.call, found)?;
    }
    Ok(())
}

/// The receives as which ranks poll, by rank.
type Polled = BTreeMap<u32, Vec<Receive>>;

/// Adds those of a poller to those of its rank.
fn note_poller(
    alloc: Global,
    layout: &Layout,
    poller: &Poller<'_>,
    polled: &mut Polled,
) -> Result<(), AllocError>
    ensures { OnOk result ((r : ℕ) → listed_of polled.new r ≡ listed_of polled.old r ++ (if poller.now.rank == r then polled_by layout.now (asker poller.now) else [])) }
{
    let mut list = Vec::new(alloc);
    push_polled(layout, poller.rank, &poller.asked, &mut list)?;
    put_polled(poller.rank, list, polled)?;
    Ok(())
}

/// Adds receives to those of a rank.
fn put_polled(rank: u32, list: Vec<Receive>, polled: &mut Polled) -> Result<(), AllocError>
    ensures { OnOk result ((r : ℕ) → listed_of polled.new r ≡ listed_of polled.old r ++ (if rank == r then list.items else [])) }
{
    if let Some(there) = polled.get_mut(&rank) {
        there.extend_from_slice(&list)?;
        return Ok(());
    }
    polled.insert(rank, list)?;
    Ok(())
}

/// The receives as which ranks poll.
fn polled_of(alloc: Global, layout: &Layout, pollers: &[Poller<'_>]) -> Result<Polled, AllocError>
    ensures { IfOk result (λ polls. (r : ℕ) → listed_of polls r ≡ polled layout.now (map asker pollers.now) r) }
{
    let mut polled = Polled::new(alloc);
    for poller in pollers {
        note_poller(alloc, layout, poller, &mut polled)?;
    }
    Ok(polled)
}

/// Those of a rank.
fn polled_at(polled: &Polled, rank: u32) -> &[Receive]
    ensures { result.now ≡ listed_of polled.now rank }
{
    match polled.get(&rank) {
        Some(list) => list,
        None => &[],
    }
}

/// Adds what may starve of a rank.
fn push_of_rank(
    alloc: Global,
    layout: &Layout,
    rank: u32,
    own: &RankOps,
    pairs: &PairsByReceive<'_>,
    place: &mut usize,
    polls: &[Receive],
    found: &mut Vec<Receive>,
) -> Result<(), AllocError>
    ensures { OnOk result (found.new.items ≡ found.old.items ++ candidates_by layout.now pairs.now rank own.now polls.now) }
{
    let pending = pending_of(alloc, rank, own)?;
    push_receives(&pending, pairs, place, own.receives(), found)?;
    push_waiting(layout, rank, own, found)?;
    found.extend_from_slice(polls)?;
    Ok(())
}

/// The receives and probes that may starve, rank by rank.
pub(crate) fn candidates(
    alloc: Global,
    layout: &Layout,
    ops: &[RankOps],
    ranks: u32,
    pairs: &PairsByReceive<'_>,
    pollers: &[Poller<'_>],
) -> Result<Vec<Receive>, AllocError>
    requires { ranks ≡ length ops.now }
    ensures { IfOk result (λ found. found.items ≡ candidates layout.now ops.now pairs.now (map asker pollers.now)) }
{
    let polled = polled_of(alloc, layout, pollers)?;
    let mut found = Vec::new(alloc);
    let mut place = 0;
    for rank in 0..ranks {
        let own = ops_at(ops, rank);
        let polls = polled_at(&polled, rank);
        push_of_rank(
            alloc, layout, rank, own, pairs, &mut place, polls, &mut found,
        )?;
    }
    Ok(found)
}
