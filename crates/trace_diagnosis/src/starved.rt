//! Receives and probes that starve.
//!
//! What may starve is gone through rank by rank, in the order of the calls, with the open receives that were met. A
//! message that one of these may have taken stays so for all later receives of the rank: so of the messages under one
//! pattern those in front are passed over once.

ghost use Rattle.std.specs.Prelude.{◌≡◌, ◌++◌, ◌∷◌, ◌≤◌, ◌&&◌, [], IfOk, OnOk, List, filter, length, map, nat_lt};
ghost use Rattle.std.specs.List.{list_all};
ghost use Rattle.mpi_model.specs.declared.message.Receive.{Receive as Wanted};
ghost use Rattle.mpi_model.specs.Trusts.{is_open};
ghost use Rattle.trace_ops.specs.Ops.{AreOwn, Ops};
ghost use Rattle.trace_ops.specs.Order.{ArePosted};
ghost use Rattle.trace_pair.specs.After.{comes_after};
ghost use Rattle.trace_pair.specs.Ends.{AreLast, may_take};
ghost use Rattle.trace_wait.specs.Ranks.{ops_of};
ghost use Rattle.trace_diagnosis.specs.Askers.{asker};
ghost use Rattle.trace_diagnosis.specs.Listed.{IsFirstFree, IsFront, Lists as Listing, is_starved_by, listed, opened, passed_at};
ghost use Rattle.trace_diagnosis.specs.Starving.{candidates, is_starved};

use crate::candidates::candidates;
use crate::conditions::Poller;
use crate::listed::{Lists, asked_of, listed, lists_of};
use crate::patterns::{Pattern, pattern_of};
use mpi_model::{Layout, Message, Receive};
use std::alloc::{AllocError, Global};
use std::collections::BTreeMap;
use trace_ops::RankOps;
use trace_pair::{Ends, PairsByReceive, Reaches};

/// How far the receives of a rank have been gone through.
#[derive(Drop)]
struct Front {
    rank: u32,
    /// How many of its receives.
    place: usize,
    /// The ends of the open ones among them.
    ends: Ends,
    /// For each pattern, how many of its first messages one of these may have taken.
    passed: BTreeMap<Pattern, usize>,
}

/// How many of the first messages of a pattern have been passed.
fn passed_at(passed: &BTreeMap<Pattern, usize>, pattern: Pattern) -> usize
    ensures { result ≡ passed_at passed.now pattern }
{
    passed.get(&pattern).copied().unwrap_or(0)
}

/// The place from `from` on of the first message that none of the open receives with these ends may have taken.
fn first_free(messages: &[Message], from: usize, ends: &Ends, reaches: &Reaches<'_>) -> usize
    ensures { (free : List Wanted) → AreLast free ends.now → IsFirstFree (may_take (comes_after reaches.now) free) messages.now from result }
{
    let mut at = from;
    'on: while at < messages.len() {
        if !ends.may_take(reaches, &messages[at]) {
            return at;
        }
        at += 1;
    }
    at
}

/// How many of a rank's receives stand before a call.
fn count_before(receives: &[Receive], call: u64) -> usize
    requires { ArePosted receives.now }
    ensures bound { result ≤ length receives.now }
    ensures opened { opened receives.now result ≡ filter (λ u. is_open u && nat_lt u.name.call call) receives.now }
{
    receives.partition_point(|u| u.name.call < call)
}

/// Adds the end of a receive, where it is open.
fn add_open(q: &Receive, ends: &mut Ends) -> Result<(), AllocError>
    ensures { OnOk result ((before : List Wanted) → AreLast before ends.old → AreLast (before ++ filter is_open (q.now ∷ [])) ends.new) }
{
    if !q.is_open() {
        return Ok(());
    }
    ends.insert(q)?;
    Ok(())
}

/// Adds the ends of the open receives from one place to another.
fn add_all_open(
    receives: &[Receive],
    from: usize,
    to: usize,
    ends: &mut Ends,
) -> Result<(), AllocError>
    requires order { from ≤ to }
    requires bound { to ≤ length receives.now }
    requires last { AreLast (opened receives.now from) ends.old }
    ensures { OnOk result (AreLast (opened receives.now to) ends.new) }
{
    for place in from..to {
        add_open(&receives[place], ends)?;
    }
    Ok(())
}

impl Front {
    /// Before the receives of a rank.
    fn before(alloc: Global, rank: u32) -> Front
        ensures rank { result.rank ≡ rank }
        ensures place { result.place ≡ 0 }
        ensures front { (ops : List Ops) (lists : Listing) → IsFront ops lists result }
    {
        Front {
            rank,
            place: 0,
            ends: Ends::empty(alloc),
            passed: BTreeMap::new(alloc),
        }
    }

    /// Turns to the receives of a rank, unless so many or fewer of them have been gone through.
    fn turn_to(&mut self, alloc: Global, rank: u32, to: usize)
        ensures rank { self.new.rank ≡ rank }
        ensures place { self.new.place ≤ to }
        ensures front { (ops : List Ops) (lists : Listing) → IsFront ops lists self.old → IsFront ops lists self.new }
    {
        if self.rank == rank && self.place <= to {
            return;
        }
        *self = Front::before(alloc, rank);
    }

    /// Goes on to a place of the rank's receives.
    fn go_to(&mut self, receives: &[Receive], to: usize) -> Result<(), AllocError>
        requires order { self.old.place ≤ to }
        requires bound { to ≤ length receives.now }
        requires last { AreLast (opened receives.now self.old.place) self.old.ends }
        ensures rank { OnOk result (self.new.rank ≡ self.old.rank) }
        ensures place { OnOk result (self.new.place ≡ to) }
        ensures front { OnOk result ((ops : List Ops) (lists : Listing) → receives.now ≡ (ops_of ops self.old.rank).receives → IsFront ops lists self.old → IsFront ops lists self.new) }
    {
        add_all_open(receives, self.place, to, &mut self.ends)?;
        self.place = to;
        Ok(())
    }

    /// Whether all messages of a pattern may have been taken by the open receives that have been gone through.
    fn are_taken(
        &mut self,
        lists: &Lists,
        reaches: &Reaches<'_>,
        pattern: Pattern,
    ) -> Result<bool, AllocError>
        requires { IsFront reaches.now lists.now self.old }
        ensures front { OnOk result (IsFront reaches.now lists.now self.new) }
        ensures taken { IfOk result (λ all. all ≡ list_all (may_take (comes_after reaches.now) (opened (ops_of reaches.now self.old.rank).receives self.old.place)) (listed lists.now pattern)) }
    {
        let messages = listed(lists, pattern);
        let from = passed_at(&self.passed, pattern);
        let first = first_free(messages, from, &self.ends, reaches);
        self.passed.insert(pattern, first)?;
        Ok(first >= messages.len())
    }
}

/// The receives of a rank.
fn receives_at(ops: &[RankOps], rank: u32) -> &[Receive]
    ensures { result.now ≡ (ops_of ops.now rank).receives }
{
    match ops.get(rank as usize) {
        Some(own) => own.receives(),
        None => &[],
    }
}

/// Whether a receive starves, after those that were asked before it. Where they were of its rank and of no later calls,
/// the search goes on from there, and else begins anew.
fn is_starved(
    alloc: Global,
    ops: &[RankOps],
    reaches: &Reaches<'_>,
    lists: &Lists,
    front: &mut Front,
    q: &Receive,
) -> Result<bool, AllocError>
    requires own { AreOwn 0 ops.now }
    requires reaches { reaches.now ≡ ops.now }
    requires front { IsFront ops.now lists.now front.old }
    ensures front { OnOk result (IsFront ops.now lists.now front.new) }
    ensures starved { IfOk result (λ is. is ≡ is_starved_by ops.now lists.now q.now) }
{
    let receives = receives_at(ops, q.at);
    let to = count_before(receives, q.name.call);
    front.turn_to(alloc, q.at, to);
    front.go_to(receives, to)?;
    front.are_taken(lists, reaches, pattern_of(q))
}

/// Those of the receives that starve, by the messages that are listed.
fn starved_among(
    alloc: Global,
    ops: &[RankOps],
    reaches: &Reaches<'_>,
    lists: &Lists,
    receives: &[Receive],
) -> Result<Vec<Receive>, AllocError>
    requires own { AreOwn 0 ops.now }
    requires reaches { reaches.now ≡ ops.now }
    ensures { IfOk result (λ found. found.items ≡ filter (is_starved_by ops.now lists.now) receives.now) }
{
    let mut front = Front::before(alloc, 0);
    let mut found = Vec::new(alloc);
    for q in receives {
        if is_starved(alloc, ops, reaches, lists, &mut front, q)? {
            found.push(*q)?;
        }
    }
    Ok(found)
}

/// The receives and probes that starve, rank by rank. `messages` are those in no pair that weren't cancelled.
pub(crate) fn starving_of(
    alloc: Global,
    layout: &Layout,
    ops: &[RankOps],
    ranks: u32,
    pairs: &PairsByReceive<'_>,
    reaches: &Reaches<'_>,
    pollers: &[Poller<'_>],
    messages: &[Message],
) -> Result<Vec<Receive>, AllocError>
    requires all { ranks ≡ length ops.now }
    requires own { AreOwn 0 ops.now }
    requires reaches { reaches.now ≡ ops.now }
    ensures { IfOk result (λ found. found.items ≡ filter (is_starved ops.now messages.now) (candidates layout.now ops.now pairs.now (map asker pollers.now))) }
{
    let receives = candidates(alloc, layout, ops, ranks, pairs, pollers)?;
    let asked = asked_of(alloc, &receives)?;
    let lists = lists_of(alloc, &asked, messages)?;
    let found = starved_among(alloc, ops, reaches, &lists, &receives)?;
    Ok(found)
}
