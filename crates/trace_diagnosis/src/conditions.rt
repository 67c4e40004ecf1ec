//! What each rank waits or polls for, and which ranks are held.

ghost use Rattle.std.specs.Prelude.{[], ◌≡◌, ◌++◌, ◌<◌, ◌≤◌, ◌^◌, ℕ, All, IfOk, List, None, OnOk, Some, if◌then◌else◌, length, map, set, vec_len};
ghost use Rattle.std.specs.List.Sorted.{IsNonDecreasing};
ghost use Rattle.std.specs.List.{flat_map, range_with_len};
ghost use Rattle.trace_know.specs.Prefix.{events_of, is_beyond};
ghost use Rattle.trace_ops.specs.Ops.{AreOwn};
ghost use Rattle.trace_stuck.specs.Graph.{is_up};
ghost use Rattle.trace_stuck.specs.Release.{among};
ghost use Rattle.trace_stuck.specs.Shape.{OnOne, Wait, shape, waits_of};
ghost use Rattle.std.specs.Option.{option_map};
ghost use Rattle.trace_wait.specs.Ranks.{ops_of};
ghost use Rattle.trace_diagnosis.specs.Askers.{AreDropped, ArePut, asked_plain, asker, case_conditions, poll_plain, poller_plain, polls_by, shapes};
ghost use Rattle.trace_diagnosis.specs.Conditions.{does_wait, has_gone_on};
ghost use Rattle.trace_diagnosis.specs.Holding.{is_held};
ghost use Rattle.trace_diagnosis.specs.Tails.{is_going, polling_at, polling_by, polls_from, tail_first};
ghost use Rattle.trace_diagnosis.specs.declared.conditions.Poller.{Poller as Polls};

use crate::holding::{is_unmet, is_up};
use crate::inits::Inits;
use crate::polls::{Asked, Tail, asked_of, tail_of};
use crate::standing::ops_at;
use mpi_model::Layout;
use std::alloc::{AllocError, Global};
use trace_know::Knowledge;
use trace_node::Answer;
use trace_ops::{RankOps, State};
use trace_pair::PairTable;
use trace_stuck::Condition;
use trace_wait::{Poll, conditions_with_polls};

/// What the conditions of a run are made from.
#[derive(Clone, Copy)]
pub(crate) struct Case<'a> {
    pub layout: &'a Layout,
    pub answer: &'a Answer,
    pub know: &'a Knowledge,
    /// For each rank, whether its readable prefix ends where its text was cut.
    pub cut: &'a [bool],
    pub ranks: u32,
    pub ops: &'a [RankOps],
    pub pollers: &'a [Poller<'a>],
    pub inits: &'a Inits,
    /// The stuck ranks, in rising order.
    pub stuck: &'a [u32],
}

/// A rank that polls.
#[derive(Drop)]
pub(crate) struct Poller<'a> {
    pub rank: u32,
    pub tail: Tail,
    pub asked: Vec<Asked<'a>>,
}

/// The ranks that poll. Those whose text is cut, or of which more is known, don't.
pub(crate) fn pollers_of<'a>(
    alloc: Global,
    know: &'a Knowledge,
    ops: &[RankOps],
    cut: &[bool],
    ranks: u32,
) -> Result<Vec<Poller<'a>>, AllocError>
    requires { ranks ≤ length ops.now }
    ensures there { IfOk result (λ pollers. All (λ p. p.rank < length ops.now) pollers.items) }
    ensures polls { IfOk result (λ pollers. map poller_plain pollers.items ≡ flat_map (polling_at know.now ops.now cut.now) (range_with_len 0 ranks)) }
{
    let mut pollers = Vec::new(alloc);
    for rank in 0..ranks {
        let is_going = is_rank_going(know, ops, cut, rank);
        push_poller(alloc, know, rank, is_going, &mut pollers)?;
    }
    Ok(pollers)
}

/// Whether a rank in this state is free with nothing beyond, and its text isn't cut.
fn is_going(state: State, beyond: bool, cut: bool) -> bool
    ensures { result ≡ is_going state beyond cut }
{
    match state {
        State::Free => !beyond && !cut,
        State::Waiting | State::Ended => false,
    }
}

/// The same of a rank.
fn is_rank_going(know: &Knowledge, ops: &[RankOps], cut: &[bool], rank: u32) -> bool
    requires { rank < length ops.now }
    ensures { result ≡ is_going (ops_of ops.now rank).state (is_beyond know.now rank) (is_up cut.now rank) }
{
    is_going(
        ops_at(ops, rank).state(),
        know.beyond(rank),
        is_up(cut, rank),
    )
}

/// Adds the rank, where its last calls are polls.
fn push_poller<'a>(
    alloc: Global,
    know: &'a Knowledge,
    rank: u32,
    is_going: bool,
    pollers: &mut Vec<Poller<'a>>,
) -> Result<(), AllocError>
    ensures there { OnOk result ((count : ℕ) → rank < count → All (λ p. p.rank < count) pollers.old.items → All (λ p. p.rank < count) pollers.new.items) }
    ensures polls { OnOk result (map poller_plain pollers.new.items ≡ map poller_plain pollers.old.items
        ++ (if is_going then polling_by rank (polls_from (events_of know.now rank) (tail_first (events_of know.now rank))) else [])) }
{
    if !is_going {
        return Ok(());
    }
    let events = know.readable(rank);
    let tail = tail_of(&events);
    if tail.count < 2 {
        return Ok(());
    }
    let asked = asked_of(alloc, &events, tail)?;
    pollers.push(Poller { rank, tail, asked })?;
    Ok(())
}

/// Adds the polls of a rank.
fn push_polls<'a>(
    rank: u32,
    asked: &[Asked<'a>],
    polls: &mut Vec<Poll<'a>>,
) -> Result<(), AllocError>
    ensures there { OnOk result ((count : ℕ) → rank < count → All (λ p. p.rank < count) polls.old.items → All (λ p. p.rank < count) polls.new.items) }
    ensures polls { OnOk result (map poll_plain polls.new.items ≡ map poll_plain polls.old.items ++ map (λ a. (rank, asked_plain a)) asked.now) }
{
    for one in asked {
        polls.push(Poll {
            rank,
            number: one.number,
            call: one.call,
        })?;
    }
    Ok(())
}

/// All polls, one poller's after another's.
fn polls_of<'a>(alloc: Global, pollers: &[Poller<'a>]) -> Result<Vec<Poll<'a>>, AllocError>
    ensures there { IfOk result (λ polls. (count : ℕ) → All (λ p. p.rank < count) pollers.now → All (λ p. p.rank < count) polls.items) }
    ensures polls { IfOk result (λ polls. map poll_plain polls.items ≡ flat_map polls_by pollers.now) }
{
    let mut polls = Vec::new(alloc);
    for poller in pollers {
        push_polls(poller.rank, &poller.asked, &mut polls)?;
    }
    Ok(polls)
}

/// One of the last so many conditions, which are taken away.
fn one_of_last(rest: &mut Vec<Condition>, count: usize) -> Result<Condition, AllocError>
    ensures one { IfOk result (λ c. (before own : List Wait) → map shape rest.old.items ≡ before ++ own → length own ≡ count → shape c ≡ OnOne (waits_of own)) }
    ensures rest { OnOk result ((before own : List Wait) → map shape rest.old.items ≡ before ++ own → length own ≡ count → map shape rest.new.items ≡ before) }
{
    let at = rest.len().saturating_sub(count);
    let own = rest.split_off(at)?;
    Ok(Condition::one(own))
}

/// Puts a condition at the place of its rank.
fn put_at(of_ranks: &mut [Option<Condition>], rank: u32, condition: Option<Condition>)
    ensures { of_ranks.new ≡ set of_ranks.old rank condition }
{
    let place = rank as usize;
    if place >= of_ranks.len() {
        return;
    }
    of_ranks[place] = condition;
}

/// Puts the condition of the last of these pollers in its place. It is one of the last of the polls' conditions, which
/// are taken away.
fn put_last(
    poller: &Poller<'_>,
    rest: &mut Vec<Condition>,
    of_ranks: &mut [Option<Condition>],
) -> Result<(), AllocError>
    ensures rest { OnOk result ((before own : List Wait) → map shape rest.old.items ≡ before ++ own → length own ≡ length poller.now.asked.items → map shape rest.new.items ≡ before) }
    ensures put { OnOk result ((before own : List Wait) → map shape rest.old.items ≡ before ++ own → length own ≡ length poller.now.asked.items
        → shapes of_ranks.new ≡ set (shapes of_ranks.old) poller.now.rank (Some (OnOne (waits_of own)))) }
{
    let condition = one_of_last(rest, poller.asked.len())?;
    put_at(of_ranks, poller.rank, Some(condition));
    Ok(())
}

/// Puts the condition of each poller in its place.
fn put_polls(
    pollers: &[Poller<'_>],
    of_polls: Vec<Condition>,
    of_ranks: &mut [Option<Condition>],
) -> Result<(), AllocError>
    ensures { OnOk result ((f : Polls → List Wait) → ((p : Polls) → length (f p) ≡ length p.asked.items) → map shape of_polls.items ≡ flat_map f pollers.now
        → ArePut f pollers.now of_ranks.old of_ranks.new) }
{
    let mut rest = of_polls;
    for behind in 0..pollers.len() {
        let last = pollers.len() - 1 - behind;
        put_last(&pollers[last], &mut rest, of_ranks)?;
    }
    Ok(())
}

/// Whether the rank's text was cut, and it isn't stuck.
fn has_gone_on(know: &Knowledge, cut: &[bool], stuck: &[u32], rank: u32) -> bool
    requires { IsNonDecreasing stuck.now }
    ensures { result ≡ has_gone_on know.now cut.now stuck.now rank }
{
    is_up(cut, rank) && !know.beyond(rank) && !is_among(stuck, rank)
}

/// Whether the rank is one of these, which rise.
pub(crate) fn is_among(ranks: &[u32], rank: u32) -> bool
    requires { IsNonDecreasing ranks.now }
    ensures { result ≡ among ranks.now rank }
{
    ranks.binary_search(&rank).is_ok()
}

/// Takes the condition from a rank, where that has gone on.
fn drop_at(of_ranks: &mut [Option<Condition>], has_gone_on: bool, rank: u32)
    ensures { shapes of_ranks.new ≡ (if has_gone_on then set (shapes of_ranks.old) rank None else shapes of_ranks.old) }
{
    if !has_gone_on {
        return;
    }
    put_at(of_ranks, rank, None);
}

/// Takes their conditions from the ranks whose texts are cut, but from the stuck ones.
fn drop_cut(
    know: &Knowledge,
    cut: &[bool],
    stuck: &[u32],
    of_ranks: &mut [Option<Condition>],
    ranks: u32,
)
    requires rising { IsNonDecreasing stuck.now }
    requires all { ranks ≤ length of_ranks.old }
    ensures { AreDropped (has_gone_on know.now cut.now stuck.now) ranks of_ranks.old of_ranks.new }
{
    for rank in 0..ranks {
        drop_at(of_ranks, has_gone_on(know, cut, stuck, rank), rank);
    }
}

/// The condition of each rank, where it waits or polls.
pub(crate) fn conditions_of(
    alloc: Global,
    case: &Case<'_>,
    pairs: &PairTable,
) -> Result<Vec<Option<Condition>>, AllocError>
    requires few { length case.now.ops.now < 2 ^ 32 }
    requires own { AreOwn 0 case.now.ops.now }
    requires there { All (λ p. p.rank < length case.now.ops.now) case.now.pollers.now }
    requires all { case.now.ranks ≡ length case.now.ops.now }
    requires rising { IsNonDecreasing case.now.stuck.now }
    requires pairs { pairs.now.pairs ≡ case.now.answer.now.pairs }
    ensures { IfOk result (λ cs. shapes cs.items ≡ case_conditions case.now) }
{
    let polls = polls_of(alloc, case.pollers)?;
    let rounds = case.answer.rounds();
    let conditions = conditions_with_polls(alloc, case.layout, case.ops, pairs, rounds, &polls)?;
    let mut of_ranks = conditions.of_ranks;
    put_polls(case.pollers, conditions.of_polls, &mut of_ranks)?;
    drop_cut(case.know, case.cut, case.stuck, &mut of_ranks, case.ranks);
    Ok(of_ranks)
}

/// Whether the rank with this condition is held: it doesn't hold where no rank can go on.
fn is_held(condition: &Option<Condition>) -> bool
    ensures { result ≡ is_held (option_map shape condition.now) }
{
    match condition {
        Some(condition) => is_unmet(condition),
        None => false,
    }
}

/// For each rank, whether it is held.
pub(crate) fn held_of(
    alloc: Global,
    conditions: &[Option<Condition>],
) -> Result<Vec<bool>, AllocError>
    ensures { IfOk result (λ held. held.items ≡ map is_held (shapes conditions.now)) }
{
    let mut held = Vec::new(alloc);
    for condition in conditions {
        held.push(is_held(condition))?;
    }
    Ok(held)
}

/// Whether the rank with this condition waits or polls.
fn does_wait(condition: &Option<Condition>) -> bool
    ensures { result ≡ does_wait (option_map shape condition.now) }
{
    match condition {
        Some(_) => true,
        None => false,
    }
}

/// For each rank, whether it waits or polls.
pub(crate) fn waits_of(
    alloc: Global,
    conditions: &[Option<Condition>],
) -> Result<Vec<bool>, AllocError>
    ensures { IfOk result (λ waits. waits.items ≡ map does_wait (shapes conditions.now)) }
{
    let mut waits = Vec::new(alloc);
    for condition in conditions {
        waits.push(does_wait(condition))?;
    }
    Ok(waits)
}
