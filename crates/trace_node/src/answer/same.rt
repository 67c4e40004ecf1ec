//! Whether two answers tell the same, part by part.

ghost use Rattle.std.specs.Prelude.{◌≡◌, ◌↔◌, IsTrue, map};
ghost use Rattle.trace_node.specs.Answer.{HasSameCalls, HasSamePlaces, HasSameRanks};
ghost use Rattle.trace_node.specs.Stopped.{stopped};
ghost use Rattle.trace_wait.specs.declared.round.Standing.TheVariants.{Mismatched, Complete, Partial};

use crate::answer::Answer;
use crate::stuck::Stuck;
use mpi_model::{CollectiveFunction, OpName};
use trace_ops::State;
use trace_pair::Pair;
use trace_wait::{Round, Standing};

fn are_same_numbers(first: &[u64], second: &[u64]) -> bool
    ensures { IsTrue result ↔ (first.now ≡ second.now) }
{
    first == second
}

fn are_same_flags(first: &[bool], second: &[bool]) -> bool
    ensures { IsTrue result ↔ (first.now ≡ second.now) }
{
    first == second
}

fn are_same_places(first: &[(u32, u64)], second: &[(u32, u64)]) -> bool
    ensures { IsTrue result ↔ (first.now ≡ second.now) }
{
    first == second
}

fn are_same_states(first: &[State], second: &[State]) -> bool
    ensures { IsTrue result ↔ (first.now ≡ second.now) }
{
    first == second
}

fn are_same_names(first: &[OpName], second: &[OpName]) -> bool
    ensures { IsTrue result ↔ (first.now ≡ second.now) }
{
    first == second
}

fn are_same_pairs(first: &[Pair], second: &[Pair]) -> bool
    ensures { IsTrue result ↔ (first.now ≡ second.now) }
{
    first == second
}

fn is_same_function(first: CollectiveFunction, second: CollectiveFunction) -> bool
    ensures { IsTrue result ↔ (first ≡ second) }
{
    first.same(second)
}

fn is_same_root(first: Option<u32>, second: Option<u32>) -> bool
    ensures { IsTrue result ↔ (first ≡ second) }
{
    match (first, second) {
        (None, None) => true,
        (Some(a), Some(b)) => a == b,
        _ => false,
    }
}

/// Whether a round is mismatched.
fn is_mismatched(standing: Standing) -> bool
    ensures { IsTrue result ↔ (Mismatched ≡ standing) }
{
    match standing {
        Standing::Mismatched => true,
        Standing::Complete(_, _) => false,
        Standing::Partial(_, _, _, _) => false,
    }
}

/// Whether a round is complete, of this function and root.
fn is_complete(function: CollectiveFunction, root: Option<u32>, standing: Standing) -> bool
    ensures { IsTrue result ↔ (Complete function root ≡ standing) }
{
    match standing {
        Standing::Mismatched => false,
        Standing::Complete(other, at) => is_same_function(function, other)
            && is_same_root(root, at),
        Standing::Partial(_, _, _, _) => false,
    }
}

/// Whether a round is open, of this function and root, and entered by so many of so many members.
fn is_open(
    function: CollectiveFunction,
    root: Option<u32>,
    entered: u32,
    members: u32,
    standing: Standing,
) -> bool
    ensures { IsTrue result ↔ (Partial function root entered members ≡ standing) }
{
    match standing {
        Standing::Mismatched => false,
        Standing::Complete(_, _) => false,
        Standing::Partial(other, at, n, m) => {
            is_same_function(function, other)
                && is_same_root(root, at)
                && entered == n
                && members == m
        }
    }
}

/// Whether two rounds stand alike: both mismatched, complete or open, of one function and root, with equal counts.
fn is_same_standing(first: Standing, second: Standing) -> bool
    ensures { IsTrue result ↔ (first ≡ second) }
{
    match first {
        Standing::Mismatched => is_mismatched(second),
        Standing::Complete(function, root) => is_complete(function, root, second),
        Standing::Partial(function, root, entered, members) => {
            is_open(function, root, entered, members, second)
        }
    }
}

/// Whether the two are the same round of one communicator, and stand alike.
fn is_same_round(first: Round, second: Round) -> bool
    ensures { IsTrue result ↔ (first ≡ second) }
{
    first.comm == second.comm
        && first.k == second.k
        && is_same_standing(first.standing, second.standing)
}

/// Whether the two lists have the same rounds, in the same order and standing alike.
fn are_same_rounds(first: &[Round], second: &[Round]) -> bool
    ensures { IsTrue result ↔ (first.now ≡ second.now) }
{
    if first.len() != second.len() {
        return false;
    }
    for i in 0..first.len() {
        if !is_same_round(first[i], second[i]) {
            return false;
        }
    }
    true
}

/// Whether the two lists tell the same of each stuck rank.
fn are_same_stuck(first: &[Stuck], second: &[Stuck]) -> bool
    ensures { IsTrue result ↔ (map stopped first.now ≡ map stopped second.now) }
{
    if first.len() != second.len() {
        return false;
    }
    for i in 0..first.len() {
        if !first[i].same(&second[i]) {
            return false;
        }
    }
    true
}

/// Whether both tell the same of the ranks.
pub(crate) fn has_same_ranks(first: &Answer, second: &Answer) -> bool
    ensures { IsTrue result ↔ HasSameRanks first.now second.now }
{
    first.ranks() == second.ranks()
        && first.sends() == second.sends()
        && are_same_numbers(first.prefixes(), second.prefixes())
        && are_same_states(first.states(), second.states())
}

/// Whether both tell the same of places and foreign calls.
pub(crate) fn has_same_places(first: &Answer, second: &Answer) -> bool
    ensures { IsTrue result ↔ HasSamePlaces first.now second.now }
{
    are_same_flags(first.beyond(), second.beyond())
        && are_same_flags(first.unread(), second.unread())
        && are_same_places(first.conflicts(), second.conflicts())
        && first.foreign() == second.foreign()
}

/// Whether both tell the same of messages, rounds and stuck ranks.
pub(crate) fn has_same_calls(first: &Answer, second: &Answer) -> bool
    ensures { IsTrue result ↔ HasSameCalls first.now second.now }
{
    are_same_pairs(first.pairs(), second.pairs())
        && are_same_names(first.postponed(), second.postponed())
        && are_same_rounds(first.rounds(), second.rounds())
        && are_same_stuck(first.stuck(), second.stuck())
}
