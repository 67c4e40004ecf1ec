//! Whether a verdict is right: whether it lists the stuck ranks, and a release order of all others.

ghost use Rattle.std.specs.Prelude.{◌≡◌, ◌≢◌, ◌↔◌, ◌<◌, ◌||◌, ℕ, true, IsTrue, length};
ghost use Rattle.std.specs.List.{AllPairs};
ghost use Rattle.trace_stuck.specs.Release.{among};
ghost use Rattle.trace_stuck.specs.States.{is_waiting};
ghost use Rattle.trace_check.specs.Right.{AreAllListed, IsRight, is_listed};

use trace_ops::State;
use trace_stuck::{
    Condition, check_closed, check_release, checked_verdicts_are_right, stuck_ranks_are_closed,
};

/// Whether the verdict is right: it lists the stuck ranks, each once, and a release order of all other
/// waiting ranks. No memory is taken.
pub(crate) fn is_right_verdict(
    states: &[State],
    conditions: &[Option<Condition>],
    stuck: &[u32],
    release: &[u32],
) -> bool
    ensures { IsTrue result ↔ IsRight states.now conditions.now stuck.now release.now }
{
    checked_verdicts_are_right();
    stuck_ranks_are_closed();
    if !is_each_once(stuck) {
        return false;
    }
    if !check_closed(states, conditions, stuck) {
        return false;
    }
    if !check_release(states, conditions, release) {
        return false;
    }
    are_all_listed(states, stuck, release)
}

/// Whether the rank is in the list.
fn is_among(ranks: &[u32], r: u32) -> bool
    ensures { result ≡ among ranks.now r }
{
    ranks.iter().any(|s| *s == r)
}

/// Whether the rank at a place of the states is in the list.
fn is_place_among(ranks: &[u32], place: usize) -> bool
    ensures { result ≡ among ranks.now place }
{
    ranks.iter().any(|s| *s as usize == place)
}

/// Whether the rank waits.
fn is_rank_waiting(states: &[State], r: usize) -> bool
    ensures { result ≡ is_waiting states.now r }
{
    match states.get(r) {
        Some(State::Waiting) => true,
        _ => false,
    }
}

/// Whether no rank stands in the list twice.
fn is_each_once(ranks: &[u32]) -> bool
    ensures { IsTrue result ↔ AllPairs (λ r s. r ≢ s) ranks.now }
{
    for i in 0..ranks.len() {
        if is_among(&ranks[..i], ranks[i]) {
            return false;
        }
    }
    true
}

/// Whether the rank stands in one of the lists, where it waits.
fn is_listed(states: &[State], stuck: &[u32], release: &[u32], r: usize) -> bool
    ensures { result ≡ is_listed states.now stuck.now release.now r }
{
    !is_rank_waiting(states, r) || is_place_among(stuck, r) || is_place_among(release, r)
}

/// Whether each waiting rank stands in one of the lists.
fn are_all_listed(states: &[State], stuck: &[u32], release: &[u32]) -> bool
    ensures { IsTrue result ↔ AreAllListed states.now stuck.now release.now }
{
    for r in 0..states.len() {
        if !is_listed(states, stuck, release, r) {
            return false;
        }
    }
    true
}
