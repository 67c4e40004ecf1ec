//! Whether a list is an order of release, and whether it is a closed set. No memory is taken.

ghost use Rattle.std.specs.Prelude.{◌≡◌, ◌↔◌, ◌&&◌, ◌||◌, not, ℕ, List, Option, Bool, true};
ghost use Rattle.trace_ops.specs.declared.state.State.{State};
ghost use Rattle.trace_stuck.specs.declared.condition.Condition.{Condition};
ghost use Rattle.trace_stuck.specs.Release.{IsReleaseOrder, among};
ghost use Rattle.trace_stuck.specs.States.{is_waiting, is_free, is_ended};
ghost use Rattle.trace_stuck.specs.Holds.{may_go};
ghost use Rattle.trace_stuck.specs.Stuck.{AreInNoClosedSet, IsClosed, IsStuck};
ghost use Rattle.trace_stuck.specs.Verdicts.{is_step, is_shut};

use crate::condition::Condition;
use crate::hold::{Able, may_rank_go};
use crate::state::{is_rank_ended, is_rank_free, is_rank_waiting};
use trace_ops::State;

/// The free ranks and these.
#[derive(Drop)]
struct FreeOr<'a> {
    states: &'a [State],
    ranks: &'a [u32],
}

impl<'a> Able for FreeOr<'a> {
    ghost able = { λ f r. is_free f.states.now r || among f.ranks.now r };

    fn can_go(&self, r: u32) -> bool {
        is_rank_free(self.states, r as usize) || is_among(self.ranks, r)
    }
}

/// The ranks that have not ended, without these.
#[derive(Drop)]
struct Outside<'a> {
    states: &'a [State],
    ranks: &'a [u32],
}

impl<'a> Able for Outside<'a> {
    ghost able = { λ f r. not (among f.ranks.now r) && not (is_ended f.states.now r) };

    fn can_go(&self, r: u32) -> bool {
        !is_among(self.ranks, r) && !is_rank_ended(self.states, r as usize)
    }
}

/// Whether the rank is in the list.
fn is_among(ranks: &[u32], r: u32) -> bool
    ensures { result ≡ among ranks.now r }
{
    ranks.iter().any(|s| *s == r)
}

/// Whether the rank may be released after these.
fn is_step(states: &[State], conditions: &[Option<Condition>], before: &[u32], r: u32) -> bool
    ensures { result ≡ is_step states.now conditions.now before.now r }
{
    is_rank_waiting(states, r as usize)
        && !is_among(before, r)
        && may_rank_go(
            conditions,
            &FreeOr {
                states,
                ranks: before,
            },
            r as usize,
        )
}

/// Whether the rank waits, and may not go on where just the ranks outside the list that have not ended can.
fn is_shut(states: &[State], conditions: &[Option<Condition>], ranks: &[u32], r: u32) -> bool
    ensures { result ≡ is_shut states.now conditions.now ranks.now r }
{
    is_rank_waiting(states, r as usize)
        && !may_rank_go(conditions, &Outside { states, ranks }, r as usize)
}

/// Whether the list is an order of release: each of its ranks waits, and its condition holds once the free ranks and
/// those before it can go on. Then none of its ranks is in any closed set.
pub fn check_release(states: &[State], conditions: &[Option<Condition>], release: &[u32]) -> bool
    ensures order { (result ≡ true) ↔ IsReleaseOrder states.now conditions.now release.now }
    ensures out { result ≡ true → AreInNoClosedSet states.now conditions.now release.now }
{
    for i in 0..release.len() {
        if !is_step(states, conditions, &release[..i], release[i]) {
            return false;
        }
    }
    true
}

/// Whether the listed ranks are a closed set: all of them wait, and none may go on even if every rank outside that has
/// not ended can.
pub fn check_closed(states: &[State], conditions: &[Option<Condition>], ranks: &[u32]) -> bool
    ensures { (result ≡ true) ↔ IsClosed states.now conditions.now (among ranks.now) }
{
    for r in ranks {
        if !is_shut(states, conditions, ranks, *r) {
            return false;
        }
    }
    true
}
