//! The order of release: a list that is its own queue. A rank that is released lets those be tried
//! again whose condition names it, and no others.

ghost use Rattle.std.specs.Prelude.{◌≡◌, ◌<◌, ◌≤◌, ◌^◌, ℕ, IfOk, OnOk, length, vec_len};
ghost use Rattle.trace_stuck.specs.Queue.{flag, is_next};
ghost use Rattle.trace_stuck.specs.States.{is_free};
ghost use Rattle.trace_stuck.specs.Release.{IsReleaseOrder, IsWhole};
ghost use Rattle.trace_stuck.specs.Queue.{Settles, Tries, TriedAll, everybody};

use crate::askers::{askers_at, askers_of};
use crate::condition::Condition;
use crate::hold::{Flags, flag_at, may_rank_go};
use crate::state::is_rank_waiting;
use std::alloc::{AllocError, Global};
use trace_ops::State;

/// Which ranks are free.
fn free_flags(alloc: Global, states: &[State]) -> Result<Vec<bool>, AllocError>
    ensures flags { IfOk result (λ flags. (r : ℕ) → flag flags.items r ≡ is_free states.now r) }
    ensures len { IfOk result (λ flags. vec_len flags ≡ length states.now) }
{
    let mut flags = Vec::new(alloc);
    for s in states {
        flags.push(*s == State::Free)?;
    }
    Ok(flags)
}

/// Whether a rank waits, was not released, and may go on.
fn is_rank_next(states: &[State], conditions: &[Option<Condition>], able: &[bool], r: usize) -> bool
    ensures { result ≡ is_next states.now conditions.now able.now r }
{
    is_rank_waiting(states, r)
        && !flag_at(able, r)
        && may_rank_go(conditions, &Flags { flags: able }, r)
}

/// Releases the rank where it waits, was not released, and may go on now.
fn try_rank(
    states: &[State],
    conditions: &[Option<Condition>],
    r: u32,
    able: &mut Vec<bool>,
    release: &mut Vec<u32>,
) -> Result<(), AllocError>
    requires { vec_len able.old ≡ length states.now }
    ensures len { vec_len able.new ≡ vec_len able.old }
    ensures turn { OnOk result (Tries states.now conditions.now r able.old release.old able.new release.new) }
{
    if is_rank_next(states, conditions, able, r as usize) {
        able[r as usize] = true;
        release.push(r)?;
    }
    Ok(())
}

/// Tries the ranks that name the rank whose turn it is.
fn try_ranks(
    states: &[State],
    conditions: &[Option<Condition>],
    ranks: &[u32],
    able: &mut Vec<bool>,
    release: &mut Vec<u32>,
) -> Result<(), AllocError>
    requires { vec_len able.old ≡ length states.now }
    ensures len { OnOk result (vec_len able.new ≡ vec_len able.old) }
    ensures grows { OnOk result (length release.old.items ≤ length release.new.items) }
    ensures ready { OnOk result (TriedAll states.now conditions.now ranks.now able.old release.old able.new release.new) }
{
    for r in ranks {
        try_rank(states, conditions, *r, able, release)?;
    }
    Ok(())
}

/// Tries every rank once.
fn try_all(
    states: &[State],
    conditions: &[Option<Condition>],
    able: &mut Vec<bool>,
    release: &mut Vec<u32>,
) -> Result<(), AllocError>
    requires few { length states.now < 2 ^ 32 }
    requires len { vec_len able.old ≡ length states.now }
    ensures len { OnOk result (vec_len able.new ≡ vec_len able.old) }
    ensures ready { OnOk result (Settles states.now conditions.now 0 everybody able.old release.old able.new release.new) }
{
    for r in 0..states.len() {
        try_rank(states, conditions, r as u32, able, release)?;
    }
    Ok(())
}

/// The order of release of all ranks that can go on.
pub(crate) fn release_all(
    alloc: Global,
    states: &[State],
    conditions: &[Option<Condition>],
) -> Result<Vec<u32>, AllocError>
    requires { length states.now < 2 ^ 32 }
    ensures order { IfOk result (λ release. IsReleaseOrder states.now conditions.now release.items) }
    ensures rest { IfOk result (λ release. IsWhole states.now conditions.now release.items) }
{
    let askers = askers_of(alloc, conditions, states.len())?;
    let mut able = free_flags(alloc, states)?;
    let mut release = Vec::new(alloc);
    try_all(states, conditions, &mut able, &mut release)?;
    let mut at = 0;
    while at < release.len() {
        let ranks = askers_at(&askers, release[at]);
        try_ranks(states, conditions, ranks, &mut able, &mut release)?;
        at += 1;
    }
    Ok(release)
}
