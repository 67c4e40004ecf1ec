//! The calls of all ranks, put into the sets of an index side by side.
//!
//! A message waits in the sets until the call comes that receives it, and a receive until its message
//! comes. With one rank after another nearly all messages would wait at once, in large maps whose
//! memory is left as holes of the heap. So the calls of each rank are cut into the same number of
//! parts, and the ranks go forward together, as they did in the run: a part of each, then the next
//! part of each.

ghost use Rattle.std.specs.Prelude.{◌≡◌, ◌≤◌, ◌<◌, ◌+◌, All, [], OnOk};
ghost use Rattle.trace_ops.specs.Ops.{AreOwn};
ghost use Rattle.trace_pair.specs.After.{comes_after};
ghost use Rattle.trace_pair.specs.Calls.{IsSingle};
ghost use Rattle.trace_pair.specs.Followed.{Indexes, Follows, KeepsCalls, FollowsParts, BeginsPart};
ghost use Rattle.trace_pair.specs.Parts.{first_parts};
ghost use Rattle.trace_pair.specs.Reach.{AreReachesOf};

use crate::follow::{add_messages, add_receives};
use crate::matched::Matched;
use crate::reach::{RankReach, Reaches};
use std::alloc::AllocError;
use trace_ops::RankOps;

/// How many calls a part has, on average over the ranks: few beside what waits in a run anyway, and
/// many beside the step from one rank to the next.
const PART: usize = 256;

/// The rank whose calls these are, if there are any.
fn rank_of(ops: &RankOps) -> Option<u32> {
    if let Some(m) = ops.sends().first() {
        return Some(m.name.rank);
    }
    match ops.receives().first() {
        Some(q) => Some(q.name.rank),
        None => None,
    }
}

/// Makes room for the couples of a rank's calls.
fn reserve_rank(state: &mut Matched, own: &RankOps) -> Result<(), AllocError>
    ensures { KeepsCalls state.old state.new }
{
    let Some(rank) = rank_of(own) else {
        return Ok(());
    };
    state.reserve(rank, own.sends().len(), own.receives().len())
}

/// Makes room for the couples of all ranks' calls: before any call comes, so that it stands in one
/// piece.
fn reserve_ranks(state: &mut Matched, ops: &[RankOps]) -> Result<(), AllocError>
    ensures { KeepsCalls state.old state.new }
{
    for own in ops {
        reserve_rank(state, own)?;
    }
    Ok(())
}

/// Into how many parts the calls of each rank are cut.
fn count_parts(ops: &[RankOps]) -> usize
    ensures { 0 < result }
{
    let mut calls: usize = 0;
    for own in ops {
        calls = calls.saturating_add(own.sends().len());
        calls = calls.saturating_add(own.receives().len());
    }
    calls / PART / ops.len().max(1) + 1
}

/// The first `done` of so many parts of a rank's calls.
fn front_of<T>(calls: &[T], parts: usize, done: usize) -> &[T]
    requires parts { 0 < parts }
    requires done { done ≤ parts }
    ensures { result.now ≡ first_parts parts done calls.now }
{
    let end = done as u128 * calls.len() as u128 / parts as u128;
    &calls[..end as usize]
}

/// Adds the part behind the first `done` of a rank's calls.
fn add_part(
    state: &mut Matched,
    reaches: &Reaches,
    own: &RankOps,
    parts: usize,
    done: usize,
) -> Result<(), AllocError>
    requires { done < parts }
    ensures { OnOk result (BeginsPart (comes_after reaches.now) own.now parts done state.old state.new) }
{
    let sends = own.sends();
    let sent = front_of(sends, parts, done).len();
    add_messages(state, reaches, front_of(sends, parts, done + 1), sent)?;
    let receives = own.receives();
    let posted = front_of(receives, parts, done).len();
    add_receives(state, reaches, front_of(receives, parts, done + 1), posted)?;
    Ok(())
}

/// Adds the part behind the first `done` of each rank's calls.
fn add_parts(
    state: &mut Matched,
    ops: &[RankOps],
    table: &[RankReach],
    parts: usize,
    done: usize,
) -> Result<(), AllocError>
    requires done { done < parts }
    requires table { AreReachesOf ops.now table.now }
    ensures { OnOk result (AreOwn 0 ops.now → All IsSingle ops.now → FollowsParts ops.now parts done state.old
        → FollowsParts ops.now parts (done + 1) state.new) }
{
    let reaches = Reaches::new(ops, table);
    for own in ops {
        add_part(state, &reaches, own, parts, done)?;
    }
    Ok(())
}

/// Adds the calls of all ranks to a state without calls.
pub(crate) fn add_ranks(
    state: &mut Matched,
    ops: &[RankOps],
    table: &[RankReach],
) -> Result<(), AllocError>
    requires { AreReachesOf ops.now table.now }
    ensures { OnOk result (AreOwn 0 ops.now → All IsSingle ops.now → Indexes (comes_after ops.now) [] [] state.old
        → Follows ops.now state.new) }
{
    reserve_ranks(state, ops)?;
    let parts = count_parts(ops);
    for done in 0..parts {
        add_parts(state, ops, table, parts, done)?;
    }
    Ok(())
}
