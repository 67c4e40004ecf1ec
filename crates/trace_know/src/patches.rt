//! Joining whole lists of runs by a patch: runs that take the place of those that they touch.

ghost use Rattle.std.specs.Prelude.{◌≡◌, ◌+◌, ◌<◌, ◌≤◌, vec_len, vec_capacity, length, reverse, IsTrue, IsFalse, OnOk, OnErr, IfOk, []};
ghost use Rattle.trace_know.specs.Patches.{AddTheSame, AllSettled, Covers, IsClear, IsMerging, LastIsBehind, LastIsReached, of_all};
ghost use Rattle.trace_know.specs.Runs.{Above, IsFilled, of_runs};
ghost use Rattle.trace_know.specs.View.{join};

use crate::boxed::BoxedRun;
use crate::compare::holds_run;
use crate::copies::boxed_copy;
use crate::run_list::RunList;
use crate::runs::{begins_by, end, first_at, take_run};
use std::alloc::{AllocError, Global};
use std::mem;

/// Copies of those of the others that tell more than is held.
fn unheld(alloc: Global, runs: &RunList, others: &RunList) -> Result<RunList, AllocError>
    requires above { Above 0 runs.now.items }
    requires others { Above 0 others.now.items }
    ensures view { IfOk result (λ patch. AddTheSame runs.now.items patch.items others.now.items) }
    ensures above { IfOk result (λ patch. Above 0 patch.items) }
{
    let mut patch = RunList::new(alloc);
    for index in 0..others.len() {
        let other = others.at(index);
        if holds_run(runs, other) {
            continue;
        }
        let copy = boxed_copy(alloc, other)?;
        patch.reserve(1)?;
        patch.push(copy);
    }
    Ok(patch)
}

/// Whether a run touches one of others.
fn touches_any(runs: &RunList, run: &BoxedRun) -> bool
    requires above { Above 0 runs.now.items }
    requires filled { IsFilled run.now }
    ensures { IsFalse result → IsClear run.now (of_runs runs.now.items) }
{
    let at = first_at(runs, run.rank(), run.first());
    if at >= runs.len() {
        return false;
    }
    begins_by(runs.at(at), run.rank(), end(run))
}

/// Joins copies of the runs to a patch that touch it. The runs stand apart, so that one which is
/// passed over touches none of the copies either.
fn take_touched(alloc: Global, patch: &mut RunList, runs: &RunList) -> Result<(), AllocError>
    requires above { Above 0 runs.now.items }
    requires patch { Above 0 patch.old.items }
    ensures view { OnOk result (AddTheSame runs.now.items patch.new.items patch.old.items) }
    ensures settled { OnOk result (AllSettled runs.now.items (of_runs patch.new.items)) }
    ensures above { Above 0 patch.new.items }
{
    for index in 0..runs.len() {
        let run = runs.at(index);
        if !touches_any(patch, run) {
            continue;
        }
        let copy = boxed_copy(alloc, run)?;
        take_run(patch, copy)?;
    }
    Ok(())
}

/// Whether there are runs, and the last of them begins behind all others.
fn is_behind(runs: &RunList, others: &RunList) -> bool
    requires above { Above 0 runs.now.items }
    requires others { Above 0 others.now.items }
    ensures behind { IsTrue result → LastIsBehind runs.now.items others.now.items }
    ensures reached { IsFalse result → 0 < length runs.now.items → LastIsReached runs.now.items others.now.items }
{
    if runs.len() == 0 {
        return false;
    }
    if others.len() == 0 {
        return true;
    }
    let other = others.last();
    if begins_by(runs.last(), other.rank(), end(other)) {
        return false;
    }
    true
}

/// Takes the last run out of two lists: it goes over to those that fall. A run that a run of the patch touches is
/// dropped, since the patch has all of its cells.
fn merge_last(runs: &mut RunList, patch: &mut RunList, falling: &mut Vec<BoxedRun>)
    requires some { 0 < length runs.old.items + length patch.old.items }
    requires room { vec_len falling.old < vec_capacity falling.old }
    requires merging { IsMerging runs.old.items patch.old.items falling.old.items }
    ensures merging { IsMerging runs.new.items patch.new.items falling.new.items }
    ensures view { of_all runs.new.items patch.new.items falling.new.items
        ≡ of_all runs.old.items patch.old.items falling.old.items }
    ensures fewer { length runs.new.items + length patch.new.items + 1 ≡ length runs.old.items + length patch.old.items }
    ensures room { (vec_len falling.new ≤ vec_len falling.old + 1) × (vec_capacity falling.new ≡ vec_capacity falling.old) }
{
    if is_behind(runs, patch) {
        falling.push_reserved(runs.pop());
        return;
    }
    if is_behind(patch, runs) {
        falling.push_reserved(patch.pop());
        return;
    }
    // (the patch has all that this one has)
    runs.pop();
}

/// Moves the runs of a list to one that has room for them, the last first.
fn turned(falling: Vec<BoxedRun>, room: RunList) -> RunList
    requires empty { room.items ≡ [] }
    requires room { length falling.items ≤ room.room }
    ensures { result.items ≡ reverse falling.items }
{
    let mut falling = falling;
    let mut runs = room;
    while let Some(run) = falling.pop() {
        runs.push(run);
    }
    runs
}

/// The runs with a patch in the place of those that it touches, by way of lists with room for all of them.
fn patched(runs: RunList, patch: RunList, between: Vec<BoxedRun>, room: RunList) -> RunList
    requires above { Above 0 runs.items }
    requires patch { Above 0 patch.items }
    requires covers { Covers patch.items runs.items }
    requires empty { (between.items ≡ []) × (room.items ≡ []) }
    requires between { length runs.items + length patch.items + vec_len between ≤ vec_capacity between }
    requires room { length runs.items + length patch.items ≤ room.room }
    ensures view { of_runs result.items ≡ join (of_runs runs.items) (of_runs patch.items) }
    ensures above { Above 0 result.items }
{
    let mut runs = runs;
    let mut patch = patch;
    let mut falling = between;
    while runs.len() + patch.len() > 0 {
        merge_last(&mut runs, &mut patch, &mut falling);
    }
    turned(falling, room)
}

/// Joins copies of other runs to these. All growths come before the first write, so at `Err` the runs hold what they
/// held. The runs that the others don't touch are not copied: only their pointers are moved.
pub(crate) fn join_runs(
    alloc: Global,
    runs: &mut RunList,
    others: &RunList,
) -> Result<(), AllocError>
    requires above { Above 0 runs.old.items }
    requires others { Above 0 others.now.items }
    ensures ok { OnOk result (of_runs runs.new.items ≡ join (of_runs runs.old.items) (of_runs others.now.items)) }
    ensures err { OnErr result (of_runs runs.new.items ≡ of_runs runs.old.items) }
    ensures above { Above 0 runs.new.items }
{
    let mut patch = unheld(alloc, runs, others)?;
    if patch.len() == 0 {
        return Ok(());
    }
    take_touched(alloc, &mut patch, runs)?;
    let most = runs.len().checked_add(patch.len()).ok_or(AllocError)?;
    let between = Vec::with_capacity(alloc, most)?;
    let room = RunList::with_room(alloc, most)?;
    let ours = mem::replace(runs, RunList::new(alloc));
    *runs = patched(ours, patch, between, room);
    Ok(())
}
