//! What ranks ask for that poll: what the calls would wait for that wait in place of asking.

ghost use Rattle.std.specs.Prelude.{◌≡◌, ◌<◌, ◌^◌, All, length, map, IfOk};
ghost use Rattle.trace_ops.specs.Ops.{AreOwn};
ghost use Rattle.trace_ops.specs.Order.{AreCalledInOrder, AreInOrder, ArePosted};
ghost use Rattle.trace_stuck.specs.Shape.{shape};
ghost use Rattle.trace_wait.specs.Polls.{asked_by, asked_of, sought_by};
ghost use Rattle.trace_wait.specs.Ranks.{IsOfRank, ops_of};

use crate::overview::Overview;
use crate::parts::probe_part;
use crate::requests::{all_of_list, request, some_of_list};
use mpi_model::{Call, ProbeEnvelope};
use std::alloc::{AllocError, Global};
use trace_ops::{RankOps, is_foreign, probed};
use trace_stuck::Condition;

/// A poll: a call that asks whether something is done and doesn't wait for it, which is a Test, Testall, Testany,
/// Testsome, Iprobe or Improbe.
#[derive(Clone, Copy)]
pub struct Poll<'a> {
    pub rank: u32,
    /// The number of the call in its rank.
    pub number: u64,
    pub call: &'a Call,
}

/// What a probe that returns at once looks for, as a Probe would that waits for it: nothing where it is foreign.
fn sought_by(
    alloc: Global,
    run: &Overview,
    r: u32,
    o: &RankOps,
    n: u64,
    call: &Call,
    e: ProbeEnvelope,
) -> Result<Condition, AllocError>
    ensures { IfOk result (λ c. shape c ≡ sought_by run.now r o.now n call.now e) }
{
    let _o = o;
    if is_foreign(run.layout, r, n, call) {
        Ok(Condition::yes())
    } else {
        probe_part(alloc, run, probed(run.layout, r, n, e))
    }
}

/// What rank r asks for by its call n; nothing if that is no poll.
fn asked_by(
    alloc: Global,
    run: &Overview,
    r: u32,
    o: &RankOps,
    n: u64,
    call: &Call,
) -> Result<Condition, AllocError>
    requires rank { IsOfRank run.now.ops r o.now }
    requires sends { AreInOrder o.now.sends }
    requires receives { ArePosted o.now.receives }
    requires cancelled { AreCalledInOrder o.now.cancelled }
    ensures { IfOk result (λ c. shape c ≡ asked_by run.now r o.now n call.now) }
{
    match call {
        Call::Test(x) => request(alloc, run, r, o, x),
        Call::Testall(xs) => all_of_list(alloc, run, r, o, xs.as_slice()),
        Call::Testany(xs) => some_of_list(alloc, run, r, o, xs.as_slice()),
        Call::Testsome(xs) => some_of_list(alloc, run, r, o, xs.as_slice()),
        Call::Improbe(e) => sought_by(alloc, run, r, o, n, call, *e),
        Call::Iprobe(e) => sought_by(alloc, run, r, o, n, call, *e),
        _ => Ok(Condition::yes()),
    }
}

/// What a poll of a rank asks for, by the rank's operations.
fn asked_of(
    alloc: Global,
    run: &Overview,
    ops: &[RankOps],
    poll: &Poll,
) -> Result<Condition, AllocError>
    requires run { run.now.ops ≡ ops.now }
    requires own { AreOwn 0 ops.now }
    requires there { poll.now.rank < length ops.now }
    ensures { IfOk result (λ c. shape c ≡ asked_of run.now poll.now) }
{
    let o = &ops[poll.rank as usize];
    asked_by(alloc, run, poll.rank, o, poll.number, poll.call)
}

/// What each of the polls asks for.
pub(crate) fn asked_of_all(
    alloc: Global,
    run: &Overview,
    ops: &[RankOps],
    polls: &[Poll],
) -> Result<Vec<Condition>, AllocError>
    requires run { run.now.ops ≡ ops.now }
    requires own { AreOwn 0 ops.now }
    requires there { All (λ p. p.rank < length ops.now) polls.now }
    ensures { IfOk result (λ v. map shape v.items ≡ map (asked_of run.now) polls.now) }
{
    let mut asked = Vec::new(alloc);
    for poll in polls {
        asked.push(asked_of(alloc, run, ops, poll)?)?;
    }
    Ok(asked)
}
