//! The open receives of one key, in order of their calls, each with the end of the last to end of it and all in front
//! of it.
//!
//! A message asks a lane for that end alone, of the whole lane or of the front that is called no later than some call.
//! Receives come and go at the end of a lane, but for a few: so one costs a search, and a push or a pop.

ghost use Rattle.std.specs.Prelude.{◌≡◌, ◌≤◌, not, false, nat_lt, nat_le, take, filter, length, IfOk, OnOk, OnErr, IsTrue, None};
ghost use Rattle.std.specs.BTreeSet.{contains};
ghost use Rattle.std.specs.List.Sorted.{IsNonDecreasingBy};
ghost use Rattle.std.specs.Ordering.{is_eq};
ghost use Rattle.mpi_model.specs.declared.message.Receive.{Receive};
ghost use Rattle.trace_pair.specs.Groups.{HasMember, PutsMember, TakesMember};
ghost use Rattle.trace_pair.specs.KeyOrders.{receive_cmp, same_receive};
ghost use Rattle.trace_pair.specs.Sets.{DropsFrom};
ghost use Rattle.trace_pair.specs.Lanes.{AreLatest, EndsWith, IsLane, IsLatestOf, call_of, end_of, is_within, receives_of, IsSplitBy};

use crate::later::with_end;
use mpi_model::Receive;
use std::alloc::{AllocError, Global};
use std::marker::Model;

/// A receive, and the end of the last to end of it and all in front of it. `None` is one that doesn't end.
#[derive(Clone, Copy)]
pub(crate) struct Step {
    receive: Receive,
    latest: Option<u64>,
}

/// The receives of a key, in order of their calls.
#[derive(Drop)]
pub(crate) struct Lane {
    steps: Vec<Step>,
}

impl Model for Lane {
    ghost use Rattle.std.specs.BTreeSet.{BTreeSet};
    ghost use Rattle.mpi_model.specs.declared.message.Receive.{Receive};
    ghost use Rattle.trace_pair.specs.Lanes.{IsLane, set_of_steps};

    ghost Value = { BTreeSet Receive };

    ghost view = { λ s. set_of_steps s.steps.items };

    ghost invariant = { λ s. IsLane s.steps.items };
}

/// The end of the last to end of so many steps, where there are any.
fn end_of_front(steps: &[Step], count: usize) -> Option<Option<u64>>
    requires { count ≤ length steps.now }
    ensures { result ≡ end_of None (take count steps.now) }
{
    if count == 0 {
        None
    } else {
        Some(steps[count - 1].latest)
    }
}

/// How many steps are called before that call.
fn called_before(steps: &[Step], call: u64) -> usize
    requires { IsNonDecreasingBy call_of steps.now }
    ensures parted { IsSplitBy (λ s. nat_lt (call_of s) call) steps.now result }
    ensures bound { result ≤ length steps.now }
{
    steps.partition_point(
        |s: &Step| -> bool
            ensures { result ≡ nat_lt (call_of s.now) call }
        { s.receive.name.call < call },
    )
}

/// How many steps are called no later than that call.
fn called_by(steps: &[Step], call: u64) -> usize
    requires { IsNonDecreasingBy call_of steps.now }
    ensures parted { IsSplitBy (λ s. nat_le (call_of s) call) steps.now result }
    ensures bound { result ≤ length steps.now }
{
    steps.partition_point(
        |s: &Step| -> bool
            ensures { result ≡ nat_le (call_of s.now) call }
        { s.receive.name.call <= call },
    )
}

/// Makes the latest ends anew, from that place on.
fn renew(steps: &mut [Step], from: usize)
    requires { AreLatest None (take from steps.old) }
    ensures latest { AreLatest None steps.new }
    ensures same { receives_of steps.new ≡ receives_of steps.old }
{
    for i in from..steps.len() {
        steps[i].latest = with_end(end_of_front(steps, i), steps[i].receive.ended);
    }
}

/// Whether the step is of another receive, and so stays where this one is taken out.
fn is_of_another(step: &Step, q: &Receive) -> bool
    ensures { result ≡ not (same_receive step.now.receive q.now) }
{
    step.receive != *q
}

/// Takes the receive out wherever it stands.
fn take_out(steps: &mut Vec<Step>, q: &Receive)
    requires { IsNonDecreasingBy call_of steps.old.items }
    ensures lane { IsLane steps.new.items }
    ensures dropped { DropsFrom (receives_of steps.old.items) (receives_of steps.new.items) q.now }
{
    steps.retain(|step| is_of_another(step, q));
    renew(steps, 0);
}

/// Whether all but the last are called before the receive, and the last is that.
fn stands_last(steps: &[Step], q: &Receive) -> bool
    requires { IsNonDecreasingBy call_of steps.now }
    ensures { IsTrue result → EndsWith steps.now q.now }
{
    let place = called_before(steps, q.name.call);
    steps.len() - place == 1 && steps[place].receive == *q
}

impl Lane {
    /// A lane of one receive.
    pub(crate) fn one(alloc: Global, q: Receive) -> Result<Lane, AllocError>
        ensures { IfOk result (λ s. (d : Receive) → contains receive_cmp s d ≡ is_eq (receive_cmp q d)) }
    {
        let mut steps = Vec::with_capacity(alloc, 1)?;
        steps.push(Step {
            receive: q,
            latest: q.ended,
        })?;
        Ok(Lane { steps })
    }

    /// Whether no receive stands in it.
    pub(crate) fn is_empty(&self) -> bool
        ensures none { IsTrue result → (d : Receive) → contains receive_cmp self.now d ≡ false }
        ensures some { result ≡ false → HasMember receive_cmp self.now }
    {
        self.steps.is_empty()
    }

    /// Puts a receive at its place, which is nearly always the end: then no other end is made anew.
    pub(crate) fn insert(&mut self, q: Receive) -> Result<(), AllocError>
        ensures ok { OnOk result (PutsMember receive_cmp q self.old self.new) }
        ensures err { OnErr result ((d : Receive) → contains receive_cmp self.new d ≡ contains receive_cmp self.old d) }
    {
        let place = called_before(&self.steps, q.name.call);
        self.steps.insert(
            place,
            Step {
                receive: q,
                latest: q.ended,
            },
        )?;
        renew(&mut self.steps, place);
        Ok(())
    }

    /// Takes a receive out, which nearly always is the last: then no other end changes.
    pub(crate) fn remove(&mut self, q: &Receive)
        ensures { TakesMember receive_cmp q.now self.old self.new }
    {
        if stands_last(&self.steps, q) {
            self.steps.pop();
        } else {
            take_out(&mut self.steps, q);
        }
    }

    /// The end of the last to end of the receives that are called no later than the limit, or of all where there is
    /// none.
    pub(crate) fn latest(&self, limit: Option<u64>) -> Option<Option<u64>>
        ensures { IsLatestOf (filter (is_within limit) self.now.keys) result }
    {
        let count = match limit {
            None => self.steps.len(),
            Some(call) => called_by(&self.steps, call),
        };
        end_of_front(&self.steps, count)
    }
}
