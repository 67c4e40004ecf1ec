//! Which messages come after which receives, asked of a table that is made once: no question goes through the
//! collective calls again.
//!
//! A sender has left the more, the later its message: so of its Barriers on a communicator the last one before the
//! message decides. That is one search in the sender's Barriers, for each communicator on which it entered any, and one
//! look at the call with which the receiver's rank entered that Barrier's round.

ghost use Rattle.std.specs.Prelude.{◌≡◌, ◌==◌, ◌<◌, ◌≤◌, ℕ, Some, List, IfOk, IfSome, IfNone, OnOk, OnErr, length, nat_lt, get_or, slice_get};
ghost use Rattle.std.specs.List.{list_any};
ghost use Rattle.std.specs.List.Sorted.{IsNonDecreasing};
ghost use Rattle.trace_ops.specs.Ops.{Ops, AreOwn, IsOwn, no_ops};
ghost use Rattle.trace_ops.specs.Order.{AreEntered};
ghost use Rattle.trace_pair.specs.After.{communications, is_after};
ghost use Rattle.trace_pair.specs.Barriers.{Rise, last_before, no_entries, with_barrier, with_entry};
ghost use Rattle.trace_pair.specs.Reach.{AddsCounted, AddsEntry, AreReachesOf, AreRowsOf, AreRowsRising, IsCommunicating, has_barrier, holds, is_entered_behind, is_passed_on, row_at, with_barriers, RenewsReach};

use crate::rules::is_own;
use mpi_model::Message;
use std::alloc::{AllocError, Global};
use std::collections::BTreeMap;
use std::marker::Model;
use trace_ops::{Entered, RankOps};

/// A Barrier that a rank entered: its call, and how many collective communications of the rank on its communicator
/// stand before it.
#[derive(Clone, Copy)]
pub(crate) struct Barrier {
    call: u64,
    before: usize,
}

/// The collective communications of a rank on one communicator, and the Barriers among them.
#[derive(Drop)]
pub(crate) struct CommCalls {
    calls: Vec<u64>,
    barriers: Vec<Barrier>,
}

impl Model for CommCalls {
    ghost use Rattle.trace_pair.specs.Barriers.{OnComm};

    ghost Value = { OnComm };

    ghost view = { λ s. record { calls = s.calls.items; barriers = s.barriers.items } };
}

/// The collective communications of a rank by communicator, with a row for each on which it entered some; the
/// communicators on which it entered Barriers; and those that hold it, in rising order.
#[derive(Drop)]
pub struct RankReach {
    rows: BTreeMap<u32, CommCalls>,
    barrier_comms: Vec<u32>,
    comms: Vec<u32>,
}

/// A Barrier more, if it is one.
fn add_barrier(
    barriers: &mut Vec<Barrier>,
    before: usize,
    entered: &Entered,
) -> Result<(), AllocError>
    ensures { OnOk result (barriers.new.items ≡ with_barrier barriers.old.items before entered.now) }
{
    if entered.is_barrier() {
        barriers.push(Barrier {
            call: entered.call,
            before,
        })?;
    }
    Ok(())
}

impl CommCalls {
    fn empty(alloc: Global) -> CommCalls
        ensures { result ≡ no_entries }
    {
        CommCalls {
            calls: Vec::new(alloc),
            barriers: Vec::new(alloc),
        }
    }

    /// A call more, behind the others.
    fn add(&mut self, entered: &Entered) -> Result<(), AllocError>
        ensures { OnOk result (self.new ≡ with_entry self.old entered.now) }
    {
        let before = self.calls.len();
        add_barrier(&mut self.barriers, before, entered)?;
        self.calls.push(entered.call)?;
        Ok(())
    }

    /// With one call alone.
    fn of_one(alloc: Global, entered: &Entered) -> Result<CommCalls, AllocError>
        ensures { IfOk result (λ row. row ≡ with_entry no_entries entered.now) }
    {
        let mut row = CommCalls::empty(alloc);
        row.add(entered)?;
        Ok(row)
    }

    /// Whether there are Barriers among the calls.
    fn has_barrier(&self) -> bool
        ensures { result ≡ has_barrier self.now }
    {
        !self.barriers.is_empty()
    }

    /// How many calls stand before the last of the Barriers before that call.
    fn last_before(&self, call: u64) -> Option<usize>
        requires { Rise self.now.barriers }
        ensures { result ≡ last_before call self.now.barriers }
    {
        let place = self.barriers.as_slice().partition_point(
            |b: &Barrier| -> bool
                ensures { result ≡ nat_lt b.now.call call }
            { b.call < call },
        );
        if place == 0 {
            None
        } else {
            Some(self.barriers[place - 1].before)
        }
    }

    /// Whether the call with so many before it isn't there, or isn't before call `ended`.
    fn is_entered_behind(&self, ended: u64, before: usize) -> bool
        ensures { result ≡ is_entered_behind self.now.calls ended before }
    {
        before >= self.calls.len() || ended <= self.calls[before]
    }
}

/// A call more, in the row of its communicator.
fn add_entry(
    alloc: Global,
    rows: &mut BTreeMap<u32, CommCalls>,
    entered: &Entered,
) -> Result<(), AllocError>
    ensures { OnOk result (AddsEntry rows.old rows.new entered.now) }
{
    if let Some(row) = rows.get_mut(&entered.comm) {
        return row.add(entered);
    }
    rows.insert(entered.comm, CommCalls::of_one(alloc, entered)?)?;
    Ok(())
}

/// A call more, in the row of its communicator, where it is a collective communication.
fn add_counted(
    alloc: Global,
    rows: &mut BTreeMap<u32, CommCalls>,
    entered: &Entered,
) -> Result<(), AllocError>
    ensures { OnOk result (AddsCounted rows.old rows.new entered.now) }
{
    if entered.is_communication() {
        add_entry(alloc, rows, entered)
    } else {
        Ok(())
    }
}

/// The collective communications of the rank, each in the row of its communicator.
fn rows_of(alloc: Global, rounds: &[Entered]) -> Result<BTreeMap<u32, CommCalls>, AllocError>
    ensures { IfOk result (AreRowsOf (communications rounds.now)) }
{
    let mut rows = BTreeMap::new(alloc);
    for entered in rounds {
        add_counted(alloc, &mut rows, entered)?;
    }
    Ok(rows)
}

/// Whether there are Barriers in the row.
fn has_barrier_on(rows: &BTreeMap<u32, CommCalls>, comm: u32) -> bool
    ensures { result ≡ has_barrier (row_at rows.now comm) }
{
    match rows.get(&comm) {
        Some(row) => row.has_barrier(),
        None => false,
    }
}

/// The communicators with Barriers.
fn with_barriers(
    alloc: Global,
    rows: &BTreeMap<u32, CommCalls>,
    comms: &[u32],
) -> Result<Vec<u32>, AllocError>
    ensures { IfOk result (λ found. found.items ≡ with_barriers rows.now comms.now) }
{
    let mut found = Vec::new(alloc);
    for comm in comms {
        if has_barrier_on(rows, *comm) {
            found.push(*comm)?;
        }
    }
    Ok(found)
}

/// The same communicators in rising order.
fn in_order(alloc: Global, comms: &[u32]) -> Result<Vec<u32>, AllocError>
    ensures same { IfOk result (λ v. (c : ℕ) → list_any (λ x. x == c) v.items ≡ list_any (λ x. x == c) comms.now) }
    ensures order { IfOk result (λ v. IsNonDecreasing v.items) }
{
    let mut ordered = Vec::from_slice(alloc, comms)?;
    if ordered.is_sorted() {
        return Ok(ordered);
    }
    ordered.sort()?;
    Ok(ordered)
}

impl RankReach {
    /// The part of the table that one rank's ops decide.
    #[tactic(auto, using(crate::proofs::Communicating::kept_rise))]
    pub(crate) fn of(alloc: Global, own: &RankOps) -> Result<RankReach, AllocError>
        requires { AreEntered own.now.rounds }
        ensures { IfOk result (IsCommunicating own.now) }
    {
        let rows = rows_of(alloc, own.rounds())?;
        let barrier_comms = with_barriers(alloc, &rows, own.comms())?;
        let comms = in_order(alloc, own.comms())?;
        Ok(RankReach {
            rows,
            barrier_comms,
            comms,
        })
    }

    /// Whether the communicator holds the rank, found by binary search.
    fn holds(&self, comm: u32) -> bool
        requires { IsNonDecreasing self.now.comms.items }
        ensures { result ≡ holds self.now comm }
    {
        self.comms.as_slice().binary_search(&comm).is_ok()
    }

    /// Whether its call on the communicator with so many before it isn't there, or isn't before call `ended`.
    fn is_entered_behind(&self, comm: u32, ended: u64, before: usize) -> bool
        ensures { result ≡ is_entered_behind (row_at self.now.rows comm).calls ended before }
    {
        match self.rows.get(&comm) {
            Some(row) => row.is_entered_behind(ended, before),
            None => true,
        }
    }

    /// How many calls on the communicator stand before the last of the Barriers before that call.
    fn last_before(&self, comm: u32, call: u64) -> Option<usize>
        requires { AreRowsRising self.now }
        ensures { result ≡ last_before call (row_at self.now.rows comm).barriers }
    {
        self.rows.get(&comm)?.last_before(call)
    }

    /// Whether the receiver's rank entered behind call `ended` the last Barrier on the communicator that this rank
    /// entered before the call.
    fn is_passed_on(&self, receiver: &RankReach, comm: u32, call: u64, ended: u64) -> bool
        requires rows { AreRowsRising self.now }
        requires comms { IsNonDecreasing receiver.now.comms.items }
        ensures { result ≡ is_passed_on self.now receiver.now call ended comm }
    {
        match self.last_before(comm, call) {
            Some(before) => {
                receiver.holds(comm) && receiver.is_entered_behind(comm, ended, before)
            },
            None => false,
        }
    }

    /// Whether it is so on some communicator.
    fn is_passed(&self, receiver: &RankReach, call: u64, ended: u64) -> bool
        requires rows { AreRowsRising self.now }
        requires comms { IsNonDecreasing receiver.now.comms.items }
        ensures { result ≡ list_any (is_passed_on self.now receiver.now call ended) self.now.barrier_comms.items }
    {
        for comm in &self.barrier_comms {
            if self.is_passed_on(receiver, *comm, call, ended) {
                return true;
            }
        }
        false
    }
}

/// The table of all ranks' ops, the part of rank r at place r. Its memory is linear in their collective calls and
/// communicators.
pub fn reaches_of(alloc: Global, ops: &[RankOps]) -> Result<Vec<RankReach>, AllocError>
    requires { AreOwn 0 ops.now }
    ensures { IfOk result (λ table. AreReachesOf ops.now table.items) }
{
    let mut table = Vec::new(alloc);
    for own in ops {
        table.push(RankReach::of(alloc, own)?)?;
    }
    Ok(table)
}

/// Lets the table follow the new ops of a rank. No other rank's part is made again.
pub(crate) fn renew(
    alloc: Global,
    table: &mut [RankReach],
    rank: u32,
    own: &RankOps,
) -> Result<(), AllocError>
    requires rank { rank < length table.old }
    requires own { IsOwn rank own.now }
    ensures ok { OnOk result (RenewsReach rank own.now table.old table.new) }
    ensures err { OnErr result (table.new ≡ table.old) }
{
    let reach = RankReach::of(alloc, own)?;
    table[rank as usize] = reach;
    Ok(())
}

/// The part of a rank.
fn reach_at(table: &[RankReach], rank: u32) -> Option<&RankReach>
    ensures some { IfSome result (λ reach. slice_get table.now rank ≡ Some reach.now) }
    ensures none { IfNone result (length table.now ≤ rank) }
{
    table.get(rank as usize)
}

/// What the ranks did, with their table: which messages come after which receives.
#[derive(Drop)]
pub struct Reaches<'a> {
    ops: &'a [RankOps],
    table: &'a [RankReach],
}

impl<'a> Model for Reaches<'a> {
    ghost use Rattle.std.specs.Prelude.{List};
    ghost use Rattle.trace_ops.specs.Ops.{Ops};
    ghost use Rattle.trace_pair.specs.Reach.{AreReachesOf};

    ghost Value = { List Ops };

    ghost view = { λ s. s.ops.now };

    ghost invariant = { λ s. AreReachesOf s.ops.now s.table.now };
}

impl<'a> Reaches<'a> {
    /// The table of these ops.
    pub fn new(ops: &'a [RankOps], table: &'a [RankReach]) -> Reaches<'a>
        requires { AreReachesOf ops.now table.now }
        ensures { result ≡ ops.now }
    {
        Reaches { ops, table }
    }

    /// The ops of the ranks, those of rank r at place r.
    pub(crate) fn ops(&self) -> &'a [RankOps]
        ensures { result.now ≡ self.now }
    {
        self.ops
    }

    /// Whether the message comes after a receive of the rank that this call completes: a search for each communicator
    /// on which the sender entered Barriers.
    pub(crate) fn is_after(&self, m: &Message, at: u32, ended: Option<u64>) -> bool
        ensures { result ≡ is_after (get_or self.now m.now.from no_ops) (get_or self.now at no_ops) m.now at ended }
    {
        let Some(ended) = ended else {
            return false;
        };
        if is_own(m, at, ended) {
            return true;
        }
        let Some(sender) = reach_at(self.table, m.from) else {
            return false;
        };
        let Some(receiver) = reach_at(self.table, at) else {
            return false;
        };
        sender.is_passed(receiver, m.name.call, ended)
    }
}
