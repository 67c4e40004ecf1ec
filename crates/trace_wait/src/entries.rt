//! The collective calls of each rank, by communicator: all are gone through once, and found by binary search.

ghost use Rattle.std.specs.Prelude.{◌≡◌, ◌==◌, ◌++◌, ◌∷◌, [], ℕ, IfOk, OnOk, count_by, nat_lt, slice_get};
ghost use Rattle.std.specs.List.{find};
ghost use Rattle.std.specs.List.Sorted.{IsNonDecreasingBy};
ghost use Rattle.trace_ops.specs.Ops.{AreOwn};
ghost use Rattle.trace_ops.specs.Order.{AreEntered};
ghost use Rattle.trace_wait.specs.Collectives.{round_number, round_of_call};
ghost use Rattle.trace_wait.specs.Ranks.{ops_of};
ghost use Rattle.trace_wait.specs.Rounds.{on_comm};
ghost use Rattle.trace_wait.specs.Entries.{listed, listed_at, IsRowOf};

use std::alloc::{AllocError, Global};
use std::collections::BTreeMap;
use std::marker::Model;
use trace_ops::{Entered, RankOps};
use trace_stuck::RoundName;

/// How many of these calls came before call n.
pub(crate) fn count_before(entries: &[Entered], n: u64) -> usize
    requires { IsNonDecreasingBy (λ e. e.call) entries.now }
    ensures { result ≡ count_by (λ e. nat_lt e.call n) entries.now }
{
    entries.partition_point(|e| e.call < n)
}

/// The call at a place.
fn entry_at(entries: &[Entered], at: usize) -> Option<Entered>
    ensures { result ≡ slice_get entries.now at }
{
    entries.get(at).copied()
}

/// Call n, where it is among these.
pub(crate) fn entered_at(entries: &[Entered], n: u64) -> Option<Entered>
    requires { AreEntered entries.now }
    ensures { result ≡ find (λ e. e.call == n) entries.now }
{
    match entry_at(entries, count_before(entries, n)) {
        Some(entered) => if entered.call == n {
            Some(entered)
        } else {
            None
        },
        None => None,
    }
}

/// The collective calls of one rank, by communicator, each in their order.
type Row = BTreeMap<u32, Vec<Entered>>;

/// What the ranks did, and each rank's collective calls by communicator.
#[derive(Drop)]
pub struct Entries<'a> {
    ops: &'a [RankOps],
    rows: Vec<Row>,
}

impl<'a> Model for Entries<'a> {
    ghost use Rattle.std.specs.Prelude.{List};
    ghost use Rattle.trace_ops.specs.Ops.{Ops};
    ghost use Rattle.trace_wait.specs.Entries.{AreRows};

    ghost Value = { List Ops };

    ghost view = { λ s. s.ops.now };

    ghost invariant = { λ s. AreRows s.rows.items s.ops.now };
}

/// One call more, behind those on its communicator.
fn note_entry(alloc: Global, row: &mut Row, e: &Entered) -> Result<(), AllocError>
    ensures { OnOk result ((c : ℕ) → listed row.new c ≡ listed row.old c ++ on_comm c (e.now ∷ [])) }
{
    if let Some(list) = row.get_mut(&e.comm) {
        list.push(*e)?;
        return Ok(());
    }
    let mut list = Vec::new(alloc);
    list.push(*e)?;
    row.insert(e.comm, list)?;
    Ok(())
}

/// The collective calls of a rank, by communicator.
fn row_of(alloc: Global, entries: &[Entered]) -> Result<Row, AllocError>
    ensures { IfOk result (λ row. IsRowOf row entries.now) }
{
    let mut row = Row::new(alloc);
    for e in entries {
        note_entry(alloc, &mut row, e)?;
    }
    Ok(row)
}

/// The collective calls of these ranks, ready to be asked for by communicator. Fails with `AllocError` when memory is
/// refused.
pub fn entries_of<'a>(alloc: Global, ops: &'a [RankOps]) -> Result<Entries<'a>, AllocError>
    ensures { IfOk result (λ s. s ≡ ops.now) }
{
    let mut rows = Vec::new(alloc);
    for o in ops {
        rows.push(row_of(alloc, o.rounds())?)?;
    }
    Ok(Entries { ops, rows })
}

/// The calls on a communicator, in their order.
fn listed(row: &Row, comm: u32) -> &[Entered]
    ensures { result.now ≡ listed row.now comm }
{
    match row.get(&comm) {
        Some(list) => list,
        None => &[],
    }
}

/// The calls of a rank on a communicator, in their order.
fn listed_at(rows: &[Row], r: u32, comm: u32) -> &[Entered]
    ensures { result.now ≡ listed_at rows.now r comm }
{
    match rows.get(r as usize) {
        Some(row) => listed(row, comm),
        None => &[],
    }
}

impl<'a> Entries<'a> {
    /// The calls of a rank on a communicator, in their order.
    pub fn on(&self, r: u32, comm: u32) -> &[Entered]
        ensures { result.now ≡ on_comm comm (ops_of self.now r).rounds }
    {
        listed_at(&self.rows, r, comm)
    }

    /// What the rank did.
    fn of_rank(&self, r: u32) -> &[Entered]
        ensures { result.now ≡ (ops_of self.now r).rounds }
    {
        match self.ops.get(r as usize) {
            Some(o) => o.rounds(),
            None => &[],
        }
    }

    /// The number of the round that a call of the rank entered: so many calls of it on the object came before.
    pub(crate) fn round_number(&self, r: u32, entered: &Entered) -> u64
        requires { AreEntered (ops_of self.now r).rounds }
        ensures { result ≡ round_number (ops_of self.now r) entered.now }
    {
        count_before(self.on(r, entered.comm), entered.call) as u64
    }

    /// The round that call n of the rank entered, blocking or not; `None` if it isn't collective, is foreign, or isn't
    /// known. It is found by binary search.
    pub fn round_of(&self, r: u32, n: u64) -> Option<RoundName>
        requires { AreOwn 0 self.now }
        ensures { result ≡ round_of_call (ops_of self.now r) n }
    {
        let entered = entered_at(self.of_rank(r), n)?;
        Some(RoundName {
            object: entered.comm,
            k: self.round_number(r, &entered),
        })
    }
}
