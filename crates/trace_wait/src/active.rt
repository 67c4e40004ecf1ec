//! The requests of a rank, looked up by number: the active ones, and the idle ones.

ghost use Rattle.std.specs.Prelude.{◌≡◌, ◌||◌, ℤ, IfOk, OnOk};
ghost use Rattle.std.specs.List.{list_any};
ghost use Rattle.std.specs.Ordering.{int_eq};
ghost use Rattle.indexmap.specs.IndexMap.{get};
ghost use Rattle.indexmap.specs.IndexSet.{contains};
ghost use Rattle.trace_wait.specs.Requests.{PutsAt, is_idle, posted_by, posted_in};

use indexmap::{IndexMap, IndexSet};
use mpi_model::OpName;
use std::alloc::{AllocError, Global};
use std::marker::Model;
use trace_ops::RankOps;

/// What a rank did, with the operation that each active request stands for by the request's number,
/// and the idle numbers.
#[derive(Drop)]
pub(crate) struct Posts<'a> {
    ops: &'a RankOps,
    named: IndexMap<i64, OpName>,
    idle: IndexSet<i64>,
}

impl<'a> Model for Posts<'a> {
    ghost use Rattle.std.specs.Prelude.{◌≡◌, ℤ};
    ghost use Rattle.std.specs.Ordering.{int_eq};
    ghost use Rattle.indexmap.specs.IndexMap.{get};
    ghost use Rattle.indexmap.specs.IndexSet.{contains};
    ghost use Rattle.trace_ops.specs.Ops.{Ops};
    ghost use Rattle.trace_wait.specs.Requests.{is_idle, posted_by};

    ghost Value = { Ops };

    ghost view = { λ s. s.ops.now };

    ghost invariant = { λ s.
        ((x : ℤ) → get int_eq s.named x ≡ posted_by s.ops.now x)
        × ((x : ℤ) → contains int_eq s.idle x ≡ is_idle s.ops.now x) };
}

/// Notes which operation an active request stands for.
fn note_post(named: &mut IndexMap<i64, OpName>, post: &(i64, OpName)) -> Result<(), AllocError>
    ensures { OnOk result (PutsAt post.now.0 post.now.1 (get int_eq named.old) (get int_eq named.new)) }
{
    named.insert(post.0, post.1)?;
    Ok(())
}

/// The operation by number. The requests are gone through from the last to the first, so that of a
/// number the first stays.
fn named_by(alloc: Global, active: &[(i64, OpName)]) -> Result<IndexMap<i64, OpName>, AllocError>
    ensures { IfOk result (λ named. (x : ℤ) → get int_eq named x ≡ posted_in active.now x) }
{
    let mut named = IndexMap::new(alloc);
    let mut at = active.len();
    while at > 0 {
        at -= 1;
        note_post(&mut named, &active[at])?;
    }
    Ok(named)
}

/// Notes a number.
fn note_number(numbers: &mut IndexSet<i64>, number: &i64) -> Result<(), AllocError>
    ensures { OnOk result ((x : ℤ) → contains int_eq numbers.new x ≡ (int_eq number.now x || contains int_eq numbers.old x)) }
{
    numbers.insert(*number)?;
    Ok(())
}

/// The numbers of this list.
fn set_of(alloc: Global, numbers: &[i64]) -> Result<IndexSet<i64>, AllocError>
    ensures { IfOk result (λ set. (x : ℤ) → contains int_eq set x ≡ list_any (λ y. int_eq y x) numbers.now) }
{
    let mut set = IndexSet::new(alloc);
    for number in numbers {
        note_number(&mut set, number)?;
    }
    Ok(set)
}

/// The operation that the active request of this number stands for.
fn name_in(named: &IndexMap<i64, OpName>, x: i64) -> Option<OpName>
    ensures { result ≡ get int_eq named.now x }
{
    named.get(&x).copied()
}

/// Whether the number is among these.
fn is_in(numbers: &IndexSet<i64>, x: i64) -> bool
    ensures { result ≡ contains int_eq numbers.now x }
{
    numbers.contains(&x)
}

/// The rank's requests, ready to be asked for by number.
pub(crate) fn posts_of<'a>(alloc: Global, ops: &'a RankOps) -> Result<Posts<'a>, AllocError>
    ensures { IfOk result (λ posts. posts ≡ ops.now) }
{
    let named = named_by(alloc, ops.active())?;
    let idle = set_of(alloc, ops.idle())?;
    Ok(Posts { ops, named, idle })
}

impl<'a> Posts<'a> {
    /// What the rank did.
    pub fn ops(&self) -> &'a RankOps
        ensures { result.now ≡ self.now }
    {
        self.ops
    }

    /// The operation that the active request of this number stands for.
    pub fn name_of(&self, x: i64) -> Option<OpName>
        ensures { result ≡ posted_by self.now x }
    {
        name_in(&self.named, x)
    }

    /// Whether a persistent request of this number is held, and isn't active.
    pub fn is_idle(&self, x: i64) -> bool
        ensures { result ≡ is_idle self.now x }
    {
        is_in(&self.idle, x)
    }
}
