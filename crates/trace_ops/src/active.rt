//! Which requests are active, and which numbers are idle.

ghost use Rattle.std.specs.Prelude.{◌≡◌, ℤ, List, reverse, IfOk};
ghost use Rattle.std.specs.List.{filter_map};
ghost use Rattle.mpi_model.specs.declared.event.OpName.{OpName};
ghost use Rattle.std.specs.Ordering.{int_eq};
ghost use Rattle.indexmap.specs.IndexMap.{get};
ghost use Rattle.trace_ops.specs.Active.{KnowsActive, held_of, held_still, idle_of, rising, still_active, unless_active};
ghost use Rattle.trace_ops.specs.Calls.{Entry};
ghost use Rattle.trace_ops.specs.Fate.{OfFate};
ghost use Rattle.trace_ops.specs.Held.{Holds};

use crate::called::Calls;
use crate::completed::push_some;
use crate::fate::Fate;
use crate::held::{Held, holds_none, init_of};
use crate::touched::end_of;
use indexmap::IndexMap;
use mpi_model::OpName;
use std::alloc::{AllocError, Global};

/// The number of the request that was posted, with the name of what was posted, where no step behind it ends it.
pub(crate) fn still_active(name: OpName, fate: Option<Fate<'_>>) -> Option<(i64, OpName)>
    ensures { OfFate fate.entry (λ later posted. result ≡ still_active name later posted) }
{
    let fate = fate?;
    if end_of(fate.touch).is_some() {
        None
    } else {
        Some((fate.request, name))
    }
}

/// The number that call `n` gave, where it is an init that holds it at the end.
fn held_still(held: &Held<'_>, n: u64, given: Option<i64>) -> Option<i64>
    ensures { (all : List Entry) → Holds all (get int_eq held.now) → result ≡ held_still all n given }
{
    let request = given?;
    let init = init_of(held, request)?;
    if init.number == n {
        Some(request)
    } else {
        None
    }
}

/// The numbers that inits hold at the end, by the calls of the inits.
fn held_of(alloc: Global, held: &Held<'_>, calls: &Calls<'_>) -> Result<Vec<i64>, AllocError>
    ensures { IfOk result (λ found. (all : List Entry) → Holds all (get int_eq held.now)
        → found.items ≡ held_of all 0 calls.now) }
{
    let mut numbers = Vec::new(alloc);
    for n in 0..calls.len() {
        push_some(
            &mut numbers,
            held_still(held, n as u64, calls.at(n).given()),
        )?;
    }
    Ok(numbers)
}

/// The numbers of the active requests.
fn numbers_of(alloc: Global, active: &[(i64, OpName)]) -> Result<IndexMap<i64, ()>, AllocError>
    ensures { IfOk result (λ numbers. KnowsActive active.now (get int_eq numbers)) }
{
    let mut numbers = IndexMap::new(alloc);
    for request in active {
        numbers.insert(request.0, ())?;
    }
    Ok(numbers)
}

/// The number, unless it is one of the active requests'.
fn unless_active(numbers: &IndexMap<i64, ()>, x: i64) -> Option<i64>
    ensures { (active : List (ℤ × OpName)) → KnowsActive active (get int_eq numbers.now) → result ≡ unless_active active x }
{
    match numbers.get(&x) {
        Some(_) => None,
        None => Some(x),
    }
}

/// The numbers that are not active.
fn not_active(
    alloc: Global,
    active: &[(i64, OpName)],
    numbers: &[i64],
) -> Result<Vec<i64>, AllocError>
    ensures { IfOk result (λ idle. idle.items ≡ filter_map (unless_active active.now) numbers.now) }
{
    let known = numbers_of(alloc, active)?;
    let mut idle = Vec::new(alloc);
    for number in numbers {
        push_some(&mut idle, unless_active(&known, *number))?;
    }
    Ok(idle)
}

/// The numbers, rising.
fn rising(numbers: Vec<i64>) -> Result<Vec<i64>, AllocError>
    ensures { IfOk result (λ sorted. sorted.items ≡ rising numbers.items) }
{
    let mut sorted = numbers;
    sorted.sort()?;
    Ok(sorted)
}

/// The numbers that an init holds at the end and that are not active, rising.
pub(crate) fn idle_of(
    alloc: Global,
    held: &Held<'_>,
    active: &[(i64, OpName)],
    calls: &Calls<'_>,
) -> Result<Vec<i64>, AllocError>
    requires { Holds (reverse calls.now) (get int_eq held.now) }
    ensures { IfOk result (λ idle. idle.items ≡ idle_of active.now calls.now) }
{
    if holds_none(held) {
        return Ok(Vec::new(alloc));
    }
    let numbers = held_of(alloc, held, calls)?;
    rising(not_active(alloc, active, &numbers)?)
}
