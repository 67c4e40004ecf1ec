//! What requests wait for, by the operations that they stand for.

ghost use Rattle.std.specs.Prelude.{◌≡◌, ◌∷◌, [], Some, map, IfOk, OnOk};
ghost use Rattle.std.specs.Option.{option_copied};
ghost use Rattle.std.specs.Ordering.{int_eq};
ghost use Rattle.indexmap.specs.IndexMap.{get};
ghost use Rattle.trace_ops.specs.Order.{AreCalledInOrder, AreInOrder, ArePosted};
ghost use Rattle.trace_stuck.specs.Shape.{shape, waits_of, OnAll};
ghost use Rattle.trace_wait.specs.Ranks.{IsOfRank};
ghost use Rattle.trace_wait.specs.Requests.{AddsShapes, AreMade, PutsAt, choices, post_part, posted_by, request, requests, some_of, started_part};

use crate::active::{Posts, posts_of};
use crate::collective::collective_of_call;
use crate::overview::Overview;
use crate::parts::{receive_part, send_part};
use crate::posts::{has_cancel, receive_of, send_of};
use indexmap::IndexMap;
use mpi_model::{NULL_REQUEST, OpName};
use std::alloc::{AllocError, Global};
use trace_ops::RankOps;
use trace_stuck::Condition;

/// What it waits for that an operation of rank r.
fn started_part(
    alloc: Global,
    run: &Overview,
    r: u32,
    o: &RankOps,
    name: OpName,
) -> Result<Condition, AllocError>
    requires rank { IsOfRank run.now.ops r o.now }
    requires sends { AreInOrder o.now.sends }
    requires receives { ArePosted o.now.receives }
    ensures { IfOk result (λ c. shape c ≡ started_part run.now r o.now name) }
{
    match send_of(o, name) {
        Some(m) => Ok(send_part(run, &m)),
        None => match receive_of(o, name) {
            Some(q) => receive_part(alloc, run, &q),
            None => collective_of_call(alloc, run, r, o, name.call),
        },
    }
}

/// What the request of an operation of rank r waits for.
fn post_part(
    alloc: Global,
    run: &Overview,
    r: u32,
    o: &RankOps,
    name: OpName,
) -> Result<Condition, AllocError>
    requires rank { IsOfRank run.now.ops r o.now }
    requires sends { AreInOrder o.now.sends }
    requires receives { ArePosted o.now.receives }
    requires cancelled { AreCalledInOrder o.now.cancelled }
    ensures { IfOk result (λ c. shape c ≡ post_part run.now r o.now name) }
{
    if has_cancel(o, name) {
        return Ok(Condition::yes());
    }
    started_part(alloc, run, r, o, name)
}

/// The operation that the active request of this number stands for.
fn posted_by(o: &RankOps, x: &i64) -> Option<OpName>
    ensures { result ≡ posted_by o.now x.now }
{
    Some(o.active().iter().find(|a| a.0 == *x)?.1)
}

/// What requests wait for that were met before, by their numbers.
type Made = IndexMap<i64, Condition>;

/// What the request of a number waits for, where it was met before.
fn made_before(made: &Made, x: i64) -> Option<&Condition>
    ensures { option_copied result ≡ get int_eq made.now x }
{
    made.get(&x)
}

/// Notes what the request of a number waits for.
fn note_made(made: &mut Made, x: i64, part: Condition) -> Result<(), AllocError>
    ensures { OnOk result (PutsAt x part (get int_eq made.old) (get int_eq made.new)) }
{
    made.insert(x, part)?;
    Ok(())
}

/// What the active request of a number waits for, which stands for this operation of rank r. It is
/// made once: a list of ranks in it is shared by all that ask for it.
#[tactic(auto, using(crate::proofs::Made::made_more))]
fn part_of(
    alloc: Global,
    run: &Overview,
    r: u32,
    o: &RankOps,
    x: i64,
    name: OpName,
    made: &mut Made,
) -> Result<Condition, AllocError>
    requires posted { posted_by o.now x ≡ Some name }
    requires rank { IsOfRank run.now.ops r o.now }
    requires sends { AreInOrder o.now.sends }
    requires receives { ArePosted o.now.receives }
    requires cancelled { AreCalledInOrder o.now.cancelled }
    requires made { AreMade run.now r o.now (get int_eq made.old) }
    ensures part { IfOk result (λ c. shape c ≡ post_part run.now r o.now name) }
    ensures made { OnOk result (AreMade run.now r o.now (get int_eq made.new)) }
{
    if let Some(part) = made_before(made, x) {
        return part.try_clone(alloc);
    }
    let part = post_part(alloc, run, r, o, name)?;
    note_made(made, x, part.try_clone(alloc)?)?;
    Ok(part)
}

/// What the active requests of the list wait for, by what rank r posted.
fn requests_of(
    alloc: Global,
    run: &Overview,
    r: u32,
    posts: &Posts,
    xs: &[i64],
) -> Result<Vec<Condition>, AllocError>
    requires rank { IsOfRank run.now.ops r posts.now }
    requires sends { AreInOrder posts.now.sends }
    requires receives { ArePosted posts.now.receives }
    requires cancelled { AreCalledInOrder posts.now.cancelled }
    ensures { IfOk result (λ parts. map shape parts.items ≡ requests run.now r posts.now xs.now) }
{
    let mut made = Made::new(alloc);
    let mut parts = Vec::new(alloc);
    for x in xs {
        push_request(alloc, run, r, posts, x, &mut made, &mut parts)?;
    }
    Ok(parts)
}

/// What the active requests of the list wait for.
pub(crate) fn requests(
    alloc: Global,
    run: &Overview,
    r: u32,
    o: &RankOps,
    xs: &[i64],
) -> Result<Vec<Condition>, AllocError>
    requires rank { IsOfRank run.now.ops r o.now }
    requires sends { AreInOrder o.now.sends }
    requires receives { ArePosted o.now.receives }
    requires cancelled { AreCalledInOrder o.now.cancelled }
    ensures { IfOk result (λ parts. map shape parts.items ≡ requests run.now r o.now xs.now) }
{
    let posts = posts_of(alloc, o)?;
    requests_of(alloc, run, r, &posts, xs)
}

/// Adds what the request of this number waits for, where it is active.
fn push_request(
    alloc: Global,
    run: &Overview,
    r: u32,
    posts: &Posts,
    x: &i64,
    made: &mut Made,
    parts: &mut Vec<Condition>,
) -> Result<(), AllocError>
    requires rank { IsOfRank run.now.ops r posts.now }
    requires sends { AreInOrder posts.now.sends }
    requires receives { ArePosted posts.now.receives }
    requires cancelled { AreCalledInOrder posts.now.cancelled }
    requires made { AreMade run.now r posts.now (get int_eq made.old) }
    ensures made { OnOk result (AreMade run.now r posts.now (get int_eq made.new)) }
    ensures parts { OnOk result (AddsShapes parts.old.items parts.new.items (requests run.now r posts.now (x.now ∷ []))) }
{
    if let Some(name) = posts.name_of(*x) {
        parts.push(part_of(alloc, run, r, posts.ops(), *x, name, made)?)?;
    }
    Ok(())
}

/// What each number of a list adds of which one request has to be completed, by what rank r posted.
fn choices_of(
    alloc: Global,
    run: &Overview,
    r: u32,
    posts: &Posts,
    xs: &[i64],
) -> Result<Vec<Condition>, AllocError>
    requires rank { IsOfRank run.now.ops r posts.now }
    requires sends { AreInOrder posts.now.sends }
    requires receives { ArePosted posts.now.receives }
    requires cancelled { AreCalledInOrder posts.now.cancelled }
    ensures { IfOk result (λ parts. map shape parts.items ≡ choices run.now r posts.now xs.now) }
{
    let mut made = Made::new(alloc);
    let mut parts = Vec::new(alloc);
    for x in xs {
        push_choice(alloc, run, r, posts, x, &mut made, &mut parts)?;
    }
    Ok(parts)
}

/// What each number of a list adds of which one request has to be completed.
pub(crate) fn choices(
    alloc: Global,
    run: &Overview,
    r: u32,
    o: &RankOps,
    xs: &[i64],
) -> Result<Vec<Condition>, AllocError>
    requires rank { IsOfRank run.now.ops r o.now }
    requires sends { AreInOrder o.now.sends }
    requires receives { ArePosted o.now.receives }
    requires cancelled { AreCalledInOrder o.now.cancelled }
    ensures { IfOk result (λ parts. map shape parts.items ≡ choices run.now r o.now xs.now) }
{
    let posts = posts_of(alloc, o)?;
    choices_of(alloc, run, r, &posts, xs)
}

/// Adds what a number of a list adds of which one request has to be completed.
fn push_choice(
    alloc: Global,
    run: &Overview,
    r: u32,
    posts: &Posts,
    x: &i64,
    made: &mut Made,
    parts: &mut Vec<Condition>,
) -> Result<(), AllocError>
    requires rank { IsOfRank run.now.ops r posts.now }
    requires sends { AreInOrder posts.now.sends }
    requires receives { ArePosted posts.now.receives }
    requires cancelled { AreCalledInOrder posts.now.cancelled }
    requires made { AreMade run.now r posts.now (get int_eq made.old) }
    ensures made { OnOk result (AreMade run.now r posts.now (get int_eq made.new)) }
    ensures parts { OnOk result (AddsShapes parts.old.items parts.new.items (choices run.now r posts.now (x.now ∷ []))) }
{
    if *x == NULL_REQUEST || posts.is_idle(*x) {
        return Ok(());
    }
    let part = match posts.name_of(*x) {
        Some(name) => part_of(alloc, run, r, posts.ops(), *x, name, made)?,
        None => Condition::yes(),
    };
    parts.push(part)?;
    Ok(())
}

/// One of these conditions; nothing if there are none.
pub(crate) fn some_of(parts: Vec<Condition>) -> Condition
    ensures { shape result ≡ some_of (map shape parts.items) }
{
    if parts.is_empty() {
        Condition::yes()
    } else {
        Condition::one(parts)
    }
}

/// What the request of this number waits for; nothing if it isn't active (MPI 4.0, 3.7.3).
pub(crate) fn request(
    alloc: Global,
    run: &Overview,
    r: u32,
    o: &RankOps,
    x: &i64,
) -> Result<Condition, AllocError>
    requires rank { IsOfRank run.now.ops r o.now }
    requires sends { AreInOrder o.now.sends }
    requires receives { ArePosted o.now.receives }
    requires cancelled { AreCalledInOrder o.now.cancelled }
    ensures { IfOk result (λ c. shape c ≡ request run.now r o.now x.now) }
{
    match posted_by(o, x) {
        Some(name) => post_part(alloc, run, r, o, name),
        None => Ok(Condition::yes()),
    }
}

/// What a call waits for that completes all requests of a list (MPI 4.0, 3.7.5).
pub(crate) fn all_of_list(
    alloc: Global,
    run: &Overview,
    r: u32,
    o: &RankOps,
    xs: &[i64],
) -> Result<Condition, AllocError>
    requires rank { IsOfRank run.now.ops r o.now }
    requires sends { AreInOrder o.now.sends }
    requires receives { ArePosted o.now.receives }
    requires cancelled { AreCalledInOrder o.now.cancelled }
    ensures { IfOk result (λ c. shape c ≡ OnAll (waits_of (requests run.now r o.now xs.now))) }
{
    Ok(Condition::all(requests(alloc, run, r, o, xs)?))
}

/// What a call waits for that completes one request of a list, whichever that is (MPI 4.0, 3.7.5).
pub(crate) fn some_of_list(
    alloc: Global,
    run: &Overview,
    r: u32,
    o: &RankOps,
    xs: &[i64],
) -> Result<Condition, AllocError>
    requires rank { IsOfRank run.now.ops r o.now }
    requires sends { AreInOrder o.now.sends }
    requires receives { ArePosted o.now.receives }
    requires cancelled { AreCalledInOrder o.now.cancelled }
    ensures { IfOk result (λ c. shape c ≡ some_of (choices run.now r o.now xs.now)) }
{
    Ok(some_of(choices(alloc, run, r, o, xs)?))
}
