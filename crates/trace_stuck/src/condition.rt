//! Conditions: what a waiting rank needs before it can go on.

ghost use Rattle.std.specs.Prelude.{◌≡◌, ◌↔◌, IfOk, IsTrue, map};
ghost use Rattle.trace_stuck.specs.Shape.{shape, waits_of, OnNothing, OnRank, OnAll, OnOne, OnMismatched};

use std::alloc::{AllocError, Global};
use std::sync::Arc;

/// A round of an object, which is a communicator, a window or a file: the k-th collective call on it of each of its
/// members, from 0 (MPI 4.0, 6.1).
#[derive(Clone, Copy, PartialEq, Eq)]
pub struct RoundName {
    /// The object's id in the layout.
    pub object: u32,
    /// The number of the round, from 0.
    pub k: u64,
}

/// What a waiting rank needs before it can go on. Ranks are trace ranks.
///
/// In a contract two conditions are compared by their `shape`, the plain tree of their parts.
#[derive(Drop)]
pub enum Condition {
    /// It needs nothing: it can go on.
    Yes,
    /// It needs this rank to go on.
    Rank(u32),
    /// All of these conditions have to hold. If the list is empty, it holds.
    All(Vec<Condition>),
    /// One of these conditions has to hold. If the list is empty, it doesn't hold.
    One(Vec<Condition>),
    /// One of these ranks has to go on: the same as `One` of `Rank`s, which it has as its shape. Many conditions may
    /// share the list.
    OneRank(Arc<Vec<u32>>),
    /// All of these ranks have to go on: the same as `All` of `Rank`s, which it has as its shape. Many conditions may
    /// share the list.
    AllRanks(Arc<Vec<u32>>),
    /// The round of its call is mismatched, which MPI forbids, so nothing certain can be said and it counts as able to
    /// go on. The round named is the first of the consecutive mismatched rounds of that object that end with the call's
    /// round.
    Mismatched(RoundName),
}

impl Condition {
    /// The condition of a rank that has nothing to wait for.
    pub fn yes() -> Condition
        ensures { shape result ≡ OnNothing }
    {
        Condition::Yes
    }

    /// Waits for one rank.
    #[tactic(auto, using(crate::proofs::Shapes::shapes))]
    pub fn rank(r: u32) -> Condition
        ensures { shape result ≡ OnRank r }
    {
        Condition::Rank(r)
    }

    /// Waits for all of these.
    #[tactic(auto, using(crate::proofs::Shapes::shapes))]
    pub fn all(parts: Vec<Condition>) -> Condition
        ensures { shape result ≡ OnAll (waits_of (map shape parts.items)) }
    {
        Condition::All(parts)
    }

    /// Waits for one of these.
    #[tactic(auto, using(crate::proofs::Shapes::shapes))]
    pub fn one(parts: Vec<Condition>) -> Condition
        ensures { shape result ≡ OnOne (waits_of (map shape parts.items)) }
    {
        Condition::One(parts)
    }

    /// Waits for one of these ranks. Their list is shared: the part itself only points to it.
    #[tactic(auto, using(crate::proofs::Shapes::shapes))]
    pub fn one_rank(list: Arc<Vec<u32>>) -> Condition
        ensures { shape result ≡ OnOne (waits_of (map OnRank list.value.items)) }
    {
        Condition::OneRank(list)
    }

    /// Waits for all of these ranks. Their list is shared: the part itself only points to it.
    #[tactic(auto, using(crate::proofs::Shapes::shapes))]
    pub fn all_ranks(list: Arc<Vec<u32>>) -> Condition
        ensures { shape result ≡ OnAll (waits_of (map OnRank list.value.items)) }
    {
        Condition::AllRanks(list)
    }

    /// Waits in a mismatched round: it can go on.
    #[tactic(auto, using(crate::proofs::Shapes::shapes))]
    pub fn mismatched(first: RoundName) -> Condition
        ensures { shape result ≡ OnMismatched first }
    {
        Condition::Mismatched(first)
    }

    /// A copy, with equal parts. Lists of ranks are shared with it. Fails with `AllocError` when memory is refused.
    pub fn try_clone(&self, alloc: Global) -> Result<Condition, AllocError>
        ensures { IfOk result (λ c. shape c ≡ shape self.now) }
    {
        copy_of(alloc, self)
    }

    /// Whether the two are equal, part by part.
    pub fn same(&self, other: &Condition) -> bool
        ensures { IsTrue result ↔ (shape self.now ≡ shape other.now) }
    {
        is_same(self, other)
    }
}

/// A copy, with equal parts. Lists of ranks are shared with it.
#[cycle(copy)]
fn copy_of(alloc: Global, condition: &Condition) -> Result<Condition, AllocError>
    ensures { IfOk result (λ c. shape c ≡ shape condition.now) }
{
    match condition {
        Condition::Yes => Ok(Condition::yes()),
        Condition::Rank(r) => Ok(Condition::rank(*r)),
        Condition::All(parts) => Ok(Condition::all(copies_of(alloc, parts)?)),
        Condition::One(parts) => Ok(Condition::one(copies_of(alloc, parts)?)),
        Condition::OneRank(ranks) => Ok(Condition::one_rank(Arc::try_clone(ranks)?)),
        Condition::AllRanks(ranks) => Ok(Condition::all_ranks(Arc::try_clone(ranks)?)),
        Condition::Mismatched(first) => Ok(Condition::mismatched(*first)),
    }
}

/// Copies of the parts, in their order.
#[cycle(copy)]
fn copies_of(alloc: Global, parts: &[Condition]) -> Result<Vec<Condition>, AllocError>
    ensures { IfOk result (λ v. map shape v.items ≡ map shape parts.now) }
{
    let mut copies = Vec::new(alloc);
    for c in parts {
        copies.push(copy_of(alloc, c)?)?;
    }
    Ok(copies)
}

/// Whether the two lists are equal.
fn are_same_ranks(first: &[u32], second: &[u32]) -> bool
    ensures { IsTrue result ↔ (first.now ≡ second.now) }
{
    first == second
}

/// Whether the two are one round.
fn is_same_round(first: RoundName, second: RoundName) -> bool
    ensures { IsTrue result ↔ (first ≡ second) }
{
    first == second
}

/// Whether the condition is to wait for this rank.
fn is_rank(condition: &Condition, r: u32) -> bool
    ensures { IsTrue result ↔ (shape condition.now ≡ OnRank r) }
{
    match condition {
        Condition::Rank(s) => *s == r,
        _ => false,
    }
}

/// Whether the parts are just these ranks.
fn are_ranks(parts: &[Condition], ranks: &[u32]) -> bool
    ensures { IsTrue result ↔ (map shape parts.now ≡ map OnRank ranks.now) }
{
    if parts.len() != ranks.len() {
        return false;
    }
    for i in 0..parts.len() {
        if !is_rank(&parts[i], ranks[i]) {
            return false;
        }
    }
    true
}

/// Whether the two conditions say the same.
#[cycle(same)]
fn is_same(first: &Condition, second: &Condition) -> bool
    ensures { IsTrue result ↔ (shape first.now ≡ shape second.now) }
{
    match (first, second) {
        (Condition::Yes, Condition::Yes) => true,
        (Condition::Rank(r), Condition::Rank(s)) => *r == *s,
        (Condition::All(parts), Condition::All(others)) => are_same(parts, others),
        (Condition::One(parts), Condition::One(others)) => are_same(parts, others),
        (Condition::One(parts), Condition::OneRank(ranks)) => are_ranks(parts, ranks),
        (Condition::OneRank(ranks), Condition::One(parts)) => are_ranks(parts, ranks),
        (Condition::OneRank(ranks), Condition::OneRank(others)) => are_same_ranks(ranks, others),
        (Condition::All(parts), Condition::AllRanks(ranks)) => are_ranks(parts, ranks),
        (Condition::AllRanks(ranks), Condition::All(parts)) => are_ranks(parts, ranks),
        (Condition::AllRanks(ranks), Condition::AllRanks(others)) => are_same_ranks(ranks, others),
        (Condition::Mismatched(round), Condition::Mismatched(other)) => is_same_round(
            *round, *other,
        ),
        _ => false,
    }
}

/// Whether the parts say the same, one by one.
#[cycle(same)]
fn are_same(first: &[Condition], second: &[Condition]) -> bool
    ensures { IsTrue result ↔ (map shape first.now ≡ map shape second.now) }
{
    if first.len() != second.len() {
        return false;
    }
    for i in 0..first.len() {
        if !is_same(&first[i], &second[i]) {
            return false;
        }
    }
    true
}
