//! The hearts of a graph: its strongly connected components that no edge leads out of.
//!
//! Three searches find them. The first tells for each node the least node that it reaches. If an edge leads to a node
//! with another least node, no node that reaches this edge is in a heart; the second search finds these strays. A node
//! that is its own least one and no stray is in a heart, which is all that it reaches: the third search. So each edge
//! is gone through four times, with one that turns them round.

ghost use Rattle.std.specs.Prelude.{◌≡◌, ◌<◌, ◌≤◌, ◌^◌, ◌↔◌, ℕ, true, false, IfOk, IsTrue, length, nat_lt, vec_len};
ghost use Rattle.trace_stuck.specs.Graph.{is_up, label_at};
ghost use Rattle.trace_stuck.specs.Hearts.{AreHearts, HaveHearts};
ghost use Rattle.trace_stuck.specs.Search.{LeakIs, RootIs};

use crate::backward::turned;
use crate::search::{edges_at, firsts, label_at};
use std::alloc::{AllocError, Global};

/// Whether the two labels are one.
fn is_same(first: Option<u32>, second: Option<u32>) -> bool
    ensures { IsTrue result ↔ (first ≡ second) }
{
    first == second
}

/// Whether the node to which an edge from r goes is there, and has another label.
fn does_edge_leak(edges: &[Vec<u32>], labels: &[Option<u32>], r: u32, s: u32) -> bool
    ensures leaks { result ≡ true → (s < length edges.now) × (label_at labels.now s ≡ label_at labels.now r → ⊥) }
    ensures stays { result ≡ false → s < length edges.now → label_at labels.now s ≡ label_at labels.now r }
{
    (s as usize) < edges.len() && !is_same(label_at(labels, s), label_at(labels, r))
}

/// Whether an edge leads from the node to one with another label.
fn does_leak(edges: &[Vec<u32>], labels: &[Option<u32>], r: u32) -> bool
    ensures { LeakIs edges.now labels.now r result }
{
    let nodes = edges_at(edges, r);
    for s in nodes {
        if does_edge_leak(edges, labels, r, *s) {
            return true;
        }
    }
    false
}

/// For each node, whether an edge leads from it to one with another label.
fn leaks_of(
    alloc: Global,
    edges: &[Vec<u32>],
    labels: &[Option<u32>],
) -> Result<Vec<bool>, AllocError>
    requires { length edges.now ≤ 2 ^ 32 }
    ensures len { IfOk result (λ v. vec_len v ≡ length edges.now) }
    ensures leaks { IfOk result (λ v. (x : ℕ) → LeakIs edges.now labels.now x (is_up v.items x)) }
{
    let mut leaks = Vec::new(alloc);
    for r in 0..edges.len() {
        leaks.push(does_leak(edges, labels, r as u32))?;
    }
    Ok(leaks)
}

/// Whether a node names a heart: it is its own least one, and none that leads out of it.
fn is_root(least: &[Option<u32>], strays: &[Option<u32>], r: u32) -> bool
    ensures { RootIs least.now strays.now r result }
{
    is_same(label_at(least, r), Some(r)) && label_at(strays, r).is_none()
}

/// For each node, whether it is its own least node and no stray.
fn roots_of(
    alloc: Global,
    least: &[Option<u32>],
    strays: &[Option<u32>],
) -> Result<Vec<bool>, AllocError>
    requires { length least.now ≤ 2 ^ 32 }
    ensures len { IfOk result (λ v. vec_len v ≡ length least.now) }
    ensures roots { IfOk result (λ v. (x : ℕ) → RootIs least.now strays.now x (is_up v.items x)) }
{
    let mut roots = Vec::new(alloc);
    for r in 0..least.len() {
        roots.push(is_root(least, strays, r as u32))?;
    }
    Ok(roots)
}

/// So many nodes, each of them a start.
fn everyone(alloc: Global, count: usize) -> Result<Vec<bool>, AllocError>
    ensures len { IfOk result (λ v. vec_len v ≡ count) }
    ensures up { IfOk result (λ v. (r : ℕ) → is_up v.items r ≡ nat_lt r count) }
{
    let mut starts = Vec::new(alloc);
    for _ in 0..count {
        starts.push(true)?;
    }
    Ok(starts)
}

/// The hearts of a graph, which lists for each of its nodes, from 0 on, those to which its edges go: of each node the
/// least node of its heart, where it is in one. A heart is a strongly connected component that no edge leads out of. An
/// edge to a node that doesn't exist is ignored. Fails with `AllocError` when memory is refused.
pub fn hearts(alloc: Global, edges: &[Vec<u32>]) -> Result<Vec<Option<u32>>, AllocError>
    requires { length edges.now ≤ 2 ^ 32 }
    ensures len { IfOk result (λ hearts. vec_len hearts ≡ length edges.now) }
    ensures hearts { IfOk result (λ hearts. AreHearts edges.now hearts.items) }
    ensures reached { IfOk result (λ _. HaveHearts edges.now) }
{
    let askers = turned(alloc, edges)?;
    let starts = everyone(alloc, edges.len())?;
    let least = firsts(alloc, &askers, &starts)?;
    let leaks = leaks_of(alloc, edges, &least)?;
    let strays = firsts(alloc, &askers, &leaks)?;
    let roots = roots_of(alloc, &least, &strays)?;
    firsts(alloc, edges, &roots)
}
