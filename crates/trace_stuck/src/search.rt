//! From where the nodes of a graph are reached.

ghost use Rattle.std.specs.Prelude.{◌≡◌, ◌<◌, ◌≤◌, ◌+◌, ◌^◌, ℕ, Bool, true, None, IfOk, OnOk, length, vec_len};
ghost use Rattle.trace_stuck.specs.Named.{at_rank};
ghost use Rattle.trace_stuck.specs.Graph.{edge, is_up, IsFirst, label_at};
ghost use Rattle.trace_stuck.specs.Search.{GoesOn, GoesThrough, Labelled, bare, is_bare};

use std::alloc::{AllocError, Global};

/// The flag of a node: false if the list has none for it.
pub(crate) fn is_up(flags: &[bool], r: u32) -> bool
    ensures { result ≡ is_up flags.now r }
{
    flags.get(r as usize).copied().unwrap_or(false)
}

/// The label of a node; `None` if it has none, or the list ends before it.
pub(crate) fn label_at(labels: &[Option<u32>], r: u32) -> Option<u32>
    ensures { result ≡ label_at labels.now r }
{
    labels.get(r as usize).copied().unwrap_or(None)
}

/// The nodes to which the edges of this one go.
pub(crate) fn edges_at(edges: &[Vec<u32>], r: u32) -> &[u32]
    ensures { result.now ≡ at_rank edges.now r }
{
    match edges.get(r as usize) {
        Some(list) => list,
        None => &[],
    }
}

/// Whether the node is there, and has no label.
fn is_bare(labels: &[Option<u32>], r: u32) -> bool
    ensures { result ≡ is_bare labels.now r }
{
    matches!(labels.get(r as usize), Some(None))
}

/// Gives the node the label where it has none, and then puts it on the stack.
fn label(
    labels: &mut [Option<u32>],
    stack: &mut Vec<u32>,
    r: u32,
    first: u32,
) -> Result<(), AllocError>
    ensures { OnOk result (Labelled first r labels.old stack.old.items labels.new stack.new.items) }
{
    if is_bare(labels, r) {
        labels[r as usize] = Some(first);
        stack.push(r)?;
    }
    Ok(())
}

/// Gives the label to each node without one to which an edge of r goes.
fn label_next(
    edges: &[Vec<u32>],
    labels: &mut [Option<u32>],
    stack: &mut Vec<u32>,
    r: u32,
    first: u32,
) -> Result<(), AllocError>
    requires { length labels.old ≡ length edges.now }
    ensures fewer { OnOk result (bare labels.new + length stack.new.items ≤ bare labels.old + length stack.old.items) }
    ensures spreads { OnOk result (GoesThrough edges.now first r stack.old.items labels.old stack.new.items labels.new) }
{
    let nodes = edges_at(edges, r);
    for s in nodes {
        label(labels, stack, *s, first)?;
    }
    Ok(())
}

/// Labels the nodes without a label that are reached from this start.
fn spread(
    alloc: Global,
    edges: &[Vec<u32>],
    labels: &mut [Option<u32>],
    first: u32,
) -> Result<(), AllocError>
    requires within { length labels.old ≡ length edges.now }
    requires bare { is_bare labels.old first ≡ true }
    ensures { OnOk result ((starts : ℕ → Bool) → starts first ≡ true → GoesOn edges.now starts first labels.old labels.new) }
{
    let mut stack = Vec::new(alloc);
    label(labels, &mut stack, first, first)?;
    while let Some(r) = stack.pop() {
        label_next(edges, labels, &mut stack, r, first)?;
    }
    Ok(())
}

/// So many nodes without a label.
fn no_labels(alloc: Global, count: usize) -> Result<Vec<Option<u32>>, AllocError>
    ensures len { IfOk result (λ v. vec_len v ≡ count) }
    ensures none { IfOk result (λ v. (x : ℕ) → label_at v.items x ≡ None) }
{
    let mut labels = Vec::new(alloc);
    for _ in 0..count {
        labels.push(None)?;
    }
    Ok(labels)
}

/// Spreads the label of a node, where it is a start and has no label yet.
fn begin(
    alloc: Global,
    edges: &[Vec<u32>],
    starts: &[bool],
    labels: &mut [Option<u32>],
    first: u32,
) -> Result<(), AllocError>
    requires within { length labels.old ≡ length edges.now }
    requires there { first < length edges.now }
    ensures { OnOk result (GoesOn edges.now (is_up starts.now) first labels.old labels.new) }
{
    if is_up(starts, first) && is_bare(labels, first) {
        spread(alloc, edges, labels, first)
    } else {
        Ok(())
    }
}

/// For each node of a graph the least start from which it is reached along edges, where there is one. The graph lists
/// for each of its nodes, from 0 on, those to which its edges go. Fails with `AllocError` when memory is refused.
pub fn firsts(
    alloc: Global,
    edges: &[Vec<u32>],
    starts: &[bool],
) -> Result<Vec<Option<u32>>, AllocError>
    requires few { length edges.now ≤ 2 ^ 32 }
    requires within { length starts.now ≡ length edges.now }
    ensures len { IfOk result (λ v. vec_len v ≡ length edges.now) }
    ensures firsts { IfOk result (λ v. (x : ℕ) → IsFirst (edge edges.now) (is_up starts.now) x (label_at v.items x)) }
{
    let mut labels = no_labels(alloc, edges.len())?;
    for first in 0..edges.len() {
        begin(alloc, edges, starts, &mut labels, first as u32)?;
    }
    Ok(labels)
}
