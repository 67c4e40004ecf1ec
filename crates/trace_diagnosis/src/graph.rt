//! Who needs whom: the held ranks, and the ranks and the rounds that they need.
//!
//! A graph has a node for each rank, and behind them one for all rounds: an edge leads from a held rank to each of its
//! needs. No edge leads out of a round, so that one node for all of them is enough to find who is held up by ranks
//! alone.

ghost use Rattle.std.specs.Prelude.{◌≡◌, ◌++◌, ◌≤◌, ◌+◌, ◌^◌, ℕ, IfOk, OnOk, length, map, vec_len};
ghost use Rattle.std.specs.List.{range_with_len};
ghost use Rattle.trace_stuck.specs.Graph.{edge};
ghost use Rattle.trace_stuck.specs.Shape.{shape};
ghost use Rattle.trace_diagnosis.specs.Askers.{shapes};
ghost use Rattle.trace_diagnosis.specs.Holding.{is_held};
ghost use Rattle.trace_diagnosis.specs.Graph.{HaveEdges, LeadOutOfHeld, has_not_ended, needs_at, needs_in, node_of};

use crate::holding::{Going, is_unmet, push_needs};
use diagnosis_value::Need;
use std::alloc::{AllocError, Global};
use trace_ops::State;
use trace_stuck::{Condition, turned};

/// The graph, with its edges also the other way round.
#[derive(Drop)]
pub(crate) struct Graph {
    /// For each rank what it needs.
    pub needs: Vec<Vec<Need>>,
    /// For each node those to which its edges go.
    pub edges: Vec<Vec<u32>>,
    /// For each node those from which edges come.
    pub askers: Vec<Vec<u32>>,
}

/// Whether a rank hasn't ended.
pub(crate) fn has_not_ended(state: &State) -> bool
    ensures { result ≡ has_not_ended state.now }
{
    match state {
        State::Ended => false,
        State::Free => true,
        State::Waiting => true,
    }
}

/// For each rank, whether it hasn't ended.
pub(crate) fn able_of(alloc: Global, states: &[State]) -> Result<Vec<bool>, AllocError>
    ensures { IfOk result (λ able. able.items ≡ map has_not_ended states.now) }
{
    let mut able = Vec::new(alloc);
    for state in states {
        able.push(has_not_ended(state))?;
    }
    Ok(able)
}

/// What a rank with this condition needs, where it is held.
fn needs_with(
    alloc: Global,
    able: &[bool],
    rank: u32,
    condition: &Condition,
) -> Result<Vec<Need>, AllocError>
    ensures { IfOk result (λ needs. needs.items ≡ needs_in able.now rank (shape condition.now)) }
{
    let mut needs = Vec::new(alloc);
    if is_unmet(condition) {
        let others = Going {
            able,
            but: Some(rank),
        };
        push_needs(&mut needs, &others, condition)?;
    }
    Ok(needs)
}

/// What a rank needs, where it is held.
fn needs_at(
    alloc: Global,
    able: &[bool],
    conditions: &[Option<Condition>],
    rank: u32,
) -> Result<Vec<Need>, AllocError>
    ensures { IfOk result (λ needs. needs.items ≡ needs_at able.now (shapes conditions.now) rank) }
{
    match conditions.get(rank as usize) {
        Some(Some(condition)) => needs_with(alloc, able, rank, condition),
        _ => Ok(Vec::new(alloc)),
    }
}

/// What each rank needs.
fn all_needs(
    alloc: Global,
    able: &[bool],
    conditions: &[Option<Condition>],
    ranks: u32,
) -> Result<Vec<Vec<Need>>, AllocError>
    ensures len { IfOk result (λ all. vec_len all ≡ ranks) }
    ensures needs { IfOk result (λ all. map (λ needs. needs.items) all.items ≡ map (needs_at able.now (shapes conditions.now)) (range_with_len 0 ranks)) }
{
    let mut all = Vec::new(alloc);
    for rank in 0..ranks {
        let needs = needs_at(alloc, able, conditions, rank)?;
        all.push(needs)?;
    }
    Ok(all)
}

/// The node of a need, where there are so many ranks.
fn node_of(ranks: u32, need: &Need) -> u32
    ensures { result ≡ node_of ranks need.now }
{
    match need {
        Need::Rank(rank) => *rank,
        Need::Round(_) => ranks,
    }
}

/// The nodes of needs.
fn nodes_of(alloc: Global, ranks: u32, needs: &[Need]) -> Result<Vec<u32>, AllocError>
    ensures { IfOk result (λ nodes. nodes.items ≡ map (node_of ranks) needs.now) }
{
    let mut nodes = Vec::new(alloc);
    for need in needs {
        nodes.push(node_of(ranks, need))?;
    }
    Ok(nodes)
}

/// The edges of these needs, and none from the rounds.
fn edges_of(alloc: Global, ranks: u32, all: &[Vec<Need>]) -> Result<Vec<Vec<u32>>, AllocError>
    ensures len { IfOk result (λ edges. vec_len edges ≡ length all.now + 1) }
    ensures edges { IfOk result (λ edges. HaveEdges ranks all.now edges.items) }
{
    let mut edges = Vec::new(alloc);
    for needs in all {
        edges.push(nodes_of(alloc, ranks, needs)?)?;
    }
    edges.push(Vec::new(alloc))?;
    Ok(edges)
}

/// The graph of what so many ranks need with these conditions.
pub(crate) fn graph_of(
    alloc: Global,
    able: &[bool],
    conditions: &[Option<Condition>],
    ranks: u32,
) -> Result<Graph, AllocError>
    requires { ranks ≤ 2 ^ 31 }
    ensures needs { IfOk result (λ g. map (λ needs. needs.items) g.needs.items ≡ map (needs_at able.now (shapes conditions.now)) (range_with_len 0 ranks)) }
    ensures len { IfOk result (λ g. vec_len g.edges ≡ ranks + 1) }
    ensures edges { IfOk result (λ g. HaveEdges ranks g.needs.items g.edges.items) }
    ensures held { IfOk result (λ g. LeadOutOfHeld g.edges.items (map is_held (shapes conditions.now))) }
    ensures same { IfOk result (λ g. vec_len g.askers ≡ vec_len g.edges) }
    ensures askers { IfOk result (λ g. (r s : ℕ) → edge g.askers.items s r ≡ edge g.edges.items r s) }
{
    let needs = all_needs(alloc, able, conditions, ranks)?;
    let edges = edges_of(alloc, ranks, &needs)?;
    let askers = turned(alloc, &edges)?;
    Ok(Graph {
        needs,
        edges,
        askers,
    })
}
