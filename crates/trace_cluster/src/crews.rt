//! What both crews leave, and the first fault or refused segment among it.

ghost use Rattle.std.specs.Prelude.{◌≡◌, [], Err, IfOk, IfErr, IsOk, OnOk};
ghost use Rattle.trace_crew.specs.Crewed.{IsCrewOut};
ghost use Rattle.trace_cluster.specs.Crews.{AreClean, IsClean, IsFirstPiece, IsFirstRefusal, Stops, StopsAt};

use crate::fault::ClusterFault;
use crate::side::Side;
use crate::workload::Workload;
use mpi_model::Layout;
use std::alloc::Global;
use std::sync::Wait;
use std::thread::Threads;
use trace_crew::{Board, CrewFault, CrewOut, FaultyPiece, OpenGate, Refusal, crew};
use trace_node::Node;

/// Runs the crew of a node, on a board of its own.
pub(crate) fn crew_of<'a, R: Threads + Wait + Sync>(
    rt: &R,
    alloc: Global,
    layout: &'a Layout,
    load: &Workload,
) -> Result<CrewOut<'a>, CrewFault>
    ensures { IfOk result (λ out. IsCrewOut layout.now load.now.first.items load.now.second.items out) }
{
    let board = Board::new(alloc, layout)?;
    crew(
        rt,
        alloc,
        layout,
        load.first.as_slice(),
        load.second.as_slice(),
        &board,
        &OpenGate,
    )
}

/// That a node's pieces have no fault, or the first fault of them.
fn without_faults(node: Side, faults: Vec<FaultyPiece>) -> Result<(), ClusterFault>
    ensures ok { OnOk result (faults.items ≡ []) }
    ensures err { IfErr result (λ fault. IsFirstPiece node faults.items fault) }
{
    match faults.into_iter().next() {
        Some(FaultyPiece { at, fault }) => Err(ClusterFault::Piece { node, at, fault }),
        None => Ok(()),
    }
}

/// That a node refused no segment, or why it refused the first.
fn without_refusals(refused: &Vec<Refusal>) -> Result<(), ClusterFault>
    ensures ok { OnOk result (refused.now.items ≡ []) }
    ensures err { IfErr result (λ fault. IsFirstRefusal refused.now.items fault) }
{
    match refused.first() {
        Some(refusal) => Err(ClusterFault::Node(refusal.fault)),
        None => Ok(()),
    }
}

/// That nothing of what two crews leave beside their nodes stops a cluster, or what does first.
#[tactic(auto, using(crate::proofs::Stopping::stops_first, crate::proofs::Stopping::stops_second, crate::proofs::Stopping::stops_refused, crate::proofs::Stopping::stops_refused_later))]
fn none_stops(
    faults: Vec<FaultyPiece>,
    others: Vec<FaultyPiece>,
    refused: &Vec<Refusal>,
    refused_later: &Vec<Refusal>,
) -> Result<(), ClusterFault>
    ensures clean { OnOk result (IsClean faults.items others.items refused.now.items refused_later.now.items) }
    ensures err { IfErr result (λ fault. Stops faults.items others.items refused.now.items refused_later.now.items fault) }
{
    without_faults(Side::First, faults)?;
    without_faults(Side::Second, others)?;
    without_refusals(refused)?;
    without_refusals(refused_later)
}

/// Both of a kind, where nothing stops them.
fn both_unless<N: Drop>(
    one: N,
    other: N,
    stopped: Result<(), ClusterFault>,
) -> Result<(N, N), ClusterFault>
    ensures ok { IfOk result (λ nodes. (nodes.0 ≡ one) × (nodes.1 ≡ other) × IsOk stopped) }
    ensures err { IfErr result (λ fault. stopped ≡ Err fault) }
{
    match stopped {
        Ok(()) => Ok((one, other)),
        Err(fault) => Err(fault),
    }
}

/// Both nodes, if no piece of either has a fault and neither refused a segment; else the first cause.
pub(crate) fn nodes_of<'a>(
    one: CrewOut<'a>,
    other: CrewOut<'a>,
) -> Result<(Node<'a>, Node<'a>), ClusterFault>
    ensures nodes { IfOk result (λ nodes. (nodes.0 ≡ one.entry.node) × (nodes.1 ≡ other.entry.node)) }
    ensures clean { OnOk result (AreClean one.entry other.entry) }
    ensures err { IfErr result (λ fault. StopsAt one.entry other.entry fault) }
{
    let stopped = none_stops(one.faults, other.faults, &one.refused, &other.refused);
    both_unless(one.node, other.node, stopped)
}
