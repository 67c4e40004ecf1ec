//! Two nodes of one run.

ghost use Rattle.std.specs.Prelude.{◌≡◌, IfOk, IfErr};
ghost use Rattle.trace_know.specs.View.{join};
ghost use Rattle.trace_node.specs.Node.{IsWithin};
ghost use Rattle.trace_cluster.specs.Clustered.{KnowsOwn};
ghost use Rattle.trace_cluster.specs.Meeting.{HasLearned, IsMore};
ghost use Rattle.trace_cluster.specs.Pieces.{all_pieces};
ghost use Rattle.trace_cluster.specs.Stopped.{IsStopped};

use crate::crews::{crew_of, nodes_of};
use crate::fault::ClusterFault;
use crate::meeting::exchange;
use crate::peer::Participant;
use crate::workload::Workload;
use mpi_model::Layout;
use std::alloc::Global;
use std::net::{Net, TcpListener, TcpStream};
use std::sync::Wait;
use std::thread::Threads;
use trace_know::{Knowledge, join_laws, view_laws};
use trace_node::{Node, NodeFault};

/// Runs a crew for each of two nodes, tells each what it is told besides its pieces, and lets them
/// exchange what they know over a socket of this machine. It waits for the crews' threads, and on the
/// socket.
///
/// Both nodes have an answer then. Over a socket that passes on what is written they know the same: the join of all
/// pieces, and of what both are told besides. [`ClusterFault`] is the first cause in its order: then no node is left.
pub fn cluster<'a, R: Net<Listener = TcpListener, Stream = TcpStream> + Threads + Wait + Sync>(
    rt: &R,
    alloc: Global,
    layout: &'a Layout,
    first: &Workload,
    second: &Workload,
) -> Result<(Node<'a>, Node<'a>), ClusterFault>
    requires first { IsWithin layout.now first.now.known }
    requires second { IsWithin layout.now second.now.known }
    ensures ok { IfOk result (λ nodes. KnowsOwn layout.now first.now nodes.0 × KnowsOwn layout.now second.now nodes.1) }
    ensures err { IfErr result (λ fault. IsStopped layout.now (all_pieces first.now second.now) fault) }
{
    join_laws();
    view_laws();
    let one = crew_of(rt, alloc, layout, first)?;
    let other = crew_of(rt, alloc, layout, second)?;
    let nodes = nodes_of(one, other)?;
    let (leader, follower) = both_told(nodes, &first.known, &second.known)?;
    exchange(rt, alloc, leader, follower)
}

/// A node that was told this too.
fn told<N: Participant>(node: N, known: &Knowledge) -> Result<N, ClusterFault>
    requires { IsWithin (N.held node).layout known.now }
    ensures more { IfOk result (λ more. IsMore (N.held node) (N.held more)) }
    ensures learned { IfOk result (λ more. (N.held more).know ≡ join (N.held node).know known.now) }
    ensures err { IfErr result (λ fault. fault ≡ ClusterFault.Node NodeFault.Memory) }
{
    let mut node = node;
    match node.learn(known) {
        Ok(()) => Ok(node),
        Err(NodeFault::Rank) => unreachable!(),
        Err(NodeFault::Memory | NodeFault::Stale) => Err(ClusterFault::Node(NodeFault::Memory)),
    }
}

/// Both nodes, each of which was told this of its own too.
fn both_told<N: Participant>(
    nodes: (N, N),
    first: &Knowledge,
    second: &Knowledge,
) -> Result<(N, N), ClusterFault>
    requires one { IsWithin (N.held nodes.0).layout first.now }
    requires other { IsWithin (N.held nodes.1).layout second.now }
    ensures leader { IfOk result (λ told. HasLearned (N.held nodes.0) first.now (N.held told.0)) }
    ensures follower { IfOk result (λ told. HasLearned (N.held nodes.1) second.now (N.held told.1)) }
    ensures err { IfErr result (λ fault. fault ≡ ClusterFault.Node NodeFault.Memory) }
{
    let (one, other) = nodes;
    let one = told(one, first)?;
    let other = told(other, second)?;
    Ok((one, other))
}
