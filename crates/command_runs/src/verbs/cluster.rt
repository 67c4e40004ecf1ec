//! A cluster: two nodes of one run, each with the pieces that name it, which exchange what they know;
//! and the reports of both.

ghost use Rattle.std.specs.Prelude.{◌≡◌, ◌==◌, false, IfErr, IfOk, OnErr, OnOk, option_map};
ghost use Rattle.mpi_model.specs.Failures.{HasFailed};
ghost use Rattle.dumpi_text.specs.Failing.{Fails};
ghost use Rattle.trace_crew.specs.Views.{is_from};
ghost use Rattle.command_runs.specs.Clusters.{AreClusterNodes, IsBothText, IsEqualLine, IsFaultFor, IsTextFault, NamesOne, RefusesCluster, SayBoth, of_exchange, of_node, of_wire, piece_at};
ghost use Rattle.run_inputs.specs.Files.{NamesFailed};
ghost use Rattle.command_runs.specs.NodeTexts.{is_share, is_side};
ghost use Rattle.command_runs.specs.Verbs.{RanCluster};
ghost use Rattle.run_inputs.specs.Writing.{Writes, WritesFront};

use crate::pieces::node_texts::{side_of, texts_of_all, worker_of};
use crate::pieces::shares::shares_of;
use crate::run::{Outcome, Run};
use crate::verbs::answerer::Answerer;
use crate::verbs::replay::write_node;
use crate::verbs::writing::write_piece;
use dumpi_calls::whole_segments;
use mpi_model::{Failed, Write};
use run_files::Piece;
use run_inputs::{Opener, RunFault, fault_of_walk};
use std::alloc::{AllocError, Global};
use std::net::{Net, TcpListener, TcpStream};
use std::sync::Wait;
use std::thread::Threads;
use trace_cluster::{ClusterFault, ExchangeFault, Side};
use trace_crew::{PieceAt, PieceFault, Worker};
use trace_node::{Answer, Node, NodeFault};
use trace_wire::WireFault;

/// Gives each piece of a manifest to the node and the worker that it names, lets both nodes exchange what they know
/// over a socket of this machine, and writes the line and the report of each, and then whether both say the same.
/// Nothing is written before all else has succeeded. The call waits for threads and for the socket. [`RunFault`] says
/// why a run was refused.
pub fn cluster<
    R: Net<Listener = TcpListener, Stream = TcpStream> + Threads + Wait + Sync,
    O: Opener,
    W: Write,
>(rt: &R, run: &Run<'_, O>, out: &mut W) -> Result<Outcome, RunFault>
    ensures ran { RanCluster (Fails O.R.failures) (O.file run.now.files.now) run.now.layout.now run.now.manifest.now result W.written W.failures out.old out.new }
    ensures failed { IfErr result (NamesFailed ⊥) }
{
    let nodes = nodes_of(rt, run)?;
    match write_nodes(nodes, out) {
        Ok(()) => Ok(Outcome::Good),
        Err(_) => Err(RunFault::Write),
    }
}

/// The two nodes of the layout that have their own pieces and what the other sent. Packed files are read before texts.
fn nodes_of<
    'a,
    R: Net<Listener = TcpListener, Stream = TcpStream> + Threads + Wait + Sync,
    O: Opener,
>(rt: &R, run: &Run<'a, O>) -> Result<(Node<'a>, Node<'a>), RunFault>
    ensures ok { IfOk result (λ nodes. AreClusterNodes (O.file run.now.files.now) run.now.layout.now run.now.manifest.now nodes.0 nodes.1) }
    ensures fresh { IfOk result (λ nodes. (nodes.0.is_stale ≡ false) × (nodes.1.is_stale ≡ false)) }
    ensures err { IfErr result (RefusesCluster (Fails O.R.failures) (O.file run.now.files.now) run.now.layout.now.ranks run.now.manifest.now) }
    ensures failed { IfErr result (NamesFailed ⊥) }
{
    whole_segments();
    let pieces = run.manifest.pieces();
    let packed = shares_of(run, run.manifest.packed())?;
    let texts = texts_of_all(run.alloc, pieces, packed, run.files)?;
    match trace_cluster::cluster(rt, run.alloc, run.layout, &texts.first, &texts.second) {
        Ok(nodes) => Ok(nodes),
        Err(fault) => Err(fault_of(run.alloc, pieces, fault)?),
    }
}

/// The fault of a run that stands for that of a cluster of these pieces.
fn fault_of(alloc: Global, pieces: &[Piece], fault: ClusterFault) -> Result<RunFault, AllocError>
    requires named { NamesOne pieces.now fault }
    ensures { IfOk result (IsFaultFor pieces.now fault) }
{
    match fault {
        ClusterFault::Memory => Ok(RunFault::Memory),
        ClusterFault::Worker => Ok(RunFault::Worker),
        ClusterFault::Net => Ok(RunFault::Net),
        ClusterFault::Node(fault) => Ok(of_node(fault)),
        ClusterFault::Lead(fault) => Ok(of_exchange(fault)),
        ClusterFault::Follow(fault) => Ok(of_exchange(fault)),
        ClusterFault::Piece { node, at, fault } => match piece_at(pieces, node, at) {
            Some(piece) => of_text(alloc, piece.file(), fault),
            None => unreachable!(),
        },
    }
}

/// The piece at a place of a worker of a node.
fn piece_at(pieces: &[Piece], node: Side, at: PieceAt) -> Option<&Piece>
    ensures { option_map (λ piece. piece.now) result ≡ piece_at pieces.entry.now node at }
{
    let mut left = at.place;
    for piece in pieces {
        if is_share(piece, node, at.worker) {
            if left == 0 {
                return Some(piece);
            }
            left -= 1;
        }
    }
    None
}

/// Whether the piece is one of this worker of this node.
fn is_share(piece: &Piece, node: Side, worker: Worker) -> bool
    ensures { result ≡ is_share node worker piece.now }
{
    is_side(node, side_of(piece.node())) && is_worker(worker, worker_of(piece))
}

/// Whether the two are one node.
fn is_side(one: Side, other: Side) -> bool
    ensures { result ≡ is_side one other }
{
    match (one, other) {
        (Side::First, Side::First) | (Side::Second, Side::Second) => true,
        (Side::First, Side::Second) | (Side::Second, Side::First) => false,
    }
}

/// Whether the two are one worker.
fn is_worker(one: Worker, other: Worker) -> bool
    ensures { result ≡ is_from one other }
{
    match (one, other) {
        (Worker::First, Worker::First) | (Worker::Second, Worker::Second) => true,
        (Worker::First, Worker::Second) | (Worker::Second, Worker::First) => false,
    }
}

/// The fault of a text of this file.
fn of_text(alloc: Global, path: &str, fault: PieceFault) -> Result<RunFault, AllocError>
    ensures { IfOk result (IsTextFault path.now fault) }
{
    match fault {
        PieceFault::Walk(fault) => fault_of_walk(alloc, path, fault),
        PieceFault::Segment(_) => Ok(RunFault::Place {
            path: path.to_string(alloc)?,
        }),
        PieceFault::Memory => Ok(RunFault::Memory),
    }
}

/// What the fault of a node is to a run: a node loses its answer for want of memory alone.
fn of_node(fault: NodeFault) -> RunFault
    ensures { result ≡ of_node fault }
{
    match fault {
        NodeFault::Rank => RunFault::Outside,
        NodeFault::Memory | NodeFault::Stale => RunFault::Memory,
    }
}

/// What the fault of an exchange is to a run: that of its frame, or that of the node that joins it.
fn of_exchange(fault: ExchangeFault) -> RunFault
    ensures { result ≡ of_exchange fault }
{
    match fault {
        ExchangeFault::Write(fault) | ExchangeFault::Read(fault) => of_wire(fault),
        ExchangeFault::Merge(fault) => of_node(fault),
    }
}

/// What the fault of a frame is to a run: want of memory, or that fault.
fn of_wire(fault: WireFault) -> RunFault
    ensures { result ≡ of_wire fault }
{
    match fault {
        WireFault::Memory => RunFault::Memory,
        _ => RunFault::Frame { fault },
    }
}

/// Writes what two nodes with their answers say, and drops them.
fn write_nodes<N: Answerer, W: Write>(nodes: (N, N), out: &mut W) -> Result<(), Failed>
    requires one { (N.held nodes.0).is_stale ≡ false }
    requires other { (N.held nodes.1).is_stale ≡ false }
    ensures ok { OnOk result (Writes (SayBoth (N.held nodes.0) (N.held nodes.1)) (W.written out.old) (W.written out.new)) }
    ensures err { OnErr result (WritesFront (SayBoth (N.held nodes.0) (N.held nodes.1)) (W.written out.old) (W.written out.new)) }
    ensures failed { OnErr result (HasFailed (W.failures out.old) (W.failures out.new)) }
{
    let (one, other) = nodes;
    // (a node that comes of an exchange has its answer)
    let Ok(first) = one.told() else {
        unreachable!()
    };
    let Ok(second) = other.told() else {
        unreachable!()
    };
    write_both(first, second, out)
}

/// Writes the line and the report of both nodes, and whether both say the same.
fn write_both<W: Write>(one: &Answer, other: &Answer, out: &mut W) -> Result<(), Failed>
    ensures ok { OnOk result (Writes (IsBothText one.now other.now) (W.written out.old) (W.written out.new)) }
    ensures err { OnErr result (WritesFront (IsBothText one.now other.now) (W.written out.old) (W.written out.new)) }
    ensures failed { OnErr result (HasFailed (W.failures out.old) (W.failures out.new)) }
{
    let line = equal_line(one, other);
    write_node(0, one, out)?;
    write_node(1, other, out)?;
    write_piece(line, out)
}

/// `equal yes` where both answers are the same, and `equal no` where they aren't.
fn equal_line(one: &Answer, other: &Answer) -> &'static [u8]
    ensures { IsEqualLine one.now other.now result.now }
{
    if one.same(other) {
        b"equal yes\n"
    } else {
        b"equal no\n"
    }
}
