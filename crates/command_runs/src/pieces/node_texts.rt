//! The texts of all pieces, by the node and the worker that they name.

ghost use Rattle.std.specs.Prelude.{◌≡◌, [], IfErr, IfOk, OnOk};
ghost use Rattle.trace_cluster.specs.declared.side.Side.{Side as SideValue};
ghost use Rattle.trace_crew.specs.declared.queue.item.Worker.{Worker as WorkerValue};
ghost use Rattle.dumpi_text.specs.Failing.{Fails};
ghost use Rattle.run_inputs.specs.Files.{NamesFailed};
ghost use Rattle.command_runs.specs.Shares.{told_to};
ghost use Rattle.command_runs.specs.NodeTexts.{AddsText, AreShares, RefusesBytes, known_in, share_in, side_of, worker_of};

use crate::pieces::shares::PackedShares;
use run_files::Piece;
use run_inputs::{LONGEST_PIECE, Opener, RunFault, file_at};
use std::alloc::{AllocError, Global};
use trace_cluster::{Side, Workload};
use trace_crew::{TextPiece, Worker};

/// The texts of two nodes, for each by the worker that reads them, and what else each node knows.
#[derive(Drop)]
pub struct AllTexts {
    pub first: Workload,
    pub second: Workload,
}

impl AllTexts {
    /// No text yet, and what packed files tell.
    fn new(alloc: Global, packed: PackedShares) -> AllTexts
        ensures shares { (node : SideValue) (worker : WorkerValue) → share_in result node worker ≡ [] }
        ensures known { (node : SideValue) → known_in result node ≡ told_to packed node }
    {
        AllTexts {
            first: Workload {
                first: Vec::new(alloc),
                second: Vec::new(alloc),
                known: packed.first,
            },
            second: Workload {
                first: Vec::new(alloc),
                second: Vec::new(alloc),
                known: packed.second,
            },
        }
    }

    /// Adds a text for a worker of a node.
    fn add(&mut self, node: Side, worker: Worker, text: TextPiece) -> Result<(), AllocError>
        ensures shares { OnOk result (AddsText node worker text self.old self.new) }
        ensures known { OnOk result ((one : SideValue) → known_in self.new one ≡ known_in self.old one) }
    {
        match (node, worker) {
            (Side::First, Worker::First) => self.first.first.push(text)?,
            (Side::First, Worker::Second) => self.first.second.push(text)?,
            (Side::Second, Worker::First) => self.second.first.push(text)?,
            (Side::Second, Worker::Second) => self.second.second.push(text)?,
        }
        Ok(())
    }
}

/// The node of this number.
pub fn side_of(node: u8) -> Side
    ensures { result ≡ side_of node }
{
    if node == 0 { Side::First } else { Side::Second }
}

/// The worker that a piece names.
pub fn worker_of(piece: &Piece) -> Worker
    ensures { result ≡ worker_of piece.now.worker }
{
    if piece.worker() == 0 {
        Worker::First
    } else {
        Worker::Second
    }
}

/// The bytes of all pieces, which are read in the order of the pieces, beside what packed files tell. [`RunFault`]
/// names the first file that can't be read whole.
pub fn texts_of_all<O: Opener>(
    alloc: Global,
    pieces: &[Piece],
    packed: PackedShares,
    files: &O,
) -> Result<AllTexts, RunFault>
    ensures ok { IfOk result (λ texts. AreShares (O.file files.now) pieces.now texts) }
    ensures known { IfOk result (λ texts. (node : SideValue) → known_in texts node ≡ told_to packed node) }
    ensures err { IfErr result (RefusesBytes (Fails O.R.failures) (O.file files.now) pieces.now) }
    ensures failed { IfErr result (NamesFailed ⊥) }
{
    let mut texts = AllTexts::new(alloc, packed);
    for piece in pieces {
        let text = file_at(alloc, piece.file(), files, LONGEST_PIECE)?;
        let (rank, first) = (piece.rank(), piece.first());
        texts.add(
            side_of(piece.node()),
            worker_of(piece),
            TextPiece { rank, first, text },
        )?;
    }
    Ok(texts)
}
