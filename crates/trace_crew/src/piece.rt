//! Pieces: texts of ranks, their segments, and why one gives none.

ghost use Rattle.std.specs.Prelude.{◌≡◌, IfOk, IfErr};
ghost use Rattle.trace_crew.specs.Pieces.{GivesSegments, IsFaultOfWalk, IsOwn, IsRefusedFor};
ghost use Rattle.trace_crew.specs.declared.piece.PieceFault.TheVariants.{Walk};

use crate::queue::Worker;
use dumpi_calls::{Collect, Memory, WalkCause, WalkFault, walk, whole_texts};
use dumpi_text::{TextCause, TextFault};
use mpi_model::Device;
use std::alloc::Global;
use thiserror::Error;
use trace_know::{ReadySegment, SegmentFault};

/// The text of a rank's trace, from one of its calls on.
#[derive(Drop)]
pub struct TextPiece {
    /// The rank among all ranks of the run.
    pub rank: u32,
    /// The number of the rank's call with which the text begins.
    pub first: u64,
    pub text: Vec<u8>,
}

/// Why a piece gives no segments: the first cause in this order, except that `Memory` can come at any point.
#[derive(Debug, Drop, Error)]
pub enum PieceFault {
    /// The text stops before its end.
    #[error(transparent)]
    Walk(WalkFault<Memory>),
    /// An event of the text would have a place at 2^40 or past it.
    #[error(transparent)]
    Segment(SegmentFault),
    /// Memory was refused for the text's calls, its segments or a fault.
    #[error("Memory")]
    Memory,
}

/// Where a piece stands: the worker that reads it, and its place in that worker's list, from 0.
#[derive(Clone, Copy, Debug)]
pub struct PieceAt {
    pub worker: Worker,
    pub place: u64,
}

/// A piece that gave no segments, and why.
#[derive(Drop)]
pub struct FaultyPiece {
    pub at: PieceAt,
    pub fault: PieceFault,
}

/// The segments of a piece's whole text, ready to be joined, none of one without calls. The worker
/// makes them ready, so that the owner, for whom both workers wait at last, has less to do.
pub(crate) fn segments_of(alloc: Global, piece: &TextPiece) -> Result<Vec<ReadySegment>, PieceFault>
    ensures ok { IfOk result (λ segments. GivesSegments piece.now segments.items) }
    ensures err { IfErr result (λ fault. IsRefusedFor piece.now fault) }
{
    whole_texts();
    let mut collect = Collect::for_text(alloc, piece.text.len() as u64);
    match walk(alloc, Device::new(piece.text.as_slice()), &mut collect) {
        Ok(_) => {}
        Err(fault) => return Err(fault_of_walk(fault)),
    }
    match collect.into_ready(piece.rank, piece.first) {
        Ok(segments) => Ok(segments),
        Err(SegmentFault::Place) => Err(PieceFault::Segment(SegmentFault::Place)),
        Err(_) => Err(PieceFault::Memory),
    }
}

/// The fault of a piece whose walk was stopped. A text in memory has no reader that fails, so what
/// isn't the text's own fault is want of memory.
fn fault_of_walk(fault: WalkFault<Memory>) -> PieceFault
    ensures own { IsOwn fault.cause → result ≡ Walk fault }
    ensures cause { IsFaultOfWalk fault result }
{
    match &fault.cause {
        WalkCause::Text(
            TextFault::At {
                cause: TextCause::Line(_),
                ..
            },
        )
        | WalkCause::Missing(_)
        | WalkCause::Wrong(_) => PieceFault::Walk(fault),
        _ => PieceFault::Memory,
    }
}
