//! Crews: the pieces of their workers, and what two workers and an owner leave.

use crate::fixture::layout;
use std::alloc::Global;
use std::process::Abort;
use std::sync::Wait;
use std::thread::Threads;
use trace_crew::{Board, CrewOut, Gate, Shown, TextPiece, crew};

/// One call of no matching that enters at 0 s and returns at half a second.
pub(crate) const CALL: &str =
    "MPI_Nothing entering at walltime 0.0, cputime 0.0 seconds in thread 0.
MPI_Nothing returning at walltime 0.5, cputime 0.0 seconds in thread 0.
";

/// A rank, the call with which a text of it begins, and that text.
pub(crate) type Row = (u32, u64, &'static str);

/// A piece.
pub(crate) fn piece<R: Abort>(rt: &R, alloc: Global, row: &Row) -> TextPiece {
    TextPiece {
        rank: row.0,
        first: row.1,
        text: row.2.as_bytes().to_vec(alloc).expect(rt, "memory"),
    }
}

/// The pieces of one worker.
pub(crate) fn pieces<R: Abort>(rt: &R, alloc: Global, rows: &[Row]) -> Vec<TextPiece> {
    let mut all = Vec::new(alloc);
    for row in rows {
        all.push(piece(rt, alloc, row)).expect(rt, "memory");
    }
    all
}

/// What the node knows (the readable prefixes of both ranks), and what the board shows of it; and how
/// many texts had a fault, and how many segments were refused.
pub(crate) type Told = ((u64, u64), (u64, u64), usize, usize);

/// What a crew leaves, and what the board shows of it.
fn told(out: &CrewOut<'_>, shown: &Shown<'_>) -> Told {
    let (node, seen) = (out.node.know(), shown.know());
    (
        (node.prefix(0), node.prefix(1)),
        (seen.prefix(0), seen.prefix(1)),
        out.faults.len(),
        out.refused.len(),
    )
}

/// What a crew leaves that this gate holds.
pub(crate) fn left<R: Threads + Wait + Sync + Abort, G: Gate>(
    rt: &R,
    alloc: Global,
    first: &[TextPiece],
    second: &[TextPiece],
    gate: &G,
) -> Told {
    let layout = layout(rt, alloc);
    let board = Board::new(alloc, &layout).expect(rt, "memory");
    let out = crew(rt, alloc, &layout, first, second, &board, gate).expect(rt, "a crew");
    let shown = board.show(rt, None).ok().expect(rt, "memory");
    let told = told(&out, &shown);
    drop(out);
    drop(shown);
    drop(board);
    told
}
