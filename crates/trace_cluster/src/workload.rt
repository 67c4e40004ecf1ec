//! The pieces of a node, and what it is told besides them.

use trace_crew::TextPiece;
use trace_know::Knowledge;

/// The pieces of a node's two workers, of each in the order in which it reads them, and what the node is
/// told besides, as by packed files.
#[derive(Drop)]
pub struct Workload {
    pub first: Vec<TextPiece>,
    pub second: Vec<TextPiece>,
    /// What the node is told besides.
    pub known: Knowledge,
}
