//! Why a node refuses what it is given, or a question.

use thiserror::Error;

/// Why a node took nothing, or has no answer to what it took: the first cause in this order.
#[derive(Clone, Copy, Debug, PartialEq, Eq, Error)]
pub enum NodeFault {
    /// A segment or a cell is of a rank that the layout doesn't have. Nothing was taken.
    #[error("N1 Rank")]
    Rank,
    /// Memory for what is known was refused. Nothing was taken.
    #[error("Memory")]
    Memory,
    /// All was taken, but there is no answer: memory for it was refused, or the node was stale before.
    #[error("N2 Stale")]
    Stale,
}

/// The node has no answer to what it knows, until [`Node::refresh`](crate::Node::refresh).
#[derive(Clone, Copy, Debug, PartialEq, Eq, Error)]
#[error("N2 Stale")]
pub struct Stale;
