//! Why nothing was put, or nothing newer is shown.

use crate::board::shown::Shown;
use thiserror::Error;

/// Why a node was not put on the board. The board still shows what it showed before.
#[derive(Clone, Copy, Debug, PartialEq, Eq, Error)]
pub enum PutFault {
    /// The node is stale: it has no answer.
    #[error("N2 Stale")]
    Stale,
    /// The node's answer or its knowledge already has as many owners as can be counted.
    #[error("Memory")]
    Memory,
}

/// Why a reader is shown nothing, or something older than it saw.
#[derive(Drop)]
pub enum ShowFault<'a> {
    /// Y2: what is shown doesn't contain all that the reader has seen. The fault carries what is shown.
    Older(Shown<'a>),
    /// What is shown already has as many owners as can be counted.
    Memory,
}
