//! Why packed knowledge was not read.

use crate::fault::WireFault;
use thiserror::Error;

/// Why a frame of packed knowledge is refused.
#[derive(Clone, Copy, Debug, PartialEq, Eq, Error)]
pub enum PackedCause {
    /// The input has no frame, or none of this frame was read.
    #[error(transparent)]
    Wire(WireFault),
    /// It says something of a rank that the layout doesn't have.
    #[error("N1 Rank")]
    Rank,
}

/// Which frame of packed knowledge is refused, counted from 0, and why.
#[derive(Clone, Copy, Debug, PartialEq, Eq, Error)]
#[error("{cause} at frame {frame}")]
pub struct PackedFault {
    /// The number of the frame, from 0.
    pub frame: u64,
    pub cause: PackedCause,
}
