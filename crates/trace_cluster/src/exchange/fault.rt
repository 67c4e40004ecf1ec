//! Why an exchange is refused.

use thiserror::Error;
use trace_node::NodeFault;
use trace_wire::WireFault;

/// Which step of an exchange failed, and why. It is displayed as its cause alone.
#[derive(Clone, Copy, Debug, PartialEq, Eq, Error)]
pub enum ExchangeFault {
    /// The node's frame was not written, or only in part.
    #[error(transparent)]
    Write(WireFault),
    /// No frame was read, and the node is as it was.
    #[error(transparent)]
    Read(WireFault),
    /// A frame was read, and the node refused to merge it, or merged it and lost its answer.
    #[error(transparent)]
    Merge(NodeFault),
}
