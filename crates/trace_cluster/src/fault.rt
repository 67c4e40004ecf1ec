//! Why a cluster leaves nothing.

ghost use Rattle.std.specs.Prelude.{◌≡◌};
ghost use Rattle.trace_cluster.specs.Crews.{of_crew};

use crate::exchange::ExchangeFault;
use crate::side::Side;
use thiserror::Error;
use trace_crew::{CrewFault, PieceAt, PieceFault};
use trace_node::NodeFault;

/// Why a cluster leaves nothing: the first cause in this order.
#[derive(Debug, Drop, Error)]
pub enum ClusterFault {
    /// A worker's thread couldn't be started, or an end of a queue was refused.
    #[error("Y1 Worker")]
    Worker,
    /// Memory was refused for a crew.
    #[error("Memory")]
    Memory,
    /// A piece gave no segments: the first such piece by node, worker and place in that worker's list.
    #[error("{fault}")]
    Piece {
        node: Side,
        at: PieceAt,
        fault: PieceFault,
    },
    /// A node refused a segment: the first such segment by node, and then in the order of taking. Or all were joined,
    /// and a node had no memory for what it is told besides.
    #[error(transparent)]
    Node(NodeFault),
    /// There was no port to listen at, no connection, or no thread for the first node's side.
    #[error("Y3 Net")]
    Net,
    /// The exchange failed for the first node, which leads it, and the second node's failure, if any, isn't more likely
    /// to be the cause.
    #[error(transparent)]
    Lead(ExchangeFault),
    /// The exchange failed for the second node, which follows. For the first it didn't fail, or only because the second
    /// stopped.
    #[error(transparent)]
    Follow(ExchangeFault),
}

impl From<CrewFault> for ClusterFault {
    ghost from_gives = { λ fault e. e ≡ of_crew fault };

    fn from(fault: CrewFault) -> ClusterFault {
        match fault {
            CrewFault::Worker => ClusterFault::Worker,
            CrewFault::Memory => ClusterFault::Memory,
        }
    }
}
