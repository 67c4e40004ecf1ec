//! The steps of a schedule, and why one is refused.

ghost use Rattle.std.specs.Prelude.{◌≡◌};
ghost use Rattle.trace_world.specs.Answers.{joins_more};
ghost use Rattle.trace_world.specs.Refusals.{node_of};

use crate::shared::SharedSegment;
use thiserror::Error;

/// One step of a schedule. Nodes and mails are numbered from 0.
#[derive(Drop)]
pub enum Step {
    /// A worker adds a segment to the back of a node's inbox.
    Post {
        /// Which worker posts it. It makes no difference to the nodes.
        worker: u8,
        /// The node whose inbox it is.
        node: usize,
        /// The segment.
        segment: SharedSegment,
    },
    /// A node takes the front of its inbox into its knowledge.
    Take {
        /// The node.
        node: usize,
    },
    /// A node's knowledge becomes the next mail, a frame that stays as it is.
    Ship {
        /// The node.
        node: usize,
    },
    /// A mail is joined into a node's knowledge. The mail stays, so it can be delivered again.
    Deliver {
        /// The number of the mail, in order of the shipments.
        mail: usize,
        /// The node.
        node: usize,
    },
    /// A node forgets all that it knows and all that lies in its inbox.
    Restart {
        /// The node.
        node: usize,
    },
}

impl Step {
    /// The node that the step is about.
    pub(crate) fn node(&self) -> usize
        ensures { result ≡ node_of self.now }
    {
        match self {
            Step::Post { node, .. } => *node,
            Step::Take { node } => *node,
            Step::Ship { node } => *node,
            Step::Deliver { node, .. } => *node,
            Step::Restart { node } => *node,
        }
    }

    /// Whether its node joins more, so that its answer has to be made again.
    pub(crate) fn joins_more(&self) -> bool
        ensures { result ≡ joins_more self.now }
    {
        matches!(self, Step::Take { .. } | Step::Deliver { .. })
    }
}

/// Why a world refuses a step or can't be made: the first cause in this order. A refused step has changed nothing,
/// except for `Stale`.
#[derive(Clone, Copy, Debug, PartialEq, Eq, Error)]
pub enum WorldFault {
    /// No node has this number.
    #[error("V1 NoNode")]
    NoNode,
    /// No mail has this number.
    #[error("V2 NoMail")]
    NoMail,
    /// The node's inbox is empty.
    #[error("V3 EmptyInbox")]
    EmptyInbox,
    /// The layout doesn't have the segment's rank.
    #[error("V4 Rank")]
    Rank,
    /// The frame to be shipped would be longer than a frame may be.
    #[error("V5 FrameLength")]
    FrameLength,
    /// The step was done, but the node has no answer now: memory was refused, or it had none before.
    #[error("V6 Stale")]
    Stale,
    /// The number of nodes isn't 1 to 64.
    #[error("V7 NodeCount")]
    NodeCount,
    /// No memory was left.
    #[error("Memory")]
    Memory,
}

/// The step at which a run of steps ended, from 0, and why.
#[derive(Clone, Copy, Debug, PartialEq, Eq)]
pub struct StepFault {
    /// The number of the step, from 0.
    pub step: usize,
    pub fault: WorldFault,
}
