//! How a node takes a segment that comes back where it is refused.

ghost use Rattle.std.specs.Prelude.{◌≡◌, IfSome};
ghost use Rattle.trace_crew.specs.Taking.{IsFairFor, fault_in, known_after};

use trace_know::ReadySegment;
use trace_node::{Node, NodeFault};

/// A segment that a node did not join, and why.
#[derive(Drop)]
pub struct RefusedSegment {
    pub segment: ReadySegment,
    pub fault: NodeFault,
}

/// Joins a segment to a node, and makes no answer; or gives it back with why it was not joined.
#[tactic(auto, using(crate::proofs::Sorting::fault_is_fair))]
pub fn hold(node: &mut Node<'_>, segment: ReadySegment) -> Option<RefusedSegment>
    ensures fair { IsFairFor node.old.layout segment.rank (fault_in result) }
    ensures layout { node.new.layout ≡ node.old.layout }
    ensures know { node.new.know ≡ known_after node.old.know segment (fault_in result) }
    ensures back { IfSome result (λ refused. refused.segment ≡ segment) }
{
    match node.hold_ready(segment) {
        Ok(()) => None,
        Err((segment, fault)) => Some(RefusedSegment { segment, fault }),
    }
}
