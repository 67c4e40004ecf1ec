//! What a step does to nodes and inboxes.

ghost use Rattle.std.specs.Prelude.{◌≡◌, ◌<◌, true, false, OnOk, OnErr, IfErr, Some, length};
ghost use Rattle.std.specs.List.{slice_get};
ghost use Rattle.mpi_model.specs.Layouts.{Parts};
ghost use Rattle.trace_know.specs.Trace.{facts_of, view_of};
ghost use Rattle.trace_node.specs.Node.{IsWithin};
ghost use Rattle.trace_world.specs.Moves.{Holds, SameKnown, StaleAt};
ghost use Rattle.trace_world.specs.Answers.{AllAnswered};
ghost use Rattle.trace_world.specs.Schedule.{with_segment};
ghost use Rattle.trace_world.specs.Shows.{knows};
ghost use Rattle.trace_world.specs.Worlds.{HasRank, layouts};

use crate::inbox::SegmentQueue;
use crate::shared::SharedSegment;
use crate::step::WorldFault;
use std::alloc::AllocError;
use trace_know::{Knowledge, Segment};
use trace_node::{Node, NodeFault};

/// Adds a segment to a node's inbox, which shares it.
pub(crate) fn post(
    inboxes: &mut Vec<SegmentQueue>,
    node: usize,
    segment: &SharedSegment,
) -> Result<(), WorldFault>
    requires there { node < length inboxes.old.items }
    ensures ok { OnOk result (inboxes.new.items ≡ with_segment inboxes.old.items node segment.now) }
    ensures err { IfErr result (λ fault. (fault ≡ WorldFault.Memory) × (inboxes.new.items ≡ inboxes.old.items)) }
{
    let Ok(segment) = segment.try_clone() else {
        return Err(WorldFault::Memory);
    };
    let inbox = &mut inboxes[node];
    if inbox.push(segment).is_err() {
        return Err(WorldFault::Memory);
    }
    Ok(())
}

/// A node takes a segment of a rank of its layout, and makes no answer.
pub(crate) fn hold<'a>(
    nodes: &mut Vec<Node<'a>>,
    node: usize,
    segment: &Segment,
) -> Result<(), WorldFault>
    requires there { node < length nodes.old.items }
    requires within { HasRank nodes.old.items node segment.now.rank }
    ensures { Holds nodes.old.items node (view_of (facts_of segment.now)) result nodes.new.items }
{
    let place = &mut nodes[node];
    match place.hold(segment) {
        Ok(()) => Ok(()),
        Err(NodeFault::Memory) => Err(WorldFault::Memory),
        Err(NodeFault::Rank) => unreachable!(),
        // no answer was to be made
        Err(NodeFault::Stale) => unreachable!(),
    }
}

/// A node joins other knowledge of ranks of its layout, and makes no answer.
pub(crate) fn hold_all<'a>(
    nodes: &mut Vec<Node<'a>>,
    node: usize,
    more: &Knowledge,
) -> Result<(), WorldFault>
    requires there { node < length nodes.old.items }
    requires within { (layout : Parts) → slice_get (layouts nodes.old.items) node ≡ Some layout → IsWithin layout more.now }
    ensures { Holds nodes.old.items node more.now result nodes.new.items }
{
    let place = &mut nodes[node];
    match place.hold_all(more) {
        Ok(()) => Ok(()),
        Err(NodeFault::Memory) => Err(WorldFault::Memory),
        Err(NodeFault::Rank) => unreachable!(),
        // no answer was to be made
        Err(NodeFault::Stale) => unreachable!(),
    }
}

/// A node that has no answer makes it.
pub(crate) fn answer<'a>(nodes: &mut Vec<Node<'a>>, node: usize) -> Result<(), AllocError>
    requires there { node < length nodes.old.items }
    ensures same { SameKnown nodes.old.items nodes.new.items }
    ensures ok { OnOk result (StaleAt nodes.old.items node false nodes.new.items) }
    ensures err { OnErr result (StaleAt nodes.old.items node true nodes.new.items) }
{
    let place = &mut nodes[node];
    place.catch_up()
}

/// Each node that has no answer makes it.
pub(crate) fn answer_all<'a>(nodes: &mut Vec<Node<'a>>) -> Result<(), AllocError>
    ensures same { SameKnown nodes.old.items nodes.new.items }
    ensures ok { OnOk result (AllAnswered nodes.new.items) }
{
    for node in 0..nodes.len() {
        answer(nodes, node)?;
    }
    Ok(())
}

/// A node makes its answer anew.
pub(crate) fn refresh<'a>(nodes: &mut Vec<Node<'a>>, node: usize) -> Result<(), WorldFault>
    requires there { node < length nodes.old.items }
    ensures knows { knows nodes.new.items ≡ knows nodes.old.items }
    ensures layouts { layouts nodes.new.items ≡ layouts nodes.old.items }
    ensures length { length nodes.new.items ≡ length nodes.old.items }
    ensures ok { OnOk result (StaleAt nodes.old.items node false nodes.new.items) }
    ensures err { IfErr result (λ fault. (fault ≡ WorldFault.Memory) × StaleAt nodes.old.items node true nodes.new.items) }
{
    let place = &mut nodes[node];
    match place.refresh() {
        Ok(()) => Ok(()),
        Err(_) => Err(WorldFault::Memory),
    }
}
