//! A frame that a node hears: it is read, and what it tells is merged.

ghost use Rattle.mpi_model.specs.Side.{LeavesSide};
ghost use Rattle.trace_cluster.specs.Exchange.{Hears, Merges};
ghost use Rattle.trace_cluster.specs.Stream.{half};

use crate::exchange::fault::ExchangeFault;
use crate::exchange::frames::heard_frame;
use mpi_model::Read;
use std::alloc::Global;
use trace_know::Knowledge;
use trace_node::Node;

/// Merges what a frame said, as both sides of an exchange do.
pub(crate) fn merge_heard<'a>(node: &mut Node<'a>, heard: &Knowledge) -> Result<(), ExchangeFault>
    ensures { Merges node.old heard.now node.new result }
{
    match node.merge(heard) {
        Ok(()) => Ok(()),
        Err(fault) => Err(ExchangeFault::Merge(fault)),
    }
}

/// Reads one frame, and merges what it tells.
pub(crate) fn hear<'a, R: Read>(
    alloc: Global,
    reader: &mut R,
    node: &mut Node<'a>,
) -> Result<(), ExchangeFault>
    ensures value { Hears (half R.left R.failures reader.old) (half R.left R.failures reader.new) node.old node.new result }
    ensures beside { LeavesSide (R.write_side reader.old) (R.write_side reader.new) }
{
    match heard_frame(alloc, reader) {
        Ok(heard) => merge_heard(node, &heard),
        Err(fault) => Err(fault),
    }
}
