//! The side of an exchange that writes first.

ghost use Rattle.std.specs.Prelude.{◌≡◌};
ghost use Rattle.trace_know.specs.View.{IsBelow};
ghost use Rattle.trace_cluster.specs.Exchange.{Leads, LeadLeaves};
ghost use Rattle.trace_cluster.specs.Stream.{OverStream, half};

use crate::exchange::fault::ExchangeFault;
use crate::exchange::frames::exchange_frames;
use crate::exchange::hearing::merge_heard;
use mpi_model::{Read, Write};
use std::alloc::Global;
use trace_know::join_laws;
use trace_node::Node;

/// Writes the frame of all that the node knows, then reads one frame and merges it.
///
/// If the write fails, nothing is read and the node is as it was. If the read fails, the frame has been sent and the
/// node is as it was. A refused merge leaves what [`Node::merge`] says.
pub fn lead<'a, S: Read + Write>(
    alloc: Global,
    stream: &mut S,
    node: &mut Node<'a>,
) -> Result<(), ExchangeFault>
    // over a stream whose halves tell of each other
    ensures told { OverStream (half S.left S.Read.failures) S.read_side (half S.written S.Write.failures) S.write_side
        (λ at. Leads (at stream.old) (at stream.new) node.old node.new result) }

    // over any stream
    ensures leaves { LeadLeaves node.old node.new result }
    ensures grows { IsBelow node.old.know node.new.know }
{
    join_laws();
    match exchange_frames(alloc, stream, node.know()) {
        Ok(heard) => merge_heard(node, &heard),
        Err(fault) => Err(fault),
    }
}
