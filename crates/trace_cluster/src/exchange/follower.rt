//! The side of an exchange that reads first.

ghost use Rattle.std.specs.Prelude.{◌≡◌};
ghost use Rattle.trace_know.specs.View.{IsBelow};
ghost use Rattle.trace_cluster.specs.Exchange.{Follows, FollowLeaves};
ghost use Rattle.trace_cluster.specs.Stream.{OverStream, half};

use crate::exchange::fault::ExchangeFault;
use crate::exchange::hearing::hear;
use mpi_model::{Read, Write};
use std::alloc::Global;
use trace_know::join_laws;
use trace_node::Node;
use trace_wire::write_frame;

/// Reads one frame and merges it, then writes the frame of all that the node knows by then.
///
/// If the read or the merge fails, nothing is written; the node is as it was, or as a refused [`Node::merge`] leaves
/// it. If the write fails, the node keeps what it merged.
pub fn follow<'a, S: Read + Write>(
    alloc: Global,
    stream: &mut S,
    node: &mut Node<'a>,
) -> Result<(), ExchangeFault>
    // over a stream whose halves tell of each other
    ensures told { OverStream (half S.left S.Read.failures) S.read_side (half S.written S.Write.failures) S.write_side
        (λ at. Follows (at stream.old) (at stream.new) node.old node.new result) }

    // over any stream
    ensures leaves { FollowLeaves node.old node.new result }
    ensures grows { IsBelow node.old.know node.new.know }
{
    join_laws();
    match hear(alloc, stream, node) {
        Ok(()) => {}
        Err(fault) => return Err(fault),
    }
    match write_frame(node.know(), stream) {
        Ok(()) => Ok(()),
        Err(fault) => Err(ExchangeFault::Write(fault)),
    }
}
