//! A node, as the functions see it that connect two of them.

ghost use Rattle.std.specs.Prelude.{◌≡◌, ◌≢◌, ◌↔◌, IfErr, IsErrOf, OnOk};
ghost use Rattle.trace_know.specs.View.{join};
ghost use Rattle.trace_node.specs.Node.{HasStranger, Held};
ghost use Rattle.trace_cluster.specs.Meeting.{IsMore};

use crate::exchange::{ExchangeFault, follow};
use mpi_model::Device;
use std::alloc::Global;
use std::net::TcpStream;
use trace_know::{Knowledge, join_laws};
use trace_node::{Node, NodeFault};

/// One side of an exchange. The functions that connect two nodes know them by this trait alone: a closure of a scope
/// can't name the lifetime inside a node that it captures, and a function that owns nodes is proved over all that a
/// node holds.
pub trait Participant: Drop {
    /// What its node holds.
    ghost held: { Self → Held };

    /// All that its node knows.
    fn knowledge(&self) -> &Knowledge
        ensures { result.now ≡ (held self.now).know };

    /// Joins what its side of an exchange heard. Fails with `Rank` exactly for facts of a rank that the layout lacks.
    /// After an error the node is as it was, unless it is stale: then it has joined them.
    fn learn(&mut self, know: &Knowledge) -> Result<(), NodeFault>
        ensures more { OnOk result (IsMore (held self.old) (held self.new)) }
        ensures learned { OnOk result ((held self.new).know ≡ join (held self.old).know know.now) }
        ensures rank { IsErrOf result NodeFault.Rank ↔ HasStranger (held self.old).layout know.now }
        ensures unchanged { IfErr result (λ fault. fault ≢ NodeFault.Stale → held self.new ≡ held self.old) }
        ensures stale { IsErrOf result NodeFault.Stale → (held self.new).know ≡ join (held self.old).know know.now };

    /// Follows in an exchange over a connection, and closes it. [`ExchangeFault`] says which step failed.
    fn follow_over(&mut self, alloc: Global, stream: TcpStream) -> Result<(), ExchangeFault>
        ensures { OnOk result (IsMore (held self.old) (held self.new)) };
}

impl<'a> Participant for Node<'a> {
    ghost held = { λ n. n };

    fn knowledge(&self) -> &Knowledge {
        self.know()
    }

    fn learn(&mut self, know: &Knowledge) -> Result<(), NodeFault> {
        join_laws();
        self.merge(know)
    }

    fn follow_over(&mut self, alloc: Global, stream: TcpStream) -> Result<(), ExchangeFault> {
        follow(alloc, &mut Device::new(stream), self)
    }
}
