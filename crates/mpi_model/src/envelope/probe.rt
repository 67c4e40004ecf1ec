//! Envelopes of probes.

ghost use Rattle.std.specs.Prelude.{◌≡◌, ◌↔◌, IsTrue, SomeIff};
ghost use Rattle.mpi_model.specs.Ranges.{IsProbe, IsSource, IsAskedTag, IsComm};

use crate::envelope::{CommRef, Peer};
use std::marker::Model;

/// The envelope that a probe looks for (MPI 4.0, 3.8.1): it names source and tag as a receive does,
/// and no number is above 2^31 - 1.
#[derive(Clone, Copy)]
pub struct ProbeEnvelope {
    source: Peer,
    tag: Option<u32>,
    comm: CommRef,
}

impl Model for ProbeEnvelope {
    ghost use Rattle.mpi_model.specs.Ranges.{Probed, IsProbe};

    ghost Value = { Probed };

    ghost view = { λ e. record { source = e.source; tag = e.tag; comm = e.comm } };

    ghost invariant = { λ e. IsProbe (record { source = e.source; tag = e.tag; comm = e.comm }) };

    ghost inverse = { λ e. record { source = e.source; tag = e.tag; comm = e.comm } };
}

impl ProbeEnvelope {
    /// The envelope; `None` if a probe can't have it, because a value is out of its range.
    pub fn new(source: Peer, tag: Option<u32>, comm: CommRef) -> Option<ProbeEnvelope>
        ensures { SomeIff result (IsSource source × IsAskedTag tag × IsComm comm)
            (record { source = source; tag = tag; comm = comm }) }
    {
        if can_be_probed(source, tag, comm) {
            Some(ProbeEnvelope { source, tag, comm })
        } else {
            None
        }
    }

    /// Tells the range of the envelope's values. It does nothing: it is for proofs.
    pub fn known(self)
        ensures { IsProbe self }
    {
        let _comm = self.comm;
    }

    /// The rank in the group from which it looks for a message, or any rank, or the null process.
    pub fn source(self) -> Peer
        ensures value { result ≡ self.source }
        ensures range { IsSource result }
    {
        self.source
    }

    /// The tag; `None` is `MPI_ANY_TAG`.
    pub fn tag(self) -> Option<u32>
        ensures value { result ≡ self.tag }
        ensures range { IsAskedTag result }
    {
        self.tag
    }

    /// The communicator in which it looks for a message.
    pub fn comm(self) -> CommRef
        ensures value { result ≡ self.comm }
        ensures range { IsComm result }
    {
        self.comm
    }

    /// Whether the two envelopes are equal in every field.
    pub fn same(self, other: ProbeEnvelope) -> bool
        ensures { IsTrue result ↔ (self ≡ other) }
    {
        self.source == other.source && self.tag == other.tag && self.comm == other.comm
    }
}

/// Whether a probe may look for these: each value is in its range.
fn can_be_probed(source: Peer, tag: Option<u32>, comm: CommRef) -> bool
    ensures { IsTrue result ↔ (IsSource source × IsAskedTag tag × IsComm comm) }
{
    matches!(source, Peer::Any | Peer::Null | Peer::Rank(0..=0x7FFF_FFFF))
        && matches!(tag, None | Some(0..=0x7FFF_FFFF))
        && matches!(comm, CommRef::World | CommRef::Id(0..=0x7FFF_FFFF))
}
