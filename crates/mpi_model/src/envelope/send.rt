//! Envelopes of sends.

ghost use Rattle.std.specs.Prelude.{◌≡◌, ◌↔◌, IsTrue, SomeIff};
ghost use Rattle.mpi_model.specs.Ranges.{IsSend};
ghost use Rattle.mpi_model.specs.Events.{IsSent};

use crate::envelope::packed::Packed;
use crate::envelope::{CommRef, Envelope, Peer};
use std::marker::Model;

/// The envelope of a send: it names its peer and its tag, and no number is above 2^31 - 1.
#[derive(Clone, Copy)]
pub struct SendEnvelope {
    inner: Packed,
}

impl Model for SendEnvelope {
    ghost use Rattle.mpi_model.specs.declared.envelope.Envelope.{Envelope};
    ghost use Rattle.mpi_model.specs.Ranges.{IsSend};

    ghost Value = { Envelope };

    ghost view = { λ e. e.inner };

    ghost invariant = { λ e. IsSend e.inner };

    ghost inverse = { λ e. record { inner = e } };
}

impl SendEnvelope {
    /// The envelope; `None` if a send can't have it: it names any source or any tag, or a value is out of its range.
    pub fn new(inner: Envelope) -> Option<SendEnvelope>
        ensures { SomeIff result (IsSend inner) inner }
    {
        if can_be_sent(inner) {
            Some(SendEnvelope {
                inner: Packed::pack(inner),
            })
        } else {
            None
        }
    }

    /// Tells the range of the envelope's values. It does nothing: it is for proofs.
    pub fn known(self)
        ensures { IsSent self }
    {
        let _inner = self.inner.unpack();
    }

    /// The envelope with its fields, as [`new`](Self::new) took it.
    pub fn envelope(self) -> Envelope
        ensures value { result ≡ self }
        ensures range { IsSend result }
    {
        self.inner.unpack()
    }
}

/// Whether it may be the envelope of a send: it names a peer and a tag, and each value is in its range.
fn can_be_sent(envelope: Envelope) -> bool
    ensures { IsTrue result ↔ IsSend envelope }
{
    matches!(envelope.peer, Peer::Null | Peer::Rank(0..=0x7FFF_FFFF))
        && matches!(envelope.tag, Some(0..=0x7FFF_FFFF))
        && matches!(envelope.comm, CommRef::World | CommRef::Id(0..=0x7FFF_FFFF))
        && envelope.count < 0x8000_0000
}
