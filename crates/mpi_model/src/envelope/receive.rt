//! Envelopes of receives.

ghost use Rattle.std.specs.Prelude.{◌≡◌, ◌↔◌, IsTrue, SomeIff};
ghost use Rattle.mpi_model.specs.Ranges.{IsReceive};
ghost use Rattle.mpi_model.specs.Events.{IsReceived};

use crate::envelope::packed::Packed;
use crate::envelope::{CommRef, Envelope, Peer};
use std::marker::Model;

/// The envelope of a receive: it may name any source and any tag, and no number is above 2^31 - 1.
#[derive(Clone, Copy, Debug)]
pub struct ReceiveEnvelope {
    inner: Packed,
}

impl Model for ReceiveEnvelope {
    ghost use Rattle.mpi_model.specs.declared.envelope.Envelope.{Envelope};
    ghost use Rattle.mpi_model.specs.Ranges.{IsReceive};

    ghost Value = { Envelope };

    ghost view = { λ e. e.inner };

    ghost invariant = { λ e. IsReceive e.inner };

    ghost inverse = { λ e. record { inner = e } };
}

impl ReceiveEnvelope {
    /// The envelope; `None` if a receive can't have it, because a value is out of its range.
    pub fn new(inner: Envelope) -> Option<ReceiveEnvelope>
        ensures { SomeIff result (IsReceive inner) inner }
    {
        if can_be_received(inner) {
            Some(ReceiveEnvelope {
                inner: Packed::pack(inner),
            })
        } else {
            None
        }
    }

    /// Tells the range of the envelope's values. It does nothing: it is for proofs.
    pub fn known(self)
        ensures { IsReceived self }
    {
        let _inner = self.inner.unpack();
    }

    /// The envelope with its fields, as [`new`](Self::new) took it.
    pub fn envelope(self) -> Envelope
        ensures value { result ≡ self }
        ensures range { IsReceive result }
    {
        self.inner.unpack()
    }
}

/// Whether it may be the envelope of a receive: each value is in its range.
fn can_be_received(envelope: Envelope) -> bool
    ensures { IsTrue result ↔ IsReceive envelope }
{
    matches!(
        envelope.peer,
        Peer::Any | Peer::Null | Peer::Rank(0..=0x7FFF_FFFF)
    ) && matches!(envelope.tag, None | Some(0..=0x7FFF_FFFF))
        && matches!(envelope.comm, CommRef::World | CommRef::Id(0..=0x7FFF_FFFF))
        && envelope.count < 0x8000_0000
}
