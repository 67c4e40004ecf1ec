//! The envelopes of a send and a receive at once.

ghost use Rattle.std.specs.Prelude.{◌≡◌, ◌↔◌, IfOk, IsTrue, SomeIff};
ghost use Rattle.mpi_model.specs.Ranges.{IsReceive, IsSend};
ghost use Rattle.mpi_model.specs.Events.{IsExchanged};

use crate::envelope::packed::Packed;
use crate::envelope::{Envelope, ReceiveEnvelope, SendEnvelope};
use std::alloc::{AllocError, Global};
use std::marker::Model;

/// Two envelopes of one communicator.
#[derive(Clone, Copy)]
struct Both {
    send: Packed,
    receive: Packed,
}

impl Model for Both {
    ghost use Rattle.mpi_model.specs.Ranges.{BothEnvelopes, IsExchange};

    ghost Value = { BothEnvelopes };

    ghost view = { λ e. record { send = e.send; receive = e.receive } };

    ghost invariant = { λ e. IsExchange (record { send = e.send; receive = e.receive }) };

    ghost inverse = { λ e. record { send = e.send; receive = e.receive } };
}

/// The two envelopes of an `MPI_Sendrecv`, which name one communicator (MPI 4.0, 3.10). They stand in memory of their
/// own, since no other call is as long.
#[derive(Drop)]
pub struct Exchange {
    both: Box<Both>,
}

impl Model for Exchange {
    ghost use Rattle.mpi_model.specs.Ranges.{BothEnvelopes};
    ghost use Rattle.mpi_model.specs.contracts.envelope.exchange.Both as flat;

    ghost Value = { BothEnvelopes };

    ghost coded = { flat.the_row.coded };

    ghost view = { λ e. e.both.value };
}

impl Exchange {
    /// The two envelopes; `None` if they name two communicators. Fails with `AllocError` when memory is refused.
    pub fn new(
        alloc: Global,
        send: SendEnvelope,
        receive: ReceiveEnvelope,
    ) -> Result<Option<Exchange>, AllocError>
        ensures { IfOk result (λ made. SomeIff made (send.comm ≡ receive.comm) (record { send = send; receive = receive })) }
    {
        let send = send.envelope();
        let receive = receive.envelope();
        if send.comm != receive.comm {
            return Ok(None);
        }
        let both = Both {
            send: Packed::pack(send),
            receive: Packed::pack(receive),
        };
        Ok(Some(Exchange {
            both: Box::new(alloc, both)?,
        }))
    }

    /// An equal pair of envelopes in memory of its own. Fails with `AllocError` when memory is refused.
    pub fn try_clone(&self) -> Result<Exchange, AllocError>
        ensures { IfOk result (λ e. e ≡ self.now) }
    {
        let alloc = *Box::allocator(&self.both);
        Ok(Exchange {
            both: Box::new(alloc, *self.both)?,
        })
    }

    /// Tells the range of both envelopes' values. It does nothing: it is for proofs.
    pub fn known(&self)
        ensures { IsExchanged self.now }
    {
        let _send = self.both.send.unpack();
        let _receive = self.both.receive.unpack();
    }

    /// The envelope of the message that is sent: its peer is the destination.
    pub fn send(&self) -> Envelope
        ensures value { result ≡ self.now.send }
        ensures range { IsSend result }
    {
        self.both.send.unpack()
    }

    /// The envelope of the message that is received: its peer is the source.
    pub fn receive(&self) -> Envelope
        ensures value { result ≡ self.now.receive }
        ensures range { IsReceive result }
    {
        self.both.receive.unpack()
    }

    /// Whether the two exchanges are equal in both envelopes.
    pub fn same(&self, other: &Exchange) -> bool
        ensures { IsTrue result ↔ (self.now ≡ other.now) }
    {
        self.send().same(other.send()) && self.receive().same(other.receive())
    }
}
