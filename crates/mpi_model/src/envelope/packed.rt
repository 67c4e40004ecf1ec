//! Envelopes in 24 bytes.

ghost use Rattle.std.specs.Prelude.{◌≡◌};
ghost use Rattle.mpi_model.specs.Ranges.{IsReceive, IsSource, IsAskedTag, IsComm};
ghost use Rattle.mpi_model.specs.Events.{IsSigned};
ghost use Rattle.mpi_model.specs.Packing.{peer_of, tag_of, comm_of};

use crate::envelope::{CommRef, Envelope, Peer};
use std::fmt;
use std::marker::Model;

/// Stands for the null process, for any tag and for the world, each where a number would stand: one
/// more than the greatest of those.
const NO_NUMBER: u32 = 0x8000_0000;

/// Stands for every rank, where a rank would stand.
const ANY_RANK: u32 = 0x8000_0001;

/// An envelope with no number above 2^31 - 1, as events hold it: its names are plain numbers, and
/// those from 2^31 on stand for what has none.
#[derive(Clone, Copy, PartialEq, Eq)]
pub struct Packed {
    peer: u32,
    tag: u32,
    comm: u32,
    count: u32,
    datatype: i64,
}

const _: () = prove!(size_of::<Packed>() <= 24);

impl Model for Packed {
    ghost use Rattle.mpi_model.specs.declared.envelope.Envelope.{Envelope};
    ghost use Rattle.mpi_model.specs.Packing.{peer_of, peer_number, peer_number-peer_of, tag_of, tag_number, tag_number-tag_of, comm_of, comm_number, comm_number-comm_of};

    ghost Value = { Envelope };

    ghost view = { λ p. record { peer = peer_of p.peer; tag = tag_of p.tag; comm = comm_of p.comm; count = p.count; datatype = p.datatype } };

    ghost inverse = { λ e. record { peer = peer_number e.peer; tag = tag_number e.tag; comm = comm_number e.comm; count = e.count; datatype = e.datatype } };

    ghost inverse_ok = { λ p _ i. record { peer = peer_number-peer_of p.peer i; tag = tag_number-tag_of p.tag i; comm = comm_number-comm_of p.comm i; count = p.count; datatype = p.datatype } };
}

impl Packed {
    /// The envelope of a send or a receive, packed: no number in it is above 2^31 - 1.
    pub fn pack(envelope: Envelope) -> Packed
        requires { IsReceive envelope }
        ensures { result ≡ envelope }
    {
        Packed {
            peer: peer_number(envelope.peer),
            tag: tag_number(envelope.tag),
            comm: comm_number(envelope.comm),
            count: envelope.count,
            datatype: envelope.datatype,
        }
    }

    /// The envelope that was packed.
    pub fn unpack(self) -> Envelope
        ensures value { result ≡ self }
        ensures signed { IsSigned result.datatype }
    {
        Envelope {
            peer: peer_of(self.peer),
            tag: tag_of(self.tag),
            comm: comm_of(self.comm),
            count: self.count,
            datatype: self.datatype,
        }
    }
}

impl fmt::Debug for Packed {
    fn fmt<W: fmt::Write>(&self, f: &mut fmt::Formatter<W>) -> fmt::Result {
        self.unpack().fmt(f)
    }
}

/// The number of a peer.
fn peer_number(peer: Peer) -> u32
    requires { IsSource peer }
    ensures { peer_of result ≡ peer }
{
    match peer {
        Peer::Any => ANY_RANK,
        Peer::Null => NO_NUMBER,
        Peer::Rank(rank) => rank,
    }
}

/// The peer that a number stands for.
fn peer_of(number: u32) -> Peer
    ensures { result ≡ peer_of number }
{
    match number {
        NO_NUMBER => Peer::Null,
        ANY_RANK => Peer::Any,
        rank => Peer::Rank(rank),
    }
}

/// The number of a tag.
fn tag_number(tag: Option<u32>) -> u32
    requires { IsAskedTag tag }
    ensures { tag_of result ≡ tag }
{
    tag.unwrap_or(NO_NUMBER)
}

/// The tag that a number stands for.
fn tag_of(number: u32) -> Option<u32>
    ensures { result ≡ tag_of number }
{
    match number {
        NO_NUMBER => None,
        tag => Some(tag),
    }
}

/// The number of a communicator.
fn comm_number(comm: CommRef) -> u32
    requires { IsComm comm }
    ensures { comm_of result ≡ comm }
{
    match comm {
        CommRef::World => NO_NUMBER,
        CommRef::Id(number) => number,
    }
}

/// The communicator that a number stands for.
fn comm_of(number: u32) -> CommRef
    ensures { result ≡ comm_of number }
{
    match number {
        NO_NUMBER => CommRef::World,
        id => CommRef::Id(id),
    }
}
