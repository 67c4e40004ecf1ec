//! Which of the requests are told that a call waits for, and in what order.

use crate::source::Source;
use diagnosis_value::Operation;
use mpi_model::{Call, NonblockingCollective, OpName, Peer};
use std::alloc::AllocError;

/// How soon a request is told.
#[derive(Clone, Copy)]
enum Order {
    /// It lacks a partner, and names one of the ranks that are asked for.
    Asked,
    /// It lacks a partner.
    Alone,
    /// It has one, or may have.
    Open,
    /// It names the null process, so it completes at once (MPI 4.0, 3.10).
    Null,
}

/// The peer that a call names, where it names one.
fn peer_of(call: &Call) -> Option<Peer> {
    match call {
        Call::Isend(_, envelope) | Call::SendInit(_, envelope) => Some(envelope.envelope().peer),
        Call::Irecv(envelope) | Call::RecvInit(envelope) => Some(envelope.envelope().peer),
        _ => None,
    }
}

/// Whether an operation names the null process.
fn is_null(operation: &Operation) -> bool {
    let call = match &operation.init {
        Some(init) => &init.call,
        None => &operation.call,
    };
    matches!(peer_of(call), Some(Peer::Null))
}

/// Whether the rank is one of a list in rising order.
fn has(ranks: &[u32], rank: u32) -> bool {
    ranks.binary_search(&rank).is_ok()
}

impl<'a> Source<'a> {
    /// Who receives the message of this name, where nobody has received it.
    fn receiver_of(self, name: OpName) -> Option<u32> {
        let left = self.diagnosis.unmatched.left_over.as_slice();
        match left.binary_search_by_key(&name, |one| one.message.name) {
            Ok(at) => Some(left.get(at)?.message.to),
            Err(_) => None,
        }
    }

    /// From whom the receive of this name takes, where nobody has sent to it: any rank where it names none.
    fn sender_of(self, name: OpName) -> Option<Option<u32>> {
        let starving = self.diagnosis.unmatched.starving.as_slice();
        match starving.binary_search_by_key(&name, |one| one.receive.name) {
            Ok(at) => Some(starving.get(at)?.receive.source),
            Err(_) => None,
        }
    }

    /// Whether the rank has entered a round by a nonblocking call of this function that not all have entered.
    fn is_round_open(self, name: OpName, call: NonblockingCollective) -> bool {
        let object = call.call().object();
        let Some(id) = self.layout.named(name.rank, name.call, object, call.comm()) else {
            return false;
        };
        for open in self.diagnosis.rounds.open.iter() {
            let is_same = open.round.object == id && open.function.name() == call.function().name();
            if is_same && has(open.entered.as_slice(), name.rank) {
                return true;
            }
        }
        false
    }

    /// How soon a request is told where these ranks are asked for.
    fn order_of(self, name: OpName, asked: &[u32]) -> Order {
        if let Some(rank) = self.receiver_of(name) {
            return if has(asked, rank) {
                Order::Asked
            } else {
                Order::Alone
            };
        }
        if let Some(source) = self.sender_of(name) {
            let is_asked = match source {
                Some(rank) => has(asked, rank),
                None => false,
            };
            return if is_asked { Order::Asked } else { Order::Alone };
        }
        let Some(operation) = self.operation(name) else {
            return Order::Open;
        };
        if let Call::Icollective(call) = &operation.call {
            if self.is_round_open(name, *call) {
                return Order::Alone;
            }
        }
        if is_null(operation) {
            Order::Null
        } else {
            Order::Open
        }
    }

    /// The requests of an order, of these.
    fn requests_in(
        self,
        order: Order,
        open: &[OpName],
        asked: &[u32],
        told: &mut Vec<OpName>,
    ) -> Result<(), AllocError> {
        for name in open {
            if self.order_of(*name, asked) == order {
                told.push(*name)?;
            }
        }
        Ok(())
    }

    /// Which open requests are printed: those that lack a partner, with those first that name one of the ranks asked
    /// for. If no request lacks a partner, all but those that name the null process; if there are only such, these.
    /// Fails with `AllocError` when memory is refused.
    pub fn told_requests(self, open: &[OpName], asked: &[u32]) -> Result<Vec<OpName>, AllocError> {
        let mut told = Vec::new(self.alloc);
        self.requests_in(Order::Asked, open, asked, &mut told)?;
        self.requests_in(Order::Alone, open, asked, &mut told)?;
        if told.is_empty() {
            self.requests_in(Order::Open, open, asked, &mut told)?;
        }
        if told.is_empty() {
            self.requests_in(Order::Null, open, asked, &mut told)?;
        }
        Ok(told)
    }
}
