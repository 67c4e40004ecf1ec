//! The couples of an index, found by the name of either call.

ghost use Rattle.std.specs.Prelude.{◌≡◌, [], IfSome, IfNone, OnOk};
ghost use Rattle.trace_ops.specs.Order.{Has};
ghost use Rattle.trace_pair.specs.Indexed.{couple_of};
ghost use Rattle.trace_pair.specs.Coupled.{taker_of, receive_by, IsNew, IsOneMessage, IsOneReceive};
ghost use Rattle.trace_pair.specs.Sets.{AddsTo, DropsFrom, IsSameSet};

use crate::pair::{Couple, Taker};
use crate::slots::{Slot, expect, put_new, reserve, take_at, value_at};
use mpi_model::{Message, OpName, Receive, Trust};
use std::alloc::{AllocError, Global};
use std::marker::Model;

/// A set of couples in which no call is twice. Of the receive it keeps only what its message
/// doesn't tell, so a couple takes two slots of 64 and 72 bytes.
#[derive(Drop)]
pub(crate) struct Couples {
    takers: Vec<Vec<Slot<Taker>>>,
    taken: Vec<Vec<Slot<Message>>>,
}

impl Model for Couples {
    ghost use Rattle.std.specs.Prelude.{List};
    ghost use Rattle.trace_pair.specs.declared.pair.Couple.{Couple};
    ghost use Rattle.trace_pair.specs.Coupled.{AreMutual, couples_in};

    ghost Value = { List Couple };

    ghost view = { λ s. couples_in s.takers.items s.taken.items };

    ghost invariant = { λ s. AreMutual s.takers.items s.taken.items };
}

/// What the receive has beside what its message says.
pub(crate) fn taker_of(q: &Receive) -> Taker
    ensures { result ≡ taker_of q.now }
{
    Taker {
        call: q.name.call,
        part: q.name.part,
        datatype: q.datatype,
        count: q.count,
        any_tag: q.tag.is_none(),
        ended: q.ended,
    }
}

/// The receive that takes the message.
pub(crate) fn receive_by(m: &Message, taker: Taker) -> Receive
    ensures { result ≡ receive_by m.now taker }
{
    Receive {
        name: OpName {
            rank: m.to,
            call: taker.call,
            part: taker.part,
        },
        comm: m.comm,
        at: m.to,
        source: Some(m.from),
        tag: if taker.any_tag { None } else { Some(m.tag) },
        count: taker.count,
        trust: Trust::Sure,
        datatype: taker.datatype,
        ended: taker.ended,
    }
}

impl Couples {
    /// An empty set of couples. It takes no memory.
    pub(crate) fn empty(alloc: Global) -> Couples
        ensures { result ≡ [] }
    {
        Couples {
            takers: Vec::new(alloc),
            taken: Vec::new(alloc),
        }
    }

    /// Adds a couple of two calls; a call that is in one already stays there.
    pub(crate) fn insert(&mut self, c: Couple) -> Result<(), AllocError>
        ensures { OnOk result (IsNew self.old c → AddsTo self.old self.new c) }
    {
        let m = c.message;
        let taker = taker_of(&c.receive);
        let receive = OpName {
            rank: m.to,
            call: taker.call,
            part: taker.part,
        };
        if !put_new(&mut self.takers, m.name, taker)? {
            return Ok(());
        }
        match put_new(&mut self.taken, receive, m) {
            Ok(true) => Ok(()),
            Ok(false) => {
                take_at(&mut self.takers, &m.name);
                Ok(())
            }
            Err(error) => {
                take_at(&mut self.takers, &m.name);
                Err(error)
            }
        }
    }

    /// Takes out a couple of the set: its message by the name of its receive, and then its receive by that of its
    /// message.
    pub(crate) fn remove(&mut self, c: &Couple)
        ensures { Has self.old c.now → DropsFrom self.old self.new c.now }
    {
        match take_at(&mut self.taken, &c.receive.name) {
            Some(m) => {
                take_at(&mut self.takers, &m.name);
            }
            None => (),
        }
    }

    /// Makes room for the couples of so many messages of a rank.
    pub(crate) fn reserve_messages(&mut self, rank: u32, more: usize) -> Result<(), AllocError>
        ensures { IsSameSet self.old self.new }
    {
        reserve(&mut self.takers, rank, more)
    }

    /// Makes room for the couples of so many receives of a rank.
    pub(crate) fn reserve_receives(&mut self, rank: u32, more: usize) -> Result<(), AllocError>
        ensures { IsSameSet self.old self.new }
    {
        reserve(&mut self.taken, rank, more)
    }

    /// Makes room for the message's receive.
    pub(crate) fn expect_message(&mut self, m: &Message) -> Result<(), AllocError>
        ensures { IsSameSet self.old self.new }
    {
        expect(&mut self.takers, &m.name)
    }

    /// Makes room for the message of a receive.
    pub(crate) fn expect_receive(&mut self, q: &Receive) -> Result<(), AllocError>
        ensures { IsSameSet self.old self.new }
    {
        expect(&mut self.taken, &q.name)
    }

    /// The receive that takes the message. It is looked for first at the place `next` among those of
    /// the sender, which is left behind it.
    pub(crate) fn of_message(&self, next: &mut usize, m: &Message) -> Option<Receive>
        ensures some { IfSome result (λ q. IsOneMessage self.now m.now → Has self.now (couple_of m.now q)) }
        ensures none { IfNone result ((q : Receive) → Has self.now (couple_of m.now q) → ⊥) }
    {
        match value_at(&self.takers, next, &m.name) {
            Some(taker) => Some(receive_by(m, taker)),
            None => None,
        }
    }

    /// The message that the receive takes, looked for likewise among those of its rank.
    pub(crate) fn of_receive(&self, next: &mut usize, q: &Receive) -> Option<Message>
        ensures some { IfSome result (λ m. IsOneReceive self.now q.now → Has self.now (couple_of m q.now)) }
        ensures none { IfNone result ((m : Message) → Has self.now (couple_of m q.now) → ⊥) }
    {
        value_at(&self.taken, next, &q.name)
    }
}
