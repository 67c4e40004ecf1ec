//! Receives in sets, as the ranks come one after another: what is for a rank behind those that have some needs no
//! search.

ghost use Rattle.std.specs.Prelude.{◌≡◌, [], true, false, IfNone, IfSome, OnOk};
ghost use Rattle.mpi_model.specs.declared.message.Receive.{Receive};
ghost use Rattle.trace_ops.specs.Order.{Has};
ghost use Rattle.trace_pair.specs.Indexed.{IsFirstReceive};
ghost use Rattle.trace_pair.specs.Queues.{NoneFits, SomeFits};
ghost use Rattle.trace_pair.specs.Sets.{AddsTo, DropsFrom};

use crate::queues::Receives;
use mpi_model::{Message, Receive};
use std::alloc::{AllocError, Global};
use std::marker::Model;

/// A set of receives, and a bound that the ranks which posted them are below.
#[derive(Drop)]
pub(crate) struct RankedReceives {
    alloc: Global,
    set: Receives,
    below: u64,
}

impl Model for RankedReceives {
    ghost use Rattle.std.specs.Prelude.{List};
    ghost use Rattle.mpi_model.specs.declared.message.Receive.{Receive};
    ghost use Rattle.trace_pair.specs.Queues.{AreBelow};

    ghost Value = { List Receive };

    ghost view = { λ s. s.set };

    ghost invariant = { λ s. AreBelow s.below s.set };
}

impl RankedReceives {
    /// An empty set of receives. It takes no memory.
    pub(crate) fn empty(alloc: Global) -> RankedReceives
        ensures { result ≡ [] }
    {
        RankedReceives {
            alloc,
            set: Receives::empty(alloc),
            below: 0,
        }
    }

    /// Whether one of them may be of the rank.
    pub(crate) fn may_be_of(&self, rank: u32) -> bool
        ensures { result ≡ false → (q : Receive) → Has self.now q → q.at ≡ rank → ⊥ }
    {
        (rank as u64) < self.below
    }

    /// Puts a receive in. After an error the contents are unspecified.
    pub(crate) fn insert(&mut self, q: Receive) -> Result<(), AllocError>
        ensures { OnOk result (AddsTo self.old self.new q) }
    {
        self.below = self.below.max(q.at as u64 + 1);
        match self.set.insert(q) {
            Ok(()) => Ok(()),
            Err(error) => {
                self.set = Receives::empty(self.alloc);
                Err(error)
            }
        }
    }

    /// Takes a receive out.
    pub(crate) fn remove(&mut self, q: &Receive)
        ensures { DropsFrom self.old self.new q.now }
    {
        self.set.remove(q);
    }

    /// Whether the envelope of one of the receives fits the message's.
    pub(crate) fn fits_some(&self, m: &Message) -> bool
        ensures yes { result ≡ true → SomeFits self.now m.now }
        ensures no { result ≡ false → NoneFits self.now m.now }
    {
        self.set.fits_some(m)
    }

    /// The first receive whose envelope fits the message's.
    pub(crate) fn first_for(&self, m: &Message) -> Option<Receive>
        ensures some { IfSome result (IsFirstReceive self.now m.now) }
        ensures none { IfNone result (NoneFits self.now m.now) }
    {
        self.set.first_for(m)
    }
}
