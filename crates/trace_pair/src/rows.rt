//! The rows of a table, as they are found message by message.

ghost use Rattle.std.specs.Prelude.{◌≡◌, ◌++◌, ◌∷◌, [], Some, OnOk, IfOk};
ghost use Rattle.mpi_model.specs.declared.message.Message.{Message};
ghost use Rattle.trace_pair.specs.After.{comes_after};
ghost use Rattle.trace_pair.specs.Followed.{Follows, PutsPair, Postpones, PutsPairs, PostponesAll};
ghost use Rattle.trace_pair.specs.Pairing.{receive_of};
ghost use Rattle.trace_pair.specs.Reach.{AreReachesOf};
ghost use Rattle.trace_pair.specs.Settled.{IsTableOf, PostponesAt, PutsPairAt};
ghost use Rattle.trace_pair.specs.Table.{table_of};

use crate::ahead::Ahead;
use crate::batch::Batch;
use crate::matched::Matched;
use crate::pair::{Pair, make_pair};
use crate::reach::{RankReach, Reaches};
use mpi_model::{Message, OpName};
use std::alloc::{AllocError, Global};
use std::marker::Model;
use trace_ops::RankOps;

/// The pairs and the postponed messages that were found so far.
#[derive(Drop)]
pub(crate) struct Rows {
    pub(crate) pairs: Vec<Pair>,
    pub(crate) postponed: Vec<OpName>,
}

impl Model for Rows {
    ghost use Rattle.trace_pair.specs.Table.{Table};

    ghost Value = { Table };

    ghost view = { λ s. record { pairs = s.pairs.items; postponed = s.postponed.items } };
}

impl Rows {
    /// A table without rows. It takes no memory.
    pub(crate) fn empty(alloc: Global) -> Rows
        ensures { result ≡ table_of [] }
    {
        Rows {
            pairs: Vec::new(alloc),
            postponed: Vec::new(alloc),
        }
    }

    /// The same, with room for so many pairs.
    fn with_room(alloc: Global, pairs: usize) -> Result<Rows, AllocError>
        ensures { IfOk result (λ rows. rows ≡ table_of []) }
    {
        Ok(Rows {
            pairs: Vec::with_capacity(alloc, pairs)?,
            postponed: Vec::new(alloc),
        })
    }

    /// Adds a pair behind the others.
    pub(crate) fn put(&mut self, pair: Pair) -> Result<(), AllocError>
        ensures pairs { OnOk result (self.new.pairs ≡ self.old.pairs ++ pair ∷ []) }
        ensures postponed { self.new.postponed ≡ self.old.postponed }
    {
        self.pairs.push(pair)?;
        Ok(())
    }

    /// Adds a message that is postponed behind the others.
    pub(crate) fn postpone(&mut self, name: OpName) -> Result<(), AllocError>
        ensures pairs { self.new.pairs ≡ self.old.pairs }
        ensures postponed { OnOk result (self.new.postponed ≡ self.old.postponed ++ name ∷ []) }
    {
        self.postponed.push(name)?;
        Ok(())
    }

    /// Adds what the held message is: paired, postponed, or neither. `next` is where its sender's
    /// calls have come to.
    fn add(
        &mut self,
        state: &Matched,
        reaches: &Reaches,
        next: &mut usize,
        m: &Message,
    ) -> Result<(), AllocError>
        ensures pairs { OnOk result (PutsPair (comes_after reaches.now) state.now m.now self.old.pairs self.new.pairs) }
        ensures postponed { OnOk result (Postpones (comes_after reaches.now) state.now m.now
            self.old.postponed self.new.postponed) }
    {
        match state.partner_of(next, m) {
            Some(q) => self.put(make_pair(m, &q))?,
            None => {
                if state.does_open_fit(reaches, m) {
                    self.postpone(m.name)?;
                }
            }
        }
        Ok(())
    }

    /// Adds what the message at a place is.
    fn add_settled<'a>(
        &mut self,
        batch: &Batch<'a>,
        ahead: &Ahead<'_, 'a>,
        reaches: &Reaches,
        place: usize,
        m: &Message,
    ) -> Result<(), AllocError>
        requires { ahead.now ≡ batch.now.messages }
        ensures pairs { OnOk result (PutsPairAt (comes_after reaches.now) batch.now place m.now
            self.old.pairs self.new.pairs) }
        ensures postponed { OnOk result (PostponesAt (comes_after reaches.now) batch.now place m.now
            self.old.postponed self.new.postponed) }
    {
        match batch.receive_of(ahead, place, m) {
            Some(receive) => self.put(make_pair(m, &receive))?,
            None => {
                if batch.does_open_fit(reaches, m) {
                    self.postpone(m.name)?;
                }
            }
        }
        Ok(())
    }

    /// The rows of all messages of a pairing.
    pub(crate) fn of_batch(
        alloc: Global,
        batch: &Batch,
        reaches: &Reaches,
    ) -> Result<Rows, AllocError>
        ensures { IfOk result (IsTableOf (comes_after reaches.now) batch.now) }
    {
        let messages = batch.messages();
        let mut rows = Rows::with_room(alloc, messages.len())?;
        let mut ahead = batch.ahead(alloc);
        for place in 0..messages.len() {
            ahead.read(place)?;
            rows.add_settled(batch, &ahead, reaches, place, messages.at(place))?;
        }
        Ok(rows)
    }

    /// Adds what the held messages of a rank are.
    fn add_all(
        &mut self,
        state: &Matched,
        reaches: &Reaches,
        some: &[Message],
    ) -> Result<(), AllocError>
        ensures pairs { OnOk result (PutsPairs (comes_after reaches.now) state.now some.now self.old.pairs self.new.pairs) }
        ensures postponed { OnOk result (PostponesAll (comes_after reaches.now) state.now some.now
            self.old.postponed self.new.postponed) }
    {
        let mut next = 0;
        for m in some {
            self.add(state, reaches, &mut next, m)?;
        }
        Ok(())
    }

    /// The rows of the held ops.
    pub(crate) fn of_held(
        alloc: Global,
        state: &Matched,
        held: &[RankOps],
        table: &[RankReach],
    ) -> Result<Rows, AllocError>
        requires { AreReachesOf held.now table.now }
        ensures { IfOk result (λ rows. Follows held.now state.now → rows ≡ table_of held.now) }
    {
        let mut rows = Rows::with_room(alloc, count_sends(held))?;
        let reaches = Reaches::new(held, table);
        for own in held {
            rows.add_all(state, &reaches, own.sends())?;
        }
        Ok(rows)
    }
}

/// How many messages there are.
pub(crate) fn count_sends(held: &[RankOps]) -> usize {
    let mut count: usize = 0;
    for ops in held {
        count = count.saturating_add(ops.sends().len());
    }
    count
}
