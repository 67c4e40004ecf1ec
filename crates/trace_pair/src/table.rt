//! A table: the pairs and the postponed messages, in order of the message.

ghost use Rattle.std.specs.Prelude.{◌≡◌, IfOk};
ghost use Rattle.trace_ops.specs.Ops.{AreOwn};
ghost use Rattle.trace_pair.specs.Followed.{Follows};
ghost use Rattle.trace_pair.specs.Reach.{AreReachesOf};
ghost use Rattle.trace_pair.specs.Searched.{ArePairs};
ghost use Rattle.trace_pair.specs.Table.{table_of, taken_by};

use crate::by_receive::PairsByReceive;
use crate::matched::Matched;
use crate::near::{place_near, places_near, receive_at};
use crate::pair::Pair;
use crate::reach::RankReach;
use crate::rows::Rows;
use mpi_model::OpName;
use std::alloc::{AllocError, Global};
use std::marker::Model;
use trace_ops::RankOps;

/// The pairs and the postponed messages, in order of the message.
#[derive(Drop)]
pub struct PairTable {
    rows: Rows,
    /// Places of the pairs, nearly in order of the receive. This order is only a guess, from which the sort by the
    /// receive starts.
    near: Vec<u32>,
}

impl Model for PairTable {
    ghost use Rattle.trace_pair.specs.Table.{Table};
    ghost use Rattle.trace_pair.specs.Searched.{ArePairs};

    ghost Value = { Table };

    ghost view = { λ s. s.rows };

    ghost invariant = { λ s. ArePairs s.rows.pairs };
}

impl PairTable {
    /// The table of these rows. The pairs are sorted by receive faster the more of `near` is in that order.
    pub(crate) fn of_rows(rows: Rows, near: Vec<u32>) -> PairTable
        requires { ArePairs rows.pairs }
        ensures { result ≡ rows }
    {
        PairTable { rows, near }
    }

    /// The table of the held ops, for which the state stands.
    pub(crate) fn of_held(
        alloc: Global,
        state: &Matched,
        held: &[RankOps],
        reaches: &[RankReach],
    ) -> Result<PairTable, AllocError>
        requires own { AreOwn 0 held.now }
        requires followed { Follows held.now state.now }
        requires reaches { AreReachesOf held.now reaches.now }
        ensures { IfOk result (λ table. table ≡ table_of held.now) }
    {
        let rows = Rows::of_held(alloc, state, held, reaches)?;
        let near = places_near(alloc, state, held, &rows.pairs)?;
        Ok(PairTable::of_rows(rows, near))
    }

    /// The pairs, in order of the message: by rank, then by call.
    pub fn pairs(&self) -> &[Pair]
        ensures { result.now ≡ self.now.pairs }
    {
        &self.rows.pairs
    }

    /// The messages in no pair that an open receive fits, in their order.
    pub fn postponed(&self) -> &[OpName]
        ensures { result.now ≡ self.now.postponed }
    {
        &self.rows.postponed
    }

    /// The pairs and the postponed messages, moved out.
    pub fn into_rows(self) -> (Vec<Pair>, Vec<OpName>)
        ensures pairs { result.0.items ≡ self.pairs }
        ensures postponed { result.1.items ≡ self.postponed }
    {
        (self.rows.pairs, self.rows.postponed)
    }

    /// The receive that takes the message of that name; `None` if no pair has it. It is found by binary search.
    pub fn receive_of(&self, message: OpName) -> Option<OpName>
        ensures { result ≡ taken_by self.now.pairs message }
    {
        let mut nowhere = usize::MAX;
        self.receive_near(message, &mut nowhere)
    }

    /// As [`receive_of`](Self::receive_of), but it looks at `next` first and then sets it behind the place of the pair.
    /// A caller that asks for messages in their order, with one `next` for all, needs a binary search only for the
    /// first one and for those in no pair.
    pub fn receive_near(&self, message: OpName, place: &mut usize) -> Option<OpName>
        ensures { result ≡ taken_by self.now.pairs message }
    {
        taken_near(&self.rows.pairs, place, &message)
    }

    /// The pairs in order of the receive. Each call sorts them anew, in n log n, or less if they are nearly in order.
    /// Fails with `AllocError` when memory is refused.
    pub fn by_receive(&self, alloc: Global) -> Result<PairsByReceive<'_>, AllocError>
        ensures { IfOk result (λ pairs. pairs ≡ self.now.pairs) }
    {
        let pairs = PairsByReceive::of_pairs(alloc, &self.rows.pairs, &self.near)?;
        Ok(pairs)
    }
}

/// The receive that takes the message of that name, looked for at the place first.
fn taken_near(pairs: &[Pair], place: &mut usize, name: &OpName) -> Option<OpName>
    requires { ArePairs pairs.now }
    ensures { result ≡ taken_by pairs.now name.now }
{
    let found = place_near(pairs, *place, name)?;
    *place = found.saturating_add(1);
    receive_at(pairs, found)
}
