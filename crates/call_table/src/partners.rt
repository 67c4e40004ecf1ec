//! The pairs of an answer, asked by either end: by a message for its receive, and by a receive for its message.

ghost use Rattle.std.specs.Prelude.{◌≡◌, None, IfOk, IfSome, IfNone, slice_get};
ghost use Rattle.trace_pair.specs.Searched.{AreFoundByBoth, ArePairs, pair_named};
ghost use Rattle.trace_pair.specs.Table.{given_by, taken_by};
ghost use Rattle.call_table.specs.Partners.{IsAnswered};

use mpi_model::OpName;
use std::alloc::{AllocError, Global};
use std::marker::Model;
use trace_node::Answer;
use trace_ops::ops_laws;
use trace_pair::{Pair, PairsByReceive, pairs_are_found};

/// The pairs of an answer, in which each end finds the other by binary search. It takes eight bytes a pair.
#[derive(Drop)]
pub struct Partners<'a> {
    by_receive: PairsByReceive<'a>,
}

impl<'a> Model for Partners<'a> {
    ghost use Rattle.std.specs.Prelude.{List};
    ghost use Rattle.trace_pair.specs.Searched.{ArePairs};
    ghost use Rattle.trace_pair.specs.declared.pair.Pair.{Pair};

    ghost Value = { List Pair };

    ghost view = { λ s. s.by_receive };

    ghost invariant = { λ s. ArePairs s.by_receive };
}

impl<'a> Partners<'a> {
    /// The pairs of an answer, sorted by their receives. Fails with `AllocError` when memory is refused.
    pub fn of_answer(alloc: Global, answer: &'a Answer) -> Result<Partners<'a>, AllocError>
        requires { IsAnswered answer.now }
        ensures { IfOk result (λ made. made ≡ answer.now.pairs) }
    {
        ops_laws();
        pairs_are_found();
        Partners::of_pairs(alloc, answer.pairs())
    }

    /// The same of pairs in order of the message, none of whose calls is in two.
    fn of_pairs(alloc: Global, pairs: &'a [Pair]) -> Result<Partners<'a>, AllocError>
        requires { ArePairs pairs.now }
        ensures { IfOk result (λ made. made ≡ pairs.now) }
    {
        let by_receive = PairsByReceive::of_pairs(alloc, pairs, &[])?;
        Ok(Partners { by_receive })
    }

    /// The pairs, in order of the message.
    pub fn pairs(&self) -> &'a [Pair]
        ensures { result.now ≡ self.now }
    {
        self.by_receive.pairs()
    }

    /// The receive that takes the message of that name; `None` if no pair has it.
    pub fn receive_of(&self, message: OpName) -> Option<OpName>
        ensures { result ≡ taken_by self.now message }
    {
        self.by_receive.receive_of(message)
    }

    /// The message that the receive of that name takes; `None` if no pair has it.
    pub fn message_of(&self, receive: OpName) -> Option<OpName>
        ensures { result ≡ given_by self.now receive }
    {
        self.by_receive.message_of(receive)
    }

    /// The place of the message's pair among the pairs; `None` if no pair has it.
    pub fn place_of(&self, message: OpName) -> Option<usize>
        ensures some { IfSome result (λ place. slice_get self.now place ≡ pair_named self.now message) }
        ensures none { IfNone result (None ≡ pair_named self.now message) }
    {
        self.by_receive.place_of(message)
    }

    /// Tells that each pair stands at both of its ends: its message finds its receive, and its receive finds its
    /// message. It does nothing: it is for proofs.
    pub fn known(&self)
        ensures { AreFoundByBoth self.now }
    {
        pairs_are_found();
        let _pairs = self.by_receive.pairs();
    }
}
