//! What a board shows: knowledge with its answer.

ghost use Rattle.std.specs.Prelude.{◌≡◌, ◌↔◌, IsTrue, IfOk, OnOk, OnErr, IsErrOf};
ghost use Rattle.std.specs.FinMap.{empty};
ghost use Rattle.trace_node.specs.Answer.{IsAnswer};
ghost use Rattle.trace_crew.specs.Showing.{IsOf};

use crate::board::fault::PutFault;
use mpi_model::Layout;
use std::alloc::{AllocError, Global};
use std::marker::Model;
use trace_know::Knowledge;
use trace_node::{Answer, Node, SharedAnswer, SharedKnowledge};

/// What was known of the run of a layout, with the answer to it.
///
/// In a contract it is seen as these three. The answer is always that of the other two: a value of
/// this type can't hold another.
#[derive(Drop)]
pub struct Shown<'a> {
    layout: &'a Layout,
    know: SharedKnowledge,
    answer: SharedAnswer,
}

impl<'a> Model for Shown<'a> {
    ghost use Rattle.trace_crew.specs.Codes.{coded_showing};
    ghost use Rattle.trace_crew.specs.Showing.{Showing};

    ghost Value = { Showing };

    ghost coded = { coded_showing };

    ghost use Rattle.trace_node.specs.Answer.{IsAnswer};

    ghost view = { λ s. record { layout = s.layout.now; know = s.know; answer = s.answer } };

    ghost invariant = { λ s. IsAnswer s.layout.now s.know s.answer };
}

impl<'a> Shown<'a> {
    /// What is shown of the run of a layout of which nothing is known. Fails with `AllocError` when memory is refused.
    pub fn nothing(alloc: Global, layout: &'a Layout) -> Result<Shown<'a>, AllocError>
        ensures layout { IfOk result (λ s. s.layout ≡ layout.now) }
        ensures know { IfOk result (λ s. s.know ≡ empty) }
    {
        let node = Node::new(alloc, layout)?;
        match Shown::of(&node) {
            Ok(shown) => Ok(shown),
            Err(PutFault::Memory) => Err(AllocError),
            // a new node has its answer
            Err(PutFault::Stale) => unreachable!(),
        }
    }

    /// What a node knows, with its answer, shared with the node until it knows more. `Stale` comes exactly where the
    /// node is stale, `Memory` where answer or knowledge has as many owners as can be counted.
    pub fn of(node: &Node<'a>) -> Result<Shown<'a>, PutFault>
        ensures ok { IfOk result (λ s. IsOf node.now s) }
        ensures stale { IsErrOf result PutFault.Stale ↔ IsTrue node.now.is_stale }
    {
        let Ok(answer) = node.shared_answer() else {
            return Err(PutFault::Stale);
        };
        let Ok(answer) = answer.try_clone() else {
            return Err(PutFault::Memory);
        };
        let Ok(know) = node.shared_know().try_clone() else {
            return Err(PutFault::Memory);
        };
        Ok(Shown {
            layout: node.layout(),
            know,
            answer,
        })
    }

    /// Replaces what is shown by a node's layout, knowledge and answer. If that is refused, nothing changes.
    pub fn put(&mut self, node: &Node<'a>) -> Result<(), PutFault>
        ensures ok { OnOk result (IsOf node.now self.new) }
        ensures stale { IsErrOf result PutFault.Stale ↔ IsTrue node.now.is_stale }
        ensures err { OnErr result (self.new ≡ self.old) }
    {
        *self = Shown::of(node)?;
        Ok(())
    }

    /// Another owner of the same knowledge and answer. No owner changes what another sees. Fails with `AllocError` when
    /// one of them already has as many owners as can be counted.
    pub fn try_clone(&self) -> Result<Shown<'a>, AllocError>
        ensures { IfOk result (λ copy. copy ≡ self.now) }
    {
        Ok(Shown {
            layout: self.layout,
            know: self.know.try_clone()?,
            answer: self.answer.try_clone()?,
        })
    }

    /// The layout of the run.
    pub fn layout(&self) -> &'a Layout
        ensures { result.now ≡ self.now.layout }
    {
        self.layout
    }

    /// All that was known when it was put.
    pub fn know(&self) -> &Knowledge
        ensures { result.now ≡ self.now.know }
    {
        self.know.get()
    }

    /// The answer to all that was known.
    pub fn answer(&self) -> &Answer
        ensures same { result.now ≡ self.now.answer }
        ensures answer { IsAnswer self.now.layout self.now.know result.now }
    {
        self.answer.get()
    }
}
