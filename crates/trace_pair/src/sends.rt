//! The messages of all ranks, one rank behind the other. None is copied: a list of them refers to where they stand.

ghost use Rattle.std.specs.Prelude.{◌≡◌, ◌<◌, ◌++◌, Some, None, IfOk, IfSome, IfNone, OnOk, length, slice_get};
ghost use Rattle.trace_pair.specs.Table.{sends_of};
ghost use Rattle.trace_pair.specs.Waiting.{referred};

use crate::rows::count_sends;
use mpi_model::Message;
use std::alloc::{AllocError, Global};
use std::marker::Model;
use trace_ops::RankOps;

/// All messages, in their order.
#[derive(Drop)]
pub(crate) struct Sends<'a> {
    messages: Vec<&'a Message>,
}

impl<'a> Model for Sends<'a> {
    ghost use Rattle.std.specs.Prelude.{List};
    ghost use Rattle.mpi_model.specs.declared.message.Message.{Message};
    ghost use Rattle.trace_pair.specs.Waiting.{referred};

    ghost Value = { List Message };

    ghost view = { λ s. referred s.messages.items };
}

/// Puts the messages of a rank behind the others.
fn add_sends<'a>(messages: &mut Vec<&'a Message>, own: &'a [Message]) -> Result<(), AllocError>
    ensures { OnOk result (referred messages.new.items ≡ referred messages.old.items ++ own.now) }
{
    for m in own {
        messages.push(m)?;
    }
    Ok(())
}

impl<'a> Sends<'a> {
    /// The messages of all ranks.
    pub(crate) fn of_ops(alloc: Global, ops: &'a [RankOps]) -> Result<Sends<'a>, AllocError>
        ensures { IfOk result (λ sends. sends ≡ sends_of ops.now) }
    {
        let mut messages = Vec::with_capacity(alloc, count_sends(ops))?;
        for own in ops {
            add_sends(&mut messages, own.sends())?;
        }
        Ok(Sends { messages })
    }

    /// How many there are.
    pub(crate) fn len(&self) -> usize
        ensures { result ≡ length self.now }
    {
        self.messages.len()
    }

    /// The allocator of the list's memory.
    pub(crate) fn allocator(&self) -> &Global {
        self.messages.allocator()
    }

    /// The message at a place.
    pub(crate) fn at(&self, place: usize) -> &'a Message
        requires { place < length self.now }
        ensures { slice_get self.now place ≡ Some result.now }
    {
        self.messages[place]
    }

    /// The message at a place, if one stands there.
    pub(crate) fn get(&self, place: usize) -> Option<&'a Message>
        ensures some { IfSome result (λ m. slice_get self.now place ≡ Some m.now) }
        ensures none { IfNone result (slice_get self.now place ≡ None) }
    {
        self.messages.get(place).copied()
    }
}
