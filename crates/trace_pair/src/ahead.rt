//! What takes each message, read for a few messages at a time: the receives stand far apart, and reads that don't wait
//! for one another take no longer together than one of them.

ghost use Rattle.std.specs.Prelude.{◌≡◌, IfOk};
ghost use Rattle.trace_pair.specs.Waiting.{AreAhead, taker_at};

use crate::pair::Taker;
use crate::takings::Takings;
use std::alloc::{AllocError, Global};
use std::marker::Model;

/// How many are read at a time.
const FEW: usize = 32;

/// What takes each message, of which a few are read, from a place on.
#[derive(Drop)]
pub(crate) struct Ahead<'b, 'a> {
    messages: &'b Takings<'a>,
    from: usize,
    takers: Vec<Option<Taker>>,
}

impl<'b, 'a> Model for Ahead<'b, 'a> {
    ghost use Rattle.trace_pair.specs.Waiting.{AreAhead, Takings};

    ghost Value = { Takings };

    ghost view = { λ s. s.messages.now };

    ghost invariant = { λ s. AreAhead s.messages.now s.from s.takers.items };
}

/// Reads what takes a few messages, from a place on.
#[tactic(auto, using(crate::proofs::Aheads::ahead_more))]
fn read_few(
    messages: &Takings,
    from: usize,
    takers: &mut Vec<Option<Taker>>,
) -> Result<(), AllocError>
    ensures { AreAhead messages.now from takers.new.items }
{
    takers.clear();
    for more in 0..FEW {
        let Some(place) = from.checked_add(more) else {
            return Ok(());
        };
        takers.push(messages.taker_at(place))?;
    }
    Ok(())
}

impl<'b, 'a> Ahead<'b, 'a> {
    /// The state before anything is read.
    pub(crate) fn new(alloc: Global, messages: &'b Takings<'a>) -> Ahead<'b, 'a>
        ensures { result ≡ messages.now }
    {
        Ahead {
            messages,
            from: 0,
            takers: Vec::new(alloc),
        }
    }

    /// Reads on, where what takes the message at a place isn't read yet.
    #[inline(always)]
    pub(crate) fn read(&mut self, place: usize) -> Result<(), AllocError>
        ensures { self.new ≡ self.old }
    {
        if place < self.from || self.takers.len() <= place - self.from {
            self.from = place;
            read_few(self.messages, place, &mut self.takers)?;
        }
        Ok(())
    }

    /// What takes the message at a place, sooner where that is read.
    #[inline(always)]
    pub(crate) fn taker_at(&self, place: usize) -> Option<Taker>
        ensures { result ≡ taker_at self.now place }
    {
        if place < self.from || self.takers.len() <= place - self.from {
            return self.messages.taker_at(place);
        }
        self.takers[place - self.from]
    }
}
