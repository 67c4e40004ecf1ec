//! The functions of calls that are not read, over all texts.

ghost use Rattle.std.specs.Prelude.{◌≡◌, IfOk, OnOk};
ghost use Rattle.std.specs.List.{flat_map};
ghost use Rattle.text_notes.specs.Words.{added, all_added, no_totals, totals_of, unread_of};
ghost use Rattle.text_notes.specs.declared.totals.TheConstants.{MOST_SHOWN};

use crate::function::{UnreadFunction, place_of};
use crate::note::TextNote;
use std::alloc::{AllocError, Global};
use std::marker::Model;

/// How many of a kind are shown.
pub const MOST_SHOWN: usize = 10;

/// The first ten functions of calls that are not read, each with how many such calls there are, and how many there are
/// of others.
#[derive(Drop)]
pub(crate) struct Totals {
    functions: Vec<UnreadFunction>,
    others: u64,
}

impl Model for Totals {
    ghost use Rattle.text_notes.specs.Words.{Totals as TotalParts};

    ghost Value = { TotalParts };

    ghost view = { λ t. record { functions = t.functions.items; others = t.others } };
}

impl Totals {
    /// The calls of no text.
    fn new(alloc: Global) -> Totals
        ensures { result ≡ no_totals }
    {
        Totals {
            functions: Vec::new(alloc),
            others: 0,
        }
    }

    /// The first ten functions that aren't read, each with the number of its calls in all texts.
    pub(crate) fn functions(&self) -> &[UnreadFunction]
        ensures { result.now ≡ self.now.functions }
    {
        self.functions.as_slice()
    }

    /// How many calls of other functions that aren't read there are. The count saturates at the greatest value of its
    /// type.
    pub(crate) fn others(&self) -> u64
        ensures { result ≡ self.now.others }
    {
        self.others
    }

    /// The calls of a function of one text more.
    fn add(&mut self, function: &UnreadFunction) -> Result<(), AllocError>
        ensures { OnOk result (self.new ≡ added self.old function.now) }
    {
        match place_of(&self.functions, function.name()) {
            Some(at) => self.functions[at].add(function.count()),
            None => {
                if self.functions.len() < MOST_SHOWN {
                    let copy = function.try_clone(*self.functions.allocator())?;
                    self.functions.push(copy)?;
                } else {
                    self.others = self.others.saturating_add(function.count());
                }
            }
        }
        Ok(())
    }

    /// Those of all functions of one text more.
    fn add_all(&mut self, functions: &[UnreadFunction]) -> Result<(), AllocError>
        ensures { OnOk result (self.new ≡ all_added self.old functions.now) }
    {
        for function in functions {
            self.add(function)?;
        }
        Ok(())
    }
}

/// The functions that aren't read, over all texts.
pub(crate) fn totals_of(alloc: Global, notes: &[TextNote]) -> Result<Totals, AllocError>
    ensures { IfOk result (λ totals. totals ≡ totals_of notes.now) }
{
    let mut totals = Totals::new(alloc);
    for note in notes {
        totals.add_all(note.unread())?;
    }
    Ok(totals)
}
