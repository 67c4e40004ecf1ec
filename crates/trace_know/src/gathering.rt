//! Pieces that come in any order, joined in the order of their places.

ghost use Rattle.std.specs.Prelude.{◌≡◌, IfOk};
ghost use Rattle.std.specs.FinMap.{empty};
ghost use Rattle.std.specs.List.Sorted.{IsPermutation};
ghost use Rattle.trace_know.specs.Trace.{facts_of, facts_of_all, view_of};
ghost use Rattle.trace_know.specs.View.{join};

use crate::knowledge::Knowledge;
use crate::ready_piece::ReadyPiece;
use std::alloc::{AllocError, Global};
use std::marker::Model;

/// As long as fewer events are held back, they wait for more.
const FEW_EVENTS: usize = 131_072;

/// How many events a piece has on average where joining them in any order is cheap.
const LONG_PIECE: usize = 1_024;

/// What pieces say together, in whatever order they come. Short pieces are held back, sorted and joined in the order of
/// their places, so that each is appended to what is known: a million of them cost one sort, where [`Knowledge::take`]
/// would move pointers for each new run. Long pieces are joined once a hundred thousand events are held.
///
/// In a contract it is the view of all that was read.
#[derive(Drop)]
pub struct Gathering {
    alloc: Global,
    know: Knowledge,
    held: Vec<ReadyPiece>,
    /// How many events are held, as far as they can be counted.
    events: usize,
}

impl Model for Gathering {
    ghost use Rattle.std.specs.Coded.{coded_ℕ, coded×};
    ghost use Rattle.std.specs.FinMap as map;
    ghost use Rattle.trace_know.specs.Trace.{facts_of_all, view_of};
    ghost use Rattle.trace_know.specs.View.{View, join};
    ghost use Rattle.trace_know.specs.contracts.cell.Known as known;

    ghost Value = { View };

    ghost coded = { map.code (coded× coded_ℕ coded_ℕ) known.the_row.coded };

    ghost view = { λ g. join g.know (view_of (facts_of_all g.held.items)) };
}

impl Gathering {
    /// A gathering that has read nothing. Takes no memory.
    pub fn new(alloc: Global) -> Gathering
        ensures { result ≡ empty }
    {
        Gathering {
            alloc,
            know: Knowledge::new(alloc),
            held: Vec::new(alloc),
            events: 0,
        }
    }

    /// The gathering with one more piece. On an error the gathering is lost. Fails with `AllocError` when memory is
    /// refused.
    pub fn reading(self, piece: ReadyPiece) -> Result<Gathering, AllocError>
        ensures { IfOk result (λ g. g ≡ join self (view_of (facts_of piece))) }
    {
        let more = self.holding(piece)?;
        if more.is_due() {
            return more.joined();
        }
        Ok(more)
    }

    /// The join of all that was read. Fails with `AllocError` when memory is refused.
    pub fn into_knowledge(self) -> Result<Knowledge, AllocError>
        ensures { IfOk result (λ know. know ≡ self) }
    {
        join_all(self.know, self.held)
    }

    /// Holds one piece more.
    fn holding(self, piece: ReadyPiece) -> Result<Gathering, AllocError>
        ensures { IfOk result (λ g. g ≡ join self (view_of (facts_of piece))) }
    {
        let events = self.events.saturating_add(piece.count());
        let mut held = self.held;
        held.push(piece)?;
        Ok(Gathering {
            alloc: self.alloc,
            know: self.know,
            held,
            events,
        })
    }

    /// Whether many events are held, in pieces that are long on average.
    fn is_due(&self) -> bool {
        self.events >= FEW_EVENTS && self.events / LONG_PIECE >= self.held.len()
    }

    /// The same with nothing held.
    fn joined(self) -> Result<Gathering, AllocError>
        ensures { IfOk result (λ g. g ≡ self) }
    {
        let alloc = self.alloc;
        Ok(Gathering {
            alloc,
            know: self.into_knowledge()?,
            held: Vec::new(alloc),
            events: 0,
        })
    }
}

/// What is known with these pieces, which are joined in the order of their places.
fn join_all(know: Knowledge, pieces: Vec<ReadyPiece>) -> Result<Knowledge, AllocError>
    ensures { IfOk result (λ all. all ≡ join know (view_of (facts_of_all pieces.items))) }
{
    let sorted = by_place(pieces)?;
    join_each(know, sorted)
}

/// The pieces in the order of their ranks and first places.
fn by_place(pieces: Vec<ReadyPiece>) -> Result<Vec<ReadyPiece>, AllocError>
    ensures { IfOk result (λ sorted. IsPermutation pieces.items sorted.items) }
{
    let mut sorted = pieces;
    sorted.sort_by_key(|piece| (piece.rank(), piece.first_place()))?;
    Ok(sorted)
}

/// What is known with these pieces, one after another.
fn join_each(know: Knowledge, pieces: Vec<ReadyPiece>) -> Result<Knowledge, AllocError>
    ensures { IfOk result (λ all. all ≡ join know (view_of (facts_of_all pieces.items))) }
{
    let mut all = know;
    for piece in pieces {
        all.take_piece(piece)?;
    }
    Ok(all)
}
