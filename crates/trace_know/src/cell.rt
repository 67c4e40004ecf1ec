//! Cells: what is known of one place.

ghost use Rattle.std.specs.Prelude.{◌≡◌, ◌↔◌, IsTrue};
ghost use Rattle.std.specs.Option.{option_copied};
ghost use Rattle.trace_know.specs.Cell.{shown, put_known, is_contradiction};
ghost use Rattle.trace_know.specs.Prefix.{enters_unread};
ghost use Rattle.trace_know.specs.Runs.{ends_prefix};

use mpi_model::{Call, Event};
use std::alloc::AllocError;

/// What is known of a place where something is known.
#[derive(Drop)]
pub enum Known {
    /// All that reached this place agreed on this event.
    One(Event),
    /// Two different events reached it. No later event clears this.
    Contradiction,
}

impl Clone for Known {
    ghost use Rattle.std.specs.Prelude.{◌≡◌};

    ghost is_clone = { λ a b. b ≡ a };

    fn clone(&self) -> Result<Known, AllocError> {
        Ok(match self {
            Known::One(event) => Known::One(event.try_clone()?),
            Known::Contradiction => Known::Contradiction,
        })
    }
}

impl Known {
    /// Whether both are one equal event, or both a contradiction.
    pub(crate) fn same(&self, other: &Known) -> bool
        ensures { IsTrue result ↔ (self.now ≡ other.now) }
    {
        match (self, other) {
            (Known::One(event), Known::One(held)) => event.same(held),
            (Known::Contradiction, Known::Contradiction) => true,
            _ => false,
        }
    }

    /// Whether events that differ reached the place.
    pub(crate) fn is_contradiction(&self) -> bool
        ensures { result ≡ is_contradiction self.now }
    {
        matches!(self, Known::Contradiction)
    }

    /// Whether a readable prefix ends at the cell.
    pub(crate) fn ends_prefix(&self) -> bool
        ensures { result ≡ ends_prefix self.now }
    {
        match self {
            Known::One(event) => enters_unread(event),
            Known::Contradiction => true,
        }
    }
}

/// What is known of a place of a rank.
#[derive(Clone, Copy)]
pub enum Cell<'a> {
    /// Nothing is known of this place.
    Nothing,
    /// All that came agreed on this event.
    One(&'a Event),
    /// Two different events came.
    Contradiction,
}

/// Whether an unread call was entered.
pub(crate) fn enters_unread(event: &Event) -> bool
    ensures { result ≡ enters_unread event.now }
{
    matches!(event, Event::Enter(Call::Unread, _))
}

/// What is known of a place that has this event, or a contradiction (`None`).
pub(crate) fn known_of(event: Option<Event>) -> Known
    ensures { result ≡ put_known event }
{
    match event {
        Some(event) => Known::One(event),
        None => Known::Contradiction,
    }
}

/// The cell of a place, by what is known of it.
pub(crate) fn cell_of(known: Option<&Known>) -> Cell<'_>
    ensures { shown result ≡ option_copied known.entry }
{
    match known {
        None => Cell::Nothing,
        Some(Known::One(event)) => Cell::One(event),
        Some(Known::Contradiction) => Cell::Contradiction,
    }
}
