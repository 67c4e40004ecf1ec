//! The readable events of a rank, where they stand.

ghost use Rattle.std.specs.Prelude.{◌≡◌, ◌+◌, ◌++◌, ◌<◌, [], Some, length, slice_get, slice_index_or};
ghost use Rattle.trace_know.specs.Readable.{readable_among};
ghost use Rattle.trace_know.specs.Runs.{IsCounted};

use crate::cell::Known;
use crate::run::Run;
use mpi_model::Event;
use std::alloc::AllocError;
use std::marker::Model;

/// The cell at an index of a list that stands in two pieces.
#[inline(always)]
fn cell_at<'a>(front: &'a [Known], back: &'a [Known], i: usize) -> &'a Known
    requires { i < length front.now + length back.now }
    ensures { result.now ≡ slice_index_or (front.now ++ back.now) i result.now }
{
    if i < front.len() {
        &front[i]
    } else {
        &back[i - front.len()]
    }
}

/// The readable events of a rank, in order. They stay where they stand, and it takes no memory.
#[derive(Drop)]
pub struct Readable<'a> {
    /// The cells of the rank from place 0 on, which may stand in two pieces.
    front: &'a [Known],
    back: &'a [Known],
    /// How many of them stand before the first at which a readable prefix ends.
    sound: usize,
}

impl<'a> Model for Readable<'a> {
    ghost use Rattle.std.specs.Prelude.{◌≡◌, ◌++◌, List};
    ghost use Rattle.std.specs.Coded.{coded_list};
    ghost use Rattle.mpi_model.specs.declared.event.Event.{Event};
    ghost use Rattle.mpi_model.specs.contracts.event.Event as event;
    ghost use Rattle.trace_know.specs.Readable.{readable_among};
    ghost use Rattle.trace_know.specs.Runs.{sound_among};

    ghost Value = { List Event };

    ghost coded = { coded_list event.the_row.coded };

    ghost view = { λ r. readable_among (r.front.now ++ r.back.now) };

    ghost invariant = { λ r. r.sound ≡ sound_among (r.front.now ++ r.back.now) };
}

impl<'a> Clone for Readable<'a> {
    ghost use Rattle.std.specs.Prelude.{◌≡◌};

    ghost is_clone = { λ a b. b ≡ a };

    fn clone(&self) -> Result<Readable<'a>, AllocError> {
        Ok(Readable {
            front: self.front,
            back: self.back,
            sound: self.sound,
        })
    }
}

impl<'a> Readable<'a> {
    /// An empty list: nothing is readable.
    pub(crate) fn nothing() -> Readable<'a>
        ensures { result ≡ [] }
    {
        Readable {
            front: &[],
            back: &[],
            sound: 0,
        }
    }

    /// What is readable of a run.
    pub(crate) fn of_run(run: &'a Run) -> Readable<'a>
        requires { IsCounted run.now }
        ensures { result ≡ readable_among run.now.cells.items }
    {
        let (front, back) = run.cells.as_slices();
        Readable {
            front,
            back,
            sound: run.sound,
        }
    }

    /// How many events are readable.
    #[inline(always)]
    pub fn len(&self) -> usize
        ensures { result ≡ length self.now }
    {
        self.sound
    }

    /// The event at a place.
    #[inline(always)]
    pub fn at(&self, place: usize) -> &'a Event
        requires { place < length self.now }
        ensures { slice_get self.now place ≡ Some result.now }
    {
        match cell_at(self.front, self.back, place) {
            Known::One(event) => event,
            Known::Contradiction => unreachable!(),
        }
    }
}
