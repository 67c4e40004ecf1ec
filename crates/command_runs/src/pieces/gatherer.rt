//! What gathers the pieces of a run, one by one.

ghost use Rattle.std.specs.Prelude.{◌≡◌, IfOk};
ghost use Rattle.std.specs.FinMap.{empty};
ghost use Rattle.mpi_model.specs.Layouts.{Parts};
ghost use Rattle.trace_know.specs.Trace.{facts_of, view_of};
ghost use Rattle.trace_know.specs.View.{View, join};

use mpi_model::Layout;
use std::alloc::{AllocError, Global};
use trace_check::Checker;
use trace_know::{Gathering, ReadyPiece};

/// Reads the pieces of a run: for a report they are joined, and for a check an index of the pairs follows each of them
/// too.
pub(crate) trait Gatherer: Drop {
    /// The layout of the run.
    ghost layout: { Self → Parts };

    /// All that is known.
    ghost known: { Self → View };

    /// The gatherer with one more piece. On an error it is lost.
    fn reading(self, piece: ReadyPiece) -> Result<Self, AllocError>
        ensures known { IfOk result (λ g. known g ≡ join (known self) (view_of (facts_of piece))) }
        ensures layout { IfOk result (λ g. layout g ≡ layout self) };
}

/// What is known of the run of a layout, and no more.
#[derive(Drop)]
pub(crate) struct Gathered<'a> {
    pub layout: &'a Layout,
    pub know: Gathering,
}

impl<'a> Gathered<'a> {
    /// A gatherer that has read nothing. It knows nothing of the run of this layout.
    pub(crate) fn new(alloc: Global, layout: &'a Layout) -> Gathered<'a>
        ensures layout { result.layout.now ≡ layout.now }
        ensures know { result.know ≡ empty }
    {
        Gathered {
            layout,
            know: Gathering::new(alloc),
        }
    }
}

impl<'a> Gatherer for Gathered<'a> {
    ghost layout = { λ g. g.layout.now };

    ghost known = { λ g. g.know };

    fn reading(self, piece: ReadyPiece) -> Result<Gathered<'a>, AllocError> {
        Ok(Gathered {
            layout: self.layout,
            know: self.know.reading(piece)?,
        })
    }
}

impl<'a> Gatherer for Checker<'a> {
    ghost layout = { λ c. c.layout };

    ghost known = { λ c. c.know };

    fn reading(self, piece: ReadyPiece) -> Result<Checker<'a>, AllocError> {
        Checker::reading(self, piece)
    }
}
