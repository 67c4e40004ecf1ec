//! The events of a piece whole, however many, as they stand in what is known.

ghost use Rattle.std.specs.Prelude.{◌≡◌, ◌+◌, ◌<◌, ◌≤◌, length, true, IfOk};
ghost use Rattle.trace_know.specs.Ready.{IsReadyPiece, segment_in};
ghost use Rattle.trace_know.specs.Segment.{IsPiece};

use crate::boxed::BoxedRun;
use crate::ready::ReadySegment;
use std::marker::Model;

/// All events of a rank's piece, from the Enter of a call on, in the form in which knowledge keeps them:
/// [`Knowledge::take_piece`](crate::Knowledge::take_piece) only moves a pointer if no known place touches it. A segment
/// has at most [`MOST_EVENTS`](crate::MOST_EVENTS) of them, a piece any number.
///
/// In a contract it is its events, with their rank and their first place.
#[derive(Drop)]
pub struct ReadyPiece {
    run: BoxedRun,
}

impl Model for ReadyPiece {
    ghost use Rattle.trace_know.specs.Ready.{IsReadyPiece, segment_in};
    ghost use Rattle.trace_know.specs.Segment.{PlacedEvents};

    ghost Value = { PlacedEvents };

    ghost view = { λ p. segment_in p.run };

    ghost invariant = { λ p. IsReadyPiece p.run };
}

impl ReadyPiece {
    /// The rank whose events these are.
    pub fn rank(&self) -> u32
        ensures { result ≡ self.now.rank }
    {
        self.run.rank()
    }

    /// The place of the first event, that of an Enter.
    pub fn first_place(&self) -> u64
        ensures { result ≡ self.now.first_place }
    {
        self.run.first()
    }

    /// How many events there are.
    pub fn count(&self) -> usize
        ensures { result ≡ length self.now.events }
    {
        self.run.len()
    }

    /// Tells what holds of every piece. It does nothing: it is for proofs.
    pub fn known(&self)
        ensures { IsPiece self.now }
    {
        let _ = &self.run;
    }

    /// The run of its events, of which [`of_run`](Self::of_run) makes it again.
    pub(crate) fn into_run(self) -> BoxedRun
        ensures ready { IsReadyPiece result }
        ensures piece { segment_in result ≡ self }
    {
        self.run
    }

    /// The piece of this run's events.
    pub(crate) fn of_run(run: BoxedRun) -> ReadyPiece
        requires { IsReadyPiece run }
        ensures { result ≡ segment_in run }
    {
        ReadyPiece { run }
    }
}

/// A segment is a piece that is short enough.
impl From<ReadySegment> for ReadyPiece {
    ghost from_gives = { λ segment piece. piece ≡ segment };

    fn from(segment: ReadySegment) -> ReadyPiece {
        ReadyPiece {
            run: segment.into_piece(),
        }
    }
}
