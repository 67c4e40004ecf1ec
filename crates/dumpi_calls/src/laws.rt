//! What holds of walks over whole texts. Each law is the contract of a call that does nothing, so that the check
//! proves it.

ghost use Rattle.dumpi_calls.specs.Whole.{CollectsAll, SegmentsTellAll, TellsOpenLast, WalkTellsEvents};

use dumpi_text::calls_that_return;

/// The calls of a text, as a sink is told them: only the last can lack its exit, so a [`Collect`](crate::Collect) keeps
/// the events of them all.
pub fn whole_texts()
    ensures open_last { TellsOpenLast }
    ensures all { CollectsAll }
    ensures tells { WalkTellsEvents }
{
    calls_that_return();
}

/// The segments of events stand for the facts of these events, and no others.
pub fn whole_segments()
    ensures { SegmentsTellAll }
{}
