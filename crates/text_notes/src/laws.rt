//! What holds of walks over whole texts whose calls are noted, as the contract of a call that does nothing.

ghost use Rattle.text_notes.specs.Whole.{CollectsNoted, StopsNoted, TellsLine, TellsNeeded, TellsNoted};

/// A walk into a sink that notes calls keeps the same events as one into a [`Collect`](dumpi_calls::Collect), and stops
/// where that does. Over a whole text it notes what the text says and for what it is looked at again, and the line that the note has for a call is where
/// the call begins.
pub fn noted_texts()
    ensures collects { CollectsNoted }
    ensures stops { StopsNoted }
    ensures tells { TellsNoted }
    ensures needs { TellsNeeded }
    ensures line { TellsLine }
{}
