//! The laws of frames, as the contract of a call that does nothing.

ghost use Rattle.std.specs.Prelude.{◌≡◌, ℕ, List, [], ◌++◌, None, Ok, Err};
ghost use Rattle.std.specs.FinMap.{entries};
ghost use Rattle.trace_know.specs.View.{View};
ghost use Rattle.trace_wire.specs.declared.fault.WireFault.{WireFault};
ghost use Rattle.trace_wire.specs.declared.version.Version.{Version};
ghost use Rattle.trace_wire.specs.Cells.{AreCells, Entry};
ghost use Rattle.trace_wire.specs.FirstFault.{frame_at};
ghost use Rattle.trace_wire.specs.Forms.{IsBytes};
ghost use Rattle.trace_wire.specs.Frames.{BeginsWithFrame, HasFrame, HasFrameAs, frame_as};
ghost use Rattle.trace_wire.specs.Runs.{AreRuns, PlacedRun, cells_in, runs_of};

use trace_know::join_laws;

/// The laws of frames of both versions.
pub fn frame_laws()
    // What is read is spelled so, in one of the versions, and what is spelled so is read, whatever follows.
    ensures read { (bytes rest : List ℕ) (es : List Entry) → IsBytes bytes → frame_at bytes ≡ Ok (es, rest)
        → BeginsWithFrame bytes es rest }
    ensures again { (version : Version) (es : List Entry) (rest : List ℕ) → HasFrameAs version es
        → frame_at (frame_as version es ++ rest) ≡ Ok (es, rest) }

    // If the bytes begin with a frame, nothing is refused.
    ensures refused { (version : Version) (bytes rest : List ℕ) (es : List Entry) (fault : WireFault) → HasFrameAs version es
        → bytes ≡ frame_as version es ++ rest → frame_at bytes ≡ Err fault → ⊥ }

    // No frame of a version begins another of that version or of the other, and a byte string is the frame of at most
    // one list of cells, so of one view.
    ensures one { (one other : Version) (es fs : List Entry) (more : List ℕ) → HasFrameAs one es → HasFrameAs other fs
        → frame_as other fs ≡ frame_as one es ++ more → (other ≡ one) × (fs ≡ es) × (more ≡ []) }
    ensures views { (one other : Version) (v w : View) → HasFrameAs one (entries v) → HasFrameAs other (entries w)
        → frame_as one (entries v) ≡ frame_as other (entries w) → v ≡ w }

    // Knowledge that has a frame of some version has one of version 2.
    ensures second { (version : Version) (es : List Entry) → HasFrameAs version es → HasFrame es }

    // The runs of cells are the only ones that are in order, touch nowhere, and have these cells.
    ensures runs { (es : List Entry) → AreCells None es → AreRuns None (runs_of es) × (cells_in (runs_of es) ≡ es) }
    ensures only { (rs : List PlacedRun) → AreRuns None rs → runs_of (cells_in rs) ≡ rs }
{
    join_laws();
}
