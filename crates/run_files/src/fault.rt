//! Why a text is no layout, or no manifest.

ghost use Rattle.std.specs.Prelude.{◌≡◌};

use mpi_model::LayoutFault;
use std::alloc::AllocError;
use thiserror::Error;

/// A field of a layout or of a manifest.
#[derive(Clone, Copy, Debug, PartialEq, Eq)]
pub enum Field {
    /// `ranks` of a layout: how many there are.
    Ranks,
    /// `world` of a layout: the id of MPI_COMM_WORLD.
    World,
    /// `sends` of a layout: how sends of standard mode complete.
    Sends,
    /// `comms` of a layout: its communicators, windows and files.
    Comms,
    /// `pieces` of a manifest.
    Pieces,
    /// `nodes` of a manifest: how many nodes the schedule is for.
    Nodes,
    /// `schedule` of a manifest.
    Schedule,
}

/// Why a text is refused: the first cause in this order, except that `Memory` comes whenever memory is refused.
#[derive(Clone, Copy, Debug, PartialEq, Eq, Error)]
pub enum InputFault {
    /// Memory was refused.
    #[error("Memory")]
    Memory,
    /// The bytes are no JSON, or no UTF-8. `serde_json` notices it at this line and column, both from 1; column 0 is
    /// before the line's first byte.
    #[error("M2 Json")]
    Json { line: u64, column: u64 },
    /// This field is missing, of another kind, or out of its range, or a field in it is.
    #[error("M3 Shape")]
    Shape(Field),
    /// The schedule posts a piece that the manifest doesn't list.
    #[error("M4 Piece")]
    Piece,
    /// The schedule posts a packed piece.
    #[error("M5 Packed")]
    Packed,
    /// All fields are there, but they break a rule of layouts.
    #[error("{0}")]
    Layout(LayoutFault),
}

impl From<AllocError> for InputFault {
    ghost use Rattle.run_files.specs.declared.fault.InputFault.TheVariants.{Memory};

    ghost from_gives = { λ _ e. e ≡ Memory };

    fn from(_failed: AllocError) -> InputFault {
        InputFault::Memory
    }
}
