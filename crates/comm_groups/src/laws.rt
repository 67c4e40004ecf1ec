//! What holds of the parts of a grid, as the contract of a call that does nothing.

ghost use Rattle.comm_groups.specs.Grids.{PartsAgree};

/// Two ranks of a grid are in one part exactly if their coordinates agree in the dimensions that do not remain (MPI
/// 4.0, 8.5).
pub fn parts_agree()
    ensures { PartsAgree }
{}
