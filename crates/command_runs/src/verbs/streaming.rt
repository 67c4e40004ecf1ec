//! How an output is written that is longer than memory should hold: in blocks, as its lines come.

ghost use Rattle.std.specs.Prelude.{◌≡◌, IfErr};
ghost use Rattle.command_runs.specs.Streams.{WritesOn};

use crate::verbs::writing::write_piece;
use mpi_model::Write;
use run_inputs::RunFault;

/// The bytes from which on lines are written.
const FULL: usize = 65_536;

/// Writes what has gathered.
pub(crate) fn write_gathered<W: Write>(lines: &mut Vec<u8>, out: &mut W) -> Result<(), RunFault>
    ensures written { WritesOn result W.written W.failures out.old out.new }
    ensures fault { IfErr result (λ fault. fault ≡ RunFault.Write) }
{
    match write_piece(lines.as_slice(), out) {
        Ok(()) => {
            lines.clear();
            Ok(())
        }
        Err(_) => Err(RunFault::Write),
    }
}

/// Writes what has gathered, where that is a block.
pub(crate) fn write_full<W: Write>(lines: &mut Vec<u8>, out: &mut W) -> Result<(), RunFault>
    ensures written { WritesOn result W.written W.failures out.old out.new }
    ensures fault { IfErr result (λ fault. fault ≡ RunFault.Write) }
{
    if lines.len() < FULL {
        return Ok(());
    }
    write_gathered(lines, out)
}
