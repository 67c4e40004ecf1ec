//! A window, filled from a device.

ghost use Rattle.std.specs.Prelude.{◌≡◌, ◌≤◌, ◌<◌, length, IfErr, OnOk};
ghost use Rattle.mpi_model.specs.Side.{LeavesSide};
ghost use Rattle.trace_wire.specs.Readers.{StaysUnfilled};
ghost use Rattle.trace_wire.specs.Reading.{TakesAtMost, TakesJust};
ghost use Rattle.trace_wire.specs.Windows.{Comes, IsLeft};

use crate::fault::WireFault;
use crate::read::window::Window;
use mpi_model::Read;

/// So many bytes hold nearly every cell.
const ENOUGH: usize = 4096;

/// Reads until so many bytes are held, or all that are left.
#[inline(never)]
pub(crate) fn fill_to<R: Read>(
    reader: &mut R,
    window: &mut Window,
    wanted: usize,
) -> Result<(), WireFault>
    ensures ok { OnOk result (Comes (R.left reader.old) (R.left reader.new) window.old window.new IsLeft) }
    ensures enough { OnOk result (0 < window.new.coming → wanted ≤ length window.new.bytes) }
    ensures no_failure { OnOk result (R.failures reader.new ≡ R.failures reader.old) }
    ensures err { IfErr result (StaysUnfilled R.left R.failures reader.old reader.new window.old.coming) }
    ensures taken { TakesAtMost window.old.coming (R.left reader.old) (R.left reader.new) }
    ensures beside { LeavesSide (R.write_side reader.old) (R.write_side reader.new) }
{
    while window.coming() > 0 && window.held().len() < wanted {
        window.more(reader)?;
    }
    Ok(())
}

/// Reads until the window holds enough for nearly every cell, or all that are left.
#[inline(always)]
pub(crate) fn ready<R: Read>(reader: &mut R, window: &mut Window) -> Result<(), WireFault>
    ensures ok { OnOk result (Comes (R.left reader.old) (R.left reader.new) window.old window.new IsLeft) }
    ensures enough { OnOk result (0 < window.new.coming → ENOUGH ≤ length window.new.bytes) }
    ensures no_failure { OnOk result (R.failures reader.new ≡ R.failures reader.old) }
    ensures err { IfErr result (StaysUnfilled R.left R.failures reader.old reader.new window.old.coming) }
    ensures taken { TakesAtMost window.old.coming (R.left reader.old) (R.left reader.new) }
    ensures beside { LeavesSide (R.write_side reader.old) (R.write_side reader.new) }
{
    if window.held().len() < ENOUGH {
        return fill_to(reader, window, ENOUGH);
    }
    Ok(())
}

/// Reads until twice as much is held and more, or all that is left.
#[inline(never)]
pub(crate) fn widen<R: Read>(reader: &mut R, window: &mut Window) -> Result<(), WireFault>
    ensures ok { OnOk result (Comes (R.left reader.old) (R.left reader.new) window.old window.new IsLeft) }
    ensures less { OnOk result (0 < window.old.coming → window.new.coming < window.old.coming) }
    ensures no_failure { OnOk result (R.failures reader.new ≡ R.failures reader.old) }
    ensures err { IfErr result (StaysUnfilled R.left R.failures reader.old reader.new window.old.coming) }
    ensures taken { TakesAtMost window.old.coming (R.left reader.old) (R.left reader.new) }
    ensures beside { LeavesSide (R.write_side reader.old) (R.write_side reader.new) }
{
    let wanted = window.held().len() * 2 + 1;
    fill_to(reader, window, wanted)
}

/// Reads the rest of the payload, and throws it away.
pub(crate) fn drain<R: Read>(reader: &mut R, window: &mut Window) -> Result<(), WireFault>
    ensures ok { OnOk result (TakesJust window.old.coming (R.left reader.old) (R.left reader.new)) }
    ensures no_failure { OnOk result (R.failures reader.new ≡ R.failures reader.old) }
    ensures err { IfErr result (StaysUnfilled R.left R.failures reader.old reader.new window.old.coming) }
    ensures taken { TakesAtMost window.old.coming (R.left reader.old) (R.left reader.new) }
    ensures beside { LeavesSide (R.write_side reader.old) (R.write_side reader.new) }
{
    while window.coming() > 0 {
        window.keep(0);
        window.more(reader)?;
    }
    Ok(())
}
