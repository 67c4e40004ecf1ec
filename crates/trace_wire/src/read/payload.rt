//! A payload, read through a window.

ghost use Rattle.std.specs.Prelude.{◌≡◌, IfErr, IfOk, OnOk};
ghost use Rattle.std.specs.FinMap.{entries};
ghost use Rattle.mpi_model.specs.Side.{LeavesSide};
ghost use Rattle.trace_wire.specs.declared.version.Version.TheVariants.{One};
ghost use Rattle.trace_wire.specs.FirstFault.{parts_of, payload_of};
ghost use Rattle.trace_wire.specs.Reading.{TakesAtMost};
ghost use Rattle.trace_wire.specs.Readers.{FindsCells, Misses, RefusesPayload};
ghost use Rattle.trace_wire.specs.Windows.{Comes, IsPayloadOf, ReadsPayload};

use crate::fault::WireFault;
use crate::read::cells::cells_of;
use crate::read::filling::{drain, fill_to};
use crate::read::front::next_u32;
use crate::read::runs::runs_of;
use crate::read::unread::Unread;
use crate::read::window::Window;
use crate::version::Version;
use mpi_model::Read;
use std::alloc::Global;
use trace_know::Knowledge;

/// So many cells. All of the payload is held for them.
fn cells_held<R: Read>(
    alloc: Global,
    reader: &mut R,
    window: &mut Window,
    count: u32,
) -> Result<Knowledge, Unread>
    ensures ok { IfOk result (FindsCells R.left reader.old reader.new window.old window.new (parts_of One count)) }
    ensures no_failure { OnOk result (R.failures reader.new ≡ R.failures reader.old) }
    ensures err { IfErr result (Misses R.left R.failures reader.old reader.new window.old window.new (parts_of One count)) }
    ensures taken { TakesAtMost window.old.coming (R.left reader.old) (R.left reader.new) }
    ensures beside { LeavesSide (R.write_side reader.old) (R.write_side reader.new) }
{
    match fill_to(reader, window, usize::MAX) {
        Ok(()) => {}
        Err(fault) => return Err(Unread::Device(fault)),
    }
    match cells_of(alloc, count, window.held()) {
        Ok(found) => {
            let (knowledge, rest) = found;
            let left = rest.len();
            window.keep(left);
            Ok(knowledge)
        }
        Err(fault) => Err(Unread::Payload(fault)),
    }
}

/// So many parts: cells, or runs.
fn read_parts<R: Read>(
    alloc: Global,
    reader: &mut R,
    window: &mut Window,
    version: Version,
    count: u32,
) -> Result<Knowledge, Unread>
    ensures ok { IfOk result (FindsCells R.left reader.old reader.new window.old window.new (parts_of version count)) }
    ensures no_failure { OnOk result (R.failures reader.new ≡ R.failures reader.old) }
    ensures err { IfErr result (Misses R.left R.failures reader.old reader.new window.old window.new (parts_of version count)) }
    ensures taken { TakesAtMost window.old.coming (R.left reader.old) (R.left reader.new) }
    ensures beside { LeavesSide (R.write_side reader.old) (R.write_side reader.new) }
{
    match version {
        Version::One => cells_held(alloc, reader, window, count),
        Version::Two => runs_of(alloc, reader, window, count),
    }
}

/// The parts of a payload, and nothing behind them.
fn read_all<R: Read>(
    alloc: Global,
    reader: &mut R,
    window: &mut Window,
    version: Version,
) -> Result<Knowledge, Unread>
    ensures ok { IfOk result (λ k. Comes (R.left reader.old) (R.left reader.new) window.old window.new (IsPayloadOf version k)) }
    ensures end { OnOk result (window.new.coming ≡ 0) }
    ensures no_failure { OnOk result (R.failures reader.new ≡ R.failures reader.old) }
    ensures err { IfErr result (Misses R.left R.failures reader.old reader.new window.old window.new (payload_of version)) }
    ensures taken { TakesAtMost window.old.coming (R.left reader.old) (R.left reader.new) }
    ensures beside { LeavesSide (R.write_side reader.old) (R.write_side reader.new) }
{
    let count = field!(next_u32(reader, window));
    let knowledge = field!(read_parts(alloc, reader, window, version, count));
    if !window.held().is_empty() || window.coming() > 0 {
        return Err(Unread::Payload(WireFault::Rest));
    }
    Ok(knowledge)
}

/// A payload of so many bytes. Where its bytes are refused, it is read to its end all the same.
pub(crate) fn read_payload<R: Read>(
    alloc: Global,
    reader: &mut R,
    version: Version,
    len: u32,
) -> Result<Knowledge, WireFault>
    ensures ok { IfOk result (λ k. ReadsPayload version len (R.left reader.old) (R.left reader.new) (entries k)) }
    ensures no_failure { OnOk result (R.failures reader.new ≡ R.failures reader.old) }
    ensures err { IfErr result (RefusesPayload R.left R.failures reader.old reader.new version len) }
    ensures taken { TakesAtMost len (R.left reader.old) (R.left reader.new) }
    ensures beside { LeavesSide (R.write_side reader.old) (R.write_side reader.new) }
{
    let mut window = Window::new(alloc, len);
    match read_all(alloc, reader, &mut window, version) {
        Ok(knowledge) => Ok(knowledge),
        Err(Unread::Device(fault)) => Err(fault),
        Err(Unread::Payload(fault)) => {
            drain(reader, &mut window)?;
            Err(fault)
        }
    }
}
