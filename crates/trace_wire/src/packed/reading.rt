//! Reading packed knowledge from a device.

ghost use Rattle.std.specs.Prelude.{◌≡◌, ◌<◌, ◌-◌, ◌^◌, ℕ, None, Ok, true, false, IfErr, IfOk, IfSome, OnOk};
ghost use Rattle.std.specs.FinMap.{entries};
ghost use Rattle.std.specs.Io.KnownBytes.{IsAtEnd};
ghost use Rattle.mpi_model.specs.Side.{LeavesSide};
ghost use Rattle.trace_wire.specs.Packed.{HasOther, IsOfRanks, RefusesNext, RefusesPacked, Unpacks};
ghost use Rattle.trace_wire.specs.Reading.{ReadsFrame};

use crate::fault::WireFault;
use crate::packed::fault::{PackedCause, PackedFault};
use crate::packed::joining::Joining;
use crate::packed::next::next_frame;
use mpi_model::Read;
use std::alloc::Global;
use trace_know::{Knowledge, join_laws, listing_laws};

/// Whether something is known of ranks below a number alone. The cells go by rank, so the last one tells.
fn is_of_ranks(know: &Knowledge, ranks: u32) -> bool
    ensures of { result ≡ true → IsOfRanks ranks know.now }
    ensures other { result ≡ false → HasOther ranks know.now }
{
    listing_laws();
    let count = know.count();
    if count == 0 {
        return true;
    }
    match know.cell_at(count - 1) {
        Some((rank, _, _)) => rank < ranks,
        None => true,
    }
}

/// Reads one frame more, of ranks below a number, or answers that no byte is left.
fn next_of_ranks<R: Read>(
    alloc: Global,
    reader: &mut R,
    ranks: u32,
) -> Result<Option<Knowledge>, PackedCause>
    ensures ok { IfOk result (λ o. IfSome o (λ k. ReadsFrame (R.left reader.old) (R.left reader.new) (entries k))) }
    ensures of { IfOk result (λ o. IfSome o (λ k. IsOfRanks ranks k)) }
    ensures end { result ≡ Ok None → IsAtEnd (R.left reader.old) }
    ensures no_failure { OnOk result (R.failures reader.new ≡ R.failures reader.old) }
    ensures err { IfErr result (RefusesNext ranks (R.left reader.old) (R.failures reader.old) (R.failures reader.new)) }
    ensures beside { LeavesSide (R.write_side reader.old) (R.write_side reader.new) }
{
    let know = match next_frame(alloc, reader) {
        Ok(Some(know)) => know,
        Ok(None) => return Ok(None),
        Err(fault) => return Err(PackedCause::Wire(fault)),
    };
    if !is_of_ranks(&know, ranks) {
        return Err(PackedCause::Rank);
    }
    Ok(Some(know))
}

/// Reads frames up to the end of the device, one by one, and joins what they say. There has to be at least one, and all
/// have to be of ranks below a number. At the first frame that is refused the reading ends, and nothing is kept.
///
/// Frames may be of either version, in any order, and may repeat a place.
pub fn read_frames<R: Read>(
    alloc: Global,
    reader: &mut R,
    ranks: u32,
) -> Result<Knowledge, PackedFault>
    ensures ok { IfOk result (λ k. Unpacks ranks (R.left reader.old) k) }
    ensures of { IfOk result (λ k. IsOfRanks ranks k) }
    ensures no_failure { OnOk result (R.failures reader.new ≡ R.failures reader.old) }
    ensures err { IfErr result (RefusesPacked ranks (R.left reader.old) (R.failures reader.old) (R.failures reader.new)) }
    ensures beside { LeavesSide (R.write_side reader.old) (R.write_side reader.new) }
{
    join_laws();
    let mut all = Joining::new(alloc);
    for frame in 0..u64::MAX {
        let know = match next_of_ranks(alloc, reader, ranks) {
            Ok(Some(know)) => know,
            Ok(None) if frame == 0 => return Err(refused(frame, WireFault::Short)),
            Ok(None) => return known(all, frame),
            Err(cause) => return Err(PackedFault { frame, cause }),
        };
        all = match all.taking(know) {
            Ok(more) => more,
            Err(_) => return Err(refused(frame, WireFault::Memory)),
        };
    }
    Err(refused(u64::MAX, WireFault::Length))
}

/// The fault of a frame.
fn refused(frame: u64, fault: WireFault) -> PackedFault
    ensures { result ≡ record { frame = frame; cause = PackedCause.Wire fault } }
{
    PackedFault {
        frame,
        cause: PackedCause::Wire(fault),
    }
}

/// All that was read, after so many frames.
fn known(all: Joining, frame: u64) -> Result<Knowledge, PackedFault>
    ensures ok { IfOk result (λ k. k ≡ all) }
    ensures err { IfErr result (λ fault. fault ≡ record { frame = frame; cause = PackedCause.Wire WireFault.Memory }) }
{
    match all.into_knowledge() {
        Ok(know) => Ok(know),
        Err(_) => Err(refused(frame, WireFault::Memory)),
    }
}
