//! Cells, read from the bytes of a payload.

ghost use Rattle.std.specs.Prelude.{◌≡◌, ℕ, None, Ok, IfOk, IfErr, true};
ghost use Rattle.std.specs.FinMap.{entries};
ghost use Rattle.trace_know.specs.Cell.{put_known};
ghost use Rattle.trace_know.specs.Placed.{IsPast};
ghost use Rattle.trace_wire.specs.Forms.{IsBytes};
ghost use Rattle.trace_wire.specs.Outcomes.{Reads, Gives, FailsWith, wire_of, IsOfBytes};
ghost use Rattle.trace_wire.specs.Cells.{place_form, is_past};
ghost use Rattle.trace_wire.specs.Parts.{PutsCell, cell, cell_at, known_at, parts_at};

use crate::fault::WireFault;
use crate::read::event::event_of;
use crate::read::field::{FieldFault, byte_of, u32_of, u64_of};
use mpi_model::Event;
use std::alloc::Global;
use trace_know::{Knowledge, Known, PLACES};

/// The fault of a frame that a field's fault is.
pub(crate) fn fault_of(fault: FieldFault) -> WireFault
    ensures value { result ≡ wire_of fault }
    ensures cause { IsOfBytes result }
{
    match fault {
        FieldFault::Memory => WireFault::Memory,
        FieldFault::Content => WireFault::Content,
    }
}

/// What stands at a place.
#[inline(always)]
pub(crate) fn known_of(
    alloc: Global,
    place: u64,
    bytes: &[u8],
) -> Result<(Known, &[u8]), FieldFault>
    ensures { Reads (λ x. (x.0, x.1.now)) result (known_at place bytes.now) }
{
    match bytes {
        [] => Err(FieldFault::Content),
        [0, rest @ ..] => {
            let (event, rest) = field!(event_of(alloc, place, rest));
            Ok((Known::One(event), rest))
        }
        [1, rest @ ..] => Ok((Known::Contradiction, rest)),
        [_, ..] => Err(FieldFault::Content),
    }
}

/// A rank and a place.
pub(crate) fn place_of(bytes: &[u8]) -> Result<((u32, u64), &[u8]), FieldFault>
    ensures { Reads (λ x. (x.0, x.1.now)) result (place_form.read bytes.now) }
{
    let (rank, rest) = u32_of(bytes)?;
    let (place, rest) = u64_of(rest)?;
    Ok(((rank, place), rest))
}

/// Whether a place is past the one before.
pub(crate) fn is_past(before: Option<(u32, u64)>, here: (u32, u64)) -> bool
    ensures { result ≡ is_past before here }
{
    match before {
        None => true,
        Some((rank, place)) => rank < here.0 || (rank == here.0 && place < here.1),
    }
}

/// What is known, as knowledge takes it: an event, or none for a contradiction.
fn event_in(known: Known) -> Option<Event>
    ensures { put_known result ≡ known }
{
    match known {
        Known::One(event) => Some(event),
        Known::Contradiction => None,
    }
}

/// Reads a cell that follows another, and puts it into the knowledge, which knows nothing past that other one.
fn put_cell<'a>(
    alloc: Global,
    knowledge: &mut Knowledge,
    before: Option<(u32, u64)>,
    bytes: &'a [u8],
) -> Result<((u32, u64), &'a [u8]), WireFault>
    requires { (rank place : ℕ) → is_past before (rank, place) ≡ true → IsPast knowledge.old rank place }
    ensures ok { IfOk result (λ x. PutsCell before bytes.now x.0 x.1.now knowledge.old knowledge.new) }
    ensures past { IfOk result (λ x. is_past before x.0 ≡ true) }
    ensures err { IfErr result (λ fault. FailsWith fault (cell_at before bytes.now)) }
    ensures cause { IfErr result IsOfBytes }
{
    are_bytes(bytes);
    let (here, rest) = match place_of(bytes) {
        Ok(found) => found,
        Err(fault) => return Err(fault_of(fault)),
    };
    if !is_past(before, here) {
        return Err(WireFault::Order);
    }
    if here.1 >= PLACES {
        return Err(WireFault::Content);
    }
    let (known, rest) = match known_of(alloc, here.1, rest) {
        Ok(found) => found,
        Err(fault) => return Err(fault_of(fault)),
    };
    match knowledge.put_last(here.0, here.1, event_in(known)) {
        Ok(()) => Ok((here, rest)),
        Err(_) => Err(WireFault::Memory),
    }
}

/// Reads this many cells into knowledge.
#[tactic(auto, using(crate::proofs::PartLoop::ends))]
pub(crate) fn cells_of(
    alloc: Global,
    count: u32,
    bytes: &[u8],
) -> Result<(Knowledge, &[u8]), WireFault>
    ensures value { Gives (λ x. (entries x.0, x.1.now)) result (parts_at cell count None bytes.now) }
    ensures cause { IfErr result IsOfBytes }
{
    let mut knowledge = Knowledge::new(alloc);
    let mut last = None;
    let mut rest = bytes;
    for _ in 0..count {
        let (here, after) = field!(put_cell(alloc, &mut knowledge, last, rest));
        last = Some(here);
        rest = after;
    }
    Ok((knowledge, rest))
}

/// Tells the range of bytes. It does nothing: it is for proofs.
pub(crate) fn are_bytes(bytes: &[u8])
    ensures { IsBytes bytes.now }
{}
