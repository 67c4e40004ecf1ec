//! What stands in front of a window.

ghost use Rattle.std.specs.Prelude.{◌≡◌, IfErr, IfOk, OnErr, OnOk};
ghost use Rattle.std.specs.Int.{w32};
ghost use Rattle.mpi_model.specs.Side.{LeavesSide};
ghost use Rattle.trace_wire.specs.Cells.{place_form};
ghost use Rattle.trace_wire.specs.Forms.{number_at};
ghost use Rattle.trace_wire.specs.Outcomes.{Fails};
ghost use Rattle.trace_wire.specs.Parts.{known_at, next_count, next_known, next_place};
ghost use Rattle.trace_wire.specs.Readers.{Finds, Misses};
ghost use Rattle.trace_wire.specs.Reading.{TakesAtMost};
ghost use Rattle.trace_wire.specs.Windows.{Passes};

use crate::read::cells::{fault_of, known_of, place_of};
use crate::read::field::{FieldFault, u32_of};
use crate::read::filling::{ready, widen};
use crate::read::unread::Unread;
use crate::read::window::Window;
use mpi_model::Read;
use std::alloc::Global;
use trace_know::Known;

// ---- in front of what is held

/// A number of four bytes.
#[inline(always)]
fn held_u32(window: &mut Window) -> Result<u32, FieldFault>
    ensures ok { IfOk result (Passes window.old window.new (number_at w32)) }
    ensures err { IfErr result (λ fault. Fails fault (number_at w32 window.old.bytes)) }
    ensures kept { OnErr result (window.new ≡ window.old) }
{
    match u32_of(window.held()) {
        Ok(found) => {
            let (number, rest) = found;
            let left = rest.len();
            window.keep(left);
            Ok(number)
        }
        Err(fault) => Err(fault),
    }
}

/// A rank and a place.
#[inline(always)]
fn held_place(window: &mut Window) -> Result<(u32, u64), FieldFault>
    ensures ok { IfOk result (Passes window.old window.new place_form.read) }
    ensures err { IfErr result (λ fault. Fails fault (place_form.read window.old.bytes)) }
    ensures kept { OnErr result (window.new ≡ window.old) }
{
    match place_of(window.held()) {
        Ok(found) => {
            let (here, rest) = found;
            let left = rest.len();
            window.keep(left);
            Ok(here)
        }
        Err(fault) => Err(fault),
    }
}

/// What stands at a place.
#[inline(always)]
fn held_known(alloc: Global, window: &mut Window, place: u64) -> Result<Known, FieldFault>
    ensures ok { IfOk result (Passes window.old window.new (known_at place)) }
    ensures err { IfErr result (λ fault. Fails fault (known_at place window.old.bytes)) }
    ensures kept { OnErr result (window.new ≡ window.old) }
{
    match known_of(alloc, place, window.held()) {
        Ok(found) => {
            let (known, rest) = found;
            let left = rest.len();
            window.keep(left);
            Ok(known)
        }
        Err(fault) => Err(fault),
    }
}

// ---- in front of what is left

/// A number of four bytes.
pub(crate) fn next_u32<R: Read>(reader: &mut R, window: &mut Window) -> Result<u32, Unread>
    ensures ok { IfOk result (Finds R.left reader.old reader.new window.old window.new next_count) }
    ensures no_failure { OnOk result (R.failures reader.new ≡ R.failures reader.old) }
    ensures err { IfErr result (Misses R.left R.failures reader.old reader.new window.old window.new next_count) }
    ensures taken { TakesAtMost window.old.coming (R.left reader.old) (R.left reader.new) }
    ensures beside { LeavesSide (R.write_side reader.old) (R.write_side reader.new) }
{
    match ready(reader, window) {
        Ok(()) => {}
        Err(fault) => return Err(Unread::Device(fault)),
    }
    match held_u32(window) {
        Ok(number) => Ok(number),
        Err(fault) => Err(Unread::Payload(fault_of(fault))),
    }
}

/// A rank and a place.
pub(crate) fn next_place<R: Read>(reader: &mut R, window: &mut Window) -> Result<(u32, u64), Unread>
    ensures ok { IfOk result (Finds R.left reader.old reader.new window.old window.new next_place) }
    ensures no_failure { OnOk result (R.failures reader.new ≡ R.failures reader.old) }
    ensures err { IfErr result (Misses R.left R.failures reader.old reader.new window.old window.new next_place) }
    ensures taken { TakesAtMost window.old.coming (R.left reader.old) (R.left reader.new) }
    ensures beside { LeavesSide (R.write_side reader.old) (R.write_side reader.new) }
{
    match ready(reader, window) {
        Ok(()) => {}
        Err(fault) => return Err(Unread::Device(fault)),
    }
    match held_place(window) {
        Ok(here) => Ok(here),
        Err(fault) => Err(Unread::Payload(fault_of(fault))),
    }
}

/// What stands at a place. Where what is held does not suffice, twice as much is held then, until it does.
#[inline(always)]
pub(crate) fn next_known<R: Read>(
    alloc: Global,
    reader: &mut R,
    window: &mut Window,
    place: u64,
) -> Result<Known, Unread>
    ensures ok { IfOk result (Finds R.left reader.old reader.new window.old window.new (next_known place)) }
    ensures no_failure { OnOk result (R.failures reader.new ≡ R.failures reader.old) }
    ensures err { IfErr result (Misses R.left R.failures reader.old reader.new window.old window.new (next_known place)) }
    ensures taken { TakesAtMost window.old.coming (R.left reader.old) (R.left reader.new) }
    ensures beside { LeavesSide (R.write_side reader.old) (R.write_side reader.new) }
{
    match ready(reader, window) {
        Ok(()) => {}
        Err(fault) => return Err(Unread::Device(fault)),
    }
    loop {
        match held_known(alloc, window, place) {
            Ok(known) => return Ok(known),
            Err(FieldFault::Content) if window.coming() > 0 => {
                match widen(reader, window) {
                    Ok(()) => {}
                    Err(fault) => return Err(Unread::Device(fault)),
                }
            }
            Err(fault) => return Err(Unread::Payload(fault_of(fault))),
        }
    }
}
