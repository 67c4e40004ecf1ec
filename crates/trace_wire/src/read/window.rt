//! A payload, read through a window: the device is read piece by piece, and bytes that were read are dropped.

ghost use Rattle.std.specs.Prelude.{◌≡◌, ◌≤◌, ◌<◌, ◌+◌, ◌-◌, ◌^◌, [], length, drop, IfErr, OnOk};
ghost use Rattle.mpi_model.specs.Side.{LeavesSide};
ghost use Rattle.trace_wire.specs.Forms.{IsBytes};
ghost use Rattle.trace_wire.specs.Readers.{StaysUnfilled};
ghost use Rattle.trace_wire.specs.Reading.{TakesAtMost};
ghost use Rattle.trace_wire.specs.Windows.{Comes, IsLeft};

use crate::fault::WireFault;
use crate::read::cells::are_bytes;
use crate::read::input::{PIECE, read_piece};
use mpi_model::Read;
use std::alloc::Global;
use std::marker::Model;

/// What of a payload is not read yet: bytes that are held, and how many are to come from the device.
#[derive(Drop)]
pub(crate) struct Window {
    bytes: Vec<u8>,
    start: usize,
    coming: usize,
}

impl Model for Window {
    ghost use Rattle.std.specs.Prelude.{ℕ, ◌+◌, ◌<◌, ◌≤◌, ◌^◌, length, drop};
    ghost use Rattle.trace_wire.specs.Held.{Held};

    ghost Value = { Held };

    ghost view = { λ w. record { bytes = drop w.start w.bytes.items; coming = w.coming } };

    ghost invariant = { λ w. (w.start ≤ length w.bytes.items) × (length w.bytes.items + w.coming < w.start + 2 ^ 32) };
}

/// Drops the first bytes. If there are none to drop, none is moved: so a long cell isn't moved at each piece.
fn let_go(bytes: &mut Vec<u8>, count: usize)
    requires { count ≤ length bytes.old.items }
    ensures { bytes.new.items ≡ drop count bytes.old.items }
{
    if count == 0 {
        return;
    }
    let len = bytes.len();
    bytes.as_mut_slice().copy_within(count..len, 0);
    bytes.truncate(len - count);
}

impl Window {
    /// A payload of which nothing came yet.
    pub(crate) fn new(alloc: Global, coming: u32) -> Window
        ensures { result ≡ record { bytes = []; coming = coming } }
    {
        Window {
            bytes: Vec::new(alloc),
            start: 0,
            coming: coming as usize,
        }
    }

    /// The bytes that are held.
    #[inline(always)]
    pub(crate) fn held(&self) -> &[u8]
        ensures value { result.now ≡ self.now.bytes }
        ensures bytes { IsBytes self.now.bytes }
        ensures short { length self.now.bytes + self.now.coming < 2 ^ 32 }
    {
        let held = &self.bytes[self.start..];
        are_bytes(held);
        held
    }

    /// How many bytes are to come.
    #[inline(always)]
    pub(crate) fn coming(&self) -> usize
        ensures { result ≡ self.now.coming }
    {
        self.coming
    }

    /// Drops all held bytes but the last ones.
    #[inline(always)]
    pub(crate) fn keep(&mut self, left: usize)
        requires { left ≤ length self.old.bytes }
        ensures { self.new ≡ record { bytes = drop (length self.old.bytes - left) self.old.bytes; coming = self.old.coming } }
    {
        self.start = self.bytes.len() - left;
    }

    /// Reads a piece more, or all that is to come.
    #[inline(never)]
    pub(crate) fn more<R: Read>(&mut self, reader: &mut R) -> Result<(), WireFault>
        ensures ok { OnOk result (Comes (R.left reader.old) (R.left reader.new) self.old self.new IsLeft) }
        ensures less { OnOk result (0 < self.old.coming → self.new.coming < self.old.coming) }
        ensures no_failure { OnOk result (R.failures reader.new ≡ R.failures reader.old) }
        ensures err { IfErr result (StaysUnfilled R.left R.failures reader.old reader.new self.old.coming) }
        ensures taken { TakesAtMost self.old.coming (R.left reader.old) (R.left reader.new) }
        ensures beside { LeavesSide (R.write_side reader.old) (R.write_side reader.new) }
    {
        let count = PIECE.min(self.coming);
        let_go(&mut self.bytes, self.start);
        self.start = 0;
        read_piece(reader, count, &mut self.bytes)?;
        self.coming -= count;
        Ok(())
    }
}
