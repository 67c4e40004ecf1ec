//! What stands in counted lists.

ghost use Rattle.trace_wire.specs.Outcomes.{Reads};
ghost use Rattle.trace_wire.specs.Forms.{Form, signed};
ghost use Rattle.trace_wire.specs.Fields.{element, told};
ghost use Rattle.trace_wire.specs.Sending.{Sends};

use crate::read::field::{FieldFault, signed_of, told_field, u32_of};
use crate::write::field::{put_element, put_i64, put_told};
use crate::write::sink::Sink;
use mpi_model::{Element, Told};

/// What a counted list of a frame can hold.
pub(crate) trait FrameItem: Drop {
    ghost form: { Form Self };

    /// The value at the front of some bytes, and the bytes after it.
    fn read(bytes: &[u8]) -> Result<(Self, &[u8]), FieldFault>
        ensures { Reads (λ x. (x.0, x.1.now)) result (form.read bytes.now) };

    /// Writes the bytes of the value.
    fn put<S: Sink>(&self, out: &mut S)
        ensures { Sends (S.page out.old) (S.page out.new) (form.spell self.now) };
}

impl FrameItem for i64 {
    ghost form = { signed };

    fn read(bytes: &[u8]) -> Result<(i64, &[u8]), FieldFault> {
        signed_of(bytes)
    }

    fn put<S: Sink>(&self, out: &mut S) {
        put_i64(out, *self);
    }
}

impl FrameItem for Told {
    ghost form = { told };

    fn read(bytes: &[u8]) -> Result<(Told, &[u8]), FieldFault> {
        told_field(bytes)
    }

    fn put<S: Sink>(&self, out: &mut S) {
        put_told(out, *self);
    }
}

impl FrameItem for Element {
    ghost form = { element };

    fn read(bytes: &[u8]) -> Result<(Element, &[u8]), FieldFault> {
        let (position, rest) = u32_of(bytes)?;
        let (told, rest) = field!(told_field(rest));
        Ok((Element { position, told }, rest))
    }

    fn put<S: Sink>(&self, out: &mut S) {
        put_element(out, *self);
    }
}
