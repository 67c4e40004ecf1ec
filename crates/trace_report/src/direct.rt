//! A sink that hands each text to the device at once.

ghost use Rattle.std.specs.Prelude.{◌≡◌, [], false};

use crate::sink::Sink;
use mpi_model::{Write, write_all};

/// Hands each text to the device, until a write fails. It counts the bytes that the device took.
#[derive(Drop)]
pub(crate) struct Direct<'a, W: Write> {
    pub writer: &'a mut W,
    pub written: u64,
    pub failed: bool,
}

impl<'a, W: Write> Sink for Direct<'a, W> {
    ghost use Rattle.std.specs.Prelude.{[]};
    ghost use Rattle.trace_report.specs.Page.{outlet};

    ghost page = { λ d. record { lent = d.writer.ghost_name; device = outlet (W.written d.writer.now) (W.failures d.writer.now) (W.read_side d.writer.now); pending = []; count = d.written; failed = d.failed } };

    fn put(&mut self, text: &[u8]) {
        if !self.failed {
            match write_all(self.writer, text) {
                Ok(()) => self.written = self.written.saturating_add(text.len() as u64),
                Err(fault) => {
                    self.written = self.written.saturating_add(fault.written as u64);
                    self.failed = true;
                }
            }
        }
    }

    fn flush(&mut self) {}
}
