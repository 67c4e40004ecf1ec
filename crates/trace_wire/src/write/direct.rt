//! A sink that hands all bytes to the device at once.

ghost use Rattle.std.specs.Prelude.{[]};

use crate::write::sink::Sink;
use mpi_model::{Write, write_all};

/// Hands bytes to the device, until a write fails.
#[derive(Drop)]
pub(crate) struct Direct<'a, W: Write> {
    pub writer: &'a mut W,
    pub failed: bool,
}

impl<'a, W: Write> Sink for Direct<'a, W> {
    ghost use Rattle.std.specs.Prelude.{[]};

    ghost page = { λ d. record { lent = d.writer.ghost_name; out = W.written d.writer.now; failures = W.failures d.writer.now; side = W.read_side d.writer.now; pending = []; failed = d.failed } };

    #[inline(never)]
    fn put(&mut self, bytes: &[u8]) {
        if !self.failed {
            match write_all(self.writer, bytes) {
                Ok(()) => {}
                Err(fault) => {
                    let _written = fault.written;
                    self.failed = true;
                }
            }
        }
    }

    fn put_after_flush(&mut self, bytes: &[u8]) {
        self.put(bytes);
    }

    fn flush(&mut self) {}
}
