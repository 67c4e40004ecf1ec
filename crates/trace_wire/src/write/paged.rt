//! A sink that gathers short fields, so that the device is called once a page.

use crate::write::direct::Direct;
use crate::write::sink::Sink;
use arrayvec::ArrayVec;
use mpi_model::Write;

/// Holds bytes back until a page is full.
#[derive(Drop)]
pub(crate) struct Paged<'a, W: Write> {
    pub direct: Direct<'a, W>,
    pub page: ArrayVec<u8, 32768>,
}

impl<'a, W: Write> Sink for Paged<'a, W> {
    ghost page = { λ d. record { lent = d.direct.writer.ghost_name; out = W.written d.direct.writer.now; failures = W.failures d.direct.writer.now; side = W.read_side d.direct.writer.now; pending = d.page.items; failed = d.direct.failed } };

    #[inline(always)]
    fn put(&mut self, bytes: &[u8]) {
        if self.page.try_extend_from_slice(bytes).is_err() {
            self.put_after_flush(bytes);
        }
    }

    #[inline(never)]
    fn put_after_flush(&mut self, bytes: &[u8]) {
        self.direct.put(self.page.as_slice());
        self.page.clear();
        if self.page.try_extend_from_slice(bytes).is_err() {
            self.direct.put(bytes);
        }
    }

    fn flush(&mut self) {
        self.direct.put(self.page.as_slice());
        self.page.clear();
    }
}
