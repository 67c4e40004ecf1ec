//! A sink that gathers short texts, so that the device is called once a page.

ghost use Rattle.std.specs.Prelude.{◌≡◌, []};
ghost use Rattle.trace_report.specs.Page.{Prints};

use crate::direct::Direct;
use crate::sink::Sink;
use arrayvec::ArrayVec;
use mpi_model::Write;

/// The bytes of a page.
pub(crate) const PAGE: usize = 4096;

/// Holds texts back until a page is full.
#[derive(Drop)]
pub(crate) struct Paged<'a, W: Write> {
    pub direct: Direct<'a, W>,
    pub page: ArrayVec<u8, PAGE>,
}

impl<'a, W: Write> Sink for Paged<'a, W> {
    ghost use Rattle.trace_report.specs.Page.{outlet};

    ghost page = { λ d. record { lent = d.direct.writer.ghost_name; device = outlet (W.written d.direct.writer.now) (W.failures d.direct.writer.now) (W.read_side d.direct.writer.now); pending = d.page.items; count = d.direct.written; failed = d.direct.failed } };

    fn put(&mut self, text: &[u8]) {
        if self.page.try_extend_from_slice(text).is_err() {
            self.direct.put(self.page.as_slice());
            self.page.clear();
            if self.page.try_extend_from_slice(text).is_err() {
                self.direct.put(text);
            }
        }
    }

    fn flush(&mut self) {
        self.direct.put(self.page.as_slice());
        self.page.clear();
    }
}
