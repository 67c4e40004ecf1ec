//! A reader of which a watcher is told how many bytes it gives.

ghost use Rattle.std.specs.Prelude.{◌≡◌, ◌≤◌, IfOk, length};
ghost use Rattle.std.specs.Io.KnownBytes.{ReadConsumes};
ghost use Rattle.mpi_model.specs.Failures.{CountsFailure};
ghost use Rattle.mpi_model.specs.Side.{LeavesSide};

use crate::load::watch::Watcher;
use mpi_model::{Failed, Read};

/// Gives what the inner reader gives, and tells the watcher of each byte.
#[derive(Drop)]
pub struct Watched<'w, R: Read, V: Watcher> {
    inner: R,
    watcher: &'w V,
}

impl<'w, R: Read, V: Watcher> Watched<'w, R, V> {
    /// A reader over `inner` that tells the watcher of the bytes from here on.
    pub fn new(inner: R, watcher: &'w V) -> Self
        ensures { result.inner ≡ inner }
    {
        Watched { inner, watcher }
    }
}

impl<'w, R: Read, V: Watcher> Read for Watched<'w, R, V> {
    ghost left = { λ w. R.left w.inner };

    ghost failures = { λ w. R.failures w.inner };

    ghost write_side = { λ w. R.write_side w.inner };

    fn read(&mut self, buffer: &mut [u8]) -> Result<usize, Failed> {
        let count = self.inner.read(buffer)?;
        self.watcher.has_taken(count);
        Ok(count)
    }
}
