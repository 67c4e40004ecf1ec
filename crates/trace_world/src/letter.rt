//! How a mail is read: a reader that never fails.

ghost use Rattle.std.specs.Prelude.{◌≡◌, ◌≤◌, IfOk, Some, length};
ghost use Rattle.std.specs.Io.KnownBytes.{ReadConsumes};
ghost use Rattle.mpi_model.specs.Failures.{CountsFailure};
ghost use Rattle.mpi_model.specs.Side.{LeavesSide, untold};

use mpi_model::{Failed, Read};

/// Bytes that are still to be read. A reader in memory of `mpi_model` could be told to fail; this one can't, so a
/// function that reads a mail needn't say what would happen then.
#[derive(Drop)]
pub(crate) struct Letter<'a> {
    bytes: &'a [u8],
}

impl<'a> Letter<'a> {
    /// A reader of these bytes, from the first on.
    pub(crate) fn new(bytes: &'a [u8]) -> Letter<'a>
        ensures { result.bytes.now ≡ bytes.now }
    {
        Letter { bytes }
    }
}

impl<'a> Read for Letter<'a> {
    ghost left = { λ r. Some r.bytes.now };

    ghost failures = { λ _. 0 };

    fn read(&mut self, buffer: &mut [u8]) -> Result<usize, Failed>
        ensures within { IfOk result (λ n. n ≤ length buffer.new) }
        ensures bytes { ReadConsumes (Some self.old.bytes.now) (Some self.new.bytes.now) result buffer.new }
        ensures failures { CountsFailure 0 0 result }
        ensures beside { LeavesSide untold untold }
    {
        let count = buffer.len().min(self.bytes.len());
        let (given, left) = self.bytes.split_at(count);
        buffer[..count].copy_from_slice(given);
        self.bytes = left;
        Ok(count)
    }
}
