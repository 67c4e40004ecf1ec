//! What a mail is written on: a writer that fails only where it can't grow.

ghost use Rattle.std.specs.Prelude.{◌≡◌, ◌<◌, ◌≤◌, ◌+◌, [], IfOk, OnErr, Some, length, vec_capacity, vec_len};
ghost use Rattle.std.specs.Io.KnownBytes.{WriteAppends};
ghost use Rattle.mpi_model.specs.Failures.{CountsFailure};
ghost use Rattle.mpi_model.specs.Side.{LeavesSide, untold};

use mpi_model::{Failed, Write};
use std::alloc::Global;

/// Bytes that were written. A writer in memory of `mpi_model` could be told to refuse some; this one takes all of a
/// piece, and fails only where it had to grow for that.
#[derive(Drop)]
pub(crate) struct Sheet {
    bytes: Vec<u8>,
    failures: u64,
}

impl Sheet {
    /// A sheet on which nothing is written yet. It takes no memory.
    pub(crate) fn new(alloc: Global) -> Sheet
        ensures { result.bytes.items ≡ [] }
    {
        Sheet {
            bytes: Vec::new(alloc),
            failures: 0,
        }
    }

    /// What was written so far.
    pub(crate) fn bytes(&self) -> &[u8]
        ensures { result.now ≡ self.now.bytes.items }
    {
        &self.bytes
    }
}

impl Write for Sheet {
    ghost written = { λ s. Some s.bytes.items };

    ghost failures = { λ s. s.failures };

    fn write(&mut self, piece: &[u8]) -> Result<usize, Failed>
        ensures within { IfOk result (λ n. n ≤ length piece.now) }
        ensures some { IfOk result (λ n. 0 < length piece.now → 0 < n) }
        ensures bytes { WriteAppends (Some self.old.bytes.items) (Some self.new.bytes.items) result piece.now }
        ensures failures { CountsFailure self.old.failures self.new.failures result }
        ensures beside { LeavesSide untold untold }

        ensures whole { IfOk result (λ n. n ≡ length piece.now) }
        ensures full { OnErr result (vec_capacity self.old.bytes < vec_len self.old.bytes + length piece.now) }
    {
        match self.bytes.extend_from_slice(piece) {
            Ok(()) => Ok(piece.len()),
            Err(_) => {
                self.failures = self.failures.saturating_add(1);
                Err(Failed)
            }
        }
    }
}
