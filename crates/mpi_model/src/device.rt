//! Devices: where the bytes of a trace come from, and where the bytes of a report go.

ghost use Rattle.std.specs.Prelude.{◌≡◌, ◌<◌, ◌≤◌, List, ℕ, Option, None, length, IfOk};
ghost use Rattle.std.specs.Io.KnownBytes.{ReadConsumes, WriteAppends};
ghost use Rattle.mpi_model.specs.Devices.{failed_reads, failed_writes, inside};
ghost use Rattle.mpi_model.specs.Failures.{CountsFailure};
ghost use Rattle.mpi_model.specs.Side.{Side, LeavesSide, untold};

use std::io;

/// A call of a device failed. The doc of that call says which bytes it moved.
#[derive(Clone, Copy)]
pub struct Failed;

/// Why the system refused a write.
#[derive(Clone, Copy, PartialEq, Eq)]
pub enum WriteReason {
    /// The disk, or another device, is full.
    NoSpace,
    /// The space that the user may take is used up.
    Quota,
    /// The file may not become longer.
    FileTooLarge,
    /// Nobody reads the other end of the pipe or socket.
    Closed,
}

/// Where bytes come from.
///
/// A contract knows the bytes of some devices, and of others (a socket) it doesn't: then `left` is `None`, and no
/// clause says anything about them.
pub trait Read: Drop {
    /// The bytes that are left to read; `None` if no contract can know them.
    ghost left: { Self → Option (List ℕ) } = { λ _. None };

    /// How often a read has failed.
    ghost failures: { Self → ℕ };

    /// The writing half of the same device, if it is a stream.
    ghost write_side: { Self → Side } = { λ _. untold };

    /// Fills a front of the buffer and returns its length, which is 0 for a nonempty buffer only at the end. On
    /// `Failed` no byte was taken.
    fn read(&mut self, buffer: &mut [u8]) -> Result<usize, Failed>
        ensures within { IfOk result (λ n. n ≤ length buffer.new) }
        ensures bytes { ReadConsumes (left self.old) (left self.new) result buffer.new }
        ensures failures { CountsFailure (failures self.old) (failures self.new) result }
        ensures beside { LeavesSide (write_side self.old) (write_side self.new) };
}

/// Where bytes go.
pub trait Write: Drop {
    /// The bytes that were written; `None` if no contract can know them.
    ghost written: { Self → Option (List ℕ) } = { λ _. None };

    /// How often a write has failed.
    ghost failures: { Self → ℕ };

    /// The reading half of the same device, if it is a stream.
    ghost read_side: { Self → Side } = { λ _. untold };

    /// Takes a front of the piece and returns its length, which is at least 1 for a nonempty piece. On `Failed` no byte
    /// was taken.
    fn write(&mut self, piece: &[u8]) -> Result<usize, Failed>
        ensures within { IfOk result (λ n. n ≤ length piece.now) }
        ensures some { IfOk result (λ n. 0 < length piece.now → 0 < n) }
        ensures bytes { WriteAppends (written self.old) (written self.new) result piece.now }
        ensures failures { CountsFailure (failures self.old) (failures self.new) result }
        ensures beside { LeavesSide (read_side self.old) (read_side self.new) };

    /// Why the last write that failed was refused; `None` if none failed, or the system doesn't say it. It is shown to a
    /// person who reads that a write failed; no other output depends on it.
    fn reason(&self) -> Option<WriteReason> {
        None
    }
}

/// A device over a reader or a writer of std, or over a stream that is both.
///
/// It passes on the bytes of the inner value and counts the failures of reads and of writes, each
/// up to 2^64 - 1. A write that takes none of a nonempty piece counts as a failure.
#[derive(Drop)]
pub struct Device<T> {
    inner: T,
    read_failures: u64,
    write_failures: u64,
    reason: Option<WriteReason>,
}

/// What this error says of a write that was refused.
fn reason_of(error: &io::Error) -> Option<WriteReason> {
    match error.kind() {
        io::ErrorKind::StorageFull => Some(WriteReason::NoSpace),
        io::ErrorKind::QuotaExceeded => Some(WriteReason::Quota),
        io::ErrorKind::FileTooLarge => Some(WriteReason::FileTooLarge),
        io::ErrorKind::BrokenPipe | io::ErrorKind::ConnectionReset => Some(WriteReason::Closed),
        _ => None,
    }
}

impl<T> Device<T> {
    /// A device over the inner value, with no failure counted yet.
    pub fn new(inner: T) -> Self
        ensures inner { inside result ≡ inner }
        ensures no_failure { (failed_reads result ≡ 0) × (failed_writes result ≡ 0) }
    {
        Device {
            inner,
            read_failures: 0,
            write_failures: 0,
            reason: None,
        }
    }
}

impl<T: io::Read + Drop> Read for Device<T> {
    ghost left = { λ d. T.remaining (inside d) };

    ghost failures = { λ d. failed_reads d };

    ghost write_side = { λ d. record { bytes = None; failures = failed_writes d } };

    fn read(&mut self, buffer: &mut [u8]) -> Result<usize, Failed> {
        match self.inner.read(buffer) {
            Ok(n) => Ok(n),
            Err(_) => {
                self.read_failures = self.read_failures.saturating_add(1);
                Err(Failed)
            }
        }
    }
}

impl<T: io::Write + Drop> Write for Device<T> {
    ghost written = { λ d. T.contents (inside d) };

    ghost failures = { λ d. failed_writes d };

    ghost read_side = { λ d. record { bytes = None; failures = failed_reads d } };

    fn write(&mut self, piece: &[u8]) -> Result<usize, Failed> {
        let reason = match self.inner.write(piece) {
            Ok(n) if n > 0 || piece.is_empty() => return Ok(n),
            Ok(_) => None,
            Err(error) => reason_of(&error),
        };
        self.write_failures = self.write_failures.saturating_add(1);
        self.reason = reason;
        Err(Failed)
    }

    fn reason(&self) -> Option<WriteReason> {
        self.reason
    }
}
