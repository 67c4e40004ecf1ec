//! Writers in memory.

ghost use Rattle.std.specs.Prelude.{◌≡◌, ◌<◌, ◌≤◌, ◌+◌, [], IfOk, Some, length};
ghost use Rattle.std.specs.Io.KnownBytes.{WriteAppends};
ghost use Rattle.mpi_model.specs.Failures.{CountsFailure};
ghost use Rattle.mpi_model.specs.Side.{LeavesSide, untold};

use crate::device::{Failed, Write};
use std::alloc::Global;
use std::io;

/// A writer into memory. A contract knows what it took. It fails if memory is refused.
#[derive(Drop)]
pub struct MemoryWriter {
    bytes: Vec<u8>,
    most: usize,
    room: usize,
    failures: u64,
    ghost some: { 0 < most },
}

impl MemoryWriter {
    ghost use Rattle.mpi_model.specs.Devices.{bytes_written, most_written, room_of};

    /// A writer that takes all of a piece, and fails only if memory is refused.
    pub fn new(alloc: Global) -> Self
        ensures bytes { bytes_written result ≡ [] }
        ensures limits { (most_written result ≡ usize.MAX) × (room_of result ≡ usize.MAX) }
    {
        MemoryWriter {
            bytes: Vec::new(alloc),
            most: usize::MAX,
            room: usize::MAX,
            failures: 0,
        }
    }

    /// A writer that takes at most this many bytes a call.
    pub fn at_most(mut self, most: usize) -> Self
        requires { 0 < most }
        ensures bytes { bytes_written result ≡ bytes_written self }
        ensures limits { (most_written result ≡ most) × (room_of result ≡ room_of self) }
    {
        self.most = most;
        self
    }

    /// A writer that takes this many bytes and refuses each byte after them.
    pub fn failing_after(mut self, count: usize) -> Self
        ensures bytes { bytes_written result ≡ bytes_written self }
        ensures limits { (most_written result ≡ most_written self) × (room_of result ≡ count) }
    {
        self.room = count;
        self
    }

    /// What was written.
    pub fn bytes(&self) -> &[u8]
        ensures { result.now ≡ bytes_written self.now }
    {
        &self.bytes
    }
}

impl Write for MemoryWriter {
    ghost use Rattle.mpi_model.specs.Devices.{bytes_written, count_taken, failures_of_writer, most_written, room_of};

    ghost written = { λ w. Some (bytes_written w) };

    ghost failures = { λ w. failures_of_writer w };

    fn write(&mut self, piece: &[u8]) -> Result<usize, Failed>
        ensures within { IfOk result (λ n. n ≤ length piece.now) }
        ensures some { IfOk result (λ n. 0 < length piece.now → 0 < n) }
        ensures bytes { WriteAppends (Some (bytes_written self.old)) (Some (bytes_written self.new)) result piece.now }
        ensures failures { CountsFailure (failures_of_writer self.old) (failures_of_writer self.new) result }
        ensures beside { LeavesSide untold untold }

        ensures count { IfOk result (λ n. n ≡ count_taken self.old (length piece.now)) }
        ensures room { IfOk result (λ n. room_of self.new + n ≡ room_of self.old) }
        ensures limit { most_written self.new ≡ most_written self.old }
    {
        let count = piece.len().min(self.most).min(self.room);
        let is_refused = count == 0 && !piece.is_empty();
        if is_refused || io::Write::write(&mut self.bytes, &piece[..count]).is_err() {
            self.failures = self.failures.saturating_add(1);
            return Err(Failed);
        }
        self.room -= count;
        Ok(count)
    }
}
