//! Readers in memory.

ghost use Rattle.std.specs.Prelude.{◌≡◌, ◌<◌, ◌≤◌, ◌-◌, ◌↔◌, IfOk, IsErr, OnErr, Ok, Some, None, length, replicate};
ghost use Rattle.std.specs.Io.KnownBytes.{ReadConsumes};
ghost use Rattle.std.specs.Option.{option_map};
ghost use Rattle.mpi_model.specs.Failures.{CountsFailure};
ghost use Rattle.mpi_model.specs.Side.{LeavesSide, untold};

use crate::device::{Failed, Read};

/// A reader of bytes in memory, which a contract knows.
#[derive(Drop)]
pub struct MemoryReader<'a> {
    bytes: &'a [u8],
    most: usize,
    until_failure: Option<usize>,
    failures: u64,
    ghost some: { 0 < most },
}

impl<'a> MemoryReader<'a> {
    ghost use Rattle.mpi_model.specs.Devices.{bytes_left, most_read, until_failure};

    /// A reader that gives all that a buffer takes, and never fails.
    pub fn new(bytes: &'a [u8]) -> Self
        ensures bytes { bytes_left result ≡ bytes.now }
        ensures limits { (most_read result ≡ usize.MAX) × (until_failure result ≡ None) }
    {
        MemoryReader {
            bytes,
            most: usize::MAX,
            until_failure: None,
            failures: 0,
        }
    }

    /// A reader that gives at most this many bytes a call.
    pub fn at_most(mut self, most: usize) -> Self
        requires { 0 < most }
        ensures bytes { bytes_left result ≡ bytes_left self.entry }
        ensures limits { (most_read result ≡ most) × (until_failure result ≡ until_failure self.entry) }
    {
        self.most = most;
        self
    }

    /// A reader that gives this many bytes and fails in each call after them, at the end too.
    pub fn failing_after(mut self, count: usize) -> Self
        ensures bytes { bytes_left result ≡ bytes_left self.entry }
        ensures limits { (most_read result ≡ most_read self.entry) × (until_failure result ≡ Some count) }
    {
        self.until_failure = Some(count);
        self
    }
}

impl<'a> Read for MemoryReader<'a> {
    ghost use Rattle.mpi_model.specs.Devices.{bytes_left, count_given, failures_of_reader, most_read, until_failure};

    ghost left = { λ r. Some (bytes_left r) };

    ghost failures = { λ r. failures_of_reader r };

    fn read(&mut self, buffer: &mut [u8]) -> Result<usize, Failed>
        ensures within { IfOk result (λ n. n ≤ length buffer.new) }
        ensures bytes { ReadConsumes (Some (bytes_left self.old)) (Some (bytes_left self.new)) result buffer.new }
        ensures failures { CountsFailure (failures_of_reader self.old) (failures_of_reader self.new) result }
        ensures beside { LeavesSide untold untold }

        ensures count { IfOk result (λ n. n ≡ count_given self.old (length buffer.old)) }
        ensures fails { IsErr result ↔ (until_failure self.old ≡ Some 0) }
        ensures nearer { IfOk result (λ n. until_failure self.new ≡ option_map (λ left. left - n) (until_failure self.old)) }
        ensures for_good { OnErr result (until_failure self.new ≡ until_failure self.old) }
        ensures limit { most_read self.new ≡ most_read self.old }
    {
        if self.until_failure == Some(0) {
            self.failures = self.failures.saturating_add(1);
            return Err(Failed);
        }
        let mut count = buffer.len().min(self.most).min(self.bytes.len());
        if let Some(until) = self.until_failure {
            count = count.min(until);
            self.until_failure = Some(until - count);
        }
        let (given, left) = self.bytes.split_at(count);
        buffer[..count].copy_from_slice(given);
        self.bytes = left;
        Ok(count)
    }
}

/// A reader that gives one byte for ever. No contract knows its bytes.
#[derive(Drop)]
pub struct EndlessReader {
    byte: u8,
}

impl EndlessReader {
    ghost use Rattle.mpi_model.specs.Devices.{repeated};

    /// A reader that gives this byte for ever.
    pub fn new(byte: u8) -> Self
        ensures { repeated result ≡ byte }
    {
        EndlessReader { byte }
    }
}

impl Read for EndlessReader {
    ghost use Rattle.mpi_model.specs.Devices.{repeated};

    ghost failures = { λ _. 0 };

    fn read(&mut self, buffer: &mut [u8]) -> Result<usize, Failed>
        ensures full { result ≡ Ok (length buffer.new) }
        ensures content { buffer.new ≡ replicate (length buffer.old) (repeated self.old) }
        ensures same { repeated self.new ≡ repeated self.old }
    {
        buffer.fill(self.byte);
        Ok(buffer.len())
    }
}
