//! A stream in memory: what is read from it was given before, and what is written to it is kept.

ghost use Rattle.std.specs.Prelude.{◌≤◌, ◌<◌, Some, length, IfOk};
ghost use Rattle.std.specs.Io.KnownBytes.{ReadConsumes, WriteAppends};
ghost use Rattle.mpi_model.specs.Failures.{CountsFailure};
ghost use Rattle.mpi_model.specs.Side.{LeavesSide};
ghost use Rattle.trace_cluster.specs.Stream.{IsStream, side};

use mpi_model::{Failed, MemoryReader, MemoryWriter, Read, Write};

/// A reader and a writer as one stream.
#[derive(Drop)]
pub(crate) struct Pipe<'a> {
    pub reader: MemoryReader<'a>,
    pub writer: MemoryWriter,
}

impl<'a> Read for Pipe<'a> {
    ghost use Rattle.mpi_model.specs.Devices.{bytes_left, bytes_written, failures_of_reader, failures_of_writer};
    ghost use Rattle.trace_cluster.specs.Stream.{side};

    ghost left = { λ p. Some (bytes_left p.reader) };

    ghost failures = { λ p. failures_of_reader p.reader };

    ghost write_side = { λ p. side (Some (bytes_written p.writer)) (failures_of_writer p.writer) };

    fn read(&mut self, buffer: &mut [u8]) -> Result<usize, Failed> {
        self.reader.read(buffer)
    }
}

impl<'a> Write for Pipe<'a> {
    ghost use Rattle.mpi_model.specs.Devices.{bytes_left, bytes_written, failures_of_reader, failures_of_writer};
    ghost use Rattle.trace_cluster.specs.Stream.{side};

    ghost written = { λ p. Some (bytes_written p.writer) };

    ghost failures = { λ p. failures_of_writer p.writer };

    ghost read_side = { λ p. side (Some (bytes_left p.reader)) (failures_of_reader p.reader) };

    fn write(&mut self, piece: &[u8]) -> Result<usize, Failed> {
        self.writer.write(piece)
    }
}

/// Asks of a type that each half tells of the other: then the contracts of an exchange over it hold
/// whole. It does nothing.
pub(crate) fn is_stream<S: Read + Write>(_stream: &S)
    requires { IsStream (λ s. side (S.left s) (S.Read.failures s)) S.read_side
        (λ s. side (S.written s) (S.Write.failures s)) S.write_side }
{}
