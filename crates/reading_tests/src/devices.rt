//! Devices over readers and writers of std that do what a script says: each answer of a device is
//! that of the inner call.

use mpi_model::*;
use std::alloc::Global;
use std::io;
use std::test::Fail;

/// What a reader or a writer does at a call: it moves so many bytes at most, or fails.
#[derive(Clone, Copy)]
enum Step {
    Moves(usize),
    Fails,
}

/// A reader of std that does these steps, one a call, and then is at its end.
#[derive(Drop)]
struct ScriptedReader {
    steps: &'static [Step],
    calls: usize,
}

impl io::Read for ScriptedReader {
    fn read(&mut self, buffer: &mut [u8]) -> io::Result<usize> {
        let step = self.steps.get(self.calls);
        self.calls = self.calls.saturating_add(1);
        match step {
            Some(Step::Moves(most)) => Ok(buffer.len().min(*most)),
            Some(Step::Fails) => Err(io::ErrorKind::Other.into()),
            None => Ok(0),
        }
    }
}

/// A writer of std that does these steps, one a call, and then takes nothing.
#[derive(Drop)]
struct ScriptedWriter {
    steps: &'static [Step],
    calls: usize,
}

impl io::Write for ScriptedWriter {
    fn write(&mut self, piece: &[u8]) -> io::Result<usize> {
        let step = self.steps.get(self.calls);
        self.calls = self.calls.saturating_add(1);
        match step {
            Some(Step::Moves(most)) => Ok(piece.len().min(*most)),
            Some(Step::Fails) => Err(io::ErrorKind::Other.into()),
            None => Ok(0),
        }
    }

    fn flush(&mut self) -> io::Result<()> {
        Ok(())
    }
}

/// A name, the steps of the inner value, and calls: the length of the buffer or piece, and how many
/// bytes the device answers, or nothing where it fails.
type Row = (
    &'static str,
    &'static [Step],
    &'static [(usize, Option<usize>)],
);

static READS: [Row; 7] = [
    (
        "a failure is none of later calls",
        &[Step::Moves(3), Step::Fails, Step::Fails, Step::Moves(2)],
        &[
            (8, Some(3)),
            (8, None),
            (8, None),
            (8, Some(2)),
            (8, Some(0)),
        ],
    ),
    ("the end is no failure", &[], &[(8, Some(0)), (8, Some(0))]),
    (
        "the end after bytes",
        &[Step::Moves(1)],
        &[(8, Some(1)), (8, Some(0))],
    ),
    (
        "a failure on an empty buffer",
        &[Step::Fails, Step::Moves(1)],
        &[(0, None), (8, Some(1))],
    ),
    ("an empty buffer", &[Step::Moves(5)], &[(0, Some(0))]),
    (
        "a buffer of 4,097 bytes",
        &[Step::Moves(4096), Step::Moves(4097)],
        &[(4097, Some(4096)), (4097, Some(4097))],
    ),
    (
        "a buffer of 65,536 bytes",
        &[Step::Moves(70_000)],
        &[(65_536, Some(65_536))],
    ),
];

static WRITES: [Row; 7] = [
    (
        "a failure is none of later calls",
        &[Step::Moves(3), Step::Fails, Step::Fails, Step::Moves(2)],
        &[(8, Some(3)), (8, None), (8, None), (8, Some(2))],
    ),
    (
        "none of a piece is a failure",
        &[Step::Moves(0), Step::Moves(1)],
        &[(8, None), (8, Some(1)), (8, None)],
    ),
    ("an empty piece", &[Step::Moves(5)], &[(0, Some(0))]),
    ("none of an empty piece", &[Step::Moves(0)], &[(0, Some(0))]),
    (
        "a failure on an empty piece",
        &[Step::Fails, Step::Moves(1)],
        &[(0, None), (8, Some(1))],
    ),
    (
        "a piece of 4,097 bytes",
        &[Step::Moves(4096), Step::Moves(4097)],
        &[(4097, Some(4096)), (4097, Some(4097))],
    ),
    (
        "a piece of 65,536 bytes",
        &[Step::Moves(70_000)],
        &[(65_536, Some(65_536))],
    ),
];

/// The first of the calls at which a device answers something else.
fn first_other_read(
    alloc: Global,
    steps: &'static [Step],
    calls: &'static [(usize, Option<usize>)],
) -> Result<Option<usize>, Fail> {
    let mut buffer: Vec<u8> = vec![in alloc; 0; 65_536]?;
    let mut device = Device::new(ScriptedReader { steps, calls: 0 });
    for (i, call) in calls.iter().enumerate() {
        let (length, want) = *call;
        if length > buffer.len() || device.read(&mut buffer[..length]).ok() != want {
            return Ok(Some(i));
        }
    }
    Ok(None)
}

/// The first write that answers otherwise than it should, where one does.
fn first_other_write(
    alloc: Global,
    steps: &'static [Step],
    calls: &'static [(usize, Option<usize>)],
) -> Result<Option<usize>, Fail> {
    let bytes: Vec<u8> = vec![in alloc; 0; 65_536]?;
    let mut device = Device::new(ScriptedWriter { steps, calls: 0 });
    for (i, call) in calls.iter().enumerate() {
        let (length, want) = *call;
        let piece = bytes.get(..length).ok_or("a longer piece")?;
        if device.write(piece).ok() != want {
            return Ok(Some(i));
        }
    }
    Ok(None)
}

#[test]
fn a_device_reads_what_its_reader_reads(rt: HostRuntime) -> Result<(), Fail> {
    for row in &READS {
        let (name, steps, calls) = *row;
        let other = first_other_read(rt.alloc(), steps, calls)?;
        assert!(rt; other.is_none(), "{name}: {other:?}");
    }
    Ok(())
}

#[test]
fn a_device_writes_what_its_writer_writes(rt: HostRuntime) -> Result<(), Fail> {
    for row in &WRITES {
        let (name, steps, calls) = *row;
        let other = first_other_write(rt.alloc(), steps, calls)?;
        assert!(rt; other.is_none(), "{name}: {other:?}");
    }
    Ok(())
}

/// What a device over a slice of std reads, and why it is no more.
fn is_slice_read() -> bool {
    let mut buffer = [0; 5];
    let short = read_exactly(&mut Device::new(&b"abc"[..]), &mut buffer);
    short == Err(ReadFault::Short { taken: 3 }) && buffer[..3] == b"abc"[..]
}

/// What a device over a list of std writes.
fn written_to_a_list(alloc: Global) -> (bool, Vec<u8>) {
    let mut bytes = Vec::new(alloc);
    let mut device = Device::new(&mut bytes);
    let is_written = write_all(&mut device, b"abcde").is_ok();
    drop(device);
    (is_written, bytes)
}

#[test]
fn devices_over_values_of_std(rt: HostRuntime) {
    assert!(rt; is_slice_read(), "a slice");
    let (is_written, bytes) = written_to_a_list(rt.alloc());
    assert!(rt;
        is_written && bytes.as_slice() == b"abcde".as_slice(),
        "a list"
    );
}
