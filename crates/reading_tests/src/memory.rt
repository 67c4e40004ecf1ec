//! Readers and writers in memory give and take all that they can.

use mpi_model::*;
use std::alloc::Global;

/// The limit a call, after how many bytes it fails, the length of the buffer or piece, and how many
/// of five bytes are moved, or nothing where it fails.
type Row = (usize, Option<usize>, usize, Option<usize>);

static READS: [Row; 9] = [
    (usize::MAX, None, 8, Some(5)),
    (usize::MAX, None, 5, Some(5)),
    (usize::MAX, None, 3, Some(3)),
    (usize::MAX, None, 0, Some(0)),
    (2, None, 8, Some(2)),
    (usize::MAX, Some(4), 8, Some(4)),
    (2, Some(1), 8, Some(1)),
    (usize::MAX, Some(0), 8, None),
    (usize::MAX, Some(0), 0, None),
];

static WRITES: [Row; 7] = [
    (usize::MAX, None, 5, Some(5)),
    (usize::MAX, None, 0, Some(0)),
    (2, None, 5, Some(2)),
    (usize::MAX, Some(4), 5, Some(4)),
    (2, Some(1), 5, Some(1)),
    (usize::MAX, Some(0), 5, None),
    (usize::MAX, Some(0), 0, Some(0)),
];

/// How many bytes a reader of five gives to a buffer of this length, eight at most; `None` where it
/// fails or where there is no such reader.
fn read_of(most: usize, until: Option<usize>, length: usize) -> Option<usize> {
    if most == 0 {
        return None;
    }
    let mut reader = MemoryReader::new(b"abcde").at_most(most);
    if let Some(count) = until {
        reader = reader.failing_after(count);
    }
    let mut buffer = [0; 8];
    if length > buffer.len() {
        return None;
    }
    reader.read(&mut buffer[..length]).ok()
}

/// How many bytes a writer takes of a piece of this length, five at most.
fn written_of(alloc: Global, most: usize, room: Option<usize>, length: usize) -> Option<usize> {
    if most == 0 {
        return None;
    }
    let mut writer = MemoryWriter::new(alloc).at_most(most);
    if let Some(count) = room {
        writer = writer.failing_after(count);
    }
    writer.write(b"abcde".get(..length)?).ok()
}

#[test]
fn a_reader_gives_all_that_it_can(rt: HostRuntime) {
    for (i, row) in READS.iter().enumerate() {
        let (most, until, length, want) = *row;
        assert!(rt; read_of(most, until, length) == want, "row {i}");
    }
}

#[test]
fn a_writer_takes_all_that_it_can(rt: HostRuntime) {
    for (i, row) in WRITES.iter().enumerate() {
        let (most, room, length, want) = *row;
        let found = written_of(rt.alloc(), most, room, length);
        assert!(rt; found == want, "row {i}");
    }
}
