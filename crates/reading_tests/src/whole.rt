//! Whole pieces are read and written however many calls they take, and faults tell how far they came.

use mpi_model::*;
use std::alloc::{AllocError, Global};
use std::test::Fail;

const TEXT: &[u8; 5] = b"abcde";

/// Whether the text is read at most so many bytes a call, and then its end.
fn is_read(most: usize) -> bool {
    if most == 0 {
        return false;
    }
    let mut reader = MemoryReader::new(TEXT).at_most(most);
    let mut buffer = [0; 5];
    let is_whole = read_exactly(&mut reader, &mut buffer) == Ok(()) && &buffer == TEXT;
    let end = read_exactly(&mut reader, &mut buffer);
    is_whole && end == Err(ReadFault::Short { taken: 0 })
}

/// Whether a reader that fails after so many bytes gives just those.
fn is_read_up_to(taken: usize) -> bool {
    let mut reader = MemoryReader::new(TEXT).at_most(2).failing_after(taken);
    let mut buffer = [0; 5];
    let fault = read_exactly(&mut reader, &mut buffer);
    fault == Err(ReadFault::Failed { taken }) && buffer.get(..taken) == TEXT.get(..taken)
}

/// Whether a reader without an end fills a buffer.
fn is_endless() -> bool {
    let mut buffer = [0; 5];
    read_exactly(&mut EndlessReader::new(b'a'), &mut buffer) == Ok(()) && &buffer == b"aaaaa"
}

#[test]
fn whole_pieces_are_read(rt: HostRuntime) {
    for most in 1..7 {
        assert!(rt; is_read(most), "{most} a call");
    }
    for taken in 0..5 {
        assert!(rt; is_read_up_to(taken), "failing after {taken}");
    }
    assert!(rt; is_endless(), "a reader that never ends");
}

/// Whether two pieces are written at most so many bytes a call.
fn is_written(alloc: Global, most: usize) -> bool {
    if most == 0 {
        return false;
    }
    let mut writer = MemoryWriter::new(alloc).at_most(most);
    let first = write_all(&mut writer, b"abc");
    let second = write_all(&mut writer, b"de");
    first.is_ok() && second.is_ok() && writer.bytes() == TEXT.as_slice()
}

/// Whether a writer with room for so many bytes takes just those.
fn is_written_up_to(alloc: Global, written: usize) -> bool {
    let mut writer = MemoryWriter::new(alloc).at_most(2).failing_after(written);
    let fault = write_all(&mut writer, TEXT);
    fault == Err(WriteFault { written }) && Some(writer.bytes()) == TEXT.get(..written)
}

#[test]
fn whole_pieces_are_written(rt: HostRuntime) {
    for most in 1..7 {
        assert!(rt; is_written(rt.alloc(), most), "{most} a call");
    }
    for written in 0..5 {
        assert!(rt; is_written_up_to(rt.alloc(), written), "room for {written}");
    }
}

/// The three faults, as they are printed.
fn shown(alloc: Global) -> Result<String, AllocError> {
    let short = ReadFault::Short { taken: 3 };
    let failed = ReadFault::Failed { taken: 3 };
    let unwritten = WriteFault { written: 3 };
    format!(in alloc; "{short}; {failed}; {unwritten}")
}

#[test]
fn faults_tell_how_far_it_came(rt: HostRuntime) -> Result<(), Fail> {
    let found = shown(rt.alloc())?;
    let want =
        "the input ended after 3 bytes; reading failed after 3 bytes; writing failed after 3 bytes";
    assert!(rt; found.as_str() == want, "{found}");
    Ok(())
}
