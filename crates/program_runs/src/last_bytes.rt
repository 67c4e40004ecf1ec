//! The end of a text, where its last calls are found without the lines in front of them.

use dumpi_text::{CHUNK, read_word, strip};
use mpi_model::Read;
use run_inputs::{Opener, reopened};
use std::alloc::{AllocError, Global};

/// The most chunks of a text that are looked through: a reader could go on for ever.
const MOST_CHUNKS: u32 = 16_777_216;

/// The last bytes of a text, and what stands in front of them.
#[derive(Drop)]
pub(crate) struct LastBytes {
    /// How many lines end in front of them.
    pub lines: u64,
    /// Whether they are the whole text.
    pub whole: bool,
    pub bytes: Vec<u8>,
}

/// How many bytes are counted by 8 bits, which have room for that: a processor then counts sixteen at once.
const AT_ONCE: usize = 240;

/// How many lines end in a few bytes, at most 255.
fn few_lines_in(bytes: &[u8]) -> u8 {
    let mut count: u8 = 0;
    for byte in bytes {
        count = count.wrapping_add((*byte == b'\n') as u8);
    }
    count
}

/// How many lines end in these bytes.
pub(crate) fn lines_in(bytes: &[u8]) -> u64 {
    let mut count: u64 = 0;
    for part in bytes.chunks(AT_ONCE) {
        count = count.saturating_add(u64::from(few_lines_in(part)));
    }
    count
}

impl LastBytes {
    /// Passes bytes that aren't among the last ones.
    fn pass(&mut self, count: u64) {
        self.lines = self.lines.saturating_add(count);
        self.whole = false;
    }

    /// Takes the next bytes of the text, and keeps the last ones of all, at most so many.
    fn take(&mut self, alloc: Global, next: &[u8], most: usize) -> Result<(), AllocError> {
        if next.len() >= most {
            let (passed, kept) = next.split_at(next.len() - most);
            if !self.bytes.is_empty() || !passed.is_empty() {
                let count = lines_in(&self.bytes).saturating_add(lines_in(passed));
                self.pass(count);
            }
            self.bytes = Vec::from_slice(alloc, kept)?;
            return Ok(());
        }
        let room = most - next.len();
        if self.bytes.len() > room {
            let (passed, kept) = self.bytes.as_slice().split_at(self.bytes.len() - room);
            let count = lines_in(passed);
            let kept = Vec::from_slice(alloc, kept)?;
            self.bytes = kept;
            self.pass(count);
        }
        self.bytes.extend_from_slice(next)
    }
}

/// Room for the chunks of a text that is looked through: one for all texts.
pub(crate) fn chunk_room(alloc: Global) -> Result<Vec<u8>, AllocError> {
    let chunk = vec![in alloc; 0; CHUNK]?;
    Ok(chunk)
}

/// The last bytes of a text, at most so many; `None` if its reader fails.
fn last_bytes<R: Read>(
    alloc: Global,
    reader: R,
    most: usize,
    chunk: &mut Vec<u8>,
) -> Result<Option<LastBytes>, AllocError> {
    let mut reader = reader;
    let mut last = LastBytes {
        lines: 0,
        whole: true,
        bytes: Vec::new(alloc),
    };
    for _ in 0..MOST_CHUNKS {
        match reader.read(chunk.as_mut_slice()) {
            Ok(0) => return Ok(Some(last)),
            Ok(count) => last.take(alloc, &chunk[..count], most)?,
            Err(_) => return Ok(None),
        }
    }
    Ok(None)
}

/// The last bytes of the text of a file, at most so many; `None` if it can't be looked at.
pub(crate) fn last_bytes_of<O: Opener>(
    alloc: Global,
    path: &str,
    most: usize,
    files: &O,
    chunk: &mut Vec<u8>,
) -> Result<Option<LastBytes>, AllocError> {
    match reopened(path, files) {
        Some(reader) => last_bytes(alloc, reader, most, chunk),
        None => Ok(None),
    }
}

/// Whether a line begins here that enters a call.
fn is_entering(text: &[u8]) -> bool {
    match read_word(text) {
        Some((_, rest)) => strip(b" entering at walltime ", rest).is_some(),
        None => false,
    }
}

/// Whether a line begins at this place of the last bytes of a text.
fn begins_line(last: &LastBytes, at: usize) -> bool {
    match at.checked_sub(1) {
        Some(before) => last.bytes.as_slice().get(before) == Some(&b'\n'),
        None => last.whole,
    }
}

/// Where the last calls begin, so many of them, or fewer if no more begin in these bytes; and how many they are.
pub(crate) fn start_of_last(last: &LastBytes, count: u64) -> (usize, u64) {
    let bytes = last.bytes.as_slice();
    let mut start = bytes.len();
    let mut found: u64 = 0;
    for behind in 0..bytes.len() {
        if found >= count {
            break;
        }
        let at = bytes.len() - 1 - behind;
        if begins_line(last, at) && is_entering(&bytes[at..]) {
            start = at;
            found = found.saturating_add(1);
        }
    }
    (start, found)
}
