//! The last calls of a text, read where they stand, without those in front of them.

use crate::last_bytes::{LastBytes, lines_in, start_of_last};
use mpi_model::MemoryReader;
use std::alloc::{AllocError, Global};
use std::collections::BTreeSet;
use text_notes::{CallSite, TextNote, look_at_front};

/// The last calls of a text.
#[derive(Drop)]
pub(crate) struct LastCalls {
    /// The number of the first of them among the calls of the text.
    pub first: u64,
    /// Their lines.
    pub bytes: Vec<u8>,
    /// Where they stand in the text, in their order.
    pub sites: Vec<CallSite>,
}

/// The first numbers.
fn numbers(alloc: Global, count: u64) -> Result<BTreeSet<u64>, AllocError> {
    let mut all = BTreeSet::new(alloc);
    for number in 0..count {
        all.insert(number)?;
    }
    Ok(all)
}

/// The calls of these bytes, which are the last ones of a text, behind so many of its lines; `None` if they aren't so
/// many.
fn calls_in(
    alloc: Global,
    note: &TextNote,
    bytes: &[u8],
    lines: u64,
    count: u64,
) -> Result<Option<LastCalls>, AllocError> {
    let wanted = numbers(alloc, count)?;
    let Ok(look) = look_at_front(alloc, MemoryReader::new(bytes), u64::MAX, &wanted) else {
        return Ok(None);
    };
    let Some(first) = note.calls().checked_sub(count) else {
        return Ok(None);
    };
    if look.calls() != count {
        return Ok(None);
    }
    let mut sites = Vec::new(alloc);
    for site in look.into_sites() {
        sites.push(site.behind(first, lines))?;
    }
    Ok(Some(LastCalls {
        first,
        bytes: Vec::from_slice(alloc, bytes)?,
        sites,
    }))
}

/// The last calls of a text, so many, or those that begin in its last bytes. None are told of a text that has calls that
/// aren't read: at such a call another thread may have ended the reading, and then the last calls aren't the last ones
/// that were read.
pub(crate) fn last_calls(
    alloc: Global,
    note: &TextNote,
    count: u64,
    last: &LastBytes,
) -> Result<Option<LastCalls>, AllocError> {
    if !note.unread().is_empty() {
        return Ok(None);
    }
    let (at, found) = start_of_last(last, count);
    let (front, bytes) = last.bytes.as_slice().split_at(at.min(last.bytes.len()));
    let lines = last.lines.saturating_add(lines_in(front));
    calls_in(alloc, note, bytes, lines, found)
}
