//! How many bytes the first lines of a text have.

ghost use Rattle.std.specs.Prelude.{◌≡◌, ◌+◌, ◌-◌, ◌^◌, IfOk, OnErr, min};
ghost use Rattle.dumpi_text.specs.Failing.{Fails};
ghost use Rattle.text_cuts.specs.Lines.{TellsLines, bytes_of_lines, missing_lines};

use mpi_model::{Failed, Read};

/// How many bytes are taken from a reader at once.
const CHUNK: usize = 4096;

/// The first lines of a text.
#[derive(Clone, Copy)]
pub struct FirstLines {
    /// How many bytes they have, with their line feeds; those of the whole text, where it has fewer lines.
    pub bytes: u64,
    /// How many of them the text doesn't have, each with its line feed.
    pub missing: u64,
}

/// The first lines with those of a chunk that follows.
#[tactic(auto, using(crate::proofs::Counting::byte_more, crate::proofs::Counting::missing_more))]
fn counted(chunk: &[u8], before: FirstLines) -> FirstLines
    ensures bytes { result.bytes ≡ min (before.bytes + bytes_of_lines before.missing chunk.now) (2 ^ 64 - 1) }
    ensures missing { result.missing ≡ missing_lines before.missing chunk.now }
{
    let mut bytes = before.bytes;
    let mut missing = before.missing;
    for byte in chunk {
        if missing == 0 {
            return FirstLines { bytes, missing };
        }
        bytes = bytes.saturating_add(1);
        if *byte == b'\n' {
            missing -= 1;
        }
    }
    FirstLines { bytes, missing }
}

/// The first lines of a text, so many, of which at most so many bytes are read.
#[tactic(auto, using(crate::proofs::Counting::counts_none, crate::proofs::Counting::counts_more, crate::proofs::Counting::counts_end, crate::proofs::Counting::counts_all, crate::proofs::Counting::counts_most))]
pub fn lines_of<R: Read>(reader: R, count: u64, most: u64) -> Result<FirstLines, Failed>
    ensures ok { IfOk result (TellsLines most count (R.left reader)) }
    ensures err { OnErr result (Fails R.failures) }
{
    let mut reader = reader;
    let mut chunk = [0; CHUNK];
    let mut lines = FirstLines {
        bytes: 0,
        missing: count,
    };
    while lines.missing > 0 && lines.bytes < most {
        let taken = reader.read(&mut chunk)?;
        if taken == 0 {
            return Ok(lines);
        }
        lines = counted(&chunk[..taken], lines);
    }
    Ok(lines)
}
