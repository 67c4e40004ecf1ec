//! A reader that fails in the midst of a text.

use dumpi_text::{TextCause, TextFault, Texts};
use mpi_model::{Failed, Read};
use std::alloc::Global;
use std::test::Fail;

/// Gives at most five bytes a call, and then fails. It doesn't tell its bytes.
#[derive(Drop)]
struct Failing<'a> {
    rest: &'a [u8],
    failures: u64,
}

impl<'a> Read for Failing<'a> {
    ghost failures = { λ d. d.failures };

    fn read(&mut self, buffer: &mut [u8]) -> Result<usize, Failed> {
        let count = self.rest.len().min(buffer.len()).min(5);
        if count == 0 {
            self.failures = self.failures.saturating_add(1);
            return Err(Failed);
        }
        buffer[..count].copy_from_slice(&self.rest[..count]);
        self.rest = &self.rest[count..];
        Ok(count)
    }
}

/// Two lines of 62 and 63 bytes.
pub(crate) const TEXT: &[u8] =
    b"A entering at walltime 1.5, cputime 0.25 seconds in thread 0.\nA returning at walltime 1.75, cputime 0.5 seconds in thread 0.\n";

/// How many calls come before the reader fails, the line that is refused for it, and how often the
/// text is refused again.
type Ending = (u64, Option<u64>, u64);

/// After how many bytes the reader fails, and how the text then ends in four answers.
static ROWS: [(usize, Ending); 6] = [
    (0, (0, Some(1), 3)),
    (61, (0, Some(1), 3)),
    (62, (0, Some(2), 3)),
    (63, (0, Some(2), 3)),
    (124, (0, Some(2), 3)),
    (125, (1, Some(3), 2)),
];

/// How the front of the text of this length ends.
fn ending(alloc: Global, length: usize) -> Result<Ending, Fail> {
    let rest = TEXT.get(..length).ok_or("past the end")?;
    let mut texts = Texts::new(alloc, Failing { rest, failures: 0 })?;
    let (mut calls, mut at, mut again): (u64, Option<u64>, u64) = (0, None, 0);
    for _ in 0..4 {
        match texts.next_raw() {
            Ok(Some(_)) => calls = calls.saturating_add(1),
            Err(
                TextFault::At {
                    line,
                    cause: TextCause::Read,
                },
            ) => at = Some(line),
            Err(TextFault::Ended) => again = again.saturating_add(1),
            _ => return Err("another answer".into()),
        }
    }
    Ok((calls, at, again))
}

#[test]
fn a_reader_that_fails_ends_the_text_for_good(rt: HostRuntime) -> Result<(), Fail> {
    for row in &ROWS {
        let (length, want) = *row;
        let found = ending(rt.alloc(), length)?;
        assert!(rt; found == want, "after {length} bytes: {found:?}");
    }
    Ok(())
}
