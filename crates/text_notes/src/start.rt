//! What the first bytes of a text without calls say of it.

ghost use Rattle.std.specs.Prelude.{◌≡◌, IfOk, OnErr};
ghost use Rattle.dumpi_text.specs.Failing.{Fails};
ghost use Rattle.text_notes.specs.Starts.{IsStartOf, begins, begins_by, guess, has_zero, is_marked, is_utf16, packer_of, start_in, unpacked};

use mpi_model::{Failed, Read, ReadFault, read_exactly};

/// How many bytes of a text are looked at.
pub const LONGEST_FRONT: usize = 512;

/// What a text without calls is taken for, by its first bytes.
#[derive(Clone, Copy)]
pub enum Start {
    /// It has no byte.
    Empty,
    /// The two bytes `1f 8b`.
    Gzip,
    /// The three bytes `BZh`.
    Bzip2,
    /// The three bytes `fd 37 7a`.
    Xz,
    /// The three bytes `28 b5 2f`.
    Zstd,
    /// The byte order mark of UTF-16, in either order.
    Utf16,
    /// The byte order mark of UTF-8.
    Mark,
    /// A byte 0, as a binary trace has.
    Binary,
    /// None of these.
    Lines,
}

/// Whether the first two bytes are these.
fn begins(one: u8, other: u8, front: &[u8]) -> bool
    ensures { result ≡ begins one other front.now }
{
    match front {
        [first, second, ..] => *first == one && *second == other,
        _ => false,
    }
}

/// Whether the first three bytes are these.
fn begins_by(one: u8, two: u8, three: u8, front: &[u8]) -> bool
    ensures { result ≡ begins_by one two three front.now }
{
    match front {
        [first, second, third, ..] => *first == one && *second == two && *third == three,
        _ => false,
    }
}

/// Whether the mark of a byte order stands in front of UTF-16 text.
fn is_utf16(front: &[u8]) -> bool
    ensures { result ≡ is_utf16 front.now }
{
    begins(0xff, 0xfe, front) || begins(0xfe, 0xff, front)
}

/// Whether the byte order mark of UTF-8 stands in front.
fn is_marked(front: &[u8]) -> bool
    ensures { result ≡ is_marked front.now }
{
    match front {
        [first, second, third, ..] => *first == 0xef && *second == 0xbb && *third == 0xbf,
        _ => false,
    }
}

/// Whether some byte is 0, as a binary trace has one.
fn has_zero(front: &[u8]) -> bool
    ensures { result ≡ has_zero front.now }
{
    for byte in front {
        if *byte == 0 {
            return true;
        }
    }
    false
}

/// What packed a text, by its first bytes.
fn packer_of(front: &[u8]) -> Option<Start>
    ensures { result ≡ packer_of front.now }
{
    if begins(0x1f, 0x8b, front) {
        Some(Start::Gzip)
    } else if begins_by(b'B', b'Z', b'h', front) {
        Some(Start::Bzip2)
    } else if begins_by(0xfd, 0x37, 0x7a, front) {
        Some(Start::Xz)
    } else if begins_by(0x28, 0xb5, 0x2f, front) {
        Some(Start::Zstd)
    } else {
        None
    }
}

/// What a front of some bytes is taken for.
fn guess(front: &[u8]) -> Start
    ensures { result ≡ guess front.now }
{
    match packer_of(front) {
        Some(packed) => packed,
        None => unpacked(front),
    }
}

/// What a front of some bytes is taken for that nothing packed.
fn unpacked(front: &[u8]) -> Start
    ensures { result ≡ unpacked front.now }
{
    if is_utf16(front) {
        Start::Utf16
    } else if is_marked(front) {
        Start::Mark
    } else if has_zero(front) {
        Start::Binary
    } else {
        Start::Lines
    }
}

/// What a text without calls is taken for, by its first bytes.
fn start_in(front: &[u8]) -> Start
    ensures { result ≡ start_in front.now }
{
    if front.is_empty() {
        Start::Empty
    } else {
        guess(front)
    }
}

impl Start {
    ghost use Rattle.std.specs.Prelude.{◌≡◌};
    ghost use Rattle.text_notes.specs.Starts.{is_to_be_unpacked};

    /// Whether such a text has to be unpacked or written anew before it can be read.
    pub fn is_to_be_unpacked(self) -> bool
        ensures { result ≡ is_to_be_unpacked self }
    {
        match self {
            Start::Gzip | Start::Bzip2 | Start::Xz | Start::Zstd => true,
            Start::Utf16 | Start::Binary => true,
            Start::Empty | Start::Mark | Start::Lines => false,
        }
    }
}

/// What a text is taken for, by its first bytes. `Failed` comes where the reader fails.
pub fn start_of<R: Read>(reader: R) -> Result<Start, Failed>
    ensures ok { IfOk result (IsStartOf (R.left reader)) }
    ensures err { OnErr result (Fails R.failures) }
{
    let mut reader = reader;
    let mut front = [0; LONGEST_FRONT];
    match read_exactly(&mut reader, &mut front) {
        Ok(()) => Ok(start_in(&front)),
        Err(ReadFault::Short { taken }) => Ok(start_in(&front[..taken])),
        Err(ReadFault::Failed { .. }) => Err(Failed),
    }
}
