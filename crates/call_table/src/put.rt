//! Pieces that are added to bytes.

use call_words::nine_digits;
use itoa::Buffer;
use std::alloc::AllocError;

/// Adds a piece as it stands.
pub(crate) fn put(out: &mut Vec<u8>, piece: &[u8]) -> Result<(), AllocError> {
    out.extend_from_slice(piece)
}

/// Adds a number.
pub(crate) fn put_number(out: &mut Vec<u8>, number: u64) -> Result<(), AllocError> {
    let mut buffer = Buffer::new();
    put(out, buffer.format(number).as_bytes())
}

/// Adds a number that may be below 0.
pub(crate) fn put_signed(out: &mut Vec<u8>, number: i64) -> Result<(), AllocError> {
    if number < 0 {
        put(out, b"-")?;
    }
    put_number(out, number.unsigned_abs())
}

/// Adds a time as seconds with nine decimals.
pub(crate) fn put_seconds(out: &mut Vec<u8>, nanoseconds: u64) -> Result<(), AllocError> {
    put_number(out, nanoseconds / 1_000_000_000)?;
    put(out, b".")?;
    put(out, &nine_digits(nanoseconds))
}

/// Adds a time as microseconds with three decimals.
pub(crate) fn put_microseconds(out: &mut Vec<u8>, nanoseconds: u64) -> Result<(), AllocError> {
    put_number(out, nanoseconds / 1_000)?;
    let digits = nine_digits(nanoseconds);
    put(out, b".")?;
    put(out, &[digits[6], digits[7], digits[8]])
}

/// A byte of a text as it is shown: what isn't a printed character of ASCII stands as `?`.
pub(crate) fn shown(byte: u8) -> u8 {
    if 32 <= byte && byte < 127 { byte } else { b'?' }
}

/// Whether a text stands as it is, in CSV and in a string of JSON.
pub(crate) fn is_plain(text: &[u8]) -> bool {
    text.iter().all(|byte| {
        shown(*byte) == *byte && *byte != b'"' && *byte != b'\\' && *byte != b','
    })
}

/// Adds a text as a string of JSON.
pub(crate) fn put_string(out: &mut Vec<u8>, text: &[u8]) -> Result<(), AllocError> {
    put(out, b"\"")?;
    if is_plain(text) {
        put(out, text)?;
        return put(out, b"\"");
    }
    for byte in text {
        if *byte == b'"' || *byte == b'\\' {
            put(out, b"\\")?;
        }
        out.push(shown(*byte))?;
    }
    put(out, b"\"")
}
