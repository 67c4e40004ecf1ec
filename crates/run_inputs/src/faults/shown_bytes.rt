//! Bytes of a text in lines for a person.

ghost use Rattle.std.specs.Prelude.{◌≡◌, ◌<◌, ◌≤◌, length, take};
ghost use Rattle.std.specs.Fmt.{WritesOnOk};
ghost use Rattle.run_inputs.specs.ShownBytes.{count_text, cut_text, shown_byte, shown_bytes, shown_text, value_text, whole_text};

use crate::faults::file_name::put_char;
use std::fmt;

/// How many bytes of a value are shown: a longer one is cut off.
pub const LONGEST_SHOWN: usize = 100;

const CUT_OFF: &str = ", cut off: the value has ";

/// Bytes as a line shows them: ASCII as it stands, but for control characters, which are written as in a file's name,
/// and any other byte by its number, as Rust escapes it. So they stay on one line and can't control a terminal.
#[derive(Clone, Copy)]
pub(crate) struct ShownBytes<'a> {
    bytes: &'a [u8],
}

impl<'a> fmt::Display for ShownBytes<'a> {
    ghost use Rattle.std.specs.Prelude.{Some};
    ghost use Rattle.run_inputs.specs.ShownBytes.{shown_bytes};

    ghost output = { λ shown. Some (shown_bytes shown.bytes.now) };

    fn fmt<W: fmt::Write>(&self, f: &mut fmt::Formatter<W>) -> fmt::Result {
        put_bytes(f, self.bytes)
    }
}

/// Each byte as a line shows it.
fn put_bytes<W: fmt::Write>(f: &mut fmt::Formatter<W>, bytes: &[u8]) -> fmt::Result
    ensures { WritesOnOk W.write_str_gives f.old result (shown_bytes bytes.now) f.new }
{
    for byte in bytes {
        put_byte(f, *byte)?;
    }
    Ok(())
}

/// A byte: an ASCII character as in a file's name, any other by its number, as Rust escapes it.
fn put_byte<W: fmt::Write>(f: &mut fmt::Formatter<W>, byte: u8) -> fmt::Result
    ensures { WritesOnOk W.write_str_gives f.old result (shown_byte byte) f.new }
{
    if byte < 128 {
        put_char(f, byte as char)
    } else {
        write!(f, "\\x{byte:x}")
    }
}

/// The first bytes of a value.
fn front_of(value: &[u8], count: usize) -> &[u8]
    requires { count ≤ length value.now }
    ensures { result.now ≡ take count value.now }
{
    &value[..count]
}

/// That a text has these bytes for a parameter.
fn put_shown<W: fmt::Write>(f: &mut fmt::Formatter<W>, name: &str, bytes: &[u8]) -> fmt::Result
    ensures { WritesOnOk W.write_str_gives f.old result (shown_text name.now bytes.now) f.new }
{
    let shown = ShownBytes { bytes };
    write!(f, "  the text has `{name}={shown}`")
}

/// How many bytes there are of a value that is cut off.
fn put_count<W: fmt::Write>(f: &mut fmt::Formatter<W>, count: usize) -> fmt::Result
    ensures { WritesOnOk W.write_str_gives f.old result (count_text count) f.new }
{
    f.write_str(CUT_OFF)?;
    write!(f, "{count} bytes\n")
}

/// A value that is cut off.
fn put_cut<W: fmt::Write>(f: &mut fmt::Formatter<W>, name: &str, value: &[u8]) -> fmt::Result
    requires { LONGEST_SHOWN < length value.now }
    ensures { WritesOnOk W.write_str_gives f.old result (cut_text name.now value.now) f.new }
{
    put_shown(f, name, front_of(value, LONGEST_SHOWN))?;
    put_count(f, value.len())
}

/// One that is shown whole.
fn put_whole<W: fmt::Write>(f: &mut fmt::Formatter<W>, name: &str, value: &[u8]) -> fmt::Result
    ensures { WritesOnOk W.write_str_gives f.old result (whole_text name.now value.now) f.new }
{
    put_shown(f, name, value)?;
    f.write_str("\n")
}

/// What a text has for a parameter of this name. A long value is cut off behind its first bytes, and the line says how
/// many it has.
pub(crate) fn put_value<W: fmt::Write>(
    f: &mut fmt::Formatter<W>,
    name: &str,
    value: &[u8],
) -> fmt::Result
    ensures { WritesOnOk W.write_str_gives f.old result (value_text name.now value.now) f.new }
{
    if value.len() > LONGEST_SHOWN {
        put_cut(f, name, value)
    } else {
        put_whole(f, name, value)
    }
}
