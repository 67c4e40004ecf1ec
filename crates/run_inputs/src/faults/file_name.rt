//! Names of files in lines for a person.

ghost use Rattle.std.specs.Fmt.{WritesOnOk};
ghost use Rattle.run_inputs.specs.FileNames.{shown_char, shown_name};

use std::fmt;

/// A file's name as a line shows it: unchanged, except that control characters are escaped as in Rust. So a name stays
/// on one line and can't control a terminal.
#[derive(Clone, Copy)]
pub struct FileName<'a> {
    /// As the command line or a manifest spells it.
    pub name: &'a str,
}

impl<'a> FileName<'a> {
    ghost use Rattle.std.specs.Prelude.{◌≡◌};

    /// The file of this name, as the command line or a manifest spells it.
    pub fn new(name: &'a str) -> Self
        ensures { result.name.now ≡ name.now }
    {
        FileName { name }
    }
}

impl<'a> fmt::Display for FileName<'a> {
    ghost use Rattle.std.specs.Prelude.{Some};
    ghost use Rattle.run_inputs.specs.FileNames.{shown_name};

    ghost output = { λ shown. Some (shown_name shown.name.now) };

    fn fmt<W: fmt::Write>(&self, f: &mut fmt::Formatter<W>) -> fmt::Result {
        put_name(f, self.name)
    }
}

/// A file's name, with its control characters as escapes.
fn put_name<W: fmt::Write>(f: &mut fmt::Formatter<W>, name: &str) -> fmt::Result
    ensures { WritesOnOk W.write_str_gives f.old result (shown_name name.now) f.new }
{
    for c in name.chars() {
        put_char(f, c)?;
    }
    Ok(())
}

/// A control character as an escape of Rust, any other as it stands.
pub(crate) fn put_char<W: fmt::Write>(f: &mut fmt::Formatter<W>, c: char) -> fmt::Result
    ensures { WritesOnOk W.write_str_gives f.old result (shown_char c) f.new }
{
    match c {
        '\0' => f.write_str("\\0"),
        '\t' => f.write_str("\\t"),
        '\n' => f.write_str("\\n"),
        '\r' => f.write_str("\\r"),
        c if c.is_control() => {
            let code = c as u32;
            write!(f, "\\u{{{code:x}}}")
        }
        c => f.write_char(c),
    }
}
