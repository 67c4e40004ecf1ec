//! A line that is put whole: one text for the sink, where each of its words and numbers would be one.

ghost use Rattle.std.specs.Prelude.{◌≡◌, ◌+◌, ◌≤◌, ◌++◌, codes, decimal, length};
ghost use Rattle.trace_report.specs.Words.{part_text, where_so};

use itoa::write_digits;
use std::marker::Model;

/// The bytes that a line has room for: `pair `, two operations of three numbers of 20 digits with what parts them, the
/// space between them, ` over` and the line feed.
pub(crate) const ROOM: usize = 136;

/// A line, made from its end to its front, so that the digits of a number stay where they are made. In a contract it
/// is its text.
#[derive(Drop)]
pub(crate) struct Line {
    bytes: [u8; ROOM],
    /// Where the text starts. It goes to the end.
    start: usize,
}

impl Model for Line {
    ghost use Rattle.std.specs.Prelude.{ℕ, ◌≤◌, List, drop};
    ghost use Rattle.trace_report.specs.declared.line.TheConstants.{ROOM};

    ghost Value = { List ℕ };

    ghost view = { λ l. drop l.start l.bytes };

    ghost invariant = { λ l. l.start ≤ ROOM };
}

impl Line {
    /// A line that has its line feed alone.
    #[inline(always)]
    pub(crate) fn new() -> Line
        ensures { result ≡ codes "\n" }
    {
        Line {
            bytes: [b'\n'; ROOM],
            start: ROOM - 1,
        }
    }

    /// Puts a word in front.
    #[inline(always)]
    pub(crate) fn prepend(&mut self, word: &[u8])
        requires { length word.now + length self.old ≤ ROOM }
        ensures { self.new ≡ word.now ++ self.old }
    {
        let end = self.start;
        self.start -= word.len();
        self.bytes[self.start..end].copy_from_slice(word);
    }

    /// Puts the word in front, where it applies.
    #[inline(always)]
    pub(crate) fn prepend_where(&mut self, applies: bool, word: &[u8])
        requires { length word.now + length self.old ≤ ROOM }
        ensures text { self.new ≡ where_so applies word.now ++ self.old }
        ensures short { length self.new ≤ length word.now + length self.old }
    {
        if applies {
            self.prepend(word);
        }
    }

    /// Puts a number in front.
    #[inline(always)]
    pub(crate) fn prepend_number(&mut self, number: u64)
        requires { 20 + length self.old ≤ ROOM }
        ensures text { self.new ≡ decimal number ++ self.old }
        ensures short { length self.new ≤ 20 + length self.old }
    {
        self.start = write_digits(number, &mut self.bytes, self.start);
    }

    /// Puts the part of a Startall in front, behind a point: nothing for the first part, and for every other call.
    #[inline(always)]
    pub(crate) fn prepend_part(&mut self, part: u32)
        requires { 21 + length self.old ≤ ROOM }
        ensures text { self.new ≡ part_text (codes ".") part ++ self.old }
        ensures short { length self.new ≤ 21 + length self.old }
    {
        if part > 0 {
            self.prepend_number(part as u64);
            self.prepend(b".");
        }
    }

    /// The whole line.
    #[inline(always)]
    pub(crate) fn text(&self) -> &[u8]
        ensures { result.now ≡ self.now }
    {
        &self.bytes[self.start..]
    }
}
