//! The two lines of a check.

ghost use Rattle.std.specs.Prelude.{◌≡◌, ◌↔◌, ◌++◌, IfOk, IsTrue, length, string_bytes};
ghost use Rattle.trace_check.specs.Lines.{IsRightCheck, TellsCheck, equal_word, valid_word};
ghost use Rattle.trace_check.specs.Printed.{line_text};

use crate::tables::are_same_tables;
use crate::verdict::is_right_verdict;
use std::alloc::{AllocError, Global};
use std::fmt;
use trace_ops::State;
use trace_pair::PairTable;
use trace_stuck::{Condition, Verdict};

/// The two lines of a check: whether both tables are the same, and whether the verdict is right for these states and
/// conditions; the counts are those of the first table and of the verdict. With them comes whether both say so. Fails
/// with `AllocError` when memory is refused.
pub fn check_lines(
    alloc: Global,
    first: &PairTable,
    second: &PairTable,
    states: &[State],
    conditions: &[Option<Condition>],
    verdict: &Verdict,
) -> Result<(String, bool), AllocError>
    ensures text { IfOk result (λ t. TellsCheck first.now second.now states.now conditions.now verdict.now (string_bytes t.0)) }
    ensures held { IfOk result (λ t. IsTrue t.1 ↔ IsRightCheck first.now second.now states.now conditions.now verdict.now) }
{
    let equal = are_same_tables(first, second);
    let valid = is_right_verdict(states, conditions, &verdict.stuck, &verdict.release);
    let tables = Line {
        first: Count {
            name: "pairs",
            count: first.pairs().len(),
        },
        second: Count {
            name: "postponed",
            count: first.postponed().len(),
        },
        word: equal_word(equal),
    };
    let ranks = Line {
        first: Count {
            name: "stuck",
            count: verdict.stuck.len(),
        },
        second: Count {
            name: "released",
            count: verdict.release.len(),
        },
        word: valid_word(valid),
    };
    let text = both_lines(alloc, tables, ranks)?;
    Ok((text, equal && valid))
}

/// Two lines, one behind the other.
fn both_lines(alloc: Global, first: Line, second: Line) -> Result<String, AllocError>
    ensures { IfOk result (λ text. string_bytes text ≡ line_text first ++ line_text second) }
{
    let mut text = first.to_string(alloc)?;
    let more = second.to_string(alloc)?;
    text.push_str(more.as_str())?;
    Ok(text)
}

/// A line of a check: two counts, and a word on them, with the line's end.
#[derive(Clone, Copy)]
struct Line {
    first: Count,
    second: Count,
    word: &'static str,
}

#[derive(Clone, Copy)]
struct Count {
    name: &'static str,
    count: usize,
}

impl fmt::Display for Line {
    ghost use Rattle.std.specs.Prelude.{Some};
    ghost use Rattle.trace_check.specs.Printed.{line_text};

    ghost output = { λ line. Some (line_text line) };

    fn fmt<W: fmt::Write>(&self, f: &mut fmt::Formatter<W>) -> fmt::Result {
        let (first, second, word) = (self.first, self.second, self.word);
        write!(f, "check {first} {second} {word}")
    }
}

impl fmt::Display for Count {
    ghost use Rattle.std.specs.Prelude.{Some};
    ghost use Rattle.trace_check.specs.Lines.{count_text};

    ghost output = { λ it. Some (count_text it.name.now it.count) };

    fn fmt<W: fmt::Write>(&self, f: &mut fmt::Formatter<W>) -> fmt::Result {
        let (name, count) = (self.name, self.count);
        write!(f, "{name} {count}")
    }
}

/// Whether both tables are the same, in a word that ends its line.
fn equal_word(equal: bool) -> &'static str
    ensures { result.now ≡ equal_word equal }
{
    if equal { "equal\n" } else { "unequal\n" }
}

/// Whether the verdict is right, in a word that ends its line.
fn valid_word(valid: bool) -> &'static str
    ensures { result.now ≡ valid_word valid }
{
    if valid { "valid\n" } else { "invalid\n" }
}
