//! Whether known values of a round's members differ.

ghost use Rattle.std.specs.Prelude.{◌≡◌, ◌∷◌, []};
ghost use Rattle.std.specs.List.{list_all, list_any};
ghost use Rattle.std.specs.Option.{option_copied};
ghost use Rattle.trace_arguments.specs.Differing.{are_compared, differ, do_differ, is_alike, is_one_type, is_other_than, misfits, root_of, some_misfits};
ghost use Rattle.trace_arguments.specs.Values.{is_root};

use crate::disagreement::Comparison;
use crate::values::{Valued, is_root};
use call_arguments::Line;

/// Whether two members have one value.
pub(crate) fn is_alike(line: Line, one: &Valued<'_>, other: &Valued<'_>) -> bool
    ensures { result ≡ is_alike line one.now other.now }
{
    match line {
        Line::Operation => one.known.name() == other.known.name(),
        Line::Alike | Line::Rooted | Line::Listed => one.known.counts() == other.known.counts(),
    }
}

/// Whether two members have one datatype.
fn is_one_type(one: &Valued<'_>, other: &Valued<'_>) -> bool
    ensures { result ≡ is_one_type one.now other.now }
{
    one.known.name() == other.known.name()
}

/// Whether all have the datatype of the first.
fn are_one_type(first: &Valued<'_>, others: &[Valued<'_>]) -> bool
    ensures { result ≡ list_all (is_one_type first.now) others.now }
{
    for other in others {
        if !is_one_type(first, other) {
            return false;
        }
    }
    true
}

/// Whether counts are compared: all of them have one datatype.
fn are_compared(line: Line, first: &Valued<'_>, others: &[Valued<'_>]) -> bool
    ensures { result ≡ are_compared line first.now others.now }
{
    match line {
        Line::Operation => true,
        Line::Alike | Line::Rooted | Line::Listed => are_one_type(first, others),
    }
}

/// Whether all have the value of the first.
fn are_alike(line: Line, first: &Valued<'_>, others: &[Valued<'_>]) -> bool
    ensures { result ≡ list_all (is_alike line first.now) others.now }
{
    for other in others {
        if !is_alike(line, first, other) {
            return false;
        }
    }
    true
}

/// Whether two known values differ.
fn do_differ(line: Line, values: &[Valued<'_>]) -> bool
    ensures { result ≡ do_differ line values.now }
{
    match values {
        [first, others @ ..] => {
            are_compared(line, first, others) && !are_alike(line, first, others)
        }
        [] => false,
    }
}

/// Whether a member is the root.
fn is_the_root(root: Option<u32>, value: &Valued<'_>) -> bool
    ensures { result ≡ is_root root value.now.place }
{
    is_root(root, value.place)
}

/// What is known of the root.
pub(crate) fn root_of<'v, 'a>(root: Option<u32>, values: &'v [Valued<'a>]) -> Option<&'v Valued<'a>>
    ensures { option_copied result ≡ root_of root values.now }
{
    for value in values {
        if is_the_root(root, value) {
            return Some(value);
        }
    }
    None
}

/// Whether the counts aren't this one alone.
fn is_other_than(counts: &[u64], count: Option<u64>) -> bool
    ensures { result ≡ is_other_than counts.now count }
{
    match count {
        Some(count) => [count].as_slice() != counts,
        None => false,
    }
}

/// Whether the count of a member isn't the one that the root's list has for it.
pub(crate) fn misfits(root: &Valued<'_>, value: &Valued<'_>) -> bool
    ensures { result ≡ misfits root.now value.now }
{
    if root.place == value.place || !is_one_type(root, value) {
        return false;
    }
    is_other_than(
        value.known.counts(),
        root.known.counts().get(value.place).copied(),
    )
}

/// Whether some member's does so.
fn one_misfits(root: &Valued<'_>, values: &[Valued<'_>]) -> bool
    ensures { result ≡ list_any (misfits root.now) values.now }
{
    for value in values {
        if misfits(root, value) {
            return true;
        }
    }
    false
}

/// The same, where the root's list is known.
fn some_misfits(root: Option<&Valued<'_>>, values: &[Valued<'_>]) -> bool
    ensures { result ≡ some_misfits (option_copied root.entry) values.now }
{
    match root {
        Some(root) => one_misfits(root, values),
        None => false,
    }
}

/// Whether known values differ.
pub(crate) fn differ(c: Comparison, values: &[Valued<'_>]) -> bool
    ensures { result ≡ differ c values.now }
{
    match c.line {
        Line::Listed => some_misfits(root_of(c.root, values), values),
        Line::Operation | Line::Alike | Line::Rooted => do_differ(c.line, values),
    }
}
