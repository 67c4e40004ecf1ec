//! Lists of numbers that a parameter says: ranks, sizes, flags, ranges.

ghost use Rattle.std.specs.Prelude.{◌≡◌, ◌<◌, ◌+◌, IfOk, length, map, pos, slice_index_or, option_and_then, option_map};
ghost use Rattle.std.specs.Option.{option_copied};
ghost use Rattle.comm_calls.specs.Lists.{all_ints, flags_in, ints_in, ints_of, naturals_of, range_at, ranges_in, ranges_of, ranks_in, size_of, sizes_in};
ghost use Rattle.comm_calls.specs.Numbers.{is_set};
ghost use Rattle.dumpi_text.specs.Value.{value_of};

use crate::number::{int_of, natural_of};
use comm_makings::RankRange;
use dumpi_calls::Memory;
use dumpi_text::{Num, Value, ValueFault, parse_value};
use std::alloc::Global;

/// The numbers of a list, where each is a C `int`.
fn ints_of(alloc: Global, numbers: &[Num]) -> Result<Option<Vec<i32>>, Memory>
    ensures { IfOk result (λ o. option_map (λ v. v.items) o ≡ ints_of numbers.now) }
{
    let mut ints = Vec::new(alloc);
    for number in numbers {
        let Some(int) = int_of(number.value) else {
            return Ok(None);
        };
        ints.push(int)?;
    }
    Ok(Some(ints))
}

/// A list of numbers: a list, or a number as a list of one.
fn all_ints(alloc: Global, value: Value) -> Result<Option<Vec<i32>>, Memory>
    ensures { IfOk result (λ o. option_map (λ v. v.items) o ≡ all_ints value) }
{
    match value {
        Value::Number(number) => ints_of(alloc, &[number]),
        Value::Numbers(numbers) => ints_of(alloc, numbers.as_slice()),
        Value::Groups(_) => Ok(None),
    }
}

/// The numbers that a text lists.
fn ints_by(alloc: Global, text: &[u8]) -> Result<Option<Vec<i32>>, Memory>
    ensures { IfOk result (λ o. option_map (λ v. v.items) o ≡ option_and_then all_ints (value_of text.now)) }
{
    match parse_value(alloc, text) {
        Ok(value) => all_ints(alloc, value),
        Err(ValueFault::BadValue) => Ok(None),
        Err(ValueFault::Memory) => Err(Memory),
    }
}

/// The numbers that a parameter lists.
fn ints_in(alloc: Global, text: Option<&[u8]>) -> Result<Option<Vec<i32>>, Memory>
    ensures { IfOk result (λ o. option_map (λ v. v.items) o ≡ ints_in (option_copied text.entry)) }
{
    match text {
        Some(text) => ints_by(alloc, text),
        None => Ok(None),
    }
}

/// Ranks, none of them negative.
fn naturals_of(alloc: Global, ints: &[i32]) -> Result<Option<Vec<u32>>, Memory>
    ensures { IfOk result (λ o. option_map (λ v. v.items) o ≡ naturals_of ints.now) }
{
    let mut naturals = Vec::new(alloc);
    for int in ints {
        let Some(natural) = natural_of(*int as i64) else {
            return Ok(None);
        };
        naturals.push(natural)?;
    }
    Ok(Some(naturals))
}

/// Ranks, none of them negative.
pub(crate) fn ranks_in(alloc: Global, text: Option<&[u8]>) -> Result<Option<Vec<u32>>, Memory>
    ensures { IfOk result (λ o. option_map (λ v. v.items) o ≡ ranks_in (option_copied text.entry)) }
{
    match ints_in(alloc, text)? {
        Some(ints) => naturals_of(alloc, &ints),
        None => Ok(None),
    }
}

/// A dimension's size, and 0 where it is below 1.
fn size_of(int: i32) -> u32
    ensures { result ≡ size_of int }
{
    if int < 0 { 0 } else { int as u32 }
}

/// The sizes of all dimensions.
fn sizes_of(alloc: Global, ints: &[i32]) -> Result<Vec<u32>, Memory>
    ensures { IfOk result (λ v. v.items ≡ map size_of ints.now) }
{
    let mut sizes = Vec::new(alloc);
    for int in ints {
        sizes.push(size_of(*int))?;
    }
    Ok(sizes)
}

/// The sizes of dimensions, 0 where one is below 1.
pub(crate) fn sizes_in(alloc: Global, text: Option<&[u8]>) -> Result<Option<Vec<u32>>, Memory>
    ensures { IfOk result (λ o. option_map (λ v. v.items) o ≡ sizes_in (option_copied text.entry)) }
{
    match ints_in(alloc, text)? {
        Some(ints) => Ok(Some(sizes_of(alloc, &ints)?)),
        None => Ok(None),
    }
}

/// Whether a flag is set.
fn is_set(int: i32) -> bool
    ensures { result ≡ is_set int }
{
    int != 0
}

/// Which flags are set.
fn flags_of(alloc: Global, ints: &[i32]) -> Result<Vec<bool>, Memory>
    ensures { IfOk result (λ v. v.items ≡ map is_set ints.now) }
{
    let mut flags = Vec::new(alloc);
    for int in ints {
        flags.push(is_set(*int))?;
    }
    Ok(flags)
}

/// Flags.
pub(crate) fn flags_in(alloc: Global, text: Option<&[u8]>) -> Result<Option<Vec<bool>>, Memory>
    ensures { IfOk result (λ o. option_map (λ v. v.items) o ≡ flags_in (option_copied text.entry)) }
{
    match ints_in(alloc, text)? {
        Some(ints) => Ok(Some(flags_of(alloc, &ints)?)),
        None => Ok(None),
    }
}

/// The number at a place of the list.
fn int_at(ints: &[i32], at: usize) -> i32
    requires { at < length ints.now }
    ensures { result ≡ slice_index_or ints.now at (pos 0) }
{
    ints[at]
}

/// The range of the three numbers from a place on.
fn range_at(ints: &[i32], at: usize) -> RankRange
    requires { at + 2 < length ints.now }
    ensures { result ≡ range_at ints.now at }
{
    RankRange {
        first: int_at(ints, at),
        last: int_at(ints, at + 1),
        stride: int_at(ints, at + 2),
    }
}

/// Three numbers a range: its first rank, its last and the stride (MPI 4.0, 7.3.2).
fn ranges_of(alloc: Global, ints: &[i32]) -> Result<Option<Vec<RankRange>>, Memory>
    ensures { IfOk result (λ o. option_map (λ v. v.items) o ≡ ranges_of ints.now) }
{
    let mut ranges = Vec::new(alloc);
    let mut at = 0;
    while at + 2 < ints.len() {
        ranges.push(range_at(ints, at))?;
        at += 3;
    }
    if at == ints.len() {
        Ok(Some(ranges))
    } else {
        Ok(None)
    }
}

/// Ranges of ranks, three numbers each.
pub(crate) fn ranges_in(
    alloc: Global,
    text: Option<&[u8]>,
) -> Result<Option<Vec<RankRange>>, Memory>
    ensures { IfOk result (λ o. option_map (λ v. v.items) o ≡ ranges_in (option_copied text.entry)) }
{
    match ints_in(alloc, text)? {
        Some(ints) => ranges_of(alloc, &ints),
        None => Ok(None),
    }
}
