//! Which text is of which rank, by the names of their files.

ghost use Rattle.std.specs.Prelude.{◌≡◌, ◌<◌, ◌≤◌, IfNone, IfOk, IfSome, drop, length, map, string_bytes};
ghost use Rattle.mpi_model.specs.declared.layout.TheConstants.{MOST_RANKS};
ghost use Rattle.text_layouts.specs.Names.{IsByDigits, IsOrder, LacksRank, again_at, are_numbered, byte_after, digit_after, first_from, is_number, number_of, numbers_of, twice_from};

use std::alloc::{AllocError, Global};

/// Which text is of which rank.
#[derive(Drop)]
pub enum Order {
    /// The names don't say it: the ranks are in the order of the words.
    Words,
    /// The digits at the names' ends are 0 to n - 1, each once. For each rank, the place of its text among the words.
    Digits(Vec<usize>),
    /// Each name has digits at its end, and two names have the same: their places among the words.
    Twice { first: usize, second: usize },
}

/// The digits at the end of some bytes, and before the extension that they have.
#[derive(Clone, Copy)]
pub(crate) struct Ends {
    pub run: Option<u64>,
    pub stem: Option<u64>,
}

/// The number that digits spell, with one digit more; what is above 2^64 - 1 counts as that.
fn digit_after(run: Option<u64>, byte: u8) -> u64
    requires { 48 ≤ byte }
    ensures { result ≡ digit_after run byte }
{
    let before = match run {
        Some(number) => number,
        None => 0,
    };
    before
        .saturating_mul(10)
        .saturating_add(u64::from(byte - b'0'))
}

/// The number of the digits at the end of a name, and of those before its extension, with one byte more: a dot begins
/// an extension, and behind a slash a name begins anew.
fn byte_after(ends: Ends, byte: u8) -> Ends
    ensures { result ≡ byte_after ends byte }
{
    if b'0' <= byte && byte <= b'9' {
        return Ends {
            run: Some(digit_after(ends.run, byte)),
            stem: ends.stem,
        };
    }
    if byte == b'.' {
        return Ends {
            run: None,
            stem: ends.run,
        };
    }
    if byte == b'/' {
        return Ends {
            run: None,
            stem: None,
        };
    }
    Ends {
        run: None,
        stem: ends.stem,
    }
}

/// The number that the digits at a name's end spell, or those before its extension.
fn number_of(name: &[u8]) -> Option<u64>
    ensures { result ≡ number_of name.now }
{
    let mut ends = Ends {
        run: None,
        stem: None,
    };
    for byte in name {
        ends = byte_after(ends, *byte);
    }
    match ends.run {
        Some(number) => Some(number),
        None => ends.stem,
    }
}

/// The numbers of all names.
pub(crate) fn numbers_of(alloc: Global, names: &[String]) -> Result<Vec<Option<u64>>, AllocError>
    ensures { IfOk result (λ numbers. numbers.items ≡ numbers_of (map string_bytes names.now)) }
{
    let mut numbers = Vec::with_capacity(alloc, names.len())?;
    for name in names {
        numbers.push(number_of(name.as_str().as_bytes()))?;
    }
    Ok(numbers)
}

/// Whether a name has just this number.
fn is_number(number: u64, named: Option<u64>) -> bool
    ensures { result ≡ is_number number named }
{
    match named {
        Some(named) => named == number,
        None => false,
    }
}

/// The first place from this one on at which the number stands.
pub(crate) fn first_from(numbers: &[Option<u64>], number: u64, from: usize) -> Option<usize>
    ensures { result ≡ first_from number from (drop from numbers.now) }
{
    for place in from..numbers.len() {
        if is_number(number, numbers[place]) {
            return Some(place);
        }
    }
    None
}

/// The place of each rank's text.
#[tactic(auto, using(crate::proofs::Orders::one_rank_more, crate::proofs::Orders::no_rank_yet, crate::proofs::Orders::all_ranks, crate::proofs::Orders::lacks_rank))]
fn by_digits(alloc: Global, numbers: &[Option<u64>]) -> Result<Option<Vec<usize>>, AllocError>
    ensures some { IfOk result (λ order. IfSome order (λ o. IsByDigits numbers.now o.items)) }
    ensures none { IfOk result (λ order. IfNone order (LacksRank numbers.now)) }
{
    let mut order = Vec::with_capacity(alloc, numbers.len())?;
    for rank in 0..numbers.len() {
        match first_from(numbers, rank as u64, 0) {
            Some(place) => order.push(place)?,
            None => return Ok(None),
        }
    }
    Ok(Some(order))
}

/// Whether each name has a number.
pub(crate) fn are_numbered(numbers: &[Option<u64>]) -> bool
    ensures { result ≡ are_numbered numbers.now }
{
    for number in numbers {
        if number.is_none() {
            return false;
        }
    }
    true
}

/// Where the number of this place stands again.
fn again_at(numbers: &[Option<u64>], place: usize) -> Option<usize>
    requires { place < length numbers.now }
    ensures { result ≡ again_at place (drop place numbers.now) }
{
    match numbers[place] {
        Some(number) => first_from(numbers, number, place + 1),
        None => None,
    }
}

/// The first two places at which one number stands.
#[tactic(auto, using(crate::proofs::Orders::one_alone))]
fn twice_in(numbers: &[Option<u64>]) -> Option<(usize, usize)>
    ensures { result ≡ twice_from 0 numbers.now }
{
    for first in 0..numbers.len() {
        if let Some(second) = again_at(numbers, first) {
            return Some((first, second));
        }
    }
    None
}

/// Which text is of which rank, by the names of its files, no more than a layout can have ranks. A number above 2^64 -
/// 1 counts as that. Fails with `AllocError` when memory is refused.
#[tactic(auto, using(crate::proofs::Orders::lacks_and_apart, crate::proofs::Orders::lacks_unnumbered, crate::proofs::Orders::twice))]
pub fn order_of(alloc: Global, names: &[String]) -> Result<Order, AllocError>
    requires { length names.now ≤ MOST_RANKS }
    ensures { IfOk result (IsOrder (numbers_of (map string_bytes names.now))) }
{
    let numbers = numbers_of(alloc, names)?;
    if let Some(order) = by_digits(alloc, &numbers)? {
        return Ok(Order::Digits(order));
    }
    if !are_numbered(&numbers) {
        return Ok(Order::Words);
    }
    match twice_in(&numbers) {
        Some(both) => Ok(Order::Twice {
            first: both.0,
            second: both.1,
        }),
        None => Ok(Order::Words),
    }
}
