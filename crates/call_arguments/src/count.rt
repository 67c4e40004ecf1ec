//! The counts that a value tells: numbers from 0 on.

ghost use Rattle.std.specs.Prelude.{◌≡◌, ◌||◌, ◌==◌, IfOk, None, if◌then◌else◌, length, map, option_map};
ghost use Rattle.std.specs.List.{list_all};
ghost use Rattle.call_arguments.specs.Counts.{counts_in, is_natural, magnitude, natural_of, naturals};

use dumpi_text::{Num, Value};
use std::alloc::{AllocError, Global};

/// A number from 0 on.
fn natural_of(value: i64) -> Option<u64>
    ensures { result ≡ natural_of value }
{
    if value >= 0 { Some(value as u64) } else { None }
}

/// Whether a number is from 0 on.
fn is_natural(number: &Num) -> bool
    ensures { result ≡ is_natural number.now }
{
    natural_of(number.value).is_some()
}

/// The number, where it is from 0 on.
fn magnitude(number: &Num) -> u64
    ensures { result ≡ magnitude number.now }
{
    natural_of(number.value).unwrap_or(0)
}

/// Whether all of them are from 0 on.
fn are_natural(numbers: &[Num]) -> bool
    ensures { result ≡ list_all is_natural numbers.now }
{
    for number in numbers {
        if !is_natural(number) {
            return false;
        }
    }
    true
}

/// The numbers that are from 0 on.
fn magnitudes(alloc: Global, numbers: &[Num]) -> Result<Vec<u64>, AllocError>
    ensures { IfOk result (λ counts. counts.items ≡ map magnitude numbers.now) }
{
    let mut counts = Vec::new(alloc);
    for number in numbers {
        counts.push(magnitude(number))?;
    }
    Ok(counts)
}

/// The counts, where all of them are from 0 on.
fn naturals(alloc: Global, numbers: &[Num]) -> Result<Option<Vec<u64>>, AllocError>
    ensures { IfOk result (λ counts. option_map (λ c. c.items) counts ≡ naturals numbers.now) }
{
    if are_natural(numbers) {
        Ok(Some(magnitudes(alloc, numbers)?))
    } else {
        Ok(None)
    }
}

/// The counts of a list, or of one number alone, where a list isn't asked for.
fn counts_of_list(
    alloc: Global,
    list: bool,
    numbers: &[Num],
) -> Result<Option<Vec<u64>>, AllocError>
    ensures { IfOk result (λ counts. option_map (λ c. c.items) counts ≡ (if list || length numbers.now == 1 then naturals numbers.now else None)) }
{
    if list || numbers.len() == 1 {
        naturals(alloc, numbers)
    } else {
        Ok(None)
    }
}

/// The counts of a value.
pub(crate) fn counts_in(
    alloc: Global,
    list: bool,
    value: Option<Value>,
) -> Result<Option<Vec<u64>>, AllocError>
    ensures { IfOk result (λ counts. option_map (λ c. c.items) counts ≡ counts_in list value) }
{
    match value {
        Some(Value::Number(number)) => naturals(alloc, &[number]),
        Some(Value::Numbers(numbers)) => counts_of_list(alloc, list, numbers.as_slice()),
        Some(Value::Groups(_)) => Ok(None),
        None => Ok(None),
    }
}
