//! Lists of requests as dumpi2ascii writes them, `[count] {number, number, ..}`, read in one pass and in place. A value
//! in another form is left to the functions that read any value.

ghost use Rattle.std.specs.Prelude.{◌≡◌, ◌∷◌, [], IfOk, IfSome, Some, true};
ghost use Rattle.dumpi_calls.specs.Skims.{numbers_front, requests_from, requests_with};
ghost use Rattle.dumpi_text.specs.Bytes.{opening_bracket};
ghost use Rattle.dumpi_text.specs.Tokens.{after_spaces};
ghost use Rattle.dumpi_text.specs.Value.{all_numbers, brace_rest, core_front, value_of};

use crate::quick::digits_front;
use crate::reading::request_of;
use crate::skim::{ends_number, split_next, split_number};
use dumpi_text::{ValueFault, skip_spaces, strip_byte};
use mpi_model::Requests;
use std::alloc::Global;

/// Whether digits stand in front that a `,` or a `}` ends, so that what follows a `{` is numbers.
fn begins_numbers(list: &[u8]) -> bool
    ensures { result ≡ true → brace_rest (after_spaces list.now) ≡ all_numbers (numbers_front list.now) }
{
    let (_, count) = digits_front(list);
    if count == 0 {
        return false;
    }
    ends_number(&list[count..])
}

/// The list of numbers of requests, by what follows their `[`: the count, and what stands after its `] {`.
fn counted_numbers(text: &[u8]) -> Option<(u64, &[u8])>
    ensures { IfSome result (λ x. core_front (opening_bracket ∷ text.now) ≡ all_numbers (numbers_front x.1.now)) }
{
    let (room, count) = digits_front(text);
    if count == 0 || text.len() - count < 3 {
        return None;
    }
    if text[count] != b']' || text[count + 1] != b' ' || text[count + 2] != b'{' {
        return None;
    }
    let list = &text[count + 3..];
    if begins_numbers(list) {
        Some((room, list))
    } else {
        None
    }
}

/// The request that each number of a list names, and what follows the list's `}`; `BadValue` is no answer. There is
/// room for so many at first, but for no more than the list has bytes.
fn named_front(alloc: Global, room: u64, list: &[u8]) -> Result<(Vec<i64>, &[u8]), ValueFault>
    ensures { IfOk result (λ x. requests_with [] (numbers_front list.now) ≡ Some (x.0.items, x.1.now)) }
{
    let mut requests = Vec::with_capacity(alloc, list.len().min(room as usize))?;
    let mut left = list;
    for _ in 0..list.len() {
        match split_number(skip_spaces(left)) {
            None => return Err(ValueFault::BadValue),
            Some((number, rest)) => {
                requests.push(request_of(number))?;
                match split_next(skip_spaces(rest)) {
                    Some((true, rest)) => left = rest,
                    Some((false, rest)) => return Ok((requests, rest)),
                    None => return Err(ValueFault::BadValue),
                }
            }
        }
    }
    Err(ValueFault::BadValue)
}

/// The request that each number of a list names that nothing follows.
fn named_in(alloc: Global, room: u64, list: &[u8]) -> Option<Vec<i64>>
    ensures { IfSome result (λ requests. requests_with [] (numbers_front list.now) ≡ Some (requests.items, [])) }
{
    match named_front(alloc, room, list) {
        Err(_) => None,
        Ok((requests, rest)) => {
            if rest.is_empty() {
                Some(requests)
            } else {
                None
            }
        }
    }
}

/// The requests that a text lists; none is no answer.
#[tactic(auto, using(crate::proofs::NumberByNumber::requests_value))]
pub fn quick_requests(alloc: Global, text: &[u8]) -> Option<Requests>
    ensures { IfSome result (λ requests. requests_from (value_of text.now) ≡ Some requests) }
{
    let counted = strip_byte(b'[', text)?;
    let (room, list) = counted_numbers(counted)?;
    let requests = named_in(alloc, room, list)?;
    Some(Requests::from_vec(requests))
}
