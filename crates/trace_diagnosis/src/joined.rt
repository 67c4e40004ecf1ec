//! The first three places of two lists.

ghost use Rattle.std.specs.Prelude.{◌≡◌, IfOk, slice_get};
ghost use Rattle.trace_diagnosis.specs.Places.{behind, first_of, lesser};

use crate::few::MOST_NEAR;
use std::alloc::{AllocError, Global};

/// The first place.
fn head(places: &[usize]) -> Option<usize>
    ensures { result ≡ slice_get places.now 0 }
{
    places.get(0).copied()
}

/// The lesser of two places, where there are such.
fn lesser(one: Option<usize>, other: Option<usize>) -> Option<usize>
    ensures { result ≡ lesser one other }
{
    match one {
        None => other,
        Some(a) => match other {
            None => Some(a),
            Some(b) => if b < a { Some(b) } else { Some(a) },
        },
    }
}

/// The places without this one, where it is the first.
fn behind<'a>(places: &'a [usize], next: usize) -> &'a [usize]
    ensures { result.now ≡ behind next places.now }
{
    match places.split_first() {
        Some((first, rest)) => if *first == next { rest } else { places },
        None => places,
    }
}

/// The first three places that stand in one of the lists, whose places rise.
pub(crate) fn first_of(
    alloc: Global,
    one: &[usize],
    other: &[usize],
) -> Result<Vec<usize>, AllocError>
    ensures { IfOk result (λ first. first.items ≡ first_of 3 one.now other.now) }
{
    let mut first = Vec::new(alloc);
    let mut left = one;
    let mut right = other;
    for _step in 0..MOST_NEAR {
        let next = match lesser(head(left), head(right)) {
            Some(next) => next,
            None => return Ok(first),
        };
        first.push(next)?;
        left = behind(left, next);
        right = behind(right, next);
    }
    Ok(first)
}
