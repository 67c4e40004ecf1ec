//! Pairs that are looked for where they are likely to stand, and so the places of the pairs, as the
//! receives that take them come in their ranks: a start from which the sort by the receive has little
//! left to do. Nothing is claimed of that order here, since the sort is right whatever it starts from.
//!
//! No message costs a search where its sender goes round the same ranks in every step of a program, or
//! sends to one alone: its pair stands where the guess is. Where a guess is wrong the pairs are halved.

ghost use Rattle.std.specs.Prelude.{◌≡◌, None, IfSome, IfNone, slice_get};
ghost use Rattle.trace_pair.specs.Searched.{ArePairs, pair_named, receive_at};

use crate::matched::Matched;
use crate::pair::Pair;
use crate::rules::is_same_name;
use mpi_model::{Message, OpName, Receive};
use std::alloc::{AllocError, Global};
use trace_ops::RankOps;

/// Where a sender's last pair was found, and where its next one with the same rank is looked for
/// first.
#[derive(Clone, Copy)]
struct Guess {
    last: usize,
    next: usize,
}

/// The guess after a pair at this place: a sender that goes round several ranks has its next message
/// to this one as far on again.
fn guess_behind(guess: Guess, place: usize) -> Guess {
    let step = place.saturating_sub(guess.last).max(1);
    Guess {
        last: place,
        next: place.saturating_add(step),
    }
}

/// The pair at a place, if one stands there.
pub(crate) fn pair_at(pairs: &[Pair], place: usize) -> Option<Pair>
    ensures { result ≡ slice_get pairs.now place }
{
    pairs.get(place).copied()
}

/// The receive of the pair at a place.
pub(crate) fn receive_at(pairs: &[Pair], place: usize) -> Option<OpName>
    ensures { result ≡ receive_at pairs.now place }
{
    pairs.get(place).map(|p| p.receive)
}

/// The place of the pair of the message of that name, looked for at `next` first.
pub(crate) fn place_near(pairs: &[Pair], next: usize, name: &OpName) -> Option<usize>
    requires { ArePairs pairs.now }
    ensures some { IfSome result (λ place. slice_get pairs.now place ≡ pair_named pairs.now name.now) }
    ensures none { IfNone result (None ≡ pair_named pairs.now name.now) }
{
    if let Some(pair) = pair_at(pairs, next) {
        if is_same_name(&pair.message, name) {
            return Some(next);
        }
    }
    match pairs.binary_search_by_key(name, |p| p.message) {
        Ok(place) => Some(place),
        Err(_) => None,
    }
}

/// The place of the message's pair, looked for first where its sender's guess is.
fn guessed_place(pairs: &[Pair], guesses: &mut Vec<Guess>, m: &Message) -> Option<usize>
    requires { ArePairs pairs.now }
{
    let sender = m.from as usize;
    if sender >= guesses.len() {
        return None;
    }
    let guess = guesses[sender];
    let place = place_near(pairs, guess.next, &m.name)?;
    guesses[sender] = guess_behind(guess, place);
    Some(place)
}

/// Puts a place behind the others, if four bytes hold it: nothing is claimed of one that is missing.
#[inline(always)]
pub(crate) fn put_place(places: &mut Vec<u32>, place: usize) -> Result<(), AllocError> {
    if place <= u32::MAX as usize {
        places.push(place as u32)?;
    }
    Ok(())
}

/// Puts the places of the pairs of a rank's receives behind the others.
fn put_places(
    places: &mut Vec<u32>,
    guesses: &mut Vec<Guess>,
    state: &Matched,
    pairs: &[Pair],
    receives: &[Receive],
) -> Result<(), AllocError>
    requires { ArePairs pairs.now }
{
    let mut next = 0;
    for q in receives {
        if let Some(m) = state.message_of(&mut next, q) {
            if let Some(place) = guessed_place(pairs, guesses, &m) {
                put_place(places, place)?;
            }
        }
    }
    Ok(())
}

/// The places of the pairs, rank by rank as its receives come.
pub(crate) fn places_near(
    alloc: Global,
    state: &Matched,
    held: &[RankOps],
    pairs: &[Pair],
) -> Result<Vec<u32>, AllocError>
    requires { ArePairs pairs.now }
{
    let mut places = Vec::with_capacity(alloc, pairs.len())?;
    let mut guesses = Vec::from_elem(alloc, Guess { last: 0, next: 0 }, held.len())?;
    for ops in held {
        put_places(&mut places, &mut guesses, state, pairs, ops.receives())?;
    }
    Ok(places)
}
