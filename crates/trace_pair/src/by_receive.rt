//! The pairs in order of the receive, in which the message of a pair is found by the name of its receive, and the receive
//! by that of its message.

ghost use Rattle.std.specs.Prelude.{◌≡◌, ◌≢◌, ◌<◌, true, false, None, OnOk, IfNone, IfOk, IfSome, ℕ, length, slice_get, slice_index_or};
ghost use Rattle.trace_ops.specs.Order.{Has};
ghost use Rattle.trace_pair.specs.Searched.{ArePairs, AreByReceive, IsSearchable, receive_at, message_at, pair_named, IsSeen};
ghost use Rattle.trace_pair.specs.Table.{given_by, taken_by};

use crate::near::{pair_at, place_near, receive_at};
use crate::pair::Pair;
use crate::rules::is_same_name;
use mpi_model::OpName;
use std::alloc::{AllocError, Global};
use std::marker::Model;

/// The pairs of a table, in order of the receive.
#[derive(Drop)]
pub struct PairsByReceive<'a> {
    pairs: &'a [Pair],
    /// The places of the pairs, in order of the receive.
    places: Vec<usize>,
}

impl<'a> Model for PairsByReceive<'a> {
    ghost use Rattle.std.specs.Prelude.{List};
    ghost use Rattle.trace_pair.specs.Searched.{IsSearchable};
    ghost use Rattle.trace_pair.specs.declared.pair.Pair.{Pair};

    ghost Value = { List Pair };

    ghost view = { λ s. s.pairs.now };

    ghost invariant = { λ s. IsSearchable s.pairs.now s.places.items };
}

impl<'a> PairsByReceive<'a> {
    /// The pairs by their receives: eight bytes a pair beside them. It is made faster the more of `near`, places of the
    /// pairs, is in that order. Fails with `AllocError` when memory is refused.
    pub fn of_pairs(
        alloc: Global,
        pairs: &'a [Pair],
        near: &[u32],
    ) -> Result<PairsByReceive<'a>, AllocError>
        requires { ArePairs pairs.now }
        ensures { IfOk result (λ made. made ≡ pairs.now) }
    {
        let start = places_of(alloc, near)?;
        let places = places_by_receive(alloc, pairs, start)?;
        Ok(PairsByReceive { pairs, places })
    }

    /// The pairs, in order of the message.
    pub fn pairs(&self) -> &'a [Pair]
        ensures { result.now ≡ self.now }
    {
        self.pairs
    }

    /// The place of the message's pair among the pairs; `None` if no pair has it. It is found by binary search.
    pub fn place_of(&self, message: OpName) -> Option<usize>
        ensures some { IfSome result (λ place. slice_get self.now place ≡ pair_named self.now message) }
        ensures none { IfNone result (None ≡ pair_named self.now message) }
    {
        place_near(self.pairs, usize::MAX, &message)
    }

    /// The receive that takes the message of that name; `None` if no pair has it. It is found by binary search.
    pub fn receive_of(&self, message: OpName) -> Option<OpName>
        ensures { result ≡ taken_by self.now message }
    {
        receive_of(self.pairs, &message)
    }

    /// The message that the receive of that name takes; `None` if no pair has it. It is found by binary search.
    pub fn message_of(&self, receive: OpName) -> Option<OpName>
        ensures { result ≡ given_by self.now receive }
    {
        let mut nowhere = usize::MAX;
        self.message_near(receive, &mut nowhere)
    }

    /// As [`message_of`](Self::message_of), but it looks at `next` first and then sets it behind the place of the pair.
    /// A caller that asks for receives in their order, with one `next` for all, needs a binary search only for the
    /// first one and for those in no pair.
    pub fn message_near(&self, receive: OpName, place: &mut usize) -> Option<OpName>
        ensures { result ≡ given_by self.now receive }
    {
        given_near(self.pairs, &self.places, place, &receive)
    }
}

/// The receive that takes the message of that name.
fn receive_of(pairs: &[Pair], name: &OpName) -> Option<OpName>
    requires { ArePairs pairs.now }
    ensures { result ≡ taken_by pairs.now name.now }
{
    let place = place_near(pairs, usize::MAX, name)?;
    receive_at(pairs, place)
}

/// These numbers as places.
fn places_of(alloc: Global, near: &[u32]) -> Result<Vec<usize>, AllocError> {
    let mut places = Vec::with_capacity(alloc, near.len())?;
    for place in near {
        places.push(*place as usize)?;
    }
    Ok(places)
}

/// The message of the pair at a place.
fn message_at(pairs: &[Pair], place: usize) -> Option<OpName>
    ensures { result ≡ message_at pairs.now place }
{
    pairs.get(place).map(|p| p.message)
}

/// Marks a place as seen, where it is one of those that are asked for.
fn see_place(seen: &mut Vec<bool>, place: usize)
    ensures { (i : ℕ) → i ≢ place → slice_index_or seen.new.items i false ≡ slice_index_or seen.old.items i false }
{
    if place < seen.len() {
        seen[place] = true;
    }
}

/// Which of so many places are among these.
fn seen_places(alloc: Global, places: &[usize], count: usize) -> Result<Vec<bool>, AllocError>
    ensures { IfOk result (λ seen. (i : ℕ) → slice_index_or seen.items i false ≡ true → Has places.now i) }
{
    let mut seen = Vec::from_elem(alloc, false, count)?;
    for place in places {
        see_place(&mut seen, *place);
    }
    Ok(seen)
}

/// Puts the place behind the others, if it isn't seen among them.
fn put_unseen(places: &mut Vec<usize>, seen: &[bool], place: usize) -> Result<(), AllocError>
    ensures kept { OnOk result ((i : ℕ) → Has places.old.items i → Has places.new.items i) }
    ensures there { OnOk result ((IsSeen seen.now place → Has places.old.items place) → Has places.new.items place) }
{
    if seen.get(place).copied().unwrap_or(false) {
        return Ok(());
    }
    places.push(place)?;
    Ok(())
}

/// All places of the pairs, those of `near` first.
fn all_places(alloc: Global, pairs: &[Pair], near: Vec<usize>) -> Result<Vec<usize>, AllocError>
    ensures { IfOk result (λ places. (i : ℕ) → i < length pairs.now → Has places.items i) }
{
    let seen = seen_places(alloc, &near, pairs.len())?;
    let mut places = near;
    let mut next = 0;
    while next < pairs.len() {
        put_unseen(&mut places, &seen, next)?;
        next += 1;
    }
    Ok(places)
}

/// The places of the pairs, in order of the receive.
fn places_by_receive(
    alloc: Global,
    pairs: &[Pair],
    near: Vec<usize>,
) -> Result<Vec<usize>, AllocError>
    ensures sorted { IfOk result (λ places. AreByReceive pairs.now places.items) }
    ensures all { IfOk result (λ places. (i : ℕ) → i < length pairs.now → Has places.items i) }
{
    let mut places = all_places(alloc, pairs, near)?;
    places.sort_by_key(|place| receive_at(pairs, *place))?;
    Ok(places)
}

/// The message that the receive of that name takes, looked for first at the place among those in order
/// of the receive.
fn given_near(pairs: &[Pair], places: &[usize], place: &mut usize, name: &OpName) -> Option<OpName>
    requires { IsSearchable pairs.now places.now }
    ensures { result ≡ given_by pairs.now name.now }
{
    if let Some(pair) = pair_listed(pairs, places, *place) {
        if is_same_name(&pair.receive, name) {
            *place = place.saturating_add(1);
            return Some(pair.message);
        }
    }
    match places.binary_search_by_key(&Some(*name), |place| receive_at(pairs, *place)) {
        Ok(found) => {
            *place = found.saturating_add(1);
            message_at(pairs, places[found])
        }
        Err(_) => None,
    }
}

/// The pair at a place among those in order of the receive.
fn pair_listed(pairs: &[Pair], places: &[usize], place: usize) -> Option<Pair>
    ensures { IfSome result (λ pair. Has pairs.now pair) }
{
    let listed = places.get(place)?;
    pair_at(pairs, *listed)
}
