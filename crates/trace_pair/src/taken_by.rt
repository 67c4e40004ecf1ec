//! What takes each message, and whether it waits, which is asked much more often: for that a message has a byte of its
//! own.

ghost use Rattle.std.specs.Prelude.{◌≡◌, ◌<◌, true, false, Some, None, IfOk, OnOk, OnErr, length, replicate, slice_get, slice_index_or, slice_set};
ghost use Rattle.trace_pair.specs.Coupled.{taker_of};
ghost use Rattle.trace_pair.specs.Waiting.{waits_at, taker_in};

use crate::couples::taker_of;
use crate::near::put_place;
use crate::pair::Taker;
use mpi_model::Receive;
use std::alloc::{AllocError, Global};
use std::marker::Model;

/// For each message what takes it.
#[derive(Drop)]
pub(crate) struct TakenBy<'a> {
    /// For each message the receive that takes it, where one does.
    receives: Vec<Option<&'a Receive>>,
    /// For each message whether it waits: in a byte, since that is asked of any of them in turn.
    waiting: Vec<bool>,
    /// The places of those that are taken, as their receives came, as far as four bytes hold them.
    came: Vec<u32>,
}

impl<'a> Model for TakenBy<'a> {
    ghost use Rattle.std.specs.Prelude.{◌≡◌, List, Option, is_none, map};
    ghost use Rattle.std.specs.Option.{option_map};
    ghost use Rattle.trace_pair.specs.Coupled.{taker_of};
    ghost use Rattle.trace_pair.specs.declared.pair.Taker.{Taker};

    ghost Value = { List (Option Taker) };

    ghost view = { λ s. map (option_map (λ q. taker_of q.now)) s.receives.items };

    ghost invariant = { λ s. s.waiting.items ≡ map is_none s.receives.items };
}

/// So many messages, and nothing takes them.
fn no_receives<'a>(alloc: Global, count: usize) -> Result<Vec<Option<&'a Receive>>, AllocError>
    ensures { IfOk result (λ receives. receives.items ≡ replicate count None) }
{
    let receives = Vec::from_elem(alloc, None, count)?;
    Ok(receives)
}

/// So many messages, and all wait.
fn all_wait(alloc: Global, count: usize) -> Result<Vec<bool>, AllocError>
    ensures { IfOk result (λ waiting. waiting.items ≡ replicate count true) }
{
    let waiting = Vec::from_elem(alloc, true, count)?;
    Ok(waiting)
}

/// The mark at a place, false where none stands there.
fn mark_at(marks: &[bool], place: usize) -> bool
    ensures { result ≡ slice_index_or marks.now place false }
{
    marks.get(place).copied().unwrap_or(false)
}

/// For each message how many before it are taken.
fn taken_before(alloc: Global, waiting: &[bool]) -> Result<Vec<u32>, AllocError> {
    let mut counts = Vec::with_capacity(alloc, waiting.len())?;
    let mut count: u32 = 0;
    for waits in waiting {
        counts.push(count)?;
        if !*waits {
            count = count.saturating_add(1);
        }
    }
    Ok(counts)
}

impl<'a> TakenBy<'a> {
    /// This many messages, none of which is taken.
    pub(crate) fn none(alloc: Global, count: usize) -> Result<TakenBy<'a>, AllocError>
        ensures { IfOk result (λ takers. takers ≡ replicate count None) }
    {
        let receives = no_receives(alloc, count)?;
        let waiting = all_wait(alloc, count)?;
        let came = Vec::with_capacity(alloc, count)?;
        Ok(TakenBy {
            receives,
            waiting,
            came,
        })
    }

    /// Whether the message at a place waits.
    pub(crate) fn waits_at(&self, place: usize) -> bool
        ensures { result ≡ waits_at self.now place }
    {
        mark_at(&self.waiting, place)
    }

    /// What takes the message at a place.
    pub(crate) fn at(&self, place: usize) -> Option<Taker>
        ensures { result ≡ taker_in (slice_get self.now place) }
    {
        match self.receives.get(place) {
            Some(Some(receive)) => Some(taker_of(receive)),
            _ => None,
        }
    }

    /// The message at the place is taken by this receive.
    pub(crate) fn take(&mut self, place: usize, q: &'a Receive) -> Result<(), AllocError>
        requires { place < length self.old }
        ensures taken { OnOk result (self.new ≡ slice_set self.old place (Some (taker_of q.now))) }
        ensures memory { OnErr result (self.new ≡ self.old) }
    {
        put_place(&mut self.came, place)?;
        self.receives[place] = Some(q);
        self.waiting[place] = false;
        Ok(())
    }

    /// The places of the pairs, as the receives that take them came: a start from which the sort by the receive has
    /// nothing left to do. This order is only a guess. Where each message is taken, its pair stands at its place.
    pub(crate) fn into_places_near(self, alloc: Global) -> Result<Vec<u32>, AllocError> {
        let mut places = self.came;
        if places.len() == self.waiting.len() {
            return Ok(places);
        }
        let counts = taken_before(alloc, &self.waiting)?;
        for i in 0..places.len() {
            places[i] = counts.get(places[i] as usize).copied().unwrap_or(0);
        }
        Ok(places)
    }
}
