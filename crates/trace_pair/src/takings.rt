//! All messages, in their order, with what takes each; those that wait are found by a receive that
//! they fit.

ghost use Rattle.std.specs.Prelude.{◌≡◌, ◌<◌, true, Some, IfOk, OnOk, is_some, length, List, None, Option};
ghost use Rattle.trace_pair.specs.Coupled.{taker_of};
ghost use Rattle.trace_pair.specs.KeyOrders.{queue_cmp, queue_of, lane_cmp, lane_of};
ghost use Rattle.trace_pair.specs.Rising.{AreRising};
ghost use Rattle.trace_pair.specs.Waiting.{ArePlaces, ArePlain, IsPlain, IsSolePlace, taker_at, untaken, with_taker, AreLanesOrNew};
ghost use Rattle.trace_pair.specs.declared.pair.Taker.{Taker};

use crate::by_key::PlacesByKey;
use crate::pair::Taker;
use crate::sends::Sends;
use crate::taken_by::TakenBy;
use mpi_model::{Message, Receive};
use std::alloc::{AllocError, Global};
use std::marker::Model;

/// Places by receiver, sender, tag and communicator.
type Queues = PlacesByKey<(u32, u32, u32, u32)>;

/// The same ones without the tag.
type Lanes = PlacesByKey<(u32, u32, u32)>;

/// All messages, and what takes each.
#[derive(Drop)]
pub(crate) struct Takings<'a> {
    messages: Sends<'a>,
    /// Whether each message is sure, and alone of its call.
    plain: bool,
    takers: TakenBy<'a>,
    queues: Queues,
    /// Made when the first receive of any tag comes.
    lanes: Option<Lanes>,
}

impl<'a> Model for Takings<'a> {
    ghost use Rattle.trace_pair.specs.Waiting.{Takings, AreTakings};

    ghost Value = { Takings };

    ghost view = { λ s. record { messages = s.messages; takers = s.takers } };

    ghost invariant = { λ s. AreTakings s.messages s.plain s.takers s.queues s.lanes };
}

/// Whether the message is sure, its sender's own, and the first part of its call.
fn is_plain(m: &Message) -> bool
    ensures { result ≡ true → IsPlain m.now }
{
    m.trust.is_sure() && m.name.rank == m.from && m.name.part == 0
}

/// Whether that is known of the messages before this one, and holds of it. Each is alone of its call then.
fn stays_plain(plain: bool, m: &Message) -> bool
    ensures before { result ≡ true → plain ≡ true }
    ensures this { result ≡ true → IsPlain m.now }
{
    plain && is_plain(m)
}

/// The places of the messages by queue, and whether all of them are plain.
fn queues_of(alloc: Global, messages: &Sends) -> Result<(Queues, bool), AllocError>
    ensures queues { IfOk result (λ made. (takers : List (Option Taker)) → ArePlaces queue_cmp queue_of messages.now takers made.0) }
    ensures plain { IfOk result (λ made. made.1 ≡ true → ArePlain messages.now) }
{
    let mut queues = Queues::empty(alloc);
    let mut plain = true;
    for place in 0..messages.len() {
        let m = messages.at(place);
        plain = stays_plain(plain, m);
        if m.trust.is_void() {
            continue;
        }
        queues.add(alloc, (m.to, m.from, m.tag, m.comm), place)?;
    }
    Ok((queues, plain))
}

/// The places of the messages by lane.
fn lanes_of(alloc: Global, messages: &Sends) -> Result<Lanes, AllocError>
    ensures { IfOk result (λ lanes. (takers : List (Option Taker)) → ArePlaces lane_cmp lane_of messages.now takers lanes) }
{
    let mut lanes = Lanes::empty(alloc);
    for place in 0..messages.len() {
        let m = messages.at(place);
        if m.trust.is_void() {
            continue;
        }
        lanes.add(alloc, (m.to, m.from, m.comm), place)?;
    }
    Ok(lanes)
}

/// These lanes, or new ones where there are none.
fn lanes_or_new(alloc: Global, messages: &Sends, lanes: Option<Lanes>) -> Result<Lanes, AllocError>
    ensures { IfOk result (AreLanesOrNew messages.now lanes) }
{
    match lanes {
        Some(lanes) => Ok(lanes),
        None => lanes_of(alloc, messages),
    }
}

impl<'a> Takings<'a> {
    /// These messages, none of which is taken.
    pub(crate) fn new(alloc: Global, messages: Sends<'a>) -> Result<Takings<'a>, AllocError>
        requires { AreRising (λ m. m.name) messages }
        ensures { IfOk result (λ t. t ≡ untaken messages.entry) }
    {
        let (queues, plain) = queues_of(alloc, &messages)?;
        let takers = TakenBy::none(alloc, messages.len())?;
        Ok(Takings {
            messages,
            plain,
            takers,
            queues,
            lanes: None,
        })
    }

    /// All of them.
    pub(crate) fn messages(&self) -> &Sends<'a>
        ensures { result.now ≡ self.now.messages }
    {
        &self.messages
    }

    /// Whether each message is known to be sure, and alone of its call.
    pub(crate) fn are_plain(&self) -> bool
        ensures { result ≡ true → ArePlain self.now.messages }
    {
        self.plain
    }

    /// The allocator of the list of messages.
    pub(crate) fn allocator(&self) -> &Global {
        self.messages.allocator()
    }

    /// What takes the message at a place.
    pub(crate) fn taker_at(&self, place: usize) -> Option<Taker>
        ensures { result ≡ taker_at self.now place }
    {
        self.takers.at(place)
    }

    /// The place of the first message of a queue that waits, if no other one of its call does.
    fn sole_of_queue(&mut self, q: &Receive, source: u32, tag: u32) -> Option<usize>
        requires source { q.now.source ≡ Some source }
        requires tag { q.now.tag ≡ Some tag }
        ensures kept { self.new ≡ self.old }
        ensures sole { IsSolePlace self.old q.now result }
    {
        self.queues.sole_at(
            &(q.at, source, tag, q.comm),
            self.plain,
            &self.messages,
            &self.takers,
        )
    }

    /// The place of the first message of a lane that waits, if no other one of its call does.
    fn sole_of_lane(&mut self, q: &Receive, source: u32) -> Result<Option<usize>, AllocError>
        requires source { q.now.source ≡ Some source }
        requires tag { q.now.tag ≡ None }
        ensures kept { self.new ≡ self.old }
        ensures sole { IfOk result (IsSolePlace self.old q.now) }
    {
        let alloc = *self.messages.allocator();
        let had = self.lanes.take();
        let mut lanes = lanes_or_new(alloc, &self.messages, had)?;
        let place = lanes.sole_at(
            &(q.at, source, q.comm),
            self.plain,
            &self.messages,
            &self.takers,
        );
        self.lanes = Some(lanes);
        Ok(place)
    }

    /// The place of the first message that waits and fits a receive whose source is told, if no other
    /// one of its call does.
    pub(crate) fn sole_for(&mut self, q: &Receive) -> Result<Option<usize>, AllocError>
        requires { is_some q.now.source ≡ true }
        ensures kept { self.new ≡ self.old }
        ensures sole { IfOk result (IsSolePlace self.old q.now) }
    {
        match q.source {
            None => Ok(None),
            Some(source) => match q.tag {
                Some(tag) => Ok(self.sole_of_queue(q, source, tag)),
                None => self.sole_of_lane(q, source),
            },
        }
    }

    /// The message at the place is taken by this receive.
    pub(crate) fn take(&mut self, place: usize, q: &'a Receive) -> Result<(), AllocError>
        requires { place < length self.old.messages }
        ensures { OnOk result (self.new ≡ with_taker self.old place (taker_of q.now)) }
    {
        self.takers.take(place, q)?;
        Ok(())
    }

    /// The places of the pairs, nearly in order of the receive.
    pub(crate) fn into_places_near(self, alloc: Global) -> Result<Vec<u32>, AllocError> {
        self.takers.into_places_near(alloc)
    }
}
