//! The nearest misses: what would be a pair, but for one thing.
//!
//! A message and a receive differ in the tag, in the communicator, in the source that the receive names, or in the rank
//! at which it looks, and agree in all else. What they agree in is a key under which one looks for the other.

ghost use Rattle.std.specs.Prelude.{◌≡◌, [], All, Contains, IfOk, List, OnOk, true};
ghost use Rattle.mpi_model.specs.declared.message.Message.{Message as Sent};
ghost use Rattle.mpi_model.specs.declared.message.Receive.{Receive as One};
ghost use Rattle.trace_wait.specs.Patterns.{Pattern};
ghost use Rattle.mpi_model.specs.Fit.{admits};
ghost use Rattle.trace_diagnosis.specs.Near.{is_near, names, names_other};
ghost use Rattle.trace_diagnosis.specs.Places.{first_places};
ghost use Rattle.trace_diagnosis.specs.Shelves.{IsBare, has_key};
ghost use Rattle.trace_diagnosis.specs.Ways.{AreMessages, AreReceives, MakesAsked, PutsMessage, PutsReceive, is_asked, lies, lies_from, names_source, names_tag, meets, place_for, place_of, stands, stands_from, why_of};

use crate::joined::first_of;
use crate::shelf::{Key, Shelf};
use diagnosis_value::Why;
use mpi_model::{Message, Receive, envelopes_fit};
use std::alloc::{AllocError, Global};
use std::marker::Model;

/// Whether a receive that may name a number takes this one.
fn admits(named: Option<u32>, number: u32) -> bool
    ensures { result ≡ admits named number }
{
    match named {
        None => true,
        Some(named) => named == number,
    }
}

/// Whether the receive names another number than this.
fn names_other(named: Option<u32>, number: u32) -> bool
    ensures { result ≡ names_other named number }
{
    match named {
        None => false,
        Some(named) => named != number,
    }
}

/// Whether the receive names this number.
fn names(named: Option<u32>, number: u32) -> bool
    ensures { result ≡ names named number }
{
    match named {
        None => false,
        Some(named) => named == number,
    }
}

/// Whether it is a near miss of this sort.
pub(crate) fn is_near(why: Why, m: &Message, q: &Receive) -> bool
    ensures { result ≡ is_near why m.now q.now }
{
    match why {
        Why::Tag => {
            m.comm == q.comm
                && m.to == q.at
                && admits(q.source, m.from)
                && names_other(q.tag, m.tag)
        }
        Why::Comm => {
            m.comm != q.comm && m.to == q.at && admits(q.source, m.from) && admits(q.tag, m.tag)
        }
        Why::Source => {
            m.comm == q.comm
                && m.to == q.at
                && names_other(q.source, m.from)
                && admits(q.tag, m.tag)
        }
        Why::Dest => {
            m.comm == q.comm && m.to != q.at && names(q.source, m.from) && admits(q.tag, m.tag)
        }
        Why::Taken => envelopes_fit(m, q),
        Why::Postponed => envelopes_fit(m, q),
        Why::Idle => envelopes_fit(m, q),
    }
}

/// The ways in which a message and a receive can differ in one thing, in the order in which they are told.
#[derive(Clone, Copy)]
pub(crate) enum Way {
    Tag,
    Comm,
    Source,
    Dest,
}

impl Way {
    /// The sort of near misses that differ in this way.
    pub fn why(self) -> Why
        ensures { result ≡ why_of self }
    {
        match self {
            Way::Tag => Why::Tag,
            Way::Comm => Why::Comm,
            Way::Source => Why::Source,
            Way::Dest => Why::Dest,
        }
    }

    /// Whether keys name the tag.
    fn names_tag(self) -> bool
        ensures { result ≡ names_tag self }
    {
        match self {
            Way::Tag => false,
            Way::Comm => true,
            Way::Source => true,
            Way::Dest => true,
        }
    }

    /// Whether keys name the source, where it can be left open.
    fn names_source(self) -> bool
        ensures { result ≡ names_source self }
    {
        match self {
            Way::Tag => true,
            Way::Comm => true,
            Way::Source => false,
            Way::Dest => false,
        }
    }
}

/// A key under which a message or a receive looks for others, and the value in which they have to differ.
#[derive(Clone, Copy)]
struct Place {
    key: Key,
    value: u32,
}

/// Under which key a receive stands that differs in one thing from messages, where it names that thing.
fn place_of(way: Way, q: &Receive) -> Option<Place>
    ensures { result ≡ place_of way q.now }
{
    match way {
        Way::Tag => match q.tag {
            None => None,
            Some(tag) => Some(Place {
                key: (q.comm, q.at, q.source, None),
                value: tag,
            }),
        },
        Way::Comm => Some(Place {
            key: (q.at, 0, q.source, q.tag),
            value: q.comm,
        }),
        Way::Source => match q.source {
            None => None,
            Some(source) => Some(Place {
                key: (q.comm, q.at, None, q.tag),
                value: source,
            }),
        },
        Way::Dest => match q.source {
            None => None,
            Some(source) => Some(Place {
                key: (q.comm, source, None, q.tag),
                value: q.at,
            }),
        },
    }
}

/// Under which keys receives stand that differ in one thing from the message, by the source and the tag that they name.
fn place_for(way: Way, m: &Message, source: Option<u32>, tag: Option<u32>) -> Place
    ensures { result ≡ place_for way m.now source tag }
{
    match way {
        Way::Tag => Place {
            key: (m.comm, m.to, source, None),
            value: m.tag,
        },
        Way::Comm => Place {
            key: (m.to, 0, source, tag),
            value: m.comm,
        },
        Way::Source => Place {
            key: (m.comm, m.to, None, tag),
            value: m.from,
        },
        Way::Dest => Place {
            key: (m.comm, m.from, None, tag),
            value: m.to,
        },
    }
}

/// Puts a receive under its key.
fn put_receive(
    alloc: Global,
    way: Way,
    q: &Receive,
    at: usize,
    shelf: &mut Shelf,
) -> Result<(), AllocError>
    ensures { OnOk result (PutsReceive way q.now at shelf.old shelf.new) }
{
    match place_of(way, q) {
        Some(place) => {
            shelf.make(alloc, place.key)?;
            shelf.put(place.key, place.value, at)?;
            Ok(())
        }
        None => Ok(()),
    }
}

/// The receives by their keys.
fn shelf_of(alloc: Global, way: Way, receives: &[Receive]) -> Result<Shelf, AllocError>
    ensures { IfOk result (AreReceives way receives.now) }
{
    let mut shelf = Shelf::new(alloc);
    for at in 0..receives.len() {
        put_receive(alloc, way, &receives[at], at, &mut shelf)?;
    }
    Ok(shelf)
}

/// The places of the first three receives that differ in one thing from the message and name this source and this tag.
fn receives_at(
    alloc: Global,
    way: Way,
    shelf: &Shelf,
    m: &Message,
    source: Option<u32>,
    tag: Option<u32>,
) -> Result<Vec<usize>, AllocError>
    ensures { IfOk result (λ found. (xs : List One) → AreReceives way xs shelf.now →
        found.items ≡ first_places (stands way (place_for way m.now source tag)) xs) }
{
    let place = place_for(way, m, source, tag);
    let found = shelf.others(alloc, place.key, place.value)?;
    Ok(found)
}

/// The places of the first three receives that differ in one thing from the message and name this source.
fn receives_from(
    alloc: Global,
    way: Way,
    shelf: &Shelf,
    m: &Message,
    source: Option<u32>,
) -> Result<Vec<usize>, AllocError>
    ensures { IfOk result (λ found. (xs : List One) → AreReceives way xs shelf.now →
        found.items ≡ first_places (stands_from way m.now source) xs) }
{
    let any = receives_at(alloc, way, shelf, m, source, None)?;
    let named = receives_at(alloc, way, shelf, m, source, Some(m.tag))?;
    let found = first_of(alloc, &any, &named)?;
    Ok(found)
}

/// The places of the first three receives that differ in one thing from the message.
fn near_receives(
    alloc: Global,
    way: Way,
    shelf: &Shelf,
    m: &Message,
) -> Result<Vec<usize>, AllocError>
    ensures { IfOk result (λ found. (xs : List One) → AreReceives way xs shelf.now →
        found.items ≡ first_places (is_near (why_of way) m.now) xs) }
{
    let any = receives_from(alloc, way, shelf, m, None)?;
    let named = receives_from(alloc, way, shelf, m, Some(m.from))?;
    let found = first_of(alloc, &any, &named)?;
    Ok(found)
}

/// Receives, to be asked for by messages.
#[derive(Drop)]
pub(crate) struct NearReceives<'a> {
    way: Way,
    receives: &'a [Receive],
    shelf: Shelf,
}

impl<'a> Model for NearReceives<'a> {
    ghost use Rattle.std.specs.Prelude.{List};
    ghost use Rattle.mpi_model.specs.declared.message.Receive.{Receive as One};
    ghost use Rattle.trace_diagnosis.specs.declared.near.Way.{Way as Sort};
    ghost use Rattle.trace_diagnosis.specs.Ways.{AreReceives};

    ghost Value = { Sort × List One };

    ghost view = { λ s. (s.way, s.receives.now) };

    ghost invariant = { λ s. AreReceives s.way s.receives.now s.shelf };
}

impl<'a> NearReceives<'a> {
    /// A table of these receives, which are in the order of their names. Fails with `AllocError` when memory is
    /// refused.
    pub fn of(
        alloc: Global,
        way: Way,
        receives: &'a [Receive],
    ) -> Result<NearReceives<'a>, AllocError>
        ensures { IfOk result (λ t. t ≡ (way, receives.now)) }
    {
        let shelf = shelf_of(alloc, way, receives)?;
        Ok(NearReceives {
            way,
            receives,
            shelf,
        })
    }

    /// The sort of these near misses.
    pub fn why(&self) -> Why
        ensures { result ≡ why_of self.now.0 }
    {
        self.way.why()
    }

    /// The receives.
    pub fn receives(&self) -> &'a [Receive]
        ensures { result.now ≡ self.now.1 }
    {
        self.receives
    }

    /// The places of the first three that differ in one thing from the message. Fails with `AllocError` when memory is
    /// refused.
    pub fn near(&self, alloc: Global, m: &Message) -> Result<Vec<usize>, AllocError>
        ensures { IfOk result (λ found. found.items ≡ first_places (is_near (why_of self.now.0) m.now) self.now.1) }
    {
        near_receives(alloc, self.way, &self.shelf, m)
    }
}

/// Makes a place for what the receive asks for.
fn make_for(alloc: Global, way: Way, q: &Receive, shelf: &mut Shelf) -> Result<(), AllocError>
    ensures { OnOk result (MakesAsked way q.now shelf.old shelf.new) }
{
    match place_of(way, q) {
        Some(place) => {
            shelf.make(alloc, place.key)?;
            Ok(())
        }
        None => Ok(()),
    }
}

/// Places for what these receives ask for.
fn asked_by(alloc: Global, way: Way, receives: &[Receive]) -> Result<Shelf, AllocError>
    ensures asked { IfOk result (λ shelf. All (λ q. is_asked way shelf q ≡ true) receives.now) }
    ensures none { IfOk result IsBare }
{
    let mut shelf = Shelf::new(alloc);
    for q in receives {
        make_for(alloc, way, q, &mut shelf)?;
    }
    Ok(shelf)
}

/// Puts a message under a key.
fn put_at(
    way: Way,
    m: &Message,
    source: Option<u32>,
    tag: Option<u32>,
    at: usize,
    shelf: &mut Shelf,
) -> Result<(), AllocError>
    ensures { OnOk result (PutsMessage (meets (place_for way m.now source tag)) at shelf.old shelf.new) }
{
    let place = place_for(way, m, source, tag);
    shelf.put(place.key, place.value, at)?;
    Ok(())
}

/// Puts a message under the keys that name this source.
fn put_from(
    way: Way,
    m: &Message,
    source: Option<u32>,
    at: usize,
    shelf: &mut Shelf,
) -> Result<(), AllocError>
    ensures { OnOk result (PutsMessage (lies_from way m.now source) at shelf.old shelf.new) }
{
    put_at(way, m, source, None, at, shelf)?;
    if !way.names_tag() {
        return Ok(());
    }
    put_at(way, m, source, Some(m.tag), at, shelf)?;
    Ok(())
}

/// Puts a message under each of its keys.
fn put_message(way: Way, m: &Message, at: usize, shelf: &mut Shelf) -> Result<(), AllocError>
    ensures { OnOk result (PutsMessage (λ o. lies way o m.now) at shelf.old shelf.new) }
{
    put_from(way, m, None, at, shelf)?;
    if !way.names_source() {
        return Ok(());
    }
    put_from(way, m, Some(m.from), at, shelf)?;
    Ok(())
}

/// Puts the messages under the keys that have places.
fn put_messages(way: Way, messages: &[Message], shelf: &mut Shelf) -> Result<(), AllocError>
    requires { IsBare shelf.old }
    ensures messages { OnOk result (AreMessages way messages.now shelf.new) }
    ensures keys { OnOk result ((k : Pattern) → has_key shelf.new k ≡ has_key shelf.old k) }
{
    for at in 0..messages.len() {
        put_message(way, &messages[at], at, shelf)?;
    }
    Ok(())
}

/// The messages by the keys under which these receives ask for them.
fn shelf_for(
    alloc: Global,
    way: Way,
    messages: &[Message],
    receives: &[Receive],
) -> Result<Shelf, AllocError>
    ensures messages { IfOk result (AreMessages way messages.now) }
    ensures asked { IfOk result (λ shelf. All (λ q. is_asked way shelf q ≡ true) receives.now) }
{
    let mut shelf = asked_by(alloc, way, receives)?;
    put_messages(way, messages, &mut shelf)?;
    Ok(shelf)
}

/// The places of the first three messages that differ in one thing from the receive, where there is a place for it.
fn near_messages(
    alloc: Global,
    way: Way,
    shelf: &Shelf,
    q: &Receive,
) -> Result<Vec<usize>, AllocError>
    ensures { IfOk result (λ found. (ms : List Sent) (xs : List One) → AreMessages way ms shelf.now →
        All (λ r. is_asked way shelf.now r ≡ true) xs → Contains xs q.now →
        found.items ≡ first_places (λ m. is_near (why_of way) m q.now) ms) }
{
    match place_of(way, q) {
        Some(place) => {
            let found = shelf.others(alloc, place.key, place.value)?;
            Ok(found)
        }
        None => Ok(Vec::new(alloc)),
    }
}

/// Messages, to be asked for by receives.
#[derive(Drop)]
pub(crate) struct NearMessages<'a> {
    way: Way,
    messages: &'a [Message],
    receives: &'a [Receive],
    shelf: Shelf,
}

impl<'a> Model for NearMessages<'a> {
    ghost use Rattle.std.specs.Prelude.{◌≡◌, All, List, true};
    ghost use Rattle.mpi_model.specs.declared.message.Message.{Message as Sent};
    ghost use Rattle.mpi_model.specs.declared.message.Receive.{Receive as One};
    ghost use Rattle.trace_diagnosis.specs.declared.near.Way.{Way as Sort};
    ghost use Rattle.trace_diagnosis.specs.Ways.{AreMessages, is_asked};

    ghost Value = { Sort × List Sent × List One };

    ghost view = { λ s. (s.way, s.messages.now, s.receives.now) };

    ghost invariant = { λ s. AreMessages s.way s.messages.now s.shelf
        × All (λ q. is_asked s.way s.shelf q ≡ true) s.receives.now };
}

impl<'a> NearMessages<'a> {
    /// A table of these messages, which are in the order of their names, without those that no receive can ask for.
    /// Fails with `AllocError` when memory is refused.
    pub fn of(
        alloc: Global,
        way: Way,
        messages: &'a [Message],
        receives: &'a [Receive],
    ) -> Result<NearMessages<'a>, AllocError>
        ensures { IfOk result (λ t. t ≡ (way, messages.now, receives.now)) }
    {
        let shelf = shelf_for(alloc, way, messages, receives)?;
        Ok(NearMessages {
            way,
            messages,
            receives,
            shelf,
        })
    }

    /// The sort of these near misses.
    pub fn why(&self) -> Why
        ensures { result ≡ why_of self.now.0 }
    {
        self.way.why()
    }

    /// The messages.
    pub fn messages(&self) -> &'a [Message]
        ensures { result.now ≡ self.now.1 }
    {
        self.messages
    }

    /// The places of the first three that differ in one thing from one of the receives. Fails with `AllocError` when
    /// memory is refused.
    pub fn near(&self, alloc: Global, q: &Receive) -> Result<Vec<usize>, AllocError>
        requires { Contains self.now.2 q.now }
        ensures { IfOk result (λ r. r.items ≡ first_places (λ m. is_near (why_of self.now.0) m q.now) self.now.1) }
    {
        let found = near_messages(alloc, self.way, &self.shelf, q)?;
        Ok(found)
    }
}
