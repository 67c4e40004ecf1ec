//! The pairing of all ranks' calls in one pass: all messages are there from the start, and the receives
//! come rank by rank and call by call, each call behind those before it.
//!
//! A settled receive can only take the first message that fits it and that no receive before it took.
//! It takes that one if it is sure, unless an open receive before it fits the message, or a settled one
//! that fits it went without a message. An open one doesn't count that the message comes after. Which of
//! the ranks comes first makes no difference, since all that the rules compare are messages of one sender
//! and receives of one rank.
//!
//! The parts of one call may stand in one another's way, whatever their order in the list (MPI 4.0, 3.9).
//! So all of them enter their sets first, and what each may take is looked for before anything is taken.
//! Then a part takes what it is offered, if no other free receive fits it: those of any tag before those
//! of a tag, since one of a tag can wait for one of any to be out of the way, and not the other way round.

ghost use Rattle.std.specs.Prelude.{◌≡◌, ◌∷◌, true, false, None, Some, IfOk, OnOk, [], List, length};
ghost use Rattle.std.specs.List.{All};
ghost use Rattle.mpi_model.specs.declared.message.Message.{Message};
ghost use Rattle.mpi_model.specs.declared.message.Receive.{Receive};
ghost use Rattle.mpi_model.specs.Trusts.{is_settled};
ghost use Rattle.trace_ops.specs.Ops.{AreOwn};
ghost use Rattle.trace_pair.specs.After.{comes_after};
ghost use Rattle.trace_pair.specs.Settled.{Settles, SettlesCall, IsWithin, IsTakerAt, TellsOpenFit, OffersPlace, OffersPlaces, TakesPlace, EntersReceive, EntersCall, SettlesPart, SettlesKind, SettlesRank};
ghost use Rattle.trace_pair.specs.Ends.{AreRanked, NoneHides, SomeHides, IsOfNoneAt};
ghost use Rattle.trace_pair.specs.Pairing.{receive_of};
ghost use Rattle.trace_pair.specs.Table.{sends_of, receives_of};
ghost use Rattle.trace_pair.specs.Waiting.{ArePlain};

use crate::ahead::Ahead;
use crate::couples::receive_by;
use crate::ranked_ends::RankedEnds;
use crate::ranked_receives::RankedReceives;
use crate::reach::Reaches;
use crate::sends::Sends;
use crate::takings::Takings;
use crate::whole::end_of_receives;
use mpi_model::{Message, Receive};
use std::alloc::{AllocError, Global};
use trace_ops::RankOps;

/// All messages with what takes each, and of the receives so far those that are free, and the ends of
/// those that are open.
#[derive(Drop)]
pub(crate) struct Batch<'a> {
    messages: Takings<'a>,
    free: RankedReceives,
    opened: RankedEnds,
}

impl<'a> Batch<'a> {
    /// All messages, in their order.
    pub(crate) fn messages(&self) -> &Sends<'a>
        ensures { result.now ≡ self.now.messages.messages }
    {
        self.messages.messages()
    }

    /// The places of the pairs, nearly in order of the receive.
    pub(crate) fn into_places_near(self, alloc: Global) -> Result<Vec<u32>, AllocError> {
        self.messages.into_places_near(alloc)
    }

    /// What takes each message, to be asked from the first on.
    pub(crate) fn ahead(&self, alloc: Global) -> Ahead<'_, 'a>
        ensures { result ≡ self.now.messages }
    {
        Ahead::new(alloc, &self.messages)
    }

    /// The receive that takes the message at a place.
    pub(crate) fn receive_of(
        &self,
        ahead: &Ahead<'_, 'a>,
        place: usize,
        m: &Message,
    ) -> Option<Receive>
        requires { ahead.now ≡ self.now.messages }
        ensures { IsTakerAt self.now place m.now result }
    {
        match ahead.taker_at(place) {
            Some(taker) => Some(receive_by(m, taker)),
            None => None,
        }
    }

    /// Whether an open receive fits the message, which doesn't come after it.
    pub(crate) fn does_open_fit(&self, reaches: &Reaches, m: &Message) -> bool
        ensures { TellsOpenFit (comes_after reaches.now) self.now m.now result }
    {
        !m.trust.is_void() && is_hidden(reaches, &self.opened, m)
    }
}

/// Whether some open receive may have taken the message.
fn is_hidden(reaches: &Reaches, opened: &RankedEnds, m: &Message) -> bool
    ensures yes { result ≡ true → (qs : List Receive) → AreRanked qs opened.now → SomeHides (comes_after reaches.now) qs m.now }
    ensures no { result ≡ false → (qs : List Receive) → AreRanked qs opened.now → NoneHides (comes_after reaches.now) qs m.now }
{
    opened.may_take(reaches, m)
}

/// Whether it is known that each message is sure, and no receive of the rank open.
fn has_no_doubt(batch: &Batch, rank: u32) -> bool
    ensures plain { result ≡ true → ArePlain batch.now.messages.messages }
    ensures closed { result ≡ true → IsOfNoneAt batch.now.opened rank }
{
    if batch.opened.may_be_of(rank) {
        return false;
    }
    batch.messages.are_plain()
}

/// The place of the message that a part of a new call takes, if no other free receive fits it.
fn offered_place(
    batch: &mut Batch,
    reaches: &Reaches,
    part: &Receive,
) -> Result<Option<usize>, AllocError>
    ensures kept { batch.new ≡ batch.old }
    ensures within { IfOk result (IsWithin batch.old) }
    ensures found { IfOk result (OffersPlace (comes_after reaches.now) batch.old part.now) }
{
    if !part.is_settled() {
        return Ok(None);
    }
    let Some(place) = batch.messages.sole_for(part)? else {
        return Ok(None);
    };
    if has_no_doubt(batch, part.at) {
        return Ok(Some(place));
    }
    let m = batch.messages.messages().at(place);
    if !m.trust.is_sure() {
        return Ok(None);
    }
    if is_hidden(reaches, &batch.opened, m) {
        return Ok(None);
    }
    Ok(Some(place))
}

/// The place of the message that a settled receive takes that is alone of its call.
fn taken_by(batch: &mut Batch, reaches: &Reaches, q: &Receive) -> Result<Option<usize>, AllocError>
    requires { is_settled q.now ≡ true }
    ensures kept { batch.new ≡ batch.old }
    ensures within { IfOk result (IsWithin batch.old) }
    ensures found { IfOk result (TakesPlace (comes_after reaches.now) batch.old q.now) }
{
    let Some(place) = offered_place(batch, reaches, q)? else {
        return Ok(None);
    };
    if !batch.free.may_be_of(q.at) {
        return Ok(Some(place));
    }
    let m = batch.messages.messages().at(place);
    if batch.free.fits_some(m) {
        return Ok(None);
    }
    Ok(Some(place))
}

/// Puts a receive that is alone of its call behind those of its rank.
fn add_receive<'a>(
    batch: &mut Batch<'a>,
    reaches: &Reaches,
    q: &'a Receive,
) -> Result<(), AllocError>
    ensures { OnOk result (SettlesCall (comes_after reaches.now) (q.now ∷ []) batch.old batch.new) }
{
    if q.is_open() {
        batch.opened.insert(q)?;
        return Ok(());
    }
    if !q.is_settled() {
        return Ok(());
    }
    match taken_by(batch, reaches, q)? {
        Some(place) => batch.messages.take(place, q)?,
        None => batch.free.insert(*q)?,
    }
    Ok(())
}

/// Puts a receive that takes nothing yet into its set.
fn enter_receive(batch: &mut Batch, q: &Receive) -> Result<(), AllocError>
    ensures { OnOk result (EntersReceive q.now batch.old batch.new) }
{
    if q.is_settled() {
        batch.free.insert(*q)?;
        return Ok(());
    }
    if !q.is_open() {
        return Ok(());
    }
    batch.opened.insert(q)?;
    Ok(())
}

/// Puts the receives of a call into their sets.
fn enter_receives(batch: &mut Batch, call: &[Receive]) -> Result<(), AllocError>
    ensures { OnOk result (EntersCall call.now batch.old batch.new) }
{
    for q in call {
        enter_receive(batch, q)?;
    }
    Ok(())
}

/// For each part of a call the place of the message that it takes, if no other free receive fits it.
fn offered_places(
    batch: &mut Batch,
    reaches: &Reaches,
    call: &[Receive],
) -> Result<Vec<Option<usize>>, AllocError>
    ensures kept { batch.new ≡ batch.old }
    ensures long { IfOk result (λ found. length found.items ≡ length call.now) }
    ensures within { IfOk result (λ found. All (IsWithin batch.old) found.items) }
    ensures found { IfOk result (λ found. OffersPlaces (comes_after reaches.now) batch.old call.now found.items) }
{
    let mut found = Vec::with_capacity(*batch.messages.allocator(), call.len())?;
    for q in call {
        let place = offered_place(batch, reaches, q)?;
        found.push(place)?;
    }
    Ok(found)
}

/// The part takes the message that it is offered, if no other free receive fits it.
fn settle_receive<'a>(
    batch: &mut Batch<'a>,
    offered: Option<usize>,
    q: &'a Receive,
) -> Result<(), AllocError>
    requires { IsWithin batch.old offered }
    ensures kept { OnOk result (batch.new.messages.messages ≡ batch.old.messages.messages) }
    ensures settled { OnOk result (SettlesPart q.now offered batch.old batch.new) }
{
    let Some(place) = offered else {
        return Ok(());
    };
    let m = batch.messages.messages().at(place);
    batch.free.remove(q);
    match batch.free.first_for(m) {
        Some(_) => batch.free.insert(*q)?,
        None => batch.messages.take(place, q)?,
    }
    Ok(())
}

/// The parts of a call that are of any tag take what they are offered, or those of a tag.
fn settle_receives<'a>(
    batch: &mut Batch<'a>,
    call: &'a [Receive],
    found: &[Option<usize>],
    any_tag: bool,
) -> Result<(), AllocError>
    requires long { length found.now ≡ length call.now }
    requires within { All (IsWithin batch.old) found.now }
    ensures kept { OnOk result (batch.new.messages.messages ≡ batch.old.messages.messages) }
    ensures settled { OnOk result (SettlesKind any_tag call.now found.now batch.old batch.new) }
{
    for (i, q) in call.iter().enumerate() {
        if q.tag.is_none() != any_tag {
            continue;
        }
        settle_receive(batch, found[i], q)?;
    }
    Ok(())
}

/// Puts the receives of a call of several parts behind those of its rank. Parts that are alike each need
/// the other to go first, and none of them takes anything.
fn add_parts<'a>(
    batch: &mut Batch<'a>,
    reaches: &Reaches,
    call: &'a [Receive],
) -> Result<(), AllocError>
    ensures { OnOk result (SettlesCall (comes_after reaches.now) call.now batch.old batch.new) }
{
    enter_receives(batch, call)?;
    let found = offered_places(batch, reaches, call)?;
    settle_receives(batch, call, &found, true)?;
    settle_receives(batch, call, &found, false)?;
    Ok(())
}

/// Puts the receives of a call behind those of its rank.
fn add_call<'a>(
    batch: &mut Batch<'a>,
    reaches: &Reaches,
    call: &'a [Receive],
) -> Result<(), AllocError>
    ensures { OnOk result (SettlesCall (comes_after reaches.now) call.now batch.old batch.new) }
{
    if call.len() == 1 {
        return add_receive(batch, reaches, &call[0]);
    }
    add_parts(batch, reaches, call)
}

/// Adds the receives of a rank behind the ranks before it, call by call.
fn add_receives<'a>(
    batch: &mut Batch<'a>,
    reaches: &Reaches,
    own: &'a [Receive],
) -> Result<(), AllocError>
    ensures { OnOk result (SettlesRank (comes_after reaches.now) own.now batch.old batch.new) }
{
    let mut next = 0;
    while next < own.len() {
        let end = end_of_receives(own, next);
        add_call(batch, reaches, &own[next..end])?;
        next = end;
    }
    Ok(())
}

/// All messages, with no receive yet.
fn all_waiting<'a>(alloc: Global, ops: &'a [RankOps]) -> Result<Batch<'a>, AllocError>
    requires { AreOwn 0 ops.now }
    ensures { IfOk result (Settles (comes_after ops.now) (sends_of ops.now) []) }
{
    let sends = Sends::of_ops(alloc, ops)?;
    let messages = Takings::new(alloc, sends)?;
    Ok(Batch {
        messages,
        free: RankedReceives::empty(alloc),
        opened: RankedEnds::empty(alloc),
    })
}

/// The pairing of all ranks' calls.
pub(crate) fn batch_of<'a>(alloc: Global, reaches: &Reaches<'a>) -> Result<Batch<'a>, AllocError>
    requires { AreOwn 0 reaches.now }
    ensures { IfOk result (Settles (comes_after reaches.now) (sends_of reaches.now) (receives_of reaches.now)) }
{
    let ops = reaches.ops();
    let mut batch = all_waiting(alloc, ops)?;
    for own in ops {
        add_receives(&mut batch, reaches, own.receives())?;
    }
    Ok(batch)
}
