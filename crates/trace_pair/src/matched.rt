//! The sets of an index, as one call comes to the end of its rank or goes from there. Each call has
//! one part.

ghost use Rattle.std.specs.Prelude.{◌≡◌, true, OnOk, IfSome, IfNone, []};
ghost use Rattle.mpi_model.specs.declared.message.Message.{Message};
ghost use Rattle.mpi_model.specs.declared.message.Receive.{Receive};
ghost use Rattle.mpi_model.specs.Trusts.{is_settled};
ghost use Rattle.trace_pair.specs.After.{comes_after};
ghost use Rattle.trace_pair.specs.Followed.{GainsMessage, GainsReceive, Indexes, KeepsCalls, LosesMessage, LosesReceive, IsTakerIn, IsMessageIn, IsFreeIn, TellsOpenFitIn, IsTakerFor, HasNoTakerFor, IsMessageFor, HasNoMessageFor};
ghost use Rattle.trace_pair.specs.Pairing.{After};

use crate::couples::Couples;
use crate::opened::Opened;
use crate::pair::Couple;
use crate::queues::{Messages, Receives};
use crate::reach::Reaches;
use mpi_model::{Message, Receive};
use std::alloc::{AllocError, Global};

/// The messages that wait, the free receives, the open ones, and the pairs. What is void is in none
/// of them.
#[derive(Drop)]
pub(crate) struct Matched {
    waiting: Messages,
    free: Receives,
    opened: Opened,
    couples: Couples,
}

impl Matched {
    /// The state before the first message and the first receive. It takes no memory.
    pub(crate) fn empty(alloc: Global) -> Matched
        ensures { (after : After) → Indexes after [] [] result }
    {
        Matched {
            waiting: Messages::empty(alloc),
            free: Receives::empty(alloc),
            opened: Opened::empty(alloc),
            couples: Couples::empty(alloc),
        }
    }

    /// Makes room for the couples of so many messages and receives of a rank.
    pub(crate) fn reserve(
        &mut self,
        rank: u32,
        sends: usize,
        receives: usize,
    ) -> Result<(), AllocError>
        ensures { KeepsCalls self.old self.new }
    {
        self.couples.reserve_messages(rank, sends)?;
        self.couples.reserve_receives(rank, receives)?;
        Ok(())
    }

    /// The receive that takes the held message. The next message of its sender is found without a
    /// search if it is asked for with the same `next`.
    pub(crate) fn partner_of(&self, next: &mut usize, m: &Message) -> Option<Receive>
        ensures { IsTakerIn self.now m.now result }
    {
        match self.couples.of_message(next, m) {
            Some(q) => Some(q),
            None => None,
        }
    }

    /// The message that the held receive takes; `next` likewise for the receives of its rank.
    pub(crate) fn message_of(&self, next: &mut usize, q: &Receive) -> Option<Message>
        ensures some { IfSome result (IsMessageIn self.now q.now) }
        ensures none { IfNone result (IsFreeIn self.now q.now) }
    {
        match self.couples.of_receive(next, q) {
            Some(m) => Some(m),
            None => None,
        }
    }

    /// Whether an open receive fits the message, which doesn't come after it.
    pub(crate) fn does_open_fit(&self, reaches: &Reaches, m: &Message) -> bool
        ensures { TellsOpenFitIn (comes_after reaches.now) self.now m.now result }
    {
        !m.trust.is_void() && self.opened.hides(reaches, m)
    }
}

/// The receive that takes the new message.
fn taker_for(state: &Matched, reaches: &Reaches, m: &Message) -> Option<Receive>
    ensures some { IfSome result (IsTakerFor (comes_after reaches.now) state.now m.now) }
    ensures none { IfNone result (HasNoTakerFor (comes_after reaches.now) state.now m.now) }
{
    if !m.trust.is_sure() {
        return None;
    }
    let Some(q) = state.free.first_for(m) else {
        return None;
    };
    if state.opened.hides_up_to(reaches, m, &q) {
        return None;
    }
    if let Some(_) = state.waiting.first_for(&q) {
        return None;
    }
    Some(q)
}

/// The message that the new receive takes.
fn taken_by(state: &Matched, reaches: &Reaches, q: &Receive) -> Option<Message>
    requires { is_settled q.now ≡ true }
    ensures some { IfSome result (IsMessageFor (comes_after reaches.now) state.now q.now) }
    ensures none { IfNone result (HasNoMessageFor (comes_after reaches.now) state.now q.now) }
{
    let Some(m) = state.waiting.first_for(q) else {
        return None;
    };
    if !m.trust.is_sure() {
        return None;
    }
    if state.opened.hides(reaches, &m) {
        return None;
    }
    if let Some(_) = state.free.first_for(&m) {
        return None;
    }
    Some(m)
}

/// Adds a rank's next message: it goes to the first receive that the rules allow, or waits.
fn push_message(state: &mut Matched, reaches: &Reaches, m: Message) -> Result<(), AllocError>
    ensures { OnOk result (GainsMessage (comes_after reaches.now) m state.old state.new) }
{
    if m.trust.is_void() {
        return Ok(());
    }
    match taker_for(state, reaches, &m) {
        Some(q) => {
            state.free.remove(&q);
            state.couples.insert(Couple {
                message: m,
                receive: q,
            })?;
        }
        None => state.waiting.insert(m)?,
    }
    Ok(())
}

/// Adds a rank's next receive: it takes the first message that the rules allow, or waits.
fn push_receive(state: &mut Matched, reaches: &Reaches, q: Receive) -> Result<(), AllocError>
    ensures { OnOk result (GainsReceive (comes_after reaches.now) q state.old state.new) }
{
    if q.is_open() {
        state.opened.insert(q)?;
        return Ok(());
    }
    if !q.is_settled() {
        return Ok(());
    }
    match taken_by(state, reaches, &q) {
        Some(m) => {
            state.waiting.remove(&m);
            state.couples.insert(Couple {
                message: m,
                receive: q,
            })?;
        }
        None => state.free.insert(q)?,
    }
    Ok(())
}

/// Takes a rank's last message back, with what it had taken.
pub(crate) fn pop_message(state: &mut Matched, m: &Message) -> Result<(), AllocError>
    ensures { OnOk result (LosesMessage m.now state.old state.new) }
{
    let mut anywhere = 0;
    match state.couples.of_message(&mut anywhere, m) {
        Some(q) => {
            state.couples.remove(&Couple {
                message: *m,
                receive: q,
            });
            state.free.insert(q)?;
        }
        None => state.waiting.remove(m),
    }
    Ok(())
}

/// Takes a rank's last receive back, with what it had taken.
pub(crate) fn pop_receive(state: &mut Matched, q: &Receive) -> Result<(), AllocError>
    ensures { OnOk result (LosesReceive q.now state.old state.new) }
{
    if q.is_open() {
        state.opened.remove(q);
        return Ok(());
    }
    let mut anywhere = 0;
    match state.couples.of_receive(&mut anywhere, q) {
        Some(m) => {
            state.couples.remove(&Couple {
                message: m,
                receive: *q,
            });
            state.waiting.insert(m)?;
        }
        None => state.free.remove(q),
    }
    Ok(())
}

/// Puts a message behind those of its sender, with room for its receive.
pub(crate) fn add_message(
    state: &mut Matched,
    reaches: &Reaches,
    m: Message,
) -> Result<(), AllocError>
    ensures { OnOk result (GainsMessage (comes_after reaches.now) m state.old state.new) }
{
    state.couples.expect_message(&m)?;
    push_message(state, reaches, m)?;
    Ok(())
}

/// Makes room for the message of a receive, if it is settled.
fn expect_settled(state: &mut Matched, q: &Receive) -> Result<(), AllocError>
    ensures { KeepsCalls state.old state.new }
{
    if !q.is_settled() {
        return Ok(());
    }
    state.couples.expect_receive(q)?;
    Ok(())
}

/// Puts a receive behind those of its rank, with room for its message.
pub(crate) fn add_receive(
    state: &mut Matched,
    reaches: &Reaches,
    q: Receive,
) -> Result<(), AllocError>
    ensures { OnOk result (GainsReceive (comes_after reaches.now) q state.old state.new) }
{
    expect_settled(state, &q)?;
    push_receive(state, reaches, q)?;
    Ok(())
}
