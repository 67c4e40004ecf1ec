//! The sets of an index, as the calls of one rank become others.

ghost use Rattle.std.specs.Prelude.{◌≡◌, ◌↔◌, ◌≤◌, ◌<◌, OnOk, IfOk, IsTrue, take, length, slice_index_or};
ghost use Rattle.std.specs.List.{AllZip};
ghost use Rattle.mpi_model.specs.declared.message.Message.{Message};
ghost use Rattle.mpi_model.specs.declared.message.Receive.{Receive};
ghost use Rattle.trace_ops.specs.Ops.{AreOwn, no_ops};
ghost use Rattle.trace_ops.specs.Order.{AreEntered, Has};
ghost use Rattle.trace_pair.specs.After.{comes_after};
ghost use Rattle.trace_pair.specs.Followed.{Adds, Drops, DropsMessages, AddsMessages, DropsPosted, AddsPosted};
ghost use Rattle.trace_pair.specs.Fronts.{AreFronts, AreOneBefore, IsAlike, IsEndedBy, call_at, StopsWhere};
ghost use Rattle.trace_pair.specs.Reach.{AreReachesOf};

use crate::matched::{Matched, add_message, add_receive, pop_message, pop_receive};
use crate::reach::{RankReach, Reaches};
use mpi_model::{Message, Receive};
use std::alloc::AllocError;
use trace_ops::{Entered, RankOps};

fn is_same_message(a: &Message, b: &Message) -> bool
    ensures { IsTrue result ↔ (a.now ≡ b.now) }
{
    *a == *b
}

fn is_same_receive(a: &Receive, b: &Receive) -> bool
    ensures { IsTrue result ↔ (a.now ≡ b.now) }
{
    *a == *b
}

/// Takes back the messages of a rank behind the first `keep`.
fn drop_messages(state: &mut Matched, held: &[Message], keep: usize) -> Result<(), AllocError>
    requires { keep ≤ length held.now }
    ensures { OnOk result (DropsMessages held.now keep state.old state.new) }
{
    let mut left = held.len();
    while left > keep {
        left -= 1;
        pop_message(state, &held[left])?;
    }
    Ok(())
}

/// Adds the messages of a rank behind the first `keep`.
pub(crate) fn add_messages(
    state: &mut Matched,
    reaches: &Reaches,
    held: &[Message],
    keep: usize,
) -> Result<(), AllocError>
    requires { keep ≤ length held.now }
    ensures { OnOk result (AddsMessages (comes_after reaches.now) held.now keep state.old state.new) }
{
    let mut next = keep;
    while next < held.len() {
        add_message(state, reaches, held[next])?;
        next += 1;
    }
    Ok(())
}

/// Whether a message stays: the new one is the same, and it stands at no call behind this one.
fn does_message_stay(held: &Message, new: &Message, last: u64) -> bool
    ensures { IsTrue result ↔ ((held.now ≡ new.now) × (held.now.name.call ≤ last)) }
{
    is_same_message(held, new) && held.name.call <= last
}

/// How many messages the two lists have in common at their front, up to the call, and no fewer.
fn common_messages(a: &[Message], b: &[Message], last: u64) -> usize
    ensures first { result ≤ length a.now }
    ensures second { result ≤ length b.now }
    ensures same { take result a.now ≡ take result b.now }
    ensures within { (m : Message) → Has (take result a.now) m → m.name.call ≤ last }
    ensures longest { StopsWhere (λ m. last < m.name.call) a.now b.now result }
{
    let mut i = 0;
    while i < a.len() && i < b.len() {
        if !does_message_stay(&a[i], &b[i], last) {
            return i;
        }
        i += 1;
    }
    i
}

/// Takes back the receives of a rank behind the first `keep`.
fn drop_receives(state: &mut Matched, held: &[Receive], keep: usize) -> Result<(), AllocError>
    requires { keep ≤ length held.now }
    ensures { OnOk result (DropsPosted held.now keep state.old state.new) }
{
    let mut left = held.len();
    while left > keep {
        left -= 1;
        pop_receive(state, &held[left])?;
    }
    Ok(())
}

/// Adds the receives of a rank behind the first `keep`.
pub(crate) fn add_receives(
    state: &mut Matched,
    reaches: &Reaches,
    held: &[Receive],
    keep: usize,
) -> Result<(), AllocError>
    requires { keep ≤ length held.now }
    ensures { OnOk result (AddsPosted (comes_after reaches.now) held.now keep state.old state.new) }
{
    let mut next = keep;
    while next < held.len() {
        add_receive(state, reaches, held[next])?;
        next += 1;
    }
    Ok(())
}

/// Whether the receive isn't completed, or by no call behind this one.
fn is_ended_by(q: &Receive, last: u64) -> bool
    ensures { IsTrue result ↔ IsEndedBy q.now last }
{
    match q.ended {
        Some(ended) => ended <= last,
        None => true,
    }
}

/// Whether a receive stays: the new one is the same, and no call behind this one completes it.
fn does_receive_stay(held: &Receive, new: &Receive, last: u64) -> bool
    ensures { IsTrue result ↔ ((held.now ≡ new.now) × IsEndedBy held.now last) }
{
    is_same_receive(held, new) && is_ended_by(held, last)
}

/// How many receives the two lists have in common at their front, none of which a call behind this one
/// completes, and no fewer.
fn common_receives(a: &[Receive], b: &[Receive], last: u64) -> usize
    ensures first { result ≤ length a.now }
    ensures second { result ≤ length b.now }
    ensures same { take result a.now ≡ take result b.now }
    ensures within { (q : Receive) → Has (take result a.now) q → IsEndedBy q last }
    ensures longest { StopsWhere (λ q. IsEndedBy q last → ⊥) a.now b.now result }
{
    let mut i = 0;
    while i < a.len() && i < b.len() {
        if !does_receive_stay(&a[i], &b[i], last) {
            return i;
        }
        i += 1;
    }
    i
}

/// The call at the place of a list of collective calls; where none stands there, the greatest number.
fn call_at(rounds: &[Entered], place: usize) -> u64
    ensures { result ≡ call_at rounds.now place }
{
    match rounds.get(place) {
        Some(entered) => entered.call,
        None => u64::MAX,
    }
}

/// Whether two calls are the same to what comes after what: one call on one communicator, both Barriers or neither, and
/// both collective communications or neither.
fn is_alike(a: &Entered, b: &Entered) -> bool
    ensures { IsTrue result ↔ IsAlike a.now b.now }
{
    a.comm == b.comm
        && a.call == b.call
        && a.is_barrier() == b.is_barrier()
        && a.is_communication() == b.is_communication()
}

/// How many collective calls the two lists have in common at their front.
fn common_rounds(a: &[Entered], b: &[Entered]) -> usize
    ensures { AllZip IsAlike (take result a.now) (take result b.now) }
{
    let mut i = 0;
    while i < a.len() && i < b.len() {
        if !is_alike(&a[i], &b[i]) {
            return i;
        }
        i += 1;
    }
    i
}

/// The earlier of two calls.
fn earlier(a: u64, b: u64) -> u64
    ensures first { result ≤ a }
    ensures second { result ≤ b }
{
    if a < b { a } else { b }
}

/// The last call before which the two ranks entered the same collective calls.
fn last_common(a: &[Entered], b: &[Entered]) -> u64
    requires first { AreEntered a.now }
    requires second { AreEntered b.now }
    ensures { AreOneBefore result a.now b.now }
{
    let front = common_rounds(a, b);
    earlier(call_at(a, front), call_at(b, front))
}

/// How many messages and receives stay when a rank's ops change: those of the common front, as long as it is unchanged
/// which messages come after which receives.
#[derive(Clone, Copy)]
pub(crate) struct Fronts {
    pub(crate) sends: usize,
    pub(crate) receives: usize,
}

/// How many messages and receives stay where a rank did other calls: none where its communicators are others.
fn fronts_of(held: &RankOps, new: &RankOps) -> Fronts
    requires held { AreEntered held.now.rounds }
    requires new { AreEntered new.now.rounds }
    ensures { AreFronts held.now new.now result }
{
    if held.comms() != new.comms() {
        return Fronts {
            sends: 0,
            receives: 0,
        };
    }
    let last = last_common(held.rounds(), new.rounds());
    Fronts {
        sends: common_messages(held.sends(), new.sends(), last),
        receives: common_receives(held.receives(), new.receives(), last),
    }
}

/// Takes back the calls of a rank that don't stay when its ops change, and returns how many stay.
pub(crate) fn drop_calls(
    state: &mut Matched,
    held: &[RankOps],
    rank: u32,
    new: &RankOps,
) -> Result<Fronts, AllocError>
    requires rank { rank < length held.now }
    requires held { AreOwn 0 held.now }
    requires new { AreEntered new.now.rounds }
    ensures fronts { IfOk result (AreFronts (slice_index_or held.now rank no_ops) new.now) }
    ensures state { IfOk result (λ fronts. Drops (slice_index_or held.now rank no_ops) fronts state.old state.new) }
{
    let was = &held[rank as usize];
    let fronts = fronts_of(was, new);
    drop_messages(state, was.sends(), fronts.sends)?;
    drop_receives(state, was.receives(), fronts.receives)?;
    Ok(fronts)
}

/// Adds the calls of a rank after those that stay.
pub(crate) fn add_calls(
    state: &mut Matched,
    held: &[RankOps],
    table: &[RankReach],
    rank: u32,
    fronts: Fronts,
) -> Result<(), AllocError>
    requires table { AreReachesOf held.now table.now }
    requires rank { rank < length held.now }
    requires sends { fronts.sends ≤ length (slice_index_or held.now rank no_ops).sends }
    requires receives { fronts.receives ≤ length (slice_index_or held.now rank no_ops).receives }
    ensures { OnOk result (Adds (comes_after held.now) (slice_index_or held.now rank no_ops) fronts state.old state.new) }
{
    let reaches = Reaches::new(held, table);
    let own = &held[rank as usize];
    add_messages(state, &reaches, own.sends(), fronts.sends)?;
    add_receives(state, &reaches, own.receives(), fronts.receives)?;
    Ok(())
}
