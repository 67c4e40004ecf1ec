//! Messages and receives in no pair.

ghost use Rattle.std.specs.Prelude.{◌≡◌, ◌++◌, List, IfOk, OnOk, false, filter, is_none, true};
ghost use Rattle.std.specs.List.{list_any};
ghost use Rattle.mpi_model.specs.declared.message.Receive.{Receive as Wanted};
ghost use Rattle.trace_pair.specs.Ends.{AreLast};
ghost use Rattle.trace_wait.specs.Matching.{is_unpaired_receive};
ghost use Rattle.trace_pair.specs.Table.{taken_by};
ghost use Rattle.trace_diagnosis.specs.LeftOver.{has_sure_loose, is_left_beside, is_loose, is_sure_loose, is_undecided_beside, loose};

use mpi_model::{Message, OpName, Receive};
use std::alloc::{AllocError, Global};
use trace_ops::RankOps;
use trace_pair::{Ends, Pair, PairTable, PairsByReceive, Reaches};

/// Whether the message of that name is in one of the pairs, which go by message; looked for at a place first.
fn is_in(pairs: &[Pair], place: &mut usize, name: OpName) -> bool
    ensures { result ≡ true → is_none (taken_by pairs.now name) ≡ false }
{
    if is_of_at(pairs, *place, name) {
        *place = place.saturating_add(1);
        return true;
    }
    let found = pairs.partition_point(|pair| pair.message < name);
    *place = found;
    if !is_of_at(pairs, found, name) {
        return false;
    }
    *place = found.saturating_add(1);
    true
}

/// Whether the pair at a place is of the message of that name.
fn is_of_at(pairs: &[Pair], place: usize, name: OpName) -> bool
    ensures { result ≡ true → is_none (taken_by pairs.now name) ≡ false }
{
    if place >= pairs.len() {
        return false;
    }
    pairs[place].message == name
}

/// Whether a message is sure and in no pair.
fn is_sure_loose(pairs: &[Pair], place: &mut usize, m: &Message) -> bool
    ensures { result ≡ false → is_sure_loose pairs.now m.now ≡ false }
{
    m.trust.is_sure() && !is_in(pairs, place, m.name)
}

/// Whether one of the messages is sure and in no pair.
fn has_loose(pairs: &[Pair], place: &mut usize, sends: &[Message]) -> bool
    ensures { result ≡ false → list_any (is_sure_loose pairs.now) sends.now ≡ false }
{
    for m in sends {
        if is_sure_loose(pairs, place, m) {
            return true;
        }
    }
    false
}

/// Whether some message is sure and in no pair.
pub(crate) fn is_some_loose(pairs: &[Pair], ops: &[RankOps]) -> bool
    ensures { result ≡ false → has_sure_loose pairs.now ops.now ≡ false }
{
    let mut place = 0;
    for own in ops {
        if has_loose(pairs, &mut place, own.sends()) {
            return true;
        }
    }
    false
}

/// Whether a message is in no pair and wasn't cancelled.
fn is_loose(pairs: &PairTable, place: &mut usize, m: &Message) -> bool
    ensures { result ≡ is_loose pairs.now.pairs m.now }
{
    !m.trust.is_void() && pairs.receive_near(m.name, place).is_none()
}

/// Adds the messages that are in no pair and weren't cancelled.
fn push_loose(
    pairs: &PairTable,
    sends: &[Message],
    place: &mut usize,
    found: &mut Vec<Message>,
) -> Result<(), AllocError>
    ensures { OnOk result (found.new.items ≡ found.old.items ++ filter (is_loose pairs.now.pairs) sends.now) }
{
    for m in sends {
        if is_loose(pairs, place, m) {
            found.push(*m)?;
        }
    }
    Ok(())
}

/// The messages that are in no pair and weren't cancelled, by name.
pub(crate) fn loose_messages(
    alloc: Global,
    pairs: &PairTable,
    ops: &[RankOps],
) -> Result<Vec<Message>, AllocError>
    ensures { IfOk result (λ found. found.items ≡ loose ops.now pairs.now.pairs) }
{
    let mut place = 0;
    let mut found = Vec::new(alloc);
    for own in ops {
        push_loose(pairs, own.sends(), &mut place, &mut found)?;
    }
    Ok(found)
}

/// Whether the receive is in no pair.
pub(crate) fn is_unpaired(pairs: &PairsByReceive<'_>, place: &mut usize, q: &Receive) -> bool
    ensures { result ≡ is_unpaired_receive pairs.now q.now }
{
    pairs.message_near(q.name, place).is_none()
}

/// Whether a message in no pair is left over: it is sure, and no receive in no pair may have taken it. `ends` are those
/// of these receives.
fn is_left(ends: &Ends, reaches: &Reaches<'_>, m: &Message) -> bool
    ensures { (free : List Wanted) → AreLast free ends.now → result ≡ is_left_beside reaches.now free m.now }
{
    m.trust.is_sure() && !ends.may_take(reaches, m)
}

/// The messages that are left over, among those in no pair.
pub(crate) fn left_over_of(
    alloc: Global,
    ends: &Ends,
    reaches: &Reaches<'_>,
    messages: &[Message],
) -> Result<Vec<Message>, AllocError>
    ensures { IfOk result (λ left. (free : List Wanted) → AreLast free ends.now
        → left.items ≡ filter (is_left_beside reaches.now free) messages.now) }
{
    let mut left = Vec::new(alloc);
    for m in messages {
        if is_left(ends, reaches, m) {
            left.push(*m)?;
        }
    }
    Ok(left)
}

/// Whether a message in no pair is undecided: it is sure, and a receive in no pair may have taken it. `ends` are those
/// of these receives.
fn is_undecided(ends: &Ends, reaches: &Reaches<'_>, m: &Message) -> bool
    ensures { (free : List Wanted) → AreLast free ends.now → result ≡ is_undecided_beside reaches.now free m.now }
{
    m.trust.is_sure() && ends.may_take(reaches, m)
}

/// The messages that are undecided, among those in no pair.
pub(crate) fn undecided_of(
    alloc: Global,
    ends: &Ends,
    reaches: &Reaches<'_>,
    messages: &[Message],
) -> Result<Vec<Message>, AllocError>
    ensures { IfOk result (λ found. (free : List Wanted) → AreLast free ends.now
        → found.items ≡ filter (is_undecided_beside reaches.now free) messages.now) }
{
    let mut found = Vec::new(alloc);
    for m in messages {
        if is_undecided(ends, reaches, m) {
            found.push(*m)?;
        }
    }
    Ok(found)
}
