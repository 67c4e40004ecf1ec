//! Which messages and receives are in no pair, looked up by what a receive names of a message.
//!
//! A receive names communicator, receiver, source and tag, or leaves source or tag open. So a
//! message can be named in four ways: all four stand in the set of an unpaired message, and one
//! look-up tells whether some unpaired message fits a receive. Cancelled messages, which only a
//! probe may have found, stand in a set of their own, and cancelled receives nowhere. Of the
//! receives that name the same, a message can be taken by some exactly where it can be by the one
//! that ends last: so its end is all that is kept of them.

ghost use Rattle.std.specs.Prelude.{◌≡◌, ◌∷◌, [], IfOk, OnOk};
ghost use Rattle.trace_pair.specs.Ends.{AreLast};
ghost use Rattle.trace_wait.specs.Matching.{AsksFree, free_receives};
ghost use Rattle.trace_wait.specs.Patterns.{is_offered, is_void_or_not, offers_unpaired, pattern_cmp, some_offers, suits};
ghost use Rattle.trace_wait.specs.Sets.{IsSetOf, Notes};

use crate::paired::{is_given, is_taken};
use crate::sets::note;
use mpi_model::{Message, Receive};
use std::alloc::{AllocError, Global};
use std::collections::BTreeSet;
use trace_ops::RankOps;
use trace_pair::{Ends, PairTable, PairsByReceive};

/// Communicator, receiver, source and tag, as a receive names them.
pub(crate) type Pattern = (u32, u32, Option<u32>, Option<u32>);

/// Notes each way in which a receive can name the message.
fn offer(m: &Message, set: &mut BTreeSet<Pattern>) -> Result<(), AllocError>
    ensures { OnOk result (Notes pattern_cmp (suits m.now) set.old set.new) }
{
    note(set, (m.comm, m.to, None, None))?;
    note(set, (m.comm, m.to, None, Some(m.tag)))?;
    note(set, (m.comm, m.to, Some(m.from), None))?;
    note(set, (m.comm, m.to, Some(m.from), Some(m.tag)))?;
    Ok(())
}

/// Whether the message was cancelled, or else whether it was not, as is asked.
fn is_void_or_not(void: bool, m: &Message) -> bool
    ensures { result ≡ is_void_or_not void m.now }
{
    if void {
        m.trust.is_void()
    } else {
        !m.trust.is_void()
    }
}

/// Notes what suits a message that is in no pair, and is void or not as is asked.
fn offer_unpaired(
    pairs: &PairTable,
    void: bool,
    m: &Message,
    place: &mut usize,
    set: &mut BTreeSet<Pattern>,
) -> Result<(), AllocError>
    ensures { OnOk result (Notes pattern_cmp (offers_unpaired void pairs.now.pairs m.now) set.old set.new) }
{
    if !is_void_or_not(void, m) {
        return Ok(());
    }
    if is_taken(pairs, m, place) {
        return Ok(());
    }
    offer(m, set)?;
    Ok(())
}

/// Notes the same of all these messages.
fn offer_all(
    pairs: &PairTable,
    void: bool,
    sends: &[Message],
    place: &mut usize,
    set: &mut BTreeSet<Pattern>,
) -> Result<(), AllocError>
    ensures { OnOk result (Notes pattern_cmp (is_offered void pairs.now.pairs sends.now) set.old set.new) }
{
    for m in sends {
        offer_unpaired(pairs, void, m, place, set)?;
    }
    Ok(())
}

/// The patterns that suit some unpaired message: those that were cancelled, or the others.
pub(crate) fn patterns_offered(
    alloc: Global,
    void: bool,
    ops: &[RankOps],
    pairs: &PairTable,
) -> Result<BTreeSet<Pattern>, AllocError>
    ensures { IfOk result (IsSetOf pattern_cmp (some_offers void ops.now pairs.now.pairs)) }
{
    let mut set = BTreeSet::new(alloc);
    let mut place = 0;
    for o in ops {
        offer_all(pairs, void, o.sends(), &mut place, &mut set)?;
    }
    Ok(set)
}

/// Notes when the receive ends, where it is in no pair and was not cancelled.
fn ask_unpaired(
    pairs: &PairsByReceive,
    q: &Receive,
    place: &mut usize,
    asked: &mut Ends,
) -> Result<(), AllocError>
    ensures { OnOk result (AsksFree pairs.now (q.now ∷ []) asked.old asked.new) }
{
    if q.trust.is_void() {
        return Ok(());
    }
    if is_given(pairs, q, place) {
        return Ok(());
    }
    asked.insert(q)?;
    Ok(())
}

/// Notes the same of all these receives.
fn ask_all(
    pairs: &PairsByReceive,
    receives: &[Receive],
    place: &mut usize,
    asked: &mut Ends,
) -> Result<(), AllocError>
    ensures { OnOk result (AsksFree pairs.now receives.now asked.old asked.new) }
{
    for q in receives {
        ask_unpaired(pairs, q, place, asked)?;
    }
    Ok(())
}

/// When the unpaired receives end that were not cancelled. Fails with `AllocError` when memory is refused.
pub fn ends_asked(
    alloc: Global,
    ops: &[RankOps],
    pairs: &PairsByReceive,
) -> Result<Ends, AllocError>
    ensures { IfOk result (AreLast (free_receives ops.now pairs.now)) }
{
    let mut asked = Ends::empty(alloc);
    let mut place = 0;
    for o in ops {
        ask_all(pairs, o.receives(), &mut place, &mut asked)?;
    }
    Ok(asked)
}
