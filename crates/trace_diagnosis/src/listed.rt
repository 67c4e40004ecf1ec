//! Messages by what receives name of them.
//!
//! A receive can name a message in four ways. Under each of these that some receive of a list has, the messages that
//! suit it are listed.

ghost use Rattle.std.specs.Prelude.{◌≡◌, IfOk, OnOk};
ghost use Rattle.std.specs.BTreeSet.{contains};
ghost use Rattle.trace_wait.specs.Patterns.{Pattern as Named};
ghost use Rattle.trace_diagnosis.specs.Listed.{AreAsked, AreListed, PutsMessage, PutsOne, PutsUnder, listed};

use crate::patterns::{Pattern, pattern_of};
use crate::sets::note;
use mpi_model::{Message, Receive};
use std::alloc::{AllocError, Global};
use std::collections::{BTreeMap, BTreeSet};

/// Messages by what a receive names.
pub(crate) type Lists = BTreeMap<Pattern, Vec<Message>>;

/// What these receives name.
pub(crate) fn asked_of(alloc: Global, receives: &[Receive]) -> Result<BTreeSet<Pattern>, AllocError>
    ensures { IfOk result (AreAsked receives.now) }
{
    let mut asked = BTreeSet::new(alloc);
    for q in receives {
        note(&mut asked, pattern_of(q))?;
    }
    Ok(asked)
}

/// Adds a message to the list of a pattern.
fn put_one(
    alloc: Global,
    lists: &mut Lists,
    pattern: Pattern,
    m: &Message,
) -> Result<(), AllocError>
    ensures { OnOk result (PutsOne pattern m.now lists.old lists.new) }
{
    if let Some(list) = lists.get_mut(&pattern) {
        list.push(*m)?;
        return Ok(());
    }
    let mut list = Vec::new(alloc);
    list.push(*m)?;
    lists.insert(pattern, list)?;
    Ok(())
}

/// The same where the pattern is asked for.
fn put_under(
    alloc: Global,
    asked: &BTreeSet<Pattern>,
    lists: &mut Lists,
    pattern: Pattern,
    m: &Message,
) -> Result<(), AllocError>
    ensures { OnOk result (PutsUnder asked.now pattern m.now lists.old lists.new) }
{
    if !asked.contains(&pattern) {
        return Ok(());
    }
    put_one(alloc, lists, pattern, m)?;
    Ok(())
}

/// Adds a message to the lists of its patterns, where they are asked for.
fn put_message(
    alloc: Global,
    asked: &BTreeSet<Pattern>,
    lists: &mut Lists,
    m: &Message,
) -> Result<(), AllocError>
    ensures { OnOk result (PutsMessage asked.now m.now lists.old lists.new) }
{
    put_under(alloc, asked, lists, (m.comm, m.to, None, None), m)?;
    put_under(alloc, asked, lists, (m.comm, m.to, None, Some(m.tag)), m)?;
    put_under(alloc, asked, lists, (m.comm, m.to, Some(m.from), None), m)?;
    put_under(
        alloc,
        asked,
        lists,
        (m.comm, m.to, Some(m.from), Some(m.tag)),
        m,
    )?;
    Ok(())
}

/// The messages by those patterns that are asked for.
pub(crate) fn lists_of(
    alloc: Global,
    asked: &BTreeSet<Pattern>,
    messages: &[Message],
) -> Result<Lists, AllocError>
    ensures { IfOk result (AreListed asked.now messages.now) }
{
    let mut lists = Lists::new(alloc);
    for m in messages {
        put_message(alloc, asked, &mut lists, m)?;
    }
    Ok(lists)
}

/// The messages of a pattern.
pub(crate) fn listed(lists: &Lists, pattern: Pattern) -> &[Message]
    ensures { result.now ≡ listed lists.now pattern }
{
    match lists.get(&pattern) {
        Some(list) => list,
        None => &[],
    }
}
