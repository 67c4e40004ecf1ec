//! What may make a diagnosis wrong, as far as the ranks' calls tell it.

use crate::calls::{called_at, count_of};
use diagnosis_value::{Beyond, Doubts, Foreign, Standing};
use mpi_model::{Call, CommRef, Layout, Object};
use std::alloc::{AllocError, Global};
use std::collections::BTreeMap;
use trace_know::{Knowledge, Readable};
use trace_node::Answer;
use trace_ops::is_foreign;

/// An object as calls name it: its sort, and the number of the text.
#[derive(Clone, Copy)]
struct Named {
    object: Object,
    number: u32,
}

/// For each sort and number the object, and how many calls name it.
type Counts = BTreeMap<(u8, u32), (Named, u64)>;

/// A call more of the object.
fn add(counts: &mut Counts, named: Named) -> Result<(), AllocError> {
    let key = (named.object.number(), named.number);
    let count = match counts.get(&key) {
        Some(found) => found.1,
        None => 0,
    };
    counts.insert(key, (named, count.saturating_add(1)))?;
    Ok(())
}

/// The object of a call, by the number of the text; of the world by its id.
fn named_by(layout: &Layout, call: &Call) -> Option<Named> {
    let number = match call.comm()? {
        CommRef::World => layout.world(),
        CommRef::Id(number) => number,
    };
    Some(Named {
        object: call.object(),
        number,
    })
}

/// The object of a foreign call.
fn foreign_at(layout: &Layout, events: &Readable<'_>, rank: u32, number: u64) -> Option<Named> {
    let called = called_at(events, number)?;
    if is_foreign(layout, rank, number, called.call) {
        named_by(layout, called.call)
    } else {
        None
    }
}

/// With the foreign calls of a rank.
fn add_calls(
    layout: &Layout,
    events: &Readable<'_>,
    rank: u32,
    counts: &mut Counts,
) -> Result<(), AllocError> {
    for number in 0..count_of(events) {
        if let Some(object) = foreign_at(layout, events, rank, number) {
            add(counts, object)?;
        }
    }
    Ok(())
}

/// The objects of foreign calls, where there are such.
fn foreign_of(
    alloc: Global,
    layout: &Layout,
    answer: &Answer,
    know: &Knowledge,
) -> Result<Vec<Foreign>, AllocError> {
    let mut counts = Counts::new(alloc);
    if answer.foreign() > 0 {
        for rank in 0..answer.ranks() {
            add_calls(layout, &know.readable(rank), rank, &mut counts)?;
        }
    }
    let mut found = Vec::new(alloc);
    for (_, of_one) in &counts {
        found.push(Foreign {
            object: of_one.0.object,
            number: of_one.0.number,
            calls: of_one.1,
        })?;
    }
    Ok(found)
}

/// The ranks whose prefix ends so.
fn ranks_ending(
    alloc: Global,
    standing: &[Standing],
    beyond: Beyond,
) -> Result<Vec<u32>, AllocError> {
    let mut ranks = Vec::new(alloc);
    for one in standing {
        if one.beyond == Some(beyond) {
            ranks.push(one.rank)?;
        }
    }
    Ok(ranks)
}

/// The ranks with contradictions, wherever they are.
fn conflicting(alloc: Global, conflicts: &[(u32, u64)]) -> Result<Vec<u32>, AllocError> {
    let mut ranks = Vec::new(alloc);
    for conflict in conflicts {
        ranks.push(conflict.0)?;
    }
    ranks.dedup();
    Ok(ranks)
}

/// The ranks of which nothing is known.
fn without_calls(alloc: Global, know: &Knowledge, ranks: u32) -> Result<Vec<u32>, AllocError> {
    let mut found = Vec::new(alloc);
    for rank in 0..ranks {
        if know.prefix(rank) == 0 && !know.beyond(rank) {
            found.push(rank)?;
        }
    }
    Ok(found)
}

/// What may make a diagnosis wrong.
pub(crate) fn doubts_of(
    alloc: Global,
    layout: &Layout,
    answer: &Answer,
    know: &Knowledge,
    standing: &[Standing],
) -> Result<Doubts, AllocError> {
    let foreign = foreign_of(alloc, layout, answer, know)?;
    let unread = ranks_ending(alloc, standing, Beyond::Unread)?;
    let gaps = ranks_ending(alloc, standing, Beyond::Gap)?;
    let conflicts = conflicting(alloc, answer.conflicts())?;
    let no_calls = without_calls(alloc, know, answer.ranks())?;
    Ok(Doubts {
        foreign,
        unread,
        gaps,
        conflicts,
        no_calls,
    })
}
