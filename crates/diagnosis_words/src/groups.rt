//! Ranks that stand alike.

use crate::source::Source;
use crate::texts::TextFacts;
use call_words::Text;
use diagnosis_value::{Beyond, Diagnosis, Stand, Standing};
use mpi_model::Layout;
use std::alloc::{AllocError, Global};
use std::collections::BTreeMap;

/// Ranks that stand alike: in or after calls of one function on one object in one round, from one place of the program.
#[derive(Drop)]
pub(crate) struct Group {
    pub ranks: Vec<u32>,
    /// The least and the greatest number of their calls.
    pub calls: (u64, u64),
    /// The first time at which one of them stood there.
    pub wall: u64,
}

/// A number for how a rank stands.
fn stand_number(stand: Stand) -> u64 {
    match stand {
        Stand::Ended => 0,
        Stand::In => 1,
        Stand::Behind => 2,
        Stand::Nowhere => 3,
    }
}

/// A number for what ends its prefix.
fn beyond_number(beyond: Option<Beyond>) -> u64 {
    match beyond {
        None => 0,
        Some(Beyond::Gap) => 1,
        Some(Beyond::Contradiction) => 2,
        Some(Beyond::Unread) => 3,
        Some(Beyond::Cut) => 4,
    }
}

/// A part of a key, with what parts it from the next.
fn put_part(out: &mut Text, part: &[u8]) {
    out.put(part);
    out.put(b"\0");
}

/// A number in a key.
fn put_number(out: &mut Text, n: u64) {
    out.put_number(n);
    out.put(b"\0");
}

/// The last call of a rank, in a key.
fn put_last(out: &mut Text, source: Source<'_>, standing: &Standing) {
    let Some(last) = &standing.call else {
        return;
    };
    put_part(out, source.function(standing.rank, last.number, &last.call));
    if let Some(round) = last.round {
        put_number(out, round.object as u64);
        put_number(out, round.k);
    }
    if let Some(place) = source.place(standing.rank, last.number) {
        put_part(out, place.caller.unwrap_or(b""));
    }
}

/// What ranks that stand alike have in common.
pub(crate) fn key_of(source: Source<'_>, standing: &Standing) -> Result<Vec<u8>, AllocError> {
    let mut key = Text::new(source.alloc);
    put_number(&mut key, stand_number(standing.stand));
    put_number(&mut key, beyond_number(standing.beyond));
    put_number(&mut key, u64::from(source.polling(standing.rank).is_some()));
    if standing.call.is_none() {
        put_number(&mut key, u64::from(source.texts.has_text(standing.rank)));
    }
    put_last(&mut key, source, standing);
    key.into_bytes()
}

/// A group of one rank.
pub(crate) fn group_of(alloc: Global, standing: &Standing) -> Result<Group, AllocError> {
    let mut ranks = Vec::new(alloc);
    ranks.push(standing.rank)?;
    let (number, wall) = match &standing.call {
        Some(last) => (last.number, last.wall),
        None => (0, 0),
    };
    Ok(Group {
        ranks,
        calls: (number, number),
        wall,
    })
}

impl Group {
    /// The first of its ranks.
    pub fn first(&self) -> u32 {
        self.ranks.as_slice().first().copied().unwrap_or(0)
    }

    /// Adds a rank that stands as these do. On `AllocError`, when memory is refused, its contents are unspecified.
    pub fn add(&mut self, standing: &Standing) -> Result<(), AllocError> {
        self.ranks.push(standing.rank)?;
        if let Some(last) = &standing.call {
            let (first, most) = self.calls;
            self.calls = (first.min(last.number), most.max(last.number));
            self.wall = self.wall.min(last.wall);
        }
        Ok(())
    }
}

/// Ranks one by one.
pub(crate) fn singles_of(source: Source<'_>, ranks: &[u32]) -> Result<Vec<Group>, AllocError> {
    let mut groups = Vec::new(source.alloc);
    for rank in ranks {
        if let Some(standing) = source.standing(*rank) {
            groups.push(group_of(source.alloc, standing)?)?;
        }
    }
    Ok(groups)
}

/// Groups of ranks that stand alike, in the order of their first ranks.
pub(crate) fn groups_of(source: Source<'_>, ranks: &[u32]) -> Result<Vec<Group>, AllocError> {
    let mut groups: Vec<Group> = Vec::new(source.alloc);
    let mut places: BTreeMap<Vec<u8>, usize> = BTreeMap::new(source.alloc);
    for rank in ranks {
        let Some(standing) = source.standing(*rank) else {
            continue;
        };
        let key = key_of(source, standing)?;
        let known = places.get(&key).copied();
        match known {
            Some(at) => {
                if let Some(group) = groups.as_mut_slice().get_mut(at) {
                    group.add(standing)?;
                }
            }
            None => {
                places.insert(key, groups.len())?;
                groups.push(group_of(source.alloc, standing)?)?;
            }
        }
    }
    Ok(groups)
}

/// The first rank of each group of ranks that stand alike, in rising order. Fails with `AllocError` when memory is
/// refused.
pub fn first_ranks(
    alloc: Global,
    layout: &Layout,
    diagnosis: &Diagnosis,
    texts: &TextFacts,
) -> Result<Vec<u32>, AllocError> {
    let source = Source {
        alloc,
        layout,
        diagnosis,
        texts,
    };
    let mut ranks = Vec::new(alloc);
    for standing in diagnosis.waiting.standing.iter() {
        ranks.push(standing.rank)?;
    }
    let mut firsts = Vec::new(alloc);
    for group in groups_of(source, &ranks)?.iter() {
        firsts.push(group.first())?;
    }
    Ok(firsts)
}
