//! Arguments that don't agree: what is said of them, and which rounds are told together.

use crate::source::Source;
use call_arguments::{Rule, compared_of};
use call_words::Text;
use mpi_model::CollectiveFunction;
use std::alloc::{AllocError, Global};
use std::collections::BTreeMap;
use trace_arguments::{Disagreement, Known, Line, ValueGroup};

/// The most bytes of a value in JSON, and in words.
pub(crate) const LONGEST_VALUE: usize = 200;

pub(crate) const LONGEST_WORDS: usize = 40;

/// The parameter in which calls differ: the first name of a line of the table.
pub(crate) fn what_differs(function: CollectiveFunction, line: Line) -> &'static [u8] {
    if line == Line::Operation {
        return b"op";
    }
    match compared_of(function.kind()).counts {
        Rule::Nothing => b"",
        Rule::Alike(parameters) | Rule::Rooted(parameters, _) => parameters.count_name(),
        Rule::Listed(_, parameters) => parameters.count_name(),
    }
}

/// A value: the name of an operation, or counts. Of a long one the front.
pub(crate) fn value_text(
    alloc: Global,
    line: Line,
    value: &Known,
    longest: usize,
) -> Result<Vec<u8>, AllocError> {
    let mut text = Text::new(alloc);
    if line == Line::Operation {
        text.put(value.name());
    } else {
        for (i, count) in value.counts().iter().enumerate() {
            text.put(if i == 0 {
                b"".as_slice()
            } else {
                b" ".as_slice()
            });
            text.put_number(*count);
        }
    }
    let mut bytes = text.into_bytes()?;
    if bytes.len() > longest {
        bytes.truncate(longest);
        bytes.extend_from_slice(b"..")?;
    }
    Ok(bytes)
}

/// The place of the group that has more members than all others together.
pub(crate) fn most_of(groups: &[ValueGroup]) -> Option<usize> {
    let mut all: usize = 0;
    for group in groups {
        all = all.saturating_add(group.ranks().len());
    }
    for (at, group) in groups.iter().enumerate() {
        if group.ranks().len() > all / 2 {
            return Some(at);
        }
    }
    None
}

/// Rounds of one object in which the same ranks differ in the same thing.
#[derive(Clone, Copy)]
pub(crate) struct Alike {
    /// The place of the first of them.
    pub first: usize,
    /// How many more there are.
    pub more: usize,
}

/// A number in a key.
fn put_part(out: &mut Text, n: u64) {
    out.put_number(n);
    out.put(b"\0");
}

/// What rounds have in common that are told together.
fn key_of(alloc: Global, one: &Disagreement) -> Result<Vec<u8>, AllocError> {
    let mut key = Text::new(alloc);
    put_part(&mut key, one.comparison.round.object as u64);
    key.put(one.function.name());
    key.put(b"\0");
    key.put(what_differs(one.function, one.comparison.line));
    for group in one.groups.iter() {
        key.put(b"\0");
        for rank in group.ranks() {
            put_part(&mut key, *rank as u64);
        }
    }
    key.into_bytes()
}

/// The disagreements, those that are told together as one, in the order of the first of them.
pub(crate) fn alike_in(source: Source<'_>) -> Result<Vec<Alike>, AllocError> {
    let mut found: Vec<Alike> = Vec::new(source.alloc);
    let mut places: BTreeMap<Vec<u8>, usize> = BTreeMap::new(source.alloc);
    for (first, one) in source.texts.arguments.iter().enumerate() {
        let key = key_of(source.alloc, one)?;
        let known = places.get(&key).copied();
        match known {
            Some(at) => {
                if let Some(alike) = found.as_mut_slice().get_mut(at) {
                    alike.more = alike.more.saturating_add(1);
                }
            }
            None => {
                places.insert(key, found.len())?;
                found.push(Alike { first, more: 0 })?;
            }
        }
    }
    Ok(found)
}
