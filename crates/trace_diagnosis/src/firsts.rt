//! The first three things of each pattern.

use crate::few::MOST_NEAR;
use crate::patterns::{Pattern, pattern_of, patterns_of};
use mpi_model::{Message, Receive};
use std::alloc::{AllocError, Global};
use std::collections::BTreeMap;

/// The first three things of each pattern that is asked for, by their places.
#[derive(Drop)]
pub(crate) struct Firsts {
    places: BTreeMap<Pattern, Vec<usize>>,
}

impl Firsts {
    /// A table with nothing under these patterns.
    fn of_none(alloc: Global, asked: &[Pattern]) -> Result<Firsts, AllocError> {
        let mut places = BTreeMap::new(alloc);
        for pattern in asked {
            places.insert(*pattern, Vec::new(alloc))?;
        }
        Ok(Firsts { places })
    }

    /// Puts a place under a pattern that is asked for, unless three stand there.
    fn put(&mut self, pattern: Pattern, place: usize) -> Result<(), AllocError> {
        if let Some(places) = self.places.get_mut(&pattern) {
            if places.len() < MOST_NEAR {
                places.push(place)?;
            }
        }
        Ok(())
    }

    /// The first three messages that suit each of the patterns. Fails with `AllocError` when memory is refused.
    pub fn of_messages(
        alloc: Global,
        asked: &[Pattern],
        messages: &[Message],
    ) -> Result<Firsts, AllocError> {
        let mut firsts = Firsts::of_none(alloc, asked)?;
        if asked.is_empty() {
            return Ok(firsts);
        }
        for (place, m) in messages.iter().enumerate() {
            for pattern in &patterns_of(m) {
                firsts.put(*pattern, place)?;
            }
        }
        Ok(firsts)
    }

    /// The first three receives that name each of the patterns. Fails with `AllocError` when memory is refused.
    pub fn of_receives(
        alloc: Global,
        asked: &[Pattern],
        receives: &[Receive],
    ) -> Result<Firsts, AllocError> {
        let mut firsts = Firsts::of_none(alloc, asked)?;
        for (place, q) in receives.iter().enumerate() {
            firsts.put(pattern_of(q), place)?;
        }
        Ok(firsts)
    }

    /// The things under a pattern.
    pub fn at(&self, pattern: Pattern) -> &[usize] {
        match self.places.get(&pattern) {
            Some(places) => places,
            None => &[],
        }
    }
}
