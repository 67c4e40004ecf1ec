//! Things by a key, to find the first few that differ in one value.

ghost use Rattle.std.specs.Prelude.{◌≡◌, IfOk, OnOk, None};
ghost use Rattle.std.specs.BTreeMap.{get};
ghost use Rattle.trace_wait.specs.Patterns.{Pattern, pattern_cmp};
ghost use Rattle.trace_diagnosis.specs.Shelves.{MakesKey, PutsThing, others_at};

use crate::few::{Few, MOST_NEAR};
use std::alloc::{AllocError, Global};
use std::collections::BTreeMap;

/// What two things have in common that differ in one value alone.
pub(crate) type Key = (u32, u32, Option<u32>, Option<u32>);

/// Things by keys.
#[derive(Drop)]
pub(crate) struct Shelf {
    things: BTreeMap<Key, Few>,
}

impl Shelf {
    /// A shelf without keys. It takes no memory.
    pub fn new(alloc: Global) -> Shelf
        ensures { (k : Pattern) → get pattern_cmp result.things k ≡ None }
    {
        Shelf {
            things: BTreeMap::new(alloc),
        }
    }

    /// Makes a place for a key. On `AllocError`, when memory is refused, its contents are unspecified.
    pub fn make(&mut self, alloc: Global, key: Key) -> Result<(), AllocError>
        ensures { OnOk result (MakesKey key self.old self.new) }
    {
        if self.things.contains_key(&key) {
            return Ok(());
        }
        self.things.insert(key, Few::none(alloc))?;
        Ok(())
    }

    /// Puts a thing under a key that has a place. On `AllocError`, when memory is refused, its contents are
    /// unspecified.
    pub fn put(&mut self, key: Key, value: u32, place: usize) -> Result<(), AllocError>
        ensures { OnOk result (PutsThing key value place self.old self.new) }
    {
        match self.things.get_mut(&key) {
            Some(things) => {
                things.put(value, place)?;
                Ok(())
            }
            None => Ok(()),
        }
    }

    /// The first three things under a key that have another value.
    pub fn others(&self, alloc: Global, key: Key, value: u32) -> Result<Vec<usize>, AllocError>
        ensures { IfOk result (λ found. found.items ≡ others_at self.now key value) }
    {
        match self.things.get(&key) {
            Some(things) => things.others(alloc, value),
            None => Ok(Vec::new(alloc)),
        }
    }
}

/// The first three of these places.
pub(crate) fn first_three(places: Vec<usize>) -> Result<Vec<usize>, AllocError> {
    let mut first = places;
    first.sort()?;
    first.dedup();
    first.truncate(MOST_NEAR);
    Ok(first)
}
