//! The things under one key: as many as it takes to find the first three that differ from any value.

ghost use Rattle.std.specs.Prelude.{◌≡◌, ◌<◌, IfOk, OnOk, [], false, filter, length, true};
ghost use Rattle.trace_diagnosis.specs.Fewest.{AddsThing, HasFewOfEach, IsFullFor, has_value, others};

use std::alloc::{AllocError, Global};
use std::marker::Model;

/// How many near misses of one kind are printed.
pub(crate) const MOST_NEAR: usize = 3;

/// A thing with its value: its place in a list.
#[derive(Clone, Copy)]
pub(crate) struct Placed {
    value: u32,
    place: usize,
}

/// Things in their order, at most three of each value and at most six: of six, three differ from any value. So the
/// first three that do are among them.
#[derive(Drop)]
pub(crate) struct Few {
    things: Vec<Placed>,
}

impl Model for Few {
    ghost use Rattle.std.specs.Prelude.{List};
    ghost use Rattle.trace_diagnosis.specs.Fewest.{HasFewOfEach};
    ghost use Rattle.trace_diagnosis.specs.declared.few.Placed.{Placed as Thing};

    ghost Value = { List Thing };

    ghost view = { λ s. s.things.items };

    ghost invariant = { λ s. HasFewOfEach s.things.items };
}

/// How many have this value.
fn count_of(things: &[Placed], value: u32) -> usize
    ensures { result ≡ length (filter (has_value value) things.now) }
{
    let mut count = 0;
    for thing in things {
        if thing.value == value {
            count += 1;
        }
    }
    count
}

/// Whether a thing more of this value is one of the first three for no value.
fn is_full(things: &[Placed], value: u32) -> bool
    requires { HasFewOfEach things.now }
    ensures full { result ≡ true → IsFullFor value things.now }
    ensures room { result ≡ false → length (filter (has_value value) things.now) < 3 }
{
    if count_of(things, value) >= MOST_NEAR {
        return true;
    }
    things.len() >= 2 * MOST_NEAR
}

impl Few {
    /// Nothing. It takes no memory.
    pub fn none(alloc: Global) -> Few
        ensures { result ≡ [] }
    {
        Few {
            things: Vec::new(alloc),
        }
    }

    /// Adds a thing, where it can be one of the first three.
    pub fn put(&mut self, value: u32, place: usize) -> Result<(), AllocError>
        ensures { OnOk result (AddsThing value place self.old self.new) }
    {
        if is_full(&self.things, value) {
            return Ok(());
        }
        self.things.push(Placed { value, place })?;
        Ok(())
    }

    /// The first three that have another value.
    pub fn others(&self, alloc: Global, value: u32) -> Result<Vec<usize>, AllocError>
        ensures { IfOk result (λ found. found.items ≡ others self.now value) }
    {
        let mut found = Vec::new(alloc);
        for thing in &self.things {
            if thing.value != value {
                found.push(thing.place)?;
            }
        }
        found.truncate(MOST_NEAR);
        Ok(found)
    }
}
