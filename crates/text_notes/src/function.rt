//! Functions whose calls are not read.

ghost use Rattle.std.specs.Prelude.{◌≡◌, IfOk};
ghost use Rattle.text_notes.specs.Noted.{with_count};
ghost use Rattle.text_notes.specs.Places.{is_named, place_of};

use std::alloc::{AllocError, Global};
use std::marker::Model;

/// A function of which a text has calls that are not read.
#[derive(Drop)]
pub struct UnreadFunction {
    name: Vec<u8>,
    first: u64,
    count: u64,
}

impl Model for UnreadFunction {
    ghost use Rattle.text_notes.specs.Noted.{UnreadParts};

    ghost Value = { UnreadParts };

    ghost view = { λ f. record { name = f.name.items; first = f.first; count = f.count } };
}

impl UnreadFunction {
    /// A function of this name, which is copied, with the number of its first call and how many calls of it there are.
    /// Fails with `AllocError` when memory is refused.
    pub(crate) fn new(
        alloc: Global,
        name: &[u8],
        first: u64,
        count: u64,
    ) -> Result<UnreadFunction, AllocError>
        ensures { IfOk result (λ f. f ≡ record { name = name.now; first = first; count = count }) }
    {
        let name = Vec::from_slice(alloc, name)?;
        Ok(UnreadFunction { name, first, count })
    }

    /// Its name, as the text has it.
    pub fn name(&self) -> &[u8]
        ensures { result.now ≡ self.now.name }
    {
        self.name.as_slice()
    }

    /// The number of the first of its calls among all calls of the text, from 0.
    pub fn first(&self) -> u64
        ensures { result ≡ self.now.first }
    {
        self.first
    }

    /// How many calls of it there are. The count saturates at the greatest value of its type.
    pub fn count(&self) -> u64
        ensures { result ≡ self.now.count }
    {
        self.count
    }

    /// The same in memory of its own. Fails with `AllocError` when memory is refused.
    pub(crate) fn try_clone(&self, alloc: Global) -> Result<UnreadFunction, AllocError>
        ensures { IfOk result (λ f. f ≡ self.now) }
    {
        UnreadFunction::new(alloc, self.name(), self.first, self.count)
    }

    /// Counts so many calls more. The count saturates at the greatest value of its type.
    pub(crate) fn add(&mut self, count: u64)
        ensures { self.new ≡ with_count count self.old }
    {
        self.count = self.count.saturating_add(count);
    }

    /// Whether it is the function of this name.
    fn is_named(&self, name: &[u8]) -> bool
        ensures { result ≡ is_named name.now self.now }
    {
        self.name.as_slice() == name
    }
}

/// The place of the function of this name in a list; `None` if it isn't there.
pub(crate) fn place_of(functions: &[UnreadFunction], name: &[u8]) -> Option<usize>
    ensures { result ≡ place_of name.now functions.now }
{
    for (at, function) in functions.iter().enumerate() {
        if function.is_named(name) {
            return Some(at);
        }
    }
    None
}
