//! What is known of the arguments of a collective call.

ghost use Rattle.std.specs.Prelude.{◌≡◌, IfOk, true, map};
ghost use Rattle.std.specs.Option.{option_copied, option_map};
ghost use Rattle.call_arguments.specs.Known.{is_empty, same_known, same_option, same_told};
ghost use Rattle.call_arguments.specs.Told.{counted_as};

use std::alloc::{AllocError, Global};
use std::marker::Model;

/// A name and counts: counts with the name of their datatype, or the name of an operation, without counts.
#[derive(Drop)]
pub struct Known {
    name: Vec<u8>,
    counts: Vec<u64>,
}

impl Model for Known {
    ghost use Rattle.call_arguments.specs.Known.{KnownParts};

    ghost Value = { KnownParts };

    ghost view = { λ k. record { name = k.name.items; counts = k.counts.items } };
}

impl Known {
    /// Counts with the name of their datatype.
    pub fn new(name: Vec<u8>, counts: Vec<u64>) -> Known
        ensures { result ≡ counted_as name.items counts.items }
    {
        Known { name, counts }
    }

    /// The name of the operation or the datatype.
    pub fn name(&self) -> &[u8]
        ensures { result.now ≡ self.now.name }
    {
        self.name.as_slice()
    }

    /// The counts.
    pub fn counts(&self) -> &[u64]
        ensures { result.now ≡ self.now.counts }
    {
        self.counts.as_slice()
    }

    pub fn try_clone(&self, alloc: Global) -> Result<Known, AllocError>
        ensures { IfOk result (λ k. k ≡ self.now) }
    {
        let name = Vec::from_slice(alloc, self.name())?;
        let counts = Vec::from_slice(alloc, self.counts())?;
        Ok(Known { name, counts })
    }

    /// Whether both have one name and the same counts.
    fn is_same(&self, other: &Known) -> bool
        ensures { result ≡ same_known self.now other.now }
    {
        self.name() == other.name() && self.counts() == other.counts()
    }
}

/// What a call tells, as far as it is known.
#[derive(Drop)]
pub struct Told {
    operation: Option<Known>,
    counts: Option<Known>,
    at_root: Option<Known>,
}

impl Model for Told {
    ghost use Rattle.call_arguments.specs.Known.{ToldParts};

    ghost Value = { ToldParts };

    ghost view = { λ t. record { operation = t.operation; counts = t.counts; at_root = t.at_root } };
}

/// Whether both are known to be the same, or neither is known.
fn is_same_option(one: &Option<Known>, other: &Option<Known>) -> bool
    ensures { result ≡ same_option one.now other.now }
{
    match one {
        Some(one) => match other {
            Some(other) => one.is_same(other),
            None => false,
        },
        None => other.is_none(),
    }
}

impl Told {
    ghost use Rattle.call_arguments.specs.Known.{ToldParts};

    /// What is known.
    pub(crate) fn new(
        operation: Option<Known>,
        counts: Option<Known>,
        at_root: Option<Known>,
    ) -> Told
        ensures { result ≡ record { operation = operation; counts = counts; at_root = at_root } }
    {
        Told {
            operation,
            counts,
            at_root,
        }
    }

    /// The operation of a reduction.
    pub fn operation(&self) -> Option<&Known>
        ensures { option_copied result ≡ self.now.operation }
    {
        self.operation.as_ref()
    }

    /// The counts of a member.
    pub fn counts(&self) -> Option<&Known>
        ensures { option_copied result ≡ self.now.counts }
    {
        self.counts.as_ref()
    }

    /// The counts that it has if it is the root's, where the root has others than the rest.
    pub fn at_root(&self) -> Option<&Known>
        ensures { option_copied result ≡ self.now.at_root }
    {
        self.at_root.as_ref()
    }

    /// Whether nothing is known.
    pub fn is_empty(&self) -> bool
        ensures { result ≡ is_empty self.now }
    {
        self.operation.is_none() && self.counts.is_none() && self.at_root.is_none()
    }

    /// Whether both tell the same.
    pub fn is_same(&self, other: &Told) -> bool
        ensures told { result ≡ same_told self.now other.now }
        ensures one { result ≡ true → other.now ≡ self.now }
    {
        is_same_option(&self.operation, &other.operation)
            && is_same_option(&self.counts, &other.counts)
            && is_same_option(&self.at_root, &other.at_root)
    }
}
