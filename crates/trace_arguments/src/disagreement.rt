//! What is told of a round in which arguments don't agree.

ghost use Rattle.std.specs.Prelude.{◌≡◌};

use call_arguments::{Known, Line};
use mpi_model::{CollectiveFunction, OpName};
use std::marker::Model;
use trace_stuck::RoundName;

/// A line of the table of arguments, asked of a round.
#[derive(Clone, Copy)]
pub struct Comparison {
    pub round: RoundName,
    /// The root's rank in the group, where the kind has a root.
    pub root: Option<u32>,
    pub line: Line,
}

/// A round of calls that match, and in which two members have different arguments.
#[derive(Drop)]
pub struct Disagreement {
    pub comparison: Comparison,
    pub function: CollectiveFunction,
    /// By their first ranks. Where the root has a list, two for each member whose count isn't that of the list: its own, and
    /// the root's for it.
    pub groups: Vec<ValueGroup>,
}

/// The members with one value.
#[derive(Drop)]
pub struct ValueGroup {
    pub(crate) value: Known,
    pub(crate) ranks: Vec<u32>,
    pub(crate) call: OpName,
}

impl Model for ValueGroup {
    ghost use Rattle.trace_arguments.specs.Groups.{GroupParts};

    ghost Value = { GroupParts };

    ghost view = { λ g. record { value = g.value; ranks = g.ranks.items; call = g.call } };
}

impl ValueGroup {
    /// What these ranks have.
    pub fn value(&self) -> &Known
        ensures { result.now ≡ self.now.value }
    {
        &self.value
    }

    /// The ranks, in rising order.
    pub fn ranks(&self) -> &[u32]
        ensures { result.now ≡ self.now.ranks }
    {
        self.ranks.as_slice()
    }

    /// The call of the first of them.
    pub fn call(&self) -> OpName
        ensures { result ≡ self.now.call }
    {
        self.call
    }
}
