//! Whether two names are one, and whether a message is its receiver's own.

ghost use Rattle.std.specs.Prelude.{◌≡◌};
ghost use Rattle.trace_pair.specs.After.{is_own};
ghost use Rattle.trace_pair.specs.Table.{same_name};

use mpi_model::{Message, OpName};

/// Whether the rank sent the message itself, by a call behind call `ended`.
pub(crate) fn is_own(m: &Message, at: u32, ended: u64) -> bool
    ensures { result ≡ is_own m.now at ended }
{
    m.from == at && ended < m.name.call
}

/// Whether two names are of one operation: the same part of the same call of a rank.
pub(crate) fn is_same_name(a: &OpName, b: &OpName) -> bool
    ensures { result ≡ same_name a.now b.now }
{
    a.rank == b.rank && (a.call == b.call && a.part == b.part)
}
