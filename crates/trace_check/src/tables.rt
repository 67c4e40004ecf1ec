//! Whether two tables of pairs are the same.

ghost use Rattle.std.specs.Prelude.{◌≡◌, ◌↔◌, IsTrue};

use mpi_model::OpName;
use trace_pair::{Pair, PairTable};

/// Whether both tables have the same pairs and the same postponed messages, in one order.
#[tactic(auto, using(crate::proofs::SameTables::same_tables))]
pub(crate) fn are_same_tables(first: &PairTable, second: &PairTable) -> bool
    ensures { IsTrue result ↔ (first.now ≡ second.now) }
{
    are_same_pairs(first.pairs(), second.pairs())
        && are_same_names(first.postponed(), second.postponed())
}

/// Whether the pairs are the same: `==` of slices, as a call whose contract says what it means.
fn are_same_pairs(first: &[Pair], second: &[Pair]) -> bool
    ensures { IsTrue result ↔ (first.now ≡ second.now) }
{
    first == second
}

/// The same of names.
fn are_same_names(first: &[OpName], second: &[OpName]) -> bool
    ensures { IsTrue result ↔ (first.now ≡ second.now) }
{
    first == second
}
