//! The pairing of all ranks from scratch.

ghost use Rattle.std.specs.Prelude.{◌≡◌, IfOk};
ghost use Rattle.trace_ops.specs.Ops.{AreOwn};
ghost use Rattle.trace_pair.specs.Certainty.{AreCertain, AreAllSettled, AreLegalIfSettled, AreTheOnlyLegal};
ghost use Rattle.trace_pair.specs.Table.{table_of};

use crate::batch::batch_of;
use crate::reach::{Reaches, reaches_of};
use crate::rows::Rows;
use crate::table::PairTable;
use std::alloc::{AllocError, Global};
use trace_ops::RankOps;

/// The pairs and the postponed messages of all ranks (MPI 4.0, 3.2.3 and 3.5); `ops` has those of rank r at place r.
///
/// It goes once over all messages and once over all receives, with a few look-ups in sorted maps for each. It uses no
/// index, so it can be used to test one. Fails with `AllocError` when memory is refused.
pub fn pair_all(alloc: Global, ops: &[RankOps]) -> Result<PairTable, AllocError>
    requires own { AreOwn 0 ops.now }
    ensures table { IfOk result (λ table. table ≡ table_of ops.now) }
    ensures certain { IfOk result (λ table. AreCertain ops.now table.pairs) }
    ensures legal { IfOk result (λ table. AreLegalIfSettled ops.now table.pairs) }
    ensures only { IfOk result (λ table. AreAllSettled ops.now → AreTheOnlyLegal ops.now table.pairs) }
{
    let table = reaches_of(alloc, ops)?;
    let reaches = Reaches::new(ops, &table);
    let batch = batch_of(alloc, &reaches)?;
    let rows = Rows::of_batch(alloc, &batch, &reaches)?;
    let near = batch.into_places_near(alloc)?;
    Ok(PairTable::of_rows(rows, near))
}
