//! What holds of the ops of a rank. Each law is the contract of a call that does nothing, so that
//! the check proves it.

ghost use Rattle.std.specs.Prelude.{ℕ, Bool, List};
ghost use Rattle.mpi_model.specs.declared.event.Event.{Event};
ghost use Rattle.mpi_model.specs.Layouts.{Parts};
ghost use Rattle.trace_know.specs.View.{View};
ghost use Rattle.trace_ops.specs.Laws.{JoinGrowsOrCuts, OpsGrow};
ghost use Rattle.trace_ops.specs.Ops.{AreOwn, IsOwn};
ghost use Rattle.trace_ops.specs.RankOps.{all_ops, ops_by};

use trace_know::{growth_laws, join_laws};

/// The ops of a rank are its own and stand in order of their calls, also in the list of all ranks. When its readable
/// events get longer, the ops grow: the old messages and receives are the first of the new ones; only sources that were
/// not told may now be told, and a Cancel, or its outcome, may be added. Read backwards, it says what happens when the
/// readable events get shorter.
pub fn ops_laws()
    ensures own { (layout : Parts) (rank : ℕ) (beyond : Bool) (events : List Event)
        → IsOwn rank (ops_by layout rank beyond events) }
    ensures all { (layout : Parts) (view : View) → AreOwn 0 (all_ops layout view) }
    ensures grow { OpsGrow }
{}

/// When more is known, by one join, the ops of a rank grow or are cut.
pub fn join_law()
    ensures { JoinGrowsOrCuts }
{
    ops_laws();
    join_laws();
    growth_laws();
}
