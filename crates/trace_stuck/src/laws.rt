//! What holds of conditions, closed sets and release orders, each as the contract of a call that
//! does nothing.

ghost use Rattle.trace_stuck.specs.Laws.{ConditionsAreMonotone, StuckRanksAreClosed, CheckedVerdictsAreRight, RisingListsAreOne};
ghost use Rattle.trace_stuck.specs.Hearts.{HeartsAreOne};

/// If more ranks can go on, a condition that held still holds. So the union of closed sets is closed.
pub fn conditions_are_monotone()
    ensures { ConditionsAreMonotone }
{}

/// The stuck ranks are a closed set, and each closed set lies within them.
pub fn stuck_ranks_are_closed()
    ensures { StuckRanksAreClosed }
{}

/// If both checks accept a verdict, and its two lists together are the waiting ranks, it lists exactly the stuck ranks.
pub fn checked_verdicts_are_right()
    ensures { CheckedVerdictsAreRight }
{}

/// There is only one list of the stuck ranks in rising order.
pub fn rising_lists_are_one()
    ensures { RisingListsAreOne }
{}

/// A node of a graph is in at most one heart, and a heart has one name: two lists of the hearts agree on each node.
pub fn hearts_are_one()
    ensures { HeartsAreOne }
{}
