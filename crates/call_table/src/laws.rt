//! What holds of all rows, as the contract of a call that does nothing, so that the check proves it.

ghost use Rattle.call_table.specs.Rows.{HaveTwoRows};

use trace_pair::pairs_are_found;
use trace_wait::operations_are_found;

/// Each pair of what the ranks did stands in two rows, one of either side, and each of them tells the other end.
pub fn pairs_have_two_rows()
    ensures { HaveTwoRows }
{
    pairs_are_found();
    operations_are_found();
}
