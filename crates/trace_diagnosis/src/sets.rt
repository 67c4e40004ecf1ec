//! Ordered sets of keys.

ghost use Rattle.std.specs.Prelude.{◌≡◌, ◌||◌, OnOk};
ghost use Rattle.std.specs.Ordering.{is_eq};
ghost use Rattle.std.specs.BTreeSet.{contains};

use std::alloc::AllocError;
use std::collections::BTreeSet;

/// Puts the key into the set.
pub(crate) fn note<T: Ord + Drop>(set: &mut BTreeSet<T>, x: T) -> Result<(), AllocError>
    ensures { OnOk result ((d : T) → contains T.cmp set.new d ≡ (is_eq (T.cmp x d) || contains T.cmp set.old d)) }
{
    set.insert(x)?;
    Ok(())
}
