//! Counted lists, read from bytes.

ghost use Rattle.trace_wire.specs.Outcomes.{Reads};
ghost use Rattle.trace_wire.specs.Forms.{items_at, list};

use crate::item::FrameItem;
use crate::read::field::{FieldFault, u32_of};
use std::alloc::Global;

/// So many items. Memory grows with the items that are there, whatever the count says.
fn items_of<T: FrameItem>(
    alloc: Global,
    count: u32,
    bytes: &[u8],
) -> Result<(Vec<T>, &[u8]), FieldFault>
    ensures { Reads (λ x. (x.0.items, x.1.now)) result (items_at T.form count bytes.now) }
{
    let mut items = Vec::new(alloc);
    let mut rest = bytes;
    for _ in 0..count {
        let (item, after) = T::read(rest)?;
        items.push(item)?;
        rest = after;
    }
    Ok((items, rest))
}

/// A count and that many items.
pub(crate) fn list_of<T: FrameItem>(
    alloc: Global,
    bytes: &[u8],
) -> Result<(Vec<T>, &[u8]), FieldFault>
    ensures { Reads (λ x. (x.0.items, x.1.now)) result ((list T.form).read bytes.now) }
{
    let (count, rest) = u32_of(bytes)?;
    items_of(alloc, count, rest)
}
