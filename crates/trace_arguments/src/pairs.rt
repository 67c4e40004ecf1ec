//! The members whose counts aren't those of the root's list, each beside the root.

ghost use Rattle.std.specs.Prelude.{◌≡◌, ◌++◌, ◌∷◌, [], IfOk, OnOk, filter, option_to_list};
ghost use Rattle.std.specs.List.{flat_map};
ghost use Rattle.std.specs.Option.{option_copied};
ghost use Rattle.trace_arguments.specs.Differing.{misfits};
ghost use Rattle.trace_arguments.specs.Groups.{pair_with, paired, paired_with, roots_value};

use crate::differing::misfits;
use crate::disagreement::ValueGroup;
use crate::groups::named;
use crate::values::Valued;
use call_arguments::Known;
use std::alloc::{AllocError, Global};

/// The count, where there is one.
fn listed(alloc: Global, count: Option<u64>) -> Result<Vec<u64>, AllocError>
    ensures { IfOk result (λ counts. counts.items ≡ option_to_list count) }
{
    let mut counts = Vec::new(alloc);
    if let Some(count) = count {
        counts.push(count)?;
    }
    Ok(counts)
}

/// The count that the root's list has for a member.
fn roots_value(alloc: Global, root: &Valued<'_>, value: &Valued<'_>) -> Result<Known, AllocError>
    ensures { IfOk result (λ known. known ≡ roots_value root.now value.now) }
{
    let name = Vec::from_slice(alloc, root.known.name())?;
    let counts = listed(alloc, root.known.counts().get(value.place).copied())?;
    Ok(Known::new(name, counts))
}

/// One rank.
fn one(alloc: Global, rank: u32) -> Result<Vec<u32>, AllocError>
    ensures { IfOk result (λ ranks. ranks.items ≡ rank ∷ []) }
{
    let mut ranks = Vec::new(alloc);
    ranks.push(rank)?;
    Ok(ranks)
}

/// A member's own value and the root's for it, both with its rank.
fn push_pair(
    alloc: Global,
    root: &Valued<'_>,
    value: &Valued<'_>,
    groups: &mut Vec<ValueGroup>,
) -> Result<(), AllocError>
    ensures { OnOk result (groups.new.items ≡ groups.old.items ++ pair_with root.now value.now) }
{
    groups.push(ValueGroup {
        value: value.known.try_clone(alloc)?,
        ranks: one(alloc, value.rank)?,
        call: named(value.rank, value.call),
    })?;
    groups.push(ValueGroup {
        value: roots_value(alloc, root, value)?,
        ranks: one(alloc, value.rank)?,
        call: named(root.rank, root.call),
    })?;
    Ok(())
}

/// Adds those of a member, where its count isn't that of the list.
fn push_misfit(
    alloc: Global,
    root: &Valued<'_>,
    value: &Valued<'_>,
    groups: &mut Vec<ValueGroup>,
) -> Result<(), AllocError>
    ensures { OnOk result (groups.new.items ≡ groups.old.items ++ flat_map (pair_with root.now) (filter (misfits root.now) (value.now ∷ []))) }
{
    if misfits(root, value) {
        push_pair(alloc, root, value, groups)?;
    }
    Ok(())
}

/// Those of each member whose count isn't that of the list.
fn paired(
    alloc: Global,
    root: &Valued<'_>,
    values: &[Valued<'_>],
) -> Result<Vec<ValueGroup>, AllocError>
    ensures { IfOk result (λ groups. groups.items ≡ paired root.now values.now) }
{
    let mut groups = Vec::new(alloc);
    for value in values {
        push_misfit(alloc, root, value, &mut groups)?;
    }
    Ok(groups)
}

/// The same, where the root's list is known.
pub(crate) fn paired_with(
    alloc: Global,
    root: Option<&Valued<'_>>,
    values: &[Valued<'_>],
) -> Result<Vec<ValueGroup>, AllocError>
    ensures { IfOk result (λ groups. groups.items ≡ paired_with (option_copied root.entry) values.now) }
{
    match root {
        Some(root) => paired(alloc, root, values),
        None => Ok(Vec::new(alloc)),
    }
}
