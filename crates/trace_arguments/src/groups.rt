//! The members of a round by value.

ghost use Rattle.std.specs.Prelude.{◌≡◌, ◌++◌, ◌∷◌, [], IfOk, OnOk, filter, map};
ghost use Rattle.std.specs.List.{find};
ghost use Rattle.std.specs.Option.{option_copied};
ghost use Rattle.trace_arguments.specs.Differing.{is_alike};
ghost use Rattle.trace_arguments.specs.Groups.{group_of, grouped, is_rank, leads, named, ranks_like};

use crate::differing::is_alike;
use crate::disagreement::ValueGroup;
use crate::values::Valued;
use call_arguments::Line;
use mpi_model::OpName;
use std::alloc::{AllocError, Global};

/// The name of a call of a rank.
pub(crate) fn named(rank: u32, call: u64) -> OpName
    ensures { result ≡ named rank call }
{
    OpName {
        rank,
        part: 0,
        call,
    }
}

/// The ranks of those that have the value of this one.
fn ranks_like(
    alloc: Global,
    line: Line,
    value: &Valued<'_>,
    values: &[Valued<'_>],
) -> Result<Vec<u32>, AllocError>
    ensures { IfOk result (λ ranks. ranks.items ≡ ranks_like line value.now values.now) }
{
    let mut ranks = Vec::new(alloc);
    for other in values {
        if is_alike(line, other, value) {
            ranks.push(other.rank)?;
        }
    }
    Ok(ranks)
}

/// The first that has the value of this one.
fn first_like<'v, 'a>(
    line: Line,
    value: &Valued<'_>,
    values: &'v [Valued<'a>],
) -> Option<&'v Valued<'a>>
    ensures { option_copied result ≡ find (λ w. is_alike line w value.now) values.now }
{
    for other in values {
        if is_alike(line, other, value) {
            return Some(other);
        }
    }
    None
}

/// Whether a member, where there is one, has this rank.
fn is_rank(rank: u32, member: Option<&Valued<'_>>) -> bool
    ensures { result ≡ is_rank rank (option_copied member.entry) }
{
    match member {
        Some(other) => rank == other.rank,
        None => false,
    }
}

/// Whether a member is the first of those with its value.
fn leads(line: Line, values: &[Valued<'_>], value: &Valued<'_>) -> bool
    ensures { result ≡ leads line values.now value.now }
{
    is_rank(value.rank, first_like(line, value, values))
}

/// A member with all that have its value.
fn group_of(
    alloc: Global,
    line: Line,
    values: &[Valued<'_>],
    value: &Valued<'_>,
) -> Result<ValueGroup, AllocError>
    ensures { IfOk result (λ group. group ≡ group_of line values.now value.now) }
{
    let ranks = ranks_like(alloc, line, value, values)?;
    let known = value.known.try_clone(alloc)?;
    Ok(ValueGroup {
        value: known,
        ranks,
        call: named(value.rank, value.call),
    })
}

/// Adds the group of a member, where it is the first.
fn push_group(
    alloc: Global,
    line: Line,
    values: &[Valued<'_>],
    value: &Valued<'_>,
    groups: &mut Vec<ValueGroup>,
) -> Result<(), AllocError>
    ensures { OnOk result (groups.new.items ≡ groups.old.items ++ map (group_of line values.now) (filter (leads line values.now) (value.now ∷ []))) }
{
    if leads(line, values, value) {
        groups.push(group_of(alloc, line, values, value)?)?;
    }
    Ok(())
}

/// The members by value, by their first ranks where the values are in the order of ranks.
pub(crate) fn grouped(
    alloc: Global,
    line: Line,
    values: &[Valued<'_>],
) -> Result<Vec<ValueGroup>, AllocError>
    ensures { IfOk result (λ groups. groups.items ≡ grouped line values.now) }
{
    let mut groups = Vec::new(alloc);
    for value in values {
        push_group(alloc, line, values, value, &mut groups)?;
    }
    Ok(groups)
}
