//! Groups made of others (MPI 4.0, 7.3.2).

ghost use Rattle.std.specs.Prelude.{◌≡◌, ◌&&◌, IfOk, ℕ, filter, length, nat_lt, not, option_map};
ghost use Rattle.std.specs.List.{list_all};
ghost use Rattle.std.specs.Ordering.{nat_cmp};
ghost use Rattle.std.specs.BTreeSet.{contains};
ghost use Rattle.comm_groups.specs.Groups.{are_ranks, difference_of, excl_of, has, has_double, incl_of, intersection_of, members_at, ranks_without, union_of};

use std::alloc::{AllocError, Global};
use std::collections::BTreeSet;

/// The set of these ranks.
pub(crate) fn set_of(alloc: Global, ranks: &[u32]) -> Result<BTreeSet<u64>, AllocError>
    ensures { IfOk result (λ set. (q : ℕ) → contains nat_cmp set q ≡ has ranks.now q) }
{
    let mut set = BTreeSet::new(alloc);
    for rank in ranks {
        set.insert(u64::from(*rank))?;
    }
    Ok(set)
}

/// Whether some rank is in the list twice.
pub(crate) fn has_double(alloc: Global, ranks: &[u32]) -> Result<bool, AllocError>
    ensures { IfOk result (λ double. double ≡ has_double ranks.now) }
{
    let mut set = BTreeSet::new(alloc);
    for rank in ranks {
        let is_new = set.insert(u64::from(*rank))?;
        if !is_new {
            return Ok(true);
        }
    }
    Ok(false)
}

/// Whether all ranks are in a group of this size.
fn are_within(size: usize, ranks: &[u32]) -> bool
    ensures { result ≡ list_all (λ r. nat_lt r size) ranks.now }
{
    ranks.iter().all(|rank| (*rank as usize) < size)
}

/// Whether these are ranks in a group of this size, each once.
pub(crate) fn are_ranks(alloc: Global, size: usize, ranks: &[u32]) -> Result<bool, AllocError>
    ensures { IfOk result (λ yes. yes ≡ are_ranks size ranks.now) }
{
    if !are_within(size, ranks) {
        return Ok(false);
    }
    let double = has_double(alloc, ranks)?;
    Ok(!double)
}

/// The members of the first group that the second has, in the first's order (MPI 4.0, 7.3.2). Fails with `AllocError`
/// when memory is refused.
pub fn intersection(alloc: Global, first: &[u32], second: &[u32]) -> Result<Vec<u32>, AllocError>
    ensures { IfOk result (λ v. v.items ≡ intersection_of first.now second.now) }
{
    let set = set_of(alloc, second)?;
    let mut members = Vec::new(alloc);
    for rank in first {
        if set.contains(&u64::from(*rank)) {
            members.push(*rank)?;
        }
    }
    Ok(members)
}

/// The members of the first group that the second lacks, in the first's order (MPI 4.0, 7.3.2). Fails with `AllocError`
/// when memory is refused.
pub fn difference(alloc: Global, first: &[u32], second: &[u32]) -> Result<Vec<u32>, AllocError>
    ensures { IfOk result (λ v. v.items ≡ difference_of first.now second.now) }
{
    let set = set_of(alloc, second)?;
    let mut members = Vec::new(alloc);
    for rank in first {
        if !set.contains(&u64::from(*rank)) {
            members.push(*rank)?;
        }
    }
    Ok(members)
}

/// The first group, and then the members of the second that the first lacks (MPI 4.0, 7.3.2). Fails with `AllocError`
/// when memory is refused.
pub fn union(alloc: Global, first: &[u32], second: &[u32]) -> Result<Vec<u32>, AllocError>
    ensures { IfOk result (λ v. v.items ≡ union_of first.now second.now) }
{
    let added = difference(alloc, second, first)?;
    let mut members = Vec::new(alloc);
    members.extend_from_slice(first)?;
    members.extend_from_slice(&added)?;
    Ok(members)
}

/// The members with these ranks in the group.
pub(crate) fn members_at(
    alloc: Global,
    group: &[u32],
    ranks: &[u32],
) -> Result<Vec<u32>, AllocError>
    ensures { IfOk result (λ v. v.items ≡ members_at group.now ranks.now) }
{
    let mut members = Vec::new(alloc);
    for rank in ranks {
        if let Some(member) = group.get(*rank as usize) {
            members.push(*member)?;
        }
    }
    Ok(members)
}

/// Only the members with these ranks, in the order of the ranks (MPI 4.0, 7.3.2); `None` where a rank is outside the
/// group or named twice. Fails with `AllocError` when memory is refused.
pub fn incl(alloc: Global, group: &[u32], ranks: &[u32]) -> Result<Option<Vec<u32>>, AllocError>
    ensures { IfOk result (λ found. option_map (λ v. v.items) found ≡ incl_of group.now ranks.now) }
{
    if !are_ranks(alloc, group.len(), ranks)? {
        return Ok(None);
    }
    Ok(Some(members_at(alloc, group, ranks)?))
}

/// The members but those with these ranks.
fn members_without(alloc: Global, group: &[u32], ranks: &[u32]) -> Result<Vec<u32>, AllocError>
    ensures { IfOk result (λ v. v.items ≡ members_at group.now (ranks_without (length group.now) ranks.now)) }
{
    let set = set_of(alloc, ranks)?;
    let mut members = Vec::new(alloc);
    for (i, member) in group.iter().enumerate() {
        if !set.contains(&(i as u64)) {
            members.push(*member)?;
        }
    }
    Ok(members)
}

/// All members but those with these ranks, in the group's order (MPI 4.0, 7.3.2); `None` where a rank is outside the
/// group or named twice. Fails with `AllocError` when memory is refused.
pub fn excl(alloc: Global, group: &[u32], ranks: &[u32]) -> Result<Option<Vec<u32>>, AllocError>
    ensures { IfOk result (λ found. option_map (λ v. v.items) found ≡ excl_of group.now ranks.now) }
{
    if !are_ranks(alloc, group.len(), ranks)? {
        return Ok(None);
    }
    Ok(Some(members_without(alloc, group, ranks)?))
}
