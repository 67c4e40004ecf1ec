//! Ranges of ranks (MPI 4.0, 7.3.2).

ghost use Rattle.std.specs.Prelude.{◌≡◌, ◌++◌, ◌*◌, ◌<◌, ◌≤◌, IfOk, MatchOption, IfSome, OnOk, false, length, option_map, true};
ghost use Rattle.std.specs.List.{flat_map};
ghost use Rattle.comm_groups.specs.Ranges.{are_ranges, are_within, count_of, is_range, range_excl_of, range_incl_of, rank_of, ranks_of, span_of};

use crate::group::{excl, incl};
use std::alloc::{AllocError, Global};

/// A range of ranks: `first`, and on in strides as far as `last` and not beyond it, downward where it falls.
#[derive(Clone, Copy)]
pub struct RankRange {
    pub first: u32,
    pub last: u32,
    pub stride: u32,
    pub falls: bool,
}

/// Whether the range has a stride, and its last rank is not behind its first.
fn is_range(range: RankRange) -> bool
    ensures { result ≡ is_range range }
{
    if range.stride == 0 {
        return false;
    }
    if range.falls {
        range.last <= range.first
    } else {
        range.first <= range.last
    }
}

/// How far the range goes.
fn span_of(range: RankRange) -> u32
    ensures { result ≡ span_of range }
{
    if range.falls {
        range.first.saturating_sub(range.last)
    } else {
        range.last.saturating_sub(range.first)
    }
}

/// How many ranks it has.
fn count_of(range: RankRange) -> u64
    requires { 0 < range.stride }
    ensures { result ≡ count_of range }
{
    u64::from(span_of(range) / range.stride) + 1
}

/// The rank after so many strides.
fn rank_at(range: RankRange, k: u64) -> u32
    requires { k * range.stride ≤ span_of range }
    ensures { result ≡ rank_of range k }
{
    let distance = k * u64::from(range.stride);
    if range.falls {
        (u64::from(range.first) - distance) as u32
    } else {
        (u64::from(range.first) + distance) as u32
    }
}

/// Adds the ranks of a range, in its order.
fn push_ranks(ranks: &mut Vec<u32>, range: RankRange) -> Result<(), AllocError>
    requires { 0 < range.stride }
    ensures { OnOk result (ranks.new.items ≡ ranks.old.items ++ ranks_of range) }
{
    let count = count_of(range);
    for k in 0..count {
        ranks.push(rank_at(range, k))?;
    }
    Ok(())
}

/// The ranks of the ranges, one range after the other; `None` where one is no range, or the ranks are more than the
/// group has. It makes no list that is longer than the group.
fn all_ranks(
    alloc: Global,
    size: usize,
    ranges: &[RankRange],
) -> Result<Option<Vec<u32>>, AllocError>
    ensures none { IfOk result (λ o. MatchOption o (are_within size ranges.now ≡ false) (λ _. are_ranges ranges.now ≡ true)) }
    ensures ranks { IfOk result (λ found. IfSome found (λ v. v.items ≡ flat_map ranks_of ranges.now)) }
{
    let mut ranks = Vec::new(alloc);
    for range in ranges {
        if !is_range(*range) {
            return Ok(None);
        }
        if count_of(*range) > (size - ranks.len()) as u64 {
            return Ok(None);
        }
        push_ranks(&mut ranks, *range)?;
    }
    Ok(Some(ranks))
}

/// Only the members with the ranks of the ranges, one range after the other (MPI 4.0, 7.3.2); `None` where a range has
/// no stride or goes away from its last rank, or a rank is outside the group or named twice. Fails with `AllocError`
/// when memory is refused.
pub fn range_incl(
    alloc: Global,
    group: &[u32],
    ranges: &[RankRange],
) -> Result<Option<Vec<u32>>, AllocError>
    ensures { IfOk result (λ found. option_map (λ v. v.items) found ≡ range_incl_of group.now ranges.now) }
{
    match all_ranks(alloc, group.len(), ranges)? {
        Some(ranks) => incl(alloc, group, &ranks),
        None => Ok(None),
    }
}

/// All members but those with the ranks of the ranges, in the group's order (MPI 4.0, 7.3.2); `None` as for
/// [`range_incl`]. Fails with `AllocError` when memory is refused.
pub fn range_excl(
    alloc: Global,
    group: &[u32],
    ranges: &[RankRange],
) -> Result<Option<Vec<u32>>, AllocError>
    ensures { IfOk result (λ found. option_map (λ v. v.items) found ≡ range_excl_of group.now ranges.now) }
{
    match all_ranks(alloc, group.len(), ranges)? {
        Some(ranks) => excl(alloc, group, &ranks),
        None => Ok(None),
    }
}
