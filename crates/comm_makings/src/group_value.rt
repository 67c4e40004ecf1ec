//! The groups that a rank's calls give (MPI 4.0, 7.3.2).

ghost use Rattle.std.specs.Prelude.{◌≡◌, IfOk, cond};
ghost use Rattle.comm_makings.specs.declared.group_value.GroupValue.TheVariants as values;
ghost use Rattle.comm_groups.specs.Ranges.{range_excl_of, range_incl_of};
ghost use Rattle.std.specs.List.{slice_get};
ghost use Rattle.std.specs.Option.{option_and_then, option_copied};
ghost use Rattle.comm_makings.specs.Each.{list_in};
ghost use Rattle.comm_makings.specs.Groups.{IsGroupOf, IsListed, IsMadeOfTwo, IsOfOneNamed, IsOfTwoNamed, IsValueNamed, group_of_side, is_known, side_asked, last_from, last_of, made_of_one, made_of_two, range_of, ranges_of, ranks_at, ranks_of, unlisted, waits, waits_at};

use crate::calls::{GroupCall, RankRange};
use crate::handle::{GroupAt, Meant};
use crate::state::{HandleState, Made, copy_of};
use std::alloc::{AllocError, Global};

/// A group that a call gives.
#[derive(Drop)]
pub(crate) enum GroupValue {
    /// Its communicator is not derived yet.
    Waits,
    Unknown,
    /// The members of the derived communicator at this place.
    Whole(usize),
    /// These ranks of the run, in this order.
    Listed(Vec<u32>),
}

/// The ranks of a group, where they are known.
fn ranks_of<'a>(value: &'a GroupValue, comms: &'a [Made]) -> Option<&'a [u32]>
    ensures { option_copied result ≡ ranks_of comms.now value.now }
{
    match value {
        GroupValue::Waits => None,
        GroupValue::Unknown => None,
        GroupValue::Whole(place) => Some(&comms.get(*place)?.ranks),
        GroupValue::Listed(ranks) => Some(ranks),
    }
}

/// Whether the ranks of a group may become known.
fn waits(value: &GroupValue) -> bool
    ensures { result ≡ waits value.now }
{
    match value {
        GroupValue::Waits => true,
        GroupValue::Unknown | GroupValue::Whole(_) | GroupValue::Listed(_) => false,
    }
}

/// The ranks of a group that a call names, where they are known.
pub(crate) fn ranks_at<'a>(
    values: &'a [GroupValue],
    comms: &'a [Made],
    group: GroupAt,
) -> Option<&'a [u32]>
    ensures { option_copied result ≡ ranks_at comms.now values.now group }
{
    match group {
        GroupAt::Empty => Some(&[]),
        GroupAt::Unknown => None,
        GroupAt::Given(call) => ranks_of(values.get(call)?, comms),
    }
}

/// Whether the ranks of a group that a call names may become known.
pub(crate) fn waits_at(values: &[GroupValue], group: GroupAt) -> bool
    ensures { result ≡ waits_at values.now group }
{
    match group {
        GroupAt::Empty => false,
        GroupAt::Unknown => false,
        GroupAt::Given(call) => match values.get(call) {
            Some(value) => waits(value),
            None => false,
        },
    }
}

/// The ranks of one group of an intercommunicator, the second or the first.
fn group_of_side(inters: &[Made], place: usize, second: bool) -> Option<&[u32]>
    ensures { option_copied result ≡ group_of_side inters.now place second }
{
    let inter = inters.get(place)?;
    let size = inter.ranks.len().saturating_sub(inter.remote_size);
    if second {
        Some(&inter.ranks[size..])
    } else {
        Some(&inter.ranks[..size])
    }
}

/// The group of a rank in the second group or in the first, or the other one.
fn side_asked(remote: bool, second: bool) -> bool
    ensures { result ≡ side_asked remote second }
{
    if remote { !second } else { second }
}

/// A copy of the ranks, where there are some.
fn copied(alloc: Global, ranks: Option<&[u32]>) -> Result<Option<Vec<u32>>, AllocError>
    ensures { IfOk result (λ found. list_in found ≡ option_copied ranks.entry) }
{
    match ranks {
        Some(ranks) => Ok(Some(copy_of(alloc, ranks)?)),
        None => Ok(None),
    }
}

/// The group of a communicator of one group, which has no remote one.
fn whole(place: usize, remote: bool) -> GroupValue
    ensures { result ≡ cond remote values.Unknown (values.Whole place) }
{
    if remote {
        GroupValue::Unknown
    } else {
        GroupValue::Whole(place)
    }
}

/// The group of a communicator, by how its handle stands, or the remote group of an intercommunicator (MPI 4.0, 7.6).
fn group_of(
    alloc: Global,
    inters: &[Made],
    standing: Option<HandleState>,
    remote: bool,
) -> Result<GroupValue, AllocError>
    ensures { IfOk result (IsGroupOf inters.now remote standing) }
{
    match standing {
        None => Ok(GroupValue::Unknown),
        Some(HandleState::Open) => Ok(GroupValue::Waits),
        Some(HandleState::Derived(place)) => Ok(whole(place, remote)),
        Some(HandleState::Inter { place, second }) => {
            let ranks = group_of_side(inters, place, side_asked(remote, second));
            Ok(listed(copied(alloc, ranks)?))
        },
        Some(HandleState::Left(_)) => Ok(GroupValue::Unknown),
    }
}

/// How the handle stands that a call names.
fn standing_at(standings: &[HandleState], comm: Option<usize>) -> Option<HandleState>
    ensures { result ≡ option_and_then (slice_get standings.now) comm }
{
    standings.get(comm?).copied()
}

/// The group of these ranks, where there is one.
fn listed(ranks: Option<Vec<u32>>) -> GroupValue
    ensures { IsListed (list_in ranks) result }
{
    match ranks {
        Some(ranks) => GroupValue::Listed(ranks),
        None => GroupValue::Unknown,
    }
}

/// The group whose ranks are not known.
fn unlisted(waits: bool) -> GroupValue
    ensures { result ≡ unlisted waits }
{
    if waits {
        GroupValue::Waits
    } else {
        GroupValue::Unknown
    }
}

/// The last rank of a range that falls to a rank below 0, where it has none below 0.
fn last_from(first: u32, below: u32, stride: u32) -> Option<u32>
    ensures { result ≡ last_from first below stride }
{
    if stride == 0 {
        return None;
    }
    let span = u64::from(first) + u64::from(below);
    let reached = span - span % u64::from(stride);
    if reached > u64::from(first) {
        return None;
    }
    Some((u64::from(first) - reached) as u32)
}

/// The last rank of a range, where it isn't below 0.
fn last_of(first: u32, last: i32, stride: u32, falls: bool) -> Option<u32>
    ensures { result ≡ last_of first last stride falls }
{
    if last >= 0 {
        return Some(last.unsigned_abs());
    }
    if falls {
        last_from(first, last.unsigned_abs(), stride)
    } else {
        None
    }
}

/// The range as ranks of a group; `None` where it has a rank below 0.
fn range_of(range: RankRange) -> Option<comm_groups::RankRange>
    ensures { result ≡ range_of range }
{
    if range.first < 0 {
        return None;
    }
    let first = range.first.unsigned_abs();
    let stride = range.stride.unsigned_abs();
    let falls = range.stride < 0;
    let last = last_of(first, range.last, stride, falls)?;
    Some(comm_groups::RankRange {
        first,
        last,
        stride,
        falls,
    })
}

/// The ranges as ranks of a group; `None` where one has a rank below 0.
fn ranges_of(
    alloc: Global,
    ranges: &[RankRange],
) -> Result<Option<Vec<comm_groups::RankRange>>, AllocError>
    ensures { IfOk result (λ found. list_in found ≡ ranges_of ranges.now) }
{
    let mut all = Vec::new(alloc);
    for range in ranges {
        match range_of(*range) {
            Some(range) => all.push(range)?,
            None => return Ok(None),
        }
    }
    Ok(Some(all))
}

/// Only the members with the ranks of these ranges.
fn with_ranges(
    alloc: Global,
    members: &[u32],
    ranges: &[RankRange],
) -> Result<Option<Vec<u32>>, AllocError>
    ensures { IfOk result (λ found. list_in found ≡ option_and_then (range_incl_of members.now) (ranges_of ranges.now)) }
{
    match ranges_of(alloc, ranges)? {
        Some(ranges) => comm_groups::range_incl(alloc, members, &ranges),
        None => Ok(None),
    }
}

/// All members but those with the ranks of these ranges.
fn without_ranges(
    alloc: Global,
    members: &[u32],
    ranges: &[RankRange],
) -> Result<Option<Vec<u32>>, AllocError>
    ensures { IfOk result (λ found. list_in found ≡ option_and_then (range_excl_of members.now) (ranges_of ranges.now)) }
{
    match ranges_of(alloc, ranges)? {
        Some(ranges) => comm_groups::range_excl(alloc, members, &ranges),
        None => Ok(None),
    }
}

/// A group that is made of one other.
fn of_one(alloc: Global, group: &GroupCall, members: &[u32]) -> Result<Option<Vec<u32>>, AllocError>
    ensures { IfOk result (λ found. list_in found ≡ made_of_one group.now members.now) }
{
    match group {
        GroupCall::Incl { ranks, .. } => match ranks {
            Some(ranks) => comm_groups::incl(alloc, members, ranks),
            None => Ok(None),
        },
        GroupCall::Excl { ranks, .. } => match ranks {
            Some(ranks) => comm_groups::excl(alloc, members, ranks),
            None => Ok(None),
        },
        GroupCall::RangeIncl { ranges, .. } => match ranges {
            Some(ranges) => with_ranges(alloc, members, ranges),
            None => Ok(None),
        },
        GroupCall::RangeExcl { ranges, .. } => match ranges {
            Some(ranges) => without_ranges(alloc, members, ranges),
            None => Ok(None),
        },
        GroupCall::OfComm { .. }
        | GroupCall::OfRemote { .. }
        | GroupCall::Union { .. }
        | GroupCall::Intersection { .. }
        | GroupCall::Difference { .. }
        | GroupCall::Unread => Ok(None),
    }
}

/// A group that is made of two others.
fn of_two(
    alloc: Global,
    group: &GroupCall,
    first: &[u32],
    second: &[u32],
) -> Result<Option<Vec<u32>>, AllocError>
    ensures { IfOk result (λ found. list_in found ≡ made_of_two group.now first.now second.now) }
{
    match group {
        GroupCall::Union { .. } => Ok(Some(comm_groups::union(alloc, first, second)?)),
        GroupCall::Intersection { .. } => {
            Ok(Some(comm_groups::intersection(alloc, first, second)?))
        },
        GroupCall::Difference { .. } => Ok(Some(comm_groups::difference(alloc, first, second)?)),
        GroupCall::OfComm { .. }
        | GroupCall::OfRemote { .. }
        | GroupCall::Incl { .. }
        | GroupCall::Excl { .. }
        | GroupCall::RangeIncl { .. }
        | GroupCall::RangeExcl { .. }
        | GroupCall::Unread => Ok(None),
    }
}

/// Whether the ranks of a group are known, or may become so.
fn is_known(ranks: Option<&[u32]>, waits: bool) -> bool
    ensures { result ≡ is_known (option_copied ranks.entry) waits }
{
    match ranks {
        Some(_) => true,
        None => waits,
    }
}

/// A group of two others, of which this is known.
fn from_two(
    alloc: Global,
    group: &GroupCall,
    first: Option<&[u32]>,
    second: Option<&[u32]>,
    waits: bool,
) -> Result<GroupValue, AllocError>
    ensures { IfOk result (IsMadeOfTwo group.now (option_copied first.entry) (option_copied second.entry) waits) }
{
    match first {
        None => Ok(unlisted(waits)),
        Some(first) => match second {
            None => Ok(unlisted(waits)),
            Some(second) => Ok(listed(of_two(alloc, group, first, second)?)),
        },
    }
}

/// The group that a call makes of two others.
fn value_of_two(
    alloc: Global,
    group: &GroupCall,
    meant: &Meant,
    values: &[GroupValue],
    comms: &[Made],
) -> Result<GroupValue, AllocError>
    ensures { IfOk result (IsOfTwoNamed comms.now values.now group.now meant.now) }
{
    let first = ranks_at(values, comms, meant.group);
    let second = ranks_at(values, comms, meant.second);
    let waits = is_known(first, waits_at(values, meant.group))
        && is_known(second, waits_at(values, meant.second));
    from_two(alloc, group, first, second, waits)
}

/// The group that a call makes of one other.
fn value_of_one(
    alloc: Global,
    group: &GroupCall,
    meant: &Meant,
    values: &[GroupValue],
    comms: &[Made],
) -> Result<GroupValue, AllocError>
    ensures { IfOk result (IsOfOneNamed comms.now values.now group.now meant.now) }
{
    match ranks_at(values, comms, meant.group) {
        None => Ok(unlisted(waits_at(values, meant.group))),
        Some(members) => Ok(listed(of_one(alloc, group, members)?)),
    }
}

/// The group that a call gives, by what is known of the calls before it.
pub(crate) fn value_of(
    alloc: Global,
    group: &GroupCall,
    meant: &Meant,
    values: &[GroupValue],
    standings: &[HandleState],
    comms: &[Made],
    inters: &[Made],
) -> Result<GroupValue, AllocError>
    ensures { IfOk result (IsValueNamed standings.now values.now comms.now inters.now group.now meant.now) }
{
    match group {
        GroupCall::OfComm { .. } => {
            group_of(alloc, inters, standing_at(standings, meant.comm), false)
        },
        GroupCall::OfRemote { .. } => {
            group_of(alloc, inters, standing_at(standings, meant.comm), true)
        },
        GroupCall::Unread => Ok(GroupValue::Unknown),
        GroupCall::Union { .. } | GroupCall::Intersection { .. } | GroupCall::Difference { .. } => {
            value_of_two(alloc, group, meant, values, comms)
        },
        GroupCall::Incl { .. }
        | GroupCall::Excl { .. }
        | GroupCall::RangeIncl { .. }
        | GroupCall::RangeExcl { .. } => value_of_one(alloc, group, meant, values, comms),
    }
}
