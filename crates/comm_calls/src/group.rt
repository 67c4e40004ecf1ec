//! Calls that give groups.

ghost use Rattle.std.specs.Prelude.{◌≡◌, IfOk};
ghost use Rattle.comm_calls.specs.Actions.{IsGroupCall, group_at, grouped_in};

use crate::function::Grouper;
use crate::lists::{ranges_in, ranks_in};
use crate::number::{comm_in, group_in};
use crate::parameter::text_of;
use comm_makings::{GroupCall, GroupName};
use dumpi_calls::Memory;
use dumpi_text::RawCall;
use std::alloc::Global;

/// The group that a parameter names.
fn group_at(alloc: Global, name: &str, raw: &RawCall) -> Result<GroupName, Memory>
    ensures { IfOk result (λ g. g ≡ group_at name.now raw.now) }
{
    group_in(alloc, text_of(raw, name))
}

/// What a call of MPI_Group_incl says.
fn incl_in(alloc: Global, raw: &RawCall) -> Result<GroupCall, Memory>
    ensures { IfOk result (IsGroupCall Grouper.Incl raw.now) }
{
    Ok(GroupCall::Incl {
        group: group_at(alloc, "group", raw)?,
        ranks: ranks_in(alloc, text_of(raw, "ranks"))?,
    })
}

/// What a call of MPI_Group_excl says.
fn excl_in(alloc: Global, raw: &RawCall) -> Result<GroupCall, Memory>
    ensures { IfOk result (IsGroupCall Grouper.Excl raw.now) }
{
    Ok(GroupCall::Excl {
        group: group_at(alloc, "group", raw)?,
        ranks: ranks_in(alloc, text_of(raw, "ranks"))?,
    })
}

/// What a call of MPI_Group_range_incl says.
fn range_incl_in(alloc: Global, raw: &RawCall) -> Result<GroupCall, Memory>
    ensures { IfOk result (IsGroupCall Grouper.RangeIncl raw.now) }
{
    Ok(GroupCall::RangeIncl {
        group: group_at(alloc, "group", raw)?,
        ranges: ranges_in(alloc, text_of(raw, "ranges"))?,
    })
}

/// What a call of MPI_Group_range_excl says.
fn range_excl_in(alloc: Global, raw: &RawCall) -> Result<GroupCall, Memory>
    ensures { IfOk result (IsGroupCall Grouper.RangeExcl raw.now) }
{
    Ok(GroupCall::RangeExcl {
        group: group_at(alloc, "group", raw)?,
        ranges: ranges_in(alloc, text_of(raw, "ranges"))?,
    })
}

/// What a call of MPI_Group_union says.
fn union_in(alloc: Global, raw: &RawCall) -> Result<GroupCall, Memory>
    ensures { IfOk result (IsGroupCall Grouper.Union raw.now) }
{
    Ok(GroupCall::Union {
        first: group_at(alloc, "group1", raw)?,
        second: group_at(alloc, "group2", raw)?,
    })
}

/// What a call of MPI_Group_intersection says.
fn intersection_in(alloc: Global, raw: &RawCall) -> Result<GroupCall, Memory>
    ensures { IfOk result (IsGroupCall Grouper.Intersection raw.now) }
{
    Ok(GroupCall::Intersection {
        first: group_at(alloc, "group1", raw)?,
        second: group_at(alloc, "group2", raw)?,
    })
}

/// What a call of MPI_Group_difference says.
fn difference_in(alloc: Global, raw: &RawCall) -> Result<GroupCall, Memory>
    ensures { IfOk result (IsGroupCall Grouper.Difference raw.now) }
{
    Ok(GroupCall::Difference {
        first: group_at(alloc, "group1", raw)?,
        second: group_at(alloc, "group2", raw)?,
    })
}

/// What the call says of the group that it gives.
pub(crate) fn group_call_in(
    alloc: Global,
    grouper: Grouper,
    raw: &RawCall,
) -> Result<GroupCall, Memory>
    ensures { IfOk result (IsGroupCall grouper raw.now) }
{
    match grouper {
        Grouper::OfComm => Ok(GroupCall::OfComm {
            comm: comm_in(alloc, text_of(raw, "comm"))?,
        }),
        Grouper::OfRemote => Ok(GroupCall::OfRemote {
            comm: comm_in(alloc, text_of(raw, "comm"))?,
        }),
        Grouper::Incl => incl_in(alloc, raw),
        Grouper::Excl => excl_in(alloc, raw),
        Grouper::RangeIncl => range_incl_in(alloc, raw),
        Grouper::RangeExcl => range_excl_in(alloc, raw),
        Grouper::Union => union_in(alloc, raw),
        Grouper::Intersection => intersection_in(alloc, raw),
        Grouper::Difference => difference_in(alloc, raw),
        Grouper::Unread | Grouper::UnreadNew => Ok(GroupCall::Unread),
    }
}

/// The group that is given.
pub(crate) fn grouped_in(
    alloc: Global,
    grouper: Grouper,
    raw: &RawCall,
) -> Result<GroupName, Memory>
    ensures { IfOk result (λ g. g ≡ grouped_in grouper raw.now) }
{
    match grouper {
        Grouper::OfComm | Grouper::OfRemote | Grouper::Unread => group_at(alloc, "group", raw),
        Grouper::Incl
        | Grouper::Excl
        | Grouper::RangeIncl
        | Grouper::RangeExcl
        | Grouper::Union
        | Grouper::Intersection
        | Grouper::Difference
        | Grouper::UnreadNew => group_at(alloc, "newgroup", raw),
    }
}
