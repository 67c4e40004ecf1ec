//! The members of each communicator, in one list that all conditions share.

ghost use Rattle.std.specs.Prelude.{◌≡◌, IfOk, IfSome};
ghost use Rattle.trace_wait.specs.Groups.{AreGroups};
ghost use Rattle.trace_wait.specs.Rounds.{group};

use crate::tally::members_of;
use mpi_model::Layout;
use std::alloc::{AllocError, Global};
use std::sync::Arc;

/// The number of a communicator, and its members in a list with many owners.
pub(crate) type Group = (u32, Arc<Vec<u32>>);

/// A list of ranks that parts may share.
pub(crate) fn shared(alloc: Global, ranks: &[u32]) -> Result<Arc<Vec<u32>>, AllocError>
    ensures { IfOk result (λ list. list.value.items ≡ ranks.now) }
{
    let mut list = Vec::new(alloc);
    list.extend_from_slice(ranks)?;
    Ok(Arc::new(alloc, list)?)
}

/// The members of all communicators, in rising order of their numbers.
pub(crate) fn groups_of(alloc: Global, layout: &Layout) -> Result<Vec<Group>, AllocError>
    ensures { IfOk result (λ groups. AreGroups layout.now.comms groups.items) }
{
    layout.known();
    let mut groups = Vec::new(alloc);
    let mut i = 0usize;
    while let Some(comm) = layout.comm_at(i) {
        groups.push((comm, shared(alloc, members_of(layout, comm))?))?;
        i += 1;
    }
    Ok(groups)
}

/// The list of the communicator's members, found by binary search.
fn list_of<'a>(layout: &Layout, groups: &'a [Group], comm: u32) -> Option<&'a Arc<Vec<u32>>>
    requires { AreGroups layout.now.comms groups.now }
    ensures { IfSome result (λ list. list.now.value.items ≡ group layout.now.comms comm) }
{
    let _layout = layout;
    let at = groups.binary_search_by_key(&comm, |g| g.0).ok()?;
    let found = groups.get(at)?;
    if found.0 == comm {
        Some(&found.1)
    } else {
        None
    }
}

/// The members of a communicator, in the list that all share.
pub(crate) fn shared_members(
    alloc: Global,
    layout: &Layout,
    groups: &[Group],
    comm: u32,
) -> Result<Arc<Vec<u32>>, AllocError>
    requires { AreGroups layout.now.comms groups.now }
    ensures { IfOk result (λ list. list.value.items ≡ group layout.now.comms comm) }
{
    match list_of(layout, groups, comm) {
        Some(list) => Arc::try_clone(list),
        None => shared(alloc, members_of(layout, comm)),
    }
}
