//! The objects that calls name, communicators, windows and files, and the calls that the layout doesn't know.

ghost use Rattle.std.specs.Prelude.{◌≡◌};
ghost use Rattle.trace_ops.specs.Foreign.{are_within, group_named, group_of, is_collective_within, is_foreign, is_foreign_in, is_merge, is_root_within, is_within, peer_rank};
ghost use Rattle.trace_ops.specs.Groups.{IsWorldOf, plain, plain_group};

use mpi_model::{Call, Collective, CommRef, Kind, Layout, Object, Peer};

/// The group of an object as a rank sees it: ranks of the trace, in the order of their ranks in the group (MPI 4.0,
/// 7.2.1). Of an intercommunicator it is the group in which the rank isn't (7.6).
#[derive(Clone, Copy)]
pub(crate) struct Group<'a> {
    /// The object's id in the layout.
    pub comm: u32,
    pub members: &'a [u32],
    /// Whether the object is an intercommunicator.
    pub inter: bool,
}

/// The group of the object of this sort that call `n` of the rank names; `None` if the layout has no such object.
#[inline(always)]
pub(crate) fn group_named<'a>(
    layout: &'a Layout,
    rank: u32,
    n: u64,
    object: Object,
    comm: CommRef,
) -> Option<Group<'a>>
    ensures { plain_group result ≡ group_named layout.now rank n object comm }
{
    let id = layout.named(rank, n, object, comm)?;
    let named = layout.comm(id)?;
    Some(Group {
        comm: id,
        members: named.peers(rank),
        inter: named.is_inter(),
    })
}

/// The rank in the group that a peer names.
pub(crate) fn peer_rank(peer: Peer) -> Option<u32>
    ensures { result ≡ peer_rank peer }
{
    match peer {
        Peer::Any | Peer::Null => None,
        Peer::Rank(n) => Some(n),
    }
}

/// Whether the rank, where one is named, is a rank in the group.
fn is_within(members: &[u32], other: Option<u32>) -> bool
    ensures { result ≡ is_within members.now other }
{
    match other {
        None => true,
        Some(n) => (n as usize) < members.len(),
    }
}

/// Whether the root is a rank in the group, where the kind of the call has one. On an
/// intercommunicator a call may name none in it (MPI 4.0, 6.2.3).
fn is_root_within(group: Group<'_>, c: Collective) -> bool
    ensures { result ≡ is_root_within (plain group.entry) c }
{
    is_within(group.members, c.root())
        && (c.root().is_some() || !c.kind().has_root() || group.inter)
}

/// Whether it is the kind of a MPI_Intercomm_merge.
fn is_merge(kind: Kind) -> bool
    ensures { result ≡ is_merge kind }
{
    matches!(kind, Kind::IntercommMerge)
}

/// Whether the root is within, and a call that merges names an intercommunicator (MPI 4.0, 7.6.2).
fn is_collective_within(group: Group<'_>, c: Collective) -> bool
    ensures { result ≡ is_collective_within (plain group.entry) c }
{
    is_root_within(group, c) && (group.inter || !is_merge(c.kind()))
}

/// Whether the ranks that a call names, its peers or its root, are ranks in the group.
#[inline(always)]
fn are_within(group: Group<'_>, call: &Call) -> bool
    ensures { result ≡ are_within (plain group.entry) call.now }
{
    let members = group.members;
    match call {
        Call::Send(_, e) | Call::Isend(_, e) | Call::SendInit(_, e) => {
            is_within(members, peer_rank(e.envelope().peer))
        }
        Call::Recv(e) | Call::Irecv(e) | Call::RecvInit(e) => {
            is_within(members, peer_rank(e.envelope().peer))
        }
        Call::Sendrecv(both) => {
            is_within(members, peer_rank(both.send().peer))
                && is_within(members, peer_rank(both.receive().peer))
        }
        Call::Collective(c) => is_collective_within(group, *c),
        Call::Icollective(c) => is_collective_within(group, c.call()),
        Call::Probe(e) | Call::Mprobe(e) | Call::Improbe(e) | Call::Iprobe(e) => {
            is_within(members, peer_rank(e.source()))
        }
        _ => true,
    }
}

/// The group of the world, which all calls of a rank name alike.
pub(crate) fn world_of<'a>(layout: &'a Layout, rank: u32) -> Option<Group<'a>>
    ensures { IsWorldOf layout.now rank result }
{
    group_named(layout, rank, 0, Object::Communicator, CommRef::World)
}

/// The same, when the group of the world is already known.
#[inline(always)]
fn named_given_world<'a>(
    layout: &'a Layout,
    rank: u32,
    n: u64,
    object: Object,
    comm: CommRef,
    world: Option<Group<'a>>,
) -> Option<Group<'a>>
    requires { IsWorldOf layout.now rank world }
    ensures { plain_group result ≡ group_named layout.now rank n object comm }
{
    match comm {
        CommRef::World => world,
        CommRef::Id(_) => group_named(layout, rank, n, object, comm),
    }
}

/// The group in which call `n` of the rank takes part, when the group of the world is already known. It is `None` if
/// the call names no communicator, or is foreign.
#[inline(always)]
pub(crate) fn group_given_world<'a>(
    layout: &'a Layout,
    rank: u32,
    n: u64,
    call: &Call,
    world: Option<Group<'a>>,
) -> Option<Group<'a>>
    requires { IsWorldOf layout.now rank world }
    ensures { plain_group result ≡ group_of layout.now rank n call.now }
{
    let group = named_given_world(layout, rank, n, call.object(), call.comm()?, world)?;
    if are_within(group, call) {
        Some(group)
    } else {
        None
    }
}

/// The group in which call `n` of the rank takes part; `None` if the call names no communicator, or is foreign.
fn group_of<'a>(layout: &'a Layout, rank: u32, n: u64, call: &Call) -> Option<Group<'a>>
    ensures { plain_group result ≡ group_of layout.now rank n call.now }
{
    group_given_world(layout, rank, n, call, world_of(layout, rank))
}

/// Whether the call is foreign: the layout has no object that the rank names so, or the call's peer or root is outside
/// the group. `group` is the group in which it takes part, if any.
pub(crate) fn is_foreign_in(group: Option<Group<'_>>, call: &Call) -> bool
    ensures { result ≡ is_foreign_in (plain_group group.entry) call.now }
{
    group.is_none() && call.comm().is_some()
}

/// Whether call `n` of the rank is foreign, by the group in which it takes part.
pub fn is_foreign(layout: &Layout, rank: u32, n: u64, call: &Call) -> bool
    ensures { result ≡ is_foreign layout.now rank n call.now }
{
    is_foreign_in(group_of(layout, rank, n, call), call)
}
