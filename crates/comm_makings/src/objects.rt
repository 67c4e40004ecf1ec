//! The windows and files that the members of communicators make (MPI 4.0, 12.2 and 14.2.1).

ghost use Rattle.std.specs.Prelude.{◌≡◌, ◌≤◌, ◌↔◌, All, IfOk, IsTrue, map};
ghost use Rattle.comm_makings.specs.ObjectMakings.{AreObjects, AreObjectsOf, AreObjectsOfAll, HasMaker, IsFirstHere, IsMadeOf, IsMaking, IsMost, IsObject, IsOneMakingOf, count_in, given_at, kth_making, made_member, maker_of, makings_count, member_of, object_here, returned_here, smaller_here, view_by};

use crate::calls::{Action, ObjectMaker, RankCalls};
use crate::here::call_at;
use crate::object_view::ObjectView;
use crate::state::{Made, Member, Order, copy_of};
use crate::view::RankView;
use mpi_model::Object;
use std::alloc::{AllocError, Global};

/// The call by which a member makes an object.
#[derive(Clone, Copy)]
struct ObjectHere {
    rank: u32,
    /// Its place among all calls of the rank.
    call: u64,
    returned: bool,
    maker: ObjectMaker,
    /// The handle that it gives.
    handle: Option<usize>,
}

/// What a rank called on windows, or on files.
pub(crate) fn view_by(view: &RankView, object: Object) -> &ObjectView
    ensures { result.now ≡ view_by view.now object }
{
    match object {
        Object::File => &view.files,
        Object::Communicator | Object::Window => &view.windows,
    }
}

/// The place of the k-th call of a member that makes an object of the communicator.
fn kth_making(views: &[RankView], object: Object, member: Member, k: usize) -> Option<usize>
    ensures { result ≡ kth_making views.now object k member }
{
    let view = view_by(views.get(member.rank as usize)?, object);
    view.makings.get(member.handle?)?.get(k).copied()
}

/// What an action makes an object by.
fn maker_of(action: &Action) -> Option<ObjectMaker>
    ensures { result ≡ maker_of action.now }
{
    match action {
        Action::MakeObject { maker, .. } => Some(*maker),
        Action::Make { .. }
        | Action::CommRank { .. }
        | Action::Free { .. }
        | Action::Group { .. }
        | Action::Join { .. }
        | Action::Merge { .. }
        | Action::GivesComm { .. }
        | Action::EndObject { .. } => None,
    }
}

/// The handle that a call of a rank gives.
fn given_at(views: &[RankView], object: Object, rank: u32, at: usize) -> Option<usize>
    ensures { result ≡ given_at views.now object rank at }
{
    *view_by(views.get(rank as usize)?, object).given.get(at)?
}

/// The k-th call of a member that makes an object of the communicator.
fn object_here(
    ranks: &[RankCalls],
    views: &[RankView],
    object: Object,
    member: Member,
    k: usize,
) -> Option<ObjectHere>
    ensures { result ≡ object_here ranks.now views.now object k member }
{
    let at = kth_making(views, object, member, k)?;
    let call = call_at(ranks, member.rank as usize, at)?;
    Some(ObjectHere {
        rank: member.rank,
        call: call.call,
        returned: call.returned,
        maker: maker_of(&call.action)?,
        handle: given_at(views, object, member.rank, at),
    })
}

/// The k-th call of each member.
fn all_here(
    alloc: Global,
    ranks: &[RankCalls],
    views: &[RankView],
    object: Object,
    members: &[Member],
    k: usize,
) -> Result<Vec<Option<ObjectHere>>, AllocError>
    ensures { IfOk result (λ v. v.items ≡ map (object_here ranks.now views.now object k) members.now) }
{
    let mut all = Vec::new(alloc);
    for member in members {
        all.push(object_here(ranks, views, object, *member, k))?;
    }
    Ok(all)
}

/// Of two calls the one of the smaller rank, where both are there.
fn smaller(first: Option<ObjectHere>, here: Option<ObjectHere>) -> Option<ObjectHere>
    ensures { result ≡ smaller_here first here }
{
    match first {
        None => here,
        Some(one) => match here {
            None => first,
            Some(other) => { if other.rank < one.rank { here } else { first } },
        },
    }
}

/// The call, where it returned.
fn returned_here(here: Option<ObjectHere>) -> Option<ObjectHere>
    ensures { result ≡ returned_here here }
{
    let here = here?;
    if here.returned { Some(here) } else { None }
}

/// The call of the smallest member whose text has it, returned.
#[tactic(auto, using(crate::proofs::ObjectFirsts::no_here))]
fn first_here(all: &[Option<ObjectHere>]) -> Option<ObjectHere>
    ensures { IsFirstHere all.now result }
{
    let mut first: Option<ObjectHere> = None;
    for here in all {
        first = smaller(first, returned_here(*here));
    }
    first
}

/// Whether the function of a call is this one, where there is a call.
fn has_maker(maker: ObjectMaker, here: Option<ObjectHere>) -> bool
    ensures { IsTrue result ↔ HasMaker maker here }
{
    match here {
        None => true,
        Some(here) => here.maker == maker,
    }
}

/// Whether all members that have the call call this function.
fn are_alike(all: &[Option<ObjectHere>], maker: ObjectMaker) -> bool
    ensures { IsTrue result ↔ All (HasMaker maker) all.now }
{
    all.iter().all(|here| has_maker(maker, *here))
}

/// A member, by what its call gives.
fn member_of(member: Member, here: Option<ObjectHere>) -> Member
    ensures { result ≡ member_of member here }
{
    Member {
        rank: member.rank,
        handle: match here {
            Some(here) => here.handle,
            None => None,
        },
    }
}

/// The members, each by what its k-th call gives.
fn members_of(
    alloc: Global,
    ranks: &[RankCalls],
    views: &[RankView],
    object: Object,
    members: &[Member],
    k: usize,
) -> Result<Vec<Member>, AllocError>
    ensures { IfOk result (λ v. v.items ≡ map (made_member ranks.now views.now object k) members.now) }
{
    let mut made = Vec::new(alloc);
    for member in members {
        made.push(member_of(*member, object_here(ranks, views, object, *member, k)))?;
    }
    Ok(made)
}

/// The k-th object of all members of a communicator, in its order, where this is the call of the smallest member whose
/// text has it.
fn object_of(
    alloc: Global,
    ranks: &[RankCalls],
    views: &[RankView],
    object: Object,
    comm: &Made,
    k: usize,
    first: ObjectHere,
) -> Result<Made, AllocError>
    requires { IsMaking ranks.now views.now object comm.now k first }
    ensures { IfOk result (IsMadeOf ranks.now views.now object comm.now k) }
{
    let members = members_of(alloc, ranks, views, object, &comm.members, k)?;
    let same_ranks = copy_of(alloc, &comm.ranks)?;
    Ok(Made {
        object,
        members,
        remote_size: 0,
        ranks: same_ranks,
        dims: None,
        order: Order {
            class: 2,
            call: first.call,
            rank: first.rank,
        },
    })
}

/// Of the members' calls, where they are one making, that of the smallest member whose text has it, returned.
#[tactic(auto, using(crate::proofs::ObjectFirsts::none_one, crate::proofs::ObjectFirsts::other_one))]
fn making_of(all: &[Option<ObjectHere>]) -> Option<ObjectHere>
    ensures { IsOneMakingOf all.now result }
{
    match first_here(all) {
        None => None,
        Some(first) => {
            if are_alike(all, first.maker) {
                Some(first)
            } else {
                None
            }
        },
    }
}

/// The k-th object of a communicator, where the members that have its call agree.
fn kth_object(
    alloc: Global,
    ranks: &[RankCalls],
    views: &[RankView],
    object: Object,
    comm: &Made,
    k: usize,
) -> Result<Option<Made>, AllocError>
    ensures { IfOk result (IsObject ranks.now views.now object comm.now k) }
{
    let all = all_here(alloc, ranks, views, object, &comm.members, k)?;
    match making_of(&all) {
        None => Ok(None),
        Some(first) => Ok(Some(object_of(alloc, ranks, views, object, comm, k, first)?)),
    }
}

/// How many calls of a member make objects of this sort of the communicator, where its text has the communicator.
fn count_in(views: &[RankView], object: Object, member: Member) -> Option<usize>
    ensures { result ≡ count_in views.now object member }
{
    let view = view_by(views.get(member.rank as usize)?, object);
    Some(view.makings.get(member.handle?)?.len())
}

/// How many calls of a member make objects of this sort of the communicator.
fn makings_count(views: &[RankView], object: Object, member: Member) -> usize
    ensures { result ≡ makings_count views.now object member }
{
    match count_in(views, object, member) {
        Some(count) => count,
        None => 0,
    }
}

/// The larger of two numbers.
fn larger(one: usize, other: usize) -> usize
    ensures first { one ≤ result }
    ensures second { other ≤ result }
{
    if one < other { other } else { one }
}

/// How many calls those of the member with most are.
fn most_of(views: &[RankView], object: Object, members: &[Member]) -> usize
    ensures { IsMost views.now object members.now result }
{
    let mut most = 0;
    for member in members {
        most = larger(most, makings_count(views, object, *member));
    }
    most
}

/// The objects of this sort of a communicator, up to the first making in which its members differ.
#[tactic(auto, using(crate::proofs::ObjectLists::first_none, crate::proofs::ObjectLists::first_all))]
fn objects_in(
    alloc: Global,
    ranks: &[RankCalls],
    views: &[RankView],
    object: Object,
    comm: &Made,
) -> Result<Vec<Made>, AllocError>
    ensures { IfOk result (λ v. AreObjectsOf ranks.now views.now object comm.now v.items) }
{
    let mut listed = Vec::new(alloc);
    for k in 0..most_of(views, object, &comm.members) {
        let kth = kth_object(alloc, ranks, views, object, comm, k)?;
        match kth {
            Some(made) => listed.push(made)?,
            None => return Ok(listed),
        }
    }
    Ok(listed)
}

/// The objects of this sort of all communicators.
#[tactic(auto, using(crate::proofs::ObjectLists::all_none, crate::proofs::ObjectLists::all_more))]
fn objects_by(
    alloc: Global,
    ranks: &[RankCalls],
    views: &[RankView],
    object: Object,
    comms: &[Made],
) -> Result<Vec<Made>, AllocError>
    ensures { IfOk result (λ v. AreObjectsOfAll ranks.now views.now object comms.now v.items) }
{
    let mut listed = Vec::new(alloc);
    for comm in comms {
        let mut of_comm = objects_in(alloc, ranks, views, object, comm)?;
        listed.append(&mut of_comm)?;
    }
    Ok(listed)
}

/// The windows and files that the members of the communicators make. Each of the two sorts has an order of its own: the
/// k-th call of each member is one making, and what can't be read of one sort stops nothing else.
#[tactic(auto, using(crate::proofs::ObjectLists::are_both))]
pub(crate) fn objects_of(
    alloc: Global,
    ranks: &[RankCalls],
    views: &[RankView],
    comms: &[Made],
) -> Result<Vec<Made>, AllocError>
    ensures { IfOk result (λ v. AreObjects ranks.now views.now comms.now v.items) }
{
    let mut windows = objects_by(alloc, ranks, views, Object::Window, comms)?;
    let mut files = objects_by(alloc, ranks, views, Object::File, comms)?;
    let mut objects = Vec::new(alloc);
    objects.append(&mut windows)?;
    objects.append(&mut files)?;
    Ok(objects)
}
