//! What each rank called on each of its communicators.

ghost use Rattle.std.specs.Prelude.{◌≡◌, ◌==◌, ◌++◌, [], IfOk, OnOk, length};
ghost use Rattle.comm_makings.specs.Each.{EachBecomes, EachIs, ListsAre, ListsBecome};
ghost use Rattle.comm_makings.specs.Views.{AreViews, IsEnd, IsView, comm_at, first_told_on, is_by_group, is_kind, is_orphan, makings_on, place_if, rank_told, told_now};

use crate::calls::{Action, CommCall, Making, RankCalls};
use crate::handle::{Handle, Meant};
use crate::here::making_of;
use crate::names::names_of;
use crate::object_view::{ObjectView, object_view};
use mpi_model::Object;
use std::alloc::{AllocError, Global};

/// A rank's handles, and what it called on each.
#[derive(Drop)]
pub(crate) struct RankView {
    pub handles: Vec<Handle>,
    /// What each call means.
    pub meant: Vec<Meant>,
    /// For each handle the calls that make communicators of it by all its members, in their order.
    pub makings: Vec<Vec<usize>>,
    /// For each handle the calls of MPI_Comm_create_group on it, in their order.
    pub by_group: Vec<Vec<usize>>,
    /// For each handle the calls of MPI_Intercomm_create that join its group with another, in their order.
    pub joins: Vec<Vec<usize>>,
    /// For each handle the calls of MPI_Intercomm_merge on it, in their order.
    pub merges: Vec<Vec<usize>>,
    /// All calls of MPI_Intercomm_create, in their order.
    pub all_joins: Vec<usize>,
    /// What MPI_Comm_rank first tells on each handle.
    pub told: Vec<Option<u32>>,
    /// From this call on, the rank's calls make no communicators, because a parent is unknown.
    pub end: usize,
    pub windows: ObjectView,
    pub files: ObjectView,
}

/// An empty list for each of this many handles.
pub(crate) fn lists(alloc: Global, count: usize) -> Result<Vec<Vec<usize>>, AllocError>
    ensures each { IfOk result (λ lists. ListsAre lists.items (λ handle. [])) }
    ensures all { IfOk result (λ lists. length lists.items ≡ count) }
{
    let mut lists = Vec::new(alloc);
    for _ in 0..count {
        lists.push(Vec::new(alloc))?;
    }
    Ok(lists)
}

/// Adds a call to the list of a handle.
pub(crate) fn add_to(lists: &mut Vec<Vec<usize>>, at: usize, call: usize) -> Result<(), AllocError>
    ensures each { OnOk result (ListsBecome lists.old.items lists.new.items (λ handle list. list ++ place_if (at == handle) call [])) }
    ensures all { OnOk result (length lists.new.items ≡ length lists.old.items) }
{
    if at < lists.len() {
        lists[at].push(call)?;
    }
    Ok(())
}

/// The first call that makes communicators of a parent that is unknown; where there is none, one behind the last.
#[tactic(auto, using(crate::proofs::Ends::none_more, crate::proofs::Ends::found_end, crate::proofs::Ends::all_known))]
fn end_of(calls: &[CommCall], meant: &[Meant]) -> usize
    ensures { IsEnd calls.now meant.now result }
{
    for (at, call) in calls.iter().enumerate() {
        if is_orphan(call, comm_at(meant, at)) {
            return at;
        }
    }
    calls.len()
}

/// Whether a call makes communicators, of a parent that is unknown.
fn is_orphan(call: &CommCall, parent: Option<usize>) -> bool
    ensures { result ≡ is_orphan call.now parent }
{
    making_of(&call.action).is_some() && parent.is_none()
}

/// Whether a making is collective over a group and not over the parent.
fn is_by_group(making: &Making) -> bool
    ensures { result ≡ is_by_group making.now }
{
    match making {
        Making::CreateGroup { .. } => true,
        Making::Dup
        | Making::DupWithInfo
        | Making::Idup
        | Making::IdupWithInfo
        | Making::Split { .. }
        | Making::Create { .. }
        | Making::CartCreate { .. }
        | Making::CartSub { .. }
        | Making::GraphCreate { .. }
        | Making::DistGraphCreate { .. }
        | Making::DistGraphCreateAdjacent { .. } => false,
    }
}

/// Whether a making is one by a group, or else one by all members of the parent, as is asked.
fn is_kind(by_group: bool, making: &Making) -> bool
    ensures { result ≡ is_kind by_group making.now }
{
    if by_group {
        is_by_group(making)
    } else {
        !is_by_group(making)
    }
}

/// The handle that the call at this place names.
pub(crate) fn comm_at(meant: &[Meant], at: usize) -> Option<usize>
    ensures { result ≡ comm_at meant.now at }
{
    meant.get(at)?.comm
}

/// For each handle the calls that make communicators of it: by groups, or by all its members.
fn makings_by(
    alloc: Global,
    calls: &[CommCall],
    meant: &[Meant],
    count: usize,
    by_group: bool,
) -> Result<Vec<Vec<usize>>, AllocError>
    ensures each { IfOk result (λ lists. ListsAre lists.items (λ handle. makings_on by_group handle 0 calls.now meant.now)) }
    ensures all { IfOk result (λ lists. length lists.items ≡ count) }
{
    let mut lists = lists(alloc, count)?;
    for (at, call) in calls.iter().enumerate() {
        if let Some(making) = making_of(&call.action) {
            match comm_at(meant, at) {
                None => return Ok(lists),
                Some(parent) => {
                    if is_kind(by_group, making) {
                        add_to(&mut lists, parent, at)?;
                    }
                },
            }
        }
    }
    Ok(lists)
}

/// Whether a call joins two groups.
fn is_join(call: &CommCall) -> bool {
    matches!(&call.action, Action::Join { .. })
}

/// Whether a call merges two groups.
fn is_merge(call: &CommCall) -> bool {
    matches!(&call.action, Action::Merge { .. })
}

/// For each handle the calls on it that join two groups, or else those that merge two, up to the first on a
/// communicator that is unknown.
fn calls_on(
    alloc: Global,
    calls: &[CommCall],
    meant: &[Meant],
    count: usize,
    joins: bool,
) -> Result<Vec<Vec<usize>>, AllocError> {
    let mut lists = lists(alloc, count)?;
    for (at, call) in calls.iter().enumerate() {
        let counts = if joins { is_join(call) } else { is_merge(call) };
        if counts {
            let Some(handle) = comm_at(meant, at) else {
                return Ok(lists);
            };
            add_to(&mut lists, handle, at)?;
        }
    }
    Ok(lists)
}

/// The calls that join two groups.
fn joins_of(alloc: Global, calls: &[CommCall]) -> Result<Vec<usize>, AllocError> {
    let mut joins = Vec::new(alloc);
    for (at, call) in calls.iter().enumerate() {
        if is_join(call) {
            joins.push(at)?;
        }
    }
    Ok(joins)
}

/// The rank that a call of MPI_Comm_rank tells.
fn rank_told(call: &CommCall) -> Option<u32>
    ensures { result ≡ rank_told call.now.returned call.now.action }
{
    if !call.returned {
        return None;
    }
    match &call.action {
        Action::CommRank { rank, .. } => *rank,
        Action::Make { .. }
        | Action::Free { .. }
        | Action::Group { .. }
        | Action::Join { .. }
        | Action::Merge { .. }
        | Action::GivesComm { .. }
        | Action::MakeObject { .. }
        | Action::EndObject { .. } => None,
    }
}

/// Notes the rank that is told on a handle, unless one was told before.
fn note_told(told: &mut Vec<Option<u32>>, handle: usize, rank: u32)
    ensures each { EachBecomes told.old.items told.new.items (λ at before. told_now (handle == at) rank before) }
    ensures all { length told.new.items ≡ length told.old.items }
{
    if handle < told.len() && told[handle].is_none() {
        told[handle] = Some(rank);
    }
}

/// What MPI_Comm_rank first tells on each handle.
fn told_on(
    alloc: Global,
    calls: &[CommCall],
    meant: &[Meant],
    count: usize,
) -> Result<Vec<Option<u32>>, AllocError>
    ensures each { IfOk result (λ told. EachIs told.items (λ handle. first_told_on handle calls.now meant.now)) }
    ensures all { IfOk result (λ told. length told.items ≡ count) }
{
    let mut told = vec![in alloc; None; count]?;
    for (at, call) in calls.iter().enumerate() {
        if let Some(rank) = rank_told(call) {
            if let Some(handle) = comm_at(meant, at) {
                note_told(&mut told, handle, rank);
            }
        }
    }
    Ok(told)
}

/// What a rank called.
pub(crate) fn view_of(alloc: Global, world: u32, rank: &RankCalls) -> Result<RankView, AllocError>
    ensures { IfOk result (IsView world rank.now) }
{
    let (handles, meant) = names_of(alloc, world, rank)?;
    let count = handles.len();
    let makings = makings_by(alloc, &rank.calls, &meant, count, false)?;
    let by_group = makings_by(alloc, &rank.calls, &meant, count, true)?;
    let joins = calls_on(alloc, &rank.calls, &meant, count, true)?;
    let merges = calls_on(alloc, &rank.calls, &meant, count, false)?;
    let all_joins = joins_of(alloc, &rank.calls)?;
    let told = told_on(alloc, &rank.calls, &meant, count)?;
    let end = end_of(&rank.calls, &meant);
    let windows = object_view(alloc, Object::Window, &rank.calls, &meant, count)?;
    let files = object_view(alloc, Object::File, &rank.calls, &meant, count)?;
    Ok(RankView {
        handles,
        meant,
        makings,
        by_group,
        joins,
        merges,
        all_joins,
        told,
        end,
        windows,
        files,
    })
}

/// What each rank called.
#[tactic(auto, using(crate::proofs::ViewSteps::views_none, crate::proofs::ViewSteps::views_all))]
pub(crate) fn views_of(
    alloc: Global,
    world: u32,
    ranks: &[RankCalls],
) -> Result<Vec<RankView>, AllocError>
    ensures { IfOk result (λ views. AreViews world ranks.now views.items) }
{
    let mut views = Vec::new(alloc);
    for rank in ranks {
        views.push(view_of(alloc, world, rank)?)?;
    }
    Ok(views)
}
