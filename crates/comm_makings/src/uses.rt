//! Which calls of the profile name which handles of a rank.

ghost use Rattle.std.specs.Prelude.{[], ◌≡◌, ◌≤◌, ◌==◌, ◌&&◌, ◌++◌, ◌+◌, ◌-◌, ◌^◌, ℕ, IfOk, OnOk, cond, false, is_some, length, map, min, nat_eq, not, true, unwrap_or};
ghost use Rattle.std.specs.List.{slice_get};
ghost use Rattle.std.specs.List.Sorted.{IsPartitionPoint, IsPartitionedBy};
ghost use Rattle.std.specs.Option.{option_and_then};
ghost use Rattle.indexmap.specs.IndexMap.{get};
ghost use Rattle.mpi_model.specs.Names.{holds};
ghost use Rattle.comm_makings.specs.Each.{EachBecomes, EachIs};
ghost use Rattle.comm_makings.specs.Objects.{end_uses};
ghost use Rattle.comm_makings.specs.Uses.{AreAllCounted, AreCounted, IsCountedOf, uses_by, AreHeld, AreOrdered, IsCounted, IsHolderOf, IsLatestOf, IsTally, but_ends, call_use, call_use_at, count_at, count_for, count_of, ends_with, held_calls, holds_all, is_at, is_stray, is_use, number_on, numbered, places_from, precedes, stands_alone, used_at};

use crate::answer::Choice;
use crate::calls::{Action, CommCall, Making, RankCalls, Uses};
use crate::handle::{Handle, Meant};
use crate::object_view::end_uses;
use crate::view::RankView;
use indexmap::IndexMap;
use mpi_model::Object;
use std::alloc::{AllocError, Global};

/// What the calls of the profile say of a rank's handles.
#[derive(Drop)]
pub(crate) struct HandleUses {
    /// How many name each handle.
    pub counts: Vec<u64>,
    /// How many of these don't end it.
    pub used: Vec<u64>,
    /// Of each handle, whether its number names nothing else of the rank.
    pub only: Vec<bool>,
}

/// What the calls of the profile say of the handles of all ranks.
#[derive(Drop)]
pub(crate) struct AllUses {
    pub comms: Vec<HandleUses>,
    pub windows: Vec<HandleUses>,
    pub files: Vec<HandleUses>,
}

/// A handle in the order of its number and its first call.
#[derive(Clone, Copy, PartialEq, Eq, PartialOrd, Ord)]
struct Place {
    number: u32,
    first: u64,
    handle: usize,
}

/// Calls of the profile that name a number, and the handle that they mean.
#[derive(Clone, Copy)]
struct HeldUses {
    uses: Uses,
    holder: Option<usize>,
}

/// The handles in their own order.
fn all_places(alloc: Global, handles: &[Handle]) -> Result<Vec<Place>, AllocError>
    ensures { IfOk result (λ v. v.items ≡ places_from 0 handles.now) }
{
    let mut places = Vec::new(alloc);
    for (handle, stretch) in handles.iter().enumerate() {
        places.push(Place {
            number: stretch.number,
            first: stretch.first,
            handle,
        })?;
    }
    Ok(places)
}

/// The handles in the order of their numbers and first calls.
fn places_of(alloc: Global, handles: &[Handle]) -> Result<Vec<Place>, AllocError>
    ensures { IfOk result (λ v. AreOrdered handles.now v.items) }
{
    let mut places = all_places(alloc, handles)?;
    places.sort()?;
    Ok(places)
}

/// How many of the places come first, up to those of a number that begin at this call or before it.
fn count_to(places: &[Place], number: u32, call: u64) -> usize
    requires { IsPartitionedBy (precedes number call) places.now }
    ensures bound { result ≤ length places.now }
    ensures point { IsPartitionPoint (λ p. precedes number call p ≡ true) (λ p. precedes number call p ≡ false) places.now result }
{
    places.partition_point(|p| p.number < number || (p.number == number && p.first <= call))
}

/// The last handle of a number that begins at this call or before it, found by binary search.
fn latest(handles: &[Handle], places: &[Place], number: u32, call: u64) -> Option<usize>
    requires { AreOrdered handles.now places.now }
    ensures { IsLatestOf handles.now number call result }
{
    let count = count_to(places, number, call);
    if count == 0 {
        return None;
    }
    let place = places[count - 1];
    if place.number == number {
        Some(place.handle)
    } else {
        None
    }
}

/// Whether the handle is named so in this call.
fn holds(handle: &Handle, call: u64) -> bool
    ensures { result ≡ holds handle.now call }
{
    if call < handle.first {
        return false;
    }
    match handle.end {
        Some(end) => call < end,
        None => true,
    }
}

/// Whether the handle is named so in all calls of a group.
fn holds_all(uses: Uses, handle: &Handle) -> bool
    ensures { result ≡ holds_all uses handle.now }
{
    holds(handle, uses.first) && holds(handle, uses.last)
}

/// The handle that the calls of a group mean.
fn holder(handles: &[Handle], places: &[Place], uses: Uses) -> Option<usize>
    requires { AreOrdered handles.now places.now }
    ensures { IsHolderOf handles.now uses result }
{
    let at = latest(handles, places, uses.number, uses.first)?;
    if at < handles.len() && holds_all(uses, &handles[at]) {
        Some(at)
    } else {
        None
    }
}

/// The groups of calls, each with the handle that they mean.
fn held_by(alloc: Global, handles: &[Handle], uses: &[Uses]) -> Result<Vec<HeldUses>, AllocError>
    ensures { IfOk result (λ v. AreHeld handles.now uses.now v.items) }
{
    let places = places_of(alloc, handles)?;
    let mut held = Vec::new(alloc);
    for named in uses {
        held.push(HeldUses {
            uses: *named,
            holder: holder(handles, &places, *named),
        })?;
    }
    Ok(held)
}

/// The number of the communicator that a call names of which all members make it (MPI 4.0, 7.4, 11.8 to 11.10, 12.2 and
/// 14.2.1): those of MPI_Comm_create_group are of a group alone.
fn number_on(action: &Action) -> Option<u32>
    ensures { result ≡ number_on action.now }
{
    match action {
        Action::Make { parent, making, .. } => match making {
            Making::CreateGroup { .. } => None,
            Making::Dup
            | Making::DupWithInfo
            | Making::Idup
            | Making::IdupWithInfo
            | Making::Split { .. }
            | Making::Create { .. }
            | Making::CartCreate { .. }
            | Making::CartSub { .. }
            | Making::GraphCreate { .. }
            | Making::DistGraphCreate { .. }
            | Making::DistGraphCreateAdjacent { .. } => *parent,
        },
        Action::Free { comm } => *comm,
        Action::Join { local, .. } => *local,
        Action::Merge { comm, .. } => *comm,
        Action::GivesComm { comm, .. } => *comm,
        Action::MakeObject { parent, .. } => *parent,
        Action::CommRank { .. } | Action::Group { .. } | Action::EndObject { .. } => None,
    }
}

/// A call on communicators as a use of the handle that it means.
fn call_use(call: &CommCall, meant: Meant) -> Option<HeldUses>
    ensures { result ≡ call_use call.now meant }
{
    let number = number_on(&call.action)?;
    Some(HeldUses {
        uses: Uses {
            number,
            first: call.call,
            last: call.call,
            count: 1,
        },
        holder: meant.comm,
    })
}

/// The same of the call at a place.
fn call_use_at(calls: &[CommCall], meant: &[Meant], at: usize) -> Option<HeldUses>
    ensures { result ≡ call_use_at calls.now meant.now at }
{
    let call = calls.get(at)?;
    let meant = meant.get(at).copied()?;
    call_use(call, meant)
}

/// Adds the uses of handles by the calls on communicators.
fn add_calls(
    calls: &[CommCall],
    meant: &[Meant],
    held: &mut Vec<HeldUses>,
) -> Result<(), AllocError>
    ensures { OnOk result (held.new.items ≡ held.old.items ++ held_calls calls.now meant.now) }
{
    for at in 0..calls.len() {
        if let Some(group) = call_use_at(calls, meant, at) {
            held.push(group)?;
        }
    }
    Ok(())
}

/// So many more calls name the handle at this place.
fn add_at(counts: &mut Vec<u64>, at: usize, more: u64)
    ensures counts { EachBecomes counts.old.items counts.new.items (λ k before. cond (at == k) (min (before + more) (2 ^ 64 - 1)) before) }
    ensures each { length counts.new.items ≡ length counts.old.items }
{
    if at < counts.len() {
        counts[at] = counts[at].saturating_add(more);
    }
}

/// The calls of a group name their handle.
fn add(counts: &mut Vec<u64>, group: HeldUses)
    ensures counts { EachBecomes counts.old.items counts.new.items (λ k before. cond (is_at k group.holder) (min (before + group.uses.count) (2 ^ 64 - 1)) before) }
    ensures each { length counts.new.items ≡ length counts.old.items }
{
    if let Some(at) = group.holder {
        add_at(counts, at, group.uses.count);
    }
}

/// How many calls name each handle.
fn counts_of(alloc: Global, handles: usize, held: &[HeldUses]) -> Result<Vec<u64>, AllocError>
    ensures counts { IfOk result (λ v. EachIs v.items (count_of held.now)) }
    ensures each { IfOk result (λ v. length v.items ≡ handles) }
{
    let mut counts = vec![in alloc; 0u64; handles]?;
    for group in held {
        add(&mut counts, *group);
    }
    Ok(counts)
}

/// Whether the last call of a group ends the handle's stretch: it frees or closes what the handle names, or gives the number
/// anew.
fn ends_with(uses: Uses, handle: Handle) -> bool
    ensures { result ≡ ends_with uses handle }
{
    match handle.end {
        Some(end) => end == uses.last.saturating_add(1),
        None => false,
    }
}

/// The handle that the calls of a group name.
fn handle_held(handles: &[Handle], group: HeldUses) -> Option<Handle>
    ensures { result ≡ option_and_then (slice_get handles.now) group.holder }
{
    handles.get(group.holder?).copied()
}

/// Whether the calls of a group don't end what they name.
fn is_use(handles: &[Handle], group: HeldUses) -> bool
    ensures { result ≡ is_use handles.now group }
{
    match handle_held(handles, group) {
        Some(handle) => !ends_with(group.uses, handle),
        None => true,
    }
}

/// The groups but for the calls that end what they name.
fn but_ends(
    alloc: Global,
    handles: &[Handle],
    held: &[HeldUses],
) -> Result<Vec<HeldUses>, AllocError>
    ensures { IfOk result (λ v. v.items ≡ but_ends handles.now held.now) }
{
    let mut uses = Vec::new(alloc);
    for group in held {
        if is_use(handles, *group) {
            uses.push(*group)?;
        }
    }
    Ok(uses)
}

/// How many calls name each handle that don't end it.
fn used_of(alloc: Global, handles: &[Handle], held: &[HeldUses]) -> Result<Vec<u64>, AllocError>
    ensures counts { IfOk result (λ v. EachIs v.items (count_of (but_ends handles.now held.now))) }
    ensures each { IfOk result (λ v. length v.items ≡ length handles.now) }
{
    let uses = but_ends(alloc, handles, held)?;
    counts_of(alloc, handles.len(), &uses)
}

/// The numbers by which calls mean no handle.
fn strays_of(alloc: Global, held: &[HeldUses]) -> Result<IndexMap<u32, ()>, AllocError>
    ensures { IfOk result (λ v. (m : ℕ) → is_some (get nat_eq v m) ≡ is_stray held.now m) }
{
    let mut strays = IndexMap::new(alloc);
    for group in held {
        if group.holder.is_none() {
            strays.insert(group.uses.number, ())?;
        }
    }
    Ok(strays)
}

/// How many handles have each number.
fn numbered(alloc: Global, handles: &[Handle]) -> Result<IndexMap<u32, usize>, AllocError>
    ensures { IfOk result (λ v. (m : ℕ) → unwrap_or (get nat_eq v m) 0 ≡ numbered handles.now m) }
{
    let mut counts = IndexMap::new(alloc);
    for handle in handles {
        let before = counts.get(&handle.number).copied().unwrap_or(0);
        counts.insert(handle.number, before + 1)?;
    }
    Ok(counts)
}

/// Whether a number is that of one handle alone, and all calls that name it mean that.
fn is_only(counts: &IndexMap<u32, usize>, strays: &IndexMap<u32, ()>, number: u32) -> bool
    ensures { result ≡ ((unwrap_or (get nat_eq counts.now number) 0 == 1) && not (is_some (get nat_eq strays.now number))) }
{
    counts.get(&number).copied().unwrap_or(0) == 1 && strays.get(&number).is_none()
}

/// For each handle, whether its number names nothing else of the rank.
fn only_of(alloc: Global, handles: &[Handle], held: &[HeldUses]) -> Result<Vec<bool>, AllocError>
    ensures { IfOk result (λ v. v.items ≡ map (stands_alone handles.now held.now) handles.now) }
{
    let counts = numbered(alloc, handles)?;
    let strays = strays_of(alloc, held)?;
    let mut only = Vec::new(alloc);
    for handle in handles {
        only.push(is_only(&counts, &strays, handle.number))?;
    }
    Ok(only)
}

/// What groups of calls say of handles.
fn tally(alloc: Global, handles: &[Handle], held: &[HeldUses]) -> Result<HandleUses, AllocError>
    ensures { IfOk result (IsTally handles.now held.now) }
{
    Ok(HandleUses {
        counts: counts_of(alloc, handles.len(), held)?,
        used: used_of(alloc, handles, held)?,
        only: only_of(alloc, handles, held)?,
    })
}

/// What the calls of a rank name: those of the profile, and those on communicators.
#[tactic(auto, using(crate::proofs::Holders::counted))]
fn uses_of(alloc: Global, view: &RankView, calls: &RankCalls) -> Result<HandleUses, AllocError>
    ensures { IfOk result (IsCounted view.now.handles.items calls.now.uses.items (held_calls calls.now.calls.items view.now.meant.items)) }
{
    let handles = &view.handles;
    let mut held = held_by(alloc, handles, &calls.uses)?;
    add_calls(&calls.calls, &view.meant, &mut held)?;
    tally(alloc, handles, &held)
}

/// These calls that name windows, or files, and behind them those that end one.
fn with_ends(
    alloc: Global,
    object: Object,
    uses: &[Uses],
    calls: &[CommCall],
) -> Result<Vec<Uses>, AllocError>
    ensures { IfOk result (λ v. v.items ≡ uses.now ++ end_uses object calls.now) }
{
    let mut ends = end_uses(alloc, object, calls)?;
    let mut all = Vec::new(alloc);
    all.extend_from_slice(uses)?;
    all.append(&mut ends)?;
    Ok(all)
}

/// What the calls of a rank name of its windows, or of its files: those of the profile, and those that end one.
#[tactic(auto, using(crate::proofs::Holders::counted, crate::proofs::Holders::without_more))]
fn object_uses(
    alloc: Global,
    object: Object,
    handles: &[Handle],
    uses: &[Uses],
    calls: &[CommCall],
) -> Result<HandleUses, AllocError>
    ensures { IfOk result (IsCounted handles.now (uses.now ++ end_uses object calls.now) []) }
{
    let uses = with_ends(alloc, object, uses, calls)?;
    let held = held_by(alloc, handles, &uses)?;
    tally(alloc, handles, &held)
}

/// What the calls of a rank name of objects of one sort.
fn named_by(
    alloc: Global,
    object: Object,
    view: &RankView,
    calls: &RankCalls,
) -> Result<HandleUses, AllocError>
    ensures { IfOk result (IsCountedOf object calls.now view.now) }
{
    match object {
        Object::Communicator => uses_of(alloc, view, calls),
        Object::Window => {
            object_uses(
                alloc,
                object,
                &view.windows.handles,
                &calls.windows,
                &calls.calls,
            )
        },
        Object::File => object_uses(
            alloc,
            object,
            &view.files.handles,
            &calls.files,
            &calls.calls,
        ),
    }
}

/// The same of all ranks.
#[tactic(auto, using(crate::proofs::Holders::counted_none, crate::proofs::Holders::counted_all))]
fn named_by_all(
    alloc: Global,
    object: Object,
    ranks: &[RankCalls],
    views: &[RankView],
) -> Result<Vec<HandleUses>, AllocError>
    requires { length views.now ≡ length ranks.now }
    ensures { IfOk result (λ v. AreCounted object ranks.now views.now v.items) }
{
    let mut all = Vec::new(alloc);
    for (at, rank) in ranks.iter().enumerate() {
        all.push(named_by(alloc, object, &views[at], rank)?)?;
    }
    Ok(all)
}

/// What the calls of all ranks name of objects of each sort.
pub(crate) fn all_uses(
    alloc: Global,
    ranks: &[RankCalls],
    views: &[RankView],
) -> Result<AllUses, AllocError>
    requires { length views.now ≡ length ranks.now }
    ensures { IfOk result (AreAllCounted ranks.now views.now) }
{
    Ok(AllUses {
        comms: named_by_all(alloc, Object::Communicator, ranks, views)?,
        windows: named_by_all(alloc, Object::Window, ranks, views)?,
        files: named_by_all(alloc, Object::File, ranks, views)?,
    })
}

/// What the calls name of objects of one sort.
pub(crate) fn uses_by(uses: &AllUses, object: Object) -> &[HandleUses]
    ensures { result.now ≡ uses_by uses.now object }
{
    match object {
        Object::Communicator => &uses.comms,
        Object::Window => &uses.windows,
        Object::File => &uses.files,
    }
}

/// How many calls name a handle of a rank that don't end it.
fn used_at(uses: &[HandleUses], rank: u32, handle: Option<usize>) -> u64
    ensures { result ≡ used_at uses.now rank handle }
{
    let Some(handle) = handle else {
        return 0;
    };
    match uses.get(rank as usize) {
        Some(uses) => match uses.used.get(handle) {
            Some(count) => *count,
            None => 0,
        },
        None => 0,
    }
}

/// How many calls name a handle of a rank: all, or those that don't end it.
pub(crate) fn count_for(
    choice: Choice,
    uses: &[HandleUses],
    rank: u32,
    handle: Option<usize>,
) -> u64
    ensures { result ≡ count_for choice uses.now rank handle }
{
    match choice {
        Choice::Named => count_at(uses, rank, handle),
        Choice::Used => used_at(uses, rank, handle),
    }
}

/// How many calls of the profile name a handle of a rank.
pub(crate) fn count_at(uses: &[HandleUses], rank: u32, handle: Option<usize>) -> u64
    ensures { result ≡ count_at uses.now rank handle }
{
    let Some(handle) = handle else {
        return 0;
    };
    match uses.get(rank as usize) {
        Some(uses) => match uses.counts.get(handle) {
            Some(count) => *count,
            None => 0,
        },
        None => 0,
    }
}
