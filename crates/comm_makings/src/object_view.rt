//! The windows, or the files, that a rank's calls make, name and end.

ghost use Rattle.std.specs.Prelude.{◌≡◌, ℕ, IfOk, OnOk, Some, cond, length, nat_eq, option_map, reverse};
ghost use Rattle.indexmap.specs.IndexMap.{get};
ghost use Rattle.comm_makings.specs.Each.{EachIs, ListsAre};
ghost use Rattle.comm_makings.specs.Names.{next_call};
ghost use Rattle.comm_makings.specs.Objects.{IsObjectView, changes, end_uses, handle_given, is_number, makes, makes_such, number_ended, number_given, object_handles, object_makings_on};

use crate::calls::{Action, CommCall, ObjectMaker, Uses, object_made};
use crate::handle::{Handle, Meant};
use crate::view::{add_to, comm_at, lists};
use indexmap::IndexMap;
use mpi_model::Object;
use std::alloc::{AllocError, Global};

/// A rank's windows, or its files, and the calls that make them of its communicators.
#[derive(Drop)]
pub(crate) struct ObjectView {
    pub handles: Vec<Handle>,
    /// For each call the handle that it gives.
    pub given: Vec<Option<usize>>,
    /// For each handle of a communicator the calls that make such objects of it, in their order.
    pub makings: Vec<Vec<usize>>,
}

/// Whether a function makes objects of this sort.
fn makes(object: Object, maker: ObjectMaker) -> bool
    ensures { result ≡ makes object maker }
{
    object_made(maker).number() == object.number()
}

/// Whether an action makes objects of this sort.
fn makes_such(object: Object, action: &Action) -> bool
    ensures { result ≡ makes_such object action.now }
{
    match action {
        Action::MakeObject { maker, .. } => makes(object, *maker),
        Action::Make { .. }
        | Action::CommRank { .. }
        | Action::Free { .. }
        | Action::Group { .. }
        | Action::Join { .. }
        | Action::Merge { .. }
        | Action::GivesComm { .. }
        | Action::EndObject { .. } => false,
    }
}

/// The number that a returned call gives to an object of this sort.
fn number_given(object: Object, call: &CommCall) -> Option<u32>
    ensures { result ≡ number_given object call.now }
{
    if !call.returned {
        return None;
    }
    match &call.action {
        Action::MakeObject { maker, given, .. } => {
            if makes(object, *maker) { *given } else { None }
        },
        Action::Make { .. }
        | Action::CommRank { .. }
        | Action::Free { .. }
        | Action::Group { .. }
        | Action::Join { .. }
        | Action::Merge { .. }
        | Action::GivesComm { .. }
        | Action::EndObject { .. } => None,
    }
}

/// The number of the object of this sort that a call ends.
fn number_ended(object: Object, call: &CommCall) -> Option<u32>
    ensures { result ≡ number_ended object call.now }
{
    match &call.action {
        Action::EndObject {
            object: ended,
            number,
        } => {
            if ended.number() == object.number() {
                *number
            } else {
                None
            }
        },
        Action::Make { .. }
        | Action::CommRank { .. }
        | Action::Free { .. }
        | Action::Group { .. }
        | Action::Join { .. }
        | Action::Merge { .. }
        | Action::GivesComm { .. }
        | Action::MakeObject { .. } => None,
    }
}

/// Before this call, which gives or ends the number, if any, the stretch of the number ends one above it.
fn note_end(ends: &mut IndexMap<u32, u64>, number: Option<u32>, call: u64) -> Result<(), AllocError>
    ensures { OnOk result ((m : ℕ) → get nat_eq ends.new m ≡ cond (is_number m number) (Some (next_call call)) (get nat_eq ends.old m)) }
{
    if let Some(number) = number {
        ends.insert(number, call.saturating_add(1))?;
    }
    Ok(())
}

/// The handle that a call gives, by where the numbers' stretches end that begin behind it.
fn handle_of(object: Object, call: &CommCall, ends: &IndexMap<u32, u64>) -> Option<Handle>
    ensures { result ≡ option_map (λ number. record { number = number; first = next_call call.now.call; end = get nat_eq ends.now number }) (number_given object call.now) }
{
    let number = number_given(object, call)?;
    Some(Handle {
        number,
        first: call.call.saturating_add(1),
        end: ends.get(&number).copied(),
    })
}

/// The call gives or ends numbers of this sort.
fn note_ends(
    object: Object,
    call: &CommCall,
    ends: &mut IndexMap<u32, u64>,
) -> Result<(), AllocError>
    ensures { OnOk result ((m : ℕ) → get nat_eq ends.new m ≡ cond (changes object m call.now) (Some (next_call call.now.call)) (get nat_eq ends.old m)) }
{
    note_end(ends, number_given(object, call), call.call)?;
    note_end(ends, number_ended(object, call), call.call)
}

/// The handles of this sort that the calls give, the last first: from behind it is known where each of them ends.
fn handles_back(
    alloc: Global,
    object: Object,
    calls: &[CommCall],
) -> Result<Vec<Handle>, AllocError>
    ensures { IfOk result (λ v. v.items ≡ reverse (object_handles object calls.now)) }
{
    let mut ends = IndexMap::new(alloc);
    let mut handles = Vec::new(alloc);
    let mut at = calls.len();
    while at > 0 {
        at -= 1;
        let call = &calls[at];
        if let Some(handle) = handle_of(object, call, &ends) {
            handles.push(handle)?;
        }
        note_ends(object, call, &mut ends)?;
    }
    Ok(handles)
}

/// The handles of this sort that the calls give.
fn handles_of(alloc: Global, object: Object, calls: &[CommCall]) -> Result<Vec<Handle>, AllocError>
    ensures { IfOk result (λ v. v.items ≡ object_handles object calls.now) }
{
    let mut handles = handles_back(alloc, object, calls)?;
    handles.reverse();
    Ok(handles)
}

/// For each call the handle that it gives.
fn given_of(
    alloc: Global,
    object: Object,
    calls: &[CommCall],
) -> Result<Vec<Option<usize>>, AllocError>
    ensures each { IfOk result (λ v. EachIs v.items (handle_given object calls.now)) }
    ensures all { IfOk result (λ v. length v.items ≡ length calls.now) }
{
    let mut given = Vec::new(alloc);
    let mut count = 0usize;
    for call in calls {
        if number_given(object, call).is_some() {
            given.push(Some(count))?;
            count += 1;
        } else {
            given.push(None)?;
        }
    }
    Ok(given)
}

/// For each handle of a communicator the calls that make objects of this sort of it, up to the first whose parent is
/// unknown.
fn makings_of(
    alloc: Global,
    object: Object,
    calls: &[CommCall],
    meant: &[Meant],
    count: usize,
) -> Result<Vec<Vec<usize>>, AllocError>
    ensures each { IfOk result (λ lists. ListsAre lists.items (λ handle. object_makings_on object handle 0 calls.now meant.now)) }
    ensures all { IfOk result (λ lists. length lists.items ≡ count) }
{
    let mut lists = lists(alloc, count)?;
    for (at, call) in calls.iter().enumerate() {
        if makes_such(object, &call.action) {
            match comm_at(meant, at) {
                None => return Ok(lists),
                Some(parent) => add_to(&mut lists, parent, at)?,
            }
        }
    }
    Ok(lists)
}

/// The objects of this sort of a rank that has so many handles of communicators.
pub(crate) fn object_view(
    alloc: Global,
    object: Object,
    calls: &[CommCall],
    meant: &[Meant],
    count: usize,
) -> Result<ObjectView, AllocError>
    ensures { IfOk result (IsObjectView object calls.now meant.now count) }
{
    Ok(ObjectView {
        handles: handles_of(alloc, object, calls)?,
        given: given_of(alloc, object, calls)?,
        makings: makings_of(alloc, object, calls, meant, count)?,
    })
}

/// The calls that end objects of this sort: each still names what it ends.
pub(crate) fn end_uses(
    alloc: Global,
    object: Object,
    calls: &[CommCall],
) -> Result<Vec<Uses>, AllocError>
    ensures { IfOk result (λ v. v.items ≡ end_uses object calls.now) }
{
    let mut uses = Vec::new(alloc);
    for call in calls {
        if let Some(number) = number_ended(object, call) {
            uses.push(Uses {
                number,
                first: call.call,
                last: call.call,
                count: 1,
            })?;
        }
    }
    Ok(uses)
}
