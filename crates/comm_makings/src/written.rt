//! The communicators, windows and files as a layout has them: which are written, their ids, and by which numbers their
//! members name them.

ghost use Rattle.std.specs.Prelude.{◌≡◌, All, IfOk, IfSome, length, map};
ghost use Rattle.std.specs.List.{filter_map, range_with_len, slice_get};
ghost use Rattle.std.specs.Option.{option_and_then};
ghost use Rattle.comm_makings.specs.Written.{AreChosen, AreIn, AreOthers, AreWrittenOf, HasNumber, IsNamedOnly, IsWorld, IsWritten, IsWrittenOf, entry_of, handle_at, handles_by, is_comm, is_named, is_only, named_at, only_number, stretch_of};

use crate::answer::Choice;
use crate::handle::Handle;
use crate::names::always;
use crate::parts::first_places;
use crate::state::{Made, Member, Order, comm_at, copy_of};
use crate::uses::{AllUses, HandleUses, count_for, uses_by};
use crate::view::RankView;
use indexmap::IndexMap;
use mpi_model::{Comm, Object, Stretch};
use std::alloc::{AllocError, Global};

/// Which communicator of the layout a number is of.
#[derive(Clone, Copy, PartialEq, Eq)]
enum Owner {
    One(usize),
    Several,
}

/// The handles of a rank that name objects of this sort.
fn handles_by(view: &RankView, object: Object) -> &[Handle]
    ensures { result.now ≡ handles_by view.now object }
{
    match object {
        Object::Communicator => &view.handles,
        Object::Window => &view.windows.handles,
        Object::File => &view.files.handles,
    }
}

/// The stretch of a handle of a rank.
fn handle_at(views: &[RankView], object: Object, rank: u32, handle: usize) -> Option<Handle>
    ensures { result ≡ handle_at views.now object rank handle }
{
    handles_by(views.get(rank as usize)?, object)
        .get(handle)
        .copied()
}

/// Whether the number of a handle names nothing else of the rank, where there is such a handle.
fn only_at(uses: &[HandleUses], rank: u32, handle: usize) -> Option<bool>
    ensures { result ≡ option_and_then (λ u. slice_get u.only.items handle) (slice_get uses.now rank) }
{
    uses.get(rank as usize)?.only.get(handle).copied()
}

/// Whether its number names nothing else of the rank.
fn is_only(uses: &[HandleUses], rank: u32, handle: usize) -> bool
    ensures { result ≡ is_only uses.now rank handle }
{
    match only_at(uses, rank, handle) {
        Some(only) => only,
        None => false,
    }
}

/// Whether a call names it, or one that doesn't end it, as is chosen.
fn is_named(choice: Choice, uses: &AllUses, made: &Made) -> bool
    ensures { result ≡ is_named choice uses.now made.now }
{
    let uses = uses_by(uses, made.object);
    made.members.iter().any(|member| count_for(choice, uses, member.rank, member.handle) > 0)
}

/// A communicator, a window or a file by its place among all, in the order of a layout.
#[derive(Clone, Copy, PartialEq, Eq, PartialOrd, Ord)]
struct Named {
    order: Order,
    place: usize,
}

/// What is at this place, where it isn't the world and is named.
fn named_at(choice: Choice, uses: &AllUses, made: &[Made], place: usize) -> Option<Named>
    ensures { result ≡ named_at choice uses.now made.now place }
{
    let one = comm_at(made, place)?;
    if one.order.class > 0 && is_named(choice, uses, one) {
        Some(Named {
            order: one.order,
            place,
        })
    } else {
        None
    }
}

/// What is named, but for the world, as it was derived.
fn all_named(
    alloc: Global,
    choice: Choice,
    uses: &AllUses,
    made: &[Made],
) -> Result<Vec<Named>, AllocError>
    ensures { IfOk result (λ v. v.items ≡ filter_map (named_at choice uses.now made.now) (range_with_len 0 (length made.now))) }
{
    let mut named = Vec::new(alloc);
    for place in 0..made.len() {
        if let Some(one) = named_at(choice, uses, made, place) {
            named.push(one)?;
        }
    }
    Ok(named)
}

/// What is named, but for the world, in its order.
fn named_in(
    alloc: Global,
    choice: Choice,
    uses: &AllUses,
    made: &[Made],
) -> Result<Vec<Named>, AllocError>
    ensures { IfOk result (λ v. AreChosen choice uses.now made.now v.items) }
{
    let mut named = all_named(alloc, choice, uses, made)?;
    named.sort()?;
    Ok(named)
}

/// Notes that a number is of this communicator of the layout.
fn note_owner(
    owners: &mut IndexMap<u32, Owner>,
    number: u32,
    comm: usize,
) -> Result<(), AllocError> {
    match owners.get(&number).copied() {
        None => {
            owners.insert(number, Owner::One(comm))?;
        },
        Some(owner) => {
            if owner != Owner::One(comm) {
                owners.insert(number, Owner::Several)?;
            }
        },
    }
    Ok(())
}

/// Notes that the number by which this member names the communicator is of it.
fn note_member(
    owners: &mut IndexMap<u32, Owner>,
    views: &[RankView],
    at: usize,
    member: Member,
) -> Result<(), AllocError> {
    let Some(handle) = member.handle else {
        return Ok(());
    };
    match handle_at(views, Object::Communicator, member.rank, handle) {
        Some(handle) => note_owner(owners, handle.number, at),
        None => Ok(()),
    }
}

/// Notes of which communicator the numbers are by which its members name it. Windows and files have numbers of their
/// own.
fn note_owners(
    owners: &mut IndexMap<u32, Owner>,
    views: &[RankView],
    at: usize,
    made: &Made,
) -> Result<(), AllocError> {
    if !is_comm(made.object) {
        return Ok(());
    }
    for member in &made.members {
        note_member(owners, views, at, *member)?;
    }
    Ok(())
}

/// For each number, the communicator of the layout that some rank names by it.
fn owners_of(
    alloc: Global,
    views: &[RankView],
    made: &[Made],
    named: &[Named],
) -> Result<IndexMap<u32, Owner>, AllocError> {
    let mut owners = IndexMap::new(alloc);
    for named in named {
        if let Some(one) = comm_at(made, named.place) {
            note_owners(&mut owners, views, named.place, one)?;
        }
    }
    Ok(owners)
}

/// The number by which all members name the communicator, and nothing else.
fn common_number(views: &[RankView], uses: &[HandleUses], members: &[Member]) -> Option<u32>
    ensures { IfSome result (λ number. All (IsNamedOnly views.now uses.now number) members.now) }
{
    let number = only_number(views, uses, *members.first()?)?;
    if members
        .iter()
        .all(|member| only_number(views, uses, *member) == Some(number))
    {
        Some(number)
    } else {
        None
    }
}

/// The number by which a member names the communicator, where it names nothing else.
fn only_number(views: &[RankView], uses: &[HandleUses], member: Member) -> Option<u32>
    ensures { result ≡ only_number views.now uses.now member }
{
    let handle = member.handle?;
    let stretch = handle_at(views, Object::Communicator, member.rank, handle)?;
    if is_only(uses, member.rank, handle) {
        Some(stretch.number)
    } else {
        None
    }
}

/// The number over all calls where it names nothing else, and else over the handle's stretch.
fn stretch_of(only: bool, stretch: Stretch) -> Stretch
    ensures { result ≡ stretch_of only stretch }
{
    if only {
        always(stretch.number)
    } else {
        stretch
    }
}

/// By which number, over which calls, a member names an object of this sort.
fn entry_of(
    views: &[RankView],
    uses: &[HandleUses],
    object: Object,
    member: Member,
) -> Option<Stretch>
    ensures { result ≡ entry_of views.now uses.now object member }
{
    let handle = member.handle?;
    let stretch = handle_at(views, object, member.rank, handle)?;
    Some(stretch_of(is_only(uses, member.rank, handle), stretch))
}

/// By which numbers, over which calls, the members name an object of this sort.
fn entries_of(
    alloc: Global,
    views: &[RankView],
    uses: &[HandleUses],
    object: Object,
    members: &[Member],
) -> Result<Vec<Option<Stretch>>, AllocError>
    ensures { IfOk result (λ v. v.items ≡ map (entry_of views.now uses.now object) members.now) }
{
    let mut entries = Vec::new(alloc);
    for member in members {
        entries.push(entry_of(views, uses, object, *member))?;
    }
    Ok(entries)
}

/// The largest number of these handles, or the number given.
fn largest_in(number: u32, handles: &[Handle]) -> u32 {
    let mut largest = number;
    for handle in handles {
        largest = largest.max(handle.number);
    }
    largest
}

/// The largest number of any handle of any sort.
fn largest_number(world: u32, views: &[RankView]) -> u32 {
    let mut largest = world;
    for view in views {
        largest = largest_in(largest, &view.handles);
        largest = largest_in(largest, &view.windows.handles);
        largest = largest_in(largest, &view.files.handles);
    }
    largest
}

/// Whether it is the sort of communicators.
fn is_comm(object: Object) -> bool
    ensures { result ≡ is_comm object }
{
    match object {
        Object::Communicator => true,
        Object::Window | Object::File => false,
    }
}

/// The id that a communicator has by its number.
fn id_of(
    views: &[RankView],
    uses: &[HandleUses],
    owners: &IndexMap<u32, Owner>,
    at: usize,
    made: &Made,
) -> Option<u32>
    ensures { IfSome result (λ number. HasNumber views.now uses.now made.now number) }
{
    if !is_comm(made.object) {
        return None;
    }
    let number = common_number(views, uses, &made.members)?;
    if owners.get(&number).copied() == Some(Owner::One(at)) {
        Some(number)
    } else {
        None
    }
}

/// The world in a layout of so many ranks.
fn world_comm(alloc: Global, world: u32, ranks: u32) -> Result<Comm, AllocError>
    ensures { IfOk result (IsWorld world ranks) }
{
    Ok(Comm {
        id: world,
        object: Object::Communicator,
        members: first_places(alloc, ranks)?,
        remote_size: 0,
        numbers: Vec::new(alloc),
    })
}

/// A communicator of the layout by its number, where it has such an id, and else by this one, as windows and files.
fn written_comm(
    alloc: Global,
    views: &[RankView],
    uses: &AllUses,
    id: Option<u32>,
    other: u32,
    made: &Made,
) -> Result<Comm, AllocError>
    requires { IfSome id (λ number. HasNumber views.now uses.now.comms.items made.now number) }
    ensures { IfOk result (IsWrittenOf views.now uses.now made.now) }
{
    let object = made.object;
    let remote_size = made.remote_size;
    let members = copy_of(alloc, &made.ranks)?;
    match id {
        Some(id) => Ok(Comm {
            id,
            object,
            members,
            remote_size,
            numbers: Vec::new(alloc),
        }),
        None => Ok(Comm {
            id: other,
            object,
            members,
            remote_size,
            numbers: entries_of(alloc, views, uses_by(uses, object), object, &made.members)?,
        }),
    }
}

/// What is at these places as the layout has it, with the ids that communicators have by their numbers. Free ids begin
/// above this number.
#[tactic(auto, using(crate::proofs::Choices::written_none, crate::proofs::Choices::written_all))]
fn written_all(
    alloc: Global,
    largest: u32,
    views: &[RankView],
    uses: &AllUses,
    made: &[Made],
    named: &[Named],
    owners: &IndexMap<u32, Owner>,
) -> Result<Vec<Comm>, AllocError>
    requires { AreIn made.now named.now }
    ensures { IfOk result (λ comms. AreWrittenOf views.now uses.now made.now named.now comms.items) }
{
    let mut free = largest;
    let mut comms = Vec::new(alloc);
    for one in named {
        let one_made = &made[one.place];
        let id = id_of(views, &uses.comms, owners, one.place, one_made);
        if id.is_none() {
            free = free.saturating_add(1);
        }
        comms.push(written_comm(alloc, views, uses, id, free, one_made)?)?;
    }
    Ok(comms)
}

/// What the layout has but the world. Free ids begin above this number.
#[tactic(auto, using(crate::proofs::Choices::chosen_in))]
fn others(
    alloc: Global,
    choice: Choice,
    largest: u32,
    views: &[RankView],
    uses: &AllUses,
    made: &[Made],
) -> Result<Vec<Comm>, AllocError>
    ensures { IfOk result (λ comms. AreOthers choice views.now uses.now made.now comms.items) }
{
    let named = named_in(alloc, choice, uses, made)?;
    let owners = owners_of(alloc, views, made, &named)?;
    written_all(alloc, largest, views, uses, made, &named, &owners)
}

/// The communicators, windows and files of the layout, the world first.
#[tactic(auto, using(crate::proofs::Choices::is_written))]
pub(crate) fn written(
    alloc: Global,
    choice: Choice,
    world: u32,
    ranks: u32,
    views: &[RankView],
    uses: &AllUses,
    made: &[Made],
) -> Result<Vec<Comm>, AllocError>
    ensures { IfOk result (λ comms. IsWritten choice world ranks views.now uses.now made.now comms.items) }
{
    let largest = largest_number(world, views);
    let mut others = others(alloc, choice, largest, views, uses, made)?;
    let mut comms = Vec::new(alloc);
    comms.push(world_comm(alloc, world, ranks)?)?;
    comms.append(&mut others)?;
    Ok(comms)
}
