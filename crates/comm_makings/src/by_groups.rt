//! MPI_Comm_create_group: collective over a group, not over its parent (MPI 4.0, 7.4.2). The calls on one parent that
//! name one group with one tag match in their order: the k-th of each member is one making with the k-th of the others.

ghost use Rattle.std.specs.Prelude.{◌≡◌, ◌≤◌, ◌↔◌, [], IfOk, IfSome, IsTrue, OnOk, Some, length, map, nat_eq, slice_set};
ghost use Rattle.std.specs.List.{slice_get};
ghost use Rattle.std.specs.Option.{option_copied};
ghost use Rattle.indexmap.specs.IndexMap.{get};
ghost use Rattle.comm_makings.specs.ByGroups.{AddsCall, AreCounted, AreFound, AreOfCalls, AreOffersIn, AreOwnIn, AreSame, AreSameTo, AreSomeOf, IsFound, IsKnownOffer, IsListOn, IsSoundAt, IsTurnOf, key_of, part_at};
ghost use Rattle.comm_makings.specs.GroupKeys.{Times, key_with};
ghost use Rattle.comm_makings.specs.Derives.{tag_in};
ghost use Rattle.comm_makings.specs.Makes.{said_by};
ghost use Rattle.comm_makings.specs.Offers.{AreRanked};
ghost use Rattle.comm_makings.specs.State.{AreDerived, IsMadeOf, IsRun};

use crate::calls::{Making, RankCalls};
use crate::creates::{group_of, places_by_rank, places_of};
use crate::group_value::{GroupValue, waits_at};
use crate::handle::Gives;
use crate::here::{Here, here_at, is_unreadable, making_at, some_unknown};
use crate::outcomes::are_given;
use crate::part::Part;
use crate::run::{Run, made_of};
use crate::state::{Made, Member, comm_at, copy_of};
use crate::view::RankView;
use indexmap::IndexMap;
use std::alloc::{AllocError, Global};

/// A list of members and a tag of which nothing more is made.
#[derive(Drop)]
pub(crate) struct Over {
    ranks: Vec<u32>,
    tag: i32,
}

/// A call, with the members and the tag that it names.
#[derive(Clone, Copy)]
struct Offer<'a> {
    ranks: &'a [u32],
    tag: i32,
    /// How many calls of its rank on the parent name the same before it.
    turn: usize,
    /// The place of its rank in the parent.
    place: u32,
    here: Here,
    /// Whether it is read already.
    read: bool,
}

/// The calls on one parent.
#[derive(Drop)]
struct Offers<'a> {
    calls: Vec<Offer<'a>>,
    /// For each member, whether the group of its next call is not known yet.
    waits: Vec<bool>,
}

/// The tag that a call of MPI_Comm_create_group says.
fn tag_of(making: Option<&Making>) -> Option<i32>
    ensures { result ≡ said_by tag_in (option_copied making.entry) }
{
    match making? {
        Making::CreateGroup { tag, .. } => *tag,
        Making::Dup
        | Making::DupWithInfo
        | Making::Idup
        | Making::IdupWithInfo
        | Making::Split { .. }
        | Making::Create { .. }
        | Making::CartCreate { .. }
        | Making::CartSub { .. }
        | Making::GraphCreate { .. }
        | Making::DistGraphCreate { .. }
        | Making::DistGraphCreateAdjacent { .. } => None,
    }
}

/// Whether a call is read already, by its place in its rank's list.
fn is_read(read: &[Vec<bool>], rank: u32, at: usize) -> bool {
    match read.get(rank as usize) {
        Some(read) => match read.get(at) {
            Some(read) => *read,
            None => true,
        },
        None => true,
    }
}

/// A call of MPI_Comm_create_group whose group and tag are known.
#[derive(Clone, Copy)]
struct Named<'a> {
    ranks: &'a [u32],
    tag: i32,
    here: Here,
}

/// A call of MPI_Comm_create_group, as far as it is known.
enum Offered<'a> {
    Known(Named<'a>),
    /// Its group is not known yet.
    Waits,
    Unknown,
}

/// Whether the ranks of the group that a call names may become known.
fn group_waits(values: &[Vec<GroupValue>], here: Here) -> bool {
    match values.get(here.rank as usize) {
        Some(values) => waits_at(values, here.group),
        None => false,
    }
}

/// A call of a rank, where its group and tag are known.
fn offer_at<'a>(
    ranks: &[RankCalls],
    views: &[RankView],
    values: &'a [Vec<GroupValue>],
    comms: &'a [Made],
    rank: u32,
    at: usize,
) -> Offered<'a>
    ensures { IsKnownOffer ranks.now views.now values.now comms.now rank at result }
{
    let Some(here) = here_at(ranks, views, rank, at) else {
        return Offered::Unknown;
    };
    let Some(tag) = tag_of(making_at(ranks, rank, at)) else {
        return Offered::Unknown;
    };
    match group_of(values, comms, here) {
        Some(ranks) => Offered::Known(Named { ranks, tag, here }),
        None => {
            if group_waits(values, here) {
                Offered::Waits
            } else {
                Offered::Unknown
            }
        },
    }
}

/// Whether a call names the members and the tag of another.
fn is_with(offer: Offer<'_>, named: Named<'_>) -> bool
    ensures { IsTrue result ↔ ((offer.entry.ranks.now ≡ named.entry.ranks.now) × (offer.entry.tag ≡ named.entry.tag)) }
{
    offer.tag == named.tag && offer.ranks == named.ranks
}

/// How many of a member's calls name the members and the tag of this one: the last that does says how many do before
/// it.
#[tactic(auto, using(crate::proofs::Turns::times_no, crate::proofs::Turns::times_last))]
fn turn_of(own: &[Offer<'_>], named: Named<'_>) -> usize
    requires { AreCounted own.now }
    ensures { Times (key_with named.entry.ranks.now named.entry.tag) (map key_of own.now) result }
{
    let mut behind = own.len();
    while behind > 0 {
        let at = behind - 1;
        if is_with(own[at], named) {
            return own[at].turn + 1;
        }
        behind = at;
    }
    0
}

/// Adds a call of the member at this place of the parent to those before it.
fn add_call<'a>(
    own: &mut Vec<Offer<'a>>,
    named: Named<'a>,
    place: u32,
    read: bool,
) -> Result<(), AllocError>
    requires { AreCounted own.old.items }
    ensures { OnOk result (AddsCall own.old.items own.new.items named.entry place) }
{
    let turn = turn_of(own, named);
    own.push(Offer {
        ranks: named.ranks,
        tag: named.tag,
        turn,
        place,
        here: named.here,
        read,
    })?;
    Ok(())
}

/// The calls of a member, as far as their groups and tags are known, up to the first of which it isn't known what it
/// gives. Says whether a group is not known yet.
fn offer_all<'a>(
    ranks: &[RankCalls],
    views: &[RankView],
    run: &'a Run,
    member: Member,
    place: u32,
    own: &mut Vec<Offer<'a>>,
) -> Result<bool, AllocError>
    requires { own.old.items ≡ [] }
    ensures { OnOk result (AreOwnIn ranks.now views.now run.now member place own.new.items) }
{
    for at in calls_of(views, member) {
        match offer_at(ranks, views, &run.values, &run.comms, member.rank, *at) {
            Offered::Known(named) => {
                let read = is_read(&run.taken, member.rank, *at);
                add_call(own, named, place, read)?;
                if is_unreadable(named.here.gives) {
                    return Ok(false);
                }
            },
            Offered::Waits => return Ok(true),
            Offered::Unknown => return Ok(false),
        }
    }
    Ok(false)
}

/// The calls of MPI_Comm_create_group of a member on its handle: none where it has no handle.
fn calls_of(views: &[RankView], member: Member) -> &[usize]
    ensures { IsListOn views.now member result.now }
{
    match (views.get(member.rank as usize), member.handle) {
        (Some(view), Some(handle)) => match view.by_group.get(handle) {
            Some(calls) => calls,
            None => &[],
        },
        _ => &[],
    }
}

/// Adds the calls of the members, as far as they are known, and of each member whether a group is not known yet. At
/// last no group is waited for.
fn offer_members<'a>(
    alloc: Global,
    ranks: &[RankCalls],
    views: &[RankView],
    run: &'a Run,
    members: &[Member],
    last: bool,
    calls: &mut Vec<Offer<'a>>,
    waits: &mut Vec<bool>,
) -> Result<(), AllocError>
    requires { AreOffersIn ranks.now views.now run.now members.now calls.old.items }
    ensures { OnOk result (AreOffersIn ranks.now views.now run.now members.now calls.new.items) }
{
    for (at, member) in members.iter().enumerate() {
        if let Ok(place) = u32::try_from(at) {
            let mut own = Vec::new(alloc);
            let waited = offer_all(ranks, views, run, *member, place, &mut own)?;
            calls.append(&mut own)?;
            waits.push(waited && !last)?;
        }
    }
    Ok(())
}

/// The calls on a parent by their members, tag, turn and place. At last no group is waited for.
fn offers_of<'a>(
    alloc: Global,
    ranks: &[RankCalls],
    views: &[RankView],
    run: &'a Run,
    members: &[Member],
    last: bool,
) -> Result<Offers<'a>, AllocError>
    ensures { IfOk result (λ offers. AreOffersIn ranks.now views.now run.now members.now offers.calls.items) }
{
    let mut calls = Vec::new(alloc);
    let mut waits = Vec::new(alloc);
    offer_members(
        alloc, ranks, views, run, members, last, &mut calls, &mut waits,
    )?;
    calls.sort_by_key(|offer| (offer.ranks, offer.tag, offer.turn, offer.place))?;
    Ok(Offers { calls, waits })
}

/// Whether a call has the members, the tag and the turn of another.
fn is_same(offer: Offer<'_>, first: Offer<'_>) -> bool
    ensures { IsTrue result ↔ ((offer.entry.ranks.now ≡ first.entry.ranks.now) × (offer.entry.tag ≡ first.entry.tag) × (offer.entry.turn ≡ first.entry.turn)) }
{
    offer.ranks == first.ranks && offer.tag == first.tag && offer.turn == first.turn
}

/// How many calls at the front have the members, the tag and the turn of this one.
#[tactic(auto, using(crate::proofs::GroupCalls::same_more))]
fn same_length(calls: &[Offer<'_>], first: Offer<'_>) -> usize
    ensures within { result ≤ length calls.now }
    ensures same { AreSameTo calls.now first.entry.ranks.now first.entry.tag first.entry.turn result }
{
    for (at, offer) in calls.iter().enumerate() {
        if !is_same(*offer, first) {
            return at;
        }
    }
    calls.len()
}

/// The call of each place.
#[tactic(auto, using(crate::proofs::GroupCalls::of_calls_more))]
fn calls_by_place(
    alloc: Global,
    calls: &[Offer<'_>],
    members: usize,
) -> Result<Vec<Option<Here>>, AllocError>
    ensures { IfOk result (λ v. AreOfCalls calls.now v.items) }
{
    let mut all: Vec<Option<Here>> = vec![in alloc; None; members]?;
    for offer in calls {
        put(&mut all, offer.place as usize, Some(offer.here));
    }
    Ok(all)
}

/// The call of each of these places.
fn calls_at(
    alloc: Global,
    calls: &[Offer<'_>],
    places: &[u32],
    members: usize,
) -> Result<Vec<Option<Here>>, AllocError>
    ensures { IfOk result (λ v. AreOfCalls calls.now v.items) }
{
    let all = calls_by_place(alloc, calls, members)?;
    only_at(alloc, &all, places)
}

/// Sets what stands at this place, where the list has it.
fn put(all: &mut Vec<Option<Here>>, place: usize, here: Option<Here>)
    ensures { all.new.items ≡ slice_set all.old.items place here }
{
    if place < all.len() {
        all[place] = here;
    }
}

/// What stands at this place.
fn at_place(all: &[Option<Here>], place: usize) -> Option<Option<Here>>
    ensures { result ≡ slice_get all.now place }
{
    all.get(place).copied()
}

/// What stands at these places, and nothing at the others.
#[tactic(auto, using(crate::proofs::GroupCalls::some_none))]
fn only_at(
    alloc: Global,
    all: &[Option<Here>],
    places: &[u32],
) -> Result<Vec<Option<Here>>, AllocError>
    ensures { IfOk result (λ v. AreSomeOf all.now v.items) }
{
    let mut only: Vec<Option<Here>> = vec![in alloc; None; all.len()]?;
    for place in places {
        let place = *place as usize;
        if let Some(here) = at_place(all, place) {
            put(&mut only, place, here);
        }
    }
    Ok(only)
}

/// Whether a member without its call may still have one.
fn may_come(all: &[Option<Here>], places: &[u32], waits: &[bool]) -> bool {
    for place in places {
        if let (Some(None), Some(true)) = (all.get(*place as usize), waits.get(*place as usize)) {
            return true;
        }
    }
    false
}

/// Whether some member has its call.
fn some_here(all: &[Option<Here>]) -> bool {
    for here in all {
        if here.is_some() {
            return true;
        }
    }
    false
}

/// Whether one communicator is made of the calls, with the members at these places.
fn is_sound(alloc: Global, all: &[Option<Here>], places: &[u32]) -> Result<bool, AllocError>
    ensures { IfOk result (λ sound. IsTrue sound → IsSoundAt places.now all.now) }
{
    if some_unknown(all) {
        return Ok(false);
    }
    let parts = vec![in alloc; Part::new(copy_of(alloc, places)?, None)]?;
    let given = are_given(alloc, &parts, all, false)?;
    Ok(given)
}

/// Whether nothing more is made of these members and this tag.
fn is_over(over: &[Over], ranks: &[u32], tag: i32) -> bool {
    for key in over {
        if key.tag == tag && key.ranks.as_slice() == ranks {
            return true;
        }
    }
    false
}

/// What is found in the calls on one parent.
#[derive(Drop)]
pub(crate) struct Found {
    pub made: Vec<Made>,
    pub over: Vec<Over>,
    /// The calls that are read now: the rank, and the place in its list.
    pub read: Vec<(u32, usize)>,
    /// The handles that are left out: the rank, and the handle.
    pub left: Vec<(u32, usize)>,
    /// Whether the group of some call is not known yet.
    pub waits: bool,
}

/// Whether some call is read already.
fn some_read(calls: &[Offer<'_>]) -> bool {
    calls.iter().any(|offer| offer.read)
}

/// Notes that the calls are read of which a communicator was made.
fn note_read(
    calls: &[Offer<'_>],
    all: &[Option<Here>],
    read: &mut Vec<(u32, usize)>,
) -> Result<(), AllocError> {
    for offer in calls {
        if let Some(Some(here)) = all.get(offer.place as usize) {
            if here.call == offer.here.call {
                read.push((offer.here.rank, offer.here.at))?;
            }
        }
    }
    Ok(())
}

/// Notes that the calls are read, and that the handles which they give are left out, but for those that were read.
fn note_left(calls: &[Offer<'_>], found: &mut Found) -> Result<(), AllocError>
    ensures { found.new.made ≡ found.old.made }
{
    for offer in calls {
        if !offer.read {
            found.read.push((offer.here.rank, offer.here.at))?;
            if let Gives::Handle(handle) = offer.here.gives {
                found.left.push((offer.here.rank, handle))?;
            }
        }
    }
    Ok(())
}

/// Nothing more is made of these members and this tag.
fn end(
    alloc: Global,
    calls: &[Offer<'_>],
    ranks: &[u32],
    tag: i32,
    found: &mut Found,
) -> Result<(), AllocError>
    ensures { found.new.made ≡ found.old.made }
{
    note_left(calls, found)?;
    found.over.push(Over {
        ranks: copy_of(alloc, ranks)?,
        tag,
    })?;
    Ok(())
}

/// The communicator of the members at these places.
fn one_made(
    alloc: Global,
    members: &[Member],
    all: &[Option<Here>],
    places: &[u32],
) -> Result<Made, AllocError>
    ensures { IfOk result (IsMadeOf members.now all.now (part_at places.now)) }
{
    let part = Part::new(copy_of(alloc, places)?, None);
    made_of(alloc, members, all, &part)
}

/// What the calls of one turn make.
#[derive(Drop)]
enum Turn {
    /// A communicator, of these calls.
    Made { comm: Made, all: Vec<Option<Here>> },
    /// A call may still come, or none is there.
    Waits,
    Unsound,
}

/// The communicator of the calls of one turn, unless one of them waits.
fn turn_made(
    alloc: Global,
    parent: &Made,
    calls: &[Offer<'_>],
    places: &[u32],
    waits: &[bool],
) -> Result<Turn, AllocError>
    ensures { IfOk result (IsTurnOf calls.now parent.now.members.items places.now) }
{
    let all = calls_at(alloc, calls, places, parent.members.len())?;
    if may_come(&all, places, waits) || !some_here(&all) {
        return Ok(Turn::Waits);
    }
    if !is_sound(alloc, &all, places)? {
        return Ok(Turn::Unsound);
    }
    let comm = one_made(alloc, &parent.members, &all, places)?;
    Ok(Turn::Made { comm, all })
}

/// Reads the calls of one list of members, tag and turn, unless they are read or nothing more is made of these members
/// and this tag.
#[tactic(auto, using(crate::proofs::GroupCalls::found_none))]
fn read_turn(
    alloc: Global,
    parent: &Made,
    ranked: &IndexMap<u32, u32>,
    over: &[Over],
    calls: &[Offer<'_>],
    first: Offer<'_>,
    waits: &[bool],
    found: &mut Found,
) -> Result<Option<Made>, AllocError>
    requires same { AreSame calls.now first.ranks.now first.tag first.turn }
    requires ranked { AreRanked (get nat_eq ranked.now) parent.now.ranks.items }
    ensures made { IfOk result (λ made. IfSome made (IsFound calls.now parent.now.members.items parent.now.ranks.items)) }
    ensures kept { found.new.made ≡ found.old.made }
{
    if is_over(over, first.ranks, first.tag) || is_over(&found.over, first.ranks, first.tag) {
        note_left(calls, found)?;
        return Ok(None);
    }
    if some_read(calls) {
        return Ok(None);
    }
    let Some(places) = places_of(alloc, ranked, first.ranks)? else {
        end(alloc, calls, first.ranks, first.tag, found)?;
        return Ok(None);
    };
    match turn_made(alloc, parent, calls, &places, waits)? {
        Turn::Made { comm, all } => {
            note_read(calls, &all, &mut found.read)?;
            Ok(Some(comm))
        },
        Turn::Waits => Ok(None),
        Turn::Unsound => {
            end(alloc, calls, first.ranks, first.tag, found)?;
            Ok(None)
        },
    }
}

/// Nothing is found yet.
fn nothing_found(alloc: Global) -> Found
    ensures { result.made.items ≡ [] }
{
    Found {
        made: Vec::new(alloc),
        over: Vec::new(alloc),
        read: Vec::new(alloc),
        left: Vec::new(alloc),
        waits: false,
    }
}

/// Finds what the calls of each list of members, tag and turn make, one after the other.
#[tactic(auto, using(crate::proofs::GroupCalls::found_none, crate::proofs::GroupCalls::found_from, crate::proofs::GroupCalls::same_from))]
fn find_all(
    alloc: Global,
    parent: &Made,
    ranked: &IndexMap<u32, u32>,
    over: &[Over],
    calls: &[Offer<'_>],
    waits: &[bool],
    found: &mut Found,
) -> Result<(), AllocError>
    requires ranked { AreRanked (get nat_eq ranked.now) parent.now.ranks.items }
    requires none { found.old.made.items ≡ [] }
    ensures { OnOk result (AreFound calls.now parent.now.members.items parent.now.ranks.items found.new.made.items) }
{
    let mut at = 0;
    while at < calls.len() {
        let first = calls[at];
        let behind = at + 1;
        let end = behind + same_length(&calls[behind..], first);
        let same = &calls[at..end];
        if let Some(comm) = read_turn(alloc, parent, ranked, over, same, first, waits, found)? {
            found.made.push(comm)?;
        }
        at = end;
    }
    Ok(())
}

/// What the calls on one parent make, in the order of their members, tags and turns.
fn found_in(
    alloc: Global,
    parent: &Made,
    over: &[Over],
    calls: &[Offer<'_>],
    waits: &[bool],
) -> Result<Found, AllocError>
    ensures { IfOk result (λ found. AreFound calls.now parent.now.members.items parent.now.ranks.items found.made.items) }
{
    let ranked = places_by_rank(alloc, &parent.ranks)?;
    let mut found = nothing_found(alloc);
    find_all(alloc, parent, &ranked, over, calls, waits, &mut found)?;
    Ok(found)
}

/// Whether a member calls MPI_Comm_create_group on the communicator.
fn has_calls(views: &[RankView], comm: &Made) -> bool {
    for member in &comm.members {
        if !calls_of(views, *member).is_empty() {
            return true;
        }
    }
    false
}

/// The communicators that the calls of MPI_Comm_create_group on a parent make, as far as their groups are known.
#[tactic(auto, using(crate::proofs::Derivations::all_found, crate::proofs::Derivations::derived_none))]
pub(crate) fn found_at(
    alloc: Global,
    ranks: &[RankCalls],
    views: &[RankView],
    run: &Run,
    at: usize,
    last: bool,
) -> Result<Found, AllocError>
    requires { IsRun ranks.now views.now run.now }
    ensures { IfOk result (λ found. AreDerived ranks.now views.now found.made.items) }
{
    let Some(parent) = comm_at(&run.comms, at) else {
        return Ok(nothing_found(alloc));
    };
    let Some(over) = run.over.get(at) else {
        return Ok(nothing_found(alloc));
    };
    if !has_calls(views, parent) {
        return Ok(nothing_found(alloc));
    }
    let offers = offers_of(alloc, ranks, views, run, &parent.members, last)?;
    let mut found = found_in(alloc, parent, over, &offers.calls, &offers.waits)?;
    found.waits = offers.waits.iter().any(|waits| *waits);
    Ok(found)
}
