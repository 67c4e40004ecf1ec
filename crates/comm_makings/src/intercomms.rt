//! Intercommunicators (MPI 4.0, 7.6.2): those of two groups whose leaders name each other, and what is made of one.

ghost use Rattle.std.specs.Prelude.{◌≡◌, ◌↔◌, ◌≤◌, ◌<◌, ◌^◌, ◌+◌, ◌-◌, ◌++◌, [], All, IfOk, IfSome, IsTrue, None, OnOk, Some, length};
ghost use Rattle.std.specs.List.{range_with_len};
ghost use Rattle.std.specs.Option.{option_and_then};
ghost use Rattle.comm_groups.specs.Groups.{intersection_of};
ghost use Rattle.comm_makings.specs.Derives.{comm_meant};
ghost use Rattle.comm_makings.specs.Intercomms.{AreOwnCalls, IsMergedOf, IsOwnCall, SaysHigh, SaysLeader, first_size, high_at, high_of, inter_function, inter_here_at, is_copy, leaders_at, leaders_of, own_here};
ghost use Rattle.comm_makings.specs.Makes.{IsOneMaking};
ghost use Rattle.comm_makings.specs.Offering.{Answer, Asks, IfJoined, IfMerged, IsInterOf, IsMadeByMerge, IsOffer, IsOffered, IsPlace, MakesOfInter, SayAlike, rank_at};
ghost use Rattle.comm_makings.specs.Parts.{IsOne};
ghost use Rattle.comm_makings.specs.State.{AreDerived, AreMembers, IfParts, IsDerivedInter, standing_at};

use crate::answer::MadeBy;
use crate::calls::{Action, Leaders, RankCalls};
use crate::grids::told_order;
use crate::here::{
    Here, all_kth, call_at, first_of, gives_later, have_function, meant_at, some_unknown,
};
use crate::outcomes::{are_given, are_readable};
use crate::part::Part;
use crate::parts::{Outcome, first_part, first_places, one_part};
use crate::run::made_of;
use crate::state::{HandleState, Made, Member, comm_at};
use crate::view::RankView;
use std::alloc::{AllocError, Global};
use std::collections::{BTreeMap, VecDeque};

/// A call by which the leader of a group offers to join it with another leader's.
#[derive(Clone, Copy)]
pub(crate) struct Offer {
    pub rank: u32,
    /// The place of the call in the rank's list.
    pub at: usize,
    /// The place of the group's communicator among the derived ones.
    pub local: usize,
    /// The place of the communicator that has both leaders.
    pub bridge: usize,
    /// The other leader, as a rank of the run.
    pub other: u32,
    pub tag: i32,
}

/// What a call of MPI_Intercomm_create is to other groups.
#[derive(Clone, Copy)]
pub(crate) enum Offered {
    Offers(Offer),
    /// It is no leader's, or one of its communicators is left out.
    Nothing,
    /// One of its communicators is not derived yet.
    Waits,
    Unknown,
}

/// The offers that none has answered yet, by bridge, tag, leader and other leader: each a rank and the place of its
/// call.
pub(crate) type OpenOffers = BTreeMap<(usize, i32, u32, u32), VecDeque<(u32, usize)>>;

/// Where the derived communicator of a handle stands.
#[derive(Clone, Copy)]
enum Place {
    At(usize),
    Left,
    Waits,
    Unknown,
}

/// What an action says of the leaders, where it joins two groups.
fn leaders_of(action: &Action) -> Option<Leaders>
    ensures { result ≡ leaders_of action.now }
{
    match action {
        Action::Join { leaders, .. } => Some(*leaders),
        Action::Make { .. }
        | Action::CommRank { .. }
        | Action::Free { .. }
        | Action::Group { .. }
        | Action::Merge { .. }
        | Action::GivesComm { .. }
        | Action::MakeObject { .. }
        | Action::EndObject { .. } => None,
    }
}

/// What a call of a rank says of the leaders.
fn leaders_at(ranks: &[RankCalls], rank: u32, at: usize) -> Option<Leaders>
    ensures { result ≡ leaders_at ranks.now rank at }
{
    leaders_of(&call_at(ranks, rank as usize, at)?.action)
}

/// How a handle of a rank stands, where a call names one.
fn standing_of(
    standings: &[Vec<HandleState>],
    rank: u32,
    handle: Option<usize>,
) -> Option<HandleState>
    ensures { result ≡ option_and_then (standing_at standings.now rank) handle }
{
    let handle = handle?;
    standings.get(rank as usize)?.get(handle).copied()
}

/// Where the derived communicator of a handle stands that stands so. An intercommunicator joins no groups.
fn place_of(standing: Option<HandleState>) -> Place
    ensures { IsPlace standing result }
{
    match standing {
        None => Place::Unknown,
        Some(HandleState::Open) => Place::Waits,
        Some(HandleState::Derived(place)) => Place::At(place),
        Some(HandleState::Inter { .. }) => Place::Left,
        Some(HandleState::Left(_)) => Place::Left,
    }
}

/// The rank in the run of a rank of the derived communicator at a place.
fn rank_at(comms: &[Made], place: usize, rank: u32) -> Option<u32>
    ensures { result ≡ rank_at comms.now place rank }
{
    comms.get(place)?.ranks.get(rank as usize).copied()
}

/// Whether a rank of the derived communicator at a place is this one of the run.
fn leads(comms: &[Made], place: usize, leader: u32, rank: u32) -> bool
    ensures { IsTrue result → rank_at comms.now place leader ≡ Some rank }
{
    match rank_at(comms, place, leader) {
        Some(found) => found == rank,
        None => false,
    }
}

/// The other leader that a call names over the derived communicator at a place, as a rank of the run, and the tag.
#[tactic(auto, using(crate::proofs::Joins::asks_so))]
fn asked(comms: &[Made], bridge: usize, leaders: Leaders) -> Option<(u32, i32)>
    ensures { IfSome result (Asks comms.now bridge leaders) }
{
    let other = rank_at(comms, bridge, leaders.other?)?;
    Some((other, leaders.tag?))
}

/// What a call of MPI_Intercomm_create is to other groups. What it says of the other leader counts only where it is by
/// the leader of its own group.
#[tactic(auto, using(crate::proofs::Joins::offers_so))]
pub(crate) fn offer_at(
    ranks: &[RankCalls],
    views: &[RankView],
    standings: &[Vec<HandleState>],
    comms: &[Made],
    rank: u32,
    at: usize,
) -> Offered
    ensures { IsOffered ranks.now views.now standings.now comms.now rank at result }
{
    let Some(leaders) = leaders_at(ranks, rank, at) else {
        return Offered::Unknown;
    };
    let Some(own) = leaders.own else {
        return Offered::Unknown;
    };
    let Some(meant) = meant_at(views, rank as usize, at) else {
        return Offered::Unknown;
    };
    match place_of(standing_of(standings, rank, meant.comm)) {
        Place::Unknown => Offered::Unknown,
        Place::Waits => Offered::Waits,
        Place::Left => Offered::Nothing,
        Place::At(local) => {
            if !leads(comms, local, own, rank) {
                return Offered::Nothing;
            }
            match place_of(standing_of(standings, rank, meant.bridge)) {
                Place::Unknown => Offered::Unknown,
                Place::Waits => Offered::Waits,
                Place::Left => Offered::Nothing,
                Place::At(bridge) => match asked(comms, bridge, leaders) {
                    Some((other, tag)) => Offered::Offers(Offer {
                        rank,
                        at,
                        local,
                        bridge,
                        other,
                        tag,
                    }),
                    None => Offered::Unknown,
                },
            }
        },
    }
}

/// Keeps an offer to be answered, behind those of the same leaders, bridge and tag.
fn keep(alloc: Global, open: &mut OpenOffers, offer: Offer) -> Result<(), AllocError> {
    let key = (offer.bridge, offer.tag, offer.rank, offer.other);
    if let Some(kept) = open.get_mut(&key) {
        kept.push_back((offer.rank, offer.at))?;
        return Ok(());
    }
    let mut kept = VecDeque::new(alloc);
    kept.push_back((offer.rank, offer.at))?;
    open.insert(key, kept)?;
    Ok(())
}

/// The first offer that this one answers, which is kept no longer; where there is none, this one is kept. Since the
/// k-th of a leader answers the k-th of the other one, only one of the two has offers that are kept.
pub(crate) fn answered(
    alloc: Global,
    open: &mut OpenOffers,
    offer: Offer,
) -> Result<Option<(u32, usize)>, AllocError> {
    if let Some(kept) = open.get_mut(&(offer.bridge, offer.tag, offer.other, offer.rank)) {
        if let Some(first) = kept.pop_front() {
            return Ok(Some(first));
        }
    }
    keep(alloc, open, offer)?;
    Ok(None)
}

/// Whether two offers answer each other.
pub(crate) fn answer(one: Offer, other: Offer) -> bool
    ensures { IsTrue result → Answer one other }
{
    one.other == other.rank
        && other.other == one.rank
        && one.bridge == other.bridge
        && one.tag == other.tag
}

/// The function of a call that joins or merges two groups.
fn inter_function(action: &Action) -> Option<MadeBy>
    ensures { result ≡ inter_function action.now }
{
    match action {
        Action::Join { .. } => Some(MadeBy::IntercommCreate),
        Action::Merge { .. } => Some(MadeBy::IntercommMerge),
        Action::Make { .. }
        | Action::CommRank { .. }
        | Action::Free { .. }
        | Action::Group { .. }
        | Action::GivesComm { .. }
        | Action::MakeObject { .. }
        | Action::EndObject { .. } => None,
    }
}

/// The call of a rank that joins or merges two groups, at this place of its list.
fn inter_here_at(ranks: &[RankCalls], views: &[RankView], rank: u32, at: usize) -> Option<Here>
    ensures { result ≡ inter_here_at ranks.now views.now rank at }
{
    let call = call_at(ranks, rank as usize, at)?;
    let function = inter_function(&call.action)?;
    let meant = meant_at(views, rank as usize, at)?;
    Some(Here {
        rank,
        at,
        call: call.call,
        function,
        gives: meant.gives,
        group: meant.group,
    })
}

/// The handle that a call of a rank names.
fn comm_meant(views: &[RankView], rank: u32, at: usize) -> Option<usize>
    ensures { result ≡ comm_meant views.now rank at }
{
    meant_at(views, rank as usize, at)?.comm
}

/// The call of a member at this place of its list, where it joins or merges groups of the member's handle.
fn own_here(ranks: &[RankCalls], views: &[RankView], member: Member, at: usize) -> Option<Here>
    ensures { result ≡ own_here ranks.now views.now member at }
{
    let handle = member.handle?;
    let named = comm_meant(views, member.rank, at)?;
    if named == handle {
        inter_here_at(ranks, views, member.rank, at)
    } else {
        None
    }
}

/// The places of the calls of a member that join the group of its handle with another, or merge its two groups.
fn own_places(views: &[RankView], member: Member, merges: bool) -> &[usize] {
    let (Some(view), Some(handle)) = (views.get(member.rank as usize), member.handle) else {
        return &[];
    };
    let lists = if merges { &view.merges } else { &view.joins };
    match lists.get(handle) {
        Some(list) => list,
        None => &[],
    }
}

/// The k-th such call of a member.
#[tactic(auto, using(crate::proofs::Joins::own_there))]
fn own_call(
    ranks: &[RankCalls],
    views: &[RankView],
    member: Member,
    k: usize,
    merges: bool,
) -> Option<Here>
    ensures { IfSome result (IsOwnCall ranks.now views.now member) }
{
    let at = own_places(views, member, merges).get(k).copied()?;
    own_here(ranks, views, member, at)
}

/// Adds the k-th such call of each member.
#[tactic(auto, using(crate::proofs::Joins::own_more))]
fn add_own_calls(
    ranks: &[RankCalls],
    views: &[RankView],
    members: &[Member],
    k: usize,
    merges: bool,
    all: &mut Vec<Option<Here>>,
) -> Result<(), AllocError>
    requires { all.old.items ≡ [] }
    ensures calls { OnOk result (AreOwnCalls ranks.now views.now members.now all.new.items) }
    ensures each { OnOk result (length all.new.items ≡ length members.now) }
{
    for member in members {
        all.push(own_call(ranks, views, *member, k, merges))?;
    }
    Ok(())
}

/// The k-th such call of each member.
pub(crate) fn own_calls(
    alloc: Global,
    ranks: &[RankCalls],
    views: &[RankView],
    members: &[Member],
    k: usize,
    merges: bool,
) -> Result<Vec<Option<Here>>, AllocError>
    ensures calls { IfOk result (λ v. AreOwnCalls ranks.now views.now members.now v.items) }
    ensures each { IfOk result (λ v. length v.items ≡ length members.now) }
{
    let mut all = Vec::new(alloc);
    add_own_calls(ranks, views, members, k, merges, &mut all)?;
    Ok(all)
}

/// How many calls merge the groups of an intercommunicator, of the member that has most.
pub(crate) fn most_merges(views: &[RankView], inter: &Made) -> usize {
    let mut most = 0;
    for member in &inter.members {
        most = most.max(own_places(views, *member, true).len());
    }
    most
}

/// Which of the calls of its rank that join the group of its handle an offer is, found by halves.
fn number_of(views: &[RankView], offer: Offer) -> Option<usize> {
    let view = views.get(offer.rank as usize)?;
    let handle = comm_meant(views, offer.rank, offer.at)?;
    view.joins.get(handle)?.binary_search(&offer.at).ok()
}

/// The call names this leader, where it is there.
fn says_leader(ranks: &[RankCalls], leader: u32, here: Option<Here>) -> bool
    ensures { IsTrue result ↔ SaysLeader ranks.now leader here }
{
    match here {
        Some(here) => match leaders_at(ranks, here.rank, here.at) {
            Some(leaders) => leaders.own == Some(leader),
            None => false,
        },
        None => true,
    }
}

/// The leader of its own group that a call names.
fn own_leader(ranks: &[RankCalls], offer: Offer) -> Option<u32>
    ensures { result ≡ option_and_then (λ l. l.own) (leaders_at ranks.now offer.rank offer.at) }
{
    leaders_at(ranks, offer.rank, offer.at)?.own
}

/// Whether all calls of a group name this leader.
fn say_leader(ranks: &[RankCalls], leader: u32, all: &[Option<Here>]) -> bool
    ensures { IsTrue result → All (SaysLeader ranks.now leader) all.now }
{
    all.iter().all(|here| says_leader(ranks, leader, *here))
}

/// Whether all calls of a group name the leader that an offer names.
fn say_alike(ranks: &[RankCalls], offer: Offer, all: &[Option<Here>]) -> bool
    ensures { IsTrue result → SayAlike ranks.now offer all.now }
{
    match own_leader(ranks, offer) {
        Some(leader) => say_leader(ranks, leader, all),
        None => false,
    }
}

/// Two lists, one behind the other.
fn behind<T: Copy>(alloc: Global, first: &[T], second: &[T]) -> Result<Vec<T>, AllocError>
    ensures { IfOk result (λ v. v.items ≡ first.now ++ second.now) }
{
    let mut both = Vec::new(alloc);
    both.extend_from_slice(first)?;
    both.extend_from_slice(second)?;
    Ok(both)
}

/// Whether no rank is in both groups.
fn are_apart(alloc: Global, first: &Made, second: &Made) -> Result<bool, AllocError>
    ensures { IfOk result (λ apart. IsTrue apart → intersection_of first.now.ranks.items second.now.ranks.items ≡ []) }
{
    let both = comm_groups::intersection(alloc, &first.ranks, &second.ranks)?;
    Ok(both.is_empty())
}

/// What two offers make that answer each other.
#[derive(Drop)]
pub(crate) enum Joined {
    Inter(Made),
    /// These calls agree in too little: what they give is left out.
    Left(Vec<Option<Here>>),
}

/// The intercommunicator of these members, the second group of which are so many, where their calls give it.
fn inter_of(
    alloc: Global,
    members: &[Member],
    all: &[Option<Here>],
    remote_size: usize,
    later: bool,
) -> Result<Option<Made>, AllocError>
    ensures { IfOk result (λ o. IfSome o (IsInterOf members.now all.now remote_size later)) }
{
    let Ok(count) = u32::try_from(members.len()) else {
        return Ok(None);
    };
    let parts = vec![in alloc; Part::new(first_places(alloc, count)?, None)]?;
    if !are_given(alloc, &parts, all, later)? {
        return Ok(None);
    }
    let mut made = made_of(alloc, members, all, &parts[0])?;
    made.remote_size = remote_size;
    Ok(Some(made))
}

/// Whether the calls are one making of this function: those that are there call it, and what they give can be read.
#[tactic(auto, using(crate::proofs::Derivations::one_making))]
fn are_one(all: &[Option<Here>], function: MadeBy) -> bool
    ensures { IsTrue result → IsOneMaking function all.now }
{
    match first_of(all) {
        Some(first) => first.function == function
            && have_function(all, function)
            && are_readable(all, gives_later(function)),
        None => false,
    }
}

/// The calls by which the members of an offer's communicator join its group with another.
fn calls_of(
    alloc: Global,
    ranks: &[RankCalls],
    views: &[RankView],
    comm: &Made,
    offer: Offer,
) -> Result<Vec<Option<Here>>, AllocError>
    ensures calls { IfOk result (λ v. AreOwnCalls ranks.now views.now comm.now.members.items v.items) }
    ensures each { IfOk result (λ v. length v.items ≡ length comm.now.members.items) }
{
    let k = number_of(views, offer).unwrap_or(usize::MAX);
    own_calls(alloc, ranks, views, &comm.members, k, false)
}

/// What two offers make that answer each other: an intercommunicator of the two local groups, if all calls of each group
/// name one leader, no rank is in both, and the calls give it.
#[tactic(auto, using(crate::proofs::Joins::joined_derives))]
pub(crate) fn join_groups(
    alloc: Global,
    ranks: &[RankCalls],
    views: &[RankView],
    standings: &[Vec<HandleState>],
    comms: &[Made],
    one: Offer,
    other: Offer,
) -> Result<Joined, AllocError>
    requires comms { AreDerived ranks.now views.now comms.now }
    requires members { AreMembers comms.now standings.now }
    requires one { IsOffer ranks.now views.now standings.now comms.now one }
    requires other { IsOffer ranks.now views.now standings.now comms.now other }
    requires answer { Answer one other }
    ensures { IfOk result (IfJoined (IsDerivedInter ranks.now views.now)) }
{
    let Some(first) = comm_at(comms, one.local) else {
        return Ok(Joined::Left(Vec::new(alloc)));
    };
    let Some(second) = comm_at(comms, other.local) else {
        return Ok(Joined::Left(Vec::new(alloc)));
    };
    let of_one = calls_of(alloc, ranks, views, first, one)?;
    let of_other = calls_of(alloc, ranks, views, second, other)?;
    let all = behind(alloc, &of_one, &of_other)?;
    if !say_alike(ranks, one, &of_one) || !say_alike(ranks, other, &of_other) {
        return Ok(Joined::Left(all));
    }
    if !are_one(&all, MadeBy::IntercommCreate) || !are_apart(alloc, first, second)? {
        return Ok(Joined::Left(all));
    }
    let members = behind(alloc, &first.members, &second.members)?;
    match inter_of(alloc, &members, &all, second.members.len(), false)? {
        Some(inter) => Ok(Joined::Inter(inter)),
        None => Ok(Joined::Left(all)),
    }
}

/// How many members the first group of an intercommunicator has.
pub(crate) fn first_size(inter: &Made) -> usize
    ensures value { result ≡ first_size inter.now.members.items inter.now.remote_size }
    ensures within { result ≤ length inter.now.members.items }
{
    inter.members.len().saturating_sub(inter.remote_size)
}

/// What the calls of an intercommunicator's members make of it.
#[derive(Drop)]
pub(crate) enum OfInter {
    Inter(Made),
    Comm(Made),
    /// Nothing is made, or it can't be said what.
    Untold,
    Unsound,
}

/// Whether the function makes a duplicate.
fn is_copy(function: MadeBy) -> bool
    ensures { result ≡ is_copy function }
{
    match function {
        MadeBy::Dup | MadeBy::DupWithInfo | MadeBy::Idup | MadeBy::IdupWithInfo => true,
        MadeBy::Split
        | MadeBy::Create
        | MadeBy::CreateGroup
        | MadeBy::CartCreate
        | MadeBy::CartSub
        | MadeBy::GraphCreate
        | MadeBy::DistGraphCreate
        | MadeBy::DistGraphCreateAdjacent
        | MadeBy::IntercommCreate
        | MadeBy::IntercommMerge
        | MadeBy::Other(_) => false,
    }
}

/// What the k-th of the calls of an intercommunicator's members make of it that make communicators of the members of
/// another: a duplicate of the same groups, or nothing.
#[tactic(auto, using(crate::proofs::Joins::copy_derives))]
pub(crate) fn copied_of(
    alloc: Global,
    ranks: &[RankCalls],
    views: &[RankView],
    inter: &Made,
    k: usize,
) -> Result<OfInter, AllocError>
    requires { IsDerivedInter ranks.now views.now inter.now }
    ensures { IfOk result (MakesOfInter ranks.now views.now) }
{
    let all = all_kth(alloc, ranks, views, &inter.members, k)?;
    let Some(first) = first_of(&all) else {
        return Ok(OfInter::Untold);
    };
    if !are_one(&all, first.function) {
        return Ok(OfInter::Unsound);
    }
    if !is_copy(first.function) {
        return Ok(OfInter::Untold);
    }
    let later = gives_later(first.function);
    match inter_of(alloc, &inter.members, &all, inter.remote_size, later)? {
        Some(copy) => Ok(OfInter::Inter(copy)),
        None => Ok(OfInter::Unsound),
    }
}

/// Whether a call says that its group comes behind the other.
fn high_of(action: &Action) -> Option<bool>
    ensures { result ≡ high_of action.now }
{
    match action {
        Action::Merge { high, .. } => *high,
        Action::Make { .. }
        | Action::CommRank { .. }
        | Action::Free { .. }
        | Action::Group { .. }
        | Action::Join { .. }
        | Action::GivesComm { .. }
        | Action::MakeObject { .. }
        | Action::EndObject { .. } => None,
    }
}

/// The same of a call of a rank.
fn high_at(ranks: &[RankCalls], rank: u32, at: usize) -> Option<bool>
    ensures { result ≡ high_at ranks.now rank at }
{
    high_of(&call_at(ranks, rank as usize, at)?.action)
}

/// The call says so of its group, where it is there.
fn says_high(ranks: &[RankCalls], high: bool, here: Option<Here>) -> bool
    ensures { IsTrue result ↔ SaysHigh ranks.now high here }
{
    match here {
        Some(here) => high_at(ranks, here.rank, here.at) == Some(high),
        None => true,
    }
}

/// What the calls of a group say of it, where all say the same.
fn agreed_high(ranks: &[RankCalls], all: &[Option<Here>]) -> Option<bool>
    ensures { IfSome result (λ high. All (SaysHigh ranks.now high) all.now) }
{
    let first = first_of(all)?;
    let high = high_at(ranks, first.rank, first.at)?;
    if all.iter().all(|here| says_high(ranks, high, *here)) {
        Some(high)
    } else {
        None
    }
}

/// So many places from this one on.
fn places_from(alloc: Global, first: u32, count: u32) -> Result<Vec<u32>, AllocError>
    requires { first + count < 2 ^ 32 }
    ensures { IfOk result (λ v. v.items ≡ range_with_len first count) }
{
    let mut places = Vec::new(alloc);
    for i in 0..count {
        places.push(first + i)?;
    }
    Ok(places)
}

/// All members, those of the second group first.
fn second_first(alloc: Global, size: u32, members: u32) -> Result<Outcome, AllocError>
    requires { size ≤ members }
    ensures { IfOk result (IsOne (range_with_len size (members - size) ++ range_with_len 0 size) None) }
{
    let second = places_from(alloc, size, members - size)?;
    let first = first_places(alloc, size)?;
    one_part(alloc, behind(alloc, &second, &first)?, None)
}

/// The merged members, of which the first so many are the first group, by what the calls of both groups say: where they
/// say the same, the implementation chose the order, which MPI_Comm_rank tells (MPI 4.0, 7.6.2).
fn merge_outcome(
    alloc: Global,
    views: &[RankView],
    all: &[Option<Here>],
    size: u32,
    members: u32,
    first: bool,
    second: bool,
) -> Result<Outcome, AllocError>
    requires within { size ≤ members }
    requires members { members ≡ length all.now }
    ensures { IfOk result (IfParts (IsMergedOf views.now all.now size first second)) }
{
    if first {
        if second {
            told_order(alloc, views, all)
        } else {
            second_first(alloc, size, members)
        }
    } else if second {
        first_part(alloc, members, None)
    } else {
        told_order(alloc, views, all)
    }
}

/// The communicator that the calls of both groups make, where they give it.
#[tactic(auto, using(crate::proofs::Joins::made_by_merge))]
fn merged_by(
    alloc: Global,
    inter: &Made,
    all: &[Option<Here>],
    outcome: Outcome,
) -> Result<OfInter, AllocError>
    ensures { IfOk result (IfMerged (IsMadeByMerge inter.now.members.items all.now outcome)) }
{
    match outcome {
        Outcome::Parts(parts) => match parts.first() {
            Some(part) => {
                if !are_given(alloc, &parts, all, false)? {
                    return Ok(OfInter::Unsound);
                }
                Ok(OfInter::Comm(made_of(alloc, &inter.members, all, part)?))
            },
            None => Ok(OfInter::Untold),
        },
        Outcome::Untold => Ok(OfInter::Untold),
        Outcome::Unsound => Ok(OfInter::Unsound),
        Outcome::Waits => Ok(OfInter::Unsound),
    }
}

/// What these calls of an intercommunicator's members make of it that merge its groups, the first of which has so many
/// members.
#[tactic(auto, using(crate::proofs::Joins::merge_derives))]
fn merged_in(
    alloc: Global,
    ranks: &[RankCalls],
    views: &[RankView],
    inter: &Made,
    all: &[Option<Here>],
    size: usize,
) -> Result<OfInter, AllocError>
    requires inter { IsDerivedInter ranks.now views.now inter.now }
    requires calls { AreOwnCalls ranks.now views.now inter.now.members.items all.now }
    requires size { size ≡ first_size inter.now.members.items inter.now.remote_size }
    requires within { size ≤ length all.now }
    ensures { IfOk result (MakesOfInter ranks.now views.now) }
{
    let (first, second) = (&all[..size], &all[size..]);
    if first_of(first).is_none() || first_of(second).is_none() {
        return Ok(OfInter::Untold);
    }
    let Ok(members) = u32::try_from(all.len()) else {
        return Ok(OfInter::Unsound);
    };
    if !are_one(all, MadeBy::IntercommMerge) {
        return Ok(OfInter::Unsound);
    }
    let Some(one) = agreed_high(ranks, first) else {
        return Ok(OfInter::Unsound);
    };
    let Some(other) = agreed_high(ranks, second) else {
        return Ok(OfInter::Unsound);
    };
    let outcome = merge_outcome(alloc, views, all, size as u32, members, one, other)?;
    merged_by(alloc, inter, all, outcome)
}

/// What the k-th of the calls of an intercommunicator's members make of it that merge its groups.
pub(crate) fn merged_of(
    alloc: Global,
    ranks: &[RankCalls],
    views: &[RankView],
    inter: &Made,
    k: usize,
) -> Result<OfInter, AllocError>
    requires { IsDerivedInter ranks.now views.now inter.now }
    ensures { IfOk result (MakesOfInter ranks.now views.now) }
{
    let all = own_calls(alloc, ranks, views, &inter.members, k, true)?;
    merged_in(alloc, ranks, views, inter, &all, first_size(inter))
}
