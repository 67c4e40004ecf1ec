//! MPI_Comm_create: the groups that the members give (MPI 4.0, 7.4.2).

ghost use Rattle.std.specs.Prelude.{◌≡◌, [], IfOk, IfSome, IsTrue, OnOk, Some, map, nat_eq, true};
ghost use Rattle.std.specs.Option.{option_copied};
ghost use Rattle.indexmap.specs.IndexMap.{get};
ghost use Rattle.comm_groups.specs.Groups.{has};
ghost use Rattle.comm_makings.specs.Offers.{AddsOffer, AreKnown, AreOfWanted, AreOfferedParts, AreOffersAt, AreRanked, AreWanted, IsKnown, group_of};
ghost use Rattle.comm_makings.specs.State.{IfParts};
ghost use Rattle.comm_makings.specs.declared.creates.Known.TheVariants as knowing;

use crate::group_value::{GroupValue, ranks_at, waits_at};
use crate::here::Here;
use crate::part::Part;
use crate::parts::Outcome;
use crate::state::{Made, copy_of};
use indexmap::IndexMap;
use std::alloc::{AllocError, Global};

/// A group that some member gives.
#[derive(Drop)]
struct Offer {
    ranks: Vec<u32>,
    /// Whether one of its own gives it.
    wanted: bool,
}

/// The groups that members give. Of any two that are kept none share a rank.
#[derive(Drop)]
struct Offers {
    groups: Vec<Offer>,
    /// The group of each rank that is in one.
    by_rank: IndexMap<u32, usize>,
}

/// The place of each member.
pub(crate) fn places_by_rank(
    alloc: Global,
    members: &[u32],
) -> Result<IndexMap<u32, u32>, AllocError>
    ensures { IfOk result (λ places. AreRanked (get nat_eq places) members.now) }
{
    let mut places = IndexMap::new(alloc);
    for (at, member) in members.iter().enumerate() {
        let Ok(place) = u32::try_from(at) else {
            return Ok(places);
        };
        places.insert(*member, place)?;
    }
    Ok(places)
}

/// The places of these ranks; `None` where one is no member.
pub(crate) fn places_of(
    alloc: Global,
    places: &IndexMap<u32, u32>,
    ranks: &[u32],
) -> Result<Option<Vec<u32>>, AllocError>
    ensures { IfOk result (λ found. IfSome found (λ v. map Some v.items ≡ map (get nat_eq places.now) ranks.now)) }
{
    let mut found = Vec::new(alloc);
    for rank in ranks {
        match places.get(rank) {
            Some(place) => found.push(*place)?,
            None => return Ok(None),
        }
    }
    Ok(Some(found))
}

/// Whether the rank is one of these.
fn has_rank(ranks: &[u32], rank: u32) -> bool
    ensures { IsTrue result → has ranks.now rank ≡ true }
{
    ranks.contains(&rank)
}

/// Whether it is the group of these ranks, in this order.
fn is_of(offer: &Offer, ranks: &[u32]) -> bool
    ensures { IsTrue result → offer.now.ranks.items ≡ ranks.now }
{
    offer.ranks.as_slice() == ranks
}

impl Offers {
    fn new(alloc: Global) -> Offers
        ensures { result.groups.items ≡ [] }
    {
        Offers {
            groups: Vec::new(alloc),
            by_rank: IndexMap::new(alloc),
        }
    }

    /// The groups that were given.
    fn into_groups(self) -> Vec<Offer>
        ensures { result.items ≡ self.groups.items }
    {
        let Offers { groups, by_rank } = self;
        drop(by_rank);
        groups
    }

    /// Notes whose group each of these ranks is in; `false` where one is in another.
    fn take(&mut self, ranks: &[u32], group: usize) -> Result<bool, AllocError>
        ensures { self.new.groups ≡ self.old.groups }
    {
        for rank in ranks {
            if self.by_rank.insert(*rank, group)?.is_some() {
                return Ok(false);
            }
        }
        Ok(true)
    }

    /// A rank gives a group that was given; `false` where it is another.
    #[tactic(auto, using(crate::proofs::OfferLemmas::adds_none))]
    fn repeat(&mut self, group: usize, rank: u32, ranks: &[u32]) -> bool
        ensures { AddsOffer self.old.groups.items self.new.groups.items rank ranks.now }
    {
        if group >= self.groups.len() {
            return false;
        }
        if !is_of(&self.groups[group], ranks) {
            return false;
        }
        if has_rank(ranks, rank) {
            self.groups[group].wanted = true;
        }
        true
    }

    /// A rank gives another group; `false` where one of its ranks is in a group that was given.
    #[tactic(auto, using(crate::proofs::OfferLemmas::adds_one))]
    fn begin(&mut self, alloc: Global, rank: u32, ranks: &[u32]) -> Result<bool, AllocError>
        ensures { OnOk result (AddsOffer self.old.groups.items self.new.groups.items rank ranks.now) }
    {
        let group = self.groups.len();
        self.groups.push(Offer {
            ranks: copy_of(alloc, ranks)?,
            wanted: has_rank(ranks, rank),
        })?;
        self.take(ranks, group)
    }

    /// Notes the group that a rank gives; `false` where it is neither equal to one before it nor apart from all.
    #[tactic(auto, using(crate::proofs::OfferLemmas::adds_none))]
    fn add(&mut self, alloc: Global, rank: u32, ranks: &[u32]) -> Result<bool, AllocError>
        ensures { OnOk result (AddsOffer self.old.groups.items self.new.groups.items rank ranks.now) }
    {
        let Some(first) = ranks.first() else {
            return Ok(true);
        };
        match self.by_rank.get(first) {
            Some(group) => {
                let group = *group;
                Ok(self.repeat(group, rank, ranks))
            },
            None => self.begin(alloc, rank, ranks),
        }
    }
}

/// Whether the groups are known that calls name.
enum Known {
    Yes,
    Waits,
    No,
}

/// The ranks of the group that a call names, where they are known.
pub(crate) fn group_of<'a>(
    values: &'a [Vec<GroupValue>],
    comms: &'a [Made],
    here: Here,
) -> Option<&'a [u32]>
    ensures { option_copied result ≡ group_of values.now comms.now here }
{
    ranks_at(values.get(here.rank as usize)?, comms, here.group)
}

/// Whether the group that a call names is known, or may become so. A call that isn't there names none.
fn knows(values: &[Vec<GroupValue>], comms: &[Made], here: Option<Here>) -> Known
    ensures { result ≡ knowing.Yes → IsKnown values.now comms.now here }
{
    let Some(here) = here else {
        return Known::Yes;
    };
    if group_of(values, comms, here).is_some() {
        return Known::Yes;
    }
    match values.get(here.rank as usize) {
        Some(values) => {
            if waits_at(values, here.group) {
                Known::Waits
            } else {
                Known::No
            }
        },
        None => Known::No,
    }
}

/// Whether all groups are known that the calls name: `Waits` where some may become so, and `No` where one can't.
fn knows_all(values: &[Vec<GroupValue>], comms: &[Made], all: &[Option<Here>]) -> Known
    ensures { result ≡ knowing.Yes → AreKnown values.now comms.now all.now }
{
    let mut waits = false;
    for here in all {
        match knows(values, comms, *here) {
            Known::Yes => {},
            Known::Waits => waits = true,
            Known::No => return Known::No,
        }
    }
    if waits { Known::Waits } else { Known::Yes }
}

impl Offers {
    /// Notes the groups that the calls name; `false` where two are neither equal nor apart.
    #[tactic(auto, using(crate::proofs::OfferLemmas::wanted_none))]
    fn add_all(
        &mut self,
        alloc: Global,
        values: &[Vec<GroupValue>],
        comms: &[Made],
        all: &[Option<Here>],
    ) -> Result<bool, AllocError>
        requires { self.old.groups.items ≡ [] }
        ensures { IfOk result (λ apart. IsTrue apart → AreWanted values.now comms.now all.now self.new.groups.items) }
    {
        for here in all {
            if let Some(here) = here {
                if let Some(ranks) = group_of(values, comms, *here) {
                    if !self.add(alloc, here.rank, ranks)? {
                        return Ok(false);
                    }
                }
            }
        }
        Ok(true)
    }
}

/// The groups that the calls name; `None` where two are neither equal nor apart.
fn offers_in(
    alloc: Global,
    values: &[Vec<GroupValue>],
    comms: &[Made],
    all: &[Option<Here>],
) -> Result<Option<Vec<Offer>>, AllocError>
    ensures { IfOk result (λ found. IfSome found (λ offers. AreWanted values.now comms.now all.now offers.items)) }
{
    let mut offers = Offers::new(alloc);
    match offers.add_all(alloc, values, comms, all) {
        Ok(true) => Ok(Some(offers.into_groups())),
        Ok(false) => {
            drop(offers);
            Ok(None)
        },
        Err(fault) => {
            drop(offers);
            Err(fault)
        },
    }
}

/// A communicator of each of these groups that one of its own gives, where this is the place of each member.
#[tactic(auto, using(crate::proofs::OfferLemmas::places_are))]
fn parts_at(
    alloc: Global,
    placed: &IndexMap<u32, u32>,
    offers: &[Offer],
) -> Result<Outcome, AllocError>
    ensures { IfOk result (AreOffersAt (get nat_eq placed.now) offers.now) }
{
    let mut parts = Vec::new(alloc);
    for offer in offers {
        match places_of(alloc, placed, &offer.ranks)? {
            None => return Ok(Outcome::Unsound),
            Some(places) => {
                if offer.wanted {
                    parts.push(Part::new(places, None))?;
                }
            },
        }
    }
    Ok(Outcome::Parts(parts))
}

/// A communicator of each group that one of its own gives.
fn offered_parts(alloc: Global, ranks: &[u32], offers: &[Offer]) -> Result<Outcome, AllocError>
    ensures { IfOk result (IfParts (AreOfferedParts ranks.now offers.now)) }
{
    let placed = places_by_rank(alloc, ranks)?;
    let parts = parts_at(alloc, &placed, offers);
    drop(placed);
    parts
}

/// The communicators of a MPI_Comm_create.
#[tactic(auto, using(crate::proofs::OfferLemmas::of_wanted))]
pub(crate) fn create_outcome(
    alloc: Global,
    values: &[Vec<GroupValue>],
    comms: &[Made],
    parent: &Made,
    all: &[Option<Here>],
) -> Result<Outcome, AllocError>
    ensures known { IfOk result (IfParts (λ parts. AreKnown values.now comms.now all.now)) }
    ensures made { IfOk result (IfParts (AreOfWanted values.now comms.now all.now parent.now.ranks.items)) }
{
    match knows_all(values, comms, all) {
        Known::Waits => Ok(Outcome::Waits),
        Known::No => Ok(Outcome::Unsound),
        Known::Yes => match offers_in(alloc, values, comms, all)? {
            Some(offers) => {
                let outcome = offered_parts(alloc, &parent.ranks, &offers)?;
                Ok(outcome)
            },
            None => Ok(Outcome::Unsound),
        },
    }
}
