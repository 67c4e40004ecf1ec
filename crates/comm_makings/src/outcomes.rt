//! What one making makes.

ghost use Rattle.std.specs.Prelude.{◌≡◌, ◌||◌, IfOk, IsTrue, Some, false, slice_set, true};
ghost use Rattle.std.specs.List.{list_any};
ghost use Rattle.comm_groups.specs.Groups.{has};
ghost use Rattle.comm_makings.specs.Each.{EachBecomes, EachIs};
ghost use Rattle.comm_makings.specs.Here.{gives_unknown};
ghost use Rattle.comm_makings.specs.Makes.{AreGiven, AreGivenBy, IsMadeBy, IsOneMaking, gives_so, is_covered, is_given_so};
ghost use Rattle.comm_makings.specs.State.{AreAllDerivedGroups, IfParts, IsDerivedComm, IsDerivedOutcome, dims_of, parts_in};
ghost use Rattle.comm_makings.specs.declared.answer.MadeBy.TheVariants as functions;

use crate::answer::MadeBy;
use crate::calls::RankCalls;
use crate::creates::create_outcome;
use crate::grids::{cart_outcome, cart_sub_outcome, dist_graph_outcome, graph_outcome};
use crate::group_value::GroupValue;
use crate::handle::Gives;
use crate::here::{Here, first_of, gives_later, have_function, some_unknown};
use crate::part::Part;
use crate::parts::{Outcome, first_part};
use crate::splits::split_outcome;
use crate::state::{Made, dims_of};
use crate::view::RankView;
use std::alloc::{AllocError, Global};

/// What the calls of a function make that takes no groups.
fn outcome_of(
    alloc: Global,
    ranks: &[RankCalls],
    views: &[RankView],
    parent: &Made,
    all: &[Option<Here>],
    function: MadeBy,
) -> Result<Outcome, AllocError>
    ensures { IfOk result (IfParts (IsMadeBy ranks.now views.now (dims_of parent.now) all.now function)) }
{
    let Ok(members) = u32::try_from(all.len()) else {
        return Ok(Outcome::Unsound);
    };
    match function {
        MadeBy::Dup | MadeBy::DupWithInfo | MadeBy::Idup | MadeBy::IdupWithInfo => {
            first_part(alloc, members, dims_of(alloc, &parent.dims)?)
        },
        MadeBy::Split => split_outcome(alloc, ranks, all),
        MadeBy::CartCreate => cart_outcome(alloc, ranks, views, all, members),
        MadeBy::CartSub => cart_sub_outcome(alloc, ranks, parent, all, members),
        MadeBy::GraphCreate => graph_outcome(alloc, ranks, views, all, members),
        MadeBy::DistGraphCreate | MadeBy::DistGraphCreateAdjacent => {
            dist_graph_outcome(alloc, ranks, views, all, members)
        },
        MadeBy::Create
        | MadeBy::CreateGroup
        | MadeBy::IntercommCreate
        | MadeBy::IntercommMerge
        | MadeBy::Other(_) => Ok(Outcome::Unsound),
    }
}

/// For each place whether it is in a communicator that is made.
fn covered(alloc: Global, parts: &[Part], count: usize) -> Result<Vec<bool>, AllocError>
    ensures { IfOk result (λ v. EachIs v.items (is_covered parts.now)) }
{
    let mut covered = vec![in alloc; false; count]?;
    cover_all(&mut covered, parts);
    Ok(covered)
}

/// Marks the places that are in one of the communicators.
fn cover_all(covered: &mut Vec<bool>, parts: &[Part])
    requires { EachIs covered.old.items (λ k. false) }
    ensures { EachIs covered.new.items (is_covered parts.now) }
{
    for part in parts {
        cover(covered, &part.places);
    }
}

/// Marks a place.
fn mark(covered: &mut Vec<bool>, place: u32)
    ensures { covered.new.items ≡ slice_set covered.old.items place true }
{
    let place = place as usize;
    if place < covered.len() {
        covered[place] = true;
    }
}

/// Marks these places.
#[tactic(auto, using(crate::proofs::Marks::marked))]
fn cover(covered: &mut Vec<bool>, places: &[u32])
    ensures { EachBecomes covered.old.items covered.new.items (λ k before. before || has places.now k) }
{
    for place in places {
        mark(covered, *place);
    }
}

/// Whether a call gives a communicator where it is in one that is made, and none where it isn't.
fn gives_so(gives: Gives, is_covered: bool, later: bool) -> bool
    ensures { result ≡ gives_so later is_covered gives }
{
    match gives {
        Gives::Nothing => true,
        Gives::Handle(_) => is_covered,
        Gives::Null => !is_covered || later,
        Gives::Unknown => later,
        Gives::Taken(_) => later,
    }
}

/// Whether the call of a member gives so, where it is there.
fn is_given_so(here: Option<Here>, is_covered: bool, later: bool) -> bool
    ensures { result ≡ is_given_so later is_covered here }
{
    match here {
        Some(here) => gives_so(here.gives, is_covered, later),
        None => true,
    }
}

/// Whether the calls give so, where this says of each place whether it is in a communicator.
fn all_given(all: &[Option<Here>], covered: &[bool], later: bool) -> bool
    ensures { IsTrue result → AreGivenBy later all.now covered.now }
{
    for (place, here) in all.iter().enumerate() {
        match covered.get(place) {
            Some(is_covered) => {
                if !is_given_so(*here, *is_covered, later) {
                    return false;
                }
            },
            None => return false,
        }
    }
    true
}

/// Whether the calls give these communicators.
pub(crate) fn are_given(
    alloc: Global,
    parts: &[Part],
    all: &[Option<Here>],
    later: bool,
) -> Result<bool, AllocError>
    ensures { IfOk result (λ given. IsTrue given → AreGiven later all.now parts.now) }
{
    let covered = covered(alloc, parts, all.len())?;
    Ok(all_given(all, &covered, later))
}

/// The communicators, where the calls give what was made.
fn checked(
    alloc: Global,
    outcome: Outcome,
    all: &[Option<Here>],
    later: bool,
) -> Result<Outcome, AllocError>
    ensures same { IfOk result (IfParts (λ parts. parts_in outcome ≡ Some parts)) }
    ensures given { IfOk result (IfParts (AreGiven later all.now)) }
{
    match outcome {
        Outcome::Parts(parts) => {
            if are_given(alloc, &parts, all, later)? {
                Ok(Outcome::Parts(parts))
            } else {
                Ok(Outcome::Unsound)
            }
        },
        Outcome::Untold => Ok(Outcome::Untold),
        Outcome::Unsound => Ok(Outcome::Unsound),
        Outcome::Waits => Ok(Outcome::Waits),
    }
}

/// What the calls make that are one making of this function, which takes no groups.
fn making_outcome(
    alloc: Global,
    ranks: &[RankCalls],
    views: &[RankView],
    parent: &Made,
    all: &[Option<Here>],
    function: MadeBy,
) -> Result<Outcome, AllocError>
    requires { IsOneMaking function all.now }
    ensures { IfOk result (IsDerivedOutcome ranks.now views.now parent.now.members.items (dims_of parent.now) all.now) }
{
    let made = outcome_of(alloc, ranks, views, parent, all, function)?;
    let outcome = checked(alloc, made, all, gives_later(function))?;
    Ok(outcome)
}

/// What the calls make that are one MPI_Comm_create.
fn creation_outcome(
    alloc: Global,
    ranks: &[RankCalls],
    views: &[RankView],
    values: &[Vec<GroupValue>],
    comms: &[Made],
    parent: &Made,
    all: &[Option<Here>],
) -> Result<Outcome, AllocError>
    requires parent { IsDerivedComm ranks.now views.now parent.now }
    requires groups { AreAllDerivedGroups ranks.now views.now comms.now values.now }
    requires one { IsOneMaking functions.Create all.now }
    ensures { IfOk result (IsDerivedOutcome ranks.now views.now parent.now.members.items (dims_of parent.now) all.now) }
{
    let made = create_outcome(alloc, values, comms, parent, all)?;
    let outcome = checked(alloc, made, all, false)?;
    Ok(outcome)
}

/// Whether it can be read what the calls give, unless that may come later.
pub(crate) fn are_readable(all: &[Option<Here>], later: bool) -> bool
    ensures { IsTrue result → later ≡ false → list_any gives_unknown all.now ≡ false }
{
    later || !some_unknown(all)
}

/// What the calls of the members make together.
#[tactic(auto, using(crate::proofs::Derivations::unsound_derives, crate::proofs::Derivations::none_here, crate::proofs::Derivations::one_making))]
pub(crate) fn outcome_in(
    alloc: Global,
    ranks: &[RankCalls],
    views: &[RankView],
    values: &[Vec<GroupValue>],
    comms: &[Made],
    parent: &Made,
    all: &[Option<Here>],
) -> Result<Outcome, AllocError>
    requires parent { IsDerivedComm ranks.now views.now parent.now }
    requires groups { AreAllDerivedGroups ranks.now views.now comms.now values.now }
    ensures { IfOk result (IsDerivedOutcome ranks.now views.now parent.now.members.items (dims_of parent.now) all.now) }
{
    let Some(first) = first_of(all) else {
        return Ok(Outcome::Untold);
    };
    let function = first.function;
    if !have_function(all, function) {
        return Ok(Outcome::Unsound);
    }
    if !are_readable(all, gives_later(function)) {
        return Ok(Outcome::Unsound);
    }
    if function == MadeBy::Create {
        creation_outcome(alloc, ranks, views, values, comms, parent, all)
    } else {
        making_outcome(alloc, ranks, views, parent, all, function)
    }
}
