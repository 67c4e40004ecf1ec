//! Makings that give a communicator a topology (MPI 4.0, chapter 8).

ghost use Rattle.std.specs.Prelude.{◌≡◌, ◌≤◌, ◌<◌, ◌^◌, ◌↔◌, IfOk, IfSome, IsTrue, None, false, length, pos, true};
ghost use Rattle.std.specs.List.{filter_map, list_all, slice_get};
ghost use Rattle.std.specs.Option.{option_copied};
ghost use Rattle.comm_makings.specs.Each.{list_in};
ghost use Rattle.comm_makings.specs.Makes.{AllSay, AreSaidAlike, AreSilent, IsDistGraphMade, IsGraph, IsGrid, IsPartOfGrid, IsSilent, IsReordered, IsTopology, MaySay, Says, dims_fit, dims_in, nodes_in, remain_in, reorder_in, said_by};
ghost use Rattle.comm_makings.specs.Parts.{IsUnsound, IsUntold};
ghost use Rattle.comm_makings.specs.Reordered.{AreReturned, IsInToldOrder, IsOfTold, differs, given_places, is_returned, others_given, told_at, told_here, told_ranks};
ghost use Rattle.comm_makings.specs.State.{IfParts, dims_of};

use crate::calls::{Making, RankCalls};
use crate::here::{Here, first_of, gives_some, handle_of, making_at};
use crate::parts::{Outcome, first_part, grid_outcome, one_part};
use crate::state::{Made, copy_of};
use crate::view::RankView;
use comm_groups::{grid_size, order_of};
use std::alloc::{AllocError, Global};

/// Whether the ranks may be ordered anew, as a making says.
fn reorder_of(making: Option<&Making>) -> Option<bool>
    ensures { result ≡ said_by reorder_in (option_copied making.entry) }
{
    match making? {
        Making::CartCreate { reorder, .. } => *reorder,
        Making::GraphCreate { reorder, .. } => *reorder,
        Making::DistGraphCreate { reorder } => *reorder,
        Making::DistGraphCreateAdjacent { reorder } => *reorder,
        Making::Dup
        | Making::DupWithInfo
        | Making::Idup
        | Making::IdupWithInfo
        | Making::Split { .. }
        | Making::Create { .. }
        | Making::CreateGroup { .. }
        | Making::CartSub { .. } => None,
    }
}

/// The sizes of the dimensions that a making says.
fn dims_of(making: Option<&Making>) -> Option<&[u32]>
    ensures { option_copied result ≡ said_by dims_in (option_copied making.entry) }
{
    match making? {
        Making::CartCreate { dims, .. } => match dims {
            Some(dims) => Some(dims),
            None => None,
        },
        Making::Dup
        | Making::DupWithInfo
        | Making::Idup
        | Making::IdupWithInfo
        | Making::Split { .. }
        | Making::Create { .. }
        | Making::CreateGroup { .. }
        | Making::CartSub { .. }
        | Making::GraphCreate { .. }
        | Making::DistGraphCreate { .. }
        | Making::DistGraphCreateAdjacent { .. } => None,
    }
}

/// The number of nodes that a making says.
fn nodes_of(making: Option<&Making>) -> Option<i32>
    ensures { result ≡ said_by nodes_in (option_copied making.entry) }
{
    match making? {
        Making::GraphCreate { nodes, .. } => *nodes,
        Making::Dup
        | Making::DupWithInfo
        | Making::Idup
        | Making::IdupWithInfo
        | Making::Split { .. }
        | Making::Create { .. }
        | Making::CreateGroup { .. }
        | Making::CartCreate { .. }
        | Making::CartSub { .. }
        | Making::DistGraphCreate { .. }
        | Making::DistGraphCreateAdjacent { .. } => None,
    }
}

/// Which dimensions remain, as a making says.
fn remain_of(making: Option<&Making>) -> Option<&[bool]>
    ensures { option_copied result ≡ said_by remain_in (option_copied making.entry) }
{
    match making? {
        Making::CartSub { remain } => match remain {
            Some(remain) => Some(remain),
            None => None,
        },
        Making::Dup
        | Making::DupWithInfo
        | Making::Idup
        | Making::IdupWithInfo
        | Making::Split { .. }
        | Making::Create { .. }
        | Making::CreateGroup { .. }
        | Making::CartCreate { .. }
        | Making::GraphCreate { .. }
        | Making::DistGraphCreate { .. }
        | Making::DistGraphCreateAdjacent { .. } => None,
    }
}

/// The call says this of the order, where it is there.
fn says_reorder(ranks: &[RankCalls], reorder: bool, here: Option<Here>) -> bool
    ensures { IsTrue result ↔ Says ranks.now reorder_in reorder here }
{
    match here {
        Some(here) => reorder_of(making_at(ranks, here.rank, here.at)) == Some(reorder),
        None => true,
    }
}

/// The call says these dimensions, where it is there.
fn says_dims(ranks: &[RankCalls], dims: &[u32], here: Option<Here>) -> bool
    ensures { IsTrue result ↔ Says ranks.now dims_in dims.now here }
{
    match here {
        Some(here) => match dims_of(making_at(ranks, here.rank, here.at)) {
            Some(said) => said == dims,
            None => false,
        },
        None => true,
    }
}

/// The call says so many nodes, where it is there.
fn says_nodes(ranks: &[RankCalls], nodes: i32, here: Option<Here>) -> bool
    ensures { IsTrue result ↔ Says ranks.now nodes_in nodes here }
{
    match here {
        Some(here) => nodes_of(making_at(ranks, here.rank, here.at)) == Some(nodes),
        None => true,
    }
}

/// Whether two lists of flags are the same.
fn same_flags(first: &[bool], second: &[bool]) -> bool
    ensures { IsTrue result ↔ (first.now ≡ second.now) }
{
    first == second
}

/// The call says that these dimensions remain, where it is there.
fn says_remain(ranks: &[RankCalls], remain: &[bool], here: Option<Here>) -> bool
    ensures { IsTrue result ↔ Says ranks.now remain_in remain.now here }
{
    match here {
        Some(here) => match remain_of(making_at(ranks, here.rank, here.at)) {
            Some(said) => same_flags(said, remain),
            None => false,
        },
        None => true,
    }
}

/// Whether the ranks may be ordered anew, where all calls say the same.
fn agreed_reorder(ranks: &[RankCalls], all: &[Option<Here>]) -> Option<bool>
    ensures { IfSome result (λ reorder. AllSay ranks.now reorder_in reorder all.now) }
{
    let first = first_of(all)?;
    let reorder = reorder_of(making_at(ranks, first.rank, first.at))?;
    if all.iter().all(|here| says_reorder(ranks, reorder, *here)) {
        Some(reorder)
    } else {
        None
    }
}

/// The dimensions, where all calls say the same.
fn agreed_dims<'a>(ranks: &'a [RankCalls], all: &[Option<Here>]) -> Option<&'a [u32]>
    ensures { IfSome (option_copied result) (λ dims. AllSay ranks.now dims_in dims all.now) }
{
    let first = first_of(all)?;
    let dims = dims_of(making_at(ranks, first.rank, first.at))?;
    if all.iter().all(|here| says_dims(ranks, dims, *here)) {
        Some(dims)
    } else {
        None
    }
}

/// The number of nodes, where all calls say the same.
fn agreed_nodes(ranks: &[RankCalls], all: &[Option<Here>]) -> Option<i32>
    ensures { IfSome result (λ nodes. AllSay ranks.now nodes_in nodes all.now) }
{
    let first = first_of(all)?;
    let nodes = nodes_of(making_at(ranks, first.rank, first.at))?;
    if all.iter().all(|here| says_nodes(ranks, nodes, *here)) {
        Some(nodes)
    } else {
        None
    }
}

/// The dimensions that remain, where all calls say the same.
fn agreed_remain<'a>(ranks: &'a [RankCalls], all: &[Option<Here>]) -> Option<&'a [bool]>
    ensures { IfSome (option_copied result) (λ remain. AllSay ranks.now remain_in remain all.now) }
{
    let first = first_of(all)?;
    let remain = remain_of(making_at(ranks, first.rank, first.at))?;
    if all.iter().all(|here| says_remain(ranks, remain, *here)) {
        Some(remain)
    } else {
        None
    }
}

/// The dimensions that the call says, where it is there.
fn dims_at(ranks: &[RankCalls], here: Option<Here>) -> Option<&[u32]>
    ensures { option_copied result ≡ None → IsSilent ranks.now dims_in here }
{
    let here = here?;
    dims_of(making_at(ranks, here.rank, here.at))
}

/// The dimensions that the first of the calls says which says some.
#[tactic(auto, using(crate::proofs::GridParts::silent_none, crate::proofs::GridParts::silent_more, crate::proofs::GridParts::silent_all))]
fn first_dims<'a>(ranks: &'a [RankCalls], all: &[Option<Here>]) -> Option<&'a [u32]>
    ensures { option_copied result ≡ None → AreSilent ranks.now dims_in all.now }
{
    for here in all {
        if let Some(dims) = dims_at(ranks, *here) {
            return Some(dims);
        }
    }
    None
}

/// The call says these dimensions or none, where it is there.
fn may_say_dims(ranks: &[RankCalls], dims: &[u32], here: Option<Here>) -> bool
    ensures { IsTrue result ↔ MaySay ranks.now dims_in dims.now here }
{
    match here {
        Some(here) => match dims_of(making_at(ranks, here.rank, here.at)) {
            Some(said) => said == dims,
            None => true,
        },
        None => true,
    }
}

/// Whether the calls that say dimensions say the same, of a grid of this many ranks.
#[tactic(auto, using(crate::proofs::GridParts::none_said, crate::proofs::GridParts::dims_said))]
fn dims_alike(ranks: &[RankCalls], all: &[Option<Here>], members: u32) -> bool
    ensures { result ≡ true → AreSaidAlike ranks.now dims_in (dims_fit members) all.now }
{
    let Some(dims) = first_dims(ranks, all) else {
        return true;
    };
    if grid_size(dims, members).is_none() {
        return false;
    }
    all.iter().all(|here| may_say_dims(ranks, dims, *here))
}

/// So many nodes, where there are none below 0 and none above the members of the parent.
fn nodes_within(nodes: i32, members: u32) -> Option<u32>
    ensures { IfSome result (λ n. (nodes ≡ pos n) × (n ≤ members)) }
{
    match u32::try_from(nodes) {
        Ok(nodes) => { if nodes <= members { Some(nodes) } else { None } },
        Err(_) => None,
    }
}

/// Whether the calls that say nodes differ in them, or say what no graph of this many ranks has.
fn wrong_nodes(ranks: &[RankCalls], all: &[Option<Here>], members: u32) -> bool {
    let mut said: Option<i32> = None;
    for here in all {
        if let Some(here) = here {
            if let Some(nodes) = nodes_of(making_at(ranks, here.rank, here.at)) {
                if nodes_within(nodes, members).is_none() {
                    return true;
                }
                if let Some(before) = said {
                    if before != nodes {
                        return true;
                    }
                }
                said = Some(nodes);
            }
        }
    }
    false
}

/// Whether the member has a returned call.
fn is_returned(here: Option<Here>) -> bool
    ensures { result ≡ is_returned here }
{
    match here {
        Some(here) => gives_some(here.gives),
        None => false,
    }
}

/// Whether each member has a returned call.
fn all_returned(all: &[Option<Here>]) -> bool
    ensures { result ≡ list_all is_returned all.now }
{
    all.iter().all(|here| is_returned(*here))
}

/// The places of those that get a communicator.
fn given_places(alloc: Global, all: &[Option<Here>]) -> Result<Vec<u32>, AllocError>
    requires { length all.now < 2 ^ 32 }
    ensures { IfOk result (λ v. v.items ≡ given_places 0 all.now) }
{
    let mut places = Vec::new(alloc);
    let mut place = 0u32;
    for here in all {
        if handle_of(*here).is_some() {
            places.push(place)?;
        }
        place += 1;
    }
    Ok(places)
}

/// What MPI_Comm_rank first tells a rank on a handle.
fn told_at(views: &[RankView], rank: u32, handle: usize) -> Option<u32>
    ensures { result ≡ told_at views.now rank handle }
{
    views.get(rank as usize)?.told.get(handle).copied()?
}

/// What a member is told on the communicator that it gets.
fn told_here(views: &[RankView], here: Option<Here>, handle: usize) -> Option<u32>
    ensures { result ≡ told_here views.now here handle }
{
    told_at(views, here?.rank, handle)
}

/// What those are told that get a communicator; `None` where one isn't told.
fn told_ranks(
    alloc: Global,
    views: &[RankView],
    all: &[Option<Here>],
) -> Result<Option<Vec<u32>>, AllocError>
    ensures { IfOk result (λ found. list_in found ≡ told_ranks views.now all.now) }
{
    let mut told = Vec::new(alloc);
    for here in all {
        if let Some(handle) = handle_of(*here) {
            match told_here(views, *here, handle) {
                Some(rank) => told.push(rank)?,
                None => return Ok(None),
            }
        }
    }
    Ok(Some(told))
}

/// The places in this order.
fn in_order(alloc: Global, places: &[u32], order: &[usize]) -> Result<Vec<u32>, AllocError>
    ensures { IfOk result (λ v. v.items ≡ filter_map (slice_get places.now) order.now) }
{
    let mut ordered = Vec::new(alloc);
    for at in order {
        if let Some(place) = places.get(*at) {
            ordered.push(*place)?;
        }
    }
    Ok(ordered)
}

/// Whether there are others than so many.
fn differs(count: Option<u32>, given: usize) -> bool
    ensures { result ≡ differs count given }
{
    match count {
        Some(count) => given != count as usize,
        None => false,
    }
}

/// Those that get a communicator, in the order of the ranks that they are told on it.
fn reordered(
    alloc: Global,
    views: &[RankView],
    all: &[Option<Here>],
    count: Option<u32>,
    dims: Option<Vec<u32>>,
) -> Result<Outcome, AllocError>
    requires { length all.now < 2 ^ 32 }
    ensures returned { list_all is_returned all.now ≡ false → IfOk result IsUntold }
    ensures count { AreReturned all.now → others_given count all.now ≡ true → IfOk result IsUnsound }
    ensures told { AreReturned all.now → others_given count all.now ≡ false → IfOk result (IsOfTold views.now all.now dims) }
{
    if !all_returned(all) {
        return Ok(Outcome::Untold);
    }
    let places = given_places(alloc, all)?;
    if differs(count, places.len()) {
        return Ok(Outcome::Unsound);
    }
    let told = told_ranks(alloc, views, all)?;
    told_part(alloc, &places, told, dims)
}

/// All members, in the order of the ranks that they are told on the communicator that each gets.
pub(crate) fn told_order(
    alloc: Global,
    views: &[RankView],
    all: &[Option<Here>],
) -> Result<Outcome, AllocError>
    ensures { IfOk result (IfParts (IsReordered views.now all.now None)) }
{
    let Ok(count) = u32::try_from(all.len()) else {
        return Ok(Outcome::Unsound);
    };
    reordered(alloc, views, all, Some(count), None)
}

/// The members at these places, in the order of the ranks that they are told.
fn told_part(
    alloc: Global,
    places: &[u32],
    told: Option<Vec<u32>>,
    dims: Option<Vec<u32>>,
) -> Result<Outcome, AllocError>
    ensures { IfOk result (IsInToldOrder places.now (list_in told) (list_in dims)) }
{
    match told {
        None => Ok(Outcome::Untold),
        Some(told) => match order_of(alloc, &told)? {
            Some(order) => one_part(alloc, in_order(alloc, places, &order)?, dims),
            None => Ok(Outcome::Unsound),
        },
    }
}

/// A communicator of so many members, where the number is known.
fn topology(
    alloc: Global,
    ranks: &[RankCalls],
    views: &[RankView],
    all: &[Option<Here>],
    count: Option<u32>,
    dims: Option<Vec<u32>>,
) -> Result<Outcome, AllocError>
    requires { length all.now < 2 ^ 32 }
    ensures { IfOk result (IfParts (IsTopology ranks.now views.now all.now count (list_in dims))) }
{
    match agreed_reorder(ranks, all) {
        None => Ok(Outcome::Unsound),
        Some(false) => match count {
            None => Ok(Outcome::Unsound),
            Some(count) => first_part(alloc, count, dims),
        },
        Some(true) => reordered(alloc, views, all, count, dims),
    }
}

/// The communicator of a MPI_Cart_create.
#[tactic(auto, using(crate::proofs::GridParts::unknown_grid))]
pub(crate) fn cart_outcome(
    alloc: Global,
    ranks: &[RankCalls],
    views: &[RankView],
    all: &[Option<Here>],
    members: u32,
) -> Result<Outcome, AllocError>
    requires few { length all.now < 2 ^ 32 }
    requires members { members ≡ length all.now }
    ensures { IfOk result (IfParts (IsGrid ranks.now views.now all.now)) }
{
    if !dims_alike(ranks, all, members) {
        return Ok(Outcome::Unsound);
    }
    match agreed_dims(ranks, all) {
        None => topology(alloc, ranks, views, all, None, None),
        Some(dims) => match grid_size(dims, members) {
            None => Ok(Outcome::Unsound),
            Some(size) => {
                let sizes = copy_of(alloc, dims)?;
                topology(alloc, ranks, views, all, Some(size), Some(sizes))
            },
        },
    }
}

/// The communicator of a MPI_Graph_create.
pub(crate) fn graph_outcome(
    alloc: Global,
    ranks: &[RankCalls],
    views: &[RankView],
    all: &[Option<Here>],
    members: u32,
) -> Result<Outcome, AllocError>
    requires few { length all.now < 2 ^ 32 }
    requires members { members ≡ length all.now }
    ensures { IfOk result (IfParts (IsGraph ranks.now views.now all.now)) }
{
    if wrong_nodes(ranks, all, members) {
        return Ok(Outcome::Unsound);
    }
    match agreed_nodes(ranks, all) {
        None => topology(alloc, ranks, views, all, None, None),
        Some(nodes) => match nodes_within(nodes, members) {
            None => Ok(Outcome::Unsound),
            Some(count) => topology(alloc, ranks, views, all, Some(count), None),
        },
    }
}

/// The communicator of a MPI_Dist_graph_create or MPI_Dist_graph_create_adjacent: without another order all members.
pub(crate) fn dist_graph_outcome(
    alloc: Global,
    ranks: &[RankCalls],
    views: &[RankView],
    all: &[Option<Here>],
    members: u32,
) -> Result<Outcome, AllocError>
    requires few { length all.now < 2 ^ 32 }
    requires members { members ≡ length all.now }
    ensures { IfOk result (IfParts (IsDistGraphMade ranks.now views.now all.now)) }
{
    match agreed_reorder(ranks, all) {
        None => Ok(Outcome::Unsound),
        Some(false) => first_part(alloc, members, None),
        Some(true) => reordered(alloc, views, all, None, None),
    }
}

/// The communicators of a MPI_Cart_sub.
pub(crate) fn cart_sub_outcome(
    alloc: Global,
    ranks: &[RankCalls],
    parent: &Made,
    all: &[Option<Here>],
    members: u32,
) -> Result<Outcome, AllocError>
    requires { members ≡ length all.now }
    ensures { IfOk result (IfParts (IsPartOfGrid ranks.now (dims_of parent.now) all.now)) }
{
    let Some(dims) = &parent.dims else {
        return Ok(Outcome::Untold);
    };
    match agreed_remain(ranks, all) {
        Some(remain) => {
            let outcome = grid_outcome(alloc, dims, remain, members)?;
            Ok(outcome)
        },
        None => Ok(Outcome::Unsound),
    }
}
