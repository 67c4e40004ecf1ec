//! What is left out, by rank and call.

ghost use Rattle.std.specs.Prelude.{◌≡◌, ◌++◌, ◌<◌, ◌^◌, IfOk, OnOk, length};
ghost use Rattle.comm_makings.specs.Left.{calls_in, giving, is_known_to, left_at, left_in, left_out_of, number_said, standing_given, why_left, why_of, why_open};

use crate::answer::{LeftOut, MadeBy, Why};
use crate::calls::{Action, Given, RankCalls};
use crate::handle::Gives;
use crate::here::{call_at, function_of, gives_later, meant_at};
use crate::state::HandleState;
use crate::uses::{HandleUses, count_at};
use crate::view::RankView;
use std::alloc::{AllocError, Global};

/// The function of a call that gives a communicator, and the number that it gives.
#[derive(Clone, Copy)]
struct Giver {
    made_by: MadeBy,
    number: Option<u32>,
}

/// Why a communicator is left out, and the handle that it has.
#[derive(Clone, Copy)]
struct Reason {
    why: Why,
    handle: Option<usize>,
}

/// The number of the communicator that is given, where it has one that can be read.
fn number_said(given: Given) -> Option<u32>
    ensures { result ≡ number_said given }
{
    match given {
        Given::Number(number) => Some(number),
        Given::Null | Given::Unknown => None,
    }
}

/// The function of a call that gives a communicator, and the number that it gives.
fn giving(action: &Action) -> Option<Giver>
    ensures { result ≡ giving action.now }
{
    match action {
        Action::Make { making, given, .. } => Some(Giver {
            made_by: function_of(making),
            number: number_said(*given),
        }),
        Action::Join { given, .. } => Some(Giver {
            made_by: MadeBy::IntercommCreate,
            number: number_said(*given),
        }),
        Action::Merge { given, .. } => Some(Giver {
            made_by: MadeBy::IntercommMerge,
            number: number_said(*given),
        }),
        Action::GivesComm { maker, given, .. } => Some(Giver {
            made_by: MadeBy::Other(*maker),
            number: number_said(*given),
        }),
        Action::CommRank { .. }
        | Action::Free { .. }
        | Action::Group { .. }
        | Action::MakeObject { .. }
        | Action::EndObject { .. } => None,
    }
}

/// Why a handle is left out of which nothing was derived.
fn why_open(function: MadeBy, is_known: bool) -> Why
    ensures { result ≡ why_open function is_known }
{
    match function {
        MadeBy::Other(_) => Why::Function,
        MadeBy::IntercommCreate => Why::Untold,
        MadeBy::Dup
        | MadeBy::DupWithInfo
        | MadeBy::Idup
        | MadeBy::IdupWithInfo
        | MadeBy::Split
        | MadeBy::Create
        | MadeBy::CreateGroup
        | MadeBy::CartCreate
        | MadeBy::CartSub
        | MadeBy::GraphCreate
        | MadeBy::DistGraphCreate
        | MadeBy::DistGraphCreateAdjacent
        | MadeBy::IntercommMerge => {
            if is_known {
                Why::Parent
            } else {
                Why::UnknownParent
            }
        },
    }
}

/// Why a handle that stands so is left out, where it is.
fn why_left(standing: Option<HandleState>, function: MadeBy, is_known: bool) -> Option<Why>
    ensures { result ≡ why_left standing function is_known }
{
    match standing {
        None => Some(why_open(function, is_known)),
        Some(HandleState::Open) => Some(why_open(function, is_known)),
        Some(HandleState::Derived(_)) => None,
        Some(HandleState::Inter { .. }) => None,
        Some(HandleState::Left(why)) => Some(why),
    }
}

/// Why what a call gives is left out, where it is.
fn why_of(
    gives: Gives,
    standing: Option<HandleState>,
    function: MadeBy,
    is_known: bool,
) -> Option<Reason>
    ensures { result ≡ why_of gives standing function is_known }
{
    match gives {
        Gives::Nothing => None,
        Gives::Null => None,
        Gives::Taken(handle) => Some(Reason {
            why: Why::Taken,
            handle: Some(handle),
        }),
        Gives::Unknown => {
            if gives_later(function) {
                None
            } else {
                Some(Reason {
                    why: Why::Unsound,
                    handle: None,
                })
            }
        },
        Gives::Handle(handle) => match why_left(standing, function, is_known) {
            Some(why) => Some(Reason {
                why,
                handle: Some(handle),
            }),
            None => None,
        },
    }
}

/// Whether the parents of the makings of a rank are known up to this place.
fn is_known_to(views: &[RankView], rank: u32, at: usize) -> bool
    ensures { result ≡ is_known_to views.now rank at }
{
    match views.get(rank as usize) {
        Some(view) => at < view.end,
        None => false,
    }
}

/// How the handle stands that a call of a rank gives.
fn standing_given(standings: &[Vec<HandleState>], rank: u32, gives: Gives) -> Option<HandleState>
    ensures { result ≡ standing_given standings.now rank gives }
{
    match gives {
        Gives::Handle(handle) => standings.get(rank as usize)?.get(handle).copied(),
        Gives::Nothing | Gives::Null | Gives::Taken(_) | Gives::Unknown => None,
    }
}

/// What the call at this place of a rank's list gives, where that is left out.
fn left_at(
    ranks: &[RankCalls],
    views: &[RankView],
    uses: &[HandleUses],
    standings: &[Vec<HandleState>],
    rank: u32,
    at: usize,
) -> Option<LeftOut>
    ensures { result ≡ left_at ranks.now views.now uses.now standings.now rank at }
{
    let call = call_at(ranks, rank as usize, at)?;
    let given = giving(&call.action)?;
    let meant = meant_at(views, rank as usize, at)?;
    let standing = standing_given(standings, rank, meant.gives);
    let known = is_known_to(views, rank, at);
    let reason = why_of(meant.gives, standing, given.made_by, known)?;
    Some(LeftOut {
        rank,
        call: call.call,
        made_by: given.made_by,
        number: given.number,
        uses: count_at(uses, rank, reason.handle),
        why: reason.why,
    })
}

/// How many calls a rank's list has.
fn calls_in(ranks: &[RankCalls], rank: u32) -> usize
    ensures { result ≡ calls_in ranks.now rank }
{
    match ranks.get(rank as usize) {
        Some(calls) => calls.calls.len(),
        None => 0,
    }
}

/// Adds what the calls of a rank give that is left out.
fn add_left(
    ranks: &[RankCalls],
    views: &[RankView],
    uses: &[HandleUses],
    standings: &[Vec<HandleState>],
    rank: u32,
    all: &mut Vec<LeftOut>,
) -> Result<(), AllocError>
    ensures { OnOk result (all.new.items ≡ all.old.items ++ left_in ranks.now views.now uses.now standings.now rank) }
{
    for at in 0..calls_in(ranks, rank) {
        if let Some(left) = left_at(ranks, views, uses, standings, rank, at) {
            all.push(left)?;
        }
    }
    Ok(())
}

/// What is left out.
pub(crate) fn left_out(
    alloc: Global,
    ranks: &[RankCalls],
    views: &[RankView],
    uses: &[HandleUses],
    standings: &[Vec<HandleState>],
) -> Result<Vec<LeftOut>, AllocError>
    requires { length ranks.now < 2 ^ 32 }
    ensures { IfOk result (λ v. v.items ≡ left_out_of ranks.now views.now uses.now standings.now) }
{
    let mut all = Vec::new(alloc);
    for rank in 0..ranks.len() as u32 {
        add_left(ranks, views, uses, standings, rank, &mut all)?;
    }
    Ok(all)
}
