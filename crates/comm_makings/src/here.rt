//! One making, as each member of the parent calls it.

ghost use Rattle.std.specs.Prelude.{◌≡◌, ◌↔◌, All, IfOk, IsTrue, map};
ghost use Rattle.std.specs.List.{list_any};
ghost use Rattle.std.specs.Option.{option_copied};
ghost use Rattle.comm_makings.specs.Here.{call_at, first_of, function_of, gives_later, gives_some, gives_unknown, HasFunction, handle_given, handle_of, here_at, is_unreadable, kth_at, kth_call, making_at, making_of, meant_at};

use crate::answer::MadeBy;
use crate::calls::{Action, CommCall, Making, RankCalls};
use crate::handle::{Gives, GroupAt, Meant};
use crate::state::Member;
use crate::view::RankView;
use std::alloc::{AllocError, Global};

/// The call of a member.
#[derive(Clone, Copy)]
pub(crate) struct Here {
    pub rank: u32,
    /// Its place in the rank's list.
    pub at: usize,
    /// Its place among all calls of the rank.
    pub call: u64,
    pub function: MadeBy,
    pub gives: Gives,
    pub group: GroupAt,
}

/// The function of a making.
pub fn function_of(making: &Making) -> MadeBy
    ensures { result ≡ function_of making.now }
{
    match making {
        Making::Dup => MadeBy::Dup,
        Making::DupWithInfo => MadeBy::DupWithInfo,
        Making::Idup => MadeBy::Idup,
        Making::IdupWithInfo => MadeBy::IdupWithInfo,
        Making::Split { .. } => MadeBy::Split,
        Making::Create { .. } => MadeBy::Create,
        Making::CreateGroup { .. } => MadeBy::CreateGroup,
        Making::CartCreate { .. } => MadeBy::CartCreate,
        Making::CartSub { .. } => MadeBy::CartSub,
        Making::GraphCreate { .. } => MadeBy::GraphCreate,
        Making::DistGraphCreate { .. } => MadeBy::DistGraphCreate,
        Making::DistGraphCreateAdjacent { .. } => MadeBy::DistGraphCreateAdjacent,
    }
}

/// A call of a rank, by its place in the rank's list.
pub(crate) fn call_at(ranks: &[RankCalls], rank: usize, at: usize) -> Option<&CommCall>
    ensures { option_copied result ≡ call_at ranks.now rank at }
{
    ranks.get(rank)?.calls.get(at)
}

/// What the numbers in a call of a rank mean.
pub(crate) fn meant_at(views: &[RankView], rank: usize, at: usize) -> Option<Meant>
    ensures { result ≡ meant_at views.now rank at }
{
    views.get(rank)?.meant.get(at).copied()
}

/// What an action says of the communicators that it makes.
pub(crate) fn making_of(action: &Action) -> Option<&Making>
    ensures { option_copied result ≡ making_of action.now }
{
    match action {
        Action::Make { making, .. } => Some(making),
        Action::CommRank { .. }
        | Action::Free { .. }
        | Action::Group { .. }
        | Action::Join { .. }
        | Action::Merge { .. }
        | Action::GivesComm { .. }
        | Action::MakeObject { .. }
        | Action::EndObject { .. } => None,
    }
}

/// What a call of a rank makes.
pub(crate) fn making_at(ranks: &[RankCalls], rank: u32, at: usize) -> Option<&Making>
    ensures { option_copied result ≡ making_at ranks.now rank at }
{
    making_of(&call_at(ranks, rank as usize, at)?.action)
}

/// The call of a rank that makes communicators, at this place of its list.
pub(crate) fn here_at(ranks: &[RankCalls], views: &[RankView], rank: u32, at: usize) -> Option<Here>
    ensures { result ≡ here_at ranks.now views.now rank at }
{
    let call = call_at(ranks, rank as usize, at)?;
    let making = making_of(&call.action)?;
    let meant = meant_at(views, rank as usize, at)?;
    Some(Here {
        rank,
        at,
        call: call.call,
        function: function_of(making),
        gives: meant.gives,
        group: meant.group,
    })
}

/// The place of the k-th call of a member that makes communicators of the handle by all its members.
fn kth_call(views: &[RankView], member: Member, k: usize) -> Option<usize>
    ensures { result ≡ kth_call views.now k member }
{
    let handle = member.handle?;
    views
        .get(member.rank as usize)?
        .makings
        .get(handle)?
        .get(k)
        .copied()
}

/// The k-th call of a member that makes communicators of the handle by all its members.
fn kth_at(ranks: &[RankCalls], views: &[RankView], member: Member, k: usize) -> Option<Here>
    ensures { result ≡ kth_at ranks.now views.now k member }
{
    here_at(ranks, views, member.rank, kth_call(views, member, k)?)
}

/// The k-th call of each member.
pub(crate) fn all_kth(
    alloc: Global,
    ranks: &[RankCalls],
    views: &[RankView],
    members: &[Member],
    k: usize,
) -> Result<Vec<Option<Here>>, AllocError>
    ensures { IfOk result (λ v. v.items ≡ map (kth_at ranks.now views.now k) members.now) }
{
    let mut all = Vec::new(alloc);
    for member in members {
        all.push(kth_at(ranks, views, *member, k))?;
    }
    Ok(all)
}

/// The first call that is there.
pub(crate) fn first_of(all: &[Option<Here>]) -> Option<Here>
    ensures { result ≡ first_of all.now }
{
    for here in all {
        if here.is_some() {
            return *here;
        }
    }
    None
}

/// Whether the call has this function, where it is there.
fn has_function(function: MadeBy, here: Option<Here>) -> bool
    ensures { IsTrue result ↔ HasFunction function here }
{
    match here {
        Some(here) => here.function == function,
        None => true,
    }
}

/// Whether each call that is there has this function.
pub(crate) fn have_function(all: &[Option<Here>], function: MadeBy) -> bool
    ensures { IsTrue result ↔ All (HasFunction function) all.now }
{
    all.iter().all(|here| has_function(function, *here))
}

/// Whether the function may give its communicator when the call is completed.
pub(crate) fn gives_later(function: MadeBy) -> bool
    ensures { result ≡ gives_later function }
{
    match function {
        MadeBy::Idup | MadeBy::IdupWithInfo => true,
        MadeBy::Dup
        | MadeBy::DupWithInfo
        | MadeBy::Split
        | MadeBy::Create
        | MadeBy::CreateGroup
        | MadeBy::CartCreate
        | MadeBy::CartSub
        | MadeBy::GraphCreate
        | MadeBy::DistGraphCreate
        | MadeBy::DistGraphCreateAdjacent
        | MadeBy::IntercommCreate
        | MadeBy::IntercommMerge
        | MadeBy::Other(_) => false,
    }
}

/// Whether it can't be read what is given.
pub(crate) fn is_unreadable(gives: Gives) -> bool
    ensures { result ≡ is_unreadable gives }
{
    match gives {
        Gives::Unknown | Gives::Taken(_) => true,
        Gives::Nothing | Gives::Null | Gives::Handle(_) => false,
    }
}

/// Whether the call gives what can't be read.
fn gives_unknown(here: Option<Here>) -> bool
    ensures { result ≡ gives_unknown here }
{
    match here {
        Some(here) => is_unreadable(here.gives),
        None => false,
    }
}

/// Whether some call gives what can't be read.
pub(crate) fn some_unknown(all: &[Option<Here>]) -> bool
    ensures { result ≡ list_any gives_unknown all.now }
{
    all.iter().any(|here| gives_unknown(*here))
}

/// Whether the call returned.
pub(crate) fn gives_some(gives: Gives) -> bool
    ensures { result ≡ gives_some gives }
{
    match gives {
        Gives::Nothing => false,
        Gives::Null | Gives::Handle(_) | Gives::Taken(_) | Gives::Unknown => true,
    }
}

/// The handle that is given, where calls can be known to mean it.
fn handle_given(gives: Gives) -> Option<usize>
    ensures { result ≡ handle_given gives }
{
    match gives {
        Gives::Handle(handle) => Some(handle),
        Gives::Nothing | Gives::Null | Gives::Taken(_) | Gives::Unknown => None,
    }
}

/// The handle that the call of a member gives.
pub(crate) fn handle_of(here: Option<Here>) -> Option<usize>
    ensures { result ≡ handle_of here }
{
    match here {
        Some(here) => handle_given(here.gives),
        None => None,
    }
}
