//! The rounds whose calls don't match, and those that some members haven't entered.

ghost use Rattle.std.specs.Prelude.{◌≡◌, ◌++◌, ◌∷◌, ◌<◌, [], All, IfOk, OnOk, length, map};
ghost use Rattle.std.specs.List.Sorted.{IsPermutation};
ghost use Rattle.trace_wait.specs.Rounds.{group};
ghost use Rattle.trace_diagnosis.specs.Rounds.{AreTold, HasMembers, entered, entered_at, has_entered, mismatched_in, missing, name_of, open_in, opened, opened_told};

use crate::calls::named;
use diagnosis_value::{CallGroup, MismatchedRound, OpenRound, Rounds};
use mpi_model::{CollectiveFunction, Layout};
use std::alloc::{AllocError, Global};
use trace_ops::Entered;
use trace_stuck::RoundName;
use trace_wait::{Entries, Round, Standing};

/// A member that has entered a round, with its call.
#[derive(Clone, Copy)]
struct Entrant {
    rank: u32,
    entered: Entered,
}

/// The members of an object, in rising order.
fn members_rising(alloc: Global, layout: &Layout, object: u32) -> Result<Vec<u32>, AllocError>
    ensures { IfOk result (λ members. IsPermutation (group layout.now.comms object) members.items) }
{
    let mut members = Vec::from_slice(alloc, members_of(layout, object))?;
    members.sort()?;
    Ok(members)
}

/// The members of an object, in the order of their ranks in it.
fn members_of<'a>(layout: &'a Layout, object: u32) -> &'a [u32]
    ensures { result.now ≡ group layout.now.comms object }
{
    match layout.members(object) {
        Some(members) => members,
        None => &[],
    }
}

/// The call by which the rank entered a round, where it has.
fn entered_at(entries: &Entries<'_>, round: RoundName, rank: u32) -> Option<Entered>
    ensures { result ≡ entered_at entries.now round rank }
{
    entries
        .on(rank, round.object)
        .get(round.k as usize)
        .copied()
}

/// Whether the rank has entered a round.
fn has_entered(entries: &Entries<'_>, round: RoundName, rank: u32) -> bool
    ensures { result ≡ has_entered entries.now round rank }
{
    match entered_at(entries, round, rank) {
        Some(_) => true,
        None => false,
    }
}

/// The members that have entered a round, with their calls.
fn entrants_of(
    alloc: Global,
    entries: &Entries<'_>,
    members: &[u32],
    round: RoundName,
) -> Result<Vec<Entrant>, AllocError> {
    let mut found = Vec::new(alloc);
    for rank in members {
        if let Some(entered) = entered_at(entries, round, *rank) {
            found.push(Entrant {
                rank: *rank,
                entered,
            })?;
        }
    }
    Ok(found)
}

/// Those of the members that have entered the round.
fn entered_of(
    alloc: Global,
    entries: &Entries<'_>,
    members: &[u32],
    round: RoundName,
) -> Result<Vec<u32>, AllocError>
    ensures { IfOk result (λ found. found.items ≡ entered entries.now round members.now) }
{
    let mut found = Vec::new(alloc);
    for rank in members {
        if has_entered(entries, round, *rank) {
            found.push(*rank)?;
        }
    }
    Ok(found)
}

/// Those of the members that haven't entered the round.
fn missing_of(
    alloc: Global,
    entries: &Entries<'_>,
    members: &[u32],
    round: RoundName,
) -> Result<Vec<u32>, AllocError>
    ensures { IfOk result (λ found. found.items ≡ missing entries.now round members.now) }
{
    let mut found = Vec::new(alloc);
    for rank in members {
        if !has_entered(entries, round, *rank) {
            found.push(*rank)?;
        }
    }
    Ok(found)
}

/// By which calls match: their kind, whether they block, and their root.
fn key_of(entered: &Entered) -> (u8, bool, Option<u32>) {
    (
        entered.function.kind().number(),
        entered.function.is_nonblocking(),
        entered.root,
    )
}

/// The ranks of these entrants.
fn ranks_of(alloc: Global, entrants: &[Entrant]) -> Result<Vec<u32>, AllocError> {
    let mut ranks = Vec::new(alloc);
    for entrant in entrants {
        ranks.push(entrant.rank)?;
    }
    Ok(ranks)
}

/// The group of entrants whose calls match, of which this is the first.
fn group_of(alloc: Global, first: &Entrant, entrants: &[Entrant]) -> Result<CallGroup, AllocError> {
    let ranks = ranks_of(alloc, entrants)?;
    Ok(CallGroup {
        function: first.entered.function,
        root: first.entered.root,
        ranks,
        call: named(first.rank, first.entered.call),
    })
}

/// Whether the two have calls that match.
fn do_match(one: &Entrant, other: &Entrant) -> bool {
    key_of(&one.entered) == key_of(&other.entered)
}

/// The entrants from a place on whose calls match the one there, up to the first whose doesn't.
fn run_from(entrants: &[Entrant], at: usize) -> &[Entrant]
    requires { at < length entrants.now }
{
    for end in at..entrants.len() {
        if !do_match(&entrants[at], &entrants[end]) {
            return &entrants[at..end];
        }
    }
    &entrants[at..]
}

/// Whether the call of the entrant at a place doesn't match the one before.
fn is_first(entrants: &[Entrant], at: usize) -> bool
    requires { at < length entrants.now }
{
    at == 0 || !do_match(&entrants[at - 1], &entrants[at])
}

/// The groups of those whose calls match, by their first ranks.
fn groups_of(alloc: Global, entrants: Vec<Entrant>) -> Result<Vec<CallGroup>, AllocError> {
    let mut sorted = entrants;
    sorted.sort_by_key(|one| (key_of(&one.entered), one.rank))?;
    let mut groups = Vec::new(alloc);
    for at in 0..sorted.len() {
        if is_first(&sorted, at) {
            groups.push(group_of(alloc, &sorted[at], run_from(&sorted, at))?)?;
        }
    }
    groups.sort_by_key(|group: &CallGroup| group.call.rank)?;
    Ok(groups)
}

/// A round whose calls don't match.
fn mismatched_of(
    alloc: Global,
    layout: &Layout,
    entries: &Entries<'_>,
    round: RoundName,
) -> Result<MismatchedRound, AllocError>
    ensures { IfOk result (λ m. m.round ≡ round) }
{
    let members = members_rising(alloc, layout, round.object)?;
    let entrants = entrants_of(alloc, entries, &members, round)?;
    let groups = groups_of(alloc, entrants)?;
    Ok(MismatchedRound { round, groups })
}

/// A round that some members haven't entered.
fn open_of(
    alloc: Global,
    layout: &Layout,
    entries: &Entries<'_>,
    round: RoundName,
    function: CollectiveFunction,
    root: Option<u32>,
) -> Result<OpenRound, AllocError>
    ensures name { IfOk result (λ o. o.round ≡ round) }
    ensures call { IfOk result (λ o. (o.function ≡ function) × (o.root ≡ root)) }
    ensures members { IfOk result (HasMembers layout.now entries.now) }
{
    let members = members_rising(alloc, layout, round.object)?;
    let entered = entered_of(alloc, entries, &members, round)?;
    let missing = missing_of(alloc, entries, &members, round)?;
    Ok(OpenRound {
        round,
        function,
        root,
        entered,
        missing,
    })
}

/// Adds a round whose calls don't match.
fn push_mismatched(
    alloc: Global,
    layout: &Layout,
    entries: &Entries<'_>,
    round: RoundName,
    told: &mut Vec<MismatchedRound>,
) -> Result<(), AllocError>
    ensures { OnOk result (map (λ m. m.round) told.new.items ≡ map (λ m. m.round) told.old.items ++ round ∷ []) }
{
    let one = mismatched_of(alloc, layout, entries, round)?;
    told.push(one)?;
    Ok(())
}

/// Adds a round that some members haven't entered.
fn push_open(
    alloc: Global,
    layout: &Layout,
    entries: &Entries<'_>,
    round: RoundName,
    function: CollectiveFunction,
    root: Option<u32>,
    told: &mut Vec<OpenRound>,
) -> Result<(), AllocError>
    ensures calls { OnOk result (map opened_told told.new.items ≡ map opened_told told.old.items ++ opened round function root ∷ []) }
    ensures members { OnOk result (All (HasMembers layout.now entries.now) told.old.items → All (HasMembers layout.now entries.now) told.new.items) }
{
    let one = open_of(alloc, layout, entries, round, function, root)?;
    told.push(one)?;
    Ok(())
}

/// The name of a round.
fn name_of(round: &Round) -> RoundName
    ensures { result ≡ name_of round.now }
{
    RoundName {
        object: round.comm,
        k: round.k,
    }
}

/// Adds a round, where its calls don't match or some members haven't entered it.
fn push_round(
    alloc: Global,
    layout: &Layout,
    entries: &Entries<'_>,
    round: &Round,
    told: &mut Rounds,
) -> Result<(), AllocError>
    ensures mismatched { OnOk result (map (λ m. m.round) told.new.mismatched.items ≡ map (λ m. m.round) told.old.mismatched.items ++ mismatched_in round.now) }
    ensures calls { OnOk result (map opened_told told.new.open.items ≡ map opened_told told.old.open.items ++ open_in round.now) }
    ensures members { OnOk result (All (HasMembers layout.now entries.now) told.old.open.items → All (HasMembers layout.now entries.now) told.new.open.items) }
{
    let name = name_of(round);
    match round.standing {
        Standing::Mismatched => push_mismatched(alloc, layout, entries, name, &mut told.mismatched),
        Standing::Partial(function, root, _, _) => {
            push_open(alloc, layout, entries, name, function, root, &mut told.open)
        }
        Standing::Complete(_, _) => Ok(()),
    }
}

/// The rounds whose calls don't match, and those that some members haven't entered, in the order of the rounds.
pub(crate) fn rounds_of(
    alloc: Global,
    layout: &Layout,
    entries: &Entries<'_>,
    rounds: &[Round],
) -> Result<Rounds, AllocError>
    ensures { IfOk result (AreTold layout.now entries.now rounds.now) }
{
    let mut told = Rounds {
        mismatched: Vec::new(alloc),
        open: Vec::new(alloc),
    };
    for round in rounds {
        push_round(alloc, layout, entries, round, &mut told)?;
    }
    Ok(told)
}

/// The ranks of a mismatched round's groups, in rising order.
pub(crate) fn ranks_entered(
    alloc: Global,
    round: &MismatchedRound,
) -> Result<Vec<u32>, AllocError> {
    let mut ranks = Vec::new(alloc);
    for group in &round.groups {
        ranks.extend_from_slice(&group.ranks)?;
    }
    ranks.sort()?;
    Ok(ranks)
}
