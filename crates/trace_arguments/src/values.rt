//! What is known of the members of a round.

ghost use Rattle.std.specs.Prelude.{◌≡◌, ◌++◌, IfOk, OnOk, option_to_list};
ghost use Rattle.std.specs.Option.{option_copied};
ghost use Rattle.trace_wait.specs.Rounds.{group};
ghost use Rattle.trace_arguments.specs.Values.{entered_at, is_root, told_by, told_in, valued_at, values_of};

use crate::calls::CallsTold;
use crate::disagreement::Comparison;
use call_arguments::{Known, Line, Told};
use mpi_model::Layout;
use std::alloc::{AllocError, Global};
use std::marker::Model;
use trace_ops::Entered;
use trace_stuck::RoundName;
use trace_wait::Entries;

/// What is known of a member that has entered a round.
#[derive(Drop)]
pub(crate) struct Valued<'a> {
    /// Its place in the group, from 0.
    pub place: usize,
    pub rank: u32,
    /// The number of its call.
    pub call: u64,
    pub known: &'a Known,
}

impl<'a> Model for Valued<'a> {
    ghost use Rattle.trace_arguments.specs.Values.{ValuedParts};

    ghost Value = { ValuedParts };

    ghost view = { λ v. record { place = v.place; rank = v.rank; call = v.call; known = v.known.now } };
}

/// The members of an object, in the order of their ranks in it.
fn members_of<'a>(layout: &'a Layout, object: u32) -> &'a [u32]
    ensures { result.now ≡ group layout.now.comms object }
{
    match layout.members(object) {
        Some(members) => members,
        None => &[],
    }
}

/// The call by which the rank entered a round, where it has.
fn entered_at(entries: &Entries<'_>, round: RoundName, rank: u32) -> Option<Entered>
    ensures { result ≡ entered_at entries.now round rank }
{
    entries
        .on(rank, round.object)
        .get(round.k as usize)
        .copied()
}

/// Whether the member at this place of the group is the root.
pub(crate) fn is_root(root: Option<u32>, place: usize) -> bool
    ensures { result ≡ is_root root place }
{
    match root {
        Some(root) => root as usize == place,
        None => false,
    }
}

/// What a line compares of what a call tells.
fn told_in(line: Line, root: bool, told: &Told) -> Option<&Known>
    ensures { option_copied result ≡ told_in line root told.now }
{
    match line {
        Line::Operation => told.operation(),
        Line::Alike => told.counts(),
        Line::Rooted | Line::Listed => if root { told.at_root() } else { told.counts() },
    }
}

/// What a call of a member tells.
fn told_by<'a>(
    calls: &'a CallsTold,
    c: Comparison,
    place: usize,
    rank: u32,
    call: u64,
) -> Option<Valued<'a>>
    ensures { result ≡ told_by calls.now c place rank call }
{
    let told = calls.get(rank, call)?;
    let known = told_in(c.line, is_root(c.root, place), told)?;
    Some(Valued {
        place,
        rank,
        call,
        known,
    })
}

/// What is known of the member at a place of the group, where it has entered the round.
fn valued_at<'a>(
    entries: &Entries<'_>,
    calls: &'a CallsTold,
    c: Comparison,
    place: usize,
    rank: u32,
) -> Option<Valued<'a>>
    ensures { result ≡ valued_at entries.now calls.now c place rank }
{
    let entered = entered_at(entries, c.round, rank)?;
    told_by(calls, c, place, rank, entered.call)
}

/// Adds what is known of a member.
fn push_value<'a>(values: &mut Vec<Valued<'a>>, value: Option<Valued<'a>>) -> Result<(), AllocError>
    ensures { OnOk result (values.new.items ≡ values.old.items ++ option_to_list value.entry) }
{
    if let Some(value) = value {
        values.push(value)?;
    }
    Ok(())
}

/// What is known of all members, in group order.
pub(crate) fn values_of<'a>(
    alloc: Global,
    layout: &Layout,
    entries: &Entries<'_>,
    calls: &'a CallsTold,
    c: Comparison,
) -> Result<Vec<Valued<'a>>, AllocError>
    ensures { IfOk result (λ values. values.items ≡ values_of layout.now entries.now calls.now c) }
{
    let mut values = Vec::new(alloc);
    let members = members_of(layout, c.round.object);
    for (place, rank) in members.iter().enumerate() {
        push_value(&mut values, valued_at(entries, calls, c, place, *rank))?;
    }
    Ok(values)
}
