//! The rounds in which arguments don't agree.

ghost use Rattle.std.specs.Prelude.{◌≡◌, ◌++◌, ◌∷◌, [], All, IfOk, OnOk, filter, map};
ghost use Rattle.std.specs.List.Sorted.{IsNonDecreasingBy, IsPermutation};
ghost use Rattle.std.specs.Option.{option_copied};
ghost use Rattle.call_arguments.specs.Table.{compared_of, lines_of};
ghost use Rattle.trace_arguments.specs.Arguments.{AreTold, HasGroups, comparison, headed, heading_of, is_told, name_of, told_in, told_of};
ghost use Rattle.trace_arguments.specs.Groups.{groups_of};
ghost use Rattle.trace_arguments.specs.Values.{values_of};

use crate::calls::CallsTold;
use crate::differing::{differ, root_of};
use crate::disagreement::{Comparison, Disagreement, ValueGroup};
use crate::groups::grouped;
use crate::pairs::paired_with;
use crate::values::{Valued, values_of};
use call_arguments::{Line, compared_of, lines_of};
use mpi_model::{CollectiveFunction, Layout};
use std::alloc::{AllocError, Global};
use trace_ops::RankOps;
use trace_stuck::RoundName;
use trace_wait::{Entries, Round, Standing, entries_of};

/// The groups that a comparison tells.
fn groups_of(
    alloc: Global,
    c: Comparison,
    values: &[Valued<'_>],
) -> Result<Vec<ValueGroup>, AllocError>
    ensures { IfOk result (λ groups. groups.items ≡ groups_of c values.now) }
{
    match c.line {
        Line::Listed => paired_with(alloc, root_of(c.root, values), values),
        Line::Operation | Line::Alike | Line::Rooted => grouped(alloc, c.line, values),
    }
}

/// The members in the order of their ranks.
fn by_rank<'a>(values: Vec<Valued<'a>>) -> Result<Vec<Valued<'a>>, AllocError>
    ensures all { IfOk result (λ sorted. IsPermutation values.entry.items sorted.items) }
    ensures rising { IfOk result (λ sorted. IsNonDecreasingBy (λ v. v.rank) sorted.items) }
{
    let mut sorted = values;
    sorted.sort_by_key(|value| value.rank)?;
    Ok(sorted)
}

/// A round in which known values differ.
fn disagreement_of(
    alloc: Global,
    layout: &Layout,
    entries: &Entries<'_>,
    calls: &CallsTold,
    function: CollectiveFunction,
    c: Comparison,
    values: Vec<Valued<'_>>,
) -> Result<Disagreement, AllocError>
    requires { values.items ≡ values_of layout.now entries.now calls.now c }
    ensures heading { IfOk result (λ d. heading_of d ≡ headed function c) }
    ensures groups { IfOk result (HasGroups layout.now entries.now calls.now) }
{
    let sorted = by_rank(values)?;
    let groups = groups_of(alloc, c, &sorted)?;
    Ok(Disagreement {
        comparison: c,
        function,
        groups,
    })
}

/// Adds a round, where known values differ in a line.
fn push_line(
    alloc: Global,
    layout: &Layout,
    entries: &Entries<'_>,
    calls: &CallsTold,
    function: CollectiveFunction,
    c: Comparison,
    told: &mut Vec<Disagreement>,
) -> Result<(), AllocError>
    ensures headings { OnOk result (map heading_of told.new.items ≡ map heading_of told.old.items ++ map (headed function) (filter (is_told layout.now entries.now calls.now) (c ∷ []))) }
    ensures groups { OnOk result (All (HasGroups layout.now entries.now calls.now) told.old.items → All (HasGroups layout.now entries.now calls.now) told.new.items) }
{
    let values = values_of(alloc, layout, entries, calls, c)?;
    if differ(c, &values) {
        let one = disagreement_of(alloc, layout, entries, calls, function, c, values)?;
        told.push(one)?;
    }
    Ok(())
}

/// Adds a round for each line in which known values differ.
fn push_lines(
    alloc: Global,
    layout: &Layout,
    entries: &Entries<'_>,
    calls: &CallsTold,
    round: RoundName,
    function: CollectiveFunction,
    root: Option<u32>,
    told: &mut Vec<Disagreement>,
) -> Result<(), AllocError>
    ensures headings { OnOk result (map heading_of told.new.items ≡ map heading_of told.old.items ++ told_of layout.now entries.now calls.now round function root) }
    ensures groups { OnOk result (All (HasGroups layout.now entries.now calls.now) told.old.items → All (HasGroups layout.now entries.now calls.now) told.new.items) }
{
    let lines = lines_of(compared_of(function.kind()));
    for line in lines {
        let c = Comparison {
            round,
            root,
            line: *line,
        };
        push_line(alloc, layout, entries, calls, function, c, told)?;
    }
    Ok(())
}

/// The name of a round.
fn name_of(round: &Round) -> RoundName
    ensures { result ≡ name_of round.now }
{
    RoundName {
        object: round.comm,
        k: round.k,
    }
}

/// The same of a round, unless its calls don't match or are on an intercommunicator.
fn push_round(
    alloc: Global,
    layout: &Layout,
    entries: &Entries<'_>,
    calls: &CallsTold,
    round: &Round,
    told: &mut Vec<Disagreement>,
) -> Result<(), AllocError>
    ensures headings { OnOk result (map heading_of told.new.items ≡ map heading_of told.old.items ++ told_in layout.now entries.now calls.now round.now) }
    ensures groups { OnOk result (All (HasGroups layout.now entries.now calls.now) told.old.items → All (HasGroups layout.now entries.now calls.now) told.new.items) }
{
    if layout.is_intercomm(round.comm) {
        return Ok(());
    }
    let name = name_of(round);
    match round.standing {
        Standing::Mismatched => Ok(()),
        Standing::Complete(function, root) => {
            push_lines(alloc, layout, entries, calls, name, function, root, told)
        }
        Standing::Partial(function, root, _, _) => {
            push_lines(alloc, layout, entries, calls, name, function, root, told)
        }
    }
}

/// The rounds in which known values differ, of these.
fn told_among(
    alloc: Global,
    layout: &Layout,
    entries: &Entries<'_>,
    calls: &CallsTold,
    rounds: &[Round],
) -> Result<Vec<Disagreement>, AllocError>
    ensures { IfOk result (λ told. AreTold layout.now entries.now calls.now rounds.now told.items) }
{
    let mut told = Vec::new(alloc);
    for round in rounds {
        push_round(alloc, layout, entries, calls, round, &mut told)?;
    }
    Ok(told)
}

/// The rounds, among these, of calls that match but don't agree in their arguments: one for each line of the table of
/// arguments in which two members have different values that are known, in the order of the rounds and then of the
/// lines (MPI 4.0, 6). Rounds of an intercommunicator aren't compared. What the ranks did is given, and what their
/// calls tell.
pub fn arguments_of(
    alloc: Global,
    layout: &Layout,
    ops: &[RankOps],
    calls: &CallsTold,
    rounds: &[Round],
) -> Result<Vec<Disagreement>, AllocError>
    ensures { IfOk result (λ told. AreTold layout.now ops.now calls.now rounds.now told.items) }
{
    let entries = entries_of(alloc, ops)?;
    told_among(alloc, layout, &entries, calls, rounds)
}
