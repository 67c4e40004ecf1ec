//! Rounds of collective calls.

ghost use Rattle.std.specs.Prelude.{◌++◌, codes, decimal};
ghost use Rattle.std.specs.List.{flat_map};
ghost use Rattle.trace_report.specs.Page.{Prints};
ghost use Rattle.trace_report.specs.Report.{called_text, complete_text, open_text, root_text, round_line, standing_text};

use crate::sink::Sink;
use crate::words::{put_function, put_number};
use mpi_model::CollectiveFunction;
use trace_wait::{Round, Standing};

/// A line for each round of collective calls.
pub(crate) fn put_rounds<S: Sink>(out: &mut S, rounds: &[Round])
    ensures { Prints (S.page out.old) (S.page out.new) (flat_map round_line rounds.now) }
{
    for round in rounds {
        put_round(out, round);
    }
}

/// `round COMM:K` and how it stands.
fn put_round<S: Sink>(out: &mut S, round: &Round)
    ensures { Prints (S.page out.old) (S.page out.new) (round_line round.now) }
{
    out.put(b"round ");
    put_number(out, round.comm as u64);
    out.put(b":");
    put_number(out, round.k);
    out.put(b" ");
    put_standing(out, round.standing);
    out.put(b"\n");
}

/// How a round stands.
fn put_standing<S: Sink>(out: &mut S, standing: Standing)
    ensures { Prints (S.page out.old) (S.page out.new) (standing_text standing) }
{
    match standing {
        Standing::Mismatched => out.put(b"mismatched"),
        Standing::Complete(function, root) => put_complete(out, function, root),
        Standing::Partial(function, root, entered, members) => {
            put_open(out, function, root, entered, members)
        }
    }
}

/// `bcast 0 complete`.
fn put_complete<S: Sink>(out: &mut S, function: CollectiveFunction, root: Option<u32>)
    ensures { Prints (S.page out.old) (S.page out.new) (complete_text function root) }
{
    put_called(out, function, root);
    out.put(b" complete");
}

/// `barrier open E of M`: so many of all members have entered.
fn put_open<S: Sink>(
    out: &mut S,
    function: CollectiveFunction,
    root: Option<u32>,
    entered: u32,
    members: u32,
)
    ensures { Prints (S.page out.old) (S.page out.new) (open_text function root entered members) }
{
    put_called(out, function, root);
    out.put(b" open ");
    put_number(out, entered as u64);
    out.put(b" of ");
    put_number(out, members as u64);
}

/// `bcast 0`, `ibcast 0`, `barrier`.
fn put_called<S: Sink>(out: &mut S, function: CollectiveFunction, root: Option<u32>)
    ensures { Prints (S.page out.old) (S.page out.new) (called_text function root) }
{
    put_function(out, function);
    put_root(out, root);
}

/// The root, where the kind has one, as its rank in the group.
fn put_root<S: Sink>(out: &mut S, root: Option<u32>)
    ensures { Prints (S.page out.old) (S.page out.new) (root_text root) }
{
    match root {
        Some(root) => put_some_root(out, root),
        None => out.put(b""),
    }
}

/// The root's rank in the group, behind a space.
fn put_some_root<S: Sink>(out: &mut S, root: u32)
    ensures { Prints (S.page out.old) (S.page out.new) (codes " " ++ decimal root) }
{
    out.put(b" ");
    put_number(out, root as u64);
}
