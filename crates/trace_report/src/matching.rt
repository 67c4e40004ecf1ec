//! Contradictions, pairs and postponed messages.

ghost use Rattle.std.specs.Prelude.{◌≡◌, ◌+◌, ◌≤◌, ◌++◌, length};
ghost use Rattle.std.specs.List.{flat_map};
ghost use Rattle.trace_report.specs.Page.{Prints};
ghost use Rattle.trace_report.specs.Report.{conflict_line, name_text, pair_line, postponed_line};

use crate::line::{Line, ROOM};
use crate::sink::Sink;
use mpi_model::OpName;
use trace_pair::Pair;

/// A line for each place of which two pieces say different things.
pub(crate) fn put_conflicts<S: Sink>(out: &mut S, places: &[(u32, u64)])
    ensures { Prints (S.page out.old) (S.page out.new) (flat_map conflict_line places.now) }
{
    for at in places {
        put_conflict(out, at);
    }
}

/// `conflict R PLACE`: two pieces say different things of this place.
fn put_conflict<S: Sink>(out: &mut S, at: &(u32, u64))
    ensures { Prints (S.page out.old) (S.page out.new) (conflict_line at.now) }
{
    let mut line = Line::new();
    line.prepend_number(at.1);
    line.prepend(b" ");
    line.prepend_number(at.0 as u64);
    line.prepend(b"conflict ");
    out.put(line.text());
}

/// Puts an operation in front of a line, by its rank and the number of its call, `R:CALL`, or `R:CALL.PART` behind the
/// first part of a Startall.
#[inline(always)]
fn prepend_name(line: &mut Line, name: &OpName)
    requires { 62 + length line.old ≤ ROOM }
    ensures text { line.new ≡ name_text name.now ++ line.old }
    ensures short { length line.new ≤ 62 + length line.old }
{
    line.prepend_part(name.part);
    line.prepend_number(name.call);
    line.prepend(b":");
    line.prepend_number(name.rank as u64);
}

/// A line for each pair of a message and a receive.
pub(crate) fn put_pairs<S: Sink>(out: &mut S, pairs: &[Pair])
    ensures { Prints (S.page out.old) (S.page out.new) (flat_map pair_line pairs.now) }
{
    for pair in pairs {
        put_pair(out, pair);
    }
}

/// `pair R:CALL R:CALL`, the message before the receive, with ` over` where more is sent than the receive takes.
fn put_pair<S: Sink>(out: &mut S, pair: &Pair)
    ensures { Prints (S.page out.old) (S.page out.new) (pair_line pair.now) }
{
    let mut line = Line::new();
    line.prepend_where(pair.over, b" over");
    prepend_name(&mut line, &pair.receive);
    line.prepend(b" ");
    prepend_name(&mut line, &pair.message);
    line.prepend(b"pair ");
    out.put(line.text());
}

/// A line for each message that is postponed.
pub(crate) fn put_all_postponed<S: Sink>(out: &mut S, names: &[OpName])
    ensures { Prints (S.page out.old) (S.page out.new) (flat_map postponed_line names.now) }
{
    for name in names {
        put_postponed(out, name);
    }
}

/// `postponed R:CALL`.
fn put_postponed<S: Sink>(out: &mut S, name: &OpName)
    ensures { Prints (S.page out.old) (S.page out.new) (postponed_line name.now) }
{
    let mut line = Line::new();
    prepend_name(&mut line, name);
    line.prepend(b"postponed ");
    out.put(line.text());
}
