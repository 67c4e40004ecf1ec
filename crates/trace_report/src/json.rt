//! The report as one JSON object.

ghost use Rattle.std.specs.Prelude.{map};
ghost use Rattle.trace_report.specs.Json.{head_fields, joined, json_text, last_fields, stuck_object};
ghost use Rattle.trace_report.specs.Page.{Prints};
ghost use Rattle.trace_node.specs.Stopped.{stopped};

mod array;
mod objects;
mod ranks;

use crate::sink::Sink;
use crate::words::{put_number, sends_word};
use array::put_all;
use ranks::put_ranks;
use trace_node::{Answer, Stuck};

/// Puts the whole object, and a line feed.
pub(crate) fn put_json<S: Sink>(out: &mut S, answer: &Answer)
    ensures { Prints (S.page out.old) (S.page out.new) (json_text answer.now) }
{
    put_head(out, answer);
    put_ranks(out, answer);
    out.put(b"],\"conflict\":[");
    put_all(out, answer.conflicts());
    out.put(b"],\"pair\":[");
    put_all(out, answer.pairs());
    out.put(b"],\"postponed\":[");
    put_all(out, answer.postponed());
    out.put(b"],\"round\":[");
    put_all(out, answer.rounds());
    out.put(b"],\"stuck\":[");
    put_all_stuck(out, answer.stuck());
    put_last(out, answer);
}

/// The ranks and how sends complete.
fn put_head<S: Sink>(out: &mut S, answer: &Answer)
    ensures { Prints (S.page out.old) (S.page out.new) (head_fields answer.now) }
{
    out.put(b"{\"report\":1,\"ranks\":");
    put_number(out, answer.ranks() as u64);
    out.put(b",\"sends\":\"");
    out.put(sends_word(answer.sends()));
    out.put(b"\",\"rank\":[");
}

/// The stuck ranks, with a comma between two of them.
fn put_all_stuck<S: Sink>(out: &mut S, ranks: &[Stuck])
    ensures { Prints (S.page out.old) (S.page out.new) (joined stuck_object (map stopped ranks.now)) }
{
    put_all(out, ranks);
}

/// How many calls are foreign, and the end of the line.
fn put_last<S: Sink>(out: &mut S, answer: &Answer)
    ensures { Prints (S.page out.old) (S.page out.new) (last_fields answer.now) }
{
    out.put(b"],\"foreign\":");
    put_number(out, answer.foreign());
    out.put(b"}\n");
}
