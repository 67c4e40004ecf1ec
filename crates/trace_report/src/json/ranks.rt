//! What is known of each rank.

ghost use Rattle.std.specs.Prelude.{◌≡◌, ◌++◌};
ghost use Rattle.trace_report.specs.Json.{bool_text, comma_before, rank_fields, rank_object, rank_objects};
ghost use Rattle.trace_report.specs.Page.{Prints};

use crate::json::array::comma_before;
use crate::ranks::{is_beyond, is_unread, prefix_at, state_at};
use crate::sink::Sink;
use crate::words::{put_number, state_word};
use trace_node::Answer;
use trace_ops::State;

/// The objects of the ranks, in rising order, with commas between them.
pub(crate) fn put_ranks<S: Sink>(out: &mut S, answer: &Answer)
    ensures { Prints (S.page out.old) (S.page out.new) (rank_objects answer.now answer.now.ranks) }
{
    for rank in 0..answer.ranks() {
        put_item(out, answer, rank);
    }
}

/// The object of a rank, with the comma in front of it, but for the first.
fn put_item<S: Sink>(out: &mut S, answer: &Answer, rank: u32)
    ensures { Prints (S.page out.old) (S.page out.new) (comma_before rank ++ rank_object answer.now rank) }
{
    out.put(comma_before(rank as usize));
    put_rank(out, answer, rank);
}

/// The object of a rank.
fn put_rank<S: Sink>(out: &mut S, answer: &Answer, rank: u32)
    ensures { Prints (S.page out.old) (S.page out.new) (rank_object answer.now rank) }
{
    let prefix = prefix_at(answer, rank);
    let state = state_at(answer, rank);
    let beyond = is_beyond(answer, rank);
    let unread = is_unread(answer, rank);
    put_fields(out, rank, prefix, state, beyond, unread);
}

/// A rank: `{"rank":R,"prefix":P,"state":"free","beyond":false,"unread":false}`.
fn put_fields<S: Sink>(
    out: &mut S,
    rank: u32,
    prefix: u64,
    state: State,
    beyond: bool,
    unread: bool,
)
    ensures { Prints (S.page out.old) (S.page out.new) (rank_fields rank prefix state beyond unread) }
{
    out.put(b"{\"rank\":");
    put_number(out, rank as u64);
    out.put(b",\"prefix\":");
    put_number(out, prefix);
    out.put(b",\"state\":\"");
    out.put(state_word(state));
    out.put(b"\",\"beyond\":");
    out.put(bool_text(beyond));
    out.put(b",\"unread\":");
    out.put(bool_text(unread));
    out.put(b"}");
}

/// A truth value.
pub(crate) fn bool_text(b: bool) -> &'static [u8]
    ensures { result.now ≡ bool_text b }
{
    if b { b"true" } else { b"false" }
}
