//! What a stuck rank waits for, in words.

ghost use Rattle.std.specs.Prelude.{◌≡◌, map};
ghost use Rattle.trace_report.specs.Page.{Prints};
ghost use Rattle.trace_stuck.specs.Shape.{shape, waits_of, OnRank};
ghost use Rattle.trace_report.specs.Waits.{before_part, list_text, part_text, parts_text, wait_text, words_of};

use crate::form::Form;
use crate::sink::Sink;
use crate::words::put_number;
use trace_stuck::Condition;

/// What a condition waits for, in the words of a form: nothing, a rank, or all or one of its parts.
#[cycle(wait)]
#[tactic(auto, using(crate::proofs::Shapes::shapes))]
pub(crate) fn put_wait<S: Sink>(out: &mut S, form: Form, condition: &Condition)
    ensures { Prints (S.page out.old) (S.page out.new) (wait_text (words_of form) (shape condition.now)) }
{
    match condition {
        Condition::Yes => out.put(form.yes()),
        Condition::Rank(r) => put_number(out, *r as u64),
        Condition::All(parts) => put_list(out, form, form.all(), parts),
        Condition::One(parts) => put_list(out, form, form.any(), parts),
        Condition::OneRank(ranks) => put_rank_list(out, form, form.any(), ranks),
        Condition::AllRanks(ranks) => put_rank_list(out, form, form.all(), ranks),
        Condition::Mismatched(_) => out.put(form.yes()),
    }
}

/// All of, or one of, these parts, behind its head.
#[cycle(wait)]
fn put_list<S: Sink>(out: &mut S, form: Form, head: &[u8], parts: &[Condition])
    ensures { Prints (S.page out.old) (S.page out.new) (list_text (words_of form) head.now (waits_of (map shape parts.now))) }
{
    out.put(head);
    put_parts(out, form, parts);
    out.put(form.close());
}

/// The parts of a condition, in the words of a form.
#[cycle(wait)]
fn put_parts<S: Sink>(out: &mut S, form: Form, parts: &[Condition])
    ensures { Prints (S.page out.old) (S.page out.new) (parts_text (words_of form) (waits_of (map shape parts.now))) }
{
    for (i, part) in parts.iter().enumerate() {
        put_part(out, form, i, part);
    }
}

/// A part by its place, with what stands before it.
#[cycle(wait)]
fn put_part<S: Sink>(out: &mut S, form: Form, i: usize, part: &Condition)
    ensures { Prints (S.page out.old) (S.page out.new) (part_text (words_of form) i (shape part.now)) }
{
    out.put(before_part(form, i));
    put_wait(out, form, part);
}

/// The same of parts that are plain ranks.
fn put_rank_list<S: Sink>(out: &mut S, form: Form, head: &[u8], ranks: &[u32])
    ensures { Prints (S.page out.old) (S.page out.new) (list_text (words_of form) head.now (waits_of (map OnRank ranks.now))) }
{
    out.put(head);
    put_ranks(out, form, ranks);
    out.put(form.close());
}

/// The ranks that are the parts of a condition.
fn put_ranks<S: Sink>(out: &mut S, form: Form, ranks: &[u32])
    ensures { Prints (S.page out.old) (S.page out.new) (parts_text (words_of form) (waits_of (map OnRank ranks.now))) }
{
    for (i, rank) in ranks.iter().enumerate() {
        put_rank(out, form, i, *rank);
    }
}

/// A rank that is a part, by its place, with what stands before it.
fn put_rank<S: Sink>(out: &mut S, form: Form, i: usize, rank: u32)
    ensures { Prints (S.page out.old) (S.page out.new) (part_text (words_of form) i (OnRank rank)) }
{
    out.put(before_part(form, i));
    put_number(out, rank as u64);
}

/// What stands before a part, by its place among the parts.
fn before_part(form: Form, i: usize) -> &'static [u8]
    ensures { result.now ≡ before_part (words_of form) i }
{
    if i == 0 { b"" } else { form.between() }
}
