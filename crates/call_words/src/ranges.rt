//! Ranks as ranges.

ghost use Rattle.std.specs.Prelude.{◌≡◌, map};
ghost use Rattle.call_words.specs.Ranges.{end_text, follows, held_text, named_ranks_text, next_range, range_behind, range_text, ranges_text, text_before, text_behind};
ghost use Rattle.call_words.specs.Texts.{Adds};

use crate::text::Text;

/// Ranks from the first to the last, which are held until it shows whether the next one joins them.
#[derive(Clone, Copy)]
struct Range {
    first: u32,
    last: u32,
}

/// Whether the rank stands directly behind the range.
fn follows(held: Range, rank: u32) -> bool
    ensures { result ≡ follows held rank }
{
    rank > held.last && rank - held.last == 1
}

/// Goes on to a rank: it joins the range that is held, or that range is added and the rank begins one.
fn put_next(out: &mut Text, held: Option<Range>, rank: u32) -> Option<Range>
    ensures text { Adds out.old out.new (text_before held rank) }
    ensures held { result ≡ next_range held rank }
{
    match held {
        None => Some(Range {
            first: rank,
            last: rank,
        }),
        Some(range) => Some(put_behind(out, range, rank)),
    }
}

/// What is said of the range before the next rank, and the range that is held then.
fn put_behind(out: &mut Text, held: Range, rank: u32) -> Range
    ensures text { Adds out.old out.new (text_behind held rank) }
    ensures held { result ≡ range_behind held rank }
{
    if follows(held, rank) {
        return Range {
            first: held.first,
            last: rank,
        };
    }
    put_range(out, held);
    out.put(b", ");
    Range {
        first: rank,
        last: rank,
    }
}

/// Adds the range that is held.
fn put_held(out: &mut Text, held: Option<Range>)
    ensures { Adds out.old out.new (held_text held) }
{
    if let Some(range) = held {
        put_range(out, range);
    }
}

/// `4`, or `4 to 11`.
fn put_range(out: &mut Text, range: Range)
    ensures { Adds out.old out.new (range_text range) }
{
    out.put_number(range.first as u64);
    if range.last != range.first {
        put_end(out, range.last);
    }
}

/// ` to 11`, where a range has more than one rank.
fn put_end(out: &mut Text, last: u32)
    ensures { Adds out.old out.new (end_text last) }
{
    out.put(b" to ");
    out.put_number(last as u64);
}

/// The ranks, neighbours joined, as `0 to 11, 13`.
pub fn put_ranges(out: &mut Text, ranks: &[u32])
    ensures { Adds out.old out.new (ranges_text ranks.now) }
{
    let mut held = None;
    for rank in ranks {
        held = put_next(out, held, *rank);
    }
    put_held(out, held);
}

/// The ranks behind the word for them, as `rank 3`, or `ranks 0 to 11, 13`.
pub fn put_named_ranks(out: &mut Text, ranks: &[u32])
    ensures { Adds out.old out.new (named_ranks_text ranks.now) }
{
    out.put(if ranks.len() == 1 {
        b"rank ".as_slice()
    } else {
        b"ranks ".as_slice()
    });
    put_ranges(out, ranks);
}
