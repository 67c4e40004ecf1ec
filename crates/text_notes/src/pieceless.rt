//! Ranks of which no piece tells anything.

ghost use Rattle.std.specs.Prelude.{◌≡◌, IfOk};
ghost use Rattle.std.specs.List.{list_any};
ghost use Rattle.call_words.specs.Texts.{Adds};
ghost use Rattle.text_notes.specs.Words.{has_no_text, is_of_rank, pieceless, pieceless_text, these_pieceless_text};

use crate::note::TextNote;
use call_words::{Text, put_named_ranks};
use std::alloc::{AllocError, Global};

/// Whether the text is one of this rank.
fn is_of_rank(rank: u32, note: &TextNote) -> bool
    ensures { result ≡ is_of_rank rank note.now }
{
    note.rank() == rank
}

/// Whether there is a text of the rank.
fn has_text(notes: &[TextNote], rank: u32) -> bool
    ensures { result ≡ list_any (is_of_rank rank) notes.now }
{
    notes.iter().any(|note| is_of_rank(rank, note))
}

/// Whether no text of the rank was given.
fn has_no_text(notes: &[TextNote], rank: u32) -> bool
    ensures { result ≡ has_no_text notes.now rank }
{
    !has_text(notes, rank)
}

/// Those among the ranks that have no text.
fn pieceless(alloc: Global, notes: &[TextNote], unknown: &[u32]) -> Result<Vec<u32>, AllocError>
    ensures { IfOk result (λ ranks. ranks.items ≡ pieceless notes.now unknown.now) }
{
    let mut ranks = Vec::new(alloc);
    for rank in unknown {
        if has_no_text(notes, *rank) {
            ranks.push(*rank)?;
        }
    }
    Ok(ranks)
}

/// `  no piece tells anything of ranks 3, 5`.
fn put_these(out: &mut Text, ranks: &[u32])
    ensures { Adds out.old out.new (these_pieceless_text ranks.now) }
{
    out.put(b"  no piece tells anything of ");
    put_named_ranks(out, ranks);
    out.put(b"\n");
}

/// The ranks without a text: nothing where each has one.
fn put_some(out: &mut Text, ranks: &[u32])
    ensures { Adds out.old out.new (pieceless_text ranks.now) }
{
    if !ranks.is_empty() {
        put_these(out, ranks);
    }
}

/// Says which of these ranks, of which nothing is known, have no text; nothing if each has one.
pub fn put_pieceless(alloc: Global, out: &mut Text, notes: &[TextNote], unknown: &[u32])
    ensures { Adds out.old out.new (pieceless_text (pieceless notes.now unknown.now)) }
{
    match pieceless(alloc, notes, unknown) {
        Ok(ranks) => put_some(out, &ranks),
        Err(_) => out.give_up(),
    }
}
