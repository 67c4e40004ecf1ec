//! The ranks whose texts were cut off, and those texts.

use diagnosis_words::CutText;
use run_inputs::Opener;
use std::alloc::{AllocError, Global};
use text_notes::TextNote;
use trace_know::Knowledge;

/// How many events are known of a rank up to the end of a text: two of each call, but for one that has not returned.
fn end_of(note: &TextNote) -> u64 {
    let calls = note.first().saturating_add(note.calls());
    let events = calls.saturating_mul(2);
    match note.calls().checked_sub(1) {
        Some(last) if note.line_of(last).is_some() => events.saturating_sub(1),
        _ => events,
    }
}

/// Of each rank whether its readable prefix ends where a text of it was cut off: the rank has gone on.
pub(crate) fn cut_ranks<O: Opener>(
    alloc: Global,
    know: &Knowledge,
    ranks: u32,
    notes: &[TextNote],
    files: &O,
) -> Result<Vec<bool>, AllocError> {
    let mut cut = Vec::new(alloc);
    for _ in 0..ranks {
        cut.push(false)?;
    }
    for note in notes {
        let rank = note.rank() as usize;
        if rank < cut.len()
            && files.cut_line(note.path()).is_some()
            && know.prefix(note.rank()) == end_of(note)
        {
            cut[rank] = true;
        }
    }
    Ok(cut)
}

/// The texts that were cut off, in the order of the pieces.
pub(crate) fn cut_texts<O: Opener>(
    alloc: Global,
    notes: &[TextNote],
    files: &O,
) -> Result<Vec<CutText>, AllocError> {
    let mut texts = Vec::new(alloc);
    for (at, note) in notes.iter().enumerate() {
        if let Some(line) = files.cut_line(note.path()) {
            let rank = note.rank();
            texts.push(CutText {
                rank,
                note: at,
                line,
            })?;
        }
    }
    Ok(texts)
}
