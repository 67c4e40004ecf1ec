//! What is said first: how it stands with the run.

use crate::writer::Writer;
use diagnosis_value::{Root, RootKind, Stand};
use std::alloc::AllocError;

/// What the first line says.
#[derive(Clone, Copy)]
pub(crate) enum Headline {
    Stuck(usize),
    Mismatch(usize),
    /// Arguments of calls don't agree.
    Arguments,
    /// Ranks wait for ranks that give no sign.
    Silent(usize),
    /// Ranks wait for one another, and some of them poll.
    Polling(usize),
    /// Ranks poll for ranks that have ended.
    Ended(usize),
    Nobody,
}

/// Which roots a headline is of.
#[derive(Clone, Copy, PartialEq, Eq)]
enum Sort {
    Mismatched,
    GivingNoSign,
    Polling,
    Ended,
}

/// Whether a root is of a sort.
fn is_of(root: &Root, sort: Sort) -> bool {
    match root.kind {
        RootKind::Mismatch(_) => sort == Sort::Mismatched,
        RootKind::Cycle => sort == Sort::Polling && !root.proved,
        RootKind::Ended => sort == Sort::Ended,
        RootKind::Silent | RootKind::Open => sort == Sort::GivingNoSign,
    }
}

/// Whether the ranks of a root wait themselves.
fn is_waiting(root: &Root) -> bool {
    matches!(root.kind, RootKind::Mismatch(_) | RootKind::Cycle)
}

/// How many ranks stand in the roots of a sort, where those wait, or behind them.
fn count_in(w: &Writer<'_>, sort: Sort) -> Result<usize, AllocError> {
    let mut flags: Vec<bool> = Vec::new(w.source.alloc);
    for _ in 0..w.source.diagnosis.ranks {
        flags.push(false)?;
    }
    for root in w.source.diagnosis.waiting.roots.iter() {
        if is_of(root, sort) {
            mark(&mut flags, root.holds_up.as_slice());
            if is_waiting(root) {
                mark(&mut flags, root.ranks.as_slice());
            }
        }
    }
    Ok(flags.iter().filter(|flag| **flag).count())
}

/// Sets the flags of these ranks.
fn mark(flags: &mut Vec<bool>, ranks: &[u32]) {
    for rank in ranks {
        if let Some(flag) = flags.as_mut_slice().get_mut(*rank as usize) {
            *flag = true;
        }
    }
}

/// What the first line says: the first that applies.
pub(crate) fn headline_of(w: &Writer<'_>) -> Result<Headline, AllocError> {
    let stuck = w.source.diagnosis.stuck.len();
    if stuck > 0 {
        return Ok(Headline::Stuck(stuck));
    }
    let count = count_in(w, Sort::Mismatched)?;
    if count > 0 {
        return Ok(Headline::Mismatch(count));
    }
    let texts = w.source.texts;
    if !texts.truncated.is_empty() || !texts.arguments.is_empty() {
        return Ok(Headline::Arguments);
    }
    let count = count_in(w, Sort::GivingNoSign)?;
    if count > 0 {
        return Ok(Headline::Silent(count));
    }
    let count = count_in(w, Sort::Polling)?;
    if count > 0 {
        return Ok(Headline::Polling(count));
    }
    let count = count_in(w, Sort::Ended)?;
    if count > 0 {
        return Ok(Headline::Ended(count));
    }
    Ok(Headline::Nobody)
}

impl<'a> Writer<'a> {
    /// `3 of 4 ranks `.
    fn put_of_all(&mut self, count: usize) {
        self.put_number(count as u64);
        self.put(b" of ");
        let ranks = self.source.diagnosis.ranks;
        self.put_counted(ranks as usize, b" rank ", b" ranks ");
    }

    /// The first line.
    pub fn put_headline(&mut self, headline: Headline) {
        match headline {
            Headline::Stuck(count) => {
                self.put_of_all(count);
                self.put_either(count, b"is stuck.\n", b"are stuck.\n");
            }
            Headline::Mismatch(count) => {
                self.put(b"Collective calls don't match, which MPI forbids: ");
                self.put_of_all(count);
                self.put_either(
                    count,
                    b"stands in them or waits for those that do.\n",
                    b"stand in them or wait for those that do.\n",
                );
            }
            Headline::Arguments => self.put_first_disagreement(),
            Headline::Silent(count) => {
                self.put(b"No rank is proved to be stuck, but ");
                self.put_of_all(count);
                self.put_either(
                    count,
                    b"waits for ranks that give no sign.\n",
                    b"wait for ranks that give no sign.\n",
                );
            }
            Headline::Polling(count) => {
                self.put(b"No rank is proved to be stuck, but ");
                self.put_of_all(count);
                self.put_either(
                    count,
                    b"waits for itself, by polling.\n",
                    b"wait for one another, some of them by polling.\n",
                );
            }
            Headline::Ended(count) => {
                self.put(b"No rank is proved to be stuck, but ");
                self.put_of_all(count);
                self.put_either(
                    count,
                    b"waits for ranks that have ended, by polling.\n",
                    b"wait for ranks that have ended, some of them by polling.\n",
                );
            }
            Headline::Nobody => self.put_nobody(),
        }
    }

    /// How many ranks stand so.
    fn count_of(&self, stand: Stand) -> usize {
        let standing = self.source.diagnosis.waiting.standing.as_slice();
        standing.iter().filter(|one| one.stand == stand).count()
    }

    /// That nobody waits.
    fn put_nobody(&mut self) {
        let ranks = self.source.diagnosis.ranks as usize;
        let ended = self.count_of(Stand::Ended);
        self.put(b"Nobody waits: ");
        self.put_counted(ended, b" rank ended", b" ranks ended");
        if ended < ranks {
            self.put(b", ");
            self.put_number(ranks.saturating_sub(ended) as u64);
            self.put_either(
                ranks.saturating_sub(ended),
                b" is not seen to wait",
                b" are not seen to wait",
            );
        }
        self.put(b".\n");
    }

    /// Where all ranks stand, in one line.
    pub fn put_summary(&mut self) {
        let ranks = self.source.diagnosis.ranks as usize;
        self.put(b"Of ");
        self.put_counted(ranks, b" rank, ", b" ranks, ");
        let inside = self.count_of(Stand::In);
        self.put_counted(inside, b" stands in a call", b" stand in a call");
        let behind = self.count_of(Stand::Behind);
        self.put(b", ");
        self.put_counted(
            behind,
            b" is behind its last one",
            b" are behind their last one",
        );
        let ended = self.count_of(Stand::Ended);
        self.put(b", ");
        self.put_counted(ended, b" has ended", b" have ended");
        let none = self.count_of(Stand::Nowhere);
        if none > 0 {
            self.put(b", ");
            self.put_counted(
                none,
                b" has no call that can be read",
                b" have no call that can be read",
            );
        }
        self.put(b".\n");
    }
}
