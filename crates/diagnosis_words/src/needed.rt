//! Which parts of a condition a held rank needs, and how many of the ranks in it.

use crate::source::Source;
use diagnosis_value::Stand;
use trace_stuck::Condition;

/// All ranks but one, as far as they haven't ended; or none at all.
#[derive(Clone, Copy)]
pub(crate) struct Others<'a> {
    pub source: Source<'a>,
    /// The one, or none where no rank can go on.
    pub but: Option<u32>,
}

impl<'a> Others<'a> {
    /// Whether a rank is one of them.
    pub fn has(self, rank: u32) -> bool {
        let Some(but) = self.but else {
            return false;
        };
        let Some(standing) = self.source.standing(rank) else {
            return false;
        };
        rank != but && standing.stand != Stand::Ended
    }

    /// Whether one of the ranks is one of them.
    pub fn has_one(self, ranks: &[u32]) -> bool {
        ranks.iter().any(|rank| self.has(*rank))
    }

    /// Whether all of the ranks are.
    fn has_all(self, ranks: &[u32]) -> bool {
        ranks.iter().all(|rank| self.has(*rank))
    }
}

/// Whether a condition holds where these ranks can go on.
#[cycle(holding)]
pub(crate) fn holds(condition: &Condition, others: Others<'_>) -> bool {
    match condition {
        Condition::Yes => true,
        Condition::Mismatched(_) => false,
        Condition::Rank(rank) => others.has(*rank),
        Condition::All(parts) => all_hold(parts.as_slice(), others),
        Condition::One(parts) => one_holds(parts.as_slice(), others),
        Condition::OneRank(ranks) => others.has_one(ranks.as_slice()),
        Condition::AllRanks(ranks) => others.has_all(ranks.as_slice()),
    }
}

/// Whether all of the parts hold.
#[cycle(holding)]
fn all_hold(parts: &[Condition], others: Others<'_>) -> bool {
    for part in parts {
        if !holds(part, others) {
            return false;
        }
    }
    true
}

/// Whether one of the parts holds.
#[cycle(holding)]
pub(crate) fn one_holds(parts: &[Condition], others: Others<'_>) -> bool {
    for part in parts {
        if holds(part, others) {
            return true;
        }
    }
    false
}

/// Whether one of the ranks that a condition names is enough, whichever it is.
#[cycle(ones)]
pub(crate) fn takes_one(condition: &Condition) -> bool {
    match condition {
        Condition::Yes | Condition::Rank(_) | Condition::Mismatched(_) | Condition::OneRank(_) => {
            true
        }
        Condition::One(parts) => each_takes_one(parts.as_slice()),
        Condition::All(parts) => parts.len() <= 1 && each_takes_one(parts.as_slice()),
        Condition::AllRanks(ranks) => ranks.len() <= 1,
    }
}

/// Whether each of the parts takes one.
#[cycle(ones)]
fn each_takes_one(parts: &[Condition]) -> bool {
    for part in parts {
        if !takes_one(part) {
            return false;
        }
    }
    true
}

/// Whether a condition needs all of the ranks that it names.
#[cycle(alls)]
pub(crate) fn takes_all(condition: &Condition) -> bool {
    match condition {
        Condition::Yes | Condition::Rank(_) | Condition::Mismatched(_) | Condition::AllRanks(_) => {
            true
        }
        Condition::All(parts) => each_takes_all(parts.as_slice()),
        Condition::One(parts) => parts.len() <= 1 && each_takes_all(parts.as_slice()),
        Condition::OneRank(ranks) => ranks.len() <= 1,
    }
}

/// Whether each of the parts takes all.
#[cycle(alls)]
fn each_takes_all(parts: &[Condition]) -> bool {
    for part in parts {
        if !takes_all(part) {
            return false;
        }
    }
    true
}
