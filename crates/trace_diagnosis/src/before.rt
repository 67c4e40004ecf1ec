//! How many messages came through that are like a message, or that fit a receive.

use crate::patterns::{Pattern, patterns_of};
use std::alloc::{AllocError, Global};
use std::collections::BTreeMap;
use trace_ops::RankOps;
use trace_pair::PairTable;

/// For each pattern that is asked for, how many messages of pairs fit it.
#[derive(Drop)]
pub(crate) struct Through {
    counts: BTreeMap<Pattern, u64>,
}

impl Through {
    /// Counters for these patterns. Fails with `AllocError` when memory is refused.
    pub fn of(
        alloc: Global,
        asked: &[Pattern],
        pairs: &PairTable,
        ops: &[RankOps],
    ) -> Result<Through, AllocError> {
        let mut counts = BTreeMap::new(alloc);
        for pattern in asked {
            counts.insert(*pattern, 0)?;
        }
        let mut through = Through { counts };
        if !asked.is_empty() {
            through.count_all(pairs, ops);
        }
        Ok(through)
    }

    /// Counts the messages of all pairs.
    fn count_all(&mut self, pairs: &PairTable, ops: &[RankOps]) {
        let mut place = 0;
        for own in ops {
            for m in own.sends() {
                if pairs.receive_near(m.name, &mut place).is_some() {
                    self.count(&patterns_of(m));
                }
            }
        }
    }

    /// Counts a message under its patterns.
    fn count(&mut self, patterns: &[Pattern]) {
        for pattern in patterns {
            if let Some(count) = self.counts.get_mut(pattern) {
                *count = count.saturating_add(1);
            }
        }
    }

    /// How many messages of pairs fit the pattern.
    pub fn at(&self, pattern: Pattern) -> u64 {
        self.counts.get(&pattern).copied().unwrap_or(0)
    }
}
