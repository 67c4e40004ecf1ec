//! A walk over all cells in rising order.

ghost use Rattle.std.specs.Prelude.{◌≡◌, ℕ};
ghost use Rattle.std.specs.Iterator.{YieldsFirstBy, item_count};
ghost use Rattle.trace_know.specs.Listing.{run_len};
ghost use Rattle.trace_know.specs.Runs.{Above, listed};

use crate::cell::Known;
use crate::run_list::RunList;
use std::marker::Model;

/// The cells that a walk has left, in rising order of rank and place: the rank, the place, and what is known there.
/// Each step takes constant time and no memory.
#[derive(Drop)]
pub struct Walk<'a> {
    runs: &'a RunList,
    /// The index of the run that has the next cell.
    index: usize,
    /// The index of the next cell in its run.
    at: usize,
}

impl<'a> Model for Walk<'a> {
    ghost use Rattle.std.specs.Prelude.{ℕ, List, drop};
    ghost use Rattle.std.specs.Coded.{coded_ℕ, coded×, coded_list};
    ghost use Rattle.trace_know.specs.declared.cell.Known.{Known};
    ghost use Rattle.trace_know.specs.contracts.cell.Known as known;
    ghost use Rattle.trace_know.specs.Runs.{listed, IsWalk};

    ghost Value = { List ((ℕ × ℕ) × Known) };

    ghost coded = { coded_list (coded× (coded× coded_ℕ coded_ℕ) known.the_row.coded) };

    ghost view = { λ w. drop w.at (listed (drop w.index w.runs.now.items)) };

    ghost invariant = { λ w. IsWalk w.at (drop w.index w.runs.now.items) };
}

impl<'a> Walk<'a> {
    /// A walk over the cells of runs.
    pub(crate) fn new(runs: &'a RunList) -> Walk<'a>
        requires { Above 0 runs.now.items }
        ensures { result ≡ listed runs.now.items }
    {
        Walk {
            runs,
            index: 0,
            at: 0,
        }
    }

    /// How many of the cells that are left stand without a gap from the next one on: all of its rank, each
    /// at the place after the one before.
    pub fn run_len(&self) -> usize
        ensures { result ≡ run_len self.now }
    {
        let count = self.runs.len();
        if self.index >= count {
            return 0;
        }
        self.runs.at(self.index).len() - self.at
    }
}

impl<'a> Iterator for Walk<'a> {
    type Item = (u32, u64, &'a Known);

    ghost next_gives = { YieldsFirstBy (λ cell. ((cell.0, cell.1), cell.2.now)) (λ rest. rest) };

    ghost remaining = { item_count (λ rest. rest) };

    fn next(&mut self) -> Option<(u32, u64, &'a Known)> {
        let count = self.runs.len();
        if self.index >= count {
            return None;
        }
        let run = self.runs.at(self.index);
        let known = run.cell(self.at);
        let place = run.first() + self.at as u64;
        if self.at + 1 < run.len() {
            self.at += 1;
            return Some((run.rank(), place, known));
        }
        self.index += 1;
        self.at = 0;
        Some((run.rank(), place, known))
    }
}
