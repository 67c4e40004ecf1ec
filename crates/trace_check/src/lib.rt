//! Whether two ways to a report agree on a run.
//!
//! A report's pairs are made by one pass over all calls, or by an index that follows the ranks; who is stuck, by a
//! queue of released ranks. All are proved to keep to the rules. A [`Checker`] doesn't lean on that: it reads the same
//! pieces, holds the index against the pass ([`pair_all`](trace_pair::pair_all)), and looks at each stuck and each
//! released rank by itself ([`Checker::lines`]). So a user who doesn't trust the proofs can see on a trace of their own
//! that both ways to the pairs give the same, and that the two checks of `trace_stuck` accept the verdict.
//!
//! Cost: a piece costs one pass over all calls of its rank; n ranks whose conditions have c parts
//! n (n + c) steps.
//!
//! - [`tables`]: whether two tables of pairs are the same; [`verdict`]: whether a verdict is right
//! - [`lines`]: the two lines that say so
//! - [`checker`]: what is checked, from pieces to these lines
//!
//! To change something, open:
//!
//! - a line of a check; when a verdict is right: `specs/Lines.antt`, [`lines`]; `specs/Right.antt`, [`verdict`]
//!
//! # Choices
//!
//! - How a rank stands and whether it waits are asked here once more: a check that took the node's table of states
//!   would not see a fault in it.
//!
//! Its tests are in `tests/cases/`, which the built program runs, and `tests/run/run_storms`.
#![tactic(auto)]

mod checker;
mod lines;
mod tables;
mod verdict;

pub use checker::Checker;
pub use lines::check_lines;
