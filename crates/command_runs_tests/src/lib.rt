//! Tests of `command_runs`: of what no clause of it says, and the built program can't show.
//!
//! A crate with tests is proved twice, so the libraries hold none, and their tests stand in crates of
//! their own, side by side. docs/gate.md says what makes a test cheap to prove. A failure names its row.
//!
//! | File | Tests |
//! |---|---|
//! | `runs` | runs over files in memory, which tell their bytes |
#![tactic(auto)]

#[cfg(test)]
mod runs;
