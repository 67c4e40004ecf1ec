//! Tests of `trace_check`, and of what `trace_pair` and `trace_ops` give to a caller who follows ranks: of tables and
//! verdicts that no run of the built program has.
//!
//! | File | Tests |
//! |---|---|
//! | `lines` | the two lines of a check, for tables that differ and for verdicts that are wrong |
//! | `following` | an index that begins with nothing, fed with copies of what the ranks did |
#![tactic(auto)]

#[cfg(test)]
mod fixture;
#[cfg(test)]
mod following;
#[cfg(test)]
mod lines;
