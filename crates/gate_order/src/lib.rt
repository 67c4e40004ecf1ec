//! Nothing but an order: crates of tests that name this one are proved beside the program, and not before it.
//!
//! `rt ci` begins first what most lines wait for, and nothing waits for `mpimatch`, whose proof takes longest of all. It
//! shares out memory too, so the program would wait for tests of the crate below it. Tests of lower crates don't name
//! this one: their share of memory grows with all lines below them.
#![tactic(auto)]
