//! Tests of the libraries that hold a node: of what no clause of theirs says, through what is public.
//!
//! They stand in one crate, since each crate that owns a node, an answer or a world proves once more
//! how these are let go. Each helper has one way out: where a value is missing it stops the test
//! (`expect`). One that has a node hands it to `drop` at its end: that is proved for any type, and what is
//! let go without it is taken apart in the helper's own proof. Expected reports are those of
//! `docs/formats/report.md`, written out by hand. A failure names its row.
//!
//! - `fixture`: pieces of two ranks, nodes that took them, their frames and reports
//! - `node`: `trace_node` and `trace_report`: reports of nodes and of their copies
//! - `exchange`: the exchange of `trace_cluster`: both sides in memory (`pipe`)
//! - `board`: the board of `trace_crew`: what is published is shown, beside threads that ask too, and one who has seen
//!   more is told so
//! - `crew`, `gates`: `trace_crew`: what it leaves, and that its threads run at the same time
//! - `refused`: nodes, worlds and crews that go on after a request for memory was refused
//! - `storm`: `trace_world`: after each of 2,000 steps, its nodes beside new ones that the same segments reached
//! - `unplugged`: `trace_cluster`: a network that gives no port or no connection
//!
//! What the program's verbs do, `replay` and `cluster` among them, is data in `tests/cases/`.
#![tactic(auto)]

#[cfg(test)]
mod board;
#[cfg(test)]
mod crew;
#[cfg(test)]
mod exchange;
#[cfg(test)]
mod fixture;
#[cfg(test)]
mod gates;
#[cfg(test)]
mod node;
#[cfg(test)]
mod pipe;
#[cfg(test)]
mod refused;
#[cfg(test)]
mod storm;
#[cfg(test)]
mod unplugged;
