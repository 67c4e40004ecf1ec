//! What each rank did, as far as its events are known: its messages and receives, its collective calls, its active
//! requests, and whether it is free, waiting or ended.
//!
//! [`ops_of`] goes twice through the calls of a rank: from the first to the last, by which it knows
//! which inits hold the numbers that Starts and Startalls list; and from the last to the first, so
//! that what later calls tell of a request is known when its post is met. Its time is linear in the
//! events and in what Waitall, Startall and their kin list, but for outcomes that tell sources
//! outside their receive's group, and for the sort of the idle numbers. It keeps nothing of what is
//! known but a copy of the call in which the rank waits. A message takes at most 64 bytes, a receive
//! at most 80.
//!
//! - [`entered`], [`state`], [`ops`]: what is told of a rank
//! - [`completed`], [`called`]: its calls, with the requests that their outcomes complete, read out
//!   of the events where they are
//! - [`group`]: the groups that calls name, and the calls that the layout doesn't know
//! - [`held`]: which inits hold the numbers that calls start: each part of a Startall is a step of
//!   its own, as each other call is one
//! - [`table`], [`touched`], [`fate`]: what the steps behind a post tell of its request; [`trust`]: what a
//!   Cancel leaves of it; [`active`]: the active requests, and the idle numbers
//! - [`message`]: messages and collective entries; [`receive`]: receives with their told sources,
//!   and what a probe looks for
//! - [`rank_state`]: how a rank stands; [`room`]: room for the lists of messages and receives
//! - `ops::gather`: the way from what is known to all of that
//! - [`laws`]: how a rank's ops grow with its readable events, as contracts of calls that do nothing
//!
//! To change something, open:
//!
//! - what counts as a message, a receive or a probe: `src/message.rt`, `src/receive.rt`, and the file of that name in
//!   `specs/`
//! - what completes a request; which numbers an init holds or leaves idle: `src/completed.rt`, `src/held.rt`,
//!   `src/active.rt`
//! - what a Cancel leaves: `src/trust.rt`, `specs/Trust.antt`
//! - who waits: `src/rank_state.rt`, `specs/RankState.antt`
//!
//! # Choices
//!
//! - Calls are gone through from the last to the first, so what later calls tell of a request is known when its post is
//!   met. Going forwards, each completion would search or shift a list of active requests.
//! - Which init holds a Start's number is looked up before, from the first call on. Each part of a Startall is then a
//!   step of its own, so all other rules speak of one operation. A rank without inits is gone through once; if an init
//!   or a start is met, what was gathered is dropped.
//! - Calls are read where their events lie: call n at 2n and 2n + 1. A call that has to do with no request is added by
//!   itself.
//! - What later calls tell of a small request number stands at its place in a list, of others in a map. The list is no
//!   longer than the rank's calls, so a number alone asks for no memory.
//!
//! Its tests are the runs of `tests/rows/runs.txt`.
#![tactic(auto)]

mod active;
mod called;
mod completed;
mod entered;
mod fate;
mod group;
mod held;
mod laws;
mod message;
mod ops;
mod rank_state;
mod receive;
mod room;
mod state;
mod table;
mod touched;
mod trust;

pub use entered::Entered;
pub use group::is_foreign;
pub use held::{is_init, started_by};
pub use laws::{join_law, ops_laws};
pub use ops::{RankOps, all_ops, ops_of};
pub use receive::probed;
pub use state::State;
