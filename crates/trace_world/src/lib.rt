//! Nodes that exchange what they know, after any list of steps.
//!
//! A [`World`] is some nodes of one layout. Each has an inbox, into which workers post segments, and from which it
//! takes them. A shipment makes a mail, the frame of all that a node knows at that time; a delivery joins a mail into a
//! node; a restart leaves a node with nothing. Whatever the steps and their order, each node knows just what the
//! segments that reached it tell together, and its answer is that of the definitions: that is the contract of
//! [`World::run`].
//!
//! A run makes each node's answer once, at its end; a single step makes that of its node. A post
//! shares its segment; a shipment copies what is known into a frame. A mail that a node has joined isn't read again for
//! it.
//!
//! - [`step`]: the steps, and why one is refused; [`shared`]: a segment that steps and inboxes share
//! - [`inbox`]: the segments that wait for a node; [`heard`]: the mails that it has joined; [`mail`]: a shipped frame;
//!   [`sheet`], [`letter`]: how it is written and read
//! - [`moves`]: what a step does to nodes and inboxes; [`copies`]: of a world's parts
//! - [`world`]: nodes with their inboxes, and the mails
//! - [`laws`]: nodes that the same segments reached are equal, and equal states refuse the same steps, as
//!   contracts
//!
//! To change something, open:
//!
//! - what a step does: `specs/Schedule.antt`; [`step`], [`moves`]
//! - when a step is refused, and in which order: `specs/Refusals.antt`; [`world`]
//!
//! # Choices
//!
//! - The contract of `run` is a statement on all states that the world shows, so it takes no ghost list of what
//!   happened.
//! - A run makes its answers once, at its end. If one lacks memory, a shared copy of before is put back and the steps
//!   are done again, each with its answer, so the fault names the step.
//! - A mail holds its frame's bytes, so what is proved is what a frame carries.
//!
//! Its tests are in `tests/cases/` and `tests/run/run_replays`.
#![tactic(auto)]

mod copies;
mod heard;
mod inbox;
mod laws;
mod letter;
mod mail;
mod moves;
mod shared;
mod sheet;
mod step;
mod world;

pub use laws::{equal_nodes, states_refuse};
pub use shared::SharedSegment;
pub use step::{Step, StepFault, WorldFault};
pub use world::World;
