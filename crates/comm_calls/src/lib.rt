//! What the calls of a text say of communicators and groups, windows and files.
//!
//! A [`CommCalls`] is given the calls of a text one after another, as `dumpi_text` reads them, and keeps of those that
//! make, name or free communicators and groups, or make or end windows and files, what their parameters say, and of the
//! others which numbers of communicators, windows and files they name. A parameter that is missing or that can't be
//! read is unknown, and never a fault. What is kept grows with those calls alone, and with the numbers that are named
//! between them.
//!
//! - [`function`]: the functions, by their names
//! - [`parameter`]: the text of a parameter, and its note; [`number`]: a communicator, a group, a window or a file, a
//!   color, a number; [`lists`]: ranks, dimensions, ranges
//! - [`making`], [`group`], [`action`]: what a call does
//! - [`beside`]: the number that stands beside a name; [`size`]: the size of the world
//! - [`uses`]: which calls of the profile name which numbers
//! - [`calls`]: the calls of a text; [`laws`]: what holds of all of them
//!
//! To change something, open:
//!
//! - which calls are read, and their parameters: `specs/Functions.antt`, `specs/Actions.antt`; [`function`],
//!   [`making`], [`group`], [`action`]
//! - which calls of the profile name which numbers: `specs/Uses.antt`; [`uses`]
#![tactic(auto)]

mod action;
mod beside;
mod calls;
mod function;
mod group;
mod laws;
mod lists;
mod making;
mod number;
mod parameter;
mod size;
mod uses;

pub use calls::CommCalls;
pub use laws::calls_read_in_turn;
