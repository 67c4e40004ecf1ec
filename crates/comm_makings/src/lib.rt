//! The communicators, windows and files that the calls of all ranks make: their members in order, and by which number
//! each member names them over which stretch of its calls (MPI 4.0, chapters 7, 8, 12 and 14).
//!
//! It reads no text. Each rank is a plain list of its calls on communicators and groups, windows and files.
//!
//! - [`calls`]: what a rank's calls say; [`answer`]: what is derived from them
//! - [`handle`], [`names`]: what the numbers in a rank's calls mean; [`view`]: what a rank called on each communicator
//! - [`state`]: what is derived so far; [`group_value`]: the groups of a rank
//! - [`here`]: one making, as each member calls it; [`part`], [`parts`], [`splits`], [`creates`], [`grids`],
//!   [`outcomes`]: the members of what it makes
//! - [`by_groups`]: MPI_Comm_create_group; [`run`]: from the world to all that is made of it
//! - [`intercomms`]: intercommunicators, of two groups or of another, and what is merged of one
//! - [`object_view`], [`objects`]: windows and files
//! - [`uses`]: which calls of the profile name which communicators; [`left`]: what is left out; [`written`]: the
//!   layout's communicators
//! - [`derivation`]: the way from the calls to all of that
//!
//! To change something, open:
//!
//! - which communicator a number names: `specs/Names.antt`, `specs/Naming.antt`; [`names`]
//! - which communicators derive: `specs/Derives.antt`, `specs/Makes.antt`, `specs/Derived.antt`
//! - which calls are one making, and what it makes: `specs/Here.antt`, `specs/Views.antt`, `specs/Splits.antt`,
//!   `specs/Reordered.antt`; [`here`], [`outcomes`]
//! - intercommunicators: `specs/Intercomms.antt`, `specs/Offering.antt`; [`intercomms`], [`run`]
//! - windows and files: `specs/Objects.antt`, `specs/ObjectMakings.antt`; [`object_view`], [`objects`]
//! - what a layout gets, ids and numbers; what is left out: `specs/Uses.antt`, `specs/Written.antt`; [`uses`],
//!   [`written`]; `specs/Left.antt`, [`left`]
//!
//! # Choices
//!
//! - Communicators are derived in rounds: a making that names a group of a communicator that isn't derived yet waits
//!   for the next round. If a round reads nothing more, groups that are still waited for count as unknown.
//! - A number that no handle of the rank has is an unknown parent: a call that isn't read may have given it. A member
//!   that is in another's group and gives one without itself is unsound (MPI 4.0, 7.4.2).
#![tactic(auto)]

mod answer;
mod by_groups;
mod calls;
mod creates;
mod derivation;
mod grids;
mod group_value;
mod handle;
mod here;
mod intercomms;
mod left;
mod names;
mod object_view;
mod objects;
mod outcomes;
mod part;
mod parts;
mod run;
mod splits;
mod state;
mod uses;
mod view;
mod written;

pub use answer::{Choice, DeriveFault, Derived, LeftOut, MadeBy, Why};
pub use calls::{
    Action, Color, CommCall, Given, GroupCall, GroupName, Leaders, Making, ObjectMaker, OtherMaker,
    RankCalls, RankRange, Uses, object_made,
};
pub use derivation::derive;
pub use here::function_of;
