//! Arguments of calls that don't agree: messages that are longer than their receives, and collective calls of which the
//! members of a group give different operations or counts (MPI 4.0, 3.2.4 and 6).
//!
//! A program that breaks these rules is ended by MPI, hangs, or computes wrongly, also where no rank waits: so all rounds are
//! compared that match, wherever the ranks stand now.
//!
//! - [`calls`]: what calls tell, by rank and number
//! - [`disagreement`]: what is told of a round, as a value; [`values`]: what is known of its members
//! - [`differing`]: whether that differs; [`groups`]: the members by value; [`pairs`]: by pairs with the root
//! - [`arguments`]: all rounds; [`truncated`]: messages and receives
//!
//! Cost: each collective call is looked up twice at most. Of rounds in which all agree nothing is kept; of another one the
//! members are put in order of their ranks, and found by value in a map.
//!
//! To change something, open:
//!
//! - what is compared: `crates/call_arguments/specs/Table.antt`; when two values differ: `specs/Differing.antt`
//! - how members are grouped: `specs/Groups.antt`
#![tactic(auto)]

mod arguments;
mod calls;
mod differing;
mod disagreement;
mod groups;
mod pairs;
mod truncated;
mod values;

pub use arguments::arguments_of;
pub use call_arguments::{Known, Line};
pub use calls::CallsTold;
pub use disagreement::{Comparison, Disagreement, ValueGroup};
pub use truncated::{Truncated, truncated_of};
