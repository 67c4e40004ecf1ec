//! Which message was received by which receive.
//!
//! A pair is reported only if it is certain: whatever the ranks did next, and whatever sources their open receives got,
//! MPI allows no run in which the two aren't matched. Where no receive is open, no message doubtful, and no two parts
//! of one Startall fit the same, the pairs are the only matching that MPI allows. Both are clauses of [`pair_all`] and
//! of [`PairIndex::pairs`]. They hold for runs in which no unread call cancels a request of a call that is read.
//!
//! [`pair_all`] goes once over all calls, and takes n of them in n log n; [`PairIndex::pairs`] has the same contract.
//! The index follows the ranks as they grow and are cut back; one step costs in proportion to what is new, and one pass
//! over that rank's calls. It makes its sets at the first step: before that [`PairIndex::of_all`] only keeps the calls,
//! and `pairs` does what `pair_all` does. The same holds after a step that brings a call of several parts, a Startall.
//! It keeps no table: each call of `pairs` makes one, by a pass over all messages.
//!
//! - [`pair`]: a pair
//! - [`scratch`]: the pairing from scratch; [`batch`]: its pass over all receives; [`sends`]: all messages, where they
//!   stand; [`takings`]: with what takes each; [`ahead`]: of a few, read together; [`taken_by`]: in little memory;
//!   [`places`], [`by_key`]: where those that wait stand; [`ends`]: the ends of receives, and whether
//!   some of them may take a message; [`ranked_ends`], [`ranked_receives`]: none where their ranks come before
//! - [`rules`]: whether names are one, and a message is its receiver's own; [`reach`]: which messages come after which
//!   receives, asked of a table
//! - [`rows`], [`near`], [`table`]: the pairs and the postponed messages, and the receive of a message;
//!   [`by_receive`]: the pairs in order of the receive, made where it is asked for, and the message of one
//! - [`one_or_many`]: a set that has no tree of its own while it has one member; [`groups`],
//!   [`queues`]: sets of calls, found by a few probes of an ordered map; [`couples`]: the pairs by
//!   either name; [`slots`]: flat lists of values by such names
//! - [`matched`]: the sets of an index, as one call comes or goes; [`opened`]: its open receives, by their keys;
//!   [`lanes`]: those of one key, with their latest ends; [`later`]: which end is later; [`follow`]: as a rank's calls
//!   do; [`together`]: as those of all ranks come; [`whole`]: whether a call has several parts
//! - [`index`]: the index
//! - [`laws`]: what makes the rules easy to believe, as contracts of calls that do nothing
//!
//! To change something, open:
//!
//! - which message a receive takes: `specs/Pairing.antt`; [`batch`], [`matched`]
//! - which messages come after a receive: `specs/After.antt`; [`reach`], [`lanes`], [`ends`]
//!
//! # Choices
//!
//! - A table of pairs has no `partner`: its pairs are in order of the message, and a caller that follows one message or
//!   one receive searches that list. To find both ends without memory each table would need a second list, which no
//!   report uses.
//! - The rules are a `Bool` function with a bound, and a law removes the bound, so that worked examples can be
//!   computed. "The same sender" is said by `from`, "the same rank" by `at`, as `fits` says it.
//! - [`pair_all`] is one pass over all calls; the rules as written hold each message against all others. The calls of
//!   all ranks are put in part by part: rank by rank nearly all messages would wait at once.
//! - If memory runs out, the index is as new: a state in the middle of a rank's change is of no use, and undoing it
//!   could run out of memory as well.
//! - Open receives stand in lanes by what they name, each with the latest end up to it: a message asks for the ends of
//!   four lanes. One set by calls would be walked for each message.
//! - The index follows calls of one part, and keeps no table, which would be made anew at each step; nor a table by the
//!   receive, for which only the conditions of waiting ranks ask.
//! - What takes the messages is read for 32 of them at a time: a master's receives stand far apart in the order of its
//!   messages, and many reads wait for memory together. The row of a key is guessed by what the key mixes to; nothing
//!   is claimed of the guesses. Keys begin with what tells most apart, the receiver.
//! - Messages and receives have separate functions: a generic one would need a trait whose laws say, for each side,
//!   which sets hold it and by which keys.
//! - What comes after a receive counts collective communications alone. Other collective calls are read leniently: if
//!   they counted, a trace that lacks a communicator would let a message come after a receive too soon.
//!
//! Its tests are the runs of `tests/rows/runs.txt`.
#![tactic(auto)]

mod ahead;
mod batch;
mod by_key;
mod by_receive;
mod couples;
mod ends;
mod follow;
mod groups;
mod index;
mod lanes;
mod later;
mod laws;
mod matched;
mod near;
mod one_or_many;
mod opened;
mod pair;
mod places;
mod queues;
mod ranked_ends;
mod ranked_receives;
mod reach;
mod rows;
mod rules;
mod scratch;
mod sends;
mod slots;
mod table;
mod taken_by;
mod takings;
mod together;
mod whole;

pub use by_receive::PairsByReceive;
pub use ends::Ends;
pub use index::PairIndex;
pub use laws::{
    doubtful_may_stand_outside, pairs_are_certain, pairs_are_found, pairs_are_the_rules,
    tables_are_certain, what_comes_after_stays, worked_runs,
};
pub use pair::Pair;
pub use reach::{RankReach, Reaches, reaches_of};
pub use scratch::pair_all;
pub use table::PairTable;
