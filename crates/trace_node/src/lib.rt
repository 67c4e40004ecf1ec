//! A node: all that is known of a run, with the answer to it.
//!
//! A [`Node`] takes segments of the ranks' traces and other knowledge, in any order and cut in any
//! way, and keeps what they say together. Its [`Answer`] is what the report prints: readable
//! prefixes and contradictions, message pairs and postponed messages, rounds of collective calls,
//! how each rank stands, and the stuck ranks with what they wait for. It is a function of the layout
//! and of what is known, so nodes that know the same give one answer.
//!
//! Cost: a segment or other knowledge costs its join; of the ranks whose readable events changed,
//! their events once and the index of pairs for what is new; and for the answer one pass over all
//! messages, receives, collective calls and pairs.
//!
//! A caller with many segments can join them without an answer ([`Node::hold`]) and make one when it is needed
//! ([`Node::catch_up`]): then each rank that changed costs its events once, and the answer its one pass.
//!
//! If memory for an answer runs out, the node keeps its knowledge, so no fact is lost, and is stale until
//! [`Node::catch_up`] or [`Node::refresh`].
//!
//! - [`fault`]: why a segment, other knowledge or a question is refused
//! - [`stuck`]: a stuck rank; [`answer`]: what is told; `answer::parts`: its parts; `answer::gather`:
//!   the way there
//! - [`strangers`]: whether something is known of a rank that the layout doesn't have
//! - [`follow`]: the index of the pairs, as more is known, and how far each rank was known in it
//! - [`shared`]: what is known, and an answer, each by one owner or more
//! - [`node`]: knowledge with its answer; [`by_rank`]: an answer by one rank after another, whose events aren't kept
//! - [`laws`]: that there is one answer, that its pairs are certain, and that shapes tell who is stuck, as contracts of
//!   calls that do nothing
//!
//! To change something, open:
//!
//! - what an answer says: `specs/Answer.antt`; `src/answer.rt`, and how it is made: `src/answer/gather.rt`
//! - what a node keeps, and what a refusal leaves: `specs/Node.antt`; [`node`], [`fault`]
//!
//! # Choices
//!
//! - An answer is a relation with a law that there is one. A computing definition of the stuck ranks would be the
//!   release once more. It is seen as plain data, with conditions as trees; a tree that holds itself has no code of
//!   Rattle's own, so the crate writes one.
//! - A stale node stays stale until [`Node::catch_up`] or [`Node::refresh`]: if the next `take` could mend it,
//!   staleness would depend on the order of calls.
//! - A node can hold what comes and answer later, since an answer costs as much as all that is known. Each rank of the
//!   index may be of an older view of its own, and is brought up to what is known rank by rank.
//! - What a post and a take do to one node of a schedule is said here too, since the crew doesn't stand on
//!   `trace_world`. That both agree is read, not proved.
//!
//! Its tests are in `crates/node_tests/src/node.rt`.
#![tactic(auto)]

mod answer;
mod by_rank;
mod fault;
mod follow;
mod laws;
mod node;
mod shared;
mod strangers;
mod stuck;

pub use answer::Answer;
pub use by_rank::{AnswerWithOps, RankByRank, RankTold};
pub use fault::{NodeFault, Stale};
pub use laws::{answers_are_certain, answers_are_one, stuck_go_by_shape};
pub use node::Node;
pub use shared::{SharedAnswer, SharedKnowledge};
pub use stuck::Stuck;
