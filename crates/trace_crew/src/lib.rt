//! A crew: two workers read texts side by side, and the owner of a node joins their segments.
//!
//! Each worker walks its texts in order, posts the segments of each whole text into a queue of eight
//! places, and at last that it ends; a text with a fault is listed and none of it is posted. The owner,
//! in the thread that called [`crew`], takes until both have ended. It alone holds the node: it joins
//! each segment as it comes. It makes an answer at the end, and on the way where it finds the queue empty
//! and shows one on the board: once a million events are joined, and then where three times as much was
//! joined since the last showing as before it. What was taken is just the segments of each worker's texts
//! in that worker's order, and the node is the join of them, whatever the order among the workers was.
//!
//! Cost: reading goes at the speed of two threads, joining at that of one. The workers move the events of each segment
//! to where they stand in what a node knows, so the owner moves no more than a pointer for a segment that none before
//! it touches, unless a board shows what the node knows (below); at most eight wait in the queue. The last answer, for
//! which all wait, costs a look at each call and one pass over all messages, or what is new to the index, where an
//! answer came before. The board shares what the node knows and its answer, so showing them costs nothing at the end.
//! Before it costs an answer, and a copy of all that is known, which the next segment takes: all of these together at
//! most a third more than the last of them.
//!
//! - [`queue`]: the queue between the workers and the owner, and the rule that each of its steps keeps
//! - [`board`]: the newest published answer, for any number of threads
//! - [`piece`]: a text of a rank, its segments, and why it gives none
//! - [`gate`]: where a test may hold a crew
//! - [`worker`]: reads and posts
//! - [`keeper`]: how the owner takes; [`owner`]: what it keeps; [`hold`]: how its node takes a segment
//! - [`threads`]: the three threads, and what they leave
//! - [`laws`]: that a crew follows a schedule of one node, as the contract of a call that does nothing
//!
//! No contract promises that a waiting call returns, that anything arrives, or that two threads ran at once.
//!
//! To change something, open:
//!
//! - what threads share, and what their contracts know of one another: `specs/Rule.antt`, `specs/Views.antt`
//! - what a board shows: `src/board/shown.rt`
//!
//! # Choices
//!
//! - A channel under a rule carries the segments: of a plain channel no contract says that what comes out was put in.
//! - A take that finds nothing proves nothing until both workers are joined, since `recv_as` isn't proved to wait. So
//!   the owner counts two ends, joins both seats, and takes until the queue is empty.
//! - Queue and board are folders of the crew, their one reader: as crates each would load a node. A piece becomes
//!   segments here and in `command_runs`: one function for both would answer faults that neither has.
//! - Workers start by `spawn_with`: a parallel join runs its closure in place if no thread can be made, and the owner
//!   would wait for itself. The threads know what the owner keeps by a trait: a closure that captures something with a
//!   lifetime inside says nothing of its result.
//!
//! Its tests are in `crates/node_tests/src/crew.rt`, `crates/node_tests/src/gates.rt` and
//! `crates/node_tests/src/board.rt`.
#![tactic(auto)]

mod board;
mod gate;
mod hold;
mod keeper;
mod laws;
mod owner;
mod piece;
pub mod queue;
mod threads;
mod worker;

pub use board::{Board, PutFault, ShowFault, Shown};
pub use gate::{Gate, OpenGate};
pub use laws::crews_follow;
pub use owner::Refusal;
pub use piece::{FaultyPiece, PieceAt, PieceFault, TextPiece};
pub use queue::Worker;
pub use threads::{CrewFault, CrewOut, crew};
