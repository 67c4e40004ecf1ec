//! Facts, the segments that bring them, and knowledge: the join of what came.
//!
//! A fact is an event at a place of a rank. Facts come in segments, in any order, cut and repeated in any way;
//! [`Knowledge`] holds for each place what they say of it together: nothing, one event, or a contradiction. So two that
//! took the same facts are equal. A contract sees that view, never how it is stored.
//!
//! The cells are kept as runs, stretches of places of a rank without a gap. Taking a segment finds by binary search the
//! runs that it touches, and moves its cells into the longest of them, or that one's into it: at a run's end it costs
//! its own cells, and in any order of the segments a cell moves as often as the logarithm of their number. The list of
//! runs is cut into chunks of 1,024: a new run among others moves some pointers of its chunk, and one of each chunk
//! behind. Joining other knowledge costs its cells, and of ours those of the runs that it touches with something new;
//! of all others a pointer is moved. The readable prefix of a rank is one halving, and so is a cell. A walk over all
//! cells takes no memory.
//!
//! - [`cell`]: what is known of one place
//! - [`segment`]: events of one rank at consecutive places; [`ready`]: such whose events stand as cells;
//!   [`ready_piece`]: so of a whole text
//! - [`run`]: cells of one rank without a gap; [`boxed`]: a run in memory of its own; [`runs`]: such
//!   runs in their order; [`run_list`]: the list that they stand in, [`chunks`]: what it is cut into;
//!   [`copies`]: of runs; [`patches`]: joins of whole lists of runs
//! - [`readers`]: what runs tell; [`readable`]: the readable events of a rank; [`walk`]: all cells one after another;
//!   [`compare`]: by walks
//! - [`knowledge`]: all that is known; [`gathering`]: segments that come in any order
//! - [`laws`]: what holds of joins and views, as contracts of calls that do nothing
//!
//! To change something, open:
//!
//! - how knowledge is kept: `src/run.rt`, `src/runs.rt`: contracts speak of views, so nothing above changes
//!
//! # Choices
//!
//! - Knowledge is seen as a finite map from (rank, place). Maps with equal cells are equal, so the laws are equations.
//!   A function from places has no number of cells; a list would be kept in order in every clause.
//! - An ordered map would pay a search and a node for each event; a hash table has no order; a list of runs for each
//!   rank has a second order to prove.
//! - A rank's readable events are lent where they lie: the cells of its first run, and how many of them count. A list
//!   of references would be a pass over all cells, and 8 bytes an event.
//!
//! Its tests are in the crate `reading_tests`; pieces that touch or contradict each other are in
//! `tests/rows/texts.txt`.
#![tactic(auto)]

mod boxed;
mod cell;
mod chunks;
mod compare;
mod copies;
mod gathering;
mod knowledge;
mod laws;
mod patches;
mod readable;
mod readers;
mod ready;
mod ready_piece;
mod run;
mod run_list;
mod runs;
mod segment;
mod walk;

pub use cell::{Cell, Known};
pub use gathering::Gathering;
pub use knowledge::Knowledge;
pub use laws::{growth_laws, join_laws, listing_laws, prefix_laws, view_laws};
pub use readable::Readable;
pub use ready::{ReadyEvents, ReadySegment};
pub use ready_piece::ReadyPiece;
pub use segment::{MOST_EVENTS, PLACES, Segment, SegmentFault};
pub use walk::Walk;
