//! Every readable call of a run with its partner: as a table, and as a timeline.
//!
//! A [`CallTable`] is what all ranks did, with the pairs and the rounds of the answer to it. It says of each row of a
//! call which operation is at the other end of its message, and which round it entered; the [`Fields`] of the row say
//! the same, and by which call its receive is completed: that is proved. The texts of the rank ([`RankTexts`]) say its
//! function, its caller, its datatype, and how many bytes came. Rows and slices are written one by one, so memory
//! doesn't grow with the output: the table takes what the ranks did and eight bytes a pair, the texts of one rank some
//! fifty bytes a call. The contracts of what is written say no more than that it ends; cases show it.
//!
//! - [`partners`]: the pairs, asked by either end; [`slot`]: the rows that a call has; [`row`]: a row with its partner;
//!   [`table`]: all of them, with their rounds; [`laws`]: that each pair stands in two rows
//! - [`known`]: the calls of a rank by its events; [`completion`]: by which call a request is completed; [`text`]: what
//!   texts say of calls, with each name kept once ([`names`]); [`received`]: the bytes of messages; [`functions`]: the
//!   names of functions if no text has them
//! - [`fields`]: all fields of a row; [`lines`]: a row as CSV and as JSON
//! - [`span`]: from when to when a call is shown; [`arrows`]: when messages were sent and received; [`timeline`]: trace
//!   events; [`put`]: bytes that grow
//!
//! To change something, open:
//!
//! - which rows a call has, and what their partner is: `specs/Slots.antt`, `specs/Rows.antt`; [`slot`], [`row`]; by
//!   which call they are completed: `specs/Completed.antt`
//! - what a field says, and how it is written: [`fields`], [`lines`]
//! - what a slice shows: [`timeline`]
//!
//! # Choices
//!
//! - Partners are looked up by binary search in the answer's own list, which is in order of the message, and for
//!   receives in a list of places beside it: a map would take several times that.
//! - The call that completes a receive is the answer's. Of sends and collective calls the answer keeps none, so one
//!   pass over the rank's calls finds it, by the rules of the requests' definitions; only tests show that.
#![tactic(auto)]

mod arrows;
mod completion;
mod fields;
mod functions;
mod known;
mod laws;
mod lines;
mod names;
mod partners;
mod put;
mod received;
mod row;
mod slot;
mod span;
mod table;
mod text;
mod timeline;

pub use arrows::Arrows;
pub use completion::Completions;
pub use fields::{Fields, RankCalls};
pub use known::{Called, count_of, times_of};
pub use laws::pairs_have_two_rows;
pub use lines::{CSV_HEADER, RowForm, put_row};
pub use partners::Partners;
pub use received::{ReceivedBytes, bytes_of};
pub use row::Row;
pub use slot::{Side, Slot, slot_at, slot_count};
pub use span::{Span, Window, span_of};
pub use table::CallTable;
pub use text::RankTexts;
pub use timeline::{
    put_arrow, put_slice, put_stuck, put_timeline_end, put_timeline_head, put_track,
};
