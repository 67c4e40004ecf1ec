//! Calls, times and ranks in words, for people who read them.
//!
//! All of it goes to a [`Text`] in memory, piece by piece. What each piece says is a definition of
//! `specs/`, so what is built of them has its bytes proved.
//!
//! - [`text`]: a text that grows; [`seconds`]: times
//! - [`ranges`]: ranks, neighbours joined into ranges, as `0 to 11, 13`; [`more`]: how many more there are than are
//!   named
//! - [`envelopes`], [`calls`]: a call with what it names, as
//!   `MPI_Send to rank 1 of MPI_COMM_WORLD, tag 7, 65536 elements`
//! - [`functions`]: a call by its function and communicator alone; [`names`]: an operation by its number
//!
//! To change something, open:
//!
//! - how a call is written: `specs/Words.antt`; [`calls`], [`envelopes`]
//! - how ranks are written: `specs/Ranges.antt`; [`ranges`]
#![tactic(auto)]

mod calls;
mod envelopes;
mod functions;
mod more;
mod names;
mod ranges;
mod seconds;
mod text;

pub use calls::{put_call, put_kind};
pub use functions::put_function;
pub use more::put_more;
pub use names::put_op_number;
pub use ranges::{put_named_ranks, put_ranges};
pub use seconds::{nine_digits, put_seconds};
pub use text::Text;
