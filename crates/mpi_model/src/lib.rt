//! What an MPI run is made of: the calls and events of its ranks, the layout of its communicators,
//! windows and files, and the devices from which traces are read and to which reports are written.
//!
//! Every type keeps its own range, so a value outside it can't be built and no crate above tests
//! it again: ranks, tags, counts, communicator numbers, roots and told sources are at most
//! 2^31 - 1 (the greatest `int` of MPI's C binding), times at most [`LATEST`]. In a contract each
//! such type is seen as its plain value, and a list type as the list that it holds.
//!
//! Only copies of lists and [`Layout::of_comms`] ask for memory.
//!
//! - [`device`]: bytes in and out, one call at a time; [`memory`]: devices in memory;
//!   [`whole`]: whole pieces over devices
//! - [`stamp`], [`told`], [`envelope`], [`object`], [`kind`], [`collective`], [`list`]: what calls are made of
//! - [`call`], [`outcome`], [`event`]: what a rank does, and when
//! - [`message`]: what is matched, and which messages a receive can take
//! - [`layout`]: the ranks of a run, its communicators, windows and files
//!
//! To change something, open:
//!
//! - what a call or an event is, and its ranges: `src/call.rt`, `src/event.rt`, `specs/Ranges.antt`
//! - how an envelope is kept in an event: `src/envelope/packed.rt`, `specs/Packing.antt`
//! - a kind of collective call: `src/kind/table.rt`, `specs/Kinds.antt`
//! - a rule of layouts; which object a number names: `src/layout/rules.rt`, `specs/Layouts.antt`;
//!   `src/layout/names.rt`, `specs/Names.antt`
//! - which messages a receive can take: `src/message.rt`, `specs/Fit.antt`
//!
//! # How a call is added
//!
//! From the lowest crate up, with the definition before the code. The shortest examples are `MPI_Probe`, which waits,
//! and the nonblocking collective calls, which post a request: `git grep -e Probe -e Icollective` shows each place. No
//! `match` over calls has a `_` where a new call could mean something, except those marked *; the check names the
//! others.
//!
//! - `mpi_model`: what it was entered with, and its range (`IsCall`); types that keep a range are in `src/envelope/`. A
//!   new collective kind is a row in `src/kind/table.rt` and a clause of `row` in `specs/Kinds.antt`, and nothing else
//! - `dumpi_calls`: its name, row and readings (`specs/Rows.antt`), what it brings back (`outcome_in`, `brought_by`*),
//!   a callback of its own in all sinks
//! - `trace_know`: whether the readable prefix ends at it (`enters_unread`*)
//! - `trace_ops`: whether it is foreign (`is_foreign`), sends (`sent_by`*), receives (`taken_by`*), enters a round
//!   (`entered_by`*), posts or completes a request (`given_of`*, `completions`*), may have to wait (`may_block`*);
//!   `src/message.rt`*, `src/receive.rt`*, `src/completed.rt`*
//! - `trace_wait`: what it waits for (`waits_for`); a category of collective calls in `by_category`
//! - `trace_wire`: its code, its fields and their length: `specs/Events.antt`, `specs/Fields.antt`,
//!   `proofs/EventForms.antt`, `proofs/FieldForms.antt`, `src/size.rt`
//! - `trace_report`, `diagnosis_words`: the word of a kind of round; the call in words (`src/functions.rt`,
//!   `src/calls.rt`)
//! - docs, tests, edits: its row and rules; rows in `tests/rows/functions.txt`, `tests/rows/texts.txt`,
//!   `tests/rows/runs.txt` and `tests/rows/frames.txt`, `tests/run/run_runs`, `crates/reading_tests/src/walks.rt`; a
//!   wrong body for each of its meanings in `edits/`
//!
//! Three things that calls share are written once: the table of collective kinds (`Kind::row`; a rule for all kinds is
//! a test of it, by the law `each_kind`), the receive as which a call looks for a message (`taken_with`), and the
//! condition of a round, for the call that enters it and the request that it posts (`collective_of_call`).
//!
//! # Choices
//!
//! - What the standard says of each kind of collective call is one table (`Kind::row`), as an array for the code and as
//!   clauses, which the contract ties together, since no clause can cite a constant that holds references. No other
//!   function matches over kinds, and `row` doesn't unfold by itself, so a proof's cost doesn't grow with the table.
//! - The null request is the number -2^63. An enum would make each list of requests twice as long. No MPI prints that
//!   number for another request.
//! - An envelope is packed in 24 bytes, where named fields take 40, and the two of an exchange stand in memory of their
//!   own: an event has 56 bytes, and knowledge keeps millions of them. The name of an operation has its two small
//!   fields side by side, so it takes 16 bytes, not 24.
//! - A device counts failed reads and failed writes apart: with one count a failed write could pass for a failed read.
//!   A write that takes no byte of a nonempty piece is a failure, as in std: otherwise a loop over a device need not
//!   end.
//! - A layout lists the communicators of each rank once, in one pass over all members, and the names of each sort of
//!   object apart, so a look-up halves the names of one rank and sort.
//! - A call on a window or a file holds that one's number where others hold a communicator's, as in a frame.
//!
//! Its tests are in the crate `reading_tests`.
#![tactic(auto)]

mod call;
mod collective;
mod device;
mod envelope;
mod event;
mod kind;
mod layout;
mod list;
mod memory;
mod message;
mod object;
mod outcome;
mod stamp;
mod told;
mod whole;

pub use call::Call;
pub use collective::{Collective, NonblockingCollective};
pub use device::{Device, Failed, Read, Write, WriteReason};
pub use envelope::{
    CommRef, Envelope, Exchange, Mode, Peer, ProbeEnvelope, ReceiveEnvelope, SendEnvelope,
};
pub use event::{Event, Exit, OpName};
pub use kind::{Category, CollectiveFunction, Kind, KindRow, ObjectParameter, each_kind};
pub use layout::comm::{Comm, Stretch};
pub use layout::fault::LayoutFault;
pub use layout::{Layout, MOST_COMMS, MOST_RANKS, Sends};
pub use list::{Element, Elements, NULL_REQUEST, Requests, Sources};
pub use memory::{EndlessReader, MemoryReader, MemoryWriter};
pub use message::{Message, Receive, Trust, envelopes_fit, fits};
pub use object::Object;
pub use outcome::Outs;
pub use stamp::{LATEST, Stamp};
pub use told::{GroupRank, Told};
pub use whole::{ReadFault, WriteFault, read_exactly, write_all};
