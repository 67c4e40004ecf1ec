//! The calls of a trace text, handed to a sink one by one: the typed form of what `libundumpi` does with a trace.
//!
//! [`walk`] reads a text, types each call by the table of functions of docs/formats/calls.md, and hands it to the
//! callback of its function. A [`CallSink`] says what becomes of it: [`Collect`] keeps the calls' events and cuts them
//! into segments, [`Tally`] counts, and a sink of one's own does whatever it states as its step.
//!
//! A text is read in one pass. What a walk keeps is one call at a time, and of it what it is read by, so memory grows
//! only with what the sink keeps; a parameter that is one number takes none. A call that is refused is not handed on,
//! and ends the walk.
//!
//! - [`parameter`]: the parameters and why a call is refused for one; [`reading`]: what each says; [`quick`]: numbers
//!   as dumpi2ascii writes them, in one pass; [`skim`]: so the source of a status; [`requests`]: so a list of requests
//! - [`function`]: the functions, by their names; [`usual_functions`]: those that programs call most; [`envelope`], [`outcome`]: what calls name and bring back;
//!   [`typing`]: a call by the row of its function; [`looking`]: the parameters that it is read by; [`lacking`]: a call
//!   that was cut off before its last entry parameter
//! - [`in_place`]: calls as dumpi2ascii writes them, read whole where they stand; [`lines`]: their parameter lines;
//!   [`number_lines`]: those of numbers, in one pass
//! - [`sink`]: the callbacks; [`fault`], [`walking`]: the walk; [`raw`]: one that hands on calls as they stand in the
//!   text
//! - [`collect`], over events in [`parts`], and [`tally`]: two sinks; [`laws`]: what holds of walks over whole texts
//!
//! To change something, open:
//!
//! - which functions are read, and their parameters: `src/function.rt`, `src/typing.rt`, `specs/Rows.antt`,
//!   `specs/Readings.antt`
//! - which functions end what is read of a rank: `unread_named` of `src/function.rt`
//! - what is done with each call of a text: `src/sink.rt`; for an example `src/collect.rt`
//! - which calls are read where they stand: `src/in_place.rt`, `src/lines.rt`, `specs/InPlace.antt`
//!
//! # Choices
//!
//! - A sink says its step, as a ghost member of the trait, so [`walk`] promises the state after all calls for any sink.
//!   A contract by a list of calls would hold only of sinks that keep them.
//! - [`Collect`] keeps events as cells in one list, which becomes a ready piece as it is; only for segments
//!   (`into_ready`) is it cut, without a copy of their events. Room is asked for once, by the text's length: doubling
//!   moves each event once more.
//! - Usual numbers are read by functions that are small enough to be inlined, all others by one call. Where a line
//!   begins would else go through memory, and a processor waits for it.
//! - Of a call the parameters are kept that its function's row lists, the first of each name: a call of any length
//!   takes no more.
//! - Each type on a fault's way adds one thing: `LineFault` the rule, `TextCause` the reader's failure, `TextFault` the
//!   line; `WalkCause` parameters and the sink, `WalkFault` its line and the number of calls.
//! - A text that ends in a call without its entry parameters is `F9 Truncated`, since it was cut off.
//! - A collective call that lacks its object is handed on as one of any other function, and so is an Iprobe that
//!   doesn't say what it looks for: they are local calls.
//!
//! Its tests are in the crate `reading_tests`; calls that are refused, by each parameter of each function, are in
//! `tests/rows/functions.txt`.
#![tactic(auto)]

mod collect;
mod envelope;
mod fault;
mod function;
mod in_place;
mod lacking;
mod laws;
mod lines;
mod looking;
mod number_lines;
mod outcome;
mod parameter;
mod parts;
mod quick;
mod raw;
mod reading;
mod requests;
mod sink;
mod skim;
mod tally;
mod typing;
mod usual_functions;
mod walking;

pub use collect::{Collect, Memory};
pub use fault::{WalkCause, WalkFault};
pub use lacking::lacking_line;
pub use laws::{whole_segments, whole_texts};
pub use parameter::Parameter;
pub use raw::{RawSink, walk_raw};
pub use sink::CallSink;
pub use tally::Tally;
pub use walking::{Walked, next_call, walk, walk_with_buffer};
