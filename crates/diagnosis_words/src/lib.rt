//! A diagnosis for people and programs that read it: in words, as JSON, and as a picture.
//!
//! What is printed is a [`Diagnosis`](diagnosis_value::Diagnosis), and beside it what the texts of the run tell of its
//! calls ([`TextFacts`]): the printers look nothing up anywhere else. Their contracts say no more than that they end;
//! what they print is shown by cases (`tests/cases/`).
//!
//! - [`named`]: which calls a diagnosis names; [`texts`]: what the texts tell of them; [`source`]: all that is printed
//!   from
//! - [`json`]: the diagnosis as JSON; [`picture`]: in the language of Graphviz; [`needed`]: which parts of a condition
//!   it draws
//! - [`words`]: in words: what is told, in what order, and where a list is cut; [`doubts_of_answer`]: what makes the
//!   answer doubtful; [`one_rank`] and [`calls_of_rank`]: of one rank; [`sentences`]: all sentences; [`writer`],
//!   [`functions`], [`calls`]: names of things; [`groups`]: ranks that stand alike; [`disagreements`]: rounds of which one
//!   thing is said; [`requests`]: which open requests are told
//! - [`doubtful`]: which functions may wait or move data and aren't read
//!
//! To change something, open:
//!
//! - a sentence: [`sentences`]; what is told, in what order, and where a list is cut: [`words`]
//! - a key of the JSON; what is drawn: [`json`]; [`picture`], of a condition [`needed`]
//! - which functions make a doubt: [`doubtful`]
//!
//! # Choices
//!
//! - Words, JSON and picture share the names of ranks, objects and calls. A list is cut when all lists together would
//!   have more than 60 lines.
//! - `--rank` prints its ten calls of what is known: a diagnosis tells of no pair.
#![tactic(auto)]

mod calls;
mod calls_of_rank;
mod disagreements;
mod doubtful;
mod doubts_of_answer;
mod functions;
mod groups;
mod json;
mod named;
mod needed;
mod one_rank;
mod picture;
mod requests;
mod sentences;
mod source;
mod texts;
mod words;
mod writer;

pub use calls_of_rank::last_calls;
pub use doubts_of_answer::answer_doubts;
pub use groups::first_ranks;
pub use json::diagnosis_json;
pub use named::{argument_calls, named_calls};
pub use one_rank::rank_words;
pub use picture::diagnosis_picture;
pub use texts::{CutText, LocalCalls, PlacedSite, TextFacts, has_doubtful};
pub use words::diagnosis_words;
