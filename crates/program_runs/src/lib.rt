//! From the words of the command line to what mpimatch prints and how it ends.
//!
//! The words ask for a verb over some files ([`ending_of`]). Its input is a layout and a manifest, or is made of the
//! texts of all ranks (`command_runs`). [`run_with`] runs the verb: those of `command_runs`, and here `explain` and
//! `graph`, which tell what holds up the run (`trace_diagnosis`) in words, as JSON and as a picture
//! (`diagnosis_words`), and `page`, which tells it as a page (`page_words`).
//!
//! These three alone need the diagnosis. So they stand in a crate of their own, and all other verbs are proved beside
//! the crates of the diagnosis.
//!
//! ```text
//! ending_of ─▶ input_at ─────────▶ a layout and a manifest ─▶ run_with ─▶ a verb ─▶ output, or a fault
//!   words      files, or texts
//! ```
//!
//! To change something, open:
//!
//! - how the program ends: its status, what it shows: `src/ending.rt`, `specs/Endings.antt`
//! - which verb runs: [`run`]; what it prints: `specs/Verbs.antt` of `command_runs`
//! - what `explain`, `graph` and `page` look up in the texts once more: [`facts`], [`arguments`]; how they print it:
//!   [`explain`], [`page`]
//! - of which ranks a diagnosis says that their texts were cut off: [`cut_ranks`]; which last calls a page shows:
//!   [`moments`]
//!
//! # Choices
//!
//! - A run first asks for a block of 31 MB and gives it back (`keep_freed_memory`), so the C library keeps freed lists
//!   of up to that size, where each fresh page is a fault. No contract and no test but the clock shows it.
//!
//! Its tests are in `tests/cases/` and `tests/rows/`, which the built program runs.
#![tactic(auto)]

mod arguments;
mod cut_ranks;
mod ending;
mod explain;
mod facts;
mod last_bytes;
mod last_calls;
mod moments;
mod page;
mod run;

pub use ending::{Ending, ending_of, ending_without_words};
pub use run::run_with;
