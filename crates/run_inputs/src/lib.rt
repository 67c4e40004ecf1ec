//! Where the input of a run comes from, and why it is refused.
//!
//! The input of a run is loaded once, in one place: a layout and a manifest, from their files ([`input_at`]) or made of
//! the texts of all ranks ([`prepared_of`]). [`init`] keeps what is made of texts as two files. Files come from an
//! [`Opener`], so that a run can be proved and tested over files in memory; the program opens those of the system. A
//! text that was cut off is looked at once more and read as far as it is whole ([`CutFiles`]).
//!
//! Each fault of a run, also of the verbs above this crate, is a [`RunFault`], and of what is made of texts an
//! [`InitFault`]: a line, and below it what a person is told.
//!
//! ```text
//! texts ─▶ calls on communicators ─▶ what is made ─┐
//!                                                  ├─▶ a layout and a manifest ─▶ a verb
//! layout.json, manifest.json ──────────────────────┘
//! ```
//!
//! To change something, open:
//!
//! - where the input comes from: files ([`load::input`]), or texts ([`load::prepared`], [`load::texts`], each read by
//!   [`load::text_reads`]): `specs/Inputs.antt`, `Prepared.antt`, `TextCalls.antt`, `TextReads.antt`
//! - when files are texts ([`load::first_look`]), and what is looked at twice ([`load::second_look`]):
//!   `specs/Looks.antt`, `Starts.antt`
//! - where a text was cut off ([`load::cut`]), and who reads it only that far ([`load::seen`], [`load::cut_files`],
//!   [`load::front`]): `specs/Seen.antt`
//! - which texts a folder stands for ([`load::folders`]), what is no text ([`load::no_text`]), and what is said of
//!   texts ([`load::telling`]): `specs/Folders.antt`, `NoTexts.antt`, `Telling.antt`
//! - where files come from ([`load::opener`], [`load::beside`]), by how many threads they are read ([`load::crewed`]), and
//!   what observes how far the reading is ([`load::watch`], [`load::terminal`]): `specs/Files.antt`
//! - what `init` keeps ([`both_files`]): `specs/Inits.antt`
//! - a fault and its line ([`faults::fault`], of a walk [`faults::walk_fault`], of texts [`faults::init_fault`],
//!   of a refused write with what the system says [`faults::said_line`]):
//!   `specs/FaultLines.antt`, `WalkFaults.antt`, `InitFaults.antt`
//! - what is said below that line ([`faults::advice`], [`faults::init_advice`], [`faults::sentences`]), by what was
//!   [`faults::found`]: `specs/Advice.antt`, `InitAdvice.antt`, `Sentences.antt`, `ShownBytes.antt`
//!
//! # Choices
//!
//! - The value below C2 comes from a second look, so no fault on the way of each call owns text.
//! - Nothing tells the bytes of a file that is found beside a manifest, so of such a run the promises are those of a disk.
//! - Files are opened through a shared reference, so no clause has to say that a run leaves its files as they were.
//! - [`RunFault`] and [`InitFault`] have a `Display` of their own, since a contract states each byte of their lines:
//!   that which `thiserror` derives would have none.
//! - The names of a fault of `init` are copied before a file is kept, so want of memory hides none that is left.
//!
//! Its tests are in `tests/cases/`, `tests/rows/inputs.txt` and `tests/rows/inits.txt`, which the built program runs.
#![tactic(auto)]

mod both_files;
mod faults;
mod load;

pub use both_files::init;
pub use faults::advice::{is_in_words, shown_fault};
pub use faults::fault::{RunFault, StepCause, fault_line};
pub use faults::file_name::FileName;
pub use faults::init_advice::shown_init_fault;
pub use faults::init_fault::{InitFault, init_fault_line};
pub use faults::said_line::{init_line_with, line_with};
pub use faults::walk_fault::fault_of_walk;
pub use load::beside::Beside;
pub use load::crewed::Crewed;
pub use load::cut_files::{CutFiles, CutText};
pub use load::first_look::begins_as_text;
pub use load::folders::{borrowed, with_folders};
pub use load::front::Front;
pub use load::input::{file_at, has_rank, input_at, opened};
pub use load::no_text::no_text_of;
pub use load::opener::{Disk, OpenFault, Opener, SharedOpener};
pub use load::prepared::{Prepared, Saying};
pub use load::reason::Reason;
pub use load::second_look::{piped_of, reopened, start_at};
pub use load::seen::{kept_files, prepared_of};
pub use load::telling::tell;
pub use load::terminal::Terminal;
pub use load::watch::{Unwatched, Watcher, announce, tell_walked};
pub use load::watched::Watched;
pub use load::whole::LONGEST_PIECE;
