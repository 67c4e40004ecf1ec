//! The input of a run and its two files: the layout and the manifest, each one JSON text.
//!
//! `serde_json` reads a text into a value, and the definitions in `specs/` say which layout or manifest a value is. A
//! key that stands twice in an object has its last value, and keys that are not named here are passed over. What is
//! written is one value without spaces and a line feed. The work is linear in the text, but for the order of a layout's
//! communicators and their names; memory is in proportion to the text.
//!
//! - [`input`]: the input of a run
//! - [`manifest`]: the pieces of a trace, and the steps of a schedule; `Manifests.antt`
//! - [`read`]: `fields`: the value of a text, and its fields; `layout`, `numbers`: ranks and communicators; `manifest`,
//!   `schedule`: pieces, and what nodes are to do with them; `Fields.antt`, `Layouts.antt`, `Numbers.antt`,
//!   `Manifests.antt`, `Schedules.antt`
//! - [`fault`]: why a text is refused
//! - [`write`]: `layout`, `numbers`, `manifest`: the bytes of both files; `values`: numbers and lists in them, which
//!   others print too; `Values.antt`
//! - [`store`]: where both files are kept, or neither; [`folder`]: as files of the system; `Stores.antt`
//!
//! To change something, open:
//!
//! - a field of the layout: `specs/Layouts.antt`, `specs/Values.antt`; `src/read/layout.rt`, `src/write/layout.rt`
//! - a field of the manifest, a step of its schedule: `specs/Manifests.antt`, `specs/Schedules.antt`;
//!   `src/read/manifest.rt`, `src/read/schedule.rt`
//! - how two files are written, both or none: `specs/Stores.antt`; [`store`], [`folder`]
//!
//! # Choices
//!
//! - A packed piece is a field, not a kind of file, so that a damaged pack can't be taken for a text without calls. A
//!   piece with both `packed` and `file` is refused, so that neither is lost.
//! - That what is written is read back as the same is tested, not proved: `json` defines what is printed by tokens,
//!   `serde_json` what is read by bytes, and no law of the kit ties the two.
//!
//! Its tests are rows of `tests/rows/inputs.txt` and `tests/rows/inits.txt`, which the built program runs.
#![tactic(auto)]

mod fault;
mod folder;
mod input;
mod manifest;
mod read;
mod store;
mod write;

pub use fault::{Field, InputFault};
pub use folder::Folder;
pub use input::{LONGEST_FILE, RunInput};
pub use manifest::{Manifest, PackedPiece, Piece, PlannedStep};
pub use read::layout::layout_of;
pub use read::manifest::manifest_of;
pub use store::{NewFile, PutFault, Store, StoreFault, Which, add_both, replace_both};
pub use write::layout::layout_bytes;
pub use write::manifest::manifest_bytes;
pub use write::numbers::put_entries;
pub use write::values::{line_of, put_number_field, put_numbers, put_string_field};
