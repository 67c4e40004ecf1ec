//! From the texts of all ranks to the input of a run: a layout and a manifest.
//!
//! It opens no file: a text is any reader, and the bytes of both files, which only `init` asks for, are in memory.
//!
//! - [`text`]: what one text says of communicators; [`order`]: which text is of which rank, by the files' names
//! - [`seats`]: which text is of which rank, where some rank may have none, and their manifest
//! - [`size`]: whether the texts are those of all ranks, by the size of the world that they tell
//! - [`made`]: from what all texts say to the input of a run; [`fault`]: why there is none
//! - [`files`]: the bytes of its two files; [`makers`]: by which functions its objects were made
//! - [`words`], [`summary`], [`found`]: what is said of them to a person, on one line, and as JSON
//!
//! To change something, open:
//!
//! - which text is of which rank: `specs/Names.antt`, `specs/Seats.antt`; [`order`], [`seats`]
//! - when texts make no layout: `specs/Making.antt`, `specs/Sizes.antt`; [`made`], [`fault`]
//! - what is said of a layout: `specs/Words.antt`, `specs/Summary.antt`, `specs/Found.antt`; [`words`], [`summary`],
//!   [`found`]
#![tactic(auto)]

mod fault;
mod files;
mod found;
mod made;
mod makers;
mod order;
mod seats;
mod size;
mod summary;
mod text;
mod words;

pub use fault::MadeFault;
pub use files::{layout_file_of, manifest_file_of};
pub use found::found_json;
pub use made::{Made, made_of};
pub use makers::{Maker, maker_text, makers_of};
pub use order::{Order, order_of};
pub use seats::{in_order, missing_of, seats_of, text_beyond, texts_of};
pub use summary::{put_missing, put_summary};
pub use text::rank_calls_of;
pub use words::{MOST_SHOWN, put_notes};
