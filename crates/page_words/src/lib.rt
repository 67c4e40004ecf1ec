//! The page of a diagnosis: one HTML file that needs nothing else.
//!
//! A page is a fixed template around one JSON value: what `explain --json` prints, with the last calls of some ranks.
//! The template stands in `page/`, at the top of the repository; `tools/page` makes [`HEAD`] and [`TAIL`] of it, and a
//! test compares them. Its script shows what stands in the value, as text, and knows nothing else. So what a page says is proved as far as the
//! value is; the template is not.
//!
//! In a page each `<` of the value stands as `\u003c`, which JSON reads as the same character, so nothing in it ends the
//! element in which it stands ([`page_laws`]). The page takes as much memory as it has bytes.
//!
//! To change something, open:
//!
//! - what a page looks like and what it says: `page/`, then run `tools/page`
//! - how the value stands in it: [`page`], `specs/Page.antt`
//!
//! Its tests are in `tests/run/run_page`.
#![tactic(auto)]

mod laws;
mod page;
mod template;

pub use laws::page_laws;
pub use page::page_of;
pub use template::{HEAD, TAIL};
