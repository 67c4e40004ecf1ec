//! Where the text of a killed run was cut off.
//!
//! A tracer that buffers what it writes leaves a text that ends anywhere: within a line, or within a call. What stands
//! before that is sound, so it is kept, and the rest is dropped. Here stands how a text ends, and how many bytes its
//! first lines have; who opens files reads them as far as they are kept.
//!
//! - [`end`]: how a text ends, and whether inside a call that lacks an entry parameter
//! - [`lines`]: how many bytes the first lines of a text have
//!
//! To change something, open:
//!
//! - what is dropped of a text: `specs/Cuts.antt`; which parameters a call has to have: `specs/Lacking.antt` of
//!   `dumpi_calls`
//!
//! # Choices
//!
//! - A text is cut by lines: a fault and a call tell lines, and a text that is cut before a line is a text.
//! - What a text means says where it was cut off, so a text that is read whole is never looked at for it.
#![tactic(auto)]

mod end;
mod lines;

pub use end::{EndFault, TextEnd, end_of};
pub use lines::{FirstLines, lines_of};
