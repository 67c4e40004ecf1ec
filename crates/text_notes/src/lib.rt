//! What is noted of trace texts while they are read, for a person who doubts an answer.
//!
//! A walk into [`Noting`] keeps the events that one into `dumpi_calls::Collect` keeps, and notes beside them which
//! functions aren't read, and for what the text is looked at a second time ([`needs`]). Work is in proportion to the texts, memory to the functions that are noted.
//!
//! - [`function`]: a function whose calls aren't read; [`noting`]: the sink; [`note`]: what was noted of one text;
//!   [`start`]: what a text without calls is taken for
//! - [`totals`]: the functions of all texts; [`pieceless`]: the ranks without a text
//! - [`value`]: a second look at a text, at what it has for a parameter of a call; [`look`]: one at many calls, by a
//!   sink ([`looking`]) that keeps from where in the program they were made ([`site`]), and
//!   what collective ones tell of their arguments ([`arguments`]); [`front_look`]: one at its first calls
//! - [`words`]: what is said of it
//! - [`laws`]: that a walk into the sink collects what one without notes does
//!
//! To change something, open:
//!
//! - what a second look at a text tells: `specs/Sites.antt`, `specs/Looks.antt`; [`site`], [`looking`]
#![tactic(auto)]

mod arguments;
mod front_look;
mod function;
mod laws;
mod look;
mod looking;
mod needs;
mod note;
mod noting;
mod pieceless;
mod site;
mod start;
mod totals;
mod value;
mod words;

pub use arguments::CallTold;
pub use front_look::{FrontLook, look_at_front};
pub use function::UnreadFunction;
pub use laws::noted_texts;
pub use look::{Look, look_at};
pub use needs::{CallNotes, LookNeeds};
pub use note::{TextNote, note_of};
pub use noting::Noting;
pub use pieceless::put_pieceless;
pub use site::CallSite;
pub use start::{LONGEST_FRONT, Start, start_of};
pub use totals::MOST_SHOWN;
pub use value::{LookFault, value_at};
pub use words::put_notes;
