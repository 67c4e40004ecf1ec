//! Where the input of a run comes from: files, and texts of all ranks.

pub(crate) mod beside;
pub(crate) mod crewed;
pub(crate) mod cut;
pub(crate) mod cut_files;
pub(crate) mod first_look;
pub(crate) mod folders;
pub(crate) mod front;
pub(crate) mod input;
pub(crate) mod no_text;
pub(crate) mod opener;
pub(crate) mod prepared;
pub(crate) mod reason;
pub(crate) mod second_look;
pub(crate) mod seen;
pub(crate) mod telling;
pub(crate) mod terminal;
pub(crate) mod text_reads;
pub(crate) mod texts;
pub(crate) mod watch;
pub(crate) mod watched;
pub(crate) mod whole;
