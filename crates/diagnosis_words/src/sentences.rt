//! All sentences, each once, by what they are of.

mod arguments;
mod doubts;
mod head;
mod messages;
mod roots;
mod rounds;
mod standing;

pub(crate) use head::headline_of;
