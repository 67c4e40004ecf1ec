//! Why a walk stops.

use crate::parameter::Parameter;
use dumpi_text::TextFault;
use std::fmt::Display;
use thiserror::Error;

/// Why a walk stopped before the end of its text.
#[derive(Debug, Drop, Error)]
#[error_bound(F: Display)]
pub enum WalkCause<F> {
    /// The text is refused, or ends inside a call whose entry parameters aren't all there.
    #[error(transparent)]
    Text(TextFault),
    /// A parameter isn't there.
    #[error("C1 Missing {0}")]
    Missing(Parameter),
    /// A parameter's value is unreadable, of another kind, or out of its range.
    #[error("C2 Wrong {0}")]
    Wrong(Parameter),
    /// The sink refused the call.
    #[error("C3 Sink: {0}")]
    Sink(F),
    /// No memory was left.
    #[error("no memory is left")]
    Memory,
}

/// Why and where a walk stopped, and how many calls were handed on before.
#[derive(Debug, Drop, Error)]
#[error_bound(F: Display)]
#[error("{cause}, at line {line}, after {calls} calls")]
pub struct WalkFault<F> {
    pub cause: WalkCause<F>,
    /// The line, numbered from 1. For a fault of the text it is the faulty line; for a call that is refused or for
    /// which memory was refused, its entering line. If memory was refused while the next call was read, it is the last
    /// line of the call before, 0 before the first.
    pub line: u64,
    /// How many calls were handed on: those before the line.
    pub calls: u64,
}
