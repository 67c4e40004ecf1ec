//! Why a run is refused, and what a person is told of it.

pub(crate) mod advice;
pub(crate) mod fault;
pub(crate) mod file_name;
pub(crate) mod found;
pub(crate) mod init_advice;
pub(crate) mod init_fault;
pub(crate) mod said_line;
pub(crate) mod sentences;
pub(crate) mod shown_bytes;
pub(crate) mod walk_fault;
