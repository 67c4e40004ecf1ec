//! Devices in memory, which give and take their bytes in pieces and fail where they are told to:
//! what tests of a parser or of a report stand on.

mod reader;
mod writer;

pub use reader::{EndlessReader, MemoryReader};
pub use writer::MemoryWriter;
