//! Frames: how knowledge travels between nodes.
//!
//! Each knowledge has one frame of each [`Version`], each byte string is the frame of at most one knowledge, and no
//! frame begins another. So [`read_frame`] leaves what follows a frame unread, and what [`write_frame`] wrote is read
//! back as the same knowledge. Version 2 is written, run by run; version 1, cell by cell, is read as well, and written
//! where it is asked for ([`write_frame_as`]). Hostile bytes are refused with a named cause: the first in the order of
//! [`WireFault`]. The format stands in `docs/formats/frames.md`, and as definitions in `specs/`.
//!
//! A payload has at most 67,108,864 bytes, in version 1 16,777,216. Both directions are linear in its length. Writing
//! takes no memory and calls the device once for each 32,768 bytes. Reading holds a window of the payload, at most
//! 32,768 bytes and 4,096 more, or twice its longest cell more where that is longer (in version 1 all of it), and what
//! it knows so far: memory for what really came, whatever the length field and the counts say.
//!
//! - [`version`]: the versions and their limits; [`fault`]: why a frame is refused
//! - [`write`]: a frame, field by field, into a page that goes to the device when it is full
//! - [`size`]: how long a frame is
//! - [`read`]: the head, and the payload through a window, run by run
//! - [`kind`]: which nonblocking collective calls have a spelling of their own
//! - [`item`]: what stands in counted lists, in both directions
//! - [`packed`]: knowledge of any size as frames one after another, and joined again
//! - [`laws`]: what holds of frames, as the contract of a call that does nothing
//!
//! `tests/run/run_frames` tries it byte by byte.
//!
//! To change something, open:
//!
//! - a field of a frame, a kind of call in it: `specs/Fields.antt`, `specs/Events.antt`; `src/read/field.rt`,
//!   `src/read/event.rt`, and `src/write/` beside them
//! - a version: its number, its limit, its parts: `specs/Frames.antt`, `specs/Runs.antt`; `src/version.rt`,
//!   `src/size.rt`, `src/write/parts.rt`, `src/read/payload.rt`
//! - how much of a payload is held, and when more is read: `specs/Windows.antt`; `src/read/window.rt`,
//!   `src/read/filling.rt`, `src/read/front.rt`
//! - how knowledge is cut into frames, how several are joined: `specs/Packed.antt`; `src/packed/`
//! - the order in which a frame is refused: `specs/FirstFault.antt`, `specs/Parts.antt`; `src/read/input.rt`,
//!   `src/read/cells.rt`, `src/read/runs.rt`
//!
//! # Choices
//!
//! - One fault inside a cell, so a reading of fields is a value or nothing, and `frame_at` is the order of refusals as
//!   one function of bytes.
//! - Fields are put on a page of the stack, so a device is called once for 32,768 bytes. The writing of a field that
//!   fits stands in line, and so does all of a cell's reading: a result that holds a cell goes through memory at a
//!   call.
//! - A payload is read through a window and never held whole: touching its pages took a seventh of the reading's time.
//!   A cell that is refused though bytes are to come is tried again over twice as many. If the bytes are refused, the
//!   rest is read and thrown away first, so the device's faults come first. Version 1 holds its payload, of 16 MB at
//!   most.
//! - The runs of a frame are a function of its cells, so version 1 stays a frame of the same cells. A frame that was
//!   read has one of version 2, so a node that knew nothing can send on whatever it heard.
#![tactic(auto)]

/// The field, or its fault: `?`, written out.
macro_rules! field {
    ($read:expr) => {
        match $read {
            Ok(found) => found,
            Err(fault) => return Err(fault),
        }
    };
}

mod fault;
mod item;
mod kind;
mod laws;
mod packed;
mod read;
mod size;
mod version;
mod write;

pub use fault::WireFault;
pub use laws::frame_laws;
pub use packed::fault::{PackedCause, PackedFault};
pub use packed::joining::Joining;
pub use packed::reading::read_frames;
pub use packed::writing::write_frames;
pub use read::read_frame;
pub use size::{frame_len, frame_len_as};
pub use version::Version;
pub use write::{write_frame, write_frame_as};
