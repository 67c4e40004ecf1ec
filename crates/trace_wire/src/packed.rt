//! Knowledge of any size as frames of version 2, one after another, as a file holds it.
//!
//! - [`plan`]: how the cells are cut into parts
//! - [`part`]: the frame of a part
//! - [`writing`]: the frames of all parts
//! - [`joining`]: knowledge that comes in parts, joined
//! - [`next`]: the next of the frames of a device
//! - [`reading`]: all of them
//! - [`fault`]: which frame is refused, and why

pub(crate) mod fault;
pub(crate) mod joining;
pub(crate) mod next;
pub(crate) mod part;
pub(crate) mod plan;
pub(crate) mod reading;
pub(crate) mod writing;
