//! Groups and the communicators that are made of them, as plain lists of ranks (MPI 4.0, chapters 7 and 8).
//!
//! - [`group`]: groups made of others (7.3.2); [`range`]: ranges of ranks
//! - [`color`]: the members of each color, by key (7.4.2)
//! - [`grid`]: grids of ranks and their parts (8.5); [`laws`]: which ranks are in one part
//! - [`told`]: the order of ranks that were told theirs
//!
//! To change something, open:
//!
//! - groups made of others, and of ranges: `specs/Groups.antt`, `specs/Ranges.antt`; [`group`], [`range`]
//! - the order of a split, the parts of a grid: `specs/Splits.antt`, `specs/Grids.antt`; [`color`], [`grid`]
#![tactic(auto)]

mod color;
mod grid;
mod group;
mod laws;
mod range;
mod told;

pub use color::{ColorGroup, Colored, split};
pub use grid::{grid_parts, grid_size, kept_dims};
pub use group::{difference, excl, incl, intersection, union};
pub use laws::parts_agree;
pub use range::{RankRange, range_excl, range_incl};
pub use told::order_of;
