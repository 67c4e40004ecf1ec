//! The lists that calls and outcomes hold. A contract sees each as the list of its items.

mod elements;
mod requests;
mod sources;

pub use elements::{Element, Elements};
pub use requests::{NULL_REQUEST, Requests};
pub use sources::Sources;
