//! Two nodes that exchange what they know over a stream.
//!
//! One node leads and the other follows. [`lead`] sends the frame of its node's knowledge, then reads one frame and
//! merges it; [`follow`] reads one frame and merges it, then sends the frame of all that its node knows by then. If
//! each gets the other's bytes, both nodes know the join of the two: what goes back is what came joined with what was
//! there. [`exchange_frames`] is what a leader does before it merges, for a caller that has knowledge but no node.
//!
//! If an exchange fails, [`ExchangeFault`] says which of its three steps failed, and so what was done before: the steps
//! are done in order, none after a failed one, and no failure loses a fact of either node.
//!
//! An exchange costs the writing of one frame, the reading of another and one merge. On a socket it
//! waits for the other side.
//!
//! - [`fault`]: why an exchange is refused
//! - [`frames`]: one frame read, and one each way
//! - [`hearing`]: what a frame tells, merged into a node
//! - [`leader`] and [`follower`]: the two sides of an exchange
//! - [`laws`]: what both nodes know after it, as the contract of a call that does nothing

mod fault;
mod follower;
mod frames;
mod hearing;
mod laws;
mod leader;

pub use fault::ExchangeFault;
pub use follower::follow;
pub use frames::exchange_frames;
pub use laws::exchange_laws;
pub use leader::lead;
