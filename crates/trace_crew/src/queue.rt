//! The queue of a crew: two workers post segments into it, and one owner takes them out.
//!
//! It is a bounded channel of eight places under a rule: of each worker, what was taken and then what
//! the queue holds is what that worker posted, in its order. Each of the three holds a [`Seat`], a
//! value of no bytes that exists for the proof alone and knows what its holder did: what a worker
//! posted, or what the owner took and which workers it has made and joined. After both workers have
//! ended, the owner joins their seats into its own; where it finds the queue empty then, what it took
//! of each worker is all that the worker posted.
//!
//! There are seven kinds of step, each a call that keeps the rule whatever the others did before: a
//! post of either worker ([`post`]), which is tried again while the queue is full; a take
//! ([`take`], [`take_now`]), and one that finds the queue empty; the making of a worker
//! ([`make_first`], [`make_second`]); and the joining of one ([`join`]).
//!
//! Cost: a post or a take moves one segment and copies no event. A worker waits while eight items lie
//! in the queue, the owner while none does.
//!
//! - [`item`]: what is posted, and by whom
//! - [`rule`]: what seats know, and the rule
//! - [`steps`]: the calls
//!
//! No contract promises that a post arrives or that a thread makes progress: the contracts say what was done when a
//! call returns.

mod item;
mod rule;
mod steps;

pub use item::{Post, Worker, WorkerPost};
pub use rule::{Desk, PostOrder, PostReceiver, PostSender, Seat, SeatView, WorkerStanding};
pub use steps::{Closed, MOST_ITEMS, join, make_first, make_second, open, post, take, take_now};
