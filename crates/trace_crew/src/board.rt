//! A board: the newest published answer, with the knowledge that it is of, for any number of
//! threads.
//!
//! A [`Board`] is one lock around one [`Shown`]. The owner of a node publishes it: what it knows and its answer, shared
//! with the node, replace what was shown. A reader shares them too. So no thread ever sees an answer that isn't that of
//! the knowledge beside it: the type under the lock guarantees that each time the lock is free.
//!
//! Cost: both calls hold the lock for two pointers, and for nothing else; the comparison with what a
//! reader saw last is made outside of it. A node that knows more while others share what it knew copies
//! that once, before it joins; no copy is made of what nobody else holds.
//!
//! - [`shown`]: what is shown, which is put and copied
//! - [`fault`]: why nothing was put, or nothing newer is shown
//!
//! No contract can say what a call did under the lock: that `publish` changes the board, and that `show` reads it, is
//! only tested.

ghost use Rattle.std.specs.Prelude.{◌≡◌, ◌↔◌, IsTrue, IfOk, IfErr, IfSome, IsErrOf};
ghost use Rattle.trace_know.specs.View.{IsBelow};

use mpi_model::Layout;
use std::alloc::{AllocError, Global};
use std::sync::{Mutex, Wait};
use trace_node::Node;

mod fault;
mod shown;

pub use fault::{PutFault, ShowFault};
pub use shown::Shown;

/// What is shown to any number of threads. It begins with empty knowledge.
///
/// Under the lock it changes by [`Shown::put`] and is read by [`Shown::try_clone`], and by nothing else.
#[derive(Drop)]
pub struct Board<'a> {
    shown: Mutex<Shown<'a>>,
}

impl<'a> Board<'a> {
    ghost use Rattle.trace_crew.specs.Older.{IsOlder};

    /// A board that shows empty knowledge of the run of a layout. Fails with `AllocError` when memory is refused.
    pub fn new(alloc: Global, layout: &'a Layout) -> Result<Board<'a>, AllocError> {
        Ok(Board {
            shown: Mutex::new(Shown::nothing(alloc, layout)?),
        })
    }

    /// Shows a node of the board's layout from now on. If it is refused, the board shows what it showed before. The
    /// call waits for the lock, under which nothing is copied.
    pub fn publish<R: Wait>(&self, rt: &R, node: &Node<'a>) -> Result<(), PutFault>
        ensures { IsErrOf result PutFault.Stale ↔ IsTrue node.now.is_stale }
    {
        self.shown.lock(rt).put(node)
    }

    /// What is shown. If it doesn't contain what the reader saw last (`seen`), it comes as [`ShowFault::Older`]. The
    /// call waits for the lock, under which nothing is copied.
    pub fn show<R: Wait>(
        &self,
        rt: &R,
        seen: Option<&Shown<'a>>,
    ) -> Result<Shown<'a>, ShowFault<'a>>
        ensures newer { IfOk result (λ s. IfSome seen.entry (λ before. IsBelow before.now.know s.know)) }
        ensures older { IfErr result (λ fault. IsOlder fault seen.entry) }
    {
        let Ok(found) = self.shown.lock(rt).try_clone() else {
            return Err(ShowFault::Memory);
        };
        if let Some(seen) = seen {
            if !found.know().contains(seen.know()) {
                return Err(ShowFault::Older(found));
            }
        }
        Ok(found)
    }
}
