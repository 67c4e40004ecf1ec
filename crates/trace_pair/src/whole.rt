//! Calls of several parts in the lists of a rank.

ghost use Rattle.std.specs.Prelude.{◌≡◌, ◌≤◌, ◌<◌, All, IsTrue, false, length, slice_range};
ghost use Rattle.trace_ops.specs.Ops.{AreOwn};
ghost use Rattle.trace_ops.specs.Order.{AreInOrder, ArePosted};
ghost use Rattle.trace_pair.specs.Calls.{AreSentByCall, ArePostedByCall, IsOneCall, IsSingle, IsWhole};

use mpi_model::{Message, Receive};
use trace_ops::RankOps;

/// Where the call ends that begins at a place.
pub(crate) fn end_of_receives(calls: &[Receive], start: usize) -> usize
    requires { start < length calls.now }
    ensures behind { start < result }
    ensures bound { result ≤ length calls.now }
    ensures one { IsOneCall (λ q. q.name.call) (slice_range calls.now start result) }
    ensures whole { ArePosted calls.now → IsWhole (λ q. q.name.call) calls.now result }
{
    let call = calls[start].name.call;
    let mut end = start + 1;
    while end < calls.len() && calls[end].name.call == call {
        end += 1;
    }
    end
}

/// Whether some call has two of the messages: they would stand side by side.
fn has_sends_of_one_call(calls: &[Message]) -> bool
    requires { AreInOrder calls.now }
    ensures single { result ≡ false → AreSentByCall calls.now }
    ensures several { IsTrue result → AreSentByCall calls.now → ⊥ }
{
    let mut next = 1;
    while next < calls.len() {
        if calls[next - 1].name.call == calls[next].name.call {
            return true;
        }
        next += 1;
    }
    false
}

/// Whether some call has two of the receives.
fn has_receives_of_one_call(calls: &[Receive]) -> bool
    requires { ArePosted calls.now }
    ensures single { result ≡ false → ArePostedByCall calls.now }
    ensures several { IsTrue result → ArePostedByCall calls.now → ⊥ }
{
    let mut next = 1;
    while next < calls.len() {
        if calls[next - 1].name.call == calls[next].name.call {
            return true;
        }
        next += 1;
    }
    false
}

/// Whether some call of the rank has several parts.
pub(crate) fn has_several(ops: &RankOps) -> bool
    requires sends { AreInOrder ops.now.sends }
    requires receives { ArePosted ops.now.receives }
    ensures single { result ≡ false → IsSingle ops.now }
    ensures several { IsTrue result → IsSingle ops.now → ⊥ }
{
    has_sends_of_one_call(ops.sends()) || has_receives_of_one_call(ops.receives())
}

/// Whether some call of some rank has several parts.
pub(crate) fn some_has_several(held: &[RankOps]) -> bool
    requires { AreOwn 0 held.now }
    ensures single { result ≡ false → All IsSingle held.now }
    ensures several { IsTrue result → All IsSingle held.now → ⊥ }
{
    for own in held {
        if has_several(own) {
            return true;
        }
    }
    false
}
