//! The message or the receive of a name, and whether a Cancel names its request, found by binary search: those of a
//! rank stand in order of their calls and parts.

ghost use Rattle.std.specs.Prelude.{◌≡◌, None, IfOk, IfErr, slice_get};
ghost use Rattle.std.specs.List.{find, list_any};
ghost use Rattle.trace_ops.specs.Ops.{AreOwn};
ghost use Rattle.trace_ops.specs.Order.{AreCalledInOrder, AreInOrder, ArePosted};
ghost use Rattle.trace_wait.specs.Parts.{is_of, send_of, receive_of};
ghost use Rattle.trace_wait.specs.Ranks.{ops_of};
ghost use Rattle.trace_wait.specs.Requests.{has_cancel};

use mpi_model::{Message, OpName, Receive};
use trace_ops::RankOps;

/// Where the message of a name stands.
fn place_of_send(sends: &[Message], name: OpName) -> Result<usize, usize>
    requires { AreInOrder sends.now }
    ensures found { IfOk result (λ at. slice_get sends.now at ≡ find (λ m. is_of name m.name) sends.now) }
    ensures absent { IfErr result (λ at. find (λ m. is_of name m.name) sends.now ≡ None) }
{
    sends.binary_search_by_key(&(name.call, name.part), |m| (m.name.call, m.name.part))
}

/// The message of a name.
pub(crate) fn send_of(o: &RankOps, name: OpName) -> Option<Message>
    requires { AreInOrder o.now.sends }
    ensures { result ≡ send_of o.now name }
{
    let sends = o.sends();
    match place_of_send(sends, name) {
        Ok(at) => sends.get(at).copied(),
        Err(_) => None,
    }
}

/// The message of a name among those of a rank.
fn send_in(sends: &[Message], name: OpName) -> Option<Message>
    requires { AreInOrder sends.now }
    ensures { result ≡ find (λ m. is_of name m.name) sends.now }
{
    match place_of_send(sends, name) {
        Ok(at) => sends.get(at).copied(),
        Err(_) => None,
    }
}

/// The messages of a rank.
fn sends_at(ops: &[RankOps], rank: u32) -> &[Message]
    ensures { result.now ≡ (ops_of ops.now rank).sends }
{
    match ops.get(rank as usize) {
        Some(own) => own.sends(),
        None => &[],
    }
}

/// The message of a name, where its rank made one. It is found by binary search.
pub fn message_named(ops: &[RankOps], name: OpName) -> Option<Message>
    requires { AreOwn 0 ops.now }
    ensures { result ≡ send_of (ops_of ops.now name.rank) name }
{
    send_in(sends_at(ops, name.rank), name)
}

/// Where the receive of a name stands.
fn place_of_receive(receives: &[Receive], name: OpName) -> Result<usize, usize>
    requires { ArePosted receives.now }
    ensures found { IfOk result (λ at. slice_get receives.now at ≡ find (λ q. is_of name q.name) receives.now) }
    ensures absent { IfErr result (λ at. find (λ q. is_of name q.name) receives.now ≡ None) }
{
    receives.binary_search_by_key(&(name.call, name.part), |q| (q.name.call, q.name.part))
}

/// The receive of a name.
pub(crate) fn receive_of(o: &RankOps, name: OpName) -> Option<Receive>
    requires { ArePosted o.now.receives }
    ensures { result ≡ receive_of o.now name }
{
    let receives = o.receives();
    match place_of_receive(receives, name) {
        Ok(at) => receives.get(at).copied(),
        Err(_) => None,
    }
}

/// The receive of a name among those of a rank.
fn receive_in(receives: &[Receive], name: OpName) -> Option<Receive>
    requires { ArePosted receives.now }
    ensures { result ≡ find (λ q. is_of name q.name) receives.now }
{
    match place_of_receive(receives, name) {
        Ok(at) => receives.get(at).copied(),
        Err(_) => None,
    }
}

/// The receives of a rank.
fn receives_at(ops: &[RankOps], rank: u32) -> &[Receive]
    ensures { result.now ≡ (ops_of ops.now rank).receives }
{
    match ops.get(rank as usize) {
        Some(own) => own.receives(),
        None => &[],
    }
}

/// The receive of a name, where its rank posted one. It is found by binary search.
pub fn receive_named(ops: &[RankOps], name: OpName) -> Option<Receive>
    requires { AreOwn 0 ops.now }
    ensures { result ≡ receive_of (ops_of ops.now name.rank) name }
{
    receive_in(receives_at(ops, name.rank), name)
}

/// Whether a name is among these.
fn is_among(names: &[OpName], name: OpName) -> bool
    requires { AreCalledInOrder names.now }
    ensures { result ≡ list_any (is_of name) names.now }
{
    names
        .binary_search_by_key(&(name.call, name.part), |a| (a.call, a.part))
        .is_ok()
}

/// Whether a Cancel names the request of an operation.
pub(crate) fn has_cancel(o: &RankOps, name: OpName) -> bool
    requires { AreCalledInOrder o.now.cancelled }
    ensures { result ≡ has_cancel o.now name }
{
    is_among(o.cancelled(), name)
}
