//! A row: an operation of a call, with the other end of its message.

ghost use Rattle.std.specs.Prelude.{◌≡◌};
ghost use Rattle.trace_ops.specs.Ops.{AreOwn};
ghost use Rattle.trace_wait.specs.Ranks.{ops_of};
ghost use Rattle.call_table.specs.Rows.{message_on, partner_of, receive_on, row_with};

use crate::partners::Partners;
use crate::slot::Side;
use mpi_model::{Message, OpName, Receive};
use trace_ops::RankOps;
use trace_wait::{message_named, receive_named};

/// An operation of a call, with what becomes of it.
#[derive(Clone, Copy)]
pub struct Row {
    pub name: OpName,
    /// The message that it makes.
    pub message: Option<Message>,
    /// The receive that it posts, with the call that completes it.
    pub receive: Option<Receive>,
    /// The operation at the other end: the receive that takes the message, or the message that the receive takes.
    pub partner: Option<OpName>,
}

/// The message that an operation makes, on a side where it can make one.
fn message_on(side: Option<Side>, ops: &[RankOps], name: OpName) -> Option<Message>
    requires { AreOwn 0 ops.now }
    ensures { result ≡ message_on side (ops_of ops.now name.rank) name }
{
    match side {
        Some(Side::Receive) => None,
        Some(Side::Send) => message_named(ops, name),
        None => message_named(ops, name),
    }
}

/// The receive that an operation posts, on a side where it can post one.
fn receive_on(side: Option<Side>, ops: &[RankOps], name: OpName) -> Option<Receive>
    requires { AreOwn 0 ops.now }
    ensures { result ≡ receive_on side (ops_of ops.now name.rank) name }
{
    match side {
        Some(Side::Send) => None,
        Some(Side::Receive) => receive_named(ops, name),
        None => receive_named(ops, name),
    }
}

/// The other end of a message or of a receive.
fn partner_of(
    partners: &Partners<'_>,
    name: OpName,
    message: Option<Message>,
    receive: Option<Receive>,
) -> Option<OpName>
    ensures { result ≡ partner_of partners.now name message receive }
{
    match (message, receive) {
        (Some(_), _) => partners.receive_of(name),
        (None, Some(_)) => partners.message_of(name),
        (None, None) => None,
    }
}

/// A row with its other end.
fn row_with(
    partners: &Partners<'_>,
    name: OpName,
    message: Option<Message>,
    receive: Option<Receive>,
) -> Row
    ensures { result ≡ row_with partners.now name message receive }
{
    Row {
        name,
        message,
        receive,
        partner: partner_of(partners, name, message, receive),
    }
}

/// The row of an operation.
pub(crate) fn row_of(
    ops: &[RankOps],
    partners: &Partners<'_>,
    name: OpName,
    side: Option<Side>,
) -> Row
    requires { AreOwn 0 ops.now }
    ensures { result ≡ row_with partners.now name (message_on side (ops_of ops.now name.rank) name) (receive_on side (ops_of ops.now name.rank) name) }
{
    let message = message_on(side, ops, name);
    let receive = receive_on(side, ops, name);
    row_with(partners, name, message, receive)
}
