//! Pairs: a message with the receive that takes it.

ghost use Rattle.std.specs.Prelude.{◌≡◌};
ghost use Rattle.trace_pair.specs.Table.{pair_of};

use mpi_model::{Message, OpName, Receive};

/// The operations of a message and of the receive that takes it.
#[derive(Clone, Copy, PartialEq, Eq)]
pub struct Pair {
    pub message: OpName,
    pub receive: OpName,
    /// More elements are sent than the receive takes, of the same datatype: the program is erroneous (MPI 4.0, 3.2.4).
    pub over: bool,
}

/// A message and the receive that takes it.
#[derive(Clone, Copy)]
pub(crate) struct Couple {
    pub(crate) message: Message,
    pub(crate) receive: Receive,
}

/// What a receive has beside what the message that it takes already says.
#[derive(Clone, Copy)]
pub(crate) struct Taker {
    pub(crate) call: u64,
    pub(crate) part: u32,
    pub(crate) datatype: i64,
    pub(crate) count: u32,
    pub(crate) any_tag: bool,
    pub(crate) ended: Option<u64>,
}

/// The pair of a message and its receive. It is `over` if both have one datatype and the message has the greater count.
pub(crate) fn make_pair(m: &Message, q: &Receive) -> Pair
    ensures { result ≡ pair_of m.now q.now }
{
    Pair {
        message: m.name,
        receive: q.name,
        over: m.datatype == q.datatype && m.count > q.count,
    }
}
