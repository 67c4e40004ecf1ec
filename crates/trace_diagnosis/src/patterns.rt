//! The ways in which a receive can name a message: communicator, receiver, source and tag, where source and tag may be
//! left open.

ghost use Rattle.std.specs.Prelude.{◌≡◌};
ghost use Rattle.trace_wait.specs.Patterns.{pattern_of};

use mpi_model::{Message, Receive};

/// Communicator, receiver, source and tag, as a receive names them.
pub(crate) type Pattern = (u32, u32, Option<u32>, Option<u32>);

/// What the receive names.
pub(crate) fn pattern_of(q: &Receive) -> Pattern
    ensures { result ≡ pattern_of q.now }
{
    (q.comm, q.at, q.source, q.tag)
}

/// The ways in which a receive can name the message.
pub(crate) fn patterns_of(m: &Message) -> [Pattern; 4] {
    [
        (m.comm, m.to, None, None),
        (m.comm, m.to, None, Some(m.tag)),
        (m.comm, m.to, Some(m.from), None),
        (m.comm, m.to, Some(m.from), Some(m.tag)),
    ]
}
