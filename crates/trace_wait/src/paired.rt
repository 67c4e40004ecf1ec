//! Whether a message or a receive is in a pair, for callers that ask for those of each rank in their order: it is
//! looked for first after the one that was found before.

ghost use Rattle.std.specs.Prelude.{◌≡◌, is_some};
ghost use Rattle.trace_pair.specs.Table.{taken_by, given_by};

use mpi_model::{Message, Receive};
use trace_pair::{PairTable, PairsByReceive};

/// Whether the message is in a pair, looked for at the place first.
pub(crate) fn is_taken(pairs: &PairTable, m: &Message, place: &mut usize) -> bool
    ensures { result ≡ is_some (taken_by pairs.now.pairs m.now.name) }
{
    pairs.receive_near(m.name, place).is_some()
}

/// Whether the receive is in a pair, looked for at the place first.
pub(crate) fn is_given(pairs: &PairsByReceive, q: &Receive, place: &mut usize) -> bool
    ensures { result ≡ is_some (given_by pairs.now q.now.name) }
{
    pairs.message_near(q.name, place).is_some()
}
