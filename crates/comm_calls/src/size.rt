//! The size of MPI_COMM_WORLD that a call tells.

ghost use Rattle.std.specs.Prelude.{◌≡◌, IfOk};
ghost use Rattle.std.specs.Option.{option_copied};
ghost use Rattle.comm_calls.specs.Calls.{is_of_world, or_number, size_in, tells_size};

use crate::function::is;
use crate::number::natural_in;
use crate::parameter::{has_note, text_of};
use dumpi_calls::Memory;
use dumpi_text::RawCall;
use std::alloc::Global;

/// Whether the communicator of this text is MPI_COMM_WORLD.
fn is_of_world(text: Option<&[u8]>) -> bool
    ensures { result ≡ is_of_world (option_copied text.entry) }
{
    match text {
        Some(text) => has_note(text, "MPI_COMM_WORLD"),
        None => false,
    }
}

/// Whether it is a returned MPI_Comm_size of MPI_COMM_WORLD (MPI 4.0, 7.4.1).
fn tells_size(raw: &RawCall) -> bool
    ensures { result ≡ tells_size raw.now }
{
    !raw.threads()
        && raw.exit().is_some()
        && is(raw.name(), "MPI_Comm_size")
        && is_of_world(text_of(raw, "comm"))
}

/// The size of MPI_COMM_WORLD that a call tells.
fn size_in(alloc: Global, raw: &RawCall) -> Result<Option<u32>, Memory>
    ensures { IfOk result (λ n. n ≡ size_in raw.now) }
{
    if tells_size(raw) {
        natural_in(alloc, text_of(raw, "size"))
    } else {
        Ok(None)
    }
}

/// The size that was known, or else the one that a call tells.
pub(crate) fn known_or_size(
    alloc: Global,
    known: Option<u32>,
    raw: &RawCall,
) -> Result<Option<u32>, Memory>
    ensures { IfOk result (λ n. n ≡ or_number known (size_in raw.now)) }
{
    match known {
        Some(size) => Ok(Some(size)),
        None => size_in(alloc, raw),
    }
}
