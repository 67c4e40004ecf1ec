//! Whether something is known of a rank that the layout doesn't have.

ghost use Rattle.std.specs.Prelude.{◌≡◌, ◌↔◌, IsTrue};
ghost use Rattle.trace_node.specs.Node.{HasStranger};

use mpi_model::Layout;
use trace_know::{Knowledge, listing_laws};

/// Whether something is known of a rank that the layout doesn't have. The cells are ordered by rank, so the last one
/// decides.
pub(crate) fn has_stranger(layout: &Layout, know: &Knowledge) -> bool
    ensures { IsTrue result ↔ HasStranger layout.now know.now }
{
    listing_laws();
    let count = know.count();
    if count == 0 {
        return false;
    }
    match know.cell_at(count - 1) {
        Some((rank, _, _)) => rank >= layout.ranks(),
        None => false,
    }
}
