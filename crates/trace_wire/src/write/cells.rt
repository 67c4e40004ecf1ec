//! Cells, put into a sink.

ghost use Rattle.std.specs.Prelude.{◌<◌, ◌^◌, length};
ghost use Rattle.trace_wire.specs.Cells.{cell_bytes, cells_bytes, known_bytes, place_form};
ghost use Rattle.trace_wire.specs.Sending.{Sends};

use crate::write::event::put_event;
use crate::write::field::{put_byte, put_u32, put_u64};
use crate::write::sink::Sink;
use trace_know::{Known, Walk};

/// A rank and a place.
pub(crate) fn put_place<S: Sink>(out: &mut S, rank: u32, place: u64)
    ensures { Sends (S.page out.old) (S.page out.new) (place_form.spell (rank, place)) }
{
    put_u32(out, rank);
    put_u64(out, place);
}

/// One event, or a contradiction.
pub(crate) fn put_known<S: Sink>(out: &mut S, known: &Known)
    requires { length (known_bytes known.now) < 2 ^ 32 }
    ensures { Sends (S.page out.old) (S.page out.new) (known_bytes known.now) }
{
    match known {
        Known::One(event) => {
            put_byte(out, 0);
            put_event(out, event);
        }
        Known::Contradiction => put_byte(out, 1),
    }
}

/// A cell.
fn put_cell<S: Sink>(out: &mut S, rank: u32, place: u64, known: &Known)
    requires { length (cell_bytes ((rank, place), known.now)) < 2 ^ 32 }
    ensures { Sends (S.page out.old) (S.page out.new) (cell_bytes ((rank, place), known.now)) }
{
    put_place(out, rank, place);
    put_known(out, known);
}

/// The cells that a walk has left.
pub(crate) fn put_cells<S: Sink>(out: &mut S, cells: Walk<'_>)
    requires { length (cells_bytes cells) < 2 ^ 32 }
    ensures { Sends (S.page out.old) (S.page out.new) (cells_bytes cells.entry) }
{
    let mut cells = cells;
    while let Some((rank, place, known)) = cells.next() {
        put_cell(out, rank, place, known);
    }
}
