//! The rows of a call: of which part, and of which side of a Sendrecv.

ghost use Rattle.std.specs.Prelude.{◌≡◌};
ghost use Rattle.call_table.specs.Slots.{side_at, slot_at, slot_count};

use mpi_model::Call;

/// The side of a message on which a row stands.
#[derive(Clone, Copy)]
pub enum Side {
    /// The row makes the message.
    Send,
    /// The row takes it.
    Receive,
}

/// Of what a row of a call is.
#[derive(Clone, Copy)]
pub struct Slot {
    /// The place in the list of a Startall, from 0; 0 for every other call.
    pub part: u32,
    /// Of a Sendrecv, the side; `None` for every other call, which has one.
    pub side: Option<Side>,
}

/// How many rows a call has: one, two of a Sendrecv, and of a Startall one for each of its requests.
pub fn slot_count(call: &Call) -> usize
    ensures { result ≡ slot_count call.now }
{
    match call {
        Call::Sendrecv(_) => 2,
        Call::Startall(requests) => requests.as_slice().len().max(1),
        _ => 1,
    }
}

/// The side of a Sendrecv by the place of its row: its send stands before its receive.
fn side_at(place: u32) -> Side
    ensures { result ≡ side_at place }
{
    if place == 0 {
        Side::Send
    } else {
        Side::Receive
    }
}

/// Of what the row at a place of a call is, from 0.
pub fn slot_at(call: &Call, place: u32) -> Slot
    ensures { result ≡ slot_at call.now place }
{
    match call {
        Call::Sendrecv(_) => Slot {
            part: 0,
            side: Some(side_at(place)),
        },
        Call::Startall(_) => Slot {
            part: place,
            side: None,
        },
        _ => Slot {
            part: 0,
            side: None,
        },
    }
}
