//! Room for the messages and the receives of a rank, so that their lists aren't moved as they grow. Nothing is claimed
//! of it: a list that it is too short for grows.

use crate::called::Calls;
use mpi_model::Call;

/// Of many calls some are counted, as many as this at a time, in parts that stand as far from one another.
const COUNTED: usize = 64;

const PARTS: usize = 16;

/// How many calls send, and how many receive. The parts of a Start or Startall aren't among them.
#[derive(Clone, Copy)]
pub(crate) struct Room {
    pub sends: usize,
    pub receives: usize,
}

impl Room {
    /// The counts of no calls.
    pub fn empty() -> Room {
        Room {
            sends: 0,
            receives: 0,
        }
    }

    /// Counts a call more.
    #[inline(always)]
    pub fn count(&mut self, call: &Call) {
        match call {
            Call::Send(_, _) | Call::Isend(_, _) => self.sends = self.sends.saturating_add(1),
            Call::Recv(_) | Call::Irecv(_) => self.receives = self.receives.saturating_add(1),
            Call::Sendrecv(_) => {
                self.sends = self.sends.saturating_add(1);
                self.receives = self.receives.saturating_add(1);
            }
            _ => {}
        }
    }

    /// Counts so many calls from a place on, as far as there are any.
    fn count_from(&mut self, calls: &Calls<'_>, first: usize, count: usize) {
        let end = first.saturating_add(count).min(calls.len());
        for n in first..end {
            self.count(calls.call_at(n));
        }
    }

    /// A guess of how many there are among all of so many calls, where these are among some of them: an eighth more.
    fn among(self, some: usize, all: usize) -> Room {
        Room {
            sends: share_of(self.sends, some, all),
            receives: share_of(self.receives, some, all),
        }
    }

    /// A guess of how many of the calls send and receive.
    pub fn guessed(calls: &Calls<'_>) -> Room {
        let mut room = Room::empty();
        let apart = calls.len() / PARTS;
        if apart <= COUNTED {
            room.count_from(calls, 0, calls.len());
            return room;
        }
        let mut first = 0;
        for _part in 0..PARTS {
            room.count_from(calls, first, COUNTED);
            first = first.saturating_add(apart);
        }
        room.among(COUNTED * PARTS, calls.len())
    }
}

/// An eighth more than the share of all that this count has of some.
fn share_of(count: usize, some: usize, all: usize) -> usize {
    let share = count.saturating_mul(all) / some.max(1);
    share.saturating_add(share / 8)
}
