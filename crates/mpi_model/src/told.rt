//! What an outcome tells of a message's source.

ghost use Rattle.std.specs.Prelude.{◌≡◌, ◌<◌, ◌^◌, SomeIff};
ghost use Rattle.mpi_model.specs.Ranges.{IsTold};
ghost use Rattle.mpi_model.specs.Tells.{told_rank};
ghost use Rattle.mpi_model.specs.declared.told.Told.TheVariants.{Source};

use std::marker::Model;

/// A rank in a communicator's group, at most 2^31 - 1.
#[derive(Clone, Copy, PartialEq, Eq)]
pub struct GroupRank {
    number: u32,
}

impl Model for GroupRank {
    ghost use Rattle.std.specs.Prelude.{ℕ, ◌<◌, ◌^◌};

    ghost Value = { ℕ };

    ghost view = { λ r. r.number };

    ghost invariant = { λ r. r.number < 2 ^ 31 };

    ghost inverse = { λ n. record { number = n } };
}

impl GroupRank {
    /// The rank of that number; `None` if it is above 2^31 - 1.
    pub fn new(number: u32) -> Option<GroupRank>
        ensures { SomeIff result (number < 2 ^ 31) number }
    {
        if number < 0x8000_0000 {
            Some(GroupRank { number })
        } else {
            None
        }
    }

    /// The rank in the group, at most 2^31 - 1.
    pub fn number(self) -> u32
        ensures value { result ≡ self }
        ensures range { result < 2 ^ 31 }
    {
        self.number
    }
}

/// What a status says of where its message came from (MPI 4.0, 3.2.5, field `MPI_SOURCE`).
#[derive(Clone, Copy, PartialEq, Eq)]
pub enum Told {
    /// The trace doesn't give the source.
    Nothing,
    /// The rank from which the message came, in the communicator's group.
    Source(GroupRank),
    /// The operation was cancelled (MPI 4.0, 3.8.4), so no message came or went.
    Cancelled,
}

const _: () = prove!(size_of::<Told>() <= 8);

impl Told {
    /// The source with this number; `None` if it is above 2^31 - 1.
    pub fn from_rank(rank: u32) -> Option<Told>
        ensures { SomeIff result (rank < 2 ^ 31) (Source rank) }
    {
        Some(Told::Source(GroupRank::new(rank)?))
    }

    /// The source's rank in the group; `None` if no source is told.
    pub fn rank(self) -> Option<u32>
        ensures value { result ≡ told_rank self }
        ensures range { IsTold self }
    {
        match self {
            Told::Source(rank) => Some(rank.number()),
            Told::Nothing | Told::Cancelled => None,
        }
    }
}
