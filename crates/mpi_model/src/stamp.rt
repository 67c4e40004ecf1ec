//! When a call was entered or left.

ghost use Rattle.std.specs.Prelude.{◌≡◌, ◌≤◌, SomeIff};
ghost use Rattle.mpi_model.specs.Times.{IsTimes};

use std::marker::Model;

/// The latest time, in nanoseconds: 9,999,999,999 seconds and nine nines after the point.
pub const LATEST: u64 = 9_999_999_999_999_999_999;

/// The wall and the CPU time of one moment of a call, in nanoseconds, each at most [`LATEST`].
#[derive(Clone, Copy, PartialEq, Eq)]
pub struct Stamp {
    wall: u64,
    cpu: u64,
}

impl Model for Stamp {
    ghost use Rattle.std.specs.Prelude.{◌≤◌};
    ghost use Rattle.mpi_model.specs.Times.{Times, latest};

    ghost Value = { Times };

    ghost view = { λ s. record { wall = s.wall; cpu = s.cpu } };

    ghost invariant = { λ s. (s.wall ≤ latest) × (s.cpu ≤ latest) };

    ghost inverse = { λ t. record { wall = t.wall; cpu = t.cpu } };
}

impl Stamp {
    ghost use Rattle.mpi_model.specs.Times.{latest};

    /// A moment; `None` if one of the times is after [`LATEST`].
    pub fn new(wall: u64, cpu: u64) -> Option<Stamp>
        ensures { SomeIff result ((wall ≤ latest) × (cpu ≤ latest)) (record { wall = wall; cpu = cpu }) }
    {
        if wall <= LATEST && cpu <= LATEST {
            Some(Stamp { wall, cpu })
        } else {
            None
        }
    }

    /// Tells the range of both times. It does nothing: it is for proofs.
    pub fn known(self)
        ensures { IsTimes self }
    {
        let _wall = self.wall;
    }

    /// The wall time in nanoseconds.
    pub fn wall(self) -> u64
        ensures value { result ≡ self.wall }
        ensures range { result ≤ latest }
    {
        self.wall
    }

    /// The CPU time in nanoseconds.
    pub fn cpu(self) -> u64
        ensures value { result ≡ self.cpu }
        ensures range { result ≤ latest }
    {
        self.cpu
    }
}
