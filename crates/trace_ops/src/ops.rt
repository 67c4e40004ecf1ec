//! What a rank did.

ghost use Rattle.std.specs.Prelude.{◌≡◌, IfOk, option_map};
ghost use Rattle.trace_ops.specs.Ops.{no_ops};

use crate::entered::Entered;
use crate::state::State;
use mpi_model::{Call, Message, OpName, Receive};
use std::alloc::{AllocError, Global};
use std::marker::Model;

mod gather;

pub use gather::{all_ops, ops_of};

/// What a rank did, as its readable events tell it.
#[derive(Drop)]
pub struct RankOps {
    sends: Vec<Message>,
    receives: Vec<Receive>,
    rounds: Vec<Entered>,
    comms: Vec<u32>,
    active: Vec<(i64, OpName)>,
    idle: Vec<i64>,
    cancelled: Vec<OpName>,
    state: State,
    waiting: Option<(u64, Call)>,
    foreign: u64,
}

impl Model for RankOps {
    ghost use Rattle.trace_ops.specs.Ops.{Ops, ops_view};

    ghost Value = { Ops };

    ghost view = { ops_view };
}

impl RankOps {
    /// The ops of a rank without calls. Takes no memory.
    pub fn empty(alloc: Global) -> RankOps
        ensures { result ≡ no_ops }
    {
        RankOps {
            sends: Vec::new(alloc),
            receives: Vec::new(alloc),
            rounds: Vec::new(alloc),
            comms: Vec::new(alloc),
            active: Vec::new(alloc),
            idle: Vec::new(alloc),
            cancelled: Vec::new(alloc),
            state: State::Free,
            waiting: None,
            foreign: 0,
        }
    }

    /// The messages that the rank's sends start, in order of their calls and parts, each with its trust, which says
    /// whether it was cancelled (MPI 4.0, 3.2.3, 3.8.4 and 3.9).
    pub fn sends(&self) -> &[Message]
        ensures { result.now ≡ self.now.sends }
    {
        &self.sends
    }

    /// The receives of the rank, in order of their calls and parts, each with its source, if that is told, and its
    /// trust, which says whether it was cancelled. Matched probes are receives.
    pub fn receives(&self) -> &[Receive]
        ensures { result.now ≡ self.now.receives }
    {
        &self.receives
    }

    /// The collective calls that the rank entered, in order.
    pub fn rounds(&self) -> &[Entered]
        ensures { result.now ≡ self.now.rounds }
    {
        &self.rounds
    }

    /// The communicators of the layout that hold the rank, in rising order.
    pub fn comms(&self) -> &[u32]
        ensures { result.now ≡ self.now.comms }
    {
        &self.comms
    }

    /// The active requests at the end of the rank's readable events, each with the operation that was posted, in order
    /// of posting (MPI 4.0, 3.7.3).
    pub fn active(&self) -> &[(i64, OpName)]
        ensures { result.now ≡ self.now.active }
    {
        &self.active
    }

    /// The idle request numbers at the end of the rank's readable events, in rising order: persistent requests that
    /// exist and are not active (MPI 4.0, 3.9).
    pub fn idle(&self) -> &[i64]
        ensures { result.now ≡ self.now.idle }
    {
        &self.idle
    }

    /// The operations whose request a readable Cancel names, whether it is still active or not, in order of posting.
    pub fn cancelled(&self) -> &[OpName]
        ensures { result.now ≡ self.now.cancelled }
    {
        &self.cancelled
    }

    /// How the rank stands at the end of its readable events.
    pub fn state(&self) -> State
        ensures { result ≡ self.now.state }
    {
        self.state
    }

    /// The number of the call in which the rank waits, and the call; `None` if the rank isn't waiting.
    pub fn waiting(&self) -> Option<(u64, &Call)>
        ensures { option_map (λ w. (w.0, w.1.now)) result ≡ self.now.waiting }
    {
        match &self.waiting {
            Some((number, call)) => Some((*number, call)),
            None => None,
        }
    }

    /// How many foreign calls the rank entered.
    pub fn foreign(&self) -> u64
        ensures { result ≡ self.now.foreign }
    {
        self.foreign
    }

    /// The same operations in memory of their own. Fails with `AllocError` when memory is refused.
    pub fn try_clone(&self) -> Result<RankOps, AllocError>
        ensures { IfOk result (λ copy. copy ≡ self.now) }
    {
        let waiting = match &self.waiting {
            Some((number, call)) => Some((*number, call.try_clone()?)),
            None => None,
        };
        Ok(RankOps {
            sends: self.sends.clone()?,
            receives: self.receives.clone()?,
            rounds: self.rounds.clone()?,
            comms: self.comms.clone()?,
            active: self.active.clone()?,
            idle: self.idle.clone()?,
            cancelled: self.cancelled.clone()?,
            state: self.state,
            waiting,
            foreign: self.foreign,
        })
    }
}
