//! Events: a rank enters a call, or a call returns.

ghost use Rattle.std.specs.Prelude.{◌≡◌, ◌↔◌, IsTrue, IfOk, Some, refl};
ghost use Rattle.std.specs.Cmp.{partial_order_from_agreeing_total};
ghost use Rattle.std.specs.Cmp.Rules.{comparing};
ghost use Rattle.std.proofs.Common.{rules};
ghost use Rattle.std.proofs.lemmas.Cmp.{nat_cmp_total, on_total, then_total};
ghost use Rattle.mpi_model.specs.Events.{IsEvent};

use crate::call::Call;
use crate::outcome::Outs;
use crate::stamp::Stamp;
use std::alloc::AllocError;
use std::cmp::Ordering;

/// One entry of a rank's trace. Times are part of it: at another time it is another event.
#[derive(Drop)]
pub enum Event {
    /// The rank enters the call at this time.
    Enter(Call, Stamp),
    /// Its call returns with this outcome at this time.
    Return(Outs, Stamp),
}

const _: () = prove!(size_of::<Event>() <= 56);

impl Event {
    /// An equal event. The lists of its call or outcome are copied. Fails with `AllocError` when memory is refused.
    pub fn try_clone(&self) -> Result<Event, AllocError>
        ensures { IfOk result (λ e. e ≡ self.now) }
    {
        Ok(match self {
            Event::Enter(call, stamp) => Event::Enter(call.try_clone()?, *stamp),
            Event::Return(outs, stamp) => Event::Return(outs.try_clone()?, *stamp),
        })
    }

    /// Tells that every value of the event lies in its range. It does nothing: it is for proofs.
    pub fn known(&self)
        ensures { IsEvent self.now }
    {
        match self {
            Event::Enter(call, stamp) => {
                call.known();
                stamp.known();
            }
            Event::Return(outs, stamp) => {
                outs.known();
                stamp.known();
            }
        }
    }

    /// Whether the two events are equal in every field, times included.
    pub fn same(&self, other: &Event) -> bool
        ensures { IsTrue result ↔ (self.now ≡ other.now) }
    {
        match (self, other) {
            (Event::Enter(c, s), Event::Enter(d, t)) => c.same(d) && *s == *t,
            (Event::Return(c, s), Event::Return(d, t)) => c.same(d) && *s == *t,
            _ => false,
        }
    }
}

/// How a call returned.
#[derive(Drop)]
pub struct Exit {
    /// What it brought back.
    pub outs: Outs,
    /// When it returned.
    pub stamp: Stamp,
}

/// The name of an operation. Names are ordered by rank, then call, then part.
#[derive(Clone, Copy, PartialEq, Eq)]
pub struct OpName {
    /// The rank in the trace.
    pub rank: u32,
    /// The place in the list of a Startall, from 0; 0 for every other call.
    pub part: u32,
    /// The number of its call, from 0.
    pub call: u64,
}

// (the two small fields side by side, without a gap)
const _: () = prove!(size_of::<OpName>() <= 16);

impl Ord for OpName {
    ghost use Rattle.mpi_model.specs.Events.{name_cmp};

    ghost cmp = { name_cmp };

    ghost total = { Prim.search (comparing, rules) };

    ghost matches_partial_cmp = { λ a b. refl };

    ghost matches_eq = { Prim.search (comparing, rules) };

    fn cmp(&self, other: &OpName) -> Ordering {
        self.rank
            .cmp(&other.rank)
            .then(self.call.cmp(&other.call))
            .then(self.part.cmp(&other.part))
    }
}

impl PartialOrd for OpName {
    ghost use Rattle.mpi_model.specs.Events.{name_cmp};

    ghost partial_cmp = { λ a b. Some (name_cmp a b) };

    ghost laws = { partial_order_from_agreeing_total name_cmp
        (then_total (on_total (λ a. a.rank) nat_cmp_total)
        (then_total (on_total (λ a. a.call) nat_cmp_total) (on_total (λ a. a.part) nat_cmp_total)))
        (λ a b. refl) (Prim.search (comparing, rules)) };

    fn partial_cmp(&self, other: &OpName) -> Option<Ordering> {
        Some(self.cmp(other))
    }
}
