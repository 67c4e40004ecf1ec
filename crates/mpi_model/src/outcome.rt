//! What calls bring back when they return.

ghost use Rattle.std.specs.Prelude.{◌≡◌, ◌↔◌, IsTrue, IfOk};
ghost use Rattle.mpi_model.specs.Events.{IsOutcome};

use crate::list::{Elements, Sources};
use crate::told::Told;
use std::alloc::AllocError;

/// The outcome of a call. The crates above define which kind belongs to which call. An outcome of another kind says
/// nothing and completes nothing.
#[derive(Drop)]
pub enum Outs {
    /// The call brings nothing back that matching needs.
    Nothing,
    /// The request that an Isend, Irecv or nonblocking collective call posted.
    Posted(i64),
    /// What the status of a Recv, Sendrecv, Probe or Wait tells.
    Status(Told),
    /// What the statuses of a Waitall or Testall tell.
    Statuses(Sources),
    /// The position in the call's list, from 0, of the request that a Waitany or Testany completed.
    Index(Option<u32>, Told),
    /// The requests that a Waitsome or Testsome completed.
    Several(Elements),
    /// Whether a Test found its request completed, or a Testall all of them.
    Flag(bool, Told),
}

impl Outs {
    /// An equal outcome. A list in it is copied. Fails with `AllocError` when memory is refused.
    pub fn try_clone(&self) -> Result<Outs, AllocError>
        ensures { IfOk result (λ o. o ≡ self.now) }
    {
        Ok(match self {
            Outs::Nothing => Outs::Nothing,
            Outs::Posted(request) => Outs::Posted(*request),
            Outs::Status(told) => Outs::Status(*told),
            Outs::Statuses(sources) => Outs::Statuses(sources.try_clone()?),
            Outs::Index(position, told) => Outs::Index(*position, *told),
            Outs::Several(elements) => Outs::Several(elements.try_clone()?),
            Outs::Flag(done, told) => Outs::Flag(*done, *told),
        })
    }

    /// Tells that every value of the outcome lies in its range. It does nothing: it is for proofs.
    pub fn known(&self)
        ensures { IsOutcome self.now }
    {
        match self {
            Outs::Nothing => {}
            Outs::Posted(request) => {
                let _request = *request;
            }
            Outs::Status(told) | Outs::Flag(_, told) | Outs::Index(None, told) => {
                let _rank = told.rank();
            }
            Outs::Statuses(sources) => sources.known(),
            Outs::Index(Some(position), told) => {
                let _position = *position;
                let _rank = told.rank();
            }
            Outs::Several(elements) => elements.known(),
        }
    }

    /// Whether the two outcomes are equal in every field.
    pub fn same(&self, other: &Outs) -> bool
        ensures { IsTrue result ↔ (self.now ≡ other.now) }
    {
        match (self, other) {
            (Outs::Nothing, Outs::Nothing) => true,
            (Outs::Posted(r), Outs::Posted(s)) => *r == *s,
            (Outs::Status(t), Outs::Status(u)) => *t == *u,
            (Outs::Statuses(s), Outs::Statuses(t)) => s.same(t),
            (Outs::Index(p, t), Outs::Index(q, u)) => *p == *q && *t == *u,
            (Outs::Several(e), Outs::Several(f)) => e.same(f),
            (Outs::Flag(d, t), Outs::Flag(e, u)) => *d == *e && *t == *u,
            _ => false,
        }
    }
}
