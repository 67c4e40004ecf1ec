//! Calls of MPI, with what they name.

ghost use Rattle.std.specs.Prelude.{◌≡◌, ◌↔◌, IsTrue, IfOk};
ghost use Rattle.mpi_model.specs.Calls.{comm_of, object_of};
ghost use Rattle.mpi_model.specs.Events.{IsCall};

use crate::collective::{Collective, NonblockingCollective};
use crate::envelope::{CommRef, Exchange, Mode, ProbeEnvelope, ReceiveEnvelope, SendEnvelope};
use crate::list::Requests;
use crate::object::Object;
use std::alloc::AllocError;

/// A call, as it was entered. A request is named by the trace's number of it.
#[derive(Drop)]
pub enum Call {
    /// A function that takes part in no matching.
    Local,
    Finalize,
    /// `MPI_Send`, `MPI_Ssend`, `MPI_Bsend`, `MPI_Rsend` (MPI 4.0, 3.2.1 and 3.4).
    Send(Mode, SendEnvelope),
    /// `MPI_Isend` and its modes (MPI 4.0, 3.7.2).
    Isend(Mode, SendEnvelope),
    Recv(ReceiveEnvelope),
    Irecv(ReceiveEnvelope),
    /// A send of standard mode and a receive in one call (MPI 4.0, 3.10).
    Sendrecv(Exchange),
    /// The completion calls (MPI 4.0, 3.7.3 and 3.7.5).
    Wait(i64),
    Waitall(Requests),
    Waitany(Requests),
    Waitsome(Requests),
    Test(i64),
    Testall(Requests),
    Testany(Requests),
    Testsome(Requests),
    /// It asks that an operation be cancelled, and returns at once (MPI 4.0, 3.8.4).
    Cancel(i64),
    /// The number then names no request, though its operation goes on (MPI 4.0, 3.7.3).
    Free(i64),
    /// A blocking collective call.
    Collective(Collective),
    /// A nonblocking collective call: it is complete when its request is (MPI 4.0, 6.12).
    Icollective(NonblockingCollective),
    /// It waits for a message and leaves it where it is (MPI 4.0, 3.8.1).
    Probe(ProbeEnvelope),
    /// `MPI_Send_init` and its modes: its request holds a send, which each start of it makes anew
    /// (MPI 4.0, 3.9).
    SendInit(Mode, SendEnvelope),
    /// Its request holds a receive (MPI 4.0, 3.9).
    RecvInit(ReceiveEnvelope),
    /// It starts what its request holds (MPI 4.0, 3.9).
    Start(i64),
    /// It starts what its requests hold, in any order (MPI 4.0, 3.9).
    Startall(Requests),
    /// It waits for a message and takes it, so that no other call does (MPI 4.0, 3.8.2).
    Mprobe(ProbeEnvelope),
    /// It takes a message where its outcome's flag is set, and doesn't wait (MPI 4.0, 3.8.2).
    Improbe(ProbeEnvelope),
    /// It asks for a message, leaves it where it is, and doesn't wait (MPI 4.0, 3.8.1).
    Iprobe(ProbeEnvelope),
    /// It receives a message that a matched probe took (MPI 4.0, 3.8.3).
    Imrecv,
    /// A function that moves messages and isn't read. Nothing after it is known of its rank.
    Unread,
}

impl Call {
    /// An equal call. The lists of requests and the two envelopes of an `MPI_Sendrecv` are copied into memory of their
    /// own. Fails with `AllocError` when memory is refused.
    pub fn try_clone(&self) -> Result<Call, AllocError>
        ensures { IfOk result (λ c. c ≡ self.now) }
    {
        Ok(match self {
            Call::Local => Call::Local,
            Call::Finalize => Call::Finalize,
            Call::Send(mode, envelope) => Call::Send(*mode, *envelope),
            Call::Isend(mode, envelope) => Call::Isend(*mode, *envelope),
            Call::Recv(envelope) => Call::Recv(*envelope),
            Call::Irecv(envelope) => Call::Irecv(*envelope),
            Call::Sendrecv(exchange) => Call::Sendrecv(exchange.try_clone()?),
            Call::Wait(request) => Call::Wait(*request),
            Call::Waitall(requests) => Call::Waitall(requests.try_clone()?),
            Call::Waitany(requests) => Call::Waitany(requests.try_clone()?),
            Call::Waitsome(requests) => Call::Waitsome(requests.try_clone()?),
            Call::Test(request) => Call::Test(*request),
            Call::Testall(requests) => Call::Testall(requests.try_clone()?),
            Call::Testany(requests) => Call::Testany(requests.try_clone()?),
            Call::Testsome(requests) => Call::Testsome(requests.try_clone()?),
            Call::Cancel(request) => Call::Cancel(*request),
            Call::Free(request) => Call::Free(*request),
            Call::Collective(collective) => Call::Collective(*collective),
            Call::Icollective(collective) => Call::Icollective(*collective),
            Call::Probe(envelope) => Call::Probe(*envelope),
            Call::SendInit(mode, envelope) => Call::SendInit(*mode, *envelope),
            Call::RecvInit(envelope) => Call::RecvInit(*envelope),
            Call::Start(request) => Call::Start(*request),
            Call::Startall(requests) => Call::Startall(requests.try_clone()?),
            Call::Mprobe(envelope) => Call::Mprobe(*envelope),
            Call::Improbe(envelope) => Call::Improbe(*envelope),
            Call::Iprobe(envelope) => Call::Iprobe(*envelope),
            Call::Imrecv => Call::Imrecv,
            Call::Unread => Call::Unread,
        })
    }

    /// The object that the call names, where it names one: a communicator, or the window or file of a collective call.
    /// Both sides of a Sendrecv name one (MPI 4.0, 3.10).
    pub fn comm(&self) -> Option<CommRef>
        ensures { result ≡ comm_of self.now }
    {
        match self {
            Call::Send(_, e) | Call::Isend(_, e) | Call::SendInit(_, e) => Some(e.envelope().comm),
            Call::Recv(e) | Call::Irecv(e) | Call::RecvInit(e) => Some(e.envelope().comm),
            Call::Sendrecv(both) => Some(both.send().comm),
            Call::Collective(c) => Some(c.comm()),
            Call::Icollective(c) => Some(c.comm()),
            Call::Probe(e) | Call::Mprobe(e) | Call::Improbe(e) | Call::Iprobe(e) => Some(e.comm()),
            Call::Local
            | Call::Finalize
            | Call::Wait(_)
            | Call::Waitall(_)
            | Call::Waitany(_)
            | Call::Waitsome(_)
            | Call::Test(_)
            | Call::Testall(_)
            | Call::Testany(_)
            | Call::Testsome(_)
            | Call::Cancel(_)
            | Call::Free(_)
            | Call::Start(_)
            | Call::Startall(_)
            | Call::Imrecv
            | Call::Unread => None,
        }
    }

    /// The sort of the object that the call names.
    pub fn object(&self) -> Object
        ensures { result ≡ object_of self.now }
    {
        match self {
            Call::Collective(c) => c.object(),
            Call::Icollective(c) => c.call().object(),
            _ => Object::Communicator,
        }
    }

    /// Tells that every value of the call lies in its range. It does nothing: it is for proofs.
    pub fn known(&self)
        ensures { IsCall self.now }
    {
        match self {
            Call::Local | Call::Finalize | Call::Imrecv | Call::Unread => {}
            Call::Send(_, envelope) | Call::Isend(_, envelope) | Call::SendInit(_, envelope) => {
                envelope.known()
            }
            Call::Recv(envelope) | Call::Irecv(envelope) | Call::RecvInit(envelope) => {
                envelope.known()
            }
            Call::Sendrecv(exchange) => exchange.known(),
            Call::Wait(request)
            | Call::Test(request)
            | Call::Cancel(request)
            | Call::Free(request)
            | Call::Start(request) => {
                let _request = *request;
            }
            Call::Waitall(requests)
            | Call::Waitany(requests)
            | Call::Waitsome(requests)
            | Call::Testall(requests)
            | Call::Testany(requests)
            | Call::Testsome(requests)
            | Call::Startall(requests) => requests.known(),
            Call::Collective(collective) => collective.known(),
            Call::Icollective(collective) => collective.known(),
            Call::Probe(envelope)
            | Call::Mprobe(envelope)
            | Call::Improbe(envelope)
            | Call::Iprobe(envelope) => envelope.known(),
        }
    }

    /// Whether the two calls are equal in every field.
    pub fn same(&self, other: &Call) -> bool
        ensures { IsTrue result ↔ (self.now ≡ other.now) }
    {
        match (self, other) {
            (Call::Local, Call::Local) => true,
            (Call::Finalize, Call::Finalize) => true,
            (Call::Send(m, e), Call::Send(n, f)) => *m == *n && e.envelope().same(f.envelope()),
            (Call::Isend(m, e), Call::Isend(n, f)) => *m == *n && e.envelope().same(f.envelope()),
            (Call::Recv(e), Call::Recv(f)) => e.envelope().same(f.envelope()),
            (Call::Irecv(e), Call::Irecv(f)) => e.envelope().same(f.envelope()),
            (Call::Sendrecv(e), Call::Sendrecv(f)) => e.same(f),
            (Call::Wait(r), Call::Wait(s)) => *r == *s,
            (Call::Waitall(r), Call::Waitall(s)) => r.same(s),
            (Call::Waitany(r), Call::Waitany(s)) => r.same(s),
            (Call::Waitsome(r), Call::Waitsome(s)) => r.same(s),
            (Call::Test(r), Call::Test(s)) => *r == *s,
            (Call::Testall(r), Call::Testall(s)) => r.same(s),
            (Call::Testany(r), Call::Testany(s)) => r.same(s),
            (Call::Testsome(r), Call::Testsome(s)) => r.same(s),
            (Call::Cancel(r), Call::Cancel(s)) => *r == *s,
            (Call::Free(r), Call::Free(s)) => *r == *s,
            (Call::Collective(c), Call::Collective(d)) => c.same(*d),
            (Call::Icollective(c), Call::Icollective(d)) => c.same(*d),
            (Call::Probe(e), Call::Probe(f)) => e.same(*f),
            (Call::SendInit(m, e), Call::SendInit(n, f)) => {
                *m == *n && e.envelope().same(f.envelope())
            }
            (Call::RecvInit(e), Call::RecvInit(f)) => e.envelope().same(f.envelope()),
            (Call::Start(r), Call::Start(s)) => *r == *s,
            (Call::Startall(r), Call::Startall(s)) => r.same(s),
            (Call::Mprobe(e), Call::Mprobe(f)) => e.same(*f),
            (Call::Improbe(e), Call::Improbe(f)) => e.same(*f),
            (Call::Iprobe(e), Call::Iprobe(f)) => e.same(*f),
            (Call::Imrecv, Call::Imrecv) => true,
            (Call::Unread, Call::Unread) => true,
            _ => false,
        }
    }
}
