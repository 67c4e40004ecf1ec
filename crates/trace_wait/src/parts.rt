//! The parts of conditions: a send, a receive, a probe.

ghost use Rattle.std.specs.Prelude.{◌≡◌, map, IfOk};
ghost use Rattle.trace_ops.specs.Order.{AreInOrder, ArePosted};
ghost use Rattle.trace_stuck.specs.Shape.{shape, waits_of, OnRank, OnOne};
ghost use Rattle.trace_wait.specs.Parts.{peers_on, is_buffered, may_send, send_part, source_part, may_receive, receive_part, probe_part, named, send_of_call, receive_of_call};

use crate::overview::Overview;
use crate::posts::{receive_of, send_of};
use mpi_model::{Message, Mode, OpName, Receive, Sends};
use std::alloc::{AllocError, Global};
use trace_ops::RankOps;
use trace_stuck::Condition;

/// Whether the send is buffered, or it is standard or ready where sends are buffered.
fn is_buffered(how: Sends, mode: Mode) -> bool
    ensures { result ≡ is_buffered how mode }
{
    match mode {
        Mode::Buffered => true,
        Mode::Synchronous => false,
        Mode::Standard | Mode::Ready => how == Sends::Buffer,
    }
}

/// Whether a send may go on: it is buffered, is paired, or may be taken by an unpaired receive.
fn may_send(run: &Overview, m: &Message) -> bool
    ensures { result ≡ may_send run.now m.now }
{
    is_buffered(run.layout.sends(), m.mode) || run.is_taken(m) || run.may_be_taken(m)
}

/// Whether a receive may go on: it is paired, or an unpaired message fits it.
fn may_receive(run: &Overview, q: &Receive) -> bool
    ensures { result ≡ may_receive run.now q.now }
{
    run.is_given(q) || run.fits_some_message(q)
}

/// What a send waits for: its destination, or nothing if it is buffered, paired, or may be taken by an unpaired receive
/// (MPI 4.0, 3.4 and 3.5).
pub(crate) fn send_part(run: &Overview, m: &Message) -> Condition
    ensures { shape result ≡ send_part run.now m.now }
{
    if may_send(run, m) {
        Condition::yes()
    } else {
        Condition::rank(m.to)
    }
}

/// One of those whose ranks the rank names on the communicator.
fn one_of(alloc: Global, run: &Overview, comm: u32, r: u32) -> Result<Condition, AllocError>
    ensures { IfOk result (λ c. shape c ≡ OnOne (waits_of (map OnRank (peers_on run.now comm r)))) }
{
    Ok(Condition::one_rank(run.shared_peers(alloc, comm, r)?))
}

/// The source that a receive waits for: the told one, or one of all whom its rank may name.
fn source_part(alloc: Global, run: &Overview, q: &Receive) -> Result<Condition, AllocError>
    ensures { IfOk result (λ c. shape c ≡ source_part run.now q.now) }
{
    match q.source {
        Some(r) => Ok(Condition::rank(r)),
        None => one_of(alloc, run, q.comm, q.at),
    }
}

/// What a receive waits for: its told source, or one of all members, or nothing if it is paired or an unpaired message
/// fits it (MPI 4.0, 3.2.4).
pub(crate) fn receive_part(
    alloc: Global,
    run: &Overview,
    q: &Receive,
) -> Result<Condition, AllocError>
    ensures { IfOk result (λ c. shape c ≡ receive_part run.now q.now) }
{
    if may_receive(run, q) {
        Ok(Condition::yes())
    } else {
        source_part(alloc, run, q)
    }
}

/// What a Probe waits for that looks for a message as this receive would (MPI 4.0, 3.8.1). A Probe of the null process,
/// `None`, waits for nothing.
pub(crate) fn probe_part(
    alloc: Global,
    run: &Overview,
    asked: Option<Receive>,
) -> Result<Condition, AllocError>
    ensures { IfOk result (λ c. shape c ≡ probe_part run.now asked) }
{
    match asked {
        None => Ok(Condition::yes()),
        Some(q) => if run.suits_some_message(&q) {
            Ok(Condition::yes())
        } else {
            source_part(alloc, run, &q)
        },
    }
}

/// The operation of a rank's call, which is no Startall.
fn named(r: u32, n: u64) -> OpName
    ensures { result ≡ named r n }
{
    OpName {
        rank: r,
        call: n,
        part: 0,
    }
}

/// What the send of a call waits for: nothing where it started no message.
pub(crate) fn send_of_call(run: &Overview, r: u32, o: &RankOps, n: u64) -> Condition
    requires { AreInOrder o.now.sends }
    ensures { shape result ≡ send_of_call run.now r o.now n }
{
    match send_of(o, named(r, n)) {
        Some(m) => send_part(run, &m),
        None => Condition::yes(),
    }
}

/// What the receive of a call waits for: nothing where it posted none.
pub(crate) fn receive_of_call(
    alloc: Global,
    run: &Overview,
    r: u32,
    o: &RankOps,
    n: u64,
) -> Result<Condition, AllocError>
    requires { ArePosted o.now.receives }
    ensures { IfOk result (λ c. shape c ≡ receive_of_call run.now r o.now n) }
{
    match receive_of(o, named(r, n)) {
        Some(q) => receive_part(alloc, run, &q),
        None => Ok(Condition::yes()),
    }
}
