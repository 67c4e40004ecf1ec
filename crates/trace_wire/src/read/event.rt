//! Events, read from bytes.

ghost use Rattle.std.specs.Prelude.{◌≡◌, List, ℕ, None, Some};
ghost use Rattle.mpi_model.specs.Ranges.{IsComm};
ghost use Rattle.mpi_model.specs.declared.kind.Kind.TheVariants as kinds;
ghost use Rattle.trace_wire.specs.Outcomes.{Reads};
ghost use Rattle.trace_wire.specs.Events.{call_at, further_call_at, later_call_at, middle_call_at, outs_at, event_at, body_at};
ghost use Rattle.trace_wire.specs.Fields.{envelope, send_envelope, exchange, gathering, ibarrier, igathering, probe, index};

use crate::kind::is_barrier;
use crate::read::field::{
    FieldFault, byte_of, comm_field, flag_field, kind_field, marked_field, mode_field, peer_field,
    signed_of, small_field, stamp_field, told_field, u32_of,
};
use crate::read::list::list_of;
use mpi_model::{
    Call, Collective, CommRef, Elements, Envelope, Event, Exchange, Kind, NonblockingCollective,
    Outs, ProbeEnvelope, ReceiveEnvelope, Requests, SendEnvelope, Sources, Stamp,
};
use std::alloc::Global;

/// The envelope of a receive.
#[inline(always)]
fn receive_field(bytes: &[u8]) -> Result<(ReceiveEnvelope, &[u8]), FieldFault>
    ensures { Reads (λ x. (x.0, x.1.now)) result (envelope.read bytes.now) }
{
    let (peer, rest) = peer_field(bytes)?;
    let (tag, rest) = marked_field(rest)?;
    let (comm, rest) = comm_field(rest)?;
    let (count, rest) = small_field(rest)?;
    let (datatype, rest) = signed_of(rest)?;
    let inner = Envelope {
        peer,
        tag,
        comm,
        count,
        datatype,
    };
    match ReceiveEnvelope::new(inner) {
        Some(found) => Ok((found, rest)),
        None => Err(FieldFault::Content),
    }
}

/// The envelope of a send: one that names its peer and its tag.
#[inline(always)]
fn send_field(bytes: &[u8]) -> Result<(SendEnvelope, &[u8]), FieldFault>
    ensures { Reads (λ x. (x.0, x.1.now)) result (send_envelope.read bytes.now) }
{
    let (found, rest) = field!(receive_field(bytes));
    match SendEnvelope::new(found.envelope()) {
        Some(found) => Ok((found, rest)),
        None => Err(FieldFault::Content),
    }
}

/// The envelopes of a Sendrecv, which name one communicator.
fn exchange_field(alloc: Global, bytes: &[u8]) -> Result<(Exchange, &[u8]), FieldFault>
    ensures { Reads (λ x. (x.0, x.1.now)) result (exchange.read bytes.now) }
{
    let (send, rest) = field!(send_field(bytes));
    let (receive, rest) = field!(receive_field(rest));
    match Exchange::new(alloc, send, receive)? {
        Some(found) => Ok((found, rest)),
        None => Err(FieldFault::Content),
    }
}

/// A collective call, with a root only where its kind has one, and the mark of `MPI_COMM_WORLD` only where its object
/// is a communicator.
#[inline(always)]
fn collective_field(bytes: &[u8]) -> Result<(Collective, &[u8]), FieldFault>
    ensures { Reads (λ x. (x.0, x.1.now)) result (gathering.read bytes.now) }
{
    let (kind, rest) = kind_field(bytes)?;
    let (root, rest) = marked_field(rest)?;
    let (comm, rest) = comm_field(rest)?;
    match Collective::new(kind, root, comm) {
        Some(found) => Ok((found, rest)),
        None => Err(FieldFault::Content),
    }
}

/// `MPI_Ibarrier` on a communicator.
#[tactic(auto, unfolding(mpi_model::specs::Kinds::row))]
fn ibarrier_on(comm: CommRef) -> Option<NonblockingCollective>
    requires { IsComm comm }
    ensures { result ≡ Some (record { kind = kinds.Barrier; root = None; comm = comm }) }
{
    Collective::new(Kind::Barrier, None, comm)?.nonblocking()
}

/// `MPI_Ibarrier`, which names nothing but its communicator.
fn ibarrier_field(bytes: &[u8]) -> Result<(NonblockingCollective, &[u8]), FieldFault>
    ensures { Reads (λ x. (x.0, x.1.now)) result (ibarrier.read bytes.now) }
{
    let (comm, rest) = comm_field(bytes)?;
    match ibarrier_on(comm) {
        Some(found) => Ok((found, rest)),
        None => Err(FieldFault::Content),
    }
}

/// Every other nonblocking collective call, of a kind that has one.
fn icollective_field(bytes: &[u8]) -> Result<(NonblockingCollective, &[u8]), FieldFault>
    ensures { Reads (λ x. (x.0, x.1.now)) result (igathering.read bytes.now) }
{
    let (found, rest) = field!(collective_field(bytes));
    if is_barrier(found.kind()) {
        return Err(FieldFault::Content);
    }
    match found.nonblocking() {
        Some(found) => Ok((found, rest)),
        None => Err(FieldFault::Content),
    }
}

/// What a probe looks for.
fn probe_field(bytes: &[u8]) -> Result<(ProbeEnvelope, &[u8]), FieldFault>
    ensures { Reads (λ x. (x.0, x.1.now)) result (probe.read bytes.now) }
{
    let (source, rest) = peer_field(bytes)?;
    let (tag, rest) = marked_field(rest)?;
    let (comm, rest) = comm_field(rest)?;
    match ProbeEnvelope::new(source, tag, comm) {
        Some(found) => Ok((found, rest)),
        None => Err(FieldFault::Content),
    }
}

/// A position, where there is one.
fn index_field(bytes: &[u8]) -> Result<(Option<u32>, &[u8]), FieldFault>
    ensures { Reads (λ x. (x.0, x.1.now)) result (index.read bytes.now) }
{
    let (code, rest) = byte_of(bytes)?;
    match code {
        0 => Ok((None, rest)),
        1 => {
            let (position, rest) = u32_of(rest)?;
            Ok((Some(position), rest))
        }
        _ => Err(FieldFault::Content),
    }
}

/// A call behind those that aren't read, by the code of its kind.
#[tactic(auto, unfolding(crate::specs::Events::later_call_at))]
fn later_call_of(alloc: Global, code: u8, bytes: &[u8]) -> Result<(Call, &[u8]), FieldFault>
    ensures { Reads (λ x. (x.0, x.1.now)) result (later_call_at code bytes.now) }
{
    match code {
        21 => {
            let (mode, rest) = mode_field(bytes)?;
            let (envelope, rest) = field!(send_field(rest));
            Ok((Call::SendInit(mode, envelope), rest))
        }
        22 => {
            let (envelope, rest) = field!(receive_field(bytes));
            Ok((Call::RecvInit(envelope), rest))
        }
        23 => {
            let (request, rest) = signed_of(bytes)?;
            Ok((Call::Start(request), rest))
        }
        24 => {
            let (requests, rest) = field!(list_of(alloc, bytes));
            Ok((Call::Startall(Requests::from_vec(requests)), rest))
        }
        25 => {
            let (envelope, rest) = field!(probe_field(bytes));
            Ok((Call::Mprobe(envelope), rest))
        }
        26 => {
            let (envelope, rest) = field!(probe_field(bytes));
            Ok((Call::Improbe(envelope), rest))
        }
        27 => Ok((Call::Imrecv, bytes)),
        28 => {
            let (call, rest) = field!(icollective_field(bytes));
            Ok((Call::Icollective(call), rest))
        }
        29 => {
            let (envelope, rest) = field!(probe_field(bytes));
            Ok((Call::Iprobe(envelope), rest))
        }
        _ => Err(FieldFault::Content),
    }
}

/// A call behind `MPI_Ibarrier`, by the code of its kind.
#[tactic(auto, unfolding(crate::specs::Events::further_call_at))]
fn further_call_of(alloc: Global, code: u8, bytes: &[u8]) -> Result<(Call, &[u8]), FieldFault>
    ensures { Reads (λ x. (x.0, x.1.now)) result (further_call_at code bytes.now) }
{
    match code {
        15 => {
            let (requests, rest) = field!(list_of(alloc, bytes));
            Ok((Call::Testall(Requests::from_vec(requests)), rest))
        }
        16 => {
            let (requests, rest) = field!(list_of(alloc, bytes));
            Ok((Call::Testany(Requests::from_vec(requests)), rest))
        }
        17 => {
            let (requests, rest) = field!(list_of(alloc, bytes));
            Ok((Call::Testsome(Requests::from_vec(requests)), rest))
        }
        18 => {
            let (request, rest) = signed_of(bytes)?;
            Ok((Call::Cancel(request), rest))
        }
        19 => {
            let (request, rest) = signed_of(bytes)?;
            Ok((Call::Free(request), rest))
        }
        20 => Ok((Call::Unread, bytes)),
        _ => later_call_of(alloc, code, bytes),
    }
}

/// A call behind `MPI_Sendrecv`, by the code of its kind.
#[inline(always)]
#[tactic(auto, unfolding(crate::specs::Events::middle_call_at))]
fn middle_call_of(alloc: Global, code: u8, bytes: &[u8]) -> Result<(Call, &[u8]), FieldFault>
    ensures { Reads (λ x. (x.0, x.1.now)) result (middle_call_at code bytes.now) }
{
    match code {
        7 => {
            let (request, rest) = signed_of(bytes)?;
            Ok((Call::Wait(request), rest))
        }
        8 => {
            let (requests, rest) = field!(list_of(alloc, bytes));
            Ok((Call::Waitall(Requests::from_vec(requests)), rest))
        }
        9 => {
            let (requests, rest) = field!(list_of(alloc, bytes));
            Ok((Call::Waitany(Requests::from_vec(requests)), rest))
        }
        10 => {
            let (requests, rest) = field!(list_of(alloc, bytes));
            Ok((Call::Waitsome(Requests::from_vec(requests)), rest))
        }
        11 => {
            let (request, rest) = signed_of(bytes)?;
            Ok((Call::Test(request), rest))
        }
        12 => {
            let (call, rest) = field!(collective_field(bytes));
            Ok((Call::Collective(call), rest))
        }
        13 => {
            let (envelope, rest) = field!(probe_field(bytes));
            Ok((Call::Probe(envelope), rest))
        }
        14 => {
            let (call, rest) = field!(ibarrier_field(bytes));
            Ok((Call::Icollective(call), rest))
        }
        _ => further_call_of(alloc, code, bytes),
    }
}

/// A call by the code of its kind.
#[inline(always)]
#[tactic(auto, unfolding(crate::specs::Events::call_at))]
fn call_of(alloc: Global, code: u8, bytes: &[u8]) -> Result<(Call, &[u8]), FieldFault>
    ensures { Reads (λ x. (x.0, x.1.now)) result (call_at code bytes.now) }
{
    match code {
        0 => Ok((Call::Local, bytes)),
        1 => Ok((Call::Finalize, bytes)),
        2 => {
            let (mode, rest) = mode_field(bytes)?;
            let (envelope, rest) = field!(send_field(rest));
            Ok((Call::Send(mode, envelope), rest))
        }
        3 => {
            let (mode, rest) = mode_field(bytes)?;
            let (envelope, rest) = field!(send_field(rest));
            Ok((Call::Isend(mode, envelope), rest))
        }
        4 => {
            let (envelope, rest) = field!(receive_field(bytes));
            Ok((Call::Recv(envelope), rest))
        }
        5 => {
            let (envelope, rest) = field!(receive_field(bytes));
            Ok((Call::Irecv(envelope), rest))
        }
        6 => {
            let (both, rest) = field!(exchange_field(alloc, bytes));
            Ok((Call::Sendrecv(both), rest))
        }
        _ => middle_call_of(alloc, code, bytes),
    }
}

/// An outcome by the code of its kind.
#[inline(always)]
#[tactic(auto, unfolding(crate::specs::Events::outs_at))]
fn outs_of(alloc: Global, code: u8, bytes: &[u8]) -> Result<(Outs, &[u8]), FieldFault>
    ensures { Reads (λ x. (x.0, x.1.now)) result (outs_at code bytes.now) }
{
    match code {
        0 => Ok((Outs::Nothing, bytes)),
        1 => {
            let (request, rest) = signed_of(bytes)?;
            Ok((Outs::Posted(request), rest))
        }
        2 => {
            let (source, rest) = field!(told_field(bytes));
            Ok((Outs::Status(source), rest))
        }
        3 => {
            let (sources, rest) = field!(list_of(alloc, bytes));
            Ok((Outs::Statuses(Sources::from_vec(sources)), rest))
        }
        4 => {
            let (position, rest) = field!(index_field(bytes));
            let (source, rest) = field!(told_field(rest));
            Ok((Outs::Index(position, source), rest))
        }
        5 => {
            let (items, rest) = field!(list_of(alloc, bytes));
            Ok((Outs::Several(Elements::from_vec(items)), rest))
        }
        6 => {
            let (flag, rest) = flag_field(bytes)?;
            let (source, rest) = field!(told_field(rest));
            Ok((Outs::Flag(flag, source), rest))
        }
        _ => Err(FieldFault::Content),
    }
}

/// The event without fields that code 0 stands for: a call that isn't MPI's, or an outcome that tells nothing.
#[inline(always)]
#[tactic(auto, unfolding(crate::specs::Events::call_at, crate::specs::Events::outs_at))]
fn plain_event(is_enter: bool, time: Stamp) -> Event
    ensures { (bytes : List ℕ) → body_at is_enter 0 time bytes ≡ Some (result, bytes) }
{
    if is_enter {
        Event::Enter(Call::Local, time)
    } else {
        Event::Return(Outs::Nothing, time)
    }
}

/// An Enter or a Return, behind its kind and times. One without fields, the most common one, goes a short way: on the
/// other one room is made for the fields of every kind.
#[inline(always)]
fn body_of(
    alloc: Global,
    is_enter: bool,
    code: u8,
    time: Stamp,
    bytes: &[u8],
) -> Result<(Event, &[u8]), FieldFault>
    ensures { Reads (λ x. (x.0, x.1.now)) result (body_at is_enter code time bytes.now) }
{
    if code == 0 {
        return Ok((plain_event(is_enter, time), bytes));
    }
    if is_enter {
        let (call, rest) = field!(call_of(alloc, code, bytes));
        Ok((Event::Enter(call, time), rest))
    } else {
        let (outs, rest) = field!(outs_of(alloc, code, bytes));
        Ok((Event::Return(outs, time), rest))
    }
}

/// The event at a place.
#[inline(always)]
pub(crate) fn event_of(
    alloc: Global,
    place: u64,
    bytes: &[u8],
) -> Result<(Event, &[u8]), FieldFault>
    ensures { Reads (λ x. (x.0, x.1.now)) result (event_at place bytes.now) }
{
    let (code, rest) = byte_of(bytes)?;
    let (time, rest) = field!(stamp_field(rest));
    body_of(alloc, place % 2 == 0, code, time, rest)
}
