//! The envelopes of sends and receives (MPI 4.0, 3.2.3).

ghost use Rattle.std.specs.Prelude.{◌≡◌, ◌∷◌, ◌<◌, ◌^◌, [], IfOk, OnOk};
ghost use Rattle.mpi_model.specs.Ranges.{IsAskedTag, IsComm, IsNamed, IsSource, IsTarget};
ghost use Rattle.dumpi_calls.specs.Outcomes.{brought_by};
ghost use Rattle.dumpi_calls.specs.Readings.{AreThere, Reads};
ghost use Rattle.dumpi_calls.specs.Rows.{envelope_of, envelope_of_receive, envelope_of_send, receive_parameters, receive_part, send_parameters, send_part, sendrecv_call, sendrecv_parameters, sendrecv_replace_call, sendrecv_replace_parameters};

use crate::parameter::{CallFault, Parameter};
use crate::reading::{asked_tag, comm, dest, non_negative, number, source};
use dumpi_text::RawCall;
use mpi_model::{Call, CommRef, Envelope, Exchange, Peer, ReceiveEnvelope, SendEnvelope};
use std::alloc::Global;

/// What an envelope says apart from its communicator, which a Sendrecv names once, after both.
#[derive(Clone, Copy)]
pub struct Part {
    /// Elements of the datatype.
    pub count: u32,
    /// The trace's number of the datatype.
    pub datatype: i64,
    pub peer: Peer,
    pub tag: Option<u32>,
}

/// A part with its communicator.
fn envelope(part: Part, comm: CommRef) -> Envelope
    ensures { result ≡ envelope_of part comm }
{
    Envelope {
        peer: part.peer,
        tag: part.tag,
        comm,
        count: part.count,
        datatype: part.datatype,
    }
}

/// What a send says, by these parameters and `dest`.
#[tactic(auto, unfolding(crate::specs::Rows::send_part))]
fn part_of_send(
    alloc: Global,
    raw: &RawCall,
    count: Parameter,
    datatype: Parameter,
    tag: Parameter,
) -> Result<Part, CallFault>
    ensures means { Reads result (send_part count datatype tag raw.now) }
    ensures there { OnOk result (AreThere (count ∷ datatype ∷ Parameter.Dest ∷ tag ∷ []) raw.now) }
    ensures range { IfOk result (λ p. IsTarget p.peer × IsNamed p.tag × (p.count < 2 ^ 31)) }
{
    let count = non_negative(alloc, raw, count)?;
    let datatype = number(alloc, raw, datatype)?.value;
    let peer = dest(alloc, raw)?;
    let tag = non_negative(alloc, raw, tag)?;
    Ok(Part {
        count,
        datatype,
        peer,
        tag: Some(tag),
    })
}

/// What a receive asks for, by these parameters and `source`.
#[tactic(auto, unfolding(crate::specs::Rows::receive_part))]
fn part_of_receive(
    alloc: Global,
    raw: &RawCall,
    count: Parameter,
    datatype: Parameter,
    tag: Parameter,
) -> Result<Part, CallFault>
    ensures means { Reads result (receive_part count datatype tag raw.now) }
    ensures there { OnOk result (AreThere (count ∷ datatype ∷ Parameter.Source ∷ tag ∷ []) raw.now) }
    ensures range { IfOk result (λ p. IsSource p.peer × IsAskedTag p.tag × (p.count < 2 ^ 31)) }
{
    let count = non_negative(alloc, raw, count)?;
    let datatype = number(alloc, raw, datatype)?.value;
    let peer = source(alloc, raw)?;
    let tag = asked_tag(alloc, raw, tag)?;
    Ok(Part {
        count,
        datatype,
        peer,
        tag,
    })
}

/// The envelope of a send, by its parts.
pub fn send_envelope(part: Part, comm: CommRef) -> SendEnvelope
    requires part { IsTarget part.peer × IsNamed part.tag × (part.count < 2 ^ 31) }
    requires comm { IsComm comm }
    ensures { result ≡ envelope_of part comm }
{
    SendEnvelope::new(envelope(part, comm)).unwrap()
}

/// The envelope of a receive, by its parts.
pub fn receive_envelope(part: Part, comm: CommRef) -> ReceiveEnvelope
    requires part { IsSource part.peer × IsAskedTag part.tag × (part.count < 2 ^ 31) }
    requires comm { IsComm comm }
    ensures { result ≡ envelope_of part comm }
{
    ReceiveEnvelope::new(envelope(part, comm)).unwrap()
}

/// The envelope of a send. [`CallFault`] names a parameter that isn't there or is wrong; Fails with `Memory` when
/// memory is refused.
#[tactic(auto, unfolding(crate::specs::Rows::envelope_of_send))]
pub fn send_envelope_in(alloc: Global, raw: &RawCall) -> Result<SendEnvelope, CallFault>
    ensures means { Reads result (envelope_of_send raw.now) }
    ensures there { OnOk result (AreThere send_parameters raw.now) }
{
    let part = part_of_send(
        alloc,
        raw,
        Parameter::Count,
        Parameter::Datatype,
        Parameter::Tag,
    )?;
    let comm = comm(alloc, raw)?;
    Ok(send_envelope(part, comm))
}

/// The envelope of a receive. [`CallFault`] names a parameter that isn't there or is wrong; Fails with `Memory` when
/// memory is refused.
#[tactic(auto, unfolding(crate::specs::Rows::envelope_of_receive))]
pub fn receive_envelope_in(alloc: Global, raw: &RawCall) -> Result<ReceiveEnvelope, CallFault>
    ensures means { Reads result (envelope_of_receive raw.now) }
    ensures there { OnOk result (AreThere receive_parameters raw.now) }
{
    let part = part_of_receive(
        alloc,
        raw,
        Parameter::Count,
        Parameter::Datatype,
        Parameter::Tag,
    )?;
    let comm = comm(alloc, raw)?;
    Ok(receive_envelope(part, comm))
}

/// The call that sends and receives at once. [`CallFault`] names a parameter that isn't there or is wrong; Fails with
/// `Memory` when memory is refused.
#[tactic(auto, unfolding(crate::specs::Rows::sendrecv_call))]
pub fn sendrecv_in(alloc: Global, raw: &RawCall) -> Result<Call, CallFault>
    ensures means { Reads result (sendrecv_call raw.now) }
    ensures there { OnOk result (AreThere sendrecv_parameters raw.now) }
    ensures brings { IfOk result (λ c. brought_by c raw.now ≡ []) }
{
    let send = part_of_send(
        alloc,
        raw,
        Parameter::SendCount,
        Parameter::SendType,
        Parameter::SendTag,
    )?;
    let receive = part_of_receive(
        alloc,
        raw,
        Parameter::RecvCount,
        Parameter::RecvType,
        Parameter::RecvTag,
    )?;
    let comm = comm(alloc, raw)?;
    let sent = send_envelope(send, comm);
    let received = receive_envelope(receive, comm);
    let exchange = Exchange::new(alloc, sent, received)?;
    Ok(Call::Sendrecv(exchange.unwrap()))
}

/// The exchange in place (MPI 4.0, 3.10): one count and one datatype are those of both sides. [`CallFault`] names a
/// parameter that isn't there or is wrong; Fails with `Memory` when memory is refused.
#[tactic(auto, unfolding(crate::specs::Rows::sendrecv_replace_call))]
pub fn sendrecv_replace_in(alloc: Global, raw: &RawCall) -> Result<Call, CallFault>
    ensures means { Reads result (sendrecv_replace_call raw.now) }
    ensures there { OnOk result (AreThere sendrecv_replace_parameters raw.now) }
    ensures brings { IfOk result (λ c. brought_by c raw.now ≡ []) }
{
    let sent = part_of_send(
        alloc,
        raw,
        Parameter::Count,
        Parameter::Datatype,
        Parameter::SendTag,
    )?;
    let received = part_of_receive(
        alloc,
        raw,
        Parameter::Count,
        Parameter::Datatype,
        Parameter::RecvTag,
    )?;
    let comm = comm(alloc, raw)?;
    let exchange = Exchange::new(
        alloc,
        send_envelope(sent, comm),
        receive_envelope(received, comm),
    )?;
    Ok(Call::Sendrecv(exchange.unwrap()))
}
