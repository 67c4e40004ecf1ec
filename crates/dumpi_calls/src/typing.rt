//! The calls of a text, read by the parameters of their functions.
//!
//! A call is refused for the first of its function's parameters that is missing, entry parameters first, and only then
//! for the first that is wrong. A sound call is read in one go, so that each parameter is looked up once; only for one
//! that is refused it is asked what is missing.

ghost use Rattle.std.specs.Prelude.{◌≡◌, ◌∷◌, [], IfOk, IsSome, None, OnOk, Some};
ghost use Rattle.dumpi_text.specs.Call.{TextCall};
ghost use Rattle.mpi_model.specs.Kinds.{row as kind_row};
ghost use Rattle.mpi_model.specs.Ranges.{IsComm, IsNamedAs};
ghost use Rattle.dumpi_calls.specs.Outcomes.{brought_by, index_where_set};
ghost use Rattle.dumpi_calls.specs.Readings.{AreThere, Reads};
ghost use Rattle.dumpi_calls.specs.Rows.{collective_call, collective_in, collective_parameters, exit_in, first_missing, icollective_call, improbe_call, iprobe_call, is_started, object_call, object_or_local, isend_call, irecv_call, missing_in, mprobe_call, probe_call, probe_parameters, probed_in, read_by, receive_parameters, recv_call, recv_init_call, returned, row, send_call, send_init_call, send_parameters, start_call, startall_call, started_request, cancel_call, free_call, test_call, testall_call, testany_call, testsome_call, typed_by, wait_call, waitall_call, waitany_call, waitsome_call};

use crate::envelope::{receive_envelope_in, send_envelope_in, sendrecv_in, sendrecv_replace_in};
use crate::function::Function;
use crate::outcome::{is_flag_set, outcome};
use crate::parameter::{CallFault, Parameter};
use crate::reading::{
    asked_tag, comm, named_object, object, request, requests, root, source, text_in,
};
use dumpi_text::RawCall;
use mpi_model::{Call, Collective, CommRef, Exit, Kind, Mode, ProbeEnvelope, Stamp};
use std::alloc::{AllocError, Global};

/// A call with what it names, when it was entered, and how it returned, if it did.
#[derive(Drop)]
pub struct TypedCall {
    pub call: Call,
    /// When it was entered.
    pub enter: Stamp,
    /// How and when it returned; `None` if it didn't.
    pub exit: Option<Exit>,
}

/// The first of these parameters that isn't there.
pub(crate) fn first_of(raw: &RawCall, parameters: &[Parameter]) -> Option<Parameter>
    ensures { result ≡ first_missing parameters.now raw.now }
{
    for parameter in parameters {
        if text_in(raw, *parameter).is_none() {
            return Some(*parameter);
        }
    }
    None
}

/// The first parameter of a collective call that isn't there.
fn collective_missing(kind: Kind, raw: &RawCall) -> Option<Parameter>
    ensures { result ≡ first_missing (collective_parameters kind) raw.now }
{
    if kind.has_root() {
        first_of(raw, &[Parameter::Root, Parameter::Comm])
    } else {
        first_of(raw, &[Parameter::Comm])
    }
}

/// Whether the kind is a communication with a nonblocking function.
fn is_started(kind: Kind) -> bool
    ensures { result ≡ is_started kind }
{
    kind.has_nonblocking() && kind.row().is_communication
}

/// The request of a nonblocking communication, where it isn't there.
fn started_missing(kind: Kind, raw: &RawCall) -> Option<Parameter>
    ensures { result ≡ first_missing (started_request (is_started kind)) raw.now }
{
    if is_started(kind) {
        first_of(raw, &[Parameter::Request])
    } else {
        None
    }
}

/// The first entry parameter of the row that isn't there.
pub(crate) fn entry_missing(function: Function, raw: &RawCall) -> Option<Parameter>
    ensures { result ≡ first_missing (row function raw.now.name).entry raw.now }
{
    match function {
        Function::Send(_) | Function::Isend(_) | Function::SendInit(_) => first_of(
            raw,
            &[
                Parameter::Count,
                Parameter::Datatype,
                Parameter::Dest,
                Parameter::Tag,
                Parameter::Comm,
            ],
        ),
        Function::Recv | Function::Irecv | Function::RecvInit => first_of(
            raw,
            &[
                Parameter::Count,
                Parameter::Datatype,
                Parameter::Source,
                Parameter::Tag,
                Parameter::Comm,
            ],
        ),
        Function::Sendrecv => first_of(
            raw,
            &[
                Parameter::SendCount,
                Parameter::SendType,
                Parameter::Dest,
                Parameter::SendTag,
                Parameter::RecvCount,
                Parameter::RecvType,
                Parameter::Source,
                Parameter::RecvTag,
                Parameter::Comm,
            ],
        ),
        Function::SendrecvReplace => first_of(
            raw,
            &[
                Parameter::Count,
                Parameter::Datatype,
                Parameter::Dest,
                Parameter::SendTag,
                Parameter::Source,
                Parameter::RecvTag,
                Parameter::Comm,
            ],
        ),
        Function::Probe | Function::Mprobe | Function::Improbe => {
            first_of(raw, &[Parameter::Source, Parameter::Tag, Parameter::Comm])
        }
        Function::Wait | Function::Test | Function::Cancel | Function::Free | Function::Start => {
            first_of(raw, &[Parameter::Request])
        }
        Function::Waitall | Function::Waitany | Function::Waitsome => {
            first_of(raw, &[Parameter::Requests])
        }
        Function::Testall | Function::Testany | Function::Testsome | Function::Startall => {
            first_of(raw, &[Parameter::Requests])
        }
        Function::Collective(kind) | Function::Icollective(kind) => collective_missing(kind, raw),
        Function::Iprobe | Function::OnObject(_, _) => None,
        Function::Imrecv | Function::Unread | Function::Finalize | Function::Other => None,
    }
}

/// The first outcome parameter of the row that isn't there.
fn outcome_missing(
    alloc: Global,
    function: Function,
    raw: &RawCall,
) -> Result<Option<Parameter>, AllocError>
    ensures { IfOk result (λ missing. missing ≡ first_missing ((row function raw.now.name).outcome raw.now) raw.now) }
{
    match function {
        Function::Isend(_) | Function::Irecv => Ok(first_of(raw, &[Parameter::Request])),
        Function::Icollective(kind) => Ok(started_missing(kind, raw)),
        Function::SendInit(_) | Function::RecvInit | Function::Imrecv => {
            Ok(first_of(raw, &[Parameter::Request]))
        }
        Function::Waitany => Ok(first_of(raw, &[Parameter::Index])),
        Function::Test | Function::Testall | Function::Improbe => {
            Ok(first_of(raw, &[Parameter::Flag]))
        }
        Function::Testany => {
            if is_flag_set(alloc, raw)? {
                Ok(first_of(raw, &[Parameter::Flag, Parameter::Index]))
            } else {
                Ok(first_of(raw, &[Parameter::Flag]))
            }
        }
        Function::Send(_) | Function::Recv | Function::Probe | Function::Mprobe => Ok(None),
        Function::Sendrecv | Function::SendrecvReplace => Ok(None),
        Function::Wait | Function::Waitall | Function::Waitsome | Function::Testsome => Ok(None),
        Function::Cancel | Function::Free | Function::Unread => Ok(None),
        Function::Start | Function::Startall => Ok(None),
        Function::Collective(_) | Function::OnObject(_, _) | Function::Iprobe => Ok(None),
        Function::Finalize | Function::Other => Ok(None),
    }
}

/// The first parameter of the row that isn't there; outcome parameters are asked for where the call returned.
fn missing(
    alloc: Global,
    function: Function,
    raw: &RawCall,
) -> Result<Option<Parameter>, AllocError>
    ensures { IfOk result (λ missing. missing ≡ missing_in (row function raw.now.name) raw.now) }
{
    match entry_missing(function, raw) {
        Some(parameter) => Ok(Some(parameter)),
        None => match raw.exit() {
            Some(_) => outcome_missing(alloc, function, raw),
            None => Ok(None),
        },
    }
}

/// A blocking send of a mode.
#[tactic(auto, unfolding(crate::specs::Rows::send_call))]
fn send(alloc: Global, mode: Mode, raw: &RawCall) -> Result<Call, CallFault>
    ensures means { Reads result (send_call mode raw.now) }
    ensures there { OnOk result (AreThere send_parameters raw.now) }
    ensures brings { IfOk result (λ c. brought_by c raw.now ≡ []) }
{
    let envelope = send_envelope_in(alloc, raw)?;
    Ok(Call::Send(mode, envelope))
}

/// A nonblocking send of a mode.
#[tactic(auto, unfolding(crate::specs::Rows::isend_call))]
fn isend(alloc: Global, mode: Mode, raw: &RawCall) -> Result<Call, CallFault>
    ensures means { Reads result (isend_call mode raw.now) }
    ensures there { OnOk result (AreThere send_parameters raw.now) }
    ensures brings { IfOk result (λ c. brought_by c raw.now ≡ Parameter.Request ∷ []) }
{
    let envelope = send_envelope_in(alloc, raw)?;
    Ok(Call::Isend(mode, envelope))
}

/// A blocking receive.
#[tactic(auto, unfolding(crate::specs::Rows::recv_call))]
fn recv(alloc: Global, raw: &RawCall) -> Result<Call, CallFault>
    ensures means { Reads result (recv_call raw.now) }
    ensures there { OnOk result (AreThere receive_parameters raw.now) }
    ensures brings { IfOk result (λ c. brought_by c raw.now ≡ []) }
{
    let envelope = receive_envelope_in(alloc, raw)?;
    Ok(Call::Recv(envelope))
}

/// A nonblocking receive.
#[tactic(auto, unfolding(crate::specs::Rows::irecv_call))]
fn irecv(alloc: Global, raw: &RawCall) -> Result<Call, CallFault>
    ensures means { Reads result (irecv_call raw.now) }
    ensures there { OnOk result (AreThere receive_parameters raw.now) }
    ensures brings { IfOk result (λ c. brought_by c raw.now ≡ Parameter.Request ∷ []) }
{
    let envelope = receive_envelope_in(alloc, raw)?;
    Ok(Call::Irecv(envelope))
}

/// What a probe looks for.
#[tactic(auto, unfolding(crate::specs::Rows::probed_in))]
fn probed(alloc: Global, raw: &RawCall) -> Result<ProbeEnvelope, CallFault>
    ensures means { Reads result (probed_in raw.now) }
    ensures there { OnOk result (AreThere probe_parameters raw.now) }
{
    let source = source(alloc, raw)?;
    let tag = asked_tag(alloc, raw, Parameter::Tag)?;
    let comm = comm(alloc, raw)?;
    Ok(ProbeEnvelope::new(source, tag, comm).unwrap())
}

/// A probe.
#[tactic(auto, unfolding(crate::specs::Rows::probe_call))]
fn probe(alloc: Global, raw: &RawCall) -> Result<Call, CallFault>
    ensures means { Reads result (probe_call raw.now) }
    ensures there { OnOk result (AreThere probe_parameters raw.now) }
    ensures brings { IfOk result (λ c. brought_by c raw.now ≡ []) }
{
    let envelope = probed(alloc, raw)?;
    Ok(Call::Probe(envelope))
}

/// A matched probe that waits.
#[tactic(auto, unfolding(crate::specs::Rows::mprobe_call))]
fn mprobe(alloc: Global, raw: &RawCall) -> Result<Call, CallFault>
    ensures means { Reads result (mprobe_call raw.now) }
    ensures there { OnOk result (AreThere probe_parameters raw.now) }
    ensures brings { IfOk result (λ c. brought_by c raw.now ≡ []) }
{
    let envelope = probed(alloc, raw)?;
    Ok(Call::Mprobe(envelope))
}

/// A matched probe that doesn't wait.
#[tactic(auto, unfolding(crate::specs::Rows::improbe_call))]
fn improbe(alloc: Global, raw: &RawCall) -> Result<Call, CallFault>
    ensures means { Reads result (improbe_call raw.now) }
    ensures there { OnOk result (AreThere probe_parameters raw.now) }
    ensures brings { IfOk result (λ c. brought_by c raw.now ≡ Parameter.Flag ∷ []) }
{
    let envelope = probed(alloc, raw)?;
    Ok(Call::Improbe(envelope))
}

/// A Wait for one request.
#[tactic(auto, unfolding(crate::specs::Rows::wait_call))]
fn wait(alloc: Global, raw: &RawCall) -> Result<Call, CallFault>
    ensures means { Reads result (wait_call raw.now) }
    ensures there { OnOk result (AreThere (Parameter.Request ∷ []) raw.now) }
    ensures brings { IfOk result (λ c. brought_by c raw.now ≡ []) }
{
    let request = request(alloc, raw)?;
    Ok(Call::Wait(request))
}

/// A Test of one request.
#[tactic(auto, unfolding(crate::specs::Rows::test_call))]
fn test(alloc: Global, raw: &RawCall) -> Result<Call, CallFault>
    ensures means { Reads result (test_call raw.now) }
    ensures there { OnOk result (AreThere (Parameter.Request ∷ []) raw.now) }
    ensures brings { IfOk result (λ c. brought_by c raw.now ≡ Parameter.Flag ∷ []) }
{
    let request = request(alloc, raw)?;
    Ok(Call::Test(request))
}

/// A Waitall for all requests of a list.
#[tactic(auto, unfolding(crate::specs::Rows::waitall_call))]
fn waitall(alloc: Global, raw: &RawCall) -> Result<Call, CallFault>
    ensures means { Reads result (waitall_call raw.now) }
    ensures there { OnOk result (AreThere (Parameter.Requests ∷ []) raw.now) }
    ensures brings { IfOk result (λ c. brought_by c raw.now ≡ []) }
{
    let requests = requests(alloc, raw)?;
    Ok(Call::Waitall(requests))
}

/// A Waitany for one of a list.
#[tactic(auto, unfolding(crate::specs::Rows::waitany_call))]
fn waitany(alloc: Global, raw: &RawCall) -> Result<Call, CallFault>
    ensures means { Reads result (waitany_call raw.now) }
    ensures there { OnOk result (AreThere (Parameter.Requests ∷ []) raw.now) }
    ensures brings { IfOk result (λ c. brought_by c raw.now ≡ Parameter.Index ∷ []) }
{
    let requests = requests(alloc, raw)?;
    Ok(Call::Waitany(requests))
}

/// A Waitsome for some of a list.
#[tactic(auto, unfolding(crate::specs::Rows::waitsome_call))]
fn waitsome(alloc: Global, raw: &RawCall) -> Result<Call, CallFault>
    ensures means { Reads result (waitsome_call raw.now) }
    ensures there { OnOk result (AreThere (Parameter.Requests ∷ []) raw.now) }
    ensures brings { IfOk result (λ c. brought_by c raw.now ≡ []) }
{
    let requests = requests(alloc, raw)?;
    Ok(Call::Waitsome(requests))
}

/// A Testall of all requests of a list.
#[tactic(auto, unfolding(crate::specs::Rows::testall_call))]
fn testall(alloc: Global, raw: &RawCall) -> Result<Call, CallFault>
    ensures means { Reads result (testall_call raw.now) }
    ensures there { OnOk result (AreThere (Parameter.Requests ∷ []) raw.now) }
    ensures brings { IfOk result (λ c. brought_by c raw.now ≡ Parameter.Flag ∷ []) }
{
    let requests = requests(alloc, raw)?;
    Ok(Call::Testall(requests))
}

/// A Testany of one of a list.
#[tactic(auto, unfolding(crate::specs::Rows::testany_call))]
fn testany(alloc: Global, raw: &RawCall) -> Result<Call, CallFault>
    ensures means { Reads result (testany_call raw.now) }
    ensures there { OnOk result (AreThere (Parameter.Requests ∷ []) raw.now) }
    ensures brings { IfOk result (λ c. brought_by c raw.now ≡ Parameter.Flag ∷ index_where_set raw.now) }
{
    let requests = requests(alloc, raw)?;
    Ok(Call::Testany(requests))
}

/// A Testsome of some of a list.
#[tactic(auto, unfolding(crate::specs::Rows::testsome_call))]
fn testsome(alloc: Global, raw: &RawCall) -> Result<Call, CallFault>
    ensures means { Reads result (testsome_call raw.now) }
    ensures there { OnOk result (AreThere (Parameter.Requests ∷ []) raw.now) }
    ensures brings { IfOk result (λ c. brought_by c raw.now ≡ []) }
{
    let requests = requests(alloc, raw)?;
    Ok(Call::Testsome(requests))
}

/// A Cancel of a request.
#[tactic(auto, unfolding(crate::specs::Rows::cancel_call))]
fn cancel(alloc: Global, raw: &RawCall) -> Result<Call, CallFault>
    ensures means { Reads result (cancel_call raw.now) }
    ensures there { OnOk result (AreThere (Parameter.Request ∷ []) raw.now) }
    ensures brings { IfOk result (λ c. brought_by c raw.now ≡ []) }
{
    let request = request(alloc, raw)?;
    Ok(Call::Cancel(request))
}

/// An MPI_Request_free of a request.
#[tactic(auto, unfolding(crate::specs::Rows::free_call))]
fn free(alloc: Global, raw: &RawCall) -> Result<Call, CallFault>
    ensures means { Reads result (free_call raw.now) }
    ensures there { OnOk result (AreThere (Parameter.Request ∷ []) raw.now) }
    ensures brings { IfOk result (λ c. brought_by c raw.now ≡ []) }
{
    let request = request(alloc, raw)?;
    Ok(Call::Free(request))
}

/// A persistent send of a mode.
#[tactic(auto, unfolding(crate::specs::Rows::send_init_call))]
fn send_init(alloc: Global, mode: Mode, raw: &RawCall) -> Result<Call, CallFault>
    ensures means { Reads result (send_init_call mode raw.now) }
    ensures there { OnOk result (AreThere send_parameters raw.now) }
    ensures brings { IfOk result (λ c. brought_by c raw.now ≡ Parameter.Request ∷ []) }
{
    let envelope = send_envelope_in(alloc, raw)?;
    Ok(Call::SendInit(mode, envelope))
}

/// A persistent receive.
#[tactic(auto, unfolding(crate::specs::Rows::recv_init_call))]
fn recv_init(alloc: Global, raw: &RawCall) -> Result<Call, CallFault>
    ensures means { Reads result (recv_init_call raw.now) }
    ensures there { OnOk result (AreThere receive_parameters raw.now) }
    ensures brings { IfOk result (λ c. brought_by c raw.now ≡ Parameter.Request ∷ []) }
{
    let envelope = receive_envelope_in(alloc, raw)?;
    Ok(Call::RecvInit(envelope))
}

/// A Start of a persistent request.
#[tactic(auto, unfolding(crate::specs::Rows::start_call))]
fn start(alloc: Global, raw: &RawCall) -> Result<Call, CallFault>
    ensures means { Reads result (start_call raw.now) }
    ensures there { OnOk result (AreThere (Parameter.Request ∷ []) raw.now) }
    ensures brings { IfOk result (λ c. brought_by c raw.now ≡ []) }
{
    let request = request(alloc, raw)?;
    Ok(Call::Start(request))
}

/// A Startall of persistent requests.
#[tactic(auto, unfolding(crate::specs::Rows::startall_call))]
fn startall(alloc: Global, raw: &RawCall) -> Result<Call, CallFault>
    ensures means { Reads result (startall_call raw.now) }
    ensures there { OnOk result (AreThere (Parameter.Requests ∷ []) raw.now) }
    ensures brings { IfOk result (λ c. brought_by c raw.now ≡ []) }
{
    let requests = requests(alloc, raw)?;
    Ok(Call::Startall(requests))
}

/// What a collective call names.
#[tactic(auto, unfolding(crate::specs::Rows::collective_in))]
fn collective_of(alloc: Global, kind: Kind, raw: &RawCall) -> Result<Collective, CallFault>
    ensures means { Reads result (collective_in kind raw.now) }
    ensures there { OnOk result (AreThere (collective_parameters kind) raw.now) }
    ensures kind { IfOk result (λ c. c.kind ≡ kind) }
{
    let root = root(alloc, kind, raw)?;
    let comm = named_object(alloc, kind.row().object, raw)?;
    Ok(Collective::new(kind, root, comm).unwrap())
}

/// A blocking collective call of a kind.
#[tactic(auto, unfolding(crate::specs::Rows::collective_call))]
fn collective(alloc: Global, kind: Kind, raw: &RawCall) -> Result<Call, CallFault>
    ensures means { Reads result (collective_call kind raw.now) }
    ensures there { OnOk result (AreThere (collective_parameters kind) raw.now) }
    ensures brings { IfOk result (λ c. brought_by c raw.now ≡ []) }
{
    let collective = collective_of(alloc, kind, raw)?;
    Ok(Call::Collective(collective))
}

/// A nonblocking collective call of a kind.
#[tactic(auto, unfolding(crate::specs::Rows::icollective_call))]
fn icollective(alloc: Global, kind: Kind, raw: &RawCall) -> Result<Call, CallFault>
    ensures means { Reads result (icollective_call kind raw.now) }
    ensures there { OnOk result (AreThere (collective_parameters kind) raw.now) }
    ensures brings { IfOk result (λ c. brought_by c raw.now ≡ started_request (is_started kind)) }
{
    let collective = collective_of(alloc, kind, raw)?;
    if is_started(kind) {
        Ok(Call::Icollective(collective.nonblocking().unwrap()))
    } else {
        Ok(Call::Local)
    }
}

/// A collective call on an object.
fn made_on(kind: Kind, nonblocking: bool, comm: CommRef) -> Call
    requires { IsComm comm × IsNamedAs (kind_row kind).object comm }
    ensures value { result ≡ object_or_local kind nonblocking (Some comm) }
    ensures brings { (raw : TextCall) → brought_by result raw ≡ [] }
{
    if kind.row().is_communication {
        return Call::Local;
    }
    let call = Collective::new(kind, None, comm).unwrap();
    if !nonblocking {
        return Call::Collective(call);
    }
    match call.nonblocking() {
        Some(call) => Call::Icollective(call),
        None => Call::Local,
    }
}

/// A call of a collective function on an object: local where it doesn't name its object.
#[tactic(auto, unfolding(crate::specs::Rows::object_call))]
fn object_call(
    alloc: Global,
    kind: Kind,
    nonblocking: bool,
    raw: &RawCall,
) -> Result<Call, CallFault>
    ensures means { Reads result (object_call kind nonblocking raw.now) }
    ensures brings { IfOk result (λ c. brought_by c raw.now ≡ []) }
{
    match object(alloc, kind, raw)? {
        Some(comm) => Ok(made_on(kind, nonblocking, comm)),
        None => Ok(Call::Local),
    }
}

/// A probe that doesn't wait: local where it doesn't say what it looks for.
#[tactic(auto, unfolding(crate::specs::Rows::iprobe_call))]
fn iprobe(alloc: Global, raw: &RawCall) -> Result<Call, CallFault>
    ensures means { Reads result (iprobe_call raw.now) }
    ensures brings { IfOk result (λ c. brought_by c raw.now ≡ []) }
{
    match probed(alloc, raw) {
        Ok(envelope) => Ok(Call::Iprobe(envelope)),
        Err(CallFault::Memory) => Err(CallFault::Memory),
        Err(_) => Ok(Call::Local),
    }
}

/// The call by the entry parameters of its row.
fn call_in(alloc: Global, function: Function, raw: &RawCall) -> Result<Call, CallFault>
    ensures means { Reads result ((row function raw.now.name).call raw.now) }
    ensures there { OnOk result (AreThere (row function raw.now.name).entry raw.now) }
    ensures brings { IfOk result (λ c. brought_by c raw.now ≡ (row function raw.now.name).outcome raw.now) }
{
    match function {
        Function::Send(mode) => send(alloc, mode, raw),
        Function::Isend(mode) => isend(alloc, mode, raw),
        Function::Recv => recv(alloc, raw),
        Function::Irecv => irecv(alloc, raw),
        Function::Sendrecv => sendrecv_in(alloc, raw),
        Function::SendrecvReplace => sendrecv_replace_in(alloc, raw),
        Function::Probe => probe(alloc, raw),
        Function::Wait => wait(alloc, raw),
        Function::Waitall => waitall(alloc, raw),
        Function::Waitany => waitany(alloc, raw),
        Function::Waitsome => waitsome(alloc, raw),
        Function::Test => test(alloc, raw),
        Function::Testall => testall(alloc, raw),
        Function::Testany => testany(alloc, raw),
        Function::Testsome => testsome(alloc, raw),
        Function::Cancel => cancel(alloc, raw),
        Function::Free => free(alloc, raw),
        Function::Collective(kind) => collective(alloc, kind, raw),
        Function::Icollective(kind) => icollective(alloc, kind, raw),
        Function::OnObject(kind, nonblocking) => object_call(alloc, kind, nonblocking, raw),
        Function::Iprobe => iprobe(alloc, raw),
        Function::SendInit(mode) => send_init(alloc, mode, raw),
        Function::RecvInit => recv_init(alloc, raw),
        Function::Start => start(alloc, raw),
        Function::Startall => startall(alloc, raw),
        Function::Mprobe => mprobe(alloc, raw),
        Function::Improbe => improbe(alloc, raw),
        Function::Imrecv => Ok(Call::Imrecv),
        Function::Unread => Ok(Call::Unread),
        Function::Finalize => Ok(Call::Finalize),
        Function::Other => Ok(Call::Local),
    }
}

/// How a call returned, at this time.
#[tactic(auto, unfolding(crate::specs::Rows::returned))]
fn exit_at(alloc: Global, call: &Call, stamp: Stamp, raw: &RawCall) -> Result<Exit, CallFault>
    ensures means { Reads result (returned call.now stamp raw.now) }
    ensures there { OnOk result (AreThere (brought_by call.now raw.now) raw.now) }
{
    let outs = outcome(alloc, call, raw)?;
    Ok(Exit { outs, stamp })
}

/// How a call returned, if it did.
fn exit_of(alloc: Global, call: &Call, raw: &RawCall) -> Result<Option<Exit>, CallFault>
    ensures means { Reads result (exit_in call.now raw.now.exit raw.now) }
    ensures there { IsSome raw.now.exit → OnOk result (AreThere (brought_by call.now raw.now) raw.now) }
{
    match raw.exit() {
        None => Ok(None),
        Some(stamp) => match exit_at(alloc, call, stamp, raw) {
            Ok(exit) => Ok(Some(exit)),
            Err(fault) => Err(fault),
        },
    }
}

/// The call and its exit, read in one go.
#[tactic(auto, unfolding(crate::specs::Rows::read_by), using(crate::proofs::Missing::none_missing))]
fn read(alloc: Global, function: Function, raw: &RawCall) -> Result<TypedCall, CallFault>
    ensures means { Reads result (read_by (row function raw.now.name) raw.now) }
    ensures there { OnOk result (missing_in (row function raw.now.name) raw.now ≡ None) }
{
    let call = call_in(alloc, function, raw)?;
    let exit = exit_of(alloc, &call, raw)?;
    Ok(TypedCall {
        call,
        enter: raw.enter(),
        exit,
    })
}

/// The call that a text tells, by the row of its function. [`CallFault`] names the first of its parameters that isn't
/// there, else the first that is wrong; Fails with `Memory` when memory is refused.
pub fn typed_call(alloc: Global, function: Function, raw: &RawCall) -> Result<TypedCall, CallFault>
    ensures means { Reads result (typed_by (row function raw.now.name) raw.now) }
{
    match read(alloc, function, raw) {
        Ok(call) => Ok(call),
        Err(CallFault::Memory) => Err(CallFault::Memory),
        Err(fault) => match missing(alloc, function, raw)? {
            Some(parameter) => Err(CallFault::Missing(parameter)),
            None => Err(fault),
        },
    }
}
