//! Calls as dumpi2ascii writes them, read whole where they lie in the buffer: no line of them is copied. Text in
//! another form is left to the functions that read line by line.

ghost use Rattle.std.specs.Prelude.{◌≡◌, ◌≤◌, ◌<◌, ◌^◌, IfSome, true, false};
ghost use Rattle.mpi_model.specs.Kinds.{has_root, row as kind_row};
ghost use Rattle.mpi_model.specs.declared.object.Object.TheVariants.{Communicator};
ghost use Rattle.mpi_model.specs.Ranges.{IsAskedTag, IsComm, IsSource, IsTarget};
ghost use Rattle.dumpi_calls.specs.InPlace.{IsWhole, TellsCall, TellsReceive, TellsSend, usual_name};
ghost use Rattle.dumpi_calls.specs.Readings.{request_by};
ghost use Rattle.dumpi_calls.specs.Rows.{function_named};
ghost use Rattle.dumpi_text.specs.Usual.{is_word};
ghost use Rattle.dumpi_text.specs.declared.texts.TheConstants.{MOST_USUAL_LINES};

use crate::envelope::{Part, receive_envelope, send_envelope};
use crate::function::Function;
use crate::lines::{
    comm_front, datatype_front, moved_front, number_front, passed_front, request_front,
    requests_front, small_of, status_front, statuses_front,
};
use crate::parameter::Parameter;
use crate::reading::{asked_tag_of, comm_of, dest_of, request_of, root_of, source_of};
use crate::typing::TypedCall;
use dumpi_text::{Num, entering_front, returning_front};
use mpi_model::{
    Call, Collective, CommRef, Exit, Kind, Mode, Object, Outs, Peer, ReceiveEnvelope, SendEnvelope,
    Stamp,
};
use std::alloc::Global;

/// A whole call in front of a text.
#[derive(Drop)]
pub struct Whole {
    pub function: Function,
    pub call: TypedCall,
    /// How many bytes it takes.
    pub bytes: usize,
    /// How many lines it has.
    pub lines: u64,
}

impl Whole {
    /// When the call was entered.
    pub fn enter(&self) -> Stamp
        ensures { result ≡ self.now.call.enter }
    {
        self.call.enter
    }
}

/// The envelope of a send.
fn sent(count: u32, datatype: Num, peer: Peer, tag: u32, comm: CommRef) -> SendEnvelope
    requires peer { IsTarget peer }
    requires tag { tag < 2 ^ 31 }
    requires comm { IsComm comm }
    requires count { count < 2 ^ 31 }
    ensures { result ≡ record { peer = peer; tag = Some tag; comm = comm; count = count; datatype = datatype.value } }
{
    let part = Part {
        count,
        datatype: datatype.value,
        peer,
        tag: Some(tag),
    };
    send_envelope(part, comm)
}

/// The envelope of a receive.
fn received(
    count: u32,
    datatype: Num,
    peer: Peer,
    tag: Option<u32>,
    comm: CommRef,
) -> ReceiveEnvelope
    requires peer { IsSource peer }
    requires tag { IsAskedTag tag }
    requires comm { IsComm comm }
    requires count { count < 2 ^ 31 }
    ensures { result ≡ record { peer = peer; tag = tag; comm = comm; count = count; datatype = datatype.value } }
{
    let part = Part {
        count,
        datatype: datatype.value,
        peer,
        tag,
    };
    receive_envelope(part, comm)
}

/// The request that a call started.
fn posted(request: Num) -> Outs
    ensures { result ≡ Outs.Posted (request_by request.name request.value) }
{
    Outs::Posted(request_of(request))
}

/// The envelope that the lines of a send say in front of a text, and what follows them.
fn send_front(text: &[u8]) -> Option<(SendEnvelope, &[u8])>
    ensures { IfSome result (λ x. TellsSend x.0 text.now x.1.now) }
{
    let (count, rest) = number_front(b"int", b"int count=", Parameter::Count, text)?;
    let (datatype, rest) = datatype_front(rest)?;
    let (dest, rest) = number_front(b"int", b"int dest=", Parameter::Dest, rest)?;
    let (tag, rest) = number_front(b"int", b"int tag=", Parameter::Tag, rest)?;
    let (comm, rest) = comm_front(rest)?;
    let elements = small_of(count)?;
    let peer = dest_of(dest)?;
    let asked = small_of(tag)?;
    let group = comm_of(comm)?;
    Some((sent(elements, datatype, peer, asked, group), rest))
}

/// The envelope that the lines of a receive say in front of a text, and what follows them.
fn receive_front(text: &[u8]) -> Option<(ReceiveEnvelope, &[u8])>
    ensures { IfSome result (λ x. TellsReceive x.0 text.now x.1.now) }
{
    let (count, rest) = number_front(b"int", b"int count=", Parameter::Count, text)?;
    let (datatype, rest) = datatype_front(rest)?;
    let (source, rest) = number_front(b"int", b"int source=", Parameter::Source, rest)?;
    let (tag, rest) = number_front(b"int", b"int tag=", Parameter::Tag, rest)?;
    let (comm, rest) = comm_front(rest)?;
    let elements = small_of(count)?;
    let peer = source_of(source)?;
    let asked = asked_tag_of(tag)?;
    let group = comm_of(comm)?;
    Some((received(elements, datatype, peer, asked, group), rest))
}

/// What the lines in front of a text say: the call, its outcome, how many lines they are, and what follows them.
#[tactic(auto, using(crate::proofs::InPlace::send_call_told))]
fn send_lines(mode: Mode, text: &[u8]) -> Option<(Call, Outs, u64, &[u8])>
    ensures says { IfSome result (λ x. TellsCall (Function.Send mode) x.0 x.1 x.2 text.now x.3.now) }
    ensures few { IfSome result (λ x. x.2 ≤ 14) }
{
    let Some((envelope, rest)) = send_front(text) else {
        return None;
    };
    Some((Call::Send(mode, envelope), Outs::Nothing, 5, rest))
}

/// The same of a nonblocking send.
#[tactic(auto, using(crate::proofs::InPlace::isend_lines_told))]
fn isend_lines(mode: Mode, text: &[u8]) -> Option<(Call, Outs, u64, &[u8])>
    ensures says { IfSome result (λ x. TellsCall (Function.Isend mode) x.0 x.1 x.2 text.now x.3.now) }
    ensures few { IfSome result (λ x. x.2 ≤ 14) }
{
    let Some((envelope, rest)) = send_front(text) else {
        return None;
    };
    let (request, rest) = request_front(rest)?;
    let outs = posted(request);
    Some((Call::Isend(mode, envelope), outs, 6, rest))
}

/// The same of a blocking receive.
#[tactic(auto, using(crate::proofs::InPlace::recv_call_told))]
fn recv_lines(text: &[u8]) -> Option<(Call, Outs, u64, &[u8])>
    ensures says { IfSome result (λ x. TellsCall Function.Recv x.0 x.1 x.2 text.now x.3.now) }
    ensures few { IfSome result (λ x. x.2 ≤ 14) }
{
    let Some((envelope, rest)) = receive_front(text) else {
        return None;
    };
    let Some((told, lines, rest)) = status_front(rest) else {
        return None;
    };
    Some((Call::Recv(envelope), Outs::Status(told), 5 + lines, rest))
}

/// The same of a nonblocking receive.
#[tactic(auto, using(crate::proofs::InPlace::irecv_lines_told))]
fn irecv_lines(text: &[u8]) -> Option<(Call, Outs, u64, &[u8])>
    ensures says { IfSome result (λ x. TellsCall Function.Irecv x.0 x.1 x.2 text.now x.3.now) }
    ensures few { IfSome result (λ x. x.2 ≤ 14) }
{
    let Some((envelope, rest)) = receive_front(text) else {
        return None;
    };
    let (request, rest) = request_front(rest)?;
    let outs = posted(request);
    Some((Call::Irecv(envelope), outs, 6, rest))
}

/// The same of a Wait.
#[tactic(auto, using(crate::proofs::InPlace::wait_call_told))]
fn wait_lines(text: &[u8]) -> Option<(Call, Outs, u64, &[u8])>
    ensures says { IfSome result (λ x. TellsCall Function.Wait x.0 x.1 x.2 text.now x.3.now) }
    ensures few { IfSome result (λ x. x.2 ≤ 14) }
{
    let (request, rest) = request_front(text)?;
    let Some((told, lines, rest)) = status_front(rest) else {
        return None;
    };
    let call = Call::Wait(request_of(request));
    Some((call, Outs::Status(told), 1 + lines, rest))
}

/// The same of a Waitall.
fn waitall_lines(alloc: Global, text: &[u8]) -> Option<(Call, Outs, u64, &[u8])>
    ensures says { IfSome result (λ x. TellsCall Function.Waitall x.0 x.1 x.2 text.now x.3.now) }
    ensures few { IfSome result (λ x. x.2 ≤ 14) }
{
    let (passed, rest) = passed_front(b"int", b"count", text);
    let Some((requests, rest)) = requests_front(alloc, rest) else {
        return None;
    };
    let Some((tolds, lines, rest)) = statuses_front(alloc, requests.as_slice(), rest) else {
        return None;
    };
    Some((
        Call::Waitall(requests),
        Outs::Statuses(tolds),
        passed + 1 + lines,
        rest,
    ))
}

/// A collective call without a root, on a communicator.
fn group_lines(kind: Kind, text: &[u8]) -> Option<(Call, Outs, u64, &[u8])>
    requires root { has_root kind ≡ false }
    requires object { (kind_row kind).object ≡ Communicator }
    ensures says { IfSome result (λ x. TellsCall (Function.Collective kind) x.0 x.1 x.2 text.now x.3.now) }
    ensures few { IfSome result (λ x. x.2 ≤ 14) }
{
    let (passed, rest) = moved_front(kind, text);
    let (comm, rest) = comm_front(rest)?;
    let group = comm_of(comm)?;
    let collective = Collective::new(kind, None, group)?;
    Some((
        Call::Collective(collective),
        Outs::Nothing,
        passed + 1,
        rest,
    ))
}

/// A collective call with a root, on a communicator.
fn rooted_lines(kind: Kind, text: &[u8]) -> Option<(Call, Outs, u64, &[u8])>
    requires root { has_root kind ≡ true }
    requires object { (kind_row kind).object ≡ Communicator }
    ensures says { IfSome result (λ x. TellsCall (Function.Collective kind) x.0 x.1 x.2 text.now x.3.now) }
    ensures few { IfSome result (λ x. x.2 ≤ 14) }
{
    let (passed, rest) = moved_front(kind, text);
    let (root, rest) = number_front(b"int", b"int root=", Parameter::Root, rest)?;
    let (comm, rest) = comm_front(rest)?;
    let rank = root_of(root)?;
    let group = comm_of(comm)?;
    let collective = Collective::new(kind, rank, group)?;
    Some((
        Call::Collective(collective),
        Outs::Nothing,
        passed + 2,
        rest,
    ))
}

/// A collective call on a communicator.
fn collective_lines(kind: Kind, text: &[u8]) -> Option<(Call, Outs, u64, &[u8])>
    ensures says { IfSome result (λ x. TellsCall (Function.Collective kind) x.0 x.1 x.2 text.now x.3.now) }
    ensures few { IfSome result (λ x. x.2 ≤ 14) }
{
    match kind.row().object {
        Object::Communicator => {
            if kind.has_root() {
                rooted_lines(kind, text)
            } else {
                group_lines(kind, text)
            }
        }
        Object::Window | Object::File => None,
    }
}

/// The same of any function whose calls are read in place.
fn lines_front(alloc: Global, function: Function, text: &[u8]) -> Option<(Call, Outs, u64, &[u8])>
    ensures says { IfSome result (λ x. TellsCall function x.0 x.1 x.2 text.now x.3.now) }
    ensures few { IfSome result (λ x. x.2 ≤ 14) }
{
    match function {
        Function::Send(mode) => send_lines(mode, text),
        Function::Isend(mode) => isend_lines(mode, text),
        Function::Recv => recv_lines(text),
        Function::Irecv => irecv_lines(text),
        Function::Wait => wait_lines(text),
        Function::Waitall => waitall_lines(alloc, text),
        Function::Collective(kind) => collective_lines(kind, text),
        _ => None,
    }
}

/// The name of a function whose calls are read in place.
pub fn usual_name(function: Function) -> &'static str
    ensures { result.now ≡ usual_name function }
{
    match function {
        Function::Send(Mode::Standard) => "MPI_Send",
        Function::Send(Mode::Synchronous) => "MPI_Ssend",
        Function::Isend(Mode::Standard) => "MPI_Isend",
        Function::Isend(Mode::Synchronous) => "MPI_Issend",
        Function::Recv => "MPI_Recv",
        Function::Irecv => "MPI_Irecv",
        Function::Wait => "MPI_Wait",
        Function::Waitall => "MPI_Waitall",
        Function::Collective(Kind::Barrier) => "MPI_Barrier",
        Function::Collective(Kind::Allreduce) => "MPI_Allreduce",
        Function::Collective(Kind::Allgather) => "MPI_Allgather",
        Function::Collective(Kind::Alltoall) => "MPI_Alltoall",
        Function::Collective(Kind::Bcast) => "MPI_Bcast",
        Function::Collective(Kind::Scatter) => "MPI_Scatter",
        Function::Collective(Kind::Gather) => "MPI_Gather",
        Function::Collective(Kind::Reduce) => "MPI_Reduce",
        _ => "",
    }
}

/// The function whose entering line may stand in front of a text, by a few bytes of its name: no other of those that
/// are read in place has them.
#[tactic(auto, using(crate::proofs::UsualNames::named_send, crate::proofs::UsualNames::named_ssend, crate::proofs::UsualNames::named_isend, crate::proofs::UsualNames::named_issend, crate::proofs::UsualNames::named_recv, crate::proofs::UsualNames::named_irecv, crate::proofs::UsualNames::named_wait, crate::proofs::UsualNames::named_waitall, crate::proofs::UsualNames::named_barrier, crate::proofs::UsualNames::named_bcast, crate::proofs::UsualNames::named_allreduce, crate::proofs::UsualNames::named_allgather, crate::proofs::UsualNames::named_alltoall, crate::proofs::UsualNames::named_scatter, crate::proofs::UsualNames::named_gather, crate::proofs::UsualNames::named_reduce))]
fn likely_function(text: &[u8]) -> Option<Function>
    ensures word { IfSome result (λ function. is_word (usual_name function) ≡ true) }
    ensures named { IfSome result (λ function. function_named (usual_name function) ≡ function) }
{
    match text {
        [_, _, _, _, b'S', b'e', ..] => Some(Function::Send(Mode::Standard)),
        [_, _, _, _, b'S', b's', ..] => Some(Function::Send(Mode::Synchronous)),
        [_, _, _, _, b'S', b'c', ..] => Some(Function::Collective(Kind::Scatter)),
        [_, _, _, _, b'I', b's', b'e', ..] => Some(Function::Isend(Mode::Standard)),
        [_, _, _, _, b'I', b's', ..] => Some(Function::Isend(Mode::Synchronous)),
        [_, _, _, _, b'I', b'r', ..] => Some(Function::Irecv),
        [_, _, _, _, b'R', b'e', b'c', ..] => Some(Function::Recv),
        [_, _, _, _, b'R', b'e', b'd', ..] => Some(Function::Collective(Kind::Reduce)),
        [_, _, _, _, b'W', _, _, _, b' ', ..] => Some(Function::Wait),
        [_, _, _, _, b'W', _, _, _, b'a', b'l', ..] => Some(Function::Waitall),
        [_, _, _, _, b'B', b'a', ..] => Some(Function::Collective(Kind::Barrier)),
        [_, _, _, _, b'B', b'c', ..] => Some(Function::Collective(Kind::Bcast)),
        [_, _, _, _, b'A', _, _, b'r', ..] => Some(Function::Collective(Kind::Allreduce)),
        [_, _, _, _, b'A', _, _, b'g', ..] => Some(Function::Collective(Kind::Allgather)),
        [_, _, _, _, b'A', _, _, b't', ..] => Some(Function::Collective(Kind::Alltoall)),
        [_, _, _, _, b'G', b'a', ..] => Some(Function::Collective(Kind::Gather)),
        _ => None,
    }
}

/// The call in front of a text, if it is whole and as dumpi2ascii writes it; `None` if it isn't, or memory is refused.
#[tactic(auto, using(crate::proofs::InPlace::whole_told))]
pub fn whole_front(alloc: Global, text: &[u8]) -> Option<Whole>
    ensures whole { IfSome result (λ w. IsWhole w.function w.call w.bytes w.lines text.now) }
    ensures few { IfSome result (λ w. w.lines ≤ MOST_USUAL_LINES) }
{
    let function = likely_function(text)?;
    let name = usual_name(function).as_bytes();
    let Some((enter, inside)) = entering_front(name, text) else {
        return None;
    };
    let Some((call, outs, count, after)) = lines_front(alloc, function, inside) else {
        return None;
    };
    let Some((stamp, rest)) = returning_front(name, after) else {
        return None;
    };
    let typed = TypedCall {
        call,
        enter,
        exit: Some(Exit { outs, stamp }),
    };
    Some(Whole {
        function,
        call: typed,
        bytes: text.len().saturating_sub(rest.len()),
        lines: count + 2,
    })
}
