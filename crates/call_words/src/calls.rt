//! Calls.

ghost use Rattle.std.specs.Prelude.{◌≡◌, length};
ghost use Rattle.call_words.specs.Texts.{Adds};
ghost use Rattle.call_words.specs.Words.{call_text, called_text, exchange_text, kind_text, immediate_name, init_name, of_requests_text, on_object_text, on_text, one_root_text, probe_text, receive_text, root_text, send_name, send_text};

use crate::envelopes::{put_comm, put_object, put_probed, put_received, put_sent};
use crate::text::Text;
use mpi_model::{
    Call, Collective, CollectiveFunction, CommRef, Envelope, Exchange, Mode, Object, ProbeEnvelope,
};

/// The function of a blocking send of a mode (MPI 4.0, 3.4).
pub(crate) fn send_name(mode: Mode) -> &'static [u8]
    ensures { result.now ≡ send_name mode }
{
    match mode {
        Mode::Standard => b"MPI_Send",
        Mode::Synchronous => b"MPI_Ssend",
        Mode::Buffered => b"MPI_Bsend",
        Mode::Ready => b"MPI_Rsend",
    }
}

/// The function of a nonblocking send of a mode (MPI 4.0, 3.7.2).
pub(crate) fn immediate_name(mode: Mode) -> &'static [u8]
    ensures { result.now ≡ immediate_name mode }
{
    match mode {
        Mode::Standard => b"MPI_Isend",
        Mode::Synchronous => b"MPI_Issend",
        Mode::Buffered => b"MPI_Ibsend",
        Mode::Ready => b"MPI_Irsend",
    }
}

/// The function that makes a persistent send of a mode (MPI 4.0, 3.9).
pub(crate) fn init_name(mode: Mode) -> &'static [u8]
    ensures { result.now ≡ init_name mode }
{
    match mode {
        Mode::Standard => b"MPI_Send_init",
        Mode::Synchronous => b"MPI_Ssend_init",
        Mode::Buffered => b"MPI_Bsend_init",
        Mode::Ready => b"MPI_Rsend_init",
    }
}

/// A call that sends, by its function and its envelope.
fn put_send(out: &mut Text, name: &[u8], envelope: Envelope)
    ensures { Adds out.old out.new (send_text name.now envelope) }
{
    out.put(name);
    put_sent(out, envelope);
}

/// A call that receives, by its function and its envelope.
fn put_receive(out: &mut Text, name: &[u8], envelope: Envelope)
    ensures { Adds out.old out.new (receive_text name.now envelope) }
{
    out.put(name);
    put_received(out, envelope);
}

/// A probe, by its function and what it looks for.
fn put_probe(out: &mut Text, name: &[u8], envelope: ProbeEnvelope)
    ensures { Adds out.old out.new (probe_text name.now envelope) }
{
    out.put(name);
    put_probed(out, envelope);
}

/// A Sendrecv, by both of its envelopes.
fn put_exchange(out: &mut Text, exchange: &Exchange)
    ensures { Adds out.old out.new (exchange_text exchange.now) }
{
    out.put(b"MPI_Sendrecv");
    put_sent(out, exchange.send());
    out.put(b", and");
    put_received(out, exchange.receive());
}

/// `MPI_Barrier on communicator 5`.
pub(crate) fn put_on(out: &mut Text, name: &[u8], comm: CommRef)
    ensures { Adds out.old out.new (on_text name.now comm) }
{
    out.put(name);
    out.put(b" on ");
    put_comm(out, comm);
}

/// The root of a call, where its kind has one.
fn put_root(out: &mut Text, root: Option<u32>)
    ensures { Adds out.old out.new (root_text root) }
{
    if let Some(root) = root {
        put_one_root(out, root);
    }
}

/// A root, by its rank in the communicator.
pub(crate) fn put_one_root(out: &mut Text, root: u32)
    ensures { Adds out.old out.new (one_root_text root) }
{
    out.put(b", root ");
    out.put_number(root as u64);
}

/// `MPI_Win_fence on window 5`, by the sort of the object.
pub(crate) fn put_on_object(out: &mut Text, name: &[u8], object: Object, comm: CommRef)
    ensures { Adds out.old out.new (on_object_text name.now object comm) }
{
    out.put(name);
    out.put(b" on ");
    put_object(out, object, comm);
}

/// `MPI_Bcast on communicator 5, root 0`, or `MPI_Ibcast` where it is nonblocking.
fn put_collective(out: &mut Text, function: CollectiveFunction, call: Collective)
    ensures { Adds out.old out.new (called_text function call) }
{
    put_on_object(out, function.name(), call.object(), call.comm());
    put_root(out, call.root());
}

/// A collective call by its function and its root, as `MPI_Bcast, root 0`.
pub fn put_kind(out: &mut Text, function: CollectiveFunction, root: Option<u32>)
    ensures { Adds out.old out.new (kind_text function root) }
{
    out.put(function.name());
    put_root(out, root);
}

/// `MPI_Waitall on 3 requests`.
fn put_of_requests(out: &mut Text, name: &[u8], count: usize)
    ensures { Adds out.old out.new (of_requests_text name.now count) }
{
    out.put(name);
    out.put(b" on ");
    out.put_number(count as u64);
    out.put(if count == 1 {
        b" request"
    } else {
        b" requests"
    });
}

/// A call by its function, with what it names. Peers and roots are ranks of the communicator, as in the trace.
pub fn put_call(out: &mut Text, call: &Call)
    ensures { Adds out.old out.new (call_text call.now) }
{
    match call {
        Call::Local => out.put(b"a call of no other rank"),
        Call::Finalize => out.put(b"MPI_Finalize"),
        Call::Send(mode, envelope) => put_send(out, send_name(*mode), envelope.envelope()),
        Call::Isend(mode, envelope) => put_send(out, immediate_name(*mode), envelope.envelope()),
        Call::Recv(envelope) => put_receive(out, b"MPI_Recv", envelope.envelope()),
        Call::Irecv(envelope) => put_receive(out, b"MPI_Irecv", envelope.envelope()),
        Call::Sendrecv(exchange) => put_exchange(out, exchange),
        Call::Wait(_) => out.put(b"MPI_Wait on a request"),
        Call::Waitall(list) => put_of_requests(out, b"MPI_Waitall", list.as_slice().len()),
        Call::Waitany(list) => put_of_requests(out, b"MPI_Waitany", list.as_slice().len()),
        Call::Waitsome(list) => put_of_requests(out, b"MPI_Waitsome", list.as_slice().len()),
        Call::Test(_) => out.put(b"MPI_Test on a request"),
        Call::Testall(list) => put_of_requests(out, b"MPI_Testall", list.as_slice().len()),
        Call::Testany(list) => put_of_requests(out, b"MPI_Testany", list.as_slice().len()),
        Call::Testsome(list) => put_of_requests(out, b"MPI_Testsome", list.as_slice().len()),
        Call::Cancel(_) => out.put(b"MPI_Cancel on a request"),
        Call::Free(_) => out.put(b"MPI_Request_free on a request"),
        Call::Collective(call) => put_collective(out, call.function(), *call),
        Call::Icollective(call) => put_collective(out, call.function(), call.call()),
        Call::Probe(envelope) => put_probe(out, b"MPI_Probe", *envelope),
        Call::SendInit(mode, envelope) => put_send(out, init_name(*mode), envelope.envelope()),
        Call::RecvInit(envelope) => put_receive(out, b"MPI_Recv_init", envelope.envelope()),
        Call::Start(_) => out.put(b"MPI_Start on a request"),
        Call::Startall(list) => put_of_requests(out, b"MPI_Startall", list.as_slice().len()),
        Call::Mprobe(envelope) => put_probe(out, b"MPI_Mprobe", *envelope),
        Call::Improbe(envelope) => put_probe(out, b"MPI_Improbe", *envelope),
        Call::Iprobe(envelope) => put_probe(out, b"MPI_Iprobe", *envelope),
        Call::Imrecv => out.put(b"MPI_Imrecv of a message"),
        Call::Unread => out.put(b"a call that is not read"),
    }
}
