//! Calls by their function.

ghost use Rattle.call_words.specs.Functions.{function_text};
ghost use Rattle.call_words.specs.Texts.{Adds};
ghost use Rattle.call_words.specs.Words.{on_object_text};
ghost use Rattle.mpi_model.specs.Kinds.{function_name, row};

use crate::calls::{immediate_name, init_name, put_on, put_on_object, send_name};
use crate::text::Text;
use mpi_model::{Call, Collective, CollectiveFunction};

/// A collective call by its function and its object.
fn put_collective_on(out: &mut Text, function: CollectiveFunction, call: Collective)
    ensures { Adds out.old out.new (on_object_text (function_name function) (row call.kind).object call.comm) }
{
    put_on_object(out, function.name(), call.object(), call.comm());
}

/// A call by its function and communicator alone, as `MPI_Send on communicator 5`: calls that differ only in
/// peers, tags, counts or requests read alike.
pub fn put_function(out: &mut Text, call: &Call)
    ensures { Adds out.old out.new (function_text call.now) }
{
    match call {
        Call::Local => out.put(b"a call of no other rank"),
        Call::Finalize => out.put(b"MPI_Finalize"),
        Call::Send(mode, envelope) => put_on(out, send_name(*mode), envelope.envelope().comm),
        Call::Isend(mode, envelope) => put_on(out, immediate_name(*mode), envelope.envelope().comm),
        Call::Recv(envelope) => put_on(out, b"MPI_Recv", envelope.envelope().comm),
        Call::Irecv(envelope) => put_on(out, b"MPI_Irecv", envelope.envelope().comm),
        Call::Sendrecv(exchange) => put_on(out, b"MPI_Sendrecv", exchange.send().comm),
        Call::Wait(_) => out.put(b"MPI_Wait"),
        Call::Waitall(_) => out.put(b"MPI_Waitall"),
        Call::Waitany(_) => out.put(b"MPI_Waitany"),
        Call::Waitsome(_) => out.put(b"MPI_Waitsome"),
        Call::Test(_) => out.put(b"MPI_Test"),
        Call::Testall(_) => out.put(b"MPI_Testall"),
        Call::Testany(_) => out.put(b"MPI_Testany"),
        Call::Testsome(_) => out.put(b"MPI_Testsome"),
        Call::Cancel(_) => out.put(b"MPI_Cancel"),
        Call::Free(_) => out.put(b"MPI_Request_free"),
        Call::Collective(call) => put_collective_on(out, call.function(), *call),
        Call::Icollective(call) => put_collective_on(out, call.function(), call.call()),
        Call::Probe(envelope) => put_on(out, b"MPI_Probe", envelope.comm()),
        Call::SendInit(mode, envelope) => put_on(out, init_name(*mode), envelope.envelope().comm),
        Call::RecvInit(envelope) => put_on(out, b"MPI_Recv_init", envelope.envelope().comm),
        Call::Start(_) => out.put(b"MPI_Start"),
        Call::Startall(_) => out.put(b"MPI_Startall"),
        Call::Mprobe(envelope) => put_on(out, b"MPI_Mprobe", envelope.comm()),
        Call::Improbe(envelope) => put_on(out, b"MPI_Improbe", envelope.comm()),
        Call::Iprobe(envelope) => put_on(out, b"MPI_Iprobe", envelope.comm()),
        Call::Imrecv => out.put(b"MPI_Imrecv"),
        Call::Unread => out.put(b"a call that is not read"),
    }
}
