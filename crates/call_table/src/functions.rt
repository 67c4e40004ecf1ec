//! The names of functions, where no text has the call: packed pieces keep what a call is, and no name.

use mpi_model::{Call, Mode};

/// The function of a blocking send of a mode (MPI 4.0, 3.4).
fn send_name(mode: Mode) -> &'static [u8] {
    match mode {
        Mode::Standard => b"MPI_Send",
        Mode::Synchronous => b"MPI_Ssend",
        Mode::Buffered => b"MPI_Bsend",
        Mode::Ready => b"MPI_Rsend",
    }
}

/// The function of a nonblocking send of a mode (MPI 4.0, 3.7.2).
fn immediate_name(mode: Mode) -> &'static [u8] {
    match mode {
        Mode::Standard => b"MPI_Isend",
        Mode::Synchronous => b"MPI_Issend",
        Mode::Buffered => b"MPI_Ibsend",
        Mode::Ready => b"MPI_Irsend",
    }
}

/// The function that makes a persistent send of a mode (MPI 4.0, 3.9).
fn init_name(mode: Mode) -> &'static [u8] {
    match mode {
        Mode::Standard => b"MPI_Send_init",
        Mode::Synchronous => b"MPI_Ssend_init",
        Mode::Buffered => b"MPI_Bsend_init",
        Mode::Ready => b"MPI_Rsend_init",
    }
}

/// The name of a call's function, by what the call is; `local` of a call of no other rank.
pub(crate) fn function_name(call: &Call) -> &'static [u8] {
    match call {
        Call::Finalize => b"MPI_Finalize",
        Call::Send(mode, _) => send_name(*mode),
        Call::Isend(mode, _) => immediate_name(*mode),
        Call::Recv(_) => b"MPI_Recv",
        Call::Irecv(_) => b"MPI_Irecv",
        Call::Sendrecv(_) => b"MPI_Sendrecv",
        Call::Wait(_) => b"MPI_Wait",
        Call::Waitall(_) => b"MPI_Waitall",
        Call::Waitany(_) => b"MPI_Waitany",
        Call::Waitsome(_) => b"MPI_Waitsome",
        Call::Test(_) => b"MPI_Test",
        Call::Testall(_) => b"MPI_Testall",
        Call::Testany(_) => b"MPI_Testany",
        Call::Testsome(_) => b"MPI_Testsome",
        Call::Cancel(_) => b"MPI_Cancel",
        Call::Free(_) => b"MPI_Request_free",
        Call::Collective(call) => call.function().name(),
        Call::Icollective(call) => call.function().name(),
        Call::Probe(_) => b"MPI_Probe",
        Call::SendInit(mode, _) => init_name(*mode),
        Call::RecvInit(_) => b"MPI_Recv_init",
        Call::Start(_) => b"MPI_Start",
        Call::Startall(_) => b"MPI_Startall",
        Call::Mprobe(_) => b"MPI_Mprobe",
        Call::Improbe(_) => b"MPI_Improbe",
        Call::Iprobe(_) => b"MPI_Iprobe",
        Call::Imrecv => b"MPI_Imrecv",
        Call::Local => b"local",
        Call::Unread => b"unread",
    }
}
