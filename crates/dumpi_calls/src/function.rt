//! The functions of the profile, by their names.

ghost use Rattle.std.specs.Prelude.{◌≡◌, true, false};
ghost use Rattle.std.specs.Str.{bytes_eq};
ghost use Rattle.dumpi_calls.specs.Rows.{called_of, collective_named, completion_named, ending_named, first_called, function_in, function_named, function_of_called, init_named, is_called, is_long_init, is_long_receive, is_long_send, is_unread_name, isend_named, matched_named, message_named, other_named, persistent_named, receive_named, send_named, short_name, start_named, test_named, unread_named};

use crate::usual_functions::usual_function;
use dumpi_text::RawCall;
use mpi_model::{CollectiveFunction, Kind, Mode};

/// A function of MPI, as the walk distinguishes them.
#[derive(Clone, Copy)]
pub enum Function {
    /// `MPI_Send`, `MPI_Ssend`, `MPI_Bsend`, `MPI_Rsend`.
    Send(Mode),
    /// `MPI_Isend`, `MPI_Issend`, `MPI_Ibsend`, `MPI_Irsend`.
    Isend(Mode),
    Recv,
    Irecv,
    Sendrecv,
    /// `MPI_Sendrecv_replace`: what is received takes the place of what is sent.
    SendrecvReplace,
    Probe,
    /// `MPI_Iprobe`. A call of it that doesn't say what it looks for is local.
    Iprobe,
    Wait,
    Waitall,
    Waitany,
    Waitsome,
    Test,
    Testall,
    Testany,
    Testsome,
    Cancel,
    /// `MPI_Request_free`.
    Free,
    /// A blocking function of collective communication (MPI 4.0, chapter 6).
    Collective(Kind),
    /// A nonblocking function of collective communication (MPI 4.0, 6.12).
    Icollective(Kind),
    /// Any other collective function, on a communicator, a window or a file (MPI 4.0, chapters 7, 8,
    /// 11, 12 and 14): of a kind, and whether it is nonblocking. A call of it that doesn't name its object is local.
    OnObject(Kind, bool),
    /// `MPI_Send_init`, `MPI_Ssend_init`, `MPI_Bsend_init`, `MPI_Rsend_init`.
    SendInit(Mode),
    RecvInit,
    Start,
    Startall,
    Mprobe,
    Improbe,
    /// `MPI_Imrecv`, also with `_c` behind its name.
    Imrecv,
    /// A function that moves messages and that isn't read.
    Unread,
    Finalize,
    /// Every other function: its calls are local.
    Other,
}

/// Whether two byte strings are the same. Inlined, so that a literal's bytes are compared at once.
#[inline(always)]
#[tactic(auto, using(crate::proofs::Names::not_as_long, crate::proofs::Names::same_whole))]
fn same(name: &[u8], word: &[u8]) -> bool
    ensures { result ≡ bytes_eq name.now word.now }
{
    if name.len() != word.len() {
        return false;
    }
    match name.strip_prefix(word) {
        Some(_) => true,
        None => false,
    }
}

/// Whether a name is this word, byte for byte.
#[inline(always)]
pub fn is(name: &[u8], word: &str) -> bool
    ensures { result ≡ bytes_eq name.now word.now }
{
    same(name, word.as_bytes())
}

/// A blocking send.
fn send_of(name: &[u8]) -> Option<Function>
    ensures { result ≡ send_named name.now }
{
    if is(name, "MPI_Send") {
        Some(Function::Send(Mode::Standard))
    } else if is(name, "MPI_Ssend") {
        Some(Function::Send(Mode::Synchronous))
    } else if is(name, "MPI_Bsend") {
        Some(Function::Send(Mode::Buffered))
    } else if is(name, "MPI_Rsend") {
        Some(Function::Send(Mode::Ready))
    } else {
        None
    }
}

/// A nonblocking send.
fn isend_of(name: &[u8]) -> Option<Function>
    ensures { result ≡ isend_named name.now }
{
    if is(name, "MPI_Isend") {
        Some(Function::Isend(Mode::Standard))
    } else if is(name, "MPI_Issend") {
        Some(Function::Isend(Mode::Synchronous))
    } else if is(name, "MPI_Ibsend") {
        Some(Function::Isend(Mode::Buffered))
    } else if is(name, "MPI_Irsend") {
        Some(Function::Isend(Mode::Ready))
    } else {
        None
    }
}

/// A receive, a send and a receive at once, or a probe.
fn receive_of(name: &[u8]) -> Option<Function>
    ensures { result ≡ receive_named name.now }
{
    if is(name, "MPI_Recv") {
        Some(Function::Recv)
    } else if is(name, "MPI_Irecv") {
        Some(Function::Irecv)
    } else if is(name, "MPI_Sendrecv") {
        Some(Function::Sendrecv)
    } else if is(name, "MPI_Sendrecv_replace") {
        Some(Function::SendrecvReplace)
    } else if is(name, "MPI_Probe") {
        Some(Function::Probe)
    } else if is(name, "MPI_Iprobe") {
        Some(Function::Iprobe)
    } else {
        None
    }
}

/// A call that waits for requests.
fn completion_of(name: &[u8]) -> Option<Function>
    ensures { result ≡ completion_named name.now }
{
    if is(name, "MPI_Wait") {
        Some(Function::Wait)
    } else if is(name, "MPI_Waitall") {
        Some(Function::Waitall)
    } else if is(name, "MPI_Waitany") {
        Some(Function::Waitany)
    } else if is(name, "MPI_Waitsome") {
        Some(Function::Waitsome)
    } else {
        None
    }
}

/// A call that asks whether requests are complete.
fn test_of(name: &[u8]) -> Option<Function>
    ensures { result ≡ test_named name.now }
{
    if is(name, "MPI_Test") {
        Some(Function::Test)
    } else if is(name, "MPI_Testall") {
        Some(Function::Testall)
    } else if is(name, "MPI_Testany") {
        Some(Function::Testany)
    } else if is(name, "MPI_Testsome") {
        Some(Function::Testsome)
    } else {
        None
    }
}

/// A call that gives up a request.
fn ending_of(name: &[u8]) -> Option<Function>
    ensures { result ≡ ending_named name.now }
{
    if is(name, "MPI_Cancel") {
        Some(Function::Cancel)
    } else if is(name, "MPI_Request_free") {
        Some(Function::Free)
    } else {
        None
    }
}

/// A call that makes a persistent request.
fn init_of(name: &[u8]) -> Option<Function>
    ensures { result ≡ init_named name.now }
{
    if is(name, "MPI_Send_init") {
        Some(Function::SendInit(Mode::Standard))
    } else if is(name, "MPI_Ssend_init") {
        Some(Function::SendInit(Mode::Synchronous))
    } else if is(name, "MPI_Bsend_init") {
        Some(Function::SendInit(Mode::Buffered))
    } else if is(name, "MPI_Rsend_init") {
        Some(Function::SendInit(Mode::Ready))
    } else if is(name, "MPI_Recv_init") {
        Some(Function::RecvInit)
    } else {
        None
    }
}

/// A call that starts persistent requests.
fn start_of(name: &[u8]) -> Option<Function>
    ensures { result ≡ start_named name.now }
{
    if is(name, "MPI_Start") {
        Some(Function::Start)
    } else if is(name, "MPI_Startall") {
        Some(Function::Startall)
    } else {
        None
    }
}

/// A matched probe, or the receive of what one took.
fn matched_of(name: &[u8]) -> Option<Function>
    ensures { result ≡ matched_named name.now }
{
    if is(name, "MPI_Mprobe") {
        Some(Function::Mprobe)
    } else if is(name, "MPI_Improbe") {
        Some(Function::Improbe)
    } else if is(name, "MPI_Imrecv") {
        Some(Function::Imrecv)
    } else if is(name, "MPI_Imrecv_c") {
        Some(Function::Imrecv)
    } else {
        None
    }
}

/// A call of persistent requests or of matched probes.
fn persistent_of(name: &[u8]) -> Option<Function>
    ensures { result ≡ persistent_named name.now }
{
    match init_of(name) {
        Some(function) => Some(function),
        None => match start_of(name) {
            Some(function) => Some(function),
            None => matched_of(name),
        },
    }
}

/// A name without a `_c` behind it.
fn short_of(name: &[u8]) -> &[u8]
    ensures { result.now ≡ short_name name.now }
{
    match name.strip_suffix(b"_c") {
        Some(short) => short,
        None => name,
    }
}

/// Whether a collective function has this name, of which `short` is what stands before a `_c`. That may stand behind
/// the name of a function that has a form with counts of 64 bits.
fn is_called(name: &[u8], short: &[u8], function: CollectiveFunction) -> bool
    requires { short.now ≡ short_name name.now }
    ensures { result ≡ is_called name.now function }
{
    if function.kind().row().has_long_form {
        same(short, function.name())
    } else {
        same(name, function.name())
    }
}

/// The function of a kind that has this name.
fn called_of(name: &[u8], short: &[u8], kind: Kind) -> Option<CollectiveFunction>
    requires { short.now ≡ short_name name.now }
    ensures { result ≡ called_of name.now kind }
{
    let blocking = CollectiveFunction::new(kind, false).unwrap();
    if is_called(name, short, blocking) {
        return Some(blocking);
    }
    match CollectiveFunction::new(kind, true) {
        Some(nonblocking) => is_called(name, short, nonblocking).then_some(nonblocking),
        None => None,
    }
}

/// The first function of these kinds that has this name.
fn first_called(name: &[u8], short: &[u8], kinds: &[Kind]) -> Option<CollectiveFunction>
    requires { short.now ≡ short_name name.now }
    ensures { result ≡ first_called name.now kinds.now }
{
    for kind in kinds {
        if let Some(function) = called_of(name, short, *kind) {
            return Some(function);
        }
    }
    None
}

/// A collective communication, or a collective function on an object.
fn function_of_called(function: CollectiveFunction) -> Function
    ensures { result ≡ function_of_called function }
{
    let kind = function.kind();
    if kind.row().is_communication {
        if function.is_nonblocking() {
            Function::Icollective(kind)
        } else {
            Function::Collective(kind)
        }
    } else {
        Function::OnObject(kind, function.is_nonblocking())
    }
}

/// A collective function.
#[tactic(auto, unfolding(crate::specs::Rows::collective_named))]
fn collective_of(name: &[u8]) -> Option<Function>
    ensures { result ≡ collective_named name.now }
{
    if is(name, "MPI_Ibarrier_c") {
        return None;
    }
    match first_called(name, short_of(name), Kind::all()) {
        Some(function) => Some(function_of_called(function)),
        None => None,
    }
}

/// Whether a name is of a nonblocking exchange or of partitioned communication.
fn is_unread_name(name: &[u8]) -> bool
    ensures { result ≡ is_unread_name name.now }
{
    is(name, "MPI_Isendrecv")
        || is(name, "MPI_Isendrecv_replace")
        || is(name, "MPI_Psend_init")
        || is(name, "MPI_Precv_init")
}

/// Whether a name is of a send with counts of 64 bits.
fn is_long_send(name: &[u8]) -> bool
    ensures { result ≡ is_long_send name.now }
{
    is(name, "MPI_Send_c")
        || is(name, "MPI_Ssend_c")
        || is(name, "MPI_Bsend_c")
        || is(name, "MPI_Rsend_c")
        || is(name, "MPI_Isend_c")
        || is(name, "MPI_Issend_c")
        || is(name, "MPI_Ibsend_c")
        || is(name, "MPI_Irsend_c")
}

/// Whether a name is of a receive or an exchange with such counts.
fn is_long_receive(name: &[u8]) -> bool
    ensures { result ≡ is_long_receive name.now }
{
    is(name, "MPI_Recv_c")
        || is(name, "MPI_Irecv_c")
        || is(name, "MPI_Sendrecv_c")
        || is(name, "MPI_Sendrecv_replace_c")
        || is(name, "MPI_Isendrecv_c")
        || is(name, "MPI_Isendrecv_replace_c")
}

/// Whether a name is of a persistent request with such counts.
fn is_long_init(name: &[u8]) -> bool
    ensures { result ≡ is_long_init name.now }
{
    is(name, "MPI_Send_init_c")
        || is(name, "MPI_Ssend_init_c")
        || is(name, "MPI_Bsend_init_c")
        || is(name, "MPI_Rsend_init_c")
        || is(name, "MPI_Recv_init_c")
}

/// A function that moves messages and that no row reads.
fn unread_of(name: &[u8]) -> Option<Function>
    ensures { result ≡ unread_named name.now }
{
    if is_unread_name(name) || is_long_send(name) || is_long_receive(name) || is_long_init(name) {
        Some(Function::Unread)
    } else {
        None
    }
}

/// Every other function.
fn other_of(name: &[u8]) -> Function
    ensures { result ≡ other_named name.now }
{
    if is(name, "MPI_Finalize") {
        Function::Finalize
    } else {
        Function::Other
    }
}

/// A call of a message or of requests.
fn message_of(name: &[u8]) -> Option<Function>
    ensures { result ≡ message_named name.now }
{
    match send_of(name) {
        Some(function) => Some(function),
        None => match isend_of(name) {
            Some(function) => Some(function),
            None => match receive_of(name) {
                Some(function) => Some(function),
                None => match completion_of(name) {
                    Some(function) => Some(function),
                    None => test_of(name),
                },
            },
        },
    }
}

/// The function of a name, looked for among all.
#[tactic(auto, unfolding(crate::specs::Rows::function_named))]
fn any_function(name: &[u8]) -> Function
    ensures { result ≡ function_named name.now }
{
    match message_of(name) {
        Some(function) => function,
        None => match collective_of(name) {
            Some(function) => function,
            None => match ending_of(name) {
                Some(function) => function,
                None => match persistent_of(name) {
                    Some(function) => function,
                    None => match unread_of(name) {
                        Some(function) => function,
                        None => other_of(name),
                    },
                },
            },
        },
    }
}

/// The function of a name.
pub fn function_of(name: &[u8]) -> Function
    ensures { result ≡ function_named name.now }
{
    match usual_function(name) {
        Some(function) => function,
        None => any_function(name),
    }
}

/// The function of a call. If another thread ended the reading at this call, the call isn't read, whatever its name is.
pub fn function_in(raw: &RawCall) -> Function
    ensures { result ≡ function_in raw.now }
{
    if raw.threads() {
        Function::Unread
    } else {
        function_of(raw.name())
    }
}
