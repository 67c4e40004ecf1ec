//! What calls are handed to.

ghost use Rattle.std.specs.Prelude.{◌≡◌, OnErr, OnOk};
ghost use Rattle.dumpi_calls.specs.Rows.{OnCancel, OnCollective, OnIcollective, OnImprobe, OnImrecv, OnIprobe, OnIrecv, OnIsend, OnMprobe, OnOther, OnProbe, OnRecv, OnRecvInit, OnRequestFree, OnSend, OnSendInit, OnSendrecv, OnStart, OnStartall, OnTest, OnTestall, OnTestany, OnTestsome, OnUnread, OnWait, OnWaitall, OnWaitany, OnWaitsome, iprobe_told, object_told, row};
ghost use Rattle.dumpi_calls.specs.Seen.{Seen, seen, seen_by};

use crate::function::Function;
use crate::typing::TypedCall;
use mpi_model::{Call, Exit, Stamp};

/// A receiver of the calls of a text, with one callback for each kind of function.
///
/// A callback is given the call, when it was entered, and how it returned, if it did: the last call of a text can lack
/// its exit, and no other. The callback owns the call, so a sink can keep lists of requests without a copy.
///
/// The sink defines by `step` which state a call leaves. A callback that takes the call leaves that state; one that
/// refuses it leaves the sink as it was. So the contract of [`walk`](crate::walk) can say in which state it leaves any
/// sink.
///
/// # A sink of one's own
///
/// How many elements a rank was sent. `elements_after` is a definition in the `specs/` of the sink's crate: the
/// elements with one call more.
///
/// ```rust
/// struct SentTo {
///     rank: u32,
///     elements: u64,
/// }
///
/// impl SentTo {
///     fn add(&mut self, call: Call)
///         ensures { self.new ≡
///             record { rank = self.old.rank; elements = elements_after self.old.rank self.old.elements call } }
///     {
///         let sent = match &call {
///             Call::Send(_, envelope) | Call::Isend(_, envelope) => envelope.envelope(),
///             Call::Sendrecv(exchange) => exchange.send(),
///             _ => return,
///         };
///         match sent.peer {
///             Peer::Rank(rank) if rank == self.rank => {
///                 self.elements = self.elements.saturating_add(u64::from(sent.count));
///             }
///             _ => {}
///         }
///     }
/// }
///
/// impl CallSink for SentTo {
///     type Fault = Infallible;
///
///     ghost step = { λ sink seen.
///         record { rank = sink.rank; elements = elements_after sink.rank sink.elements seen.call } };
///
///     fn on_send(&mut self, call: Call, _enter: Stamp, _exit: Option<Exit>) -> Result<(), Infallible> {
///         self.add(call);
///         Ok(())
///     }
///
///     // and each of the other twenty-seven likewise
/// }
///
/// let mut sink = SentTo { rank: 1, elements: 0 };
/// let walked = walk(alloc, reader, &mut sink)?;
/// ```
///
/// It stands whole, with `elements_after` and with a bound on its calls, in `crates/reading_tests`, where it is proved
/// and run.
pub trait CallSink {
    /// Why the sink refuses a call.
    type Fault: Drop;

    /// The state that a call leaves, by the state before it.
    ghost step: { Self → Seen → Self };

    /// `MPI_Send`, `MPI_Ssend`, `MPI_Bsend`, `MPI_Rsend`.
    fn on_send(&mut self, call: Call, enter: Stamp, exit: Option<Exit>) -> Result<(), Self::Fault>
        ensures ok { OnOk result (self.new ≡ step self.old (seen OnSend call enter exit)) }
        ensures err { OnErr result (self.new ≡ self.old) };

    /// `MPI_Isend`, `MPI_Issend`, `MPI_Ibsend`, `MPI_Irsend`.
    fn on_isend(&mut self, call: Call, enter: Stamp, exit: Option<Exit>) -> Result<(), Self::Fault>
        ensures ok { OnOk result (self.new ≡ step self.old (seen OnIsend call enter exit)) }
        ensures err { OnErr result (self.new ≡ self.old) };

    /// `MPI_Recv`.
    fn on_recv(&mut self, call: Call, enter: Stamp, exit: Option<Exit>) -> Result<(), Self::Fault>
        ensures ok { OnOk result (self.new ≡ step self.old (seen OnRecv call enter exit)) }
        ensures err { OnErr result (self.new ≡ self.old) };

    /// `MPI_Irecv`.
    fn on_irecv(&mut self, call: Call, enter: Stamp, exit: Option<Exit>) -> Result<(), Self::Fault>
        ensures ok { OnOk result (self.new ≡ step self.old (seen OnIrecv call enter exit)) }
        ensures err { OnErr result (self.new ≡ self.old) };

    /// `MPI_Sendrecv`, `MPI_Sendrecv_replace`.
    fn on_sendrecv(
        &mut self,
        call: Call,
        enter: Stamp,
        exit: Option<Exit>,
    ) -> Result<(), Self::Fault>
        ensures ok { OnOk result (self.new ≡ step self.old (seen OnSendrecv call enter exit)) }
        ensures err { OnErr result (self.new ≡ self.old) };

    /// `MPI_Probe`.
    fn on_probe(&mut self, call: Call, enter: Stamp, exit: Option<Exit>) -> Result<(), Self::Fault>
        ensures ok { OnOk result (self.new ≡ step self.old (seen OnProbe call enter exit)) }
        ensures err { OnErr result (self.new ≡ self.old) };

    /// `MPI_Wait`.
    fn on_wait(&mut self, call: Call, enter: Stamp, exit: Option<Exit>) -> Result<(), Self::Fault>
        ensures ok { OnOk result (self.new ≡ step self.old (seen OnWait call enter exit)) }
        ensures err { OnErr result (self.new ≡ self.old) };

    /// `MPI_Waitall`.
    fn on_waitall(
        &mut self,
        call: Call,
        enter: Stamp,
        exit: Option<Exit>,
    ) -> Result<(), Self::Fault>
        ensures ok { OnOk result (self.new ≡ step self.old (seen OnWaitall call enter exit)) }
        ensures err { OnErr result (self.new ≡ self.old) };

    /// `MPI_Waitany`.
    fn on_waitany(
        &mut self,
        call: Call,
        enter: Stamp,
        exit: Option<Exit>,
    ) -> Result<(), Self::Fault>
        ensures ok { OnOk result (self.new ≡ step self.old (seen OnWaitany call enter exit)) }
        ensures err { OnErr result (self.new ≡ self.old) };

    /// `MPI_Waitsome`.
    fn on_waitsome(
        &mut self,
        call: Call,
        enter: Stamp,
        exit: Option<Exit>,
    ) -> Result<(), Self::Fault>
        ensures ok { OnOk result (self.new ≡ step self.old (seen OnWaitsome call enter exit)) }
        ensures err { OnErr result (self.new ≡ self.old) };

    /// `MPI_Test`.
    fn on_test(&mut self, call: Call, enter: Stamp, exit: Option<Exit>) -> Result<(), Self::Fault>
        ensures ok { OnOk result (self.new ≡ step self.old (seen OnTest call enter exit)) }
        ensures err { OnErr result (self.new ≡ self.old) };

    /// `MPI_Testall`.
    fn on_testall(
        &mut self,
        call: Call,
        enter: Stamp,
        exit: Option<Exit>,
    ) -> Result<(), Self::Fault>
        ensures ok { OnOk result (self.new ≡ step self.old (seen OnTestall call enter exit)) }
        ensures err { OnErr result (self.new ≡ self.old) };

    /// `MPI_Testany`.
    fn on_testany(
        &mut self,
        call: Call,
        enter: Stamp,
        exit: Option<Exit>,
    ) -> Result<(), Self::Fault>
        ensures ok { OnOk result (self.new ≡ step self.old (seen OnTestany call enter exit)) }
        ensures err { OnErr result (self.new ≡ self.old) };

    /// `MPI_Testsome`.
    fn on_testsome(
        &mut self,
        call: Call,
        enter: Stamp,
        exit: Option<Exit>,
    ) -> Result<(), Self::Fault>
        ensures ok { OnOk result (self.new ≡ step self.old (seen OnTestsome call enter exit)) }
        ensures err { OnErr result (self.new ≡ self.old) };

    /// `MPI_Cancel`.
    fn on_cancel(&mut self, call: Call, enter: Stamp, exit: Option<Exit>) -> Result<(), Self::Fault>
        ensures ok { OnOk result (self.new ≡ step self.old (seen OnCancel call enter exit)) }
        ensures err { OnErr result (self.new ≡ self.old) };

    /// `MPI_Request_free`.
    fn on_request_free(
        &mut self,
        call: Call,
        enter: Stamp,
        exit: Option<Exit>,
    ) -> Result<(), Self::Fault>
        ensures ok { OnOk result (self.new ≡ step self.old (seen OnRequestFree call enter exit)) }
        ensures err { OnErr result (self.new ≡ self.old) };

    /// A blocking collective call of a [`Kind`](mpi_model::Kind), where it names its object; also with `_c` behind its
    /// name.
    fn on_collective(
        &mut self,
        call: Call,
        enter: Stamp,
        exit: Option<Exit>,
    ) -> Result<(), Self::Fault>
        ensures ok { OnOk result (self.new ≡ step self.old (seen OnCollective call enter exit)) }
        ensures err { OnErr result (self.new ≡ self.old) };

    /// A nonblocking collective call of a [`Kind`](mpi_model::Kind): it is complete when its request is.
    fn on_icollective(
        &mut self,
        call: Call,
        enter: Stamp,
        exit: Option<Exit>,
    ) -> Result<(), Self::Fault>
        ensures ok { OnOk result (self.new ≡ step self.old (seen OnIcollective call enter exit)) }
        ensures err { OnErr result (self.new ≡ self.old) };

    /// `MPI_Send_init`, `MPI_Ssend_init`, `MPI_Bsend_init`, `MPI_Rsend_init`.
    fn on_send_init(
        &mut self,
        call: Call,
        enter: Stamp,
        exit: Option<Exit>,
    ) -> Result<(), Self::Fault>
        ensures ok { OnOk result (self.new ≡ step self.old (seen OnSendInit call enter exit)) }
        ensures err { OnErr result (self.new ≡ self.old) };

    /// `MPI_Recv_init`.
    fn on_recv_init(
        &mut self,
        call: Call,
        enter: Stamp,
        exit: Option<Exit>,
    ) -> Result<(), Self::Fault>
        ensures ok { OnOk result (self.new ≡ step self.old (seen OnRecvInit call enter exit)) }
        ensures err { OnErr result (self.new ≡ self.old) };

    /// `MPI_Start`.
    fn on_start(&mut self, call: Call, enter: Stamp, exit: Option<Exit>) -> Result<(), Self::Fault>
        ensures ok { OnOk result (self.new ≡ step self.old (seen OnStart call enter exit)) }
        ensures err { OnErr result (self.new ≡ self.old) };

    /// `MPI_Startall`.
    fn on_startall(
        &mut self,
        call: Call,
        enter: Stamp,
        exit: Option<Exit>,
    ) -> Result<(), Self::Fault>
        ensures ok { OnOk result (self.new ≡ step self.old (seen OnStartall call enter exit)) }
        ensures err { OnErr result (self.new ≡ self.old) };

    /// `MPI_Mprobe`.
    fn on_mprobe(&mut self, call: Call, enter: Stamp, exit: Option<Exit>) -> Result<(), Self::Fault>
        ensures ok { OnOk result (self.new ≡ step self.old (seen OnMprobe call enter exit)) }
        ensures err { OnErr result (self.new ≡ self.old) };

    /// `MPI_Improbe`.
    fn on_improbe(
        &mut self,
        call: Call,
        enter: Stamp,
        exit: Option<Exit>,
    ) -> Result<(), Self::Fault>
        ensures ok { OnOk result (self.new ≡ step self.old (seen OnImprobe call enter exit)) }
        ensures err { OnErr result (self.new ≡ self.old) };

    /// `MPI_Iprobe`, where the call says what it looks for.
    fn on_iprobe(&mut self, call: Call, enter: Stamp, exit: Option<Exit>) -> Result<(), Self::Fault>
        ensures ok { OnOk result (self.new ≡ step self.old (seen OnIprobe call enter exit)) }
        ensures err { OnErr result (self.new ≡ self.old) };

    /// `MPI_Imrecv`, also with `_c` behind its name.
    fn on_imrecv(&mut self, call: Call, enter: Stamp, exit: Option<Exit>) -> Result<(), Self::Fault>
        ensures ok { OnOk result (self.new ≡ step self.old (seen OnImrecv call enter exit)) }
        ensures err { OnErr result (self.new ≡ self.old) };

    /// A function that moves messages and that isn't read, or a call at which another thread ended the reading. The
    /// function's name comes first. What the rank does after it isn't known.
    fn on_unread(
        &mut self,
        name: &[u8],
        call: Call,
        enter: Stamp,
        exit: Option<Exit>,
    ) -> Result<(), Self::Fault>
        ensures ok { OnOk result (self.new ≡ step self.old (seen (OnUnread name.now) call enter exit)) }
        ensures err { OnErr result (self.new ≡ self.old) };

    /// `MPI_Finalize`, every other function, and calls that are local because they lack the parameters by which they
    /// would be read. The function's name comes first.
    fn on_other(
        &mut self,
        name: &[u8],
        call: Call,
        enter: Stamp,
        exit: Option<Exit>,
    ) -> Result<(), Self::Fault>
        ensures ok { OnOk result (self.new ≡ step self.old (seen (OnOther name.now) call enter exit)) }
        ensures err { OnErr result (self.new ≡ self.old) };
}

/// Hands on a collective call on an object; where it is local, as a call of any other function.
fn hand_on_object<S: CallSink>(
    sink: &mut S,
    name: &[u8],
    call: Call,
    enter: Stamp,
    exit: Option<Exit>,
) -> Result<(), S::Fault>
    ensures ok { OnOk result (sink.new ≡ S.step sink.old (seen (object_told name.now call) call enter exit)) }
    ensures err { OnErr result (sink.new ≡ sink.old) }
{
    match &call {
        Call::Local => sink.on_other(name, call, enter, exit),
        Call::Icollective(_) => sink.on_icollective(call, enter, exit),
        _ => sink.on_collective(call, enter, exit),
    }
}

/// Hands on an Iprobe; where it is local, as a call of any other function.
fn hand_on_iprobe<S: CallSink>(
    sink: &mut S,
    name: &[u8],
    call: Call,
    enter: Stamp,
    exit: Option<Exit>,
) -> Result<(), S::Fault>
    ensures ok { OnOk result (sink.new ≡ S.step sink.old (seen (iprobe_told name.now call) call enter exit)) }
    ensures err { OnErr result (sink.new ≡ sink.old) }
{
    match &call {
        Call::Local => sink.on_other(name, call, enter, exit),
        _ => sink.on_iprobe(call, enter, exit),
    }
}

/// Hands a call to its function's callback. Where the callback refuses it, the sink is as it was.
pub fn hand_on<S: CallSink>(
    sink: &mut S,
    function: Function,
    name: &[u8],
    typed: TypedCall,
) -> Result<(), S::Fault>
    ensures ok { OnOk result (sink.new ≡ S.step sink.old (seen_by (row function name.now) typed)) }
    ensures err { OnErr result (sink.new ≡ sink.old) }
{
    let TypedCall { call, enter, exit } = typed;
    match function {
        Function::Send(_) => sink.on_send(call, enter, exit),
        Function::Isend(_) => sink.on_isend(call, enter, exit),
        Function::Recv => sink.on_recv(call, enter, exit),
        Function::Irecv => sink.on_irecv(call, enter, exit),
        Function::Sendrecv | Function::SendrecvReplace => sink.on_sendrecv(call, enter, exit),
        Function::Probe => sink.on_probe(call, enter, exit),
        Function::Wait => sink.on_wait(call, enter, exit),
        Function::Waitall => sink.on_waitall(call, enter, exit),
        Function::Waitany => sink.on_waitany(call, enter, exit),
        Function::Waitsome => sink.on_waitsome(call, enter, exit),
        Function::Test => sink.on_test(call, enter, exit),
        Function::Testall => sink.on_testall(call, enter, exit),
        Function::Testany => sink.on_testany(call, enter, exit),
        Function::Testsome => sink.on_testsome(call, enter, exit),
        Function::Cancel => sink.on_cancel(call, enter, exit),
        Function::Free => sink.on_request_free(call, enter, exit),
        Function::Collective(_) => sink.on_collective(call, enter, exit),
        Function::Icollective(_) => sink.on_icollective(call, enter, exit),
        Function::OnObject(_, _) => hand_on_object(sink, name, call, enter, exit),
        Function::SendInit(_) => sink.on_send_init(call, enter, exit),
        Function::RecvInit => sink.on_recv_init(call, enter, exit),
        Function::Start => sink.on_start(call, enter, exit),
        Function::Startall => sink.on_startall(call, enter, exit),
        Function::Mprobe => sink.on_mprobe(call, enter, exit),
        Function::Improbe => sink.on_improbe(call, enter, exit),
        Function::Iprobe => hand_on_iprobe(sink, name, call, enter, exit),
        Function::Imrecv => sink.on_imrecv(call, enter, exit),
        Function::Unread => sink.on_unread(name, call, enter, exit),
        Function::Finalize => sink.on_other(name, call, enter, exit),
        Function::Other => sink.on_other(name, call, enter, exit),
    }
}
