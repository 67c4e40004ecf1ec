//! The socket between two nodes, and the exchange over it.

ghost use Rattle.std.specs.Prelude.{◌≡◌, Ok, IfSome, IfOk, IfErr, OnOk};
ghost use Rattle.trace_cluster.specs.Exchange.{HaveFrames, IsOfFrame};
ghost use Rattle.trace_cluster.specs.Crews.{IsFirstEnd, IsOfMeeting, IsOwnCause, sureness_of};
ghost use Rattle.trace_cluster.specs.Meeting.{HasExchanged, HasJoined, IsMore};
ghost use Rattle.trace_cluster.specs.Stream.{OverStream, half};

use crate::exchange::{ExchangeFault, exchange_frames};
use crate::fault::ClusterFault;
use crate::peer::Participant;
use mpi_model::{Device, Read, Write};
use std::alloc::Global;
use std::net::{Net, TcpListener, TcpStream};
use std::sync::Wait;
use std::thread::Threads;
use std::{io, thread};
use trace_know::Knowledge;
use trace_wire::WireFault;

/// How many others may have connected before the first node did: each of them is sent away.
const MOST_STRANGERS: u32 = 1_024;

/// Listens on 127.0.0.1 at a port that the system gives, connects to it and accepts, in this order: both ends of one
/// connection. Only a connection with the address of the other end is accepted; any other connection from this machine
/// is closed unheard.
fn connected<R: Net<Listener = TcpListener, Stream = TcpStream>>(
    rt: &R,
) -> io::Result<(TcpStream, TcpStream)> {
    let listener = TcpListener::bind(rt, "127.0.0.1:0")?;
    let one = TcpStream::connect(rt, listener.local_addr()?)?;
    let own = one.local_addr()?;
    for _ in 0..MOST_STRANGERS {
        let (other, address) = listener.accept()?;
        if address == own {
            return Ok((one, other));
        }
    }
    Err(io::ErrorKind::ConnectionRefused.into())
}

/// Exchanges frames over a stream for a side that knows this, closes the stream, and returns what was heard. Only
/// knowledge crosses to the thread and back: the prover doesn't find by itself that a node may cross.
#[tactic(auto, using(crate::proofs::Ending::exchanged))]
fn led<S: Read + Write>(
    alloc: Global,
    know: &Knowledge,
    stream: S,
) -> Result<Knowledge, ExchangeFault>
    // over a stream whose halves tell of each other
    ensures told { OverStream (half S.left S.Read.failures) S.read_side (half S.written S.Write.failures) S.write_side
        (λ at. HasExchanged (at stream) know.now result) }

    // over any stream
    ensures framed { IfOk result (λ heard. HaveFrames know.now heard) }
    ensures unmerged { IfErr result (λ fault. IsOfFrame fault) }
{
    let mut stream = stream;
    exchange_frames(alloc, &mut stream, know)
}

/// A node after it has followed in an exchange, and whether that was refused.
#[derive(Drop)]
struct Met<N> {
    node: N,
    end: Result<(), ExchangeFault>,
}

/// Follows in an exchange.
fn followed<N: Participant>(alloc: Global, stream: TcpStream, node: N) -> Met<N>
    ensures { OnOk result.end (IsMore (N.held node) (N.held result.node)) }
{
    let mut node = node;
    let end = node.follow_over(alloc, stream);
    Met { node, end }
}

/// Runs the leader's side, which knows this, on a thread of its own, while the second node follows. Returns what the
/// first side heard, and the second node; nothing if no thread could be started.
fn meet<R: Threads + Wait + Sync, N: Participant>(
    rt: &R,
    alloc: Global,
    know: &Knowledge,
    ends: (TcpStream, TcpStream),
    follower: N,
) -> Option<(Result<Knowledge, ExchangeFault>, Met<N>)>
    ensures { IfSome result (λ met. OnOk met.1.end (IsMore (N.held follower) (N.held met.1.node))) }
{
    let (one, other) = ends;
    thread::scope(
        thread::scope_env(),
        rt,
        move |scope| -> Option<(Result<Knowledge, ExchangeFault>, Met<N>)>
            ensures { IfSome result (λ met. OnOk met.1.end (IsMore (N.held follower) (N.held met.1.node))) }
        {
            let Ok(leading) = scope.spawn(move || led(alloc, know, Device::new(one))) else {
                return None;
            };
            let met = followed(alloc, other, follower);
            Some((leading.join(rt), met))
        },
    )
}

/// Why an exchange was refused to its first side, and what became of the other: the one that surely
/// comes of its own side, and where both are as sure the first.
fn refusal_of(led: ExchangeFault, followed: Result<(), ExchangeFault>) -> ClusterFault
    ensures { IsOwnCause led followed result }
{
    match followed {
        Ok(()) => ClusterFault::Lead(led),
        Err(fault) => {
            if sureness(&led) < sureness(&fault) {
                ClusterFault::Follow(fault)
            } else {
                ClusterFault::Lead(led)
            }
        }
    }
}

/// How surely a side was refused for a cause of its own. A frame ends short only since the other side
/// closed the connection; a device can fail for that.
fn sureness(fault: &ExchangeFault) -> u8
    ensures { result ≡ sureness_of fault.now }
{
    match fault {
        ExchangeFault::Read(WireFault::Short) => 0,
        ExchangeFault::Read(WireFault::Read) | ExchangeFault::Write(WireFault::Write) => 1,
        _ => 2,
    }
}

/// Both nodes, the first with what its side heard; or why that was refused, or the other side before
/// it, else why the first node did not join it, else why the follower was refused.
#[tactic(auto, using(crate::proofs::Ending::unmerged_end, crate::proofs::Ending::followed_end, crate::proofs::Ending::refused_end))]
fn both<N: Participant>(
    leader: N,
    led: Result<Knowledge, ExchangeFault>,
    follower: Met<N>,
) -> Result<(N, N), ClusterFault>
    ensures first { IfOk result (λ nodes. IsMore (N.held leader) (N.held nodes.0)) }
    ensures joined { IfOk result (λ nodes. HasJoined (N.held leader) led (N.held nodes.0)) }
    ensures second { IfOk result (λ nodes. (nodes.1 ≡ follower.node) × (follower.end ≡ Ok tt)) }
    ensures err { IfErr result (λ fault. IsFirstEnd led follower.end fault) }
{
    let mut leader = leader;
    let known = match led {
        Ok(known) => known,
        Err(fault) => return Err(refusal_of(fault, follower.end)),
    };
    match leader.learn(&known) {
        Ok(()) => {}
        Err(fault) => return Err(ClusterFault::Lead(ExchangeFault::Merge(fault))),
    }
    match follower.end {
        Ok(()) => Ok((leader, follower.node)),
        Err(fault) => Err(ClusterFault::Follow(fault)),
    }
}

/// An exchange between two nodes over a socket of this machine: the first leads it.
#[tactic(auto, using(crate::proofs::Ending::of_meeting))]
pub(crate) fn exchange<
    R: Net<Listener = TcpListener, Stream = TcpStream> + Threads + Wait + Sync,
    N: Participant,
>(rt: &R, alloc: Global, leader: N, follower: N) -> Result<(N, N), ClusterFault>
    ensures ok { IfOk result (λ nodes. IsMore (N.held leader) (N.held nodes.0) × IsMore (N.held follower) (N.held nodes.1)) }
    ensures err { IfErr result (λ fault. IsOfMeeting fault) }
{
    let Ok(ends) = connected(rt) else {
        return Err(ClusterFault::Net);
    };
    let Some((led, followed)) = meet(rt, alloc, leader.knowledge(), ends, follower) else {
        return Err(ClusterFault::Net);
    };
    both(leader, led, followed)
}
