//! A crew: two workers beside the owner of a node.

ghost use Rattle.std.specs.Prelude.{◌≡◌, ◌++◌, [], List, None, Some, false, IfErr, IfOk, OnErr, OnOk};
ghost use Rattle.crossbeam_channel.specs.Claims.{view, IsSeatAt};
ghost use Rattle.crossbeam_channel.specs.Ends.{receives_on, sends_on};
ghost use Rattle.mpi_model.specs.Layouts.{Parts};
ghost use Rattle.trace_crew.specs.Views.{AreSeatsAt, IsPoster, after_join, desk};
ghost use Rattle.trace_crew.specs.declared.queue.item.WorkerPost.{WorkerPost as WorkerPostValue};
ghost use Rattle.trace_crew.specs.declared.queue.item.Worker.TheVariants.{First, Second};
ghost use Rattle.trace_crew.specs.declared.queue.rule.WorkerStanding.TheVariants.{Running};
ghost use Rattle.trace_crew.specs.declared.queue.rule.SeatView.TheVariants.{Owner, Poster};
ghost use Rattle.trace_crew.specs.Crewed.{FinishesAll, GathersAll, HasRunSome, IsCrewOut, RunsBoth};
ghost use Rattle.trace_crew.specs.Taking.{IsNew};
ghost use Rattle.trace_crew.specs.Work.{HasWorked, is_closed};
ghost use Rattle.trace_crew.specs.declared.threads.CrewFault.TheVariants.{Memory};

use crate::board::Board;
use crate::gate::Gate;
use crate::keeper::{Keeper, drain, own};
use crate::owner::{Hall, Refusal};
use crate::piece::{FaultyPiece, TextPiece};
use crate::queue::{PostReceiver, PostSender, Seat, Worker, join, make_first, make_second, open};
use crate::worker::{Stop, Worked, Working, work};
use mpi_model::Layout;
use std::alloc::{AllocError, Global};
use std::snapshot::Snapshot;
use std::sync::Wait;
use std::thread;
use std::thread::{PromisedHandle, Scope, Threads};
use thiserror::Error;
use trace_node::Node;

/// What a crew leaves.
#[derive(Drop)]
pub struct CrewOut<'a> {
    /// The join of all segments that were taken and not refused.
    pub node: Node<'a>,
    /// The pieces that gave no segments, by worker and place in its list.
    pub faults: Vec<FaultyPiece>,
    /// The segments that were not joined, in the order of taking.
    pub refused: Vec<Refusal>,
}

/// Why a crew leaves nothing.
#[derive(Clone, Copy, Debug, PartialEq, Eq, Error)]
pub enum CrewFault {
    /// A worker's thread couldn't be started.
    #[error("Y1 Worker")]
    Worker,
    /// Memory was refused for the queue, the node, or the list of the faults or of the refused segments.
    #[error("Memory")]
    Memory,
}

impl From<AllocError> for CrewFault {
    ghost from_gives = { λ _ e. e ≡ Memory };

    fn from(_error: AllocError) -> CrewFault {
        CrewFault::Memory
    }
}

/// What the threads of a crew leave.
#[derive(Drop)]
struct Ran<H> {
    receiver: PostReceiver,
    seat: Seat,
    hall: H,
    first: Worked,
    second: Worked,
}

/// What the owner keeps once it has all, and the faults of both workers.
#[derive(Drop)]
struct Left<H> {
    hall: H,
    faults: Vec<FaultyPiece>,
}

/// Two workers read their texts side by side and post the segments into a queue of eight places; the owner joins what
/// it takes into a new node, and shows answers on the board: of much that it takes some on the way, and the last. It
/// waits for the workers, and they wait for it where the queue is full. [`CrewFault`] comes where a worker's thread
/// can't be started or memory is refused: then nothing is left.
pub fn crew<'a, R: Threads + Wait + Sync, G: Gate>(
    rt: &R,
    alloc: Global,
    layout: &'a Layout,
    first: &[TextPiece],
    second: &[TextPiece],
    board: &Board<'a>,
    gate: &G,
) -> Result<CrewOut<'a>, CrewFault>
    ensures { IfOk result (λ out. IsCrewOut layout.now first.now second.now out) }
{
    let hall = Hall::new(alloc, layout, board)?;
    let left = gathered(rt, alloc, (first, second), hall, gate)?;
    Ok(out_of(left.hall, left.faults))
}

/// What a crew's owner and its workers leave, as the crew's caller gets it.
fn out_of<'s, 'a>(hall: Hall<'s, 'a>, faults: Vec<FaultyPiece>) -> CrewOut<'a>
    ensures node { result.node ≡ hall.entry.node }
    ensures faults { result.faults.items ≡ faults.items }
    ensures refused { result.refused.items ≡ hall.entry.refused.items }
{
    CrewOut {
        node: hall.node,
        faults,
        refused: hall.refused,
    }
}

/// Opens a queue, runs both workers beside the owner, and takes what is left in it.
fn gathered<R: Threads + Wait + Sync, G: Gate, H: Keeper>(
    rt: &R,
    alloc: Global,
    pieces: (&[TextPiece], &[TextPiece]),
    hall: H,
    gate: &G,
) -> Result<Left<H>, CrewFault>
    requires new { (layout : Parts) × IsNew layout (H.kept hall) }
    ensures { IfOk result (GathersAll H.kept pieces.entry.0.now pieces.entry.1.now hall) }
{
    let Ok((sender, receiver, seat)) = open(alloc) else {
        return Err(CrewFault::Memory);
    };
    let mut seat = seat;
    let first_seat = make_first(&sender, &mut seat);
    let second_seat = make_second(&sender, &mut seat);
    let seats = (seat, first_seat, second_seat);
    let ran = run(rt, alloc, &sender, receiver, seats, pieces, hall, gate)?;
    Ok(finish(rt, &sender, ran, gate)?)
}

/// Runs both workers beside the owner, and gives back what they hold.
fn run<R: Threads + Wait + Sync, G: Gate, H: Keeper>(
    rt: &R,
    alloc: Global,
    sender: &PostSender,
    receiver: PostReceiver,
    seats: (Seat, Seat, Seat),
    pieces: (&[TextPiece], &[TextPiece]),
    hall: H,
    gate: &G,
) -> Result<Ran<H>, CrewFault>
    requires channel { receives_on receiver ≡ sends_on sender.now }
    requires seat { IsSeatAt (sends_on sender.now) seats.0 × (view seats.0 ≡ Owner (desk [] Running Running)) }
    requires first { IsSeatAt (sends_on sender.now) seats.1 × (view seats.1 ≡ Poster First []) }
    requires second { IsSeatAt (sends_on sender.now) seats.2 × (view seats.2 ≡ Poster Second []) }
    ensures channel { IfOk result (λ ran. receives_on ran.receiver ≡ sends_on sender.now) }
    ensures seats { IfOk result (λ ran. AreSeatsAt (sends_on sender.now) ran.seat ran.first.seat ran.second.seat) }
    ensures ok { IfOk result (RunsBoth H.kept pieces.entry.0.now pieces.entry.1.now hall) }
{
    let (seat, one, two) = seats;
    let (first, second) = pieces;
    thread::scope(
        thread::scope_env(),
        rt,
        move |scope| -> Result<Ran<H>, CrewFault>
            requires channel { receives_on receiver ≡ sends_on sender.now }
            requires seat { IsSeatAt (sends_on sender.now) seat × (view seat ≡ Owner (desk [] Running Running)) }
            requires first { IsSeatAt (sends_on sender.now) one × (view one ≡ Poster First []) }
            requires second { IsSeatAt (sends_on sender.now) two × (view two ≡ Poster Second []) }
            ensures channel { IfOk result (λ ran. receives_on ran.receiver ≡ sends_on sender.entry.now) }
            ensures seats { IfOk result (λ ran. AreSeatsAt (sends_on sender.entry.now) ran.seat ran.first.seat ran.second.seat) }
            ensures ok { IfOk result (RunsBoth H.kept first.entry.now second.entry.now hall) }
        {
            let mut seat = seat;
            let mut hall = hall;
            let started = start(scope, rt, alloc, sender, Worker::First, one, first, gate)?;
            let other = start(scope, rt, alloc, sender, Worker::Second, two, second, gate)?;
            own(rt, &receiver, &mut seat, &mut hall, gate)?;
            let first = started.join(rt);
            let second = other.join(rt);
            Ok(Ran {
                receiver,
                seat,
                hall,
                first,
                second,
            })
        },
    )
}

/// Starts a worker on a thread of the scope.
fn start<'s, E, R: Wait + Sync, G: Gate>(
    scope: &Scope<'s, E>,
    rt: &'s R,
    alloc: Global,
    sender: &'s PostSender,
    worker: Worker,
    seat: Seat,
    pieces: &'s [TextPiece],
    gate: &'s G,
) -> Result<PromisedHandle<Worked, Working<'s>>, CrewFault>
    requires seat { IsSeatAt (sends_on sender.now) seat }
    requires new { view seat ≡ Poster worker [] }
    ensures queue { IfOk result (λ handle. handle.promise.queue.value ≡ sender.now) }
    ensures worker { IfOk result (λ handle. handle.promise.worker ≡ worker) }
    ensures pieces { IfOk result (λ handle. handle.promise.pieces.now ≡ pieces.now) }
    ensures err { IfErr result (λ fault. fault ≡ CrewFault.Worker) }
{
    let promise = Working {
        queue: Snapshot::of(sender),
        worker,
        pieces,
    };
    match scope.spawn_with(
        promise,
        move || -> Worked
            requires { IsSeatAt (sends_on sender.now) seat × (view seat ≡ Poster worker []) }
            ensures seat { IsSeatAt (sends_on sender.entry.now) result.seat }
            ensures worked { HasWorked worker pieces.entry.now (view result.seat) result.faults.items result.stop }
        { work(rt, alloc, sender, worker, seat, pieces, gate) },
    ) {
        Ok(handle) => Ok(handle),
        Err(_) => Err(CrewFault::Worker),
    }
}

/// That a worker has read all its texts, or that it had no memory to note a fault.
fn all_read(stop: Option<Stop>) -> Result<(), AllocError>
    requires { is_closed stop ≡ false }
    ensures ok { OnOk result (stop ≡ None) }
    ensures err { OnErr result (stop ≡ Some Stop.Memory) }
{
    match stop {
        None => Ok(()),
        Some(Stop::Memory) => Err(AllocError),
        // the owner leaves after it
        Some(Stop::Closed) => unreachable!(),
    }
}

/// The same of both workers.
fn both_read(first: Option<Stop>, second: Option<Stop>) -> Result<(), AllocError>
    requires first { is_closed first ≡ false }
    requires second { is_closed second ≡ false }
    ensures { OnOk result ((first ≡ None) × (second ≡ None)) }
{
    all_read(first)?;
    all_read(second)
}

/// Joins the seats of both workers, and takes what is left. By then each of the two ends that the owner
/// took is seen to be of a worker of its own: so neither found the queue closed.
fn finish<R: Wait, G: Gate, H: Keeper>(
    rt: &R,
    sender: &PostSender,
    ran: Ran<H>,
    gate: &G,
) -> Result<Left<H>, AllocError>
    requires channel { receives_on ran.receiver ≡ sends_on sender.now }
    requires seats { AreSeatsAt (sends_on sender.now) ran.seat ran.first.seat ran.second.seat }
    requires run { HasRunSome ran.seat (H.kept ran.hall) ran.first ran.second }
    ensures { IfOk result (FinishesAll H.kept ran) }
{
    let Ran {
        receiver,
        mut seat,
        mut hall,
        first,
        second,
    } = ran;
    join_both(sender, &mut seat, first.seat, second.seat);
    drain(rt, &receiver, &mut seat, &mut hall, gate)?;
    both_read(first.stop, second.stop)?;
    // (a node that stays stale for want of memory is what the crew leaves then)
    let _ = hall.settle(rt);
    let faults = both(first.faults, second.faults)?;
    Ok(Left { hall, faults })
}

/// Joins the seats of both workers.
fn join_both(sender: &PostSender, owner: &mut Seat, first: Seat, second: Seat)
    requires seat { IsSeatAt (sends_on sender.now) owner.old }
    requires owner { (taken : List WorkerPostValue) × (view owner.old ≡ Owner (desk taken Running Running)) }
    requires first { IsSeatAt (sends_on sender.now) first × IsPoster First (view first) }
    requires second { IsSeatAt (sends_on sender.now) second × IsPoster Second (view second) }
    ensures seat { IsSeatAt (sends_on sender.now) owner.new }
    ensures joined { view owner.new ≡ after_join (after_join (view owner.old) (view first)) (view second) }
{
    join(sender, owner, first);
    join(sender, owner, second);
}

/// The faults of the first worker, and then those of the second.
fn both(first: Vec<FaultyPiece>, second: Vec<FaultyPiece>) -> Result<Vec<FaultyPiece>, AllocError>
    ensures { IfOk result (λ all. all.items ≡ first.items ++ second.items) }
{
    let mut all = first;
    let mut more = second;
    all.append(&mut more)?;
    Ok(all)
}
