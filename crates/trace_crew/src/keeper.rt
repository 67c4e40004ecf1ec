//! How the owner takes.

ghost use Rattle.std.specs.Prelude.{◌≡◌, ◌≤◌, [], false, IfNone, IfOk, IfSome, OnErr, OnOk};
ghost use Rattle.crossbeam_channel.specs.Claims.{view, IsSeatAt};
ghost use Rattle.crossbeam_channel.specs.Ends.{receives_on};
ghost use Rattle.trace_crew.specs.Views.{IsOwner, after_take, desk};
ghost use Rattle.trace_crew.specs.declared.queue.rule.WorkerStanding.TheVariants.{Running};
ghost use Rattle.trace_crew.specs.declared.queue.rule.SeatView.TheVariants.{Owner};
ghost use Rattle.trace_crew.specs.Taking.{HasJoined, HasTheirEnds, IsKept, Keeping, TakesBothEnds, TakesIn, TakesTheRest, counted, ends_told, is_end};

use crate::gate::Gate;
use crate::queue::{PostReceiver, Seat, Worker, WorkerPost, take, take_now};
use std::alloc::AllocError;
use std::sync::Wait;

/// What keeps the node and the refused segments, as the threads of a crew know it. They know it by
/// this trait alone, since what is captured beside them can't name the lifetimes inside it.
pub trait Keeper: Drop {
    /// What its node holds, and the segments that it refused.
    ghost kept: { Self → Keeping };

    /// Takes one item in, and returns which segment of which worker it was; `None` if it ends its worker's posts. Fails
    /// with `AllocError` when memory to list a refused segment is refused.
    fn take_in(&mut self, item: WorkerPost) -> Result<Option<(Worker, u64)>, AllocError>
        ensures err { OnErr result (is_end item ≡ false) }
        ensures end { IfOk result (λ taken. ends_told taken ≡ counted (is_end item)) }
        ensures sorted { OnOk result (TakesIn item (kept self.old) (kept self.new)) };

    /// Makes the answer to all that was joined, where it isn't made yet, and shows it. If memory for it runs out, the
    /// node stays stale.
    fn settle<R: Wait>(&mut self, rt: &R) -> Result<(), AllocError>
        ensures kept { IsKept (kept self.old).node (kept self.new).node }
        ensures listed { (kept self.new).refused ≡ (kept self.old).refused }
        ensures fresh { OnOk result ((kept self.new).node.is_stale ≡ false) };

    /// Called while the queue is empty: makes an answer, if one is due.
    fn rest<R: Wait>(&mut self, rt: &R)
        ensures kept { IsKept (kept self.old).node (kept self.new).node }
        ensures listed { (kept self.new).refused ≡ (kept self.old).refused };
}

/// Tells the gate which segment was taken, where one was, and answers of how many workers the item ends
/// the posts: one or none.
fn announce<G: Gate>(gate: &G, taken: Option<(Worker, u64)>) -> u8
    ensures count { result ≡ ends_told taken }
    ensures one { result ≤ 1 }
{
    match taken {
        Some((worker, nth)) => {
            gate.after_take(worker, nth);
            0
        }
        None => 1,
    }
}

/// Takes the oldest item, once there is one. While there is none the owner has time for what is new.
#[tactic(auto, using(crate::proofs::Sorting::kept_as_it_is))]
fn next_item<R: Wait, H: Keeper>(
    rt: &R,
    queue: &PostReceiver,
    seat: &mut Seat,
    hall: &mut H,
) -> Option<WorkerPost>
    requires seat { IsSeatAt (receives_on queue.now) seat.old }
    requires owner { IsOwner (view seat.old) }
    ensures seat { IsSeatAt (receives_on queue.now) seat.new }
    ensures some { IfSome result (λ item. view seat.new ≡ after_take (view seat.old) item) }
    ensures none { IfNone result (view seat.new ≡ view seat.old) }
    ensures kept { IsKept (H.kept hall.old).node (H.kept hall.new).node }
    ensures listed { (H.kept hall.new).refused ≡ (H.kept hall.old).refused }
{
    if let Some(item) = take_now(rt, queue, seat) {
        return Some(item);
    }
    hall.rest(rt);
    take(rt, queue, seat)
}

/// Takes until both workers have ended. The crew holds an end of the queue at which items are posted, so no take of the
/// owner finds it closed. `AllocError` comes where memory for the list of refused segments is refused.
pub fn own<R: Wait, G: Gate, H: Keeper>(
    rt: &R,
    queue: &PostReceiver,
    seat: &mut Seat,
    hall: &mut H,
    gate: &G,
) -> Result<(), AllocError>
    requires seat { IsSeatAt (receives_on queue.now) seat.old }
    requires new { view seat.old ≡ Owner (desk [] Running Running) }
    ensures seat { IsSeatAt (receives_on queue.now) seat.new }
    ensures ok { OnOk result (TakesBothEnds (view seat.new) (H.kept hall.old) (H.kept hall.new)) }
{
    let mut ends: u8 = 0;
    for _ in rt.forever() {
        if ends == 2 {
            return Ok(());
        }
        let Some(item) = next_item(rt, queue, seat, hall) else {
            continue;
        };
        let taken = hall.take_in(item)?;
        let count = announce(gate, taken);
        ends += count;
    }
    unreachable!()
}

/// Takes what is left after both workers were joined, until the queue is found empty. `AllocError` comes where memory
/// for the list of refused segments is refused.
pub fn drain<R: Wait, G: Gate, H: Keeper>(
    rt: &R,
    queue: &PostReceiver,
    seat: &mut Seat,
    hall: &mut H,
    gate: &G,
) -> Result<(), AllocError>
    requires seat { IsSeatAt (receives_on queue.now) seat.old }
    requires joined { HasJoined (view seat.old) }
    ensures all { OnOk result (TakesTheRest (view seat.old) (H.kept hall.old) (H.kept hall.new)) }
    ensures ends { OnOk result (HasTheirEnds (view seat.old)) }
{
    for _ in rt.forever() {
        let Some(item) = take_now(rt, queue, seat) else {
            return Ok(());
        };
        let taken = hall.take_in(item)?;
        let _ = announce(gate, taken);
    }
    unreachable!()
}
