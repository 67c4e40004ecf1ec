//! The kinds of step at a queue. Each keeps the rule, whatever the others did before.

ghost use Rattle.std.specs.Prelude.{◌≡◌, [], List, IfOk, IfSome, IfNone, OnOk, OnErr};
ghost use Rattle.crossbeam_channel.specs.Claims.{view, IsSeatAt};
ghost use Rattle.crossbeam_channel.specs.Ends.{receives_on, ruled_capacity, sends_on};
ghost use Rattle.trace_crew.specs.Rule.{Arrived};
ghost use Rattle.trace_crew.specs.Views.{IsOwner, IsPoster, IsWithout, after_join, after_make, after_post, after_take, desk};
ghost use Rattle.trace_crew.specs.declared.queue.item.Worker.TheVariants.{First, Second};
ghost use Rattle.trace_crew.specs.declared.queue.item.Worker.{Worker as WorkerValue};
ghost use Rattle.trace_crew.specs.declared.queue.steps.TheConstants.{MOST_ITEMS};
ghost use Rattle.trace_crew.specs.declared.queue.rule.WorkerStanding.TheVariants.{Unmade};
ghost use Rattle.trace_crew.specs.declared.queue.rule.SeatView.TheVariants.{Owner, Poster};

use crate::queue::item::WorkerPost;
use crate::queue::rule::{
    Joins, MakesFirst, MakesSecond, PostOrder, PostReceiver, PostSender, Posts, Seat, SeatView,
    Takes,
};
use crossbeam_channel::bounded_with;
use std::alloc::{AllocError, Global};
use std::sync::Wait;

/// How many items a queue holds at most.
pub const MOST_ITEMS: usize = 8;

/// The owner has left the queue, so nothing is taken any more.
#[derive(Clone, Copy)]
pub struct Closed;

/// An empty queue, with the owner's seat. No worker is made yet. Fails with `AllocError` when memory is refused.
pub fn open(alloc: Global) -> Result<(PostSender, PostReceiver, Seat), AllocError>
    ensures channel { IfOk result (λ r. receives_on r.1 ≡ sends_on r.0) }
    ensures places { IfOk result (λ r. ruled_capacity (sends_on r.0) ≡ MOST_ITEMS) }
    ensures seat { IfOk result (λ r. IsSeatAt (sends_on r.0) r.2) }
    ensures owner { IfOk result (λ r. view r.2 ≡ Owner (desk [] Unmade Unmade)) }
{
    bounded_with::<WorkerPost, SeatView, PostOrder, Global>(alloc, MOST_ITEMS)
}

/// Makes the first worker: a seat that has posted nothing.
pub fn make_first(queue: &PostSender, owner: &mut Seat) -> Seat
    requires seat { IsSeatAt (sends_on queue.now) owner.old }
    requires owner { IsWithout First (view owner.old) }
    ensures seat { IsSeatAt (sends_on queue.now) owner.new }
    ensures owner { view owner.new ≡ after_make First (view owner.old) }
    ensures worker { IsSeatAt (sends_on queue.now) result }
    ensures posted { view result ≡ Poster First [] }
{
    queue.another::<MakesFirst>(owner)
}

/// Makes the second worker: a seat that has posted nothing.
pub fn make_second(queue: &PostSender, owner: &mut Seat) -> Seat
    requires seat { IsSeatAt (sends_on queue.now) owner.old }
    requires owner { IsWithout Second (view owner.old) }
    ensures seat { IsSeatAt (sends_on queue.now) owner.new }
    ensures owner { view owner.new ≡ after_make Second (view owner.old) }
    ensures worker { IsSeatAt (sends_on queue.now) result }
    ensures posted { view result ≡ Poster Second [] }
{
    queue.another::<MakesSecond>(owner)
}

/// Posts an item of the worker whose seat it is, once there is room. At `Closed` nothing was posted.
pub fn post<R: Wait>(
    rt: &R,
    queue: &PostSender,
    seat: &mut Seat,
    item: WorkerPost,
) -> Result<(), Closed>
    requires seat { IsSeatAt (sends_on queue.now) seat.old }
    requires poster { IsPoster item.from (view seat.old) }
    ensures seat { IsSeatAt (sends_on queue.now) seat.new }
    ensures ok { OnOk result (view seat.new ≡ after_post (view seat.old) item) }
    ensures err { OnErr result (view seat.new ≡ view seat.old) }
{
    match queue.send_as::<Posts, R>(rt, seat, item) {
        Ok(()) => Ok(()),
        Err(_) => Err(Closed),
    }
}

/// Takes the oldest item, and waits until there is one. `None` says that the queue was empty at a moment of the call.
pub fn take<R: Wait>(rt: &R, queue: &PostReceiver, owner: &mut Seat) -> Option<WorkerPost>
    requires seat { IsSeatAt (receives_on queue.now) owner.old }
    requires owner { IsOwner (view owner.old) }
    ensures seat { IsSeatAt (receives_on queue.now) owner.new }
    ensures some { IfSome result (λ item. view owner.new ≡ after_take (view owner.old) item) }
    ensures none { IfNone result ((view owner.new ≡ view owner.old) × Arrived (view owner.old) []) }
{
    match queue.recv_as::<Takes, R>(rt, owner) {
        Ok(item) => Some(item),
        Err(_) => None,
    }
}

/// Takes the oldest item, if there is one. `None` says that the queue was empty at a moment of the call.
pub fn take_now<R: Wait>(rt: &R, queue: &PostReceiver, owner: &mut Seat) -> Option<WorkerPost>
    requires seat { IsSeatAt (receives_on queue.now) owner.old }
    requires owner { IsOwner (view owner.old) }
    ensures seat { IsSeatAt (receives_on queue.now) owner.new }
    ensures some { IfSome result (λ item. view owner.new ≡ after_take (view owner.old) item) }
    ensures none { IfNone result ((view owner.new ≡ view owner.old) × Arrived (view owner.old) []) }
{
    match queue.try_recv_as::<Takes, R>(rt, owner) {
        Ok(item) => Some(item),
        Err(_) => None,
    }
}

/// Takes in the seat of a worker that has ended: the owner knows all that it posted then.
pub fn join(queue: &PostSender, owner: &mut Seat, worker: Seat)
    requires seat { IsSeatAt (sends_on queue.now) owner.old }
    requires owner { IsOwner (view owner.old) }
    requires worker { IsSeatAt (sends_on queue.now) worker }
    requires poster { (w : WorkerValue) × IsPoster w (view worker) }
    ensures seat { IsSeatAt (sends_on queue.now) owner.new }
    ensures joined { view owner.new ≡ after_join (view owner.old) (view worker) }
{
    queue.absorb::<Joins>(owner, worker);
}
