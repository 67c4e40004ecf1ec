//! What each seat at a queue knows, and the rule over all of them.

use crate::queue::item::{Worker, WorkerPost};
use crossbeam_channel::protocol::{Join, Lesson, Outcome, Protocol, Split};
use crossbeam_channel::{Pass, RuledReceiver, RuledSender};
use std::collections::LinkedList;

/// How a worker stands with the owner. Like [`Desk`] and [`SeatView`], it exists in proofs only.
pub enum WorkerStanding {
    /// It has no seat yet.
    Unmade,
    /// It has a seat, and may be posting.
    Running,
    /// It has ended and handed back its seat: this is all that it posted.
    Joined(LinkedList<WorkerPost>),
}

/// What the owner knows: what it took, in its order, and how each worker stands.
pub struct Desk {
    pub taken: LinkedList<WorkerPost>,
    pub first: WorkerStanding,
    pub second: WorkerStanding,
}

/// What a seat knows.
pub enum SeatView {
    /// The owner's seat.
    Owner(Desk),
    /// The seat of a worker, with all that it posted.
    Poster(Worker, LinkedList<WorkerPost>),
    /// A seat that was handed back.
    Spent,
}

/// The rule of a queue: of each worker, what was taken and then what the queue holds is what it posted, in its order.
pub struct PostOrder;

impl Protocol<WorkerPost, SeatView> for PostOrder {
    ghost use Rattle.std.specs.Prelude.{[]};
    ghost use Rattle.trace_crew.specs.Rule.{InOrder};
    ghost use Rattle.trace_crew.specs.Views.{desk};
    ghost use Rattle.trace_crew.specs.declared.queue.rule.SeatView.TheVariants.{Owner};
    ghost use Rattle.trace_crew.specs.declared.queue.rule.WorkerStanding.TheVariants.{Unmade};

    ghost holds = { InOrder };

    ghost first = { Owner (desk [] Unmade Unmade) };
}

/// A worker posts. Of the queue it learns nothing.
pub struct Posts;

impl Outcome<WorkerPost, SeatView> for Posts {
    ghost use Rattle.std.specs.Prelude.{◌≡◌};
    ghost use Rattle.trace_crew.specs.Views.{after_post};

    ghost then = { λ v x w. w ≡ after_post v x };
}

impl Lesson<WorkerPost, SeatView> for Posts {
    ghost fact = { λ v items. Unit {0} };
}

/// The owner takes. For each worker that was joined it learns that taken and held are all that the worker posted.
pub struct Takes;

impl Outcome<WorkerPost, SeatView> for Takes {
    ghost use Rattle.std.specs.Prelude.{◌≡◌};
    ghost use Rattle.trace_crew.specs.Views.{after_take};

    ghost then = { λ v x w. w ≡ after_take v x };
}

impl Lesson<WorkerPost, SeatView> for Takes {
    ghost use Rattle.trace_crew.specs.Rule.{Arrived};

    ghost fact = { Arrived };
}

/// The owner makes the first worker.
pub struct MakesFirst;

impl Split<SeatView> for MakesFirst {
    ghost use Rattle.std.specs.Prelude.{[]};
    ghost use Rattle.trace_crew.specs.Views.{after_make};
    ghost use Rattle.trace_crew.specs.declared.queue.item.Worker.TheVariants.{First};
    ghost use Rattle.trace_crew.specs.declared.queue.rule.SeatView.TheVariants.{Poster};

    ghost left = { after_make First };

    ghost right = { λ v. Poster First [] };
}

/// The owner makes the second worker.
pub struct MakesSecond;

impl Split<SeatView> for MakesSecond {
    ghost use Rattle.std.specs.Prelude.{[]};
    ghost use Rattle.trace_crew.specs.Views.{after_make};
    ghost use Rattle.trace_crew.specs.declared.queue.item.Worker.TheVariants.{Second};
    ghost use Rattle.trace_crew.specs.declared.queue.rule.SeatView.TheVariants.{Poster};

    ghost left = { after_make Second };

    ghost right = { λ v. Poster Second [] };
}

/// The owner takes in the seat of a worker that has ended.
pub struct Joins;

impl Join<SeatView> for Joins {
    ghost use Rattle.trace_crew.specs.Views.{after_join};
    ghost use Rattle.trace_crew.specs.declared.queue.rule.SeatView.TheVariants.{Spent};

    ghost both = { after_join };

    ghost spent = { Spent };
}

/// The end of a queue at which workers post.
pub type PostSender = RuledSender<WorkerPost, SeatView, PostOrder>;

/// The end of a queue at which the owner takes.
pub type PostReceiver = RuledReceiver<WorkerPost, SeatView, PostOrder>;

/// What its holder did at a queue, for the proof. It has no bytes.
pub type Seat = Pass<WorkerPost, SeatView>;
