//! What a crew is to the schedule of one node, as the contract of a call that does nothing, so that the check proves
//! it.

ghost use Rattle.std.specs.Prelude.{List};
ghost use Rattle.mpi_model.specs.Layouts.{Parts};
ghost use Rattle.trace_crew.specs.declared.queue.item.WorkerPost.{WorkerPost};
ghost use Rattle.trace_crew.specs.Scheduled.{FollowsSchedule};
ghost use Rattle.trace_crew.specs.Taking.{Taken};

/// A crew's queue and its owner's node stand for a state of a schedule of one node, whatever the crew does.
pub fn crews_follow()
    ensures { (layout : Parts) (queue : List WorkerPost) (taken : List Taken) → FollowsSchedule layout queue taken }
{}
