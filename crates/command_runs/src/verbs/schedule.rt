//! The steps of a world that a manifest's schedule stands for.

ghost use Rattle.std.specs.Prelude.{◌≡◌, ◌++◌, ◌∷◌, [], IfOk, OnOk};
ghost use Rattle.command_runs.specs.Schedules.{held_lists, posts_of, steps_for, world_steps};

use run_files::PlannedStep;
use std::alloc::{AllocError, Global};
use trace_world::{SharedSegment, Step};

/// The steps that a schedule stands for, over the segments of each piece, which each post shares. Fails with
/// `AllocError` when memory is refused.
pub fn world_steps(
    alloc: Global,
    schedule: &[PlannedStep],
    lists: &[Vec<SharedSegment>],
) -> Result<Vec<Step>, AllocError>
    ensures { IfOk result (λ steps. steps.items ≡ world_steps (held_lists lists.now) schedule.now) }
{
    let mut steps = Vec::new(alloc);
    for planned in schedule {
        add_steps(&mut steps, planned, lists)?;
    }
    Ok(steps)
}

/// Adds what a step of the schedule does: it posts each segment of its piece, or is itself.
fn add_steps(
    steps: &mut Vec<Step>,
    planned: &PlannedStep,
    lists: &[Vec<SharedSegment>],
) -> Result<(), AllocError>
    ensures { OnOk result (steps.new.items ≡ steps.old.items ++ steps_for (held_lists lists.now) planned.now) }
{
    match planned {
        PlannedStep::Post {
            worker,
            node,
            piece,
        } => {
            if let Some(segments) = lists.get(*piece) {
                add_posts(steps, *worker, *node, segments)?;
            }
            Ok(())
        }
        PlannedStep::Take { node } => add(steps, Step::Take { node: *node }),
        PlannedStep::Ship { node } => add(steps, Step::Ship { node: *node }),
        PlannedStep::Deliver { mail, node } => add(
            steps,
            Step::Deliver {
                mail: *mail,
                node: *node,
            },
        ),
        PlannedStep::Restart { node } => add(steps, Step::Restart { node: *node }),
    }
}

/// Adds a step.
fn add(steps: &mut Vec<Step>, step: Step) -> Result<(), AllocError>
    ensures { OnOk result (steps.new.items ≡ steps.old.items ++ step ∷ []) }
{
    steps.push(step)?;
    Ok(())
}

/// The posts of a piece's segments, in order.
fn add_posts(
    steps: &mut Vec<Step>,
    worker: u8,
    node: usize,
    segments: &[SharedSegment],
) -> Result<(), AllocError>
    ensures { OnOk result (steps.new.items ≡ steps.old.items ++ posts_of worker node segments.now) }
{
    for segment in segments {
        let segment = segment.try_clone()?;
        steps.push(Step::Post {
            worker,
            node,
            segment,
        })?;
    }
    Ok(())
}
