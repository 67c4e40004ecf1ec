//! Laws of all worlds, as the contracts of calls that do nothing, so that the check proves them.

ghost use Rattle.std.specs.Prelude.{◌≡◌};
ghost use Rattle.trace_world.specs.Schedule.{State};
ghost use Rattle.trace_world.specs.Equal.{AnswerAlike, KnowAlike, NodesReachedAlike, ReportAlike};
ghost use Rattle.trace_world.specs.Possible.{world_in};
ghost use Rattle.trace_world.specs.Refusals.{refusal};
ghost use Rattle.trace_world.specs.Shows.{Shows, WorldState};

use crate::step::Step;
use trace_know::view_laws;
use trace_node::answers_are_one;

/// If the same facts reached two nodes of a world, in whatever order, grouping and repetition, both know the same,
/// their answers are equal, and so are their reports, byte for byte.
pub fn equal_nodes()
    ensures knowledge { NodesReachedAlike KnowAlike }
    ensures answers { NodesReachedAlike AnswerAlike }
    ensures reports { NodesReachedAlike ReportAlike }
{
    view_laws();
    answers_are_one();
}

/// Whether a step is refused, and why, depends only on the state that a world of a layout shows.
pub fn states_refuse()
    ensures { (w : WorldState) (s : State) (step : Step) → Shows w s → refusal (world_in w.layout s) step ≡ refusal w step }
{}
