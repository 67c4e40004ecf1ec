//! What holds of answers, as the contract of a call that does nothing, so that the check proves it.

ghost use Rattle.trace_node.specs.Answer.{AnswersAreOne, StuckGoByShape};
ghost use Rattle.trace_node.specs.Certainty.{AnswersAreCertain, AnswersAreLegal, AnswersAreTheOnlyLegal};

use trace_ops::ops_laws;
use trace_pair::tables_are_certain;
use trace_stuck::rising_lists_are_one;

/// Two answers for one layout and one view are equal: the answer is a function of them.
pub fn answers_are_one()
    ensures { AnswersAreOne }
{
    rising_lists_are_one();
}

/// The ranks that are stuck under some conditions are those that are stuck under their shapes: where the parts of a
/// condition lie in memory is left out. It does nothing: it is for proofs.
pub fn stuck_go_by_shape()
    ensures { StuckGoByShape }
{}

/// The pairs of an answer are certain: each belongs to every matching that MPI allows, however the ranks go on and
/// whatever sources their open receives get, as long as no later Cancel names a sure message or receive. If no receive
/// is open, no message doubtful, and no two parts of one Startall fit the same, MPI allows no other matching (3.5 and
/// 3.9 of MPI 4.0); if also no message of a pair comes after its receive, the pairs are themselves a matching that MPI
/// allows.
pub fn answers_are_certain()
    ensures certain { AnswersAreCertain }
    ensures legal { AnswersAreLegal }
    ensures only { AnswersAreTheOnlyLegal }
{
    ops_laws();
    tables_are_certain();
}
