//! The state of a rank, by its place in the list of states.

ghost use Rattle.std.specs.Prelude.{◌≡◌};
ghost use Rattle.trace_stuck.specs.States.{is_waiting, is_free, is_ended};

use trace_ops::State;

/// Whether the rank is waiting. A number past the last rank isn't.
pub(crate) fn is_rank_waiting(states: &[State], r: usize) -> bool
    ensures { result ≡ is_waiting states.now r }
{
    match states.get(r) {
        Some(State::Waiting) => true,
        _ => false,
    }
}

/// Whether the rank is free. A number past the last rank isn't.
pub(crate) fn is_rank_free(states: &[State], r: usize) -> bool
    ensures { result ≡ is_free states.now r }
{
    match states.get(r) {
        Some(State::Free) => true,
        _ => false,
    }
}

/// Whether the rank has ended. A number past the last rank counts as ended.
pub(crate) fn is_rank_ended(states: &[State], r: usize) -> bool
    ensures { result ≡ is_ended states.now r }
{
    match states.get(r) {
        Some(State::Free) => false,
        Some(State::Waiting) => false,
        _ => true,
    }
}
