//! What a thread does: one job after another, as long as it is its turn.

ghost use Rattle.side_by_side.specs.Jobs.{AllDone};

use crate::jobs::Jobs;
use crate::turns::Turns;
use std::alloc::Global;

/// What a job gave.
#[derive(Drop)]
pub(crate) struct Done<X: Drop> {
    pub number: usize,
    pub given: X,
}

/// Does a job, if it is one and isn't needless, and adds what it gave.
#[tactic(auto, using(crate::proofs::ByNumber::all_more))]
fn with_job<J: Jobs>(
    jobs: &J,
    number: usize,
    turns: &Turns,
    buffer: &mut Vec<u8>,
    done: Vec<Done<J::Output>>,
) -> Vec<Done<J::Output>>
    requires ready { J.ready jobs.now }
    requires done { AllDone (J.gives jobs.now) done.items }
    ensures { AllDone (J.gives jobs.now) result.items }
{
    if number >= jobs.count() || turns.is_refused_before(number) {
        return done;
    }
    let mut done = done;
    // (room comes first, so that nothing is lost that was read)
    if done.reserve(1).is_err() {
        return done;
    }
    let given = jobs.job(number, buffer);
    if J::refuses(&given) {
        turns.refuse(number);
    }
    done.push_reserved(Done { number, given });
    done
}

/// Does jobs in their turn, until none is left to be taken, and tells what they gave.
pub(crate) fn done_in_turn<J: Jobs>(
    alloc: Global,
    jobs: &J,
    order: &[usize],
    turns: &Turns,
) -> Vec<Done<J::Output>>
    requires { J.ready jobs.now }
    ensures { AllDone (J.gives jobs.now) result.items }
{
    let mut buffer = Vec::new(alloc);
    let mut done = Vec::new(alloc);
    for _ in 0..order.len() {
        match turns.next_of(order) {
            Some(number) => done = with_job(jobs, number, turns, &mut buffer, done),
            None => break,
        }
    }
    done
}
