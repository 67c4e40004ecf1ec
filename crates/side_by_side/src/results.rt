//! What jobs give.

ghost use Rattle.std.specs.Prelude.{◌≡◌, ◌<◌, IfOk, IfSome};
ghost use Rattle.std.specs.List.{All};
ghost use Rattle.side_by_side.specs.Jobs.{AllDone, AreGiven};

use crate::crew::{Done, done_in_turn};
use crate::jobs::{Jobs, ThreadCount, larger_first, sizes_of};
use crate::turns::Turns;
use std::alloc::{AllocError, Global};
use std::marker::Model;
use std::thread;
use std::thread::Threads;

/// What the jobs of one work give. Contracts see it as the work.
#[derive(Drop)]
pub struct Results<'a, J: Jobs> {
    jobs: &'a J,
    /// What each job gave; `None` where no thread did it, or where it was taken. Empty if no thread does any.
    slots: Vec<Option<J::Output>>,
}

impl<'a, J: Jobs> Model for Results<'a, J> {
    ghost use Rattle.side_by_side.specs.Jobs.{AreGiven};

    ghost Value = { J };

    ghost view = { λ r. r.jobs.now };

    ghost invariant = { λ r. AreGiven (J.gives r.jobs.now) 0 r.slots.items };
}

/// Has jobs done by as many threads as are wanted, or as can be started. With one thread none is done yet. Fails with
/// `AllocError` when memory is refused.
pub fn results_of<'a, H: Threads + Sync, J: Jobs + Sync>(
    handle: &H,
    alloc: Global,
    wanted: ThreadCount,
    jobs: &'a J,
) -> Result<Results<'a, J>, AllocError>
where
    J::Output: Send,
    requires { J.ready jobs.now }
    ensures { IfOk result (λ results. results ≡ jobs.now) }
{
    if wanted.is_one() {
        return Ok(Results::one_by_one(alloc, jobs));
    }
    let sizes = sizes_of(alloc, jobs)?;
    let threads = wanted.for_sizes(&sizes);
    if threads < 2 {
        return Ok(Results::one_by_one(alloc, jobs));
    }
    let results = Results::places(alloc, jobs)?;
    let numbers = larger_first(alloc, sizes)?;
    let order = numbers.as_slice();
    let turns = Turns::new();
    let shared = &turns;
    let work = |_thread: usize| -> Vec<Done<J::Output>>
        requires { J.ready jobs.now }
        ensures { AllDone (J.gives jobs.entry.now) result.items }
    { done_in_turn(alloc, jobs, order, shared) };
    let lists = thread::map_indices(handle, alloc, threads, &work)?;
    Ok(results.with_lists(lists))
}

impl<'a, J: Jobs> Results<'a, J> {
    /// Has no job done yet: each is done when it is taken. Takes no memory.
    pub fn one_by_one(alloc: Global, jobs: &'a J) -> Results<'a, J>
        ensures { result ≡ jobs.now }
    {
        Results {
            jobs,
            slots: Vec::new(alloc),
        }
    }

    /// The work.
    pub fn jobs(&self) -> &'a J
        ensures { result.now ≡ self.now }
    {
        self.jobs
    }

    /// What a job gives: as a thread gave it, or else it is done now. The buffer is one for all jobs that are done now.
    pub fn take(&mut self, number: usize, buffer: &mut Vec<u8>) -> J::Output
        requires ready { J.ready self.old }
        requires number { number < J.many self.old }
        ensures given { J.gives self.old number result }
        ensures same { self.new ≡ self.old }
    {
        match self.given(number) {
            Some(output) => output,
            None => self.jobs.job(number, buffer),
        }
    }

    /// An empty place for what each job gives.
    fn places(alloc: Global, jobs: &'a J) -> Result<Results<'a, J>, AllocError>
        ensures { IfOk result (λ results. results ≡ jobs.now) }
    {
        let mut results = Results::one_by_one(alloc, jobs);
        for _ in 0..jobs.count() {
            results.add_place()?;
        }
        Ok(results)
    }

    /// Adds an empty place.
    fn add_place(&mut self) -> Result<(), AllocError>
        ensures { self.new ≡ self.old }
    {
        self.slots.push(None)?;
        Ok(())
    }

    /// Keeps what all threads' jobs gave.
    fn with_lists(self, lists: Vec<Vec<Done<J::Output>>>) -> Results<'a, J>
        requires { All (λ list. AllDone (J.gives self) list.items) lists.items }
        ensures { result ≡ self.entry }
    {
        let mut results = self;
        for list in lists {
            results = results.with_list(list);
        }
        results
    }

    /// Keeps what a thread's jobs gave.
    fn with_list(self, list: Vec<Done<J::Output>>) -> Results<'a, J>
        requires { AllDone (J.gives self) list.items }
        ensures { result ≡ self.entry }
    {
        let mut results = self;
        for done in list {
            let Done { number, given } = done;
            results.put(number, given);
        }
        results
    }

    /// Keeps what a job gave.
    fn put(&mut self, number: usize, given: J::Output)
        requires { J.gives self.old number given }
        ensures { self.new ≡ self.old }
    {
        if number < self.slots.len() {
            self.slots[number] = Some(given);
        }
    }

    /// What a thread's job gave; `None` if no thread did it, or if it was taken before.
    fn given(&mut self, number: usize) -> Option<J::Output>
        ensures given { IfSome result (J.gives self.old number) }
        ensures same { self.new ≡ self.old }
    {
        if number >= self.slots.len() {
            return None;
        }
        self.slots[number].take()
    }
}
