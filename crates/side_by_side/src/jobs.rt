//! What work in jobs is, in which order jobs begin, and how many threads do them.

ghost use Rattle.std.specs.Prelude.{◌≡◌, ◌<◌, ℕ};

use std::alloc::{AllocError, Global};

/// Work in jobs, which are numbered from 0.
pub trait Jobs {
    /// What a job gives.
    type Output: Drop;

    /// What has to hold for jobs to be done.
    ghost ready: { Self → Type 0 };

    /// How many jobs there are.
    ghost many: { Self → ℕ };

    /// The job of a number gives this.
    ghost gives: { Self → ℕ → Self.Output → Type 0 };

    /// How many jobs there are.
    fn count(&self) -> usize
        ensures { result ≡ many self.now };

    /// How large the job of a number is, in bytes: larger ones begin first. Nothing that is given hangs on it.
    fn size(&self, number: usize) -> u64;

    /// Does a job. The buffer is one for all jobs of a thread; its bytes have no meaning before or after.
    fn job(&self, number: usize, buffer: &mut Vec<u8>) -> Self::Output
        requires ready { ready self.now }
        requires number { number < many self.now }
        ensures { gives self.now number result };

    /// Whether the work is refused by what a job gave: then no later job is needed.
    fn refuses(given: &Self::Output) -> bool;
}

/// How many threads do the jobs of one work.
#[derive(Clone, Copy)]
pub enum ThreadCount {
    /// As many as this, or fewer where there is little to do.
    UpTo(usize),
    /// As many as this, or as there are jobs.
    Exactly(usize),
}

/// How many bytes are worth a thread of their own.
const WORTH_A_THREAD: u64 = 262_144;

/// Of more jobs none is asked how large it is, which takes a call of the system or more: they begin as they are
/// numbered.
const MOST_SIZED: usize = 1_024;

impl ThreadCount {
    /// Whether one thread is wanted.
    pub(crate) fn is_one(self) -> bool {
        match self {
            ThreadCount::Exactly(threads) => threads < 2,
            ThreadCount::UpTo(most) => most < 2,
        }
    }

    /// How many threads do jobs of these sizes: no more than there are jobs.
    pub(crate) fn for_sizes(self, sizes: &[(u64, usize)]) -> usize {
        match self {
            ThreadCount::Exactly(threads) => threads.min(sizes.len()),
            ThreadCount::UpTo(most) => {
                let mut whole: u64 = 0;
                for job in sizes {
                    whole = whole.saturating_add(job.0);
                }
                let worth = (whole / WORTH_A_THREAD) as usize;
                most.min(sizes.len()).min(worth.saturating_add(1))
            }
        }
    }
}

/// How large each job is, beside its number.
pub(crate) fn sizes_of<J: Jobs>(alloc: Global, jobs: &J) -> Result<Vec<(u64, usize)>, AllocError> {
    let is_sized = jobs.count() <= MOST_SIZED;
    let mut sizes = Vec::new(alloc);
    for number in 0..jobs.count() {
        let size = if is_sized {
            jobs.size(number)
        } else {
            WORTH_A_THREAD
        };
        sizes.push((size, number))?;
    }
    Ok(sizes)
}

/// The numbers of jobs of these sizes, the larger ones first.
pub(crate) fn larger_first(
    alloc: Global,
    sizes: Vec<(u64, usize)>,
) -> Result<Vec<usize>, AllocError> {
    let mut sizes = sizes;
    sizes.sort_by_key(|job| u64::MAX.saturating_sub(job.0))?;
    let mut order = Vec::new(alloc);
    for job in &sizes {
        order.push(job.1)?;
    }
    Ok(order)
}
