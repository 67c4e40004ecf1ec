//! Work that several threads do side by side, in jobs: each thread takes the next job that none has taken, the larger
//! ones first.
//!
//! What a job gives hangs on its number alone, and is taken by that number. So nothing shows which thread did a job, nor
//! when. A job that no thread did, since one thread is wanted, none could be started, memory was refused, or the work
//! was refused by a job before it, is done when what it gives is taken.
//!
//! - [`jobs`]: what work in jobs is, which job begins first, and how many threads do them
//! - [`turns`]: whose turn it is
//! - [`crew`]: what a thread does
//! - [`results`]: what the jobs give
//!
//! To change something, open:
//!
//! - which job begins first, and how many threads there are: [`jobs`]
//! - what holds of what threads gave: `specs/Jobs.antt`
//!
//! # Choices
//!
//! - Threads share two numbers and no more. No proof rests on them: a job that is done twice gives the same, and one
//!   that is left out is done later. So no lock is needed, and no thread waits for another.
//! - With one thread each job is done when it is taken, one after another and with one buffer, as by a program without
//!   threads.
//! - Only [`results_of`] asks that work can be shared by threads, so what a job does needs no handle and no such bound.
#![tactic(auto)]

mod crew;
mod jobs;
mod results;
mod turns;

pub use jobs::{Jobs, ThreadCount};
pub use results::{Results, results_of};
