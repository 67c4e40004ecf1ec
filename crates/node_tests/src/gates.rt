//! Crews that are held by gates: each holds one thread until another has come to a place, for at most
//! 1,000 turns of one millisecond, and notes where the turns ran out.

use crate::crew::{CALL, Told, left, piece, pieces};
use std::alloc::Global;
use std::process::Abort;
use std::rt::Clock;
use std::sync::{Mutex, Wait};
use std::thread;
use std::thread::Threads;
use std::time::Duration;
use trace_crew::{Gate, PieceAt, TextPiece, Worker};

/// How often something was announced, for threads that wait until it was.
#[derive(Drop)]
struct Bell<'a, R: Wait + Clock> {
    rt: &'a R,
    count: Mutex<u64>,
}

impl<'a, R: Wait + Clock> Bell<'a, R> {
    /// Nothing was announced yet.
    fn new(rt: &'a R) -> Bell<'a, R> {
        Bell {
            rt,
            count: Mutex::new(0),
        }
    }

    /// Announces it once more.
    fn ring(&self) {
        let mut count = self.count.lock(self.rt);
        *count = count.saturating_add(1);
    }

    /// Waits until it was announced so often, and answers whether it was.
    fn has_rung(&self, times: u64) -> bool {
        for _ in 0..1000 {
            if *self.count.lock(self.rt) >= times {
                return true;
            }
            thread::sleep(self.rt, Duration::from_millis(1));
        }
        false
    }
}

/// Holds each worker's first walk until the other's was announced, and the first worker's second post
/// until the second worker's first segment was taken.
#[derive(Drop)]
struct Meeting<'a, R: Wait + Clock> {
    first_walks: Bell<'a, R>,
    second_walks: Bell<'a, R>,
    second_taken: Bell<'a, R>,
    failures: Bell<'a, R>,
}

impl<'a, R: Wait + Clock + Sync> Gate for Meeting<'a, R> {
    fn before_walk(&self, at: PieceAt) {
        let (mine, other) = match at.worker {
            Worker::First => (&self.first_walks, &self.second_walks),
            Worker::Second => (&self.second_walks, &self.first_walks),
        };
        mine.ring();
        if at.place == 0 && !other.has_rung(1) {
            self.failures.ring();
        }
    }

    fn before_post(&self, worker: Worker, nth: u64) {
        if worker == Worker::First && nth == 1 && !self.second_taken.has_rung(1) {
            self.failures.ring();
        }
    }

    fn after_take(&self, worker: Worker, _nth: u64) {
        if worker == Worker::Second {
            self.second_taken.ring();
        }
    }
}

/// Holds the first take until eight posts were announced in all.
#[derive(Drop)]
struct Crowd<'a, R: Wait + Clock> {
    posts: Bell<'a, R>,
    takes: Bell<'a, R>,
    failures: Bell<'a, R>,
}

impl<'a, R: Wait + Clock + Sync> Gate for Crowd<'a, R> {
    fn before_walk(&self, _at: PieceAt) {}

    fn before_post(&self, _worker: Worker, _nth: u64) {
        self.posts.ring();
    }

    fn after_take(&self, _worker: Worker, _nth: u64) {
        let is_first = *self.takes.count.lock(self.takes.rt) == 0;
        self.takes.ring();
        if is_first && !self.posts.has_rung(8) {
            self.failures.ring();
        }
    }
}

/// What the crew leaves, and whether the gate had to let go.
type Held = (Told, bool);

/// After two pieces beside one, held so that both workers and the owner must run at the same time.
fn met<R: Threads + Wait + Clock + Sync + Abort>(rt: &R, alloc: Global) -> Held {
    let gate = Meeting {
        first_walks: Bell::new(rt),
        second_walks: Bell::new(rt),
        second_taken: Bell::new(rt),
        failures: Bell::new(rt),
    };
    let first = pieces(rt, alloc, &[(0, 0, CALL), (0, 1, CALL)]);
    let second = pieces(rt, alloc, &[(1, 0, CALL)]);
    let told = left(rt, alloc, &first, &second, &gate);
    let has_failed = *gate.failures.count.lock(rt) > 0;
    (told, has_failed)
}

#[test]
fn workers_and_owner_run_at_once(rt: HostRuntime) {
    let found = met(&rt, rt.alloc());
    assert!(rt; found == (((4, 2), (4, 2), 0, 0), false));
}

/// Twenty calls of a rank, each a piece.
fn twenty<R: Abort>(rt: &R, alloc: Global, rank: u32) -> Vec<TextPiece> {
    let mut all = Vec::new(alloc);
    for call in 0..20 {
        all.push(piece(rt, alloc, &(rank, call, CALL)))
            .expect(rt, "memory");
    }
    all
}

/// After twenty pieces of each worker, of which eight are posted while the owner is held.
fn crowded<R: Threads + Wait + Clock + Sync + Abort>(rt: &R, alloc: Global) -> Held {
    let gate = Crowd {
        posts: Bell::new(rt),
        takes: Bell::new(rt),
        failures: Bell::new(rt),
    };
    let first = twenty(rt, alloc, 0);
    let second = twenty(rt, alloc, 1);
    let told = left(rt, alloc, &first, &second, &gate);
    let has_failed = *gate.failures.count.lock(rt) > 0;
    (told, has_failed)
}

#[test]
fn workers_fill_the_queue(rt: HostRuntime) {
    let found = crowded(&rt, rt.alloc());
    assert!(rt; found == (((40, 40), (40, 40), 0, 0), false));
}
