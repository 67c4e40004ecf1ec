//! A worker: it reads its texts in order, and posts the segments of each.

ghost use Rattle.std.specs.Prelude.{◌≡◌, [], OnOk};
ghost use Rattle.crossbeam_channel.specs.Claims.{view, IsSeatAt};
ghost use Rattle.crossbeam_channel.specs.Ends.{sends_on};
ghost use Rattle.trace_crew.specs.Views.{IsPoster};
ghost use Rattle.trace_crew.specs.declared.queue.rule.SeatView.TheVariants.{Poster};
ghost use Rattle.trace_crew.specs.Work.{Ends, HasRead, HasWorked, PostsAll, ReadsNext, ends_posted};

use crate::gate::Gate;
use crate::piece::{FaultyPiece, PieceAt, TextPiece, segments_of};
use crate::queue::{Closed, Post, PostSender, Seat, Worker, WorkerPost, post};
use std::alloc::Global;
use std::snapshot::Snapshot;
use std::sync::Wait;
use std::thread::Promise;
use trace_know::ReadySegment;

/// Why a worker stopped before it had read all its texts and posted that it ends.
#[derive(Clone, Copy, PartialEq, Eq)]
pub enum Stop {
    /// No memory was left to note the fault of a text. It has posted that it ends all the same.
    Memory,
    /// The owner has left.
    Closed,
}

/// What a worker holds.
#[derive(Drop)]
pub struct Hand {
    worker: Worker,
    pub seat: Seat,
    /// How many segments it has posted.
    posted: u64,
    /// The texts that gave no segments.
    pub faults: Vec<FaultyPiece>,
}

impl Hand {
    /// Posts the segments of a text in their order.
    fn post_text<R: Wait, G: Gate>(
        &mut self,
        rt: &R,
        queue: &PostSender,
        segments: Vec<ReadySegment>,
        gate: &G,
    ) -> Result<(), Closed>
        requires seat { IsSeatAt (sends_on queue.now) self.old.seat }
        requires poster { IsPoster self.old.worker (view self.old.seat) }
        ensures seat { IsSeatAt (sends_on queue.now) self.new.seat }
        ensures poster { IsPoster self.old.worker (view self.new.seat) }
        ensures worker { self.new.worker ≡ self.old.worker }
        ensures faults { self.new.faults.items ≡ self.old.faults.items }
        ensures ends { ends_posted (view self.new.seat) ≡ ends_posted (view self.old.seat) }
        ensures ok { OnOk result (PostsAll self.old.worker segments.items (view self.old.seat) (view self.new.seat)) }
    {
        for segment in segments {
            gate.before_post(self.worker, self.posted);
            self.posted = self.posted.saturating_add(1);
            let item = WorkerPost {
                from: self.worker,
                post: Post::Segment(segment),
            };
            post(rt, queue, &mut self.seat, item)?;
        }
        Ok(())
    }

    /// Reads one text, and posts its segments or notes its fault.
    fn read_one<R: Wait, G: Gate>(
        &mut self,
        rt: &R,
        alloc: Global,
        queue: &PostSender,
        place: u64,
        piece: &TextPiece,
        gate: &G,
    ) -> Result<(), Stop>
        requires seat { IsSeatAt (sends_on queue.now) self.old.seat }
        requires poster { IsPoster self.old.worker (view self.old.seat) }
        ensures seat { IsSeatAt (sends_on queue.now) self.new.seat }
        ensures poster { IsPoster self.old.worker (view self.new.seat) }
        ensures worker { self.new.worker ≡ self.old.worker }
        ensures ends { ends_posted (view self.new.seat) ≡ ends_posted (view self.old.seat) }
        ensures ok { OnOk result (ReadsNext place piece.now self.old self.new) }
    {
        let at = PieceAt {
            worker: self.worker,
            place,
        };
        gate.before_walk(at);
        match segments_of(alloc, piece) {
            Ok(segments) => match self.post_text(rt, queue, segments, gate) {
                Ok(()) => Ok(()),
                Err(Closed) => Err(Stop::Closed),
            },
            Err(fault) => match self.faults.push(FaultyPiece { at, fault }) {
                Ok(()) => Ok(()),
                Err(_) => Err(Stop::Memory),
            },
        }
    }

    /// Reads all texts in their order.
    #[tactic(auto, using(crate::proofs::Reading::none_read))]
    fn read_all<R: Wait, G: Gate>(
        &mut self,
        rt: &R,
        alloc: Global,
        queue: &PostSender,
        pieces: &[TextPiece],
        gate: &G,
    ) -> Result<(), Stop>
        requires seat { IsSeatAt (sends_on queue.now) self.old.seat }
        requires new { view self.old.seat ≡ Poster self.old.worker [] }
        requires none { self.old.faults.items ≡ [] }
        ensures seat { IsSeatAt (sends_on queue.now) self.new.seat }
        ensures poster { IsPoster self.old.worker (view self.new.seat) }
        ensures worker { self.new.worker ≡ self.old.worker }
        ensures ends { ends_posted (view self.new.seat) ≡ 0 }
        ensures ok { OnOk result (HasRead self.old.worker pieces.now (view self.new.seat) self.new.faults.items) }
    {
        for place in 0..pieces.len() {
            self.read_one(rt, alloc, queue, place as u64, &pieces[place], gate)?;
        }
        Ok(())
    }

    /// Posts that the worker ends, which stopped for this before: why it has stopped then.
    fn end<R: Wait>(&mut self, rt: &R, queue: &PostSender, stop: Option<Stop>) -> Option<Stop>
        requires seat { IsSeatAt (sends_on queue.now) self.old.seat }
        requires poster { IsPoster self.old.worker (view self.old.seat) }
        ensures seat { IsSeatAt (sends_on queue.now) self.new.seat }
        ensures faults { self.new.faults.items ≡ self.old.faults.items }
        ensures ends { Ends self.old.worker stop (view self.old.seat) result (view self.new.seat) }
    {
        let item = WorkerPost {
            from: self.worker,
            post: Post::End,
        };
        match post(rt, queue, &mut self.seat, item) {
            Ok(()) => stop,
            Err(Closed) => Some(Stop::Closed),
        }
    }

    /// Reads all texts, and then posts that the worker ends: whatever happened before, or the owner would
    /// wait for ever. Only where the owner has left it posts no more.
    #[tactic(auto, using(crate::proofs::Reading::closed_work))]
    fn read_and_end<R: Wait, G: Gate>(
        &mut self,
        rt: &R,
        alloc: Global,
        queue: &PostSender,
        pieces: &[TextPiece],
        gate: &G,
    ) -> Option<Stop>
        requires seat { IsSeatAt (sends_on queue.now) self.old.seat }
        requires new { view self.old.seat ≡ Poster self.old.worker [] }
        requires none { self.old.faults.items ≡ [] }
        ensures seat { IsSeatAt (sends_on queue.now) self.new.seat }
        ensures worked { HasWorked self.old.worker pieces.now (view self.new.seat) self.new.faults.items result }
    {
        match self.read_all(rt, alloc, queue, pieces, gate) {
            Ok(()) => self.end(rt, queue, None),
            Err(Stop::Memory) => self.end(rt, queue, Some(Stop::Memory)),
            Err(Stop::Closed) => Some(Stop::Closed),
        }
    }
}

/// What a worker leaves.
#[derive(Drop)]
pub struct Worked {
    pub seat: Seat,
    /// The texts that gave no segments.
    pub faults: Vec<FaultyPiece>,
    /// Why it stopped early; `None` if it has read all its texts and posted that it ends.
    pub stop: Option<Stop>,
}

/// Reads a worker's texts, and then posts that it ends.
pub fn work<R: Wait, G: Gate>(
    rt: &R,
    alloc: Global,
    queue: &PostSender,
    worker: Worker,
    seat: Seat,
    pieces: &[TextPiece],
    gate: &G,
) -> Worked
    requires seat { IsSeatAt (sends_on queue.now) seat }
    requires new { view seat ≡ Poster worker [] }
    ensures seat { IsSeatAt (sends_on queue.now) result.seat }
    ensures worked { HasWorked worker pieces.now (view result.seat) result.faults.items result.stop }
{
    let mut hand = Hand {
        worker,
        seat,
        posted: 0,
        faults: Vec::new(alloc),
    };
    let stop = hand.read_and_end(rt, alloc, queue, pieces, gate);
    Worked {
        seat: hand.seat,
        faults: hand.faults,
        stop,
    }
}

/// States for the joining thread what [`work`] ensures.
#[derive(Drop)]
pub struct Working<'a> {
    pub queue: Snapshot<PostSender>,
    pub worker: Worker,
    pub pieces: &'a [TextPiece],
}

impl<'a> Promise<Worked> for Working<'a> {
    ghost use Rattle.crossbeam_channel.specs.Claims.{IsSeatAt};
    ghost use Rattle.crossbeam_channel.specs.Ends.{sends_on};
    ghost use Rattle.trace_crew.specs.Work.{Leaves};

    ghost kept_by = { λ p r. IsSeatAt (sends_on p.queue.value) r.seat × Leaves p.worker p.pieces.now r };
}
