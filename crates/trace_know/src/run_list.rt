//! A list of runs in chunks: to put one among a million others moves about a thousand pointers, and so does taking one
//! out.

ghost use Rattle.std.specs.Prelude.{◌≡◌, ◌+◌, ◌-◌, ◌<◌, ◌≤◌, ◌++◌, ◌∷◌, [], length, slice_index_or, slice_set, OnOk, IfOk};
ghost use Rattle.std.specs.Borrow.{sem};
ghost use Rattle.std.specs.List.{SameBelow, ShiftedDown, insert, remove};
ghost use Rattle.trace_know.specs.Lent.{LendsRun};

use crate::boxed::BoxedRun;
use crate::chunks::{CHUNK, insert_among, remove_among, reserve_among};
use std::alloc::{AllocError, Global};
use std::collections::VecDeque;
use std::marker::Model;

/// Runs in a list. Empty it takes no memory.
#[derive(Drop)]
pub(crate) struct RunList {
    chunks: Vec<VecDeque<BoxedRun>>,
    /// How many runs there are.
    len: usize,
    /// For how many there is room.
    room: usize,
}

impl Model for RunList {
    ghost use Rattle.std.specs.Prelude.{◌≤◌};
    ghost use Rattle.trace_know.specs.Chunks.{RunsInRoom, runs_code, in_chunks, IsPacked};

    ghost Value = { RunsInRoom };

    ghost coded = { runs_code };

    ghost view = { λ r. record { items = in_chunks r.chunks.items; room = r.room } };

    ghost invariant = { λ r. IsPacked r.len r.room r.chunks.items × (r.len ≤ r.room) };
}

impl RunList {
    /// An empty list of runs. Takes no memory.
    pub(crate) fn new(alloc: Global) -> RunList
        ensures { result.items ≡ [] }
    {
        RunList {
            chunks: Vec::new(alloc),
            len: 0,
            room: 0,
        }
    }

    /// An empty list of runs, with room for this many.
    pub(crate) fn with_room(alloc: Global, room: usize) -> Result<RunList, AllocError>
        ensures items { IfOk result (λ runs. runs.items ≡ []) }
        ensures room { IfOk result (λ runs. room ≤ runs.room) }
    {
        let mut runs = RunList::new(alloc);
        runs.reserve(room)?;
        Ok(runs)
    }

    /// How many runs there are.
    pub(crate) fn len(&self) -> usize
        ensures { result ≡ length self.now.items }
    {
        self.len
    }

    /// Makes room for so many more.
    pub(crate) fn reserve(&mut self, more: usize) -> Result<(), AllocError>
        ensures items { self.new.items ≡ self.old.items }
        ensures room { self.old.room ≤ self.new.room }
        ensures ok { OnOk result (length self.new.items + more ≤ self.new.room) }
    {
        let Some(wanted) = self.len.checked_add(more) else {
            return Err(AllocError);
        };
        self.room = reserve_among(&mut self.chunks, self.len, self.room, wanted);
        if self.room < wanted {
            return Err(AllocError);
        }
        Ok(())
    }

    /// The run at an index.
    pub(crate) fn at(&self, i: usize) -> &BoxedRun
        requires { i < length self.now.items }
        ensures { result.now ≡ slice_index_or self.now.items i result.now }
    {
        &self.chunks[i / CHUNK][i % CHUNK]
    }

    /// The last run.
    pub(crate) fn last(&self) -> &BoxedRun
        requires { 0 < length self.now.items }
        ensures { result.now ≡ slice_index_or self.now.items (length self.now.items - 1) result.now }
    {
        self.at(self.len() - 1)
    }

    /// The run at an index, to be changed.
    pub(crate) fn at_mut(&mut self, i: usize) -> &mut BoxedRun
        requires { i < length self.old.items }
        ensures* writes_back { sem 𝓛 (LendsRun self.entry i result) }
        ensures value { result.now ≡ slice_index_or self.old.items i result.now }
    {
        let chunk = &mut self.chunks[i / CHUNK];
        &mut chunk[i % CHUNK]
    }

    /// Puts a run among the others.
    pub(crate) fn insert(&mut self, at: usize, run: BoxedRun)
        requires at { at ≤ length self.old.items }
        requires room { length self.old.items < self.old.room }
        ensures items { self.new.items ≡ insert self.old.items at run }
        ensures room { self.new.room ≡ self.old.room }
    {
        insert_among(&mut self.chunks, self.len, self.room, at, run);
        self.len += 1;
    }

    /// Takes a run out.
    pub(crate) fn remove(&mut self, at: usize) -> BoxedRun
        requires { at < length self.old.items }
        ensures value { result ≡ slice_index_or self.old.items at result }
        ensures items { self.new.items ≡ remove self.old.items at }
        ensures len { length self.new.items + 1 ≡ length self.old.items }
        ensures room { self.new.room ≡ self.old.room }
        ensures fits { length self.new.items < self.new.room }
        ensures by_index { SameBelow self.old.items self.new.items at × ShiftedDown self.old.items self.new.items at }
    {
        let run = remove_among(&mut self.chunks, self.len, self.room, at);
        self.len -= 1;
        run
    }

    /// Puts a run behind the others.
    pub(crate) fn push(&mut self, run: BoxedRun)
        requires { length self.old.items < self.old.room }
        ensures items { self.new.items ≡ self.old.items ++ run ∷ [] }
        ensures room { self.new.room ≡ self.old.room }
    {
        let at = self.len();
        self.insert(at, run);
    }

    /// Takes out the last run.
    pub(crate) fn pop(&mut self) -> BoxedRun
        requires { 0 < length self.old.items }
        ensures items { self.old.items ≡ self.new.items ++ result ∷ [] }
        ensures len { length self.new.items + 1 ≡ length self.old.items }
        ensures room { self.new.room ≡ self.old.room }
    {
        let last = self.len() - 1;
        self.remove(last)
    }
}
