//! Runs in chunks, each full but for the last that has any: one that is put among them moves those behind it in its
//! chunk, and the last of each full one behind.

ghost use Rattle.std.specs.Prelude.{◌≡◌, ◌+◌, ◌-◌, ◌<◌, ◌≤◌, ◌++◌, ◌∷◌, [], length, OnOk};
ghost use Rattle.std.specs.List.{insert};
ghost use Rattle.std.specs.VecDeque.{deque_capacity};
ghost use Rattle.std.specs.Prelude.{ℕ, slice_index_or};
ghost use Rattle.trace_know.specs.Chunks.{ChunkValue, in_chunks, IsPacked};

use crate::boxed::BoxedRun;
use std::alloc::{AllocError, Global};
use std::collections::VecDeque;

/// How many runs a full chunk has.
pub(crate) const CHUNK: usize = 1_024;

/// Puts a run into a chunk, and takes out its last.
fn push_through(chunk: &mut VecDeque<BoxedRun>, at: usize, run: BoxedRun) -> BoxedRun
    requires { at < length chunk.old.items }
    ensures items { chunk.new.items ++ result ∷ [] ≡ insert chunk.old.items at run }
    ensures len { length chunk.new.items ≡ length chunk.old.items }
    ensures capacity { deque_capacity chunk.old ≤ deque_capacity chunk.new }
{
    let Some(last) = chunk.pop_back() else {
        unreachable!();
    };
    let Ok(()) = chunk.insert(at, run) else {
        unreachable!();
    };
    last
}

/// Takes a run out of a chunk, and puts another behind its last.
fn pull_through(chunk: &mut VecDeque<BoxedRun>, at: usize, run: BoxedRun) -> BoxedRun
    requires { at < length chunk.old.items }
    ensures items { insert chunk.new.items at result ≡ chunk.old.items ++ run ∷ [] }
    ensures len { length chunk.new.items ≡ length chunk.old.items }
    ensures capacity { deque_capacity chunk.old ≤ deque_capacity chunk.new }
{
    let Some(out) = chunk.remove(at) else {
        unreachable!();
    };
    chunk.push_back_reserved(run);
    out
}

/// Puts a run into a chunk that has room.
fn put_into(chunk: &mut VecDeque<BoxedRun>, at: usize, run: BoxedRun)
    requires at { at ≤ length chunk.old.items }
    requires room { length chunk.old.items < deque_capacity chunk.old }
    ensures items { chunk.new.items ≡ insert chunk.old.items at run }
    ensures len { length chunk.new.items ≡ length chunk.old.items + 1 }
    ensures capacity { deque_capacity chunk.old ≤ deque_capacity chunk.new }
{
    let Ok(()) = chunk.insert(at, run) else {
        unreachable!();
    };
}

/// Takes a run out of a chunk.
fn take_from(chunk: &mut VecDeque<BoxedRun>, at: usize) -> BoxedRun
    requires { at < length chunk.old.items }
    ensures items { insert chunk.new.items at result ≡ chunk.old.items }
    ensures len { length chunk.new.items + 1 ≡ length chunk.old.items }
    ensures capacity { deque_capacity chunk.old ≤ deque_capacity chunk.new }
{
    let Some(out) = chunk.remove(at) else {
        unreachable!();
    };
    out
}

/// Puts a run among others, which are so many and have room for one more.
pub(crate) fn insert_among(
    chunks: &mut Vec<VecDeque<BoxedRun>>,
    len: usize,
    room: usize,
    at: usize,
    run: BoxedRun,
)
    requires packed { IsPacked len room chunks.old.items }
    requires room { len < room }
    requires at { at ≤ len }
    ensures items { in_chunks chunks.new.items ≡ insert (in_chunks chunks.old.items) at run }
    ensures packed { IsPacked (len + 1) room chunks.new.items }
{
    let mut carried = run;
    let mut place = at % CHUNK;
    for k in at / CHUNK..len / CHUNK {
        carried = push_through(&mut chunks[k], place, carried);
        place = 0;
    }
    put_into(&mut chunks[len / CHUNK], place, carried);
}

/// Takes a run out of so many.
pub(crate) fn remove_among(
    chunks: &mut Vec<VecDeque<BoxedRun>>,
    len: usize,
    room: usize,
    at: usize,
) -> BoxedRun
    requires packed { IsPacked len room chunks.old.items }
    requires at { at < len }
    ensures items { insert (in_chunks chunks.new.items) at result ≡ in_chunks chunks.old.items }
    ensures packed { IsPacked (len - 1) room chunks.new.items }
{
    let first = at / CHUNK;
    let last = (len - 1) / CHUNK;
    if first == last {
        return take_from(&mut chunks[last], at % CHUNK);
    }
    let mut carried = take_from(&mut chunks[last], 0);
    let mut k = last;
    while k > first + 1 {
        k -= 1;
        carried = pull_through(&mut chunks[k], 0, carried);
    }
    pull_through(&mut chunks[first], at % CHUNK, carried)
}

/// Makes a chunk behind the others, where there is none at an index.
fn chunk_at(chunks: &mut Vec<VecDeque<BoxedRun>>, k: usize) -> Result<(), AllocError>
    requires { k ≤ length chunks.old.items }
    ensures items { in_chunks chunks.new.items ≡ in_chunks chunks.old.items }
    ensures packed { (len least : ℕ) → IsPacked len least chunks.old.items → IsPacked len least chunks.new.items }
    ensures ok { OnOk result (k < length chunks.new.items) }
{
    if k < chunks.len() {
        return Ok(());
    }
    let alloc = *chunks.allocator();
    chunks.push(VecDeque::new(alloc))?;
    Ok(())
}

/// Gives the chunk at an index room for so many, where it stands among the others or right behind them.
fn room_at(chunks: &mut Vec<VecDeque<BoxedRun>>, k: usize, room: usize) -> Result<(), AllocError>
    requires { k ≤ length chunks.old.items }
    ensures items { in_chunks chunks.new.items ≡ in_chunks chunks.old.items }
    ensures packed { (len least : ℕ) → IsPacked len least chunks.old.items → IsPacked len least chunks.new.items }
    ensures there { OnOk result (k < length chunks.new.items) }
    ensures room { OnOk result ((d : ChunkValue) → room ≤ deque_capacity (slice_index_or chunks.new.items k d)) }
{
    chunk_at(chunks, k)?;
    let chunk = &mut chunks[k];
    let held = chunk.len();
    chunk.reserve(room.saturating_sub(held))
}

/// Gives so many runs more room, for up to so many as are wanted: for how many there is room then.
fn widen(chunks: &mut Vec<VecDeque<BoxedRun>>, len: usize, room: usize, wanted: usize) -> usize
    requires packed { IsPacked len room chunks.old.items }
    requires fits { len ≤ room }
    requires wanted { room < wanted }
    ensures items { in_chunks chunks.new.items ≡ in_chunks chunks.old.items }
    ensures packed { IsPacked len result chunks.new.items }
    ensures more { room ≤ result }
{
    let k = room / CHUNK;
    let held = room % CHUNK;
    let more = (wanted - room).min(CHUNK - held);
    match room_at(chunks, k, held + more) {
        Ok(()) => room + more,
        Err(_) => room,
    }
}

/// Gives so many runs room for so many as are wanted, as far as there is memory: for how many there is room then.
pub(crate) fn reserve_among(
    chunks: &mut Vec<VecDeque<BoxedRun>>,
    len: usize,
    room: usize,
    wanted: usize,
) -> usize
    requires packed { IsPacked len room chunks.old.items }
    requires fits { len ≤ room }
    ensures items { in_chunks chunks.new.items ≡ in_chunks chunks.old.items }
    ensures packed { IsPacked len result chunks.new.items }
    ensures more { room ≤ result }
{
    let mut reached = room;
    while reached < wanted {
        let more = widen(chunks, len, reached, wanted);
        if more == reached {
            return reached;
        }
        reached = more;
    }
    reached
}
