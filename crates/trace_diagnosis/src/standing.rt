//! How each rank stands: whether it has ended, and where its last call stands.

ghost use Rattle.std.specs.Prelude.{◌≡◌, ◌<◌, ◌≤◌, IfOk, length, map};
ghost use Rattle.std.specs.List.{range_with_len};
ghost use Rattle.trace_know.specs.Cell.{shown};
ghost use Rattle.trace_ops.specs.Ops.{AreOwn};
ghost use Rattle.trace_wait.specs.Ranks.{ops_of};
ghost use Rattle.trace_diagnosis.specs.Standing.{beyond_of, ends_with, stand_at, stand_of, stands_at, stands_by, stands_told};

use crate::calls::{called_at, count_of, wall_at};
use crate::holding::is_up;
use diagnosis_value::{Beyond, LastCall, Stand, Standing};
use mpi_model::{Call, OpName};
use std::alloc::{AllocError, Global};
use trace_know::{Cell, Knowledge};
use trace_ops::{RankOps, State};
use trace_wait::Entries;

/// The requests that a test or a wait lists.
fn requests_of(call: &Call) -> &[i64] {
    match call {
        Call::Wait(request) | Call::Test(request) => std::slice::from_ref(request),
        Call::Waitall(requests)
        | Call::Waitany(requests)
        | Call::Waitsome(requests)
        | Call::Testall(requests)
        | Call::Testany(requests)
        | Call::Testsome(requests) => requests.as_slice(),
        _ => &[],
    }
}

/// The active requests, by number.
pub(crate) fn by_number(alloc: Global, own: &RankOps) -> Result<Vec<(i64, OpName)>, AllocError> {
    let mut active = Vec::from_slice(alloc, own.active())?;
    active.sort_by_key(|post| post.0)?;
    Ok(active)
}

/// The operation of an active request.
fn name_of(active: &[(i64, OpName)], request: i64) -> Option<OpName> {
    let place = active.partition_point(|post| post.0 < request);
    let post = active.get(place)?;
    if post.0 == request {
        Some(post.1)
    } else {
        None
    }
}

/// Which operations the call's requests stand for, as far as they are among these active ones, which go by number: by
/// name, each once.
pub(crate) fn open_among(
    alloc: Global,
    active: &[(i64, OpName)],
    call: &Call,
) -> Result<Vec<OpName>, AllocError> {
    let mut open = Vec::new(alloc);
    for request in requests_of(call) {
        if let Some(name) = name_of(active, *request) {
            open.push(name)?;
        }
    }
    open.sort()?;
    open.dedup();
    Ok(open)
}

/// The same among the active ones of a rank.
fn open_of(alloc: Global, own: &RankOps, call: &Call) -> Result<Vec<OpName>, AllocError> {
    if requests_of(call).is_empty() {
        return Ok(Vec::new(alloc));
    }
    let active = by_number(alloc, own)?;
    open_among(alloc, &active, call)
}

/// What ends a prefix behind which more is known, by what is known of the next place.
fn ends_with(cell: Cell<'_>) -> Beyond
    ensures { result ≡ ends_with (shown cell.entry) }
{
    match cell {
        Cell::Contradiction => Beyond::Contradiction,
        Cell::One(_) => Beyond::Gap,
        Cell::Nothing => Beyond::Gap,
    }
}

/// What ends the readable prefix of a rank, if more is known of it or was written.
fn beyond_of(know: &Knowledge, rank: u32, cut: bool) -> Option<Beyond>
    ensures { result ≡ beyond_of know.now rank cut }
{
    if !know.beyond(rank) {
        if cut { Some(Beyond::Cut) } else { None }
    } else if know.is_unread(rank) {
        Some(Beyond::Unread)
    } else {
        Some(ends_with(know.cell(rank, know.prefix(rank))))
    }
}

/// The last call of a rank whose Enter is readable.
fn last_call(
    alloc: Global,
    know: &Knowledge,
    own: &RankOps,
    entries: &Entries<'_>,
    rank: u32,
) -> Result<Option<LastCall>, AllocError>
    requires { AreOwn 0 entries.now }
{
    let events = know.readable(rank);
    let Some(number) = count_of(&events).checked_sub(1) else {
        return Ok(None);
    };
    let Some(called) = called_at(&events, number) else {
        return Ok(None);
    };
    let call = called.call.try_clone()?;
    let open = open_of(alloc, own, called.call)?;
    Ok(Some(LastCall {
        number,
        call,
        round: entries.round_of(rank, number),
        open,
        entered: wall_at(&events, number.saturating_mul(2)),
        wall: wall_at(&events, (events.len() as u64).saturating_sub(1)),
    }))
}

/// Where the last call stands of a rank that hasn't ended, by its readable prefix.
fn stand_at(prefix: u64) -> Stand
    ensures { result ≡ stand_at prefix }
{
    if prefix == 0 {
        Stand::Nowhere
    } else if prefix % 2 == 1 {
        Stand::In
    } else {
        Stand::Behind
    }
}

/// Whether the rank has ended, or where its last call stands.
fn stand_of(state: State, prefix: u64) -> Stand
    ensures { result ≡ stand_of state prefix }
{
    match state {
        State::Ended => Stand::Ended,
        State::Free => stand_at(prefix),
        State::Waiting => stand_at(prefix),
    }
}

/// How a rank stands that did this.
fn standing_with(
    alloc: Global,
    know: &Knowledge,
    own: &RankOps,
    entries: &Entries<'_>,
    rank: u32,
    cut: bool,
) -> Result<Standing, AllocError>
    requires { AreOwn 0 entries.now }
    ensures { IfOk result (λ s. stands_told s ≡ stands_by own.now.state know.now rank cut) }
{
    let call = last_call(alloc, know, own, entries, rank)?;
    Ok(Standing {
        rank,
        stand: stand_of(own.state(), know.prefix(rank)),
        call,
        beyond: beyond_of(know, rank, cut),
    })
}

/// What a rank did.
pub(crate) fn ops_at(ops: &[RankOps], rank: u32) -> &RankOps
    requires { rank < length ops.now }
    ensures { result.now ≡ ops_of ops.now rank }
{
    &ops[rank as usize]
}

/// How each rank stands.
pub(crate) fn standing_of(
    alloc: Global,
    know: &Knowledge,
    ops: &[RankOps],
    entries: &Entries<'_>,
    cut: &[bool],
    ranks: u32,
) -> Result<Vec<Standing>, AllocError>
    requires own { AreOwn 0 entries.now }
    requires ranks { ranks ≤ length ops.now }
    ensures { IfOk result (λ all. map stands_told all.items ≡ map (stands_at know.now ops.now cut.now) (range_with_len 0 ranks)) }
{
    let mut all = Vec::new(alloc);
    for rank in 0..ranks {
        let is_cut = is_up(cut, rank);
        let standing = standing_with(alloc, know, ops_at(ops, rank), entries, rank, is_cut)?;
        all.push(standing)?;
    }
    Ok(all)
}
