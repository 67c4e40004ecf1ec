//! From what is known to what is told of it.

ghost use Rattle.std.specs.Prelude.{◌≡◌, ◌<◌, ◌^◌, ℕ, List, IfOk, length, map, slice_index_or, unwrap_or};
ghost use Rattle.std.specs.List.Sorted.{IsStrictlyIncreasing};
ghost use Rattle.std.specs.Option.{option_copied, option_map};
ghost use Rattle.trace_know.specs.Prefix.{event_at};
ghost use Rattle.trace_ops.specs.Ops.{AreOwn};
ghost use Rattle.trace_pair.specs.Table.{table_of};
ghost use Rattle.trace_stuck.specs.Shape.{OnNothing, shape};
ghost use Rattle.trace_wait.specs.Ranks.{ops_of};
ghost use Rattle.trace_wait.specs.Rounds.{rounds_of};
ghost use Rattle.trace_node.specs.Answer.{beyond_of, call_of, entry_of, foreign_of, prefixes_of, shapes, states_of, unread_of, wait_at, wall_of};
ghost use Rattle.trace_node.specs.ByRank.{AnswersWhatIsTold, AreStopped, IsReading, stopped_by, walls_of};
ghost use Rattle.trace_node.specs.Stopped.{stopped};

use crate::answer::Answer;
use crate::answer::parts::{Matching, Reading, Waiting};
use crate::stuck::Stuck;
use mpi_model::{Event, Layout};
use std::alloc::{AllocError, Global};
use trace_know::{Cell, Knowledge};
use trace_ops::{RankOps, State};
use trace_pair::PairTable;
use trace_stuck::{Condition, stuck};
use trace_wait::{conditions, rounds};

/// The readable prefix of each rank.
fn prefixes_of(alloc: Global, layout: &Layout, know: &Knowledge) -> Result<Vec<u64>, AllocError>
    ensures { IfOk result (λ v. v.items ≡ prefixes_of layout.now know.now) }
{
    let mut prefixes = Vec::new(alloc);
    for rank in 0..layout.ranks() {
        prefixes.push(know.prefix(rank))?;
    }
    Ok(prefixes)
}

/// For each rank, whether something is known at or past the end of its readable prefix.
fn beyond_of(alloc: Global, layout: &Layout, know: &Knowledge) -> Result<Vec<bool>, AllocError>
    ensures { IfOk result (λ v. v.items ≡ beyond_of layout.now know.now) }
{
    let mut beyond = Vec::new(alloc);
    for rank in 0..layout.ranks() {
        beyond.push(know.beyond(rank))?;
    }
    Ok(beyond)
}

/// For each rank, whether its readable prefix ends at the Enter of an unread call.
fn unread_of(alloc: Global, layout: &Layout, know: &Knowledge) -> Result<Vec<bool>, AllocError>
    ensures { IfOk result (λ v. v.items ≡ unread_of layout.now know.now) }
{
    let mut unread = Vec::new(alloc);
    for rank in 0..layout.ranks() {
        unread.push(know.is_unread(rank))?;
    }
    Ok(unread)
}

/// How each rank stands.
fn states_of(alloc: Global, ops: &[RankOps]) -> Result<Vec<State>, AllocError>
    ensures { IfOk result (λ v. v.items ≡ states_of ops.now) }
{
    let mut states = Vec::new(alloc);
    for own in ops {
        states.push(own.state())?;
    }
    Ok(states)
}

/// How many foreign calls the ranks entered.
fn foreign_of(ops: &[RankOps]) -> u64
    ensures { result ≡ foreign_of ops.now }
{
    let mut foreign = 0u64;
    for own in ops {
        foreign = foreign.saturating_add(own.foreign());
    }
    foreign
}

/// The one event that is known of a place.
fn event_at(know: &Knowledge, rank: u32, place: u64) -> Option<&Event>
    ensures { option_copied result ≡ event_at know.now rank place }
{
    match know.cell(rank, place) {
        Cell::One(event) => Some(event),
        Cell::Nothing => None,
        Cell::Contradiction => None,
    }
}

/// The wall time of an Enter.
fn entry_of(event: Option<&Event>) -> u64
    ensures { result ≡ entry_of (option_copied event.entry) }
{
    match event {
        Some(Event::Enter(_, stamp)) => stamp.wall(),
        Some(Event::Return(_, _)) => 0,
        None => 0,
    }
}

/// The wall time at which a call was entered. Nothing is known of places past 2^40, so a number at
/// the end of its type stands for all behind it.
pub(crate) fn wall_of(know: &Knowledge, rank: u32, call: u64) -> u64
    ensures { result ≡ wall_of know.now rank call }
{
    know.known();
    entry_of(event_at(know, rank, call.saturating_mul(2)))
}

/// The number of the call in which a rank waits that did this.
pub(crate) fn waiting_call(own: &RankOps) -> u64
    ensures { result ≡ call_of own.now }
{
    match own.waiting() {
        Some((call, _)) => call,
        None => 0,
    }
}

/// The number of the call in which a rank waits.
fn call_of(ops: &[RankOps], rank: u32) -> u64
    ensures { result ≡ call_of (ops_of ops.now rank) }
{
    match ops.get(rank as usize) {
        Some(own) => waiting_call(own),
        None => 0,
    }
}

/// When each rank entered the call in which it waits.
pub(crate) fn walls_of(
    alloc: Global,
    layout: &Layout,
    know: &Knowledge,
    ops: &[RankOps],
) -> Result<Vec<u64>, AllocError>
    ensures { IfOk result (λ v. v.items ≡ walls_of layout.now know.now ops.now) }
{
    let mut walls = Vec::new(alloc);
    for rank in 0..layout.ranks() {
        walls.push(wall_of(know, rank, call_of(ops, rank)))?;
    }
    Ok(walls)
}

/// When a rank entered the call in which it waits, by the list of all ranks'.
fn wall_at(walls: &[u64], rank: u32) -> u64
    ensures { result ≡ slice_index_or walls.now rank 0 }
{
    match walls.get(rank as usize) {
        Some(wall) => *wall,
        None => 0,
    }
}

/// The condition of a rank, moved out of the list. What the later ranks wait for stays.
fn take_condition(conditions: &mut [Option<Condition>], rank: u32) -> Option<Condition>
    ensures taken { unwrap_or (option_map shape result) OnNothing ≡ wait_at (shapes conditions.old) rank }
    ensures later { (r : ℕ) → rank < r → wait_at (shapes conditions.new) r ≡ wait_at (shapes conditions.old) r }
{
    let at = rank as usize;
    if at < conditions.len() {
        conditions[at].take()
    } else {
        None
    }
}

/// What a rank with this condition waits for.
fn wait_of(condition: Option<Condition>) -> Condition
    ensures { shape result ≡ unwrap_or (option_map shape condition) OnNothing }
{
    match condition {
        Some(condition) => condition,
        None => Condition::yes(),
    }
}

/// What is told of the stuck ranks. Their conditions are moved.
fn stuck_of(
    alloc: Global,
    walls: &[u64],
    ops: &[RankOps],
    conditions: &mut [Option<Condition>],
    ranks: &[u32],
) -> Result<Vec<Stuck>, AllocError>
    requires { IsStrictlyIncreasing ranks.now }
    ensures { IfOk result (λ v. map stopped v.items ≡ map (stopped_by walls.now ops.now (shapes conditions.old)) ranks.now) }
{
    let mut all = Vec::new(alloc);
    for rank in ranks {
        all.push(Stuck {
            rank: *rank,
            call: call_of(ops, *rank),
            wall: wall_at(walls, *rank),
            waits: wait_of(take_condition(conditions, *rank)),
        })?;
    }
    Ok(all)
}

/// Which messages were received, and which may still be. The rows of the table are moved.
fn matching_of(table: PairTable) -> Matching
    ensures pairs { result.pairs.items ≡ table.pairs }
    ensures postponed { result.postponed.items ≡ table.postponed }
{
    let (pairs, postponed) = table.into_rows();
    Matching { pairs, postponed }
}

/// How far the ranks can be read, and where they are contradicted.
pub(crate) fn reading_of(
    alloc: Global,
    layout: &Layout,
    know: &Knowledge,
) -> Result<Reading, AllocError>
    ensures { IfOk result (IsReading layout.now.ranks know.now) }
{
    Ok(Reading {
        prefixes: prefixes_of(alloc, layout, know)?,
        beyond: beyond_of(alloc, layout, know)?,
        unread: unread_of(alloc, layout, know)?,
        conflicts: know.conflict_places(alloc)?,
    })
}

/// The rounds of collective calls, how each rank stands, and which ranks wait for ever.
fn waiting_of(
    alloc: Global,
    layout: &Layout,
    walls: &[u64],
    ops: &[RankOps],
    table: &PairTable,
) -> Result<Waiting, AllocError>
    requires few { length ops.now < 2 ^ 32 }
    requires own { AreOwn 0 ops.now }
    requires table { table.now ≡ table_of ops.now }
    ensures rounds { IfOk result (λ s. s.rounds.items ≡ rounds_of layout.now.comms ops.now) }
    ensures states { IfOk result (λ s. s.states.items ≡ states_of ops.now) }
    ensures stuck { IfOk result (λ s. AreStopped layout.now walls.now ops.now (map stopped s.stuck.items)) }
{
    let rounds = rounds(alloc, layout, ops)?;
    let mut conditions = conditions(alloc, layout, ops, table, &rounds)?;
    let states = states_of(alloc, ops)?;
    let verdict = stuck(alloc, &states, &conditions)?;
    let stuck = stuck_of(alloc, walls, ops, &mut conditions, &verdict.stuck)?;
    Ok(Waiting {
        rounds,
        states,
        stuck,
    })
}

/// What is told of the ranks of a layout: by how far they can be read, when each entered the call in which it waits,
/// what they did, and their pairs.
pub(crate) fn answer_of(
    alloc: Global,
    layout: &Layout,
    reading: Reading,
    walls: &[u64],
    ops: &[RankOps],
    table: PairTable,
) -> Result<Answer, AllocError>
    requires few { length ops.now < 2 ^ 32 }
    requires own { AreOwn 0 ops.now }
    requires table { table ≡ table_of ops.now }
    ensures { IfOk result (AnswersWhatIsTold layout.now reading walls.now ops.now) }
{
    let waiting = waiting_of(alloc, layout, walls, ops, &table)?;
    Ok(Answer {
        ranks: layout.ranks(),
        sends: layout.sends(),
        reading,
        matching: matching_of(table),
        waiting,
        foreign: foreign_of(ops),
    })
}
