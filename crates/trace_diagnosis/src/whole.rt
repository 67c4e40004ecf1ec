//! From what is known of a run to its diagnosis.

ghost use Rattle.std.specs.Prelude.{[], ◌≡◌, ◌++◌, ◌<◌, ◌^◌, All, IfOk, None, OnOk, false, length, map, set};
ghost use Rattle.std.specs.List.Sorted.{IsNonDecreasing};
ghost use Rattle.std.specs.List.{flat_map, range_with_len};
ghost use Rattle.std.specs.Option.{option_map};
ghost use Rattle.trace_node.specs.Answer.{IsAnswer};
ghost use Rattle.trace_ops.specs.Ops.{AreOwn};
ghost use Rattle.trace_ops.specs.RankOps.{all_ops};
ghost use Rattle.trace_pair.specs.Table.{table_of};
ghost use Rattle.trace_stuck.specs.Shape.{shape};
ghost use Rattle.trace_wait.specs.Conditions.{does_one_wait};
ghost use Rattle.trace_diagnosis.specs.Askers.{asked_plain, asker, case_conditions, poller_plain, shapes};
ghost use Rattle.trace_diagnosis.specs.Conditions.{asker_told, does_wait, polled_plain, wait_at};
ghost use Rattle.trace_diagnosis.specs.Graph.{has_not_ended};
ghost use Rattle.trace_diagnosis.specs.Holding.{is_held as is_held_by};
ghost use Rattle.trace_diagnosis.specs.LeftOver.{has_sure_loose, unfinished_of};
ghost use Rattle.trace_diagnosis.specs.Roots.{HaveRoots};
ghost use Rattle.trace_diagnosis.specs.Rounds.{AreTold};
ghost use Rattle.trace_diagnosis.specs.Standing.{stands_at, stands_told};
ghost use Rattle.trace_diagnosis.specs.Tails.{polling_at, polling_told};
ghost use Rattle.trace_diagnosis.specs.Unmatched.{IsUnmatched};
ghost use Rattle.trace_diagnosis.specs.Waiting.{IsWaiting, held_by, held_in, held_told, told_conditions};

use crate::conditions::{Case, Poller, conditions_of, held_of, pollers_of, waits_of};
use crate::doubts::doubts_of;
use crate::graph::{Graph, able_of, graph_of};
use crate::holding::is_up;
use crate::inits::Inits;
use crate::loose::is_some_loose;
use crate::operations::operations_of;
use crate::polls::Asked;
use crate::roots::{Ranks, roots_of};
use crate::rounds::rounds_of;
use crate::standing::{by_number, open_among, ops_at, standing_of};
use crate::times::times_of;
use crate::unmatched::{Run, unfinished_in, unmatched_of};
use diagnosis_value::{Diagnosis, Held, Need, Polled, Polling, Root, Rounds, Unmatched, Waiting};
use mpi_model::{Layout, OpName, Sends};
use std::alloc::{AllocError, Global};
use trace_know::Knowledge;
use trace_node::Answer;
use trace_ops::{RankOps, ops_laws};
use trace_pair::{PairTable, pair_all};
use trace_stuck::{Condition, stuck};
use trace_wait::{conditions, entries_of};

/// The ranks that are stuck, in rising order.
fn stuck_ranks(alloc: Global, answer: &Answer) -> Result<Vec<u32>, AllocError>
    ensures { IfOk result (λ ranks. ranks.items ≡ map (λ s. s.rank) answer.now.stuck) }
{
    let mut ranks = Vec::new(alloc);
    for stuck in answer.stuck() {
        ranks.push(stuck.rank)?;
    }
    Ok(ranks)
}

/// What a poll is told with.
fn polled_of(
    alloc: Global,
    active: &[(i64, OpName)],
    asked: &Asked<'_>,
) -> Result<Polled, AllocError>
    ensures { IfOk result (λ p. polled_plain p ≡ asked_plain asked.now) }
{
    let call = asked.call.try_clone()?;
    let open = open_among(alloc, active, asked.call)?;
    Ok(Polled {
        number: asked.number,
        call,
        open,
    })
}

/// What polls are told with.
fn all_polled(
    alloc: Global,
    active: &[(i64, OpName)],
    all: &[Asked<'_>],
) -> Result<Vec<Polled>, AllocError>
    ensures { IfOk result (λ polled. map polled_plain polled.items ≡ map asked_plain all.now) }
{
    let mut polled = Vec::new(alloc);
    for asked in all {
        let one = polled_of(alloc, active, asked)?;
        polled.push(one)?;
    }
    Ok(polled)
}

/// What a poller is told with.
fn polling_of(alloc: Global, poller: &Poller<'_>, own: &RankOps) -> Result<Polling, AllocError>
    ensures polls { IfOk result (λ p. asker_told p ≡ asker poller.now) }
    ensures count { IfOk result (λ p. polling_told p ≡ poller_plain poller.now) }
{
    let active = by_number(alloc, own)?;
    let calls = all_polled(alloc, &active, &poller.asked)?;
    Ok(Polling {
        rank: poller.rank,
        calls,
        count: poller.tail.count,
    })
}

/// The ranks that poll.
fn polls_of(
    alloc: Global,
    pollers: &[Poller<'_>],
    ops: &[RankOps],
) -> Result<Vec<Polling>, AllocError>
    requires { All (λ p. p.rank < length ops.now) pollers.now }
    ensures polls { IfOk result (λ polls. map asker_told polls.items ≡ map asker pollers.now) }
    ensures counts { IfOk result (λ polls. map polling_told polls.items ≡ map poller_plain pollers.now) }
{
    let mut polls = Vec::new(alloc);
    for poller in pollers {
        let one = polling_of(alloc, poller, ops_at(ops, poller.rank))?;
        polls.push(one)?;
    }
    Ok(polls)
}

/// The needs of a rank, each once: ranks first, then rounds.
fn tidy(alloc: Global, needs: &[Need]) -> Result<Vec<Need>, AllocError> {
    let mut each = Vec::from_slice(alloc, needs)?;
    each.sort_by_key(|need| key_of(need))?;
    each.dedup_by_key(|need| key_of(need));
    Ok(each)
}

/// By which the needs of a rank are ordered.
fn key_of(need: &Need) -> (bool, u32, u64) {
    match need {
        Need::Rank(rank) => (false, *rank, 0),
        Need::Round(round) => (true, round.object, round.k),
    }
}

/// What a rank needs.
fn needs_of(graph: &Graph, rank: u32) -> &[Need] {
    match graph.needs.get(rank as usize) {
        Some(needs) => needs,
        None => &[],
    }
}

/// The condition of a rank, moved out of the list.
fn take_at(conditions: &mut [Option<Condition>], rank: u32) -> Option<Condition>
    ensures taken { option_map shape result ≡ wait_at (shapes conditions.old) rank }
    ensures rest { shapes conditions.new ≡ set (shapes conditions.old) rank None }
{
    let place = rank as usize;
    if place < conditions.len() {
        conditions[place].take()
    } else {
        None
    }
}

/// Adds the rank with its condition, where it is held.
fn push_held(
    alloc: Global,
    graph: &Graph,
    is_held: bool,
    rank: u32,
    condition: Option<Condition>,
    found: &mut Vec<Held>,
) -> Result<(), AllocError>
    requires { is_held ≡ is_held_by (option_map shape condition) }
    ensures { OnOk result (map held_told found.new.items ≡ map held_told found.old.items ++ held_by rank (option_map shape condition)) }
{
    let Some(waits) = condition else {
        return Ok(());
    };
    if !is_held {
        return Ok(());
    }
    let needs = tidy(alloc, needs_of(graph, rank))?;
    found.push(Held { rank, waits, needs })?;
    Ok(())
}

/// The held ranks, with their conditions, which are moved.
fn held_ranks(
    alloc: Global,
    graph: &Graph,
    held: &[bool],
    conditions: Vec<Option<Condition>>,
    ranks: u32,
) -> Result<Vec<Held>, AllocError>
    requires { held.now ≡ map is_held_by (shapes conditions.items) }
    ensures { IfOk result (λ found. map held_told found.items ≡ held_in (shapes conditions.items) ranks) }
{
    let mut conditions = conditions;
    let mut found = Vec::new(alloc);
    for rank in 0..ranks {
        let condition = take_at(&mut conditions, rank);
        push_held(alloc, graph, is_up(held, rank), rank, condition, &mut found)?;
    }
    Ok(found)
}

/// Whether some rank waits.
fn does_one_wait(ops: &[RankOps]) -> bool
    ensures { result ≡ does_one_wait ops.now }
{
    for own in ops {
        if own.waiting().is_some() {
            return true;
        }
    }
    false
}

/// The other way in which sends of standard mode can complete.
fn other_way(sends: Sends) -> Sends {
    match sends {
        Sends::Wait => Sends::Buffer,
        Sends::Buffer => Sends::Wait,
    }
}

/// The ranks that are stuck where sends complete in the other way, where they aren't these.
fn other_stuck(
    alloc: Global,
    case: &Case<'_>,
    pairs: &PairTable,
) -> Result<Option<Vec<u32>>, AllocError>
    requires few { length case.now.ops.now < 2 ^ 32 }
    requires own { AreOwn 0 case.now.ops.now }
    requires states { length case.now.answer.now.states < 2 ^ 32 }
{
    let layout = case.layout;
    let other = layout.with_sends(alloc, other_way(layout.sends()))?;
    let conditions = conditions(alloc, &other, case.ops, pairs, case.answer.rounds())?;
    let verdict = stuck(alloc, case.answer.states(), &conditions)?;
    if verdict.stuck.as_slice() == case.stuck {
        Ok(None)
    } else {
        Ok(Some(verdict.stuck))
    }
}

/// Nothing is left over, and nothing starves.
fn nothing_unmatched(alloc: Global, ops: &[RankOps]) -> Result<Unmatched, AllocError>
    ensures left_over { IfOk result (λ u. u.left_over.items ≡ []) }
    ensures starving { IfOk result (λ u. u.starving.items ≡ []) }
    ensures unfinished { IfOk result (λ u. u.unfinished.items ≡ flat_map unfinished_of ops.now) }
{
    Ok(Unmatched {
        left_over: Vec::new(alloc),
        starving: Vec::new(alloc),
        undecided: Vec::new(alloc),
        unfinished: unfinished_in(alloc, ops)?,
    })
}

/// Who waits for whom, which messages and receives found no end, and who is stuck under the other kind of sends.
#[derive(Drop)]
struct Matters {
    held: Vec<Held>,
    roots: Vec<Root>,
    unmatched: Unmatched,
    other_sends: Option<Vec<u32>>,
}

/// The same where no rank waits or polls, and no message is without a pair.
fn no_matters(alloc: Global, ops: &[RankOps]) -> Result<Matters, AllocError>
    ensures held { IfOk result (λ m. m.held.items ≡ []) }
    ensures roots { IfOk result (λ m. m.roots.items ≡ []) }
    ensures left_over { IfOk result (λ m. m.unmatched.left_over.items ≡ []) }
    ensures starving { IfOk result (λ m. m.unmatched.starving.items ≡ []) }
    ensures unfinished { IfOk result (λ m. m.unmatched.unfinished.items ≡ flat_map unfinished_of ops.now) }
{
    let unmatched = nothing_unmatched(alloc, ops)?;
    Ok(Matters {
        held: Vec::new(alloc),
        roots: Vec::new(alloc),
        unmatched,
        other_sends: None,
    })
}

/// What matters of a run.
fn matters_of(alloc: Global, case: &Case<'_>, rounds: &Rounds) -> Result<Matters, AllocError>
    requires few { length case.now.ops.now < 2 ^ 32 }
    requires own { AreOwn 0 case.now.ops.now }
    requires there { All (λ p. p.rank < length case.now.ops.now) case.now.pollers.now }
    requires small { case.now.ranks < 2 ^ 31 }
    requires states { length case.now.answer.now.states < 2 ^ 32 }
    requires all { case.now.ranks ≡ length case.now.ops.now }
    requires rising { IsNonDecreasing case.now.stuck.now }
    requires pairs { case.now.answer.now.pairs ≡ (table_of case.now.ops.now).pairs }
    ensures held { IfOk result (λ m. map held_told m.held.items ≡ held_in (case_conditions case.now) case.now.ranks) }
    ensures roots { IfOk result (λ m. HaveRoots (map has_not_ended case.now.answer.now.states) case.now.ranks (case_conditions case.now) m.roots.items) }
    ensures unmatched { IfOk result (λ m. IsUnmatched case.now.layout.now case.now.ops.now case.now.answer.now.pairs (map asker case.now.pollers.now) (map is_held_by (case_conditions case.now)) (map does_wait (case_conditions case.now)) m.unmatched) }
{
    let pairs = pair_all(alloc, case.ops)?;
    let conditions = conditions_of(alloc, case, &pairs)?;
    let held = held_of(alloc, &conditions)?;
    let waits = waits_of(alloc, &conditions)?;
    let able = able_of(alloc, case.answer.states())?;
    let graph = graph_of(alloc, &able, &conditions, case.ranks)?;
    let ranks = Ranks {
        count: case.ranks,
        states: case.answer.states(),
        waits: &waits,
        held: &held,
        stuck: case.stuck,
    };
    let roots = roots_of(alloc, &graph, &ranks, &rounds.mismatched)?;
    let run = Run {
        layout: case.layout,
        know: case.know,
        ranks: case.ranks,
        ops: case.ops,
        pairs: &pairs,
        pollers: case.pollers,
        waits: &waits,
        held: &held,
    };
    let unmatched = unmatched_of(alloc, &run, case.inits)?;
    let other_sends = other_stuck(alloc, case, &pairs)?;
    let held = held_ranks(alloc, &graph, &held, conditions, case.ranks)?;
    Ok(Matters {
        held,
        roots,
        unmatched,
        other_sends,
    })
}

/// Whether a run has matters: a rank waits or polls, or a message is without a pair.
fn has_matters(case: &Case<'_>) -> bool
    ensures waits { result ≡ false → does_one_wait case.now.ops.now ≡ false }
    ensures polls { result ≡ false → case.now.pollers.now ≡ [] }
    ensures loose { result ≡ false → has_sure_loose case.now.answer.now.pairs case.now.ops.now ≡ false }
{
    does_one_wait(case.ops)
        || !case.pollers.is_empty()
        || is_some_loose(case.answer.pairs(), case.ops)
}

/// What matters of a run, where something does.
fn matters_in(alloc: Global, case: &Case<'_>, rounds: &Rounds) -> Result<Matters, AllocError>
    requires few { length case.now.ops.now < 2 ^ 32 }
    requires own { AreOwn 0 case.now.ops.now }
    requires there { All (λ p. p.rank < length case.now.ops.now) case.now.pollers.now }
    requires small { case.now.ranks < 2 ^ 31 }
    requires states { length case.now.answer.now.states < 2 ^ 32 }
    requires all { case.now.ranks ≡ length case.now.ops.now }
    requires rising { IsNonDecreasing case.now.stuck.now }
    requires pairs { case.now.answer.now.pairs ≡ (table_of case.now.ops.now).pairs }
    ensures held { IfOk result (λ m. map held_told m.held.items ≡ held_in (case_conditions case.now) case.now.ranks) }
    ensures roots { IfOk result (λ m. HaveRoots (map has_not_ended case.now.answer.now.states) case.now.ranks (case_conditions case.now) m.roots.items) }
    ensures unmatched { IfOk result (λ m. IsUnmatched case.now.layout.now case.now.ops.now case.now.answer.now.pairs (map asker case.now.pollers.now) (map is_held_by (case_conditions case.now)) (map does_wait (case_conditions case.now)) m.unmatched) }
{
    if !has_matters(case) {
        let nothing = no_matters(alloc, case.ops)?;
        return Ok(nothing);
    }
    matters_of(alloc, case, rounds)
}

/// The diagnosis of a run.
fn diagnosis_of(alloc: Global, case: &Case<'_>) -> Result<Diagnosis, AllocError>
    requires few { length case.now.ops.now < 2 ^ 32 }
    requires own { AreOwn 0 case.now.ops.now }
    requires there { All (λ p. p.rank < length case.now.ops.now) case.now.pollers.now }
    requires small { case.now.ranks < 2 ^ 31 }
    requires states { length case.now.answer.now.states < 2 ^ 32 }
    requires all { case.now.ranks ≡ length case.now.ops.now }
    requires rising { IsNonDecreasing case.now.stuck.now }
    requires pairs { case.now.answer.now.pairs ≡ (table_of case.now.ops.now).pairs }
    ensures ranks { IfOk result (λ d. d.ranks ≡ case.now.ranks) }
    ensures sends { IfOk result (λ d. d.sends ≡ case.now.answer.now.sends) }
    ensures stuck { IfOk result (λ d. d.stuck.items ≡ case.now.stuck.now) }
    ensures standing { IfOk result (λ d. map stands_told d.waiting.standing.items ≡ map (stands_at case.now.know.now case.now.ops.now case.now.cut.now) (range_with_len 0 case.now.ranks)) }
    ensures polls { IfOk result (λ d. map asker_told d.waiting.polls.items ≡ map asker case.now.pollers.now) }
    ensures counts { IfOk result (λ d. map polling_told d.waiting.polls.items ≡ map poller_plain case.now.pollers.now) }
    ensures held { IfOk result (λ d. map held_told d.waiting.held.items ≡ held_in (case_conditions case.now) case.now.ranks) }
    ensures roots { IfOk result (λ d. HaveRoots (map has_not_ended case.now.answer.now.states) case.now.ranks (case_conditions case.now) d.waiting.roots.items) }
    ensures rounds { IfOk result (λ d. AreTold case.now.layout.now case.now.ops.now case.now.answer.now.rounds d.rounds) }
    ensures unmatched { IfOk result (λ d. IsUnmatched case.now.layout.now case.now.ops.now case.now.answer.now.pairs (map asker case.now.pollers.now) (map is_held_by (case_conditions case.now)) (map does_wait (case_conditions case.now)) d.unmatched) }
{
    let entries = entries_of(alloc, case.ops)?;
    let standing = standing_of(alloc, case.know, case.ops, &entries, case.cut, case.ranks)?;
    let doubts = doubts_of(alloc, case.layout, case.answer, case.know, &standing)?;
    let rounds = rounds_of(alloc, case.layout, &entries, case.answer.rounds())?;
    let matters = matters_in(alloc, case, &rounds)?;
    let stuck = Vec::from_slice(alloc, case.stuck)?;
    let polls = polls_of(alloc, case.pollers, case.ops)?;
    let waiting = Waiting {
        standing,
        polls,
        held: matters.held,
        roots: matters.roots,
    };
    let unmatched = matters.unmatched;
    let operations = operations_of(alloc, case.know, case.inits, &waiting, &rounds, &unmatched)?;
    Ok(Diagnosis {
        ranks: case.ranks,
        sends: case.answer.sends(),
        times: times_of(case.know, case.ranks),
        stuck,
        other_sends: matters.other_sends,
        waiting,
        rounds,
        unmatched,
        doubts,
        operations,
    })
}

/// Tells what holds of the list of what each rank did. It does nothing: it is for proofs.
fn ops_known(layout: &Layout, know: &Knowledge, ops: &[RankOps])
    requires { ops.now ≡ all_ops layout.now know.now }
    ensures few { length ops.now < 2 ^ 32 }
    ensures own { AreOwn 0 ops.now }
    ensures ranks { length ops.now ≡ layout.now.ranks }
{
    let _ = know;
    let _ = ops;
    layout.known();
    ops_laws();
}

/// What holds up a run: a function of what is known of it. `ops` is what each rank did by that, and `answer` the answer to
/// it; `cut[r]` says that the readable prefix of rank r ends where its text was cut off. Fails with `AllocError` when
/// memory is refused.
pub fn diagnose(
    alloc: Global,
    layout: &Layout,
    ops: &[RankOps],
    answer: &Answer,
    know: &Knowledge,
    cut: &[bool],
) -> Result<Diagnosis, AllocError>
    requires answer { IsAnswer layout.now know.now answer.now }
    requires did { ops.now ≡ all_ops layout.now know.now }
    ensures ranks { IfOk result (λ d. d.ranks ≡ layout.now.ranks) }
    ensures sends { IfOk result (λ d. d.sends ≡ layout.now.sends) }
    ensures stuck { IfOk result (λ d. d.stuck.items ≡ map (λ s. s.rank) answer.now.stuck) }
    ensures standing { IfOk result (λ d. map stands_told d.waiting.standing.items ≡ map (stands_at know.now (all_ops layout.now know.now) cut.now) (range_with_len 0 layout.now.ranks)) }
    ensures polls { IfOk result (λ d. map polling_told d.waiting.polls.items ≡ flat_map (polling_at know.now (all_ops layout.now know.now) cut.now) (range_with_len 0 layout.now.ranks)) }
    ensures rounds { IfOk result (λ d. AreTold layout.now (all_ops layout.now know.now) answer.now.rounds d.rounds) }
    ensures waiting { IfOk result (λ d. IsWaiting (map has_not_ended answer.now.states) layout.now.ranks
        (told_conditions layout.now know.now cut.now answer.now d.waiting.polls.items) d.waiting) }
    ensures unmatched { IfOk result (λ d. IsUnmatched layout.now (all_ops layout.now know.now) answer.now.pairs (map asker_told d.waiting.polls.items)
        (map is_held_by (told_conditions layout.now know.now cut.now answer.now d.waiting.polls.items))
        (map does_wait (told_conditions layout.now know.now cut.now answer.now d.waiting.polls.items)) d.unmatched) }
{
    let ranks = layout.ranks();
    ops_known(layout, know, ops);
    let inits = Inits::of(alloc, know, ranks)?;
    let pollers = pollers_of(alloc, know, ops, cut, ranks)?;
    let stuck = stuck_ranks(alloc, answer)?;
    let case = Case {
        layout,
        answer,
        know,
        cut,
        ranks,
        ops,
        pollers: &pollers,
        inits: &inits,
        stuck: &stuck,
    };
    diagnosis_of(alloc, &case)
}
