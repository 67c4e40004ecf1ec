//! Whether conditions hold, and what holds up ranks whose conditions don't.
//!
//! A round whose calls don't match never ends: the verdict on stuck ranks takes a call of it as one that may go on,
//! since MPI says nothing of such programs. Here it holds up every rank that is in it.

ghost use Rattle.std.specs.Prelude.{◌≡◌, ◌++◌, ◌∷◌, [], ℕ, false, OnOk, not, filter, map};
ghost use Rattle.std.specs.List.{flat_map, list_all, list_any};
ghost use Rattle.trace_stuck.specs.Graph.{is_up};
ghost use Rattle.trace_stuck.specs.Shape.{shape};
ghost use Rattle.trace_diagnosis.specs.Holding.{going, holds, is_other, nobody};
ghost use Rattle.trace_diagnosis.specs.Needs.{needs_of};
ghost use Rattle.trace_diagnosis.specs.Parts.{of_parts, of_rank, of_ranks, unmet};

use diagnosis_value::Need;
use std::alloc::AllocError;
use trace_stuck::Condition;

/// The ranks that can go on, without one of them.
#[derive(Clone, Copy)]
pub(crate) struct Going<'a> {
    /// For each rank, whether it can go on.
    pub able: &'a [bool],
    pub but: Option<u32>,
}

/// The case that no rank can go on.
pub(crate) fn nobody() -> Going<'static>
    ensures { (r : ℕ) → going result r ≡ false }
{
    Going {
        able: &[],
        but: None,
    }
}

/// The flag of a rank: down where the list has none.
pub(crate) fn is_up(flags: &[bool], rank: u32) -> bool
    ensures { result ≡ is_up flags.now rank }
{
    flags.get(rank as usize).copied().unwrap_or(false)
}

/// Whether the rank is another one.
fn is_other(but: Option<u32>, rank: u32) -> bool
    ensures { result ≡ is_other but rank }
{
    match but {
        Some(but) => but != rank,
        None => true,
    }
}

impl<'a> Going<'a> {
    /// Whether the rank can go on.
    fn can(&self, rank: u32) -> bool
        ensures { result ≡ going self.now rank }
    {
        is_up(self.able, rank) && is_other(self.but, rank)
    }

    /// Whether one of the ranks can go on.
    fn can_one(&self, ranks: &[u32]) -> bool
        ensures { result ≡ list_any (going self.now) ranks.now }
    {
        for rank in ranks {
            if self.can(*rank) {
                return true;
            }
        }
        false
    }

    /// Whether all of the ranks can go on.
    fn can_all(&self, ranks: &[u32]) -> bool
        ensures { result ≡ list_all (going self.now) ranks.now }
    {
        for rank in ranks {
            if !self.can(*rank) {
                return false;
            }
        }
        true
    }
}

/// Whether the condition holds where these ranks can go on.
#[cycle(holds)]
pub(crate) fn holds_by(condition: &Condition, able: &Going<'_>) -> bool
    ensures { result ≡ holds (going able.now) (shape condition.now) }
{
    match condition {
        Condition::Yes => true,
        Condition::Mismatched(_) => false,
        Condition::Rank(rank) => able.can(*rank),
        Condition::All(parts) => all_hold_by(parts, able),
        Condition::One(parts) => some_hold_by(parts, able),
        Condition::OneRank(ranks) => able.can_one(ranks),
        Condition::AllRanks(ranks) => able.can_all(ranks),
    }
}

/// Whether all of the parts hold.
#[cycle(holds)]
fn all_hold_by(parts: &[Condition], able: &Going<'_>) -> bool
    ensures { result ≡ list_all (λ c. holds (going able.now) (shape c)) parts.now }
{
    for part in parts {
        if !holds_by(part, able) {
            return false;
        }
    }
    true
}

/// Whether one of the parts holds.
#[cycle(holds)]
fn some_hold_by(parts: &[Condition], able: &Going<'_>) -> bool
    ensures { result ≡ list_any (λ c. holds (going able.now) (shape c)) parts.now }
{
    for part in parts {
        if holds_by(part, able) {
            return true;
        }
    }
    false
}

/// Whether the condition doesn't hold where no rank can go on.
pub(crate) fn is_unmet(condition: &Condition) -> bool
    ensures { result ≡ not (holds nobody (shape condition.now)) }
{
    !holds_by(condition, &nobody())
}

/// Adds each of the ranks.
fn push_all(needs: &mut Vec<Need>, ranks: &[u32]) -> Result<(), AllocError>
    ensures { OnOk result (needs.new.items ≡ needs.old.items ++ map of_rank ranks.now) }
{
    for rank in ranks {
        needs.push(Need::Rank(*rank))?;
    }
    Ok(())
}

/// Adds those of the ranks that can go on.
fn push_going(needs: &mut Vec<Need>, others: &Going<'_>, ranks: &[u32]) -> Result<(), AllocError>
    ensures { OnOk result (needs.new.items ≡ needs.old.items ++ map of_rank (filter (going others.now) ranks.now)) }
{
    for rank in ranks {
        if others.can(*rank) {
            needs.push(Need::Rank(*rank))?;
        }
    }
    Ok(())
}

/// Adds what a one-of of ranks needs: those that may still go on, or all where none may.
fn push_one(needs: &mut Vec<Need>, others: &Going<'_>, ranks: &[u32]) -> Result<(), AllocError>
    ensures { OnOk result (needs.new.items ≡ needs.old.items ++ of_ranks (going others.now) ranks.now) }
{
    if others.can_one(ranks) {
        push_going(needs, others, ranks)
    } else {
        push_all(needs, ranks)
    }
}

/// Adds one need.
fn push_need(needs: &mut Vec<Need>, need: Need) -> Result<(), AllocError>
    ensures { OnOk result (needs.new.items ≡ needs.old.items ++ need ∷ []) }
{
    needs.push(need)?;
    Ok(())
}

/// Adds what a condition needs that doesn't hold where no rank can go on. `others` are all ranks but the one that
/// waits, as far as they haven't ended.
#[cycle(needs)]
pub(crate) fn push_needs(
    needs: &mut Vec<Need>,
    others: &Going<'_>,
    condition: &Condition,
) -> Result<(), AllocError>
    ensures { OnOk result (needs.new.items ≡ needs.old.items ++ needs_of (going others.now) (shape condition.now)) }
{
    match condition {
        Condition::Yes => Ok(()),
        Condition::Mismatched(round) => push_need(needs, Need::Round(*round)),
        Condition::Rank(rank) => push_need(needs, Need::Rank(*rank)),
        Condition::All(parts) => push_of_all(needs, others, parts),
        Condition::One(parts) => push_of_one(needs, others, parts),
        Condition::OneRank(ranks) => push_one(needs, others, ranks),
        Condition::AllRanks(ranks) => push_all(needs, ranks),
    }
}

/// Adds what the parts of an all-of need that don't hold.
#[cycle(needs)]
fn push_of_all(
    needs: &mut Vec<Need>,
    others: &Going<'_>,
    parts: &[Condition],
) -> Result<(), AllocError>
    ensures { OnOk result (needs.new.items ≡ needs.old.items ++ flat_map (λ c. unmet (going others.now) (shape c)) parts.now) }
{
    for part in parts {
        if is_unmet(part) {
            push_needs(needs, others, part)?;
        }
    }
    Ok(())
}

/// Adds what the parts of a one-of need: of those that the others may let hold, where there are such, and else of all.
#[cycle(needs)]
fn push_of_one(
    needs: &mut Vec<Need>,
    others: &Going<'_>,
    parts: &[Condition],
) -> Result<(), AllocError>
    ensures { OnOk result (needs.new.items ≡ needs.old.items ++ of_parts (going others.now) parts.now) }
{
    let may_hold = some_hold_by(parts, others);
    for part in parts {
        if !may_hold || holds_by(part, others) {
            push_needs(needs, others, part)?;
        }
    }
    Ok(())
}
