//! Which ranks ask for a rank: the ranks whose condition names it.

ghost use Rattle.std.specs.Prelude.{◌≡◌, ◌<◌, ◌≤◌, ◌^◌, ◌++◌, [], ℕ, true, IfOk, OnOk, length, vec_len};
ghost use Rattle.std.specs.List.{flat_map, list_all};
ghost use Rattle.trace_stuck.specs.Release.{among};
ghost use Rattle.trace_stuck.specs.Named.{named, names, Asks, NotesAll, IsAskedBy, at_rank};

use crate::condition::Condition;
use std::alloc::{AllocError, Global};

/// Whether the rank is the last that was noted at s.
fn is_last_noted(askers: &[Vec<u32>], s: u32, r: u32) -> bool
    ensures { result ≡ true → among (at_rank askers.now s) r ≡ true }
{
    let noted = askers_at(askers, s);
    let count = noted.len();
    count > 0 && noted[count - 1] == r
}

/// Notes that the rank r asks for s.
fn push_asker(askers: &mut [Vec<u32>], s: u32, r: u32) -> Result<(), AllocError>
    ensures { OnOk result (Asks askers.old askers.new s r) }
{
    let at = s as usize;
    if at < askers.len() {
        askers[at].push(r)?;
    }
    Ok(())
}

/// Notes at s that r names it. A condition that names s many times is noted there once, since its
/// notes come one after another.
fn note(askers: &mut [Vec<u32>], s: u32, r: u32) -> Result<(), AllocError>
    ensures { OnOk result (Asks askers.old askers.new s r) }
{
    if is_last_noted(askers, s, r) {
        Ok(())
    } else {
        push_asker(askers, s, r)
    }
}

/// Notes that the rank r asks for each of these ranks.
pub(crate) fn note_all(askers: &mut [Vec<u32>], ranks: &[u32], r: u32) -> Result<(), AllocError>
    ensures { OnOk result (NotesAll askers.old askers.new ranks.now r) }
{
    for s in ranks {
        note(askers, *s, r)?;
    }
    Ok(())
}

/// Notes r at the ranks that the condition names.
#[cycle(names)]
fn note_named(askers: &mut [Vec<u32>], condition: &Condition, r: u32) -> Result<(), AllocError>
    ensures { OnOk result (NotesAll askers.old askers.new (named condition.now) r) }
{
    match condition {
        Condition::Yes => Ok(()),
        Condition::Rank(s) => note(askers, *s, r),
        Condition::All(all) => note_each_named(askers, all, r),
        Condition::One(all) => note_each_named(askers, all, r),
        Condition::OneRank(ranks) => note_all(askers, ranks, r),
        Condition::AllRanks(ranks) => note_all(askers, ranks, r),
        Condition::Mismatched(_) => Ok(()),
    }
}

/// Notes that the rank r asks for each rank that these parts name.
#[cycle(names)]
fn note_each_named(askers: &mut [Vec<u32>], parts: &[Condition], r: u32) -> Result<(), AllocError>
    ensures { OnOk result (NotesAll askers.old askers.new (flat_map named parts.now) r) }
{
    for c in parts {
        note_named(askers, c, r)?;
    }
    Ok(())
}

/// Notes r at the ranks that its condition names.
fn note_names(
    askers: &mut [Vec<u32>],
    conditions: &[Option<Condition>],
    r: u32,
) -> Result<(), AllocError>
    ensures { OnOk result (NotesAll askers.old askers.new (names conditions.now r) r) }
{
    match conditions.get(r as usize) {
        Some(Some(c)) => note_named(askers, c, r),
        _ => Ok(()),
    }
}

/// This many ranks, none of which is named by a condition.
pub(crate) fn no_askers(alloc: Global, count: usize) -> Result<Vec<Vec<u32>>, AllocError>
    ensures len { IfOk result (λ a. vec_len a ≡ count) }
    ensures none { IfOk result (λ a. (s : ℕ) → at_rank a.items s ≡ []) }
{
    let mut askers = Vec::new(alloc);
    for _ in 0..count {
        askers.push(Vec::new(alloc))?;
    }
    Ok(askers)
}

/// For each rank below `count`, the ranks whose condition names it.
pub(crate) fn askers_of(
    alloc: Global,
    conditions: &[Option<Condition>],
    count: usize,
) -> Result<Vec<Vec<u32>>, AllocError>
    requires { count < 2 ^ 32 }
    ensures len { IfOk result (λ a. vec_len a ≡ count) }
    ensures asked { IfOk result (λ a. IsAskedBy conditions.now count count a.items) }
{
    let mut askers = no_askers(alloc, count)?;
    for r in 0..count {
        note_names(&mut askers, conditions, r as u32)?;
    }
    Ok(askers)
}

/// The ranks that name this one.
pub(crate) fn askers_at(askers: &[Vec<u32>], s: u32) -> &[u32]
    ensures { result.now ≡ at_rank askers.now s }
{
    match askers.get(s as usize) {
        Some(list) => list,
        None => &[],
    }
}
