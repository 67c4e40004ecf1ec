//! Whether a condition holds where these ranks can go on.

ghost use Rattle.std.specs.Prelude.{◌≡◌, ◌||◌, ◌==◌, ℕ, List, Bool, true, false};
ghost use Rattle.std.specs.List.{list_any, list_all};
ghost use Rattle.trace_stuck.specs.Holds.{holds, may_go};
ghost use Rattle.trace_stuck.specs.Queue.{flag};

use crate::condition::Condition;

/// Says which ranks can go on.
pub(crate) trait Able {
    ghost able: { Self → ℕ → Bool };

    /// Whether the rank can go on.
    fn can_go(&self, r: u32) -> bool
        ensures { result ≡ able self.now r };
}

/// The ranks whose flag is up.
#[derive(Drop)]
pub(crate) struct Flags<'a> {
    pub flags: &'a [bool],
}

impl<'a> Able for Flags<'a> {
    ghost able = { λ f. flag f.flags.now };

    fn can_go(&self, r: u32) -> bool {
        flag_at(self.flags, r as usize)
    }
}

/// The flag of a rank: false if the list has none for it.
pub(crate) fn flag_at(flags: &[bool], r: usize) -> bool
    ensures { result ≡ flag flags.now r }
{
    flags.get(r).copied().unwrap_or(false)
}

/// Whether one of these ranks can go on.
fn can_some_go<A: Able>(able: &A, ranks: &[u32]) -> bool
    ensures { result ≡ list_any (A.able able.now) ranks.now }
{
    for r in ranks {
        if able.can_go(*r) {
            return true;
        }
    }
    false
}

/// Whether each of these ranks can go on.
fn can_each_go<A: Able>(able: &A, ranks: &[u32]) -> bool
    ensures { result ≡ list_all (A.able able.now) ranks.now }
{
    for r in ranks {
        if !able.can_go(*r) {
            return false;
        }
    }
    true
}

/// Whether a condition holds where just these ranks can go on.
#[cycle(hold)]
fn does_hold<A: Able>(able: &A, condition: &Condition) -> bool
    ensures { result ≡ holds (A.able able.now) condition.now }
{
    match condition {
        Condition::Yes => true,
        Condition::Rank(r) => able.can_go(*r),
        Condition::All(all) => does_each_hold(able, all),
        Condition::One(all) => does_some_hold(able, all),
        Condition::OneRank(ranks) => can_some_go(able, ranks),
        Condition::AllRanks(ranks) => can_each_go(able, ranks),
        Condition::Mismatched(_) => true,
    }
}

/// Whether each of the parts does.
#[cycle(hold)]
fn does_each_hold<A: Able>(able: &A, parts: &[Condition]) -> bool
    ensures { result ≡ list_all (holds (A.able able.now)) parts.now }
{
    for c in parts {
        if !does_hold(able, c) {
            return false;
        }
    }
    true
}

/// Whether one of the parts does.
#[cycle(hold)]
fn does_some_hold<A: Able>(able: &A, parts: &[Condition]) -> bool
    ensures { result ≡ list_any (holds (A.able able.now)) parts.now }
{
    for c in parts {
        if does_hold(able, c) {
            return true;
        }
    }
    false
}

/// Whether a rank has a condition, and it holds where just these ranks can go on.
pub(crate) fn may_rank_go<A: Able>(conditions: &[Option<Condition>], able: &A, r: usize) -> bool
    ensures { result ≡ may_go conditions.now (A.able able.now) r }
{
    match conditions.get(r) {
        Some(Some(c)) => does_hold(able, c),
        _ => false,
    }
}
