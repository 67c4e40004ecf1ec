//! The mismatched rounds, looked up by communicator and k, and where a row of them begins.

ghost use Rattle.std.specs.Prelude.{◌≡◌, ◌-◌, ◌&&◌, ℕ, nat_lt, IfOk, OnOk};
ghost use Rattle.std.specs.BTreeMap.{get};
ghost use Rattle.std.specs.BTreeSet.{contains};
ghost use Rattle.trace_wait.specs.Patterns.{place_cmp};
ghost use Rattle.trace_wait.specs.Collectives.{first_in_row, is_mismatch, is_mismatched_at, is_mismatched_in};
ghost use Rattle.trace_wait.specs.Sets.{AreFirsts, Notes, NotesFirst};

use crate::round::{Round, Standing};
use crate::sets::note;
use std::alloc::{AllocError, Global};
use std::collections::{BTreeMap, BTreeSet};
use std::marker::Model;

/// The communicator and the number of a round.
type Place = (u32, u64);

/// Of rounds the number of the first one of their row, by their places.
type Firsts = BTreeMap<Place, u64>;

/// Rounds, with the places of the mismatched ones among them, and the first one of their row.
#[derive(Drop)]
pub(crate) struct Mismatches<'a> {
    rounds: &'a [Round],
    places: BTreeSet<Place>,
    firsts: Firsts,
}

impl<'a> Model for Mismatches<'a> {
    ghost use Rattle.std.specs.Prelude.{◌≡◌, ℕ, List};
    ghost use Rattle.std.specs.BTreeSet.{contains};
    ghost use Rattle.trace_wait.specs.declared.round.Round.{Round as One};
    ghost use Rattle.trace_wait.specs.Patterns.{place_cmp};
    ghost use Rattle.trace_wait.specs.Collectives.{is_mismatched_in};
    ghost use Rattle.trace_wait.specs.Sets.{AreFirsts};

    ghost Value = { List One };

    ghost view = { λ s. s.rounds.now };

    ghost invariant = { λ s.
        ((c k : ℕ) → contains place_cmp s.places (c, k) ≡ is_mismatched_in s.rounds.now c k)
        × AreFirsts s.rounds.now s.firsts };
}

/// Whether functions or roots differ.
fn is_mismatch(standing: Standing) -> bool
    ensures { result ≡ is_mismatch standing }
{
    match standing {
        Standing::Mismatched => true,
        Standing::Complete(_, _) => false,
        Standing::Partial(_, _, _, _) => false,
    }
}

/// Notes a round that is mismatched.
fn note_round(round: &Round, set: &mut BTreeSet<Place>) -> Result<(), AllocError>
    ensures { OnOk result (Notes place_cmp (λ place. is_mismatched_at place.0 place.1 round.now) set.old set.new) }
{
    if !is_mismatch(round.standing) {
        return Ok(());
    }
    note(set, (round.comm, round.k))?;
    Ok(())
}

/// The communicator and the number of each mismatched round.
fn places_of(alloc: Global, rounds: &[Round]) -> Result<BTreeSet<Place>, AllocError>
    ensures { IfOk result (λ s. (c k : ℕ) → contains place_cmp s (c, k) ≡ is_mismatched_in rounds.now c k) }
{
    let mut set = BTreeSet::new(alloc);
    for round in rounds {
        note_round(round, &mut set)?;
    }
    Ok(set)
}

/// The number of the first round of a row, where it was noted for a round.
fn noted(firsts: &Firsts, comm: u32, k: u64) -> Option<u64>
    ensures { result ≡ get place_cmp firsts.now (comm, k) }
{
    firsts.get(&(comm, k)).copied()
}

/// Notes the first round of a row for a round.
fn note_first(firsts: &mut Firsts, comm: u32, k: u64, first: u64) -> Result<(), AllocError>
    ensures { OnOk result (NotesFirst comm k first firsts.old firsts.new) }
{
    firsts.insert((comm, k), first)?;
    Ok(())
}

/// Whether the round before round k of the communicator is mismatched.
fn is_behind_another(places: &BTreeSet<Place>, comm: u32, k: u64) -> bool
    ensures { result ≡ (nat_lt 0 k && contains place_cmp places.now (comm, k - 1)) }
{
    k > 0 && places.contains(&(comm, k - 1))
}

/// The first of the mismatched rounds in a row that end with round k: it is looked for backwards, up to a round for
/// which it was noted.
fn first_of(rounds: &[Round], places: &BTreeSet<Place>, firsts: &Firsts, comm: u32, k: u64) -> u64
    requires places { (c n : ℕ) → contains place_cmp places.now (c, n) ≡ is_mismatched_in rounds.now c n }
    requires firsts { AreFirsts rounds.now firsts.now }
    ensures { result ≡ first_in_row rounds.now comm k }
{
    let _rounds = rounds;
    let mut at = k;
    while is_behind_another(places, comm, at) {
        at -= 1;
        if let Some(first) = noted(firsts, comm, at) {
            return first;
        }
    }
    at
}

/// Notes the first round of its row for a round that is mismatched.
fn note_row(
    rounds: &[Round],
    places: &BTreeSet<Place>,
    firsts: &mut Firsts,
    round: &Round,
) -> Result<(), AllocError>
    requires places { (c n : ℕ) → contains place_cmp places.now (c, n) ≡ is_mismatched_in rounds.now c n }
    requires firsts { AreFirsts rounds.now firsts.old }
    ensures { OnOk result (AreFirsts rounds.now firsts.new) }
{
    if !is_mismatch(round.standing) {
        return Ok(());
    }
    let first = first_of(rounds, places, firsts, round.comm, round.k);
    note_first(firsts, round.comm, round.k, first)?;
    Ok(())
}

/// For each mismatched round the first one of its row. Where the rounds come in their order, each is found at once.
fn firsts_of(
    alloc: Global,
    rounds: &[Round],
    places: &BTreeSet<Place>,
) -> Result<Firsts, AllocError>
    requires { (c n : ℕ) → contains place_cmp places.now (c, n) ≡ is_mismatched_in rounds.now c n }
    ensures { IfOk result (AreFirsts rounds.now) }
{
    let mut firsts = Firsts::new(alloc);
    for round in rounds {
        note_row(rounds, places, &mut firsts, round)?;
    }
    Ok(firsts)
}

/// The mismatched rounds among these, ready to be asked for.
pub(crate) fn mismatched_rounds<'a>(
    alloc: Global,
    rounds: &'a [Round],
) -> Result<Mismatches<'a>, AllocError>
    ensures { IfOk result (λ s. s ≡ rounds.now) }
{
    let places = places_of(alloc, rounds)?;
    let firsts = firsts_of(alloc, rounds, &places)?;
    Ok(Mismatches {
        rounds,
        places,
        firsts,
    })
}

impl<'a> Mismatches<'a> {
    /// Whether round k of the communicator is mismatched.
    pub fn has(&self, comm: u32, k: u64) -> bool
        ensures { result ≡ is_mismatched_in self.now comm k }
    {
        self.places.contains(&(comm, k))
    }

    /// The first of the mismatched rounds in a row that end with round k.
    pub fn first_in_row(&self, comm: u32, k: u64) -> u64
        ensures { result ≡ first_in_row self.now comm k }
    {
        first_of(self.rounds, &self.places, &self.firsts, comm, k)
    }
}
