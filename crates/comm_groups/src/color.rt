//! Splitting a communicator (MPI 4.0, 7.4.2).

ghost use Rattle.std.specs.Prelude.{◌≡◌, ◌≢◌, ◌<◌, ◌≤◌, All, IfOk, length, map, slice_index_or, take};
ghost use Rattle.std.specs.List.{flat_map};
ghost use Rattle.std.specs.List.Sorted.{IsNonDecreasingBy, IsStrictlyIncreasing};
ghost use Rattle.comm_groups.specs.Splits.{IsSplit, colored};

use std::alloc::{AllocError, Global};
use std::marker::Model;

/// A rank of the parent that names a color, with its key. They compare by the color, then the key, then the rank.
#[derive(Clone, Copy, PartialEq, Eq, PartialOrd, Ord)]
pub struct Colored {
    pub color: u32,
    /// By which the members of one color are ordered.
    pub key: i32,
    /// Its rank in the parent.
    pub rank: u32,
}

/// The members of one color: their ranks in the parent, in the order of their new ranks.
#[derive(Drop)]
pub struct ColorGroup {
    pub color: u32,
    pub ranks: Vec<u32>,
}

impl Model for ColorGroup {
    ghost use Rattle.comm_groups.specs.Splits.{Group};

    ghost Value = { Group };

    ghost view = { λ g. record { color = g.color; ranks = g.ranks.items } };
}

impl ColorGroup {
    fn new(color: u32, ranks: Vec<u32>) -> ColorGroup
        ensures { result ≡ record { color = color; ranks = ranks.items } }
    {
        ColorGroup { color, ranks }
    }
}

/// How many ranks of this color come first.
fn run_length(rest: &[Colored], color: u32) -> usize
    ensures within { result ≤ length rest.now }
    ensures same { All (λ e. e.color ≡ color) (take result rest.now) }
    ensures next { (d : Colored) → result < length rest.now → (slice_index_or rest.now result d).color ≢ color }
{
    let mut count = 0;
    for asked in rest {
        if asked.color != color {
            return count;
        }
        count += 1;
    }
    count
}

/// The ranks of these members, in their order.
fn ranks_of(alloc: Global, run: &[Colored]) -> Result<Vec<u32>, AllocError>
    ensures { IfOk result (λ v. v.items ≡ map (λ e. e.rank) run.now) }
{
    run.iter().map(|asked| asked.rank).collect(alloc)
}

/// The groups of a list in which no color falls.
fn groups_of(alloc: Global, order: &[Colored]) -> Result<Vec<ColorGroup>, AllocError>
    requires { IsNonDecreasingBy (λ e. e.color) order.now }
    ensures all { IfOk result (λ v. flat_map colored v.items ≡ map (λ e. (e.color, e.rank)) order.now) }
    ensures some { IfOk result (λ v. All (λ g. 0 < length g.ranks) v.items) }
    ensures rising { IfOk result (λ v. IsStrictlyIncreasing (map (λ g. g.color) v.items)) }
{
    let mut groups = Vec::new(alloc);
    let mut rest = order;
    while let Some(first) = rest.first() {
        let color = first.color;
        let (run, behind) = rest.split_at(run_length(rest, color));
        groups.push(ColorGroup::new(color, ranks_of(alloc, run)?))?;
        rest = behind;
    }
    Ok(groups)
}

/// For each color, in rising order, the ranks that name it, in the order of their keys and then of their ranks in the
/// parent (MPI 4.0, 7.4.2). It sorts, in n log n. Fails with `AllocError` when memory is refused.
pub fn split(alloc: Global, asked: Vec<Colored>) -> Result<Vec<ColorGroup>, AllocError>
    ensures { IfOk result (λ v. IsSplit asked.items v.items) }
{
    let mut order = asked;
    order.sort()?;
    groups_of(alloc, &order)
}
