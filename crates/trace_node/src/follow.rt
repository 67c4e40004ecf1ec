//! The index of the pairs, as more is known: it is followed rank by rank, and a rank can be left as it
//! was known before.

ghost use Rattle.std.specs.Prelude.{◌≡◌, ◌<◌, ◌+◌, Some, IsTrue, IfOk, IfSome, OnOk, slice_get, slice_set};
ghost use Rattle.trace_ops.specs.RankOps.{all_ops};
ghost use Rattle.trace_node.specs.Following.{IsFollowing, IsFollowedTo, reach_of, reaches_of};

use mpi_model::Layout;
use std::alloc::{AllocError, Global};
use trace_know::{Knowledge, growth_laws};
use trace_ops::{all_ops, ops_laws, ops_of};
use trace_pair::PairIndex;

/// How far a rank is known: its readable prefix, and whether more is known past it.
#[derive(Clone, Copy)]
pub(crate) struct Reach {
    pub prefix: u64,
    pub beyond: bool,
}

/// The index of the pairs, and how far each rank was known when its calls came in.
#[derive(Drop)]
pub(crate) struct Followed {
    pub index: PairIndex,
    pub reaches: Vec<Reach>,
}

/// How far a rank is known.
fn reach_of(know: &Knowledge, rank: u32) -> Reach
    ensures { result ≡ reach_of know.now rank }
{
    Reach {
        prefix: know.prefix(rank),
        beyond: know.beyond(rank),
    }
}

/// How far each rank is known.
fn reaches_of(alloc: Global, layout: &Layout, know: &Knowledge) -> Result<Vec<Reach>, AllocError>
    ensures { IfOk result (λ v. v.items ≡ reaches_of layout.now know.now) }
{
    let mut reaches = Vec::new(alloc);
    for rank in 0..layout.ranks() {
        reaches.push(reach_of(know, rank))?;
    }
    Ok(reaches)
}

/// Whether the rank is known as far as it was.
fn is_unchanged(know: &Knowledge, reaches: &[Reach], rank: u32) -> bool
    ensures { IsTrue result → slice_get reaches.now rank ≡ Some (reach_of know.now rank) }
{
    match reaches.get(rank as usize) {
        Some(reach) => reach.prefix == know.prefix(rank) && reach.beyond == know.beyond(rank),
        None => false,
    }
}

impl Followed {
    /// All that is known, from nothing.
    fn of_all(alloc: Global, layout: &Layout, know: &Knowledge) -> Result<Followed, AllocError>
        ensures follows { IfOk result (λ f. IsFollowing layout.now know.now f) }
        ensures index { IfOk result (λ f. f.index ≡ all_ops layout.now know.now) }
    {
        ops_laws();
        let reaches = reaches_of(alloc, layout, know)?;
        let index = PairIndex::of_all(alloc, all_ops(alloc, layout, know)?)?;
        Ok(Followed { index, reaches })
    }

    /// Follows one rank: its calls are added to, or cut back. Where memory is refused, no call of any
    /// rank is left in the index.
    fn follow_rank(
        &mut self,
        alloc: Global,
        layout: &Layout,
        know: &Knowledge,
        rank: u32,
    ) -> Result<(), AllocError>
        requires rank { rank < layout.now.ranks }
        requires follows { IsFollowing layout.now know.now self.old }
        ensures follows { OnOk result (IsFollowing layout.now know.now self.new) }
        ensures reaches { OnOk result (self.new.reaches.items ≡ slice_set self.old.reaches.items rank (reach_of know.now rank)) }
    {
        ops_laws();
        self.index.set(rank, ops_of(alloc, layout, know, rank)?)?;
        self.reaches[rank as usize] = reach_of(know, rank);
        Ok(())
    }

    /// Follows the next rank, where it isn't known as far as it was.
    fn follow_next(
        &mut self,
        alloc: Global,
        layout: &Layout,
        know: &Knowledge,
        rank: u32,
    ) -> Result<(), AllocError>
        requires rank { rank < layout.now.ranks }
        requires followed { IsFollowedTo layout.now know.now rank self.old }
        ensures { OnOk result (IsFollowedTo layout.now know.now (rank + 1) self.new) }
    {
        if is_unchanged(know, &self.reaches, rank) {
            return Ok(());
        }
        self.follow_rank(alloc, layout, know, rank)
    }

    /// Follows the ranks that aren't known as far as they were.
    fn follow_all(
        &mut self,
        alloc: Global,
        layout: &Layout,
        know: &Knowledge,
    ) -> Result<(), AllocError>
        requires { IsFollowing layout.now know.now self.old }
        ensures follows { OnOk result (IsFollowing layout.now know.now self.new) }
        ensures index { OnOk result (self.new.index ≡ all_ops layout.now know.now) }
    {
        growth_laws();
        for rank in 0..layout.ranks() {
            self.follow_next(alloc, layout, know, rank)?;
        }
        Ok(())
    }
}

/// The index of all that is known, from an older one, where it is kept.
pub(crate) fn caught_up(
    alloc: Global,
    layout: &Layout,
    know: &Knowledge,
    before: Option<Followed>,
) -> Result<Followed, AllocError>
    requires { IfSome before (IsFollowing layout.now know.now) }
    ensures follows { IfOk result (λ f. IsFollowing layout.now know.now f) }
    ensures index { IfOk result (λ f. f.index ≡ all_ops layout.now know.now) }
{
    let Some(mut followed) = before else {
        return Followed::of_all(alloc, layout, know);
    };
    followed.follow_all(alloc, layout, know)?;
    Ok(followed)
}
