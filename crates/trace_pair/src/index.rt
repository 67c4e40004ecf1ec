//! An index of the pairs that follows the ops of the ranks as they grow and are cut back.

ghost use Rattle.std.specs.Prelude.{◌≡◌, ◌<◌, List, All, OnOk, OnErr, IfOk, IfSome, length, slice_set, slice_index_or};
ghost use Rattle.trace_ops.specs.Ops.{IsOwn, AreOwn, Grows, Ops, no_ops};
ghost use Rattle.trace_ops.specs.Order.{AreInOrder, ArePosted};
ghost use Rattle.trace_pair.specs.Calls.{IsSingle};
ghost use Rattle.trace_pair.specs.Certainty.{AreCertain, AreAllSettled, AreLegal, AreNoneAfter, AreTheOnlyLegal};
ghost use Rattle.trace_pair.specs.Kept.{IfSets, IsFollowed};
ghost use Rattle.trace_pair.specs.Reach.{RenewsReach};
ghost use Rattle.trace_pair.specs.Table.{fresh, table_of};

use crate::follow::{add_calls, drop_calls};
use crate::matched::Matched;
use crate::reach::{RankReach, reaches_of, renew};
use crate::scratch::pair_all;
use crate::table::PairTable;
use crate::together::add_ranks;
use crate::whole::{has_several, some_has_several};
use std::alloc::{AllocError, Global};
use std::marker::Model;
use std::mem::replace;
use trace_ops::RankOps;

/// The sets that follow the held ops, and the table by which they ask what comes after a receive.
#[derive(Drop)]
pub(crate) struct Followed {
    sets: Matched,
    table: Vec<RankReach>,
}

/// Whether sets follow the held ops.
#[derive(Drop)]
pub(crate) enum Following {
    /// No rank's ops changed yet: the sets are made when they first do.
    NotYet,
    /// Each call has one part, and these sets follow.
    By(Followed),
    /// A call of several parts came: the pairs are made from scratch.
    Never,
}

/// Finds the pairs of the ops that it holds. As long as each call has one part, it keeps sets that follow each change
/// of the ops; otherwise, and before the first change, [`pairs`](PairIndex::pairs) goes over all calls.
#[derive(Drop)]
pub struct PairIndex {
    held: Vec<RankOps>,
    following: Following,
}

impl Model for PairIndex {
    ghost use Rattle.std.specs.Prelude.{List};
    ghost use Rattle.trace_ops.specs.Ops.{Ops};
    ghost use Rattle.trace_pair.specs.Kept.{IsKept};

    ghost Value = { List Ops };

    ghost view = { λ s. s.held.items };

    ghost invariant = { λ s. IsKept s.held.items s.following };
}

impl PairIndex {
    /// An index in which no rank has made a call yet. Fails with `AllocError` when memory is refused.
    pub fn new(alloc: Global, ranks: u32) -> Result<PairIndex, AllocError>
        ensures { IfOk result (λ index. index ≡ fresh ranks) }
    {
        Ok(PairIndex {
            held: fresh_ops(alloc, ranks)?,
            following: Following::NotYet,
        })
    }

    /// The index of these ops, those of rank r at place r, as [`grow`](Self::grow) would make it rank by rank. Fails
    /// with `AllocError` when memory is refused.
    pub fn of_all(alloc: Global, ops: Vec<RankOps>) -> Result<PairIndex, AllocError>
        requires own { AreOwn 0 ops.items }
        ensures { IfOk result (λ index. index ≡ ops.items) }
    {
        let _ = alloc;
        Ok(PairIndex {
            held: ops,
            following: Following::NotYet,
        })
    }

    /// Replaces the rank's ops by longer ones. Sources may be told now, and a Cancel or its outcome may have come, so
    /// pairs can also vanish. If memory is refused, the index is as new.
    pub fn grow(&mut self, rank: u32, ops: RankOps) -> Result<(), AllocError>
        requires rank { rank < length self.old }
        requires own { IsOwn rank ops }
        requires grows { Grows (slice_index_or self.old rank no_ops) ops }
        ensures ok { OnOk result (self.new ≡ slice_set self.old rank ops) }
        ensures memory { OnErr result (self.new ≡ fresh (length self.old)) }
    {
        self.set(rank, ops)
    }

    /// Replaces the rank's ops by shorter ones: what its later calls told isn't told any more. If memory is refused,
    /// the index is as new.
    pub fn cut(&mut self, rank: u32, ops: RankOps) -> Result<(), AllocError>
        requires rank { rank < length self.old }
        requires own { IsOwn rank ops }
        requires grows { Grows ops (slice_index_or self.old rank no_ops) }
        ensures ok { OnOk result (self.new ≡ slice_set self.old rank ops) }
        ensures memory { OnErr result (self.new ≡ fresh (length self.old)) }
    {
        self.set(rank, ops)
    }

    /// The ops that the index holds, those of rank r at place r.
    pub fn ops(&self) -> &[RankOps]
        ensures { result.now ≡ self.now }
    {
        &self.held
    }

    /// The pairs of the held ops, made in one pass. The contract says that each pair is certain, and that none is
    /// missing if no receive is open, no message doubtful, and no two parts of one call fit the same (MPI 4.0, 3.5 and
    /// 3.9). Fails with `AllocError` when memory is refused.
    pub fn pairs(&self) -> Result<PairTable, AllocError>
        ensures table { IfOk result (λ t. t ≡ table_of self.now) }
        ensures certain { IfOk result (λ t. AreCertain self.now t.pairs) }
        ensures legal { AreAllSettled self.now → IfOk result (λ t. AreNoneAfter self.now t.pairs → AreLegal self.now t.pairs) }
        ensures only { AreAllSettled self.now → IfOk result (λ t. AreTheOnlyLegal self.now t.pairs) }
    {
        let alloc = *self.held.allocator();
        let table = table_by(alloc, &self.following, &self.held)?;
        Ok(table)
    }

    /// Replaces the rank's ops by these, longer or shorter, for a caller that doesn't know which. If memory is refused,
    /// the index is as new.
    pub fn set(&mut self, rank: u32, ops: RankOps) -> Result<(), AllocError>
        requires rank { rank < length self.old }
        requires own { IsOwn rank ops }
        ensures ok { OnOk result (self.new ≡ slice_set self.old rank ops) }
        ensures memory { OnErr result (self.new ≡ fresh (length self.old)) }
    {
        let following = replace(&mut self.following, Following::NotYet);
        match set_ops(&mut self.held, following, rank, ops) {
            Ok(following) => {
                self.following = following;
                Ok(())
            }
            Err(error) => {
                forget(&mut self.held);
                Err(error)
            }
        }
    }
}

/// So many ranks without calls.
fn fresh_ops(alloc: Global, ranks: u32) -> Result<Vec<RankOps>, AllocError>
    ensures { IfOk result (λ held. held.items ≡ fresh ranks) }
{
    let mut held = Vec::new(alloc);
    for _ in 0..ranks {
        held.push(RankOps::empty(alloc))?;
    }
    Ok(held)
}

/// Makes every rank one without calls; takes no memory.
fn forget(held: &mut Vec<RankOps>)
    ensures { held.new.items ≡ fresh (length held.old.items) }
{
    let alloc = *held.allocator();
    let mut next = 0;
    while next < held.len() {
        held[next] = RankOps::empty(alloc);
        next += 1;
    }
}

/// The table of the held ops, by the sets where some follow.
fn table_by(alloc: Global, following: &Following, held: &[RankOps]) -> Result<PairTable, AllocError>
    requires own { AreOwn 0 held.now }
    requires followed { IfSets following.now (IsFollowed held.now) }
    ensures { IfOk result (λ t. t ≡ table_of held.now) }
{
    match following {
        Following::By(state) => {
            let table = PairTable::of_held(alloc, &state.sets, held, &state.table)?;
            Ok(table)
        }
        Following::NotYet | Following::Never => {
            let table = pair_all(alloc, held)?;
            Ok(table)
        }
    }
}

/// The sets that follow these ops.
fn state_of(alloc: Global, held: &[RankOps]) -> Result<Followed, AllocError>
    requires own { AreOwn 0 held.now }
    requires single { All IsSingle held.now }
    ensures { IfOk result (λ state. IsFollowed held.now state) }
{
    let table = reaches_of(alloc, held)?;
    let mut sets = Matched::empty(alloc);
    add_ranks(&mut sets, held, &table)?;
    Ok(Followed { sets, table })
}

/// The sets that follow these ops, if each call has one part.
fn new_state(alloc: Global, held: &[RankOps]) -> Result<Option<Followed>, AllocError>
    requires { AreOwn 0 held.now }
    ensures { IfOk result (λ state. IfSome state (IsFollowed held.now)) }
{
    if some_has_several(held) {
        return Ok(None);
    }
    let state = state_of(alloc, held)?;
    Ok(Some(state))
}

/// The sets that follow the held ops and can go on with these, made where there are none yet.
fn state_for(
    alloc: Global,
    following: Following,
    held: &[RankOps],
    ops: &RankOps,
) -> Result<Option<Followed>, AllocError>
    requires own { AreOwn 0 held.now }
    requires followed { IfSets following (IsFollowed held.now) }
    requires sends { AreInOrder ops.now.sends }
    requires receives { ArePosted ops.now.receives }
    ensures followed { IfOk result (λ state. IfSome state (IsFollowed held.now)) }
    ensures single { IfOk result (λ state. IfSome state (λ _. IsSingle ops.now)) }
{
    if has_several(ops) {
        return Ok(None);
    }
    match following {
        Following::NotYet => new_state(alloc, held),
        Following::By(state) => Ok(Some(state)),
        Following::Never => Ok(None),
    }
}

/// Lets the table follow the new ops of a rank.
fn renew_rank(
    alloc: Global,
    table: &mut Vec<RankReach>,
    rank: u32,
    own: &RankOps,
) -> Result<(), AllocError>
    requires rank { rank < length table.old.items }
    requires own { IsOwn rank own.now }
    ensures { OnOk result (RenewsReach rank own.now table.old.items table.new.items) }
{
    renew(alloc, table, rank, own)
}

/// Makes the rank's ops these.
fn put_ops(held: &mut Vec<RankOps>, rank: u32, ops: RankOps)
    requires { rank < length held.old.items }
    ensures { held.new.items ≡ slice_set held.old.items rank ops }
{
    held[rank as usize] = ops;
}

/// Makes the rank's ops these, and lets the sets follow.
fn follow_ops(
    held: &mut Vec<RankOps>,
    state: Followed,
    rank: u32,
    ops: RankOps,
) -> Result<Followed, AllocError>
    requires rank { rank < length held.old.items }
    requires held { AreOwn 0 held.old.items }
    requires own { IsOwn rank ops }
    requires single { IsSingle ops }
    requires followed { IsFollowed held.old.items state }
    ensures length { length held.new.items ≡ length held.old.items }
    ensures held { OnOk result (held.new.items ≡ slice_set held.old.items rank ops) }
    ensures state { IfOk result (λ state. IsFollowed held.new.items state) }
{
    let alloc = *held.allocator();
    let mut state = state;
    let fronts = drop_calls(&mut state.sets, held, rank, &ops)?;
    renew_rank(alloc, &mut state.table, rank, &ops)?;
    put_ops(held, rank, ops);
    add_calls(&mut state.sets, held, &state.table, rank, fronts)?;
    Ok(state)
}

/// Makes the rank's ops these, and lets sets follow if each call has one part.
fn set_ops(
    held: &mut Vec<RankOps>,
    following: Following,
    rank: u32,
    ops: RankOps,
) -> Result<Following, AllocError>
    requires rank { rank < length held.old.items }
    requires held { AreOwn 0 held.old.items }
    requires own { IsOwn rank ops }
    requires followed { IfSets following (IsFollowed held.old.items) }
    ensures length { length held.new.items ≡ length held.old.items }
    ensures held { OnOk result (held.new.items ≡ slice_set held.old.items rank ops) }
    ensures own { OnOk result (AreOwn 0 held.new.items) }
    ensures followed { IfOk result (λ following. IfSets following (IsFollowed held.new.items)) }
{
    let alloc = *held.allocator();
    let Some(state) = state_for(alloc, following, held, &ops)? else {
        put_ops(held, rank, ops);
        return Ok(Following::Never);
    };
    let state = follow_ops(held, state, rank, ops)?;
    Ok(Following::By(state))
}
