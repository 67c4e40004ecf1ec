//! From what the ranks called to their communicators.

ghost use Rattle.std.specs.Prelude.{◌≡◌, ◌≢◌, ◌<◌, ◌^◌, IfErr, IfOk, None, OnOk, Some, length};
ghost use Rattle.comm_makings.specs.Derived.{IsDerivedFrom, IsSound};
ghost use Rattle.comm_makings.specs.State.{IsRun};
ghost use Rattle.comm_makings.specs.Views.{AreViews};
ghost use Rattle.comm_makings.specs.World.{first_told, other_told, world_fault, world_of};
ghost use Rattle.comm_makings.specs.declared.answer.DeriveFault.TheVariants.{Memory};

use crate::answer::{Choice, DeriveFault, Derived};
use crate::calls::RankCalls;
use crate::left::left_out;
use crate::objects::objects_of;
use crate::run::{Run, run_of};
use crate::uses::all_uses;
use crate::view::{RankView, views_of};
use crate::written::written;
use std::alloc::{AllocError, Global};

impl From<AllocError> for DeriveFault {
    ghost from_gives = { λ _ e. e ≡ Memory };

    fn from(_error: AllocError) -> DeriveFault {
        DeriveFault::Memory
    }
}

/// The number of MPI_COMM_WORLD where no rank tells it.
const USUAL_WORLD: u32 = 2;

/// The first rank that tells the number of MPI_COMM_WORLD, and the number.
fn first_told(ranks: &[RankCalls]) -> Option<(u32, u32)>
    requires { length ranks.now < 2 ^ 32 }
    ensures { result ≡ first_told 0 ranks.now }
{
    let mut rank = 0u32;
    for calls in ranks {
        if let Some(world) = calls.world {
            return Some((rank, world));
        }
        rank += 1;
    }
    None
}

/// The first rank that tells another number.
fn other_told(ranks: &[RankCalls], world: u32) -> Option<u32>
    requires { length ranks.now < 2 ^ 32 }
    ensures { result ≡ other_told world 0 ranks.now }
{
    let mut rank = 0u32;
    for calls in ranks {
        if let Some(told) = calls.world {
            if told != world {
                return Some(rank);
            }
        }
        rank += 1;
    }
    None
}

/// The number of the world, or the ranks that tell different ones.
fn world_of(ranks: &[RankCalls]) -> Result<u32, DeriveFault>
    requires { length ranks.now < 2 ^ 32 }
    ensures ok { IfOk result (λ world. world ≡ world_of ranks.now) }
    ensures none { OnOk result (world_fault ranks.now ≡ None) }
    ensures fault { IfErr result (λ e. world_fault ranks.now ≡ Some e) }
{
    match first_told(ranks) {
        None => Ok(USUAL_WORLD),
        Some((first, world)) => match other_told(ranks, world) {
            None => Ok(world),
            Some(second) => Err(DeriveFault::World { first, second }),
        },
    }
}

/// What derives as a layout has it, and what is left out.
#[tactic(auto, using(crate::proofs::Accounts::derives, crate::proofs::Accounts::sounds))]
fn answer_of(
    alloc: Global,
    choice: Choice,
    world: u32,
    ranks: &[RankCalls],
    views: &[RankView],
    mut run: Run,
) -> Result<Derived, AllocError>
    requires few { length ranks.now < 2 ^ 32 }
    requires world { world ≡ world_of ranks.now }
    requires views { AreViews world ranks.now views.now }
    requires right { IsRun ranks.now views.now run }
    ensures derived { IfOk result (IsDerivedFrom choice ranks.now) }
    ensures sound { IfOk result (λ d. IsSound choice (world_of ranks.now) ranks.now d.comms.items) }
{
    let uses = all_uses(alloc, ranks, views)?;
    let left_out = left_out(alloc, ranks, views, &uses.comms, &run.standings)?;
    let mut objects = objects_of(alloc, ranks, views, &run.comms)?;
    run.comms.append(&mut run.inters)?;
    run.comms.append(&mut objects)?;
    let comms = written(
        alloc,
        choice,
        world,
        ranks.len() as u32,
        views,
        &uses,
        &run.comms,
    )?;
    Ok(Derived {
        world,
        comms,
        left_out,
    })
}

/// The communicators, windows and files that the calls of the ranks make: the world, and those that are chosen, as a layout
/// has them. Time and memory grow with the calls on communicators and groups, windows and files and the members of what they
/// make, not with all calls.
pub fn derive(alloc: Global, choice: Choice, ranks: &[RankCalls]) -> Result<Derived, DeriveFault>
    requires { length ranks.now < 2 ^ 32 }
    ensures world { IfOk result (λ d. d.world ≡ world_of ranks.now) }
    ensures none { OnOk result (world_fault ranks.now ≡ None) }
    ensures fault { IfErr result (λ e. e ≢ Memory → world_fault ranks.now ≡ Some e) }
    ensures derived { IfOk result (IsDerivedFrom choice ranks.now) }
    ensures sound { IfOk result (λ d. IsSound choice (world_of ranks.now) ranks.now d.comms.items) }
{
    let world = world_of(ranks)?;
    let views = views_of(alloc, world, ranks)?;
    let run = run_of(alloc, ranks, &views)?;
    Ok(answer_of(alloc, choice, world, ranks, &views, run)?)
}
