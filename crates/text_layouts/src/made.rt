//! From what all texts say to a layout and a manifest.

ghost use Rattle.std.specs.Prelude.{◌≡◌, ◌<◌, ◌^◌, IfErr, IfOk, None, OnOk, length};
ghost use Rattle.mpi_model.specs.Layouts.{Holds, fault_of};
ghost use Rattle.comm_makings.specs.Derived.{IsSound};
ghost use Rattle.comm_makings.specs.World.{world_fault, world_of};
ghost use Rattle.run_files.specs.Manifests.{manifest_of_texts};
ghost use Rattle.text_layouts.specs.Sizes.{size_fault};
ghost use Rattle.text_layouts.specs.Making.{AreObjectsOf, RefusesLayout, RefusesMaking, RefusesWorld, fits};

use crate::fault::MadeFault;
use crate::size::other_size;
use comm_makings::{Choice, DeriveFault, Derived, RankCalls, derive};
use mpi_model::{Comm, Layout, LayoutFault, MOST_COMMS, MOST_RANKS, Sends, Stretch};
use run_files::{LONGEST_FILE, Manifest, Piece, RunInput, layout_bytes};
use std::alloc::{AllocError, Global};

/// What is made of the texts of all ranks.
#[derive(Drop)]
pub struct Made {
    /// What a run over the texts reads.
    pub input: RunInput,
    /// The communicators, and what is left out.
    pub derived: Derived,
}

fn copy_of_members(alloc: Global, members: &[u32]) -> Result<Vec<u32>, AllocError>
    ensures { IfOk result (λ v. v.items ≡ members.now) }
{
    let mut copy = Vec::new(alloc);
    copy.extend_from_slice(members)?;
    Ok(copy)
}

fn copy_of_numbers(
    alloc: Global,
    numbers: &[Option<Stretch>],
) -> Result<Vec<Option<Stretch>>, AllocError>
    ensures { IfOk result (λ v. v.items ≡ numbers.now) }
{
    let mut copy = Vec::with_capacity(alloc, numbers.len())?;
    for number in numbers {
        copy.push(*number)?;
    }
    Ok(copy)
}

fn copy_of(alloc: Global, comm: &Comm) -> Result<Comm, AllocError>
    ensures { IfOk result (λ c. c ≡ comm.now) }
{
    let members = copy_of_members(alloc, &comm.members)?;
    let numbers = copy_of_numbers(alloc, &comm.numbers)?;
    Ok(Comm {
        id: comm.id,
        object: comm.object,
        members,
        remote_size: comm.remote_size,
        numbers,
    })
}

/// Copies of the communicators, in their order.
fn copies(alloc: Global, comms: &[Comm]) -> Result<Vec<Comm>, AllocError>
    ensures { IfOk result (λ v. v.items ≡ comms.now) }
{
    let mut all = Vec::with_capacity(alloc, comms.len())?;
    for comm in comms {
        all.push(copy_of(alloc, comm)?)?;
    }
    Ok(all)
}

/// The communicators that the calls of all ranks make, of which those are written that are chosen.
fn derived_of(alloc: Global, choice: Choice, ranks: &[RankCalls]) -> Result<Derived, MadeFault>
    requires { length ranks.now < 2 ^ 32 }
    ensures world { IfOk result (λ d. d.world ≡ world_of ranks.now) }
    ensures none { OnOk result (world_fault ranks.now ≡ None) }
    ensures sound { IfOk result (λ d. IsSound choice (world_of ranks.now) ranks.now d.comms.items) }
    ensures fault { IfErr result (λ e. RefusesWorld ranks.now e) }
{
    match derive(alloc, choice, ranks) {
        Ok(derived) => Ok(derived),
        Err(DeriveFault::Memory) => Err(MadeFault::Memory),
        Err(DeriveFault::World { first, second }) => Err(MadeFault::World { first, second }),
    }
}

/// Whether a layout of so many ranks can have what was derived: not more than it can have, and its file not too long.
fn fits(alloc: Global, ranks: u32, sends: Sends, derived: &Derived) -> Result<bool, AllocError>
    ensures { IfOk result (λ b. b ≡ fits ranks derived.now.world sends derived.now.comms.items) }
{
    if derived.comms.len() > MOST_COMMS {
        return Ok(false);
    }
    let file = layout_bytes(alloc, ranks, derived.world, sends, &derived.comms)?;
    Ok(file.len() <= LONGEST_FILE)
}

/// What a layout of these ranks has: all that some call names, or, where a layout can't have all that, what some call
/// names that doesn't end it. A program may make and free any number of communicators without using them.
#[tactic(auto, using(crate::proofs::Fitting::all_fit, crate::proofs::Fitting::used_are))]
fn fitting(alloc: Global, sends: Sends, ranks: &[RankCalls]) -> Result<Derived, MadeFault>
    requires { length ranks.now < 2 ^ 32 }
    ensures world { IfOk result (λ d. d.world ≡ world_of ranks.now) }
    ensures none { OnOk result (world_fault ranks.now ≡ None) }
    ensures objects { IfOk result (λ d. AreObjectsOf sends ranks.now d.comms.items) }
    ensures fault { IfErr result (RefusesWorld ranks.now) }
{
    let named = derived_of(alloc, Choice::Named, ranks)?;
    if fits(alloc, ranks.len() as u32, sends, &named)? {
        return Ok(named);
    }
    drop(named);
    derived_of(alloc, Choice::Used, ranks)
}

/// The layout of these communicators, which the rules of layouts are tried on.
fn layout_of(
    alloc: Global,
    ranks: u32,
    sends: Sends,
    derived: &Derived,
) -> Result<Layout, MadeFault>
    ensures ok { IfOk result (λ l. Holds ranks derived.now.world sends derived.now.comms.items l) }
    ensures none { OnOk result (fault_of ranks derived.now.world derived.now.comms.items ≡ None) }
    ensures fault { IfErr result (λ e. RefusesLayout ranks derived.now.world derived.now.comms.items e) }
{
    let comms = copies(alloc, &derived.comms)?;
    match Layout::of_comms(alloc, ranks, derived.world, comms, sends) {
        Ok(layout) => Ok(layout),
        Err(LayoutFault::Memory) => Err(MadeFault::Memory),
        Err(fault) => Err(MadeFault::Layout(fault)),
    }
}

/// The layout of the ranks whose calls these are, with the communicators that they make, and the manifest of their
/// texts. Nothing is made of no rank, of more than a layout can have, or where a rank tells another size of
/// MPI_COMM_WORLD (MPI 4.0, 7.4.1). [`MadeFault`] says why.
#[tactic(auto, using(crate::proofs::Refused::by_count, crate::proofs::Refused::by_world, crate::proofs::Refused::by_layout))]
pub fn made_of(
    alloc: Global,
    sends: Sends,
    texts: Vec<Piece>,
    ranks: &[RankCalls],
) -> Result<Made, MadeFault>
    ensures world { IfOk result (λ m. m.derived.world ≡ world_of ranks.now) }
    ensures told { OnOk result (world_fault ranks.now ≡ None) }
    ensures sizes { OnOk result (size_fault ranks.now ≡ None) }
    ensures objects { IfOk result (λ m. AreObjectsOf sends ranks.now m.derived.comms.items) }
    ensures layout { IfOk result (λ m. Holds (length ranks.now) m.derived.world sends m.derived.comms.items m.input.layout) }
    ensures rules { IfOk result (λ m. fault_of (length ranks.now) m.derived.world m.derived.comms.items ≡ None) }
    ensures manifest { IfOk result (λ m. m.input.manifest ≡ manifest_of_texts texts.items) }
    ensures fault { IfErr result (RefusesMaking ranks.now) }
{
    if ranks.is_empty() || ranks.len() > MOST_RANKS as usize {
        return Err(MadeFault::Layout(LayoutFault::RankCount));
    }
    let count = ranks.len() as u32;
    if let Some((rank, size)) = other_size(ranks, count) {
        return Err(MadeFault::Size { rank, size });
    }
    let derived = fitting(alloc, sends, ranks)?;
    let layout = layout_of(alloc, count, sends, &derived)?;
    let manifest = Manifest::of_texts(alloc, texts);
    let input = RunInput { layout, manifest };
    Ok(Made { input, derived })
}
