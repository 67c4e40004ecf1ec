//! The input of a run, from its files: a layout and a manifest.

ghost use Rattle.std.specs.Prelude.{◌≡◌, ◌≤◌, IfErr, IfOk, OnOk, length};
ghost use Rattle.dumpi_text.specs.Failing.{Fails};
ghost use Rattle.run_files.specs.Layouts.{RefusesLayout};
ghost use Rattle.run_files.specs.Manifests.{RefusesManifest};
ghost use Rattle.run_files.specs.declared.input.TheConstants.{LONGEST_FILE};
ghost use Rattle.run_inputs.specs.Files.{IsFile, StandsAtFirst};
ghost use Rattle.run_inputs.specs.Inputs.{HasRank, IsFaultOf, IsWholeFaultOf, LacksRank, RefusesFile, RefusesInput, RefusesLoading, RefusesOpening, TellInput, TellsLayout, TellsManifest};

use crate::faults::fault::RunFault;
use crate::load::opener::{OpenFault, Opener};
use crate::load::whole::{WholeFault, read_whole};
use mpi_model::Layout;
use run_files::{InputFault, LONGEST_FILE, Manifest, RunInput, layout_of, manifest_of};
use std::alloc::{AllocError, Global};

/// The layout and the manifest of these files. The rank that is asked for, where one is, is looked for in the layout
/// before the manifest is read. [`RunFault`] is the first cause in the order in which the files are read.
pub fn input_at<O: Opener>(
    alloc: Global,
    rank: Option<u32>,
    layout: &str,
    manifest: &str,
    files: &O,
) -> Result<RunInput, RunFault>
    ensures ok { IfOk result (λ input. TellInput (O.file files.now) layout.now manifest.now input.layout input.manifest) }
    ensures rank { IfOk result (λ input. HasRank rank input.layout) }
    ensures err { IfErr result (RefusesLoading (Fails O.R.failures) (O.file files.now) rank layout.now manifest.now) }
{
    let layout = layout_at(alloc, layout, files)?;
    has_rank(rank, &layout)?;
    let manifest = manifest_at(alloc, manifest, files)?;
    Ok(RunInput { layout, manifest })
}

/// Whether the layout has the rank that is asked for, where one is.
pub fn has_rank(rank: Option<u32>, layout: &Layout) -> Result<(), RunFault>
    ensures ok { OnOk result (HasRank rank layout.now) }
    ensures err { IfErr result (λ fault. (fault ≡ RunFault.Outside) × LacksRank rank layout.now) }
{
    match rank {
        Some(rank) if layout.ranks() <= rank => Err(RunFault::Outside),
        _ => Ok(()),
    }
}

/// The layout of a file.
fn layout_at<O: Opener>(alloc: Global, path: &str, files: &O) -> Result<Layout, RunFault>
    ensures ok { IfOk result (λ l. TellsLayout (O.file files.now path.now) l) }
    ensures err { IfErr result (RefusesInput RefusesLayout (Fails O.R.failures) path.now (O.file files.now path.now)) }
{
    let text = file_at(alloc, path, files, LONGEST_FILE)?;
    match layout_of(alloc, &text) {
        Ok(layout) => Ok(layout),
        Err(fault) => Err(fault_at(alloc, fault, path)?),
    }
}

/// The manifest of a file.
fn manifest_at<O: Opener>(alloc: Global, path: &str, files: &O) -> Result<Manifest, RunFault>
    ensures ok { IfOk result (λ m. TellsManifest (O.file files.now path.now) m) }
    ensures err { IfErr result (RefusesInput RefusesManifest (Fails O.R.failures) path.now (O.file files.now path.now)) }
{
    let text = file_at(alloc, path, files, LONGEST_FILE)?;
    match manifest_of(alloc, &text) {
        Ok(manifest) => Ok(manifest),
        Err(fault) => Err(fault_at(alloc, fault, path)?),
    }
}

/// A reader at the first byte of a file.
pub fn opened<O: Opener>(alloc: Global, path: &str, files: &O) -> Result<O::R, RunFault>
    ensures ok { IfOk result (λ reader. StandsAtFirst (O.file files.now path.now) (O.R.left reader)) }
    ensures err { IfErr result (RefusesOpening path.now (O.file files.now path.now)) }
{
    match files.open(path) {
        Ok(reader) => Ok(reader),
        Err(OpenFault::Memory) => Err(RunFault::Memory),
        Err(OpenFault::File) => Err(RunFault::File {
            path: path.to_string(alloc)?,
        }),
    }
}

/// The bytes of a file, which may be at most this many.
pub fn file_at<O: Opener>(
    alloc: Global,
    path: &str,
    files: &O,
    most: usize,
) -> Result<Vec<u8>, RunFault>
    ensures ok { IfOk result (λ bytes. IsFile (O.file files.now path.now) bytes.items) }
    ensures limit { IfOk result (λ bytes. length bytes.items ≤ most) }
    ensures err { IfErr result (RefusesFile most (Fails O.R.failures) path.now (O.file files.now path.now)) }
{
    let mut reader = opened(alloc, path, files)?;
    match read_whole(alloc, &mut reader, most) {
        Ok(bytes) => Ok(bytes),
        Err(fault) => Err(fault_of_whole(alloc, fault, path)?),
    }
}

/// The fault of a file that isn't read whole.
fn fault_of_whole(alloc: Global, fault: WholeFault, path: &str) -> Result<RunFault, AllocError>
    ensures { IfOk result (IsWholeFaultOf path.now fault) }
{
    let path = path.to_string(alloc)?;
    Ok(match fault {
        WholeFault::Memory => RunFault::Memory,
        WholeFault::Failed => RunFault::File { path },
        WholeFault::TooLong => RunFault::File { path },
    })
}

/// The fault of a file's text.
fn fault_at(alloc: Global, fault: InputFault, path: &str) -> Result<RunFault, AllocError>
    ensures { IfOk result (IsFaultOf path.now fault) }
{
    let path = path.to_string(alloc)?;
    Ok(match fault {
        InputFault::Memory => RunFault::Memory,
        InputFault::Json { line, column } => RunFault::Json { path, line, column },
        InputFault::Shape(field) => RunFault::Shape { path, field },
        InputFault::Piece => RunFault::Piece { path },
        InputFault::Packed => RunFault::Packed { path },
        InputFault::Layout(fault) => RunFault::Layout { fault, path },
    })
}
