//! The bytes of the two files of what was made.

ghost use Rattle.std.specs.Prelude.{IfErr, IfOk};
ghost use Rattle.run_files.specs.Values.{manifest_value};
ghost use Rattle.text_layouts.specs.Making.{IsFile, RefusesLayoutFile, RefusesManifestFile, made_layout};

use crate::fault::MadeFault;
use crate::made::Made;
use run_files::{LONGEST_FILE, Piece, layout_bytes, manifest_bytes};
use std::alloc::Global;

/// The bytes of the layout's file, with its communicators in the order in which they were derived. Fails with
/// [`MadeFault::LayoutFile`] if the file is too long, and with `Memory` when memory is refused.
pub fn layout_file_of(alloc: Global, made: &Made) -> Result<Vec<u8>, MadeFault>
    ensures ok { IfOk result (λ file. IsFile (made_layout made.now) file.items) }
    ensures fault { IfErr result (λ e. RefusesLayoutFile (made_layout made.now) e) }
{
    let (layout, derived) = (&made.input.layout, &made.derived);
    let file = layout_bytes(
        alloc,
        layout.ranks(),
        derived.world,
        layout.sends(),
        &derived.comms,
    )?;
    if file.len() > LONGEST_FILE {
        return Err(MadeFault::LayoutFile);
    }
    Ok(file)
}

/// The bytes of the file of a manifest of these texts. Fails with [`MadeFault::ManifestFile`] if the file is too long,
/// and with `Memory` when memory is refused.
pub fn manifest_file_of(alloc: Global, texts: &[Piece]) -> Result<Vec<u8>, MadeFault>
    ensures ok { IfOk result (λ file. IsFile (manifest_value texts.now) file.items) }
    ensures fault { IfErr result (λ e. RefusesManifestFile (manifest_value texts.now) e) }
{
    let file = manifest_bytes(alloc, texts)?;
    if file.len() > LONGEST_FILE {
        return Err(MadeFault::ManifestFile);
    }
    Ok(file)
}
