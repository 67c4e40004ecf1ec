//! What a verb runs over, and how it ended.

use mpi_model::Layout;
use run_files::{Manifest, RunInput};
use run_inputs::Opener;
use std::alloc::Global;

/// What a verb runs over: the layout and the manifest, which were read or made, and where the files of the manifest's
/// pieces come from.
#[derive(Drop)]
pub struct Run<'a, O: Opener> {
    pub alloc: Global,
    pub layout: &'a Layout,
    pub manifest: &'a Manifest,
    pub files: &'a O,
}

impl<'a, O: Opener> Run<'a, O> {
    ghost use Rattle.std.specs.Prelude.{◌≡◌};

    /// A run of this input.
    pub fn new(alloc: Global, input: &'a RunInput, files: &'a O) -> Self
        ensures layout { result.layout.now ≡ input.now.layout }
        ensures manifest { result.manifest.now ≡ input.now.manifest }
        ensures files { result.files.now ≡ files.now }
    {
        Run {
            alloc,
            layout: &input.layout,
            manifest: &input.manifest,
            files,
        }
    }
}

/// How a run ended whose output was written completely.
#[derive(Clone, Copy)]
pub enum Outcome {
    /// All that was checked held.
    Good,
    /// The lines of a check say `unequal` or `invalid`. It is proved that no run ends so, and every check looks for it
    /// all the same.
    CheckFailed,
}
