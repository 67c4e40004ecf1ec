//! Files that are looked for beside the manifest that names them.

ghost use Rattle.std.specs.Prelude.{◌≡◌, IfOk, IfSome, None};
ghost use Rattle.run_inputs.specs.Files.{IsLength, StandsAtFirst};

use crate::faults::sentences::is_absolute;
use crate::load::opener::{OpenFault, Opener, SharedOpener};
use crate::load::reason::Reason;
use side_by_side::ThreadCount;
use std::alloc::{AllocError, Global};

/// The files that a manifest names: a name that no file has from the folder in which mpimatch runs is looked for beside
/// the manifest. Of those that are found there nothing tells the bytes.
#[derive(Drop)]
pub struct Beside<'f, 'n, O: Opener> {
    alloc: Global,
    /// The files, by their names as they stand.
    pub files: &'f O,
    manifest: &'n str,
}

impl<'f, 'n, O: Opener> Beside<'f, 'n, O> {
    ghost use Rattle.std.specs.Prelude.{◌≡◌, IfOk, IfSome, None};
    ghost use Rattle.run_inputs.specs.Files.{IsLength, StandsAtFirst};

    /// These files, and those beside a manifest of this name.
    pub fn new(alloc: Global, files: &'f O, manifest: &'n str) -> Self
        ensures { result.files.now ≡ files.now }
    {
        Beside {
            alloc,
            files,
            manifest,
        }
    }

    /// The name of a file beside the manifest, where no file has the name as it stands, and the manifest is in another
    /// folder than mpimatch.
    fn name_beside(&self, path: &str) -> Result<Option<String>, AllocError> {
        if is_absolute(path) || self.files.reason(path) != Some(Reason::Absent) {
            return Ok(None);
        }
        match self.manifest.rsplit_once('/') {
            Some((folder, _)) => {
                let alloc = self.alloc;
                Ok(Some(format!(in alloc; "{folder}/{path}")?))
            }
            None => Ok(None),
        }
    }

    /// Opens a file beside the manifest.
    fn open_beside(&self, path: &str) -> Result<O::R, OpenFault> {
        match self.name_beside(path)? {
            Some(name) => self.files.open(name.as_str()),
            None => Err(OpenFault::File),
        }
    }

    /// How many bytes a file beside the manifest has.
    fn length_beside(&self, path: &str) -> Option<u64> {
        match self.name_beside(path) {
            Ok(Some(name)) => self.files.length(name.as_str()),
            _ => None,
        }
    }

    /// Why a file beside the manifest can't be read.
    fn reason_beside(&self, path: &str) -> Option<Reason> {
        match self.name_beside(path) {
            Ok(Some(name)) => self.files.reason(name.as_str()),
            _ => Some(Reason::Absent),
        }
    }
}

impl<'f, 'n, O: Opener> Opener for Beside<'f, 'n, O> {
    type R = O::R;

    ghost file = { λ beside. O.file beside.files.now };

    #[tactic(auto, using(crate::proofs::Opening::untold_stands))]
    fn open(&self, path: &str) -> Result<O::R, OpenFault> {
        match self.files.open(path) {
            Ok(reader) => Ok(reader),
            Err(OpenFault::Memory) => Err(OpenFault::Memory),
            Err(OpenFault::File) => self.open_beside(path),
        }
    }

    #[tactic(auto, using(crate::proofs::Opening::untold_length))]
    fn length(&self, path: &str) -> Option<u64> {
        match self.files.length(path) {
            Some(length) => Some(length),
            None => self.length_beside(path),
        }
    }

    fn reason(&self, path: &str) -> Option<Reason> {
        match self.files.reason(path) {
            Some(Reason::Absent) => self.reason_beside(path),
            reason => reason,
        }
    }
}

impl<'f, 'n, O: SharedOpener> SharedOpener for Beside<'f, 'n, O> {
    type Handle = O::Handle;

    fn handle(&self) -> &O::Handle {
        self.files.handle()
    }

    fn threads(&self) -> ThreadCount {
        self.files.threads()
    }
}
