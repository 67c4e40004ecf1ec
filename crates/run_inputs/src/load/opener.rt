//! Where the files of a run come from.

ghost use Rattle.std.specs.Prelude.{◌≡◌, ℕ, Err, IfOk, IfSome, List, None, Option};
ghost use Rattle.run_inputs.specs.Files.{IsLength, StandsAtFirst};

use crate::load::reason::Reason;
use mpi_model::{Device, Read};
use side_by_side::ThreadCount;
use std::alloc::{Alloc, AllocError, AllocFailed, Global};
use std::fs::Files;
use std::io;
use std::thread::{Threads, available_parallelism};

/// Why a file couldn't be opened.
#[derive(Clone, Copy)]
pub enum OpenFault {
    /// The file can't be opened.
    File,
    /// Memory was refused.
    Memory,
}

/// What opens the files of a run.
///
/// A contract knows the bytes of the files of some openers; of others (a disk, which other programs write to) it
/// doesn't. A file whose bytes it knows can be opened.
pub trait Opener: Drop {
    /// A file that was opened.
    type R: Read;

    /// The bytes of the file of a name; `None` if no contract can know them.
    ghost file: { Self → List ℕ → Option (List ℕ) } = { λ _ _. None };

    /// Opens the file of a name, taken as it stands, at its first byte. Fails with `File` if it can't be opened, and
    /// with `Memory` when memory is refused.
    fn open(&self, path: &str) -> Result<Self::R, OpenFault>
        ensures told { IfOk result (λ reader. StandsAtFirst (file self.now path.now) (Self.R.left reader)) }
        ensures absent { result ≡ Err OpenFault.File → file self.now path.now ≡ None };

    /// How many bytes the file of a name has now; `None` if that can't be known: a pipe has no length, and can't be
    /// read twice. It decides what a watcher shows, how much room a piece's events get, which files are read twice, and
    /// which words name texts; no other output of a run depends on it.
    fn length(&self, path: &str) -> Option<u64>
        ensures some { IfSome result (IsLength (file self.now path.now)) }
        ensures none { result ≡ None → file self.now path.now ≡ None };

    /// The names of what is in a folder, in their order; `None` where no folder has the name, and so for who has none.
    fn entries(&self, alloc: Global, path: &str) -> Result<Option<Vec<String>>, OpenFault>
        ensures folder { IfOk result (λ listed. IfSome listed (λ _. file self.now path.now ≡ None)) }
        ensures unread { result ≡ Err OpenFault.File → file self.now path.now ≡ None }
    {
        let _ = alloc;
        let _ = path.is_empty();
        Ok(None)
    }

    /// Why no file of a name can be read now; `None` if the system doesn't say it. It is shown to a person who reads
    /// why a run was refused; no other output of a run depends on it.
    fn reason(&self, _path: &str) -> Option<Reason> {
        None
    }

    /// The last line of the file of a name, if it is a text that was cut off, of which only a front is read.
    fn cut_line(&self, _path: &str) -> Option<u64> {
        None
    }
}

/// An opener from which several threads open files, side by side.
pub trait SharedOpener: Opener + Sync {
    /// What starts the threads.
    type Handle: Threads + Sync;

    /// What starts the threads.
    fn handle(&self) -> &Self::Handle;

    /// How many threads there are. No output of a run depends on it.
    fn threads(&self) -> ThreadCount;
}

/// The files of the system.
#[derive(Drop)]
pub struct Disk<'a, F: Files> {
    rt: &'a F,
}

impl From<AllocError> for OpenFault {
    ghost use Rattle.std.specs.Prelude.{◌≡◌};
    ghost use Rattle.run_inputs.specs.declared.load.opener.OpenFault.TheVariants.{Memory};

    ghost from_gives = { λ _ e. e ≡ Memory };

    fn from(_error: AllocError) -> OpenFault {
        OpenFault::Memory
    }
}

impl<T: Drop> From<AllocFailed<T>> for OpenFault {
    ghost use Rattle.std.specs.Prelude.{◌≡◌};
    ghost use Rattle.run_inputs.specs.declared.load.opener.OpenFault.TheVariants.{Memory};

    ghost from_gives = { λ _ e. e ≡ Memory };

    fn from(_failed: AllocFailed<T>) -> OpenFault {
        OpenFault::Memory
    }
}

/// Why the system gives no file.
fn fault_of(error: &io::Error) -> OpenFault {
    match error.kind() {
        io::ErrorKind::OutOfMemory => OpenFault::Memory,
        _ => OpenFault::File,
    }
}

/// The names of what is in a folder, in their order.
fn entries_of<F: Files + Alloc + Clone + Drop>(
    rt: &F,
    alloc: Global,
    path: &str,
) -> Result<Vec<String>, OpenFault> {
    let listing = match std::fs::read_dir(rt, path) {
        Ok(listing) => listing,
        Err(error) => return Err(fault_of(&error)),
    };
    let mut names = Vec::new(alloc);
    for entry in listing {
        match entry {
            Ok(entry) => names.push(entry.file_name().to_string(alloc)?)?,
            Err(error) => return Err(fault_of(&error)),
        }
    }
    names.sort()?;
    Ok(names)
}

impl<'a, F: Files> Disk<'a, F> {
    /// The files of the system.
    pub fn new(rt: &'a F) -> Self {
        Disk { rt }
    }
}

impl<'a, F: Files + Alloc + Clone + Drop> Opener for Disk<'a, F> {
    type R = Device<F::File>;

    fn open(&self, path: &str) -> Result<Device<F::File>, OpenFault> {
        match std::fs::open(self.rt, path) {
            Ok(file) => Ok(Device::new(file)),
            Err(error) => Err(fault_of(&error)),
        }
    }

    fn entries(&self, alloc: Global, path: &str) -> Result<Option<Vec<String>>, OpenFault> {
        match std::fs::metadata(self.rt, path) {
            Ok(metadata) if metadata.is_dir() => Ok(Some(entries_of(self.rt, alloc, path)?)),
            _ => Ok(None),
        }
    }

    fn length(&self, path: &str) -> Option<u64> {
        let metadata = std::fs::metadata(self.rt, path).ok()?;
        if metadata.is_file() {
            Some(metadata.len())
        } else {
            None
        }
    }

    fn reason(&self, path: &str) -> Option<Reason> {
        match std::fs::metadata(self.rt, path) {
            Ok(metadata) if metadata.is_dir() => match std::fs::read_dir(self.rt, path) {
                Err(error) if error.kind() == io::ErrorKind::PermissionDenied => {
                    Some(Reason::Denied)
                }
                _ => Some(Reason::Folder),
            },
            // (a pipe that is opened would wait for its writer)
            Ok(metadata) if metadata.is_file() => match std::fs::open(self.rt, path) {
                Ok(_) => None,
                Err(error) => reason_of(error.kind()),
            },
            Ok(_) => None,
            Err(error) => reason_of(error.kind()),
        }
    }
}

impl<'a, F: Files + Alloc + Clone + Drop + Threads + Sync> SharedOpener for Disk<'a, F> {
    type Handle = F;

    fn handle(&self) -> &F {
        self.rt
    }

    /// As many as there are processors for the program.
    fn threads(&self) -> ThreadCount {
        match available_parallelism(self.rt) {
            Ok(count) => ThreadCount::UpTo(count.get()),
            Err(_) => ThreadCount::UpTo(1),
        }
    }
}

/// The reason that a person is told for what the system answered, where there is one.
fn reason_of(kind: io::ErrorKind) -> Option<Reason> {
    match kind {
        io::ErrorKind::NotFound => Some(Reason::Absent),
        io::ErrorKind::PermissionDenied => Some(Reason::Denied),
        _ => None,
    }
}
