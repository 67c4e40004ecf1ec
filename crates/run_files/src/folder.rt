//! The files of the system, as a store.

ghost use Rattle.std.specs.Prelude.{◌≡◌};
ghost use Rattle.mpi_model.specs.Failures.{CountsFailure};

use crate::store::{Store, StoreFault};
use mpi_model::{Device, Failed, write_all};
use std::fs::{Files, OpenOptions};
use std::io;

/// The files of the system. A file that can't be written whole is removed again.
#[derive(Drop)]
pub struct Folder<'a, F: Files> {
    rt: &'a F,
    failures: u64,
}

impl<'a, F: Files> Folder<'a, F> {
    /// The files of the system, with no failure counted yet.
    pub fn new(rt: &'a F) -> Self {
        Folder { rt, failures: 0 }
    }

    /// Counts a failure, where it is one.
    fn counted(&mut self, done: io::Result<()>) -> Result<(), Failed>
        ensures { CountsFailure self.old.failures self.new.failures result }
    {
        match done {
            Ok(()) => Ok(()),
            Err(_) => {
                self.failures = self.failures.saturating_add(1);
                Err(Failed)
            }
        }
    }
}

/// Why a file wasn't added: one of its name is there, or the system failed.
fn fault_of(error: &io::Error) -> StoreFault {
    match error.kind() {
        io::ErrorKind::AlreadyExists => StoreFault::There,
        _ => StoreFault::Failed,
    }
}

/// Writes a file that is not there yet, or leaves none.
fn write_new<F: Files>(rt: &F, path: &str, bytes: &[u8]) -> Result<(), StoreFault> {
    let mut options = OpenOptions::new();
    options.write(true).create_new(true);
    let file = match options.open(rt, path) {
        Ok(file) => file,
        Err(error) => return Err(fault_of(&error)),
    };
    match write_all(&mut Device::new(file), bytes) {
        Ok(()) => Ok(()),
        Err(_) => {
            let _ = std::fs::remove_file(rt, path);
            Err(StoreFault::Failed)
        }
    }
}

impl<'a, F: Files> Store for Folder<'a, F> {
    ghost failures = { λ folder. folder.failures };

    fn add(&mut self, path: &str, bytes: &[u8]) -> Result<(), StoreFault> {
        let written = write_new(self.rt, path, bytes);
        if let Err(StoreFault::Failed) = written {
            self.failures = self.failures.saturating_add(1);
        }
        written
    }

    fn remove(&mut self, path: &str) -> Result<(), Failed> {
        let removed = std::fs::remove_file(self.rt, path);
        self.counted(removed)
    }

    fn rename(&mut self, from: &str, to: &str) -> Result<(), Failed> {
        let renamed = std::fs::rename(self.rt, from, to);
        self.counted(renamed)
    }
}
