//! Files that are read by as many threads as the words say.

use crate::load::opener::{OpenFault, Opener, SharedOpener};
use crate::load::reason::Reason;
use side_by_side::ThreadCount;
use std::alloc::Global;

/// The files of an opener, which are read by so many threads; where no number is said, by as many as the opener says.
#[derive(Drop)]
pub struct Crewed<'f, O: Opener> {
    /// The files, by their names as they stand.
    pub files: &'f O,
    /// How many threads read them.
    pub threads: Option<u32>,
}

impl<'f, O: Opener> Opener for Crewed<'f, O> {
    type R = O::R;

    ghost file = { λ crewed. O.file crewed.files.now };

    fn open(&self, path: &str) -> Result<O::R, OpenFault> {
        self.files.open(path)
    }

    fn length(&self, path: &str) -> Option<u64> {
        self.files.length(path)
    }

    fn entries(&self, alloc: Global, path: &str) -> Result<Option<Vec<String>>, OpenFault> {
        self.files.entries(alloc, path)
    }

    fn reason(&self, path: &str) -> Option<Reason> {
        self.files.reason(path)
    }

    fn cut_line(&self, path: &str) -> Option<u64> {
        self.files.cut_line(path)
    }
}

impl<'f, O: SharedOpener> SharedOpener for Crewed<'f, O> {
    type Handle = O::Handle;

    fn handle(&self) -> &O::Handle {
        self.files.handle()
    }

    fn threads(&self) -> ThreadCount {
        match self.threads {
            Some(threads) => ThreadCount::Exactly(threads as usize),
            None => self.files.threads(),
        }
    }
}
