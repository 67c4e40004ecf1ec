//! By which numbers the calls of ranks name the objects of one sort.

ghost use Rattle.std.specs.Prelude.{◌≡◌, ◌<◌, ◌^◌, IfOk, false, find, option_map};
ghost use Rattle.mpi_model.specs.Communicators.{has_pair};
ghost use Rattle.mpi_model.specs.Names.{AreOrdered, clashes, is_name};
ghost use Rattle.mpi_model.specs.Starts.{AreStarts};

use crate::layout::names::{Name, names_copied, numbered_in, starts_copied, starts_of};
use std::alloc::{AllocError, Global};

/// The names that ranks give to the objects of one sort, by rank, then number, then first call.
#[derive(Drop)]
pub(crate) struct Numbering {
    pub(crate) names: Vec<Name>,
    // where the names of each rank begin
    pub(crate) starts: Vec<usize>,
}

impl Numbering {
    /// The numbering of these names, in their order, with the place where those of each rank begin.
    pub(crate) fn of_names(
        alloc: Global,
        names: Vec<Name>,
        ranks: u32,
    ) -> Result<Numbering, AllocError>
        requires ranks { ranks < 2 ^ 31 }
        requires order { AreOrdered names.items }
        ensures names { IfOk result (λ n. n.names.items ≡ names.items) }
        ensures starts { IfOk result (λ n. AreStarts names.items n.starts.items) }
    {
        let starts = starts_of(alloc, &names, ranks)?;
        Ok(Numbering { names, starts })
    }

    /// What a number names in a call of a rank, found by binary search.
    pub(crate) fn named(&self, rank: u32, call: u64, number: u32) -> Option<u32>
        requires order { AreOrdered self.now.names.items }
        requires starts { AreStarts self.now.names.items self.now.starts.items }
        requires apart { has_pair clashes self.now.names.items ≡ false }
        ensures { result ≡ option_map (λ x. x.comm) (find (is_name rank call number) self.now.names.items) }
    {
        numbered_in(&self.names, &self.starts, rank, call, number)
    }

    /// An equal numbering in memory of its own.
    pub(crate) fn copied(&self, alloc: Global) -> Result<Numbering, AllocError>
        ensures names { IfOk result (λ n. n.names.items ≡ self.now.names.items) }
        ensures starts { IfOk result (λ n. n.starts.items ≡ self.now.starts.items) }
    {
        let names = names_copied(alloc, &self.names)?;
        let starts = starts_copied(alloc, &self.starts)?;
        Ok(Numbering { names, starts })
    }
}
