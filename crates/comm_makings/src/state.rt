//! What is derived so far.

ghost use Rattle.std.specs.Prelude.{◌≡◌, IfOk};
ghost use Rattle.std.specs.List.{slice_get};
ghost use Rattle.std.specs.Option.{option_copied};
ghost use Rattle.comm_makings.specs.Each.{list_in};

use crate::answer::Why;
use mpi_model::Object;
use std::alloc::{AllocError, Global};

/// How a handle of a rank stands.
#[derive(Clone, Copy)]
pub(crate) enum HandleState {
    /// Nothing is known of it yet.
    Open,
    /// It names the derived communicator at this place.
    Derived(usize),
    /// It names the derived intercommunicator at this place, of whose groups the rank is in the second or in the first.
    Inter { place: usize, second: bool },
    Left(Why),
}

/// How far the makings of a communicator are read.
#[derive(Clone, Copy)]
pub(crate) enum Progress {
    /// This is the first that isn't read.
    At(usize),
    /// Nothing more is made.
    Over,
}

/// The place of a communicator in a layout: the world first, then MPI_COMM_SELF by rank, then by the making call of the
/// smallest member whose text has it, and then by that member.
#[derive(Clone, Copy, PartialEq, Eq, PartialOrd, Ord)]
pub(crate) struct Order {
    pub class: u8,
    pub call: u64,
    pub rank: u32,
}

/// A member of a communicator.
#[derive(Clone, Copy)]
pub(crate) struct Member {
    /// Its rank in the run.
    pub rank: u32,
    /// The handle by which it names the communicator, where its text does; of a window or a file it is one of that
    /// sort.
    pub handle: Option<usize>,
}

/// A derived communicator, an intercommunicator, or a window or a file.
#[derive(Drop)]
pub(crate) struct Made {
    pub object: Object,
    /// The members, in the order of their ranks in it: of an intercommunicator first those of one group, then those of
    /// the other.
    pub members: Vec<Member>,
    /// How many members the other group of an intercommunicator has; 0 of all else.
    pub remote_size: usize,
    /// Their ranks in the run.
    pub ranks: Vec<u32>,
    /// The sizes of its dimensions, where it is a grid and they are known.
    pub dims: Option<Vec<u32>>,
    pub order: Order,
}

/// The communicator at this place.
pub(crate) fn comm_at(comms: &[Made], place: usize) -> Option<&Made>
    ensures { option_copied result ≡ slice_get comms.now place }
{
    comms.get(place)
}

/// A copy of the list in memory of its own.
pub(crate) fn copy_of(alloc: Global, list: &[u32]) -> Result<Vec<u32>, AllocError>
    ensures { IfOk result (λ v. v.items ≡ list.now) }
{
    let mut copy = Vec::new(alloc);
    copy.extend_from_slice(list)?;
    Ok(copy)
}

/// A copy of the dimensions.
pub(crate) fn dims_of(
    alloc: Global,
    dims: &Option<Vec<u32>>,
) -> Result<Option<Vec<u32>>, AllocError>
    ensures { IfOk result (λ d. list_in d ≡ list_in dims.now) }
{
    match dims {
        Some(sizes) => Ok(Some(copy_of(alloc, sizes)?)),
        None => Ok(None),
    }
}
