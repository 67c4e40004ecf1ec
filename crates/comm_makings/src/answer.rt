//! What is derived: the communicators of a layout, and what is left out of it.

use crate::calls::OtherMaker;
use mpi_model::Comm;

/// Which communicators, windows and files are written.
#[derive(Clone, Copy)]
pub enum Choice {
    /// Those that some call names.
    Named,
    /// Those that some call names which doesn't end them: it neither frees or closes them nor gives their number anew.
    Used,
}

/// The communicators that the calls of all ranks make.
#[derive(Drop)]
pub struct Derived {
    /// The number of MPI_COMM_WORLD; 2 if no rank says it.
    pub world: u32,
    /// The world, and the communicators, windows and files that are chosen, in the order of a layout.
    pub comms: Vec<Comm>,
    /// What is left out, by rank and then by call.
    pub left_out: Vec<LeftOut>,
}

/// A communicator that a call of a rank gave, but that couldn't be derived: its number stays foreign.
#[derive(Clone, Copy)]
pub struct LeftOut {
    /// The rank that called it.
    pub rank: u32,
    /// The call that gave it.
    pub call: u64,
    /// The function of that call.
    pub made_by: MadeBy,
    /// The number that the call gave; `None` if it can't be read.
    pub number: Option<u32>,
    /// How many calls of the profile name it.
    pub uses: u64,
    pub why: Why,
}

/// The function that gave a communicator.
#[derive(Clone, Copy, PartialEq, Eq)]
pub enum MadeBy {
    Dup,
    DupWithInfo,
    Idup,
    IdupWithInfo,
    Split,
    Create,
    CreateGroup,
    CartCreate,
    CartSub,
    GraphCreate,
    DistGraphCreate,
    DistGraphCreateAdjacent,
    IntercommCreate,
    IntercommMerge,
    /// A function whose communicators aren't derived.
    Other(OtherMaker),
}

/// Why a communicator is left out.
#[derive(Clone, Copy)]
pub enum Why {
    /// Communicators of its function aren't derived.
    Function,
    /// It has the number of MPI_COMM_WORLD or MPI_COMM_SELF.
    Taken,
    /// Its parent is unknown, or a call of the rank before it has an unknown parent.
    UnknownParent,
    /// Its parent is left out.
    Parent,
    /// A member of the parent has no such call, or no call tells the ranks of one that is reordered, or the parent has
    /// no known dimensions; or no leader of another group answers a MPI_Intercomm_create.
    Untold,
    /// The members' calls differ where they have to agree, or a parameter is unknown.
    Unsound,
    /// An earlier making of the same parent is unsound.
    Behind,
}

/// Why no layout is derived.
#[derive(Clone, Copy)]
pub enum DeriveFault {
    /// Memory was refused.
    Memory,
    /// Two ranks say different numbers of MPI_COMM_WORLD.
    World { first: u32, second: u32 },
}
