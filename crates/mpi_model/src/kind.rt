//! The kinds of collective calls: one table, which all crates read.

ghost use Rattle.std.specs.Prelude.{◌≡◌, ◌↔◌, IsTrue, SomeIff, nat_eq, option_map, true};
ghost use Rattle.std.proofs.Common.{rules};
ghost use Rattle.std.specs.Cmp.Rules.{comparing};
ghost use Rattle.std.specs.Ordering.{on};
ghost use Rattle.mpi_model.specs.Kinds.{all_kinds, row, has_nonblocking, has_root, is_function, kind_number, kind_of, function_name, short_name};

use crate::kind::table::{KINDS, ROWS};
use crate::object::Object;
use std::marker::Model;

mod laws;
mod table;

pub use laws::each_kind;

/// From which members to which members of its group a collective call moves data (MPI 4.0, 6.2.2).
#[derive(Clone, Copy)]
pub enum Category {
    /// From all members to all.
    AllToAll,
    /// From the root to all.
    OneToAll,
    /// From all to the root.
    AllToOne,
    /// To each member from those of lower ranks in the group.
    Scan,
}

/// The kind of a collective call: MPI forbids a member of its group to leave one out, whatever it
/// is for. Its blocking and its nonblocking call do the same (MPI 4.0, 6.12).
#[derive(Clone, Copy)]
pub enum Kind {
    // (MPI 4.0, chapter 6)
    Barrier,
    Bcast,
    Scatter,
    Gather,
    Reduce,
    Allreduce,
    Allgather,
    Alltoall,
    Scan,
    Exscan,
    ReduceScatterBlock,
    ReduceScatter,
    Allgatherv,
    Alltoallv,
    Alltoallw,
    Gatherv,
    Scatterv,
    // communicators (MPI 4.0, chapters 7 and 8)
    CommSplit,
    CommSplitType,
    DistGraphCreate,
    CommDup,
    CommDupWithInfo,
    CommCreate,
    CommFree,
    CommDisconnect,
    CartCreate,
    GraphCreate,
    DistGraphCreateAdjacent,
    CartSub,
    // (MPI 4.0, 7.6 and chapter 11)
    IntercommCreate,
    CommSpawn,
    CommSpawnMultiple,
    CommAccept,
    CommConnect,
    // windows and files of a communicator (MPI 4.0, chapters 12 and 14)
    WinCreate,
    WinAllocate,
    WinAllocateShared,
    WinCreateDynamic,
    FileOpen,
    // neighbourhoods (MPI 4.0, 8.6)
    NeighborAllgather,
    NeighborAllgatherv,
    NeighborAlltoall,
    NeighborAlltoallv,
    NeighborAlltoallw,
    // windows
    WinFence,
    WinFree,
    // files
    FileClose,
    FileSetView,
    FileSetSize,
    FilePreallocate,
    FileSync,
    FileSetAtomicity,
    FileSeekShared,
    FileReadAll,
    FileReadAtAll,
    FileReadOrdered,
    FileWriteAll,
    FileWriteAtAll,
    FileWriteOrdered,
    FileReadAllBegin,
    FileReadAtAllBegin,
    FileReadOrderedBegin,
    FileWriteAllBegin,
    FileWriteAtAllBegin,
    FileWriteOrderedBegin,
    FileReadAllEnd,
    FileReadAtAllEnd,
    FileReadOrderedEnd,
    FileWriteAllEnd,
    FileWriteAtAllEnd,
    FileWriteOrderedEnd,
    // hints
    CommSetInfo,
    WinSetInfo,
    FileSetInfo,
    // of an intercommunicator alone (MPI 4.0, 7.6.2)
    IntercommMerge,
}

/// Which parameters may name the object of a call. The first of them that the call has names it.
#[derive(Clone, Copy)]
pub enum ObjectParameter {
    /// `comm`
    Comm,
    /// `oldcomm`, `comm`
    OldComm,
    /// `oldcomm`, `comm_old`, `comm`
    CommOld,
    /// `local_comm`
    LocalComm,
    /// `intercomm`
    Intercomm,
    /// `win`
    Win,
    /// `fh`, `file`
    File,
}

/// The properties of a kind, as MPI defines them.
#[derive(Clone, Copy)]
pub struct KindRow {
    /// The name of its blocking function.
    pub function: &'static [u8],
    /// The name of its nonblocking function, where there is one.
    pub nonblocking: Option<&'static [u8]>,
    pub category: Category,
    /// Whether a member's call may return without the others if sends are buffered: either each rank has a count of its
    /// own, which may be 0, or the standard allows each member to wait for the others but doesn't require it.
    pub may_be_owed_nothing: bool,
    /// Whether it is a collective communication (MPI 4.0, chapter 6).
    pub is_communication: bool,
    /// The sort of the object over whose group its calls are collective.
    pub object: Object,
    pub parameter: ObjectParameter,
    /// Whether its functions have a form with counts of 64 bits, with `_c` behind the name.
    pub has_long_form: bool,
}

impl PartialEq for Kind {
    ghost eq = { on kind_number nat_eq };

    ghost laws = { Prim.search (comparing, rules) };

    fn eq(&self, other: &Kind) -> bool {
        self.number() == other.number()
    }
}

impl Eq for Kind {
    ghost laws = { Prim.search (comparing, rules) };
}

impl Kind {
    /// The row of the kind in the table.
    #[tactic(auto, unfolding(crate::specs::Kinds::row))]
    pub fn row(self) -> &'static KindRow
        ensures { record {
          function = result.now.function.now;
          nonblocking = option_map (λ name. name.now) result.now.nonblocking;
          category = result.now.category;
          may_be_owed_nothing = result.now.may_be_owed_nothing;
          is_communication = result.now.is_communication;
          object = result.now.object;
          parameter = result.now.parameter;
          has_long_form = result.now.has_long_form;
        } ≡ row self }
    {
        &ROWS[self as usize]
    }

    /// All kinds, in the order of their numbers.
    #[tactic(auto, unfolding(crate::specs::Kinds::all_kinds))]
    pub fn all() -> &'static [Kind]
        ensures { result.now ≡ all_kinds }
    {
        &KINDS
    }

    /// The number of the kind, which no other kind has. It is the kind's code in a frame.
    #[tactic(auto, unfolding(crate::specs::Kinds::kind_number))]
    pub fn number(self) -> u8
        ensures { result ≡ kind_number self }
    {
        self as u8
    }

    /// The kind with this number; `None` if no kind has it.
    #[tactic(auto, unfolding(crate::specs::Kinds::kind_of))]
    pub fn of_number(number: u8) -> Option<Kind>
        ensures { result ≡ kind_of number }
    {
        Some(*Kind::all().get(usize::from(number))?)
    }

    /// Whether the two kinds are the same.
    pub fn same(self, other: Kind) -> bool
        ensures { IsTrue result ↔ (self ≡ other) }
    {
        self.number() == other.number()
    }

    /// Whether a call of this kind names a root.
    pub fn has_root(self) -> bool
        ensures { result ≡ has_root self }
    {
        matches!(self.row().category, Category::OneToAll | Category::AllToOne)
    }

    /// Whether the kind has a nonblocking function.
    pub fn has_nonblocking(self) -> bool
        ensures { result ≡ has_nonblocking self }
    {
        self.row().nonblocking.is_some()
    }
}

/// A collective function: of a kind, and blocking or not. Not every kind has a nonblocking one.
#[derive(Clone, Copy, PartialEq, Eq)]
pub struct CollectiveFunction {
    kind: Kind,
    nonblocking: bool,
}

impl Model for CollectiveFunction {
    ghost use Rattle.std.specs.Prelude.{◌≡◌, true};
    ghost use Rattle.mpi_model.specs.Kinds.{KindFunction, is_function};

    ghost Value = { KindFunction };

    ghost view = { λ f. record { kind = f.kind; nonblocking = f.nonblocking } };

    ghost invariant = { λ f. is_function (record { kind = f.kind; nonblocking = f.nonblocking }) ≡ true };

    ghost inverse = { λ f. record { kind = f.kind; nonblocking = f.nonblocking } };
}

impl CollectiveFunction {
    /// The function; `None` if it is to be nonblocking and the kind has no nonblocking one.
    pub fn new(kind: Kind, nonblocking: bool) -> Option<CollectiveFunction>
        ensures { SomeIff result (is_function (record { kind = kind; nonblocking = nonblocking }) ≡ true) (record { kind = kind; nonblocking = nonblocking }) }
    {
        if nonblocking && !kind.has_nonblocking() {
            return None;
        }
        Some(CollectiveFunction { kind, nonblocking })
    }

    /// Tells that there is such a function. It does nothing: it is for proofs.
    pub fn known(self)
        ensures { is_function self ≡ true }
    {
        let _kind = self.kind;
    }

    /// What the function does, whether it blocks or not.
    pub fn kind(self) -> Kind
        ensures { result ≡ self.kind }
    {
        self.kind
    }

    /// Whether it returns a request and doesn't wait for the operation (MPI 4.0, 6.12).
    pub fn is_nonblocking(self) -> bool
        ensures { result ≡ self.nonblocking }
    {
        self.nonblocking
    }

    /// Its name, as `MPI_Bcast` or `MPI_Ibcast`.
    pub fn name(self) -> &'static [u8]
        ensures { result.now ≡ function_name self }
    {
        let row = self.kind.row();
        if self.nonblocking {
            row.nonblocking.unwrap_or(b"")
        } else {
            row.function
        }
    }

    /// Its name without `MPI_`. In lower case it is the function's word in a report.
    pub fn short_name(self) -> &'static [u8]
        ensures { result.now ≡ short_name self }
    {
        match self.name().get(4..) {
            Some(short) => short,
            None => b"",
        }
    }

    /// Whether the two functions are the same.
    pub fn same(self, other: CollectiveFunction) -> bool
        ensures { IsTrue result ↔ (self ≡ other) }
    {
        self.kind.same(other.kind) && self.nonblocking == other.nonblocking
    }
}
