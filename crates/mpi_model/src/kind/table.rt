//! The table of the kinds of collective calls.

use crate::kind::{Category, Kind, KindRow, ObjectParameter};
use crate::object::Object;

/// A collective communication of this category; the rows below name what is their own.
macro_rules! communication {
    ($category:ident, $may_be_owed_nothing:literal) => {
        KindRow {
            function: b"",
            nonblocking: None,
            category: Category::$category,
            may_be_owed_nothing: $may_be_owed_nothing,
            is_communication: true,
            object: Object::Communicator,
            parameter: ObjectParameter::Comm,
            has_long_form: true,
        }
    };
}

/// Any other collective call on an object that these parameters name.
macro_rules! other {
    ($object:ident, $parameter:ident, $may_be_owed_nothing:literal, $has_long_form:literal) => {
        KindRow {
            function: b"",
            nonblocking: None,
            category: Category::AllToAll,
            may_be_owed_nothing: $may_be_owed_nothing,
            is_communication: false,
            object: Object::$object,
            parameter: ObjectParameter::$parameter,
            has_long_form: $has_long_form,
        }
    };
}

/// A row: its function, its nonblocking function where there is one, and all else as in another row.
macro_rules! row {
    ($function:literal, $like:ident) => {
        KindRow {
            function: $function,
            ..$like
        }
    };
    ($function:literal, $nonblocking:literal, $like:ident) => {
        KindRow {
            function: $function,
            nonblocking: Some($nonblocking),
            ..$like
        }
    };
}

// (MPI 4.0, 6.2.2)
const ALL_TO_ALL: KindRow = communication!(AllToAll, false);

const ONE_TO_ALL: KindRow = communication!(OneToAll, false);

const ALL_TO_ONE: KindRow = communication!(AllToOne, false);

const SCAN: KindRow = communication!(Scan, false);

const ALL_TO_ALL_BY_COUNTS: KindRow = communication!(AllToAll, true);

const ALL_TO_ONE_BY_COUNTS: KindRow = communication!(AllToOne, true);

const ONE_TO_ALL_BY_COUNTS: KindRow = communication!(OneToAll, true);

// (MPI 4.0, 7, 8, 11, 12 and 14)
const SPLIT: KindRow = other!(Communicator, OldComm, false, false);

const OF_OLD_COMM: KindRow = other!(Communicator, OldComm, true, false);

const DIST_GRAPH: KindRow = other!(Communicator, CommOld, false, false);

const OF_COMM: KindRow = other!(Communicator, Comm, true, false);

const OF_COMM_OLD: KindRow = other!(Communicator, CommOld, true, false);

const OF_LOCAL_COMM: KindRow = other!(Communicator, LocalComm, true, false);

const OF_INTERCOMM: KindRow = other!(Communicator, Intercomm, true, false);

const OF_COMM_WITH_LONG_FORM: KindRow = other!(Communicator, Comm, true, true);

const OF_WINDOW: KindRow = other!(Window, Win, true, true);

const OF_FILE: KindRow = other!(File, File, true, true);

/// The rows of all kinds, in the order of their numbers.
pub(super) static ROWS: [KindRow; 75] = [
    row!(b"MPI_Barrier", b"MPI_Ibarrier", ALL_TO_ALL),
    row!(b"MPI_Bcast", b"MPI_Ibcast", ONE_TO_ALL),
    row!(b"MPI_Scatter", b"MPI_Iscatter", ONE_TO_ALL),
    row!(b"MPI_Gather", b"MPI_Igather", ALL_TO_ONE),
    row!(b"MPI_Reduce", b"MPI_Ireduce", ALL_TO_ONE),
    row!(b"MPI_Allreduce", b"MPI_Iallreduce", ALL_TO_ALL),
    row!(b"MPI_Allgather", b"MPI_Iallgather", ALL_TO_ALL),
    row!(b"MPI_Alltoall", b"MPI_Ialltoall", ALL_TO_ALL),
    row!(b"MPI_Scan", b"MPI_Iscan", SCAN),
    row!(b"MPI_Exscan", b"MPI_Iexscan", SCAN),
    row!(
        b"MPI_Reduce_scatter_block",
        b"MPI_Ireduce_scatter_block",
        ALL_TO_ALL
    ),
    row!(
        b"MPI_Reduce_scatter",
        b"MPI_Ireduce_scatter",
        ALL_TO_ALL_BY_COUNTS
    ),
    row!(b"MPI_Allgatherv", b"MPI_Iallgatherv", ALL_TO_ALL_BY_COUNTS),
    row!(b"MPI_Alltoallv", b"MPI_Ialltoallv", ALL_TO_ALL_BY_COUNTS),
    row!(b"MPI_Alltoallw", b"MPI_Ialltoallw", ALL_TO_ALL_BY_COUNTS),
    row!(b"MPI_Gatherv", b"MPI_Igatherv", ALL_TO_ONE_BY_COUNTS),
    row!(b"MPI_Scatterv", b"MPI_Iscatterv", ONE_TO_ALL_BY_COUNTS),
    row!(b"MPI_Comm_split", SPLIT),
    row!(b"MPI_Comm_split_type", OF_OLD_COMM),
    row!(b"MPI_Dist_graph_create", DIST_GRAPH),
    row!(b"MPI_Comm_dup", b"MPI_Comm_idup", OF_OLD_COMM),
    row!(
        b"MPI_Comm_dup_with_info",
        b"MPI_Comm_idup_with_info",
        OF_OLD_COMM
    ),
    row!(b"MPI_Comm_create", OF_OLD_COMM),
    row!(b"MPI_Comm_free", OF_COMM),
    row!(b"MPI_Comm_disconnect", OF_COMM),
    row!(b"MPI_Cart_create", OF_COMM_OLD),
    row!(b"MPI_Graph_create", OF_COMM_OLD),
    row!(b"MPI_Dist_graph_create_adjacent", OF_COMM_OLD),
    row!(b"MPI_Cart_sub", OF_OLD_COMM),
    row!(b"MPI_Intercomm_create", OF_LOCAL_COMM),
    row!(b"MPI_Comm_spawn", OF_COMM),
    row!(b"MPI_Comm_spawn_multiple", OF_COMM),
    row!(b"MPI_Comm_accept", OF_COMM),
    row!(b"MPI_Comm_connect", OF_COMM),
    row!(b"MPI_Win_create", OF_COMM_WITH_LONG_FORM),
    row!(b"MPI_Win_allocate", OF_COMM_WITH_LONG_FORM),
    row!(b"MPI_Win_allocate_shared", OF_COMM_WITH_LONG_FORM),
    row!(b"MPI_Win_create_dynamic", OF_COMM_WITH_LONG_FORM),
    row!(b"MPI_File_open", OF_COMM_WITH_LONG_FORM),
    row!(
        b"MPI_Neighbor_allgather",
        b"MPI_Ineighbor_allgather",
        OF_COMM_WITH_LONG_FORM
    ),
    row!(
        b"MPI_Neighbor_allgatherv",
        b"MPI_Ineighbor_allgatherv",
        OF_COMM_WITH_LONG_FORM
    ),
    row!(
        b"MPI_Neighbor_alltoall",
        b"MPI_Ineighbor_alltoall",
        OF_COMM_WITH_LONG_FORM
    ),
    row!(
        b"MPI_Neighbor_alltoallv",
        b"MPI_Ineighbor_alltoallv",
        OF_COMM_WITH_LONG_FORM
    ),
    row!(
        b"MPI_Neighbor_alltoallw",
        b"MPI_Ineighbor_alltoallw",
        OF_COMM_WITH_LONG_FORM
    ),
    row!(b"MPI_Win_fence", OF_WINDOW),
    row!(b"MPI_Win_free", OF_WINDOW),
    row!(b"MPI_File_close", OF_FILE),
    row!(b"MPI_File_set_view", OF_FILE),
    row!(b"MPI_File_set_size", OF_FILE),
    row!(b"MPI_File_preallocate", OF_FILE),
    row!(b"MPI_File_sync", OF_FILE),
    row!(b"MPI_File_set_atomicity", OF_FILE),
    row!(b"MPI_File_seek_shared", OF_FILE),
    row!(b"MPI_File_read_all", b"MPI_File_iread_all", OF_FILE),
    row!(b"MPI_File_read_at_all", b"MPI_File_iread_at_all", OF_FILE),
    row!(b"MPI_File_read_ordered", OF_FILE),
    row!(b"MPI_File_write_all", b"MPI_File_iwrite_all", OF_FILE),
    row!(b"MPI_File_write_at_all", b"MPI_File_iwrite_at_all", OF_FILE),
    row!(b"MPI_File_write_ordered", OF_FILE),
    row!(b"MPI_File_read_all_begin", OF_FILE),
    row!(b"MPI_File_read_at_all_begin", OF_FILE),
    row!(b"MPI_File_read_ordered_begin", OF_FILE),
    row!(b"MPI_File_write_all_begin", OF_FILE),
    row!(b"MPI_File_write_at_all_begin", OF_FILE),
    row!(b"MPI_File_write_ordered_begin", OF_FILE),
    row!(b"MPI_File_read_all_end", OF_FILE),
    row!(b"MPI_File_read_at_all_end", OF_FILE),
    row!(b"MPI_File_read_ordered_end", OF_FILE),
    row!(b"MPI_File_write_all_end", OF_FILE),
    row!(b"MPI_File_write_at_all_end", OF_FILE),
    row!(b"MPI_File_write_ordered_end", OF_FILE),
    row!(b"MPI_Comm_set_info", OF_COMM),
    row!(b"MPI_Win_set_info", OF_WINDOW),
    row!(b"MPI_File_set_info", OF_FILE),
    row!(b"MPI_Intercomm_merge", OF_INTERCOMM),
];

/// All kinds, in the order of their numbers.
pub(super) static KINDS: [Kind; 75] = [
    Kind::Barrier,
    Kind::Bcast,
    Kind::Scatter,
    Kind::Gather,
    Kind::Reduce,
    Kind::Allreduce,
    Kind::Allgather,
    Kind::Alltoall,
    Kind::Scan,
    Kind::Exscan,
    Kind::ReduceScatterBlock,
    Kind::ReduceScatter,
    Kind::Allgatherv,
    Kind::Alltoallv,
    Kind::Alltoallw,
    Kind::Gatherv,
    Kind::Scatterv,
    Kind::CommSplit,
    Kind::CommSplitType,
    Kind::DistGraphCreate,
    Kind::CommDup,
    Kind::CommDupWithInfo,
    Kind::CommCreate,
    Kind::CommFree,
    Kind::CommDisconnect,
    Kind::CartCreate,
    Kind::GraphCreate,
    Kind::DistGraphCreateAdjacent,
    Kind::CartSub,
    Kind::IntercommCreate,
    Kind::CommSpawn,
    Kind::CommSpawnMultiple,
    Kind::CommAccept,
    Kind::CommConnect,
    Kind::WinCreate,
    Kind::WinAllocate,
    Kind::WinAllocateShared,
    Kind::WinCreateDynamic,
    Kind::FileOpen,
    Kind::NeighborAllgather,
    Kind::NeighborAllgatherv,
    Kind::NeighborAlltoall,
    Kind::NeighborAlltoallv,
    Kind::NeighborAlltoallw,
    Kind::WinFence,
    Kind::WinFree,
    Kind::FileClose,
    Kind::FileSetView,
    Kind::FileSetSize,
    Kind::FilePreallocate,
    Kind::FileSync,
    Kind::FileSetAtomicity,
    Kind::FileSeekShared,
    Kind::FileReadAll,
    Kind::FileReadAtAll,
    Kind::FileReadOrdered,
    Kind::FileWriteAll,
    Kind::FileWriteAtAll,
    Kind::FileWriteOrdered,
    Kind::FileReadAllBegin,
    Kind::FileReadAtAllBegin,
    Kind::FileReadOrderedBegin,
    Kind::FileWriteAllBegin,
    Kind::FileWriteAtAllBegin,
    Kind::FileWriteOrderedBegin,
    Kind::FileReadAllEnd,
    Kind::FileReadAtAllEnd,
    Kind::FileReadOrderedEnd,
    Kind::FileWriteAllEnd,
    Kind::FileWriteAtAllEnd,
    Kind::FileWriteOrderedEnd,
    Kind::CommSetInfo,
    Kind::WinSetInfo,
    Kind::FileSetInfo,
    Kind::IntercommMerge,
];
