//! Functions that may wait for others or move data, and that aren't read.

/// One-sided calls and the synchronization of single windows (MPI 4.0, 12.3 and 12.5), and makings of communicators
/// that aren't collective over one object (7.4.2, 7.4.3, 7.6.2, 11.9.4).
const DOUBTFUL: [&str; 27] = [
    "MPI_Put",
    "MPI_Get",
    "MPI_Accumulate",
    "MPI_Get_accumulate",
    "MPI_Fetch_and_op",
    "MPI_Compare_and_swap",
    "MPI_Rput",
    "MPI_Rget",
    "MPI_Raccumulate",
    "MPI_Rget_accumulate",
    "MPI_Win_lock",
    "MPI_Win_lock_all",
    "MPI_Win_unlock",
    "MPI_Win_unlock_all",
    "MPI_Win_flush",
    "MPI_Win_flush_all",
    "MPI_Win_flush_local",
    "MPI_Win_flush_local_all",
    "MPI_Win_start",
    "MPI_Win_complete",
    "MPI_Win_post",
    "MPI_Win_wait",
    "MPI_Win_test",
    "MPI_Comm_create_group",
    "MPI_Comm_create_from_group",
    "MPI_Intercomm_create_from_groups",
    "MPI_Comm_join",
];

/// Collective calls on communicators, windows and files (MPI 4.0, 7, 8, 12 and 14): such a call is local only where a
/// parameter that it is read by is missing.
const COLLECTIVE: [&str; 48] = [
    "MPI_Comm_split",
    "MPI_Comm_split_type",
    "MPI_Dist_graph_create",
    "MPI_Comm_dup",
    "MPI_Comm_dup_with_info",
    "MPI_Comm_create",
    "MPI_Comm_free",
    "MPI_Comm_disconnect",
    "MPI_Cart_create",
    "MPI_Graph_create",
    "MPI_Dist_graph_create_adjacent",
    "MPI_Cart_sub",
    "MPI_Intercomm_create",
    "MPI_Intercomm_merge",
    "MPI_Comm_spawn",
    "MPI_Comm_spawn_multiple",
    "MPI_Comm_accept",
    "MPI_Comm_connect",
    "MPI_Win_create",
    "MPI_Win_allocate",
    "MPI_Win_allocate_shared",
    "MPI_Win_create_dynamic",
    "MPI_File_open",
    "MPI_Win_fence",
    "MPI_Win_free",
    "MPI_File_close",
    "MPI_File_set_view",
    "MPI_File_set_size",
    "MPI_File_preallocate",
    "MPI_File_sync",
    "MPI_File_set_atomicity",
    "MPI_File_seek_shared",
    "MPI_File_read_all",
    "MPI_File_read_at_all",
    "MPI_File_read_ordered",
    "MPI_File_write_all",
    "MPI_File_write_at_all",
    "MPI_File_write_ordered",
    "MPI_Comm_set_info",
    "MPI_Win_set_info",
    "MPI_File_set_info",
    "MPI_Comm_idup",
    "MPI_Comm_idup_with_info",
    "MPI_File_iread_all",
    "MPI_File_iread_at_all",
    "MPI_File_iwrite_all",
    "MPI_File_iwrite_at_all",
    "MPI_Iprobe",
];

/// Collective calls that move data, by their blocking functions (MPI 4.0, 6 and 8.6).
const MOVING: [&str; 22] = [
    "MPI_Barrier",
    "MPI_Bcast",
    "MPI_Gather",
    "MPI_Gatherv",
    "MPI_Scatter",
    "MPI_Scatterv",
    "MPI_Allgather",
    "MPI_Allgatherv",
    "MPI_Alltoall",
    "MPI_Alltoallv",
    "MPI_Alltoallw",
    "MPI_Reduce",
    "MPI_Allreduce",
    "MPI_Reduce_scatter",
    "MPI_Reduce_scatter_block",
    "MPI_Scan",
    "MPI_Exscan",
    "MPI_Neighbor_allgather",
    "MPI_Neighbor_allgatherv",
    "MPI_Neighbor_alltoall",
    "MPI_Neighbor_alltoallv",
    "MPI_Neighbor_alltoallw",
];

/// Whether a name is one of these.
fn is_one_of(name: &[u8], names: &[&str]) -> bool {
    for other in names {
        if name == other.as_bytes() {
            return true;
        }
    }
    false
}

/// A name without an ending.
fn without<'a>(name: &'a [u8], ending: &[u8]) -> Option<&'a [u8]> {
    name.strip_suffix(ending)
}

/// Whether a name is of a nonblocking neighbourhood call.
fn is_immediate(name: &[u8]) -> bool {
    match name.strip_prefix(b"MPI_Ineighbor_") {
        Some(rest) => MOVING.iter().any(|other| other.as_bytes().strip_prefix(b"MPI_Neighbor_")
            == Some(rest)),
        None => false,
    }
}

/// Whether a name is of a part of a split collective call on a file.
fn is_part(name: &[u8]) -> bool {
    let whole = without(name, b"_begin").or(without(name, b"_end"));
    match whole {
        Some(whole) => whole.starts_with(b"MPI_File_") && is_one_of(whole, COLLECTIVE.as_slice()),
        None => false,
    }
}

/// Whether local calls of a function may make an answer wrong: they may wait for other ranks, or move data.
pub fn is_doubtful(name: &[u8]) -> bool {
    let name = without(name, b"_c").unwrap_or(name);
    let persistent = without(name, b"_init").unwrap_or(b"");
    is_one_of(name, DOUBTFUL.as_slice())
        || is_one_of(name, COLLECTIVE.as_slice())
        || name.starts_with(b"MPI_Neighbor_") && is_one_of(name, MOVING.as_slice())
        || is_immediate(name)
        || is_part(name)
        || is_one_of(persistent, MOVING.as_slice())
}
