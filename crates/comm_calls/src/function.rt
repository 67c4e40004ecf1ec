//! The functions that make, name or free communicators and groups, windows and files, by their names.

ghost use Rattle.std.specs.Prelude.{◌≡◌, ◌||◌};
ghost use Rattle.std.specs.Str.{bytes_eq};
ghost use Rattle.comm_calls.specs.Functions.{ender_named, function_named, giver_named, grid_named, group_named, maker_named, object_maker_named, other_group_named, single_named};

use comm_makings::{ObjectMaker, OtherMaker};
use mpi_model::Object;

/// A function that makes communicators of the members of another (MPI 4.0, 7.4.2 and 8.5).
#[derive(Clone, Copy)]
pub(crate) enum Maker {
    Dup,
    DupWithInfo,
    Idup,
    IdupWithInfo,
    Split,
    Create,
    CreateGroup,
    CartCreate,
    CartSub,
    GraphCreate,
    DistGraphCreate,
    DistGraphCreateAdjacent,
}

/// A function that gives a group (MPI 4.0, 7.3.2).
#[derive(Clone, Copy)]
pub(crate) enum Grouper {
    OfComm,
    Incl,
    Excl,
    RangeIncl,
    RangeExcl,
    Union,
    Intersection,
    Difference,
    /// MPI_Comm_remote_group.
    OfRemote,
    /// MPI_Win_get_group and MPI_File_get_group.
    Unread,
    /// MPI_Group_from_session_pset.
    UnreadNew,
}

/// A function whose calls are read.
#[derive(Clone, Copy)]
pub(crate) enum Function {
    Make(Maker),
    /// MPI_Comm_rank.
    Rank,
    /// MPI_Comm_free and MPI_Comm_disconnect.
    Free,
    Group(Grouper),
    /// MPI_Intercomm_create.
    Join,
    /// MPI_Intercomm_merge.
    Merge,
    /// What gives a communicator from which nothing is derived.
    Give(OtherMaker),
    /// What makes a window or a file.
    MakeObject(ObjectMaker),
    /// MPI_Win_free and MPI_File_close.
    EndObject(Object),
}

/// Whether two byte strings are the same. Inlined, so that a literal's bytes are compared one by one.
#[inline(always)]
#[tactic(auto, using(crate::proofs::Names::not_as_long))]
fn same(name: &[u8], word: &[u8]) -> bool
    ensures { result ≡ bytes_eq name.now word.now }
{
    if name.len() != word.len() {
        return false;
    }
    for (at, byte) in word.iter().enumerate() {
        if name[at] != *byte {
            return false;
        }
    }
    true
}

/// Whether a name is this word, byte for byte.
#[inline(always)]
pub(crate) fn is(name: &[u8], word: &str) -> bool
    ensures { result ≡ bytes_eq name.now word.now }
{
    same(name, word.as_bytes())
}

/// A constructor of communicators (MPI 4.0, 7.4.2).
fn maker_named(name: &[u8]) -> Option<Maker>
    ensures { result ≡ maker_named name.now }
{
    if is(name, "MPI_Comm_dup") {
        Some(Maker::Dup)
    } else if is(name, "MPI_Comm_dup_with_info") {
        Some(Maker::DupWithInfo)
    } else if is(name, "MPI_Comm_idup") {
        Some(Maker::Idup)
    } else if is(name, "MPI_Comm_idup_with_info") {
        Some(Maker::IdupWithInfo)
    } else if is(name, "MPI_Comm_split") {
        Some(Maker::Split)
    } else if is(name, "MPI_Comm_create") {
        Some(Maker::Create)
    } else if is(name, "MPI_Comm_create_group") {
        Some(Maker::CreateGroup)
    } else {
        None
    }
}

/// A constructor of communicators with a topology (MPI 4.0, 8.5).
fn grid_named(name: &[u8]) -> Option<Maker>
    ensures { result ≡ grid_named name.now }
{
    if is(name, "MPI_Cart_create") {
        Some(Maker::CartCreate)
    } else if is(name, "MPI_Cart_sub") {
        Some(Maker::CartSub)
    } else if is(name, "MPI_Graph_create") {
        Some(Maker::GraphCreate)
    } else if is(name, "MPI_Dist_graph_create") {
        Some(Maker::DistGraphCreate)
    } else if is(name, "MPI_Dist_graph_create_adjacent") {
        Some(Maker::DistGraphCreateAdjacent)
    } else {
        None
    }
}

/// A constructor of groups (MPI 4.0, 7.3.2).
fn group_named(name: &[u8]) -> Option<Grouper>
    ensures { result ≡ group_named name.now }
{
    if is(name, "MPI_Comm_group") {
        Some(Grouper::OfComm)
    } else if is(name, "MPI_Group_incl") {
        Some(Grouper::Incl)
    } else if is(name, "MPI_Group_excl") {
        Some(Grouper::Excl)
    } else if is(name, "MPI_Group_range_incl") {
        Some(Grouper::RangeIncl)
    } else if is(name, "MPI_Group_range_excl") {
        Some(Grouper::RangeExcl)
    } else if is(name, "MPI_Group_union") {
        Some(Grouper::Union)
    } else if is(name, "MPI_Group_intersection") {
        Some(Grouper::Intersection)
    } else if is(name, "MPI_Group_difference") {
        Some(Grouper::Difference)
    } else {
        other_group_named(name)
    }
}

/// Another function that gives a group: the remote one of an intercommunicator, or one whose ranks are unknown.
fn other_group_named(name: &[u8]) -> Option<Grouper>
    ensures { result ≡ other_group_named name.now }
{
    if is(name, "MPI_Comm_remote_group") {
        Some(Grouper::OfRemote)
    } else if is(name, "MPI_Win_get_group") {
        Some(Grouper::Unread)
    } else if is(name, "MPI_File_get_group") {
        Some(Grouper::Unread)
    } else if is(name, "MPI_Group_from_session_pset") {
        Some(Grouper::UnreadNew)
    } else {
        None
    }
}

/// Another function that gives a communicator (MPI 4.0, 7.4.2, 7.6.2 and 11.8 to 11.10).
fn giver_named(name: &[u8]) -> Option<OtherMaker>
    ensures { result ≡ giver_named name.now }
{
    if is(name, "MPI_Comm_split_type") {
        Some(OtherMaker::SplitType)
    } else if is(name, "MPI_Comm_accept") {
        Some(OtherMaker::Accept)
    } else if is(name, "MPI_Comm_connect") {
        Some(OtherMaker::Connect)
    } else if is(name, "MPI_Comm_create_from_group") {
        Some(OtherMaker::CreateFromGroup)
    } else if is(name, "MPI_Intercomm_create_from_groups") {
        Some(OtherMaker::IntercommCreateFromGroups)
    } else if is(name, "MPI_Comm_spawn") {
        Some(OtherMaker::Spawn)
    } else if is(name, "MPI_Comm_spawn_multiple") {
        Some(OtherMaker::SpawnMultiple)
    } else if is(name, "MPI_Comm_join") {
        Some(OtherMaker::Join)
    } else if is(name, "MPI_Comm_get_parent") {
        Some(OtherMaker::GetParent)
    } else {
        None
    }
}

/// What tells a rank its own, frees a communicator, or joins and merges groups (MPI 4.0, 7.4.1, 7.4.3, 7.6.2 and
/// 11.10.4).
fn single_named(name: &[u8]) -> Option<Function>
    ensures { result ≡ single_named name.now }
{
    if is(name, "MPI_Comm_rank") {
        Some(Function::Rank)
    } else if is(name, "MPI_Comm_free") {
        Some(Function::Free)
    } else if is(name, "MPI_Comm_disconnect") {
        Some(Function::Free)
    } else if is(name, "MPI_Intercomm_create") {
        Some(Function::Join)
    } else if is(name, "MPI_Intercomm_merge") {
        Some(Function::Merge)
    } else {
        None
    }
}

/// Whether a name is one of these two.
#[inline(always)]
fn is_either(name: &[u8], word: &str, other: &str) -> bool
    ensures { result ≡ (bytes_eq name.now word.now || bytes_eq name.now other.now) }
{
    is(name, word) || is(name, other)
}

/// What makes windows or files (MPI 4.0, 12.2 and 14.2.1), also by a name for great counts.
fn object_maker_named(name: &[u8]) -> Option<ObjectMaker>
    ensures { result ≡ object_maker_named name.now }
{
    if is_either(name, "MPI_Win_create", "MPI_Win_create_c") {
        Some(ObjectMaker::WinCreate)
    } else if is_either(name, "MPI_Win_allocate", "MPI_Win_allocate_c") {
        Some(ObjectMaker::WinAllocate)
    } else if is_either(name, "MPI_Win_allocate_shared", "MPI_Win_allocate_shared_c") {
        Some(ObjectMaker::WinAllocateShared)
    } else if is_either(name, "MPI_Win_create_dynamic", "MPI_Win_create_dynamic_c") {
        Some(ObjectMaker::WinCreateDynamic)
    } else if is_either(name, "MPI_File_open", "MPI_File_open_c") {
        Some(ObjectMaker::FileOpen)
    } else {
        None
    }
}

/// The sort of what a function ends (MPI 4.0, 12.2.5 and 14.2.2).
fn ender_named(name: &[u8]) -> Option<Object>
    ensures { result ≡ ender_named name.now }
{
    if is_either(name, "MPI_Win_free", "MPI_Win_free_c") {
        Some(Object::Window)
    } else if is_either(name, "MPI_File_close", "MPI_File_close_c") {
        Some(Object::File)
    } else {
        None
    }
}

/// The function of a name, where its calls are read.
#[tactic(auto, unfolding(crate::specs::Functions::function_named))]
pub(crate) fn function_named(name: &[u8]) -> Option<Function>
    ensures { result ≡ function_named name.now }
{
    if let Some(maker) = maker_named(name) {
        return Some(Function::Make(maker));
    }
    if let Some(maker) = grid_named(name) {
        return Some(Function::Make(maker));
    }
    if let Some(grouper) = group_named(name) {
        return Some(Function::Group(grouper));
    }
    if let Some(maker) = giver_named(name) {
        return Some(Function::Give(maker));
    }
    if let Some(maker) = object_maker_named(name) {
        return Some(Function::MakeObject(maker));
    }
    if let Some(object) = ender_named(name) {
        return Some(Function::EndObject(object));
    }
    single_named(name)
}
