//! What the calls of a rank say of communicators and groups, windows and files.

ghost use Rattle.std.specs.Prelude.{◌≡◌};
ghost use Rattle.comm_makings.specs.Objects.{object_made};

use mpi_model::Object;

/// The calls of a rank on communicators and groups, windows and files, with what they say.
#[derive(Drop)]
pub struct RankCalls {
    /// The number of MPI_COMM_WORLD; `None` if no call of the rank says it.
    pub world: Option<u32>,
    /// The number of MPI_COMM_SELF; `None` if no call of the rank says it.
    pub own: Option<u32>,
    /// The size of MPI_COMM_WORLD; `None` if no call of the rank says it.
    pub size: Option<u32>,
    /// The calls that make, name or free communicators and groups, windows and files, in the rank's order.
    pub calls: Vec<CommCall>,
    /// Where the other calls of the profile name which numbers of communicators.
    pub uses: Vec<Uses>,
    /// Where the other calls of the profile name which numbers of windows.
    pub windows: Vec<Uses>,
    /// Where the other calls of the profile name which numbers of files.
    pub files: Vec<Uses>,
}

/// A group of calls that name one number, between two calls of the rank that give or free that number.
#[derive(Clone, Copy)]
pub struct Uses {
    pub number: u32,
    /// The first call that names it.
    pub first: u64,
    /// The last call that names it.
    pub last: u64,
    /// How many calls name it.
    pub count: u64,
}

/// One call on communicators or groups.
#[derive(Drop)]
pub struct CommCall {
    /// Its place among all calls of the rank, from 0. The places rise along a rank's list.
    pub call: u64,
    /// Whether it returned. What a call gives counts only if it did.
    pub returned: bool,
    pub action: Action,
}

/// What a call does. A value is `None` where the text lacks it or it can't be read.
#[derive(Drop)]
pub enum Action {
    /// A call that makes communicators of the members of another (MPI 4.0, 7.4.2 and 8.5).
    Make {
        parent: Option<u32>,
        making: Making,
        given: Given,
    },
    /// MPI_Comm_rank, and the rank that it told.
    CommRank {
        comm: Option<u32>,
        rank: Option<u32>,
    },
    /// MPI_Comm_free or MPI_Comm_disconnect.
    Free {
        comm: Option<u32>,
    },
    /// A call that gives a group (MPI 4.0, 7.3.2).
    Group {
        group: GroupCall,
        given: GroupName,
    },
    /// MPI_Intercomm_create, which joins the group of a communicator with another (MPI 4.0, 7.6.2).
    Join {
        local: Option<u32>,
        leaders: Leaders,
        given: Given,
    },
    /// MPI_Intercomm_merge, which makes one group of the two of an intercommunicator (MPI 4.0, 7.6.2).
    Merge {
        comm: Option<u32>,
        /// Whether the caller's group comes behind the other.
        high: Option<bool>,
        given: Given,
    },
    /// Another call that gives a communicator: nothing is derived from it. It may be one on a communicator.
    GivesComm {
        maker: OtherMaker,
        comm: Option<u32>,
        given: Given,
    },
    /// A call that makes a window or a file of the members of a communicator. It has the number that the call gives;
    /// `None` if that can't be read.
    MakeObject {
        maker: ObjectMaker,
        parent: Option<u32>,
        given: Option<u32>,
    },
    /// MPI_Win_free or MPI_File_close.
    EndObject {
        object: Object,
        number: Option<u32>,
    },
}

/// How two groups find each other that are joined: what their leaders say of it counts alone.
#[derive(Clone, Copy)]
pub struct Leaders {
    /// The leader of the caller's group, a rank of its communicator.
    pub own: Option<u32>,
    /// The number of the communicator that has both leaders.
    pub bridge: Option<u32>,
    /// The leader of the other group, a rank of that.
    pub other: Option<u32>,
    pub tag: Option<i32>,
}

/// The calls that make windows (MPI 4.0, 12.2) and files (14.2.1).
#[derive(Clone, Copy, PartialEq, Eq)]
pub enum ObjectMaker {
    WinCreate,
    WinAllocate,
    WinAllocateShared,
    WinCreateDynamic,
    FileOpen,
}

/// The other calls that give communicators (MPI 4.0, 7.4.2, 7.6.2 and 11.8 to 11.10).
#[derive(Clone, Copy, Debug, PartialEq, Eq)]
pub enum OtherMaker {
    SplitType,
    Accept,
    Connect,
    CreateFromGroup,
    IntercommCreateFromGroups,
    Spawn,
    SpawnMultiple,
    Join,
    GetParent,
}

/// Whether the call makes a window or a file.
pub fn object_made(maker: ObjectMaker) -> Object
    ensures { result ≡ object_made maker }
{
    match maker {
        ObjectMaker::WinCreate
        | ObjectMaker::WinAllocate
        | ObjectMaker::WinAllocateShared
        | ObjectMaker::WinCreateDynamic => Object::Window,
        ObjectMaker::FileOpen => Object::File,
    }
}

/// The calls that make communicators of a parent, with their parameters.
#[derive(Drop)]
pub enum Making {
    /// MPI_Comm_dup.
    Dup,
    /// MPI_Comm_dup_with_info.
    DupWithInfo,
    /// MPI_Comm_idup.
    Idup,
    /// MPI_Comm_idup_with_info.
    IdupWithInfo,
    /// MPI_Comm_split, with the color and the key of this rank.
    Split {
        color: Option<Color>,
        key: Option<i32>,
    },
    /// MPI_Comm_create, with the group that this rank gives.
    Create {
        group: GroupName,
    },
    /// MPI_Comm_create_group, which is collective over the group.
    CreateGroup {
        group: GroupName,
        tag: Option<i32>,
    },
    /// The sizes of the dimensions; a size below 1 is 0.
    CartCreate {
        dims: Option<Vec<u32>>,
        reorder: Option<bool>,
    },
    /// MPI_Cart_sub: for each dimension whether it remains.
    CartSub {
        remain: Option<Vec<bool>>,
    },
    /// The number of nodes.
    GraphCreate {
        nodes: Option<i32>,
        reorder: Option<bool>,
    },
    /// MPI_Dist_graph_create: whether the ranks may be ordered anew.
    DistGraphCreate {
        reorder: Option<bool>,
    },
    /// MPI_Dist_graph_create_adjacent: whether the ranks may be ordered anew.
    DistGraphCreateAdjacent {
        reorder: Option<bool>,
    },
}

/// The color of a split (MPI 4.0, 7.4.2). A rank with MPI_UNDEFINED, for which any negative number is taken, gets no
/// communicator.
#[derive(Clone, Copy)]
pub enum Color {
    /// MPI_UNDEFINED, or another negative number.
    Undefined,
    /// A color from 0 to 2^31 - 1.
    Number(u32),
}

/// The communicator that a call gives.
#[derive(Clone, Copy)]
pub enum Given {
    /// MPI_COMM_NULL.
    Null,
    /// A communicator with this number.
    Number(u32),
    /// It can't be read what the call gives.
    Unknown,
}

/// A group, as a call names it.
#[derive(Clone, Copy)]
pub enum GroupName {
    /// MPI_GROUP_EMPTY.
    Empty,
    /// The group that has this number at the rank.
    Number(u32),
    /// It can't be read which group is meant.
    Unknown,
}

/// The calls that give groups. A list of ranks is `None` also if one of them is negative.
#[derive(Drop)]
pub enum GroupCall {
    /// MPI_Comm_group.
    OfComm {
        comm: Option<u32>,
    },
    /// MPI_Comm_remote_group.
    OfRemote {
        comm: Option<u32>,
    },
    Incl {
        group: GroupName,
        ranks: Option<Vec<u32>>,
    },
    Excl {
        group: GroupName,
        ranks: Option<Vec<u32>>,
    },
    RangeIncl {
        group: GroupName,
        ranges: Option<Vec<RankRange>>,
    },
    RangeExcl {
        group: GroupName,
        ranges: Option<Vec<RankRange>>,
    },
    Union {
        first: GroupName,
        second: GroupName,
    },
    Intersection {
        first: GroupName,
        second: GroupName,
    },
    Difference {
        first: GroupName,
        second: GroupName,
    },
    /// Another call that gives a group: its ranks are unknown.
    Unread,
}

/// A range of ranks: `first`, `first + stride` and so on, not beyond `last` (MPI 4.0, 7.3.2).
#[derive(Clone, Copy)]
pub struct RankRange {
    pub first: i32,
    pub last: i32,
    pub stride: i32,
}
