//! By which functions the objects of a layout were made, for the names by which a person is told of them.

use crate::words::function_text;
use comm_makings::{
    Action, CommCall, Given, MadeBy, ObjectMaker, RankCalls, function_of, object_made,
};
use mpi_model::{Comm, Object};
use std::alloc::{AllocError, Global};
use std::collections::BTreeMap;

/// The function that made a communicator, a window or a file.
#[derive(Clone, Copy)]
pub enum Maker {
    Communicator(MadeBy),
    Object(ObjectMaker),
}

/// By which call an object is looked for: the one of this rank that gives the number, directly before the first call in
/// which the number means the object, or anywhere if that is the rank's first call.
#[derive(Clone, Copy)]
struct Wanted {
    rank: u32,
    number: u32,
    first: u64,
    object: u32,
}

/// What a call gives: an object by its number, with the function.
#[derive(Clone, Copy)]
struct Gives {
    sort: Object,
    number: u32,
    maker: Maker,
}

/// The name of a function that makes windows or files.
fn object_text(maker: ObjectMaker) -> &'static str {
    match maker {
        ObjectMaker::WinCreate => "MPI_Win_create",
        ObjectMaker::WinAllocate => "MPI_Win_allocate",
        ObjectMaker::WinAllocateShared => "MPI_Win_allocate_shared",
        ObjectMaker::WinCreateDynamic => "MPI_Win_create_dynamic",
        ObjectMaker::FileOpen => "MPI_File_open",
    }
}

/// The name of the function.
pub fn maker_text(maker: Maker) -> &'static str {
    match maker {
        Maker::Communicator(made_by) => function_text(made_by),
        Maker::Object(maker) => object_text(maker),
    }
}

/// A communicator that is given so by this function.
fn gives_comm(given: Given, made_by: MadeBy) -> Option<Gives> {
    match given {
        Given::Number(number) => Some(Gives {
            sort: Object::Communicator,
            number,
            maker: Maker::Communicator(made_by),
        }),
        Given::Null | Given::Unknown => None,
    }
}

/// What a returned call gives whose object may be derived.
fn object_given(call: &CommCall) -> Option<Gives> {
    if !call.returned {
        return None;
    }
    match &call.action {
        Action::Make { making, given, .. } => gives_comm(*given, function_of(making)),
        Action::Join { given, .. } => gives_comm(*given, MadeBy::IntercommCreate),
        Action::Merge { given, .. } => gives_comm(*given, MadeBy::IntercommMerge),
        Action::MakeObject { maker, given, .. } => {
            let number = (*given)?;
            Some(Gives {
                sort: object_made(*maker),
                number,
                maker: Maker::Object(*maker),
            })
        }
        Action::CommRank { .. }
        | Action::Free { .. }
        | Action::Group { .. }
        | Action::GivesComm { .. }
        | Action::EndObject { .. } => None,
    }
}

/// The call by which an object is looked for: that of its first member which names it.
fn wanted_of(comm: &Comm) -> Option<Wanted> {
    if comm.numbers.is_empty() {
        let rank = *comm.members.first()?;
        return Some(Wanted {
            rank,
            number: comm.id,
            first: 0,
            object: comm.id,
        });
    }
    for (member, name) in comm.members.iter().zip(comm.numbers.iter()) {
        if let Some(stretch) = name {
            return Some(Wanted {
                rank: *member,
                number: stretch.number,
                first: stretch.first,
                object: comm.id,
            });
        }
    }
    None
}

/// The calls by which the objects of this sort are looked for, in the order of their ranks and numbers.
fn wanted_among(alloc: Global, sort: Object, comms: &[Comm]) -> Result<Vec<Wanted>, AllocError> {
    let mut wanted = Vec::new(alloc);
    for comm in comms {
        if comm.object == sort {
            if let Some(call) = wanted_of(comm) {
                wanted.push(call)?;
            }
        }
    }
    wanted.sort_by_key(|call| (call.rank, call.number, call.first))?;
    Ok(wanted)
}

/// The object that is looked for by this number of a rank, from this call on.
fn object_from(wanted: &[Wanted], rank: u32, number: u32, first: u64) -> Option<u32> {
    let key = (rank, number, first);
    match wanted.binary_search_by_key(&key, |call| (call.rank, call.number, call.first)) {
        Ok(at) => Some(wanted.get(at)?.object),
        Err(_) => None,
    }
}

/// Adds the functions by which calls of a rank made objects of this sort that are looked for.
fn add_makers(
    wanted: &[Wanted],
    sort: Object,
    rank: u32,
    calls: &[CommCall],
    makers: &mut BTreeMap<u32, Maker>,
) -> Result<(), AllocError> {
    for call in calls {
        let Some(gives) = object_given(call) else {
            continue;
        };
        if gives.sort != sort {
            continue;
        }
        let next = call.call.saturating_add(1);
        let exact = object_from(wanted, rank, gives.number, next);
        if let Some(object) = exact.or(object_from(wanted, rank, gives.number, 0)) {
            makers.insert(object, gives.maker)?;
        }
    }
    Ok(())
}

/// The functions that made these objects, by the objects' ids; of those of which no call tells it none.
/// Fails with `AllocError` when memory is refused.
pub fn makers_of(
    alloc: Global,
    comms: &[Comm],
    ranks: &[RankCalls],
) -> Result<BTreeMap<u32, Maker>, AllocError> {
    let mut makers = BTreeMap::new(alloc);
    for sort in &[Object::Communicator, Object::Window, Object::File] {
        let wanted = wanted_among(alloc, *sort, comms)?;
        for (rank, said) in ranks.iter().enumerate() {
            if let Ok(rank) = u32::try_from(rank) {
                add_makers(&wanted, *sort, rank, &said.calls, &mut makers)?;
            }
        }
    }
    Ok(makers)
}
