//! By which numbers the calls of ranks name the objects of one sort, in an order in which a look-up halves.

ghost use Rattle.std.specs.Prelude.{◌≡◌, ◌++◌, ◌<◌, ◌≤◌, ◌^◌, All, IfOk, OnOk, false, find, length, option_map, true};
ghost use Rattle.std.specs.List.Sorted.{IsPartitionedBy, IsPermutation};
ghost use Rattle.std.specs.List.{AllWithin};
ghost use Rattle.mpi_model.specs.Communicators.{has_pair};
ghost use Rattle.mpi_model.specs.Names.{AreOrdered, PrecedeUpTo, always, clashes, has_calls, holds, is_before, is_name, is_of, name_by, names_by_id, names_by_numbers, names_in, names_of, precedes, shares};
ghost use Rattle.mpi_model.specs.Starts.{AreStarts, IsStart};

use crate::layout::comm::{Comm, Stretch};
use crate::object::Object;
use std::alloc::{AllocError, Global};

/// A rank names an object by a number over a stretch of its calls.
#[derive(Clone, Copy)]
pub(crate) struct Name {
    rank: u32,
    comm: u32,
    stretch: Stretch,
}

/// Whether a call comes before the end, where there is one.
fn is_before(call: u64, end: Option<u64>) -> bool
    ensures { result ≡ is_before call end }
{
    match end {
        Some(end) => call < end,
        None => true,
    }
}

/// Whether the stretch holds the call: from its first one on, and before its end.
fn holds(stretch: Stretch, call: u64) -> bool
    ensures { result ≡ holds stretch call }
{
    stretch.first <= call && is_before(call, stretch.end)
}

/// Whether the stretch holds some call.
fn has_calls(stretch: Stretch) -> bool
    ensures { result ≡ has_calls stretch }
{
    holds(stretch, stretch.first)
}

/// Whether two stretches that hold calls have one number and share a call.
fn shares(a: Stretch, b: Stretch) -> bool
    ensures { result ≡ shares a b }
{
    a.number == b.number && (holds(a, b.first) || holds(b, a.first))
}

/// Whether two names of one rank share a call, so that its number has two meanings.
fn clashes(a: Name, b: Name) -> bool
    ensures { result ≡ clashes a b }
{
    a.rank == b.rank && shares(a.stretch, b.stretch)
}

/// Whether the name is that of the number in the call of the rank.
fn is_name(rank: u32, call: u64, number: u32, name: Name) -> bool
    ensures { result ≡ is_name rank call number name }
{
    name.rank == rank && (name.stretch.number == number && holds(name.stretch, call))
}

/// Whether the name isn't behind this place, in the order by rank, then number, then first call.
fn precedes(rank: u32, number: u32, call: u64, name: Name) -> bool
    ensures { result ≡ precedes rank number call name }
{
    name.rank < rank
        || (name.rank == rank
            && (name.stretch.number < number
                || (name.stretch.number == number && name.stretch.first <= call)))
}

/// The stretch of a number over all calls.
fn always(number: u32) -> Stretch
    ensures { result ≡ always number }
{
    Stretch {
        number,
        first: 0,
        end: None,
    }
}

/// Adds a name for each of these ranks: the communicator's id.
fn push_by_id(comm: u32, members: &[u32], names: &mut Vec<Name>) -> Result<(), AllocError>
    ensures { OnOk result (names.new.items ≡ names.old.items ++ names_by_id comm members.now) }
{
    for rank in members {
        names.push(Name {
            rank: *rank,
            comm,
            stretch: always(comm),
        })?;
    }
    Ok(())
}

/// Adds what a member's entry says. A stretch without calls names nothing.
fn push_by(
    comm: u32,
    rank: u32,
    number: Option<Stretch>,
    names: &mut Vec<Name>,
) -> Result<(), AllocError>
    ensures { OnOk result (names.new.items ≡ names.old.items ++ name_by comm rank number) }
{
    if let Some(stretch) = number {
        if has_calls(stretch) {
            names.push(Name {
                rank,
                comm,
                stretch,
            })?;
        }
    }
    Ok(())
}

/// Adds what the members' entries say, each by the one at its own place.
fn push_by_numbers(
    comm: u32,
    members: &[u32],
    numbers: &[Option<Stretch>],
    names: &mut Vec<Name>,
) -> Result<(), AllocError>
    ensures { OnOk result (names.new.items ≡ names.old.items ++ names_by_numbers comm members.now numbers.now) }
{
    let count = members.len().min(numbers.len());
    for i in 0..count {
        push_by(comm, members[i], numbers[i], names)?;
    }
    Ok(())
}

/// Whether an object is of this sort.
fn is_of(object: Object, comm: &Comm) -> bool
    ensures { result ≡ is_of object comm.now }
{
    comm.object().number() == object.number()
}

/// Adds by which numbers, and in which calls, the members of an object of this sort name it.
fn push_names(object: Object, comm: &Comm, names: &mut Vec<Name>) -> Result<(), AllocError>
    ensures { OnOk result (names.new.items ≡ names.old.items ++ names_in object comm.now) }
{
    if !is_of(object, comm) {
        return Ok(());
    }
    if comm.numbers().is_empty() {
        push_by_id(comm.id(), comm.members(), names)
    } else {
        push_by_numbers(comm.id(), comm.members(), comm.numbers(), names)
    }
}

/// All names of the objects of a sort.
fn all_names(alloc: Global, object: Object, comms: &[Comm]) -> Result<Vec<Name>, AllocError>
    ensures { IfOk result (λ names. names.items ≡ names_of object comms.now) }
{
    let mut names = Vec::new(alloc);
    for comm in comms {
        push_names(object, comm, &mut names)?;
    }
    Ok(names)
}

/// The names of the objects of a sort by rank, then number, then first call.
pub(crate) fn ordered_names(
    alloc: Global,
    object: Object,
    comms: &[Comm],
) -> Result<Vec<Name>, AllocError>
    ensures same { IfOk result (λ names. IsPermutation (names_of object comms.now) names.items) }
    ensures order { IfOk result (λ names. AreOrdered names.items) }
{
    let mut names = all_names(alloc, object, comms)?;
    names.sort_by_key(|name| (name.rank, name.stretch.number, name.stretch.first))?;
    Ok(names)
}

/// A copy of the starts.
pub(crate) fn starts_copied(alloc: Global, starts: &[usize]) -> Result<Vec<usize>, AllocError>
    ensures { IfOk result (λ v. v.items ≡ starts.now) }
{
    let mut copy = Vec::new(alloc);
    copy.extend_from_slice(starts)?;
    Ok(copy)
}

/// A copy of the names.
pub(crate) fn names_copied(alloc: Global, names: &[Name]) -> Result<Vec<Name>, AllocError>
    ensures { IfOk result (λ v. v.items ≡ names.now) }
{
    let mut copy = Vec::with_capacity(alloc, names.len())?;
    for name in names {
        copy.push(*name)?;
    }
    Ok(copy)
}

/// Whether two of the names clash: then two neighbours do.
pub(crate) fn has_clash(names: &[Name]) -> bool
    requires calls { All (λ x. has_calls x.stretch ≡ true) names.now }
    requires order { AreOrdered names.now }
    ensures { result ≡ has_pair clashes names.now }
{
    for i in 1..names.len() {
        if clashes(names[i - 1], names[i]) {
            return true;
        }
    }
    false
}

/// How many names are of lower ranks, found by binary search.
fn start_of(names: &[Name], rank: u32) -> usize
    requires { AreOrdered names.now }
    ensures { IsStart names.now rank result }
{
    names.partition_point(|name| name.rank < rank)
}

/// Where the names of each rank begin, and behind the last where they end.
pub(crate) fn starts_of(alloc: Global, names: &[Name], ranks: u32) -> Result<Vec<usize>, AllocError>
    requires ranks { ranks < 2 ^ 31 }
    requires order { AreOrdered names.now }
    ensures { IfOk result (λ starts. AreStarts names.now starts.items) }
{
    let mut starts = Vec::new(alloc);
    for rank in 0..ranks + 1 {
        starts.push(start_of(names, rank))?;
    }
    Ok(starts)
}

/// Where the names of a rank begin and end; all names, where it isn't told.
fn range_of(names: &[Name], starts: &[usize], rank: u32) -> (usize, usize)
    requires { AreStarts names.now starts.now }
    ensures range { (result.0 ≤ result.1) × (result.1 ≤ length names.now) }
    ensures before { AllWithin (λ x. x.rank < rank) names.now 0 result.0 }
    ensures behind { AllWithin (λ x. rank < x.rank) names.now result.1 (length names.now) }
{
    let at = rank as usize;
    if at + 1 < starts.len() {
        (starts[at], starts[at + 1])
    } else {
        (0, names.len())
    }
}

/// How many of these names are not behind this place, found by binary search.
fn place_among(names: &[Name], rank: u32, number: u32, call: u64) -> usize
    requires { IsPartitionedBy (precedes rank number call) names.now }
    ensures bound { result ≤ length names.now }
    ensures point { PrecedeUpTo rank number call names.now result }
{
    names.partition_point(|name| precedes(rank, number, call, *name))
}

/// How many names are not behind this place, found by binary search among those of its rank.
fn place_of(names: &[Name], starts: &[usize], rank: u32, number: u32, call: u64) -> usize
    requires order { AreOrdered names.now }
    requires starts { AreStarts names.now starts.now }
    ensures bound { result ≤ length names.now }
    ensures point { PrecedeUpTo rank number call names.now result }
{
    let (low, high) = range_of(names, starts, rank);
    low + place_among(&names[low..high], rank, number, call)
}

/// The object that a number names in a call of a rank, found by binary search.
pub(crate) fn numbered_in(
    names: &[Name],
    starts: &[usize],
    rank: u32,
    call: u64,
    number: u32,
) -> Option<u32>
    requires order { AreOrdered names.now }
    requires starts { AreStarts names.now starts.now }
    requires apart { has_pair clashes names.now ≡ false }
    ensures { result ≡ option_map (λ x. x.comm) (find (is_name rank call number) names.now) }
{
    let behind = place_of(names, starts, rank, number, call);
    if behind == 0 {
        return None;
    }
    let name = names[behind - 1];
    if is_name(rank, call, number, name) {
        Some(name.comm)
    } else {
        None
    }
}
