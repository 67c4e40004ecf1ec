//! One communicator, window or file of a layout, and the look-up of them and of ranks in them.

ghost use Rattle.std.specs.Prelude.{◌≡◌, ◌==◌, ◌<◌, ◌≤◌, ◌^◌, IfOk, length, option_map, slice_get};
ghost use Rattle.std.specs.List.{position_from};
ghost use Rattle.std.specs.List.Sorted.{IsStrictlyIncreasing};
ghost use Rattle.mpi_model.specs.Communicators.{InOrder, communicators, first_group, first_size, ids, is_among, is_inter, is_intercomm, local_group, members_of, object_of_comm, one_of, peers, second_group};

use crate::object::Object;
use std::alloc::{AllocError, Global};
use std::marker::Model;

/// The number by which a rank names an object in some of its calls: from call `first` on and before call `end`, or to
/// the end if that is `None`. Calls count from 0.
#[derive(Clone, Copy)]
pub struct Stretch {
    pub number: u32,
    /// The first call in which it does, from 0.
    pub first: u64,
    /// The first call after these; `None` if there is none.
    pub end: Option<u64>,
}

/// A communicator, a window or a file: its id, and the ranks of its group in their order (MPI 4.0,
/// 7.2.1). An intercommunicator has two groups (7.6), one behind the other among its members.
#[derive(Drop)]
pub struct Comm {
    pub id: u32,
    pub object: Object,
    /// Ranks of the run, in the order of their ranks in the group.
    pub members: Vec<u32>,
    /// How many of the members, the last ones, are the second group of an intercommunicator: 0 of all else.
    pub remote_size: usize,
    /// For each member the number by which its calls name the object; `None` if they don't. If the list is empty, each
    /// member names the object by its id.
    pub numbers: Vec<Option<Stretch>>,
}

impl Model for Comm {
    ghost use Rattle.mpi_model.specs.Communicators.{Communicator};

    ghost Value = { Communicator };

    ghost view = { λ c. record { comm = c.id; object = c.object; members = c.members.items; remote_size = c.remote_size; numbers = c.numbers.items } };
}

impl Comm {
    /// An object of an id, with the ranks of its group and the numbers that these give to it.
    pub(crate) fn new(
        id: u32,
        object: Object,
        members: Vec<u32>,
        remote_size: usize,
        numbers: Vec<Option<Stretch>>,
    ) -> Comm
        ensures { result ≡ record { comm = id; object = object; members = members.items; remote_size = remote_size; numbers = numbers.items } }
    {
        Comm {
            id,
            object,
            members,
            remote_size,
            numbers,
        }
    }

    /// Its number in the layout.
    pub(crate) fn id(&self) -> u32
        ensures { result ≡ self.now.comm }
    {
        self.id
    }

    /// Whether it is a communicator, a window or a file.
    pub(crate) fn object(&self) -> Object
        ensures { result ≡ self.now.object }
    {
        self.object
    }

    /// The ranks of its group, in the group's order.
    pub(crate) fn members(&self) -> &[u32]
        ensures { result.now ≡ self.now.members }
    {
        &self.members
    }

    pub(crate) fn remote_size(&self) -> usize
        ensures { result ≡ self.now.remote_size }
    {
        self.remote_size
    }

    /// For each member the number by which its calls name the object. The list is empty if all name it by its id.
    pub(crate) fn numbers(&self) -> &[Option<Stretch>]
        ensures { result.now ≡ self.now.numbers }
    {
        &self.numbers
    }

    /// Whether it is an intercommunicator, so that it has two groups (MPI 4.0, 7.6).
    pub fn is_inter(&self) -> bool
        ensures { result ≡ is_inter self.now }
    {
        0 < self.remote_size
    }

    /// How many members stand before those of the second group.
    fn first_size(&self) -> usize
        ensures value { result ≡ first_size self.now }
        ensures within { result ≤ length self.now.members }
    {
        self.members.len().saturating_sub(self.remote_size)
    }

    /// Its first group: all members, where it has one alone.
    pub fn first_group(&self) -> &[u32]
        ensures { result.now ≡ first_group self.now }
    {
        &self.members[..self.first_size()]
    }

    /// Its second group, which only an intercommunicator has.
    pub fn second_group(&self) -> &[u32]
        ensures { result.now ≡ second_group self.now }
    {
        &self.members[self.first_size()..]
    }

    /// The group in which the rank is: of an intercommunicator its local group (MPI 4.0, 7.6).
    pub fn local_group(&self, rank: u32) -> &[u32]
        ensures { result.now ≡ local_group rank self.now }
    {
        if !self.is_inter() {
            return &self.members;
        }
        let first = self.first_group();
        if is_among(first, rank) {
            first
        } else {
            self.second_group()
        }
    }

    /// The group whose ranks the rank names, as peers and as roots: of an intercommunicator its remote
    /// group (MPI 4.0, 7.6), for which it is looked for in the first group.
    pub fn peers(&self, rank: u32) -> &[u32]
        ensures { result.now ≡ peers rank self.now }
    {
        if !self.is_inter() {
            return &self.members;
        }
        let first = self.first_group();
        if is_among(first, rank) {
            self.second_group()
        } else {
            first
        }
    }
}

/// Whether the rank is one of these.
fn is_among(members: &[u32], rank: u32) -> bool
    ensures { result ≡ is_among rank members.now }
{
    for member in members {
        if *member == rank {
            return true;
        }
    }
    false
}

/// The communicators as they were given, without numbers.
pub(crate) fn comms_of(alloc: Global, given: Vec<(u32, Vec<u32>)>) -> Result<Vec<Comm>, AllocError>
    ensures { IfOk result (λ v. v.items ≡ communicators given.items) }
{
    let mut comms = Vec::with_capacity(alloc, given.len())?;
    for (id, members) in given {
        comms.push(Comm::new(id, Object::Communicator, members, 0, Vec::new(alloc)))?;
    }
    Ok(comms)
}

/// The same communicators in rising order.
pub(crate) fn in_order(given: Vec<Comm>) -> Result<Vec<Comm>, AllocError>
    ensures { IfOk result (λ v. InOrder given.items v.items) }
{
    let mut comms = given;
    comms.sort_by_key(|comm| comm.id())?;
    Ok(comms)
}

fn copy_of_numbers(
    alloc: Global,
    numbers: &[Option<Stretch>],
) -> Result<Vec<Option<Stretch>>, AllocError>
    ensures { IfOk result (λ v. v.items ≡ numbers.now) }
{
    let mut copy = Vec::with_capacity(alloc, numbers.len())?;
    for number in numbers {
        copy.push(*number)?;
    }
    Ok(copy)
}

fn copy_of_members(alloc: Global, members: &[u32]) -> Result<Vec<u32>, AllocError>
    ensures { IfOk result (λ v. v.items ≡ members.now) }
{
    let mut copy = Vec::new(alloc);
    copy.extend_from_slice(members)?;
    Ok(copy)
}

fn copy_of(alloc: Global, comm: &Comm) -> Result<Comm, AllocError>
    ensures { IfOk result (λ c. c ≡ comm.now) }
{
    let members = copy_of_members(alloc, comm.members())?;
    let numbers = copy_of_numbers(alloc, comm.numbers())?;
    Ok(Comm::new(
        comm.id(),
        comm.object(),
        members,
        comm.remote_size(),
        numbers,
    ))
}

/// A copy of the communicators.
pub(crate) fn copies(alloc: Global, comms: &[Comm]) -> Result<Vec<Comm>, AllocError>
    ensures { IfOk result (λ v. v.items ≡ comms.now) }
{
    let mut all = Vec::with_capacity(alloc, comms.len())?;
    for comm in comms {
        all.push(copy_of(alloc, comm)?)?;
    }
    Ok(all)
}

/// The members of the communicator of this id, in a list in any order.
pub(crate) fn members_among(comms: &[Comm], comm: u32) -> Option<&[u32]>
    ensures { option_map (λ m. m.now) result ≡ members_of comms.now comm }
{
    for candidate in comms {
        if candidate.id() == comm {
            return Some(candidate.members());
        }
    }
    None
}

/// The place of the communicator of this id, found by binary search; one past the last if it is absent.
fn place_in(comms: &[Comm], comm: u32) -> usize
    requires { IsStrictlyIncreasing (ids comms.now) }
    ensures { slice_get comms.now result ≡ one_of comms.now comm }
{
    match comms.binary_search_by_key(&comm, |candidate| candidate.id()) {
        Ok(at) => at,
        Err(_) => comms.len(),
    }
}

/// The object of this id, found by binary search.
pub(crate) fn comm_in(comms: &[Comm], comm: u32) -> Option<&Comm>
    requires { IsStrictlyIncreasing (ids comms.now) }
    ensures { option_map (λ c. c.now) result ≡ one_of comms.now comm }
{
    comms.get(place_in(comms, comm))
}

/// The members of the communicator of this id, found by binary search.
pub(crate) fn members_in(comms: &[Comm], comm: u32) -> Option<&[u32]>
    requires { IsStrictlyIncreasing (ids comms.now) }
    ensures { option_map (λ m. m.now) result ≡ members_of comms.now comm }
{
    Some(comms.get(place_in(comms, comm))?.members())
}

/// The sort of the object of this id, in a list in any order.
pub(crate) fn object_among(comms: &[Comm], comm: u32) -> Option<Object>
    ensures { result ≡ object_of_comm comms.now comm }
{
    for candidate in comms {
        if candidate.id() == comm {
            return Some(candidate.object());
        }
    }
    None
}

/// Whether the object of this id is an intercommunicator, in a list in any order.
pub(crate) fn is_intercomm_among(comms: &[Comm], comm: u32) -> bool
    ensures { result ≡ is_intercomm comms.now comm }
{
    for candidate in comms {
        if candidate.id() == comm {
            return candidate.is_inter();
        }
    }
    false
}

/// The sort of the object of this id, found by binary search.
pub(crate) fn object_in(comms: &[Comm], comm: u32) -> Option<Object>
    requires { IsStrictlyIncreasing (ids comms.now) }
    ensures { result ≡ object_of_comm comms.now comm }
{
    Some(comms.get(place_in(comms, comm))?.object())
}

/// The place of a rank among the members.
pub(crate) fn place_of(members: &[u32], rank: u32) -> Option<u32>
    requires { length members.now < 2 ^ 32 }
    ensures { result ≡ position_from (λ r. r == rank) 0 members.now }
{
    let mut place = 0;
    for member in members {
        if *member == rank {
            return Some(place);
        }
        place += 1;
    }
    None
}
