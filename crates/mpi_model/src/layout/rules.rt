//! The rules that the communicators of a layout keep, each a test of the list as it was given.

ghost use Rattle.std.specs.Prelude.{◌≡◌, ◌==◌, IfOk, false, option_map};
ghost use Rattle.std.specs.List.{list_any};
ghost use Rattle.std.specs.List.Sorted.{IsNonDecreasing, IsPermutation};
ghost use Rattle.mpi_model.specs.Communicators.{has_double, ids};
ghost use Rattle.mpi_model.specs.Layouts.{comm_fault, ends_before, has_double_member, has_stranger, has_world, has_wrong_numbers, is_some_communicator, is_backward, is_empty_group, is_some_whole, is_whole, number_fault};
ghost use Rattle.mpi_model.specs.Names.{AreOrdered, has_clash, has_clash_of, names_of};
ghost use Rattle.mpi_model.specs.declared.object.Object.TheVariants.{Communicator, Window, File};

use crate::layout::comm::{Comm, Stretch, is_intercomm_among, members_among, object_among};
use crate::layout::fault::LayoutFault;
use crate::layout::names::{Name, has_clash};
use crate::object::Object;
use std::alloc::{AllocError, Global};

/// The names of the objects of each sort, in order.
#[derive(Clone, Copy)]
pub(crate) struct SortedNames<'a> {
    pub(crate) communicators: &'a [Name],
    pub(crate) windows: &'a [Name],
    pub(crate) files: &'a [Name],
}

/// The first fault of the objects, whose names in order are these.
pub(crate) fn fault_in(
    alloc: Global,
    comms: &[Comm],
    names: &SortedNames,
    ranks: u32,
    world: u32,
) -> Result<Option<LayoutFault>, AllocError>
    requires communicators { IsPermutation (names_of Communicator comms.now) names.now.communicators.now × AreOrdered names.now.communicators.now }
    requires windows { IsPermutation (names_of Window comms.now) names.now.windows.now × AreOrdered names.now.windows.now }
    requires files { IsPermutation (names_of File comms.now) names.now.files.now × AreOrdered names.now.files.now }
    ensures { IfOk result (λ f. f ≡ comm_fault ranks world comms.now) }
{
    if two_of_one_id(alloc, comms)? {
        return Ok(Some(LayoutFault::DoubleComm));
    }
    if some_empty(comms) {
        return Ok(Some(LayoutFault::EmptyComm));
    }
    if some_stranger(comms, ranks) {
        return Ok(Some(LayoutFault::MemberRange));
    }
    if some_double_member(alloc, comms, ranks)? {
        return Ok(Some(LayoutFault::DoubleMember));
    }
    if !world_is_there(comms, ranks, world) {
        return Ok(Some(LayoutFault::World));
    }
    Ok(number_fault(comms, names))
}

/// Whether two objects of this sort, whose names in order are these, have one number in some rank's call.
fn has_clash_of(comms: &[Comm], object: Object, names: &[Name]) -> bool
    requires same { IsPermutation (names_of object comms.now) names.now }
    requires order { AreOrdered names.now }
    ensures { result ≡ has_clash_of object comms.now }
{
    let _comms = comms;
    let _object = object;
    has_clash(names)
}

/// Whether two objects of one sort have one number in some rank's call.
fn has_double_meaning(comms: &[Comm], names: &SortedNames) -> bool
    requires communicators { IsPermutation (names_of Communicator comms.now) names.now.communicators.now × AreOrdered names.now.communicators.now }
    requires windows { IsPermutation (names_of Window comms.now) names.now.windows.now × AreOrdered names.now.windows.now }
    requires files { IsPermutation (names_of File comms.now) names.now.files.now × AreOrdered names.now.files.now }
    ensures { result ≡ has_clash comms.now }
{
    has_clash_of(comms, Object::Communicator, names.communicators)
        || has_clash_of(comms, Object::Window, names.windows)
        || has_clash_of(comms, Object::File, names.files)
}

/// The fault of wrong numbers, or of a number to which some rank gives two meanings in one call.
fn number_fault(comms: &[Comm], names: &SortedNames) -> Option<LayoutFault>
    requires communicators { IsPermutation (names_of Communicator comms.now) names.now.communicators.now × AreOrdered names.now.communicators.now }
    requires windows { IsPermutation (names_of Window comms.now) names.now.windows.now × AreOrdered names.now.windows.now }
    requires files { IsPermutation (names_of File comms.now) names.now.files.now × AreOrdered names.now.files.now }
    ensures { result ≡ number_fault comms.now }
{
    if some_wrong_numbers(comms) || has_double_meaning(comms, names) {
        Some(LayoutFault::Numbers)
    } else {
        None
    }
}

/// Whether some communicator has wrong numbers.
fn some_wrong_numbers(comms: &[Comm]) -> bool
    ensures { result ≡ list_any has_wrong_numbers comms.now }
{
    for comm in comms {
        if has_wrong_numbers(comm) {
            return true;
        }
    }
    false
}

/// Whether the numbers are neither absent nor one for each member, or some stretch ends before its first call.
fn has_wrong_numbers(comm: &Comm) -> bool
    ensures { result ≡ has_wrong_numbers comm.now }
{
    let numbers = comm.numbers();
    let is_whole = numbers.is_empty() || numbers.len() == comm.members().len();
    !is_whole || some_backward(numbers)
}

/// Whether some stretch ends before its first call.
fn some_backward(numbers: &[Option<Stretch>]) -> bool
    ensures { result ≡ list_any is_backward numbers.now }
{
    for number in numbers {
        if is_backward(*number) {
            return true;
        }
    }
    false
}

/// Whether the stretch ends before its first call.
fn is_backward(number: Option<Stretch>) -> bool
    ensures { result ≡ is_backward number }
{
    match number {
        Some(stretch) => ends_before(stretch.end, stretch.first),
        None => false,
    }
}

/// Whether there is an end, and it comes before a call.
fn ends_before(end: Option<u64>, call: u64) -> bool
    ensures { result ≡ ends_before end call }
{
    match end {
        Some(end) => end < call,
        None => false,
    }
}

/// Whether two communicators have one id.
fn two_of_one_id(alloc: Global, comms: &[Comm]) -> Result<bool, AllocError>
    ensures { IfOk result (λ two. two ≡ has_double (ids comms.now)) }
{
    let mut ids = ids_of(alloc, comms)?;
    ids.sort()?;
    Ok(two_neighbours(&ids))
}

/// The ids of the communicators.
fn ids_of(alloc: Global, comms: &[Comm]) -> Result<Vec<u32>, AllocError>
    ensures { IfOk result (λ v. v.items ≡ ids comms.now) }
{
    let mut ids = Vec::with_capacity(alloc, comms.len())?;
    for comm in comms {
        ids.push(comm.id())?;
    }
    Ok(ids)
}

/// Whether two neighbours in the sorted list are one number.
fn two_neighbours(numbers: &[u32]) -> bool
    requires { IsNonDecreasing numbers.now }
    ensures { result ≡ has_double numbers.now }
{
    for i in 1..numbers.len() {
        if numbers[i - 1] == numbers[i] {
            return true;
        }
    }
    false
}

/// Whether some communicator has no member in its first group.
fn some_empty(comms: &[Comm]) -> bool
    ensures { result ≡ list_any is_empty_group comms.now }
{
    for comm in comms {
        if comm.members().len() <= comm.remote_size() {
            return true;
        }
    }
    false
}

/// Whether some member of a communicator is no rank of the run.
fn some_stranger(comms: &[Comm], ranks: u32) -> bool
    ensures { result ≡ list_any (λ g. has_stranger ranks g.members) comms.now }
{
    for comm in comms {
        if stranger_in(comm.members(), ranks) {
            return true;
        }
    }
    false
}

/// Whether some member is no rank of the run.
fn stranger_in(members: &[u32], ranks: u32) -> bool
    ensures { result ≡ has_stranger ranks members.now }
{
    for member in members {
        if *member >= ranks {
            return true;
        }
    }
    false
}

/// Whether some communicator has a rank twice.
fn some_double_member(alloc: Global, comms: &[Comm], ranks: u32) -> Result<bool, AllocError>
    requires { list_any (λ g. has_stranger ranks g.members) comms.now ≡ false }
    ensures { IfOk result (λ d. d ≡ list_any has_double_member comms.now) }
{
    for comm in comms {
        if double_in(alloc, comm.members(), ranks)? {
            return Ok(true);
        }
    }
    Ok(false)
}

/// Whether a rank stands twice among the members. One mark for each rank spares comparing each two of them.
#[tactic(auto, using(crate::proofs::Doubles::unmarked))]
fn double_in(alloc: Global, members: &[u32], ranks: u32) -> Result<bool, AllocError>
    requires { has_stranger ranks members.now ≡ false }
    ensures { IfOk result (λ d. d ≡ has_double members.now) }
{
    let mut seen = vec![in alloc; false; ranks as usize]?;
    for member in members {
        let place = *member as usize;
        if seen[place] {
            return Ok(true);
        }
        seen[place] = true;
    }
    Ok(false)
}

/// Whether there is an object, and it is a communicator.
fn is_communicator(object: Option<Object>) -> bool
    ensures { result ≡ is_some_communicator object }
{
    match object {
        Some(object) => object.number() == Object::Communicator.number(),
        None => false,
    }
}

/// Whether the members are there, and are the ranks of the run in order.
fn are_whole(members: Option<&[u32]>, ranks: u32) -> bool
    ensures { result ≡ is_some_whole ranks (option_map (λ m. m.now) members.entry) }
{
    match members {
        Some(members) => are_all_ranks(members, ranks),
        None => false,
    }
}

/// Whether the world is there, is a communicator of one group, and has all ranks in order.
fn world_is_there(comms: &[Comm], ranks: u32, world: u32) -> bool
    ensures { result ≡ has_world ranks world comms.now }
{
    is_communicator(object_among(comms, world))
        && (!is_intercomm_among(comms, world) && are_whole(members_among(comms, world), ranks))
}

/// Whether the members are the ranks of the run, in order.
fn are_all_ranks(members: &[u32], ranks: u32) -> bool
    ensures { result ≡ is_whole ranks members.now }
{
    if members.len() != ranks as usize {
        return false;
    }
    let mut next = 0;
    for member in members {
        if *member != next {
            return false;
        }
        next += 1;
    }
    true
}
