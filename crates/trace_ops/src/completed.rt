//! Requests that an outcome completes.

ghost use Rattle.std.specs.Prelude.{◌≡◌, ◌++◌, ◌<◌, [], Some, length, map, slice_get, OnOk};
ghost use Rattle.std.specs.List.{cons_option};
ghost use Rattle.std.specs.Option.{option_copied, unwrap_or};
ghost use Rattle.mpi_model.specs.declared.told.Told.TheVariants.{Nothing};
ghost use Rattle.trace_ops.specs.Places.{all_places, places_of};
ghost use Rattle.trace_ops.specs.Request.{any_of, completes, element_of, given_of, indexed, number_for};

use mpi_model::{Call, Element, NULL_REQUEST, Outs, Told};
use std::alloc::AllocError;

/// A request that an outcome completes, and what the outcome says of its source.
#[derive(Clone, Copy)]
pub struct Completed {
    /// The trace's number of the request.
    pub request: i64,
    /// What is told of the message's source.
    pub told: Told,
}

/// The request number, unless it is the null number.
fn number_for(request: i64) -> Option<i64>
    ensures { result ≡ number_for request }
{
    if request == NULL_REQUEST {
        None
    } else {
        Some(request)
    }
}

/// The number that a returned call gives: to the operation that it starts, or, of an init, to the one that it
/// describes.
#[inline(always)]
pub(crate) fn given_of(call: &Call, outs: Option<&Outs>) -> Option<i64>
    ensures { result ≡ given_of call.now (option_copied outs.entry) }
{
    match (call, outs) {
        (Call::Isend(_, _), Some(Outs::Posted(request))) => number_for(*request),
        (Call::Irecv(_), Some(Outs::Posted(request))) => number_for(*request),
        (Call::Icollective(_), Some(Outs::Posted(request))) => number_for(*request),
        (Call::Imrecv, Some(Outs::Posted(request))) => number_for(*request),
        (Call::SendInit(_, _), Some(Outs::Posted(request))) => number_for(*request),
        (Call::RecvInit(_), Some(Outs::Posted(request))) => number_for(*request),
        _ => None,
    }
}

/// A request that is completed, with what is told of it.
fn completes(request: i64, told: Told) -> Completed
    ensures { result ≡ completes request told }
{
    Completed { request, told }
}

/// What the entry at a place tells: a missing one tells nothing.
fn entry_at(tells: &[Told], place: usize) -> Told
    ensures { result ≡ unwrap_or (slice_get tells.now place) Nothing }
{
    match tells.get(place) {
        Some(told) => *told,
        None => Told::Nothing,
    }
}

/// The request at a place of a list, with the entry at its own place.
fn each_at(requests: &[i64], tells: &[Told], place: usize) -> Option<Completed>
    requires { place < length (all_places requests.now tells.now) }
    ensures { slice_get (all_places requests.now tells.now) place ≡ Some result }
{
    let told = entry_at(tells, place);
    Some(completes(requests[place], told))
}

/// The request that the element at a place names.
fn indexed_at(requests: &[i64], elements: &[Element], place: usize) -> Option<Completed>
    requires { place < length (map (element_of requests.now) elements.now) }
    ensures { slice_get (map (element_of requests.now) elements.now) place ≡ Some result }
{
    let element = elements[place];
    indexed(requests, element.position, element.told)
}

/// The request at a position of the call's list.
fn indexed(requests: &[i64], position: u32, told: Told) -> Option<Completed>
    ensures { result ≡ indexed requests.now position told }
{
    let request = requests.get(position as usize)?;
    Some(completes(*request, told))
}

/// The request of a Waitany or Testany, where its outcome has an index.
fn any_of(requests: &[i64], position: Option<u32>, told: Told) -> Option<Completed>
    ensures { cons_option result [] ≡ any_of requests.now position told }
{
    indexed(requests, position?, told)
}

/// How many of a request that may be completed are.
fn count_of(completed: Option<Completed>) -> usize
    ensures { result ≡ length (map (λ c. Some c) (cons_option completed [])) }
{
    match completed {
        Some(_) => 1,
        None => 0,
    }
}

/// How many places the outcome of a returned call has, each of which may complete a request.
#[tactic(auto, using(crate::proofs::Placing::each_count, std::proofs::lemmas::Grind::common_steps))]
#[inline(always)]
pub(crate) fn place_count(call: &Call, outs: Option<&Outs>) -> usize
    ensures { result ≡ length (places_of call.now (option_copied outs.entry)) }
{
    match (call, outs) {
        (Call::Wait(_), Some(Outs::Status(_))) => 1,
        (Call::Test(_), Some(Outs::Flag(done, _))) => { if *done { 1 } else { 0 } }
        (Call::Waitall(requests) | Call::Testall(requests), Some(Outs::Statuses(_))) => requests
            .as_slice()
            .len(),
        (Call::Waitany(requests) | Call::Testany(requests), Some(Outs::Index(position, told))) =>
            count_of(any_of(requests.as_slice(), *position, *told)),
        (Call::Waitsome(_) | Call::Testsome(_), Some(Outs::Several(elements))) => elements
            .as_slice()
            .len(),
        (Call::Free(_), Some(_)) => 1,
        _ => 0,
    }
}

/// The request that a returned call completes at a place of its outcome.
#[inline(always)]
pub(crate) fn place_at(call: &Call, outs: Option<&Outs>, place: usize) -> Option<Completed>
    requires { place < length (places_of call.now (option_copied outs)) }
    ensures { slice_get (places_of call.now (option_copied outs.entry)) place ≡ Some result }
{
    match (call, outs) {
        (Call::Wait(request), Some(Outs::Status(told))) => Some(completes(*request, *told)),
        (Call::Test(request), Some(Outs::Flag(_, told))) => Some(completes(*request, *told)),
        (Call::Waitall(requests) | Call::Testall(requests), Some(Outs::Statuses(tells))) => each_at(
            requests.as_slice(),
            tells.as_slice(),
            place,
        ),
        (Call::Waitany(requests) | Call::Testany(requests), Some(Outs::Index(position, told))) =>
            any_of(requests.as_slice(), *position, *told),
        (Call::Waitsome(requests) | Call::Testsome(requests), Some(Outs::Several(elements))) =>
            indexed_at(requests.as_slice(), elements.as_slice(), place),
        (Call::Free(request), Some(_)) => Some(completes(*request, Told::Nothing)),
        _ => None,
    }
}

/// Adds the item at the end, where there is one.
#[inline(always)]
pub(crate) fn push_some<T: Drop>(list: &mut Vec<T>, item: Option<T>) -> Result<(), AllocError>
    ensures { OnOk result (list.new.items ≡ list.old.items ++ cons_option item []) }
{
    if let Some(item) = item {
        list.push(item)?;
    }
    Ok(())
}
