//! Which request numbers the calls behind touch or cancel, and what they tell of them.

ghost use Rattle.std.specs.Prelude.{◌≡◌, true, Some, IfOk, OnOk};
ghost use Rattle.std.specs.Option.{option_map};
ghost use Rattle.trace_ops.specs.Called.{places_by, plain_called};
ghost use Rattle.trace_ops.specs.Request.{given_in};
ghost use Rattle.trace_ops.specs.Tables.{Becomes, ChangesAt, kept_of};
ghost use Rattle.trace_ops.specs.Touched.{IsKept, IsWithoutRequest, NotesCall, NotesEnd, NotesPart, NotesQuiet, end_of, ends_at, is_any_cancelled, is_cancelled_at, marked, voided, with_ends, with_firsts, with_place, with_tellings};

use crate::called::Called;
use crate::completed::Completed;
use crate::table::Touched;
use mpi_model::{Call, Told};
use std::alloc::AllocError;

/// The first call that touches a request number, and what it tells of the request.
#[derive(Clone, Copy)]
pub(crate) struct End {
    pub call: usize,
    /// The first of its completions that may tell the source, or else their number.
    pub place: usize,
    /// Whether the first of them that says something says that the request was cancelled.
    pub void: bool,
}

/// What the calls behind do with a request number.
#[derive(Clone, Copy)]
pub(crate) struct Touch {
    pub end: Option<End>,
    /// Whether a Cancel names the number before it is touched.
    pub cancelled: bool,
}

/// Whether it is known that the call has to do with no request, whatever its outcome.
#[inline(always)]
pub(crate) fn is_without_request(call: &Call) -> bool
    ensures { result ≡ true → IsWithoutRequest call.now }
{
    matches!(
        call,
        Call::Local
            | Call::Send(_, _)
            | Call::Recv(_)
            | Call::Sendrecv(_)
            | Call::Collective(_)
            | Call::Probe(_)
    )
}

/// What is kept of the number.
pub(crate) fn touch_of(touched: &Touched, x: i64) -> Option<Touch>
    ensures { result ≡ kept_of touched.now x }
{
    touched.get(x)
}

/// The call that ends a number, where one does.
pub(crate) fn end_of(touch: Option<Touch>) -> Option<End>
    ensures { result ≡ end_of touch }
{
    touch?.end
}

/// A call ends the number, and its completions from a place on tell of it.
fn ends_at(call: usize, place: usize) -> Touch
    ensures { result ≡ ends_at call place }
{
    Touch {
        end: Some(End {
            call,
            place,
            void: false,
        }),
        cancelled: false,
    }
}

/// Notes the number that a place of the call completes.
#[inline(always)]
fn note_end(
    touched: &mut Touched,
    call: usize,
    place: usize,
    completed: Option<Completed>,
) -> Result<(), AllocError>
    ensures { OnOk result (NotesEnd call place completed touched.old touched.new) }
{
    if let Some(completed) = completed {
        touched.insert(completed.request, ends_at(call, place))?;
    }
    Ok(())
}

/// Notes all numbers that the call completes, as if it told nothing.
fn note_completed(touched: &mut Touched, call: usize, called: &Called<'_>) -> Result<(), AllocError>
    ensures { OnOk result (Becomes (with_ends call (places_by called.now)) (kept_of touched.old) (kept_of touched.new)) }
{
    let count = called.places();
    let mut place = count;
    while place > 0 {
        place -= 1;
        note_end(touched, call, count, called.completed_at(place))?;
    }
    Ok(())
}

/// Notes for each number what the completions tell of it: the last of them first, so that at the
/// end the first one decides.
fn note_tellings(touched: &mut Touched, call: usize, called: &Called<'_>) -> Result<(), AllocError>
    ensures { OnOk result (Becomes (with_tellings call 0 (places_by called.now)) (kept_of touched.old) (kept_of touched.new)) }
{
    let mut place = called.places();
    while place > 0 {
        place -= 1;
        note_telling(touched, call, place, called.completed_at(place))?;
    }
    Ok(())
}

/// Whether the place says that its request was cancelled.
fn is_cancelled_at(completed: Option<Completed>) -> bool
    ensures { result ≡ is_cancelled_at completed }
{
    match completed {
        Some(completed) => matches!(completed.told, Told::Cancelled),
        None => false,
    }
}

/// Whether one of the completions says that its request was cancelled.
#[inline(always)]
fn is_any_cancelled(called: &Called<'_>) -> bool
    ensures { result ≡ is_any_cancelled (places_by called.now) }
{
    for place in 0..called.places() {
        if is_cancelled_at(called.completed_at(place)) {
            return true;
        }
    }
    false
}

/// Notes for each number its first completion: the last of them first, so that at the end the first one stays.
#[inline(always)]
fn note_firsts(touched: &mut Touched, call: usize, called: &Called<'_>) -> Result<(), AllocError>
    ensures { OnOk result (Becomes (with_firsts call 0 (places_by called.now)) (kept_of touched.old) (kept_of touched.new)) }
{
    let mut place = called.places();
    while place > 0 {
        place -= 1;
        note_end(touched, call, place, called.completed_at(place))?;
    }
    Ok(())
}

/// Notes first what the call completes, and then what its completions tell.
#[inline(never)]
fn note_cancelled(touched: &mut Touched, n: usize, called: &Called<'_>) -> Result<(), AllocError>
    ensures { OnOk result (NotesQuiet n (plain_called called.now) touched.old touched.new) }
{
    note_completed(touched, n, called)?;
    note_tellings(touched, n, called)?;
    Ok(())
}

/// Goes one step on to the front: a call that gives no number and cancels none. Where none of its completions says that
/// its request was cancelled, each is noted once.
#[inline(always)]
fn note_done(touched: &mut Touched, n: usize, called: &Called<'_>) -> Result<(), AllocError>
    ensures { OnOk result (NotesQuiet n (plain_called called.now) touched.old touched.new) }
{
    if is_any_cancelled(called) {
        note_cancelled(touched, n, called)
    } else {
        note_firsts(touched, n, called)?;
        Ok(())
    }
}

/// Notes what the place tells.
fn note_telling(
    touched: &mut Touched,
    call: usize,
    place: usize,
    completed: Option<Completed>,
) -> Result<(), AllocError>
    ensures { OnOk result (Becomes (λ x touch. with_place call place x completed touch) (kept_of touched.old) (kept_of touched.new)) }
{
    let Some(completed) = completed else {
        return Ok(());
    };
    match completed.told {
        Told::Nothing => {}
        Told::Source(_) => {
            touched.insert(completed.request, ends_at(call, place))?;
        }
        Told::Cancelled => note_void(touched, completed.request)?,
    }
    Ok(())
}

/// Notes that the call which ends the number says that its request was cancelled.
fn note_void(touched: &mut Touched, request: i64) -> Result<(), AllocError>
    ensures { OnOk result (ChangesAt request (option_map voided) (kept_of touched.old) (kept_of touched.new)) }
{
    if let Some(touch) = touch_of(touched, request) {
        touched.insert(request, voided(touch))?;
    }
    Ok(())
}

/// The same, where the call that ends the number says that its request was cancelled.
fn voided(touch: Touch) -> Touch
    ensures { result ≡ voided touch }
{
    Touch {
        end: match touch.end {
            Some(end) => Some(End { void: true, ..end }),
            None => None,
        },
        cancelled: touch.cancelled,
    }
}

/// Notes the number that the call posts, and answers what was kept of it.
#[inline(always)]
fn note_post(touched: &mut Touched, call: usize, request: i64) -> Result<Option<Touch>, AllocError>
    ensures noted { OnOk result (ChangesAt request (λ touch. Some (ends_at call 0)) (kept_of touched.old) (kept_of touched.new)) }
    ensures kept { IfOk result (λ touch. touch ≡ kept_of touched.old request) }
{
    let touch = touched.insert(request, ends_at(call, 0))?;
    Ok(touch)
}

/// Notes the number that a Cancel names.
fn note_cancel(touched: &mut Touched, request: i64) -> Result<(), AllocError>
    ensures { OnOk result (ChangesAt request (λ touch. Some (marked touch)) (kept_of touched.old) (kept_of touched.new)) }
{
    let end = end_of(touch_of(touched, request));
    touched.insert(
        request,
        Touch {
            end,
            cancelled: true,
        },
    )?;
    Ok(())
}

/// Goes one step on to the front: a call that is one step. Answers what was kept of the number that it gives.
#[inline(always)]
pub(crate) fn note(
    touched: &mut Touched,
    n: usize,
    called: &Called<'_>,
) -> Result<Option<Touch>, AllocError>
    ensures follows { OnOk result (NotesCall n (plain_called called.now) touched.old touched.new) }
    ensures kept { IfOk result (IsKept (given_in (plain_called called.now)) (kept_of touched.old)) }
{
    match (called.cancels(), called.given()) {
        (Some(request), _) => {
            note_cancel(touched, request)?;
            Ok(None)
        }
        (None, Some(request)) => {
            let touch = note_post(touched, n, request)?;
            Ok(touch)
        }
        (None, None) => {
            note_done(touched, n, called)?;
            Ok(None)
        }
    }
}

/// Goes one step on to the front: a part of a Start or Startall, which gives its number anew, if one. Answers what was
/// kept of that number.
pub(crate) fn note_part(
    touched: &mut Touched,
    n: usize,
    given: Option<i64>,
) -> Result<Option<Touch>, AllocError>
    ensures follows { OnOk result (NotesPart n given touched.old touched.new) }
    ensures kept { IfOk result (IsKept given (kept_of touched.old)) }
{
    match given {
        Some(request) => {
            let touch = note_post(touched, n, request)?;
            Ok(touch)
        }
        None => Ok(None),
    }
}
