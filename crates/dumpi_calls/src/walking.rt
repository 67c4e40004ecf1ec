//! A walk over the calls of a text.

ghost use Rattle.std.specs.Prelude.{◌≡◌, ◌<◌, ◌≤◌, Option, Err, Ok, Some, None, IfErr, IfNone, IfOk, IfSome, OnErr, OnOk, true, vec_len};
ghost use Rattle.dumpi_text.specs.Failing.{Fails};
ghost use Rattle.dumpi_text.specs.declared.source.TheConstants.{CHUNK};
ghost use Rattle.dumpi_text.specs.declared.step.TheConstants.{MOST_LINES};
ghost use Rattle.dumpi_calls.specs.Rows.{row_of, typed, typed_by, row};
ghost use Rattle.dumpi_calls.specs.Steps.{EndsAtFault, FailsAtFault, FailsThere, GoesOn, GoesOnKept, GoesOnWhole, LacksSo, RefusesTyped, StepsOn, StopsThere, TakesTyped};
ghost use Rattle.dumpi_calls.specs.Walks.{FailsIn, IsReadFault, IsReadStop, IsStopped, IsWalked, RefusesCall, Takes, open_line};

use crate::fault::{WalkCause, WalkFault};
use crate::function::function_in;
use crate::in_place::{Whole, usual_name, whole_front};
use crate::looking::Looked;
use crate::parameter::CallFault;
use crate::sink::{CallSink, hand_on};
use crate::typing::typed_call;
use dumpi_text::{
    LineFault, RawCall, TextCause, TextFault, Texts, reading_call_by_call, skipped_lines,
};
use mpi_model::Read;
use std::alloc::Global;
use std::mem;

/// A text that was walked to its end.
#[derive(Clone, Copy)]
pub struct Walked {
    /// How many calls were handed on: all of the text, or those up to one at which another thread ended the reading.
    pub calls: u64,
    /// How many nonblank lines were skipped.
    pub skipped: u64,
    /// The first of these lines.
    pub first_skipped: Option<u64>,
    /// The line where the last call begins, if the text, or its reading, ends before that call has returned.
    pub unfinished: Option<u64>,
}

/// A call that was handed on.
#[derive(Clone, Copy)]
pub(crate) struct HandedCall {
    /// The line where it begins, if it has not returned.
    pub(crate) open_line: Option<u64>,
}

/// Why a call is refused. If the text was cut off before the last entry parameter was written, the fault is that of a
/// truncated text.
pub(crate) fn refusal<F: Drop>(raw: &RawCall, fault: CallFault, calls: u64) -> WalkFault<F>
    ensures cause { typed raw.now ≡ Err fault → RefusesCall raw.now result.cause result.line }
    ensures memory { fault ≡ CallFault.Memory → RefusesCall raw.now result.cause result.line }
    ensures whole { ¬ IsReadStop result.cause }
    ensures calls { result.calls ≡ calls }
{
    match fault {
        CallFault::Memory => WalkFault {
            cause: WalkCause::Memory,
            line: raw.line(),
            calls,
        },
        CallFault::Wrong(parameter) => WalkFault {
            cause: WalkCause::Wrong(parameter),
            line: raw.line(),
            calls,
        },
        CallFault::Missing(parameter) => match raw.exit() {
            Some(_) => WalkFault {
                cause: WalkCause::Missing(parameter),
                line: raw.line(),
                calls,
            },
            None => WalkFault {
                cause: WalkCause::Text(TextFault::At {
                    line: raw.last_line(),
                    cause: TextCause::Line(LineFault::Truncated),
                }),
                line: raw.last_line(),
                calls,
            },
        },
    }
}

/// Reads a call's parameters and hands it on.
fn take<S: CallSink>(
    alloc: Global,
    raw: &RawCall,
    sink: &mut S,
    calls: u64,
) -> Result<(), WalkFault<S::Fault>>
    ensures ok { IfOk result (λ done. Takes S.step raw.now sink.old sink.new) }
    ensures err { IfErr result (λ fault. RefusesCall raw.now fault.cause fault.line) }
    ensures whole { IfErr result (λ fault. ¬ IsReadStop fault.cause) }
    ensures calls { IfErr result (λ fault. fault.calls ≡ calls) }
    ensures unchanged { OnErr result (sink.new ≡ sink.old) }
{
    let function = function_in(raw);
    match typed_call(alloc, function, raw) {
        Err(fault) => Err(refusal(raw, fault, calls)),
        Ok(call) => match hand_on(sink, function, raw.name(), call) {
            Ok(()) => Ok(()),
            Err(fault) => Err(WalkFault {
                cause: WalkCause::Sink(fault),
                line: raw.line(),
                calls,
            }),
        },
    }
}

/// The call that was handed on.
pub(crate) fn handed(raw: &RawCall) -> HandedCall
    ensures { result.open_line ≡ open_line raw.now }
{
    let open_line = match raw.exit() {
        None => Some(raw.line()),
        Some(_) => None,
    };
    HandedCall { open_line }
}

/// Reads the next call of the text into `raw` and returns whether there is one. This reads a text call by call,
/// without a sink, and doesn't look at the parameters. On [`TextFault`] the text can't be read further, and every later
/// answer is `Ended`.
#[tactic(auto, using(crate::proofs::Failing::fails))]
pub fn next_call<R: Read>(texts: &mut Texts<R>, raw: &mut RawCall) -> Result<bool, TextFault>
    ensures goes_on { GoesOn texts.old result raw.new texts.new }
    ensures stops { EndsAtFault texts.old result texts.new }
    ensures failed { IfErr result (λ fault. IsReadFault fault → Fails R.failures) }
    ensures failure { FailsAtFault R.left R.failures texts.old result texts.new }
    ensures no_failure { OnOk result (texts.new.rest.failures ≡ texts.old.rest.failures) }
    ensures progress { result ≡ Ok true → texts.old.at.line < texts.new.at.line }
    ensures lines { texts.new.at.line ≤ MOST_LINES }
{
    reading_call_by_call();
    texts.known();
    let read = texts.next_into(raw);
    texts.known();
    match read {
        Ok(next) => Ok(next),
        Err(fault) => Err(fault),
    }
}

/// The next call of the text, as [`next_call`], of which no more is kept than what it is read by.
#[tactic(auto, using(crate::proofs::Failing::fails))]
fn next_looked<R: Read>(texts: &mut Texts<R>, raw: &mut RawCall) -> Result<bool, TextFault>
    ensures goes_on { GoesOnKept texts.old result raw.new texts.new }
    ensures stops { EndsAtFault texts.old result texts.new }
    ensures failed { IfErr result (λ fault. IsReadFault fault → Fails R.failures) }
    ensures failure { FailsAtFault R.left R.failures texts.old result texts.new }
    ensures no_failure { OnOk result (texts.new.rest.failures ≡ texts.old.rest.failures) }
    ensures progress { result ≡ Ok true → texts.old.at.line < texts.new.at.line }
    ensures lines { texts.new.at.line ≤ MOST_LINES }
{
    reading_call_by_call();
    texts.known();
    let read = texts.next_kept::<Looked>(raw);
    texts.known();
    match read {
        Ok(found) => Ok(found),
        Err(fault) => Err(fault),
    }
}

/// Why a text has no next call.
pub(crate) fn lack<F: Drop>(fault: TextFault, line: u64, calls: u64) -> WalkFault<F>
    ensures cause { LacksSo fault line result.cause result.line }
    ensures failed { IsReadStop result.cause → IsReadFault fault }
    ensures line { result.line ≡ line }
    ensures calls { result.calls ≡ calls }
{
    match fault {
        TextFault::Memory | TextFault::Ended => WalkFault {
            cause: WalkCause::Memory,
            line,
            calls,
        },
        TextFault::At { .. } => WalkFault {
            cause: WalkCause::Text(fault),
            line,
            calls,
        },
    }
}

/// Takes the next call if it lies whole in the buffer and has the usual form, and returns it with the line where it
/// begins.
#[inline(always)]
#[tactic(auto, using(crate::proofs::Advancing::follows_whole, crate::proofs::Advancing::stands_whole))]
fn whole_of<R: Read>(alloc: Global, texts: &mut Texts<R>) -> Option<(Whole, u64)>
    ensures goes_on { GoesOnWhole texts.old result texts.new }
    ensures none { IfNone result (texts.new ≡ texts.old) }
    ensures no_failure { texts.new.rest.failures ≡ texts.old.rest.failures }
    ensures progress { IfSome result (λ x. texts.old.at.line < texts.new.at.line) }
    ensures lines { IfSome result (λ x. texts.new.at.line ≤ MOST_LINES) }
{
    reading_call_by_call();
    let line = texts.line().saturating_add(1);
    let text = texts.at_hand()?;
    let whole = whole_front(alloc, text)?;
    texts.pass_call(whole.bytes, whole.lines, whole.enter());
    Some((whole, line))
}

/// Hands on a call that was read whole.
#[inline(always)]
#[tactic(auto, using(crate::proofs::Advancing::takes_whole, crate::proofs::Advancing::refuses_whole))]
fn take_whole<S: CallSink>(
    whole: Whole,
    line: u64,
    sink: &mut S,
    calls: u64,
) -> Result<(), WalkFault<S::Fault>>
    ensures ok { TakesTyped S.step whole line result sink.old sink.new }
    ensures err { RefusesTyped whole line result }
    ensures whole { IfErr result (λ fault. ¬ IsReadStop fault.cause) }
    ensures calls { IfErr result (λ fault. fault.calls ≡ calls) }
    ensures unchanged { OnErr result (sink.new ≡ sink.old) }
{
    let Whole { function, call, .. } = whole;
    match hand_on(sink, function, usual_name(function).as_bytes(), call) {
        Ok(()) => Ok(()),
        Err(fault) => Err(WalkFault {
            cause: WalkCause::Sink(fault),
            line,
            calls,
        }),
    }
}

/// Hands on the next call of the text, or nothing at the end of the text.
#[inline(always)]
fn advance<R: Read, S: CallSink>(
    alloc: Global,
    texts: &mut Texts<R>,
    raw: &mut RawCall,
    sink: &mut S,
    calls: u64,
) -> Result<Option<HandedCall>, WalkFault<S::Fault>>
    ensures ok { StepsOn S.step texts.old result texts.new sink.old sink.new }
    ensures err { StopsThere texts.old result }
    ensures failed { IfErr result (λ fault. IsReadStop fault.cause → Fails R.failures) }
    ensures failure { FailsThere R.left R.failures texts.old result }
    ensures no_failure { OnOk result (texts.new.rest.failures ≡ texts.old.rest.failures) }
    ensures calls { IfErr result (λ fault. fault.calls ≡ calls) }
    ensures unchanged { OnErr result (sink.new ≡ sink.old) }
    ensures progress { IfOk result (λ found. IfSome found (λ handed. texts.old.at.line < texts.new.at.line)) }
    ensures lines { texts.new.at.line ≤ MOST_LINES }
{
    if let Some((whole, line)) = whole_of(alloc, texts) {
        return match take_whole(whole, line, sink, calls) {
            Ok(()) => Ok(Some(HandedCall { open_line: None })),
            Err(fault) => Err(fault),
        };
    }
    match next_looked(texts, raw) {
        Ok(true) => match take(alloc, raw, sink, calls) {
            Ok(()) => Ok(Some(handed(raw))),
            Err(fault) => Err(fault),
        },
        Ok(false) => Ok(None),
        Err(fault) => Err(lack(fault, texts.line(), calls)),
    }
}

/// Hands the calls of a text to a sink, in order, each to the callback of its function, up to the first that can't be
/// read or that the sink refuses; [`WalkFault`] then says why, and how many calls were handed on before. The text is
/// read in one pass, and memory doesn't grow with it.
pub fn walk<R: Read, S: CallSink>(
    alloc: Global,
    reader: R,
    sink: &mut S,
) -> Result<Walked, WalkFault<S::Fault>>
    ensures ok { IfOk result (λ walked. IsWalked S.step (R.left reader) sink.old sink.new walked) }
    ensures err { IfErr result (λ fault. IsStopped S.step (R.left reader) sink.old sink.new fault) }
    // a text that can't be read: a reader of this kind fails, and this one did so where the walk stopped
    ensures failed { IfErr result (λ fault. IsReadStop fault.cause → Fails R.failures) }
    ensures failure { IfErr result (λ fault. IsReadStop fault.cause → FailsIn R.left R.failures reader fault.calls fault.line) }
{
    let mut buffer = Vec::new(alloc);
    walk_with_buffer(alloc, reader, sink, &mut buffer)
}

/// A [`walk`] that reuses the buffer of the walk before, if there is one, and leaves its own for the next. The bytes in
/// the buffer have no meaning before or after. It fails as [`walk`] does.
#[tactic(auto, using(crate::proofs::Advancing::advanced, crate::proofs::Advancing::walked_all, crate::proofs::Advancing::walk_stopped, crate::proofs::Failing::fails_in))]
pub fn walk_with_buffer<R: Read, S: CallSink>(
    alloc: Global,
    reader: R,
    sink: &mut S,
    buffer: &mut Vec<u8>,
) -> Result<Walked, WalkFault<S::Fault>>
    ensures ok { IfOk result (λ walked. IsWalked S.step (R.left reader) sink.old sink.new walked) }
    ensures err { IfErr result (λ fault. IsStopped S.step (R.left reader) sink.old sink.new fault) }
    // a text that can't be read: a reader of this kind fails, and this one did so where the walk stopped
    ensures failed { IfErr result (λ fault. IsReadStop fault.cause → Fails R.failures) }
    ensures failure { IfErr result (λ fault. IsReadStop fault.cause → FailsIn R.left R.failures reader fault.calls fault.line) }
    ensures buffer { OnOk result (vec_len buffer.new ≡ CHUNK) }
{
    reading_call_by_call();
    skipped_lines();
    let mut calls: u64 = 0;
    let mut unfinished = None;
    let left = mem::replace(buffer, Vec::new(alloc));
    let mut texts = match Texts::with_buffer(alloc, reader, left) {
        Ok(texts) => texts,
        Err(_) => {
            return Err(WalkFault {
                cause: WalkCause::Memory,
                line: 0,
                calls,
            });
        }
    };
    let mut raw = RawCall::new(alloc);
    'each: loop {
        match advance(alloc, &mut texts, &mut raw, sink, calls) {
            Ok(Some(handed)) => {
                calls += 1;
                unfinished = handed.open_line;
            }
            Ok(None) => {
                let walked = Walked {
                    calls,
                    skipped: texts.skipped(),
                    first_skipped: texts.first_skipped(),
                    unfinished,
                };
                *buffer = texts.into_buffer();
                return Ok(walked);
            }
            Err(fault) => return Err(fault),
        }
    }
}
