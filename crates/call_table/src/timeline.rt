//! A run as trace events, in JSON: a track for each rank, a slice for each call, an arrow for each pair, and a mark on
//! each stuck rank's last call. Times are microseconds from the first readable call of the run.

use crate::fields::{Fields, RankCalls};
use crate::known::Called;
use crate::put::{put, put_microseconds, put_number, put_string};
use crate::received::ReceivedBytes;
use crate::slot::slot_count;
use crate::span::Span;
use mpi_model::{Call, Layout, Object, OpName};
use std::alloc::AllocError;

/// Adds what stands in front of all events. Fails with `AllocError` when memory is refused.
pub fn put_timeline_head(out: &mut Vec<u8>) -> Result<(), AllocError> {
    put(
        out,
        b"{\"displayTimeUnit\":\"ns\",\"traceEvents\":[\n{\"ph\":\"M\",\"pid\":0,\"name\":\"process_name\",\"args\":{\"name\":\"MPI run\"}}",
    )
}

/// Adds what stands behind all events. Fails with `AllocError` when memory is refused.
pub fn put_timeline_end(out: &mut Vec<u8>) -> Result<(), AllocError> {
    put(out, b"\n]}\n")
}

/// Adds the front of an event on a rank's track: its phase and its track.
fn put_event(out: &mut Vec<u8>, phase: &[u8], rank: u32) -> Result<(), AllocError> {
    put(out, b",\n{\"ph\":\"")?;
    put(out, phase)?;
    put(out, b"\",\"pid\":0,\"tid\":")?;
    put_number(out, u64::from(rank))
}

/// Adds a moment, counted from the begin of the run.
fn put_moment(out: &mut Vec<u8>, moment: u64, begin: u64) -> Result<(), AllocError> {
    put(out, b",\"ts\":")?;
    put_microseconds(out, moment.saturating_sub(begin))
}

/// Adds a rank's track: its name, and its place among the others. Fails with `AllocError` when memory is refused.
pub fn put_track(out: &mut Vec<u8>, rank: u32) -> Result<(), AllocError> {
    put_event(out, b"M", rank)?;
    put(out, b",\"name\":\"thread_name\",\"args\":{\"name\":\"rank ")?;
    put_number(out, u64::from(rank))?;
    put(out, b"\"}}")?;
    put_event(out, b"M", rank)?;
    put(
        out,
        b",\"name\":\"thread_sort_index\",\"args\":{\"sort_index\":",
    )?;
    put_number(out, u64::from(rank))?;
    put(out, b"}}")
}

/// Adds an argument that is a number, where there is one.
fn put_argument(out: &mut Vec<u8>, name: &[u8], value: Option<u64>) -> Result<(), AllocError> {
    let Some(value) = value else {
        return Ok(());
    };
    put(out, b",\"")?;
    put(out, name)?;
    put(out, b"\":")?;
    put_number(out, value)
}

/// Adds an argument that is a text, where there is one.
fn put_text(out: &mut Vec<u8>, name: &[u8], value: Option<&[u8]>) -> Result<(), AllocError> {
    let Some(value) = value else {
        return Ok(());
    };
    put(out, b",\"")?;
    put(out, name)?;
    put(out, b"\":")?;
    put_string(out, value)
}

/// The word for a sort of objects.
fn sort_word(object: Option<Object>) -> &'static [u8] {
    match object {
        Some(Object::Window) => b"window ",
        Some(Object::File) => b"file ",
        _ => b"communicator ",
    }
}

/// Adds the object of a call by its name, where it has one.
fn put_object(out: &mut Vec<u8>, layout: &Layout, object: Option<u32>) -> Result<(), AllocError> {
    let Some(id) = object else {
        return Ok(());
    };
    if id == layout.world() {
        return put(out, b",\"object\":\"MPI_COMM_WORLD\"");
    }
    put(out, b",\"object\":\"")?;
    put(out, sort_word(layout.object(id)))?;
    put_number(out, u64::from(id))?;
    put(out, b"\"")
}

/// A number of 32 bits as one of 64.
fn long(value: Option<u32>) -> Option<u64> {
    match value {
        Some(value) => Some(u64::from(value)),
        None => None,
    }
}

/// Adds what the first row of a call says.
fn put_first(out: &mut Vec<u8>, layout: &Layout, fields: &Fields<'_>) -> Result<(), AllocError> {
    put_argument(out, b"peer", long(fields.peer))?;
    put_argument(out, b"tag", long(fields.tag))?;
    put_argument(out, b"count", long(fields.count))?;
    put_text(out, b"datatype", fields.datatype)?;
    put_object(out, layout, fields.object)?;
    put_argument(out, b"round", fields.round)
}

/// Adds what the receive of a Sendrecv says.
fn put_received(out: &mut Vec<u8>, fields: &Fields<'_>) -> Result<(), AllocError> {
    put_argument(out, b"source", long(fields.peer))?;
    put_argument(out, b"source_tag", long(fields.tag))?;
    put_argument(out, b"source_count", long(fields.count))
}

/// Adds what a call says beside its number.
fn put_arguments<'a>(
    out: &mut Vec<u8>,
    calls: &RankCalls<'a>,
    number: u64,
    called: &Called<'a>,
    received: &ReceivedBytes,
) -> Result<(), AllocError> {
    match called.call {
        Call::Startall(_) => {
            put_argument(out, b"parts", Some(slot_count(called.call) as u64))?;
        }
        Call::Sendrecv(_) => {
            put_first(
                out,
                calls.layout,
                &calls.fields(number, called, 0, received),
            )?;
            put_received(out, &calls.fields(number, called, 1, received))?;
        }
        _ => put_first(
            out,
            calls.layout,
            &calls.fields(number, called, 0, received),
        )?,
    }
    put_text(out, b"site", calls.texts.caller(number))
}

/// Adds a call as a slice: it is open to the end of the trace where the call didn't return. Fails with `AllocError`
/// when memory is refused.
pub fn put_slice<'a>(
    out: &mut Vec<u8>,
    calls: &RankCalls<'a>,
    number: u64,
    called: &Called<'a>,
    span: Span,
    begin: u64,
    received: &ReceivedBytes,
) -> Result<(), AllocError> {
    put_event(out, b"X", calls.rank)?;
    put_moment(out, span.begin, begin)?;
    put(out, b",\"dur\":")?;
    put_microseconds(out, span.end.saturating_sub(span.begin))?;
    put(out, b",\"cat\":\"call\",\"name\":")?;
    put_string(out, calls.function(number, called.call))?;
    put(out, b",\"args\":{\"call\":")?;
    put_number(out, number)?;
    put_arguments(out, calls, number, called, received)?;
    if called.exit.is_none() {
        put(out, b",\"returned\":false")?;
    }
    put(out, b"}}")
}

/// Adds a mark on the last call of a stuck rank. Fails with `AllocError` when memory is refused.
pub fn put_stuck(
    out: &mut Vec<u8>,
    rank: u32,
    call: u64,
    moment: u64,
    begin: u64,
) -> Result<(), AllocError> {
    put_event(out, b"i", rank)?;
    put_moment(out, moment, begin)?;
    put(
        out,
        b",\"s\":\"t\",\"cat\":\"stuck\",\"name\":\"stuck\",\"args\":{\"call\":",
    )?;
    put_number(out, call)?;
    put(out, b"}}")
}

/// Adds one end of an arrow, by the number of its pair.
fn put_end(
    out: &mut Vec<u8>,
    phase: &[u8],
    rank: u32,
    moment: u64,
    begin: u64,
    pair: u64,
) -> Result<(), AllocError> {
    put_event(out, phase, rank)?;
    put_moment(out, moment, begin)?;
    put(out, b",\"id\":")?;
    put_number(out, pair)?;
    put(out, b",\"cat\":\"message\",\"name\":\"message\"")
}

/// Adds the arrow of a pair, from the moment at which its message was sent to that at which it was received. Fails with
/// `AllocError` when memory is refused.
pub fn put_arrow(
    out: &mut Vec<u8>,
    ends: (OpName, OpName),
    moments: (u64, u64),
    begin: u64,
    pair: u64,
) -> Result<(), AllocError> {
    put_end(out, b"s", ends.0.rank, moments.0, begin, pair)?;
    put(out, b"}")?;
    put_end(out, b"f", ends.1.rank, moments.1, begin, pair)?;
    put(out, b",\"bp\":\"e\"}")
}
