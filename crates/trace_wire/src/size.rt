//! How many bytes a frame has. A number too large for a `u64` stays at the greatest.

ghost use Rattle.std.specs.Prelude.{◌≡◌, ◌+◌, ◌*◌, ◌-◌, ◌^◌, None, min, length, if◌then◌else◌};
ghost use Rattle.std.specs.FinMap.{entries};
ghost use Rattle.trace_wire.specs.declared.version.Version.TheVariants.{Two};
ghost use Rattle.trace_wire.specs.Fields.{is_barrier};
ghost use Rattle.trace_wire.specs.Events.{call_fields, event_bytes, outs_fields};
ghost use Rattle.trace_wire.specs.Cells.{AreCells, AreInRange, IsInRange, known_bytes, knowns_bytes, knowns_of};
ghost use Rattle.trace_wire.specs.Frames.{frame_as, parts_in, payload_as};
ghost use Rattle.trace_wire.specs.Sizes.{head_len, part_end};

use crate::kind::is_barrier;
use crate::version::Version;
use mpi_model::{Call, Event, Kind, Outs};
use trace_know::{Knowledge, Known, Walk, listing_laws};

/// The bytes of a head: what stands before the payload.
const HEAD: u64 = 10;

/// A count and so many items of one length.
fn list_len(count: usize, each: u64) -> u64
    ensures { result ≡ min (4 + count * each) (2 ^ 64 - 1) }
{
    (count as u64).saturating_mul(each).saturating_add(4)
}

/// The bytes behind the code and the times of a nonblocking collective call.
fn icollective_len(kind: Kind) -> u64
    ensures { result ≡ (if is_barrier kind then 4 else 9) }
{
    if is_barrier(kind) { 4 } else { 9 }
}

/// The bytes behind the code and the times of a call.
#[tactic(auto, using(crate::proofs::Lengths::requests_len))]
fn call_len(call: &Call) -> u64
    ensures { result ≡ min (length (call_fields call.now)) (2 ^ 64 - 1) }
{
    match call {
        Call::Local | Call::Finalize | Call::Imrecv | Call::Unread => 0,
        Call::Send(_, _) | Call::Isend(_, _) | Call::SendInit(_, _) => 25,
        Call::Recv(_) | Call::Irecv(_) | Call::RecvInit(_) => 24,
        Call::Sendrecv(_) => 48,
        Call::Wait(_) | Call::Test(_) => 8,
        Call::Cancel(_) | Call::Free(_) | Call::Start(_) => 8,
        Call::Waitall(requests)
        | Call::Waitany(requests)
        | Call::Waitsome(requests)
        | Call::Testall(requests)
        | Call::Testany(requests)
        | Call::Testsome(requests)
        | Call::Startall(requests) => list_len(requests.as_slice().len(), 8),
        Call::Collective(_) => 9,
        Call::Icollective(call) => icollective_len(call.kind()),
        Call::Probe(_) | Call::Mprobe(_) | Call::Improbe(_) | Call::Iprobe(_) => 12,
    }
}

/// The bytes behind the code and the times of an outcome.
#[tactic(auto, using(crate::proofs::Lengths::sources_len, crate::proofs::Lengths::elements_len))]
fn outs_len(outs: &Outs) -> u64
    ensures { result ≡ min (length (outs_fields outs.now)) (2 ^ 64 - 1) }
{
    match outs {
        Outs::Nothing => 0,
        Outs::Posted(_) => 8,
        Outs::Status(_) => 4,
        Outs::Statuses(sources) => list_len(sources.as_slice().len(), 4),
        Outs::Index(None, _) => 5,
        Outs::Index(Some(_), _) => 9,
        Outs::Several(elements) => list_len(elements.as_slice().len(), 8),
        Outs::Flag(_, _) => 5,
    }
}

/// The bytes of an event.
fn event_len(event: &Event) -> u64
    ensures { result ≡ min (length (event_bytes event.now)) (2 ^ 64 - 1) }
{
    match event {
        Event::Enter(call, _) => call_len(call).saturating_add(17),
        Event::Return(outs, _) => outs_len(outs).saturating_add(17),
    }
}

/// The bytes of what is known of a place. It also tells that an event lies in its range.
pub(crate) fn known_len(known: &Known) -> u64
    ensures value { result ≡ min (length (known_bytes known.now)) (2 ^ 64 - 1) }
    ensures range { IsInRange known.now }
{
    match known {
        Known::One(event) => {
            event.known();
            event_len(event).saturating_add(1)
        }
        Known::Contradiction => 1,
    }
}

/// The size of a payload.
#[derive(Clone, Copy)]
pub(crate) struct Size {
    /// How many parts it has: cells, or runs.
    pub parts: u64,
    /// How many bytes.
    pub len: u64,
}

/// How many parts of a payload end at a cell, from which on so many cells stand without a gap: one or none.
fn part_end(version: Version, run_len: usize) -> u64
    ensures { result ≡ part_end version run_len }
{
    match version {
        Version::One => 1,
        Version::Two => (run_len == 1) as u64,
    }
}

/// The bytes of so many parts without what is known at their cells.
fn heads_len(version: Version, parts: u64) -> u64
    ensures { result ≡ min (parts * head_len version) (2 ^ 64 - 1) }
{
    match version {
        Version::One => parts.saturating_mul(12),
        Version::Two => parts.saturating_mul(16),
    }
}

/// How many parts the cells that a walk has left make, and how many bytes what is known there has. It also tells that
/// their events lie in their ranges.
fn walk_size(version: Version, cells: Walk<'_>) -> Size
    ensures parts { result.parts ≡ min (parts_in version cells.entry) (2 ^ 64 - 1) }
    ensures len { result.len ≡ min (length (knowns_bytes (knowns_of cells.entry))) (2 ^ 64 - 1) }
    ensures range { AreInRange cells.entry }
{
    let mut cells = cells;
    let mut parts = 0_u64;
    let mut len = 0_u64;
    let mut run_len = cells.run_len();
    while let Some((_, _, known)) = cells.next() {
        parts = parts.saturating_add(part_end(version, run_len));
        len = len.saturating_add(known_len(known));
        run_len = cells.run_len();
    }
    Size { parts, len }
}

/// The size of the payload of the knowledge. It also tells that the cells of every knowledge are those of a frame, if
/// the length is within the limit.
pub(crate) fn payload_size(version: Version, knowledge: &Knowledge) -> Size
    ensures parts { result.parts ≡ min (parts_in version (entries knowledge.now)) (2 ^ 64 - 1) }
    ensures len { result.len ≡ min (length (payload_as version (entries knowledge.now))) (2 ^ 64 - 1) }
    ensures cells { AreCells None (entries knowledge.now) }
{
    knowledge.known();
    listing_laws();
    let size = walk_size(version, knowledge.cells());
    let heads = heads_len(version, size.parts);
    Size {
        parts: size.parts,
        len: heads.saturating_add(size.len).saturating_add(4),
    }
}

/// How many bytes the frame of the knowledge has in a version. It takes no memory. Its contract also says that the
/// cells of every knowledge are those of a frame, if the length is within the limit.
pub fn frame_len_as(version: Version, knowledge: &Knowledge) -> u64
    ensures value { result ≡ min (length (frame_as version (entries knowledge.now))) (2 ^ 64 - 1) }
    ensures cells { AreCells None (entries knowledge.now) }
{
    payload_size(version, knowledge).len.saturating_add(HEAD)
}

/// How many bytes the frame of the knowledge has, in version 2.
pub fn frame_len(knowledge: &Knowledge) -> u64
    ensures value { result ≡ min (length (frame_as Two (entries knowledge.now))) (2 ^ 64 - 1) }
    ensures cells { AreCells None (entries knowledge.now) }
{
    frame_len_as(Version::Two, knowledge)
}
