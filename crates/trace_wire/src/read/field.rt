//! The fields of an event, as bytes.

ghost use Rattle.mpi_model.specs.Ranges.{IsAskedTag, IsSource, IsComm};
ghost use Rattle.std.specs.Prelude.{◌<◌, ◌^◌, IfSome, IfOk, ◌≡◌};
ghost use Rattle.std.specs.Int.{w32, w64};
ghost use Rattle.trace_wire.specs.Outcomes.{Reads};
ghost use Rattle.trace_wire.specs.Forms.{byte_at, number_at, small_of, small, marked, signed};
ghost use Rattle.trace_wire.specs.Fields.{peer_of, told_of, comm_of, mode_of, peer, told, comm, mode, kind, flag, stamp};
ghost use Rattle.trace_wire.specs.declared.read.field.FieldFault.TheVariants.{Memory};

use mpi_model::{CommRef, Kind, Mode, Peer, Stamp, Told};
use std::alloc::{AllocError, AllocFailed, Global};

/// Why a field could not be read.
#[derive(Clone, Copy)]
pub(crate) enum FieldFault {
    Memory,
    /// It runs past the end, or has a value outside its range.
    Content,
}

impl From<AllocError> for FieldFault {
    ghost from_gives = { λ _ e. e ≡ Memory };

    fn from(_e: AllocError) -> FieldFault {
        FieldFault::Memory
    }
}

impl<T: Drop> From<AllocFailed<T>> for FieldFault {
    ghost from_gives = { λ _ e. e ≡ Memory };

    fn from(_e: AllocFailed<T>) -> FieldFault {
        FieldFault::Memory
    }
}

/// A byte.
pub(crate) fn byte_of(bytes: &[u8]) -> Result<(u8, &[u8]), FieldFault>
    ensures { Reads (λ x. (x.0, x.1.now)) result (byte_at bytes.now) }
{
    match bytes {
        [] => Err(FieldFault::Content),
        [first, rest @ ..] => Ok((*first, rest)),
    }
}

/// A big-endian number of four bytes.
pub(crate) fn u32_of(bytes: &[u8]) -> Result<(u32, &[u8]), FieldFault>
    ensures { Reads (λ x. (x.0, x.1.now)) result (number_at w32 bytes.now) }
{
    if bytes.len() < 4 {
        return Err(FieldFault::Content);
    }
    let (front, rest) = bytes.split_at(4);
    let number = u32::from_be_bytes([front[0], front[1], front[2], front[3]]);
    Ok((number, rest))
}

/// A big-endian number of eight bytes.
pub(crate) fn u64_of(bytes: &[u8]) -> Result<(u64, &[u8]), FieldFault>
    ensures { Reads (λ x. (x.0, x.1.now)) result (number_at w64 bytes.now) }
{
    if bytes.len() < 8 {
        return Err(FieldFault::Content);
    }
    let (front, rest) = bytes.split_at(8);
    let number = u64::from_be_bytes([
        front[0], front[1], front[2], front[3], front[4], front[5], front[6], front[7],
    ]);
    Ok((number, rest))
}

/// A number with a sign, in two's complement.
pub(crate) fn signed_of(bytes: &[u8]) -> Result<(i64, &[u8]), FieldFault>
    ensures { Reads (λ x. (x.0, x.1.now)) result (signed.read bytes.now) }
{
    let (number, rest) = u64_of(bytes)?;
    Ok((number.cast_signed(), rest))
}

/// A number up to 2^31 - 1.
fn small_from(n: u32) -> Option<u32>
    ensures read { result ≡ small_of n }
    ensures range { IfSome result (λ m. m < 2 ^ 31) }
{
    if n < 0x8000_0000 { Some(n) } else { None }
}

/// A number up to 2^31 - 1.
pub(crate) fn small_field(bytes: &[u8]) -> Result<(u32, &[u8]), FieldFault>
    ensures read { Reads (λ x. (x.0, x.1.now)) result (small.read bytes.now) }
    ensures range { IfOk result (λ x. x.0 < 2 ^ 31) }
{
    let (number, rest) = u32_of(bytes)?;
    match small_from(number) {
        Some(n) => Ok((n, rest)),
        None => Err(FieldFault::Content),
    }
}

/// A tag or a root: a number, or none by its mark.
pub(crate) fn marked_field(bytes: &[u8]) -> Result<(Option<u32>, &[u8]), FieldFault>
    ensures read { Reads (λ x. (x.0, x.1.now)) result (marked.read bytes.now) }
    ensures range { IfOk result (λ x. IsAskedTag x.0) }
{
    let (number, rest) = u32_of(bytes)?;
    if number == 0xFFFF_FFFF {
        return Ok((None, rest));
    }
    match small_from(number) {
        Some(n) => Ok((Some(n), rest)),
        None => Err(FieldFault::Content),
    }
}

/// What is told by its number or mark.
fn told_from(n: u32) -> Option<Told>
    ensures { result ≡ told_of n }
{
    if n == 0xFFFF_FFFF {
        return Some(Told::Nothing);
    }
    if n == 0xFFFF_FFFE {
        return Some(Told::Cancelled);
    }
    match small_from(n) {
        Some(rank) => Told::from_rank(rank),
        None => None,
    }
}

/// What is told: a source, that the operation was cancelled, or nothing.
pub(crate) fn told_field(bytes: &[u8]) -> Result<(Told, &[u8]), FieldFault>
    ensures { Reads (λ x. (x.0, x.1.now)) result (told.read bytes.now) }
{
    let (number, rest) = u32_of(bytes)?;
    match told_from(number) {
        Some(n) => Ok((n, rest)),
        None => Err(FieldFault::Content),
    }
}

/// A peer by its number or mark.
fn peer_from(n: u32) -> Option<Peer>
    ensures read { result ≡ peer_of n }
    ensures range { IfSome result (IsSource) }
{
    if n == 0xFFFF_FFFF {
        return Some(Peer::Any);
    }
    if n == 0xFFFF_FFFE {
        return Some(Peer::Null);
    }
    match small_from(n) {
        Some(n) => Some(Peer::Rank(n)),
        None => None,
    }
}

/// A peer.
pub(crate) fn peer_field(bytes: &[u8]) -> Result<(Peer, &[u8]), FieldFault>
    ensures read { Reads (λ x. (x.0, x.1.now)) result (peer.read bytes.now) }
    ensures range { IfOk result (λ x. IsSource x.0) }
{
    let (number, rest) = u32_of(bytes)?;
    match peer_from(number) {
        Some(n) => Ok((n, rest)),
        None => Err(FieldFault::Content),
    }
}

/// A communicator by its number or mark.
fn comm_from(n: u32) -> Option<CommRef>
    ensures read { result ≡ comm_of n }
    ensures range { IfSome result (IsComm) }
{
    if n == 0xFFFF_FFFF {
        return Some(CommRef::World);
    }
    match small_from(n) {
        Some(n) => Some(CommRef::Id(n)),
        None => None,
    }
}

/// A communicator.
pub(crate) fn comm_field(bytes: &[u8]) -> Result<(CommRef, &[u8]), FieldFault>
    ensures read { Reads (λ x. (x.0, x.1.now)) result (comm.read bytes.now) }
    ensures range { IfOk result (λ x. IsComm x.0) }
{
    let (number, rest) = u32_of(bytes)?;
    match comm_from(number) {
        Some(n) => Ok((n, rest)),
        None => Err(FieldFault::Content),
    }
}

/// The mode of a send by its code.
fn mode_from(n: u8) -> Option<Mode>
    ensures { result ≡ mode_of n }
{
    match n {
        0 => Some(Mode::Standard),
        1 => Some(Mode::Synchronous),
        2 => Some(Mode::Buffered),
        3 => Some(Mode::Ready),
        _ => None,
    }
}

/// The mode of a send.
pub(crate) fn mode_field(bytes: &[u8]) -> Result<(Mode, &[u8]), FieldFault>
    ensures { Reads (λ x. (x.0, x.1.now)) result (mode.read bytes.now) }
{
    let (number, rest) = byte_of(bytes)?;
    match mode_from(number) {
        Some(n) => Ok((n, rest)),
        None => Err(FieldFault::Content),
    }
}

/// The kind of a collective call.
pub(crate) fn kind_field(bytes: &[u8]) -> Result<(Kind, &[u8]), FieldFault>
    ensures { Reads (λ x. (x.0, x.1.now)) result (kind.read bytes.now) }
{
    let (number, rest) = byte_of(bytes)?;
    match Kind::of_number(number) {
        Some(n) => Ok((n, rest)),
        None => Err(FieldFault::Content),
    }
}

/// Whether a test found its request completed.
pub(crate) fn flag_field(bytes: &[u8]) -> Result<(bool, &[u8]), FieldFault>
    ensures { Reads (λ x. (x.0, x.1.now)) result (flag.read bytes.now) }
{
    let (number, rest) = byte_of(bytes)?;
    match number {
        0 => Ok((false, rest)),
        1 => Ok((true, rest)),
        _ => Err(FieldFault::Content),
    }
}

/// Wall and CPU time.
pub(crate) fn stamp_field(bytes: &[u8]) -> Result<(Stamp, &[u8]), FieldFault>
    ensures { Reads (λ x. (x.0, x.1.now)) result (stamp.read bytes.now) }
{
    let (wall, rest) = u64_of(bytes)?;
    let (cpu, rest) = u64_of(rest)?;
    match Stamp::new(wall, cpu) {
        Some(time) => Ok((time, rest)),
        None => Err(FieldFault::Content),
    }
}
