//! Whole pieces over devices. No crate above loops over a device itself, but for the line reader.

ghost use Rattle.std.specs.Prelude.{◌≡◌, ◌<◌, ◌≤◌, length, take, IfErr, OnOk};
ghost use Rattle.std.specs.Io.KnownBytes.{Consumes, Appends};
ghost use Rattle.mpi_model.specs.Failures.{CountsFailure};
ghost use Rattle.mpi_model.specs.Side.{LeavesSide};
ghost use Rattle.mpi_model.specs.Whole.{HasCause, TakesFront};

use crate::device::{Read, Write};
use thiserror::Error;

/// Why a buffer was not filled. `taken` bytes were read before, and stand in its front.
#[derive(Clone, Copy, Debug, PartialEq, Eq, Error)]
pub enum ReadFault {
    /// The device failed.
    #[error("reading failed after {taken} bytes")]
    Failed { taken: usize },
    /// The device's bytes ended.
    #[error("the input ended after {taken} bytes")]
    Short { taken: usize },
}

/// The device failed. The first `written` bytes of the piece were written before.
#[derive(Clone, Copy, Debug, PartialEq, Eq, Error)]
#[error("writing failed after {written} bytes")]
pub struct WriteFault {
    pub written: usize,
}

/// Fills the buffer, and takes no byte more. [`ReadFault`] says why it isn't filled, and how many bytes were read
/// before and stand in its front.
pub fn read_exactly<R: Read>(reader: &mut R, buffer: &mut [u8]) -> Result<(), ReadFault>
    ensures ok { OnOk result (Consumes (R.left reader.old) (R.left reader.new) buffer.new) }
    ensures no_failure { OnOk result (R.failures reader.new ≡ R.failures reader.old) }

    ensures err { IfErr result (λ fault. TakesFront (R.left reader.old) (R.left reader.new) buffer.new fault) }
    ensures cause { IfErr result (λ fault. HasCause (R.left reader.new) (R.failures reader.old) (R.failures reader.new) fault) }

    ensures later { R.failures reader.old ≤ R.failures reader.new }
    ensures beside { LeavesSide (R.write_side reader.old) (R.write_side reader.new) }
{
    let mut taken = 0;
    while taken < buffer.len() {
        match reader.read(&mut buffer[taken..]) {
            Ok(0) => return Err(ReadFault::Short { taken }),
            Ok(count) => taken += count,
            Err(_) => return Err(ReadFault::Failed { taken }),
        }
    }
    Ok(())
}

/// Writes the whole piece. [`WriteFault`] says how many bytes of the piece, less than all, were written before the
/// device failed.
pub fn write_all<W: Write>(writer: &mut W, piece: &[u8]) -> Result<(), WriteFault>
    ensures ok { OnOk result (Appends (W.written writer.old) (W.written writer.new) piece.now) }
    ensures part { IfErr result (λ fault. fault.written < length piece.now) }
    ensures err { IfErr result (λ fault. Appends (W.written writer.old) (W.written writer.new) (take fault.written piece.now)) }
    ensures failures { CountsFailure (W.failures writer.old) (W.failures writer.new) result }
    ensures beside { LeavesSide (W.read_side writer.old) (W.read_side writer.new) }
{
    let mut written = 0;
    while written < piece.len() {
        match writer.write(&piece[written..]) {
            Ok(count) => written += count,
            Err(_) => return Err(WriteFault { written }),
        }
    }
    Ok(())
}
