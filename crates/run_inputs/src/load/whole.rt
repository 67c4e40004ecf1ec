//! A whole file at once: a layout, a manifest, or the text of a piece that is read before it is walked.

ghost use Rattle.std.specs.Prelude.{◌≡◌, ◌≤◌, IfErr, IfOk, length};
ghost use Rattle.std.specs.Io.KnownBytes.{Consumes, IsAtEnd};
ghost use Rattle.run_inputs.specs.Whole.{IsRefusedFor};

use mpi_model::{Read, ReadFault, read_exactly};
use std::alloc::{AllocError, AllocFailed, Global};

/// The largest size of a piece that is read whole, in bytes.
pub const LONGEST_PIECE: usize = 1_073_741_824;

/// Why a file is not read whole.
#[derive(Clone, Copy)]
pub enum WholeFault {
    /// Memory was refused.
    Memory,
    /// The reader failed.
    Failed,
    /// The file has more bytes than it may have.
    TooLong,
}

impl<T: Drop> From<AllocFailed<T>> for WholeFault {
    ghost use Rattle.std.specs.Prelude.{◌≡◌};
    ghost use Rattle.run_inputs.specs.declared.load.whole.WholeFault.TheVariants.{Memory};

    ghost from_gives = { λ _ e. e ≡ Memory };

    fn from(_failed: AllocFailed<T>) -> WholeFault {
        WholeFault::Memory
    }
}

impl From<AllocError> for WholeFault {
    ghost use Rattle.std.specs.Prelude.{◌≡◌};
    ghost use Rattle.run_inputs.specs.declared.load.whole.WholeFault.TheVariants.{Memory};

    ghost from_gives = { λ _ e. e ≡ Memory };

    fn from(_failed: AllocError) -> WholeFault {
        WholeFault::Memory
    }
}

/// All bytes that the reader has, up to its end. Fails with [`WholeFault`] if the reader fails or has more than `most`
/// bytes, or when memory is refused.
pub fn read_whole<R: Read>(
    alloc: Global,
    reader: &mut R,
    most: usize,
) -> Result<Vec<u8>, WholeFault>
    ensures bytes { IfOk result (λ bytes. Consumes (R.left reader.old) (R.left reader.new) bytes.items) }
    ensures end { IfOk result (λ bytes. IsAtEnd (R.left reader.new)) }
    ensures limit { IfOk result (λ bytes. length bytes.items ≤ most) }
    ensures err { IfErr result (IsRefusedFor most R.left R.failures reader.old reader.new) }
{
    let mut bytes = Vec::new(alloc);
    let mut chunk = [0; 4096];
    while bytes.len() <= most {
        match read_exactly(reader, &mut chunk) {
            Ok(()) => bytes.extend_from_slice(&chunk)?,
            Err(ReadFault::Failed { .. }) => return Err(WholeFault::Failed),
            Err(ReadFault::Short { taken }) => {
                bytes.extend_from_slice(&chunk[..taken])?;
                return if bytes.len() <= most {
                    Ok(bytes)
                } else {
                    Err(WholeFault::TooLong)
                };
            }
        }
    }
    Err(WholeFault::TooLong)
}
