//! The line of a fault, and of a refused write what the system says of it.

ghost use Rattle.std.specs.Prelude.{◌≡◌, IfOk, string_bytes};
ghost use Rattle.run_inputs.specs.SaidLines.{init_line_with, line_with, write_reason_text};

use crate::faults::fault::{RunFault, fault_line};
use crate::faults::init_fault::{InitFault, init_fault_line};
use mpi_model::WriteReason;
use std::alloc::{AllocError, Global};

/// What the system says of a write that it refused, as it stands behind the name of the fault.
fn write_reason_text(reason: Option<WriteReason>) -> &'static str
    ensures { result.now ≡ write_reason_text reason }
{
    match reason {
        None => "",
        Some(WriteReason::NoSpace) => ": no space left on device",
        Some(WriteReason::Quota) => ": disk quota exceeded",
        Some(WriteReason::FileTooLarge) => ": file too large",
        Some(WriteReason::Closed) => ": nobody reads it",
    }
}

/// The line of a run's fault for standard error, with its line feed, and of a refused write with its reason. Fails with
/// `AllocError` when memory is refused.
pub fn line_with(
    alloc: Global,
    fault: &RunFault,
    reason: Option<WriteReason>,
) -> Result<String, AllocError>
    ensures { IfOk result (λ line. string_bytes line ≡ line_with fault.now reason) }
{
    let said = write_reason_text(reason);
    match fault {
        RunFault::Write => format!(in alloc; "mpimatch: R1 Write{said}\n"),
        _ => fault_line(alloc, fault),
    }
}

/// The line of a fault of `init` for standard error, with its line feed, and of a refused write with its reason. Fails
/// with `AllocError` when memory is refused.
pub fn init_line_with(
    alloc: Global,
    fault: &InitFault,
    reason: Option<WriteReason>,
) -> Result<String, AllocError>
    ensures { IfOk result (λ line. string_bytes line ≡ init_line_with fault.now reason) }
{
    let said = write_reason_text(reason);
    match fault {
        InitFault::Write => format!(in alloc; "mpimatch: R1 Write{said}\n"),
        _ => init_fault_line(alloc, fault),
    }
}
