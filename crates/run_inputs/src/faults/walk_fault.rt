//! The fault of a walk over a text, as that of a run.

ghost use Rattle.std.specs.Prelude.{IfOk};
ghost use Rattle.dumpi_calls.specs.Walks.{IsReadStop};
ghost use Rattle.run_inputs.specs.Files.{NamesFailed};
ghost use Rattle.run_inputs.specs.WalkFaults.{IsWalkFault, IsWantOrTold};

use crate::faults::fault::RunFault;
use dumpi_calls::{Memory, WalkCause, WalkFault};
use dumpi_text::TextFault;
use std::alloc::{AllocError, Global};

/// The fault of a run over a text whose walk was stopped, which names the file.
pub fn fault_of_walk(
    alloc: Global,
    path: &str,
    fault: WalkFault<Memory>,
) -> Result<RunFault, AllocError>
    ensures fault { IfOk result (IsWalkFault path.now fault) }
    ensures memory { IfOk result (IsWantOrTold fault.cause) }
    ensures failed { IfOk result (NamesFailed (IsReadStop fault.cause)) }
{
    let line = fault.line;
    match fault.cause {
        WalkCause::Text(TextFault::At { line, cause }) => Ok(RunFault::Text {
            cause,
            path: path.to_string(alloc)?,
            line,
        }),
        WalkCause::Missing(parameter) => Ok(RunFault::Missing {
            parameter,
            path: path.to_string(alloc)?,
            line,
        }),
        WalkCause::Wrong(parameter) => Ok(RunFault::Wrong {
            parameter,
            path: path.to_string(alloc)?,
            line,
        }),
        _ => Ok(RunFault::Memory),
    }
}
