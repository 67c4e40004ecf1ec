//! A report in memory.

ghost use Rattle.std.specs.Prelude.{◌≡◌, IfOk, Some};
ghost use Rattle.trace_report.specs.Report.{report_text};

use crate::report::write_report;
use mpi_model::{Failed, Write};
use std::alloc::{AllocError, Global};
use trace_node::Answer;

/// A writer that takes whole pieces, and fails only where no memory is left.
#[derive(Drop)]
struct Text {
    bytes: Vec<u8>,
    failures: u64,
}

impl Write for Text {
    ghost use Rattle.std.specs.Prelude.{Some};

    ghost written = { λ t. Some t.bytes.items };

    ghost failures = { λ t. t.failures };

    fn write(&mut self, piece: &[u8]) -> Result<usize, Failed> {
        match self.bytes.extend_from_slice(piece) {
            Ok(()) => Ok(piece.len()),
            Err(_) => {
                self.failures = self.failures.saturating_add(1);
                Err(Failed)
            }
        }
    }
}

/// The report of an answer. Fails with `AllocError` when memory is refused.
pub fn report_text(alloc: Global, answer: &Answer) -> Result<Vec<u8>, AllocError>
    ensures { IfOk result (λ text. text.items ≡ report_text answer.now) }
{
    let mut text = Text {
        bytes: Vec::new(alloc),
        failures: 0,
    };
    match write_report(answer, &mut text) {
        Ok(_) => Ok(text.bytes),
        Err(_) => Err(AllocError),
    }
}
