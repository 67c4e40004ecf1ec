//! Why a report is not whole.

use thiserror::Error;

/// Why a report is not whole.
#[derive(Clone, Copy, Debug, PartialEq, Eq, Error)]
pub enum ReportFault {
    /// The device failed after it took the first `written` bytes of the report.
    #[error("writing failed after {written} bytes")]
    Write { written: u64 },
}
