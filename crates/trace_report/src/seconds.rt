//! Nanoseconds as seconds.

ghost use Rattle.call_words.specs.Seconds.{seconds_text};
ghost use Rattle.trace_report.specs.Page.{Prints};

use crate::sink::Sink;
use crate::words::put_number;
use call_words::nine_digits;

/// Whole seconds without padding, a point, nine decimals.
pub(crate) fn put_seconds<S: Sink>(out: &mut S, nanoseconds: u64)
    ensures { Prints (S.page out.old) (S.page out.new) (seconds_text nanoseconds) }
{
    put_number(out, nanoseconds / 1_000_000_000);
    out.put(b".");
    out.put(&nine_digits(nanoseconds));
}
