//! From when to when a call is shown.

ghost use Rattle.std.specs.Prelude.{◌≡◌, ◌≤◌};
ghost use Rattle.call_table.specs.Spans.{end_of};

/// From when to when a call is shown, in nanoseconds of wall time.
#[derive(Clone, Copy)]
pub struct Span {
    pub begin: u64,
    pub end: u64,
}

/// Where a call ends that was entered at a time. Clocks may be set back while a call lasts: then it ends where it
/// begins.
fn end_of(enter: u64, exit: Option<u64>, last: u64) -> u64
    ensures { result ≡ end_of enter exit last }
{
    match exit {
        Some(exit) => enter.max(exit),
        None => enter.max(last),
    }
}

/// From when to when a call is shown: from its entry to its return, or to the end of the trace.
pub fn span_of(enter: u64, exit: Option<u64>, last: u64) -> Span
    ensures begin { result.begin ≡ enter }
    ensures end { result.end ≡ end_of enter exit last }
    ensures order { result.begin ≤ result.end }
{
    Span {
        begin: enter,
        end: end_of(enter, exit, last),
    }
}

/// A cut by time: what is shown ends at its begin or behind it, and begins at its end or before it.
#[derive(Clone, Copy)]
pub struct Window {
    pub from: u64,
    pub to: u64,
}

impl Window {
    /// Whether something of the span lies in the window.
    pub fn shows(self, span: Span) -> bool {
        span.begin <= self.to && self.from <= span.end
    }

    /// Whether a moment lies in the window.
    pub fn has(self, moment: u64) -> bool {
        self.from <= moment && moment <= self.to
    }
}
