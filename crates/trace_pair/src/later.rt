//! Which of two receives ends later, where `None` is an end that never comes.

ghost use Rattle.std.specs.Prelude.{◌≡◌};
ghost use Rattle.trace_pair.specs.Ends.{later_end, with_end, IsLaterOf};

/// The later of two ends.
fn later_end(a: Option<u64>, b: Option<u64>) -> Option<u64>
    ensures { result ≡ later_end a b }
{
    match a {
        None => None,
        Some(x) => match b {
            None => None,
            Some(y) => if x < y { Some(y) } else { Some(x) },
        },
    }
}

/// The later of two ends, when there may be only one.
pub(crate) fn with_end(had: Option<Option<u64>>, end: Option<u64>) -> Option<u64>
    ensures { result ≡ with_end had end }
{
    match had {
        None => end,
        Some(had) => later_end(had, end),
    }
}

/// The later of two ends, where there are any.
pub(crate) fn later_of(a: Option<Option<u64>>, b: Option<Option<u64>>) -> Option<Option<u64>>
    ensures { IsLaterOf a b result }
{
    match a {
        None => b,
        Some(x) => match b {
            None => Some(x),
            Some(y) => Some(later_end(x, y)),
        },
    }
}
