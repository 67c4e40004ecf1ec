//! A segment that schedules and inboxes share.

ghost use Rattle.std.specs.Prelude.{◌≡◌, IfOk, IfErr};

use std::alloc::{AllocError, AllocFailed, Global};
use std::marker::Model;
use std::sync::Arc;
use trace_know::Segment;

/// A segment, by one or more owners: the steps that post it, and the inboxes where it waits. In a
/// contract it is the segment.
#[derive(Drop)]
pub struct SharedSegment {
    segment: Arc<Segment>,
}

impl Model for SharedSegment {
    ghost use Rattle.trace_know.specs.Segment.{PlacedEvents};
    ghost use Rattle.trace_know.specs.contracts.segment.Segment as flat;

    ghost Value = { PlacedEvents };

    ghost coded = { flat.the_row.coded };

    ghost view = { λ s. s.segment.value };
}

impl SharedSegment {
    /// A segment with one owner. Without memory it comes back.
    pub fn new(alloc: Global, segment: Segment) -> Result<SharedSegment, AllocFailed<Segment>>
        ensures ok { IfOk result (λ s. s ≡ segment) }
        ensures back { IfErr result (λ refused. refused.value ≡ segment) }
    {
        let segment = Arc::new(alloc, segment)?;
        Ok(SharedSegment { segment })
    }

    /// The segment.
    pub fn get(&self) -> &Segment
        ensures { result.now ≡ self.now }
    {
        &self.segment
    }

    /// Another owner of the same value. Nothing is copied. Fails with `AllocError` when it already has as many owners
    /// as can be counted.
    pub fn try_clone(&self) -> Result<SharedSegment, AllocError>
        ensures { IfOk result (λ s. s ≡ self.now) }
    {
        Ok(SharedSegment {
            segment: Arc::try_clone(&self.segment)?,
        })
    }
}
