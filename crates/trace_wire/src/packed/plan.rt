//! How cells are cut into parts, each of which goes into a frame.

ghost use Rattle.std.specs.Prelude.{◌≡◌, ◌+◌, ◌<◌, ◌≤◌, [], None, IfErr, IfOk, IfSome, OnOk, if◌then◌else◌};
ghost use Rattle.std.specs.FinMap.{entries};
ghost use Rattle.trace_wire.specs.Cells.{AreCells};
ghost use Rattle.trace_wire.specs.Planning.{AddsCell, AreSizes, IsUnplanned, NeedsMore, size_of};

use crate::fault::WireFault;
use crate::size::known_len;
use crate::version::Version;
use std::alloc::Global;
use trace_know::{Knowledge, listing_laws};

/// The bytes of a rank, a place and a count, before what is known of a run's places.
const RUN_HEAD: u64 = 16;

/// The size of a part and of its frame.
#[derive(Clone, Copy)]
pub(crate) struct PartSize {
    pub cells: usize,
    pub runs: u32,
    /// How many bytes the payload has.
    pub len: u32,
}

impl PartSize {
    /// That of no cell.
    fn empty() -> PartSize
        ensures { result ≡ size_of [] }
    {
        PartSize {
            cells: 0,
            runs: 0,
            len: 4,
        }
    }

    /// That of one cell more, of so many bytes, which goes on with the run before or begins one; none where that
    /// doesn't go into a frame.
    fn with(self, goes_on: bool, known: u64) -> Option<PartSize>
        requires cells { self.cells ≤ self.len }
        requires runs { self.runs ≤ self.len }
        requires len { self.len ≤ 67108864 }
        ensures cells { IfSome result (λ p. p.cells ≡ self.cells + 1) }
        ensures runs { IfSome result (λ p. p.runs ≡ self.runs + (if goes_on then 0 else 1)) }
        ensures len { IfSome result (λ p. p.len ≡ self.len + (if goes_on then 0 else 16) + known) }
        ensures fits { IfSome result (λ p. p.len ≤ 67108864) }
        ensures none { result ≡ None → 67108864 < self.len + (if goes_on then 0 else 16) + known }
    {
        let head = if goes_on { 0 } else { RUN_HEAD };
        let len = (self.len as u64 + head).saturating_add(known);
        if len > Version::Two.longest() {
            return None;
        }
        Some(PartSize {
            cells: self.cells + 1,
            runs: self.runs + !goes_on as u32,
            len: len as u32,
        })
    }
}

/// Adds a cell to the last part, or puts that part behind the others and begins one with the cell.
fn add_cell(
    plan: &mut Vec<PartSize>,
    part: PartSize,
    goes_on: bool,
    known: u64,
) -> Result<PartSize, WireFault>
    requires cells { part.cells ≤ part.len }
    requires runs { part.runs ≤ part.len }
    requires len { part.len ≤ 67108864 }
    ensures ok { IfOk result (AddsCell plan.old.items plan.new.items part goes_on known) }
    ensures err { IfErr result (NeedsMore known) }
{
    if let Some(longer) = part.with(goes_on, known) {
        return Ok(longer);
    }
    let Some(alone) = PartSize::empty().with(false, known) else {
        return Err(WireFault::Length);
    };
    plan.push(part)?;
    Ok(alone)
}

/// The sizes of the parts of all that is known. It also tells that the cells are those of frames.
pub(crate) fn plan_of(alloc: Global, knowledge: &Knowledge) -> Result<Vec<PartSize>, WireFault>
    ensures ok { IfOk result (λ plan. AreSizes (entries knowledge.now) plan.items) }
    ensures cells { OnOk result (AreCells None (entries knowledge.now)) }
    ensures err { IfErr result (IsUnplanned (entries knowledge.now)) }
{
    knowledge.known();
    listing_laws();
    let mut plan = Vec::new(alloc);
    let mut part = PartSize::empty();
    let mut goes_on = false;
    let mut cells = knowledge.cells();
    let mut run_len = cells.run_len();
    while let Some((_, _, known)) = cells.next() {
        part = match add_cell(&mut plan, part, goes_on, known_len(known)) {
            Ok(part) => part,
            Err(fault) => return Err(fault),
        };
        goes_on = run_len > 1;
        run_len = cells.run_len();
    }
    plan.push(part)?;
    Ok(plan)
}
