//! The communicators that one making makes, as places in the parent.

ghost use Rattle.std.specs.Prelude.{◌≡◌, ◌≢◌, IfOk, length};
ghost use Rattle.std.specs.List.{range_with_len};
ghost use Rattle.comm_makings.specs.Each.{list_in};
ghost use Rattle.comm_makings.specs.Parts.{IsGridWithin, IsOfGroups, IsOne, IsUnsound, part_with};

use crate::part::Part;
use crate::state::dims_of;
use comm_groups::{ColorGroup, grid_parts, grid_size, kept_dims};
use std::alloc::{AllocError, Global};

/// What a making makes.
#[derive(Drop)]
pub(crate) enum Outcome {
    Parts(Vec<Part>),
    /// Nothing can be said of it, as the texts don't tell enough.
    Untold,
    Unsound,
    /// A group in it is not known yet.
    Waits,
}

/// The places from 0 on.
pub(crate) fn first_places(alloc: Global, count: u32) -> Result<Vec<u32>, AllocError>
    ensures { IfOk result (λ v. v.items ≡ range_with_len 0 count) }
{
    let mut places = Vec::new(alloc);
    for place in 0..count {
        places.push(place)?;
    }
    Ok(places)
}

/// One communicator with these places, where there are some.
pub(crate) fn one_part(
    alloc: Global,
    places: Vec<u32>,
    dims: Option<Vec<u32>>,
) -> Result<Outcome, AllocError>
    ensures { IfOk result (IsOne places.items (list_in dims)) }
{
    let mut parts = Vec::new(alloc);
    if !places.is_empty() {
        parts.push(Part::new(places, dims))?;
    }
    Ok(Outcome::Parts(parts))
}

/// The first members of the parent.
pub(crate) fn first_part(
    alloc: Global,
    count: u32,
    dims: Option<Vec<u32>>,
) -> Result<Outcome, AllocError>
    ensures { IfOk result (IsOne (range_with_len 0 count) (list_in dims)) }
{
    one_part(alloc, first_places(alloc, count)?, dims)
}

/// The communicator of a group, with these dimensions where it is a grid.
fn part_of(alloc: Global, group: ColorGroup, dims: &Option<Vec<u32>>) -> Result<Part, AllocError>
    ensures { IfOk result (λ p. p ≡ part_with (list_in dims.now) group) }
{
    let ColorGroup { ranks, .. } = group;
    Ok(Part::new(ranks, dims_of(alloc, dims)?))
}

/// The communicators with these places, all of these dimensions.
pub(crate) fn color_parts(
    alloc: Global,
    groups: Vec<ColorGroup>,
    dims: &Option<Vec<u32>>,
) -> Result<Outcome, AllocError>
    ensures { IfOk result (IsOfGroups groups.items (list_in dims.now)) }
{
    let mut parts = Vec::new(alloc);
    for group in groups {
        parts.push(part_of(alloc, group, dims)?)?;
    }
    Ok(Outcome::Parts(parts))
}

/// The parts of a grid that keep these dimensions (MPI 4.0, 8.5).
pub(crate) fn grid_outcome(
    alloc: Global,
    dims: &[u32],
    remain: &[bool],
    members: u32,
) -> Result<Outcome, AllocError>
    ensures length { length remain.now ≢ length dims.now → IfOk result IsUnsound }
    ensures parts { length remain.now ≡ length dims.now → IfOk result (IsGridWithin members dims.now remain.now) }
{
    if remain.len() != dims.len() {
        return Ok(Outcome::Unsound);
    }
    match grid_size(dims, members) {
        Some(size) => {
            let kept = kept_dims(alloc, dims, remain)?;
            color_parts(alloc, grid_parts(alloc, dims, remain, size)?, &Some(kept))
        },
        None => Ok(Outcome::Untold),
    }
}
