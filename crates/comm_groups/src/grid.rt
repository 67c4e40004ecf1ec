//! Grids of ranks and their parts (MPI 4.0, 8.5).

ghost use Rattle.std.specs.Prelude.{◌≡◌, IfOk, length, map, true};
ghost use Rattle.std.specs.List.{range_with_len};
ghost use Rattle.comm_groups.specs.Grids.{AreParts, are_sizes, first_alike, grid_size, kept, placed, size_within};

use crate::color::{ColorGroup, Colored, split};
use std::alloc::{AllocError, Global};

/// How many ranks a grid of these dimensions has; `None` if a dimension has size 0 or the grid has more ranks than the
/// limit.
pub fn grid_size(dims: &[u32], limit: u32) -> Option<u32>
    ensures { result ≡ size_within limit dims.now }
{
    let mut size = 1u32;
    for d in dims {
        if *d == 0 {
            return None;
        }
        match size.checked_mul(*d) {
            Some(more) => size = more,
            None => return None,
        }
    }
    if size <= limit { Some(size) } else { None }
}

/// The first rank of the grid that agrees with the rank in the coordinates of the dimensions that do not remain.
fn first_alike(dims: &[u32], remain: &[bool], size: u32, rank: u32) -> u32
    requires same { length remain.now ≡ length dims.now }
    requires sizes { are_sizes dims.now ≡ true }
    requires size { size ≡ grid_size dims.now }
    ensures { result ≡ first_alike dims.now remain.now rank }
{
    let mut below = size;
    let mut left = rank;
    let mut first = 0;
    for (i, d) in dims.iter().enumerate() {
        below /= *d;
        let inside = left % below;
        if !remain[i] {
            first += left - inside;
        }
        left = inside;
    }
    first
}

/// All ranks of the grid, each by the first that agrees with it.
fn placed(
    alloc: Global,
    dims: &[u32],
    remain: &[bool],
    size: u32,
) -> Result<Vec<Colored>, AllocError>
    requires same { length remain.now ≡ length dims.now }
    requires sizes { are_sizes dims.now ≡ true }
    requires size { size ≡ grid_size dims.now }
    ensures { IfOk result (λ v. v.items ≡ map (placed dims.now remain.now) (range_with_len 0 size)) }
{
    let mut ranks = Vec::new(alloc);
    for rank in 0..size {
        let color = first_alike(dims, remain, size, rank);
        ranks.push(Colored {
            color,
            key: 0,
            rank,
        })?;
    }
    Ok(ranks)
}

/// The parts of a grid (MPI_Cart_sub, MPI 4.0, 8.5): of the ranks below its size those that agree in the coordinates of
/// the dimensions that do not remain, in row-major order. Fails with `AllocError` when memory is refused.
pub fn grid_parts(
    alloc: Global,
    dims: &[u32],
    remain: &[bool],
    size: u32,
) -> Result<Vec<ColorGroup>, AllocError>
    requires same { length remain.now ≡ length dims.now }
    requires sizes { are_sizes dims.now ≡ true }
    requires size { size ≡ grid_size dims.now }
    ensures { IfOk result (λ v. AreParts dims.now remain.now v.items) }
{
    split(alloc, placed(alloc, dims, remain, size)?)
}

/// The sizes of the dimensions that remain. Fails with `AllocError` when memory is refused.
pub fn kept_dims(alloc: Global, dims: &[u32], remain: &[bool]) -> Result<Vec<u32>, AllocError>
    requires { length remain.now ≡ length dims.now }
    ensures { IfOk result (λ v. v.items ≡ kept remain.now dims.now) }
{
    let mut kept = Vec::new(alloc);
    for (i, d) in dims.iter().enumerate() {
        if remain[i] {
            kept.push(*d)?;
        }
    }
    Ok(kept)
}
