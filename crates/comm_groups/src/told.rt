//! The order of ranks that were told which rank they have.

ghost use Rattle.std.specs.Prelude.{◌≡◌, IfOk, IfSome, MatchOption, false, true};
ghost use Rattle.comm_groups.specs.Orders.{IsOrderOf, are_each_once};

use crate::group::are_ranks;
use std::alloc::{AllocError, Global};

/// At each rank who was told it.
fn places_of(alloc: Global, told: &[u32]) -> Result<Vec<usize>, AllocError>
    requires { are_each_once told.now ≡ true }
    ensures { IfOk result (λ v. IsOrderOf told.now v.items) }
{
    let mut order = vec![in alloc; 0; told.len()]?;
    for (i, rank) in told.iter().enumerate() {
        order[*rank as usize] = i;
    }
    Ok(order)
}

/// The members by the ranks that they were told: who was told rank 0, who rank 1, and so on. `None` if these are not
/// the ranks from 0 on, each once. Fails with `AllocError` when memory is refused.
pub fn order_of(alloc: Global, told: &[u32]) -> Result<Option<Vec<usize>>, AllocError>
    ensures none { IfOk result (λ o. MatchOption o (are_each_once told.now ≡ false) (λ _. are_each_once told.now ≡ true)) }
    ensures order { IfOk result (λ found. IfSome found (λ v. IsOrderOf told.now v.items)) }
{
    if !are_ranks(alloc, told.len(), told)? {
        return Ok(None);
    }
    Ok(Some(places_of(alloc, told)?))
}
