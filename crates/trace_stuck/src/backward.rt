//! The edges of a graph, the other way round.

ghost use Rattle.std.specs.Prelude.{◌≡◌, ◌≤◌, ◌^◌, ℕ, IfOk, length, vec_len};
ghost use Rattle.trace_stuck.specs.Graph.{edge};

use crate::askers::{no_askers, note_all};
use crate::search::edges_at;
use std::alloc::{AllocError, Global};

/// The same edges, each turned round. Where a node lists another twice in a row, one edge is kept. Fails with
/// `AllocError` when memory is refused.
pub fn turned(alloc: Global, edges: &[Vec<u32>]) -> Result<Vec<Vec<u32>>, AllocError>
    requires { length edges.now ≤ 2 ^ 32 }
    ensures len { IfOk result (λ v. vec_len v ≡ length edges.now) }
    ensures turned { IfOk result (λ v. (r s : ℕ) → edge v.items s r ≡ edge edges.now r s) }
{
    let mut turned = no_askers(alloc, edges.len())?;
    for r in 0..edges.len() {
        note_all(&mut turned, edges_at(edges, r as u32), r as u32)?;
    }
    Ok(turned)
}
