//! How many calls on each communicator each of its members has entered, counted once.

ghost use Rattle.std.specs.Prelude.{◌≡◌, ◌<◌, map, nat_lt, slice_index, IfOk};
ghost use Rattle.trace_wait.specs.Rounds.{group};
ghost use Rattle.trace_wait.specs.Calls.{calls_of, counts, table, row_of};

use crate::entries::Entries;
use crate::tally::members_of;
use mpi_model::Layout;
use std::alloc::{AllocError, Global};
use std::marker::Model;

/// The calls on a communicator, by member.
#[derive(Drop)]
pub(crate) struct CommCalls {
    comm: u32,
    calls: Vec<u64>,
}

impl Model for CommCalls {
    ghost use Rattle.trace_wait.specs.Calls.{CallsOn};

    ghost Value = { CallsOn };

    ghost view = { λ t. record { comm = t.comm; calls = t.calls.items } };
}

impl CommCalls {
    fn comm(&self) -> u32
        ensures { result ≡ self.now.comm }
    {
        self.comm
    }

    fn calls(&self) -> &[u64]
        ensures { result.now ≡ self.now.calls }
    {
        &self.calls
    }
}

/// How many calls of the rank are on the communicator.
pub(crate) fn calls_on(entries: &Entries, r: u32, comm: u32) -> usize
    ensures { result ≡ calls_of entries.now comm r }
{
    entries.on(r, comm).len()
}

/// How many collective calls each of these members has entered on the communicator.
fn counts(
    alloc: Global,
    entries: &Entries,
    comm: u32,
    members: &[u32],
) -> Result<Vec<u64>, AllocError>
    ensures { IfOk result (λ v. v.items ≡ map (calls_of entries.now comm) members.now) }
{
    let mut calls = Vec::new(alloc);
    for r in members {
        calls.push(calls_on(entries, *r, comm) as u64)?;
    }
    Ok(calls)
}

/// A communicator, with how many collective calls each of its members has entered.
fn row(
    alloc: Global,
    layout: &Layout,
    entries: &Entries,
    comm: u32,
) -> Result<CommCalls, AllocError>
    ensures { IfOk result (λ t. t ≡ record { comm = comm; calls = counts layout.now.comms entries.now comm }) }
{
    let calls = counts(alloc, entries, comm, members_of(layout, comm))?;
    Ok(CommCalls { comm, calls })
}

/// How many collective calls each member of each communicator has entered.
pub(crate) fn all_calls(
    alloc: Global,
    layout: &Layout,
    entries: &Entries,
) -> Result<Vec<CommCalls>, AllocError>
    ensures { IfOk result (λ v. v.items ≡ table layout.now.comms entries.now layout.now.comms) }
{
    layout.known();
    let mut rows = Vec::new(alloc);
    let mut i = 0usize;
    while let Some(comm) = layout.comm_at(i) {
        rows.push(row(alloc, layout, entries, comm)?)?;
        i += 1;
    }
    Ok(rows)
}

/// The calls on a communicator, by member.
pub(crate) fn row_of(rows: &[CommCalls], comm: u32) -> &[u64]
    ensures { result.now ≡ row_of rows.now comm }
{
    for t in rows {
        if t.comm() == comm {
            return t.calls();
        }
    }
    &[]
}

/// Whether the member at this place has entered more than k.
pub(crate) fn has_more(calls: &[u64], place: usize, k: u64) -> bool
    ensures { result ≡ nat_lt k (slice_index calls.now place) }
{
    k < calls.get(place).copied().unwrap_or(0)
}
