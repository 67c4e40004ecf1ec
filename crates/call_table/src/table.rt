//! All rows of a run, asked by their call.

ghost use Rattle.std.specs.Prelude.{◌≡◌, IfOk};
ghost use Rattle.trace_ops.specs.Ops.{AreOwn};
ghost use Rattle.trace_wait.specs.Collectives.{round_of_call};
ghost use Rattle.trace_wait.specs.Ranks.{ops_of};
ghost use Rattle.call_table.specs.Rows.{name_of, row_of};

use crate::partners::Partners;
use crate::row::{Row, row_of};
use crate::slot::Slot;
use mpi_model::OpName;
use std::alloc::{AllocError, Global};
use std::marker::Model;
use trace_ops::RankOps;
use trace_wait::{Entries, RoundName, entries_of};

/// What all ranks did, with the pairs and the rounds of it.
#[derive(Drop)]
pub struct CallTable<'a> {
    ops: &'a [RankOps],
    partners: Partners<'a>,
    entries: Entries<'a>,
}

impl<'a> Model for CallTable<'a> {
    ghost use Rattle.call_table.specs.Rows.{IsTable, Told};

    ghost Value = { Told };

    ghost view = { λ t. record { ops = t.ops.now; pairs = t.partners } };

    ghost invariant = { λ t. IsTable t.ops.now t.entries };
}

impl<'a> CallTable<'a> {
    /// The table of what the ranks did, rank r at place r, and of the pairs of it. Fails with `AllocError` when memory
    /// is refused.
    pub fn new(
        alloc: Global,
        ops: &'a [RankOps],
        partners: Partners<'a>,
    ) -> Result<CallTable<'a>, AllocError>
        requires { AreOwn 0 ops.now }
        ensures { IfOk result (λ t. t ≡ record { ops = ops.now; pairs = partners.entry }) }
    {
        let entries = entries_of(alloc, ops)?;
        Ok(CallTable {
            ops,
            partners,
            entries,
        })
    }

    /// What the ranks did, rank r at place r.
    pub fn ops(&self) -> &'a [RankOps]
        ensures { result.now ≡ self.now.ops }
    {
        self.ops
    }

    /// The pairs, by either end.
    pub fn partners(&self) -> &Partners<'a>
        ensures { result.now ≡ self.now.pairs }
    {
        &self.partners
    }

    /// The row of a call of a rank: its message or its receive, and the operation at the other end.
    pub fn row(&self, rank: u32, call: u64, slot: Slot) -> Row
        ensures { result ≡ row_of self.now (name_of rank call slot) slot.side }
    {
        let name = OpName {
            rank,
            part: slot.part,
            call,
        };
        row_of(self.ops, &self.partners, name, slot.side)
    }

    /// The round that a call of a rank entered, blocking or not; `None` if it isn't collective, or is foreign.
    pub fn round(&self, rank: u32, call: u64) -> Option<RoundName>
        ensures { result ≡ round_of_call (ops_of self.now.ops rank) call }
    {
        self.entries.round_of(rank, call)
    }
}
