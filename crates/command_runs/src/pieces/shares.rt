//! What the packed files of each of two nodes tell.

ghost use Rattle.std.specs.Prelude.{◌≡◌, IfErr, IfOk, OnOk};
ghost use Rattle.std.specs.FinMap.{empty};
ghost use Rattle.dumpi_text.specs.Failing.{Fails};
ghost use Rattle.trace_cluster.specs.declared.side.Side.{Side as SideValue};
ghost use Rattle.trace_know.specs.View.{View};
ghost use Rattle.trace_node.specs.Node.{IsWithin};
ghost use Rattle.run_inputs.specs.Files.{NamesFailed};
ghost use Rattle.command_runs.specs.Packed.{RefusesPacked, TellPacked};
ghost use Rattle.command_runs.specs.Shares.{IsToldMore, TellShares, so_far, told_to};

use crate::pieces::node_texts::side_of;
use crate::pieces::packed::packed_at;
use crate::run::Run;
use run_files::PackedPiece;
use run_inputs::{Opener, RunFault};
use std::alloc::{AllocError, Global};
use trace_cluster::Side;
use trace_know::{Knowledge, join_laws};
use trace_wire::Joining;

/// What the packed files of two nodes tell, of each by itself.
#[derive(Drop)]
pub struct PackedShares {
    pub first: Knowledge,
    pub second: Knowledge,
}

/// What they told so far.
#[derive(Drop)]
struct SoFar {
    first: Joining,
    second: Joining,
}

impl SoFar {
    /// Nothing is told yet.
    fn new(alloc: Global) -> SoFar
        ensures { (node : SideValue) → so_far result node ≡ empty }
    {
        SoFar {
            first: Joining::new(alloc),
            second: Joining::new(alloc),
        }
    }

    /// The same once a file of a node has told this.
    fn taking(self, node: Side, know: Knowledge) -> Result<SoFar, AllocError>
        ensures { IfOk result (IsToldMore node know self) }
    {
        let SoFar { first, second } = self;
        match node {
            Side::First => {
                let first = first.taking(know)?;
                Ok(SoFar { first, second })
            }
            Side::Second => {
                let second = second.taking(know)?;
                Ok(SoFar { first, second })
            }
        }
    }

    /// What they told, now that all are read.
    fn into_shares(self) -> Result<PackedShares, AllocError>
        ensures first { IfOk result (λ shares. shares.first ≡ self.first) }
        ensures second { IfOk result (λ shares. shares.second ≡ self.second) }
    {
        let first = self.first.into_knowledge()?;
        let second = self.second.into_knowledge()?;
        Ok(PackedShares { first, second })
    }
}

/// What the packed files of each node tell together, of ranks of the layout. They are read in the order of the list,
/// each frame by frame.
pub(crate) fn shares_of<O: Opener>(
    run: &Run<'_, O>,
    packed: &[PackedPiece],
) -> Result<PackedShares, RunFault>
    ensures ok { IfOk result (λ shares. TellShares (O.file run.now.files.now) run.now.layout.now.ranks packed.now (told_to shares)) }
    ensures within { IfOk result (λ shares. (node : SideValue) → IsWithin run.now.layout.now (told_to shares node)) }
    ensures together { OnOk result ((view : View) × TellPacked (O.file run.now.files.now) run.now.layout.now.ranks packed.now view) }
    ensures err { IfErr result (RefusesPacked (O.file run.now.files.now) run.now.layout.now.ranks packed.now) }
    ensures failed { IfErr result (NamesFailed ⊥) }
{
    join_laws();
    let mut told = SoFar::new(run.alloc);
    for piece in packed {
        let know = packed_at(run, piece.file())?;
        told = told.taking(side_of(piece.node()), know)?;
    }
    let shares = told.into_shares()?;
    Ok(shares)
}
