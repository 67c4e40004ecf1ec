//! A second look at a text: from where in the program calls were made, and what makes a doubt.

ghost use Rattle.std.specs.Prelude.{◌≡◌, Err, IfOk};
ghost use Rattle.dumpi_text.specs.Failing.{Fails};
ghost use Rattle.dumpi_calls.specs.Walks.{IsReadStop};
ghost use Rattle.text_notes.specs.Looks.{IsLookOf};

use crate::arguments::CallTold;
use crate::function::UnreadFunction;
use crate::looking::Looking;
use crate::site::CallSite;
use crate::value::LookFault;
use dumpi_calls::{Memory, WalkCause, WalkFault, walk_raw};
use dumpi_text::{TextCause, TextFault};
use mpi_model::Read;
use std::alloc::Global;
use std::collections::BTreeSet;
use std::marker::Model;

/// What a second look at a text finds.
#[derive(Drop)]
pub struct Look {
    pub(crate) sites: Vec<CallSite>,
    pub(crate) local: Vec<UnreadFunction>,
    pub(crate) size: Option<u64>,
    pub(crate) arguments: Vec<CallTold>,
}

impl Model for Look {
    ghost use Rattle.text_notes.specs.Looks.{LookParts};

    ghost Value = { LookParts };

    ghost view = { λ l. record { sites = l.sites.items; local = l.local.items; size = l.size; arguments = l.arguments.items } };
}

impl Look {
    /// The calls that were asked for, in their order.
    pub fn sites(&self) -> &[CallSite]
        ensures { result.now ≡ self.now.sites }
    {
        self.sites.as_slice()
    }

    /// The calls that were asked for, moved out.
    pub fn into_sites(self) -> Vec<CallSite>
        ensures { result.items ≡ self.sites }
    {
        let Look { sites, .. } = self;
        sites
    }

    /// What collective calls tell of their arguments, in their order.
    pub fn arguments(&self) -> &[CallTold]
        ensures { result.now ≡ self.now.arguments }
    {
        self.arguments.as_slice()
    }

    /// The functions of local calls, in the order of their first such calls.
    pub fn local(&self) -> &[UnreadFunction]
        ensures { result.now ≡ self.now.local }
    {
        self.local.as_slice()
    }

    /// The greatest size of MPI_COMM_WORLD that a call of MPI_Comm_size returned; `None` if none did.
    pub fn size(&self) -> Option<u64>
        ensures { result ≡ self.now.size }
    {
        self.size
    }
}

/// Why a second look at a text failed.
fn fault_of(fault: WalkFault<Memory>) -> LookFault
    ensures { result ≡ LookFault.Read → IsReadStop fault.cause }
{
    match fault.cause {
        WalkCause::Memory | WalkCause::Sink(_) => LookFault::Memory,
        WalkCause::Text(
            TextFault::At {
                cause: TextCause::Read,
                ..
            },
        ) => LookFault::Read,
        _ => LookFault::Refused,
    }
}

/// Looks a second time at a text that was read: for the calls of these numbers, for the local calls whose numbers are below
/// the limit, for the size of the world, and for the arguments of collective calls. The text is read in one pass, and memory grows with what is told.
#[tactic(auto, using(crate::proofs::Looked::tells))]
pub fn look_at<R: Read>(
    alloc: Global,
    reader: R,
    wanted: &BTreeSet<u64>,
    limit: u64,
) -> Result<Look, LookFault>
    ensures ok { IfOk result (IsLookOf wanted.now limit (R.left reader)) }
    ensures failed { result ≡ Err LookFault.Read → Fails R.failures }
{
    let mut looking = Looking::new(alloc, wanted, limit);
    match walk_raw(alloc, reader, &mut looking) {
        Ok(_) => Ok(looking.into_look()),
        Err(fault) => Err(fault_of(fault)),
    }
}
