//! A second look at the first calls of a text: where few of them are wanted, the rest isn't read.

ghost use Rattle.std.specs.Prelude.{◌≡◌, ◌≤◌, Err, IfOk, OnOk};
ghost use Rattle.dumpi_text.specs.Failing.{Fails};
ghost use Rattle.text_notes.specs.FrontLooks.{IsFrontLookOf, no_front, with_front};

use crate::looking::{greater, push_site, site_where, size_of};
use crate::site::CallSite;
use crate::value::{LookFault, next_call};
use dumpi_calls::Memory;
use dumpi_text::{RawCall, Texts};
use mpi_model::Read;
use std::alloc::Global;
use std::collections::BTreeSet;
use std::marker::Model;

/// What a look at the first calls of a text finds.
#[derive(Drop)]
pub struct FrontLook {
    calls: u64,
    sites: Vec<CallSite>,
    size: Option<u64>,
}

impl Model for FrontLook {
    ghost use Rattle.text_notes.specs.FrontLooks.{FrontLookParts};

    ghost Value = { FrontLookParts };

    ghost view = { λ l. record { calls = l.calls; sites = l.sites.items; size = l.size } };
}

impl FrontLook {
    /// A look at no call.
    fn new(alloc: Global) -> FrontLook
        ensures { result ≡ no_front }
    {
        FrontLook {
            calls: 0,
            sites: Vec::new(alloc),
            size: None,
        }
    }

    /// How many calls were looked at.
    pub fn calls(&self) -> u64
        ensures { result ≡ self.now.calls }
    {
        self.calls
    }

    /// The greatest size of MPI_COMM_WORLD that one of them returned, as MPI_Comm_size; `None` if none did.
    pub fn size(&self) -> Option<u64>
        ensures { result ≡ self.now.size }
    {
        self.size
    }

    /// The calls that were asked for, in their order, moved out.
    pub fn into_sites(self) -> Vec<CallSite>
        ensures { result.items ≡ self.sites }
    {
        let FrontLook { sites, .. } = self;
        sites
    }
}

/// Looks at one call more.
fn add_call(
    look: &mut FrontLook,
    alloc: Global,
    wanted: &BTreeSet<u64>,
    raw: &RawCall,
) -> Result<(), Memory>
    ensures { OnOk result (look.new ≡ with_front wanted.now look.old raw.now) }
{
    let size = size_of(alloc, raw)?;
    let site = site_where(alloc, wanted, look.calls, raw)?;
    push_site(&mut look.sites, site)?;
    look.size = greater(look.size, size);
    look.calls = look.calls.saturating_add(1);
    Ok(())
}

/// Looks a second time at a text that was read: at its first calls, at most so many, for those of these numbers and for
/// the size of the world. Behind a line that is refused there is none. The text is read up to the last of these calls, and
/// memory grows with what is told.
pub fn look_at_front<R: Read>(
    alloc: Global,
    reader: R,
    most: u64,
    wanted: &BTreeSet<u64>,
) -> Result<FrontLook, LookFault>
    ensures ok { IfOk result (IsFrontLookOf wanted.now most (R.left reader)) }
    ensures failed { result ≡ Err LookFault.Read → Fails R.failures }
{
    let mut texts = Texts::new(alloc, reader)?;
    let mut raw = RawCall::new(alloc);
    let mut look = FrontLook::new(alloc);
    'each: while look.calls() < most {
        if !next_call(&mut texts, &mut raw)? {
            return Ok(look);
        }
        add_call(&mut look, alloc, wanted, &raw)?;
    }
    Ok(look)
}
