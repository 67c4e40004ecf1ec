//! What calls tell, by rank and number.

ghost use Rattle.std.specs.Prelude.{◌≡◌, OnOk, is_some};
ghost use Rattle.std.specs.Option.{option_copied};
ghost use Rattle.trace_arguments.specs.Calls.{AddsCall, TellNothing, told_at};

use call_arguments::{SharedTold, Told};
use std::alloc::{AllocError, Global};
use std::collections::BTreeMap;
use std::marker::Model;

/// What collective calls tell of their arguments, by rank and number. Of a call that is told twice the first counts.
#[derive(Drop)]
pub struct CallsTold {
    calls: BTreeMap<(u32, u64), SharedTold>,
}

impl CallsTold {
    /// Nothing is told of any call.
    pub fn new(alloc: Global) -> CallsTold
        ensures { TellNothing result }
    {
        CallsTold {
            calls: BTreeMap::new(alloc),
        }
    }

    /// Whether something is told of a call.
    fn has(&self, rank: u32, number: u64) -> bool
        ensures { result ≡ is_some (told_at self.now rank number) }
    {
        match self.get(rank, number) {
            Some(_) => true,
            None => false,
        }
    }

    /// What a call tells, unless something was told of it before.
    pub fn add(&mut self, rank: u32, number: u64, told: SharedTold) -> Result<(), AllocError>
        ensures { OnOk result (AddsCall rank number told self.old self.new) }
    {
        if self.has(rank, number) {
            return Ok(());
        }
        self.calls.insert((rank, number), told)?;
        Ok(())
    }

    /// What a call tells.
    pub fn get(&self, rank: u32, number: u64) -> Option<&Told>
        ensures { option_copied result ≡ told_at self.now rank number }
    {
        match self.calls.get(&(rank, number)) {
            Some(told) => Some(told.get()),
            None => None,
        }
    }
}
