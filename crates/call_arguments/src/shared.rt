//! What calls tell, shared by calls that tell the same.

ghost use Rattle.std.specs.Prelude.{◌≡◌, IfOk, IfSome};

use crate::known::Told;
use std::alloc::{AllocError, Global};
use std::marker::Model;
use std::sync::Arc;

/// How many different ones are looked through.
const MOST_KEPT: usize = 32;

/// What a call tells, by one owner or more. In a contract it is what is told.
#[derive(Drop)]
pub struct SharedTold {
    told: Arc<Told>,
}

impl Model for SharedTold {
    ghost use Rattle.call_arguments.specs.Known.{ToldParts};

    ghost Value = { ToldParts };

    ghost view = { λ s. s.told.value };
}

impl SharedTold {
    fn new(alloc: Global, told: Told) -> Result<SharedTold, AllocError>
        ensures { IfOk result (λ s. s ≡ told) }
    {
        let told = Arc::new(alloc, told)?;
        Ok(SharedTold { told })
    }

    /// What is told.
    pub fn get(&self) -> &Told
        ensures { result.now ≡ self.now }
    {
        &self.told
    }

    /// One owner more of the same. No copy is made.
    pub fn try_clone(&self) -> Result<SharedTold, AllocError>
        ensures { IfOk result (λ s. s ≡ self.now) }
    {
        Ok(SharedTold {
            told: Arc::try_clone(&self.told)?,
        })
    }
}

/// The last different ones, so that calls that tell the same share it. Nothing is claimed of them.
#[derive(Drop)]
pub struct LastTold {
    kept: Vec<SharedTold>,
    /// The place of the one that is given up next.
    next: usize,
}

/// The one that tells the same, where there is one.
fn same_among(kept: &[SharedTold], told: &Told) -> Result<Option<SharedTold>, AllocError>
    ensures { IfOk result (λ found. IfSome found (λ s. s ≡ told.now)) }
{
    for shared in kept {
        if told.is_same(shared.get()) {
            return Ok(Some(shared.try_clone()?));
        }
    }
    Ok(None)
}

impl LastTold {
    pub fn new(alloc: Global) -> LastTold {
        LastTold {
            kept: Vec::new(alloc),
            next: 0,
        }
    }

    /// Keeps one more, in place of the oldest where there are many.
    fn keep(&mut self, shared: SharedTold) -> Result<(), AllocError> {
        if self.kept.len() < MOST_KEPT {
            self.kept.push(shared)?;
        } else if self.next < self.kept.len() {
            self.kept[self.next] = shared;
            self.next += 1;
        } else {
            self.next = 0;
        }
        Ok(())
    }

    /// The same with one owner more, where one of the last tells the same.
    pub fn share(&mut self, alloc: Global, told: Told) -> Result<SharedTold, AllocError>
        ensures { IfOk result (λ s. s ≡ told) }
    {
        match same_among(&self.kept, &told)? {
            Some(shared) => Ok(shared),
            None => {
                let shared = SharedTold::new(alloc, told)?;
                self.keep(shared.try_clone()?)?;
                Ok(shared)
            }
        }
    }
}
