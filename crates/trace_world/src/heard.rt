//! Which mails a node has joined.

ghost use Rattle.std.specs.Prelude.{◌≡◌, ◌⊎◌, ◌||◌, ℕ, OnErr, OnOk, false, true};
ghost use Rattle.std.specs.BTreeSet.{contains};
ghost use Rattle.std.specs.Ordering.{is_eq};
ghost use Rattle.trace_world.specs.Heard.{has};

use std::alloc::{AllocError, Global};
use std::collections::BTreeSet;

/// Mails that a node has joined since it began with nothing, by their numbers: what they tell is known to it. One for
/// which there was no memory is left out.
#[derive(Drop)]
pub(crate) struct Heard {
    mails: BTreeSet<usize>,
}

impl Heard {
    /// An empty set of mails. Takes no memory.
    pub(crate) fn new(alloc: Global) -> Heard
        ensures { (mail : ℕ) → has result mail ≡ false }
    {
        Heard {
            mails: BTreeSet::new(alloc),
        }
    }

    /// Adds a mail, where there is memory for it.
    pub(crate) fn add(&mut self, mail: usize)
        ensures { (other : ℕ) → has self.new other ≡ true → (other ≡ mail) ⊎ (has self.old other ≡ true) }
    {
        let _ = note(&mut self.mails, mail);
    }

    /// Whether the mail is one of them.
    pub(crate) fn has(&self, mail: usize) -> bool
        ensures { result ≡ has self.now mail }
    {
        self.mails.contains(&mail)
    }
}

/// Puts a key into a set.
fn note<T: Ord + Drop>(set: &mut BTreeSet<T>, x: T) -> Result<(), AllocError>
    ensures ok { OnOk result ((d : T) → contains T.cmp set.new d ≡ (is_eq (T.cmp x d) || contains T.cmp set.old d)) }
    ensures err { OnErr result ((d : T) → contains T.cmp set.new d ≡ contains T.cmp set.old d) }
{
    set.insert(x)?;
    Ok(())
}
