//! For what a text is looked at a second time, and all that is noted of its calls.

ghost use Rattle.std.specs.Prelude.{◌≡◌};
ghost use Rattle.text_notes.specs.Noted.{is_some_compared};

use crate::function::UnreadFunction;
use call_arguments::is_compared;
use mpi_model::Kind;
use std::marker::Model;

/// For what a text is looked at a second time.
#[derive(Drop)]
pub struct LookNeeds {
    pub(crate) local: Vec<UnreadFunction>,
    pub(crate) last_size: Option<u64>,
    pub(crate) compares: bool,
}

impl Model for LookNeeds {
    ghost use Rattle.text_notes.specs.Noted.{LookNeeds as NeedsParts};

    ghost Value = { NeedsParts };

    ghost view = { λ n. record { local = n.local.items; last_size = n.last_size; compares = n.compares } };
}

impl LookNeeds {
    /// The functions of its local calls, in the order of their first such calls.
    pub fn local(&self) -> &[UnreadFunction]
        ensures { result.now ≡ self.now.local }
    {
        self.local.as_slice()
    }

    /// The number, among the calls of the text, of the last call of MPI_Comm_size; `None` if there is none.
    pub fn last_size(&self) -> Option<u64>
        ensures { result ≡ self.now.last_size }
    {
        self.last_size
    }

    /// Whether it has collective calls of which something is compared with those of other ranks.
    pub fn compares(&self) -> bool
        ensures { result ≡ self.now.compares }
    {
        self.compares
    }
}

/// What is noted of the calls of a text.
#[derive(Drop)]
pub struct CallNotes {
    pub(crate) unread: Vec<UnreadFunction>,
    pub(crate) needs: LookNeeds,
}

impl Model for CallNotes {
    ghost use Rattle.text_notes.specs.Noted.{CallNotesParts};

    ghost Value = { CallNotesParts };

    ghost view = { λ n. record { unread = n.unread.items; needs = n.needs } };
}

/// Whether something of calls of this kind is compared; nothing is of calls that aren't collective.
pub(crate) fn is_some_compared(kind: Option<Kind>) -> bool
    ensures { result ≡ is_some_compared kind }
{
    match kind {
        Some(kind) => is_compared(kind),
        None => false,
    }
}
