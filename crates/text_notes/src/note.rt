//! What was noted of one text.

ghost use Rattle.std.specs.Prelude.{◌≡◌, ◌<◌, IfSome, length, string_bytes};
ghost use Rattle.text_notes.specs.Words.{has_call, line_in_note, note_of, noted_of};

use crate::function::UnreadFunction;
use crate::needs::{CallNotes, LookNeeds};
use crate::start::Start;
use dumpi_calls::Walked;
use std::marker::Model;

/// What was noted of the text of a piece.
#[derive(Drop)]
pub struct TextNote {
    rank: u32,
    first: u64,
    path: String,
    file: Vec<u8>,
    walked: Walked,
    notes: CallNotes,
    start: Option<Start>,
}

impl Model for TextNote {
    ghost use Rattle.std.specs.Prelude.{string_bytes};
    ghost use Rattle.text_notes.specs.Words.{NoteParts, noted_of};

    ghost Value = { NoteParts };

    ghost view = { λ n. noted_of (n.rank, n.first) (string_bytes n.path) n.file.items n.walked n.notes n.start };
}

impl TextNote {
    /// The note of a text: the rank and the first call of its piece, the name of its file and how a line for a person
    /// shows it, what a walk over it told, what was noted of its calls, and, where it was looked at again, what it is
    /// taken for.
    pub fn new(
        piece: (u32, u64),
        path: String,
        file: Vec<u8>,
        walked: Walked,
        notes: CallNotes,
        start: Option<Start>,
    ) -> TextNote
        ensures { result ≡ noted_of piece (string_bytes path) file.items walked notes start }
    {
        let (rank, first) = piece;
        TextNote {
            rank,
            first,
            path,
            file,
            walked,
            notes,
            start,
        }
    }

    /// The rank whose calls it has.
    pub fn rank(&self) -> u32
        ensures { result ≡ self.now.rank }
    {
        self.rank
    }

    /// The number of its first call among all calls of its rank.
    pub fn first(&self) -> u64
        ensures { result ≡ self.now.first }
    {
        self.first
    }

    /// The name of its file, as the manifest spells it.
    pub fn path(&self) -> &str
        ensures { result.now ≡ self.now.path }
    {
        self.path.as_str()
    }

    /// The name of its file, as a line shows it.
    pub fn file(&self) -> &[u8]
        ensures { result.now ≡ self.now.file }
    {
        self.file.as_slice()
    }

    /// How many calls it has.
    pub fn calls(&self) -> u64
        ensures { result ≡ self.now.calls }
    {
        self.walked.calls
    }

    /// How many of its nonblank lines were skipped.
    pub fn skipped(&self) -> u64
        ensures { result ≡ self.now.skipped }
    {
        self.walked.skipped
    }

    /// The first of these lines.
    pub(crate) fn first_skipped(&self) -> Option<u64>
        ensures { result ≡ self.now.first_skipped }
    {
        self.walked.first_skipped
    }

    /// The functions of its calls that are not read, in the order of their first such calls.
    pub fn unread(&self) -> &[UnreadFunction]
        ensures { result.now ≡ self.now.unread }
    {
        self.notes.unread.as_slice()
    }

    /// For what the text is looked at a second time.
    pub fn needs(&self) -> &LookNeeds
        ensures { result.now ≡ self.now.needs }
    {
        &self.notes.needs
    }

    /// What the text is taken for by its first bytes; `None` if it wasn't looked at.
    pub fn start(&self) -> Option<Start>
        ensures { result ≡ self.now.start }
    {
        self.start
    }

    /// The line where the call of this number begins. It is known only for the last call, and only if that hasn't
    /// returned.
    pub fn line_of(&self, number: u64) -> Option<u64>
        ensures { result ≡ line_in_note number self.now }
    {
        if number < self.walked.calls && self.walked.calls - number == 1 {
            self.walked.unfinished
        } else {
            None
        }
    }

    /// Whether the text has the call of this number of a rank.
    fn has_call(&self, rank: u32, call: u64) -> bool
        ensures { result ≡ has_call rank call self.now }
    {
        self.rank == rank && self.first <= call && call - self.first < self.walked.calls
    }
}

/// The place of the first text that has the call of this number of the rank; `None` if none has.
pub fn note_of(notes: &[TextNote], rank: u32, call: u64) -> Option<usize>
    ensures first { result ≡ note_of rank call notes.now }
    ensures within { IfSome result (λ at. at < length notes.now) }
{
    for (at, note) in notes.iter().enumerate() {
        if note.has_call(rank, call) {
            return Some(at);
        }
    }
    None
}
