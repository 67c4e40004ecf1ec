//! What is said of the texts that were read.

ghost use Rattle.std.specs.Prelude.{◌≡◌, IfOk, if◌then◌else◌, nat_lt, [], ◌∷◌};
ghost use Rattle.std.specs.List.{flat_map};
ghost use Rattle.call_words.specs.Texts.{Adds};
ghost use Rattle.text_notes.specs.Words.{byte_text, callless_text, count_text, first_skipped_text, functions_text, guess_text, has_kind, has_unread, kind_text, line_text, name_text, next_text, notes_text, others_text, skipped_text, start_text, totals_of, totals_text, unread_text};
ghost use Rattle.text_notes.specs.declared.totals.TheConstants.{MOST_SHOWN};

use crate::function::UnreadFunction;
use crate::note::TextNote;
use crate::start::Start;
use crate::totals::{MOST_SHOWN, Totals, totals_of};
use call_words::{Text, put_more};
use std::alloc::Global;

/// What is said of a text.
#[derive(Clone, Copy, PartialEq, Eq)]
pub enum Kind {
    /// The first of its calls that is not read.
    Unread,
    /// That it has no call.
    Callless,
    /// How many of its lines were skipped.
    Skipped,
}

/// A byte of a name: a printed character of ASCII, or `?`.
fn put_byte(out: &mut Text, byte: u8)
    ensures { Adds out.old out.new (byte_text byte) }
{
    if 32 < byte && byte < 127 {
        out.put(&[byte]);
    } else {
        out.put(b"?");
    }
}

/// The name of a function.
fn put_name(out: &mut Text, name: &[u8])
    ensures { Adds out.old out.new (name_text name.now) }
{
    for byte in name {
        put_byte(out, *byte);
    }
}

/// `MPI_Isendrecv 4`.
fn put_count(out: &mut Text, function: &UnreadFunction)
    ensures { Adds out.old out.new (count_text function.now) }
{
    put_name(out, function.name());
    out.put(b" ");
    out.put_number(function.count());
}

/// A further function with its calls.
fn put_next(out: &mut Text, function: &UnreadFunction)
    ensures { Adds out.old out.new (next_text function.now) }
{
    out.put(b", ");
    put_count(out, function);
}

/// Each further function with its calls.
fn put_each_next(out: &mut Text, functions: &[UnreadFunction])
    ensures { Adds out.old out.new (flat_map next_text functions.now) }
{
    for function in functions {
        put_next(out, function);
    }
}

/// How many calls of others there are, behind those that are named.
fn put_others(out: &mut Text, others: u64)
    ensures { Adds out.old out.new (others_text others) }
{
    if others > 0 {
        out.put(b", others ");
        out.put_number(others);
    }
}

/// `  calls that are not read: MPI_Isendrecv 4, MPI_Psend_init 8`.
fn put_totals(out: &mut Text, functions: &[UnreadFunction], others: u64)
    ensures { Adds out.old out.new (totals_text functions.now others) }
{
    if let [function, rest @ ..] = functions {
        out.put(b"  calls that are not read: ");
        put_count(out, function);
        put_each_next(out, rest);
        put_others(out, others);
        out.put(b"\n");
    }
}

/// The line of all functions that aren't read.
fn put_functions(out: &mut Text, totals: &Totals)
    ensures { Adds out.old out.new (functions_text totals.now) }
{
    put_totals(out, totals.functions(), totals.others());
}

/// `  rank 0, call 17: MPI_Isendrecv is not read (r0.txt)`, of the first such call.
fn put_unread(out: &mut Text, note: &TextNote, function: &UnreadFunction)
    ensures { Adds out.old out.new (unread_text note.now (function.now ∷ [])) }
{
    out.put(b"  rank ");
    out.put_number(note.rank() as u64);
    out.put(b", call ");
    out.put_number(note.first().saturating_add(function.first()));
    out.put(b": ");
    put_name(out, function.name());
    out.put(b" is not read (");
    out.put(note.file());
    out.put(b")\n");
}

/// The line of a text's first call that isn't read.
fn put_first_unread(out: &mut Text, note: &TextNote)
    ensures { Adds out.old out.new (unread_text note.now note.now.unread) }
{
    if let [function, ..] = note.unread() {
        put_unread(out, note, function);
    }
}

/// What a text without calls is taken for.
fn guess_of(start: Start) -> &'static [u8]
    ensures { result.now ≡ guess_text start }
{
    match start {
        Start::Empty => b" is empty\n",
        Start::Gzip => b" has no call, and begins as what gzip packed\n",
        Start::Bzip2 => b" has no call, and begins as what bzip2 packed\n",
        Start::Xz => b" has no call, and begins as what xz packed\n",
        Start::Zstd => b" has no call, and begins as what zstd packed\n",
        Start::Utf16 => b" has no call, and begins as UTF-16\n",
        Start::Mark => b" has no call, and begins with a byte order mark\n",
        Start::Binary => b" has no call, and a byte 0, as a binary trace\n",
        Start::Lines => b" has no call\n",
    }
}

/// The same, also where the text can't be looked at.
fn start_of(start: Option<Start>) -> &'static [u8]
    ensures { result.now ≡ start_text start }
{
    match start {
        None => b" has no call\n",
        Some(start) => guess_of(start),
    }
}

/// The line of a text without calls.
fn put_callless(out: &mut Text, note: &TextNote)
    ensures { Adds out.old out.new (callless_text note.now) }
{
    out.put(b"  ");
    out.put(note.file());
    out.put(start_of(note.start()));
}

/// `, the first of them line 9`, where that line is told.
fn put_first_skipped(out: &mut Text, line: Option<u64>)
    ensures { Adds out.old out.new (first_skipped_text line) }
{
    if let Some(line) = line {
        out.put(b", the first of them line ");
        out.put_number(line);
    }
}

/// The line of a text of which lines were skipped.
fn put_skipped(out: &mut Text, note: &TextNote)
    ensures { Adds out.old out.new (skipped_text note.now) }
{
    out.put(b"  lines of ");
    out.put(note.file());
    out.put(b" that were skipped: ");
    out.put_number(note.skipped());
    put_first_skipped(out, note.first_skipped());
    out.put(b"\n");
}

/// Whether some function was called that isn't read.
fn has_unread(functions: &[UnreadFunction]) -> bool
    ensures { result ≡ has_unread functions.now }
{
    !functions.is_empty()
}

/// Whether a text has something of this kind to note.
fn has_kind(kind: Kind, note: &TextNote) -> bool
    ensures { result ≡ has_kind kind note.now }
{
    match kind {
        Kind::Unread => has_unread(note.unread()),
        Kind::Callless => note.calls() == 0,
        Kind::Skipped => note.skipped() > 0,
    }
}

/// The line of a text, of one kind.
fn put_line(out: &mut Text, kind: Kind, note: &TextNote)
    ensures { Adds out.old out.new (line_text kind note.now) }
{
    match kind {
        Kind::Unread => put_first_unread(out, note),
        Kind::Callless => put_callless(out, note),
        Kind::Skipped => put_skipped(out, note),
    }
}

/// The line of a text, where fewer than ten stand before it.
fn put_shown(out: &mut Text, kind: Kind, note: &TextNote, before: usize)
    ensures { Adds out.old out.new (if nat_lt before MOST_SHOWN then line_text kind note.now else []) }
{
    if before < MOST_SHOWN {
        put_line(out, kind, note);
    }
}

/// A line for each of the first ten, and how many more there are.
fn put_kind(out: &mut Text, kind: Kind, notes: &[TextNote])
    ensures { Adds out.old out.new (kind_text kind notes.now) }
{
    let mut found: usize = 0;
    for note in notes {
        if has_kind(kind, note) {
            put_shown(out, kind, note, found);
            found += 1;
        }
    }
    put_more(out, found.saturating_sub(MOST_SHOWN));
}

/// Says what makes the texts that were read doubtful: the functions whose calls are not read, with how many such calls
/// there are, the first such call of each text, the texts without a call, and those of which lines were skipped. It
/// says nothing of other texts.
pub fn put_notes(alloc: Global, out: &mut Text, notes: &[TextNote])
    ensures { Adds out.old out.new (notes_text notes.now) }
{
    match totals_of(alloc, notes) {
        Ok(totals) => put_functions(out, &totals),
        Err(_) => out.give_up(),
    }
    put_kind(out, Kind::Unread, notes);
    put_kind(out, Kind::Callless, notes);
    put_kind(out, Kind::Skipped, notes);
}
