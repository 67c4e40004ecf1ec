//! What is said of a layout that was made, on one line.

ghost use Rattle.std.specs.Prelude.{◌≡◌, ◌++◌, codes, length};
ghost use Rattle.call_words.specs.Ranges.{named_ranks_text};
ghost use Rattle.call_words.specs.Texts.{Adds};
ghost use Rattle.text_layouts.specs.Seats.{missing_text};
ghost use Rattle.text_layouts.specs.Summary.{counted_text, left_count_text, lost_text, made_text, objects_text, read_text, same_sort, some_left_text, sort_count, summary_text};

use call_words::{Text, put_named_ranks};
use comm_makings::{Derived, LeftOut};
use mpi_model::{Comm, Object};

/// A number, and what it counts: one, or several of them.
fn put_counted(out: &mut Text, count: u64, one: &[u8], several: &[u8])
    ensures { Adds out.old out.new (counted_text count one.now several.now) }
{
    out.put_number(count);
    if count == 1 {
        out.put(one);
    } else {
        out.put(several);
    }
}

/// Whether both are the same sort.
fn same_sort(one: Object, other: Object) -> bool
    ensures { result ≡ same_sort one other }
{
    match one {
        Object::Communicator => matches!(other, Object::Communicator),
        Object::Window => matches!(other, Object::Window),
        Object::File => matches!(other, Object::File),
    }
}

/// How many of these are of this sort.
fn sort_count(sort: Object, comms: &[Comm]) -> usize
    ensures { result ≡ sort_count sort comms.now }
{
    let mut count = 0usize;
    for comm in comms {
        if same_sort(comm.object, sort) {
            count += 1;
        }
    }
    count
}

/// So many of a sort that not each run has; nothing of none.
fn put_objects(out: &mut Text, count: u64, one: &[u8], several: &[u8])
    ensures { Adds out.old out.new (objects_text count one.now several.now) }
{
    if count > 0 {
        out.put(b", ");
        put_counted(out, count, one, several);
    }
}

/// `; 2 left out (--verbose names them)`.
fn put_some_left(out: &mut Text, count: u64)
    ensures { Adds out.old out.new (some_left_text count) }
{
    out.put(b"; ");
    out.put_number(count);
    out.put(b" left out (--verbose names them)");
}

/// How many are left out; nothing of none.
fn put_left_count(out: &mut Text, count: u64)
    ensures { Adds out.old out.new (left_count_text count) }
{
    if count > 0 {
        put_some_left(out, count);
    }
}

/// `no text of ranks 1, 3`, between these words.
fn put_these(out: &mut Text, front: &[u8], ranks: &[u32], end: &[u8])
    ensures { Adds out.old out.new (front.now ++ codes "no text of " ++ named_ranks_text ranks.now ++ end.now) }
{
    out.put(front);
    out.put(b"no text of ");
    put_named_ranks(out, ranks);
    out.put(end);
}

/// Of which ranks there is no text, between these words; nothing where each rank has one.
pub fn put_missing(out: &mut Text, front: &[u8], ranks: &[u32], end: &[u8])
    ensures { Adds out.old out.new (missing_text front.now ranks.now end.now) }
{
    if !ranks.is_empty() {
        put_these(out, front, ranks, end);
    }
}

/// How many communicators, windows and files these are.
fn put_made(out: &mut Text, comms: &[Comm])
    ensures { Adds out.old out.new (made_text comms.now) }
{
    let made = sort_count(Object::Communicator, comms);
    put_counted(out, made as u64, b" communicator", b" communicators");
    let windows = sort_count(Object::Window, comms);
    put_objects(out, windows as u64, b" window", b" windows");
    let files = sort_count(Object::File, comms);
    put_objects(out, files as u64, b" file", b" files");
}

/// How many texts and calls there are.
fn put_read(out: &mut Text, texts: u64, calls: u64)
    ensures { Adds out.old out.new (read_text texts calls) }
{
    put_counted(out, texts, b" text, ", b" texts, ");
    put_counted(out, calls, b" call, ", b" calls, ");
}

/// Which ranks have no text, and how many communicators are left out, to the end of the line.
fn put_lost(out: &mut Text, missing: &[u32], left_out: &[LeftOut])
    ensures { Adds out.old out.new (lost_text missing.now (length left_out.now)) }
{
    put_missing(out, b"; ", missing, b"");
    put_left_count(out, left_out.len() as u64);
    out.put(b"\n");
}

/// What is said of a layout that was made of so many texts with so many calls, on one line: how many communicators,
/// windows and files it has, which ranks have no text, and how many are left out.
pub fn put_summary(out: &mut Text, texts: u64, calls: u64, missing: &[u32], derived: &Derived)
    ensures { Adds out.old out.new (summary_text texts calls missing.now derived.now.comms.items (length derived.now.left_out.items)) }
{
    put_read(out, texts, calls);
    put_made(out, &derived.comms);
    put_lost(out, missing, &derived.left_out);
}
