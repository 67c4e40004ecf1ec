//! What is said of a layout that was made.

ghost use Rattle.std.specs.Prelude.{◌≡◌, ◌-◌, length, take};
ghost use Rattle.std.specs.List.{flat_map};
ghost use Rattle.call_words.specs.Texts.{Adds};
ghost use Rattle.text_layouts.specs.declared.words.TheConstants.{MOST_SHOWN};
ghost use Rattle.text_layouts.specs.Words.{comm_text, comms_text, counts_text, function_text, given_text, left_out_text, left_text, notes_text, other_text, second_text, some_left_text, sort_text, why_text};

use call_words::{Text, put_more, put_named_ranks};
use comm_makings::{Derived, LeftOut, MadeBy, OtherMaker, Why};
use mpi_model::{Comm, Object};

/// How many lines of a kind are written.
pub const MOST_SHOWN: usize = 20;

/// At most so many of the items.
fn shown<T>(items: &[T]) -> &[T]
    ensures { result.now ≡ take MOST_SHOWN items.now }
{
    if items.len() > MOST_SHOWN {
        &items[..MOST_SHOWN]
    } else {
        items
    }
}

/// Which sort of object it is; nothing of a communicator.
fn put_sort(out: &mut Text, object: Object)
    ensures { Adds out.old out.new (sort_text object) }
{
    match object {
        Object::Communicator => out.put(b""),
        Object::Window => out.put(b"window "),
        Object::File => out.put(b"file "),
    }
}

/// ` and ranks 2, 3`: the second group of an intercommunicator.
fn put_second(out: &mut Text, comm: &Comm)
    ensures { Adds out.old out.new (second_text comm.now) }
{
    if comm.is_inter() {
        out.put(b" and ");
        put_named_ranks(out, comm.second_group());
    }
}

/// `  5: ranks 0, 2`, the members in their order, or `  window 9: ranks 0, 1`; `  7: ranks 0, 1 and ranks 2, 3` of an
/// intercommunicator.
fn put_comm(out: &mut Text, comm: &Comm)
    ensures { Adds out.old out.new (comm_text comm.now) }
{
    out.put(b"  ");
    put_sort(out, comm.object);
    out.put_number(comm.id as u64);
    out.put(b": ");
    put_named_ranks(out, comm.first_group());
    put_second(out, comm);
    out.put(b"\n");
}

/// The line of each communicator, window and file.
fn put_each_comm(out: &mut Text, comms: &[Comm])
    ensures { Adds out.old out.new (flat_map comm_text comms.now) }
{
    for comm in comms {
        put_comm(out, comm);
    }
}

/// How many communicators, windows and files there are, and the first twenty of them.
fn put_comms(out: &mut Text, comms: &[Comm])
    ensures { Adds out.old out.new (comms_text comms.now) }
{
    out.put(b"communicators: ");
    out.put_number(comms.len() as u64);
    out.put(b"\n");
    put_each_comm(out, shown(comms));
    put_more(out, comms.len().saturating_sub(MOST_SHOWN));
}

/// A function that gives communicators from which nothing is derived.
fn other_text(maker: OtherMaker) -> &'static str
    ensures { result.now ≡ other_text maker }
{
    match maker {
        OtherMaker::SplitType => "MPI_Comm_split_type",
        OtherMaker::Accept => "MPI_Comm_accept",
        OtherMaker::Connect => "MPI_Comm_connect",
        OtherMaker::CreateFromGroup => "MPI_Comm_create_from_group",
        OtherMaker::IntercommCreateFromGroups => "MPI_Intercomm_create_from_groups",
        OtherMaker::Spawn => "MPI_Comm_spawn",
        OtherMaker::SpawnMultiple => "MPI_Comm_spawn_multiple",
        OtherMaker::Join => "MPI_Comm_join",
        OtherMaker::GetParent => "MPI_Comm_get_parent",
    }
}

/// The function that gave a communicator.
pub(crate) fn function_text(made_by: MadeBy) -> &'static str
    ensures { result.now ≡ function_text made_by }
{
    match made_by {
        MadeBy::Dup => "MPI_Comm_dup",
        MadeBy::DupWithInfo => "MPI_Comm_dup_with_info",
        MadeBy::Idup => "MPI_Comm_idup",
        MadeBy::IdupWithInfo => "MPI_Comm_idup_with_info",
        MadeBy::Split => "MPI_Comm_split",
        MadeBy::Create => "MPI_Comm_create",
        MadeBy::CreateGroup => "MPI_Comm_create_group",
        MadeBy::CartCreate => "MPI_Cart_create",
        MadeBy::CartSub => "MPI_Cart_sub",
        MadeBy::GraphCreate => "MPI_Graph_create",
        MadeBy::DistGraphCreate => "MPI_Dist_graph_create",
        MadeBy::DistGraphCreateAdjacent => "MPI_Dist_graph_create_adjacent",
        MadeBy::IntercommCreate => "MPI_Intercomm_create",
        MadeBy::IntercommMerge => "MPI_Intercomm_merge",
        MadeBy::Other(maker) => other_text(maker),
    }
}

/// The function that gave a communicator.
fn put_function(out: &mut Text, made_by: MadeBy)
    ensures { Adds out.old out.new (function_text made_by) }
{
    out.put(function_text(made_by).as_bytes());
}

/// Why a communicator is left out.
fn why_text(why: Why) -> &'static [u8]
    ensures { result.now ≡ why_text why }
{
    match why {
        Why::Function => b"nothing is derived from calls of this function",
        Why::Taken => b"the number is that of MPI_COMM_WORLD or MPI_COMM_SELF",
        Why::UnknownParent => b"its parent, or that of an earlier call, is unknown",
        Why::Parent => b"its parent is left out",
        Why::Untold => b"a member has no such call, or the texts don't tell the order of its ranks",
        Why::Unsound => b"the members' calls don't agree, or a parameter is unknown",
        Why::Behind => b"an earlier one of the same parent is left out",
    }
}

/// The number of a communicator that is left out.
fn put_given(out: &mut Text, number: Option<u32>)
    ensures { Adds out.old out.new (given_text number) }
{
    match number {
        Some(number) => out.put_number(number as u64),
        None => out.put(b"an unknown number"),
    }
}

/// `  rank 1, call 12, MPI_Comm_split: 5, calls that name it: 3 (its parent is left out)`.
fn put_left(out: &mut Text, left: &LeftOut)
    ensures { Adds out.old out.new (left_text left.now) }
{
    out.put(b"  rank ");
    out.put_number(left.rank as u64);
    out.put(b", call ");
    out.put_number(left.call);
    out.put(b", ");
    put_function(out, left.made_by);
    out.put(b": ");
    put_given(out, left.number);
    out.put(b", calls that name it: ");
    out.put_number(left.uses);
    out.put(b" (");
    out.put(why_text(left.why));
    out.put(b")\n");
}

/// The line of each communicator that is left out.
fn put_each_left(out: &mut Text, left_out: &[LeftOut])
    ensures { Adds out.old out.new (flat_map left_text left_out.now) }
{
    for left in left_out {
        put_left(out, left);
    }
}

/// How many communicators are left out, and the first twenty of them.
fn put_some_left(out: &mut Text, left_out: &[LeftOut])
    ensures { Adds out.old out.new (some_left_text left_out.now) }
{
    out.put(b"left out: ");
    out.put_number(left_out.len() as u64);
    out.put(b"\n");
    put_each_left(out, shown(left_out));
    put_more(out, left_out.len().saturating_sub(MOST_SHOWN));
}

/// What is said of communicators that are left out: nothing where there is none.
fn put_left_out(out: &mut Text, left_out: &[LeftOut])
    ensures { Adds out.old out.new (left_out_text left_out.now) }
{
    if left_out.len() > 0 {
        put_some_left(out, left_out);
    }
}

/// `ranks: 4, calls: 120`.
fn put_counts(out: &mut Text, ranks: u32, calls: u64)
    ensures { Adds out.old out.new (counts_text ranks calls) }
{
    out.put(b"ranks: ");
    out.put_number(ranks as u64);
    out.put(b", calls: ");
    out.put_number(calls);
    out.put(b"\n");
}

/// What is said of a layout that was made: how many ranks it has and how many calls their texts have, its communicators
/// with their members, and what is left out of it.
pub fn put_notes(out: &mut Text, ranks: u32, calls: u64, derived: &Derived)
    ensures { Adds out.old out.new (notes_text ranks calls derived.now.comms.items derived.now.left_out.items) }
{
    put_counts(out, ranks, calls);
    put_comms(out, &derived.comms);
    put_left_out(out, &derived.left_out);
}
