//! What is said of a layout that was made, as JSON.

ghost use Rattle.std.specs.Prelude.{◌≡◌, ◌∷◌, ◌++◌, [], IfOk, codes, length};
ghost use Rattle.json.specs.Token.{begin_array, boolean, key};
ghost use Rattle.json.specs.Tree.{items_tokens, json_tokens};
ghost use Rattle.run_files.specs.Values.{Puts, items_of, line_of, number_of};
ghost use Rattle.text_layouts.specs.Found.{comm_value, found_value, given_value, left_value, name_value, object_word, why_word};

use crate::made::Made;
use crate::words::function_text;
use comm_makings::{LeftOut, Why};
use json::Writer;
use mpi_model::{Comm, Object};
use run_files::{line_of, put_entries, put_number_field, put_numbers, put_string_field};
use std::alloc::{AllocError, Global};

/// Puts a field that is true or false.
fn put_bool_field(out: &mut Writer, name: &str, value: bool) -> Result<(), AllocError>
    ensures { Puts result out.old out.new (key name.now ∷ boolean value ∷ []) }
{
    out.key(name)?;
    out.boolean(value)
}

/// Puts a field that is a list of numbers.
fn put_numbers_field(out: &mut Writer, name: &str, numbers: &[u32]) -> Result<(), AllocError>
    ensures { Puts result out.old out.new (key name.now ∷ begin_array ∷ items_tokens (items_of number_of numbers.now)) }
{
    out.key(name)?;
    put_numbers(out, numbers)
}

/// The sort of object.
fn object_word(object: Object) -> &'static str
    ensures { result.now ≡ object_word object }
{
    match object {
        Object::Communicator => "communicator",
        Object::Window => "window",
        Object::File => "file",
    }
}

/// Puts what MPI calls an object of this id, where it is the world.
fn put_name(out: &mut Writer, world: u32, id: u32) -> Result<(), AllocError>
    ensures { Puts result out.old out.new (json_tokens (name_value world id)) }
{
    if id == world {
        out.string("MPI_COMM_WORLD")
    } else {
        out.null()
    }
}

/// Puts a communicator, a window or a file: its id, its sort, its name, its members, those of the second group of an
/// intercommunicator apart, and the numbers by which they name it.
fn put_comm(out: &mut Writer, world: u32, comm: &Comm) -> Result<(), AllocError>
    ensures { Puts result out.old out.new (json_tokens (comm_value world comm.now)) }
{
    out.begin_object()?;
    put_number_field(out, "id", comm.id as u64)?;
    put_string_field(out, "object", object_word(comm.object))?;
    out.key("name")?;
    put_name(out, world, comm.id)?;
    put_numbers_field(out, "members", comm.first_group())?;
    put_numbers_field(out, "remote", comm.second_group())?;
    out.key("numbers")?;
    put_entries(out, &comm.numbers)?;
    out.end_object()
}

/// Puts the communicators, windows and files, in their order.
#[tactic(auto, using(crate::proofs::Putting::next_tokens, crate::proofs::Putting::array_tokens))]
fn put_comms(out: &mut Writer, world: u32, comms: &[Comm]) -> Result<(), AllocError>
    ensures { Puts result out.old out.new (begin_array ∷ items_tokens (items_of (comm_value world) comms.now)) }
{
    out.begin_array()?;
    for comm in comms {
        put_comm(out, world, comm)?;
    }
    out.end_array()
}

/// Puts the number that a call gave, where it can be read.
fn put_given(out: &mut Writer, number: Option<u32>) -> Result<(), AllocError>
    ensures { Puts result out.old out.new (json_tokens (given_value number)) }
{
    match number {
        Some(number) => out.u64(number as u64),
        None => out.null(),
    }
}

/// Why a communicator is left out, in a word.
fn why_word(why: Why) -> &'static str
    ensures { result.now ≡ why_word why }
{
    match why {
        Why::Function => "function",
        Why::Taken => "taken",
        Why::UnknownParent => "unknown",
        Why::Parent => "parent",
        Why::Untold => "untold",
        Why::Unsound => "unsound",
        Why::Behind => "behind",
    }
}

/// Puts a communicator that is left out: the call that gave it, its number, how many calls name it, and why.
fn put_left(out: &mut Writer, left: &LeftOut) -> Result<(), AllocError>
    ensures { Puts result out.old out.new (json_tokens (left_value left.now)) }
{
    out.begin_object()?;
    put_number_field(out, "rank", left.rank as u64)?;
    put_number_field(out, "call", left.call)?;
    put_string_field(out, "function", function_text(left.made_by))?;
    out.key("number")?;
    put_given(out, left.number)?;
    put_number_field(out, "uses", left.uses)?;
    put_string_field(out, "why", why_word(left.why))?;
    out.end_object()
}

/// Puts what is left out, in its order.
#[tactic(auto, using(crate::proofs::Putting::next_tokens, crate::proofs::Putting::array_tokens))]
fn put_left_out(out: &mut Writer, left_out: &[LeftOut]) -> Result<(), AllocError>
    ensures { Puts result out.old out.new (begin_array ∷ items_tokens (items_of left_value left_out.now)) }
{
    out.begin_array()?;
    for left in left_out {
        put_left(out, left)?;
    }
    out.end_array()
}

/// Puts how many texts and how many ranks there are, and between them so many calls.
fn put_counts(out: &mut Writer, calls: u64, made: &Made) -> Result<(), AllocError>
    ensures { Puts result out.old out.new (key (codes "texts") ∷ json_tokens (number_of (length made.now.input.manifest.pieces))
        ++ key (codes "calls") ∷ json_tokens (number_of calls) ++ key (codes "ranks") ∷ json_tokens (number_of made.now.input.layout.ranks)) }
{
    put_number_field(out, "texts", made.input.manifest.pieces().len() as u64)?;
    put_number_field(out, "calls", calls)?;
    put_number_field(out, "ranks", made.input.layout.ranks() as u64)
}

/// Puts all that was found.
fn put_found(
    out: &mut Writer,
    layout: &str,
    manifest: &str,
    by_digits: bool,
    missing: &[u32],
    calls: u64,
    made: &Made,
) -> Result<(), AllocError>
    ensures { Puts result out.old out.new (json_tokens (found_value layout.now manifest.now by_digits missing.now calls made.now)) }
{
    let derived = &made.derived;
    out.begin_object()?;
    put_number_field(out, "init", 1)?;
    put_counts(out, calls, made)?;
    put_bool_field(out, "by_digits", by_digits)?;
    put_numbers_field(out, "missing", missing)?;
    out.key("comms")?;
    put_comms(out, derived.world, &derived.comms)?;
    out.key("left_out")?;
    put_left_out(out, &derived.left_out)?;
    put_string_field(out, "layout", layout)?;
    put_string_field(out, "manifest", manifest)?;
    out.end_object()
}

/// What is said of a layout that was made of texts with so many calls, as one JSON object on one line: how many texts,
/// calls and ranks there are, whether the digits of the texts' names told the ranks, which ranks have no text, each
/// communicator, window and file, what is left out, and the names of the layout's and the manifest's file. Fails with
/// `AllocError` when memory is refused.
pub fn found_json(
    alloc: Global,
    layout: &str,
    manifest: &str,
    by_digits: bool,
    missing: &[u32],
    calls: u64,
    made: &Made,
) -> Result<Vec<u8>, AllocError>
    ensures { IfOk result (λ text. text.items ≡ line_of (found_value layout.now manifest.now by_digits missing.now calls made.now)) }
{
    let mut out = Writer::new(Vec::new(alloc));
    put_found(&mut out, layout, manifest, by_digits, missing, calls, made)?;
    line_of(out)
}
