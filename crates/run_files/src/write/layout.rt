//! The layout of a run, as its file.

ghost use Rattle.std.specs.Prelude.{◌≡◌, ◌∷◌, IfOk};
ghost use Rattle.json.specs.Token.{begin_array};
ghost use Rattle.json.specs.Tree.{items_tokens, json_tokens, members_tokens};
ghost use Rattle.run_files.specs.Values.{Puts, communicator_value, items_of, layout_value, line_of, numbers_field, object_tokens, parts_of, remote_tokens, sends_word};

use crate::write::numbers::put_entries;
use crate::write::values::{line_of, put_number_field, put_numbers, put_string_field};
use json::Writer;
use mpi_model::{Comm, Object, Sends};
use std::alloc::{AllocError, Global};

/// The bytes of the file of a layout with these parts: its communicators in this order, without the field `numbers` if
/// there are none, and with a plain number for a stretch of all calls. The parts aren't checked: [`mpi_model::Layout`]
/// says whether they break a rule. Fails with `AllocError` when memory is refused.
pub fn layout_bytes(
    alloc: Global,
    ranks: u32,
    world: u32,
    sends: Sends,
    comms: &[Comm],
) -> Result<Vec<u8>, AllocError>
    ensures { IfOk result (λ text. text.items ≡ line_of (layout_value (parts_of ranks world sends comms.now))) }
{
    let mut out = Writer::new(Vec::new(alloc));
    put_layout(&mut out, ranks, world, sends, comms)?;
    line_of(out)
}

/// How sends of standard mode complete.
fn sends_word(sends: Sends) -> &'static str
    ensures { result.now ≡ sends_word sends }
{
    match sends {
        Sends::Wait => "wait",
        Sends::Buffer => "buffer",
    }
}

/// Puts the value of a layout.
fn put_layout(
    out: &mut Writer,
    ranks: u32,
    world: u32,
    sends: Sends,
    comms: &[Comm],
) -> Result<(), AllocError>
    ensures { Puts result out.old out.new (json_tokens (layout_value (parts_of ranks world sends comms.now))) }
{
    out.begin_object()?;
    put_number_field(out, "ranks", ranks as u64)?;
    put_number_field(out, "world", world as u64)?;
    put_string_field(out, "sends", sends_word(sends))?;
    out.key("comms")?;
    put_comms(out, comms)?;
    out.end_object()
}

/// Puts the communicators, in their order.
#[tactic(auto, using(crate::proofs::Putting::next_tokens, crate::proofs::Putting::array_tokens))]
fn put_comms(out: &mut Writer, comms: &[Comm]) -> Result<(), AllocError>
    ensures { Puts result out.old out.new (begin_array ∷ items_tokens (items_of communicator_value comms.now)) }
{
    out.begin_array()?;
    for comm in comms {
        put_comm(out, comm)?;
    }
    out.end_array()
}

/// Puts a communicator, a window or a file: its id, its sort, its members, the second group of an intercommunicator
/// apart, and their entries where it has some.
fn put_comm(out: &mut Writer, comm: &Comm) -> Result<(), AllocError>
    ensures { Puts result out.old out.new (json_tokens (communicator_value comm.now)) }
{
    out.begin_object()?;
    put_number_field(out, "id", comm.id as u64)?;
    put_object(out, comm.object)?;
    out.key("members")?;
    put_numbers(out, comm.first_group())?;
    put_remote(out, comm)?;
    put_field(out, comm)
}

/// The field of the second group, where there is one.
fn put_remote(out: &mut Writer, comm: &Comm) -> Result<(), AllocError>
    ensures { Puts result out.old out.new (remote_tokens comm.now) }
{
    if !comm.is_inter() {
        return Ok(());
    }
    out.key("remote")?;
    put_numbers(out, comm.second_group())
}

/// The field of an object's sort, where it is no communicator.
fn put_object(out: &mut Writer, object: Object) -> Result<(), AllocError>
    ensures { Puts result out.old out.new (object_tokens object) }
{
    match object {
        Object::Communicator => Ok(()),
        Object::Window => put_string_field(out, "object", "window"),
        Object::File => put_string_field(out, "object", "file"),
    }
}

/// The entries, where there are some, and the end of the object.
fn put_field(out: &mut Writer, comm: &Comm) -> Result<(), AllocError>
    ensures { Puts result out.old out.new (members_tokens (numbers_field comm.now.numbers)) }
{
    if !comm.numbers.is_empty() {
        out.key("numbers")?;
        put_entries(out, &comm.numbers)?;
    }
    out.end_object()
}
