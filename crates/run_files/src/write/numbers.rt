//! By which numbers the members of a communicator name it.

ghost use Rattle.std.specs.Prelude.{◌≡◌, ◌∷◌};
ghost use Rattle.json.specs.Token.{begin_array};
ghost use Rattle.json.specs.Tree.{items_tokens, json_tokens};
ghost use Rattle.run_files.specs.Values.{Puts, end_value, entry_value, is_always, items_of, stretch_value};

use crate::write::values::put_number;
use json::Writer;
use mpi_model::Stretch;
use std::alloc::AllocError;

/// Whether a stretch holds all calls.
fn is_always(stretch: Stretch) -> bool
    ensures { result ≡ is_always stretch }
{
    stretch.first == 0 && stretch.end.is_none()
}

/// Puts the end of a stretch.
fn put_end(out: &mut Writer, end: Option<u64>) -> Result<(), AllocError>
    ensures { Puts result out.old out.new (json_tokens (end_value end)) }
{
    match end {
        Some(call) => put_number(out, call),
        None => out.null(),
    }
}

/// Puts a number with its first call and its end.
fn put_stretch(out: &mut Writer, stretch: Stretch) -> Result<(), AllocError>
    ensures { Puts result out.old out.new (json_tokens (stretch_value stretch)) }
{
    if is_always(stretch) {
        return put_number(out, stretch.number as u64);
    }
    out.begin_array()?;
    put_number(out, stretch.number as u64)?;
    put_number(out, stretch.first)?;
    put_end(out, stretch.end)?;
    out.end_array()
}

/// Puts a member's entry.
fn put_entry(out: &mut Writer, entry: Option<Stretch>) -> Result<(), AllocError>
    ensures { Puts result out.old out.new (json_tokens (entry_value entry)) }
{
    match entry {
        Some(stretch) => put_stretch(out, stretch),
        None => out.null(),
    }
}

/// Puts the array of the members' entries, as a layout's file has it. Fails with `AllocError` when memory is refused.
#[tactic(auto, using(crate::proofs::Putting::next_tokens, crate::proofs::Putting::array_tokens))]
pub fn put_entries(out: &mut Writer, entries: &[Option<Stretch>]) -> Result<(), AllocError>
    ensures { Puts result out.old out.new (begin_array ∷ items_tokens (items_of entry_value entries.now)) }
{
    out.begin_array()?;
    for entry in entries {
        put_entry(out, *entry)?;
    }
    out.end_array()
}
