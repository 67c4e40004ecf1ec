//! Names of operations.

ghost use Rattle.call_words.specs.Names.{further_part_text, number_text, part_text};
ghost use Rattle.call_words.specs.Texts.{Adds};

use crate::text::Text;
use mpi_model::OpName;

/// The number of an operation's call, as `3`, or `3.1` behind the first part of a Startall.
pub fn put_op_number(out: &mut Text, name: &OpName)
    ensures { Adds out.old out.new (number_text name.now) }
{
    out.put_number(name.call);
    put_part(out, name.part);
}

/// The part of a Startall: nothing for the first, and for every other call.
fn put_part(out: &mut Text, part: u32)
    ensures { Adds out.old out.new (part_text part) }
{
    if part == 0 {
        out.put(b"");
    } else {
        put_further_part(out, part);
    }
}

/// A part of a Startall behind its first.
fn put_further_part(out: &mut Text, part: u32)
    ensures { Adds out.old out.new (further_part_text part) }
{
    out.put(b".");
    out.put_number(part as u64);
}
