//! How many more there are.

ghost use Rattle.call_words.specs.More.{more_text};
ghost use Rattle.call_words.specs.Texts.{Adds};

use crate::text::Text;

/// The line `  and 3 more`, which says how many more there are than are named; nothing if all are.
pub fn put_more(out: &mut Text, more: usize)
    ensures { Adds out.old out.new (more_text more) }
{
    if more > 0 {
        out.put(b"  and ");
        out.put_number(more as u64);
        out.put(b" more\n");
    }
}
