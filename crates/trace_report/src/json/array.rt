//! Items of an array.

ghost use Rattle.std.specs.Prelude.{◌≡◌, ◌++◌, List, ℕ};
ghost use Rattle.trace_report.specs.Json.{comma_before, joined};
ghost use Rattle.trace_report.specs.Page.{Prints};

use crate::sink::Sink;

/// What has a JSON value.
pub(crate) trait Value {
    /// The text of its value.
    ghost value: { Self → List ℕ };

    /// Puts the text of the value.
    fn put<S: Sink>(&self, out: &mut S)
        ensures { Prints (S.page out.old) (S.page out.new) (value self.now) };
}

/// Puts the items in their order, with a comma between two of them.
pub(crate) fn put_all<T: Value, S: Sink>(out: &mut S, items: &[T])
    ensures { Prints (S.page out.old) (S.page out.new) (joined T.value items.now) }
{
    for (i, item) in items.iter().enumerate() {
        put_item(out, i, item);
    }
}

/// An item, with the comma in front of it, but for the first.
fn put_item<T: Value, S: Sink>(out: &mut S, i: usize, item: &T)
    ensures { Prints (S.page out.old) (S.page out.new) (comma_before i ++ T.value item.now) }
{
    out.put(comma_before(i));
    item.put(out);
}

/// What stands before an item, by its place.
pub(crate) fn comma_before(i: usize) -> &'static [u8]
    ensures { result.now ≡ comma_before i }
{
    if i == 0 { b"" } else { b"," }
}
