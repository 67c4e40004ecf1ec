//! Items of lists, parted by commas.

ghost use Rattle.std.specs.Prelude.{◌≡◌, IfErr, IfOk, List, None, Option, Some, ℕ};
ghost use Rattle.std.specs.Option.{option_map};
ghost use Rattle.dumpi_text.specs.Items.{items_front, next_front};
ghost use Rattle.dumpi_text.specs.declared.value.ValueFault.TheVariants.{BadValue};

use crate::number::{Num, read_number_item};
use crate::tokens::skip_spaces;
use crate::value::ValueFault;
use std::alloc::Global;

/// What a list holds many of.
pub trait Item: Drop {
    /// The item in front, and what follows it.
    ghost front: { List ℕ → Option (Self × List ℕ) };

    /// Reads the item in front, and returns it with what follows it. Fails with `BadValue` if the text has another
    /// form, and with `Memory` when memory is refused.
    fn read<'t>(alloc: Global, text: &'t [u8]) -> Result<(Self, &'t [u8]), ValueFault>
        ensures ok { IfOk result (λ item. front text.now ≡ Some (item.0, item.1.now)) }
        ensures bad { IfErr result (λ fault. fault ≡ BadValue → front text.now ≡ None) };
}

impl Item for Num {
    ghost use Rattle.dumpi_text.specs.Number.{number_item};

    ghost front = { number_item };

    fn read<'t>(_alloc: Global, text: &'t [u8]) -> Result<(Num, &'t [u8]), ValueFault> {
        match read_number_item(text) {
            Some(item) => Ok(item),
            None => Err(ValueFault::BadValue),
        }
    }
}

/// Whether another item follows, and what follows its `,` or the closing byte
fn split_next(close: u8, text: &[u8]) -> Option<(bool, &[u8])>
    ensures { option_map (λ x. (x.0, x.1.now)) result ≡ next_front close text.now }
{
    match text {
        [b',', rest @ ..] => Some((true, rest)),
        [byte, rest @ ..] if *byte == close => Some((false, rest)),
        _ => None,
    }
}

/// One or more items and the closing byte. Each item takes a byte at least, so there are no more of them than bytes.
/// `BadValue` comes where the text has another form, `Memory` where memory is refused.
#[tactic(auto, using(crate::proofs::ItemByItem::no_item_before, crate::proofs::ItemByItem::one_more, crate::proofs::ItemByItem::the_last, crate::proofs::ItemByItem::no_item, crate::proofs::ItemByItem::no_next))]
pub fn read_items<T: Item>(
    alloc: Global,
    close: u8,
    text: &[u8],
) -> Result<(Vec<T>, &[u8]), ValueFault>
    ensures ok { IfOk result (λ x. items_front T.front close text.now ≡ Some (x.0.items, x.1.now)) }
    ensures bad { IfErr result (λ fault. fault ≡ BadValue → items_front T.front close text.now ≡ None) }
{
    let mut items = Vec::new(alloc);
    let mut left = text;
    for _ in 0..text.len() {
        let (item, rest) = T::read(alloc, skip_spaces(left))?;
        items.push(item)?;
        match split_next(close, skip_spaces(rest)) {
            Some((true, rest)) => left = rest,
            Some((false, rest)) => return Ok((items, rest)),
            None => return Err(ValueFault::BadValue),
        }
    }
    Err(ValueFault::BadValue)
}
