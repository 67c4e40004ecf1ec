//! Statuses as dumpi2ascii writes them, `[count] {{word=number, ..}, ..}`, of which is read in one pass and in place
//! what they tell. A value in another form is left to the functions that read any value.

ghost use Rattle.std.specs.Prelude.{◌≡◌, ◌<◌, ◌≤◌, ◌∷◌, ◌++◌, [], IfOk, IfSome, None, Some, length, map, true};
ghost use Rattle.std.specs.List.{list_all};
ghost use Rattle.std.specs.Option.{option_map};
ghost use Rattle.dumpi_calls.specs.Outcomes.{groups_from, told_at, told_of};
ghost use Rattle.dumpi_calls.specs.Skims.{EndsFields, HasField, groups_front, number_with, seen_with, told_with, tolds_with, unseen, with_told};
ghost use Rattle.dumpi_text.specs.Bytes.{closing_brace, equals, opening_bracket};
ghost use Rattle.dumpi_text.specs.Items.{field_item, fields_front, group_item, next_front};
ghost use Rattle.dumpi_text.specs.Number.{note_front, number_front, number_item};
ghost use Rattle.dumpi_text.specs.Tokens.{after_byte, after_spaces, digit_parts, word_front};
ghost use Rattle.dumpi_text.specs.Value.{all_groups, core_front, value_of};
ghost use Rattle.dumpi_text.specs.Words.{is_word_byte, word_parts};
ghost use Rattle.dumpi_text.specs.declared.number.NumName.TheVariants.{Other};

use crate::function::is;
use crate::outcome::told_from;
use crate::quick::digits_front;
use dumpi_text::{Num, NumName, ValueFault, read_word, skip_spaces, strip, strip_byte};
use mpi_model::Told;
use std::alloc::Global;

/// What was seen of the fields of a group: the numbers of the first `cancelled` and of the first `source`.
#[derive(Clone, Copy)]
struct Seen {
    cancelled: Option<Num>,
    source: Option<Num>,
}

/// What follows a `=` that stands in front.
fn after_equals(text: &[u8]) -> Option<&[u8]>
    ensures { IfSome result (λ rest. after_byte equals text.now ≡ Some rest.now) }
{
    match text {
        [b'=', rest @ ..] => Some(rest),
        _ => None,
    }
}

/// Whether a `,` or a `}` stands in front, which ends a number of a list or of a field.
pub fn ends_number(text: &[u8]) -> bool
    ensures digits { result ≡ true → digit_parts text.now ≡ ([], text.now) }
    ensures word { result ≡ true → word_parts text.now ≡ ([], text.now) }
    ensures no_field { result ≡ true → after_byte equals text.now ≡ None }
    ensures note { result ≡ true → note_front (after_spaces text.now) ≡ Some (Other, text.now) }
{
    match text {
        [b',', ..] => true,
        [b'}', ..] => true,
        _ => false,
    }
}

/// The number in front, where it is digits that a `,` or a `}` ends, and what follows it.
#[inline(always)]
pub fn split_number(text: &[u8]) -> Option<(Num, &[u8])>
    ensures number { IfSome result (λ x. number_front (after_spaces text.now) ≡ Some (x.0, x.1.now)) }
    ensures item { IfSome result (λ x. number_item text.now ≡ Some (x.0, x.1.now)) }
{
    let (value, count) = digits_front(text);
    if count == 0 {
        return None;
    }
    let rest = &text[count..];
    if !ends_number(rest) {
        return None;
    }
    let number = Num {
        value: value as i64,
        name: NumName::Other,
    };
    Some((number, rest))
}

/// The word and the number of the field in front, and what follows it.
#[tactic(auto, unfolding(dumpi_text::specs::Items::field_item))]
fn split_field(text: &[u8]) -> Option<(&[u8], Num, &[u8])>
    ensures { IfSome result (λ x. HasField text.now x.0.now x.1 x.2.now) }
{
    let (word, rest) = read_word(text)?;
    let rest = after_equals(rest)?;
    let (number, rest) = split_number(rest)?;
    Some((word, number, rest))
}

/// The number of the field in front, where its word is this one, and what follows it.
#[inline(always)]
#[tactic(auto, using(crate::proofs::FieldByField::field_of_word))]
fn field_named<'a>(word: &[u8], text: &'a [u8]) -> Option<(Num, &'a [u8])>
    requires some { 0 < length word.now }
    requires word { list_all is_word_byte word.now ≡ true }
    ensures field { IfSome result (λ x. HasField (after_spaces text.now) word.now x.0 x.1.now) }
    ensures there { IfSome result (λ x. length word.now ≤ length text.now) }
{
    let rest = strip(word, text)?;
    let after = strip_byte(b'=', rest)?;
    let (number, rest) = split_number(after)?;
    Some((number, rest))
}

/// The number 0, without a name.
const NOUGHT: Num = Num {
    value: 0,
    name: NumName::Other,
};

/// What follows the `}` that closes a group, behind the last of its fields or behind one more, which says that there
/// was no error.
#[inline(always)]
fn end_front(text: &[u8]) -> Option<&[u8]>
    ensures { IfSome result (λ more. EndsFields text.now more.now) }
{
    match strip_byte(b'}', text) {
        Some(rest) => Some(rest),
        None => strip(b", error=0}", text),
    }
}

/// What the fields of a group tell, where they are the five that dumpi2ascii writes, or all but the last, and nothing
/// was cancelled, and what follows its `}`.
fn usual_front(text: &[u8]) -> Option<(Told, &[u8])>
    ensures { IfSome result (λ x. with_told unseen (fields_front text.now) ≡ Some (x.0, x.1.now)) }
{
    let (_, rest) = split_number(strip(b"bytes=", text)?)?;
    let (source, rest) = split_number(strip(b", cancelled=0, source=", rest)?)?;
    let (_, rest) = split_number(strip(b", tag=", rest)?)?;
    let rest = end_front(rest)?;
    Some((told_from(Some(NOUGHT), Some(source)), rest))
}

/// The same of the three fields of traces that tell neither what was cancelled nor errors.
fn short_front(text: &[u8]) -> Option<(Told, &[u8])>
    ensures { IfSome result (λ x. with_told unseen (fields_front text.now) ≡ Some (x.0, x.1.now)) }
{
    let (_, rest) = field_named(b"bytes", text)?;
    let (source, rest) = field_named(b"source", strip(b", ", rest)?)?;
    let (_, rest) = field_named(b"tag", strip(b", ", rest)?)?;
    let rest = strip_byte(b'}', rest)?;
    Some((told_from(None, Some(source)), rest))
}

/// Whether another item follows, and what follows its `,` or the `}` that closes the list.
pub fn split_next(text: &[u8]) -> Option<(bool, &[u8])>
    ensures { option_map (λ x. (x.0, x.1.now)) result ≡ next_front closing_brace text.now }
{
    match text {
        [b',', rest @ ..] => Some((true, rest)),
        [b'}', rest @ ..] => Some((false, rest)),
        _ => None,
    }
}

/// What was found of the fields of a name, with one field more: the first of them counts.
fn number_by(wanted: &str, found: Option<Num>, word: &[u8], number: Num) -> Option<Num>
    ensures { result ≡ number_with wanted.now found (record { word = word.now; number = number }) }
{
    match found {
        Some(first) => Some(first),
        None => { if is(word, wanted) { Some(number) } else { None } }
    }
}

/// What was seen, with one field more.
fn seen_by(seen: Seen, word: &[u8], number: Num) -> Seen
    ensures { result ≡ seen_with seen (record { word = word.now; number = number }) }
{
    Seen {
        cancelled: number_by("cancelled", seen.cancelled, word, number),
        source: number_by("source", seen.source, word, number),
    }
}

/// What was told by all fields.
fn told_by_all(seen: Seen) -> Told
    ensures { result ≡ told_with seen [] }
{
    told_from(seen.cancelled, seen.source)
}

/// What the fields of a group tell, and what follows its `}`.
fn told_front(text: &[u8]) -> Option<(Told, &[u8])>
    ensures { IfSome result (λ x. with_told unseen (fields_front text.now) ≡ Some (x.0, x.1.now)) }
{
    match usual_front(text) {
        Some(usual) => Some(usual),
        None => match short_front(text) {
            Some(short) => Some(short),
            None => any_front(text),
        },
    }
}

/// The same of any fields, one by one.
#[tactic(auto, using(crate::proofs::FieldByField::one_more, crate::proofs::FieldByField::the_last))]
fn any_front(text: &[u8]) -> Option<(Told, &[u8])>
    ensures { IfSome result (λ x. with_told unseen (fields_front text.now) ≡ Some (x.0, x.1.now)) }
{
    let mut seen = Seen {
        cancelled: None,
        source: None,
    };
    let mut left = text;
    for _ in 0..text.len() {
        let (word, number, rest) = split_field(skip_spaces(left))?;
        seen = seen_by(seen, word, number);
        match split_next(skip_spaces(rest)) {
            Some((true, rest)) => left = rest,
            Some((false, rest)) => return Some((told_by_all(seen), rest)),
            None => return None,
        }
    }
    None
}

/// The fields of a status and what closes it: what follows `[1] {{`.
fn status_fields(text: &[u8]) -> Option<&[u8]>
    ensures { IfSome result (λ fields. text.now ≡ 91 ∷ 49 ∷ 93 ∷ 32 ∷ 123 ∷ 123 ∷ fields.now) }
{
    let text = strip_byte(b'[', text)?;
    let text = strip_byte(b'1', text)?;
    let text = strip_byte(b']', text)?;
    let text = strip_byte(b' ', text)?;
    let text = strip_byte(b'{', text)?;
    let fields = strip_byte(b'{', text)?;
    Some(fields)
}

/// Whether a text is the `}` that closes a list, and nothing more.
fn closes_list(text: &[u8]) -> bool
    ensures { result ≡ true → text.now ≡ closing_brace ∷ [] }
{
    match text {
        [b'}'] => true,
        _ => false,
    }
}

/// What the text of a status tells, where it is one group.
pub fn quick_status(text: &[u8]) -> Option<Told>
    ensures { IfSome result (λ told. told_at (groups_from (value_of text.now)) 0 ≡ told) }
{
    let fields = status_fields(text)?;
    match told_front(fields) {
        None => None,
        Some((told, rest)) => { if closes_list(rest) { Some(told) } else { None } }
    }
}

/// What the group in front tells, and what follows it.
fn told_group(text: &[u8]) -> Option<(Told, &[u8])>
    ensures { IfSome result (λ x. with_told unseen (group_item text.now) ≡ Some (x.0, x.1.now)) }
{
    match text {
        [b'{', fields @ ..] => told_front(fields),
        _ => None,
    }
}

/// What each group of a list tells, and what follows the list's `}`; `BadValue` is no answer. There is room for so many
/// at first.
#[tactic(auto, using(crate::proofs::GroupByGroup::one_more, crate::proofs::GroupByGroup::the_last))]
fn tolds_front(alloc: Global, room: usize, list: &[u8]) -> Result<(Vec<Told>, &[u8]), ValueFault>
    ensures { IfOk result (λ x. tolds_with [] (groups_front list.now) ≡ Some (x.0.items, x.1.now)) }
{
    let mut tolds = Vec::with_capacity(alloc, room)?;
    let mut left = list;
    for _ in 0..list.len() {
        match told_group(skip_spaces(left)) {
            None => return Err(ValueFault::BadValue),
            Some((told, rest)) => {
                tolds.push(told)?;
                match split_next(skip_spaces(rest)) {
                    Some((true, rest)) => left = rest,
                    Some((false, rest)) => return Ok((tolds, rest)),
                    None => return Err(ValueFault::BadValue),
                }
            }
        }
    }
    Err(ValueFault::BadValue)
}

/// The list of groups of statuses, by what follows their `[`: what stands after the count, `] {`.
fn counted_groups(text: &[u8]) -> Option<&[u8]>
    ensures { IfSome result (λ list. core_front (opening_bracket ∷ text.now) ≡ all_groups (groups_front list.now)) }
{
    let (_, count) = digits_front(text);
    if count == 0 || text.len() - count < 4 {
        return None;
    }
    if text[count] != b']' || text[count + 1] != b' ' {
        return None;
    }
    if text[count + 2] != b'{' || text[count + 3] != b'{' {
        return None;
    }
    Some(&text[count + 3..])
}

/// What each group of a list tells that nothing follows; `BadValue` is no answer.
fn tolds_in(alloc: Global, room: usize, list: &[u8]) -> Result<Vec<Told>, ValueFault>
    ensures { IfOk result (λ tolds. tolds_with [] (groups_front list.now) ≡ Some (tolds.items, [])) }
{
    let (tolds, rest) = tolds_front(alloc, room, list)?;
    if rest.is_empty() {
        Ok(tolds)
    } else {
        Err(ValueFault::BadValue)
    }
}

/// What each group of the text of statuses tells, of which there are about so many; `BadValue` is no answer. Fails with
/// `Memory` when memory is refused.
#[tactic(auto, using(crate::proofs::GroupByGroup::tolds_value))]
pub fn quick_statuses(alloc: Global, about: usize, text: &[u8]) -> Result<Vec<Told>, ValueFault>
    ensures { IfOk result (λ tolds. map told_of (groups_from (value_of text.now)) ≡ tolds.items) }
{
    match strip_byte(b'[', text) {
        None => Err(ValueFault::BadValue),
        Some(counted) => match counted_groups(counted) {
            None => Err(ValueFault::BadValue),
            Some(list) => tolds_in(alloc, about, list),
        },
    }
}
