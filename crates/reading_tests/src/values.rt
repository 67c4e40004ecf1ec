//! How values are kept: the kinds, words and names that no parameter of the profile asks for.

use dumpi_text::{Field, Group, Num, NumName, Value, ValueFault, parse_value};
use std::alloc::Global;

/// A number and its name.
type Named = (i64, NumName);

/// A field's word, and its number.
type Worded = (&'static str, Named);

/// What a text says.
enum Said {
    Number(Named),
    Numbers(&'static [Named]),
    Groups(&'static [&'static [Worded]]),
    /// X4 BadValue.
    Bad,
}

/// Texts, and what they say.
static VALUES: [(&str, Said); 16] = [
    ("2 (MPI_COMM_WORLD)", Said::Number((2, NumName::CommWorld))),
    ("2 ( MPI_COMM_WORLD)", Said::Number((2, NumName::Other))),
    ("[4 (MPI_ANY_TAG)] (x)", Said::Number((4, NumName::AnyTag))),
    ("[4] (MPI_ANY_TAG)", Said::Number((4, NumName::Other))),
    ("{4}", Said::Numbers(&[(4, NumName::Other)])),
    ("[0] {}", Said::Numbers(&[])),
    (
        "{4 (MPI_ANY_TAG), [5 (MPI_PROC_NULL)]}",
        Said::Numbers(&[(4, NumName::AnyTag), (5, NumName::ProcNull)]),
    ),
    (
        "1 (MPI_REQUEST_NULL)",
        Said::Number((1, NumName::RequestNull)),
    ),
    ("-3 (MPI_ROOT)", Said::Number((-3, NumName::Root))),
    ("-3 (MPI_ROOTS)", Said::Number((-3, NumName::Other))),
    ("{a=1}", Said::Groups(&[&[("a", (1, NumName::Other))]])),
    (
        "{source=3 (MPI_ANY_SOURCE), tag = -1}",
        Said::Groups(&[&[
            ("source", (3, NumName::AnySource)),
            ("tag", (-1, NumName::Other)),
        ]]),
    ),
    (
        "[2] {{a=3}, {b_9=0}}",
        Said::Groups(&[
            &[("a", (3, NumName::Other))],
            &[("b_9", (0, NumName::Other))],
        ]),
    ),
    (
        "{12 = 3}(x)",
        Said::Groups(&[&[("12", (3, NumName::Other))]]),
    ),
    ("{{}}", Said::Bad),
    ("{4, {a=1}}", Said::Bad),
];

fn is_number(found: &Num, wanted: &Named) -> bool {
    found.value == wanted.0 && found.name == wanted.1
}

fn are_numbers(found: &[Num], wanted: &[Named]) -> bool {
    if found.len() != wanted.len() {
        return false;
    }
    for (at, number) in found.iter().enumerate() {
        if !is_number(number, &wanted[at]) {
            return false;
        }
    }
    true
}

fn is_field(found: &Field, wanted: &Worded) -> bool {
    found.word.as_slice() == wanted.0.as_bytes() && is_number(&found.number, &wanted.1)
}

fn are_fields(found: &[Field], wanted: &[Worded]) -> bool {
    if found.len() != wanted.len() {
        return false;
    }
    for (at, field) in found.iter().enumerate() {
        if !is_field(field, &wanted[at]) {
            return false;
        }
    }
    true
}

fn are_groups(found: &[Group], wanted: &[&[Worded]]) -> bool {
    if found.len() != wanted.len() {
        return false;
    }
    for (at, group) in found.iter().enumerate() {
        if !are_fields(group.as_slice(), wanted[at]) {
            return false;
        }
    }
    true
}

/// Whether a value is what a text has to say.
fn is_said(found: &Value, wanted: &Said) -> bool {
    match (found, wanted) {
        (Value::Number(number), Said::Number(wanted)) => is_number(number, wanted),
        (Value::Numbers(numbers), Said::Numbers(wanted)) => are_numbers(numbers.as_slice(), wanted),
        (Value::Groups(groups), Said::Groups(wanted)) => are_groups(groups.as_slice(), wanted),
        _ => false,
    }
}

/// Whether a text says this.
fn says(alloc: Global, text: &str, wanted: &Said) -> bool {
    match parse_value(alloc, text.as_bytes()) {
        Ok(found) => is_said(&found, wanted),
        Err(fault) => fault == ValueFault::BadValue && matches!(wanted, Said::Bad),
    }
}

#[test]
fn values_keep_their_kind_words_and_names(rt: HostRuntime) {
    for (text, wanted) in &VALUES {
        assert!(rt; says(rt.alloc(), text, wanted), "{text}");
    }
}
