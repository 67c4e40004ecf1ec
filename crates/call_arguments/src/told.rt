//! What a call tells of the arguments that are compared.

ghost use Rattle.std.specs.Prelude.{◌≡◌, IfOk, option_and_then, option_map};
ghost use Rattle.std.specs.Option.{option_copied};
ghost use Rattle.dumpi_text.specs.Value.{value_of};
ghost use Rattle.call_arguments.specs.Counts.{counts_in};
ghost use Rattle.call_arguments.specs.Names.{name_in};
ghost use Rattle.call_arguments.specs.Told.{counted_as, counts_of, first_of, members_counts, operation_of, roots_counts, told_by, told_of, value_by};

use crate::count::counts_in;
use crate::known::{Known, Told};
use crate::name::{name_in, parsed};
use crate::table::{Compared, Parameters, Rule, compared_of};
use dumpi_text::RawCall;
use mpi_model::Kind;
use std::alloc::{AllocError, Global};

/// The first of two values that is there.
fn first_of<'a>(one: Option<&'a [u8]>, other: Option<&'a [u8]>) -> Option<&'a [u8]>
    ensures { option_copied result ≡ first_of (option_copied one.entry) (option_copied other.entry) }
{
    match one {
        Some(value) => Some(value),
        None => other,
    }
}

/// The value of the first of two names that the call has.
fn value_by<'a>(raw: &'a RawCall, name: &[u8], other: &[u8]) -> Option<&'a [u8]>
    ensures { option_copied result ≡ value_by name.now other.now raw.now }
{
    first_of(raw.param(name), raw.param(other))
}

/// The name that a text gives a datatype or an operation, where there is a text.
fn name_of(alloc: Global, text: Option<&[u8]>) -> Result<Option<Vec<u8>>, AllocError>
    ensures { IfOk result (λ name. option_map (λ n. n.items) name ≡ option_and_then name_in (option_copied text.entry)) }
{
    match text {
        Some(text) => name_in(alloc, text),
        None => Ok(None),
    }
}

/// The counts that a text tells, where there is one.
fn counts_told(
    alloc: Global,
    list: bool,
    text: Option<&[u8]>,
) -> Result<Option<Vec<u64>>, AllocError>
    ensures { IfOk result (λ counts. option_map (λ c. c.items) counts ≡ option_and_then (λ t. counts_in list (value_of t)) (option_copied text.entry)) }
{
    match text {
        Some(text) => {
            let value = parsed(alloc, text)?;
            counts_in(alloc, list, value)
        }
        None => Ok(None),
    }
}

/// Counts with their datatype, where both are known.
fn both(name: Option<Vec<u8>>, counts: Option<Vec<u64>>) -> Option<Known>
    ensures { result ≡ option_and_then (λ n. option_map (counted_as n) (option_map (λ c. c.items) counts)) (option_map (λ n. n.items) name) }
{
    match name {
        Some(name) => match counts {
            Some(counts) => Some(Known::new(name, counts)),
            None => None,
        },
        None => None,
    }
}

/// The counts that these parameters tell, known where their datatype is.
fn counts_of(alloc: Global, p: Parameters, raw: &RawCall) -> Result<Option<Known>, AllocError>
    ensures { IfOk result (λ known. known ≡ counts_of p raw.now) }
{
    let name = name_of(alloc, value_by(raw, p.type_name(), p.other_type_name()))?;
    let text = value_by(raw, p.count_name(), p.other_count_name());
    let counts = counts_told(alloc, p.is_list(), text)?;
    Ok(both(name, counts))
}

/// The operation, where the call has one.
fn operation_of(alloc: Global, has: bool, raw: &RawCall) -> Result<Option<Known>, AllocError>
    ensures { IfOk result (λ known. known ≡ operation_of has raw.now) }
{
    if !has {
        return Ok(None);
    }
    let name = name_of(alloc, raw.param(b"op"))?;
    Ok(both(name, Some(Vec::new(alloc))))
}

/// The counts of each member.
fn members_counts(alloc: Global, rule: Rule, raw: &RawCall) -> Result<Option<Known>, AllocError>
    ensures { IfOk result (λ known. known ≡ members_counts rule raw.now) }
{
    match rule {
        Rule::Nothing => Ok(None),
        Rule::Alike(p) => counts_of(alloc, p, raw),
        Rule::Rooted(p, _) => counts_of(alloc, p, raw),
        Rule::Listed(p, _) => counts_of(alloc, p, raw),
    }
}

/// The counts of the root, where they are others.
fn roots_counts(alloc: Global, rule: Rule, raw: &RawCall) -> Result<Option<Known>, AllocError>
    ensures { IfOk result (λ known. known ≡ roots_counts rule raw.now) }
{
    match rule {
        Rule::Nothing => Ok(None),
        Rule::Alike(_) => Ok(None),
        Rule::Rooted(_, p) => counts_of(alloc, p, raw),
        Rule::Listed(_, p) => counts_of(alloc, p, raw),
    }
}

/// What a call tells, by what is compared of it.
fn told_by(alloc: Global, compared: Compared, raw: &RawCall) -> Result<Told, AllocError>
    ensures { IfOk result (λ told. told ≡ told_by compared raw.now) }
{
    let operation = operation_of(alloc, compared.operation, raw)?;
    let counts = members_counts(alloc, compared.counts, raw)?;
    let at_root = roots_counts(alloc, compared.counts, raw)?;
    Ok(Told::new(operation, counts, at_root))
}

/// What a collective call of this kind tells of the arguments that are compared: its parameters are those of the text.
pub fn told_of(alloc: Global, kind: Kind, raw: &RawCall) -> Result<Told, AllocError>
    ensures { IfOk result (λ told. told ≡ told_of kind raw.now) }
{
    told_by(alloc, compared_of(kind), raw)
}
