//! What each parameter of a call says: numbers, and the ranks, tags and communicators that they name.
//!
//! A name that a number's note gives wins over the number where the parameter knows it; where none decides, -1 and -2
//! stand for what has no rank. That choice is this project's own, and no constant of `dumpi2ascii`.

ghost use Rattle.std.specs.Prelude.{◌≡◌, ◌∷◌, ◌<◌, ◌^◌, [], IfOk, IfSome, OnOk, true};
ghost use Rattle.dumpi_text.specs.Value.{value_of};
ghost use Rattle.mpi_model.specs.Ranges.{IsAskedTag, IsComm, IsNamedAs, IsRootOf, IsSource, IsTarget};
ghost use Rattle.mpi_model.specs.Kinds.{has_root, row};
ghost use Rattle.std.specs.Option.{option_copied};
ghost use Rattle.dumpi_calls.specs.Readings.{AreThere, Reads, all_numbers, asked_tag_by, asked_tag_in, comm_by, comm_in, dest_by, dest_in, first_object, named_in, number_in, object_by, object_from, object_in, object_parameters, numbers_in, one_number, or_wrong, requests_in, non_negative, non_negative_in, request_by, request_in, requests_of, root_by, root_in, root_named, source_by, source_in, text_of, value_in};

use crate::parameter::{CallFault, Parameter};
use crate::quick::quick_number;
use dumpi_text::{Num, NumName, Nums, RawCall, Value, ValueFault, parse_value};
use mpi_model::{CommRef, Kind, NULL_REQUEST, Object, ObjectParameter, Peer, Requests};
use std::alloc::{AllocError, Global};

/// The text of a parameter.
#[inline(always)]
#[tactic(auto, unfolding(crate::specs::Readings::text_of))]
pub fn text_in(raw: &RawCall, parameter: Parameter) -> Option<&[u8]>
    ensures { option_copied result ≡ text_of parameter raw.now }
{
    raw.param(parameter.name().as_bytes())
}

/// The value of a parameter, by its text.
fn value_by(alloc: Global, parameter: Parameter, text: &[u8]) -> Result<Value, CallFault>
    ensures { Reads result (or_wrong parameter (value_of text.now)) }
{
    match parse_value(alloc, text) {
        Ok(value) => Ok(value),
        Err(ValueFault::BadValue) => Err(CallFault::Wrong(parameter)),
        Err(ValueFault::Memory) => Err(CallFault::Memory),
    }
}

/// The value of a parameter.
fn value(alloc: Global, raw: &RawCall, parameter: Parameter) -> Result<Value, CallFault>
    ensures means { Reads result (value_in parameter raw.now) }
    ensures there { OnOk result (AreThere (parameter ∷ []) raw.now) }
{
    match text_in(raw, parameter) {
        None => Err(CallFault::Missing(parameter)),
        Some(text) => value_by(alloc, parameter, text),
    }
}

/// The number of a value that is one number, or a list of exactly one.
fn one(value: Value) -> Option<Num>
    ensures { result ≡ one_number value }
{
    match value {
        Value::Number(number) => Some(number),
        Value::Numbers(numbers) => match numbers.as_slice() {
            [number] => Some(*number),
            _ => None,
        },
        Value::Groups(_) => None,
    }
}

/// The number that a parameter is. [`CallFault`] says that the parameter isn't there or is wrong, or that memory is
/// refused.
#[inline(always)]
#[tactic(auto, unfolding(crate::specs::Readings::number_in))]
pub fn number(alloc: Global, raw: &RawCall, parameter: Parameter) -> Result<Num, CallFault>
    ensures means { Reads result (number_in parameter raw.now) }
    ensures there { OnOk result (AreThere (parameter ∷ []) raw.now) }
{
    match text_in(raw, parameter) {
        None => Err(CallFault::Missing(parameter)),
        Some(text) => match quick_number(text) {
            Some(number) => Ok(number),
            None => match one(value_by(alloc, parameter, text)?) {
                Some(number) => Ok(number),
                None => Err(CallFault::Wrong(parameter)),
            },
        },
    }
}

/// A count or a tag of a send: 0 to 2^31 - 1. [`CallFault`] says that the parameter isn't there or is wrong, or that
/// memory is refused.
#[tactic(auto, unfolding(crate::specs::Readings::non_negative_in))]
pub fn non_negative(alloc: Global, raw: &RawCall, parameter: Parameter) -> Result<u32, CallFault>
    ensures means { Reads result (non_negative_in parameter raw.now) }
    ensures there { OnOk result (AreThere (parameter ∷ []) raw.now) }
    ensures range { IfOk result (λ n. n < 2 ^ 31) }
{
    let number = number(alloc, raw, parameter)?;
    match non_negative_of(number.value) {
        Some(count) => Ok(count),
        None => Err(CallFault::Wrong(parameter)),
    }
}

/// The tag that a receive asks for; `None` is any tag (MPI 4.0, 3.2.4). [`CallFault`] says that the parameter isn't
/// there or is wrong, or that memory is refused.
#[tactic(auto, unfolding(crate::specs::Readings::asked_tag_in))]
pub fn asked_tag(
    alloc: Global,
    raw: &RawCall,
    parameter: Parameter,
) -> Result<Option<u32>, CallFault>
    ensures means { Reads result (asked_tag_in parameter raw.now) }
    ensures there { OnOk result (AreThere (parameter ∷ []) raw.now) }
    ensures range { IfOk result IsAskedTag }
{
    let number = number(alloc, raw, parameter)?;
    match asked_tag_of(number) {
        Some(tag) => Ok(tag),
        None => Err(CallFault::Wrong(parameter)),
    }
}

/// The destination of a send: a rank of the group, or the null process. [`CallFault`] says that the parameter isn't
/// there or is wrong, or that memory is refused.
#[tactic(auto, unfolding(crate::specs::Readings::dest_in))]
pub fn dest(alloc: Global, raw: &RawCall) -> Result<Peer, CallFault>
    ensures means { Reads result (dest_in raw.now) }
    ensures there { OnOk result (AreThere (Parameter.Dest ∷ []) raw.now) }
    ensures range { IfOk result IsTarget }
{
    let number = number(alloc, raw, Parameter::Dest)?;
    match dest_of(number) {
        Some(peer) => Ok(peer),
        None => Err(CallFault::Wrong(Parameter::Dest)),
    }
}

/// The source that a receive names: a rank of the group, any, or the null process. [`CallFault`] says that the
/// parameter isn't there or is wrong, or that memory is refused.
#[tactic(auto, unfolding(crate::specs::Readings::source_in))]
pub fn source(alloc: Global, raw: &RawCall) -> Result<Peer, CallFault>
    ensures means { Reads result (source_in raw.now) }
    ensures there { OnOk result (AreThere (Parameter.Source ∷ []) raw.now) }
    ensures range { IfOk result IsSource }
{
    let number = number(alloc, raw, Parameter::Source)?;
    match source_of(number) {
        Some(peer) => Ok(peer),
        None => Err(CallFault::Wrong(Parameter::Source)),
    }
}

/// The root that a call of a kind with a root names.
#[tactic(auto, unfolding(crate::specs::Readings::root_named))]
fn named_root(alloc: Global, raw: &RawCall) -> Result<Option<u32>, CallFault>
    ensures means { Reads result (root_named raw.now) }
    ensures there { OnOk result (AreThere (Parameter.Root ∷ []) raw.now) }
    ensures range { IfOk result IsAskedTag }
{
    let number = number(alloc, raw, Parameter::Root)?;
    match root_of(number) {
        Some(root) => Ok(root),
        None => Err(CallFault::Wrong(Parameter::Root)),
    }
}

/// The root of a call of this kind: a rank of its group, or `None` if the kind has no root or the call names no rank.
/// [`CallFault`] says that the parameter isn't there or is wrong, or that memory is refused.
pub fn root(alloc: Global, kind: Kind, raw: &RawCall) -> Result<Option<u32>, CallFault>
    ensures means { Reads result (root_in kind raw.now) }
    ensures there { OnOk result (has_root kind ≡ true → AreThere (Parameter.Root ∷ []) raw.now) }
    ensures range { IfOk result (IsRootOf kind) }
{
    if kind.has_root() {
        named_root(alloc, raw)
    } else {
        Ok(None)
    }
}

/// The communicator that a call names. [`CallFault`] says that the parameter isn't there or is wrong, or that memory is
/// refused.
#[tactic(auto, unfolding(crate::specs::Readings::comm_in))]
pub fn comm(alloc: Global, raw: &RawCall) -> Result<CommRef, CallFault>
    ensures means { Reads result (comm_in raw.now) }
    ensures there { OnOk result (AreThere (Parameter.Comm ∷ []) raw.now) }
    ensures range { IfOk result IsComm }
{
    let number = number(alloc, raw, Parameter::Comm)?;
    match comm_of(number) {
        Some(comm) => Ok(comm),
        None => Err(CallFault::Wrong(Parameter::Comm)),
    }
}

/// The object of a sort that `comm` names. [`CallFault`] says that the parameter isn't there or is wrong, or that
/// memory is refused.
#[tactic(auto, unfolding(crate::specs::Readings::named_in))]
pub fn named_object(alloc: Global, object: Object, raw: &RawCall) -> Result<CommRef, CallFault>
    ensures means { Reads result (named_in object raw.now) }
    ensures there { OnOk result (AreThere (Parameter.Comm ∷ []) raw.now) }
    ensures range { IfOk result (λ comm. IsComm comm × IsNamedAs object comm) }
{
    let number = number(alloc, raw, Parameter::Comm)?;
    match object_of(object, number) {
        Some(comm) => Ok(comm),
        None => Err(CallFault::Wrong(Parameter::Comm)),
    }
}

/// The object of a sort that a parameter names, where it can be read.
fn object_by(
    alloc: Global,
    object: Object,
    parameter: Parameter,
    raw: &RawCall,
) -> Result<Option<CommRef>, AllocError>
    ensures value { IfOk result (λ comm. comm ≡ object_from object (number_in parameter raw.now)) }
    ensures range { IfOk result (λ found. IfSome found (λ comm. IsComm comm × IsNamedAs object comm)) }
{
    match number(alloc, raw, parameter) {
        Ok(number) => Ok(object_of(object, number)),
        Err(CallFault::Memory) => Err(AllocError),
        Err(_) => Ok(None),
    }
}

/// The object of a sort by the first of these parameters that the call has: it decides also where it can't be read.
fn first_object(
    alloc: Global,
    object: Object,
    parameters: &[Parameter],
    raw: &RawCall,
) -> Result<Option<CommRef>, AllocError>
    ensures value { IfOk result (λ comm. comm ≡ first_object object parameters.now raw.now) }
    ensures range { IfOk result (λ found. IfSome found (λ comm. IsComm comm × IsNamedAs object comm)) }
{
    for parameter in parameters {
        if text_in(raw, *parameter).is_some() {
            return object_by(alloc, object, *parameter, raw);
        }
    }
    Ok(None)
}

/// The parameters that may name an object.
pub(crate) fn object_parameters(parameter: ObjectParameter) -> &'static [Parameter]
    ensures { result.now ≡ object_parameters parameter }
{
    match parameter {
        ObjectParameter::Comm => &[Parameter::Comm],
        ObjectParameter::OldComm => &[Parameter::OldComm, Parameter::Comm],
        ObjectParameter::CommOld => &[Parameter::OldComm, Parameter::CommOld, Parameter::Comm],
        ObjectParameter::LocalComm => &[Parameter::LocalComm],
        ObjectParameter::Intercomm => &[Parameter::Intercomm],
        ObjectParameter::Win => &[Parameter::Win],
        ObjectParameter::File => &[Parameter::Fh, Parameter::File],
    }
}

/// The object that a call of a kind names, where it can be read. Fails with `AllocError` when memory is refused.
#[tactic(auto, unfolding(crate::specs::Readings::object_in))]
pub fn object(alloc: Global, kind: Kind, raw: &RawCall) -> Result<Option<CommRef>, AllocError>
    ensures value { IfOk result (λ comm. comm ≡ object_in kind raw.now) }
    ensures range { IfOk result (λ found. IfSome found (λ comm. IsComm comm × IsNamedAs (row kind).object comm)) }
{
    let row = kind.row();
    first_object(alloc, row.object, object_parameters(row.parameter), raw)
}

/// The request that a number names; a note `MPI_REQUEST_NULL` names the null request.
pub fn request_of(number: Num) -> i64
    ensures { result ≡ request_by number.name number.value }
{
    if number.name == NumName::RequestNull {
        NULL_REQUEST
    } else {
        number.value
    }
}

/// The request that a call names. [`CallFault`] says that the parameter isn't there or is wrong, or that memory is
/// refused.
#[tactic(auto, unfolding(crate::specs::Readings::request_in))]
pub fn request(alloc: Global, raw: &RawCall) -> Result<i64, CallFault>
    ensures means { Reads result (request_in raw.now) }
    ensures there { OnOk result (AreThere (Parameter.Request ∷ []) raw.now) }
{
    let number = number(alloc, raw, Parameter::Request)?;
    Ok(request_of(number))
}

/// The requests that numbers name.
fn named(alloc: Global, numbers: &[Num]) -> Result<Vec<i64>, AllocError>
    ensures { IfOk result (λ v. v.items ≡ requests_of numbers.now) }
{
    let mut named = Vec::with_capacity(alloc, numbers.len())?;
    for number in numbers {
        named.push(request_of(*number))?;
    }
    Ok(named)
}

/// The numbers of a value that is a list of numbers, or one number. Fails with `AllocError` when memory is refused.
pub fn listed(alloc: Global, value: Value) -> Result<Option<Nums>, AllocError>
    ensures { IfOk result (λ n. n ≡ all_numbers value) }
{
    match value {
        Value::Number(number) => {
            let mut numbers = Vec::with_capacity(alloc, 1)?;
            numbers.push(number)?;
            Ok(Some(Nums::from_vec(numbers)))
        }
        Value::Numbers(numbers) => Ok(Some(numbers)),
        Value::Groups(_) => Ok(None),
    }
}

/// The numbers that a parameter lists.
#[tactic(auto, unfolding(crate::specs::Readings::numbers_in))]
fn number_list(alloc: Global, raw: &RawCall, parameter: Parameter) -> Result<Nums, CallFault>
    ensures means { Reads result (numbers_in parameter raw.now) }
    ensures there { OnOk result (AreThere (parameter ∷ []) raw.now) }
{
    match listed(alloc, value(alloc, raw, parameter)?)? {
        Some(numbers) => Ok(numbers),
        None => Err(CallFault::Wrong(parameter)),
    }
}

/// The requests that a call lists, in its order. [`CallFault`] says that the parameter isn't there or is wrong, or that
/// memory is refused.
#[tactic(auto, unfolding(crate::specs::Readings::requests_in))]
pub fn requests(alloc: Global, raw: &RawCall) -> Result<Requests, CallFault>
    ensures means { Reads result (requests_in raw.now) }
    ensures there { OnOk result (AreThere (Parameter.Requests ∷ []) raw.now) }
{
    let numbers = number_list(alloc, raw, Parameter::Requests)?;
    Ok(Requests::from_vec(named(alloc, numbers.as_slice())?))
}

/// The destination that a number says; the name in its note decides first.
pub fn dest_of(number: Num) -> Option<Peer>
    ensures value { result ≡ dest_by number.name number.value }
    ensures range { IfSome result IsTarget }
{
    if number.name == NumName::ProcNull {
        return Some(Peer::Null);
    }
    match number.value {
        -2 | -1 => Some(Peer::Null),
        value => Some(Peer::Rank(non_negative_of(value)?)),
    }
}

/// The source that a number says; the name in its note decides first.
pub fn source_of(number: Num) -> Option<Peer>
    ensures value { result ≡ source_by number.name number.value }
    ensures range { IfSome result IsSource }
{
    match (number.name, number.value) {
        (NumName::AnySource, _) => Some(Peer::Any),
        (NumName::ProcNull, _) => Some(Peer::Null),
        (_, -1) => Some(Peer::Any),
        (_, -2) => Some(Peer::Null),
        (_, value) => Some(Peer::Rank(non_negative_of(value)?)),
    }
}

/// The tag that a receive asks for by a number; `None` is any tag.
pub fn asked_tag_of(number: Num) -> Option<Option<u32>>
    ensures value { result ≡ asked_tag_by number.name number.value }
    ensures range { IfSome result IsAskedTag }
{
    if number.name == NumName::AnyTag || number.value == -1 {
        return Some(None);
    }
    Some(Some(non_negative_of(number.value)?))
}

/// The root that a number says; the name in its note decides first. It is `None` if it is no rank of the call's group.
pub fn root_of(number: Num) -> Option<Option<u32>>
    ensures value { result ≡ root_by number.name number.value }
    ensures range { IfSome result IsAskedTag }
{
    if number.name == NumName::Root || number.name == NumName::ProcNull || number.value < 0 {
        return Some(None);
    }
    Some(Some(non_negative_of(number.value)?))
}

/// The communicator that a number says; the name in its note decides first.
pub fn comm_of(number: Num) -> Option<CommRef>
    ensures value { result ≡ comm_by number.name number.value }
    ensures range { IfSome result IsComm }
{
    if number.name == NumName::CommWorld {
        return Some(CommRef::World);
    }
    Some(CommRef::Id(non_negative_of(number.value)?))
}

/// The object of a sort that a number says. For a communicator the name in the note decides first; for a window or a
/// file the number alone.
pub fn object_of(object: Object, number: Num) -> Option<CommRef>
    ensures value { result ≡ object_by object number.name number.value }
    ensures range { IfSome result (λ comm. IsComm comm × IsNamedAs object comm) }
{
    match object {
        Object::Communicator => comm_of(number),
        Object::Window | Object::File => Some(CommRef::Id(non_negative_of(number.value)?)),
    }
}

/// A number from 0 to 2^31 - 1, the non-negative values of an `int`.
pub fn non_negative_of(value: i64) -> Option<u32>
    ensures value { result ≡ non_negative value }
    ensures range { IfSome result (λ n. n < 2 ^ 31) }
{
    if 0 <= value && value < 0x8000_0000 {
        Some(value as u32)
    } else {
        None
    }
}
