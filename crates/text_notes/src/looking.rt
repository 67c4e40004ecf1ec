//! A sink that keeps what a second look at a text is for.

ghost use Rattle.std.specs.Prelude.{◌≡◌, ◌≤◌, ◌++◌, IfOk, OnErr, OnOk, option_to_list, vec_capacity, vec_len};
ghost use Rattle.std.specs.Option.{option_copied, option_map};
ghost use Rattle.dumpi_text.specs.Value.{value_of};
ghost use Rattle.text_notes.specs.Looks.{greater, is_world, is_world_name, natural_of, natural_value, nothing_looked, size_of, tells_size, value_in, wanted_site, with_local};
ghost use Rattle.text_notes.specs.Noted.{counted, is_local};

use crate::arguments::{CallTold, call_told, push_told};
use crate::function::{UnreadFunction, place_of};
use crate::look::Look;
use crate::site::{CallSite, site_of};
use call_arguments::LastTold;
use dumpi_calls::{Memory, RawSink};
use dumpi_text::{NumName, RawCall, Value, ValueFault, parse_value};
use mpi_model::Call;
use std::alloc::{AllocError, Global};
use std::collections::BTreeSet;
use std::marker::Model;

/// What a second look keeps of the calls of a text.
#[derive(Drop)]
pub(crate) struct Looking<'a> {
    wanted: &'a BTreeSet<u64>,
    limit: u64,
    calls: u64,
    sites: Vec<CallSite>,
    local: Vec<UnreadFunction>,
    size: Option<u64>,
    arguments: Vec<CallTold>,
    last: LastTold,
}

impl<'a> Model for Looking<'a> {
    ghost use Rattle.text_notes.specs.Looks.{LookState};

    ghost Value = { LookState };

    ghost view = { λ l. record { wanted = l.wanted.now; limit = l.limit; calls = l.calls; told = record { sites = l.sites.items; local = l.local.items; size = l.size; arguments = l.arguments.items } } };
}

impl<'a> Looking<'a> {
    /// A sink that has looked at no call.
    pub fn new(alloc: Global, wanted: &'a BTreeSet<u64>, limit: u64) -> Looking<'a>
        ensures { result ≡ nothing_looked wanted.now limit }
    {
        Looking {
            wanted,
            limit,
            calls: 0,
            sites: Vec::new(alloc),
            local: Vec::new(alloc),
            size: None,
            arguments: Vec::new(alloc),
            last: LastTold::new(alloc),
        }
    }

    /// What the calls tell.
    pub fn into_look(self) -> Look
        ensures { result ≡ self.entry.told }
    {
        let Looking {
            sites,
            local,
            size,
            arguments,
            ..
        } = self;
        Look {
            sites,
            local,
            size,
            arguments,
        }
    }
}

/// Whether no other rank can have to do with the call.
pub(crate) fn is_local(call: &Call) -> bool
    ensures { result ≡ is_local call.now }
{
    matches!(call, Call::Local)
}

/// Whether the note of a number names MPI_COMM_WORLD.
fn is_world_name(name: NumName) -> bool
    ensures { result ≡ is_world_name name }
{
    matches!(name, NumName::CommWorld)
}

/// A number from 0 on.
fn natural_of(value: i64) -> Option<u64>
    ensures { result ≡ natural_of value }
{
    if value >= 0 { Some(value as u64) } else { None }
}

/// Whether a value is MPI_COMM_WORLD by its name.
fn is_world(value: Option<Value>) -> bool
    ensures { result ≡ is_world value }
{
    match value {
        Some(Value::Number(number)) => is_world_name(number.name),
        Some(Value::Numbers(_)) => false,
        Some(Value::Groups(_)) => false,
        None => false,
    }
}

/// The number from 0 on that a value is.
fn natural_value(value: Option<Value>) -> Option<u64>
    ensures { result ≡ natural_value value }
{
    match value {
        Some(Value::Number(number)) => natural_of(number.value),
        Some(Value::Numbers(_)) => None,
        Some(Value::Groups(_)) => None,
        None => None,
    }
}

/// What a text says, where it is a value.
fn parsed(alloc: Global, text: &[u8]) -> Result<Option<Value>, Memory>
    ensures { IfOk result (λ value. value ≡ value_of text.now) }
{
    match parse_value(alloc, text) {
        Ok(value) => Ok(Some(value)),
        Err(ValueFault::BadValue) => Ok(None),
        Err(ValueFault::Memory) => Err(Memory),
    }
}

/// What a parameter of a call says.
fn value_in(alloc: Global, name: &str, raw: &RawCall) -> Result<Option<Value>, Memory>
    ensures { IfOk result (λ value. value ≡ value_in name.now raw.now) }
{
    match raw.param(name.as_bytes()) {
        Some(text) => parsed(alloc, text),
        None => Ok(None),
    }
}

/// Whether it is a returned MPI_Comm_size of MPI_COMM_WORLD (MPI 4.0, 7.4.1).
fn tells_size(alloc: Global, raw: &RawCall) -> Result<bool, Memory>
    ensures { IfOk result (λ tells. tells ≡ tells_size raw.now) }
{
    if raw.exit().is_none() || raw.name() != b"MPI_Comm_size".as_slice() {
        return Ok(false);
    }
    Ok(is_world(value_in(alloc, "comm", raw)?))
}

/// The size of the world that a call tells.
pub(crate) fn size_of(alloc: Global, raw: &RawCall) -> Result<Option<u64>, Memory>
    ensures { IfOk result (λ size. size ≡ size_of raw.now) }
{
    if tells_size(alloc, raw)? {
        Ok(natural_value(value_in(alloc, "size", raw)?))
    } else {
        Ok(None)
    }
}

/// The greater of two sizes, where both are told.
pub(crate) fn greater(one: Option<u64>, other: Option<u64>) -> Option<u64>
    ensures { result ≡ greater one other }
{
    match (one, other) {
        (None, other) => other,
        (Some(n), None) => Some(n),
        (Some(n), Some(m)) => Some(n.max(m)),
    }
}

/// Where a call was made, if it is wanted.
pub(crate) fn site_where(
    alloc: Global,
    wanted: &BTreeSet<u64>,
    number: u64,
    raw: &RawCall,
) -> Result<Option<CallSite>, AllocError>
    ensures { IfOk result (λ site. site ≡ wanted_site wanted.now number raw.now) }
{
    if wanted.contains(&number) {
        Ok(Some(site_of(alloc, number, raw)?))
    } else {
        Ok(None)
    }
}

/// One call more of a function.
fn count_call(
    functions: &mut Vec<UnreadFunction>,
    name: &[u8],
    number: u64,
) -> Result<(), AllocError>
    ensures ok { OnOk result (functions.new.items ≡ counted number 1 name.now functions.old.items) }
    ensures err { OnErr result (functions.new.items ≡ functions.old.items) }
{
    match place_of(functions, name) {
        Some(at) => {
            functions[at].add(1);
            Ok(())
        }
        None => {
            let function = UnreadFunction::new(*functions.allocator(), name, number, 1)?;
            functions.push(function)?;
            Ok(())
        }
    }
}

/// One call more of its function, where it is local and its number below the limit.
fn count_local(
    functions: &mut Vec<UnreadFunction>,
    limit: u64,
    number: u64,
    raw: &RawCall,
    call: &Call,
) -> Result<(), AllocError>
    ensures ok { OnOk result (functions.new.items ≡ with_local limit number (raw.now, call.now) functions.old.items) }
    ensures err { OnErr result (functions.new.items ≡ functions.old.items) }
{
    if number < limit && is_local(call) {
        count_call(functions, raw.name(), number)
    } else {
        Ok(())
    }
}

/// Adds a call site, where there is one.
pub(crate) fn push_site(sites: &mut Vec<CallSite>, site: Option<CallSite>) -> Result<(), AllocError>
    ensures ok { OnOk result (sites.new.items ≡ sites.old.items ++ option_to_list site) }
    ensures full { OnErr result (vec_capacity sites.old ≤ vec_len sites.old) }
{
    if let Some(site) = site {
        sites.push(site)?;
    }
    Ok(())
}

impl<'a> Looking<'a> {
    ghost use Rattle.text_notes.specs.Looks.{looked};

    /// Keeps what a call tells. Where memory is refused, it is as it was.
    #[tactic(auto, using(crate::proofs::Looked::looked_so))]
    fn keep(&mut self, raw: &RawCall, call: &Call) -> Result<(), Memory>
        ensures ok { OnOk result (self.new ≡ looked self.old raw.now call.now) }
        ensures err { OnErr result (self.new ≡ self.old) }
    {
        let alloc = *self.sites.allocator();
        self.sites.reserve(1)?;
        self.arguments.reserve(1)?;
        let size = size_of(alloc, raw)?;
        let site = site_where(alloc, self.wanted, self.calls, raw)?;
        let told = call_told(alloc, &mut self.last, self.calls, raw, call)?;
        count_local(&mut self.local, self.limit, self.calls, raw, call)?;
        push_site(&mut self.sites, site)?;
        push_told(&mut self.arguments, told)?;
        self.size = greater(self.size, size);
        self.calls = self.calls.saturating_add(1);
        Ok(())
    }
}

impl<'a> RawSink for Looking<'a> {
    ghost use Rattle.text_notes.specs.Looks.{looking};

    type Fault = Memory;

    ghost step = { looking };

    fn on_call(&mut self, raw: &RawCall, call: Call) -> Result<(), Memory> {
        self.keep(raw, &call)
    }
}
