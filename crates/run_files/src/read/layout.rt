//! The layout of a run, as its file tells it.

ghost use Rattle.std.specs.Prelude.{◌≡◌, IfErr, IfOk, codes, option_and_then, option_map};
ghost use Rattle.serde_json.specs.Find.{as_array, as_str, get};
ghost use Rattle.serde_json.specs.View.{items_view, view};
ghost use Rattle.run_files.specs.Fields.{u32s_in};
ghost use Rattle.run_files.specs.Layouts.{IsLayoutOf, RefusesLayout, alone, communicator_in, communicators_in, groups_in, joined, object_in, object_named, parts_in, plain, sends_named, unreadable_field, with_second};

use crate::fault::{Field, InputFault};
use crate::read::fields::{list_at, str_at, u32_at, u32s_of, value_of};
use crate::read::numbers::numbers_at;
use mpi_model::{Comm, Layout, LayoutFault, Object, Sends};
use serde_json::Value;
use std::alloc::{AllocError, Global};
use std::marker::Model;

/// The layout that a text is: [`InputFault::Json`], then [`InputFault::Shape`], then the first rule
/// of layouts that is broken.
pub fn layout_of(alloc: Global, text: &[u8]) -> Result<Layout, InputFault>
    ensures ok { IfOk result (λ l. IsLayoutOf text.now l) }
    ensures err { IfErr result (RefusesLayout text.now) }
{
    let value = value_of(alloc, text)?;
    let Some(given) = given_in(alloc, &value)? else {
        return Err(InputFault::Shape(unreadable_field(&value)));
    };
    match Layout::of_comms(alloc, given.ranks, given.world, given.comms, given.sends) {
        Ok(layout) => Ok(layout),
        Err(fault) => match fault {
            LayoutFault::Memory => Err(InputFault::Memory),
            broken => Err(InputFault::Layout(broken)),
        },
    }
}

/// The fields of a layout, its communicators in the order of the file.
#[derive(Drop)]
struct Given {
    ranks: u32,
    world: u32,
    sends: Sends,
    comms: Vec<Comm>,
}

impl Model for Given {
    ghost use Rattle.mpi_model.specs.Layouts.{Parts};

    ghost Value = { Parts };

    ghost view = { λ g. record { ranks = g.ranks; world = g.world; sends = g.sends; comms = g.comms.items } };
}

/// The fields of a layout, its communicators in the order of the file.
fn given_in(alloc: Global, value: &Value) -> Result<Option<Given>, AllocError>
    ensures { IfOk result (λ o. o ≡ parts_in (view value.now)) }
{
    let Some(ranks) = u32_at(value, "ranks") else {
        return Ok(None);
    };
    let Some(world) = u32_at(value, "world") else {
        return Ok(None);
    };
    let Some(sends) = sends_at(value, "sends") else {
        return Ok(None);
    };
    let Some(values) = list_at(value, "comms") else {
        return Ok(None);
    };
    match communicators_of(alloc, values)? {
        Some(comms) => Ok(Some(Given {
            ranks,
            world,
            sends,
            comms,
        })),
        None => Ok(None),
    }
}

/// The first field that can't be read of a layout of which one can't.
fn unreadable_field(value: &Value) -> Field
    ensures { result ≡ unreadable_field (view value.now) }
{
    let Some(_) = u32_at(value, "ranks") else {
        return Field::Ranks;
    };
    let Some(_) = u32_at(value, "world") else {
        return Field::World;
    };
    match sends_at(value, "sends") {
        Some(_) => Field::Comms,
        None => Field::Sends,
    }
}

/// How sends of standard mode complete, by the word that a field holds: `wait` or `buffer`.
fn sends_at(value: &Value, name: &str) -> Option<Sends>
    ensures { result ≡ option_and_then sends_named (option_and_then as_str (get name.now (view value.now))) }
{
    let word = str_at(value, name)?;
    if word == "wait" {
        Some(Sends::Wait)
    } else if word == "buffer" {
        Some(Sends::Buffer)
    } else {
        None
    }
}

/// The communicators of a list, in its order.
fn communicators_of(alloc: Global, values: &[Value]) -> Result<Option<Vec<Comm>>, AllocError>
    ensures { IfOk result (λ o. option_map (λ v. v.items) o ≡ communicators_in (items_view values.now)) }
{
    let mut found = Vec::new(alloc);
    for value in values {
        match communicator_of(alloc, value)? {
            Some(communicator) => found.push(communicator)?,
            None => return Ok(None),
        }
    }
    Ok(Some(found))
}

/// A sort of objects by its word.
fn object_named(word: &str) -> Option<Object>
    ensures { result ≡ object_named word.now }
{
    if word == "communicator" {
        Some(Object::Communicator)
    } else if word == "window" {
        Some(Object::Window)
    } else if word == "file" {
        Some(Object::File)
    } else {
        None
    }
}

/// The sort of an object: a communicator, where no field tells it.
fn object_at(value: &Value) -> Option<Object>
    ensures { result ≡ object_in (get (codes "object") (view value.now)) }
{
    match value.get("object") {
        None => Some(Object::Communicator),
        Some(word) => object_named(word.as_str()?),
    }
}

/// The members of an object, and how many of these, the last ones, are the second group of an
/// intercommunicator.
#[derive(Debug, Drop)]
struct Groups {
    members: Vec<u32>,
    remote_size: usize,
}

/// The groups of an object that has one alone.
fn alone(members: Vec<u32>) -> Groups
    ensures { plain result ≡ alone members.items }
{
    Groups {
        members,
        remote_size: 0,
    }
}

/// Two groups, one behind the other. Where the second is told and has no rank, no member is left, so
/// that [`LayoutFault::EmptyComm`] is the first rule of groups that is broken.
fn joined(alloc: Global, members: Vec<u32>, remote: &[u32]) -> Result<Groups, AllocError>
    ensures { IfOk result (λ g. plain g ≡ joined members.items remote.now) }
{
    if remote.is_empty() {
        return Ok(alone(Vec::new(alloc)));
    }
    let mut members = members;
    members.extend_from_slice(remote)?;
    Ok(Groups {
        members,
        remote_size: remote.len(),
    })
}

/// The ranks that an array lists.
fn ranks_of(alloc: Global, value: &Value) -> Result<Option<Vec<u32>>, AllocError>
    ensures { IfOk result (λ o. option_map (λ v. v.items) o ≡ option_and_then u32s_in (as_array (view value.now))) }
{
    match value.as_array() {
        Some(values) => u32s_of(alloc, values),
        None => Ok(None),
    }
}

/// The groups of a communicator whose second one this value is.
fn with_second(
    alloc: Global,
    members: Vec<u32>,
    value: &Value,
) -> Result<Option<Groups>, AllocError>
    ensures { IfOk result (λ o. option_map plain o ≡ option_map (joined members.items) (option_and_then u32s_in (as_array (view value.now)))) }
{
    match ranks_of(alloc, value)? {
        Some(remote) => Ok(Some(joined(alloc, members, &remote)?)),
        None => Ok(None),
    }
}

/// The groups of an object of these members. Only a communicator has a second one.
fn groups_of(
    alloc: Global,
    object: Object,
    members: Vec<u32>,
    value: &Value,
) -> Result<Option<Groups>, AllocError>
    ensures { IfOk result (λ o. option_map plain o ≡ groups_in object members.items (get (codes "remote") (view value.now))) }
{
    let Some(remote) = value.get("remote") else {
        return Ok(Some(alone(members)));
    };
    match object {
        Object::Communicator => with_second(alloc, members, remote),
        Object::Window | Object::File => Ok(None),
    }
}

/// A communicator, a window or a file: its id, its sort, its members, the other group of an
/// intercommunicator, and by which numbers all of these name it.
fn communicator_of(alloc: Global, value: &Value) -> Result<Option<Comm>, AllocError>
    ensures { IfOk result (λ o. o ≡ communicator_in (view value.now)) }
{
    let Some(id) = u32_at(value, "id") else {
        return Ok(None);
    };
    let Some(object) = object_at(value) else {
        return Ok(None);
    };
    let Some(members) = list_at(value, "members") else {
        return Ok(None);
    };
    let Some(members) = u32s_of(alloc, members)? else {
        return Ok(None);
    };
    let Some(groups) = groups_of(alloc, object, members, value)? else {
        return Ok(None);
    };
    match numbers_at(alloc, value)? {
        Some(numbers) => Ok(Some(Comm {
            id,
            object,
            members: groups.members,
            remote_size: groups.remote_size,
            numbers,
        })),
        None => Ok(None),
    }
}
