//! The manifest that a text is.

ghost use Rattle.std.specs.Prelude.{◌≡◌, IfErr, IfOk, codes, option_map, string_bytes};
ghost use Rattle.serde_json.specs.Find.{get};
ghost use Rattle.run_files.specs.Fields.{bit_in, or_absent};
ghost use Rattle.serde_json.specs.View.{items_view, view};
ghost use Rattle.run_files.specs.Manifests.{IsManifestOf, RefusesManifest, all_packed_in, given_in, is_packed, listed_in, manifest_of, numbers_from, packed_in, piece_in, pieces_in, posts_a_packed, posts_absent, schedule_of, unreadable_field};

use crate::fault::{Field, InputFault};
use crate::manifest::{Manifest, PackedPiece, Piece, PlannedStep};
use crate::read::fields::{
    bit_or_0, bool_or_false, list_at, str_at, u32_at, u64_at, usize_or, value_of,
};
use crate::read::schedule::{posts_packed_of, posts_past_of, renumbered_by, steps_of};
use serde_json::Value;
use std::alloc::{AllocError, Global};
use std::marker::Model;

/// What a manifest lists: its texts, its packed files, and the number of each piece among the texts, none of a packed
/// one.
#[derive(Drop)]
struct Listed {
    pieces: Vec<Piece>,
    packed: Vec<PackedPiece>,
    numbers: Vec<Option<usize>>,
}

impl Model for Listed {
    ghost use Rattle.run_files.specs.Manifests.{ListedParts};

    ghost Value = { ListedParts };

    ghost view = { λ l. record { pieces = l.pieces.items; packed = l.packed.items; numbers = l.numbers.items } };
}

/// The fields of a manifest, whose schedule posts pieces by their numbers in the whole list.
#[derive(Drop)]
struct Given {
    listed: Listed,
    nodes: usize,
    schedule: Vec<PlannedStep>,
}

impl Model for Given {
    ghost use Rattle.run_files.specs.Manifests.{GivenParts};

    ghost Value = { GivenParts };

    ghost view = { λ g. record { listed = g.listed; nodes = g.nodes; schedule = g.schedule.items } };
}

impl Given {
    fn new(listed: Listed, nodes: usize, schedule: Vec<PlannedStep>) -> Given
        ensures { result ≡ record { listed = listed; nodes = nodes; schedule = schedule.items } }
    {
        Given {
            listed,
            nodes,
            schedule,
        }
    }

    /// Whether the schedule posts a piece that isn't listed.
    fn posts_absent(&self) -> bool
        ensures { result ≡ posts_absent self.now }
    {
        posts_past_of(&self.schedule, self.listed.numbers.len())
    }

    /// Whether the schedule posts a packed piece.
    fn posts_a_packed(&self) -> bool
        ensures { result ≡ posts_a_packed self.now }
    {
        posts_packed_of(&self.schedule, &self.listed.numbers)
    }

    /// The manifest of these fields.
    fn into_manifest(self, alloc: Global) -> Result<Manifest, AllocError>
        ensures { IfOk result (λ m. m ≡ manifest_of self) }
    {
        let Given {
            listed,
            nodes,
            schedule,
        } = self;
        let Listed {
            pieces,
            packed,
            numbers,
        } = listed;
        let schedule = renumbered_by(alloc, &schedule, &numbers)?;
        Ok(Manifest::new(pieces, packed, nodes, schedule))
    }
}

/// The manifest that a text is: [`InputFault::Json`], then [`InputFault::Shape`] for any field, then
/// [`InputFault::Piece`], then [`InputFault::Packed`].
pub fn manifest_of(alloc: Global, text: &[u8]) -> Result<Manifest, InputFault>
    ensures ok { IfOk result (λ m. IsManifestOf text.now m) }
    ensures err { IfErr result (RefusesManifest text.now) }
{
    let value = value_of(alloc, text)?;
    let Some(given) = given_in(alloc, &value)? else {
        return Err(InputFault::Shape(unreadable_field(alloc, &value)?));
    };
    if given.posts_absent() {
        return Err(InputFault::Piece);
    }
    if given.posts_a_packed() {
        return Err(InputFault::Packed);
    }
    Ok(given.into_manifest(alloc)?)
}

/// The fields of a manifest: without a number of nodes it has one, and without a schedule no step.
fn given_in(alloc: Global, value: &Value) -> Result<Option<Given>, AllocError>
    ensures { IfOk result (λ o. o ≡ given_in (view value.now)) }
{
    let Some(values) = list_at(value, "pieces") else {
        return Ok(None);
    };
    let Some(listed) = listed_of(alloc, values)? else {
        return Ok(None);
    };
    let Some(nodes) = usize_or(value, "nodes", 1) else {
        return Ok(None);
    };
    let Some(schedule) = schedule_at(alloc, value)? else {
        return Ok(None);
    };
    Ok(Some(Given::new(listed, nodes, schedule)))
}

/// The pieces of a list.
fn listed_of(alloc: Global, values: &[Value]) -> Result<Option<Listed>, AllocError>
    ensures { IfOk result (λ o. o ≡ listed_in (items_view values.now)) }
{
    let Some(pieces) = pieces_of(alloc, values)? else {
        return Ok(None);
    };
    let Some(packed) = all_packed_of(alloc, values)? else {
        return Ok(None);
    };
    let numbers = numbers_of(alloc, values)?;
    Ok(Some(Listed {
        pieces,
        packed,
        numbers,
    }))
}

/// A field that can't be read of a manifest of which one can't.
fn unreadable_field(alloc: Global, value: &Value) -> Result<Field, AllocError>
    ensures { IfOk result (λ field. field ≡ unreadable_field (view value.now)) }
{
    let Some(_) = usize_or(value, "nodes", 1) else {
        return Ok(Field::Nodes);
    };
    match schedule_at(alloc, value)? {
        Some(_) => Ok(Field::Pieces),
        None => Ok(Field::Schedule),
    }
}

/// The steps of the schedule, none where there is no schedule.
fn schedule_at(alloc: Global, value: &Value) -> Result<Option<Vec<PlannedStep>>, AllocError>
    ensures { IfOk result (λ o. option_map (λ v. v.items) o ≡ schedule_of (view value.now)) }
{
    let Some(found) = value.get("schedule") else {
        return Ok(Some(Vec::new(alloc)));
    };
    match found.as_array() {
        Some(steps) => steps_of(alloc, steps.as_slice()),
        None => Ok(None),
    }
}

/// Whether a piece is a packed one.
fn is_packed(value: &Value) -> bool
    ensures { result ≡ is_packed (view value.now) }
{
    value.get("packed").is_some()
}

/// The texts among the pieces.
fn pieces_of(alloc: Global, values: &[Value]) -> Result<Option<Vec<Piece>>, AllocError>
    ensures { IfOk result (λ o. option_map (λ v. v.items) o ≡ pieces_in (items_view values.now)) }
{
    let mut pieces = Vec::new(alloc);
    for value in values {
        if is_packed(value) {
            continue;
        }
        match piece_of(alloc, value)? {
            Some(piece) => pieces.push(piece)?,
            None => return Ok(None),
        }
    }
    Ok(Some(pieces))
}

/// The packed files among the pieces.
fn all_packed_of(alloc: Global, values: &[Value]) -> Result<Option<Vec<PackedPiece>>, AllocError>
    ensures { IfOk result (λ o. option_map (λ v. v.items) o ≡ all_packed_in (items_view values.now)) }
{
    let mut packed = Vec::new(alloc);
    for value in values {
        if !is_packed(value) {
            continue;
        }
        let Some(piece) = packed_of(alloc, value)? else {
            return Ok(None);
        };
        packed.push(piece)?;
    }
    Ok(Some(packed))
}

/// The number of each piece among the texts, none of a packed one.
fn numbers_of(alloc: Global, values: &[Value]) -> Result<Vec<Option<usize>>, AllocError>
    ensures { IfOk result (λ v. v.items ≡ numbers_from 0 (items_view values.now)) }
{
    let mut numbers = Vec::new(alloc);
    let mut texts = 0;
    for value in values {
        if is_packed(value) {
            numbers.push(None)?;
        } else {
            numbers.push(Some(texts))?;
            texts += 1;
        }
    }
    Ok(numbers)
}

/// The node whose piece it is, 0 where it names none.
fn node_of(value: &Value) -> Option<u8>
    ensures { result ≡ or_absent 0 bit_in (get (codes "node") (view value.now)) }
{
    bit_or_0(value, "node")
}

/// The text that a piece of the manifest names.
fn piece_of(alloc: Global, value: &Value) -> Result<Option<Piece>, AllocError>
    ensures { IfOk result (λ o. o ≡ piece_in (view value.now)) }
{
    let Some(rank) = u32_at(value, "rank") else {
        return Ok(None);
    };
    let Some(first) = u64_at(value, "first") else {
        return Ok(None);
    };
    let Some(file) = str_at(value, "file") else {
        return Ok(None);
    };
    let Some(node) = node_of(value) else {
        return Ok(None);
    };
    let Some(worker) = bit_or_0(value, "worker") else {
        return Ok(None);
    };
    let Some(cut) = bool_or_false(value, "cut") else {
        return Ok(None);
    };
    let file = file.to_string(alloc)?;
    Ok(Some(Piece::new(rank, first, file, (node, worker), cut)))
}

/// The packed file that a piece of the manifest names.
fn packed_of(alloc: Global, value: &Value) -> Result<Option<PackedPiece>, AllocError>
    ensures { IfOk result (λ o. o ≡ packed_in (view value.now)) }
{
    if value.get("file").is_some() {
        return Ok(None);
    }
    let Some(file) = str_at(value, "packed") else {
        return Ok(None);
    };
    let Some(node) = node_of(value) else {
        return Ok(None);
    };
    let file = file.to_string(alloc)?;
    Ok(Some(PackedPiece::new(file, node)))
}
