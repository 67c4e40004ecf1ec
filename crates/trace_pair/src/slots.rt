//! Values by names: for each rank a list of slots, in order of their calls and parts.
//!
//! A tree of such values has nodes that are half full where the names come in order, and leaves
//! holes in memory among what else is put in and taken out meanwhile. A list has neither. Names come
//! at the end of their list, or find the slot that was made for them; one that comes in between moves
//! what stands behind it.
ghost use Rattle.std.specs.Prelude.{◌≡◌, ◌<◌, ℕ, false, IfOk, IfErr, OnOk, OnErr, IsTrue, length, Some, None, ◌==◌};
ghost use Rattle.trace_pair.specs.Slots.{KeepsValues, Rises, SetsIn, SetsOf, AreSlots, IsSlotAt, IsGapAt, at_of, slots_at, value_in, value_of};
ghost use Rattle.trace_pair.specs.declared.slots.At.{At};

use mpi_model::OpName;
use std::alloc::{AllocError, Global};

/// A call of a rank, and the part of it: in order of the call, and then of the part.
#[derive(Clone, Copy, PartialEq, Eq, PartialOrd, Ord)]
pub(crate) struct At {
    pub(crate) call: u64,
    pub(crate) part: u32,
}

/// Where the name stands in its rank.
fn at_of(name: &OpName) -> At
    ensures { result ≡ at_of name.now }
{
    At {
        call: name.call,
        part: name.part,
    }
}

/// A place for the value of a part of a call.
#[derive(Clone, Copy)]
pub(crate) struct Slot<V> {
    pub(crate) at: At,
    pub(crate) value: Option<V>,
}

/// The place of the call's slot, or else the place where it would stand.
fn place_of<V: Copy>(row: &[Slot<V>], at: At) -> Result<usize, usize>
    requires { Rises row.now }
    ensures found { IfOk result (λ i. IsSlotAt row.now i at) }
    ensures missed { IfErr result (λ i. IsGapAt row.now i at) }
{
    row.binary_search_by_key(&at, |slot| slot.at)
}

/// Whether the call's slot stands at the place.
fn is_slot_at<V: Copy>(row: &[Slot<V>], place: usize, at: At) -> bool
    ensures { IsTrue result → IsSlotAt row.now place at }
{
    place < row.len() && row[place].at == at
}

/// The place of the call's slot, or else the place where it would stand. It is looked for at `next`
/// first, which is left behind it: calls that are asked for in order cost no search.
fn place_near<V: Copy>(row: &[Slot<V>], next: &mut usize, at: At) -> Result<usize, usize>
    requires { Rises row.now }
    ensures found { IfOk result (λ i. IsSlotAt row.now i at) }
    ensures missed { IfErr result (λ i. IsGapAt row.now i at) }
{
    let place = *next;
    if is_slot_at(row, place, at) {
        *next = place.saturating_add(1);
        return Ok(place);
    }
    match place_of(row, at) {
        Ok(found) => {
            *next = found.saturating_add(1);
            Ok(found)
        }
        Err(behind) => {
            *next = behind;
            Err(behind)
        }
    }
}

/// The value at a place.
fn value_there<V: Copy>(row: &[Slot<V>], place: usize) -> Option<V>
    requires { place < length row.now }
    ensures { (at : At) → Rises row.now → IsSlotAt row.now place at → result ≡ value_in row.now at }
{
    row[place].value
}

/// Writes the slot of a call again.
fn set_slot<V: Copy>(row: &mut Vec<Slot<V>>, place: usize, slot: Slot<V>)
    requires rises { Rises row.old.items }
    requires there { IsSlotAt row.old.items place slot.at }
    ensures rises { Rises row.new.items }
    ensures set { SetsIn slot.at slot.value row.old.items row.new.items }
{
    row[place] = slot;
}

/// Makes room for one slot more, and for a quarter of what there is: lists are most of what an
/// index holds.
fn make_room<V: Copy>(row: &mut Vec<Slot<V>>) -> Result<(), AllocError>
    ensures { row.new.items ≡ row.old.items }
{
    if row.len() == row.capacity() {
        row.reserve_exact((row.len() / 4).saturating_add(4))?;
    }
    Ok(())
}

/// Makes room for so many slots more, and no other. A list that is asked for whole isn't moved as it
/// grows, and the system has no holes to keep between its moves.
fn reserve_in<V: Copy>(row: &mut Vec<Slot<V>>, more: usize) -> Result<(), AllocError>
    ensures { row.new.items ≡ row.old.items }
{
    row.reserve_exact(more)?;
    Ok(())
}

/// Puts the slot of a call that has none where it belongs.
fn put_slot<V: Copy>(row: &mut Vec<Slot<V>>, place: usize, slot: Slot<V>) -> Result<(), AllocError>
    requires rises { Rises row.old.items }
    requires gap { IsGapAt row.old.items place slot.at }
    ensures rises { Rises row.new.items }
    ensures put { OnOk result (SetsIn slot.at slot.value row.old.items row.new.items) }
    ensures err { OnErr result (row.new.items ≡ row.old.items) }
{
    make_room(row)?;
    row.insert(place, slot)?;
    Ok(())
}

/// The value of the call, looked for at `next` first.
fn get_in<V: Copy>(row: &[Slot<V>], next: &mut usize, at: At) -> Option<V>
    requires { Rises row.now }
    ensures { result ≡ value_in row.now at }
{
    match place_near(row, next, at) {
        Ok(place) => value_there(row, place),
        Err(_) => None,
    }
}

/// Writes the slot of a call again, if it has no value, and tells whether it did.
fn fill_slot<V: Copy>(row: &mut Vec<Slot<V>>, place: usize, slot: Slot<V>) -> bool
    requires rises { Rises row.old.items }
    requires there { IsSlotAt row.old.items place slot.at }
    ensures rises { Rises row.new.items }
    ensures free { IsTrue result → value_in row.old.items slot.at ≡ None }
    ensures put { IsTrue result → SetsIn slot.at slot.value row.old.items row.new.items }
    ensures there { result ≡ false → value_in row.old.items slot.at ≡ None → ⊥ }
    ensures kept { result ≡ false → row.new.items ≡ row.old.items }
{
    match value_there(row, place) {
        Some(_) => false,
        None => {
            set_slot(row, place, slot);
            true
        }
    }
}

/// Puts the value at a call that has none, and tells whether it did.
fn put_in<V: Copy>(row: &mut Vec<Slot<V>>, at: At, value: V) -> Result<bool, AllocError>
    requires { Rises row.old.items }
    ensures rises { Rises row.new.items }
    ensures free { IfOk result (λ put. IsTrue put → value_in row.old.items at ≡ None) }
    ensures put { IfOk result (λ put. IsTrue put → SetsIn at (Some value) row.old.items row.new.items) }
    ensures there { IfOk result (λ put. put ≡ false → value_in row.old.items at ≡ None → ⊥) }
    ensures kept { IfOk result (λ put. put ≡ false → row.new.items ≡ row.old.items) }
    ensures err { OnErr result (row.new.items ≡ row.old.items) }
{
    let slot = Slot {
        at,
        value: Some(value),
    };
    match place_of(row, at) {
        Ok(place) => Ok(fill_slot(row, place, slot)),
        Err(place) => {
            put_slot(row, place, slot)?;
            Ok(true)
        }
    }
}

/// Takes the value of the call. Its slot stays.
fn take_in<V: Copy>(row: &mut Vec<Slot<V>>, at: At) -> Option<V>
    requires { Rises row.old.items }
    ensures rises { Rises row.new.items }
    ensures taken { result ≡ value_in row.old.items at }
    ensures left { SetsIn at None row.old.items row.new.items }
{
    match place_of(row, at) {
        Ok(place) => {
            let value = value_there(row, place);
            set_slot(row, place, Slot { at, value: None });
            value
        }
        Err(_) => None,
    }
}

/// Makes a slot for the call, if it has none.
fn expect_in<V: Copy>(row: &mut Vec<Slot<V>>, at: At) -> Result<(), AllocError>
    requires { Rises row.old.items }
    ensures rises { Rises row.new.items }
    ensures same { (c : At) → value_in row.new.items c ≡ value_in row.old.items c }
{
    match place_of(row, at) {
        Ok(_) => Ok(()),
        Err(place) => {
            put_slot(row, place, Slot { at, value: None })?;
            Ok(())
        }
    }
}

/// Makes lists up to that of the rank.
fn reach<V: Copy>(rows: &mut Vec<Vec<Slot<V>>>, rank: u32) -> Result<(), AllocError>
    ensures reached { OnOk result (rank < length rows.new.items) }
    ensures same { (r : ℕ) → slots_at rows.new.items r ≡ slots_at rows.old.items r }
{
    let alloc = *rows.allocator();
    while rows.len() <= rank as usize {
        rows.push(Vec::new(alloc))?;
    }
    Ok(())
}

/// The value at a name, looked for first at the place `next` among those of its rank. That is left
/// behind the name.
pub(crate) fn value_at<V: Copy>(
    rows: &Vec<Vec<Slot<V>>>,
    next: &mut usize,
    name: &OpName,
) -> Option<V>
    requires { AreSlots rows.now.items }
    ensures { result ≡ value_of rows.now.items name.now }
{
    if name.rank as usize >= rows.len() {
        return None;
    }
    get_in(&rows[name.rank as usize], next, at_of(name))
}

/// Puts the value at a name that has none, and tells whether it did.
pub(crate) fn put_new<V: Copy>(
    rows: &mut Vec<Vec<Slot<V>>>,
    name: OpName,
    value: V,
) -> Result<bool, AllocError>
    requires { AreSlots rows.old.items }
    ensures slots { AreSlots rows.new.items }
    ensures free { IfOk result (λ put. IsTrue put → value_of rows.old.items name ≡ None) }
    ensures put { IfOk result (λ put. IsTrue put → SetsOf name (Some value) rows.old.items rows.new.items) }
    ensures there { IfOk result (λ put. put ≡ false → value_of rows.old.items name ≡ None → ⊥) }
    ensures kept { IfOk result (λ put. put ≡ false → KeepsValues rows.old.items rows.new.items) }
    ensures err { OnErr result (KeepsValues rows.old.items rows.new.items) }
{
    reach(rows, name.rank)?;
    let put = put_in(&mut rows[name.rank as usize], at_of(&name), value)?;
    Ok(put)
}

/// Takes the value at a name. Its slot stays.
pub(crate) fn take_at<V: Copy>(rows: &mut Vec<Vec<Slot<V>>>, name: &OpName) -> Option<V>
    requires { AreSlots rows.old.items }
    ensures slots { AreSlots rows.new.items }
    ensures taken { result ≡ value_of rows.old.items name.now }
    ensures left { SetsOf name.now None rows.old.items rows.new.items }
{
    if name.rank as usize >= rows.len() {
        return None;
    }
    take_in(&mut rows[name.rank as usize], at_of(name))
}

/// Makes a slot for the name, if it has none.
pub(crate) fn expect<V: Copy>(rows: &mut Vec<Vec<Slot<V>>>, name: &OpName) -> Result<(), AllocError>
    requires { AreSlots rows.old.items }
    ensures slots { AreSlots rows.new.items }
    ensures same { KeepsValues rows.old.items rows.new.items }
{
    reach(rows, name.rank)?;
    expect_in(&mut rows[name.rank as usize], at_of(name))?;
    Ok(())
}

/// Makes room for so many slots more of a rank.
pub(crate) fn reserve<V: Copy>(
    rows: &mut Vec<Vec<Slot<V>>>,
    rank: u32,
    more: usize,
) -> Result<(), AllocError>
    requires { AreSlots rows.old.items }
    ensures slots { AreSlots rows.new.items }
    ensures same { KeepsValues rows.old.items rows.new.items }
{
    reach(rows, rank)?;
    reserve_in(&mut rows[rank as usize], more)?;
    Ok(())
}
