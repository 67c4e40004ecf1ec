//! Places of messages by keys. The map is asked once for nearly every key: from then on its row is found by a guess, a
//! table by what the key mixes to, and by a look whether the row has that key.

ghost use Rattle.std.specs.Prelude.{◌≡◌, ◌<◌, ◌++◌, ◌∷◌, true, [], None, IfSome, OnOk, length};
ghost use Rattle.std.specs.BTreeMap.{get};
ghost use Rattle.trace_pair.specs.ByKey.{AreRows, HasNoRow, IsKeyAt, PutsRow};
ghost use Rattle.trace_pair.specs.Waiting.{AddsPlace, DropsTaken, from_waiting, sole_or_first, places_at};

use crate::places::Places;
use crate::sends::Sends;
use crate::taken_by::TakenBy;
use std::alloc::{AllocError, Global};
use std::collections::BTreeMap;
use std::marker::Model;

/// A key, and a number that few other keys have.
pub(crate) trait Mix {
    /// The number, whose upper bits are mixed best.
    fn mix(&self) -> u64;
}

/// Two numbers in one.
fn both(a: u32, b: u32) -> u64 {
    a as u64 | (b as u64) << 32
}

/// Each bit of the number reaches the upper ones.
fn spread(bits: u64) -> u64 {
    bits.wrapping_mul(0x9E37_79B9_7F4A_7C15)
}

impl Mix for (u32, u32, u32, u32) {
    #[inline(always)]
    fn mix(&self) -> u64 {
        spread(spread(both(self.0, self.1)).rotate_left(32) ^ both(self.2, self.3))
    }
}

impl Mix for (u32, u32, u32) {
    #[inline(always)]
    fn mix(&self) -> u64 {
        spread(spread(both(self.0, self.1)).rotate_left(32) ^ self.2 as u64)
    }
}

/// How many guesses there are at first.
const FEW: usize = 256;

/// Rows that were asked for, by what their keys mix to. They are only guesses: a key is looked for there first.
#[derive(Drop)]
struct Guesses {
    /// As many as a power of two, or none.
    rows: Vec<usize>,
}

impl Guesses {
    fn empty(alloc: Global) -> Guesses {
        Guesses {
            rows: Vec::new(alloc),
        }
    }

    /// Where the guess for a key stands, if one does.
    #[inline(always)]
    fn place(&self, mixed: u64) -> usize {
        (mixed >> 40) as usize & self.rows.len().wrapping_sub(1)
    }

    /// The row that was last asked for where this key may have its guess.
    #[inline(always)]
    fn at(&self, mixed: u64) -> usize {
        self.rows.get(self.place(mixed)).copied().unwrap_or(0)
    }

    /// This row has the key.
    #[inline(always)]
    fn put(&mut self, mixed: u64, row: usize) {
        let place = self.place(mixed);
        if place < self.rows.len() {
            self.rows[place] = row;
        }
    }

    /// Twice as many guesses, where these are too few for one row more: then all rows are guessed anew.
    fn widen<K: Mix>(&mut self, alloc: Global, rows: &[Row<K>]) -> Result<(), AllocError> {
        if rows.len() < self.rows.len() / 2 {
            return Ok(());
        }
        let many = self.rows.len().saturating_mul(2).max(FEW);
        self.rows = Vec::from_elem(alloc, 0, many)?;
        for (place, row) in rows.iter().enumerate() {
            self.put(row.key.mix(), place);
        }
        Ok(())
    }
}

/// The places at a key.
#[derive(Drop)]
struct Row<K> {
    key: K,
    places: Places,
}

/// Places by keys: rows, and where the row of each key stands.
#[derive(Drop)]
pub(crate) struct PlacesByKey<K: Ord> {
    rows: Vec<Row<K>>,
    index: BTreeMap<K, usize>,
    guesses: Guesses,
}

impl<K: Ord> Model for PlacesByKey<K> {
    ghost use Rattle.trace_pair.specs.ByKey.{AreRows, by_key};
    ghost use Rattle.trace_pair.specs.Waiting.{Keyed};

    ghost Value = { Keyed K };

    ghost view = { λ s. by_key s.rows.items s.index };

    ghost invariant = { λ s. AreRows K.cmp s.rows.items s.index };
}

/// Whether the row of the key stands at the place.
fn is_key_at<K: Ord>(rows: &[Row<K>], place: usize, key: &K) -> bool
    ensures { result ≡ true → IsKeyAt K.cmp rows.now place key.now }
{
    match rows.get(place) {
        Some(row) => row.key.cmp(key).is_eq(),
        None => false,
    }
}

/// Where the row of the key stands, looked for at the guess first.
fn row_of<K: Ord>(
    rows: &[Row<K>],
    index: &BTreeMap<K, usize>,
    guess: usize,
    key: &K,
) -> Option<usize>
    requires { AreRows K.cmp rows.now index.now }
    ensures told { result ≡ get K.cmp index.now key.now }
    ensures within { IfSome result (λ row. row < length rows.now) }
{
    if is_key_at(rows, guess, key) {
        return Some(guess);
    }
    index.get(key).copied()
}

/// A place more in a row.
fn push_in<K>(row: &mut Row<K>, place: usize) -> Result<(), AllocError>
    ensures key { row.new.key ≡ row.old.key }
    ensures pushed { OnOk result (row.new.places ≡ row.old.places ++ place ∷ []) }
{
    row.places.push(place)?;
    Ok(())
}

/// The first place of a row at which a message waits; where calls may have several parts, if no other
/// one of its call does. Those before the first go.
fn sole_in<K>(row: &mut Row<K>, plain: bool, messages: &Sends, takers: &TakenBy) -> Option<usize>
    ensures key { row.new.key ≡ row.old.key }
    ensures sole { result ≡ sole_or_first plain messages.now takers.now (from_waiting takers.now row.old.places) }
    ensures left { row.new.places ≡ from_waiting takers.now row.old.places }
{
    row.places.sole_waiting(plain, messages, takers)
}

/// Puts a row behind the others, whose key has none.
fn put_row<K: Ord + Copy + Drop>(
    rows: &mut Vec<Row<K>>,
    index: &mut BTreeMap<K, usize>,
    row: Row<K>,
) -> Result<(), AllocError>
    requires free { get K.cmp index.old row.key ≡ None }
    requires rows { AreRows K.cmp rows.old.items index.old }
    ensures rows { AreRows K.cmp rows.new.items index.new }
    ensures put { OnOk result (PutsRow K.cmp row rows.old.items index.old rows.new.items index.new) }
{
    let key = row.key;
    let place = rows.len();
    rows.push(row)?;
    match index.insert(key, place) {
        Ok(_) => Ok(()),
        Err(error) => {
            rows.truncate(place);
            Err(error.into())
        }
    }
}

impl<K: Ord + Mix + Copy + Drop> PlacesByKey<K> {
    /// An empty map. It takes no memory.
    pub(crate) fn empty(alloc: Global) -> PlacesByKey<K>
        ensures { result ≡ [] }
    {
        PlacesByKey {
            rows: Vec::new(alloc),
            index: BTreeMap::new(alloc),
            guesses: Guesses::empty(alloc),
        }
    }

    /// Puts a place at a key where none stands.
    fn put_first(&mut self, alloc: Global, key: K, place: usize) -> Result<(), AllocError>
        requires { HasNoRow K.cmp self.old key }
        ensures { OnOk result (AddsPlace K.cmp key place self.old self.new) }
    {
        let places = Places::one(alloc, place)?;
        self.guesses.widen(alloc, &self.rows)?;
        self.guesses.put(key.mix(), self.rows.len());
        put_row(&mut self.rows, &mut self.index, Row { key, places })?;
        Ok(())
    }

    /// Puts a place behind the others at its key.
    pub(crate) fn add(&mut self, alloc: Global, key: K, place: usize) -> Result<(), AllocError>
        ensures { OnOk result (AddsPlace K.cmp key place self.old self.new) }
    {
        let mixed = key.mix();
        let Some(row) = row_of(&self.rows, &self.index, self.guesses.at(mixed), &key) else {
            return self.put_first(alloc, key, place);
        };
        self.guesses.put(mixed, row);
        push_in(&mut self.rows[row], place)
    }

    /// The first place at a key at which a message waits; where calls may have several parts, if no
    /// other one of its call does. Those before the first go.
    pub(crate) fn sole_at(
        &mut self,
        key: &K,
        plain: bool,
        messages: &Sends,
        takers: &TakenBy,
    ) -> Option<usize>
        ensures sole { result ≡ sole_or_first plain messages.now takers.now
            (from_waiting takers.now (places_at K.cmp self.old key.now)) }
        ensures left { DropsTaken K.cmp key.now takers.now self.old self.new }
    {
        let mixed = key.mix();
        let Some(row) = row_of(&self.rows, &self.index, self.guesses.at(mixed), key) else {
            return None;
        };
        self.guesses.put(mixed, row);
        sole_in(&mut self.rows[row], plain, messages, takers)
    }
}
