//! Maps whose keys mostly follow upon one another.

ghost use Rattle.std.specs.Prelude.{◌≡◌, ℕ, ◌<◌, ◌≤◌, ◌==◌, ◌&&◌, if◌then◌else◌, Some, None, OnOk, IfOk, length, nat_eq};
ghost use Rattle.std.specs.HashMap.{get};
ghost use Rattle.sms_journal.specs.DenseMap.{listed_at, value_at, value_in};
ghost use Rattle.sms_journal.specs.Recovered.{or_else};

use sms_files::memory::{self, NoMemory};
use std::alloc::Global;
use std::collections::HashMap;

/// Values by their keys. Those of the least keys stand in a list, in the order of their keys: a key may stand there
/// that is less than four times the number of values that were put. Those of others are found by their hashes.
#[derive(Drop)]
pub(crate) struct DenseMap<T: Copy> {
    near: Vec<Option<T>>,
    far: HashMap<u64, T>,
    /// How many values were put.
    count: u64,
}

/// The value at a place of a list, if there is one.
fn listed<T: Copy>(near: &[Option<T>], place: usize) -> Option<T>
    ensures { result ≡ listed_at near.now place }
{
    match near.get(place).copied() {
        Some(value) => value,
        None => None,
    }
}

/// Puts a value at a place of a list.
fn set_listed<T: Copy>(near: &mut Vec<Option<T>>, place: usize, value: T)
    requires { place < length near.old.items }
    ensures { (q : ℕ) → listed_at near.new.items q ≡ (if place == q then Some value else listed_at near.old.items q) }
{
    near[place] = Some(value);
}

/// Lengthens a list to this many places.
fn lengthen<T: Copy>(near: &mut Vec<Option<T>>, places: usize) -> Result<(), NoMemory>
    requires { length near.old.items ≤ places }
    ensures same { OnOk result ((q : ℕ) → listed_at near.new.items q ≡ listed_at near.old.items q) }
    ensures long { OnOk result (length near.new.items ≡ places) }
{
    for place in near.len()..places {
        memory::push(near, None)?;
    }
    Ok(())
}

/// Puts a value behind the end of a list.
fn append_listed<T: Copy>(near: &mut Vec<Option<T>>, place: usize, value: T) -> Result<(), NoMemory>
    requires { length near.old.items ≤ place }
    ensures { OnOk result ((q : ℕ) → listed_at near.new.items q ≡ (if place == q then Some value else listed_at near.old.items q)) }
{
    lengthen(near, place)?;
    memory::push(near, Some(value))?;
    Ok(())
}

/// Puts a value into a map.
fn put_hashed<T: Copy>(far: &mut HashMap<u64, T>, key: u64, value: T) -> Result<(), NoMemory>
    ensures { OnOk result ((q : ℕ) → get nat_eq far.new q ≡ (if key == q then Some value else get nat_eq far.old q)) }
{
    memory::insert(far, key, value)?;
    Ok(())
}

impl<T: Copy> DenseMap<T> {
    ghost use Rattle.std.specs.Prelude.{◌≡◌, ℕ, ◌==◌, if◌then◌else◌, Some, None, OnOk, is_some};
    ghost use Rattle.sms_journal.specs.DenseMap.{value_at};
    ghost use Rattle.sms_journal.specs.Recovered.{or_else};

    /// A map without values.
    #[tactic(auto, unfolding(crate::specs::DenseMap::value_at))]
    pub(crate) fn new(alloc: Global) -> DenseMap<T>
        ensures { (q : ℕ) → value_at result q ≡ None }
    {
        DenseMap {
            near: Vec::new(alloc),
            far: HashMap::new(alloc),
            count: 0,
        }
    }

    /// The value of a key.
    #[tactic(auto, unfolding(crate::specs::DenseMap::value_at))]
    pub(crate) fn get(&self, key: u64) -> Option<T>
        ensures { result ≡ value_at self.now key }
    {
        match listed(self.near.as_slice(), key as usize) {
            Some(value) => Some(value),
            None => self.far.get(&key).copied(),
        }
    }

    /// Whether a key has a value.
    pub(crate) fn has(&self, key: u64) -> bool
        ensures { result ≡ is_some (value_at self.now key) }
    {
        self.get(key).is_some()
    }

    /// Gives a key this value.
    #[tactic(auto, unfolding(crate::specs::DenseMap::value_at))]
    pub(crate) fn put(&mut self, key: u64, value: T) -> Result<(), NoMemory>
        ensures { OnOk result ((q : ℕ) → value_at self.new q ≡ (if key == q then Some value else value_at self.old q)) }
    {
        let place = key as usize;
        self.count = self.count.saturating_add(1);
        if place < self.near.len() {
            set_listed(&mut self.near, place, value);
            return Ok(());
        }
        if key / 4 < self.count {
            append_listed(&mut self.near, place, value)?;
            return Ok(());
        }
        put_hashed(&mut self.far, key, value)?;
        Ok(())
    }

    /// Gives a key this value if it has none.
    pub(crate) fn put_first(&mut self, key: u64, value: T) -> Result<(), NoMemory>
        ensures { OnOk result ((q : ℕ) → value_at self.new q ≡ or_else (value_at self.old q) (if key == q then Some value else None)) }
    {
        if self.has(key) {
            return Ok(());
        }
        self.put(key, value)?;
        Ok(())
    }
}

/// The value of a key of one of several maps.
pub(crate) fn get_in<T: Copy>(maps: &HashMap<u32, DenseMap<T>>, row: u32, key: u64) -> Option<T>
    ensures { result ≡ value_in maps.now row key }
{
    match maps.get(&row) {
        Some(map) => map.get(key),
        None => None,
    }
}

/// A map of one value.
fn one<T: Copy>(alloc: Global, key: u64, value: T) -> Result<DenseMap<T>, NoMemory>
    ensures { IfOk result (λ map. (q : ℕ) → value_at map q ≡ (if key == q then Some value else None)) }
{
    let mut map = DenseMap::new(alloc);
    map.put(key, value)?;
    Ok(map)
}

/// Puts a map among several.
fn put_map<T: Copy>(
    maps: &mut HashMap<u32, DenseMap<T>>,
    row: u32,
    map: DenseMap<T>,
) -> Result<(), NoMemory>
    ensures { OnOk result ((r : ℕ) → get nat_eq maps.new r ≡ (if row == r then Some map else get nat_eq maps.old r)) }
{
    memory::insert(maps, row, map)?;
    Ok(())
}

/// Gives a key of one of several maps this value.
pub(crate) fn put_in<T: Copy>(
    alloc: Global,
    maps: &mut HashMap<u32, DenseMap<T>>,
    row: u32,
    key: u64,
    value: T,
) -> Result<(), NoMemory>
    ensures { OnOk result ((r q : ℕ) → value_in maps.new r q ≡ (if row == r && (key == q) then Some value else value_in maps.old r q)) }
{
    match maps.get_mut(&row) {
        Some(map) => map.put(key, value),
        None => {
            let map = one(alloc, key, value)?;
            put_map(maps, row, map)?;
            Ok(())
        }
    }
}

/// Gives a key of one of several maps this value if it has none.
pub(crate) fn put_first_in<T: Copy>(
    alloc: Global,
    maps: &mut HashMap<u32, DenseMap<T>>,
    row: u32,
    key: u64,
    value: T,
) -> Result<(), NoMemory>
    ensures { OnOk result ((r q : ℕ) → value_in maps.new r q ≡ or_else (value_in maps.old r q) (if row == r && (key == q) then Some value else None)) }
{
    if get_in(maps, row, key).is_some() {
        return Ok(());
    }
    put_in(alloc, maps, row, key, value)?;
    Ok(())
}
