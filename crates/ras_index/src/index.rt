ghost use Rattle.std.specs.Prelude.{◌≡◌, List, ℤ, [], map, Contains, OnOk, OnErr, IfOk, All, ◌↔◌};
ghost use Rattle.std.specs.Option.{option_copied};
ghost use Rattle.std.specs.List.{AllZip};
ghost use Rattle.std.specs.List.Sorted.{IsStrictlySortedBy};
ghost use Rattle.std.specs.Map.{keys_of, remove_entry};
ghost use Rattle.std.specs.BTreeMap.{insert_entry, is_at};
ghost use Rattle.ras_domain.specs.Region.{IsIn};
ghost use Rattle.ras_index.specs.Index.{row_major, value_at, IsReady, places_in};

use crate::room::{make_ready, missing};
use crate::slot::{Slot, copy_of, empty, find, is_filled_in, span};
use ras_domain::{Point, Region};
use std::alloc::{AllocError, Global};
use std::marker::Model;

/// A map from the places of tiles to values. A place that was made ready takes a value without
/// memory. Contracts see it as its entries in row-major order and the places that are ready.
#[derive(Drop)]
pub struct TileIndex<V> {
    slots: Vec<Slot<V>>,
}

impl<V> Model for TileIndex<V> {
    ghost use Rattle.std.specs.List.Sorted.{IsStrictlySortedBy};
    ghost use Rattle.ras_index.specs.Index.{Index, index_code, row_major};

    ghost Value = { Index V };

    ghost coded = { index_code V.code };

    ghost use Rattle.ras_index.specs.Slots.{index_of, places_of};

    ghost view = { λ index. index_of index.slots.items };

    ghost invariant = { λ index. IsStrictlySortedBy row_major (places_of index.slots.items) };
}

impl<V> TileIndex<V> {
    /// The index with no entry and no ready place. It allocates nothing.
    pub fn new(alloc: Global) -> TileIndex<V>
        ensures entries { result.entries ≡ [] }
        ensures ready { result.ready ≡ [] }
    {
        TileIndex {
            slots: Vec::new(alloc),
        }
    }

    /// The value at a place, if there is one.
    pub fn get(&self, place: &Point) -> Option<&V>
        ensures value { option_copied result ≡ value_at self.now.entries place.now.items }
        ensures ordered { IsStrictlySortedBy row_major (keys_of self.now.entries) }
    {
        match find(self.slots.as_slice(), place) {
            Ok(i) => self.slots[i].value.as_ref(),
            Err(_) => None,
        }
    }

    /// Makes places ready. Where memory is wanting, nothing changes.
    pub fn reserve_for(&mut self, alloc: Global, places: &[Point]) -> Result<(), AllocError>
    where
        V: Drop,
        ensures entries { self.new.entries ≡ self.old.entries }
        ensures made_ready { OnOk result (All (λ place. IsReady self.new place.items) places.now) }
        ensures ready { (q : List ℤ) → IsReady self.old q → IsReady self.new q }
        ensures refused { OnErr result (self.new ≡ self.old) }
    {
        let missing = missing(alloc, self.slots.as_slice(), places)?;
        make_ready(alloc, &mut self.slots, missing)
    }

    /// Puts a value at a place, and gives back the one that stood there. It takes no memory.
    pub fn put(&mut self, place: Point, value: V) -> Option<V>
        requires { IsReady self.old place.items }
        ensures value { result ≡ value_at self.old.entries place.items }
        ensures entries { self.new.entries ≡ insert_entry row_major self.old.entries place.items value }
        ensures ready { (q : List ℤ) → IsReady self.old q → IsReady self.new q }
        ensures ordered { IsStrictlySortedBy row_major (keys_of self.new.entries) }
    {
        let i = find(self.slots.as_slice(), &place).unwrap();
        self.slots[i].value.replace(value)
    }

    /// Takes the value at a place out, if there is one. A place that had one is ready afterwards.
    pub fn remove(&mut self, place: &Point) -> Option<V>
        ensures value { result ≡ value_at self.old.entries place.now.items }
        ensures entries { self.new.entries ≡ remove_entry (is_at (row_major place.now.items)) self.old.entries }
        ensures ready { (q : List ℤ) → IsReady self.old q → IsReady self.new q }
        ensures was_ordered { IsStrictlySortedBy row_major (keys_of self.old.entries) }
        ensures ordered { IsStrictlySortedBy row_major (keys_of self.new.entries) }
    {
        match find(self.slots.as_slice(), place) {
            Ok(i) => self.slots[i].value.take(),
            Err(_) => None,
        }
    }

    /// Takes all values out. A place that had one is ready afterwards.
    pub fn clear(&mut self)
    where
        V: Drop,
        ensures entries { self.new.entries ≡ [] }
        ensures ready { (q : List ℤ) → IsReady self.old q → IsReady self.new q }
    {
        empty(self.slots.as_mut_slice());
    }

    /// The places in a box that have a value, in row-major order.
    pub fn in_box(&self, alloc: Global, places: &Region) -> Result<Vec<Point>, AllocError>
        ensures listed { IfOk result (λ found. map (λ place. place.items) found.items ≡ places_in places.now self.now.entries) }
        ensures ascending { IfOk result (λ found. IsStrictlySortedBy row_major (map (λ place. place.items) found.items)) }
        ensures within { IfOk result (λ found. (q : List ℤ) → Contains (map (λ place. place.items) found.items) q ↔ (Contains (keys_of self.now.entries) q × IsIn q places.now)) }
    {
        let mut found = Vec::new(alloc);
        for slot in span(self.slots.as_slice(), places) {
            if is_filled_in(slot, places) {
                found.push(slot.place.clone()?)?;
            }
        }
        Ok(found)
    }

    /// A copy with the same places, where each value is a clone. The error is want of memory.
    pub fn try_clone(&self, alloc: Global) -> Result<TileIndex<V>, AllocError>
    where
        V: Clone + Drop,
        ensures clones { IfOk result (λ copy. AllZip (λ e d. (d.0 ≡ e.0) × V.is_clone e.1 d.1) self.now.entries copy.entries) }
        ensures entries { ((value copy : V) → V.is_clone value copy → copy ≡ value) → IfOk result (λ copy. copy.entries ≡ self.now.entries) }
    {
        let mut slots = Vec::with_capacity(alloc, self.slots.len())?;
        for slot in &self.slots {
            slots.push(copy_of(slot)?)?;
        }
        Ok(TileIndex { slots })
    }
}
