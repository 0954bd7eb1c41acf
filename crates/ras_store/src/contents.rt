//! What is kept under the names of locks.
ghost use Rattle.std.specs.Prelude.{◌≡◌, ℕ, List, Some, None, IsSome, IfSome, MatchOption, IfOk, OnOk, All, Contains, ◌↔◌, option_map, if◌then◌else◌};
ghost use Rattle.std.specs.List.Sorted.{IsStrictlySortedBy};
ghost use Rattle.std.specs.Ordering.{nat_cmp};
ghost use Rattle.std.specs.Cmp.Lexicographic.{slice_cmp};
ghost use Rattle.std.specs.BTreeMap.{get};
ghost use Rattle.std.specs.Option.{option_copied};
ghost use Rattle.ras_domain.specs.declared.lock.LockName.{LockName};
ghost use Rattle.ras_store.specs.Piece.{is_same_lock_name};
ghost use Rattle.ras_store.specs.Kept.{HasRoomAt, HasRoomFor, IsEmptyCollection, changed_by, changed_by_all, collection_kept, domain_kept, kept_in, kept_tile};

use crate::change::Change;
use crate::collection::{CollectionInfo, KeptCollection};
use ras_domain::{LockName, Name, Point, Region};
use ras_tile::Tile;
use std::alloc::{AllocError, Global};
use std::collections::BTreeMap;
use std::sync::Arc;

/// Collections by their names, as far as they are kept.
#[derive(Drop)]
pub(crate) struct Contents {
    pub(crate) collections: BTreeMap<Name, KeptCollection>,
}

impl Contents {
    /// Nothing is kept. It allocates nothing.
    pub(crate) fn new(alloc: Global) -> Contents
        ensures { (name : LockName) → kept_in result name ≡ None }
    {
        Contents {
            collections: BTreeMap::new(alloc),
        }
    }

    /// What is kept of a collection beside its arrays.
    pub(crate) fn info(&self, name: &Name) -> Option<&CollectionInfo>
        ensures { option_map collection_kept (option_copied result) ≡ kept_in self.now (LockName.Collection name.now) }
    {
        self.collections.get(name)?.info.as_ref()
    }

    /// The domain of an array.
    pub(crate) fn domain(&self, name: &Name, oid: u64) -> Option<&Region>
        ensures { option_map domain_kept (option_copied result) ≡ kept_in self.now (LockName.Domain name.now oid) }
    {
        self.collections
            .get(name)?
            .arrays
            .get(&oid)?
            .domain
            .as_ref()
    }

    /// The tile of an array at a place.
    pub(crate) fn tile(&self, name: &Name, oid: u64, place: &Point) -> Option<&Arc<Tile>>
        ensures { kept_tile (option_copied result) ≡ kept_in self.now (LockName.Tile name.now oid place.now) }
    {
        self.collections
            .get(name)?
            .arrays
            .get(&oid)?
            .tiles
            .get(place)
    }

    /// Makes room for a change.
    pub(crate) fn reserve(&mut self, alloc: Global, change: &Change) -> Result<(), AllocError>
        ensures kept { (name : LockName) → kept_in self.new name ≡ kept_in self.old name }
        ensures room { (other : LockName) → HasRoomAt self.old other → HasRoomAt self.new other }
        ensures made { OnOk result (HasRoomFor self.new change.now) }
    {
        match change {
            Change::Collection(name, _) => self.reserve_collection(alloc, name),
            Change::Domain(name, oid, _) => self.reserve_array(alloc, name, *oid),
            Change::Tile(name, oid, place, _) => self.reserve_tile(alloc, name, *oid, place),
        }
    }

    /// Makes room for a collection.
    pub(crate) fn reserve_collection(
        &mut self,
        alloc: Global,
        name: &Name,
    ) -> Result<(), AllocError>
        ensures kept { (other : LockName) → kept_in self.new other ≡ kept_in self.old other }
        ensures room { (other : LockName) → HasRoomAt self.old other → HasRoomAt self.new other }
        ensures made { OnOk result (HasRoomAt self.new (LockName.Collection name.now)) }
    {
        self.make_collection(alloc, name)
    }

    /// Makes room for an array.
    pub(crate) fn reserve_array(
        &mut self,
        alloc: Global,
        name: &Name,
        oid: u64,
    ) -> Result<(), AllocError>
        ensures kept { (other : LockName) → kept_in self.new other ≡ kept_in self.old other }
        ensures room { (other : LockName) → HasRoomAt self.old other → HasRoomAt self.new other }
        ensures made { OnOk result (HasRoomAt self.new (LockName.Domain name.now oid)) }
    {
        self.make_collection(alloc, name)?;
        let collection = self.collections.get_mut(name).unwrap();
        collection.reserve_array(alloc, oid)
    }

    /// Makes room for a tile.
    pub(crate) fn reserve_tile(
        &mut self,
        alloc: Global,
        name: &Name,
        oid: u64,
        place: &Point,
    ) -> Result<(), AllocError>
        ensures kept { (other : LockName) → kept_in self.new other ≡ kept_in self.old other }
        ensures room { (other : LockName) → HasRoomAt self.old other → HasRoomAt self.new other }
        ensures made { OnOk result (HasRoomAt self.new (LockName.Tile name.now oid place.now)) }
    {
        self.make_collection(alloc, name)?;
        let collection = self.collections.get_mut(name).unwrap();
        collection.reserve_tile(alloc, oid, place)
    }

    /// Makes an empty collection where there is none.
    fn make_collection(&mut self, alloc: Global, name: &Name) -> Result<(), AllocError>
        ensures collections { (q : List ℕ) → MatchOption (get (slice_cmp nat_cmp) self.old.collections q)
            (IfSome (get (slice_cmp nat_cmp) self.new.collections q) IsEmptyCollection)
            (λ collection. get (slice_cmp nat_cmp) self.new.collections q ≡ Some collection) }
        ensures made { OnOk result (IsSome (get (slice_cmp nat_cmp) self.new.collections name.now)) }
    {
        if !self.collections.contains_key(name) {
            let collection = KeptCollection::new(alloc);
            self.collections.insert(name.try_clone(alloc)?, collection)?;
        }
        Ok(())
    }

    /// Applies a change. It takes no memory.
    pub(crate) fn apply(&mut self, change: Change)
        requires { HasRoomFor self.old change }
        ensures changed { (name : LockName) → kept_in self.new name ≡ changed_by change name (kept_in self.old name) }
        ensures room { (other : LockName) → HasRoomAt self.old other → HasRoomAt self.new other }
    {
        let collection = self.collections.get_mut(change.collection()).unwrap();
        collection.apply(change);
    }

    /// Puts in what a collection has beside its arrays, which stay as they are. It takes no memory.
    pub(crate) fn put_info(&mut self, name: &Name, info: Option<CollectionInfo>)
        requires { HasRoomAt self.old (LockName.Collection name.now) }
        ensures put { (other : LockName) → kept_in self.new other ≡ (if is_same_lock_name (LockName.Collection name.now) other
            then option_map collection_kept info else kept_in self.old other) }
        ensures room { (other : LockName) → HasRoomAt self.old other → HasRoomAt self.new other }
    {
        let collection = self.collections.get_mut(name).unwrap();
        collection.info = info;
    }

    /// Makes room for several changes.
    pub(crate) fn reserve_all(
        &mut self,
        alloc: Global,
        changes: &[Change],
    ) -> Result<(), AllocError>
        ensures kept { (name : LockName) → kept_in self.new name ≡ kept_in self.old name }
        ensures made { OnOk result (All (HasRoomFor self.new) changes.now) }
        ensures room { (other : LockName) → HasRoomAt self.old other → HasRoomAt self.new other }
    {
        for change in changes {
            self.reserve(alloc, change)?;
        }
        Ok(())
    }

    /// Applies several changes in order. It takes no memory.
    pub(crate) fn apply_all(&mut self, changes: Vec<Change>)
        requires { All (HasRoomFor self.old) changes.items }
        ensures changed { (name : LockName) → kept_in self.new name ≡ changed_by_all changes.items name (kept_in self.old name) }
        ensures room { (other : LockName) → HasRoomAt self.old other → HasRoomAt self.new other }
    {
        for change in changes {
            self.apply(change);
        }
    }

    /// The names of the collections that are there, ascending.
    pub(crate) fn names(&self, alloc: Global) -> Result<Vec<Name>, AllocError>
        ensures ascending { IfOk result (λ names. IsStrictlySortedBy (slice_cmp nat_cmp) names.items) }
        ensures listed { IfOk result (λ names. (name : List ℕ)
            → Contains names.items name ↔ IsSome (kept_in self.now (LockName.Collection name))) }
    {
        let mut names = Vec::new(alloc);
        for (name, collection) in &self.collections {
            if collection.info.is_some() {
                names.push(name.try_clone(alloc)?)?;
            }
        }
        Ok(names)
    }

    /// A copy, which shares the tiles. The error is want of memory.
    pub(crate) fn try_clone(&self, alloc: Global) -> Result<Contents, AllocError>
        ensures { IfOk result (λ copy. (name : LockName) → kept_in copy name ≡ kept_in self.now name) }
    {
        let mut collections = BTreeMap::new(alloc);
        for (name, collection) in &self.collections {
            let copy = collection.try_clone(alloc)?;
            collections.insert(name.try_clone(alloc)?, copy)?;
        }
        Ok(Contents { collections })
    }
}
