ghost use Rattle.std.specs.Prelude.{◌≡◌, None, IsSome, List, Option, ℕ, ◌↔◌, All, Contains, IfOk, OnOk, map, option_map};
ghost use Rattle.std.specs.Option.{option_copied};
ghost use Rattle.std.specs.List.Sorted.{IsStrictlySortedBy};
ghost use Rattle.std.specs.Ordering.{nat_cmp};
ghost use Rattle.std.specs.Cmp.Lexicographic.{slice_cmp};
ghost use Rattle.ras_domain.specs.declared.lock.LockName.{LockName};
ghost use Rattle.ras_store.specs.declared.change.Change.{Change};
ghost use Rattle.spec_statements.specs.ReachLaw.{Names};
ghost use Rattle.ras_store.specs.Kept.{Kept, changed_by_all, collection_kept, domain_kept, kept_tile};
ghost use Rattle.ras_store.specs.Piece.{piece_kept, piece_over};
ghost use Rattle.ras_store.specs.Store.{HasRoomForAll, store_kept};

use crate::array::copy_of;
use crate::change::Changes;
use crate::collection::CollectionInfo;
use crate::contents::Contents;
use crate::piece::{Piece, piece_of};
use ras_domain::{LockList, LockName, Name, Point, Region};
use ras_tile::Tile;
use std::alloc::{AllocError, Global};
use std::sync::Arc;

/// A database as it is kept: collections by name, arrays by identifier, tiles by place.
#[derive(Drop)]
pub struct Store {
    contents: Contents,
}

impl Store {
    /// The empty store. It allocates nothing.
    pub fn new(alloc: Global) -> Store
        ensures { (name : LockName) → store_kept result name ≡ None }
    {
        Store {
            contents: Contents::new(alloc),
        }
    }

    /// A collection's set type, next identifier and identifiers, none where there is no such collection.
    pub fn members(&self, name: &Name) -> Option<&CollectionInfo>
        ensures { option_map collection_kept (option_copied result) ≡ store_kept self.now (LockName.Collection name.now) }
    {
        self.contents.info(name)
    }

    /// The domain of an array, none where there is no such array.
    pub fn domain_of(&self, name: &Name, oid: u64) -> Option<Region>
        ensures { option_map domain_kept result ≡ store_kept self.now (LockName.Domain name.now oid) }
    {
        match self.contents.domain(name, oid) {
            Some(domain) => Some(copy_of(domain)),
            None => None,
        }
    }

    /// The tile of an array at a place, none where there is no such tile.
    pub fn tile_of(&self, name: &Name, oid: u64, place: &Point) -> Option<&Arc<Tile>>
        ensures { kept_tile (option_copied result) ≡ store_kept self.now (LockName.Tile name.now oid place.now) }
    {
        self.contents.tile(name, oid, place)
    }

    /// A copy, which shares the tiles. The error is want of memory.
    pub fn try_clone(&self, alloc: Global) -> Result<Store, AllocError>
        ensures { IfOk result (λ copy. (name : LockName) → store_kept copy name ≡ store_kept self.now name) }
    {
        Ok(Store {
            contents: self.contents.try_clone(alloc)?,
        })
    }

    /// The names of the collections in the order of bytes, each once. The error is want of memory.
    pub fn names(&self, alloc: Global) -> Result<Vec<Name>, AllocError>
        ensures ascending { IfOk result (λ names. IsStrictlySortedBy (slice_cmp nat_cmp) names.items) }
        ensures listed { IfOk result (λ names. (name : List ℕ)
            → Contains names.items name ↔ IsSome (store_kept self.now (LockName.Collection name))) }
    {
        self.contents.names(alloc)
    }

    /// What the names of a list show: an entry for each collection that is named, and for each domain and
    /// tile that is named and there, and no others. Tiles are shared. The error is want of memory.
    pub fn piece(&self, alloc: Global, list: &LockList) -> Result<Piece, AllocError>
        ensures held { IfOk result (λ piece. (name : LockName) → Names list.now name → piece_kept piece name ≡ store_kept self.now name) }
        ensures others { IfOk result (λ piece. (name : LockName) (before : Option Kept)
            → ¬ Names list.now name → piece_over piece name before ≡ before) }
    {
        piece_of(alloc, &self.contents, list)
    }

    /// Makes room for what the changes put. It takes all memory that they need. Where memory is
    /// wanting, the same is kept as before.
    pub fn reserve_for(&mut self, alloc: Global, changes: &Changes) -> Result<(), AllocError>
        ensures kept { (name : LockName) → store_kept self.new name ≡ store_kept self.old name }
        ensures made { OnOk result (HasRoomForAll self.new changes.now) }
        ensures room { (other : List Change) → HasRoomForAll self.old other → HasRoomForAll self.new other }
    {
        self.contents.reserve_all(alloc, changes.items())
    }

    /// Applies changes for which room was made, in their order. It takes no memory.
    pub fn apply_prepared(&mut self, changes: Changes)
        requires { HasRoomForAll self.old changes }
        ensures changed { (name : LockName) → store_kept self.new name ≡ changed_by_all changes name (store_kept self.old name) }
        ensures room { (other : List Change) → HasRoomForAll self.old other → HasRoomForAll self.new other }
    {
        self.contents.apply_all(changes.into_vec());
    }
}
