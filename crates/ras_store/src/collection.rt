//! What is kept of one collection.
ghost use Rattle.std.specs.Prelude.{◌≡◌, ℕ, true, Some, None, IsSome, IsSomeAnd, MatchOption, IfOk, OnOk, IfSome};
ghost use Rattle.std.specs.Ordering.{nat_cmp};
ghost use Rattle.std.specs.BTreeMap.{get};
ghost use Rattle.ras_domain.specs.declared.lock.LockName.{LockName};
ghost use Rattle.ras_index.specs.Index.{IsReady};
ghost use Rattle.ras_store.specs.Kept.{HasRoomIn, IsEmptyArray, IsEmptyCollection, IsLeft, IsSameArray, IsSameCollection, KeepsRoom, PutsTile, WritesArray, is_listed, kept_under, name_changed, replaced};

use crate::array::KeptArray;
use crate::change::Change;
use crate::identifiers::Identifiers;
use ras_domain::{Point, Region};
use ras_tile::Tile;
use std::alloc::{AllocError, Global};
use std::collections::BTreeMap;
use std::sync::Arc;

/// A collection without its arrays' cells.
#[derive(Debug, Drop)]
pub struct CollectionInfo {
    /// The place of the set type among the types.
    pub set_type: u32,
    /// The object identifier that the next array gets.
    pub next: u64,
    /// The identifiers of the arrays that are there.
    pub oids: Identifiers,
}

impl CollectionInfo {
    /// A copy. The error is want of memory.
    pub fn try_clone(&self, alloc: Global) -> Result<CollectionInfo, AllocError>
        ensures { IfOk result (λ copy. copy ≡ self.now) }
    {
        Ok(CollectionInfo {
            set_type: self.set_type,
            next: self.next,
            oids: self.oids.try_clone(alloc)?,
        })
    }
}

/// A collection's information and its arrays by their identifiers, as far as they are kept.
#[derive(Drop)]
pub(crate) struct KeptCollection {
    pub(crate) info: Option<CollectionInfo>,
    pub(crate) arrays: BTreeMap<u64, KeptArray>,
}

impl KeptCollection {
    /// Nothing of a collection. It allocates nothing.
    pub(crate) fn new(alloc: Global) -> KeptCollection
        ensures { IsEmptyCollection result }
    {
        KeptCollection {
            info: None,
            arrays: BTreeMap::new(alloc),
        }
    }

    /// A copy, which shares the tiles. The error is want of memory.
    pub(crate) fn try_clone(&self, alloc: Global) -> Result<KeptCollection, AllocError>
        ensures { IfOk result (IsSameCollection self.now) }
    {
        let info = match &self.info {
            Some(info) => Some(info.try_clone(alloc)?),
            None => None,
        };
        let arrays = copies_of(alloc, &self.arrays)?;
        Ok(KeptCollection { info, arrays })
    }

    /// Applies a change of this collection. It takes no memory.
    pub(crate) fn apply(&mut self, change: Change)
        requires { HasRoomIn (Some self.old) (name_changed change) }
        ensures changed { (name : LockName) → kept_under (Some self.new) name ≡ replaced change name (kept_under (Some self.old) name) }
        ensures room { (other : LockName) → HasRoomIn (Some self.old) other → HasRoomIn (Some self.new) other }
    {
        match change {
            Change::Collection(_name, info) => self.set_info(info),
            Change::Domain(_name, oid, domain) => self.set_domain(oid, domain),
            Change::Tile(_name, oid, place, tile) => self.set_tile(oid, place, tile),
        }
    }

    /// Makes room for an array.
    pub(crate) fn reserve_array(&mut self, alloc: Global, oid: u64) -> Result<(), AllocError>
        ensures info { self.new.info ≡ self.old.info }
        ensures arrays { (q : ℕ) → MatchOption (get nat_cmp self.old.arrays q)
            (IfSome (get nat_cmp self.new.arrays q) IsEmptyArray)
            (λ array. get nat_cmp self.new.arrays q ≡ Some array) }
        ensures made { OnOk result (IsSome (get nat_cmp self.new.arrays oid)) }
    {
        if !self.arrays.contains_key(&oid) {
            self.arrays.insert(oid, KeptArray::new(alloc))?;
        }
        Ok(())
    }

    /// Makes room for a tile of an array.
    pub(crate) fn reserve_tile(
        &mut self,
        alloc: Global,
        oid: u64,
        place: &Point,
    ) -> Result<(), AllocError>
        ensures kept { (name : LockName) → kept_under (Some self.new) name ≡ kept_under (Some self.old) name }
        ensures room { (other : LockName) → HasRoomIn (Some self.old) other → HasRoomIn (Some self.new) other }
        ensures made { OnOk result (IsSomeAnd (get nat_cmp self.new.arrays oid) (λ array. IsReady array.tiles place.now.items)) }
    {
        self.reserve_array(alloc, oid)?;
        self.reserve_place(alloc, oid, place)
    }

    /// Makes room for a tile of an array that has room.
    fn reserve_place(&mut self, alloc: Global, oid: u64, place: &Point) -> Result<(), AllocError>
        requires { IsSome (get nat_cmp self.old.arrays oid) }
        ensures info { self.new.info ≡ self.old.info }
        ensures arrays { WritesArray self.old.arrays self.new.arrays oid KeepsRoom }
        ensures made { OnOk result (IsSomeAnd (get nat_cmp self.new.arrays oid) (λ array. IsReady array.tiles place.now.items)) }
    {
        let array = self.arrays.get_mut(&oid).unwrap();
        array.tiles.reserve_for(alloc, std::slice::from_ref(place))
    }

    /// Replaces the information, and takes out what is kept of arrays that aren't listed.
    fn set_info(&mut self, info: Option<CollectionInfo>)
        ensures info { self.new.info ≡ info }
        ensures arrays { (q : ℕ) → MatchOption (get nat_cmp self.old.arrays q) (get nat_cmp self.new.arrays q ≡ None)
            (λ old. IsSomeAnd (get nat_cmp self.new.arrays q) (IsLeft (is_listed info q) old)) }
    {
        clear_unlisted(&mut self.arrays, &info);
        self.info = info;
    }

    /// Replaces an array's domain.
    fn set_domain(&mut self, oid: u64, domain: Option<Region>)
        requires { IsSome (get nat_cmp self.old.arrays oid) }
        ensures info { self.new.info ≡ self.old.info }
        ensures arrays { WritesArray self.old.arrays self.new.arrays oid (λ old new. new ≡ record old { domain = domain }) }
    {
        let array = self.arrays.get_mut(&oid).unwrap();
        array.domain = domain;
    }

    /// Replaces a tile of an array.
    fn set_tile(&mut self, oid: u64, place: Point, tile: Option<Arc<Tile>>)
        requires { IsSomeAnd (get nat_cmp self.old.arrays oid) (λ array. IsReady array.tiles place.items) }
        ensures info { self.new.info ≡ self.old.info }
        ensures arrays { WritesArray self.old.arrays self.new.arrays oid (PutsTile place.items tile) }
    {
        let array = self.arrays.get_mut(&oid).unwrap();
        array.set_tile(place, tile);
    }
}

/// Copies of arrays, which share the tiles. The error is want of memory.
fn copies_of(
    alloc: Global,
    arrays: &BTreeMap<u64, KeptArray>,
) -> Result<BTreeMap<u64, KeptArray>, AllocError>
    ensures { IfOk result (λ copies. (q : ℕ) → MatchOption (get nat_cmp arrays.now q) (get nat_cmp copies q ≡ None)
        (λ array. IsSomeAnd (get nat_cmp copies q) (IsSameArray array))) }
{
    let mut copies = BTreeMap::new(alloc);
    for (oid, array) in arrays {
        copies.insert(*oid, array.try_clone(alloc)?)?;
    }
    Ok(copies)
}

/// Takes out what is kept of arrays that aren't listed.
fn clear_unlisted(arrays: &mut BTreeMap<u64, KeptArray>, info: &Option<CollectionInfo>)
    ensures { (q : ℕ) → MatchOption (get nat_cmp arrays.old q) (get nat_cmp arrays.new q ≡ None)
        (λ old. IsSomeAnd (get nat_cmp arrays.new q) (IsLeft (is_listed info.now q) old)) }
{
    arrays.retain(
        |oid: &u64, array: &mut KeptArray| -> bool
            ensures listed { result ≡ true }
            ensures left { IsLeft (is_listed info.entry.now oid.now) array.old array.new }
        {
            keep_if(lists(info, *oid), array);
            true
        },
    );
}

/// Whether an array of this identifier is listed.
fn lists(info: &Option<CollectionInfo>, oid: u64) -> bool
    ensures { result ≡ is_listed info.now oid }
{
    match info {
        Some(info) => info.oids.contains(oid),
        None => false,
    }
}

/// Leaves an array as it is, or takes everything out.
fn keep_if(is_listed: bool, array: &mut KeptArray)
    ensures { IsLeft is_listed array.old array.new }
{
    if !is_listed {
        array.clear();
    }
}
