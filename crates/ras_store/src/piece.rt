//! What is taken of a store under a list of locks, and put into a view.
ghost use Rattle.std.specs.Prelude.{◌≡◌, [], ◌∷◌, ◌++◌, Option, All, map, IfOk, OnOk, if◌then◌else◌};
ghost use Rattle.ras_domain.specs.declared.lock.LockName.{LockName};
ghost use Rattle.ras_store.specs.Kept.{Kept, HasRoomAt, HasRoomFor, kept_in, name_changed};
ghost use Rattle.ras_store.specs.Piece.{IsTakenWhere, collection_entry, domain_entry, is_same_lock_name, piece_kept, piece_over, placed_by, placed_by_all, tile_entry};
ghost use Rattle.spec_statements.specs.ReachLaw.{Names};

use crate::array::copy_of;
use crate::change::Change;
use crate::collection::CollectionInfo;
use crate::contents::Contents;
use crate::written::WrittenNames;
use ras_domain::{List, LockList, LockName, Name, Point, Region};
use ras_tile::Tile;
use std::alloc::{AllocError, Global};
use std::sync::Arc;

/// What a store has under the names of some locks: an entry for each collection that is named, also
/// where there is none, and for each domain and tile that is there.
#[derive(Drop)]
pub struct Piece {
    pub collections: List<(Name, Option<CollectionInfo>)>,
    pub domains: List<(Name, u64, Region)>,
    pub tiles: List<(Name, u64, Point, Arc<Tile>)>,
}

impl Piece {
    /// The piece of no names. It allocates nothing.
    pub fn new(alloc: Global) -> Piece
        ensures { (name : LockName) (before : Option Kept) → piece_over result name before ≡ before }
    {
        Piece {
            collections: List::new(alloc),
            domains: List::new(alloc),
            tiles: List::new(alloc),
        }
    }
}

/// What is kept under the names of a list. Tiles are shared.
pub(crate) fn piece_of(
    alloc: Global,
    contents: &Contents,
    list: &LockList,
) -> Result<Piece, AllocError>
    ensures held { IfOk result (λ piece. (name : LockName) → Names list.now name → piece_kept piece name ≡ kept_in contents.now name) }
    ensures others { IfOk result (λ piece. (name : LockName) (before : Option Kept)
        → ¬ Names list.now name → piece_over piece name before ≡ before) }
{
    let mut piece = Piece::new(alloc);
    for place in 0..list.len() {
        let (lock, _mode) = list.get(place);
        take(alloc, contents, lock, &mut piece)?;
    }
    Ok(piece)
}

/// Adds what is kept under one name.
fn take(
    alloc: Global,
    contents: &Contents,
    lock: &LockName,
    piece: &mut Piece,
) -> Result<(), AllocError>
    ensures { OnOk result ((other : LockName) (before : Option Kept) → IsTakenWhere (kept_in contents.now lock.now) (is_same_lock_name lock.now other)
        (piece_over piece.old other before) (piece_over piece.new other before)) }
{
    match lock {
        LockName::Collection(name) => take_collection(alloc, contents, name, piece),
        LockName::Domain(name, oid) => take_domain(alloc, contents, name, *oid, piece),
        LockName::Tile(name, oid, place) => take_tile(alloc, contents, name, *oid, place, piece),
    }
}

/// Adds the information of a collection, or that there is no such collection.
fn take_collection(
    alloc: Global,
    contents: &Contents,
    name: &Name,
    piece: &mut Piece,
) -> Result<(), AllocError>
    ensures { OnOk result ((other : LockName) (before : Option Kept) → IsTakenWhere (kept_in contents.now (LockName.Collection name.now))
        (is_same_lock_name (LockName.Collection name.now) other) (piece_over piece.old other before) (piece_over piece.new other before)) }
{
    let info = match contents.info(name) {
        Some(info) => Some(info.try_clone(alloc)?),
        None => None,
    };
    let name = name.try_clone(alloc)?;
    push(alloc, &mut piece.collections, (name, info))?;
    Ok(())
}

/// Adds the domain of an array, if there is one.
fn take_domain(
    alloc: Global,
    contents: &Contents,
    name: &Name,
    oid: u64,
    piece: &mut Piece,
) -> Result<(), AllocError>
    ensures { OnOk result ((other : LockName) (before : Option Kept) → IsTakenWhere (kept_in contents.now (LockName.Domain name.now oid))
        (is_same_lock_name (LockName.Domain name.now oid) other) (piece_over piece.old other before) (piece_over piece.new other before)) }
{
    match contents.domain(name, oid) {
        Some(domain) => {
            let domain = copy_of(domain);
            let name = name.try_clone(alloc)?;
            push(alloc, &mut piece.domains, (name, oid, domain))?;
            Ok(())
        }
        None => Ok(()),
    }
}

/// Adds the tile of an array at a place, if there is one.
fn take_tile(
    alloc: Global,
    contents: &Contents,
    name: &Name,
    oid: u64,
    place: &Point,
    piece: &mut Piece,
) -> Result<(), AllocError>
    ensures { OnOk result ((other : LockName) (before : Option Kept) → IsTakenWhere (kept_in contents.now (LockName.Tile name.now oid place.now))
        (is_same_lock_name (LockName.Tile name.now oid place.now) other) (piece_over piece.old other before) (piece_over piece.new other before)) }
{
    match contents.tile(name, oid, place) {
        Some(tile) => {
            let tile = Arc::try_clone(tile)?;
            let name = name.try_clone(alloc)?;
            let place = copy_of_place(place)?;
            push(alloc, &mut piece.tiles, (name, oid, place, tile))?;
            Ok(())
        }
        None => Ok(()),
    }
}

/// Puts an item at the end of a list. The error is want of memory.
fn push<T: Drop>(alloc: Global, list: &mut List<T>, item: T) -> Result<(), AllocError>
    ensures { OnOk result (list.new ≡ list.old ++ item ∷ []) }
{
    match list.push(alloc, item) {
        Ok(()) => Ok(()),
        Err(_) => Err(AllocError),
    }
}

/// The same place.
fn copy_of_place(place: &Point) -> Result<Point, AllocError>
    ensures { IfOk result (λ copy. copy ≡ place.now) }
{
    place.clone()
}

/// Makes room for all entries of a piece.
pub(crate) fn reserve_piece(
    alloc: Global,
    contents: &mut Contents,
    piece: &Piece,
) -> Result<(), AllocError>
    ensures kept { (name : LockName) → kept_in contents.new name ≡ kept_in contents.old name }
    ensures collections { OnOk result (All (λ entry. HasRoomFor contents.new (collection_entry entry)) piece.now.collections) }
    ensures domains { OnOk result (All (λ entry. HasRoomFor contents.new (domain_entry entry)) piece.now.domains) }
    ensures tiles { OnOk result (All (λ entry. HasRoomFor contents.new (tile_entry entry)) piece.now.tiles) }
    ensures room { (other : LockName) → HasRoomAt contents.old other → HasRoomAt contents.new other }
{
    reserve_collections(alloc, contents, piece.collections.as_slice())?;
    reserve_domains(alloc, contents, piece.domains.as_slice())?;
    reserve_tiles(alloc, contents, piece.tiles.as_slice())
}

fn reserve_collections(
    alloc: Global,
    contents: &mut Contents,
    entries: &[(Name, Option<CollectionInfo>)],
) -> Result<(), AllocError>
    ensures kept { (name : LockName) → kept_in contents.new name ≡ kept_in contents.old name }
    ensures room { (other : LockName) → HasRoomAt contents.old other → HasRoomAt contents.new other }
    ensures made { OnOk result (All (λ entry. HasRoomFor contents.new (collection_entry entry)) entries.now) }
{
    for entry in entries {
        contents.reserve_collection(alloc, &entry.0)?;
    }
    Ok(())
}

fn reserve_domains(
    alloc: Global,
    contents: &mut Contents,
    entries: &[(Name, u64, Region)],
) -> Result<(), AllocError>
    ensures kept { (name : LockName) → kept_in contents.new name ≡ kept_in contents.old name }
    ensures room { (other : LockName) → HasRoomAt contents.old other → HasRoomAt contents.new other }
    ensures made { OnOk result (All (λ entry. HasRoomFor contents.new (domain_entry entry)) entries.now) }
{
    for entry in entries {
        contents.reserve_array(alloc, &entry.0, entry.1)?;
    }
    Ok(())
}

fn reserve_tiles(
    alloc: Global,
    contents: &mut Contents,
    entries: &[(Name, u64, Point, Arc<Tile>)],
) -> Result<(), AllocError>
    ensures kept { (name : LockName) → kept_in contents.new name ≡ kept_in contents.old name }
    ensures room { (other : LockName) → HasRoomAt contents.old other → HasRoomAt contents.new other }
    ensures made { OnOk result (All (λ entry. HasRoomFor contents.new (tile_entry entry)) entries.now) }
{
    for entry in entries {
        contents.reserve_tile(alloc, &entry.0, entry.1, &entry.2)?;
    }
    Ok(())
}

/// Puts in what a piece has, except under names that were written. It takes no memory.
pub(crate) fn put_piece<W: WrittenNames>(contents: &mut Contents, piece: Piece, written: &W)
    requires collections { All (λ entry. HasRoomFor contents.old (collection_entry entry)) piece.collections }
    requires domains { All (λ entry. HasRoomFor contents.old (domain_entry entry)) piece.domains }
    requires tiles { All (λ entry. HasRoomFor contents.old (tile_entry entry)) piece.tiles }
    ensures put { (name : LockName) → kept_in contents.new name
        ≡ (if W.is_written written.now name then kept_in contents.old name else piece_over piece name (kept_in contents.old name)) }
    ensures room { (other : LockName) → HasRoomAt contents.old other → HasRoomAt contents.new other }
{
    let Piece {
        collections,
        domains,
        tiles,
    } = piece;
    put_collections(contents, collections.into_vec(), written);
    put_domains(contents, domains.into_vec(), written);
    put_tiles(contents, tiles.into_vec(), written);
}

fn put_collections<W: WrittenNames>(
    contents: &mut Contents,
    entries: Vec<(Name, Option<CollectionInfo>)>,
    written: &W,
)
    requires { All (λ entry. HasRoomFor contents.old (collection_entry entry)) entries.items }
    ensures put { (name : LockName) → kept_in contents.new name ≡ (if W.is_written written.now name then kept_in contents.old name
        else placed_by_all (map collection_entry entries.items) name (kept_in contents.old name)) }
    ensures room { (other : LockName) → HasRoomAt contents.old other → HasRoomAt contents.new other }
{
    for entry in entries {
        put_collection(contents, entry, written);
    }
}

fn put_domains<W: WrittenNames>(
    contents: &mut Contents,
    entries: Vec<(Name, u64, Region)>,
    written: &W,
)
    requires { All (λ entry. HasRoomFor contents.old (domain_entry entry)) entries.items }
    ensures put { (name : LockName) → kept_in contents.new name ≡ (if W.is_written written.now name then kept_in contents.old name
        else placed_by_all (map domain_entry entries.items) name (kept_in contents.old name)) }
    ensures room { (other : LockName) → HasRoomAt contents.old other → HasRoomAt contents.new other }
{
    for entry in entries {
        put_domain(contents, entry, written);
    }
}

fn put_tiles<W: WrittenNames>(
    contents: &mut Contents,
    entries: Vec<(Name, u64, Point, Arc<Tile>)>,
    written: &W,
)
    requires { All (λ entry. HasRoomFor contents.old (tile_entry entry)) entries.items }
    ensures put { (name : LockName) → kept_in contents.new name ≡ (if W.is_written written.now name then kept_in contents.old name
        else placed_by_all (map tile_entry entries.items) name (kept_in contents.old name)) }
    ensures room { (other : LockName) → HasRoomAt contents.old other → HasRoomAt contents.new other }
{
    for entry in entries {
        put_tile(contents, entry, written);
    }
}

fn put_collection<W: WrittenNames>(
    contents: &mut Contents,
    entry: (Name, Option<CollectionInfo>),
    written: &W,
)
    requires { HasRoomFor contents.old (collection_entry entry) }
    ensures put { (name : LockName) → kept_in contents.new name ≡ (if W.is_written written.now (name_changed (collection_entry entry))
        then kept_in contents.old name else placed_by (collection_entry entry) name (kept_in contents.old name)) }
    ensures room { (other : LockName) → HasRoomAt contents.old other → HasRoomAt contents.new other }
{
    let (name, info) = entry;
    let lock = LockName::Collection(name);
    if written.contains(&lock) {
        return;
    }
    match lock {
        LockName::Collection(name) => contents.put_info(&name, info),
        LockName::Domain(_name, _oid) => {}
        LockName::Tile(_name, _oid, _place) => {}
    }
}

fn put_domain<W: WrittenNames>(contents: &mut Contents, entry: (Name, u64, Region), written: &W)
    requires { HasRoomFor contents.old (domain_entry entry) }
    ensures put { (name : LockName) → kept_in contents.new name ≡ (if W.is_written written.now (name_changed (domain_entry entry))
        then kept_in contents.old name else placed_by (domain_entry entry) name (kept_in contents.old name)) }
    ensures room { (other : LockName) → HasRoomAt contents.old other → HasRoomAt contents.new other }
{
    let (name, oid, domain) = entry;
    let lock = LockName::Domain(name, oid);
    if written.contains(&lock) {
        return;
    }
    match lock {
        LockName::Domain(name, oid) => contents.apply(Change::Domain(name, oid, Some(domain))),
        LockName::Collection(_name) => {}
        LockName::Tile(_name, _oid, _place) => {}
    }
}

fn put_tile<W: WrittenNames>(
    contents: &mut Contents,
    entry: (Name, u64, Point, Arc<Tile>),
    written: &W,
)
    requires { HasRoomFor contents.old (tile_entry entry) }
    ensures put { (name : LockName) → kept_in contents.new name ≡ (if W.is_written written.now (name_changed (tile_entry entry))
        then kept_in contents.old name else placed_by (tile_entry entry) name (kept_in contents.old name)) }
    ensures room { (other : LockName) → HasRoomAt contents.old other → HasRoomAt contents.new other }
{
    let (name, oid, place, tile) = entry;
    let lock = LockName::Tile(name, oid, place);
    if written.contains(&lock) {
        return;
    }
    match lock {
        LockName::Tile(name, oid, place) => {
            contents.apply(Change::Tile(name, oid, place, Some(tile)))
        }
        LockName::Collection(_name) => {}
        LockName::Domain(_name, _oid) => {}
    }
}
