//! Copies of changes, which share the tiles.
ghost use Rattle.std.specs.Prelude.{◌≡◌, IfOk};
ghost use Rattle.ras_store.specs.Kept.{kept_tile};
ghost use Rattle.ras_work.specs.Copies.{AreCopies, put_by};

use crate::rows::add;
use ras_domain::{Point, Region};
use ras_store::{Change, Changes, CollectionInfo};
use ras_tile::Tile;
use std::alloc::{AllocError, Global};
use std::sync::Arc;

/// Changes that replace the same. The error is want of memory.
pub(crate) fn copies_of(alloc: Global, changes: &[Change]) -> Result<Changes, AllocError>
    ensures { IfOk result (AreCopies changes.now) }
{
    let mut copies = Changes::new(alloc);
    for change in changes {
        add(alloc, &mut copies, copy_of(alloc, change)?)?;
    }
    Ok(copies)
}

/// A change that replaces the same.
fn copy_of(alloc: Global, change: &Change) -> Result<Change, AllocError>
    ensures { IfOk result (λ copy. put_by copy ≡ put_by change.now) }
{
    match change {
        Change::Collection(name, info) => {
            Ok(Change::Collection(name.try_clone(alloc)?, copy_of_info(alloc, info)?))
        }
        Change::Domain(name, oid, domain) => {
            Ok(Change::Domain(name.try_clone(alloc)?, *oid, copy_of_domain(domain)))
        }
        Change::Tile(name, oid, place, tile) => {
            let name = name.try_clone(alloc)?;
            Ok(Change::Tile(name, *oid, copy_of_place(place)?, copy_of_tile(tile)?))
        }
    }
}

/// The same information, or none.
fn copy_of_info(
    alloc: Global,
    info: &Option<CollectionInfo>,
) -> Result<Option<CollectionInfo>, AllocError>
    ensures { IfOk result (λ copy. copy ≡ info.now) }
{
    match info {
        Some(info) => Ok(Some(info.try_clone(alloc)?)),
        None => Ok(None),
    }
}

/// The same box, or none.
fn copy_of_domain(domain: &Option<Region>) -> Option<Region>
    ensures { result ≡ domain.now }
{
    match domain {
        Some(domain) => Some(copy_of_region(domain)),
        None => None,
    }
}

/// The same box.
pub(crate) fn copy_of_region(region: &Region) -> Region
    ensures { result ≡ region.now }
{
    match Region::new(region.axes()) {
        Ok(copy) => copy,
        Err(_) => unreachable!(),
    }
}

/// The same tile, shared, or none.
fn copy_of_tile(tile: &Option<Arc<Tile>>) -> Result<Option<Arc<Tile>>, AllocError>
    ensures { IfOk result (λ copy. kept_tile copy ≡ kept_tile tile.now) }
{
    match tile {
        Some(tile) => Ok(Some(Arc::try_clone(tile)?)),
        None => Ok(None),
    }
}

/// The same place.
pub(crate) fn copy_of_place(place: &Point) -> Result<Point, AllocError>
    ensures { IfOk result (λ copy. copy ≡ place.now) }
{
    place.clone()
}
