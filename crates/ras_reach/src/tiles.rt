//! Tiles that boxes meet, and the locks on them.
ghost use Rattle.std.specs.Prelude.{◌≡◌, ◌↔◌, map, IfOk, IsTrue, OnOk};
ghost use Rattle.ras_domain.specs.declared.lock.LockName.TheVariants.{Tile};
ghost use Rattle.ras_grid.specs.Grid.{IsGrid, places_meeting};
ghost use Rattle.spec_statements.specs.Phases.{tile_lock, tiles_met as tiles_met_by};
ghost use Rattle.ras_reach.specs.Keys.{put_before};
ghost use Rattle.ras_reach.specs.TileLocks.{points_held};

use crate::boxes::{has_empty, meet};
use crate::locks::LockSet;
use ras_domain::{Interval, LockName, Mode, Name, Point, Region};
use ras_grid::{Extents, tiles_meeting};
use std::alloc::{AllocError, Global};

/// Whether each extent is at least 1.
fn is_grid(extents: &Extents) -> bool
    ensures { IsTrue result ↔ IsGrid extents.now.items }
{
    extents.as_slice().iter().all(|extent| *extent >= 1)
}

/// The places of the tiles that a box meets, in row-major order. The error is want of memory; it also
/// stands for a box that is no region and for extents that don't fit it, which no array has.
pub(crate) fn tiles_of(
    alloc: Global,
    extents: &Extents,
    axes: &[Interval],
) -> Result<Vec<Point>, AllocError>
    ensures { IfOk result (λ places. points_held places.items ≡ places_meeting extents.now.items axes.now) }
{
    let Ok(region) = Region::new(axes) else {
        return Err(AllocError);
    };
    if !is_grid(extents) {
        return Err(AllocError);
    }
    if axes.len() != extents.len() {
        return Err(AllocError);
    }
    tiles_meeting(alloc, &region, extents)
}

/// The places of the tiles of a domain that a box meets, in row-major order. The error is as with
/// [`tiles_of`].
pub(crate) fn tiles_met(
    alloc: Global,
    extents: &Extents,
    domain: &[Interval],
    axes: &[Interval],
) -> Result<Vec<Point>, AllocError>
    ensures { IfOk result (λ places. points_held places.items ≡ tiles_met_by extents.now.items domain.now axes.now) }
{
    let met = meet(alloc, axes, domain)?;
    if has_empty(&met) {
        return Ok(Vec::new(alloc));
    }
    tiles_of(alloc, extents, &met)
}

/// The name of the lock on a tile. The error is want of memory.
pub(crate) fn tile_name(
    alloc: Global,
    collection: &Name,
    oid: u64,
    place: Point,
) -> Result<LockName, AllocError>
    ensures { IfOk result (λ name. name ≡ Tile collection.now oid (record { items = place.items })) }
{
    let collection = collection.try_clone(alloc)?;
    Ok(LockName::Tile(collection, oid, place))
}

/// Puts locks on the tiles at these places among the others. The error is want of memory.
#[tactic(auto, using(crate::proofs::TileLoops::tile_turns))]
pub(crate) fn put_tiles(
    alloc: Global,
    collection: &Name,
    oid: u64,
    mode: Mode,
    places: Vec<Point>,
    set: &mut LockSet,
) -> Result<(), AllocError>
    ensures { OnOk result (set.new ≡ put_before (map (tile_lock collection.now oid mode) (points_held places.items)) set.old) }
{
    let mut left = places;
    while let Some(place) = left.pop() {
        set.put(tile_name(alloc, collection, oid, place)?, mode)?;
    }
    Ok(())
}
