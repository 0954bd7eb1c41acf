//! The tiles whose box changes where a domain grows.
ghost use Rattle.std.specs.Prelude.{◌≡◌, IfOk, OnOk, length, map, not, filter};
ghost use Rattle.ras_domain.specs.Boxes.{is_same_box};
ghost use Rattle.ras_domain.specs.Region.{is_in};
ghost use Rattle.ras_grid.specs.Grid.{IsGrid, place_box, tile_in};
ghost use Rattle.law_work.specs.ChangesFor.{is_grown_place};
ghost use Rattle.ras_work.specs.Rows.{IsFitting, places_grown};

use crate::copies::copy_of_place;
use ras_domain::{Point, Region};
use ras_grid::{Extents, tile_box, tiles_meeting};
use ras_store::Write;
use ras_syntax::SetType;
use std::alloc::{AllocError, Global};

/// The places of the tiles whose box changes, and which the write doesn't meet. The error is want of memory.
pub(crate) fn grown_places(
    alloc: Global,
    extents: &Extents,
    old: &Region,
    write: &Write,
) -> Result<Vec<Point>, AllocError>
    requires extents { IsGrid extents.now.items }
    requires old_axes { length old.now ≡ length extents.now.items }
    requires grown_axes { length write.now.grown ≡ length extents.now.items }
    requires region_axes { length write.now.region ≡ length extents.now.items }
    ensures { IfOk result (λ places. map (λ place. place.items) places.items
        ≡ places_grown extents.now.items old.now write.now.grown write.now.region) }
{
    if is_same(old, &write.grown) {
        return Ok(Vec::new(alloc));
    }
    let places = tiles_meeting(alloc, &write.grown, extents)?;
    changed_places(alloc, extents, old, write, places.as_slice())
}

/// Those of some places. The error is want of memory, or a place at which the greater domain has no tile.
fn changed_places(
    alloc: Global,
    extents: &Extents,
    old: &Region,
    write: &Write,
    places: &[Point],
) -> Result<Vec<Point>, AllocError>
    requires extents { IsGrid extents.now.items }
    requires old_axes { length old.now ≡ length extents.now.items }
    requires grown_axes { length write.now.grown ≡ length extents.now.items }
    requires region_axes { length write.now.region ≡ length extents.now.items }
    ensures { IfOk result (λ changed. map (λ place. place.items) changed.items
        ≡ filter (is_grown_place extents.now.items old.now write.now.grown write.now.region) (map (λ place. place.items) places.now)) }
{
    let mut changed = Vec::new(alloc);
    for place in places {
        if is_grown(extents, old, write, place)? {
            changed.push(copy_of_place(place)?)?;
        }
    }
    Ok(changed)
}

/// Whether the box of the tile at a place changes, and the write doesn't meet it.
fn is_grown(
    extents: &Extents,
    old: &Region,
    write: &Write,
    place: &Point,
) -> Result<bool, AllocError>
    requires extents { IsGrid extents.now.items }
    requires old_axes { length old.now ≡ length extents.now.items }
    requires grown_axes { length write.now.grown ≡ length extents.now.items }
    requires region_axes { length write.now.region ≡ length extents.now.items }
    ensures { IfOk result (λ grown. grown
        ≡ is_grown_place extents.now.items old.now write.now.grown write.now.region place.now.items) }
{
    let changes = is_changed(extents, old, &write.grown, place)?;
    let is_free = !is_met(extents, &write.region, place)?;
    Ok(changes && is_free)
}

/// Whether a region meets the tile at a place. The error is a place of another number of coordinates.
fn is_met(extents: &Extents, region: &Region, place: &Point) -> Result<bool, AllocError>
    requires extents { IsGrid extents.now.items }
    requires axes { length region.now ≡ length extents.now.items }
    ensures { IfOk result (λ met. met ≡ is_in place.now.items (place_box extents.now.items region.now)) }
{
    if place.len() != extents.len() {
        return Err(AllocError);
    }
    let _axes = region.axes();
    let met = tile_box(place, extents, region);
    Ok(met.is_some())
}

/// Whether the box of the tile at a place changes.
fn is_changed(
    extents: &Extents,
    old: &Region,
    grown: &Region,
    place: &Point,
) -> Result<bool, AllocError>
    requires extents { IsGrid extents.now.items }
    requires old_axes { length old.now ≡ length extents.now.items }
    requires grown_axes { length grown.now ≡ length extents.now.items }
    ensures { IfOk result (λ changed. changed
        ≡ not (is_same_box (tile_in extents.now.items old.now place.now.items) (tile_in extents.now.items grown.now place.now.items))) }
{
    if place.len() != extents.len() {
        return Err(AllocError);
    }
    let Some(after) = tile_box(place, extents, grown) else {
        return Err(AllocError);
    };
    match tile_box(place, extents, old) {
        Some(before) => Ok(!is_same(&before, &after)),
        None => Ok(true),
    }
}

/// Whether two boxes have the same intervals.
pub(crate) fn is_same(a: &Region, b: &Region) -> bool
    ensures { result ≡ is_same_box a.now b.now }
{
    a.axes() == b.axes()
}

/// Looks whether a write is one of an array of this type on a domain, which it leaves or makes greater.
pub(crate) fn look(of: &SetType, write: &Write, old: &Region) -> Result<(), AllocError>
    ensures { OnOk result (IsFitting of.now write.now old.now) }
{
    let axes = of.extents.len();
    if write.region.axes().len() != axes {
        return Err(AllocError);
    }
    if write.grown.axes().len() != axes {
        return Err(AllocError);
    }
    if old.axes().len() != axes {
        return Err(AllocError);
    }
    if write.cells.len() as u64 != write.region.volume() {
        return Err(AllocError);
    }
    if !write.grown.covers(old) {
        return Err(AllocError);
    }
    Ok(())
}
