//! The changes of one array that is written.
ghost use Rattle.std.specs.Prelude.{◌≡◌, ◌++◌, ◌∷◌, [], OnOk, length, map};
ghost use Rattle.ras_grid.specs.Grid.{IsGrid};
ghost use Rattle.ras_store.specs.Databases.{holdings_of};
ghost use Rattle.ras_store.specs.View.{view_kept};
ghost use Rattle.law_work.specs.ChangesFor.{domain_replaced};
ghost use Rattle.law_work.specs.Replacements.{replacement_of};
ghost use Rattle.ras_work.specs.Rows.{IsFitting, row_changes, row_domain, row_tile, row_tiles};

use crate::cells::NullRule;
use crate::copies::{copy_of_place, copy_of_region};
use crate::growth::{grown_places, is_same, look};
use crate::tiles::tile_on;
use ras_domain::{Name, Point, Region};
use ras_grid::{tile_box, tiles_meeting};
use ras_store::{Change, Changes, View, Write};
use ras_syntax::SetType;
use std::alloc::{AllocError, Global};
use std::sync::Arc;

/// An array that is written: its name, its set type, the write, and the view of what was there.
#[derive(Drop)]
pub(crate) struct Row<'a> {
    pub(crate) name: &'a Name,
    pub(crate) oid: u64,
    pub(crate) of: &'a SetType,
    pub(crate) rule: NullRule,
    pub(crate) write: &'a Write,
    pub(crate) view: &'a View,
}

/// Puts a change at the end of others. The error is want of memory.
pub(crate) fn add(alloc: Global, changes: &mut Changes, change: Change) -> Result<(), AllocError>
    ensures { OnOk result (changes.new ≡ changes.old ++ change ∷ []) }
{
    match changes.add(alloc, change) {
        Ok(()) => Ok(()),
        Err(_) => Err(AllocError),
    }
}

/// Puts the tile at a place at the end of the changes. The error is want of memory, or a tile that no
/// statement leaves.
fn add_tile(
    alloc: Global,
    row: &Row,
    place: &Point,
    changes: &mut Changes,
) -> Result<(), AllocError>
    requires extents { IsGrid row.now.of.now.extents.items }
    requires axes { length row.now.write.now.grown ≡ length row.now.of.now.extents.items }
    ensures { OnOk result (map replacement_of changes.new ≡ map replacement_of changes.old ++ row_tile row.now place.now.items ∷ []) }
{
    if place.len() != row.of.extents.len() {
        return Err(AllocError);
    }
    let Some(region) = tile_box(place, &row.of.extents, &row.write.grown) else {
        return Err(AllocError);
    };
    let old = row.view.tile_of(row.name, row.oid, place);
    let tile = tile_on(alloc, row.of, row.rule, row.write, old, region)?;
    let tile = Arc::new(alloc, tile)?;
    let name = row.name.try_clone(alloc)?;
    let place = copy_of_place(place)?;
    add(
        alloc,
        changes,
        Change::Tile(name, row.oid, place, Some(tile)),
    )
}

/// Puts the tiles at some places at the end of the changes.
pub(crate) fn add_tiles(
    alloc: Global,
    row: &Row,
    places: &[Point],
    changes: &mut Changes,
) -> Result<(), AllocError>
    requires extents { IsGrid row.now.of.now.extents.items }
    requires axes { length row.now.write.now.grown ≡ length row.now.of.now.extents.items }
    ensures { OnOk result (map replacement_of changes.new
        ≡ map replacement_of changes.old ++ row_tiles row.now (map (λ place. place.items) places.now)) }
{
    for place in places {
        add_tile(alloc, row, place, changes)?;
    }
    Ok(())
}

/// Puts the new domain at the end of the changes, where it grows.
fn add_domain(
    alloc: Global,
    row: &Row,
    old: &Region,
    changes: &mut Changes,
) -> Result<(), AllocError>
    ensures { OnOk result (map replacement_of changes.new
        ≡ map replacement_of changes.old ++ domain_replaced row.now.name.now row.now.oid old.now row.now.write.now.grown) }
{
    if is_same(old, &row.write.grown) {
        return Ok(());
    }
    let name = row.name.try_clone(alloc)?;
    let grown = copy_of_region(&row.write.grown);
    add(alloc, changes, Change::Domain(name, row.oid, Some(grown)))
}

/// Puts the changes of one array at the end of others. The error is want of memory, or a write that no
/// statement comes to over the view.
pub(crate) fn add_row(alloc: Global, row: &Row, changes: &mut Changes) -> Result<(), AllocError>
    requires { IsGrid row.now.of.now.extents.items }
    ensures changes { OnOk result (map replacement_of changes.new
        ≡ map replacement_of changes.old ++ row_changes row.now (row_domain row.now)) }
    ensures sound { OnOk result (IsFitting row.now.of.now row.now.write.now (row_domain row.now)) }
{
    let Some(old) = row.view.domain_of(row.name, row.oid) else {
        return Err(AllocError);
    };
    look(row.of, row.write, &old)?;
    add_domain(alloc, row, &old, changes)?;
    let met = tiles_meeting(alloc, &row.write.region, &row.of.extents)?;
    add_tiles(alloc, row, met.as_slice(), changes)?;
    let grown = grown_places(alloc, &row.of.extents, &old, row.write)?;
    add_tiles(alloc, row, grown.as_slice(), changes)
}
