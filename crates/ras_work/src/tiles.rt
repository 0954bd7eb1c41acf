//! The tiles that a write leaves.
ghost use Rattle.std.specs.Prelude.{◌≡◌, ◌≤◌, ◌++◌, ◌∷◌, [], IfOk, OnOk, IsTrue, length, map};
ghost use Rattle.std.specs.Option.{option_copied};
ghost use Rattle.ras_cells.specs.Stored.{atoms_of};
ghost use Rattle.ras_domain.specs.Region.{points_of};
ghost use Rattle.ras_grid.specs.Grid.{IsGrid};
ghost use Rattle.ras_store.specs.Databases.{holdings_of};
ghost use Rattle.ras_store.specs.View.{view_kept};
ghost use Rattle.law_work.specs.ChangesFor.{tile_replaced};
ghost use Rattle.law_work.specs.Replacements.{replacement_of};
ghost use Rattle.law_work.specs.Writes.{stores_of_write};
ghost use Rattle.ras_work.specs.Filled.{IsFilledUpTo};
ghost use Rattle.ras_work.specs.Stores.{IsWrittenTile, store_by, tile_held_of};

use crate::cells::{NullRule, numbers_at};
use ras_cells::default_cell;
use ras_domain::{MAX_TILE_CELLS, Name, Point, Region};
use ras_grid::tile_box;
use ras_store::{Change, Changes, View, Write};
use ras_syntax::SetType;
use ras_tile::Tile;
use std::alloc::{AllocError, Global};
use std::sync::Arc;

/// The tile on a box after a write, over the tile that was there. The error is want of memory, or a cell
/// that doesn't fit the type.
pub(crate) fn tile_on(
    alloc: Global,
    of: &SetType,
    rule: NullRule,
    write: &Write,
    old: Option<&Arc<Tile>>,
    region: Region,
) -> Result<Tile, AllocError>
    ensures { IfOk result (IsWrittenTile of.now rule write.now (tile_held_of (option_copied old.entry)) region) }
{
    if region.volume() > MAX_TILE_CELLS as u64 {
        return Err(AllocError);
    }
    let numbers = default_cell(&of.cell, &of.nulls);
    let mut tile = Tile::filled(alloc, region, &numbers)?;
    fill(of, rule, write, old, &mut tile)?;
    tile.pack(alloc, &of.cell)
}

/// Writes each cell of a tile.
fn fill(
    of: &SetType,
    rule: NullRule,
    write: &Write,
    old: Option<&Arc<Tile>>,
    tile: &mut Tile,
) -> Result<(), AllocError>
    requires writable { IsTrue tile.old.writable }
    requires width { tile.old.width ≡ length (atoms_of of.now.cell) }
    ensures { OnOk result (IsFilledUpTo of.now rule write.now (tile_held_of (option_copied old.entry))
        (length (points_of tile.old.region)) tile.old tile.new) }
{
    let volume = tile.region().volume();
    for place in 0..volume {
        let p = tile.region().point_at(place);
        match numbers_at(of, rule, write, old, &p) {
            Some(numbers) => tile.set(&p, &numbers),
            None => return Err(AllocError),
        }
    }
    Ok(())
}
