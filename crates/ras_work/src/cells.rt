//! What is stored at the points of a tile.
ghost use Rattle.std.specs.Prelude.{◌≡◌, IfSome, option_map, length};
ghost use Rattle.std.specs.Option.{option_copied};
ghost use Rattle.ras_cells.specs.Atoms.{AreInRange};
ghost use Rattle.ras_cells.specs.Stored.{HasWidthOf, atoms_of, default_of};
ghost use Rattle.spec_expressions.specs.Database.{stored_at};
ghost use Rattle.spec_statements.specs.Effects.{insert_store, or_else, store_for};
ghost use Rattle.law_work.specs.ChangesFor.{array_held};
ghost use Rattle.law_work.specs.Writes.{numbers_stored, stores_of_write};
ghost use Rattle.ras_work.specs.Stores.{number_written, store_by, tile_held_of};

use ras_cells::{Cell, Numbers, default_cell, to_stored};
use ras_domain::Point;
use ras_store::Write;
use ras_syntax::SetType;
use ras_tile::Tile;
use std::sync::Arc;

/// What becomes of a cell where null is written.
#[derive(Clone, Copy, Debug)]
pub(crate) enum NullRule {
    /// The first null value is stored there.
    Stored,
    /// It stays as it is.
    Left,
}

/// The numbers at a point of a tile after a write, over the tile that was there. None where they don't
/// fit the type.
pub(crate) fn numbers_at(
    of: &SetType,
    rule: NullRule,
    write: &Write,
    old: Option<&Arc<Tile>>,
    p: &Point,
) -> Option<Numbers>
    ensures numbers { IfSome result (λ numbers. numbers.items
        ≡ number_written of.now rule write.now (tile_held_of (option_copied old.entry)) p.now.items) }
    ensures range { IfSome result (λ numbers. AreInRange (atoms_of of.now.cell) numbers.items) }
{
    match written_at(of, rule, write, p)? {
        Some(numbers) => fitting(of, numbers),
        None => fitting(of, standing_at(of, old, p)),
    }
}

/// The same numbers, where they fit the type.
fn fitting(of: &SetType, numbers: Numbers) -> Option<Numbers>
    ensures same { IfSome result (λ fit. fit.items ≡ numbers.items) }
    ensures range { IfSome result (λ fit. AreInRange (atoms_of of.now.cell) fit.items) }
{
    if numbers.len() != of.cell.atoms().len() {
        return None;
    }
    match to_stored(&Cell::Value(numbers), &of.cell, &of.nulls) {
        Ok(fit) => Some(fit),
        Err(_) => None,
    }
}

/// What a write stores at a point, and none where it leaves the cell as it is. None of all where the
/// cell can't be stored.
fn written_at(of: &SetType, rule: NullRule, write: &Write, p: &Point) -> Option<Option<Numbers>>
    ensures { IfSome result (λ stored. option_map (λ n. n.items) stored
        ≡ store_for p.now.items (stores_of_write (store_by rule of.now) write.now)) }
{
    if !write.region.contains(p) {
        return Some(None);
    }
    let place = write.region.row_place(p) as usize;
    if place >= write.cells.len() {
        return None;
    }
    stored_of(of, rule, &write.cells.get(place))
}

/// What a cell is stored as, and none where the one that is there stays.
fn stored_of(of: &SetType, rule: NullRule, cell: &Cell) -> Option<Option<Numbers>>
    ensures { IfSome result (λ stored. option_map (λ n. n.items) stored ≡ numbers_stored (store_by rule of.now cell.now)) }
{
    match cell {
        Cell::Null => match rule {
            NullRule::Stored => put(of, cell),
            NullRule::Left => Some(None),
        },
        Cell::Value(numbers) => {
            if numbers.len() == of.cell.atoms().len() {
                put(of, cell)
            } else {
                None
            }
        }
    }
}

/// What a cell of the type's width is stored as.
fn put(of: &SetType, cell: &Cell) -> Option<Option<Numbers>>
    requires { HasWidthOf of.now.cell cell.now }
    ensures null { IfSome result (λ stored. option_map (λ n. n.items) stored ≡ numbers_stored (insert_store of.now cell.now)) }
{
    match to_stored(cell, &of.cell, &of.nulls) {
        Ok(numbers) => Some(Some(numbers)),
        Err(_) => None,
    }
}

/// The numbers that stand at a point: the old tile's, or else those of the default cell.
fn standing_at(of: &SetType, old: Option<&Arc<Tile>>, p: &Point) -> Numbers
    ensures { result.items ≡ or_else (stored_at (array_held (tile_held_of (option_copied old.entry))) p.now.items)
        (default_of of.now.cell of.now.nulls).items }
{
    match old {
        Some(tile) => {
            if tile.region().contains(p) {
                tile.get(p)
            } else {
                default_cell(&of.cell, &of.nulls)
            }
        }
        None => default_cell(&of.cell, &of.nulls),
    }
}
