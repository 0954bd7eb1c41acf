//! What becomes of the cells that are computed.
ghost use Rattle.std.specs.Prelude.{◌≡◌, true};
ghost use Rattle.ras_cells.specs.Stored.{HasWidthOf};
ghost use Rattle.ras_eval.specs.Cells.{stored_for};
ghost use Rattle.ras_eval.specs.Given.{IsStorable};
ghost use Rattle.ras_syntax.specs.CellList.{HasWidth};
ghost use Rattle.spec_statements.specs.Effects.{insert_store};

use ras_cells::{Cell, to_stored};
use ras_syntax::SetType;
use ras_values::CellError;

/// What cells are computed for.
#[derive(Clone, Copy)]
pub(crate) enum Purpose<'a> {
    /// They are answered.
    Answer,
    /// They are stored in a new array of this type; a null is stored as its first null value.
    Insert(&'a SetType),
    /// They are stored over those of an array of this type; a null leaves what is there.
    Update(&'a SetType),
}

/// Tests whether a cell can be what it is computed for. The fault is that of its storing.
pub(crate) fn check(purpose: &Purpose<'_>, x: &Cell) -> Result<(), CellError>
    ensures { IsStorable (stored_for purpose.now x.now) result }
{
    match purpose {
        Purpose::Answer => Ok(()),
        Purpose::Insert(of) => check_store(of, x),
        Purpose::Update(of) => match x {
            Cell::Null => Ok(()),
            Cell::Value(_) => check_store(of, x),
        },
    }
}

/// Tests whether a cell can be stored in an array of this type. A cell with another count of numbers
/// than the type's, which no checked statement has, is answered as want of memory.
fn check_store(of: &SetType, x: &Cell) -> Result<(), CellError>
    ensures { IsStorable (insert_store of.now x.now) result }
{
    if !has_width(x, of.cell.atoms().len()) {
        return Err(CellError::Memory);
    }
    match to_stored(x, &of.cell, &of.nulls) {
        Ok(_) => Ok(()),
        Err(fault) => Err(CellError::Fault(fault)),
    }
}

/// Whether a cell is null or has this many numbers.
pub(crate) fn has_width(x: &Cell, width: usize) -> bool
    ensures { result ≡ true → HasWidth width x.now }
{
    match x {
        Cell::Null => true,
        Cell::Value(numbers) => numbers.len() == width,
    }
}
