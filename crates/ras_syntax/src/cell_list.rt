ghost use Rattle.std.specs.Prelude.{◌≡◌, ◌+◌, ◌*◌, ◌<◌, ◌≤◌, [], ◌∷◌, ◌++◌, length, take, drop, min, slice_get, Some, IfOk, IsTrue, ◌↔◌};

use ras_cells::{Cell, MAX_COMPONENTS, Numbers};
use std::alloc::{AllocError, Global};
use std::marker::Model;

/// Cells of one width, each null or with that many numbers. Contracts see the width, the list of the
/// cells, and how many cells there is room for.
///
/// The numbers of all cells stand in one vector, and whether each cell is null in another, so that
/// no cell has memory of its own.
#[derive(Debug, Drop)]
pub struct CellList {
    width: u32,
    /// The same count of numbers for each cell, zeros for a null one.
    numbers: Vec<i64>,
    /// Whether each cell is null.
    nulls: Vec<bool>,
    room: usize,
}

impl Model for CellList {
    ghost use Rattle.std.specs.Prelude.{vec_capacity};
    ghost use Rattle.ras_syntax.specs.CellList.{Cells, IsKept, cells_from, stride_of};

    ghost Value = { Cells };

    ghost view = { λ l. record { width = l.width; cells = cells_from (stride_of l.width) l.numbers.items l.nulls.items; room = l.room } };

    ghost invariant = { λ l. IsKept l.width l.room l.numbers.items l.nulls.items (vec_capacity l.numbers) (vec_capacity l.nulls) };
}

impl CellList {
    ghost use Rattle.ras_syntax.specs.CellList.{HasWidth, cell_from};

    /// The empty list, with room for this many cells of this many numbers. The error is want of
    /// memory, which comes also where there are more numbers than memory has places.
    pub fn with_room(alloc: Global, width: u32, cells: usize) -> Result<CellList, AllocError>
        ensures { IfOk result (λ list. list ≡ record { width = width; cells = []; room = cells }) }
    {
        let numbers = stride(width).checked_mul(cells).ok_or(AllocError)?;
        Ok(CellList {
            width,
            numbers: Vec::with_capacity(alloc, numbers)?,
            nulls: Vec::with_capacity(alloc, cells)?,
            room: cells,
        })
    }

    /// Puts a cell at the end. It takes no memory.
    pub fn push(&mut self, c: &Cell)
        requires room { length self.old.cells < self.old.room }
        requires width { HasWidth self.old.width c.now }
        ensures { self.new ≡ record (self.old) { cells = self.old.cells ++ c.now ∷ [] } }
    {
        match c {
            Cell::Null => {
                let zeros = [0; MAX_COMPONENTS];
                self.put(&zeros[..stride(self.width)], true);
            }
            Cell::Value(numbers) => self.put(numbers.as_slice(), false),
        }
    }

    /// How many cells there are.
    pub fn len(&self) -> usize
        ensures { result ≡ length self.now.cells }
    {
        self.nulls.len()
    }

    /// Whether there is no cell.
    pub fn is_empty(&self) -> bool
        ensures { IsTrue result ↔ (self.now.cells ≡ []) }
    {
        self.len() == 0
    }

    /// The cell at a place, counted from 0.
    pub fn get(&self, place: usize) -> Cell
        requires { place < length self.now.cells }
        ensures cell { slice_get self.now.cells place ≡ Some result }
        ensures width { HasWidth self.now.width result }
    {
        if self.nulls[place] {
            return Cell::Null;
        }
        Cell::Value(numbers_at(self.numbers.as_slice(), stride(self.width), place))
    }

    /// Puts the cell at the end that is kept as these numbers.
    fn put(&mut self, numbers: &[i64], is_null: bool)
        requires room { length self.old.cells < self.old.room }
        requires stride { length numbers.now ≡ min self.old.width MAX_COMPONENTS }
        requires width { HasWidth self.old.width (cell_from is_null numbers.now) }
        ensures { self.new ≡ record (self.old) { cells = self.old.cells ++ cell_from is_null numbers.now ∷ [] } }
    {
        self.numbers.extend_from_slice(numbers).unwrap();
        self.nulls.push_reserved(is_null);
    }
}

/// How many numbers are kept for each cell of a width: of a greater width than [`MAX_COMPONENTS`]
/// there are nulls alone.
fn stride(width: u32) -> usize
    ensures { result ≡ min width MAX_COMPONENTS }
{
    (width as usize).min(MAX_COMPONENTS)
}

/// The numbers of the cell at a place, where so many numbers are kept for each.
fn numbers_at(numbers: &[i64], stride: usize, place: usize) -> Numbers
    requires few { stride ≤ MAX_COMPONENTS }
    requires within { stride * place + stride ≤ length numbers.now }
    ensures { result.items ≡ take stride (drop (stride * place) numbers.now) }
{
    let from = stride * place;
    Numbers::try_from(&numbers[from..from + stride]).unwrap()
}
