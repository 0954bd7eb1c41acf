//! The arrays of a row, for the evaluation of an expression.

use ras_cells::{Cell, CellFault};
use ras_domain::{Name, Point};
use ras_rows::ShownArray;
use ras_values::Arrays;

/// The arrays of a row, one for each source.
#[derive(Drop)]
pub(crate) struct RowArrays<'r, 'a> {
    pub(crate) arrays: &'r [ShownArray<'a>],
}

impl<'r, 'a> Arrays for RowArrays<'r, 'a> {
    ghost members = { λ row. row.arrays.now };

    fn cell(&self, place: u32, p: &Point) -> Result<Cell, CellFault> {
        match self.arrays.get(place as usize) {
            Some(array) => array.cell(p),
            None => Err(CellFault::IndexOut),
        }
    }

    fn oid(&self, iterator: &Name) -> Option<u64> {
        for array in self.arrays {
            if *iterator == *array.iterator() {
                return Some(array.oid());
            }
        }
        None
    }
}
