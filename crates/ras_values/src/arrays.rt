//! The arrays that the iterators of a row stand for.
ghost use Rattle.std.specs.Prelude.{◌≡◌, List, option_map, slice_get};
ghost use Rattle.spec_expressions.specs.Database.{Member};
ghost use Rattle.spec_expressions.specs.Eval.{member_cell, member_named};
ghost use Rattle.ras_values.specs.Nodes.{oid_of_member};

use ras_cells::{Cell, CellFault};
use ras_domain::{Name, Point};

/// The arrays of a row, one for each source of a statement, however they are kept.
pub trait Arrays {
    /// The arrays, by their places among the sources.
    ghost members: { Self → List Member };

    /// The cell of the array at this place among the sources, at a point. The fault is
    /// [`CellFault::IndexOut`], where there is no such array or the point isn't in its domain.
    fn cell(&self, place: u32, p: &Point) -> Result<Cell, CellFault>
        ensures { result ≡ member_cell (slice_get (members self.now) place) p.now.items };

    /// The object identifier of the first array whose iterator has this name.
    fn oid(&self, iterator: &Name) -> Option<u64>
        ensures { result ≡ option_map oid_of_member (member_named (members self.now) iterator.now) };
}
