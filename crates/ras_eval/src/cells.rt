//! The cells of an expression, each tested for what it is computed for.
ghost use Rattle.std.specs.Prelude.{◌≡◌, ◌+◌, ◌<◌, ℕ, List, [], ◌∷◌, ◌++◌, length, slice_get, IfErr, IfSome, OnOk};
ghost use Rattle.ras_domain.specs.Region.{IsIn, points_of};
ghost use Rattle.ras_eval.specs.Cells.{cell_for, cells_for, stored_for};
ghost use Rattle.ras_eval.specs.Given.{GivesCells};
ghost use Rattle.ras_eval.specs.declared.stops.CellStop.TheVariants.{Memory};
ghost use Rattle.ras_shape.specs.Gives.{shape_of_form};
ghost use Rattle.ras_values.specs.Nodes.{cells_of_node};
ghost use Rattle.spec_expressions.specs.Shape.{box_of};

use crate::purpose::{Purpose, check, has_width};
use crate::stops::{CellStop, stop_at};
use ras_cells::Cell;
use ras_domain::{Point, Region};
use ras_shape::Form;
use ras_syntax::CellList;
use ras_values::{Arrays, Node, Points, cell};
use std::alloc::Global;

/// The cells at all points of what an expression stands for, in row-major order, or the least point
/// whose cell has a fault or can't be what it is computed for. All of them have room from the start.
/// A cell with another count of numbers than `width`, which no checked expression has, is answered as
/// want of memory.
pub(crate) fn cells_of<A: Arrays>(
    alloc: Global,
    node: &Node,
    row: &A,
    form: &Form,
    width: u32,
    purpose: &Purpose<'_>,
) -> Result<CellList, CellStop>
    ensures { GivesCells (λ list. list.cells) (cells_for (stored_for purpose.now)
        (cells_of_node node.now (A.members row.now) []) (points_of (box_of (shape_of_form form.now)))) result }
{
    match form {
        Form::Scalar => alone(alloc, node, row, width, purpose),
        Form::Array(region) | Form::Domain(region) => {
            cells_in(alloc, node, row, region, width, purpose)
        }
    }
}

/// The list of the one cell of a scalar.
fn alone<A: Arrays>(
    alloc: Global,
    node: &Node,
    row: &A,
    width: u32,
    purpose: &Purpose<'_>,
) -> Result<CellList, CellStop>
    ensures { GivesCells (λ list. list.cells) (cells_for (stored_for purpose.now)
        (cells_of_node node.now (A.members row.now) []) ([] ∷ [])) result }
{
    let x = scalar(alloc, node, row, purpose)?;
    let mut cells = CellList::with_room(alloc, width, 1)?;
    put(&mut cells, width, &x)?;
    Ok(cells)
}

/// The one cell of a scalar.
pub(crate) fn scalar<A: Arrays>(
    alloc: Global,
    node: &Node,
    row: &A,
    purpose: &Purpose<'_>,
) -> Result<Cell, CellStop>
    ensures { GivesCells (λ x. x) (cell_for (stored_for purpose.now) (cells_of_node node.now (A.members row.now) []) []) result }
{
    let mut scope = Points::new(alloc);
    cell_at(node, row, &mut scope, &Point::new(), purpose)
}

/// The cells at the points of a region.
fn cells_in<A: Arrays>(
    alloc: Global,
    node: &Node,
    row: &A,
    region: &Region,
    width: u32,
    purpose: &Purpose<'_>,
) -> Result<CellList, CellStop>
    ensures { GivesCells (λ list. list.cells) (cells_for (stored_for purpose.now)
        (cells_of_node node.now (A.members row.now) []) (points_of region.now)) result }
{
    let count = region.volume();
    let mut cells = CellList::with_room(alloc, width, count as usize)?;
    let mut scope = Points::new(alloc);
    let mut p = region.first_point();
    for _ in 0..count {
        let x = cell_at(node, row, &mut scope, &p, purpose)?;
        put(&mut cells, width, &x)?;
        p = after(region, p);
    }
    Ok(cells)
}

/// The cell at a point, or its fault, or the fault of what it is computed for.
fn cell_at<A: Arrays>(
    node: &Node,
    row: &A,
    scope: &mut Points,
    p: &Point,
    purpose: &Purpose<'_>,
) -> Result<Cell, CellStop>
    ensures cell { GivesCells (λ x. x) (cell_for (stored_for purpose.now)
        (cells_of_node node.now (A.members row.now) scope.old) p.now.items) result }
    ensures same { scope.new ≡ scope.old }
{
    match cell(node, row, scope, p) {
        Ok(x) => match check(purpose, &x) {
            Ok(()) => Ok(x),
            Err(error) => Err(stop_at(p, error)),
        },
        Err(error) => Err(stop_at(p, error)),
    }
}

/// Puts a cell at the end of a list of cells with this many numbers. The error, which is want of memory,
/// comes where the cell has another count of them.
fn put(cells: &mut CellList, width: u32, x: &Cell) -> Result<(), CellStop>
    requires room { length cells.old.cells < cells.old.room }
    requires width { cells.old.width ≡ width }
    ensures ok { OnOk result (cells.new ≡ record (cells.old) { cells = cells.old.cells ++ x.now ∷ [] }) }
    ensures err { IfErr result (λ stop. stop ≡ Memory) }
{
    if !has_width(x, width as usize) {
        return Err(CellStop::Memory);
    }
    cells.push(x);
    Ok(())
}

/// The point after `p` in row-major order, and `p` itself where it is the last.
fn after(region: &Region, p: Point) -> Point
    requires { IsIn p.items region.now }
    ensures { (place : ℕ) → slice_get (points_of region.now) place ≡ Some p.items
        → IfSome (slice_get (points_of region.now) (place + 1)) (λ next. next ≡ result.items) }
{
    match region.next_point(&p) {
        Some(next) => next,
        None => p,
    }
}
