//! The cell of a prepared expression at a point.
ghost use Rattle.std.specs.Prelude.{◌≡◌, Option, List, ℤ, Result, Err, IfSome, IfNone, map};
ghost use Rattle.ras_domain.specs.Region.{points_of};
ghost use Rattle.spec_expressions.specs.Fold.{fold_of, cells_fold_of};
ghost use Rattle.ras_cells.specs.declared.cell.CellFault.{CellFault as CellFaultValue};
ghost use Rattle.ras_values.specs.declared.error.CellError.TheVariants.{Memory};
ghost use Rattle.ras_values.specs.Nodes.{axes_kept, cells_of_node, composed_of, condensed_at, each_cell};
ghost use Rattle.ras_values.specs.Nodes.{joined_at, part_cells, position_cells, positions_by, seen_at};
ghost use Rattle.ras_values.specs.Given.{GivesCell, GivesSeen, point_seen};

use crate::arrays::Arrays;
use crate::boxes::{after, axes_of, first_point, has_point, volume_of};
use crate::error::CellError;
use crate::moves::{moved_back, moved_to};
use crate::node::{Node, Part, Position};
use crate::operations::{copy_of, side_by_side};
use crate::outcomes::{
    Outcome, binary, cast_of, component_of, coordinate, test_of, told, unary, within,
};
use crate::points::{Points, copied};
use crate::positions::{with_coordinate, with_number};
use crate::tally::{Rule, Tally, rule_of};
use ras_cells::{Cell, CellFault, Numbers};
use ras_domain::{Point, Region};
use ras_syntax::{CellsFold, FoldOp};

/// The cell of a prepared expression at a point of its shape, over a row and the points of the variables in
/// scope, or its first fault. A scalar has the same cell at every point.
#[cycle(cells)]
pub fn cell<A: Arrays>(node: &Node, row: &A, scope: &mut Points, p: &Point) -> Outcome
    ensures cell { GivesCell (cells_of_node node.now (A.members row.now) scope.old p.now.items) result }
    ensures same { scope.new ≡ scope.old }
{
    match node {
        Node::Constant(x) => Ok(copy_of(x)),
        Node::Faulty(fault) => Err(CellError::Fault(*fault)),
        Node::Member { place } => told(row.cell(*place, p)),
        Node::Coordinate { variable, axis } => Ok(coordinate(scope.get(*variable), axis)),
        Node::Unary { op, e } => {
            let e = cell(e.get(), row, scope, p);
            unary(*op, e)
        }
        Node::Cast { to, e } => {
            let e = cell(e.get(), row, scope, p);
            cast_of(*to, e)
        }
        Node::Binary { op, a, b } => {
            let a = cell(a.get(), row, scope, p);
            let b = cell(b.get(), row, scope, p);
            binary(*op, a, b)
        }
        Node::Index { e, axes, positions } => {
            let q = point_of(positions.as_slice(), row, scope, p);
            looked_at(e.get(), row, scope, within(q, axes))
        }
        Node::AtPoint { e, axes, variable } => {
            let q = copied(scope.get(*variable));
            looked_at(e.get(), row, scope, within(Ok(q), axes))
        }
        Node::Component { e, part } => {
            let e = cell(e.get(), row, scope, p);
            component_of(e, part)
        }
        Node::If {
            condition,
            e,
            other,
        } => {
            let test = cell(condition.get(), row, scope, p);
            match test_of(test) {
                Ok(true) => cell(e.get(), row, scope, p),
                Ok(false) => cell(other.get(), row, scope, p),
                Err(error) => Err(error),
            }
        }
        Node::Composite(parts) => composite(parts.as_slice(), row, scope, p),
        Node::Marray(e) => entered(e.get(), row, scope, p),
        Node::Condense { op, axes, e } => condense(e.get(), *op, axes, row, scope),
        Node::Folded { f, axes, e } => folded(e.get(), *f, axes, row, scope),
        Node::Shift { e, offsets } => moved(e.get(), row, scope, moved_back(offsets, p)),
        Node::Extend { e, axes, zeros } => {
            if has_point(axes, p) {
                cell(e.get(), row, scope, p)
            } else {
                Ok(copy_of(zeros))
            }
        }
        Node::Concat(parts) => joined(parts.as_slice(), row, scope, p),
    }
}

/// The cell at a point, null where there is no point.
#[cycle(cells)]
fn looked_at<A: Arrays>(
    e: &Node,
    row: &A,
    scope: &mut Points,
    q: Result<Option<Point>, CellError>,
) -> Outcome
    ensures cell { (wanted : Result (Option (List ℤ)) CellFaultValue) → GivesSeen point_seen wanted q
        → GivesCell (seen_at (cells_of_node e.now (A.members row.now) scope.old) wanted) result }
    ensures same { scope.new ≡ scope.old }
{
    match q {
        Ok(Some(q)) => cell(e, row, scope, &q),
        Ok(None) => Ok(Cell::Null),
        Err(error) => Err(error),
    }
}

/// The cell at a point that was moved, where it could be.
#[cycle(cells)]
fn moved<A: Arrays>(e: &Node, row: &A, scope: &mut Points, q: Option<Point>) -> Outcome
    ensures cell { IfSome q (λ q. GivesCell (cells_of_node e.now (A.members row.now) scope.old q.items) result) }
    ensures memory { IfNone q (result ≡ Err Memory) }
    ensures same { scope.new ≡ scope.old }
{
    match q {
        Some(q) => cell(e, row, scope, &q),
        None => Err(CellError::Memory),
    }
}

/// The cell where one more variable stands for the point.
#[cycle(cells)]
fn entered<A: Arrays>(e: &Node, row: &A, scope: &mut Points, q: &Point) -> Outcome
    ensures cell { GivesCell (condensed_at (cells_of_node e.now) (A.members row.now) scope.old q.now.items) result }
    ensures same { scope.new ≡ scope.old }
{
    match scope.enter(q) {
        Ok(()) => {
            let x = cell(e, row, scope, &Point::new());
            scope.leave();
            x
        }
        Err(_) => Err(CellError::Memory),
    }
}

/// The fold of the cells where one more variable stands for each point of a box, up to the first fault.
#[cycle(cells)]
fn condense<A: Arrays>(
    e: &Node,
    op: FoldOp,
    axes: &Option<Region>,
    row: &A,
    scope: &mut Points,
) -> Outcome
    ensures cell { GivesCell (fold_of op
        (map (condensed_at (cells_of_node e.now) (A.members row.now) scope.old) (points_of (axes_kept axes.now)))) result }
    ensures same { scope.new ≡ scope.old }
{
    let mut tally = Tally::new(Rule::Fold(op));
    let mut q = first_point(axes);
    for _ in 0..volume_of(axes) {
        let x = entered(e, row, scope, &q)?;
        tally.add(&x);
        q = after(axes, q);
    }
    told(tally.close())
}

/// The fold of the cells at each point of a box, up to the first fault.
#[cycle(cells)]
fn folded<A: Arrays>(
    e: &Node,
    f: CellsFold,
    axes: &Option<Region>,
    row: &A,
    scope: &mut Points,
) -> Outcome
    ensures cell { GivesCell (cells_fold_of f
        (map (cells_of_node e.now (A.members row.now) scope.old) (points_of (axes_kept axes.now)))) result }
    ensures same { scope.new ≡ scope.old }
{
    let mut tally = Tally::new(rule_of(f));
    let mut q = first_point(axes);
    for _ in 0..volume_of(axes) {
        let x = cell(e, row, scope, &q)?;
        tally.add(&x);
        q = after(axes, q);
    }
    told(tally.close())
}

/// The components side by side.
#[cycle(cells)]
fn composite<A: Arrays>(parts: &[Node], row: &A, scope: &mut Points, p: &Point) -> Outcome
    ensures cell { GivesCell (composed_of (each_cell (map cells_of_node parts.now)
        (A.members row.now) scope.old p.now.items)) result }
    ensures same { scope.new ≡ scope.old }
{
    let mut whole = Cell::Value(Numbers::new());
    for part in parts {
        let x = cell(part, row, scope, p)?;
        let Some(both) = side_by_side(&whole, &x) else {
            return Err(CellError::Memory);
        };
        whole = both;
    }
    Ok(whole)
}

/// The point at which an index looks.
#[cycle(cells)]
fn point_of<A: Arrays>(
    positions: &[Position],
    row: &A,
    scope: &mut Points,
    p: &Point,
) -> Result<Option<Point>, CellError>
    ensures point { GivesSeen point_seen
        (positions_by (map position_cells positions.now) (A.members row.now) scope.old p.now.items) result }
    ensures same { scope.new ≡ scope.old }
{
    let mut q = Some(Point::new());
    let mut left = p.as_slice();
    for position in positions {
        match position {
            Position::At(e) => {
                let x = cell(e, row, scope, &Point::new())?;
                let Ok(more) = with_number(q, &x) else {
                    return Err(CellError::Memory);
                };
                q = more;
            }
            Position::Kept => {
                let [coordinate, others @ ..] = left else {
                    return Ok(q);
                };
                let Ok(more) = with_coordinate(q, coordinate) else {
                    return Err(CellError::Memory);
                };
                q = more;
                left = others;
            }
        }
    }
    Ok(q)
}

/// The cell of the part whose place has the point.
#[cycle(cells)]
fn joined<A: Arrays>(parts: &[Part], row: &A, scope: &mut Points, p: &Point) -> Outcome
    ensures cell { GivesCell (joined_at (map part_cells parts.now) (A.members row.now) scope.old p.now.items) result }
    ensures same { scope.new ≡ scope.old }
{
    for part in parts {
        if has_point(&part.place, p) {
            let q = moved_to(axes_of(&part.place), axes_of(&part.own), p);
            return moved(&part.e, row, scope, q);
        }
    }
    Err(CellError::Fault(CellFault::IndexOut))
}
