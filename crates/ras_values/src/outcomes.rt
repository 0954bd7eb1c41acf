//! What forms make of the outcomes of their parts. The faults of the parts come first, from left to right.
ghost use Rattle.std.specs.Prelude.{◌≡◌, Result, Option, option_map, List, ℤ, Ok};
ghost use Rattle.ras_cells.specs.declared.cell.Cell.{Cell as CellValue};
ghost use Rattle.ras_cells.specs.declared.cell.CellFault.{CellFault as CellFaultValue};
ghost use Rattle.ras_cells.specs.Cells.{outcome1, outcome2};
ghost use Rattle.spec_expressions.specs.Eval.{coordinate_of, holds as holds_of};
ghost use Rattle.ras_values.specs.Nodes.{axes_kept};
ghost use Rattle.ras_values.specs.Given.{GivesCell, GivesSeen, Makes, MakesOfBoth};
ghost use Rattle.ras_values.specs.Given.{tested, cast_outcome, component_in, looked_up, point_seen};

use crate::boxes::has_point;
use crate::error::CellError;
use crate::operations::{at, cast, component, holds, operate1, operate2};
use ras_cells::{Atom, Cell, CellFault, Op1, Op2};
use ras_domain::{Point, Region};

/// A cell, or a fault in place of it.
pub(crate) type Outcome = Result<Cell, CellError>;

/// The outcome of what takes no memory.
pub(crate) fn told(outcome: Result<Cell, CellFault>) -> Outcome
    ensures { GivesCell outcome result }
{
    match outcome {
        Ok(x) => Ok(x),
        Err(fault) => Err(CellError::Fault(fault)),
    }
}

/// An operation on one operand.
pub(crate) fn unary(op: Op1, e: Outcome) -> Outcome
    ensures { Makes (outcome1 op) e result }
{
    match e {
        Ok(x) => told(operate1(op, &x)),
        Err(error) => Err(error),
    }
}

/// A cast.
pub(crate) fn cast_of(to: Atom, e: Outcome) -> Outcome
    ensures { Makes (cast_outcome to) e result }
{
    match e {
        Ok(x) => told(cast(to, &x)),
        Err(error) => Err(error),
    }
}

/// An operation on two operands.
pub(crate) fn binary(op: Op2, a: Outcome, b: Outcome) -> Outcome
    ensures { MakesOfBoth (outcome2 op) a b result }
{
    match (a, b) {
        (Ok(x), Ok(y)) => told(operate2(op, &x, &y)),
        (Err(error), _) => Err(error),
        (Ok(_), Err(error)) => Err(error),
    }
}

/// A component.
pub(crate) fn component_of(e: Outcome, part: &i64) -> Outcome
    ensures { Makes (component_in part.now) e result }
{
    match e {
        Ok(x) => Ok(component(&x, part)),
        Err(error) => Err(error),
    }
}

/// Whether a condition holds.
pub(crate) fn test_of(e: Outcome) -> Result<bool, CellError>
    ensures { (wanted : Result CellValue CellFaultValue) → GivesCell wanted e → GivesSeen (λ b. b) (tested wanted) result }
{
    match e {
        Ok(x) => Ok(holds(&x)),
        Err(error) => Err(error),
    }
}

/// The coordinate on this axis, and null where there is none.
pub(crate) fn coordinate(p: Option<&Point>, axis: &i64) -> Cell
    ensures { coordinate_of (option_map (λ p. p.now.items) p.entry) axis.now ≡ Ok result }
{
    match p {
        Some(p) => at(p.as_slice(), axis),
        None => Cell::Null,
    }
}

/// The point, where the box has it. None is a point with a null coordinate.
pub(crate) fn within(
    q: Result<Option<Point>, CellError>,
    axes: &Option<Region>,
) -> Result<Option<Point>, CellError>
    ensures { (wanted : Result (Option (List ℤ)) CellFaultValue) → GivesSeen point_seen wanted q
        → GivesSeen point_seen (looked_up (axes_kept axes.now) wanted) result }
{
    match q {
        Ok(Some(q)) => {
            if has_point(axes, &q) {
                Ok(Some(q))
            } else {
                Err(CellError::Fault(CellFault::IndexOut))
            }
        }
        Ok(None) => Ok(None),
        Err(error) => Err(error),
    }
}
