//! The coordinates of the point at which an index looks.
ghost use Rattle.std.specs.Prelude.{◌≡◌, Some, IfOk};
ghost use Rattle.spec_expressions.specs.Eval.{position_in};
ghost use Rattle.ras_values.specs.Given.{point_seen};
ghost use Rattle.ras_values.specs.Folding.{added_to};

use crate::error::CellError;
use crate::operations::number_of;
use ras_cells::Cell;
use ras_domain::Point;

/// The point with the number of a cell at its end, and None where the cell is null. The error is
/// [`CellError::Memory`], where there are too many coordinates.
pub(crate) fn with_number(q: Option<Point>, x: &Cell) -> Result<Option<Point>, CellError>
    ensures { IfOk result (λ more. point_seen more ≡ added_to (point_seen q) (position_in x.now)) }
{
    match number_of(x) {
        Some(number) => with_coordinate(q, &number),
        None => Ok(None),
    }
}

/// The point with a coordinate at its end. The error is [`CellError::Memory`], where there are too many.
pub(crate) fn with_coordinate(q: Option<Point>, c: &i64) -> Result<Option<Point>, CellError>
    ensures { IfOk result (λ more. point_seen more ≡ added_to (point_seen q) (Some c.now)) }
{
    let Some(mut q) = q else {
        return Ok(None);
    };
    match q.try_push(*c) {
        Ok(()) => Ok(Some(q)),
        Err(_) => Err(CellError::Memory),
    }
}
