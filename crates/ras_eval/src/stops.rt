//! Why there are no cells, or no more of them.
ghost use Rattle.std.specs.Prelude.{◌≡◌};
ghost use Rattle.ras_eval.specs.Given.{reply_stop, stop_of_error};
ghost use Rattle.ras_eval.specs.declared.stops.CellStop.TheVariants.{Memory};

use ras_cells::CellFault;
use ras_domain::{Point, Region};
use ras_rows::Stop;
use ras_syntax::Answer;
use ras_values::CellError;
use std::alloc::AllocError;

/// Why the cells of an expression aren't computed to their end.
#[derive(Debug, Drop)]
pub(crate) enum CellStop {
    /// The cell at this point has a fault, or can't be stored.
    Fault { point: Point, fault: CellFault },
    /// There is not enough memory.
    Memory,
}

impl From<AllocError> for CellStop {
    ghost from_gives = { λ _ stop. stop ≡ Memory };

    fn from(_: AllocError) -> CellStop {
        CellStop::Memory
    }
}

/// The stop at an error of the cell at a point.
pub(crate) fn stop_at(p: &Point, error: CellError) -> CellStop
    ensures { result ≡ stop_of_error p.now error }
{
    match error {
        CellError::Fault(fault) => CellStop::Fault {
            point: copy_of(p),
            fault,
        },
        CellError::Memory => CellStop::Memory,
    }
}

/// The stop of a statement in the row of this number.
pub(crate) fn stop_in_row(row: u64, stop: CellStop) -> Stop
    ensures { result ≡ reply_stop row stop }
{
    match stop {
        CellStop::Fault { point, fault } => Stop::Answer(Answer::Fault { row, point, fault }),
        CellStop::Memory => Stop::Memory,
    }
}

/// An equal point.
fn copy_of(p: &Point) -> Point
    ensures { result ≡ p.now }
{
    Point::try_from(p.as_slice()).unwrap()
}

/// The same box.
pub(crate) fn copy_of_region(region: &Region) -> Region
    ensures { result ≡ region.now }
{
    match Region::new(region.axes()) {
        Ok(copy) => copy,
        Err(_) => unreachable!(),
    }
}
