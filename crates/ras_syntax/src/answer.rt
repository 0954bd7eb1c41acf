use crate::cell_list::CellList;
use crate::faults::{CheckFault, ShapeFault};
use crate::row_list::RowList;
use crate::span::Span;
use ras_cells::{Cell, CellFault};
use ras_domain::{Point, Region};

/// What a data statement answers. Rows are numbered from 1; row 0 stands for the statement as a
/// whole.
#[derive(Debug, Drop)]
pub enum Answer {
    /// The rows of a select.
    Value(RowList),
    /// Another statement was carried out: the new object's identifier for an insert, the number of
    /// arrays for a delete or an update, 0 for a create or a drop.
    Done(u64),
    /// The value of this row has a cell that can't be computed, at this point of its domain. A
    /// scalar's point has no coordinates.
    Fault {
        row: u64,
        point: Point,
        fault: CellFault,
    },
    /// This part of the statement's text has no shape in this row, or the statement is too large.
    Shape {
        row: u64,
        span: Span,
        fault: ShapeFault,
    },
    /// This part of the statement's text has no type.
    Check {
        span: Span,
        fault: CheckFault,
    },
}

/// A row of a select's answer.
#[derive(Debug, Drop)]
pub enum RowValue {
    /// One cell.
    Scalar(Cell),
    /// The domain of an array.
    Domain(Region),
    /// An array: its domain, and its cells in row-major order.
    Array(Region, CellList),
}
