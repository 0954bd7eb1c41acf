//! Prepared expressions.

use ras_cells::{Atom, Cell, CellFault, Op1, Op2};
use ras_domain::{List, Point, Region};
use ras_syntax::{CellsFold, FoldOp};
use sqlite_items::Boxed;

/// An expression prepared for a row: its names are resolved, and the boxes of its parts and what is the
/// same at every point of the row are computed. A box is None where it has no axes; its one point has
/// no coordinates then. Variables are counted from the outermost one, which is 0.
#[cycle(nodes)]
#[derive(Drop)]
pub enum Node {
    /// The same cell at every point.
    Constant(Cell),
    /// The same fault at every point.
    Faulty(CellFault),
    /// The cell of the array at this place among the sources.
    Member {
        place: u32,
    },
    /// A coordinate of a variable's point.
    Coordinate {
        variable: usize,
        axis: i64,
    },
    Unary {
        op: Op1,
        e: Boxed<Node>,
    },
    Cast {
        to: Atom,
        e: Boxed<Node>,
    },
    Binary {
        op: Op2,
        a: Boxed<Node>,
        b: Boxed<Node>,
    },
    /// The cell of `e`, whose box has these axes, at the point of these positions.
    Index {
        e: Boxed<Node>,
        axes: Option<Region>,
        positions: List<Position>,
    },
    /// The cell of `e`, whose box has these axes, at a variable's point.
    AtPoint {
        e: Boxed<Node>,
        axes: Option<Region>,
        variable: usize,
    },
    Component {
        e: Boxed<Node>,
        part: i64,
    },
    /// The cell of `e` where the condition holds, else the other one. A null condition doesn't hold.
    If {
        condition: Boxed<Node>,
        e: Boxed<Node>,
        other: Boxed<Node>,
    },
    Composite(List<Node>),
    /// The cell of `e` where one more variable stands for the point.
    Marray(Boxed<Node>),
    /// The fold of `e` where one more variable stands for each point of a box.
    Condense {
        op: FoldOp,
        axes: Option<Region>,
        e: Boxed<Node>,
    },
    /// The fold of the cells of `e` over its box.
    Folded {
        f: CellsFold,
        axes: Option<Region>,
        e: Boxed<Node>,
    },
    /// The cell of `e` at the point moved back by these offsets.
    Shift {
        e: Boxed<Node>,
        offsets: Point,
    },
    /// The cell of `e` within its box, and zeros around it.
    Extend {
        e: Boxed<Node>,
        axes: Option<Region>,
        zeros: Cell,
    },
    /// The cell of the part whose place has the point.
    Concat(List<Part>),
}

/// A coordinate of the point at which an index looks.
#[cycle(nodes)]
#[derive(Drop)]
pub enum Position {
    /// The number of this expression.
    At(Node),
    /// The next coordinate of the point.
    Kept,
}

/// A part of a `concat`: its own box, and the box where it stands in the whole.
#[cycle(nodes)]
#[derive(Drop)]
pub struct Part {
    pub e: Node,
    pub own: Option<Region>,
    pub place: Option<Region>,
}
