//! Prepared expressions of forms that have no parts, or parts that are prepared.
ghost use Rattle.std.specs.Prelude.{◌≡◌, ◌≤◌, ◌++◌, ◌∷◌, [], IfOk, OnOk, Option, List};
ghost use Rattle.ras_cells.specs.Cells.{single as single_of};
ghost use Rattle.ras_cells.specs.declared.cell.Cell.TheVariants.{Null};
ghost use Rattle.spec_expressions.specs.Shape.{width_of_kind};
ghost use Rattle.spec_expressions.specs.Eval.{zeros as zeros_of};
ghost use Rattle.ras_values.specs.declared.node.Node.TheVariants as nodes;
ghost use Rattle.ras_values.specs.Joins.{AtPointOf, CoordinateOf, known_node, oid_node};

use crate::names::Names;
use crate::node::Node;
use crate::operations::single;
use crate::statics::Static;
use ras_cells::{Cell, CellType, MAX_COMPONENTS, Numbers};
use ras_domain::{List, Name, Region};
use ras_syntax::Kind;
use sqlite_items::Boxed;
use std::alloc::{AllocError, Global};

/// The expression in a box. The error is want of memory.
pub(crate) fn boxed(alloc: Global, node: Node) -> Result<Boxed<Node>, AllocError>
    ensures { IfOk result (λ all. all ≡ node) }
{
    Ok(Boxed::new(alloc, node)?)
}

/// Puts an item at the end. The error is want of memory.
pub(crate) fn push<T: Drop>(alloc: Global, list: &mut List<T>, item: T) -> Result<(), AllocError>
    ensures { OnOk result (list.new ≡ list.old ++ item ∷ []) }
{
    match list.push(alloc, item) {
        Ok(()) => Ok(()),
        Err(_) => Err(AllocError),
    }
}

/// A number, the same at every point.
pub(crate) fn number(alloc: Global, value: &i64) -> Result<Boxed<Node>, AllocError>
    ensures { IfOk result (λ node. node ≡ nodes.Constant (single_of value.now)) }
{
    boxed(alloc, Node::Constant(single(value)))
}

/// Null at every point.
pub(crate) fn null(alloc: Global) -> Result<Boxed<Node>, AllocError>
    ensures { IfOk result (λ node. node ≡ nodes.Constant Null) }
{
    boxed(alloc, Node::Constant(Cell::Null))
}

/// The value of a static expression, or its fault.
pub(crate) fn known(alloc: Global, value: Static) -> Result<Boxed<Node>, AllocError>
    ensures { IfOk result (λ node. node ≡ known_node value) }
{
    match value {
        Ok(number) => boxed(alloc, Node::Constant(single(&number))),
        Err(fault) => boxed(alloc, Node::Faulty(fault)),
    }
}

/// The object identifier of an array. It is null where there is no array, and where the identifier is no
/// number of 64 bits with a sign there is want of memory.
pub(crate) fn oid(alloc: Global, oid: Option<u64>) -> Result<Boxed<Node>, AllocError>
    ensures { IfOk result (λ node. node ≡ oid_node oid) }
{
    let Some(oid) = oid else {
        return null(alloc);
    };
    match i64::try_from(oid) {
        Ok(oid) => number(alloc, &oid),
        Err(_) => Err(AllocError),
    }
}

/// A coordinate of a variable, null where there is no variable of this name.
pub(crate) fn coordinate(
    alloc: Global,
    names: &Names<'_>,
    x: &Name,
    axis: &i64,
) -> Result<Boxed<Node>, AllocError>
    ensures { IfOk result (λ node. CoordinateOf x.now names.now axis.now node) }
{
    match names.place_of(x) {
        Some(variable) => boxed(
            alloc,
            Node::Coordinate {
                variable,
                axis: *axis,
            },
        ),
        None => null(alloc),
    }
}

/// The cell of an expression at a variable's point, null where there is no variable of this name.
pub(crate) fn at_point(
    alloc: Global,
    names: &Names<'_>,
    x: &Name,
    e: Boxed<Node>,
    axes: Option<Region>,
) -> Result<Boxed<Node>, AllocError>
    ensures { IfOk result (λ node. AtPointOf x.now names.now e axes node) }
{
    match names.place_of(x) {
        Some(variable) => boxed(alloc, Node::AtPoint { e, axes, variable }),
        None => null(alloc),
    }
}

/// Zeros, as many as there are components.
pub(crate) fn zeros(kind: &Kind) -> Cell
    ensures { result ≡ zeros_of (width_of_kind kind.now) }
{
    match kind {
        Kind::Scalar(cell) => zeros_for(cell.atoms().len()),
        Kind::Array { cell, axes: _ } => zeros_for(cell.atoms().len()),
        Kind::Domain { axes: _ } | Kind::Point { axes: _ } => zeros_for(1),
    }
}

/// So many zeros.
fn zeros_for(width: usize) -> Cell
    requires { width ≤ MAX_COMPONENTS }
    ensures { result ≡ zeros_of width }
{
    let mut numbers = Numbers::new();
    for _ in 0..width {
        numbers.push(0);
    }
    Cell::Value(numbers)
}
