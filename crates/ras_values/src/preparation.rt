//! Expressions prepared for a row.
ghost use Rattle.std.specs.Prelude.{◌≡◌, ◌++◌, ◌∷◌, [], IfOk, None, map, option_map, unsigned_abs};
ghost use Rattle.spec_expressions.specs.Check.{tree_of_axes};
ghost use Rattle.spec_expressions.specs.Tree.{Tree, condition_of, tree_of};
ghost use Rattle.ras_shape.specs.Trees.{pairs_seen, trees_seen};
ghost use Rattle.ras_values.specs.Nodes.{cells_of_node, part_cells, position_cells};
ghost use Rattle.ras_values.specs.Prepared.{ArePartsFrom, ArePositions, ArePrepared, IsPrepared, IsPreparedChoice, IsPreparedTest};

use crate::arrays::Arrays;
use crate::extents::{box_of, box_written, have_shapes, offsets_of};
use crate::heads::{IndexWay, PartWay, index_way, part_way};
use crate::joins::{at_point, boxed, coordinate, known, null, number, oid, push, zeros};
use crate::names::Names;
use crate::node::{Node, Part, Position};
use crate::places::{followed, place_after};
use crate::statics::{lower_bound, upper_bound};
use ras_cells::CellFault;
use ras_domain::{List, Name, Region};
use ras_syntax::{TypedAxis, TypedExpr, TypedForm};
use sqlite_items::Boxed;
use std::alloc::{AllocError, Global};

/// Prepares an expression for a row whose arrays have these domains: the node gives the cells of the
/// expression. The error is want of memory, also where a box or a point that is written in the expression
/// has more axes than a region, a place of a concat's part leaves 64 bits, or an object identifier does.
pub fn prepare<A: Arrays>(
    alloc: Global,
    e: &TypedExpr,
    row: &A,
    domains: &[Region],
) -> Result<Boxed<Node>, AllocError>
    ensures { IfOk result (λ node. IsPrepared (A.members row.now) domains.now [] (tree_of e.now) (cells_of_node node)) }
{
    let mut names = Names::new(alloc);
    prepared(alloc, e, row, domains, &mut names)
}

/// Prepares an expression for a row whose arrays have these domains, where variables of these names are
/// in scope. The error is want of memory.
#[cycle(preparing)]
pub(crate) fn prepared<'a, A: Arrays>(
    alloc: Global,
    e: &'a TypedExpr,
    row: &A,
    domains: &[Region],
    names: &mut Names<'a>,
) -> Result<Boxed<Node>, AllocError>
    ensures prepared { IfOk result (λ node. IsPrepared (A.members row.now) domains.now names.old (tree_of e.now) (cells_of_node node)) }
    ensures same { names.new ≡ names.old }
{
    let kind = &e.kind;
    match &e.form {
        TypedForm::Bool(b) => number(alloc, &i64::from(*b)),
        TypedForm::Number { value, atom: _ } => number(alloc, value),
        TypedForm::Iterator { name: _, place } => boxed(alloc, Node::Member { place: *place }),
        TypedForm::Variable(_) => null(alloc),
        TypedForm::Unary { op, e } => {
            let e = prepared(alloc, e.get(), row, domains, names)?;
            boxed(alloc, Node::Unary { op: *op, e })
        }
        TypedForm::Cast { to, e } => {
            let e = prepared(alloc, e.get(), row, domains, names)?;
            boxed(alloc, Node::Cast { to: *to, e })
        }
        TypedForm::Binary { op, a, b } => {
            let a = prepared(alloc, a.get(), row, domains, names)?;
            let b = prepared(alloc, b.get(), row, domains, names)?;
            boxed(alloc, Node::Binary { op: *op, a, b })
        }
        TypedForm::Index { e, axes } => match index_way(e.get(), axes.as_slice()) {
            IndexWay::Coordinate(x, axis) => coordinate(alloc, names, x, &axis),
            IndexWay::Interval => null(alloc),
            IndexWay::AtPoint(x) => {
                let within = box_of(alloc, e.get(), domains)?;
                let e = prepared(alloc, e.get(), row, domains, names)?;
                at_point(alloc, names, x, e, within)
            }
            IndexWay::Cells => {
                let within = box_of(alloc, e.get(), domains)?;
                let e = prepared(alloc, e.get(), row, domains, names)?;
                let positions = positions(alloc, axes.as_slice(), row, domains, names)?;
                let node = Node::Index {
                    e,
                    axes: within,
                    positions,
                };
                boxed(alloc, node)
            }
        },
        TypedForm::Part { e, part } => match part_way(e.get(), part) {
            PartWay::Component(part) => {
                let e = prepared(alloc, e.get(), row, domains, names)?;
                boxed(alloc, Node::Component { e, part })
            }
            PartWay::Lower => known(alloc, lower_bound(alloc, e.get(), domains)?),
            PartWay::Upper => known(alloc, upper_bound(alloc, e.get(), domains)?),
        },
        TypedForm::Case { arms, other } => {
            let other = prepared(alloc, other.get(), row, domains, names)?;
            choice(alloc, arms.as_slice(), row, domains, names, other)
        }
        TypedForm::Build(parts) => {
            let parts = parts_of(alloc, parts.as_slice(), row, domains, names)?;
            boxed(alloc, Node::Composite(parts))
        }
        TypedForm::Marray { x, domain: _, e } => {
            let e = within(alloc, e.get(), row, domains, names, &x.name)?;
            boxed(alloc, Node::Marray(e))
        }
        TypedForm::Condense {
            op,
            x,
            domain,
            cond,
            e,
        } => {
            let axes = box_written(alloc, domain, domains)?;
            let e = within(alloc, e.get(), row, domains, names, &x.name)?;
            let e = tested(alloc, cond, row, domains, names, &x.name, e)?;
            boxed(alloc, Node::Condense { op: *op, axes, e })
        }
        TypedForm::Cells { f, e } => {
            let axes = box_of(alloc, e.get(), domains)?;
            let e = prepared(alloc, e.get(), row, domains, names)?;
            boxed(alloc, Node::Folded { f: *f, axes, e })
        }
        TypedForm::Shift { e, offsets } => {
            let offsets = offsets_of(alloc, offsets.as_slice(), domains)?;
            let e = prepared(alloc, e.get(), row, domains, names)?;
            boxed(alloc, Node::Shift { e, offsets })
        }
        TypedForm::Extend { e, domain: _ } => {
            let axes = box_of(alloc, e.get(), domains)?;
            let e = prepared(alloc, e.get(), row, domains, names)?;
            let zeros = zeros(kind);
            boxed(alloc, Node::Extend { e, axes, zeros })
        }
        TypedForm::Concat { parts, along } => {
            if !have_shapes(alloc, parts.as_slice(), domains)? {
                return boxed(alloc, Node::Faulty(CellFault::IndexOut));
            }
            let parts = placed(alloc, parts.as_slice(), along, row, domains, names)?;
            boxed(alloc, Node::Concat(parts))
        }
        TypedForm::Sdom(_) => null(alloc),
        TypedForm::Oid(a) => oid(alloc, row.oid(&a.name)),
    }
}

/// Prepares an expression in which a variable is in scope too.
#[cycle(preparing)]
fn within<'a, A: Arrays>(
    alloc: Global,
    e: &'a TypedExpr,
    row: &A,
    domains: &[Region],
    names: &mut Names<'a>,
    x: &'a Name,
) -> Result<Boxed<Node>, AllocError>
    ensures prepared { IfOk result (λ node. IsPrepared (A.members row.now) domains.now (names.old ++ x.now ∷ []) (tree_of e.now) (cells_of_node node)) }
    ensures same { names.new ≡ names.old }
{
    names.enter(x)?;
    let node = prepared(alloc, e, row, domains, names);
    names.leave();
    node
}

/// Prepares a condition in which a variable is in scope too, and what is to be seen where it holds.
#[cycle(preparing)]
fn tested<'a, A: Arrays>(
    alloc: Global,
    condition: &'a Option<Boxed<TypedExpr>>,
    row: &A,
    domains: &[Region],
    names: &mut Names<'a>,
    x: &'a Name,
    e: Boxed<Node>,
) -> Result<Boxed<Node>, AllocError>
    ensures prepared { IfOk result (λ node. (t : Tree) → IsPrepared (A.members row.now) domains.now (names.old ++ x.now ∷ []) t (cells_of_node e)
        → IsPreparedTest (A.members row.now) domains.now (names.old ++ x.now ∷ []) (condition_of (option_map tree_of condition.now)) t (cells_of_node node)) }
    ensures same { names.new ≡ names.old }
{
    match condition {
        None => Ok(e),
        Some(condition) => {
            let condition = within(alloc, condition.get(), row, domains, names, x)?;
            let other = null(alloc)?;
            boxed(
                alloc,
                Node::If {
                    condition,
                    e,
                    other,
                },
            )
        }
    }
}

/// Prepares the arms of a `case` before the other value.
#[cycle(preparing)]
fn choice<'a, A: Arrays>(
    alloc: Global,
    arms: &'a [(TypedExpr, TypedExpr)],
    row: &A,
    domains: &[Region],
    names: &mut Names<'a>,
    other: Boxed<Node>,
) -> Result<Boxed<Node>, AllocError>
    ensures prepared { IfOk result (λ node. (t : Tree) → IsPrepared (A.members row.now) domains.now names.old t (cells_of_node other)
        → IsPreparedChoice (A.members row.now) domains.now names.old (pairs_seen arms.now) t (cells_of_node node)) }
    ensures same { names.new ≡ names.old }
{
    let mut whole = other;
    let mut left = arms.len();
    while left > 0 {
        left -= 1;
        let arm = &arms[left];
        let condition = prepared(alloc, &arm.0, row, domains, names)?;
        let e = prepared(alloc, &arm.1, row, domains, names)?;
        whole = boxed(
            alloc,
            Node::If {
                condition,
                e,
                other: whole,
            },
        )?;
    }
    Ok(whole)
}

/// Prepares expressions, in order.
#[cycle(preparing)]
fn parts_of<'a, A: Arrays>(
    alloc: Global,
    parts: &'a [TypedExpr],
    row: &A,
    domains: &[Region],
    names: &mut Names<'a>,
) -> Result<List<Node>, AllocError>
    ensures prepared { IfOk result (λ nodes. ArePrepared (A.members row.now) domains.now names.old (trees_seen parts.now) (map cells_of_node nodes)) }
    ensures same { names.new ≡ names.old }
{
    let mut nodes = List::new(alloc);
    for part in parts {
        let node = prepared(alloc, part, row, domains, names)?;
        push(alloc, &mut nodes, node.into_inner())?;
    }
    Ok(nodes)
}

/// Prepares the positions of an index; a trim keeps its axis.
#[cycle(preparing)]
fn positions<'a, A: Arrays>(
    alloc: Global,
    axes: &'a [TypedAxis],
    row: &A,
    domains: &[Region],
    names: &mut Names<'a>,
) -> Result<List<Position>, AllocError>
    ensures prepared { IfOk result (λ positions. ArePositions (A.members row.now) domains.now names.old (tree_of_axes axes.now) (map position_cells positions)) }
    ensures same { names.new ≡ names.old }
{
    let mut positions = List::new(alloc);
    for axis in axes {
        let position = match axis {
            TypedAxis::At(e) => {
                let e = prepared(alloc, e, row, domains, names)?;
                Position::At(e.into_inner())
            }
            TypedAxis::Trim(_, _) => Position::Kept,
        };
        push(alloc, &mut positions, position)?;
    }
    Ok(positions)
}

/// Prepares the parts of a `concat`, each with its own box and its place.
#[cycle(preparing)]
fn placed<'a, A: Arrays>(
    alloc: Global,
    parts: &'a [TypedExpr],
    along: &i64,
    row: &A,
    domains: &[Region],
    names: &mut Names<'a>,
) -> Result<List<Part>, AllocError>
    ensures prepared { IfOk result (λ all. ArePartsFrom (A.members row.now) domains.now names.old (unsigned_abs along.now) None (trees_seen parts.now) (map part_cells all)) }
    ensures same { names.new ≡ names.old }
{
    let mut all = List::new(alloc);
    let mut before = None;
    for part in parts {
        let own = box_of(alloc, part, domains)?;
        let place = place_after(along, &before, &own)?;
        let e = prepared(alloc, part, row, domains, names)?;
        before = Some(followed(before, &place)?);
        let e = e.into_inner();
        push(alloc, &mut all, Part { e, own, place })?;
    }
    Ok(all)
}
