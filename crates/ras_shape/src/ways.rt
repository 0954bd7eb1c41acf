//! What an index or a part does, by its operands: forms of the language that are written as an index
//! or a part, and are neither.
ghost use Rattle.std.specs.Prelude.{◌≡◌, ◌≢◌, ◌∷◌, [], false, length, slice_get, IfNone, IfSome, MatchOption};
ghost use Rattle.ras_shape.specs.declared.ways.PartWay.TheVariants.{Lower, Upper};
ghost use Rattle.ras_shape.specs.Ways.{has_one_position, way_between, head_of_tree, index_way_of, is_axis_of_domain, is_axis_way};
ghost use Rattle.ras_shape.specs.Ways.{part_way_of, bound_look, part_look};
ghost use Rattle.spec_expressions.specs.Shape.{side_of};
ghost use Rattle.spec_expressions.specs.Check.{tree_of_axes};
ghost use Rattle.spec_expressions.specs.Tree.{no_axes, position, tree_of, lower as lower_side, upper as upper_side};

use crate::form::{Form, ShapeError};
use crate::look::{Look, Static, form_of, plain};
use ras_cells::CellFault;
use ras_domain::Interval;
use ras_syntax::{Part, TypedAxis, TypedExpr, TypedForm};

/// What of an expression tells the forms of an index apart.
#[derive(Clone, Copy)]
pub(crate) enum Head {
    /// A variable.
    Variable,
    /// The domain of an array.
    Domain,
    /// A literal.
    Number(i64),
    Other,
}

/// What an index does.
#[derive(Clone, Copy)]
pub(crate) enum Way {
    /// It takes a coordinate of a variable, or the cell at a variable's point.
    Cell,
    /// It takes this axis of a domain.
    Interval(i64),
    /// It cuts an array.
    Cells,
}

/// What a part is.
#[derive(Clone, Copy)]
pub(crate) enum PartWay {
    /// A component of each cell.
    Component,
    /// The lower bound of an axis of a domain.
    Lower,
    /// The upper bound.
    Upper,
}

/// What of the expression tells the forms of an index apart.
#[tactic(auto, using(crate::proofs::Indexing::index_head, crate::proofs::Indexing::part_head))]
fn head_of(e: &TypedExpr) -> Head
    ensures { result ≡ head_of_tree (tree_of e.now) }
{
    match &e.form {
        TypedForm::Variable(_) => Head::Variable,
        TypedForm::Sdom(_) => Head::Domain,
        TypedForm::Number { value, atom: _ } => Head::Number(*value),
        TypedForm::Index { e: _, axes: _ } => Head::Other,
        TypedForm::Bool(_)
        | TypedForm::Iterator { name: _, place: _ }
        | TypedForm::Unary { op: _, e: _ }
        | TypedForm::Cast { to: _, e: _ }
        | TypedForm::Binary { op: _, a: _, b: _ }
        | TypedForm::Part { e: _, part: _ }
        | TypedForm::Case { arms: _, other: _ }
        | TypedForm::Build(_)
        | TypedForm::Marray {
            x: _,
            domain: _,
            e: _,
        }
        | TypedForm::Condense {
            op: _,
            x: _,
            domain: _,
            cond: _,
            e: _,
        }
        | TypedForm::Cells { f: _, e: _ }
        | TypedForm::Shift { e: _, offsets: _ }
        | TypedForm::Extend { e: _, domain: _ }
        | TypedForm::Concat { parts: _, along: _ }
        | TypedForm::Oid(_) => Head::Other,
    }
}

/// The axis, where there is no other.
fn only_axis(axes: &[TypedAxis]) -> Option<&TypedAxis>
    ensures one { IfSome result (λ axis. axes.now ≡ axis.now ∷ []) }
    ensures none { IfNone result (length axes.now ≢ 1) }
{
    match axes {
        [axis] => Some(axis),
        _ => None,
    }
}

/// The position, where there is no other and no trim.
#[tactic(auto, using(crate::proofs::Indexing::one_axis))]
fn only_position(axes: &[TypedAxis]) -> Option<&TypedExpr>
    ensures { MatchOption result (has_one_position (tree_of_axes axes.now) ≡ false)
        (λ x. tree_of_axes axes.now ≡ position (tree_of x.now) no_axes) }
{
    let Some(axis) = only_axis(axes) else {
        return None;
    };
    match axis {
        TypedAxis::At(x) => Some(x),
        TypedAxis::Trim(_, _) => None,
    }
}

/// What an index with these axes does.
#[tactic(auto, using(crate::proofs::Indexing::way_of_one, crate::proofs::Indexing::way_of_other))]
pub(crate) fn index_way(whole: &TypedExpr, axes: &[TypedAxis]) -> Way
    ensures { result ≡ index_way_of (tree_of whole.now) (tree_of_axes axes.now) }
{
    match only_position(axes) {
        Some(position) => way_of(head_of(position), head_of(whole)),
        None => Way::Cells,
    }
}

/// What an index with one position does.
fn way_of(position: Head, whole: Head) -> Way
    ensures { result ≡ way_between position whole }
{
    match (position, whole) {
        (Head::Number(_), Head::Variable) => Way::Cell,
        (Head::Number(axis), Head::Domain) => Way::Interval(axis),
        (Head::Variable, _) => Way::Cell,
        _ => Way::Cells,
    }
}

/// Whether an index takes an axis of a domain.
fn is_axis(way: Way) -> bool
    ensures { result ≡ is_axis_way way }
{
    match way {
        Way::Interval(_) => true,
        Way::Cell | Way::Cells => false,
    }
}

/// Whether the expression is one axis of a domain.
#[tactic(auto, using(crate::proofs::Indexing::index_axis, crate::proofs::Indexing::part_axis))]
fn is_interval(e: &TypedExpr) -> bool
    ensures { result ≡ is_axis_of_domain (tree_of e.now) }
{
    match &e.form {
        TypedForm::Index { e, axes } => is_axis(index_way(e.get(), axes.as_slice())),
        TypedForm::Bool(_)
        | TypedForm::Iterator { name: _, place: _ }
        | TypedForm::Unary { op: _, e: _ }
        | TypedForm::Cast { to: _, e: _ }
        | TypedForm::Binary { op: _, a: _, b: _ }
        | TypedForm::Part { e: _, part: _ }
        | TypedForm::Case { arms: _, other: _ }
        | TypedForm::Build(_)
        | TypedForm::Marray {
            x: _,
            domain: _,
            e: _,
        }
        | TypedForm::Condense {
            op: _,
            x: _,
            domain: _,
            cond: _,
            e: _,
        }
        | TypedForm::Cells { f: _, e: _ }
        | TypedForm::Shift { e: _, offsets: _ }
        | TypedForm::Extend { e: _, domain: _ }
        | TypedForm::Concat { parts: _, along: _ }
        | TypedForm::Oid(_)
        | TypedForm::Variable(_)
        | TypedForm::Number { value: _, atom: _ }
        | TypedForm::Sdom(_) => false,
    }
}

/// What a part of this name or number is.
pub(crate) fn part_way(whole: &TypedExpr, part: &Part) -> PartWay
    ensures { result ≡ part_way_of part.now (is_axis_of_domain (tree_of whole.now)) }
{
    let Part::Named(name) = part else {
        return PartWay::Component;
    };
    if !is_interval(whole) {
        return PartWay::Component;
    }
    if name.bytes() == b"lo".as_slice() {
        PartWay::Lower
    } else {
        PartWay::Upper
    }
}

/// What is known of a part, from what is known of the whole.
pub(crate) fn look_at_part(
    way: PartWay,
    whole: Result<Look, ShapeError>,
) -> Result<Look, ShapeError>
    ensures { result ≡ part_look way whole }
{
    match way {
        PartWay::Component => plain(form_of(whole)),
        PartWay::Lower => lower_bound(whole),
        PartWay::Upper => upper_bound(whole),
    }
}

fn lower_bound(whole: Result<Look, ShapeError>) -> Result<Look, ShapeError>
    ensures { result ≡ part_look Lower whole }
{
    match whole {
        Ok(look) => Ok(bound(lower(look.form.axes()))),
        Err(error) => Err(error),
    }
}

fn upper_bound(whole: Result<Look, ShapeError>) -> Result<Look, ShapeError>
    ensures { result ≡ part_look Upper whole }
{
    match whole {
        Ok(look) => Ok(bound(upper(look.form.axes()))),
        Err(error) => Err(error),
    }
}

/// A bound of a domain with this value.
fn bound(value: Static) -> Look
    ensures { result ≡ bound_look value }
{
    Look {
        form: Form::Scalar,
        fixed: true,
        value,
    }
}

/// The lower bound of the first axis.
fn lower(axes: &[Interval]) -> Static
    ensures { result ≡ side_of lower_side (slice_get axes.now 0) }
{
    match axes.first() {
        Some(axis) => Ok(axis.lo),
        None => Err(CellFault::Overflow),
    }
}

/// The upper bound of the first axis.
fn upper(axes: &[Interval]) -> Static
    ensures { result ≡ side_of upper_side (slice_get axes.now 0) }
{
    match axes.first() {
        Some(axis) => Ok(axis.hi),
        None => Err(CellFault::Overflow),
    }
}
