//! The kinds of indexes.
ghost use Rattle.std.specs.Prelude.{◌≡◌, ◌==◌, ◌∷◌, []};
ghost use Rattle.std.specs.Option.{option_map};
ghost use Rattle.std.specs.List.{list_all};
ghost use Rattle.spec_expressions.specs.Tree.{edge_of, tree_of};
ghost use Rattle.spec_expressions.specs.Shape.{is_static as is_static_tree};
ghost use Rattle.spec_expressions.specs.Check as spec;
ghost use Rattle.spec_expressions.specs.Check.{tree_of_axes};
ghost use Rattle.ras_kinds.specs.Seen.{has_static_bounds_seen, is_number_axis_seen, is_static_axis_seen};

use crate::cell_types::copy_of_type;
use crate::lists::is_axis;
use crate::operators::is_scalar_number;
use crate::positions::{only_literal, only_point};
use crate::trees::{is_sdom, is_static};
use ras_cells::{Atom, CellType};
use ras_syntax::{CheckFault, Kind, TypedAxis, TypedExpr};

/// Whether each position and each bound of an axis is one number.
#[tactic(auto, unfolding(crate::specs::Seen::is_number_axis_seen))]
fn is_number_axis(axis: &TypedAxis) -> bool
    ensures { result ≡ is_number_axis_seen axis.now }
{
    match axis {
        TypedAxis::At(e) => is_scalar_number(&e.kind),
        TypedAxis::Trim(a, b) => is_number_edge(a) && is_number_edge(b),
    }
}

/// Whether the bound is missing or one number.
fn is_number_edge(edge: &Option<TypedExpr>) -> bool
    ensures { result ≡ spec.on_edge spec.is_number_tree (edge_of (option_map tree_of edge.now)) }
{
    match edge {
        Some(e) => is_scalar_number(&e.kind),
        None => true,
    }
}

/// Whether the bound is missing or static.
fn is_static_edge(edge: &Option<TypedExpr>) -> bool
    ensures { result ≡ spec.on_edge is_static_tree (edge_of (option_map tree_of edge.now)) }
{
    match edge {
        Some(e) => is_static(e),
        None => true,
    }
}

/// Whether each bound of an axis is static.
#[tactic(auto, unfolding(crate::specs::Seen::has_static_bounds_seen))]
fn has_static_bounds(axis: &TypedAxis) -> bool
    ensures { result ≡ has_static_bounds_seen axis.now }
{
    match axis {
        TypedAxis::At(_) => true,
        TypedAxis::Trim(a, b) => is_static_edge(a) && is_static_edge(b),
    }
}

/// Whether each position and each bound of an axis is static.
#[tactic(auto, unfolding(crate::specs::Seen::is_static_axis_seen))]
fn is_static_axis(axis: &TypedAxis) -> bool
    ensures { result ≡ is_static_axis_seen axis.now }
{
    match axis {
        TypedAxis::At(e) => is_static(e),
        TypedAxis::Trim(a, b) => is_static_edge(a) && is_static_edge(b),
    }
}

/// Whether the axis keeps its axis of the array.
fn is_kept(axis: &TypedAxis) -> bool
    ensures { result ≡ (spec.kept_of (tree_of_axes (axis.now ∷ [])) == 1) }
{
    match axis {
        TypedAxis::At(_) => false,
        TypedAxis::Trim(_, _) => true,
    }
}

/// Whether each position and each bound is one number.
pub fn are_numbers(axes: &[TypedAxis]) -> bool
    ensures { result ≡ spec.are_numbers (tree_of_axes axes.now) }
{
    each_number(axes)
}

/// Whether each bound is static.
fn bounds_are_static(axes: &[TypedAxis]) -> bool
    ensures { result ≡ spec.bounds_are_static (tree_of_axes axes.now) }
{
    each_bound(axes)
}

/// Whether each position and each bound is static.
pub fn all_are_static(axes: &[TypedAxis]) -> bool
    ensures { result ≡ spec.all_are_static (tree_of_axes axes.now) }
{
    each_static(axes)
}

/// The same, axis by axis.
fn each_number(axes: &[TypedAxis]) -> bool
    ensures { result ≡ list_all is_number_axis_seen axes.now }
{
    axes.iter().all(is_number_axis)
}

/// The same, axis by axis.
fn each_bound(axes: &[TypedAxis]) -> bool
    ensures { result ≡ list_all has_static_bounds_seen axes.now }
{
    axes.iter().all(has_static_bounds)
}

/// The same, axis by axis.
fn each_static(axes: &[TypedAxis]) -> bool
    ensures { result ≡ list_all is_static_axis_seen axes.now }
{
    axes.iter().all(is_static_axis)
}

/// How many axes are kept: a position removes its axis.
#[tactic(auto, using(crate::proofs::Axes::kept_each))]
fn kept_of(axes: &[TypedAxis]) -> usize
    ensures { result ≡ spec.kept_of (tree_of_axes axes.now) }
{
    axes.iter().filter(|axis| is_kept(axis)).count()
}

/// A scalar where no axis is left, and else an array.
fn array_or_scalar_kind(cell: &CellType, axes: u32) -> Kind
    ensures { result ≡ spec.array_or_scalar_kind cell.now axes }
{
    let cell = copy_of_type(cell);
    if axes == 0 {
        Kind::Scalar(cell)
    } else {
        Kind::Array { cell, axes }
    }
}

/// The kind of an array with n axes that is cut by axes.
#[tactic(auto, using(crate::proofs::Axes::count_each))]
fn cut_kind(cell: &CellType, n: u32, axes: &[TypedAxis]) -> Result<Kind, CheckFault>
    ensures { result ≡ spec.cut_kind cell.now n (tree_of_axes axes.now) }
{
    if !are_numbers(axes) {
        return Err(CheckFault::TypeMismatch);
    }
    if axes.len() != n as usize {
        return Err(CheckFault::DimensionMismatch);
    }
    if !bounds_are_static(axes) {
        return Err(CheckFault::VariableDomain);
    }
    Ok(array_or_scalar_kind(cell, kept_of(axes) as u32))
}

/// The kind of an array with n axes that is read at a point or cut by axes.
#[tactic(auto, using(crate::proofs::Axes::element_told))]
fn element_kind(cell: &CellType, n: u32, axes: &[TypedAxis]) -> Result<Kind, CheckFault>
    ensures { result ≡ spec.element_kind cell.now n (tree_of_axes axes.now) }
{
    match only_point(axes) {
        Some(m) if m == n => Ok(Kind::Scalar(copy_of_type(cell))),
        Some(_) => Err(CheckFault::DimensionMismatch),
        None => cut_kind(cell, n, axes),
    }
}

/// The kind, where one of n axes is named by a literal.
#[tactic(auto, using(crate::proofs::Axes::on_axis_told))]
fn on_axis(kind: Kind, n: u32, axes: &[TypedAxis]) -> Result<Kind, CheckFault>
    ensures { result ≡ spec.on_axis kind n (tree_of_axes axes.now) }
{
    match only_literal(axes) {
        Some(k) if is_axis(&k, n) => Ok(kind),
        Some(_) => Err(CheckFault::DimensionMismatch),
        None => Err(CheckFault::TypeMismatch),
    }
}

/// The kind of an index: of `x[k]` of a variable, of `sdom(e)[k]`, and of an array at a point or cut
/// by axes.
pub fn index_kind(e: &TypedExpr, axes: &[TypedAxis]) -> Result<Kind, CheckFault>
    ensures { result ≡ spec.index_kind (tree_of e.now) (tree_of_axes axes.now) }
{
    match &e.kind {
        Kind::Point { axes: n } => on_axis(Kind::Scalar(CellType::Atom(Atom::Wide)), *n, axes),
        Kind::Domain { axes: n } if is_sdom(e) => on_axis(Kind::Domain { axes: 1 }, *n, axes),
        Kind::Array { cell, axes: n } => element_kind(cell, *n, axes),
        Kind::Domain { axes: _ } | Kind::Scalar(_) => Err(CheckFault::TypeMismatch),
    }
}
