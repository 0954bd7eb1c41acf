//! What an index or a part is: some forms of the language are written as an index or a part, and are
//! neither.
ghost use Rattle.std.specs.Prelude.{◌≡◌, ◌≢◌, ◌∷◌, [], false, length, IfNone, IfSome, MatchOption};
ghost use Rattle.spec_expressions.specs.Check.{tree_of_axes};
ghost use Rattle.spec_expressions.specs.Tree.{no_axes, position, tree_of};
ghost use Rattle.ras_shape.specs.Ways.{has_one_position, is_axis_of_domain as is_axis_tree};
ghost use Rattle.ras_reach.specs.Forms.{axis_in_index, head_between, head_of_node, head_seen, index_seen, index_told, part_told};

use ras_domain::Name;
use ras_syntax::{Part, TypedAxis, TypedExpr, TypedForm};

/// What of an expression tells the forms of an index apart.
#[derive(Clone, Copy)]
enum Head<'a> {
    Variable(&'a Name),
    /// The domain of an array.
    Domain,
    /// A literal.
    Number(i64),
    Other,
}

/// What an index is.
#[derive(Clone, Copy)]
pub(crate) enum IndexForm<'a> {
    /// This coordinate of a variable's point.
    Coordinate(&'a Name, i64),
    /// One axis of a domain.
    AxisOfDomain,
    /// The cell at a variable's point.
    AtPoint(&'a Name),
    /// Cells at positions and between bounds.
    Cells,
}

/// What a part is.
#[derive(Clone, Copy)]
pub(crate) enum PartForm {
    /// A component of each cell.
    Component,
    /// The lower bound of an axis of a domain.
    Lower,
    /// The upper bound.
    Upper,
}

/// What of the expression tells the forms of an index apart.
#[tactic(auto, using(crate::proofs::FormsSeen::index_head, crate::proofs::FormsSeen::part_head))]
fn head_of(e: &TypedExpr) -> Head<'_>
    ensures { head_seen result ≡ head_of_node (tree_of e.now) }
{
    match &e.form {
        TypedForm::Variable(name) => Head::Variable(name),
        TypedForm::Sdom(_) => Head::Domain,
        TypedForm::Number { value, atom: _ } => Head::Number(*value),
        TypedForm::Index { e: _, axes: _ } => Head::Other,
        TypedForm::Bool(_)
        | TypedForm::Iterator { name: _, place: _ }
        | TypedForm::Unary { op: _, e: _ }
        | TypedForm::Cast { to: _, e: _ }
        | TypedForm::Binary { op: _, a: _, b: _ }
        | TypedForm::Part { e: _, part: _ }
        | TypedForm::Case { arms: _, other: _ }
        | TypedForm::Build(_)
        | TypedForm::Marray {
            x: _,
            domain: _,
            e: _,
        }
        | TypedForm::Condense {
            op: _,
            x: _,
            domain: _,
            cond: _,
            e: _,
        }
        | TypedForm::Cells { f: _, e: _ }
        | TypedForm::Shift { e: _, offsets: _ }
        | TypedForm::Extend { e: _, domain: _ }
        | TypedForm::Concat { parts: _, along: _ }
        | TypedForm::Oid(_) => Head::Other,
    }
}

/// The axis, where there is no other.
fn only_axis(axes: &[TypedAxis]) -> Option<&TypedAxis>
    ensures one { IfSome result (λ axis. axes.now ≡ axis.now ∷ []) }
    ensures none { IfNone result (length axes.now ≢ 1) }
{
    match axes {
        [axis] => Some(axis),
        _ => None,
    }
}

/// The position, where there is no other and no trim.
#[tactic(auto, using(ras_shape::proofs::Indexing::one_axis))]
fn only_position(axes: &[TypedAxis]) -> Option<&TypedExpr>
    ensures { MatchOption result (has_one_position (tree_of_axes axes.now) ≡ false)
        (λ x. tree_of_axes axes.now ≡ position (tree_of x.now) no_axes) }
{
    let Some(axis) = only_axis(axes) else {
        return None;
    };
    match axis {
        TypedAxis::At(x) => Some(x),
        TypedAxis::Trim(_, _) => None,
    }
}

/// What an index with these axes is.
#[tactic(auto, using(crate::proofs::FormsSeen::told_by_heads, crate::proofs::FormsSeen::told_as_cells))]
pub(crate) fn index_form<'a>(whole: &'a TypedExpr, axes: &'a [TypedAxis]) -> IndexForm<'a>
    ensures { index_seen result ≡ index_told (tree_of whole.now) (tree_of_axes axes.now) }
{
    match only_position(axes) {
        Some(position) => form_between(head_of(position), head_of(whole)),
        None => IndexForm::Cells,
    }
}

/// What an index with one position is.
fn form_between<'a>(position: Head<'a>, whole: Head<'a>) -> IndexForm<'a>
    ensures { index_seen result ≡ head_between (head_seen position.entry) (head_seen whole.entry) }
{
    match (position, whole) {
        (Head::Number(axis), Head::Variable(x)) => IndexForm::Coordinate(x, axis),
        (Head::Number(_), Head::Domain) => IndexForm::AxisOfDomain,
        (Head::Variable(x), _) => IndexForm::AtPoint(x),
        _ => IndexForm::Cells,
    }
}

/// Whether an index is an axis of a domain.
fn is_axis(form: IndexForm<'_>) -> bool
    ensures { result ≡ axis_in_index (index_seen form.entry) }
{
    match form {
        IndexForm::AxisOfDomain => true,
        IndexForm::Coordinate(_, _) | IndexForm::AtPoint(_) | IndexForm::Cells => false,
    }
}

/// Whether the expression is one axis of a domain.
#[tactic(auto, using(crate::proofs::FormsSeen::index_axis, ras_shape::proofs::Indexing::part_axis))]
fn is_axis_of_domain(e: &TypedExpr) -> bool
    ensures { result ≡ is_axis_tree (tree_of e.now) }
{
    match &e.form {
        TypedForm::Index { e, axes } => is_axis(index_form(e.get(), axes.as_slice())),
        TypedForm::Bool(_)
        | TypedForm::Iterator { name: _, place: _ }
        | TypedForm::Unary { op: _, e: _ }
        | TypedForm::Cast { to: _, e: _ }
        | TypedForm::Binary { op: _, a: _, b: _ }
        | TypedForm::Part { e: _, part: _ }
        | TypedForm::Case { arms: _, other: _ }
        | TypedForm::Build(_)
        | TypedForm::Marray {
            x: _,
            domain: _,
            e: _,
        }
        | TypedForm::Condense {
            op: _,
            x: _,
            domain: _,
            cond: _,
            e: _,
        }
        | TypedForm::Cells { f: _, e: _ }
        | TypedForm::Shift { e: _, offsets: _ }
        | TypedForm::Extend { e: _, domain: _ }
        | TypedForm::Concat { parts: _, along: _ }
        | TypedForm::Oid(_)
        | TypedForm::Variable(_)
        | TypedForm::Number { value: _, atom: _ }
        | TypedForm::Sdom(_) => false,
    }
}

/// What a part of this name or number is.
pub(crate) fn part_form(whole: &TypedExpr, part: &Part) -> PartForm
    ensures { result ≡ part_told part.now (is_axis_tree (tree_of whole.now)) }
{
    let Part::Named(name) = part else {
        return PartForm::Component;
    };
    if !is_axis_of_domain(whole) {
        return PartForm::Component;
    }
    if name.bytes() == b"lo".as_slice() {
        PartForm::Lower
    } else {
        PartForm::Upper
    }
}
