//! Which way an index or a part goes: forms of the language that are written as an index or a part, and
//! are neither.
ghost use Rattle.std.specs.Prelude.{◌≡◌, ◌∷◌, [], false, IfNone, IfSome, MatchOption, length, ◌≢◌};
ghost use Rattle.spec_expressions.specs.Check.{tree_of_axes};
ghost use Rattle.spec_expressions.specs.Tree.{Tree, no_axes, position, tree_of};
ghost use Rattle.ras_shape.specs.Ways.{has_one_position, is_axis_of_domain};
ghost use Rattle.ras_values.specs.Heads.{HasHead, IsIndexWay, IsPartWay, takes_axis};

use ras_domain::Name;
use ras_syntax::{Part, TypedAxis, TypedExpr, TypedForm};

/// What of an expression tells the forms of an index apart.
#[derive(Clone, Copy)]
pub(crate) enum Head<'a> {
    /// A variable.
    Variable(&'a Name),
    /// The domain of an array.
    Domain,
    /// A literal.
    Number(i64),
    Other,
}

/// What an index is.
#[derive(Clone, Copy)]
pub(crate) enum IndexWay<'a> {
    /// A coordinate of a variable.
    Coordinate(&'a Name, i64),
    /// An axis of a domain.
    Interval,
    /// The cell at a variable's point.
    AtPoint(&'a Name),
    /// The cells at positions.
    Cells,
}

/// What a part is.
#[derive(Clone, Copy)]
pub(crate) enum PartWay {
    /// A component of each cell.
    Component(i64),
    /// The lower bound of an axis of a domain.
    Lower,
    /// The upper bound.
    Upper,
}

/// What of the expression tells the forms of an index apart.
#[tactic(auto, using(crate::proofs::WaysSeen::part_other))]
fn head_of(e: &TypedExpr) -> Head<'_>
    ensures { HasHead (tree_of e.now) result }
{
    match &e.form {
        TypedForm::Variable(name) => Head::Variable(name),
        TypedForm::Sdom(_) => Head::Domain,
        TypedForm::Number { value, atom: _ } => Head::Number(*value),
        TypedForm::Index { e: _, axes: _ } => Head::Other,
        TypedForm::Bool(_)
        | TypedForm::Iterator { name: _, place: _ }
        | TypedForm::Unary { op: _, e: _ }
        | TypedForm::Cast { to: _, e: _ }
        | TypedForm::Binary { op: _, a: _, b: _ }
        | TypedForm::Part { e: _, part: _ }
        | TypedForm::Case { arms: _, other: _ }
        | TypedForm::Build(_)
        | TypedForm::Marray {
            x: _,
            domain: _,
            e: _,
        }
        | TypedForm::Condense {
            op: _,
            x: _,
            domain: _,
            cond: _,
            e: _,
        }
        | TypedForm::Cells { f: _, e: _ }
        | TypedForm::Shift { e: _, offsets: _ }
        | TypedForm::Extend { e: _, domain: _ }
        | TypedForm::Concat { parts: _, along: _ }
        | TypedForm::Oid(_) => Head::Other,
    }
}

/// The axis, where there is no other.
fn only_axis(axes: &[TypedAxis]) -> Option<&TypedAxis>
    ensures one { IfSome result (λ axis. axes.now ≡ axis.now ∷ []) }
    ensures none { IfNone result (length axes.now ≢ 1) }
{
    match axes {
        [axis] => Some(axis),
        _ => None,
    }
}

/// The position, where there is no other and no trim.
#[tactic(auto, using(crate::proofs::WaysSeen::one_axis_only))]
fn only_position(axes: &[TypedAxis]) -> Option<&TypedExpr>
    ensures { MatchOption result (has_one_position (tree_of_axes axes.now) ≡ false)
        (λ x. tree_of_axes axes.now ≡ position (tree_of x.now) no_axes) }
{
    let Some(axis) = only_axis(axes) else {
        return None;
    };
    match axis {
        TypedAxis::At(x) => Some(x),
        TypedAxis::Trim(_, _) => None,
    }
}

/// What an index of this expression with these axes is.
pub(crate) fn index_way<'a>(whole: &'a TypedExpr, axes: &'a [TypedAxis]) -> IndexWay<'a>
    ensures { IsIndexWay (tree_of whole.now) (tree_of_axes axes.now) result }
{
    match only_position(axes) {
        Some(position) => way_between(head_of(position), head_of(whole)),
        None => IndexWay::Cells,
    }
}

/// What an index with one position is.
#[tactic(auto, using(crate::proofs::WaysSeen::ways_between))]
fn way_between<'a>(place: Head<'a>, whole: Head<'a>) -> IndexWay<'a>
    ensures { (t e : Tree) → HasHead t place.entry → HasHead e whole.entry → IsIndexWay e (position t no_axes) result }
{
    match (place, whole) {
        (Head::Number(axis), Head::Variable(name)) => IndexWay::Coordinate(name, axis),
        (Head::Number(_), Head::Domain) => IndexWay::Interval,
        (Head::Number(_), Head::Number(_)) => IndexWay::Cells,
        (Head::Number(_), Head::Other) => IndexWay::Cells,
        (Head::Variable(name), _) => IndexWay::AtPoint(name),
        (Head::Domain, _) => IndexWay::Cells,
        (Head::Other, _) => IndexWay::Cells,
    }
}

/// Whether the expression is one axis of a domain.
fn is_interval(e: &TypedExpr) -> bool
    ensures { result ≡ is_axis_of_domain (tree_of e.now) }
{
    match &e.form {
        TypedForm::Index { e, axes } => is_axis(index_way(e.get(), axes.as_slice())),
        TypedForm::Bool(_)
        | TypedForm::Iterator { name: _, place: _ }
        | TypedForm::Unary { op: _, e: _ }
        | TypedForm::Cast { to: _, e: _ }
        | TypedForm::Binary { op: _, a: _, b: _ }
        | TypedForm::Part { e: _, part: _ }
        | TypedForm::Case { arms: _, other: _ }
        | TypedForm::Build(_)
        | TypedForm::Marray {
            x: _,
            domain: _,
            e: _,
        }
        | TypedForm::Condense {
            op: _,
            x: _,
            domain: _,
            cond: _,
            e: _,
        }
        | TypedForm::Cells { f: _, e: _ }
        | TypedForm::Shift { e: _, offsets: _ }
        | TypedForm::Extend { e: _, domain: _ }
        | TypedForm::Concat { parts: _, along: _ }
        | TypedForm::Oid(_)
        | TypedForm::Variable(_)
        | TypedForm::Number { value: _, atom: _ }
        | TypedForm::Sdom(_) => false,
    }
}

/// Whether an index takes an axis of a domain.
fn is_axis(way: IndexWay<'_>) -> bool
    ensures { result ≡ takes_axis way.entry }
{
    matches!(way, IndexWay::Interval)
}

/// What a part of this name or number is.
#[tactic(auto, using(crate::proofs::WaysSeen::part_ways_seen))]
pub(crate) fn part_way(whole: &TypedExpr, part: &Part) -> PartWay
    ensures { IsPartWay (tree_of whole.now) part.now result }
{
    match part {
        Part::Numbered(number) => PartWay::Component(*number),
        Part::Named(name) => {
            if !is_interval(whole) {
                return PartWay::Component(0);
            }
            if name.bytes() == b"lo".as_slice() {
                PartWay::Lower
            } else {
                PartWay::Upper
            }
        }
    }
}
