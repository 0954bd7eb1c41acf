//! An index of one position and no more.
ghost use Rattle.std.specs.Prelude.{◌≡◌, ◌≢◌, ◌∷◌, [], length, false, IfSome, IfNone, MatchOption};
ghost use Rattle.spec_expressions.specs.Tree.{no_axes, position, tree_of};
ghost use Rattle.spec_expressions.specs.Check.{tree_of_axes};
ghost use Rattle.ras_kinds.specs.Seen.{is_one_position, literal_in, only_literal_in, only_point_in, point_axes_in};

use ras_syntax::{Kind, TypedAxis, TypedExpr, TypedForm};

/// The axis, where there is no other.
fn only_axis(axes: &[TypedAxis]) -> Option<&TypedAxis>
    ensures one { IfSome result (λ axis. axes.now ≡ axis.now ∷ []) }
    ensures none { IfNone result (length axes.now ≢ 1) }
{
    match axes {
        [axis] => Some(axis),
        _ => None,
    }
}

/// The position, where there is no other and no trim.
#[tactic(auto, using(crate::proofs::Axes::many_axes))]
fn only_position(axes: &[TypedAxis]) -> Option<&TypedExpr>
    ensures { MatchOption result (is_one_position (tree_of_axes axes.now) ≡ false) (λ x. tree_of_axes axes.now ≡ position (tree_of x.now) no_axes) }
{
    let Some(axis) = only_axis(axes) else {
        return None;
    };
    match axis {
        TypedAxis::At(x) => Some(x),
        TypedAxis::Trim(_, _) => None,
    }
}

/// The number of a literal.
#[tactic(auto, using(crate::proofs::TreeForms::literal_index, crate::proofs::TreeForms::literal_part))]
fn literal(e: &TypedExpr) -> Option<i64>
    ensures { result ≡ literal_in (tree_of e.now) }
{
    match &e.form {
        TypedForm::Number { value, atom: _ } => Some(*value),
        TypedForm::Index { e: _, axes: _ } => None,
        TypedForm::Bool(_)
        | TypedForm::Iterator { name: _, place: _ }
        | TypedForm::Variable(_)
        | TypedForm::Unary { op: _, e: _ }
        | TypedForm::Cast { to: _, e: _ }
        | TypedForm::Binary { op: _, a: _, b: _ }
        | TypedForm::Part { e: _, part: _ }
        | TypedForm::Case { arms: _, other: _ }
        | TypedForm::Build(_)
        | TypedForm::Marray {
            x: _,
            domain: _,
            e: _,
        }
        | TypedForm::Condense {
            op: _,
            x: _,
            domain: _,
            cond: _,
            e: _,
        }
        | TypedForm::Cells { f: _, e: _ }
        | TypedForm::Shift { e: _, offsets: _ }
        | TypedForm::Extend { e: _, domain: _ }
        | TypedForm::Concat { parts: _, along: _ }
        | TypedForm::Sdom(_)
        | TypedForm::Oid(_) => None,
    }
}

/// The number of a literal that is the only position.
#[tactic(auto, using(crate::proofs::TreeForms::only_literal_one, crate::proofs::TreeForms::only_literal_other))]
pub(crate) fn only_literal(axes: &[TypedAxis]) -> Option<i64>
    ensures { result ≡ only_literal_in (tree_of_axes axes.now) }
{
    match only_position(axes) {
        Some(x) => literal(x),
        None => None,
    }
}

/// How many axes a point has that is the only position.
#[tactic(auto, using(crate::proofs::TreeForms::only_point_one, crate::proofs::TreeForms::only_point_other))]
pub(crate) fn only_point(axes: &[TypedAxis]) -> Option<u32>
    ensures { result ≡ only_point_in (tree_of_axes axes.now) }
{
    match only_position(axes) {
        Some(x) => point_axes(&x.kind),
        None => None,
    }
}

/// How many axes a point has.
fn point_axes(kind: &Kind) -> Option<u32>
    ensures { result ≡ point_axes_in kind.now }
{
    match kind {
        Kind::Point { axes } => Some(*axes),
        _ => None,
    }
}
