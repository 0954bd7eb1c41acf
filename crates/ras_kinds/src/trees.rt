//! What rules ask of a checked expression besides its kind.
ghost use Rattle.std.specs.Prelude.{◌≡◌};
ghost use Rattle.spec_expressions.specs.Tree.{number, part_form, tree_of};
ghost use Rattle.spec_expressions.specs.Shape.{is_static as is_static_tree, is_static_form};
ghost use Rattle.ras_kinds.specs.Seen.{is_interval_tree, is_sdom_tree};

use crate::positions::only_literal;
use ras_cells::{Atom, Op1, Op2};
use ras_syntax::{Part, TypedExpr, TypedForm};

/// Whether the expression is `sdom(e)`.
#[tactic(auto, using(crate::proofs::TreeForms::sdom_index, crate::proofs::TreeForms::sdom_part))]
pub(crate) fn is_sdom(e: &TypedExpr) -> bool
    ensures { result ≡ is_sdom_tree (tree_of e.now) }
{
    match &e.form {
        TypedForm::Sdom(_) => true,
        TypedForm::Index { e: _, axes: _ } => false,
        TypedForm::Bool(_)
        | TypedForm::Number { value: _, atom: _ }
        | TypedForm::Iterator { name: _, place: _ }
        | TypedForm::Variable(_)
        | TypedForm::Unary { op: _, e: _ }
        | TypedForm::Cast { to: _, e: _ }
        | TypedForm::Binary { op: _, a: _, b: _ }
        | TypedForm::Part { e: _, part: _ }
        | TypedForm::Case { arms: _, other: _ }
        | TypedForm::Build(_)
        | TypedForm::Marray {
            x: _,
            domain: _,
            e: _,
        }
        | TypedForm::Condense {
            op: _,
            x: _,
            domain: _,
            cond: _,
            e: _,
        }
        | TypedForm::Cells { f: _, e: _ }
        | TypedForm::Shift { e: _, offsets: _ }
        | TypedForm::Extend { e: _, domain: _ }
        | TypedForm::Concat { parts: _, along: _ }
        | TypedForm::Oid(_) => false,
    }
}

/// Whether the expression is `sdom(e)[k]`.
#[tactic(auto, using(crate::proofs::TreeForms::interval_index, crate::proofs::TreeForms::interval_part))]
pub(crate) fn is_interval(e: &TypedExpr) -> bool
    ensures { result ≡ is_interval_tree (tree_of e.now) }
{
    match &e.form {
        TypedForm::Index { e, axes } => is_sdom(e.get()) && only_literal(axes.as_slice()).is_some(),
        TypedForm::Bool(_)
        | TypedForm::Number { value: _, atom: _ }
        | TypedForm::Iterator { name: _, place: _ }
        | TypedForm::Variable(_)
        | TypedForm::Unary { op: _, e: _ }
        | TypedForm::Cast { to: _, e: _ }
        | TypedForm::Binary { op: _, a: _, b: _ }
        | TypedForm::Part { e: _, part: _ }
        | TypedForm::Case { arms: _, other: _ }
        | TypedForm::Build(_)
        | TypedForm::Marray {
            x: _,
            domain: _,
            e: _,
        }
        | TypedForm::Condense {
            op: _,
            x: _,
            domain: _,
            cond: _,
            e: _,
        }
        | TypedForm::Cells { f: _, e: _ }
        | TypedForm::Shift { e: _, offsets: _ }
        | TypedForm::Extend { e: _, domain: _ }
        | TypedForm::Concat { parts: _, along: _ }
        | TypedForm::Sdom(_)
        | TypedForm::Oid(_) => false,
    }
}

/// Whether the expression is a bound of an interval.
#[tactic(auto, using(crate::proofs::TreeForms::bound_part))]
fn is_bound(e: &TypedExpr, part: &Part) -> bool
    ensures { result ≡ is_static_form (part_form (tree_of e.now) part.now) }
{
    match part {
        Part::Named(_) => is_interval(e),
        Part::Numbered(_) => false,
    }
}

/// Whether the atom is that of wide numbers.
fn is_wide(value: &i64, atom: Atom) -> bool
    ensures { result ≡ is_static_form (number value.now atom) }
{
    match atom {
        Atom::Wide => true,
        _ => false,
    }
}

/// Whether the expression's value is fixed by the text and by the domains of arrays: it is made of
/// wide literals and bounds of arrays by sums, differences, products and signs.
#[tactic(auto, using(crate::proofs::TreeForms::static_index))]
pub fn is_static(e: &TypedExpr) -> bool
    ensures { result ≡ is_static_tree (tree_of e.now) }
{
    match &e.form {
        TypedForm::Number { value, atom } => is_wide(value, *atom),
        TypedForm::Part { e, part } => is_bound(e.get(), part),
        TypedForm::Unary { op: Op1::Neg, e } => is_static(e.get()),
        TypedForm::Binary {
            op: Op2::Add | Op2::Sub | Op2::Mul,
            a,
            b,
        } => { is_static(a.get()) && is_static(b.get()) }
        TypedForm::Index { e: _, axes: _ } => false,
        TypedForm::Bool(_)
        | TypedForm::Iterator { name: _, place: _ }
        | TypedForm::Variable(_)
        | TypedForm::Unary { op: _, e: _ }
        | TypedForm::Cast { to: _, e: _ }
        | TypedForm::Binary { op: _, a: _, b: _ }
        | TypedForm::Case { arms: _, other: _ }
        | TypedForm::Build(_)
        | TypedForm::Marray {
            x: _,
            domain: _,
            e: _,
        }
        | TypedForm::Condense {
            op: _,
            x: _,
            domain: _,
            cond: _,
            e: _,
        }
        | TypedForm::Cells { f: _, e: _ }
        | TypedForm::Shift { e: _, offsets: _ }
        | TypedForm::Extend { e: _, domain: _ }
        | TypedForm::Concat { parts: _, along: _ }
        | TypedForm::Sdom(_)
        | TypedForm::Oid(_) => false,
    }
}
