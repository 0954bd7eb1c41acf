//! Between which numbers the value of an expression lies.
ghost use Rattle.std.specs.Prelude.{◌≡◌, IfOk, Ok, slice_get, unsigned_abs};
ghost use Rattle.spec_expressions.specs.Eval.{box_in};
ghost use Rattle.spec_expressions.specs.Reach.{number_alone, number_bound as number_bound_of, range_of_kind};
ghost use Rattle.spec_expressions.specs.Shape.{shape_of};
ghost use Rattle.spec_expressions.specs.Tree.{tree_of};
ghost use Rattle.ras_reach.specs.Forms.{index_seen};
ghost use Rattle.ras_reach.specs.Numbers.{index_bound_of, part_bound_of};
ghost use Rattle.ras_reach.specs.Variables.{variable_boxes};

use crate::forms::{IndexForm, PartForm, index_form, part_form};
use crate::intervals::{difference, negated, product, sum};
use crate::statics::{Static, part_value};
use crate::variables::{Variable, box_named};
use ras_cells::{Atom, CellType, Op1, Op2};
use ras_domain::{Interval, Region};
use ras_syntax::{Kind, TypedExpr, TypedForm};
use std::alloc::{AllocError, Global};

/// The range of an expression's type.
fn range_of(kind: &Kind) -> Interval
    ensures { result ≡ range_of_kind kind.now }
{
    let atom = match kind {
        Kind::Scalar(CellType::Atom(atom)) => *atom,
        Kind::Scalar(CellType::Composite(_)) => Atom::Wide,
        Kind::Array { cell: _, axes: _ } | Kind::Domain { axes: _ } | Kind::Point { axes: _ } => {
            Atom::Wide
        }
    };
    let (lo, hi) = atom.range();
    Interval { lo, hi }
}

/// The number alone, where there is one.
fn alone(value: Static) -> Option<Interval>
    ensures { result ≡ number_alone value }
{
    match value {
        Ok(z) => Some(Interval { lo: z, hi: z }),
        Err(_) => None,
    }
}

/// The interval at this place of a box.
fn interval_at(axes: &[Interval], k: i64) -> Option<Interval>
    ensures { result ≡ slice_get axes.now (unsigned_abs k) }
{
    axes.get(k.unsigned_abs() as usize).copied()
}

/// Between which numbers the value of an index lies.
fn index_bound(form: IndexForm<'_>, kind: &Kind, variables: &[Variable]) -> Option<Interval>
    ensures { result ≡ index_bound_of (variable_boxes variables.now) kind.now (index_seen form.entry) }
{
    match form {
        IndexForm::Coordinate(name, k) => interval_at(box_named(variables, name), k),
        IndexForm::AxisOfDomain | IndexForm::AtPoint(_) | IndexForm::Cells => Some(range_of(kind)),
    }
}

/// Between which numbers the value of a part lies. The error is want of memory.
fn part_bound(
    alloc: Global,
    form: PartForm,
    whole: &TypedExpr,
    kind: &Kind,
    domains: &[Region],
) -> Result<Option<Interval>, AllocError>
    ensures { IfOk result (λ bound. bound ≡ part_bound_of form kind.now (box_in (shape_of domains.now (tree_of whole.now)))) }
{
    match form {
        PartForm::Component => Ok(Some(range_of(kind))),
        PartForm::Lower | PartForm::Upper => { Ok(alone(part_value(alloc, form, whole, domains)?)) }
    }
}

/// An interval that has every value which the expression may have, where the variables' points lie in
/// their boxes, and None where it has none. The error is want of memory.
#[tactic(auto, using(crate::proofs::NumbersSeen::index_bounded, crate::proofs::NumbersSeen::part_bounded))]
pub(crate) fn number_bound(
    alloc: Global,
    e: &TypedExpr,
    domains: &[Region],
    variables: &[Variable],
) -> Result<Option<Interval>, AllocError>
    ensures { IfOk result (λ bound. bound ≡ number_bound_of domains.now (variable_boxes variables.now) (tree_of e.now)) }
{
    match &e.form {
        TypedForm::Number { value, atom: _ } => Ok(alone(Ok(*value))),
        TypedForm::Index { e: whole, axes } => {
            let form = index_form(whole.get(), axes.as_slice());
            Ok(index_bound(form, &e.kind, variables))
        }
        TypedForm::Part { e: whole, part } => {
            let form = part_form(whole.get(), part);
            part_bound(alloc, form, whole.get(), &e.kind, domains)
        }
        TypedForm::Unary {
            op: Op1::Neg,
            e: whole,
        } => {
            let a = number_bound(alloc, whole.get(), domains, variables)?;
            Ok(negated(a))
        }
        TypedForm::Binary { op: Op2::Add, a, b } => {
            let a = number_bound(alloc, a.get(), domains, variables)?;
            let b = number_bound(alloc, b.get(), domains, variables)?;
            Ok(sum(a, b))
        }
        TypedForm::Binary { op: Op2::Sub, a, b } => {
            let a = number_bound(alloc, a.get(), domains, variables)?;
            let b = number_bound(alloc, b.get(), domains, variables)?;
            Ok(difference(a, b))
        }
        TypedForm::Binary { op: Op2::Mul, a, b } => {
            let a = number_bound(alloc, a.get(), domains, variables)?;
            let b = number_bound(alloc, b.get(), domains, variables)?;
            Ok(product(a, b))
        }
        TypedForm::Bool(_)
        | TypedForm::Iterator { name: _, place: _ }
        | TypedForm::Variable(_)
        | TypedForm::Unary { op: _, e: _ }
        | TypedForm::Cast { to: _, e: _ }
        | TypedForm::Binary { op: _, a: _, b: _ }
        | TypedForm::Case { arms: _, other: _ }
        | TypedForm::Build(_)
        | TypedForm::Marray {
            x: _,
            domain: _,
            e: _,
        }
        | TypedForm::Condense {
            op: _,
            x: _,
            domain: _,
            cond: _,
            e: _,
        }
        | TypedForm::Cells { f: _, e: _ }
        | TypedForm::Shift { e: _, offsets: _ }
        | TypedForm::Extend { e: _, domain: _ }
        | TypedForm::Concat { parts: _, along: _ }
        | TypedForm::Sdom(_)
        | TypedForm::Oid(_) => Ok(Some(range_of(&e.kind))),
    }
}
