//! Values of static expressions: literals, bounds of domains, and what is computed of them.
ghost use Rattle.std.specs.Prelude.{◌≡◌, IfOk, slice_get};
ghost use Rattle.spec_expressions.specs.Tree.{tree_of, lower as lower_side, upper as upper_side};
ghost use Rattle.spec_expressions.specs.Shape.{shape_of, side_of, static_of};
ghost use Rattle.ras_values.specs.Statics.{first_side, value_of_both, value_of_operand};

use crate::heads::{PartWay, part_way};
use ras_cells::{CellFault, Op1, Op2, apply1_to_number, apply2_to_numbers};
use ras_domain::{Interval, Region};
use ras_shape::{ShapeError, shape};
use ras_syntax::{TypedExpr, TypedForm};
use std::alloc::{AllocError, Global};

/// The value of a static expression, or why it has none.
pub(crate) type Static = Result<i64, CellFault>;

/// The value of an expression, if it is static. The error is want of memory.
pub(crate) fn static_value(
    alloc: Global,
    e: &TypedExpr,
    domains: &[Region],
) -> Result<Static, AllocError>
    ensures { IfOk result (λ value. value ≡ static_of domains.now (tree_of e.now)) }
{
    match &e.form {
        TypedForm::Number { value, atom: _ } => Ok(Ok(*value)),
        TypedForm::Unary { op, e } => {
            let x = static_value(alloc, e.get(), domains)?;
            Ok(value_of_one(*op, x))
        }
        TypedForm::Binary { op, a, b } => {
            let x = static_value(alloc, a.get(), domains)?;
            let y = static_value(alloc, b.get(), domains)?;
            Ok(value_of_two(*op, x, y))
        }
        TypedForm::Part { e, part } => match part_way(e.get(), part) {
            PartWay::Component(_) => Ok(Err(CellFault::Overflow)),
            PartWay::Lower => lower_bound(alloc, e.get(), domains),
            PartWay::Upper => upper_bound(alloc, e.get(), domains),
        },
        TypedForm::Index { e: _, axes: _ } => Ok(Err(CellFault::Overflow)),
        TypedForm::Bool(_)
        | TypedForm::Iterator { name: _, place: _ }
        | TypedForm::Variable(_)
        | TypedForm::Cast { to: _, e: _ }
        | TypedForm::Case { arms: _, other: _ }
        | TypedForm::Build(_)
        | TypedForm::Marray {
            x: _,
            domain: _,
            e: _,
        }
        | TypedForm::Condense {
            op: _,
            x: _,
            domain: _,
            cond: _,
            e: _,
        }
        | TypedForm::Cells { f: _, e: _ }
        | TypedForm::Shift { e: _, offsets: _ }
        | TypedForm::Extend { e: _, domain: _ }
        | TypedForm::Concat { parts: _, along: _ }
        | TypedForm::Sdom(_)
        | TypedForm::Oid(_) => Ok(Err(CellFault::Overflow)),
    }
}

/// The lower bound of the first axis of an expression's box.
pub(crate) fn lower_bound(
    alloc: Global,
    e: &TypedExpr,
    domains: &[Region],
) -> Result<Static, AllocError>
    ensures { IfOk result (λ value. value ≡ first_side lower_side (shape_of domains.now (tree_of e.now))) }
{
    match shape(alloc, e, domains) {
        Ok(form) => Ok(lower(form.axes())),
        Err(ShapeError::Fault { .. }) => Ok(Err(CellFault::Overflow)),
        Err(ShapeError::Memory) => Err(AllocError),
    }
}

/// The upper bound of the first axis of an expression's box.
pub(crate) fn upper_bound(
    alloc: Global,
    e: &TypedExpr,
    domains: &[Region],
) -> Result<Static, AllocError>
    ensures { IfOk result (λ value. value ≡ first_side upper_side (shape_of domains.now (tree_of e.now))) }
{
    match shape(alloc, e, domains) {
        Ok(form) => Ok(upper(form.axes())),
        Err(ShapeError::Fault { .. }) => Ok(Err(CellFault::Overflow)),
        Err(ShapeError::Memory) => Err(AllocError),
    }
}

fn value_of_one(op: Op1, x: Static) -> Static
    ensures { result ≡ value_of_operand op x }
{
    match x {
        Ok(x) => apply1_to_number(op, x),
        Err(fault) => Err(fault),
    }
}

fn value_of_two(op: Op2, a: Static, b: Static) -> Static
    ensures { result ≡ value_of_both op a b }
{
    match (a, b) {
        (Ok(x), Ok(y)) => apply2_to_numbers(op, x, y),
        (Err(fault), _) => Err(fault),
        (Ok(_), Err(fault)) => Err(fault),
    }
}

/// The lower bound of the first axis.
fn lower(axes: &[Interval]) -> Static
    ensures { result ≡ side_of lower_side (slice_get axes.now 0) }
{
    match axes.first() {
        Some(axis) => Ok(axis.lo),
        None => Err(CellFault::Overflow),
    }
}

/// The upper bound of the first axis.
fn upper(axes: &[Interval]) -> Static
    ensures { result ≡ side_of upper_side (slice_get axes.now 0) }
{
    match axes.first() {
        Some(axis) => Ok(axis.hi),
        None => Err(CellFault::Overflow),
    }
}
