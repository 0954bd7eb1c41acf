//! What is fixed by the text and by the domains of arrays: boxes of parts, values of static
//! expressions, bounds that are written, and offsets.
ghost use Rattle.std.specs.Prelude.{◌≡◌, IfOk, is_ok, slice_get};
ghost use Rattle.ras_shape.specs.Looks.{both_values as both_values_of, one_value};
ghost use Rattle.ras_shape.specs.Trees.{domain_looked_at, trees_seen};
ghost use Rattle.spec_expressions.specs.Eval.{axes_in, box_in, offsets_in, written_in};
ghost use Rattle.spec_expressions.specs.Shape.{offsets_of, shape_of, side_of, static_of, written_of};
ghost use Rattle.spec_expressions.specs.Tree.{lower as lower_side, tree_of, upper as upper_side};
ghost use Rattle.ras_reach.specs.Statics.{all_found, interval_between, interval_found, found_or_none, number_found, part_value_of};

use crate::forms::{PartForm, part_form};
use ras_cells::{CellFault, Op1, Op2, apply1_to_number, apply2_to_numbers};
use ras_domain::{Interval, Region};
use ras_shape::{ShapeError, shape};
use ras_syntax::{TypedDomain, TypedExpr, TypedForm};
use std::alloc::{AllocError, Global};

/// The value of a static expression.
pub(crate) type Static = Result<i64, CellFault>;

/// The box of an expression's shape, and no intervals where it has none. The error is want of memory.
pub(crate) fn box_of(
    alloc: Global,
    e: &TypedExpr,
    domains: &[Region],
) -> Result<Vec<Interval>, AllocError>
    ensures { IfOk result (λ axes. axes.items ≡ box_in (shape_of domains.now (tree_of e.now))) }
{
    match shape(alloc, e, domains) {
        Ok(form) => Vec::from_slice(alloc, form.axes()),
        Err(ShapeError::Fault { span: _, fault: _ }) => Ok(Vec::new(alloc)),
        Err(ShapeError::Memory) => Err(AllocError),
    }
}

/// Whether an expression has a shape. The error is want of memory.
fn has_shape(alloc: Global, e: &TypedExpr, domains: &[Region]) -> Result<bool, AllocError>
    ensures { IfOk result (λ has. has ≡ is_ok (shape_of domains.now (tree_of e.now))) }
{
    match shape(alloc, e, domains) {
        Ok(_) => Ok(true),
        Err(ShapeError::Fault { span: _, fault: _ }) => Ok(false),
        Err(ShapeError::Memory) => Err(AllocError),
    }
}

/// The lower bound of the first axis.
fn lower(axes: &[Interval]) -> Static
    ensures { result ≡ side_of lower_side (slice_get axes.now 0) }
{
    match axes.first() {
        Some(axis) => Ok(axis.lo),
        None => Err(CellFault::Overflow),
    }
}

/// The upper bound of the first axis.
fn upper(axes: &[Interval]) -> Static
    ensures { result ≡ side_of upper_side (slice_get axes.now 0) }
{
    match axes.first() {
        Some(axis) => Ok(axis.hi),
        None => Err(CellFault::Overflow),
    }
}

/// The value of a part, which has one where it is a bound of a domain's axis.
pub(crate) fn part_value(
    alloc: Global,
    form: PartForm,
    whole: &TypedExpr,
    domains: &[Region],
) -> Result<Static, AllocError>
    ensures { IfOk result (λ value. value ≡ part_value_of form (box_in (shape_of domains.now (tree_of whole.now)))) }
{
    match form {
        PartForm::Component => Ok(Err(CellFault::Overflow)),
        PartForm::Lower => Ok(lower(&box_of(alloc, whole, domains)?)),
        PartForm::Upper => Ok(upper(&box_of(alloc, whole, domains)?)),
    }
}

/// The value of an operation on one static operand.
fn value_of_one(op: Op1, value: Static) -> Static
    ensures { result ≡ one_value op value }
{
    match value {
        Ok(x) => apply1_to_number(op, x),
        Err(fault) => Err(fault),
    }
}

/// The value of an operation on two static operands.
fn value_of_two(op: Op2, a: Static, b: Static) -> Static
    ensures { result ≡ both_values_of op a b }
{
    match (a, b) {
        (Ok(x), Ok(y)) => apply2_to_numbers(op, x, y),
        (Err(fault), _) => Err(fault),
        (Ok(_), Err(fault)) => Err(fault),
    }
}

/// The value of a static expression; one that isn't static has the fault of a number that is too
/// large. The error is want of memory.
#[tactic(auto, using(crate::proofs::StaticsSeen::part_static, crate::proofs::StaticsSeen::index_static))]
fn value_of(alloc: Global, e: &TypedExpr, domains: &[Region]) -> Result<Static, AllocError>
    ensures { IfOk result (λ value. value ≡ static_of domains.now (tree_of e.now)) }
{
    match &e.form {
        TypedForm::Number { value, atom: _ } => Ok(Ok(*value)),
        TypedForm::Part { e: whole, part } => {
            let form = part_form(whole.get(), part);
            part_value(alloc, form, whole.get(), domains)
        }
        TypedForm::Unary { op, e } => {
            let value = value_of(alloc, e.get(), domains)?;
            Ok(value_of_one(*op, value))
        }
        TypedForm::Binary { op, a, b } => {
            let x = value_of(alloc, a.get(), domains)?;
            let y = value_of(alloc, b.get(), domains)?;
            Ok(value_of_two(*op, x, y))
        }
        TypedForm::Index { e: _, axes: _ } => Ok(Err(CellFault::Overflow)),
        TypedForm::Bool(_)
        | TypedForm::Iterator { name: _, place: _ }
        | TypedForm::Variable(_)
        | TypedForm::Cast { to: _, e: _ }
        | TypedForm::Case { arms: _, other: _ }
        | TypedForm::Build(_)
        | TypedForm::Marray {
            x: _,
            domain: _,
            e: _,
        }
        | TypedForm::Condense {
            op: _,
            x: _,
            domain: _,
            cond: _,
            e: _,
        }
        | TypedForm::Cells { f: _, e: _ }
        | TypedForm::Shift { e: _, offsets: _ }
        | TypedForm::Extend { e: _, domain: _ }
        | TypedForm::Concat { parts: _, along: _ }
        | TypedForm::Sdom(_)
        | TypedForm::Oid(_) => Ok(Err(CellFault::Overflow)),
    }
}

/// The value of a static expression that has a shape, and None where it has no shape or no value. The
/// error is want of memory.
fn number_of(alloc: Global, e: &TypedExpr, domains: &[Region]) -> Result<Option<i64>, AllocError>
    ensures { IfOk result (λ number. number ≡ number_found domains.now e.now) }
{
    if !has_shape(alloc, e, domains)? {
        return Ok(None);
    }
    let value = value_of(alloc, e, domains)?;
    Ok(value.ok())
}

/// The numbers between two bounds, and None where a bound has no value of 32 bits or no number is
/// between them.
fn between(lo: Option<i64>, hi: Option<i64>) -> Option<Interval>
    ensures { result ≡ interval_between lo hi }
{
    let lo = lo?;
    let hi = hi?;
    if i32::try_from(lo).is_ok() && i32::try_from(hi).is_ok() && lo <= hi {
        Some(Interval { lo, hi })
    } else {
        None
    }
}

/// The numbers between two written bounds, as [`between`] has them. The error is want of memory.
fn interval_of(
    alloc: Global,
    bounds: &(TypedExpr, TypedExpr),
    domains: &[Region],
) -> Result<Option<Interval>, AllocError>
    ensures { IfOk result (λ axis. axis ≡ interval_found domains.now bounds.now) }
{
    let lo = number_of(alloc, &bounds.0, domains)?;
    let hi = number_of(alloc, &bounds.1, domains)?;
    Ok(between(lo, hi))
}

/// The box of written bounds, and no intervals where it isn't one. The error is want of memory.
#[tactic(auto, using(crate::proofs::StaticsSeen::found_loops))]
fn written_box(
    alloc: Global,
    pairs: &[(TypedExpr, TypedExpr)],
    domains: &[Region],
) -> Result<Vec<Interval>, AllocError>
    ensures { IfOk result (λ axes. axes.items ≡ found_or_none (all_found (interval_found domains.now) pairs.now)) }
{
    let mut axes = Vec::new(alloc);
    for pair in pairs {
        let Some(axis) = interval_of(alloc, pair, domains)? else {
            return Ok(Vec::new(alloc));
        };
        axes.push(axis)?;
    }
    Ok(axes)
}

/// The box of a domain, and no intervals where it has none. The error is want of memory.
#[tactic(auto, using(crate::proofs::DomainsSeen::domain_boxes))]
pub(crate) fn domain_box(
    alloc: Global,
    domain: &TypedDomain,
    domains: &[Region],
) -> Result<Vec<Interval>, AllocError>
    ensures { IfOk result (λ axes. axes.items ≡ axes_in (written_in (written_of domains.now (domain_looked_at domain.now)))) }
{
    match domain {
        TypedDomain::Literal(pairs) => written_box(alloc, pairs.as_slice(), domains),
        TypedDomain::Sdom(e) => box_of(alloc, e.get(), domains),
    }
}

/// The values of offsets, and none where one has no value. The error is want of memory.
#[tactic(auto, using(crate::proofs::StaticsSeen::found_loops, crate::proofs::StaticsSeen::offsets_are))]
pub(crate) fn offset_values(
    alloc: Global,
    offsets: &[TypedExpr],
    domains: &[Region],
) -> Result<Vec<i64>, AllocError>
    ensures { IfOk result (λ values. values.items ≡ offsets_in (offsets_of domains.now (trees_seen offsets.now))) }
{
    let mut values = Vec::new(alloc);
    for offset in offsets {
        let Some(value) = number_of(alloc, offset, domains)? else {
            return Ok(Vec::new(alloc));
        };
        values.push(value)?;
    }
    Ok(values)
}
