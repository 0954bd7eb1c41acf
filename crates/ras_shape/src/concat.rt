//! Arrays that are joined along an axis.
ghost use Rattle.std.specs.Prelude.{◌≡◌, Result, ◌++◌, ◌≤◌, ◌+ℤ◌, ◌-ℤ◌, FitsSigned, IfOk, IfSome, IfNone, SomeIff, not, true, false};
ghost use Rattle.std.specs.Int.{w64};
ghost use Rattle.std.specs.List.{list_all, list_any, zip};
ghost use Rattle.ras_domain.specs.Region.{extent_of};
ghost use Rattle.ras_domain.specs.Boxes.{hull_of};
ghost use Rattle.ras_shape.specs.Gives.{GivesAs, GivesShape};
ghost use Rattle.ras_shape.specs.Moves.{agrees_with, is_as_long, interval_begun_at, box_begun_with, boxes_of_forms, checked_box};
ghost use Rattle.ras_shape.specs.Moves.{placed_box, placed_shape};
ghost use Rattle.spec_expressions.specs.Shape.{Shape, ShapeMisfit, concat_shape, extents_agree, has_extents_of, has_large_bound};
ghost use Rattle.spec_expressions.specs.Shape.{interval_after, moved_after, is_small as is_small_number};

use crate::form::{Form, ShapeError, fault_at};
use crate::sizes::sized_region;
use ras_cells::MAX_COMPONENTS;
use ras_domain::Interval;
use ras_syntax::{ShapeFault, Span};
use std::alloc::{AllocError, Global};

/// The parts joined along an axis: each but the first is moved so that it follows its predecessor
/// there, and begins with the first on the other axes.
#[tactic(auto, using(crate::proofs::Places::concats))]
pub(crate) fn concat_form(
    alloc: Global,
    span: Span,
    width: u64,
    along: u64,
    parts: &[Form],
) -> Result<Form, ShapeError>
    requires { width ≤ MAX_COMPONENTS }
    ensures { GivesShape (concat_shape span width along (boxes_of_forms parts.now)) result }
{
    if !have_equal_extents(along, parts) {
        return Err(fault_at(span, ShapeFault::ExtentsDiffer));
    }
    placed_form(alloc, span, width, along, parts)
}

/// The array on the box of all parts.
fn placed_form(
    alloc: Global,
    span: Span,
    width: u64,
    along: u64,
    parts: &[Form],
) -> Result<Form, ShapeError>
    requires { width ≤ MAX_COMPONENTS }
    ensures { (wanted : Result Shape ShapeMisfit)
        → wanted ≡ placed_shape span width along (boxes_of_forms parts.now) → GivesShape wanted result }
{
    let axes = joined(alloc, span, along, parts)?;
    Ok(Form::Array(sized_region(span, width, &axes)?))
}

/// Whether the extents of all parts are equal on every axis but this one.
#[tactic(auto, using(crate::proofs::Places::extents_each))]
fn have_equal_extents(along: u64, parts: &[Form]) -> bool
    ensures { result ≡ extents_agree along (boxes_of_forms parts.now) }
{
    let [first, others @ ..] = parts else {
        return true;
    };
    agree_with(along, first, others)
}

/// Whether the extents of the other parts are those of the first on every axis but this one.
fn agree_with(along: u64, first: &Form, others: &[Form]) -> bool
    ensures { result ≡ list_all (agrees_with along first.now) others.now }
{
    others
        .iter()
        .all(|part| has_equal_extents(along, first.axes(), part.axes()))
}

/// Whether the extents are equal on every axis but this one.
fn has_equal_extents(along: u64, first: &[Interval], b: &[Interval]) -> bool
    ensures { result ≡ has_extents_of along first.now b.now }
{
    let [one, firsts @ ..] = first else {
        return true;
    };
    let [other, others @ ..] = b else {
        return true;
    };
    if along == 0 {
        return is_each_as_long(firsts, others);
    }
    extent(one) == extent(other) && has_equal_extents(along - 1, firsts, others)
}

/// Whether each interval has the extent of its partner.
fn is_each_as_long(a: &[Interval], b: &[Interval]) -> bool
    ensures { result ≡ list_all is_as_long (zip a.now b.now) }
{
    a.iter().zip(b).all(|(x, y)| extent(x) == extent(y))
}

/// How many whole numbers an interval has.
fn extent(axis: &Interval) -> u128
    ensures { result ≡ extent_of axis.now }
{
    if axis.hi < axis.lo {
        return 0;
    }
    u128::from(axis.hi.abs_diff(axis.lo)) + 1
}

/// The box of all parts, each moved to its place. The fault is [`ShapeFault::BoundOut`] where a bound
/// of one leaves 32 bits.
#[tactic(auto, using(crate::proofs::Places::places, crate::proofs::Bounds::no_large))]
fn joined(
    alloc: Global,
    span: Span,
    along: u64,
    parts: &[Form],
) -> Result<Vec<Interval>, ShapeError>
    ensures { GivesAs (λ axes. axes.items) (placed_box span along (boxes_of_forms parts.now)) result }
{
    let [first, others @ ..] = parts else {
        return Ok(Vec::new(alloc));
    };
    let mut whole = Vec::from_slice(alloc, first.axes())?;
    let mut before = Vec::from_slice(alloc, first.axes())?;
    for part in others {
        let next = moved(alloc, span, along, first.axes(), &before, part.axes())?;
        whole = hull(alloc, &whole, &next)?;
        before = next;
    }
    Ok(whole)
}

/// The least box with the points of both.
fn hull(alloc: Global, a: &[Interval], b: &[Interval]) -> Result<Vec<Interval>, AllocError>
    ensures { IfOk result (λ axes. axes.items ≡ hull_of a.now b.now) }
{
    a.iter()
        .zip(b)
        .map(|(x, y)| Interval {
            lo: x.lo.min(y.lo),
            hi: x.hi.max(y.hi),
        })
        .collect(alloc)
}

/// The box `b`, moved so that it follows `before` on this axis and begins with `first` on the others.
fn moved(
    alloc: Global,
    span: Span,
    along: u64,
    first: &[Interval],
    before: &[Interval],
    b: &[Interval],
) -> Result<Vec<Interval>, ShapeError>
    ensures { GivesAs (λ axes. axes.items) (checked_box span (moved_after along first.now before.now b.now)) result }
{
    let mut axes = Vec::new(alloc);
    if !push_moved(along, first, before, b, &mut axes)? {
        return Err(fault_at(span, ShapeFault::BoundOut));
    }
    Ok(axes)
}

/// Puts the moved intervals at the end, and says whether all have bounds of 32 bits.
fn push_moved(
    along: u64,
    first: &[Interval],
    before: &[Interval],
    b: &[Interval],
    moved: &mut Vec<Interval>,
) -> Result<bool, AllocError>
    ensures small { IfOk result (λ small. list_any has_large_bound (moved_after along first.now before.now b.now) ≡ not small) }
    ensures moved { IfOk result (λ small. small ≡ true
        → moved.new.items ≡ moved.old.items ++ moved_after along first.now before.now b.now) }
{
    let [one, firsts @ ..] = first else {
        return Ok(true);
    };
    let [last, lasts @ ..] = before else {
        return Ok(true);
    };
    let [next, others @ ..] = b else {
        return Ok(true);
    };
    if along == 0 {
        let Some(axis) = moved_behind(last, next) else {
            return Ok(false);
        };
        moved.push(axis)?;
        return push_begun(firsts, others, moved);
    }
    let Some(axis) = moved_to(&one.lo, next) else {
        return Ok(false);
    };
    moved.push(axis)?;
    push_moved(along - 1, firsts, lasts, others, moved)
}

/// Puts the intervals of `b` at the end, moved so that they begin with those of `first`, and says
/// whether all have bounds of 32 bits.
fn push_begun(
    first: &[Interval],
    b: &[Interval],
    moved: &mut Vec<Interval>,
) -> Result<bool, AllocError>
    ensures small { IfOk result (λ small. list_any has_large_bound (box_begun_with first.now b.now) ≡ not small) }
    ensures moved { IfOk result (λ small. small ≡ true → moved.new.items ≡ moved.old.items ++ box_begun_with first.now b.now) }
{
    let [one, firsts @ ..] = first else {
        return Ok(true);
    };
    let [next, others @ ..] = b else {
        return Ok(true);
    };
    let Some(axis) = moved_to(&one.lo, next) else {
        return Ok(false);
    };
    moved.push(axis)?;
    push_begun(firsts, others, moved)
}

/// None where it leaves 64 bits.
fn difference(a: &i64, b: &i64) -> Option<i64>
    ensures { SomeIff result (FitsSigned w64 (a.now -ℤ b.now)) (a.now -ℤ b.now) }
{
    a.checked_sub(*b)
}

/// None where it leaves 64 bits.
fn sum(a: &i64, b: &i64) -> Option<i64>
    ensures { SomeIff result (FitsSigned w64 (a.now +ℤ b.now)) (a.now +ℤ b.now) }
{
    a.checked_add(*b)
}

/// The interval moved so that it begins at `lo`, and None where a bound leaves 32 bits.
#[tactic(auto, using(crate::proofs::Bounds::large_end))]
fn moved_to(lo: &i64, axis: &Interval) -> Option<Interval>
    ensures moved { IfSome result (λ moved. (moved ≡ interval_begun_at lo.now axis.now) × (has_large_bound moved ≡ false)) }
    ensures large { IfNone result (has_large_bound (interval_begun_at lo.now axis.now) ≡ true) }
{
    if !is_small(lo) {
        return None;
    }
    let length = difference(&axis.hi, &axis.lo)?;
    let hi = sum(lo, &length)?;
    if !is_small(&hi) {
        return None;
    }
    Some(Interval { lo: *lo, hi })
}

/// The interval moved so that it follows another one, and None where a bound leaves 32 bits.
fn moved_behind(before: &Interval, axis: &Interval) -> Option<Interval>
    ensures moved { IfSome result (λ moved. (moved ≡ interval_after before.now axis.now) × (has_large_bound moved ≡ false)) }
    ensures large { IfNone result (has_large_bound (interval_after before.now axis.now) ≡ true) }
{
    let lo = before.hi.checked_add(1)?;
    moved_to(&lo, axis)
}

/// Whether it is a number of 32 bits.
fn is_small(z: &i64) -> bool
    ensures { result ≡ is_small_number z.now }
{
    i32::try_from(*z).is_ok()
}
