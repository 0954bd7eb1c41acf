//! The axes of an index, and written bounds.
ghost use Rattle.std.specs.Prelude.{◌≡◌, Result, map, IfOk, Ok};
ghost use Rattle.ras_shape.specs.Gives.{shape_of_form, GivesAs, GivesShape};
ghost use Rattle.ras_shape.specs.Cuts.{any_broken, any_empty, any_outside, cut_found, literal_box};
ghost use Rattle.spec_expressions.specs.Shape.{Shape, ShapeMisfit, array_or_scalar_shape, cut_shape, is_broken, is_empty_cut, is_outside};
ghost use Rattle.spec_expressions.specs.Shape.{kept_axes, position_cut, trim_cut};

use crate::form::{Form, ShapeError, fault_at, region_of};
use ras_cells::CellFault;
use ras_domain::Interval;
use ras_syntax::{ShapeFault, Span};
use std::alloc::{AllocError, Global};

/// What an index does to an axis.
#[derive(Clone, Copy, Debug, PartialEq, Eq)]
pub enum Cut {
    /// It takes this position.
    Fixed(i64),
    /// It takes a position that each cell has for itself.
    Moving,
    /// It keeps the positions between these, both included.
    Between(i64, i64),
    /// A position or a bound has no value, or a bound leaves 32 bits.
    Broken,
}

/// The cut of a position with this value, if it is static.
pub(crate) fn position(is_fixed: bool, value: Result<i64, CellFault>) -> Cut
    ensures { cut_found result ≡ position_cut is_fixed value }
{
    match (is_fixed, value) {
        (false, _) => Cut::Moving,
        (true, Ok(z)) => Cut::Fixed(z),
        (true, Err(_)) => Cut::Broken,
    }
}

/// The cut of a trim with these bounds.
pub(crate) fn trim(lo: Result<i64, CellFault>, hi: Result<i64, CellFault>) -> Cut
    ensures { cut_found result ≡ trim_cut lo hi }
{
    match (lo, hi) {
        (Ok(lo), Ok(hi)) => {
            if i32::try_from(lo).is_ok() && i32::try_from(hi).is_ok() {
                Cut::Between(lo, hi)
            } else {
                Cut::Broken
            }
        }
        _ => Cut::Broken,
    }
}

impl Cut {
    fn is_broken(self) -> bool
        ensures { result ≡ is_broken (cut_found self) }
    {
        matches!(self, Cut::Broken)
    }

    fn is_empty(self) -> bool
        ensures { result ≡ is_empty_cut (cut_found self) }
    {
        match self {
            Cut::Between(lo, hi) => hi < lo,
            _ => false,
        }
    }

    /// Whether it leaves the axis.
    fn is_outside(self, axis: &Interval) -> bool
        ensures { result ≡ is_outside (cut_found self, axis.now) }
    {
        match self {
            Cut::Fixed(z) => !(axis.lo <= z && z <= axis.hi),
            Cut::Between(lo, hi) => !(axis.lo <= lo && hi <= axis.hi),
            _ => false,
        }
    }
}

/// The axes that trims keep.
fn kept(alloc: Global, cuts: &[Cut]) -> Result<Vec<Interval>, AllocError>
    ensures { IfOk result (λ axes. axes.items ≡ kept_axes (map cut_found cuts.now)) }
{
    let mut axes = Vec::new(alloc);
    for cut in cuts {
        if let Cut::Between(lo, hi) = *cut {
            axes.push(Interval { lo, hi })?;
        }
    }
    Ok(axes)
}

/// The box of written bounds, from their cuts.
#[tactic(auto, using(crate::proofs::Bounds::boxes))]
pub(crate) fn literal_axes(
    alloc: Global,
    span: Span,
    cuts: &[Cut],
) -> Result<Vec<Interval>, ShapeError>
    ensures { GivesAs (λ axes. axes.items) (literal_box span (map cut_found cuts.now)) result }
{
    if has_broken(cuts) {
        return Err(fault_at(span, ShapeFault::BoundOut));
    }
    if has_empty(cuts) {
        return Err(fault_at(span, ShapeFault::EmptyDomain));
    }
    let axes = kept(alloc, cuts)?;
    Ok(axes)
}

fn has_broken(cuts: &[Cut]) -> bool
    ensures { result ≡ any_broken cuts.now }
{
    cuts.iter().any(|cut| cut.is_broken())
}

fn has_empty(cuts: &[Cut]) -> bool
    ensures { result ≡ any_empty cuts.now }
{
    cuts.iter().any(|cut| cut.is_empty())
}

/// Whether a cut leaves its axis.
fn has_outside(cuts: &[Cut], axes: &[Interval]) -> bool
    ensures { result ≡ any_outside cuts.now axes.now }
{
    cuts.iter()
        .zip(axes)
        .any(|(cut, axis)| cut.is_outside(axis))
}

/// What an index with these cuts takes from an array with these axes.
#[tactic(auto, using(crate::proofs::Bounds::indexes))]
pub(crate) fn cut_form(
    alloc: Global,
    span: Span,
    axes: &[Interval],
    cuts: &[Cut],
) -> Result<Form, ShapeError>
    ensures { GivesShape (cut_shape span axes.now (map cut_found cuts.now)) result }
{
    let kept = literal_axes(alloc, span, cuts)?;
    if has_outside(cuts, axes) {
        return Err(fault_at(span, ShapeFault::Outside));
    }
    array_or_scalar(&kept)
}

/// The array on these intervals, and a scalar where there is none.
fn array_or_scalar(axes: &[Interval]) -> Result<Form, ShapeError>
    ensures { (wanted : Result Shape ShapeMisfit) → wanted ≡ Ok (array_or_scalar_shape axes.now) → GivesShape wanted result }
{
    if axes.is_empty() {
        return Ok(Form::Scalar);
    }
    Ok(Form::Array(region_of(axes)?))
}
