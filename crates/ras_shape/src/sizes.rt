//! How large an array may be.
ghost use Rattle.std.specs.Prelude.{◌≡◌, ◌≢◌, ◌≤◌, IfErr};
ghost use Rattle.ras_shape.specs.Gives.{shape_of_form, GivesBox, GivesShape, HasRegionAxes};
ghost use Rattle.ras_shape.specs.declared.form.ShapeError.TheVariants.{Memory};
ghost use Rattle.spec_expressions.specs.Shape.{of_size, sized_shape, width_of_kind};

use crate::form::{Form, ShapeError, fault_at};
use ras_cells::MAX_COMPONENTS;
use ras_domain::{DomainFault, Interval, Region};
use ras_syntax::{Kind, MAX_STORED_NUMBERS, ShapeFault, Span};

/// How many numbers are stored for a cell of this kind.
pub(crate) fn width_of(kind: &Kind) -> u64
    ensures width { result ≡ width_of_kind kind.now }
    ensures few { result ≤ MAX_COMPONENTS }
{
    match kind {
        Kind::Scalar(cell) | Kind::Array { cell, .. } => cell.atoms().len() as u64,
        Kind::Domain { .. } | Kind::Point { .. } => 1,
    }
}

/// The region of these intervals, where it has at most 2^24 points and, with so many numbers a cell,
/// at most 2^24 stored numbers. Else the fault is [`ShapeFault::ArrayTooLarge`]. Where no box with these
/// axes is a region, however few its points, the answer is the same as for want of memory.
#[tactic(auto, using(crate::proofs::Volumes::sizes))]
pub(crate) fn sized_region(span: Span, width: u64, axes: &[Interval]) -> Result<Region, ShapeError>
    requires { width ≤ MAX_COMPONENTS }
    ensures size { GivesBox (of_size span width axes.now) result }
    ensures region { HasRegionAxes axes.now → IfErr result (λ error. error ≢ Memory) }
{
    match Region::new(axes) {
        Ok(region) => with_few_numbers(span, width, region),
        Err(DomainFault::TooLarge) => Err(fault_at(span, ShapeFault::ArrayTooLarge)),
        Err(_) => Err(ShapeError::Memory),
    }
}

/// The region, where it has at most 2^24 stored numbers.
#[tactic(auto, using(crate::proofs::Volumes::sizes))]
fn with_few_numbers(span: Span, width: u64, region: Region) -> Result<Region, ShapeError>
    requires { width ≤ MAX_COMPONENTS }
    ensures size { GivesBox (of_size span width region) result }
    ensures fault { IfErr result (λ error. error ≢ Memory) }
{
    if region.volume() * width > MAX_STORED_NUMBERS {
        return Err(fault_at(span, ShapeFault::ArrayTooLarge));
    }
    Ok(region)
}

/// The form, where it is no array with more than 2^24 stored numbers.
pub(crate) fn sized_form(span: Span, width: u64, form: Form) -> Result<Form, ShapeError>
    requires { width ≤ MAX_COMPONENTS }
    ensures { GivesShape (sized_shape span width (shape_of_form form)) result }
{
    match form {
        Form::Array(region) => Ok(Form::Array(with_few_numbers(span, width, region)?)),
        other => Ok(other),
    }
}
