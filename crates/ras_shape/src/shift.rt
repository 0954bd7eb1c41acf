//! Arrays that are moved.
ghost use Rattle.std.specs.Prelude.{◌≡◌, IfOk, Some, option_map};
ghost use Rattle.ras_shape.specs.Gives.{GivesShape, shape_of_form};
ghost use Rattle.spec_expressions.specs.Shape.{box_of, moved_box, values_of};

use crate::form::{Form, ShapeError, fault_at};
use crate::look::Static;
use ras_domain::Region;
use ras_syntax::{ShapeFault, Span};
use std::alloc::{AllocError, Global};

/// The form moved by an offset for each axis. The fault is [`ShapeFault::BoundOut`] where an offset has
/// no value or a moved bound leaves 32 bits.
pub(crate) fn shifted_form(
    alloc: Global,
    span: Span,
    form: &Form,
    offsets: &[Static],
) -> Result<Form, ShapeError>
    ensures { GivesShape (moved_box span (box_of (shape_of_form form.now)) (values_of offsets.now)) result }
{
    let Some(values) = values(alloc, offsets)? else {
        return Err(fault_at(span, ShapeFault::BoundOut));
    };
    match form {
        Form::Array(region) | Form::Domain(region) => moved(span, region, &values),
        Form::Scalar => Err(ShapeError::Memory),
    }
}

/// The region moved by an offset for each axis.
#[tactic(auto, using(crate::proofs::Bounds::moved_fits))]
fn moved(span: Span, region: &Region, values: &[i64]) -> Result<Form, ShapeError>
    ensures { GivesShape (moved_box span region.now (Some values.now)) result }
{
    if values.len() != region.axes().len() {
        return Err(ShapeError::Memory);
    }
    match region.shift_by(values) {
        Ok(moved) => Ok(Form::Array(moved)),
        Err(_) => Err(fault_at(span, ShapeFault::BoundOut)),
    }
}

/// The values of the offsets, and None where one has none.
#[tactic(auto, using(crate::proofs::Loops::offsets))]
fn values(alloc: Global, offsets: &[Static]) -> Result<Option<Vec<i64>>, AllocError>
    ensures { IfOk result (λ values. option_map (λ zs. zs.items) values ≡ values_of offsets.now) }
{
    let mut values = Vec::new(alloc);
    for offset in offsets {
        let Ok(value) = offset else {
            return Ok(None);
        };
        values.push(*value)?;
    }
    Ok(Some(values))
}
