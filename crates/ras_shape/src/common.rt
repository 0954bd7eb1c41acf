//! The common shape of operands.
ghost use Rattle.std.specs.Prelude.{◌≡◌, map};
ghost use Rattle.ras_shape.specs.Gives.{shape_of_form, GivesShape};
ghost use Rattle.spec_expressions.specs.Shape.{both_shapes, common_shape};

use crate::form::{Form, ShapeError, fault_at};
use ras_syntax::{ShapeFault, Span};

/// The common shape of operands: that of the arrays among them, whose domains are equal, or a scalar.
#[tactic(auto, using(crate::proofs::Commons::commons))]
pub(crate) fn common_form(span: Span, mut forms: Vec<Form>) -> Result<Form, ShapeError>
    ensures { GivesShape (common_shape span (map shape_of_form forms.items)) result }
{
    let mut common = Form::Scalar;
    while let Some(form) = forms.pop() {
        match both_forms(span, form, common) {
            Ok(next) => common = next,
            Err(error) => return Err(error),
        }
    }
    Ok(common)
}

/// The common shape of an operand and of those after it.
pub(crate) fn both_forms(span: Span, form: Form, others: Form) -> Result<Form, ShapeError>
    ensures { GivesShape (both_shapes span (shape_of_form form) (shape_of_form others)) result }
{
    match (form, others) {
        (Form::Array(a), Form::Array(b)) => {
            if a != b {
                return Err(fault_at(span, ShapeFault::DomainsDiffer));
            }
            Ok(Form::Array(a))
        }
        (Form::Array(a), _) => Ok(Form::Array(a)),
        (_, others) => Ok(others),
    }
}
