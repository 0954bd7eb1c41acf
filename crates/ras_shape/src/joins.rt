//! Each form's shape, from what is known of its parts. A fault of a part is the fault of the whole:
//! the first one, where several parts have one.
ghost use Rattle.std.specs.Prelude.{◌≡◌, ◌≤◌, ◌∷◌, [], Ok, unsigned_abs};
ghost use Rattle.ras_shape.specs.Gives.{GivesShape, FollowsAsShape, shape_of_form, shape_seen};
ghost use Rattle.ras_shape.specs.Looks.{form_seen, IsBinaryLook};
ghost use Rattle.ras_shape.specs.Joins.{binary_from, build_from, case_from, concat_from, condense_from, domain_from, extend_from};
ghost use Rattle.ras_shape.specs.Joins.{index_from, marray_from, scalar_from, shift_from, offsets_seen, shapes_seen, cuts_seen};
ghost use Rattle.spec_expressions.specs.Shape.{box, box_of, common_shape, interval_at, interval_list};

use crate::common::{both_forms, common_form};
use crate::concat::concat_form;
use crate::cuts::{Cut, cut_form};
use crate::domains::{Written, axes_of, lies_within};
use crate::form::{Form, ShapeError, fault_at, region_of};
use crate::look::{Look, Static, keeps_static, value_of_two};
use crate::shift::shifted_form;
use crate::sizes::{sized_form, sized_region};
use crate::ways::Way;
use ras_cells::{MAX_COMPONENTS, Op2};
use ras_syntax::{ShapeFault, Span};
use std::alloc::Global;

/// An operation on two operands.
pub(crate) fn binary(
    span: Span,
    op: Op2,
    a: Result<Look, ShapeError>,
    b: Result<Look, ShapeError>,
) -> Result<Look, ShapeError>
    ensures form { FollowsAsShape (binary_from span (shape_seen (form_seen a)) (shape_seen (form_seen b))) (form_seen result) }
    ensures value { IsBinaryLook op a b result }
{
    match (a, b) {
        (Ok(a), Ok(b)) => {
            let form = common_of_two(span, a.form, b.form)?;
            Ok(Look {
                form,
                fixed: keeps_static(op) && a.fixed && b.fixed,
                value: value_of_two(op, a.value, b.value),
            })
        }
        (Err(error), _) => Err(error),
        (Ok(_), Err(error)) => Err(error),
    }
}

/// The common shape of two operands.
fn common_of_two(span: Span, a: Form, b: Form) -> Result<Form, ShapeError>
    ensures { GivesShape (common_shape span (shape_of_form a ∷ shape_of_form b ∷ [])) result }
{
    let others = both_forms(span, b, Form::Scalar)?;
    both_forms(span, a, others)
}

/// One cell that is made of a whole.
pub(crate) fn scalar(whole: Result<Form, ShapeError>) -> Result<Form, ShapeError>
    ensures { FollowsAsShape (scalar_from (shape_seen whole)) result }
{
    match whole {
        Ok(_) => Ok(Form::Scalar),
        Err(error) => Err(error),
    }
}

/// The domain of an array.
pub(crate) fn domain(whole: Result<Form, ShapeError>) -> Result<Form, ShapeError>
    ensures { FollowsAsShape (domain_from (shape_seen whole)) result }
{
    Ok(Form::Domain(region_of(whole?.axes())?))
}

/// An index.
pub(crate) fn index(
    alloc: Global,
    span: Span,
    way: Way,
    whole: Result<Form, ShapeError>,
    cuts: Result<Vec<Cut>, ShapeError>,
) -> Result<Form, ShapeError>
    ensures { FollowsAsShape (index_from way span (shape_seen whole) (cuts_seen cuts)) result }
{
    match way {
        Way::Cell => scalar(whole),
        Way::Interval(axis) => interval(&whole?, axis),
        Way::Cells => {
            let whole = whole?;
            cut_form(alloc, span, whole.axes(), cuts?.as_slice())
        }
    }
}

/// One axis of a domain.
fn interval(whole: &Form, axis: i64) -> Result<Form, ShapeError>
    ensures { GivesShape (Ok (box (interval_list (interval_at (box_of (shape_of_form whole.now)) axis)))) result }
{
    match whole.axes().get(axis.unsigned_abs() as usize) {
        Some(interval) => Ok(Form::Domain(region_of(&[*interval])?)),
        None => Err(ShapeError::Memory),
    }
}

/// A case, of the conditions and values of its arms and of the last value.
pub(crate) fn case(
    span: Span,
    width: u64,
    arms: Result<Vec<Form>, ShapeError>,
    other: Result<Form, ShapeError>,
) -> Result<Form, ShapeError>
    requires { width ≤ MAX_COMPONENTS }
    ensures { FollowsAsShape (case_from span width (shapes_seen arms) (shape_seen other)) result }
{
    let mut forms = arms?;
    forms.push(other?)?;
    sized_form(span, width, common_form(span, forms)?)
}

/// A composite cell of these components.
pub(crate) fn build(
    span: Span,
    width: u64,
    parts: Result<Vec<Form>, ShapeError>,
) -> Result<Form, ShapeError>
    requires { width ≤ MAX_COMPONENTS }
    ensures { FollowsAsShape (build_from span width (shapes_seen parts)) result }
{
    sized_form(span, width, common_form(span, parts?)?)
}

/// An array with a cell for each point of a domain.
pub(crate) fn marray(
    alloc: Global,
    span: Span,
    width: u64,
    domain: Result<Written, ShapeError>,
    inner: Result<Form, ShapeError>,
) -> Result<Form, ShapeError>
    requires { width ≤ MAX_COMPONENTS }
    ensures { FollowsAsShape (marray_from span width domain (shape_seen inner)) result }
{
    let domain = domain?;
    let _ = inner?;
    let axes = axes_of(alloc, span, &domain)?;
    Ok(Form::Array(sized_region(span, width, &axes)?))
}

/// A fold over the points of a domain.
pub(crate) fn condense(
    alloc: Global,
    span: Span,
    domain: Result<Written, ShapeError>,
    condition: Result<Form, ShapeError>,
    inner: Result<Form, ShapeError>,
) -> Result<Form, ShapeError>
    ensures { FollowsAsShape (condense_from span domain (shape_seen condition) (shape_seen inner)) result }
{
    let domain = domain?;
    let _ = condition?;
    let _ = inner?;
    let axes = axes_of(alloc, span, &domain)?;
    let _ = sized_region(span, 1, &axes)?;
    Ok(Form::Scalar)
}

/// An array on a larger domain.
pub(crate) fn extend(
    alloc: Global,
    span: Span,
    width: u64,
    whole: Result<Form, ShapeError>,
    domain: Result<Written, ShapeError>,
) -> Result<Form, ShapeError>
    requires { width ≤ MAX_COMPONENTS }
    ensures { FollowsAsShape (extend_from span width (shape_seen whole) domain) result }
{
    let whole = whole?;
    let domain = domain?;
    let axes = axes_of(alloc, span, &domain)?;
    if !lies_within(whole.axes(), &axes) {
        return Err(fault_at(span, ShapeFault::Outside));
    }
    Ok(Form::Array(sized_region(span, width, &axes)?))
}

/// An array that is moved by these offsets.
pub(crate) fn shift(
    alloc: Global,
    span: Span,
    whole: Result<Form, ShapeError>,
    offsets: Result<Vec<Static>, ShapeError>,
) -> Result<Form, ShapeError>
    ensures { FollowsAsShape (shift_from span (shape_seen whole) (offsets_seen offsets)) result }
{
    let whole = whole?;
    let offsets = offsets?;
    shifted_form(alloc, span, &whole, &offsets)
}

/// Arrays joined along an axis.
pub(crate) fn concat(
    alloc: Global,
    span: Span,
    width: u64,
    along: &i64,
    parts: Result<Vec<Form>, ShapeError>,
) -> Result<Form, ShapeError>
    requires { width ≤ MAX_COMPONENTS }
    ensures { FollowsAsShape (concat_from span width (unsigned_abs along.now) (shapes_seen parts)) result }
{
    let parts = parts?;
    concat_form(alloc, span, width, along.unsigned_abs(), &parts)
}
