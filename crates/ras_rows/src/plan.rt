//! What a passing row will do.
ghost use Rattle.std.specs.Prelude.{◌≡◌, [], map, IfOk, None, Some};
ghost use Rattle.ras_rows.specs.Plans.{first_box, plan_seen};
ghost use Rattle.ras_rows.specs.Stops.{GivesOrStops};
ghost use Rattle.ras_shape.specs.Gives.{GivesAs, shape_of_form};
ghost use Rattle.ras_syntax.specs.declared.span.Span.{Span};
ghost use Rattle.spec_expressions.specs.Tree.{tree_of};
ghost use Rattle.spec_statements.specs.Plans.{insert_plan, misfit_in, read_plan, row_plan, update_plan};
ghost use Rattle.spec_statements.specs.Statement.{request_of, target_axes};

use crate::array::ShownArray;
use crate::stop::{Stop, stop_in_row};
use crate::writing::{
    Writing, fault_at, inserted, is_same, kept, region_of, target_region, updated,
};
use ras_domain::Region;
use ras_shape::{Cut, Form, ShapeError, index_cuts, shape};
use ras_syntax::{Checked, CheckedForm, SetType, ShapeFault, Span, TypedAxis, TypedExpr};
use std::alloc::{AllocError, Global};

/// What a passing row will do.
#[derive(Drop)]
pub struct Plan<'a> {
    /// The row's number, from 1.
    pub number: u64,
    /// The row's arrays, one for each source.
    pub row: Vec<ShownArray<'a>>,
    /// What the body stands for; a scalar where there is no body.
    pub shape: Form,
    /// The cuts of an update's target, none where it has no axes.
    pub cuts: Vec<Cut>,
    /// What is written; none in a select and a delete.
    pub writing: Option<Writing>,
}

/// What a passing row will do: the shape of its body, and what it writes. Of several faults the target's
/// come first, then the body's, then [`ShapeFault::DomainsDiffer`] where the target's and the body's
/// domains differ, then [`ShapeFault::Outside`], [`ShapeFault::ArrayTooLarge`] and
/// [`ShapeFault::TooManyTiles`] for what is written.
pub fn plan_row<'a>(
    alloc: Global,
    checked: &Checked,
    number: u64,
    row: Vec<ShownArray<'a>>,
) -> Result<Plan<'a>, Stop>
    ensures { GivesOrStops plan_seen (misfit_in number (row_plan (request_of checked.now.form) (number, row.entry.items))) result }
{
    match plan_of(alloc, &checked.form, number, row) {
        Ok(plan) => Ok(plan),
        Err(error) => Err(stop_in_row(number, error)),
    }
}

/// The same with the fault as the rules of shapes have it.
fn plan_of<'a>(
    alloc: Global,
    form: &CheckedForm,
    number: u64,
    row: Vec<ShownArray<'a>>,
) -> Result<Plan<'a>, ShapeError>
    ensures { GivesAs plan_seen (row_plan (request_of form.now) (number, row.entry.items)) result }
{
    match form {
        CheckedForm::Select {
            body,
            sources: _,
            cond: _,
        } => read(alloc, body, number, row),
        CheckedForm::Insert { into: _, of, body } => insert(alloc, of, body, number, row),
        CheckedForm::Update {
            source,
            axes,
            target,
            body,
            cond: _,
        } => match axes {
            None => update_whole(alloc, &source.of, body, number, row),
            Some(axes) => update_part(
                alloc,
                &source.of,
                *target,
                body,
                axes.as_slice(),
                number,
                row,
            ),
        },
        CheckedForm::Delete { source: _, cond: _ }
        | CheckedForm::Create { name: _, of: _ }
        | CheckedForm::Drop { name: _ } => Ok(plan_with(alloc, number, row, Form::Scalar)),
    }
}

/// A plan that writes nothing.
fn plan_with<'a>(alloc: Global, number: u64, row: Vec<ShownArray<'a>>, shape: Form) -> Plan<'a>
    ensures { plan_seen result
        ≡ record { number = number; row = row.entry.items; shape = shape_of_form shape; cuts = []; writing = None } }
{
    Plan {
        number,
        row,
        shape,
        cuts: Vec::new(alloc),
        writing: None,
    }
}

/// The plan of a row of a select.
fn read<'a>(
    alloc: Global,
    body: &TypedExpr,
    number: u64,
    row: Vec<ShownArray<'a>>,
) -> Result<Plan<'a>, ShapeError>
    ensures { GivesAs plan_seen (read_plan (tree_of body.now) (number, row.entry.items)) result }
{
    let domains = domains_of(alloc, row.as_slice())?;
    let shape = shape(alloc, body, domains.as_slice())?;
    Ok(plan_with(alloc, number, row, shape))
}

/// The plan of an insert.
fn insert<'a>(
    alloc: Global,
    of: &SetType,
    body: &TypedExpr,
    number: u64,
    row: Vec<ShownArray<'a>>,
) -> Result<Plan<'a>, ShapeError>
    ensures { GivesAs plan_seen (insert_plan of.now (tree_of body.now) (number, row.entry.items)) result }
{
    let domains = domains_of(alloc, row.as_slice())?;
    let shape = shape(alloc, body, domains.as_slice())?;
    let writing = inserted(alloc, of, body.span, &shape)?;
    Ok(Plan {
        number,
        row,
        shape,
        cuts: Vec::new(alloc),
        writing: Some(writing),
    })
}

/// The plan of a row of an update without axes: it writes the body's domain.
fn update_whole<'a>(
    alloc: Global,
    of: &SetType,
    body: &TypedExpr,
    number: u64,
    row: Vec<ShownArray<'a>>,
) -> Result<Plan<'a>, ShapeError>
    ensures { (target : Span) → GivesAs plan_seen (update_plan of.now target (tree_of body.now) None (number, row.entry.items)) result }
{
    let domains = domains_of(alloc, row.as_slice())?;
    let shape = shape(alloc, body, domains.as_slice())?;
    let region = region_of(shape.axes())?;
    let domain = first_domain(domains.as_slice())?;
    let writing = updated(alloc, of, body.span, domain, region, &shape)?;
    Ok(Plan {
        number,
        row,
        shape,
        cuts: Vec::new(alloc),
        writing: Some(writing),
    })
}

/// The plan of a row of an update of a part.
fn update_part<'a>(
    alloc: Global,
    of: &SetType,
    target: Span,
    body: &TypedExpr,
    axes: &[TypedAxis],
    number: u64,
    row: Vec<ShownArray<'a>>,
) -> Result<Plan<'a>, ShapeError>
    ensures { GivesAs plan_seen
        (update_plan of.now target (tree_of body.now) (Some (target_axes axes.now)) (number, row.entry.items)) result }
{
    let domains = domains_of(alloc, row.as_slice())?;
    let domain = first_domain(domains.as_slice())?;
    let cuts = index_cuts(alloc, axes, domain.axes(), domains.as_slice())?;
    let region = target_region(alloc, target, of, cuts.as_slice())?;
    let shape = shape(alloc, body, domains.as_slice())?;
    let kept = kept(alloc, cuts.as_slice())?;
    if !is_same(shape.axes(), kept.as_slice()) {
        return Err(fault_at(body.span, ShapeFault::DomainsDiffer));
    }
    let writing = updated(alloc, of, body.span, domain, region, &shape)?;
    Ok(Plan {
        number,
        row,
        shape,
        cuts,
        writing: Some(writing),
    })
}

/// The domains of a row's arrays.
pub fn domains_of(alloc: Global, row: &[ShownArray<'_>]) -> Result<Vec<Region>, AllocError>
    ensures { IfOk result (λ domains. domains.items ≡ map (λ member. member.array.domain) row.now) }
{
    let mut domains = Vec::new(alloc);
    for array in row {
        domains.push(region_of(array.domain().axes())?)?;
    }
    Ok(domains)
}

/// The domain of the one array of an update's row. A row without arrays, which no update has, is
/// answered as want of memory.
fn first_domain(domains: &[Region]) -> Result<&Region, AllocError>
    ensures { IfOk result (λ domain. domain.now ≡ first_box domains.now) }
{
    match domains.first() {
        Some(domain) => Ok(domain),
        None => Err(AllocError),
    }
}
