//! The plans of the rows that pass.
ghost use Rattle.std.specs.Prelude.{◌≡◌, ◌≤◌, map, nat_lt, sum};
ghost use Rattle.ras_rows.specs.Arrays.{holdings_in};
ghost use Rattle.ras_rows.specs.Plans.{plan_seen, planned, rows_listed};
ghost use Rattle.ras_rows.specs.Stops.{GivesOrStops};
ghost use Rattle.ras_shape.specs.Gives.{shape_of_form};
ghost use Rattle.spec_statements.specs.Limits.{is_select as is_select_of, limited_plans, reply_cells as reply_cells_of};
ghost use Rattle.spec_statements.specs.Plans.{plans_of};
ghost use Rattle.spec_statements.specs.Rows.{sources_of};
ghost use Rattle.spec_statements.specs.Statement.{request_of, statement_tree_of};

use crate::parts::{sources, whole_text};
use crate::plan::{Plan, plan_row};
use crate::rows::row_of;
use crate::stop::Stop;
use ras_domain::MAX_POINTS;
use ras_shape::Form;
use ras_store::{RowSet, View};
use ras_syntax::{Answer, Checked, CheckedForm, MAX_REPLY_CELLS, ShapeFault};
use std::alloc::Global;

/// The plans of rows, by their numbers and the identifiers of their arrays. The answer is the first
/// fault of a row, or else [`ShapeFault::ReplyTooLarge`] for the whole text where a select gives more
/// than [`MAX_REPLY_CELLS`] cells.
pub fn plan_rows<'a>(
    alloc: Global,
    checked: &'a Checked,
    view: &'a View,
    rows: &RowSet,
) -> Result<Vec<Plan<'a>>, Stop>
    ensures { GivesOrStops (λ plans. map plan_seen plans.items)
        (planned (statement_tree_of checked.now)
        (rows_listed (holdings_in view.now) (sources_of (request_of checked.now.form)) rows.now)) result }
{
    let plans = each_plan(alloc, checked, view, rows)?;
    limited(checked, plans)
}

/// The plans, whatever the size of the reply.
fn each_plan<'a>(
    alloc: Global,
    checked: &'a Checked,
    view: &'a View,
    rows: &RowSet,
) -> Result<Vec<Plan<'a>>, Stop>
    ensures { GivesOrStops (λ plans. map plan_seen plans.items)
        (plans_of (request_of checked.now.form)
        (rows_listed (holdings_in view.now) (sources_of (request_of checked.now.form)) rows.now)) result }
{
    let sources = sources(&checked.form);
    let mut plans = Vec::new(alloc);
    for place in 0..rows.len() {
        let (number, oids) = rows.get(place);
        let row = row_of(alloc, view, sources, oids)?;
        plans.push(plan_row(alloc, checked, number, row)?)?;
    }
    Ok(plans)
}

/// The plans, where the reply of a select isn't too large.
fn limited<'a>(checked: &Checked, plans: Vec<Plan<'a>>) -> Result<Vec<Plan<'a>>, Stop>
    ensures { GivesOrStops (λ plans. map plan_seen plans.items)
        (limited_plans (statement_tree_of checked.now) (map plan_seen plans.entry.items)) result }
{
    if !is_select(&checked.form) {
        return Ok(plans);
    }
    if is_reply_too_large(plans.as_slice()) {
        return Err(Stop::Answer(Answer::Shape {
            row: 0,
            span: whole_text(checked),
            fault: ShapeFault::ReplyTooLarge,
        }));
    }
    Ok(plans)
}

/// Whether the statement is a select.
fn is_select(form: &CheckedForm) -> bool
    ensures { result ≡ is_select_of (request_of form.now) }
{
    match form {
        CheckedForm::Select {
            body: _,
            sources: _,
            cond: _,
        } => true,
        CheckedForm::Insert {
            into: _,
            of: _,
            body: _,
        }
        | CheckedForm::Delete { source: _, cond: _ }
        | CheckedForm::Update {
            source: _,
            axes: _,
            target: _,
            body: _,
            cond: _,
        }
        | CheckedForm::Create { name: _, of: _ }
        | CheckedForm::Drop { name: _ } => false,
    }
}

/// Whether rows with these plans give more than [`MAX_REPLY_CELLS`] cells.
fn is_reply_too_large(plans: &[Plan<'_>]) -> bool
    ensures { result ≡ nat_lt MAX_REPLY_CELLS (sum (map (λ plan. reply_cells_of (shape_of_form plan.shape)) plans.now)) }
{
    let mut cells = 0;
    for plan in plans {
        cells += reply_cells(&plan.shape);
        if cells > MAX_REPLY_CELLS {
            return true;
        }
    }
    false
}

/// How many cells a row gives; a scalar or a domain counts as one.
fn reply_cells(form: &Form) -> u64
    ensures cells { result ≡ reply_cells_of (shape_of_form form.now) }
    ensures few { result ≤ MAX_POINTS }
{
    match form {
        Form::Scalar | Form::Domain(_) => 1,
        Form::Array(region) => {
            // By what `axes` ensures, there are few points.
            let _axes = region.axes();
            region.volume()
        }
    }
}
