//! The rows that a select answers.
ghost use Rattle.std.specs.Prelude.{◌≡◌, [], ◌∷◌, ◌++◌, map, true, OnOk};
ghost use Rattle.std.specs.List.{AllByRecursion};
ghost use Rattle.ras_eval.specs.Computed.{HasBodyShape, IsDomainOf, row_value};
ghost use Rattle.ras_rows.specs.Plans.{plan_seen};
ghost use Rattle.ras_rows.specs.Stops.{GivesOrStops};
ghost use Rattle.spec_expressions.specs.Eval.{cells_of as cells_over};
ghost use Rattle.spec_expressions.specs.Tree.{tree_of};
ghost use Rattle.spec_statements.specs.Effects.{faulty_in, first_cell, values_of_plans};
ghost use Rattle.spec_statements.specs.Reply.{row_reply_of};
ghost use Rattle.spec_statements.specs.Rows.{environment_of};

use crate::arrays::RowArrays;
use crate::cells::cells_of;
use crate::prepared::prepared;
use crate::purpose::Purpose;
use crate::stops::{copy_of_region, stop_in_row};
use ras_cells::Cell;
use ras_rows::{Plan, Stop};
use ras_shape::Form;
use ras_syntax::{CellList, Kind, RowList, RowValue, TypedExpr, TypedForm};
use std::alloc::{AllocError, Global};

/// What a select answers in the rows of its plans, or the first fault of a cell, by its row and its
/// point.
pub(crate) fn answered(alloc: Global, body: &TypedExpr, plans: &[Plan<'_>]) -> Result<RowList, Stop>
    requires { AllByRecursion (HasBodyShape (tree_of body.now)) (map plan_seen plans.now) }
    ensures { GivesOrStops (λ rows. map row_reply_of rows) (values_of_plans (tree_of body.now) (map plan_seen plans.now)) result }
{
    let mut rows = RowList::new(alloc);
    for plan in plans {
        let value = value_of(alloc, body, plan)?;
        put(alloc, &mut rows, value)?;
    }
    Ok(rows)
}

/// Puts a row at the end. The error is want of memory.
fn put(alloc: Global, rows: &mut RowList, value: RowValue) -> Result<(), AllocError>
    ensures { OnOk result (rows.new ≡ rows.old ++ value ∷ []) }
{
    match rows.push(alloc, value) {
        Ok(()) => Ok(()),
        Err(_) => Err(AllocError),
    }
}

/// What it answers in one row. A domain that isn't that of an `sdom`, which no checked expression has,
/// is answered as want of memory.
fn value_of(alloc: Global, body: &TypedExpr, plan: &Plan<'_>) -> Result<RowValue, Stop>
    requires { HasBodyShape (tree_of body.now) (plan_seen plan.now) }
    ensures { GivesOrStops row_reply_of (row_value (tree_of body.now) (plan_seen plan.now)) result }
{
    match &plan.shape {
        Form::Scalar => {
            let cells = cells_of_row(alloc, body, plan)?;
            Ok(RowValue::Scalar(first(&cells)))
        }
        Form::Array(region) => {
            let cells = cells_of_row(alloc, body, plan)?;
            Ok(RowValue::Array(copy_of_region(region), cells))
        }
        Form::Domain(region) => {
            if is_domain(body) {
                Ok(RowValue::Domain(copy_of_region(region)))
            } else {
                Err(Stop::Memory)
            }
        }
    }
}

/// The cells of the body in a row.
fn cells_of_row(alloc: Global, body: &TypedExpr, plan: &Plan<'_>) -> Result<CellList, Stop>
    requires { HasBodyShape (tree_of body.now) (plan_seen plan.now) }
    ensures { GivesOrStops (λ list. list.cells) (faulty_in plan.now.number
        (cells_over (environment_of plan.now.row.items) (tree_of body.now))) result }
{
    let row = RowArrays {
        arrays: plan.row.as_slice(),
    };
    let node = prepared(alloc, body, &row)?;
    let width = width_of(&body.kind);
    match cells_of(alloc, &node, &row, &plan.shape, width, &Purpose::Answer) {
        Ok(cells) => Ok(cells),
        Err(stop) => Err(stop_in_row(plan.number, stop)),
    }
}

/// The first cell of a list, null where there is none.
fn first(cells: &CellList) -> Cell
    ensures { result ≡ first_cell cells.now.cells }
{
    if cells.is_empty() {
        Cell::Null
    } else {
        cells.get(0)
    }
}

/// Whether the expression is the domain of another one.
fn is_domain(e: &TypedExpr) -> bool
    ensures { result ≡ true → IsDomainOf (tree_of e.now) }
{
    match &e.form {
        TypedForm::Sdom(_) => true,
        _ => false,
    }
}

/// How many numbers a cell of a kind has.
fn width_of(kind: &Kind) -> u32 {
    match kind {
        Kind::Scalar(cell) | Kind::Array { cell, axes: _ } => cell.atoms().len() as u32,
        Kind::Domain { axes: _ } | Kind::Point { axes: _ } => 1,
    }
}
