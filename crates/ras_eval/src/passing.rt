//! The rows that pass a statement's condition.
ghost use Rattle.std.specs.Prelude.{◌≡◌, IfOk, OnOk, option_map};
ghost use Rattle.std.specs.Option.{option_copied};
ghost use Rattle.ras_eval.specs.Passing.{passing_named, passing_over, row_passes, with_row_if};
ghost use Rattle.ras_rows.specs.Arrays.{holdings_in};
ghost use Rattle.ras_rows.specs.Stops.{GivesOrStops};
ghost use Rattle.spec_expressions.specs.Tree.{condition_of, only_where, tree_of};
ghost use Rattle.spec_expressions.specs.Eval.{holds as holds_of};
ghost use Rattle.spec_shown.specs.Shown.{rows_shown};
ghost use Rattle.spec_statements.specs.Effects.{row_identifiers};
ghost use Rattle.spec_statements.specs.Rows.{where_of};
ghost use Rattle.spec_statements.specs.Statement.{request_of, statement_tree_of};

use crate::arrays::RowArrays;
use crate::cells::scalar;
use crate::prepared::prepared;
use crate::purpose::Purpose;
use crate::stops::stop_in_row;
use ras_cells::Cell;
use ras_rows::{Rows, ShownArray, Stop, shape_condition};
use ras_store::{RowSet, View};
use ras_syntax::{Checked, CheckedForm, TypedExpr};
use std::alloc::{AllocError, Global};

/// The rows that pass a statement's condition, as a view shows them; a null condition counts as false.
/// The answer is that there are too many rows, or else the first row in which the condition has no
/// shape, or else the first one in which it has a fault.
pub fn rows_that_pass(alloc: Global, checked: &Checked, view: &View) -> Result<RowSet, Stop>
    ensures { GivesOrStops (λ set. set) (passing_over (statement_tree_of checked.now)
        (rows_shown (request_of checked.now.form) (holdings_in view.now))) result }
{
    let rows = Rows::of(alloc, checked, view)?;
    shape_condition(alloc, checked, &rows)?;
    passing(alloc, condition(&checked.form), &rows)
}

/// Those of the rows that pass a condition.
fn passing(alloc: Global, condition: Option<&TypedExpr>, rows: &Rows<'_>) -> Result<RowSet, Stop>
    ensures { GivesOrStops (λ set. set) (passing_named
        (condition_of (option_map tree_of (option_copied condition.entry))) rows.now) result }
{
    let mut set = RowSet::new(alloc);
    for place in 0..rows.len() {
        let row = rows.row(alloc, place)?;
        let arrays = row.as_slice();
        let keeps = passes(alloc, condition, place + 1, arrays)?;
        put_row(alloc, &mut set, keeps, place + 1, arrays)?;
    }
    Ok(set)
}

/// Whether a row passes.
fn passes(
    alloc: Global,
    condition: Option<&TypedExpr>,
    number: u64,
    row: &[ShownArray<'_>],
) -> Result<bool, Stop>
    ensures { GivesOrStops (λ keeps. keeps) (row_passes
        (condition_of (option_map tree_of (option_copied condition.entry))) (number, row.now)) result }
{
    match condition {
        Some(e) => is_true(alloc, e, number, row),
        None => Ok(true),
    }
}

/// Whether a condition holds in a row.
fn is_true(alloc: Global, e: &TypedExpr, number: u64, row: &[ShownArray<'_>]) -> Result<bool, Stop>
    ensures { GivesOrStops (λ keeps. keeps) (row_passes (only_where (tree_of e.now)) (number, row.now)) result }
{
    let arrays = RowArrays { arrays: row };
    let node = prepared(alloc, e, &arrays)?;
    match scalar(alloc, &node, &arrays, &Purpose::Answer) {
        Ok(x) => Ok(holds(&x)),
        Err(stop) => Err(stop_in_row(number, stop)),
    }
}

/// Whether a cell is true.
fn holds(x: &Cell) -> bool
    ensures { result ≡ holds_of x.now }
{
    match x {
        Cell::Null => false,
        Cell::Value(numbers) => match numbers.first() {
            Some(number) => *number != 0,
            None => false,
        },
    }
}

/// Puts a row that passes at the end of a set, with its number. The error is want of memory.
fn put_row(
    alloc: Global,
    set: &mut RowSet,
    keeps: bool,
    number: u64,
    row: &[ShownArray<'_>],
) -> Result<(), AllocError>
    ensures { OnOk result (set.new ≡ with_row_if keeps set.old (number, row.now)) }
{
    if !keeps {
        return Ok(());
    }
    let oids = identifiers(alloc, row)?;
    match set.push(alloc, number, oids) {
        Ok(()) => Ok(()),
        Err(_) => Err(AllocError),
    }
}

/// The identifiers of a row's arrays.
fn identifiers(alloc: Global, row: &[ShownArray<'_>]) -> Result<Vec<u64>, AllocError>
    ensures { IfOk result (λ oids. oids.items ≡ row_identifiers row.now) }
{
    row.iter().map(|array| array.oid()).collect(alloc)
}

/// The condition of a statement.
fn condition(form: &CheckedForm) -> Option<&TypedExpr>
    ensures { condition_of (option_map tree_of (option_copied result)) ≡ where_of (request_of form.now) }
{
    match form {
        CheckedForm::Select {
            body: _,
            sources: _,
            cond,
        }
        | CheckedForm::Delete { source: _, cond }
        | CheckedForm::Update {
            source: _,
            axes: _,
            target: _,
            body: _,
            cond,
        } => cond.as_ref(),
        CheckedForm::Insert {
            into: _,
            of: _,
            body: _,
        }
        | CheckedForm::Create { name: _, of: _ }
        | CheckedForm::Drop { name: _ } => None,
    }
}
