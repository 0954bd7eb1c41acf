//! What a statement comes to in the rows that pass, before anything is stored.
ghost use Rattle.std.specs.Prelude.{◌≡◌, map};
ghost use Rattle.ras_domain.specs.declared.lock.LockName.TheVariants.{Collection};
ghost use Rattle.ras_eval.specs.Computed.{AreReadBy, computed_of_plans, computed_over, computed_seen, computing_of, next_held};
ghost use Rattle.ras_rows.specs.Arrays.{holdings_in};
ghost use Rattle.ras_rows.specs.Plans.{plan_seen, rows_listed};
ghost use Rattle.ras_rows.specs.Stops.{GivesOrStops};
ghost use Rattle.spec_statements.specs.Rows.{sources_of};
ghost use Rattle.spec_statements.specs.Statement.{request_of, statement_tree_of};

use crate::select::answered;
use crate::writes::writes_of;
use ras_domain::{List, Name};
use ras_rows::{Plan, Stop, plan_rows};
use ras_store::{Computed, RowSet, View, Write};
use ras_syntax::{Checked, CheckedForm};
use std::alloc::Global;

/// What a statement comes to in rows, by their numbers and the identifiers of their arrays. The answer
/// is the first row whose body or target has no shape or may not be written, or else that the reply is
/// too large, or else the first fault of a cell or of its storing, by its row and its point.
pub fn compute(
    alloc: Global,
    checked: &Checked,
    view: &View,
    rows: &RowSet,
) -> Result<Computed, Stop>
    ensures { GivesOrStops (computed_seen (request_of checked.now.form))
        (computed_over (statement_tree_of checked.now)
        (rows_listed (holdings_in view.now) (sources_of (request_of checked.now.form)) rows.now)) result }
{
    let plans = plan_rows(alloc, checked, view, rows)?;
    computed(alloc, &checked.form, view, plans.as_slice())
}

/// What it comes to by its plans.
fn computed(
    alloc: Global,
    form: &CheckedForm,
    view: &View,
    plans: &[Plan<'_>],
) -> Result<Computed, Stop>
    requires { AreReadBy (request_of form.now) (map plan_seen plans.now) }
    ensures { GivesOrStops (computed_seen (request_of form.now)) (computed_of_plans (request_of form.now)
        (map plan_seen plans.now)) result }
{
    match form {
        CheckedForm::Select {
            body,
            sources: _,
            cond: _,
        } => match answered(alloc, body, plans) {
            Ok(rows) => Ok(Computed::Rows(rows)),
            Err(stop) => Err(stop),
        },
        CheckedForm::Insert {
            into,
            of: _,
            body: _,
        } => written(writes_of(alloc, form, next_oid(view, into), plans)),
        CheckedForm::Delete { source: _, cond: _ } => written(writes_of(alloc, form, 0, plans)),
        CheckedForm::Update {
            source: _,
            axes: _,
            target: _,
            body: _,
            cond: _,
        } => written(writes_of(alloc, form, 0, plans)),
        CheckedForm::Create { name: _, of: _ } => Ok(Computed::Writes(List::new(alloc))),
        CheckedForm::Drop { name: _ } => Ok(Computed::Writes(List::new(alloc))),
    }
}

/// What is written, as what a statement comes to.
fn written(writes: Result<List<Write>, Stop>) -> Result<Computed, Stop>
    ensures { result ≡ computing_of writes }
{
    match writes {
        Ok(writes) => Ok(Computed::Writes(writes)),
        Err(stop) => Err(stop),
    }
}

/// The identifier that a collection gives out next, 0 where the view doesn't show the collection.
fn next_oid(view: &View, name: &Name) -> u64
    ensures { result ≡ next_held (holdings_in view.now (Collection name.now)) }
{
    match view.members(name) {
        Some(info) => info.next,
        None => 0,
    }
}
