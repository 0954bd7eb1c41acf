//! What a checked statement asks for after its first phase.
ghost use Rattle.std.specs.Prelude.{◌≡◌, ◌<◌, ℕ, flat_map, length, map, option_map, slice_get, IfOk, OnOk, Some};
ghost use Rattle.std.specs.Option.{option_copied};
ghost use Rattle.ras_reach.specs.Keys.{put_before};
ghost use Rattle.ras_reach.specs.Needs.{GivesLocks, limited_to};
ghost use Rattle.ras_reach.specs.PhaseLists.{asked_in_2, asked_in_3, asked_of_passing};
ghost use Rattle.ras_rows.specs.Arrays.{holdings_in};
ghost use Rattle.ras_rows.specs.Plans.{plan_seen, rows_listed};
ghost use Rattle.spec_expressions.specs.Database.{Database};
ghost use Rattle.spec_expressions.specs.Tree.{condition_of, tree_of};
ghost use Rattle.spec_shown.specs.Shown.{IsShownBy};
ghost use Rattle.spec_statements.specs.Locks.{lock_list as lock_list_of};
ghost use Rattle.spec_statements.specs.Phases.{condition_tiles, domain_locks, plan_locks, read_tiles};
ghost use Rattle.spec_statements.specs.Rows.{sources_of, where_of};
ghost use Rattle.spec_statements.specs.Statement.{request_of, statement_tree_of};

use crate::first::{NeedsFault, limited};
use crate::locks::LockSet;
use crate::reads::{put_domains, put_read};
use crate::writes::put_write;
use ras_domain::LockList;
use ras_rows::{Plan, Rows, plan_rows, shape_condition};
use ras_store::{RowSet, View};
use ras_syntax::{Checked, CheckedForm, CheckedSource, TypedExpr};
use std::alloc::{AllocError, Global};

/// The sources of a statement.
fn sources(form: &CheckedForm) -> &[CheckedSource]
    ensures { result.now ≡ sources_of (request_of form.now) }
{
    match form {
        CheckedForm::Select {
            body: _,
            sources,
            cond: _,
        } => sources.as_slice(),
        CheckedForm::Delete { source, cond: _ } => std::slice::from_ref(source),
        CheckedForm::Update {
            source,
            axes: _,
            target: _,
            body: _,
            cond: _,
        } => std::slice::from_ref(source),
        CheckedForm::Insert {
            into: _,
            of: _,
            body: _,
        }
        | CheckedForm::Create { name: _, of: _ }
        | CheckedForm::Drop { name: _ } => &[],
    }
}

/// The condition of a statement.
fn condition(form: &CheckedForm) -> Option<&TypedExpr>
    ensures { condition_of (option_map tree_of (option_copied result)) ≡ where_of (request_of form.now) }
{
    match form {
        CheckedForm::Select {
            body: _,
            sources: _,
            cond,
        }
        | CheckedForm::Delete { source: _, cond }
        | CheckedForm::Update {
            source: _,
            axes: _,
            target: _,
            body: _,
            cond,
        } => cond.as_ref(),
        CheckedForm::Insert {
            into: _,
            of: _,
            body: _,
        }
        | CheckedForm::Create { name: _, of: _ }
        | CheckedForm::Drop { name: _ } => None,
    }
}

/// The locks on the domains of the arrays of rows, as far as they aren't too many. The error is want of
/// memory.
#[tactic(auto, using(crate::proofs::RowLoops::row_turns))]
fn domains_wanted(
    alloc: Global,
    sources: &[CheckedSource],
    rows: &Rows<'_>,
) -> Result<LockSet, AllocError>
    ensures { IfOk result (λ set. (size : ℕ)
        → limited_to size set ≡ limited_to size (lock_list_of (flat_map (domain_locks sources.now) rows.now))) }
{
    let mut set = LockSet::new(alloc);
    let mut left = rows.len();
    while left > 0 {
        if set.is_too_long() {
            return Ok(set);
        }
        left -= 1;
        let row = rows.row(alloc, left)?;
        put_domains(alloc, sources, row.as_slice(), &mut set)?;
    }
    Ok(set)
}

/// The locks on the tiles that an expression reads in rows, as far as they aren't too many. The error
/// is want of memory.
#[tactic(auto, using(crate::proofs::RowLoops::row_turns))]
fn reads_wanted(
    alloc: Global,
    sources: &[CheckedSource],
    e: &TypedExpr,
    rows: &Rows<'_>,
) -> Result<LockSet, AllocError>
    ensures { IfOk result (λ set. (size : ℕ)
        → limited_to size set ≡ limited_to size (lock_list_of (flat_map (read_tiles sources.now (tree_of e.now)) rows.now))) }
{
    let mut set = LockSet::new(alloc);
    let mut left = rows.len();
    while left > 0 {
        if set.is_too_long() {
            return Ok(set);
        }
        left -= 1;
        let row = rows.row(alloc, left)?;
        put_read(alloc, sources, e, row.as_slice(), &mut set)?;
    }
    Ok(set)
}

/// The list of locks, unless it is too long.
fn listed(alloc: Global, length: u32, set: LockSet) -> Result<LockList, NeedsFault>
    ensures { GivesLocks (limited_to length set) result }
{
    let list = set.into_list(alloc)?;
    limited(length, list)
}

/// The list of the second phase over rows.
fn domain_list(
    alloc: Global,
    length: u32,
    sources: &[CheckedSource],
    rows: &Rows<'_>,
) -> Result<LockList, NeedsFault>
    ensures { GivesLocks (limited_to length (lock_list_of (flat_map (domain_locks sources.now) rows.now))) result }
{
    let set = domains_wanted(alloc, sources, rows)?;
    listed(alloc, length, set)
}

/// The list of the third phase over rows.

fn condition_list(
    alloc: Global,
    length: u32,
    sources: &[CheckedSource],
    condition: Option<&TypedExpr>,
    rows: &Rows<'_>,
) -> Result<LockList, NeedsFault>
    ensures { GivesLocks (limited_to length (lock_list_of (flat_map
        (condition_tiles sources.now (condition_of (option_map tree_of (option_copied condition.entry)))) rows.now))) result }
{
    match condition {
        Some(e) => {
            let set = reads_wanted(alloc, sources, e, rows)?;
            listed(alloc, length, set)
        }
        None => Ok(LockList::new(alloc)),
    }
}

/// The locks of a checked statement's second phase: shared on the domain of each array that is in some
/// row. The view holds what the first phase asked for.
///
/// The answer is that of a statement with too many rows, or [`ShapeFault::TooManyLocks`] exactly where
/// the list has more than [`MAX_LOCKS`] locks. Want of memory also stands for a set type or a domain
/// that no checked statement has.
pub fn domain_needs(alloc: Global, checked: &Checked, view: &View) -> Result<LockList, NeedsFault>
    ensures { (database : Database) → IsShownBy (holdings_in view.now) (request_of checked.now.form) database
        → GivesLocks (asked_in_2 (statement_tree_of checked.now) database) result }
{
    let rows = Rows::of(alloc, checked, view)?;
    domain_list(alloc, checked.length, sources(&checked.form), &rows)
}

/// The locks of a checked statement's third phase: shared on the tiles that the condition reads, over
/// all rows. The view holds what the phases before it asked for.
///
/// The answer is the one that the statement has before this phase: too many rows or locks on domains,
/// or the first row in which the condition has no shape; or [`ShapeFault::TooManyLocks`] exactly where
/// the list has more than [`MAX_LOCKS`] locks. Want of memory is as with [`domain_needs`].
pub fn condition_needs(
    alloc: Global,
    checked: &Checked,
    view: &View,
) -> Result<LockList, NeedsFault>
    ensures { (database : Database) → IsShownBy (holdings_in view.now) (request_of checked.now.form) database
        → GivesLocks (asked_in_3 (statement_tree_of checked.now) database) result }
{
    let rows = Rows::of(alloc, checked, view)?;
    let sources = sources(&checked.form);
    let _domains = domain_list(alloc, checked.length, sources, &rows)?;
    shape_condition(alloc, checked, &rows)?;
    condition_list(
        alloc,
        checked.length,
        sources,
        condition(&checked.form),
        &rows,
    )
}

/// Puts the locks that the plan of a row asks for among the others. The error is want of memory.
fn put_plan(
    alloc: Global,
    form: &CheckedForm,
    plan: &Plan<'_>,
    set: &mut LockSet,
) -> Result<(), AllocError>
    ensures { OnOk result (set.new ≡ put_before (plan_locks (request_of form.now) (plan_seen plan.now)) set.old) }
{
    match form {
        CheckedForm::Select {
            body,
            sources,
            cond: _,
        } => put_read(alloc, sources.as_slice(), body, plan.row.as_slice(), set),
        CheckedForm::Update {
            source,
            axes: _,
            target: _,
            body,
            cond: _,
        } => {
            let row = plan.row.as_slice();
            put_write(alloc, &source.collection, row, &plan.writing, set)?;
            put_read(alloc, std::slice::from_ref(source), body, row, set)
        }
        CheckedForm::Insert {
            into: _,
            of: _,
            body: _,
        }
        | CheckedForm::Delete { source: _, cond: _ }
        | CheckedForm::Create { name: _, of: _ }
        | CheckedForm::Drop { name: _ } => Ok(()),
    }
}

/// The plan at a place.
fn plan_at<'r, 'a>(plans: &'r [Plan<'a>], place: usize) -> &'r Plan<'a>
    requires { place < length plans.now }
    ensures { slice_get plans.now place ≡ Some result.now }
{
    &plans[place]
}

/// The locks that plans of rows ask for, as far as they aren't too many. The error is want of memory.
#[tactic(auto, using(crate::proofs::RowLoops::row_turns))]
fn plans_wanted(
    alloc: Global,
    form: &CheckedForm,
    plans: &[Plan<'_>],
) -> Result<LockSet, AllocError>
    ensures { IfOk result (λ set. (size : ℕ)
        → limited_to size set ≡ limited_to size (lock_list_of (flat_map (plan_locks (request_of form.now)) (map plan_seen plans.now)))) }
{
    let mut set = LockSet::new(alloc);
    let mut left = plans.len();
    while left > 0 {
        if set.is_too_long() {
            return Ok(set);
        }
        left -= 1;
        put_plan(alloc, form, plan_at(plans, left), &mut set)?;
    }
    Ok(set)
}

/// The locks of a checked statement's fourth phase over the rows that pass: shared on the tiles that
/// the body reads; an update also asks exclusively for the tiles that it writes, and where a domain
/// grows for the domain and each tile whose box changes. The view holds what the phases before it
/// asked for.
///
/// The answer is the first fault of a row's plan, or [`ShapeFault::TooManyLocks`] exactly where the
/// list has more than [`MAX_LOCKS`] locks. Want of memory is as with [`domain_needs`].
pub fn body_needs(
    alloc: Global,
    checked: &Checked,
    view: &View,
    rows: &RowSet,
) -> Result<LockList, NeedsFault>
    ensures { GivesLocks (asked_of_passing (statement_tree_of checked.now)
        (rows_listed (holdings_in view.now) (sources_of (request_of checked.now.form)) rows.now)) result }
{
    let plans = plan_rows(alloc, checked, view, rows)?;
    let set = plans_wanted(alloc, &checked.form, plans.as_slice())?;
    listed(alloc, checked.length, set)
}
