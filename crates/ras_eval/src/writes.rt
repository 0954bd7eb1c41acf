//! What a statement writes in its rows.
ghost use Rattle.std.specs.Prelude.{◌≡◌, [], ◌∷◌, ◌++◌, true, map, IfOk, OnOk, Ok};
ghost use Rattle.ras_domain.specs.Boxes.{is_same_box};
ghost use Rattle.ras_domain.specs.Region.{points_of};
ghost use Rattle.ras_eval.specs.Cells.{cells_for, each_in_order, stored_for};
ghost use Rattle.ras_eval.specs.Computed.{deleted_writing, inserted_writing, row_stores, row_written, stores_seen};
ghost use Rattle.ras_eval.specs.Computed.{updated_writing, writing_in_row, writing_seen_of};
ghost use Rattle.ras_rows.specs.Plans.{plan_seen};
ghost use Rattle.ras_shape.specs.Cuts.{cut_found};
ghost use Rattle.ras_rows.specs.Stops.{GivesOrStops};
ghost use Rattle.spec_expressions.specs.Eval.{cell_at};
ghost use Rattle.spec_expressions.specs.Tree.{tree_of};
ghost use Rattle.spec_statements.specs.Effects.{body_points, faulty_in, insert_store, update_store};
ghost use Rattle.spec_statements.specs.Plans.{target_point};
ghost use Rattle.spec_statements.specs.Rows.{environment_of};
ghost use Rattle.spec_statements.specs.Statement.{request_of};
ghost use Rattle.spec_views.specs.Writings.{row_writing};

use crate::arrays::RowArrays;
use crate::cells::cells_of;
use crate::prepared::prepared;
use crate::purpose::Purpose;
use crate::stops::{copy_of_region, stop_in_row};
use ras_domain::{Interval, List};
use ras_rows::{Plan, Stop};
use ras_shape::Cut;
use ras_store::Write;
use ras_syntax::{CellList, CheckedForm, SetType, TypedExpr};
use std::alloc::{AllocError, Global};

/// What an insert, a delete or an update writes in the rows of its plans, or the first fault of a cell
/// or of its storing, by its row and its point. An insert's array gets the identifier `next`.
pub(crate) fn writes_of(
    alloc: Global,
    form: &CheckedForm,
    next: u64,
    plans: &[Plan<'_>],
) -> Result<List<Write>, Stop>
    ensures { GivesOrStops (map (writing_seen_of (request_of form.now))) (each_in_order
        (row_written (request_of form.now)) (map plan_seen plans.now)) result }
{
    let mut writes = List::new(alloc);
    for plan in plans {
        let write = write_of(alloc, form, next, plan)?;
        put(alloc, &mut writes, write)?;
    }
    Ok(writes)
}

/// Puts a write at the end. The error is want of memory.
fn put(alloc: Global, writes: &mut List<Write>, write: Write) -> Result<(), AllocError>
    ensures { OnOk result (writes.new ≡ writes.old ++ write ∷ []) }
{
    match writes.push(alloc, write) {
        Ok(()) => Ok(()),
        Err(_) => Err(AllocError),
    }
}

/// What it writes in one row.
fn write_of(alloc: Global, form: &CheckedForm, next: u64, plan: &Plan<'_>) -> Result<Write, Stop>
    ensures { GivesOrStops (writing_seen_of (request_of form.now)) (row_written (request_of form.now) (plan_seen plan.now)) result }
{
    match form {
        CheckedForm::Insert { into: _, of, body } => insert(alloc, of, body, next, plan),
        CheckedForm::Update {
            source,
            axes: _,
            target: _,
            body,
            cond: _,
        } => update(alloc, &source.of, body, plan),
        CheckedForm::Delete { source: _, cond: _ } => delete(alloc, plan),
        CheckedForm::Select {
            body: _,
            sources: _,
            cond: _,
        }
        | CheckedForm::Create { name: _, of: _ }
        | CheckedForm::Drop { name: _ } => Err(Stop::Memory),
    }
}

/// The new array of an insert, in a row without arrays; another row, which no insert has, is answered as
/// want of memory.
fn insert(
    alloc: Global,
    of: &SetType,
    body: &TypedExpr,
    oid: u64,
    plan: &Plan<'_>,
) -> Result<Write, Stop>
    ensures { GivesOrStops (inserted_writing (insert_store of.now)) (writing_in_row (insert_store of.now)
        (tree_of body.now) (plan_seen plan.now)) result }
{
    match plan.row.as_slice() {
        [] => write(alloc, body, &Purpose::Insert(of), of, oid, plan),
        _ => Err(Stop::Memory),
    }
}

/// The cells that an update writes over those of the one array of a row; another row, which no update
/// has, is answered as want of memory.
fn update(alloc: Global, of: &SetType, body: &TypedExpr, plan: &Plan<'_>) -> Result<Write, Stop>
    ensures { GivesOrStops (updated_writing (update_store of.now)) (writing_in_row (update_store of.now)
        (tree_of body.now) (plan_seen plan.now)) result }
{
    match plan.row.as_slice() {
        [array] => write(alloc, body, &Purpose::Update(of), of, array.oid(), plan),
        _ => Err(Stop::Memory),
    }
}

/// The one array of a row that a delete takes out; another row, which no delete has, is answered as want of
/// memory.
fn delete(alloc: Global, plan: &Plan<'_>) -> Result<Write, Stop>
    ensures { GivesOrStops deleted_writing (Ok (row_writing (plan_seen plan.now, []))) result }
{
    match (plan.row.as_slice(), &plan.writing) {
        ([array], None) => Ok(Write {
            oid: array.oid(),
            grown: copy_of_region(array.domain()),
            region: copy_of_region(array.domain()),
            cells: CellList::with_room(alloc, 0, 0)?,
        }),
        _ => Err(Stop::Memory),
    }
}

/// The cells of a row's body, where they are written. A plan that doesn't write its body's points, which
/// no row has, is answered as want of memory.
fn write(
    alloc: Global,
    body: &TypedExpr,
    purpose: &Purpose<'_>,
    of: &SetType,
    oid: u64,
    plan: &Plan<'_>,
) -> Result<Write, Stop>
    ensures stores { GivesOrStops (stores_seen (stored_for purpose.now)) (row_stores (stored_for purpose.now)
        (tree_of body.now) (plan_seen plan.now)) result }
    ensures oid { IfOk result (λ write. write.oid ≡ oid) }
{
    let Some(writing) = &plan.writing else {
        return Err(Stop::Memory);
    };
    if !is_target(
        plan.cuts.as_slice(),
        writing.region.axes(),
        plan.shape.axes(),
    ) {
        return Err(Stop::Memory);
    }
    let cells = cells_of_body(alloc, body, purpose, of, plan)?;
    Ok(Write {
        oid,
        grown: copy_of_region(&writing.grown),
        region: copy_of_region(&writing.region),
        cells,
    })
}

/// The cells of the body in a row.
fn cells_of_body(
    alloc: Global,
    body: &TypedExpr,
    purpose: &Purpose<'_>,
    of: &SetType,
    plan: &Plan<'_>,
) -> Result<CellList, Stop>
    ensures { GivesOrStops (λ list. list.cells) (faulty_in plan.now.number (cells_for (stored_for purpose.now)
        (cell_at (environment_of plan.now.row.items) (tree_of body.now)) (body_points (plan_seen plan.now)))) result }
{
    let row = RowArrays {
        arrays: plan.row.as_slice(),
    };
    let node = prepared(alloc, body, &row)?;
    let width = of.cell.atoms().len() as u32;
    match cells_of(alloc, &node, &row, &plan.shape, width, purpose) {
        Ok(cells) => Ok(cells),
        Err(stop) => Err(stop_in_row(plan.number, stop)),
    }
}

/// Whether the points of a region are those of a body in the same order, each with the coordinates of
/// the target's positions put in.
fn is_target(cuts: &[Cut], region: &[Interval], body: &[Interval]) -> bool
    ensures { result ≡ true → points_of region.now ≡ map (target_point (map cut_found cuts.now)) (points_of body.now) }
{
    let [cut, others @ ..] = cuts else {
        return is_same(region, body);
    };
    let [axis, rest @ ..] = region else {
        return false;
    };
    match cut {
        Cut::Fixed(z) => {
            if !is_point(axis, z) {
                return false;
            }
            is_target(others, rest, body)
        }
        Cut::Between(_, _) => {
            let [first, left @ ..] = body else {
                return false;
            };
            if !is_equal(axis, first) {
                return false;
            }
            is_target(others, rest, left)
        }
        Cut::Moving | Cut::Broken => false,
    }
}

/// Whether two boxes have the same intervals.
fn is_same(a: &[Interval], b: &[Interval]) -> bool
    ensures { result ≡ is_same_box a.now b.now }
{
    a == b
}

/// Whether an interval has this one coordinate alone.
fn is_point(axis: &Interval, z: &i64) -> bool
    ensures { result ≡ true → (axis.now.lo ≡ z.now) × (axis.now.hi ≡ z.now) }
{
    axis.lo == *z && axis.hi == *z
}

/// Whether two intervals are the same.
fn is_equal(a: &Interval, b: &Interval) -> bool
    ensures { result ≡ true → (a.now.lo ≡ b.now.lo) × (a.now.hi ≡ b.now.hi) }
{
    a.lo == b.lo && a.hi == b.hi
}
