//! The changes that the writes of a statement make.
ghost use Rattle.std.specs.Prelude.{◌≡◌, ◌<◌, ◌+◌, ◌++◌, ◌∷◌, [], All, None, Some, IfOk, IsTrue, length, map, flat_map};
ghost use Rattle.std.specs.List.Sorted.{IsStrictlyIncreasing};
ghost use Rattle.ras_domain.specs.declared.lock.LockName.TheVariants.{Collection as Named};
ghost use Rattle.ras_grid.specs.Grid.{IsGrid};
ghost use Rattle.ras_store.specs.Databases.{holdings_of};
ghost use Rattle.ras_store.specs.View.{view_kept};
ghost use Rattle.spec_statements.specs.Statement.{request_of};
ghost use Rattle.spec_views.specs.Holdings.{collection_held};
ghost use Rattle.law_work.specs.ChangesFor.{array_inserted, collection_without, first_inserted, identifiers_without};
ghost use Rattle.law_work.specs.ChangesFor.{number_inserted, row_replaced};
ghost use Rattle.law_work.specs.Replacements.{replacement_of};
ghost use Rattle.law_work.specs.Sound.{AreSoundRows, IsSoundWrite};
ghost use Rattle.ras_work.specs.Made.{AreMade};

use crate::cells::NullRule;
use crate::copies::copy_of_region;
use crate::rows::{Row, add, add_row, add_tiles};
use ras_domain::Name;
use ras_grid::{Extents, tiles_meeting};
use ras_store::{Change, Changes, CollectionInfo, Identifiers, View, Write};
use ras_syntax::{Checked, CheckedForm, CheckedSource, SetType};
use std::alloc::{AllocError, Global};

/// The changes that a statement makes, and the number of its answer. The error is want of memory, or writes
/// that no statement comes to over the view.
pub(crate) fn changes_of(
    alloc: Global,
    view: &View,
    checked: &Checked,
    writes: &[Write],
) -> Result<(Changes, u64), AllocError>
    ensures { IfOk result (λ made. AreMade (request_of checked.now.form) (holdings_of (view_kept view.now)) writes.now made.0 made.1) }
{
    match &checked.form {
        CheckedForm::Select { .. } => Err(AllocError),
        CheckedForm::Insert { into, of, .. } => inserted(alloc, view, into, of, writes),
        CheckedForm::Delete { source, .. } => deleted(alloc, view, &source.collection, writes),
        CheckedForm::Update { source, .. } => updated(alloc, view, source, writes),
        CheckedForm::Create { name, of } => created(alloc, name, *of),
        CheckedForm::Drop { name } => dropped(alloc, name),
    }
}

/// A collection without arrays.
fn created(alloc: Global, name: &Name, of: u32) -> Result<(Changes, u64), AllocError>
    ensures changes { IfOk result (λ made. map replacement_of made.0 ≡ (Named name.now, Some (collection_held of 1 [])) ∷ []) }
    ensures number { IfOk result (λ made. made.1 ≡ 0) }
{
    let info = CollectionInfo {
        set_type: of,
        next: 1,
        oids: Identifiers::new(alloc),
    };
    let mut changes = Changes::new(alloc);
    add(
        alloc,
        &mut changes,
        Change::Collection(name.try_clone(alloc)?, Some(info)),
    )?;
    Ok((changes, 0))
}

/// No collection.
fn dropped(alloc: Global, name: &Name) -> Result<(Changes, u64), AllocError>
    ensures changes { IfOk result (λ made. map replacement_of made.0 ≡ (Named name.now, None) ∷ []) }
    ensures number { IfOk result (λ made. made.1 ≡ 0) }
{
    let mut changes = Changes::new(alloc);
    add(
        alloc,
        &mut changes,
        Change::Collection(name.try_clone(alloc)?, None),
    )?;
    Ok((changes, 0))
}

/// The collection without the arrays that are deleted.
fn deleted(
    alloc: Global,
    view: &View,
    name: &Name,
    writes: &[Write],
) -> Result<(Changes, u64), AllocError>
    ensures changes { IfOk result (λ made. map replacement_of made.0
        ≡ collection_without name.now (map (λ write. write.oid) writes.now) (holdings_of (view_kept view.now) (Named name.now))) }
    ensures number { IfOk result (λ made. made.1 ≡ length writes.now) }
{
    let Some(info) = view.members(name) else {
        return Err(AllocError);
    };
    let gone = oids_of(alloc, writes)?;
    let info = CollectionInfo {
        set_type: info.set_type,
        next: info.next,
        oids: without(alloc, &info.oids, &gone)?,
    };
    let mut changes = Changes::new(alloc);
    add(
        alloc,
        &mut changes,
        Change::Collection(name.try_clone(alloc)?, Some(info)),
    )?;
    Ok((changes, writes.len() as u64))
}

/// The identifiers that aren't gone.
fn without(alloc: Global, oids: &Identifiers, gone: &Identifiers) -> Result<Identifiers, AllocError>
    ensures { IfOk result (λ left. left ≡ identifiers_without gone.now oids.now) }
{
    let mut left = Vec::new(alloc);
    for oid in oids.as_slice() {
        if !gone.contains(*oid) {
            left.push(*oid)?;
        }
    }
    Ok(Identifiers::of(left))
}

/// The identifiers of the arrays that are written. The error is want of memory, or identifiers that don't
/// ascend.
fn oids_of(alloc: Global, writes: &[Write]) -> Result<Identifiers, AllocError>
    ensures { IfOk result (λ oids. oids ≡ map (λ write. write.oid) writes.now) }
{
    let mut oids = Vec::new(alloc);
    for write in writes {
        oids.push(write.oid)?;
    }
    if !is_ascending(oids.as_slice()) {
        return Err(AllocError);
    }
    Ok(Identifiers::of(oids))
}

/// Whether each number is below the next one.
fn is_ascending(oids: &[u64]) -> bool
    ensures { IsTrue result → IsStrictlyIncreasing oids.now }
{
    for k in 1..oids.len() {
        if oids[k] <= oids[k - 1] {
            return false;
        }
    }
    true
}

/// A new array, under the next identifier.
fn inserted(
    alloc: Global,
    view: &View,
    into: &Name,
    of: &SetType,
    writes: &[Write],
) -> Result<(Changes, u64), AllocError>
    ensures changes { IfOk result (λ made. map replacement_of made.0
        ≡ first_inserted into.now of.now writes.now (holdings_of (view_kept view.now) (Named into.now))) }
    ensures number { IfOk result (λ made. made.1 ≡ number_inserted writes.now (holdings_of (view_kept view.now) (Named into.now))) }
{
    let Some(write) = writes.first() else {
        return Ok((Changes::new(alloc), 0));
    };
    let Some(info) = view.members(into) else {
        return Err(AllocError);
    };
    if !is_grid(&of.extents) || write.grown.axes().len() != of.extents.len() {
        return Err(AllocError);
    }
    let changes = array_of(alloc, info, into, of, write)?;
    Ok((changes, info.next))
}

/// The changes that a new array makes.
fn array_of(
    alloc: Global,
    info: &CollectionInfo,
    into: &Name,
    of: &SetType,
    write: &Write,
) -> Result<Changes, AllocError>
    requires extents { IsGrid of.now.extents.items }
    requires axes { length write.now.grown ≡ length of.now.extents.items }
    ensures { IfOk result (λ changes. map replacement_of changes
        ≡ array_inserted into.now of.now write.now (Some (collection_held info.now.set_type info.now.next info.now.oids))) }
{
    let mut changes = Changes::new(alloc);
    let info_after = with_next(alloc, info)?;
    add(
        alloc,
        &mut changes,
        Change::Collection(into.try_clone(alloc)?, Some(info_after)),
    )?;
    let domain = copy_of_region(&write.grown);
    add(
        alloc,
        &mut changes,
        Change::Domain(into.try_clone(alloc)?, info.next, Some(domain)),
    )?;
    let nothing = View::new(alloc);
    let row = Row {
        name: into,
        oid: info.next,
        of,
        rule: NullRule::Stored,
        write,
        view: &nothing,
    };
    let places = tiles_meeting(alloc, &write.grown, &of.extents)?;
    add_tiles(alloc, &row, places.as_slice(), &mut changes)?;
    Ok(changes)
}

/// The information of a collection in which the next identifier was given out. The error is want of memory,
/// or identifiers that are no less than the next one.
fn with_next(alloc: Global, info: &CollectionInfo) -> Result<CollectionInfo, AllocError>
    ensures { IfOk result (λ after. after ≡ record info.now { next = info.now.next + 1; oids = info.now.oids ++ info.now.next ∷ [] }) }
{
    if info.next == u64::MAX || !are_below(info.oids.as_slice(), info.next) {
        return Err(AllocError);
    }
    let mut oids = info.oids.try_clone(alloc)?;
    oids.push(alloc, info.next)?;
    Ok(CollectionInfo {
        set_type: info.set_type,
        next: info.next + 1,
        oids,
    })
}

/// Whether all of these are below a number.
fn are_below(oids: &[u64], bound: u64) -> bool
    ensures { IsTrue result → All (λ oid. oid < bound) oids.now }
{
    for oid in oids {
        if *oid >= bound {
            return false;
        }
    }
    true
}

/// Whether each extent is at least 1.
fn is_grid(extents: &Extents) -> bool
    ensures { IsTrue result → IsGrid extents.now.items }
{
    for extent in extents.as_slice() {
        if *extent < 1 {
            return false;
        }
    }
    true
}

/// The changes of the arrays that an update writes.
fn updated(
    alloc: Global,
    view: &View,
    source: &CheckedSource,
    writes: &[Write],
) -> Result<(Changes, u64), AllocError>
    ensures changes { IfOk result (λ made. map replacement_of made.0
        ≡ flat_map (row_replaced source.now.of source.now.collection (holdings_of (view_kept view.now))) writes.now) }
    ensures number { IfOk result (λ made. made.1 ≡ length writes.now) }
    ensures sound { IfOk result (λ made. AreSoundRows source.now.of source.now.collection (holdings_of (view_kept view.now)) writes.now) }
{
    let oids = oids_of(alloc, writes)?;
    if !is_grid(&source.of.extents) {
        return Err(AllocError);
    }
    let changes = rows_of(alloc, view, source, writes)?;
    let _ascending = oids.as_slice();
    Ok((changes, writes.len() as u64))
}

/// The changes of each row, in order.
fn rows_of(
    alloc: Global,
    view: &View,
    source: &CheckedSource,
    writes: &[Write],
) -> Result<Changes, AllocError>
    requires { IsGrid source.now.of.extents.items }
    ensures changes { IfOk result (λ changes. map replacement_of changes
        ≡ flat_map (row_replaced source.now.of source.now.collection (holdings_of (view_kept view.now))) writes.now) }
    ensures sound { IfOk result (λ changes.
        All (IsSoundWrite source.now.of source.now.collection (holdings_of (view_kept view.now))) writes.now) }
{
    let mut changes = Changes::new(alloc);
    for write in writes {
        let row = Row {
            name: &source.collection,
            oid: write.oid,
            of: &source.of,
            rule: NullRule::Left,
            write,
            view,
        };
        add_row(alloc, &row, &mut changes)?;
    }
    Ok(changes)
}
