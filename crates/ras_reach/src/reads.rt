//! The locks that a row asks for: on the domains of its arrays, and on the tiles that an expression
//! reads in it.
ghost use Rattle.std.specs.Prelude.{◌≡◌, ℕ, flat_map, slice_get, IfOk, OnOk};
ghost use Rattle.std.specs.Option.{option_copied};
ghost use Rattle.ras_domain.specs.declared.lock.LockName.TheVariants.{Domain};
ghost use Rattle.spec_statements.specs.Phases.{domain_locks, read_tiles, reached_tiles};
ghost use Rattle.spec_expressions.specs.Tree.{tree_of};
ghost use Rattle.ras_reach.specs.Keys.{put_before};
ghost use Rattle.ras_reach.specs.Reached.{box_reached, boxes_reached};

use crate::locks::LockSet;
use crate::reached::{ReachedBox, reach};
use crate::statics::box_of;
use crate::tiles::{put_tiles, tiles_met};
use ras_domain::{LockName, Mode};
use ras_rows::{ShownArray, domains_of};
use ras_syntax::{CheckedSource, TypedExpr};
use std::alloc::{AllocError, Global};

/// Puts shared locks on the domains of a row's arrays among the others. The error is want of memory.
pub(crate) fn put_domains(
    alloc: Global,
    sources: &[CheckedSource],
    row: &[ShownArray<'_>],
    set: &mut LockSet,
) -> Result<(), AllocError>
    ensures { (number : ℕ) → OnOk result (set.new ≡ put_before (domain_locks sources.now (number, row.now)) set.old) }
{
    let [source, sources @ ..] = sources else {
        return Ok(());
    };
    let [array, row @ ..] = row else {
        return Ok(());
    };
    put_domains(alloc, sources, row, set)?;
    let name = domain_name(alloc, source, array.oid())?;
    set.put(name, Mode::Shared)
}

/// The name of the lock on the domain of an array. The error is want of memory.
fn domain_name(alloc: Global, source: &CheckedSource, oid: u64) -> Result<LockName, AllocError>
    ensures { IfOk result (λ name. name ≡ Domain source.now.collection oid) }
{
    let collection = source.collection.try_clone(alloc)?;
    Ok(LockName::Domain(collection, oid))
}

/// Puts shared locks on the tiles that an expression reads in a row among the others. The error is
/// want of memory.
pub(crate) fn put_read(
    alloc: Global,
    sources: &[CheckedSource],
    e: &TypedExpr,
    row: &[ShownArray<'_>],
    set: &mut LockSet,
) -> Result<(), AllocError>
    ensures { (number : ℕ) → OnOk result (set.new ≡ put_before (read_tiles sources.now (tree_of e.now) (number, row.now)) set.old) }
{
    let domains = domains_of(alloc, row)?;
    let around = box_of(alloc, e, &domains)?;
    let reached = reach(alloc, e, &domains, &around)?;
    put_reached(alloc, sources, row, &reached, set)
}

/// Puts shared locks on the tiles that boxes meet in a row among the others. The error is want of
/// memory.
fn put_reached(
    alloc: Global,
    sources: &[CheckedSource],
    row: &[ShownArray<'_>],
    reached: &[ReachedBox],
    set: &mut LockSet,
) -> Result<(), AllocError>
    ensures { OnOk result (set.new ≡ put_before (flat_map (reached_tiles sources.now row.now) (boxes_reached reached.now)) set.old) }
{
    let [one, others @ ..] = reached else {
        return Ok(());
    };
    put_reached(alloc, sources, row, others, set)?;
    put_box(alloc, sources, row, one, set)
}

/// Puts shared locks on the tiles that a box meets in the array of its place among the others. The
/// error is want of memory.
fn put_box(
    alloc: Global,
    sources: &[CheckedSource],
    row: &[ShownArray<'_>],
    reached: &ReachedBox,
    set: &mut LockSet,
) -> Result<(), AllocError>
    ensures { OnOk result (set.new ≡ put_before (reached_tiles sources.now row.now (box_reached reached.now)) set.old) }
{
    let Some(source) = source_at(sources, reached.place) else {
        return Ok(());
    };
    let Some(array) = array_at(row, reached.place) else {
        return Ok(());
    };
    let extents = &array.set_type().extents;
    let places = tiles_met(alloc, extents, array.domain().axes(), &reached.axes)?;
    put_tiles(
        alloc,
        &source.collection,
        array.oid(),
        Mode::Shared,
        places,
        set,
    )
}

/// The source at a place.
fn source_at(sources: &[CheckedSource], place: u32) -> Option<&CheckedSource>
    ensures { option_copied result ≡ slice_get sources.now place }
{
    sources.get(place as usize)
}

/// The array at a place.
fn array_at<'r, 'a>(row: &'r [ShownArray<'a>], place: u32) -> Option<&'r ShownArray<'a>>
    ensures { option_copied result ≡ slice_get row.now place }
{
    row.get(place as usize)
}
