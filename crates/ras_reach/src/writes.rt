//! The locks that an update asks for: on the tiles that it writes, and where the domain grows on the
//! domain and on each tile whose box changes.
ghost use Rattle.std.specs.Prelude.{◌≡◌, ◌++◌, ◌∷◌, [], filter, map, option_map, IfOk, IfSome, OnOk};
ghost use Rattle.ras_domain.specs.Boxes.{is_same_box, meet_of_axis};
ghost use Rattle.ras_domain.specs.declared.lock.Mode.TheVariants.{Exclusive as Alone};
ghost use Rattle.ras_grid.specs.Grid.{grid_interval, tile_in};
ghost use Rattle.ras_rows.specs.Plans.{writing_seen};
ghost use Rattle.spec_statements.specs.Phases.{grown_locks, tile_lock, write_locks};
ghost use Rattle.ras_reach.specs.Keys.{put_before};
ghost use Rattle.ras_reach.specs.TileLocks.{box_changes, points_held};

use crate::locks::LockSet;
use crate::tiles::{put_tiles, tile_name, tiles_of};
use ras_domain::{Interval, LockName, Mode, Name, Point};
use ras_grid::Extents;
use ras_rows::{ShownArray, Writing};
use std::alloc::{AllocError, Global};

/// The numbers of an interval that are in a tile of this extent at a place, and None where the tile
/// lies beyond 64 bits.
fn tile_along(extent: u32, place: &i64, axis: &Interval) -> Option<Interval>
    ensures { IfSome result (λ both. both ≡ meet_of_axis (grid_interval extent place.now) axis.now) }
{
    let lo = place.checked_mul(i64::from(extent))?;
    let end = lo.checked_add(i64::from(extent))?;
    let hi = end.checked_sub(1)?;
    Some(Interval {
        lo: lo.max(axis.lo),
        hi: hi.min(axis.hi),
    })
}

/// Puts the intervals of the part of a tile that lies in a domain at the end. The error is want of
/// memory, or stands for a tile beyond 64 bits.
fn push_tile_box(
    extents: &[u32],
    place: &[i64],
    domain: &[Interval],
    axes: &mut Vec<Interval>,
) -> Result<(), AllocError>
    ensures { OnOk result (axes.new.items ≡ axes.old.items ++ tile_in extents.now domain.now place.now) }
{
    let [extent, extents @ ..] = extents else {
        return Ok(());
    };
    let [along, place @ ..] = place else {
        return Ok(());
    };
    let [axis, domain @ ..] = domain else {
        return Ok(());
    };
    let Some(both) = tile_along(*extent, along, axis) else {
        return Err(AllocError);
    };
    axes.push(both)?;
    push_tile_box(extents, place, domain, axes)
}

/// Whether a tile has another box in the new domain than in the old one. The error is as with
/// [`push_tile_box`].
fn changes(
    alloc: Global,
    extents: &Extents,
    place: &Point,
    old: &[Interval],
    new: &[Interval],
) -> Result<bool, AllocError>
    ensures { IfOk result (λ changed. changed ≡ box_changes extents.now.items old.now new.now place.now.items) }
{
    let mut before = Vec::new(alloc);
    push_tile_box(extents.as_slice(), place.as_slice(), old, &mut before)?;
    let mut after = Vec::new(alloc);
    push_tile_box(extents.as_slice(), place.as_slice(), new, &mut after)?;
    Ok(before != after)
}

/// Puts an exclusive lock on a tile among the others, if it has another box in the new domain than in
/// the old one. The error is as with [`push_tile_box`].
fn put_if_changed(
    alloc: Global,
    collection: &Name,
    oid: u64,
    extents: &Extents,
    old: &[Interval],
    new: &[Interval],
    place: Point,
    set: &mut LockSet,
) -> Result<(), AllocError>
    ensures { OnOk result (set.new
        ≡ put_before (map (tile_lock collection.now oid Alone)
        (filter (box_changes extents.now.items old.now new.now) (place.items ∷ []))) set.old) }
{
    if !changes(alloc, extents, &place, old, new)? {
        return Ok(());
    }
    let name = tile_name(alloc, collection, oid, place)?;
    set.put(name, Mode::Exclusive)
}

/// Puts exclusive locks on those of the tiles that have another box in the new domain than in the old
/// one among the others. The error is as with [`push_tile_box`].
#[tactic(auto, using(crate::proofs::TileLoops::changed_turns))]
fn put_changed(
    alloc: Global,
    collection: &Name,
    oid: u64,
    extents: &Extents,
    old: &[Interval],
    new: &[Interval],
    places: Vec<Point>,
    set: &mut LockSet,
) -> Result<(), AllocError>
    ensures { OnOk result (set.new
        ≡ put_before (map (tile_lock collection.now oid Alone)
        (filter (box_changes extents.now.items old.now new.now) (points_held places.items))) set.old) }
{
    let mut left = places;
    while let Some(place) = left.pop() {
        put_if_changed(alloc, collection, oid, extents, old, new, place, set)?;
    }
    Ok(())
}

/// Whether two boxes have the same intervals.
fn is_same(a: &[Interval], b: &[Interval]) -> bool
    ensures { result ≡ is_same_box a.now b.now }
{
    a == b
}

/// Puts the locks that growing asks for among the others: none where the domain stays. The error is
/// want of memory, or stands for a tile beyond 64 bits.
fn put_grown(
    alloc: Global,
    collection: &Name,
    array: &ShownArray<'_>,
    writing: &Writing,
    set: &mut LockSet,
) -> Result<(), AllocError>
    ensures { OnOk result (set.new ≡ put_before (grown_locks collection.now array.now (writing_seen writing.now)) set.old) }
{
    let old = array.domain().axes();
    let new = writing.grown.axes();
    if is_same(old, new) {
        return Ok(());
    }
    let extents = &array.set_type().extents;
    let places = tiles_of(alloc, extents, new)?;
    put_changed(
        alloc,
        collection,
        array.oid(),
        extents,
        old,
        new,
        places,
        set,
    )?;
    let name = LockName::Domain(collection.try_clone(alloc)?, array.oid());
    set.put(name, Mode::Exclusive)
}

/// Puts the locks that writing in a row asks for among the others: none where nothing is written. The
/// error is want of memory, or stands for a tile beyond 64 bits.
#[tactic(auto, using(crate::proofs::KeyOrder::put_before_both))]
pub(crate) fn put_write(
    alloc: Global,
    collection: &Name,
    row: &[ShownArray<'_>],
    writing: &Option<Writing>,
    set: &mut LockSet,
) -> Result<(), AllocError>
    ensures { OnOk result (set.new ≡ put_before (write_locks collection.now row.now (option_map writing_seen writing.now)) set.old) }
{
    let Some(writing) = writing else {
        return Ok(());
    };
    let [array, _others @ ..] = row else {
        return Ok(());
    };
    put_grown(alloc, collection, array, writing, set)?;
    let extents = &array.set_type().extents;
    let places = tiles_of(alloc, extents, writing.region.axes())?;
    put_tiles(alloc, collection, array.oid(), Mode::Exclusive, places, set)
}
