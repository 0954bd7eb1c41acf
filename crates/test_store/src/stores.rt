//! Tables worked out by hand, and that calls which need memory succeed.
ghost use Rattle.std.specs.Prelude.{IfOk, IsTrue, true};

use ras_cells::Numbers;
use ras_domain::{Interval, LockList, LockName, MAX_TILE_CELLS, Mode, Name, Point, Region};
use ras_store::{
    Change, Changes, CollectionInfo, Identifiers, NothingWritten, Piece, RowSet, Store, View,
    WrittenNames,
};
use ras_tile::Tile;
use std::alloc::{AllocError, Global};
use std::process::Abort;
use std::sync::Arc;
use std::test::Fail;

/// A lower and an upper bound on each of two axes.
type Bounds = [(i64, i64); 2];

/// The array G on [0:3,0:3], whose cell at [i,j] is 4*i+j, in tiles of two by two: the place of each, its
/// box and its cells in row-major order.
const TILES: [([i64; 2], Bounds, [i64; 4]); 4] = [
    ([0, 0], [(0, 1), (0, 1)], [0, 1, 4, 5]),
    ([0, 1], [(0, 1), (2, 3)], [2, 3, 6, 7]),
    ([1, 0], [(2, 3), (0, 1)], [8, 9, 12, 13]),
    ([1, 1], [(2, 3), (2, 3)], [10, 11, 14, 15]),
];

fn name_of(alloc: Global) -> Result<Name, AllocError> {
    Name::of(alloc, b"G")
}

fn point_of(coordinates: [i64; 2]) -> Point {
    let mut point = Point::new();
    point.push(coordinates[0]);
    point.push(coordinates[1]);
    point
}

fn region_of(bounds: Bounds) -> Result<Region, Fail> {
    Ok(Region::new(&[
        Interval {
            lo: bounds[0].0,
            hi: bounds[0].1,
        },
        Interval {
            lo: bounds[1].0,
            hi: bounds[1].1,
        },
    ])?)
}

fn zeros(rt: &impl Abort, alloc: Global, bounds: Bounds) -> Result<Tile, Fail>
    ensures { IfOk result (λ tile. IsTrue tile.writable) }
{
    let region = region_of(bounds)?;
    assert!(rt; region.volume() <= MAX_TILE_CELLS);
    let mut zero = Numbers::new();
    zero.push(0);
    Ok(Tile::filled(alloc, region, &zero)?)
}

fn write(rt: &impl Abort, tile: &mut Tile, coordinates: [i64; 2], number: i64)
    requires { IsTrue tile.old.writable }
    ensures { IsTrue tile.new.writable }
{
    let p = point_of(coordinates);
    let mut numbers = Numbers::new();
    numbers.push(number);
    assert!(rt; tile.region().contains(&p));
    assert!(rt; numbers.len() == tile.width());
    tile.set(&p, &numbers);
}

/// The tile of two by two cells with these bounds and numbers.
fn tile_of(rt: &impl Abort, alloc: Global, bounds: Bounds, cells: [i64; 4]) -> Result<Tile, Fail> {
    let mut tile = zeros(rt, alloc, bounds)?;
    let [(top, bottom), (left, right)] = bounds;
    write(rt, &mut tile, [top, left], cells[0]);
    write(rt, &mut tile, [top, right], cells[1]);
    write(rt, &mut tile, [bottom, left], cells[2]);
    write(rt, &mut tile, [bottom, right], cells[3]);
    Ok(tile)
}

/// The numbers of all cells, in row-major order.
fn numbers_in(rt: &impl Abort, alloc: Global, tile: &Tile) -> Result<Vec<i64>, Fail> {
    let mut numbers = Vec::new(alloc);
    for place in 0..tile.region().volume() {
        let p = tile.region().point_at(place);
        assert!(rt; tile.region().contains(&p));
        numbers.extend_from_slice(tile.get(&p).as_slice())?;
    }
    Ok(numbers)
}

/// Puts a change at the end.
fn add(alloc: Global, changes: &mut Changes, change: Change) -> Result<(), AllocError> {
    match changes.add(alloc, change) {
        Ok(()) => Ok(()),
        Err(_) => Err(AllocError),
    }
}

/// Makes room for changes and applies them.
fn apply(alloc: Global, store: &mut Store, changes: Changes) -> Result<(), AllocError> {
    store.reserve_for(alloc, &changes)?;
    store.apply_prepared(changes);
    Ok(())
}

/// The store whose one collection has the one array G.
fn store_of_g(rt: &impl Abort, alloc: Global) -> Result<Store, Fail> {
    let mut oids = Identifiers::new(alloc);
    oids.push(alloc, 1)?;
    let info = CollectionInfo {
        set_type: 0,
        next: 2,
        oids,
    };
    let mut changes = Changes::new(alloc);
    let name = name_of(alloc)?;
    add(alloc, &mut changes, Change::Collection(name, Some(info)))?;
    let name = name_of(alloc)?;
    let domain = region_of([(0, 3), (0, 3)])?;
    add(alloc, &mut changes, Change::Domain(name, 1, Some(domain)))?;
    for (place, bounds, cells) in TILES {
        let tile = Arc::new(alloc, tile_of(rt, alloc, bounds, cells)?)?;
        let name = name_of(alloc)?;
        let change = Change::Tile(name, 1, point_of(place), Some(tile));
        add(alloc, &mut changes, change)?;
    }
    let mut store = Store::new(alloc);
    apply(alloc, &mut store, changes)?;
    Ok(store)
}

/// Asserts that the store has G whole.
fn check_g(rt: &impl Abort, alloc: Global, store: &Store) -> Result<(), Fail> {
    let name = name_of(alloc)?;
    let info = store.members(&name).ok_or("no collection")?;
    assert_eq!(rt; info.set_type, 0);
    assert_eq!(rt; info.next, 2);
    assert_eq!(rt; info.oids.as_slice(), [1].as_slice());
    assert_eq!(rt;
        store.domain_of(&name, 1),
        Some(region_of([(0, 3), (0, 3)])?)
    );
    for (place, _, cells) in TILES {
        let tile = store.tile_of(&name, 1, &point_of(place)).ok_or("no tile")?;
        let numbers = numbers_in(rt, alloc, tile)?;
        assert_eq!(rt; numbers.as_slice(), cells.as_slice(), "at {place:?}");
    }
    Ok(())
}

#[test]
fn a_store_has_what_was_put_into_it(rt: HostRuntime) -> Result<(), Fail> {
    let store = store_of_g(&rt, rt.alloc())?;
    check_g(&rt, rt.alloc(), &store)?;
    check_g(&rt, rt.alloc(), &store.try_clone(rt.alloc())?)?;
    let names = store.names(rt.alloc())?;
    assert_eq!(rt; names.len(), 1);
    assert_eq!(rt;
        names.first().map(|name| name.bytes()),
        Some(b"G".as_slice())
    );
    let name = name_of(rt.alloc())?;
    let other = Name::of(rt.alloc(), b"H")?;
    assert!(rt; store.members(&other).is_none());
    assert!(rt; store.domain_of(&name, 2).is_none());
    assert!(rt; store.tile_of(&name, 1, &point_of([0, 2])).is_none());
    Ok(())
}

#[test]
fn changes_are_applied_in_order(rt: HostRuntime) -> Result<(), Fail> {
    let mut store = store_of_g(&rt, rt.alloc())?;
    let whole = store.try_clone(rt.alloc())?;
    let info = CollectionInfo {
        set_type: 3,
        next: 9,
        oids: Identifiers::new(rt.alloc()),
    };
    let mut changes = Changes::new(rt.alloc());
    let name = name_of(rt.alloc())?;
    add(rt.alloc(), &mut changes, Change::Collection(name, None))?;
    let name = name_of(rt.alloc())?;
    add(
        rt.alloc(),
        &mut changes,
        Change::Collection(name, Some(info)),
    )?;
    apply(rt.alloc(), &mut store, changes)?;
    let name = name_of(rt.alloc())?;
    assert_eq!(rt; store.members(&name).map(|info| info.next), Some(9));
    assert!(rt; store.domain_of(&name, 1).is_none());
    for (place, _, _) in TILES {
        assert!(rt; store.tile_of(&name, 1, &point_of(place)).is_none());
    }
    let mut changes = Changes::new(rt.alloc());
    add(rt.alloc(), &mut changes, Change::Collection(name, None))?;
    apply(rt.alloc(), &mut store, changes)?;
    assert!(rt; store.names(rt.alloc())?.is_empty());
    check_g(&rt, rt.alloc(), &whole)
}

/// The piece of G whole, and of a collection H that isn't there.
fn piece_of_g(alloc: Global, store: &Store) -> Result<Piece, AllocError> {
    let mut list = LockList::new(alloc);
    let name = name_of(alloc)?;
    lock(alloc, &mut list, LockName::Collection(name))?;
    let name = name_of(alloc)?;
    lock(alloc, &mut list, LockName::Domain(name, 1))?;
    for (place, _, _) in TILES {
        let name = name_of(alloc)?;
        let tile = LockName::Tile(name, 1, point_of(place));
        lock(alloc, &mut list, tile)?;
    }
    let other = Name::of(alloc, b"H")?;
    lock(alloc, &mut list, LockName::Collection(other))?;
    let other = Name::of(alloc, b"H")?;
    lock(alloc, &mut list, LockName::Domain(other, 1))?;
    store.piece(alloc, &list)
}

#[test]
fn a_piece_has_what_the_list_names(rt: HostRuntime) -> Result<(), Fail> {
    let store = store_of_g(&rt, rt.alloc())?;
    let piece = piece_of_g(rt.alloc(), &store)?;
    assert_eq!(rt; piece.collections.as_slice().len(), 2);
    assert_eq!(rt; piece.domains.as_slice().len(), 1);
    assert_eq!(rt; piece.tiles.as_slice().len(), 4);
    check_view(&rt, rt.alloc(), &view_of(rt.alloc(), piece)?)
}

/// All names.
struct Everything;

impl WrittenNames for Everything {
    ghost is_written = { λ everything name. true };

    fn contains(&self, _name: &LockName) -> bool {
        true
    }
}

/// A change of G's first tile to these cells.
fn first_tile(rt: &impl Abort, alloc: Global, cells: [i64; 4]) -> Result<Change, Fail> {
    let (place, bounds, _) = TILES[0];
    let tile = Arc::new(alloc, tile_of(rt, alloc, bounds, cells)?)?;
    let name = name_of(alloc)?;
    Ok(Change::Tile(name, 1, point_of(place), Some(tile)))
}

/// A view in which the first tile of G was written twice, and nothing else is seen.
fn written_view(rt: &impl Abort, alloc: Global) -> Result<View, Fail> {
    let mut changes = Changes::new(alloc);
    add(alloc, &mut changes, first_tile(rt, alloc, [1, 1, 1, 1])?)?;
    let mut more = Changes::new(alloc);
    add(alloc, &mut more, first_tile(rt, alloc, [90, 91, 94, 95])?)?;
    assert!(rt; changes.append(alloc, more).is_ok());
    assert_eq!(rt; changes.items().len(), 2);
    let mut view = View::new(alloc);
    view.reserve_for(alloc, &changes)?;
    view.apply_prepared(changes);
    Ok(view)
}

#[test]
fn a_view_keeps_what_was_written(rt: HostRuntime) -> Result<(), Fail> {
    let store = store_of_g(&rt, rt.alloc())?;
    let name = name_of(rt.alloc())?;
    let mut view = written_view(&rt, rt.alloc())?;
    assert!(rt; view.members(&name).is_none());
    let piece = piece_of_g(rt.alloc(), &store)?;
    assert!(rt; view.put_piece(rt.alloc(), piece, &Everything).is_ok());
    assert!(rt; view.members(&name).is_none());
    assert!(rt; view.domain_of(&name, 1).is_none());
    let tile = view.tile_of(&name, 1, &point_of([0, 0])).ok_or("no tile")?;
    let numbers = numbers_in(&rt, rt.alloc(), tile)?;
    assert_eq!(rt; numbers.as_slice(), [90, 91, 94, 95].as_slice());
    assert!(rt; view.tile_of(&name, 1, &point_of([0, 1])).is_none());
    let piece = piece_of_g(rt.alloc(), &store)?;
    assert!(rt; view.put_piece(rt.alloc(), piece, &NothingWritten).is_ok());
    check_view(&rt, rt.alloc(), &view)
}

/// The coordinates of a place in rows of ten.
fn coordinates_of(place: u32) -> [i64; 2] {
    [i64::from(place / 10), i64::from(place % 10)]
}

/// A change of a tile of one cell, which has the numbers of a round, of its array and of its place.
fn cell_change(
    rt: &impl Abort,
    alloc: Global,
    round: u32,
    oid: u32,
    place: u32,
) -> Result<Change, Fail> {
    let at = coordinates_of(place);
    let region = region_of([(at[0], at[0]), (at[1], at[1])])?;
    assert!(rt; region.volume() <= MAX_TILE_CELLS);
    let mut numbers = Numbers::new();
    numbers.push(i64::from(round));
    numbers.push(i64::from(oid));
    numbers.push(i64::from(place));
    let tile = Arc::new(alloc, Tile::filled(alloc, region, &numbers)?)?;
    let name = name_of(alloc)?;
    Ok(Change::Tile(name, u64::from(oid), point_of(at), Some(tile)))
}

/// Changes of the hundred tiles of one array.
fn change_tiles(
    rt: &impl Abort,
    alloc: Global,
    changes: &mut Changes,
    round: u32,
    oid: u32,
) -> Result<(), Fail> {
    for place in 0..100u32 {
        add(alloc, changes, cell_change(rt, alloc, round, oid, place)?)?;
    }
    Ok(())
}

/// Changes of all tiles of a hundred arrays.
fn change_all(rt: &impl Abort, alloc: Global, round: u32) -> Result<Changes, Fail> {
    let mut changes = Changes::new(alloc);
    for oid in 1..101u32 {
        change_tiles(rt, alloc, &mut changes, round, oid)?;
    }
    Ok(changes)
}

/// Asserts that the hundred tiles of one array have the numbers of a round.
fn check_tiles(
    rt: &impl Abort,
    alloc: Global,
    store: &Store,
    round: u32,
    oid: u32,
) -> Result<(), Fail> {
    let name = name_of(alloc)?;
    for place in 0..100u32 {
        let at = point_of(coordinates_of(place));
        let tile = store.tile_of(&name, u64::from(oid), &at).ok_or("no tile")?;
        let numbers = numbers_in(rt, alloc, tile)?;
        let wanted = [i64::from(round), i64::from(oid), i64::from(place)];
        assert_eq!(rt; numbers.as_slice(), wanted.as_slice());
    }
    Ok(())
}

#[test]
fn ten_thousand_tiles_are_changed_and_found(rt: HostRuntime) -> Result<(), Fail> {
    let mut store = Store::new(rt.alloc());
    for round in 1..4u32 {
        apply(rt.alloc(), &mut store, change_all(&rt, rt.alloc(), round)?)?;
        for oid in 1..101u32 {
            check_tiles(&rt, rt.alloc(), &store, round, oid)?;
        }
    }
    Ok(())
}

#[test]
fn rows_are_kept_in_order(rt: HostRuntime) -> Result<(), Fail> {
    let mut rows = RowSet::new(rt.alloc());
    assert!(rt; rows.is_empty());
    for row in 1..4u64 {
        let oids = vec![in rt.alloc(); row, 7]?;
        assert!(rt; rows.push(rt.alloc(), row, oids).is_ok());
    }
    assert_eq!(rt; rows.len(), 3);
    assert_eq!(rt; rows.get(2), (3, [3, 7].as_slice()));
    Ok(())
}

fn lock(alloc: Global, list: &mut LockList, name: LockName) -> Result<(), AllocError> {
    match list.push(alloc, name, Mode::Shared) {
        Ok(()) => Ok(()),
        Err(_) => Err(AllocError),
    }
}

fn view_of(alloc: Global, piece: Piece) -> Result<View, AllocError> {
    match View::of_piece(alloc, piece) {
        Ok(view) => Ok(view),
        Err(_) => Err(AllocError),
    }
}

/// Asserts that the view shows G whole.
fn check_view(rt: &impl Abort, alloc: Global, view: &View) -> Result<(), Fail> {
    let name = name_of(alloc)?;
    assert_eq!(rt; view.members(&name).map(|info| info.next), Some(2));
    assert_eq!(rt;
        view.domain_of(&name, 1),
        Some(region_of([(0, 3), (0, 3)])?)
    );
    for (place, _, cells) in TILES {
        let tile = view.tile_of(&name, 1, &point_of(place)).ok_or("no tile")?;
        let numbers = numbers_in(rt, alloc, tile)?;
        assert_eq!(rt; numbers.as_slice(), cells.as_slice(), "at {place:?}");
    }
    let other = Name::of(alloc, b"H")?;
    assert!(rt; view.members(&other).is_none());
    Ok(())
}
