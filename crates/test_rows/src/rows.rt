//! Rows of statements that are parsed and checked over three collections of arrays with one axis, of which a view
//! holds little more than the identifiers.
use arrayvec::ArrayVec;
use ras_cells::{Atom, Cell, CellFault, CellType, NullSet, Numbers};
use ras_check::check;
use ras_domain::{Bounds, Interval, List, MAX_TILE_CELLS, Name, Point, Region};
use ras_parse::parse_statement;
use ras_rows::{Rows, Stop};
use ras_store::{Change, Changes, CollectionInfo, Identifiers, View};
use ras_syntax::{Answer, Checked, SetType, ShapeFault, Span, Types};
use ras_tile::Tile;
use std::alloc::{AllocError, Global};
use std::process::Abort;
use std::sync::Arc;
use std::test::Fail;

/// The type of all arrays: from -5 to 20, in tiles of 3, where 0 reads as null.
fn line(alloc: Global) -> Result<SetType, AllocError> {
    let mut bounds = Bounds::new();
    let _ = bounds.try_push(Interval { lo: -5, hi: 20 });
    let mut extents = ArrayVec::new();
    let _ = extents.try_push(3);
    let mut nulls = NullSet::new();
    let _ = nulls.try_push((0, 0));
    Ok(SetType {
        name: Name::of(alloc, b"Line")?,
        cell: CellType::Atom(Atom::Char),
        names: List::new(alloc),
        bounds,
        extents,
        nulls,
    })
}

fn types(alloc: Global) -> Result<Types, AllocError> {
    let mut types = Types::new(alloc);
    match types.push(alloc, line(alloc)?) {
        Ok(()) => Ok(types),
        Err(_) => Err(AllocError),
    }
}

/// Puts a change at the end.
fn add(alloc: Global, changes: &mut Changes, change: Change) -> Result<(), AllocError> {
    match changes.add(alloc, change) {
        Ok(()) => Ok(()),
        Err(_) => Err(AllocError),
    }
}

/// The identifiers from 0 on, so many.
fn identifiers(alloc: Global, count: u64) -> Result<Identifiers, AllocError> {
    let mut oids = Identifiers::new(alloc);
    for oid in 0..count {
        oids.push(alloc, oid)?;
    }
    Ok(oids)
}

/// A change that makes a collection with so many identifiers.
fn collection(alloc: Global, name: &[u8], count: u64) -> Result<Change, AllocError> {
    let info = CollectionInfo {
        set_type: 0,
        next: count,
        oids: identifiers(alloc, count)?,
    };
    Ok(Change::Collection(Name::of(alloc, name)?, Some(info)))
}

/// The view of collections of these names, with so many identifiers each, from 0 on, and of no array.
fn view_of(alloc: Global, collections: &[(&[u8], u64)]) -> Result<View, AllocError> {
    let mut changes = Changes::new(alloc);
    for (name, count) in collections {
        add(alloc, &mut changes, collection(alloc, name, *count)?)?;
    }
    applied(alloc, changes)
}

/// The view that changes make of nothing.
fn applied(alloc: Global, changes: Changes) -> Result<View, AllocError> {
    let mut view = View::new(alloc);
    view.reserve_for(alloc, &changes)?;
    view.apply_prepared(changes);
    Ok(view)
}

/// A text that is parsed and checked over collections of these names.
fn checked(rt: &(impl Abort + AllocGlobal), text: &[u8]) -> Result<Checked, Fail> {
    assert!(rt; text.len() < 4_294_967_296);
    let alloc = rt.alloc();
    let types = types(alloc)?;
    let collections = [
        (Name::of(alloc, b"A")?, Some(0)),
        (Name::of(alloc, b"B")?, Some(0)),
        (Name::of(alloc, b"Z")?, Some(0)),
    ];
    let statement = parse_statement(alloc, text).map_err(|_| "not a statement")?;
    let checked = check(alloc, &statement, &types, &collections).map_err(|_| "not checked")?;
    Ok(checked)
}

/// The identifiers of the arrays of each row, one row after another.
fn oids_of(alloc: Global, rows: &Rows<'_>) -> Result<Vec<u64>, Fail> {
    let mut oids = Vec::new(alloc);
    for place in 0..rows.len() {
        let row = rows.row(alloc, place)?;
        for array in row.as_slice() {
            oids.push(array.oid())?;
        }
    }
    Ok(oids)
}

/// Asserts that a statement over A with three arrays and B with two has rows of these identifiers.
fn assert_rows(rt: &(impl Abort + AllocGlobal), text: &str, want: &[u64]) -> Result<(), Fail> {
    let view = view_of(rt.alloc(), &[(b"A", 3), (b"B", 2)])?;
    let checked = checked(rt, text.as_bytes())?;
    let rows = Rows::of(rt.alloc(), &checked, &view).map_err(|_| "no rows")?;
    let oids = oids_of(rt.alloc(), &rows)?;
    assert_eq!(rt; oids.as_slice(), want, "{text}");
    Ok(())
}

#[test]
fn rows_are_all_combinations(rt: HostRuntime) -> Result<(), Fail> {
    let rt = &rt;
    assert_rows(rt, "select 1 from A as a", &[0, 1, 2])?;
    assert_rows(rt, "select 1 from Z as z", &[])?;
    let all = [0, 0, 0, 1, 1, 0, 1, 1, 2, 0, 2, 1];
    assert_rows(rt, "select 1 from A as a, B as b", &all)?;
    assert_rows(rt, "delete from B as b", &[0, 1])?;
    // A statement without sources has one row, which has no arrays.
    assert_rows(rt, "drop collection A", &[])?;
    assert_rows(rt, "select 1 from A as a, Z as z", &[])
}

#[test]
fn conjuncts_on_identifiers_cut_the_rows(rt: HostRuntime) -> Result<(), Fail> {
    let rt = &rt;
    let one = [1, 0, 1, 1];
    assert_rows(rt, "select 1 from A as a, B as b where oid(a) = 1", &one)?;
    assert_rows(rt, "select 1 from A as a, B as b where 1 = oid(a)", &one)?;
    let text = "select 1 from A as a, B as b where (oid(b) = 1 and true) and (2 = oid(a))";
    assert_rows(rt, text, &[2, 1])?;
    assert_rows(
        rt,
        "delete from A as a where oid(a) = 1 and oid(a) = 2",
        &[],
    )?;
    assert_rows(rt, "delete from A as a where oid(a) = 3", &[])?;
    assert_rows(rt, "delete from A as a where oid(a) = -1", &[0, 1, 2])?;
    // These aren't conjuncts, so all rows stay.
    assert_rows(
        rt,
        "delete from A as a where oid(a) = 1 or oid(a) = 2",
        &[0, 1, 2],
    )?;
    assert_rows(rt, "delete from A as a where not (oid(a) = 1)", &[0, 1, 2])?;
    assert_rows(rt, "delete from A as a where oid(a) <= 1", &[0, 1, 2])
}

/// What the rows of a select over all of A and B come to: their number, or the answer.
fn count_of(rt: &(impl Abort + AllocGlobal), a: u64, b: u64) -> Result<Option<u64>, Fail> {
    let view = view_of(rt.alloc(), &[(b"A", a), (b"B", b)])?;
    let checked = checked(rt, b"select 1 from A as a, B as b")?;
    match Rows::of(rt.alloc(), &checked, &view) {
        Ok(rows) => Ok(Some(rows.len())),
        Err(Stop::Answer(Answer::Shape { row, span, fault })) => {
            assert_eq!(rt; row, 0);
            assert_eq!(rt; span, Span { from: 0, to: 28 });
            assert_eq!(rt; fault, ShapeFault::TooManyRows);
            Ok(None)
        }
        Err(_) => Err("no rows".into()),
    }
}

#[test]
fn there_are_at_most_65536_rows(rt: HostRuntime) -> Result<(), Fail> {
    assert_eq!(rt; count_of(&rt, 256, 256)?, Some(65_536));
    assert_eq!(rt; count_of(&rt, 65_536, 1)?, Some(65_536));
    assert_eq!(rt; count_of(&rt, 65_537, 1)?, None);
    assert_eq!(rt; count_of(&rt, 257, 256)?, None);
    assert_eq!(rt; count_of(&rt, 65_537, 65_537)?, None);
    assert_eq!(rt; count_of(&rt, 65_537, 0)?, Some(0));
    Ok(())
}

#[test]
fn the_last_row_is_found_by_its_place(rt: HostRuntime) -> Result<(), Fail> {
    let view = view_of(rt.alloc(), &[(b"A", 256), (b"B", 256)])?;
    let checked = checked(&rt, b"select 1 from A as a, B as b")?;
    let rows = Rows::of(rt.alloc(), &checked, &view).map_err(|_| "no rows")?;
    for (place, want) in [
        (0, [0, 0]),
        (255, [0, 255]),
        (256, [1, 0]),
        (65_535, [255, 255]),
    ] {
        assert!(rt; place < rows.len());
        let row = rows.row(rt.alloc(), place)?;
        assert_eq!(rt; row.len(), 2);
        assert_eq!(rt; [row[0].oid(), row[1].oid()], want);
    }
    Ok(())
}

fn point(c: i64) -> Point {
    let mut point = Point::new();
    let _ = point.try_push(c);
    point
}

fn number(n: i64) -> Cell {
    let mut numbers = Numbers::new();
    let _ = numbers.try_push(n);
    Cell::Value(numbers)
}

/// The view of an array of A on [-4:4], of which the tile [-3:-1] alone is held, with sevens.
fn view_of_line(rt: &impl Abort, alloc: Global) -> Result<View, Fail> {
    let mut changes = Changes::new(alloc);
    add(alloc, &mut changes, collection(alloc, b"A", 2)?)?;
    let domain = Region::new(&[Interval { lo: -4, hi: 4 }])?;
    let name = Name::of(alloc, b"A")?;
    add(alloc, &mut changes, Change::Domain(name, 1, Some(domain)))?;
    let region = Region::new(&[Interval { lo: -3, hi: -1 }])?;
    assert!(rt; region.volume() <= MAX_TILE_CELLS);
    let mut seven = Numbers::new();
    let _ = seven.try_push(7);
    let tile = Arc::new(alloc, Tile::filled(alloc, region, &seven)?)?;
    let name = Name::of(alloc, b"A")?;
    add(
        alloc,
        &mut changes,
        Change::Tile(name, 1, point(-1), Some(tile)),
    )?;
    Ok(applied(alloc, changes)?)
}

#[test]
fn an_array_has_what_the_view_holds(rt: HostRuntime) -> Result<(), Fail> {
    let view = view_of_line(&rt, rt.alloc())?;
    let checked = checked(&rt, b"select 1 from A as a where oid(a) = 1")?;
    let rows = Rows::of(rt.alloc(), &checked, &view).map_err(|_| "no rows")?;
    assert!(rt; 0 < rows.len());
    let row = rows.row(rt.alloc(), 0)?;
    let array = row.first().ok_or("no array")?;
    assert_eq!(rt;
        array.domain().axes(),
        [Interval { lo: -4, hi: 4 }].as_slice()
    );
    // Out of the domain there is no cell; a tile that isn't held has zeros, which read as null here.
    for (c, want) in [
        (-5, Err(CellFault::IndexOut)),
        (-4, Ok(Cell::Null)),
        (-3, Ok(number(7))),
        (-1, Ok(number(7))),
        (0, Ok(Cell::Null)),
        (4, Ok(Cell::Null)),
        (5, Err(CellFault::IndexOut)),
    ] {
        assert_eq!(rt; array.cell(&point(c)), want, "at {c}");
    }
    assert!(rt; array.stored(&point(5)).is_none());
    Ok(())
}

#[test]
fn an_array_without_a_domain_has_the_least_point(rt: HostRuntime) -> Result<(), Fail> {
    let view = view_of_line(&rt, rt.alloc())?;
    let checked = checked(&rt, b"select 1 from A as a where oid(a) = 0")?;
    let rows = Rows::of(rt.alloc(), &checked, &view).map_err(|_| "no rows")?;
    assert!(rt; 0 < rows.len());
    let row = rows.row(rt.alloc(), 0)?;
    let array = row.first().ok_or("no array")?;
    assert_eq!(rt;
        array.domain().axes(),
        [Interval { lo: -5, hi: -5 }].as_slice()
    );
    assert_eq!(rt; array.cell(&point(-5)), Ok(Cell::Null));
    assert_eq!(rt; array.cell(&point(-4)), Err(CellFault::IndexOut));
    Ok(())
}
