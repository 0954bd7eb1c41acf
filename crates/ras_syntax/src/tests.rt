//! Lists that were written by hand come back, and calls that need memory succeed.
ghost use Rattle.std.specs.Prelude.{◌≡◌, ◌≤◌, length};
ghost use Rattle.ras_cells.specs.declared.cell.Cell.TheVariants.{Value as value};

use crate::{CellList, RowList, RowValue, SetType, Types};
use arrayvec::ArrayVec;
use ras_cells::{Atom, Cell, CellType, MAX_COMPONENTS, NullSet, Numbers};
use ras_domain::{Bounds, Interval, List, Name, Region};
use std::alloc::{AllocError, Global};
use std::process::Abort;
use std::test::Fail;

/// The numbers of a cell, or null.
type Components<'a> = Option<&'a [i64]>;

fn cell_of(numbers: &[i64]) -> Cell
    requires { length numbers.now ≤ MAX_COMPONENTS }
    ensures { result ≡ value (record { items = numbers.now }) }
{
    Cell::Value(Numbers::try_from(numbers).unwrap())
}

fn components_of(cell: &Cell) -> Components<'_> {
    match cell {
        Cell::Null => None,
        Cell::Value(numbers) => Some(numbers.as_slice()),
    }
}

fn assert_cells(rt: &impl Abort, list: &CellList, want: &[Components<'_>]) {
    assert_eq!(rt; list.len(), want.len());
    for (place, components) in want.iter().enumerate() {
        assert!(rt; place < list.len());
        let cell = list.get(place);
        assert_eq!(rt; components_of(&cell), *components, "at {place}");
    }
}

#[test]
fn cells_come_back_in_order(rt: HostRuntime) -> Result<(), Fail> {
    let mut singles = CellList::with_room(rt.alloc(), 1, 3)?;
    assert!(rt; singles.is_empty());
    singles.push(&cell_of(&[5]));
    assert!(rt; !singles.is_empty());
    singles.push(&Cell::Null);
    singles.push(&cell_of(&[-7]));
    assert_cells(&rt, &singles, &[Some(&[5]), None, Some(&[-7])]);

    let mut triples = CellList::with_room(rt.alloc(), 3, 4)?;
    triples.push(&cell_of(&[1, -2, 3]));
    triples.push(&Cell::Null);
    triples.push(&cell_of(&[0, 0, i64::MIN]));
    let want: [Components<'_>; 3] = [Some(&[1, -2, 3]), None, Some(&[0, 0, i64::MIN])];
    assert_cells(&rt, &triples, &want);
    Ok(())
}

#[test]
fn cells_without_numbers_are_kept(rt: HostRuntime) -> Result<(), Fail> {
    let mut empty = CellList::with_room(rt.alloc(), 0, 2)?;
    empty.push(&cell_of(&[]));
    empty.push(&Cell::Null);
    assert_cells(&rt, &empty, &[Some(&[]), None]);

    let mut wide = CellList::with_room(rt.alloc(), 9, 2)?;
    wide.push(&Cell::Null);
    wide.push(&Cell::Null);
    assert_cells(&rt, &wide, &[None, None]);

    let beyond = CellList::with_room(rt.alloc(), 8, usize::MAX);
    assert!(rt; beyond.is_err());
    Ok(())
}

#[test]
fn rows_come_back_in_order(rt: HostRuntime) -> Result<(), Fail> {
    let line = [Interval { lo: 0, hi: 1 }];
    let mut cells = CellList::with_room(rt.alloc(), 1, 2)?;
    cells.push(&cell_of(&[4]));
    cells.push(&cell_of(&[6]));
    let mut rows = RowList::new(rt.alloc());
    assert!(rt; rows.is_empty());
    assert!(rt;
        rows.push(rt.alloc(), RowValue::Scalar(cell_of(&[120])))
            .is_ok()
    );
    assert!(rt;
        rows.push(rt.alloc(), RowValue::Domain(Region::new(&line)?))
            .is_ok()
    );
    assert!(rt;
        rows.push(rt.alloc(), RowValue::Array(Region::new(&line)?, cells))
            .is_ok()
    );
    assert!(rt; !rows.is_empty());
    assert_eq!(rt; rows.len(), 3);
    let RowValue::Scalar(cell) = rows.get(0) else {
        panic!(rt; "a cell is wanted");
    };
    assert_eq!(rt; components_of(cell), Some(&[120][..]));
    let RowValue::Domain(region) = rows.get(1) else {
        panic!(rt; "a domain is wanted");
    };
    assert_eq!(rt; region.axes(), &line[..]);
    let RowValue::Array(region, cells) = rows.get(2) else {
        panic!(rt; "an array is wanted");
    };
    assert_eq!(rt; region.axes(), &line[..]);
    assert_cells(&rt, cells, &[Some(&[4]), Some(&[6])]);
    Ok(())
}

fn set_of(alloc: Global, name: &[u8]) -> Result<SetType, AllocError> {
    Ok(SetType {
        name: Name::of(alloc, name)?,
        cell: CellType::Atom(Atom::Octet),
        names: List::new(alloc),
        bounds: Bounds::new(),
        extents: ArrayVec::new(),
        nulls: NullSet::new(),
    })
}

#[test]
fn types_come_back_in_order(rt: HostRuntime) -> Result<(), Fail> {
    let mut types = Types::new(rt.alloc());
    assert!(rt; types.is_empty());
    let grey = set_of(rt.alloc(), b"GreySet")?;
    let red = set_of(rt.alloc(), b"RedSet")?;
    assert!(rt; types.push(rt.alloc(), grey).is_ok());
    assert!(rt; types.push(rt.alloc(), red).is_ok());
    assert_eq!(rt; types.len(), 2);
    assert_eq!(rt; types.get(0).name.bytes(), b"GreySet".as_slice());
    assert_eq!(rt; types.get(1).name.bytes(), b"RedSet".as_slice());
    Ok(())
}

#[test]
fn long_lists_keep_their_items(rt: HostRuntime) -> Result<(), Fail> {
    let mut cells = CellList::with_room(rt.alloc(), 8, 2_000)?;
    for first in 0..2_000i64 {
        assert!(rt; cells.len() < 2_000);
        cells.push(&cell_of(&[first, 2, 3, 4, 5, 6, 7, 8]));
    }
    for (place, number) in (0..cells.len()).zip(0..2_000i64) {
        assert!(rt; place < cells.len());
        let want: Components<'_> = Some(&[number, 2, 3, 4, 5, 6, 7, 8]);
        assert_eq!(rt; components_of(&cells.get(place)), want, "at {place}");
    }
    let mut rows = RowList::new(rt.alloc());
    for number in 0..3_000i64 {
        assert!(rt;
            rows.push(rt.alloc(), RowValue::Scalar(cell_of(&[number])))
                .is_ok()
        );
    }
    assert_eq!(rt; rows.len(), 3_000);
    let mut types = Types::new(rt.alloc());
    for _ in 0..1_000 {
        let grey = set_of(rt.alloc(), b"GreySet")?;
        assert!(rt; types.push(rt.alloc(), grey).is_ok());
    }
    assert_eq!(rt; types.len(), 1_000);
    Ok(())
}
